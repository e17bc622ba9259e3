ghost use Rattle.std.specs.Prelude.{◌≡◌, ℕ};

use crate::marks::Marks;
use x25_bits::Seq;

/// A packet, ITU-T X.25 (10/96), sections 5.2 to 5.5. Its octets are borrowed.
///
/// `channel` is the logical channel, group and number together: 1 to 4,095. `a` is the A bit and `body` what stands
/// behind the type, of a CALL or an ACCEPT in any form: `call_views` reads it. `ps` is P(S), `pr` is P(R), and `m` the
/// more data mark.
#[derive(Clone, Copy, Debug)]
pub enum Packet<'a> {
    Call {
        a: bool,
        channel: u16,
        body: &'a [u8],
    },
    Accept {
        a: bool,
        channel: u16,
        body: &'a [u8],
    },
    Clear {
        cause: u8,
        diagnostic: u8,
        channel: u16,
    },
    ClearConf {
        channel: u16,
    },
    // The channel stands next to the user data: so those begin in the second word of eight octets.
    Data {
        marks: Marks,
        m: bool,
        ps: Seq,
        pr: Seq,
        channel: u16,
        user: &'a [u8],
    },
    Rr {
        channel: u16,
        pr: Seq,
    },
    Rnr {
        channel: u16,
        pr: Seq,
    },
    Interrupt {
        channel: u16,
        user: &'a [u8],
    },
    InterruptConf {
        channel: u16,
    },
    Reset {
        cause: u8,
        diagnostic: u8,
        channel: u16,
    },
    ResetConf {
        channel: u16,
    },
    Restart {
        cause: u8,
        diagnostic: u8,
    },
    RestartConf,
}

impl<'a> Packet<'a> {
    ghost use Rattle.x25_packet.specs.Packet.{plain};
    ghost use Rattle.x25_packet.specs.Spelling.{HasChannel, IsChannel, IsInRange, moved_to};

    /// The same packet on this channel, 1 to 4,095. A RESTART and its confirmation have none.
    pub fn with_channel(self, channel: u16) -> Packet<'a>
        requires channel { IsChannel channel }
        requires kind { HasChannel (plain self) }
        ensures moved { plain result ≡ moved_to channel (plain self.entry) }
        ensures range { (most : ℕ) → IsInRange most (plain self.entry) → IsInRange most (plain result) }
    {
        match self {
            Packet::Call { a, body, .. } => Packet::Call { a, channel, body },
            Packet::Accept { a, body, .. } => Packet::Accept { a, channel, body },
            Packet::Clear {
                cause,
                diagnostic,
                ..
            } => Packet::Clear {
                cause,
                diagnostic,
                channel,
            },
            Packet::ClearConf { .. } => Packet::ClearConf { channel },
            Packet::Data {
                marks,
                m,
                ps,
                pr,
                user,
                ..
            } => Packet::Data {
                marks,
                m,
                ps,
                pr,
                channel,
                user,
            },
            Packet::Rr { pr, .. } => Packet::Rr { channel, pr },
            Packet::Rnr { pr, .. } => Packet::Rnr { channel, pr },
            Packet::Interrupt { user, .. } => Packet::Interrupt { channel, user },
            Packet::InterruptConf { .. } => Packet::InterruptConf { channel },
            Packet::Reset {
                cause,
                diagnostic,
                ..
            } => Packet::Reset {
                cause,
                diagnostic,
                channel,
            },
            Packet::ResetConf { .. } => Packet::ResetConf { channel },
            Packet::Restart { .. } | Packet::RestartConf => unreachable!(),
        }
    }
}
