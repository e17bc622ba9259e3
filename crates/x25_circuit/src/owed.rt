ghost use Rattle.std.specs.Prelude.{◌≡◌, []};
ghost use Rattle.x25_packet.specs.Packet.{plain};
ghost use Rattle.x25_packet.specs.Spelling.{IsChannel, IsInRange, moved_to};

use x25_packet::{Packet, Seq};

/// A packet that a circuit sends for one that came: what it says beside its channel.
///
/// It owns what it says: a `Packet` views octets.
#[derive(Debug, Drop)]
pub enum Owed {
    Clear { cause: u8, diagnostic: u8 },
    ClearConf,
    Rr { pr: Seq },
    Rnr { pr: Seq },
    InterruptConf,
    Reset { cause: u8, diagnostic: u8 },
    ResetConf,
}

impl Owed {
    ghost use Rattle.x25_circuit.specs.code.FitsCircuit.{user_octets};
    ghost use Rattle.x25_circuit.specs.code.Replies.{packet_owed};

    /// The packet on this channel, 1 to 4,095.
    pub fn packet<'a>(&self, channel: u16) -> Packet<'a>
        requires { IsChannel channel }
        ensures value { plain result ≡ packet_owed channel self.now }
        ensures moved { plain result ≡ moved_to channel (packet_owed 1 self.now) }
        ensures range { IsInRange 128 (plain result) }
        ensures control { user_octets (plain result) ≡ [] }
    {
        match self {
            Owed::Clear { cause, diagnostic } => Packet::Clear {
                channel,
                cause: *cause,
                diagnostic: *diagnostic,
            },
            Owed::ClearConf => Packet::ClearConf { channel },
            Owed::Rr { pr } => Packet::Rr { channel, pr: *pr },
            Owed::Rnr { pr } => Packet::Rnr { channel, pr: *pr },
            Owed::InterruptConf => Packet::InterruptConf { channel },
            Owed::Reset { cause, diagnostic } => Packet::Reset {
                channel,
                cause: *cause,
                diagnostic: *diagnostic,
            },
            Owed::ResetConf => Packet::ResetConf { channel },
        }
    }
}
