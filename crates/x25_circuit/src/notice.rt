ghost use Rattle.std.specs.Prelude.{◌≡◌, false, [], ◌∷◌, None, Some};
ghost use Rattle.x25_packet.specs.Spelling.{IsInRange};

use crate::owed::Owed;
use crate::params::Params;
use x25_packet::Marks;

/// What a packet brought the user. Octets are borrowed from the packet; those of a message stand beside it.
#[derive(Debug, Drop)]
pub enum Notice<'a> {
    /// The other end calls.
    Incoming {
        /// The A bit, and what stands behind the type of its CALL.
        a: bool,
        /// The packet sizes and windows that it proposes.
        params: Params,
        body: &'a [u8],
    },
    /// The other end accepted the call, with these packet sizes and windows.
    Connected {
        params: Params,
    },
    /// The other end cleared the call.
    Cleared {
        cause: u8,
        diagnostic: u8,
    },
    /// This end's clearing is confirmed.
    ClearDone,
    /// The other end reset the call.
    WasReset {
        cause: u8,
        diagnostic: u8,
    },
    /// This end's reset is confirmed.
    ResetDone,
    /// The last packet of a message came, with these marks.
    Delivered {
        marks: Marks,
    },
    /// An interrupt came.
    Interrupted {
        user: &'a [u8],
    },
    /// This end's interrupt is confirmed.
    InterruptDone,
    /// The packet was an error of procedure, which this end reports to the other by this diagnostic.
    Fault {
        diagnostic: u8,
    },
}

/// What a circuit answers to a packet: the packet to send, and what is reported to the user.
#[derive(Debug, Drop)]
pub struct Reply<'a> {
    pub packet: Option<Owed>,
    /// This end's own call was dropped for the one of the notice.
    pub collided: bool,
    pub notice: Option<Notice<'a>>,
}

impl<'a> Reply<'a> {
    ghost use Rattle.x25_circuit.specs.code.Replies.{Says, IsSendable, packet_owed, plain_notice, plain_owed};
    ghost use Rattle.x25_circuit.specs.code.Replies.{is_message, tells_message};

    /// Nothing is sent or reported.
    pub(crate) fn nothing() -> Reply<'a>
        ensures says { Says [] result None [] }
        ensures range { IsSendable (plain_owed result.packet) }
        ensures told { tells_message result.notice ≡ false }
    {
        Reply {
            packet: None,
            collided: false,
            notice: None,
        }
    }

    /// Nothing is sent.
    pub(crate) fn tells(notice: Notice<'a>) -> Reply<'a>
        ensures says { Says [] result None (plain_notice [] notice.entry ∷ []) }
        ensures range { IsSendable (plain_owed result.packet) }
        ensures told { tells_message result.notice ≡ is_message notice.entry }
    {
        Reply {
            packet: None,
            collided: false,
            notice: Some(notice),
        }
    }

    /// Nothing is reported.
    pub(crate) fn owes(packet: Owed) -> Reply<'a>
        ensures says { Says [] result (Some (packet_owed 1 packet)) [] }
        ensures range { IsInRange 128 (packet_owed 1 packet) → IsSendable (plain_owed result.packet) }
        ensures told { tells_message result.notice ≡ false }
    {
        Reply {
            packet: Some(packet),
            collided: false,
            notice: None,
        }
    }

    /// A packet is sent, and something is reported to the user.
    pub(crate) fn both(packet: Owed, notice: Notice<'a>) -> Reply<'a>
        ensures says { Says [] result (Some (packet_owed 1 packet)) (plain_notice [] notice.entry ∷ []) }
        ensures range { IsInRange 128 (packet_owed 1 packet) → IsSendable (plain_owed result.packet) }
        ensures told { tells_message result.notice ≡ is_message notice.entry }
    {
        Reply {
            packet: Some(packet),
            collided: false,
            notice: Some(notice),
        }
    }
}
