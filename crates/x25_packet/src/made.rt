//! What a packet is read to.
ghost use Rattle.x25_packet.specs.Made.{head_with};
ghost use Rattle.x25_packet.specs.Form.{PlainForm, plain, plain_kind};
ghost use Rattle.x25_packet.specs.Grammar.{Gives};
ghost use Rattle.x25_packet.specs.declared.error.PacketError.{PacketError};
ghost use Rattle.std.specs.Prelude.{Result, Ok};

use crate::error::PacketError;
use crate::form::{Form, Kind};

/// What the first two octets say.
#[derive(Clone, Copy, Debug)]
pub(crate) struct Head {
    pub(crate) channel: u16,
    pub(crate) bit_8: bool,
    pub(crate) d: bool,
}

/// What a packet is read to: the packet as it is, or the one that a station takes it for.
pub(crate) trait Made<'a>: Sized {
    /// This is the answer for the packet.
    ghost gives: { Result Self PacketError → PlainForm → Type 0 };

    fn made(head: Head, kind: Kind<'a>) -> Result<Self, PacketError>
        ensures { gives result (head_with head (plain_kind head.bit_8 kind.entry)) };
}

impl<'a> Made<'a> for Form<'a> {
    ghost gives = { λ r w. Gives plain r (Ok w) };

    #[inline(always)]
    fn made(head: Head, kind: Kind<'a>) -> Result<Form<'a>, PacketError> {
        Ok(Form {
            channel: head.channel,
            bit_8: head.bit_8,
            d: head.d,
            kind,
        })
    }
}
