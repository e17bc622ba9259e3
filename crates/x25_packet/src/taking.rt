//! What a station takes octets for: what the packet that they are, in any form, is taken for.
ghost use Rattle.std.specs.Prelude.{is_some};
ghost use Rattle.x25_packet.specs.Grammar.{Gives};
ghost use Rattle.x25_packet.specs.Packet.{plain};
ghost use Rattle.x25_packet.specs.Taking.{IsFormOf, read_in};

use crate::error::PacketError;
use crate::form::{Form, Forms};
use crate::made::{Head, Made};
use crate::packet::Packet;

/// The packet that a station reads octets as. Where it reads packets in all their forms `form` is what `decode` reads
/// them to, with `most` octets of user data; else they are read in the form that it writes itself alone, as
/// `decode_within` does. It borrows the octets.
///
/// The errors of these; of a form 22 too for REJ, DIAGNOSTIC and REGISTRATION, and 26 for a packet size or window size
/// out of its range.
pub fn read<'a>(
    form: &Option<Result<Form<'a>, PacketError>>,
    most: usize,
    octets: &'a [u8],
) -> Result<Packet<'a>, PacketError>
    requires { IsFormOf most octets.now form.now }
    ensures { Gives plain result (read_in (is_some form.now) most octets.now) }
{
    match form {
        Some(Ok(form)) => {
            let head = Head {
                channel: form.channel,
                bit_8: form.bit_8,
                d: form.d,
            };
            Packet::made(head, form.kind)
        }
        Some(Err(error)) => Err(*error),
        None => crate::grammar::read(Forms::Written, most, octets),
    }
}
