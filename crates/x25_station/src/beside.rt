//! What a packet brings beside what the station takes it for.
ghost use Rattle.std.specs.Prelude.{◌≡◌, IfSome, is_some};
ghost use Rattle.x25_station.specs.Beside.{AreFew, IsReadShorter, beside_in, beside_kind};
ghost use Rattle.x25_station.specs.Beside.{plain_beside};
ghost use Rattle.x25_packet.specs.Form.{plain_kind};

use x25_packet::{
    Block, FAST_SELECT_OCTETS, Fields, Form, Kind, PacketError, decode, decode_within,
    reading_is_the_grammar,
};

/// What octets bring beside the packet that a station takes them for. Its octets are borrowed.
#[derive(Clone, Copy, Debug)]
pub(crate) enum Beside<'a> {
    /// Nothing: they are a packet in the form that a station writes, or none, or one that says no more.
    Nothing,
    /// The facility field of a CALL, an ACCEPT, a CLEAR or its confirmation, and but for a CALL the user data. They
    /// aren't both empty.
    Fields(Fields<'a>),
    /// The code of a DIAGNOSTIC.
    Diagnostic(u8),
}

fn beside_kind<'a>(a: bool, kind: Kind<'a>) -> Beside<'a>
    ensures { plain_beside result ≡ beside_kind (plain_kind a kind.entry) }
{
    let fields = match kind {
        Kind::Call { body } => match Block::of(a, body).fields {
            // A station tells the user data with the call.
            Some(Fields { facilities, .. }) => Some(Fields {
                facilities,
                user: &[],
            }),
            None => None,
        },
        Kind::Accept { body } | Kind::ClearConf { body } | Kind::ExtendedClear { body, .. } => {
            Block::of(a, body).fields
        }
        Kind::Diagnostic { code, .. } => return Beside::Diagnostic(code),
        _ => None,
    };
    match fields {
        Some(fields) if fields.facilities.len() + fields.user.len() > 0 => Beside::Fields(fields),
        _ => Beside::Nothing,
    }
}

/// What octets bring beside the packet that a station takes them for, by what they are read to in any form: nothing
/// where it reads no other form than that which it writes, or where they are in that.
pub(crate) fn beside_of<'a>(
    form: &Option<Result<Form<'a>, PacketError>>,
    octets: &'a [u8],
) -> Beside<'a>
    requires { IfSome form.now (λ read. IsReadShorter read octets.now) }
    ensures told { plain_beside result ≡ beside_in (is_some form.now) octets.now }
    // At most 109 octets of facilities, and 128 of user data.
    ensures few { AreFew (plain_beside result) }
{
    let Some(read) = form else {
        return Beside::Nothing;
    };
    reading_is_the_grammar();
    let form = match read {
        Ok(form) => *form,
        // A CALL that is too long for this end has 128 octets of user data at most.
        Err(_) => match decode(FAST_SELECT_OCTETS, octets) {
            Ok(form) => form,
            Err(_) => return Beside::Nothing,
        },
    };
    match beside_kind(form.bit_8, form.kind) {
        Beside::Nothing => Beside::Nothing,
        _ if decode_within(FAST_SELECT_OCTETS, octets).is_ok() => Beside::Nothing,
        beside => beside,
    }
}
