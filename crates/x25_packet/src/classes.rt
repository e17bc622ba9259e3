//! Facility fields of all classes, ITU-T X.25 (10/96), section 7.
ghost use Rattle.std.specs.Prelude.{◌≡◌, ◌≤◌, ◌<◌, IfSome, MatchOption, drop, is_some, length};
ghost use Rattle.x25_packet.specs.Classes.{are_facilities, none_own, own_in, size_of};

use crate::facilities::{Directions, PACKET_SIZE, WINDOW_SIZE};

/// A code that parts facilities: those behind it aren't X.25's own, but a network's or the user's.
const MARKER: u8 = 0x00;

/// Reverse charging and fast select.
const FAST_SELECT: u8 = 0x01;

/// The first octet of class D: an octet behind it says how long its value is.
const CLASS_D: u8 = 0xC0;

/// What the facilities before a marker ask for, of those that a station knows. Where one stands twice, the last counts.
#[derive(Clone, Copy, Debug, PartialEq, Eq)]
pub struct Own {
    pub fast_select: bool,
    pub packet_size: Option<Directions>,
    pub window_size: Option<Directions>,
}

/// What stands behind the first facility of a field, as long as its class says, where that is whole.
fn behind_facility<'a>(field: &'a [u8]) -> Option<&'a [u8]>
    ensures { MatchOption result (length field.now < size_of field.now)
        (λ rest. (size_of field.now ≤ length field.now) × (rest.now ≡ drop (size_of field.now) field.now)) }
{
    let size = match field {
        [code, _, ..] if *code < CLASS_D => 2 + usize::from(*code / 64),
        [_, size, ..] => 2 + usize::from(*size),
        _ => return None,
    };
    if field.len() < size {
        return None;
    }
    Some(&field[size..])
}

/// Whether the octets are facilities, one behind another: each as long as its class says.
pub(crate) fn are_facilities(field: &[u8]) -> bool
    ensures { result ≡ are_facilities 0 field.now }
{
    let mut rest = field;
    while let Some(behind) = behind_facility(rest) {
        rest = behind;
    }
    rest.is_empty()
}

/// What the facilities of a field ask for, of those that a station knows. One that is cut off asks for nothing.
pub(crate) fn asked(field: &[u8]) -> Own
    ensures { result ≡ own_in none_own 0 field.now }
{
    let mut own = Own {
        fast_select: false,
        packet_size: None,
        window_size: None,
    };
    let mut rest = field;
    while let Some(behind) = behind_facility(rest) {
        if rest[0] == MARKER {
            return own;
        }
        let called = rest[1];
        let calling = rest.get(2).copied().unwrap_or(0);
        match rest[0] {
            FAST_SELECT => own.fast_select = called >= 128,
            PACKET_SIZE => own.packet_size = Some(Directions { called, calling }),
            WINDOW_SIZE => own.window_size = Some(Directions { called, calling }),
            _ => {}
        }
        rest = behind;
    }
    own
}

/// The same where the octets are facilities, one behind another, each as long as its class says, and else None.
pub fn own_facilities(field: &[u8]) -> Option<Own>
    ensures whole { is_some result ≡ are_facilities 0 field.now }
    ensures own { IfSome result (λ own. own ≡ own_in none_own 0 field.now) }
{
    if !are_facilities(field) {
        return None;
    }
    Some(asked(field))
}
