//! The facility field of a CALL or ACCEPT packet, ITU-T X.25 (10/96), sections 7.1 and 7.2.2.1.
ghost use Rattle.std.specs.Prelude.{◌≡◌, ◌≤◌, [], length, IfOk, IfErr, Ok};
ghost use Rattle.x25_packet.specs.Facilities.{AreAllowed, facilities_of, field_of, is_within};
ghost use Rattle.x25_packet.specs.Reading.FirstError.{FieldError};
ghost use Rattle.x25_packet.specs.declared.facilities.Facilities.{Facilities};

use crate::error::PacketError;
use std::marker::Model;

pub(crate) const PACKET_SIZE: u8 = 0x42;

pub(crate) const WINDOW_SIZE: u8 = 0x43;

/// A value for each direction of data: from the called end and from the calling end.
#[derive(Clone, Copy, Debug, PartialEq, Eq)]
pub struct Directions {
    pub called: u8,
    pub calling: u8,
}

/// The facilities that a field names: packet sizes, as powers of 2 from 4 (16 octets) to 12 (4,096 octets), and window
/// sizes, 1 to 7 packets.
#[derive(Clone, Copy, Debug, PartialEq, Eq)]
pub struct Facilities {
    pub packet_size: Option<Directions>,
    pub window_size: Option<Directions>,
}

pub(crate) fn is_within(least: u8, most: u8, value: u8) -> bool
    ensures { result ≡ is_within least most value }
{
    least <= value && value <= most
}

impl Facilities {
    /// The facilities of a field, or its first error from the left.
    ///
    /// 25: a code other than 0x42 and then 0x43, each once. 26: fewer than two octets behind a code, or one out of
    /// range.
    pub fn of(field: &[u8]) -> Result<Facilities, PacketError>
        ensures exact { result ≡ facilities_of field.now }
        // The first error, from the left.
        ensures fault { IfErr result (FieldError field.now) }
        ensures found { IfOk result (λ facilities. AreAllowed facilities × (field.now ≡ field_of facilities)) }
        ensures only { (facilities : Facilities) → AreAllowed facilities → field.now ≡ field_of facilities
            → result ≡ Ok facilities }
    {
        read(field)
    }
}

#[tactic(auto, unfolding(crate::specs::Facilities::facilities_of))]
fn read(field: &[u8]) -> Result<Facilities, PacketError>
    ensures { result ≡ facilities_of field.now }
{
    let (packet_size, rest) = match field {
        [PACKET_SIZE, called, calling, rest @ ..]
            if is_within(4, 12, *called) && is_within(4, 12, *calling) => {
            let (called, calling) = (*called, *calling);
            (Some(Directions { called, calling }), rest)
        }
        [PACKET_SIZE, ..] => return Err(PacketError::BadParameter),
        _ => (None, field),
    };
    let window_size = match rest {
        [] => None,
        [WINDOW_SIZE, called, calling, behind @ ..]
            if is_within(1, 7, *called) && is_within(1, 7, *calling) => {
            if !behind.is_empty() {
                return Err(PacketError::BadFacility);
            }
            let (called, calling) = (*called, *calling);
            Some(Directions { called, calling })
        }
        [WINDOW_SIZE, ..] => return Err(PacketError::BadParameter),
        _ => return Err(PacketError::BadFacility),
    };
    Ok(Facilities {
        packet_size,
        window_size,
    })
}

/// The facility field of a packet. Contracts see its octets.
#[derive(Debug, Drop)]
pub struct FacilityField {
    /// The packet sizes, three octets, and the windows, three octets.
    octets: [u8; 6],
    has_sizes: bool,
    has_windows: bool,
}

impl Model for FacilityField {
    ghost use Rattle.std.specs.Prelude.{List, ℕ, ◌≡◌, length};
    ghost use Rattle.x25_packet.specs.code.FieldOctets.{field_shown};

    ghost Value = { List ℕ };

    ghost view = { λ f. field_shown f.octets f.has_sizes f.has_windows };

    ghost invariant = { λ f. length f.octets ≡ 6 };
}

impl FacilityField {
    /// No facilities.
    pub fn none() -> FacilityField
        ensures { result ≡ [] }
    {
        FacilityField {
            octets: [0; 6],
            has_sizes: false,
            has_windows: false,
        }
    }

    /// The field that names these facilities, whatever they are.
    pub fn of(facilities: Facilities) -> FacilityField
        ensures { result ≡ field_of facilities }
    {
        let none = Directions {
            called: 0,
            calling: 0,
        };
        let sizes = facilities.packet_size.unwrap_or(none);
        let windows = facilities.window_size.unwrap_or(none);
        FacilityField {
            octets: [
                PACKET_SIZE,
                sizes.called,
                sizes.calling,
                WINDOW_SIZE,
                windows.called,
                windows.calling,
            ],
            has_sizes: facilities.packet_size.is_some(),
            has_windows: facilities.window_size.is_some(),
        }
    }

    /// The octets.
    pub fn as_slice(&self) -> &[u8]
        ensures octets { result.now ≡ self.now }
        ensures few { length result.now ≤ 6 }
    {
        match (self.has_sizes, self.has_windows) {
            (true, true) => &self.octets,
            (true, false) => &self.octets[..3],
            (false, true) => &self.octets[3..],
            (false, false) => &[],
        }
    }
}
