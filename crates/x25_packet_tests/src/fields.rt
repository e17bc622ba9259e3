use x25_packet::{Digits, Directions, Facilities, FacilityField, PacketError, hold_digits};

/// A text, and how many digits it is and whether it has none, where it is an address.
static TEXTS: [(&str, Option<(usize, bool)>); 5] = [
    ("4567", Some((4, false))),
    ("", Some((0, true))),
    ("123456789012345", Some((15, false))),
    ("1234567890123456", None),
    ("12a", None),
];

/// Whether these are the digits of a text.
fn are_digits(found: &Digits, wanted: &str) -> bool {
    let wanted = wanted.as_bytes();
    if found.len() != wanted.len() {
        return false;
    }
    for place in 0..wanted.len() {
        if found.get(place) + 48 != wanted[place] {
            return false;
        }
    }
    true
}

// How many digits a text is, and whether it has none, where they are those of the text.
fn digits_in(text: &str) -> Option<(usize, bool)> {
    match Digits::of(text) {
        Some(digits) if are_digits(&digits, text) => Some((digits.len(), digits.is_empty())),
        _ => None,
    }
}

#[test]
fn digits_of_a_text(rt: HostRuntime) {
    for &(text, wanted) in &TEXTS {
        assert_eq!(rt; digits_in(text), wanted, "{text}");
    }
}

/// Digits, octets, and whether they are packed right in these, or in more of which these are the first.
static PACKED: [(u8, [u8; 2], bool); 6] = [
    (3, [0x12, 0x30], true),
    (4, [0x12, 0x30], true),
    (3, [0x12, 0x31], false),
    (4, [0x12, 0x3A], false),
    (5, [0x12, 0x31], true),
    (6, [0xA2, 0x31], false),
];

fn are_packed(count: u8, octets: &[u8]) -> Option<bool> {
    let count = usize::from(count);
    if octets.len() > (count + 1) / 2 {
        return None;
    }
    Some(hold_digits(count, octets))
}

#[test]
fn digits_in_half_octets(rt: HostRuntime) {
    for (count, octets, wanted) in &PACKED {
        assert_eq!(rt;
            are_packed(*count, octets.as_slice()),
            Some(*wanted),
            "{octets:?}"
        );
    }
}

/// Sizes of 128 and 256 octets.
const SIZES: Option<Directions> = Some(Directions {
    called: 7,
    calling: 8,
});

/// Windows of 2 and 3 packets.
const WINDOWS: Option<Directions> = Some(Directions {
    called: 2,
    calling: 3,
});

const BOTH: Facilities = Facilities {
    packet_size: SIZES,
    window_size: WINDOWS,
};

/// A facility field, and what it says.
static FIELDS: [(&[u8], Result<Facilities, PacketError>); 3] = [
    (&[0x42, 7, 8, 0x43, 2, 3], Ok(BOTH)),
    (&[0x43, 2, 3, 0x42, 7, 8], Err(PacketError::BadFacility)),
    (&[0x42, 3, 8], Err(PacketError::BadParameter)),
];

#[test]
fn facilities_of_a_field(rt: HostRuntime) {
    for &(field, wanted) in &FIELDS {
        assert!(rt; Facilities::of(field) == wanted, "{field:?}");
    }
}

/// Facilities, and their field: of both, of each alone, and of none.
static FIELDS_OF: [(Facilities, &[u8]); 4] = [
    (BOTH, &[0x42, 7, 8, 0x43, 2, 3]),
    (
        Facilities {
            packet_size: SIZES,
            window_size: None,
        },
        &[0x42, 7, 8],
    ),
    (
        Facilities {
            packet_size: None,
            window_size: WINDOWS,
        },
        &[0x43, 2, 3],
    ),
    (
        Facilities {
            packet_size: None,
            window_size: None,
        },
        &[],
    ),
];

#[test]
fn field_of_facilities(rt: HostRuntime) {
    for &(facilities, wanted) in &FIELDS_OF {
        assert!(rt;
            FacilityField::of(facilities).as_slice() == wanted,
            "{wanted:?}"
        );
    }
    assert!(rt; FacilityField::none().as_slice().is_empty());
}
