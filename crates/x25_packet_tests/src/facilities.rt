use x25_packet::{Directions, Own, own_facilities};

/// Facility fields, and whether their octets are facilities.
static FIELDS: [(&[u8], bool); 12] = [
    (&[], true),
    (&[0x01], false),
    (&[0x01, 0x80], true),
    (&[0x02], false),
    (&[0x42, 0x07], false),
    (&[0x42, 0x07, 0x07], true),
    (&[0x81, 1, 2], false),
    (&[0x81, 1, 2, 3], true),
    (&[0xC9, 0], true),
    (&[0xC9, 2, 1], false),
    (&[0x00, 0x0F, 0xC9, 2, 1, 2], true),
    (&[0x01, 0x80, 0x43], false),
];

#[test]
fn facilities_of_each_class(rt: HostRuntime) {
    for &(field, wanted) in &FIELDS {
        assert_eq!(rt; own_facilities(field).is_some(), wanted, "{field:?}");
    }
}

/// Whether up to three octets are facilities, said otherwise: each code with as many octets as its class has.
fn are_short_facilities(octets: [u8; 3], count: usize) -> bool {
    match (count, octets) {
        (0, _) => true,
        (2, [code, value, _]) => code < 64 || code >= 192 && value == 0,
        (3, [code, value, _]) => 64 <= code && code < 128 || code >= 192 && value == 1,
        _ => false,
    }
}

#[test]
fn fields_of_up_to_three_octets(rt: HostRuntime) {
    for first in 0u8..=255 {
        for second in 0u8..=255 {
            let octets = [first, second, 0];
            let count = usize::from(second) % 3;
            assert_eq!(rt;
                own_facilities(&octets[..count]).is_some(),
                are_short_facilities(octets, count),
                "{octets:?}"
            );
        }
    }
}

const SIZES: Option<Directions> = Some(Directions {
    called: 8,
    calling: 7,
});

const WINDOWS: Option<Directions> = Some(Directions {
    called: 2,
    calling: 3,
});

/// A facility field, and those of its facilities that stand before a marker.
static OWN: [(&[u8], Own); 4] = [
    (
        &[0x43, 2, 3, 0x01, 0x81, 0x42, 8, 7],
        Own {
            fast_select: true,
            packet_size: SIZES,
            window_size: WINDOWS,
        },
    ),
    (
        &[0x01, 0x80, 0x01, 0x01],
        Own {
            fast_select: false,
            packet_size: None,
            window_size: None,
        },
    ),
    (
        &[0x42, 8, 7, 0x00, 0x0F, 0x43, 2, 3, 0x01, 0x80],
        Own {
            fast_select: false,
            packet_size: SIZES,
            window_size: None,
        },
    ),
    (
        &[0xC9, 3, 0x42, 8, 7, 0x43, 2, 3],
        Own {
            fast_select: false,
            packet_size: None,
            window_size: WINDOWS,
        },
    ),
];

#[test]
fn facilities_before_a_marker(rt: HostRuntime) {
    for &(field, wanted) in &OWN {
        assert!(rt; own_facilities(field) == Some(wanted), "{field:?}");
    }
}
