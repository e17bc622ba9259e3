use std::alloc::Global;
use x25_packet::{
    CALL_OCTETS, Digits, Directions, Facilities, FacilityField, LONG_CALL_OCTETS, NoMemory, Packet,
    PacketError, call_views, channel, decode_within, encode, encode_accept, encode_call,
    longest_user,
};

/// Octets in hexadecimal, and the number of their error, 0 where they spell a packet.
static ROWS: [(&str, u8); 29] = [
    ("1000fb0000", 0),
    ("1000fb0700", 0),
    ("1000ff", 0),
    ("9001b4", 0),
    ("d001b4", 21),
    ("10010b43123456700041", 0),
    ("10010b43123456710041", 24),
    ("10010b111206420707430202", 0),
    ("10010b111206430202420707", 25),
    ("10010b111206420307430202", 26),
    ("10010b1112024207", 26),
    ("10011300", 20),
    ("1001130000", 0),
    ("100113000000", 23),
    ("9001130000", 21),
    ("1001fb0000", 22),
    ("100109", 22),
    ("1000f1", 22),
    ("10010f", 0),
    ("10010f00", 20),
    ("10010f01", 24),
    ("10010f0000", 26),
    ("100123", 20),
    ("10012300", 0),
    ("1fff27", 0),
    ("11001b0501", 0),
    ("10011f", 0),
    ("100117", 0),
    ("100141", 0),
];

/// The number of the error, 0 where there is none.
fn number_in(read: Result<Packet, PacketError>) -> u8 {
    match read {
        Ok(_) => 0,
        Err(error) => error.number(),
    }
}

// The number of the error that the octets have, 0 where they spell a packet and are what it is spelled as, and none
// where it is spelled otherwise or there is no memory.
fn error_number(alloc: Global, octets: &[u8]) -> Option<u8> {
    let packet = match decode_within(CALL_OCTETS, octets) {
        Ok(packet) => packet,
        Err(error) => return Some(error.number()),
    };
    let mut again = Vec::new(alloc);
    if encode(&packet, &mut again).is_err() || again.as_slice() != octets {
        return None;
    }
    Some(0)
}

// The errors of these octets, where a CALL has at most 16 octets of user data and where it has 128.
fn errors_of(alloc: Global, text: &str) -> Option<(u8, u8)> {
    let octets = hex::decode(alloc, text).ok()?;
    let number = error_number(alloc, octets.as_slice())?;
    let long = decode_within(LONG_CALL_OCTETS, octets.as_slice());
    Some((number, number_in(long)))
}

#[test]
fn packets_and_errors(rt: HostRuntime) {
    for &(text, number) in &ROWS {
        assert_eq!(rt;
            errors_of(rt.alloc(), text),
            Some((number, number)),
            "{text}"
        );
    }
}

/// The first octets of a packet, how many 0 octets follow, as many as may and one more, and the error.
static LONGEST: [(&[u8], usize, u8); 6] = [
    (&[0x10, 0x01, 0x23], 32, 0),
    (&[0x10, 0x01, 0x23], 33, 23),
    (&[0x10, 0x01, 0x00], 4096, 0),
    (&[0x10, 0x01, 0x00], 4097, 23),
    (&[0x10, 0x01, 0x0B, 0, 0], 16, 0),
    (&[0x10, 0x01, 0x0B, 0, 0], 17, 23),
];

/// The head with so many 0 octets behind it.
fn lengthened(alloc: Global, head: &[u8], count: usize) -> Result<Vec<u8>, NoMemory> {
    let mut octets = head.to_vec(alloc)?;
    for _ in 0..count {
        octets.push(0)?;
    }
    Ok(octets)
}

fn error_of_long(alloc: Global, head: &[u8], count: usize) -> Option<u8> {
    let octets = lengthened(alloc, head, count).ok()?;
    error_number(alloc, octets.as_slice())
}

#[test]
fn longest_bodies(rt: HostRuntime) {
    for &(head, count, number) in &LONGEST {
        let found = error_of_long(rt.alloc(), head, count);
        assert_eq!(rt; found, Some(number), "{head:?} {count}");
    }
}

/// How many octets of user data a CALL has, and its errors where it may have 16 and where it may have 128.
static USER_DATA: [(usize, u8, u8); 5] = [
    (0, 0, 0),
    (16, 0, 0),
    (17, 23, 0),
    (128, 23, 0),
    (129, 23, 23),
];

// The errors of a CALL where it may have 16 octets of user data, 128, those that it has, and one fewer; and whether it
// has the octets behind the first five as its user data.
fn errors_of_call(octets: &[u8], count: usize) -> (u8, u8, u8, u8, bool) {
    let fewer = match count.checked_sub(1) {
        Some(fewer) => number_in(decode_within(fewer, octets)),
        None => 23,
    };
    (
        number_in(decode_within(CALL_OCTETS, octets)),
        number_in(decode_within(LONG_CALL_OCTETS, octets)),
        number_in(decode_within(count, octets)),
        fewer,
        has_user_data(octets),
    )
}

// Where it is read at all.
fn has_user_data(octets: &[u8]) -> bool {
    match decode_within(LONG_CALL_OCTETS, octets) {
        Ok(Packet::Call { a, body, .. }) => {
            octets.len() >= 5 && call_views(a, body).user == &octets[5..]
        }
        _ => true,
    }
}

fn errors_of_user_data(alloc: Global, count: usize) -> Option<(u8, u8, u8, u8, bool)> {
    let octets = lengthened(alloc, &[0x10, 0x01, 0x0B, 0, 0], count).ok()?;
    Some(errors_of_call(octets.as_slice(), count))
}

#[test]
fn user_data_of_a_call(rt: HostRuntime) {
    for &(count, short, long) in &USER_DATA {
        let found = errors_of_user_data(rt.alloc(), count);
        assert_eq!(rt; found, Some((short, long, 0, 23, true)), "{count}");
    }
}

#[test]
fn longest_user_data_of_a_call(rt: HostRuntime) {
    assert_eq!(rt; (longest_user(false), longest_user(true)), (16, 128));
}

/// Octets, and the channel that they name.
static CHANNELS: [(&[u8], Option<u16>); 3] = [
    (&[0x1F, 0xFF, 0], Some(4095)),
    (&[0xD0, 0x01, 0xB4], Some(1)),
    (&[0x10, 0x01], None),
];

#[test]
fn channels(rt: HostRuntime) {
    for &(octets, wanted) in &CHANNELS {
        assert_eq!(rt; channel(octets), wanted, "{octets:?}");
    }
}

// Whether a CLEAR is spelled right on channel 256.
fn spells_on_another_channel(alloc: Global) -> bool {
    let packet = Packet::Clear {
        cause: 0,
        diagnostic: 20,
        channel: 1,
    };
    let mut octets = Vec::new(alloc);
    let is_spelled = encode(&packet.with_channel(256), &mut octets).is_ok();
    is_spelled && octets.as_slice() == [0x11, 0x00, 0x13, 0, 20].as_slice()
}

#[test]
fn another_channel(rt: HostRuntime) {
    assert!(rt; spells_on_another_channel(rt.alloc()));
}

const SIZES: Facilities = Facilities {
    packet_size: Some(Directions {
        called: 7,
        calling: 8,
    }),
    window_size: None,
};

// Whether a CALL of three digits to four on channel 256, with packet sizes, is spelled right.
fn spells_a_call(alloc: Global) -> bool {
    let (Some(called), Some(calling)) = (Digits::of("123"), Digits::of("4567")) else {
        return false;
    };
    let field = FacilityField::of(SIZES);
    let mut octets = Vec::new(alloc);
    let is_spelled = encode_call(256, &called, &calling, &field, &[0x41], &mut octets).is_ok();
    let wanted = [
        0x11, 0x00, 0x0B, 0x43, 0x12, 0x34, 0x56, 0x70, 3, 0x42, 7, 8, 0x41,
    ];
    is_spelled && octets.as_slice() == wanted.as_slice()
}

#[test]
fn a_call(rt: HostRuntime) {
    assert!(rt; spells_a_call(rt.alloc()));
}

// Whether the ACCEPT with these facilities on channel 1 is spelled so.
fn spells_accept(alloc: Global, field: &FacilityField, wanted: &[u8]) -> bool {
    let mut octets = Vec::new(alloc);
    let is_spelled = encode_accept(1, field, &mut octets).is_ok();
    is_spelled && octets.as_slice() == wanted
}

#[test]
fn acceptances(rt: HostRuntime) {
    let sizes = FacilityField::of(SIZES);
    let is_spelled = spells_accept(rt.alloc(), &sizes, &[0x10, 1, 0x0F, 0, 3, 0x42, 7, 8]);
    let none = FacilityField::none();
    assert!(rt; is_spelled && spells_accept(rt.alloc(), &none, &[0x10, 1, 0x0F]));
}

/// Each error, its number, its diagnostic code and its message.
static ERRORS: [(PacketError, u8, u8, &str); 7] = [
    (PacketError::TooShort, 20, 38, "too few octets"),
    (
        PacketError::BadFormat,
        21,
        40,
        "a wrong general format identifier",
    ),
    (
        PacketError::Unidentified,
        22,
        33,
        "an unidentifiable packet type",
    ),
    (PacketError::TooLong, 23, 39, "too many octets"),
    (PacketError::BadDigit, 24, 0, "a wrong digit of an address"),
    (
        PacketError::BadFacility,
        25,
        65,
        "a facility that is not allowed",
    ),
    (
        PacketError::BadParameter,
        26,
        66,
        "a facility parameter that is not allowed",
    ),
];

fn says(alloc: Global, error: PacketError, message: &str) -> bool {
    match error.to_string(alloc) {
        Ok(told) => told.as_str() == message,
        Err(_) => false,
    }
}

#[test]
fn has_a_number_a_diagnostic_and_a_message(rt: HostRuntime) {
    for &(error, number, diagnostic, message) in &ERRORS {
        let found = (
            error.number(),
            error.diagnostic(),
            says(rt.alloc(), error, message),
        );
        assert_eq!(rt; found, (number, diagnostic, true), "{message}");
    }
}
