use crate::views::are_figures;
use std::alloc::Global;
use x25_packet::{Block, Form, Halves, Kind, decode};

/// Octets in hexadecimal, and the number of their error, 0 where they spell a packet.
static ROWS: [(&str, u8); 61] = [
    // CALL: D; reverse charging; facilities of an OSI stack; no facility length; 17 octets of user data without and
    // with fast select; a field of 110 octets; a facility whose octets are missing; a digit that is none
    ("50010b111200", 0),
    ("10010b1112020101", 0),
    ("10010b111208000fc902123401ff", 0),
    ("10010b1112", 0),
    ("10010b11120001020304050607080910111213141516", 0),
    ("10010b1112000102030405060708091011121314151617", 23),
    ("10010b1112020180000102030405060708091011121314151617", 0),
    ("10010b11126e", 23),
    ("10010b1112054207074302", 26),
    ("10010b1112064207074302", 20),
    ("10010b11120442070743", 26),
    ("10010b111a00", 24),
    ("10010b", 20),
    ("10010b11", 20),
    ("d0011b00", 21),
    // addresses with their types and plans: two of digits; none; a type alone; an alternative address; the longest; a
    // length is missing; octets are missing; a half octet that is left over isn't 0; in an ACCEPT, a CLEAR and its
    // confirmation; without addresses; in a RESET and a RR, which have no A
    ("90010b0708114930113208075000", 0),
    ("90010b07071149301132080700", 0),
    ("90010b0000", 0),
    ("90010b010010", 0),
    ("90010b0a0050c0a80001", 0),
    ("d0010b060013123400", 0),
    ("90010b00", 20),
    ("90010b030013", 20),
    ("90010b0300131f", 24),
    ("90010f030313113200", 0),
    ("90011305410300131000", 0),
    ("90011703001310", 0),
    ("900113", 20),
    ("90011b00", 21),
    // ACCEPT: basic, lengths, a facility field, user data
    ("10010f", 0),
    ("10010f00", 0),
    ("10010f0000", 0),
    ("50010f", 0),
    ("10010f111203420707", 0),
    ("10010f000041", 0),
    ("10010f1112034207", 20),
    // CLEAR and its confirmation: the cause alone, a diagnostic, the extended format
    ("100113", 20),
    ("10011300", 0),
    ("1001130541", 0),
    ("100113054100", 0),
    ("10011305410000c0ffee", 0),
    ("5001130000", 21),
    ("100117", 0),
    ("1001170000", 0),
    ("100117000041", 23),
    // RESET and RESTART: the cause alone
    ("10011b", 20),
    ("10011b00", 0),
    ("10011b000000", 23),
    ("1000fb07", 0),
    ("1000ff", 0),
    // DATA with D; REJ; DIAGNOSTIC; REGISTRATION
    ("5001024142", 0),
    ("d00102", 0),
    ("100149", 0),
    ("10014900", 23),
    ("1000f1", 20),
    ("1000f12110010b", 0),
    ("1000f12110010b00", 23),
    ("1000f30000", 0),
    ("1000f7", 0),
    // no packet modulo 8, and types that none has
    ("2001ff", 21),
    ("100119", 22),
];

fn error_number(alloc: Global, text: &str) -> Option<u8> {
    let octets = hex::decode(alloc, text).ok()?;
    match decode(16, octets.as_slice()) {
        Ok(_) => Some(0),
        Err(error) => Some(error.number()),
    }
}

#[test]
fn packets_and_errors(rt: HostRuntime) {
    for &(text, number) in &ROWS {
        assert_eq!(rt; error_number(rt.alloc(), text), Some(number), "{text}");
    }
}

/// A CALL with D, the addresses 123 and 4567, a facility and two octets of user data.
static CALL: [u8; 13] = [
    0x50, 0x01, 0x0B, 0x43, 0x12, 0x34, 0x56, 0x70, 0x02, 0x01, 0x01, 0x41, 0x42,
];

// Whether these are the addresses of a CALL with D on channel 1.
fn has_digits(octets: &[u8], called: &str, calling: &str) -> bool {
    match decode(16, octets) {
        Ok(
            Form {
                channel: 1,
                bit_8: false,
                d: true,
                kind: Kind::Call { body },
            },
        ) => {
            let block = Block::of(false, body);
            are_figures(&block.called_halves(), called)
                && are_figures(&block.calling_halves(), calling)
        }
        _ => false,
    }
}

// Whether these are the facilities and the user data of a CALL.
fn has_fields(octets: &[u8], facilities: &[u8], user: &[u8]) -> bool {
    match decode(16, octets) {
        Ok(
            Form {
                kind: Kind::Call { body },
                ..
            },
        ) => match Block::of(false, body).fields {
            Some(fields) => fields.facilities == facilities && fields.user == user,
            None => false,
        },
        _ => false,
    }
}

#[test]
fn addresses_and_fields(rt: HostRuntime) {
    let has_fields = has_fields(&CALL, &[0x01, 0x01], &[0x41, 0x42]);
    assert!(rt; has_fields && has_digits(&CALL, "123", "4567"));
}

/// A CALL with A, whose addresses have their types and plans.
static TYPED: [u8; 11] = [
    0x90, 0x01, 0x0B, 0x05, 0x06, 0x11, 0x49, 0x31, 0x32, 0x08, 0xF0,
];

fn are_halves(found: &Halves, wanted: &[u8]) -> bool {
    if found.len() != wanted.len() {
        return false;
    }
    for place in 0..wanted.len() {
        if found.get(place) != wanted[place] {
            return false;
        }
    }
    true
}

// Whether these are the half octets of the addresses of a CALL with A, and of the called one behind two.
fn has_halves(octets: &[u8], called: &[u8], calling: &[u8], behind: &[u8]) -> bool {
    let Ok(
        Form {
            bit_8: true,
            kind: Kind::Call { body },
            ..
        },
    ) = decode(16, octets)
    else {
        return false;
    };
    let block = Block::of(true, body);
    let found = block.called_halves();
    found.len() >= 2
        && are_halves(&found, called)
        && are_halves(&found.behind(2), behind)
        && are_halves(&block.calling_halves(), calling)
}

// Whether the calling address stands in these octets, behind so many half octets.
fn stands_in(octets: &[u8], wanted: &[u8], before: usize) -> bool {
    let Ok(
        Form {
            kind: Kind::Call { body },
            ..
        },
    ) = decode(16, octets)
    else {
        return false;
    };
    let held = Block::of(true, body).calling_halves().octets();
    held.0 == wanted && held.1 == before
}

#[test]
fn addresses_with_types(rt: HostRuntime) {
    assert!(rt; has_halves(&TYPED, &[1, 1, 4, 9, 3], &[1, 3, 2, 0, 8, 15], &[4, 9, 3]));
    assert!(rt; stands_in(&TYPED, &[0x31, 0x32, 0x08, 0xF0], 1));
}
