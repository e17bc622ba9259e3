use crate::views::are_figures;
use std::alloc::Global;
use x25_packet::{Packet, PacketError, call_views, decode, read, taking_keeps_octets};

/// What is taken of a packet: a cause, a diagnostic, and the facility field.
type Taken = (u8, u8, &'static [u8]);

/// Octets in hexadecimal, the number of the error that they are for a station, or 0, and what it takes of them.
static ROWS: [(&str, u8, Taken); 20] = [
    ("10010b431234567000", 0, (0, 0, &[])),
    ("50010b11120201014142", 0, (0, 0, &[])),
    (
        "10010b111206430202420707",
        0,
        (0, 0, &[0x42, 0x07, 0x07, 0x43, 0x02, 0x02]),
    ),
    (
        "10010b1112084207070000420808",
        0,
        (0, 0, &[0x42, 0x07, 0x07]),
    ),
    ("10010b1112", 0, (0, 0, &[])),
    (
        "10010b0000000102030405060708090a0b0c0d0e0f10",
        23,
        (0, 0, &[]),
    ),
    ("90010b0605114930201320064207", 20, (0, 0, &[])),
    (
        "90010b060511493020132006420707430202",
        0,
        (0, 0, &[0x42, 0x07, 0x07, 0x43, 0x02, 0x02]),
    ),
    ("10010f0000", 0, (0, 0, &[])),
    ("10010f11120343020241", 0, (0, 0, &[0x43, 0x02, 0x02])),
    ("10011305", 0, (5, 0, &[])),
    ("10011305410000c0ffee", 0, (5, 65, &[])),
    ("10011b05", 0, (5, 0, &[])),
    ("1000fb0741", 0, (7, 65, &[])),
    ("100149", 22, (0, 0, &[])),
    ("1000f121", 22, (0, 0, &[])),
    ("10010b111203420307", 26, (0, 0, &[])),
    (
        "10010b111206420808430303",
        0,
        (0, 0, &[0x42, 0x08, 0x08, 0x43, 0x03, 0x03]),
    ),
    ("1001130541", 0, (5, 65, &[])),
    ("1001", 20, (0, 0, &[])),
];

// Whether a packet tells what is wanted.
fn tells(packet: &Packet<'_>, wanted: &Taken) -> bool {
    match packet {
        Packet::Call { a, body, .. } | Packet::Accept { a, body, .. } => {
            call_views(*a, body).facilities.as_slice() == wanted.2
        }
        Packet::Clear {
            cause,
            diagnostic,
            ..
        }
        | Packet::Reset {
            cause,
            diagnostic,
            ..
        }
        | Packet::Restart { cause, diagnostic } => *cause == wanted.0 && *diagnostic == wanted.1,
        _ => false,
    }
}

// The number of the error, 0 where a packet tells what is wanted, and else 255.
fn number_of(taken: &Result<Packet, PacketError>, wanted: &Taken) -> u8 {
    match taken {
        Ok(packet) => { if tells(packet, wanted) { 0 } else { 255 } }
        Err(error) => error.number(),
    }
}

/// Of octets that a station reads that reads all forms.
fn read_in_all<'a>(octets: &'a [u8]) -> Result<Packet<'a>, PacketError> {
    read(&Some(decode(16, octets)), 16, octets)
}

fn taken(alloc: Global, text: &str, wanted: &Taken) -> Option<u8> {
    let octets = hex::decode(alloc, text).ok()?;
    Some(number_of(&read_in_all(octets.as_slice()), wanted))
}

#[test]
fn taken_for_packets(rt: HostRuntime) {
    for &(text, number, wanted) in &ROWS {
        assert_eq!(rt; taken(rt.alloc(), text, &wanted), Some(number), "{text}");
    }
}

/// The error of octets in the form that a station writes, or 0.
fn strict_error(octets: &[u8]) -> u8 {
    match read(&None, 16, octets) {
        Ok(_) => 0,
        Err(error) => error.number(),
    }
}

#[test]
fn reads_the_form_that_a_station_writes(rt: HostRuntime) {
    taking_keeps_octets();
    let short = strict_error(&[0x10, 0x01, 0x13, 0x05]);
    assert_eq!(rt;
        (short, strict_error(&[0x10, 0x01, 0x13, 0x05, 0x00])),
        (20, 0)
    );
}

/// The octets of a CALL whose addresses have their types and plans, and the addresses that a station takes.
static TYPED: [(&str, &str, &str); 7] = [
    ("90010b0605114930201320", "4930", "132"),
    ("90010b0005132c50", "", ""),
    ("90010b0203131320", "", "2"),
    ("90010b0011131234567890123450", "", "123456789012345"),
    (
        "90010b1112131234567890123452112345678901234560",
        "123456789012345",
        "",
    ),
    ("90010b0105113498", "", "498"),
    ("90010b040513c0134980", "", ""),
];

// Whether these addresses are taken of a CALL.
fn are_taken(octets: &[u8], wanted_called: &str, wanted_calling: &str) -> bool {
    match read_in_all(octets) {
        Ok(Packet::Call { a, body, .. }) => {
            let views = call_views(a, body);
            are_figures(&views.called, wanted_called) && are_figures(&views.calling, wanted_calling)
        }
        _ => false,
    }
}

fn takes(alloc: Global, text: &str, called: &str, calling: &str) -> bool {
    match hex::decode(alloc, text) {
        Ok(octets) => are_taken(octets.as_slice(), called, calling),
        Err(_) => false,
    }
}

#[test]
fn addresses_with_types_taken(rt: HostRuntime) {
    for &(text, called, calling) in &TYPED {
        assert!(rt; takes(rt.alloc(), text, called, calling), "{text}");
    }
}
