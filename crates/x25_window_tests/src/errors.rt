use std::alloc::Global;
use x25_frame::{FrameError, Role, decode};

/// Octets sent by the DTE, and the number of their error where an I frame has at most 4 octets of information.
static ROWS: [(&[u8], u8); 6] = [
    (&[0x01, 0x01], 1),
    (&[0x01, 0x3F, 0xEB, 0xDE], 2),
    (&[0x05, 0x3F, 0x8B, 0xB8], 3),
    (&[0x03, 0x3F, 0x5B, 0xEC], 4),
    (&[0x01, 0x3F, 0x00, 0x7A, 0xA9], 5),
    (&[0x01, 0x00, 0x10, 0x00, 0xFB, 0x00, 0x00, 0x77, 0x02], 6),
];

fn error_number(octets: &[u8]) -> u8 {
    match decode(Role::Dte, 4, octets) {
        Ok(_) => 0,
        Err(error) => error.number(),
    }
}

#[test]
fn tells_the_first_error(rt: HostRuntime) {
    for &(octets, number) in &ROWS {
        assert_eq!(rt; error_number(octets), number, "{octets:?}");
    }
}

/// Each error, its number and its message.
static MESSAGES: [(FrameError, u8, &str); 8] = [
    (FrameError::Short, 1, "fewer than four octets"),
    (FrameError::BadFcs, 2, "a wrong frame check sequence"),
    (
        FrameError::BadAddress,
        3,
        "an address that is neither A nor B",
    ),
    (
        FrameError::Undefined { control: 0x0F },
        4,
        "an undefined control 0x0f",
    ),
    (
        FrameError::Undefined { control: 0xEF },
        4,
        "an undefined control 0xef",
    ),
    (
        FrameError::NoInfoAllowed { control: 0x01 },
        5,
        "information that is not allowed behind the control 0x01",
    ),
    (
        FrameError::NoInfoAllowed { control: 0x3F },
        5,
        "information that is not allowed behind the control 0x3f",
    ),
    (FrameError::TooLong, 6, "more than N1 octets of information"),
];

fn says(alloc: Global, error: FrameError, message: &str) -> bool {
    match error.to_string(alloc) {
        Ok(told) => told.as_str() == message,
        Err(_) => false,
    }
}

#[test]
fn has_a_number_and_a_message(rt: HostRuntime) {
    for &(error, number, message) in &MESSAGES {
        let found = (error.number(), says(rt.alloc(), error, message));
        assert_eq!(rt; found, (number, true), "{message}");
    }
}
