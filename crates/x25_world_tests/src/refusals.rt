//! The errors of a world, and settings that are refused.

use crate::calls::{USUAL, establish, start};
use std::alloc::Global;
use x25_station::{Cfg, Ranges, StationError};
use x25_world::WorldError;

/// Each error, its number, and its message.
static NUMBERS: [(WorldError, u8, &str); 7] = [
    (WorldError::BadConfig, 14, "a parameter is out of range"),
    (WorldError::Empty, 50, "nothing on the line"),
    (WorldError::NoSuchFrame, 51, "no such frame on the line"),
    (WorldError::Unseen, 52, "the damage cannot be seen"),
    (
        WorldError::Station(StationError::BadConfig),
        53,
        "a parameter is out of range",
    ),
    (WorldError::OnLine, 54, "the set-up is still on the line"),
    (WorldError::NoMemory, 70, "no memory"),
];

fn says(alloc: Global, error: WorldError, message: &str) -> bool {
    match error.to_string(alloc) {
        Ok(told) => told.as_str() == message,
        Err(_) => false,
    }
}

#[test]
fn errors_have_numbers(rt: HostRuntime) {
    for &(error, number, message) in &NUMBERS {
        let found = (error.number(), says(rt.alloc(), error, message));
        assert_eq!(rt; found, (number, true), "{message}");
    }
}

/// k, N2 and channels, and whether they are in their ranges.
static SETTINGS: [(u8, u8, u16, bool); 9] = [
    (0, 10, 1, false),
    (8, 10, 1, false),
    (7, 0, 1, false),
    (7, 10, 0, false),
    (7, 10, 4096, false),
    (1, 1, 1, true),
    (7, 255, 16, true),
    (255, 0, 255, false),
    (4, 20, 2, true),
];

fn refusals(alloc: Global, cfg: Cfg) -> [Option<WorldError>; 2] {
    [establish(alloc, cfg).err(), start(alloc, cfg).err()]
}

// Whether settings that are fine are taken by both, and others refused.
fn are_judged(alloc: Global, cfg: Cfg, is_fine: bool) -> bool {
    let wanted = if is_fine {
        None
    } else {
        Some(WorldError::BadConfig)
    };
    refusals(alloc, cfg) == [wanted, wanted]
}

#[test]
fn settings_are_in_range(rt: HostRuntime) {
    for &(k, n2, channels, is_fine) in &SETTINGS {
        let cfg = Cfg {
            k,
            n2,
            channels: Ranges::two_way(channels),
            ..USUAL
        };
        assert!(rt; are_judged(rt.alloc(), cfg, is_fine), "{k} {n2} {channels}");
    }
}
