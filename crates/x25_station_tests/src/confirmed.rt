//! Messages of which confirmation is asked: what confirms them, and what doesn't.

use crate::calls::station;
use crate::steps::{Act, CALL, CONNECT, DCE_RESTARTS, RR_1, SETTINGS, UA, refusal};
use std::alloc::Global;
use x25_layer::Stretch;
use x25_station::{Cfg, Cmd, Entry, Role, Station, StationError, Step, Told};

/// What happens, the number of a refusal or 0, how many entries that brings, how many messages the last of these tells
/// as confirmed, and how many on channel 1 aren't confirmed then.
type Row = (Act, u8, usize, usize, usize);

const WIDE: Cfg = Cfg {
    wide: true,
    ..SETTINGS
};

const OPEN: Stretch = Stretch {
    restarts: 1,
    clears: 0,
    resets: 0,
};

const SEND: Cmd<'static> = Cmd::Send {
    channel: 1,
    q: false,
    d: false,
    user: &[0x68, 0x69],
};

const ASK: Cmd<'static> = Cmd::Send {
    channel: 1,
    q: false,
    d: true,
    user: &[0x68, 0x69],
};

// Frames of the DCE, by ITU-T X.25 (10/96), sections 5.2.1, 5.3.1, 5.4.1 and 5.5.1: CALL ACCEPTED, RR by P(R), DATA
// with D = 1 and P(R) = 6, and RESET.

const ACCEPTED: &[u8] = &[0x03, 0x42, 0x10, 0x01, 0x0F, 0xC0, 0x99];

const TAKEN_1: &[u8] = &[0x03, 0x64, 0x10, 0x01, 0x21, 0x75, 0x95];

const TAKEN_3: &[u8] = &[0x03, 0xA6, 0x10, 0x01, 0x61, 0xDE, 0xD5];

const TAKEN_5: &[u8] = &[0x03, 0xE8, 0x10, 0x01, 0xA1, 0x27, 0xAB];

const DATA: &[u8] = &[0x03, 0x0A, 0x50, 0x01, 0xC0, 0x4F, 0x4B, 0x2A, 0x57];

const RESET: &[u8] = &[0x03, 0x4C, 0x10, 0x01, 0x1B, 0x00, 0x00, 0xF3, 0x13];

// The window is 2: a third message waits in its circuit.
static ASKS: [Row; 17] = [
    (CONNECT, 0, 1, 0, 0),
    (Act::Take(UA), 0, 1, 0, 0),
    (Act::Take(DCE_RESTARTS), 0, 1, 0, 0),
    (Act::Take(RR_1), 0, 0, 0, 0),
    (Act::Ask(CALL), 0, 1, 0, 0),
    (Act::Take(ACCEPTED), 0, 1, 0, 0),
    (Act::Ask(ASK), 0, 1, 0, 1),
    (Act::Take(TAKEN_1), 0, 1, 1, 0),
    (Act::Ask(SEND), 0, 1, 0, 0),
    (Act::Ask(ASK), 0, 1, 0, 1),
    (Act::Ask(ASK), 0, 1, 0, 2),
    (Act::Take(TAKEN_3), 0, 1, 1, 1),
    (Act::Ask(ASK), 0, 1, 0, 2),
    (Act::Take(TAKEN_5), 0, 1, 2, 0),
    (Act::Ask(ASK), 0, 1, 0, 1),
    (Act::Take(DATA), 0, 2, 1, 0),
    (Act::Ask(ASK), 0, 1, 0, 1),
];

// Behind these.
static IS_RESET: [Row; 2] = [(Act::Take(RESET), 0, 1, 0, 0), (Act::Ask(ASK), 0, 1, 0, 1)];

// A station that reads packets in the one form alone.
static STRICT: [Row; 8] = [
    (CONNECT, 0, 1, 0, 0),
    (Act::Take(UA), 0, 1, 0, 0),
    (Act::Take(DCE_RESTARTS), 0, 1, 0, 0),
    (Act::Take(RR_1), 0, 0, 0, 0),
    (Act::Ask(CALL), 0, 1, 0, 0),
    (Act::Ask(ASK), 30, 0, 0, 0),
    (Act::Take(ACCEPTED), 0, 1, 0, 0),
    (Act::Ask(ASK), 34, 0, 0, 0),
];

// What the last entry of a step tells as confirmed on channel 1, in the first stretch of the call.
fn told(step: &Step) -> usize {
    match step.entries.as_slice().last() {
        Some(
            Entry::Confirmed {
                channel: 1,
                name,
                count,
            },
        ) if *name == OPEN => *count,
        _ => 0,
    }
}

// Whether the first entry of a step is a message of which confirmation was asked.
fn is_asked(step: &Step) -> bool {
    match step.entries.as_slice().first() {
        Some(
            Entry::Told {
                told: Told::Delivered { marks, .. },
                ..
            },
        ) => marks.d,
        _ => false,
    }
}

// The first row that brings something else.
fn odd_row(station: &mut Station, out: &mut Step, rows: &[Row]) -> Option<usize> {
    for (row, &(act, wanted, count, confirmed, unconfirmed)) in rows.iter().enumerate() {
        let number = refusal(station, (1, act), out);
        if (number, out.entries.len(), told(out)) != (wanted, count, confirmed) {
            return Some(row);
        }
        if station.channel(1).unconfirmed != unconfirmed || is_asked(out) != (count == 2) {
            return Some(row);
        }
    }
    None
}

fn odd_rows_of(
    alloc: Global,
    cfg: Cfg,
    rows: &[Row],
    behind: &[Row],
) -> Result<[Option<usize>; 2], StationError> {
    let mut station = station(alloc, Role::Dte, cfg)?;
    let mut out = Step::new(alloc)?;
    let first = odd_row(&mut station, &mut out, rows);
    Ok([first, odd_row(&mut station, &mut out, behind)])
}

#[test]
fn what_is_acknowledged_is_confirmed(rt: HostRuntime) {
    let odd = odd_rows_of(rt.alloc(), WIDE, ASKS.as_slice(), IS_RESET.as_slice());
    assert_eq!(rt; odd, Ok([None, None]));
}

#[test]
fn without_wide_nothing_is_asked(rt: HostRuntime) {
    let odd = odd_rows_of(rt.alloc(), SETTINGS, STRICT.as_slice(), &[]);
    assert_eq!(rt; odd, Ok([None, None]));
}
