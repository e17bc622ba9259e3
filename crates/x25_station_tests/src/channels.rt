//! Calls on the highest of 4,095 channels.

use crate::calls::station;
use crate::steps::{
    Act, CALL, CONNECT, DCE_RESTARTS, DTE_RESTARTS, RR_1, SABM, SETTINGS, UA, refusal,
};
use std::alloc::Global;
use x25_station::{Cfg, Cmd, Ranges, Role, Station, StationError, Step};

/// What happens, the number of a refusal or 0, how many entries that brings, and the octets of the last packet that is
/// sent.
type Row = (Act, u8, usize, &'static [u8]);

const CALLED: &[u8] = &[0x1F, 0xFF, 0x0B, 0x11, 0x12, 0x00];

const SEND: Cmd<'static> = Cmd::Send {
    channel: 4095,
    q: false,
    d: false,
    user: &[0x68, 0x69],
};

const CLEAR: Cmd<'static> = Cmd::Clear {
    channel: 4095,
    cause: 0,
    diagnostic: 0,
    given: None,
};

const CLEAR_BEHIND_IT: Cmd<'static> = Cmd::Clear {
    channel: 4096,
    cause: 0,
    diagnostic: 0,
    given: None,
};

// Frames of the DCE on channel 4,095: CALL ACCEPTED, DATA, and CLEAR CONFIRMATION.

const ACCEPTED: &[u8] = &[0x03, 0x42, 0x1F, 0xFF, 0x0F, 0x1F, 0x35];

const DATA: &[u8] = &[0x03, 0x64, 0x1F, 0xFF, 0x20, 0x4F, 0x4B, 0x2F, 0x92];

const CLEARED: &[u8] = &[0x03, 0xA6, 0x1F, 0xFF, 0x17, 0xB0, 0x6F];

static DTE: [Row; 13] = [
    (CONNECT, 0, 1, &[]),
    (Act::Take(UA), 0, 1, &[0x10, 0x00, 0xFB, 0x00, 0x00]),
    (Act::Take(DCE_RESTARTS), 0, 1, &[]),
    (Act::Take(RR_1), 0, 0, &[]),
    (Act::Ask(CALL), 0, 1, CALLED),
    (Act::Take(ACCEPTED), 0, 1, &[]),
    (Act::Ask(SEND), 0, 1, &[0x1F, 0xFF, 0x00, 0x68, 0x69]),
    (Act::Take(DATA), 0, 1, &[0x1F, 0xFF, 0x21]),
    (Act::Ask(CLEAR_BEHIND_IT), 42, 0, &[]),
    (Act::Ask(CLEAR), 0, 1, &[0x1F, 0xFF, 0x13, 0x00, 0x00]),
    (Act::Take(CLEARED), 0, 1, &[]),
    (Act::Ask(CALL), 0, 1, CALLED),
    (Act::Ask(CALL), 0, 1, &[0x1F, 0xFE, 0x0B, 0x11, 0x12, 0x00]),
];

/// CALL of the DTE on channel 4,095.
const CALLS: &[u8] = &[0x01, 0x22, 0x1F, 0xFF, 0x0B, 0x00, 0x00, 0x5B, 0xAC];

static DCE: [Row; 4] = [
    (Act::Take(SABM), 0, 1, &[0x10, 0x00, 0xFB, 0x07, 0x00]),
    (Act::Take(DTE_RESTARTS), 0, 1, &[]),
    (Act::Take(CALLS), 0, 1, &[]),
    (Act::Ask(CALL), 0, 1, &[0x10, 0x01, 0x0B, 0x11, 0x12, 0x00]),
];

// Whether the last frame of a step carries this packet; none where it carries none, or nothing is sent.
fn carries(step: &Step, packet: &[u8]) -> bool {
    match step.frames.as_slice().last() {
        None => packet.is_empty(),
        Some(frame) => frame.get(2..packet.len() + 2) == Some(packet)
            && frame.len() == packet.len() + 4,
    }
}

// The first row that brings something else.
fn odd_row(station: &mut Station, out: &mut Step, rows: &[Row]) -> Option<usize> {
    for (row, &(act, wanted, count, packet)) in rows.iter().enumerate() {
        let number = refusal(station, (1, act), out);
        if (number, out.entries.len(), carries(out, packet)) != (wanted, count, true) {
            return Some(row);
        }
    }
    None
}

fn odd_row_of(alloc: Global, role: Role, rows: &[Row]) -> Result<Option<usize>, StationError> {
    let cfg = Cfg {
        channels: Ranges::two_way(4095),
        ..SETTINGS
    };
    let mut station = station(alloc, role, cfg)?;
    let mut out = Step::new(alloc)?;
    Ok(odd_row(&mut station, &mut out, rows))
}

#[test]
fn calls_on_the_highest_of_all_channels(rt: HostRuntime) {
    let odd_rows = (
        odd_row_of(rt.alloc(), Role::Dte, DTE.as_slice()),
        odd_row_of(rt.alloc(), Role::Dce, DCE.as_slice()),
    );
    assert_eq!(rt; odd_rows, (Ok(None), Ok(None)));
}
