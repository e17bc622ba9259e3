//! What is given beside a call, its acceptance and its clearing: the packet that goes, and each refusal.

use crate::calls::{ask, receive, station};
use crate::steps::{CALLS, DCE_RESTARTS, DTE_RESTARTS, RR_1, SABM, SETTINGS, UA};
use std::alloc::Global;
use x25_layer::Params;
use x25_station::{Cfg, Cmd, Given, Role, Station, StationError, Step};

const WIDE: Cfg = Cfg {
    wide: true,
    ..SETTINGS
};

/// Facilities, user data and D that are given beside what is asked, and what that brings: the number of a refusal or 0,
/// and the octets of the packet.
type Row = (&'static [u8], &'static [u8], bool, Asks, u8, &'static [u8]);

/// What is asked.
#[derive(Clone, Copy)]
enum Asks {
    Call,
    // Packets of 256 octets, and the windows that stand without a facility.
    CallOfSizes,
    Accept,
    Clear(u16),
}

fn command<'a>(asks: Asks, given: &'a Given<'a>) -> Cmd<'a> {
    let given = Some(given);
    match asks {
        Asks::Call => Cmd::Call {
            called: "1",
            calling: "2",
            user: &[0x68, 0x69],
            params: None,
            given,
        },
        Asks::CallOfSizes => Cmd::Call {
            called: "123",
            calling: "",
            user: &[],
            params: Some(Params {
                size_called: 8,
                size_calling: 8,
                win_called: 2,
                win_calling: 2,
            }),
            given,
        },
        Asks::Accept => Cmd::Accept {
            channel: 1,
            params: None,
            given,
        },
        Asks::Clear(channel) => Cmd::Clear {
            channel,
            cause: 0,
            diagnostic: 0,
            given,
        },
    }
}

const BEHIND_A_MARKER: &[u8] = &[0x01, 0x01, 0x00, 0xFF, 0x42, 0x07, 0x07];

// Packets, by ITU-T X.25 (10/96), sections 5.2.1 to 5.2.3.

const SIZES_AND_FAST_SELECT: &[u8] = &[
    0x10, 0x01, 0x0B, 0x03, 0x12, 0x30, 0x05, 0x42, 0x08, 0x08, 0x01, 0x80,
];

const CALLED_WITH_D: &[u8] = &[
    0x50, 0x01, 0x0B, 0x11, 0x12, 0x07, 0x01, 0x01, 0x00, 0xFF, 0x42, 0x07, 0x07, 0x68, 0x69,
];

const ACCEPTED_WITH_ALL: &[u8] = &[0x50, 0x01, 0x0F, 0x00, 0x03, 0xC9, 0x01, 0xAA, 0x4F, 0x4B];

const CLEARED_WITH_DATA: &[u8] = &[0x10, 0x01, 0x13, 0x00, 0x00, 0x00, 0x00, 0x01, 0x02];

const CLEARED_AT_LENGTH: &[u8] = &[0x10, 0x01, 0x13, 0x00, 0x00, 0x00, 0x00];

// Reverse charging, 52 times, is one facility too many.
const FIFTY_TWO: &[u8] = &[0x01; 104];

const LONG: &[u8] = &[0x55; 129];

// A DTE whose link is up: refusals, each of which leaves it as it was, a call, and its clearing.
static DTE: [Row; 13] = [
    (&[0x01], &[], false, Asks::Call, 34, &[]),
    (&[0xC9, 0x02, 0xAA], &[], false, Asks::Call, 34, &[]),
    (FIFTY_TWO, &[], false, Asks::Call, 34, &[]),
    (&[0x42, 0x07, 0x07], &[], false, Asks::Call, 34, &[]),
    (
        &[0x01, 0x01, 0x43, 0x02, 0x02],
        &[],
        false,
        Asks::Call,
        34,
        &[],
    ),
    (&[], &[0x68], false, Asks::Call, 34, &[]),
    (&[], LONG, false, Asks::Call, 34, &[]),
    (&[], &[], false, Asks::Clear(2), 42, &[]),
    (&[0x01], &[], false, Asks::Accept, 30, &[]),
    (
        &[0x01, 0x80],
        &[],
        false,
        Asks::CallOfSizes,
        0,
        SIZES_AND_FAST_SELECT,
    ),
    (&[], &[], false, Asks::Call, 41, &[]),
    (&[], &[], true, Asks::Clear(1), 34, &[]),
    (
        &[],
        &[0x01, 0x02],
        false,
        Asks::Clear(1),
        0,
        CLEARED_WITH_DATA,
    ),
];

// A DCE that is called.
static DCE: [Row; 2] = [
    (
        &[0xC9, 0x01, 0xAA],
        &[0x4F, 0x4B],
        true,
        Asks::Accept,
        0,
        ACCEPTED_WITH_ALL,
    ),
    (&[], &[], false, Asks::Clear(1), 0, CLEARED_AT_LENGTH),
];

// A DTE that calls with D, and with packet sizes that a marker says are another's.
static CALLS_WITH_D: [Row; 1] = [(BEHIND_A_MARKER, &[], true, Asks::Call, 0, CALLED_WITH_D)];

// A station that doesn't read packets in all their forms.
static NARROW: [Row; 2] = [
    (&[], &[], false, Asks::Call, 34, &[]),
    (&[], &[], false, Asks::Clear(2), 42, &[]),
];

fn number(answer: Result<(), StationError>) -> u8 {
    match answer {
        Ok(()) => 0,
        Err(error) => error.number(),
    }
}

// Whether the first frame of a step carries this packet; none where nothing is to be sent.
fn carries(step: &Step, packet: &[u8]) -> bool {
    match step.frames.as_slice().first() {
        None => packet.is_empty(),
        Some(frame) => frame.get(2..packet.len() + 2) == Some(packet)
            && frame.len() == packet.len() + 4,
    }
}

// The first row that brings something else.
fn odd_row(station: &mut Station, out: &mut Step, rows: &[Row]) -> Option<usize> {
    for (row, &(facilities, user, d, asks, refusal, packet)) in rows.iter().enumerate() {
        let given = Given {
            facilities,
            user,
            d,
        };
        if number(ask(station, command(asks, &given), out)) != refusal || !carries(out, packet) {
            return Some(row);
        }
    }
    None
}

fn odd_row_of(
    alloc: Global,
    role: Role,
    cfg: Cfg,
    come: &[&'static [u8]],
    rows: &[Row],
) -> Result<Option<usize>, StationError> {
    let mut station = station(alloc, role, cfg)?;
    let mut out = Step::new(alloc)?;
    if role == Role::Dte {
        ask(&mut station, Cmd::Connect, &mut out)?;
    }
    for octets in come {
        receive(&mut station, octets, &mut out);
    }
    Ok(odd_row(&mut station, &mut out, rows))
}

#[test]
fn a_dte_gives_facilities_and_user_data(rt: HostRuntime) {
    let up = [UA, DCE_RESTARTS, RR_1];
    let odd = odd_row_of(rt.alloc(), Role::Dte, WIDE, &up, DTE.as_slice());
    assert_eq!(rt; odd, Ok(None));
    let odd = odd_row_of(rt.alloc(), Role::Dte, WIDE, &up, CALLS_WITH_D.as_slice());
    assert_eq!(rt; odd, Ok(None));
}

#[test]
fn a_dce_gives_facilities_and_user_data(rt: HostRuntime) {
    let odd = odd_row_of(
        rt.alloc(),
        Role::Dce,
        WIDE,
        &[SABM, DTE_RESTARTS, CALLS],
        DCE.as_slice(),
    );
    assert_eq!(rt; odd, Ok(None));
}

#[test]
fn without_wide_nothing_is_given(rt: HostRuntime) {
    let odd = odd_row_of(
        rt.alloc(),
        Role::Dte,
        SETTINGS,
        &[UA, DCE_RESTARTS, RR_1],
        NARROW.as_slice(),
    );
    assert_eq!(rt; odd, Ok(None));
}
