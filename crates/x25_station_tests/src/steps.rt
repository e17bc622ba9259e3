//! What a step brings, and what a station says of itself behind it; `tests/golden` has the lines of whole sessions.

use crate::calls::{ask, fire, pull, receive, station};
use std::alloc::Global;
use x25_layer::Stretch;
use x25_station::{Cfg, Cmd, Ranges, Role, Station, StationError, Step, Timer};

/// The window 7 and N2 = 1.
pub const SETTINGS: Cfg = Cfg {
    k: 7,
    n2: 1,
    channels: Ranges {
        count: 1,
        incoming: 0,
        outgoing: 0,
        message: 65_535,
    },
    long_data: false,
    say_sizes: false,
    wide: false,
};

/// What happens at a station.
#[derive(Clone, Copy)]
pub enum Act {
    Nothing,
    /// Timer T1 fires.
    T1,
    Ask(Cmd<'static>),
    /// These octets come.
    Take(&'static [u8]),
    /// What waits is pulled behind the last step.
    Pull,
}

/// What a step brings: the number of a refusal or 0, how many frames and entries are in it, and what becomes of T1.
type Brings = (u8, usize, usize, Timer);

/// What a station says: whether it is idle, is at rest, awaits UA, and T1 runs, how many messages more channel 1 takes,
/// and the name of the stretch that is open.
type Says = (bool, bool, bool, bool, usize, Option<Stretch>);

/// What happens so many times, what it brings the last time, and what the station says then.
type Row = (u16, Act, Brings, Says);

const OFF: Timer = Timer::Off;

const BEGINS: Timer = Timer::Begins;

const GOES_ON: Timer = Timer::GoesOn;

const OPEN: Option<Stretch> = Some(Stretch {
    restarts: 1,
    clears: 0,
    resets: 0,
});

const WAS_RESET: Option<Stretch> = Some(Stretch {
    restarts: 1,
    clears: 0,
    resets: 1,
});

const DOWN: Says = (false, false, false, false, 0, None);

const AWAITS_UA: Says = (false, false, true, true, 0, None);

/// Not all that was sent is acknowledged, or the link is being disconnected.
const BUSY: Says = (false, false, false, true, 0, None);

const IDLE: Says = (true, true, false, false, 0, None);

/// It is polled.
const IDLE_RUNS: Says = (true, false, false, true, 0, None);

const BUSY_IN_A_CALL: Says = (false, false, false, true, 8, OPEN);

const IDLE_IN_A_CALL: Says = (true, true, false, false, 8, OPEN);

const ONE_WAITS: Says = (false, false, false, true, 7, OPEN);

/// A message waits in its circuit.
const AT_REST_IN_A_CALL: Says = (false, true, false, false, 7, OPEN);

const BUSY_BEHIND_A_RESET: Says = (false, false, false, true, 8, WAS_RESET);

pub const CONNECT: Act = Act::Ask(Cmd::Connect);

/// An address that isn't one.
const BAD_CALL: Cmd<'static> = Cmd::Call {
    called: "1",
    calling: "x",
    user: &[],
    params: None,
    given: None,
};

pub const CALL: Cmd<'static> = Cmd::Call {
    called: "1",
    calling: "2",
    user: &[],
    params: None,
    given: None,
};

const ACCEPT: Cmd<'static> = Cmd::Accept {
    channel: 1,
    params: None,
    given: None,
};

const SEND: Cmd<'static> = Cmd::Send {
    channel: 1,
    q: false,
    d: false,
    user: &[0x68, 0x69],
};

const READY: Cmd<'static> = Cmd::Ready { channel: 1 };

// Frames of the DCE: UA, RESTART, CALL ACCEPTED, and RR by N(R).

pub const UA: &[u8] = &[0x01, 0x73, 0x83, 0x57];

pub const DCE_RESTARTS: &[u8] = &[0x03, 0x00, 0x10, 0x00, 0xFB, 0x07, 0x00, 0xC4, 0x78];

const ACCEPTED: &[u8] = &[0x03, 0x42, 0x10, 0x01, 0x0F, 0xC0, 0x99];

const RR_0: &[u8] = &[0x01, 0x01, 0x16, 0x07];

pub const RR_1: &[u8] = &[0x01, 0x21, 0x14, 0x26];

const RR_2: &[u8] = &[0x01, 0x41, 0x12, 0x45];

// Nine packets are sent and wait, and a message waits in its circuit behind them until it is pulled.
static DTE: [Row; 30] = [
    (1, Act::Nothing, (0, 0, 0, OFF), DOWN),
    (1, Act::T1, (11, 0, 0, OFF), DOWN),
    (1, Act::Pull, (0, 0, 0, OFF), DOWN),
    (1, CONNECT, (0, 1, 1, BEGINS), AWAITS_UA),
    (1, CONNECT, (12, 0, 0, GOES_ON), AWAITS_UA),
    (1, Act::T1, (0, 1, 0, BEGINS), AWAITS_UA),
    (1, Act::T1, (0, 0, 1, OFF), DOWN),
    (1, CONNECT, (0, 1, 1, BEGINS), AWAITS_UA),
    (1, Act::Take(UA), (0, 1, 1, BEGINS), BUSY),
    (1, CONNECT, (15, 0, 0, GOES_ON), BUSY),
    (1, Act::Take(DCE_RESTARTS), (0, 1, 1, GOES_ON), BUSY),
    (1, Act::Take(RR_1), (0, 0, 0, OFF), IDLE),
    (1, Act::T1, (11, 0, 0, OFF), IDLE),
    (1, Act::Take(&[]), (0, 0, 0, OFF), IDLE),
    (1, Act::Ask(BAD_CALL), (34, 0, 0, OFF), IDLE),
    (1, Act::Ask(BAD_RESTART), (34, 0, 0, OFF), IDLE),
    (1, Act::Ask(CALL), (0, 1, 1, BEGINS), BUSY),
    (1, Act::Take(ACCEPTED), (0, 1, 1, OFF), IDLE_IN_A_CALL),
    (15, Act::Ask(READY), (0, 0, 1, GOES_ON), BUSY_IN_A_CALL),
    (1, Act::Ask(SEND), (0, 0, 1, GOES_ON), ONE_WAITS),
    (1, Act::Pull, (0, 0, 1, GOES_ON), ONE_WAITS),
    (1, Act::Take(RR_1), (0, 7, 0, BEGINS), ONE_WAITS),
    (1, Act::Take(RR_0), (0, 1, 0, BEGINS), ONE_WAITS),
    (1, Act::Take(RR_0), (0, 0, 0, GOES_ON), ONE_WAITS),
    (1, Act::Take(RR_1), (0, 0, 0, OFF), AT_REST_IN_A_CALL),
    (1, Act::Pull, (0, 1, 0, BEGINS), BUSY_IN_A_CALL),
    (1, Act::Take(RR_2), (0, 0, 0, OFF), IDLE_IN_A_CALL),
    (1, Act::Ask(Cmd::Disconnect), (0, 1, 2, OFF), DOWN),
    (1, Act::Ask(Cmd::Disconnect), (13, 0, 0, OFF), DOWN),
    (1, CONNECT, (13, 0, 0, OFF), DOWN),
];

// 7 is a cause of a network.
const BAD_RESTART: Cmd<'static> = Cmd::Restart {
    cause: 7,
    diagnostic: 0,
};

// Frames of the DTE: SABM, RESTART, CALL, DATA with M=1, RESET and RESET CONFIRMATION.

pub const SABM: &[u8] = &[0x01, 0x3F, 0xEB, 0xDF];

pub const DTE_RESTARTS: &[u8] = &[0x01, 0x20, 0x10, 0x00, 0xFB, 0x00, 0x00, 0x17, 0x87];

pub const CALLS: &[u8] = &[0x01, 0x22, 0x10, 0x01, 0x0B, 0x00, 0x00, 0xCE, 0x1F];

const DATA: &[u8] = &[0x01, 0x44, 0x10, 0x01, 0x10, 0x68, 0x69, 0xE4, 0x79];

const RESETS: &[u8] = &[0x01, 0x66, 0x10, 0x01, 0x1B, 0x05, 0x03, 0x05, 0xC4];

// UA and a RESTART answer SABM, with `LinkUp`, and with `LinkDown` before it where it comes again.
static DCE: [Row; 12] = [
    (1, Act::Take(SABM), (0, 2, 1, BEGINS), BUSY),
    (2, Act::Take(SABM), (0, 2, 2, BEGINS), BUSY),
    (1, Act::Take(DTE_RESTARTS), (0, 1, 1, OFF), IDLE),
    (1, Act::Take(CALLS), (0, 1, 1, OFF), IDLE),
    (1, Act::Ask(ACCEPT), (0, 1, 1, BEGINS), BUSY_IN_A_CALL),
    (1, Act::Take(DATA), (0, 2, 0, BEGINS), BUSY_IN_A_CALL),
    (1, Act::Take(RESETS), (0, 2, 1, BEGINS), BUSY_BEHIND_A_RESET),
    (
        1,
        Act::Ask(Cmd::Reset {
            channel: 1,
            cause: 0,
            diagnostic: 0,
        }),
        (0, 1, 1, GOES_ON),
        BUSY,
    ),
    (1, Act::Ask(SEND), (30, 0, 0, GOES_ON), BUSY),
    (1, Act::Take(SABM), (0, 2, 2, BEGINS), BUSY),
    (1, Act::Ask(Cmd::Disconnect), (0, 1, 2, OFF), DOWN),
    (1, Act::Ask(Cmd::Disconnect), (13, 0, 0, OFF), DOWN),
];

fn happens(station: &mut Station, act: Act, out: &mut Step) -> Result<(), StationError> {
    match act {
        Act::Nothing => Ok(()),
        Act::T1 => fire(station, out),
        Act::Ask(command) => ask(station, command, out),
        Act::Take(octets) => {
            receive(station, octets, out);
            Ok(())
        }
        Act::Pull => {
            pull(station, out);
            Ok(())
        }
    }
}

// The number of the refusal of the last of so many, or 0.
pub fn refusal(station: &mut Station, (count, act): (u16, Act), out: &mut Step) -> u8 {
    let mut number = 0;
    for _ in 0..count {
        number = match happens(station, act, out) {
            Ok(()) => 0,
            Err(error) => error.number(),
        };
    }
    number
}

fn says(station: &Station) -> Says {
    let status = station.status();
    let channel = station.channel(1);
    (
        station.idle(),
        status.is_at_rest,
        status.awaits_ua,
        status.timer_runs,
        channel.room,
        channel.stretch,
    )
}

// The first row that brings something else, or behind which the station says something else.
fn odd_row(station: &mut Station, out: &mut Step, rows: &[Row]) -> Option<usize> {
    for (row, &(count, act, brings, wanted)) in rows.iter().enumerate() {
        let number = refusal(station, (count, act), out);
        let brought = (number, out.frames.len(), out.entries.len(), out.timer);
        if (brought, says(station)) != (brings, wanted) {
            return Some(row);
        }
    }
    None
}

fn odd_row_of(alloc: Global, role: Role, rows: &[Row]) -> Result<Option<usize>, StationError> {
    let mut station = station(alloc, role, SETTINGS)?;
    let mut out = Step::new(alloc)?;
    Ok(odd_row(&mut station, &mut out, rows))
}

// A DTE behind the first so many of its rows, and the step of the last of these.
fn dte_behind(alloc: Global, rows: usize) -> Result<(Box<Station>, Step), StationError> {
    let mut station = station(alloc, Role::Dte, SETTINGS)?;
    let mut out = Step::new(alloc)?;
    odd_row(
        &mut station,
        &mut out,
        DTE.as_slice().get(..rows).unwrap_or(&[]),
    );
    Ok((station, out))
}

// How many frames a step has behind seven of one station and so many pulls of others, each of a message that waits; and
// whether that of the last waits on.
fn pulled_behind_seven(alloc: Global, pulls: usize) -> Result<(usize, bool), StationError> {
    let (_sender, mut out) = dte_behind(alloc, 22)?;
    let mut waits = false;
    for _ in 0..pulls {
        let (mut other, _own) = dte_behind(alloc, 25)?;
        pull(&mut other, &mut out);
        waits = says(&other) == AT_REST_IN_A_CALL;
    }
    Ok((out.frames.len(), waits))
}

fn is_wide(alloc: Global, wide: bool) -> Result<bool, StationError> {
    Ok(station(alloc, Role::Dte, Cfg { wide, ..SETTINGS })?.is_wide())
}

#[test]
fn says_what_it_takes(rt: HostRuntime) {
    assert_eq!(rt; is_wide(rt.alloc(), false), Ok(false));
    assert_eq!(rt; is_wide(rt.alloc(), true), Ok(true));
}

#[test]
fn steps_of_a_dte(rt: HostRuntime) {
    assert_eq!(rt; odd_row_of(rt.alloc(), Role::Dte, DTE.as_slice()), Ok(None));
}

#[test]
fn steps_of_a_dce(rt: HostRuntime) {
    assert_eq!(rt; odd_row_of(rt.alloc(), Role::Dce, DCE.as_slice()), Ok(None));
}

#[test]
fn pulls_behind_nine_frames_at_most(rt: HostRuntime) {
    assert_eq!(rt; pulled_behind_seven(rt.alloc(), 3), Ok((10, false)));
    assert_eq!(rt; pulled_behind_seven(rt.alloc(), 4), Ok((10, true)));
}
