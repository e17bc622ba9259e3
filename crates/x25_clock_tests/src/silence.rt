//! A call that nobody answers, step by step, until the link is told down.

use crate::calls::{ask, awaited, begin, clock, due, heed, insist, next, receive, station};
use std::alloc::Global;
use x25_clock::{Clock, Due, Times};
use x25_station::{Awaits, Cmd, Station, StationError, Step};

pub(crate) const TIMES: Times = Times {
    t1: 10,
    t3: 1000,
    t20: 200,
    t21: 210,
    t22: 0,
    t23: 230,
    t25: 0,
    t26: 220,
};

/// What happens.
#[derive(Clone, Copy)]
pub(crate) enum Act {
    Ask(Cmd<'static>),
    /// These octets come.
    Take(&'static [u8]),
    /// What is due is asked, the first of it.
    Obey,
    /// The clock begins.
    Begin,
}

/// The time, what happens then, the number of a refusal or 0, what was due, the next moment, and what is awaited on the
/// highest channel, whether a restart is, and whether anything.
pub(crate) type Row = (u64, Act, u8, Option<Due>, Option<u64>, (Awaits, bool, bool));

pub(crate) const NONE: (Awaits, bool, bool) = (Awaits::Nothing, false, false);

pub(crate) const RESTARTS: (Awaits, bool, bool) = (Awaits::Nothing, true, true);

pub(crate) const CALLED: (Awaits, bool, bool) = (Awaits::Acceptance, false, true);

pub(crate) const CLEARED: (Awaits, bool, bool) = (Awaits::ClearConfirmation, false, true);

pub(crate) const CALL: Act = Act::Ask(Cmd::Call {
    called: "1",
    calling: "2",
    user: &[],
    params: None,
    given: None,
});

pub(crate) const UA: Act = Act::Take(&[0x01, 0x73, 0x83, 0x57]);

/// RESTART of the DCE, which has that of the DTE.
pub(crate) const RESTART: Act = Act::Take(&[0x03, 0x20, 0x10, 0x00, 0xFB, 0x07, 0x00, 0xA4, 0xFD]);

pub(crate) const RR_1: Act = Act::Take(&[0x01, 0x21, 0x14, 0x26]);

pub(crate) const RR_2: Act = Act::Take(&[0x01, 0x41, 0x12, 0x45]);

pub(crate) const RR_3: Act = Act::Take(&[0x01, 0x61, 0x10, 0x64]);

pub(crate) const RR_4: Act = Act::Take(&[0x01, 0x81, 0x1E, 0x83]);

static ROWS: [Row; 20] = [
    (5, Act::Ask(Cmd::Connect), 0, None, Some(15), NONE),
    (15, Act::Obey, 0, Some(Due::T1), Some(25), NONE),
    (20, UA, 0, None, Some(30), RESTARTS),
    (21, RR_1, 0, None, Some(220), RESTARTS),
    (22, RESTART, 0, None, Some(1022), NONE),
    (30, CALL, 0, None, Some(40), CALLED),
    (31, RR_2, 0, None, Some(240), CALLED),
    (239, Act::Obey, 0, None, Some(240), CALLED),
    (
        240,
        Act::Obey,
        0,
        Some(Due::Clear { channel: 2 }),
        Some(250),
        CLEARED,
    ),
    (241, RR_3, 0, None, Some(470), CLEARED),
    (
        470,
        Act::Obey,
        0,
        Some(Due::Restart { channel: 2 }),
        Some(480),
        RESTARTS,
    ),
    (471, RR_4, 0, None, Some(670), RESTARTS),
    (480, CALL, 40, None, Some(670), RESTARTS),
    (670, Act::Obey, 0, Some(Due::Relink), Some(680), NONE),
    (680, Act::Obey, 0, Some(Due::T1), Some(690), NONE),
    (685, UA, 0, None, Some(695), RESTARTS),
    (686, RR_1, 0, None, Some(885), RESTARTS),
    (687, RESTART, 0, None, Some(1687), NONE),
    (1687, Act::Obey, 0, Some(Due::Probe), Some(1697), NONE),
    (1697, Act::Obey, 0, Some(Due::T1), None, NONE),
];

fn obey(station: &mut Station, due: Option<Due>, out: &mut Step) -> Result<(), StationError> {
    let Some(due) = due else {
        return Ok(());
    };
    insist(due, station, out)
}

fn number(answer: Result<(), StationError>) -> u8 {
    match answer {
        Ok(()) => 0,
        Err(error) => error.number(),
    }
}

pub(crate) fn happens(
    station: &mut Station,
    clock: &mut Clock,
    (now, act): (u64, Act),
    out: &mut Step,
) -> (u8, Option<Due>) {
    match act {
        Act::Ask(command) => {
            let number = number(ask(station, command, out));
            heed(clock, now, station, out, false);
            (number, None)
        }
        Act::Take(octets) => {
            receive(station, octets, out);
            heed(clock, now, station, out, true);
            (0, None)
        }
        Act::Obey => {
            let found = due(clock, now);
            let number = number(obey(station, found, out));
            if found.is_some() {
                heed(clock, now, station, out, false);
            }
            (number, found)
        }
        Act::Begin => {
            begin(clock, now, station);
            (0, None)
        }
    }
}

// The first row in which something else comes of what happens.
fn odd_row(
    rows: &[Row],
    station: &mut Station,
    clock: &mut Clock,
    out: &mut Step,
) -> Option<usize> {
    for (place, &(now, act, refusal, asked, moment, says)) in rows.iter().enumerate() {
        let found = happens(station, clock, (now, act), out);
        if (found, next(clock), awaited(station)) != ((refusal, asked), moment, says) {
            return Some(place);
        }
    }
    None
}

pub(crate) fn odd_row_of(
    alloc: Global,
    (channels, times): (u16, Times),
    rows: &[Row],
) -> Option<Option<usize>> {
    let mut station = station(alloc, channels)?;
    let mut clock = clock(alloc, times, channels)?;
    let mut out = Step::new(alloc).ok()?;
    Some(odd_row(rows, &mut station, &mut clock, &mut out))
}

#[test]
fn a_silent_end_is_left_step_by_step(rt: HostRuntime) {
    assert_eq!(rt; odd_row_of(rt.alloc(), (2, TIMES), &ROWS), Some(None));
}
