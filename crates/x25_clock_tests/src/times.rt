//! Moments at the edges, and the times of the standard.

use crate::calls::{clock, due, most_due, next};
use std::alloc::Global;
use x25_clock::{Due, Times};
use x25_station::{Cmd, Role};

// The next moment, what is due, and how much may be.
fn quiet(alloc: Global, now: u64, channels: u16) -> Option<(Option<u64>, Option<Due>, usize)> {
    let mut clock = clock(alloc, Times::standard(Role::Dte), channels)?;
    let moment = next(&clock);
    Some((moment, due(&mut clock, now), most_due(&clock)))
}

#[test]
fn nothing_is_due_of_a_new_station(rt: HostRuntime) {
    for &(now, channels, most) in &[(0, 1, 5), (1, 4095, 8193), (u64::MAX, 0, 3)] {
        let said = quiet(rt.alloc(), now, channels);
        assert_eq!(rt; said, Some((None, None, most)), "{now} {channels}");
    }
}

/// T1, T3, T20 to T23, T25 and T26, in seconds.
fn seconds(end: Role) -> [u32; 8] {
    let times = Times::standard(end);
    [
        times.t1 / 1000,
        times.t3 / 1000,
        times.t20 / 1000,
        times.t21 / 1000,
        times.t22 / 1000,
        times.t23 / 1000,
        times.t25 / 1000,
        times.t26 / 1000,
    ]
}

#[test]
fn times_are_those_of_the_standard(rt: HostRuntime) {
    assert_eq!(rt;
        (seconds(Role::Dte), seconds(Role::Dce)),
        (
            [3, 60, 180, 200, 180, 180, 0, 180],
            [3, 60, 60, 180, 60, 60, 0, 0]
        )
    );
}

fn is_asked(due: Due) -> u8 {
    match due.command() {
        None => 0,
        Some(Cmd::Probe) => 1,
        Some(
            Cmd::Clear {
                channel: 2,
                cause: 0,
                diagnostic: 0,
                given: None,
            },
        ) => 2,
        Some(
            Cmd::Restart {
                cause: 0,
                diagnostic: 0,
            },
        ) => 3,
        Some(Cmd::Relink) => 4,
        Some(
            Cmd::Reset {
                channel: 2,
                cause: 0,
                diagnostic: 0,
            },
        ) => 5,
        Some(
            Cmd::Reset {
                channel: 2,
                cause: 0,
                diagnostic: 146,
            },
        ) => 6,
        Some(_) => 7,
    }
}

#[test]
fn each_is_asked_by_its_command(rt: HostRuntime) {
    let asked = [
        is_asked(Due::T1),
        is_asked(Due::Probe),
        is_asked(Due::Clear { channel: 2 }),
        is_asked(Due::Restart { channel: 2 }),
        is_asked(Due::Relink),
        is_asked(Due::Reset { channel: 2 }),
        is_asked(Due::ResetUnacknowledged { channel: 2 }),
    ];
    assert_eq!(rt; asked, [0, 1, 2, 3, 4, 5, 6]);
}
