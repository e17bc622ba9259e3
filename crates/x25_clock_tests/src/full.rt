//! Where as many packets wait in the link as may, what is due sets the link up anew.

use crate::calls::{awaits_ua, clock, station};
use crate::silence::{Act, CALL, RESTART, RR_1, TIMES, UA, happens};
use std::alloc::Global;
use x25_clock::{Due, Times};
use x25_station::{Cmd, Step};

// The refusal of a call more, what is due then, how it is answered, and whether UA is awaited behind it.
fn left_full(alloc: Global) -> Option<(u8, Option<Due>, u8, bool)> {
    let mut station = station(alloc, 300)?;
    let mut clock = clock(alloc, Times { t1: 0, ..TIMES }, 300)?;
    let mut out = Step::new(alloc).ok()?;
    for &act in &[Act::Ask(Cmd::Connect), UA, RR_1, RESTART] {
        happens(&mut station, &mut clock, (0, act), &mut out);
    }
    let mut refusal = 0;
    for _ in 0..264 {
        (refusal, _) = happens(&mut station, &mut clock, (1, CALL), &mut out);
    }
    let (answer, found) = happens(&mut station, &mut clock, (211, Act::Obey), &mut out);
    Some((refusal, found, answer, awaits_ua(&station)))
}

#[test]
fn a_full_queue_is_left_by_relink(rt: HostRuntime) {
    let first = Due::Clear { channel: 38 };
    assert_eq!(rt; left_full(rt.alloc()), Some((10, Some(first), 0, true)));
}
