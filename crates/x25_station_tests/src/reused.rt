//! Memory of steps that serves a station again.

use crate::calls::{ask, reuse, station};
use crate::steps::SETTINGS;
use std::alloc::Global;
use std::mem::replace;
use x25_station::{Cmd, Entries, Role, Station, Step};

/// SABM with P=1 of the DTE.
static SABM: [u8; 4] = [0x01, 0x3f, 0xeb, 0xdf];

// For how many octets the first frame has memory, where it is SABM.
fn memory_of_sabm(step: &Step) -> usize {
    match step.frames.as_slice() {
        [frame, ..] if frame.as_slice() == SABM.as_slice() => frame.capacity(),
        _ => 0,
    }
}

// How many frames there are once SABM is sent, for how many octets it has memory, and how many there are once the step
// is taken back.
fn sends(station: &mut Station, out: &mut Step) -> Option<(usize, usize, usize)> {
    ask(station, Cmd::Connect, out).ok()?;
    let (count, memory) = (out.frames.len(), memory_of_sabm(out));
    reuse(station, out);
    Some((count, memory, out.frames.len()))
}

fn sends_of_new(alloc: Global) -> Option<(usize, usize, usize)> {
    let mut station = station(alloc, Role::Dte, SETTINGS).ok()?;
    sends(&mut station, &mut Step::new(alloc).ok()?)
}

#[test]
fn a_frame_is_sent_in_a_place_that_was_made(rt: HostRuntime) {
    assert_eq!(rt; sends_of_new(rt.alloc()), Some((1, 4103, 0)));
}

// How many entries there are once set-up is asked, and how many of them one who keeps them has and are left.
fn kept(alloc: Global, station: &mut Station, out: &mut Step) -> Option<(usize, usize, usize)> {
    ask(station, Cmd::Connect, out).ok()?;
    let count = out.entries.len();
    let entries = replace(&mut out.entries, Entries::new(alloc).ok()?);
    Some((count, entries.len(), out.entries.len()))
}

fn kept_of_new(alloc: Global) -> Option<(usize, usize, usize)> {
    let mut station = station(alloc, Role::Dte, SETTINGS).ok()?;
    kept(alloc, &mut station, &mut Step::new(alloc).ok()?)
}

#[test]
fn entries_are_kept_with_what_they_say(rt: HostRuntime) {
    assert_eq!(rt; kept_of_new(rt.alloc()), Some((1, 1, 0)));
}
