//! The frames of set-up, one by one.

use crate::calls::{USUAL, connecting, empty_step, step};
use std::alloc::Global;
use x25_station::Step;
use x25_world::Direction::{ToDce, ToDte};
use x25_world::Event::Deliver;
use x25_world::{Direction, World, WorldError};

/// The frames on the line to an end.
type Frames = &'static [&'static [u8]];

const SABM: &[u8] = b"\x01\x3f\xeb\xdf";

const UA: &[u8] = b"\x01\x73\x83\x57";

const DCE_RESTARTS: &[u8] = b"\x03\x00\x10\x00\xfb\x07\x00\xc4\x78";

const DTE_RESTARTS: &[u8] = b"\x01\x00\x10\x00\xfb\x00\x00\x77\x02";

/// What is on the line before each delivery of set-up and behind the last: frames to the DCE and to the DTE.
static SET_UP: [(Frames, Frames, Direction); 3] = [
    (&[SABM], &[], ToDce),
    (&[], &[UA, DCE_RESTARTS], ToDte),
    (&[DTE_RESTARTS], &[DCE_RESTARTS], ToDce),
];

// Whether these frames, and no others, are on the line.
fn has(world: &World, direction: Direction, frames: Frames) -> bool {
    for (place, octets) in frames.iter().enumerate() {
        if world.frame(direction, place) != Some(*octets) {
            return false;
        }
    }
    let behind = world.frame(direction, frames.len());
    behind.is_none() && world.on_line(direction) == frames.len()
}

// The first row in which others are on the line.
fn odd_row(world: &mut World, out: &mut Step) -> Option<usize> {
    for (row, &(to_dce, to_dte, next)) in SET_UP.iter().enumerate() {
        let are_there = has(world, ToDce, to_dce) && has(world, ToDte, to_dte);
        if !are_there || step(world, Deliver(next), out).is_err() {
            return Some(row);
        }
    }
    None
}

fn odd_row_of(alloc: Global) -> Result<Option<usize>, WorldError> {
    let mut world = connecting(alloc, USUAL)?;
    let mut out = empty_step(alloc)?;
    Ok(odd_row(&mut world, &mut out))
}

#[test]
fn frames_of_set_up_are_on_the_line(rt: HostRuntime) {
    assert_eq!(rt; odd_row_of(rt.alloc()), Ok(None));
}
