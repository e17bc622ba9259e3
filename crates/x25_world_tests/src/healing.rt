//! What `heal` answers.

use crate::calls::{USUAL, establish, start};
use std::alloc::Global;
use x25_world::{Entered, Healed, World, WorldError};

// Without its claims.
fn heal(world: &mut World, told: &mut Vec<Entered>) -> Result<Healed, WorldError> {
    world.heal(told)
}

/// How many frames arrive, and how many when the line heals once more; whether both links are at rest each time, and
/// how many steps told something.
type Brings = (u64, u64, bool, bool, usize);

fn brings(world: &mut World, told: &mut Vec<Entered>) -> Result<Brings, WorldError> {
    let first = heal(world, told)?;
    let second = heal(world, told)?;
    Ok((
        first.arrived,
        second.arrived,
        first.at_rest,
        second.at_rest,
        told.len(),
    ))
}

fn brought_up(alloc: Global) -> Result<Brings, WorldError> {
    let mut world = establish(alloc, USUAL)?;
    brings(&mut world, &mut Vec::new(alloc))
}

fn brought_down(alloc: Global) -> Result<Brings, WorldError> {
    let mut world = start(alloc, USUAL)?;
    brings(&mut world, &mut Vec::new(alloc))
}

// Behind set-up two RESTART arrive, and what acknowledges them; then nothing is left. Links that are down are never at
// rest.
#[test]
fn answers_what_it_brought(rt: HostRuntime) {
    assert_eq!(rt; brought_up(rt.alloc()), Ok((4, 0, true, true, 0)));
    assert_eq!(rt; brought_down(rt.alloc()), Ok((0, 0, false, false, 0)));
}
