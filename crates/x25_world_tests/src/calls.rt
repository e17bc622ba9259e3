//! The calls of a world without their claims: a body that makes one of the world's own carries all that it promises.

use std::alloc::Global;
use x25_station::{Cfg, Ranges, Step};
use x25_world::{Event, World, WorldError};

pub const USUAL: Cfg = Cfg {
    k: 7,
    n2: 10,
    channels: Ranges {
        count: 1,
        incoming: 0,
        outgoing: 0,
        message: 65_535,
    },
    long_data: false,
    say_sizes: false,
    wide: false,
};

// A value in a place of its own: a body that holds the box lets go of it by one call, and not of each part of the
// value, and so does one that doesn't know what it is.
fn boxed<T: Drop>(alloc: Global, value: T) -> Option<Box<T>> {
    Box::new(alloc, value).ok()
}

/// A world whose links are down.
pub fn start(alloc: Global, cfg: Cfg) -> Result<Box<World>, WorldError> {
    boxed(alloc, World::start(alloc, cfg)?).ok_or(WorldError::NoMemory)
}

/// A world whose links are down, and the DTE has asked that the link be set up.
pub fn connecting(alloc: Global, cfg: Cfg) -> Result<Box<World>, WorldError> {
    boxed(alloc, World::connecting(alloc, cfg)?).ok_or(WorldError::NoMemory)
}

/// A world whose link was just set up.
pub fn establish(alloc: Global, cfg: Cfg) -> Result<Box<World>, WorldError> {
    boxed(alloc, World::establish(alloc, cfg)?).ok_or(WorldError::NoMemory)
}

/// The event happens, and its entries come into the step.
pub fn step(world: &mut World, event: Event, out: &mut Step) -> Result<(), WorldError> {
    world.step(event, out)
}

/// A step for events to tell into.
pub fn empty_step(alloc: Global) -> Result<Step, WorldError> {
    Step::new(alloc).ok().ok_or(WorldError::NoMemory)
}
