//! The calls of a station without their claims: a body that makes one of the station's own carries all that it
//! promises.

use std::alloc::Global;
use x25_station::{Cfg, Cmd, Role, Station, StationError, Step};

// A value in a place of its own: a body that holds the box lets go of it by one call, and not of each part of the
// value, and so does one that doesn't know what it is.
fn boxed<T: Drop>(alloc: Global, value: T) -> Option<Box<T>> {
    Box::new(alloc, value).ok()
}

/// A station just made.
pub fn station(alloc: Global, role: Role, cfg: Cfg) -> Result<Box<Station>, StationError> {
    boxed(alloc, Station::new(alloc, role, cfg)?).ok_or(StationError::NoMemory)
}

/// Timer T1 fires.
pub fn fire(station: &mut Station, out: &mut Step) -> Result<(), StationError> {
    station.t1(out)
}

pub fn receive(station: &mut Station, octets: &[u8], out: &mut Step) {
    station.receive(octets, out);
}

pub fn ask(station: &mut Station, command: Cmd<'_>, out: &mut Step) -> Result<(), StationError> {
    station.command(command, out)
}

/// What waits is pulled behind a step.
pub fn pull(station: &mut Station, out: &mut Step) {
    station.pull(out);
}

/// A step was read.
pub fn reuse(station: &Station, out: &mut Step) {
    station.reuse(out);
}
