//! The calls of a station and of its clock without their claims: a body that makes one of these itself carries all that
//! it promises.

use std::alloc::Global;
use x25_clock::{Clock, Due, Times};
use x25_station::{Awaits, Cfg, Cmd, Ranges, Role, Station, StationError, Step};

/// N2 = 1, and two channels.
const SETTINGS: Cfg = Cfg {
    k: 7,
    n2: 1,
    channels: Ranges {
        count: 2,
        incoming: 0,
        outgoing: 0,
        message: 65_535,
    },
    long_data: false,
    say_sizes: false,
    wide: false,
};

// A value in a place of its own: a body that holds the box lets go of it by one call, and not of each part of the
// value, and so does one that doesn't know what it is.
fn boxed<T: Drop>(alloc: Global, value: T) -> Option<Box<T>> {
    Box::new(alloc, value).ok()
}

/// A DTE with so many channels.
pub fn station(alloc: Global, channels: u16) -> Option<Box<Station>> {
    let cfg = Cfg {
        channels: Ranges::two_way(channels),
        ..SETTINGS
    };
    boxed(alloc, Station::new(alloc, Role::Dte, cfg).ok()?)
}

pub fn clock(alloc: Global, times: Times, channels: u16) -> Option<Box<Clock>> {
    boxed(alloc, Clock::new(alloc, times, channels).ok()?)
}

pub fn ask(station: &mut Station, command: Cmd<'_>, out: &mut Step) -> Result<(), StationError> {
    station.command(command, out)
}

/// What is due is asked.
pub fn insist(due: Due, station: &mut Station, out: &mut Step) -> Result<(), StationError> {
    due.ask(station, out)
}

pub fn receive(station: &mut Station, octets: &[u8], out: &mut Step) {
    station.receive(octets, out);
}

pub fn heed(clock: &mut Clock, now: u64, station: &Station, step: &Step, has_come: bool) {
    clock.heed(now, station, step, has_come);
}

pub fn begin(clock: &mut Clock, now: u64, station: &Station) {
    clock.begin(now, station);
}

pub fn due(clock: &mut Clock, now: u64) -> Option<Due> {
    clock.due(now)
}

pub fn next(clock: &Clock) -> Option<u64> {
    clock.next()
}

/// How much may be due at one moment.
pub fn most_due(clock: &Clock) -> usize {
    clock.most_due()
}

/// What a station says of what it awaits: on its highest channel, the first that a DTE takes, whether a restart is
/// under way, and whether it awaits anything.
pub fn awaited(station: &Station) -> (Awaits, bool, bool) {
    (
        station.channel(station.channels()).awaits,
        station.status().is_restarting,
        station.awaits_answers(),
    )
}

/// Whether UA is awaited.
pub fn awaits_ua(station: &Station) -> bool {
    station.status().awaits_ua
}
