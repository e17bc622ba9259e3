//! The clock of a station that is held, where it has one.
ghost use Rattle.std.specs.Prelude.{◌≡◌};
ghost use Rattle.x25_layer.specs.code.FitsLayer.{awaited_at};
ghost use Rattle.x25_station.specs.Config.{Settings, layer_settings};
ghost use Rattle.x25_station.specs.Station.{Station as State};
ghost use Rattle.x25_station.specs.code.FitsStation.{FitsStation};
ghost use Rattle.x25_clock.specs.Clock.{seen};
ghost use Rattle.x25_c.specs.Clocked.{Begins, Heeds, Tells, TellsNext, due_in, is_before, moment_of, next_in};

use x25_clock::{Clock, Due};
use x25_station::{Awaits, Station, Step};

/// The clock heeds a step, at the time that was said last.
pub(crate) fn heed(
    clock: &mut Option<Clock>,
    time: Option<u64>,
    station: &Station,
    step: &Step,
    has_come: bool,
)
    ensures { (c : Settings) (s : State) → FitsStation c station.now s
        → Heeds (moment_of time) (seen c s step.now has_come) clock.old clock.new }
{
    if let Some(clock) = clock {
        clock.heed(moment(time), station, step, has_come);
    }
}

/// The clock begins beside a station.
pub(crate) fn begin(clock: &mut Option<Clock>, now: u64, station: &Station)
    ensures { Begins now station.now clock.old clock.new }
{
    if let Some(clock) = clock {
        clock.begin(now, station);
    }
}

/// The moment at which something happens: 0 before a time is said.
pub(crate) fn moment(time: Option<u64>) -> u64
    ensures { result ≡ moment_of time }
{
    time.unwrap_or(0)
}

/// Whether a time is before the one that was said last.
pub(crate) fn is_before(now: u64, time: Option<u64>) -> bool
    ensures { result ≡ is_before now time }
{
    match time {
        Some(last) => now < last,
        None => false,
    }
}

/// The answer that a station awaits on a channel.
pub(crate) fn awaited(station: &Station, channel: u16) -> Awaits
    ensures { (c : Settings) (s : State) → FitsStation c station.now s
        → result ≡ awaited_at (layer_settings c) s.layer channel }
{
    station.channel(channel).awaits
}

/// What is due, whose time begins anew.
pub(crate) fn take_due(clock: &mut Option<Clock>, now: u64) -> Option<Due>
    ensures due { result ≡ due_in now clock.old }
    ensures told { Tells now clock.old clock.new }
{
    match clock {
        Some(clock) => clock.due(now),
        None => None,
    }
}

/// Whether something is due at some moment; then that is written.
pub(crate) fn tell_next(clock: &Option<Clock>, at: &mut u64) -> bool
    ensures { TellsNext (next_in clock.now) result at.old at.new }
{
    let Some(clock) = clock else {
        return false;
    };
    let Some(moment) = clock.next() else {
        return false;
    };
    *at = moment;
    true
}

/// A timer that passed, by its number, and the channel that it is of, 0 where it is of none.
#[derive(Clone, Copy)]
pub struct Passed {
    pub timer: u8,
    pub channel: u16,
}
