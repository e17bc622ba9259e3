//! Answers as the numbers that a C program takes.
ghost use Rattle.std.specs.Prelude.{◌≡◌};
ghost use Rattle.x25_clock.specs.Clock.{number_of as number_awaited};
ghost use Rattle.x25_c.specs.Slot.{number_in, number_of_timer};

use x25_station::{Awaits, StationError, Timer};

/// A setting is out of its range.
pub(crate) const BAD_SETTING: u32 = 14;

/// The slot holds no station.
pub(crate) const NO_STATION: u32 = 16;

/// The slot holds a station.
pub(crate) const IN_USE: u32 = 17;

/// The octets of a frame aren't there, or a time is before the one that was said last.
pub(crate) const BAD_PARAMETER: u32 = 34;

/// A text spells no command.
pub(crate) const NO_COMMAND: u32 = 60;

/// Memory was refused.
pub(crate) const NO_MEMORY: u32 = 70;

/// The number of how a call ended: 0, or that of its error.
pub(crate) fn number_of(answer: Result<(), StationError>) -> u32
    ensures { result ≡ number_in answer }
{
    match answer {
        Ok(()) => 0,
        Err(error) => u32::from(error.number()),
    }
}

/// The number of what is awaited.
pub(crate) fn number_awaited(awaits: Awaits) -> u32
    ensures { result ≡ number_awaited awaits }
{
    match awaits {
        Awaits::Nothing => 0,
        Awaits::Acceptance => 1,
        Awaits::ResetConfirmation => 2,
        Awaits::ClearConfirmation => 3,
        Awaits::InterruptConfirmation => 4,
    }
}

/// The number of what becomes of timer T1.
pub(crate) fn timer_number(timer: Timer) -> u32
    ensures { result ≡ number_of_timer timer }
{
    match timer {
        Timer::Off => 0,
        Timer::Begins => 1,
        Timer::GoesOn => 2,
    }
}
