//! Calls about the clock of a station.
ghost use Rattle.std.specs.Prelude.{◌≡◌, None, IfSome, IfNone};
ghost use Rattle.x25_c.specs.Clocked.{TellsNext, next_in, times_in};
ghost use Rattle.x25_c.specs.Timing.{left_until};
ghost use Rattle.x25_c.specs.Making.{role_of};
ghost use Rattle.x25_c.specs.Slot.{AnswersSet, AnswersTime, Standard};

use crate::clocked::{is_before, tell_next};
use crate::making::role_of_number;
use crate::numbers::{BAD_PARAMETER, BAD_SETTING, NO_MEMORY, NO_STATION, number_of};
use crate::slot::Slot;
use crate::times::Times;
use std::alloc::Global;
use x25_clock::{Clock, Times as ClockTimes};

/// Writes the times of Annex D for an end, 0 for a DTE and 1 for a DCE, and of the link 3 seconds for T1 and 60 for T3.
///
/// 14 where there is no such end; `times` is then as before.
#[unsafe(no_mangle)]
pub extern "C" fn x25_standard_times(end: u8, times: &mut Times) -> u32
    ensures { Standard (role_of end) result times.old times.new }
{
    let Some(role) = role_of_number(end) else {
        return BAD_SETTING;
    };
    *times = Times::of(ClockTimes::standard(role));
    0
}

/// Gives the station a clock, by which the time of what is awaited begins.
///
/// 16 where the slot holds no station, else 70 alone; all is then as before.
#[unsafe(no_mangle)]
pub extern "C" fn x25_set_times(alloc: Global, slot: &mut Slot, times: Times) -> u32
    ensures { AnswersSet slot.old.handle.held slot.new.handle.held result (times_in times) }
{
    let Some(mut held) = slot.take(alloc) else {
        return NO_STATION;
    };
    let number = match held.set(alloc, times.times()) {
        Ok(()) => 0,
        Err(_) => NO_MEMORY,
    };
    slot.put(held);
    number
}

/// The time is this, in milliseconds, until it is said again. The first of what is due is asked for, as by the user,
/// and the answer tells which timer passed. As it is said first, what is awaited begins to be.
///
/// 16 where the slot holds no station, 34 where it is before the time that was said last, and the last answer stands;
/// else as what is due. The station is as before then.
#[unsafe(no_mangle)]
pub extern "C" fn x25_time(alloc: Global, slot: &mut Slot, now: u64) -> u32
    ensures { AnswersTime slot.old.handle.held slot.new.handle.held result now }
{
    let Some(mut held) = slot.take(alloc) else {
        return NO_STATION;
    };
    if is_before(now, held.time) {
        slot.put(held);
        return BAD_PARAMETER;
    }
    let answer = held.pass(now);
    slot.put(held);
    number_of(answer)
}

/// Whether something is due at some moment, if nothing happens before; then that is written to `at`.
#[unsafe(no_mangle)]
pub extern "C" fn x25_next(alloc: Global, slot: &mut Slot, at: &mut u64) -> bool
    ensures kept { slot.new.handle.held ≡ slot.old.handle.held }
    ensures next { IfSome slot.old.handle.held (λ h. TellsNext (next_in h.clock) result at.old at.new) }
    ensures none { IfNone slot.old.handle.held (TellsNext None result at.old at.new) }
{
    let Some(held) = slot.take(alloc) else {
        return false;
    };
    let is_there = tell_next(&held.clock, at);
    slot.put(held);
    is_there
}

// How long it is from a moment on until something is due, and no longer than `most`.
fn left(clock: &Option<Clock>, now: u64, most: u64) -> u64
    ensures { result ≡ left_until now most (next_in clock.now) }
{
    let mut at = 0;
    if !tell_next(clock, &mut at) {
        return most;
    }
    at.saturating_sub(now).min(most)
}

/// How long a program may wait that the time passes, from this moment on: until something is due, where nothing happens
/// before, and no longer than `most`.
///
/// `most` where the slot holds no station.
#[unsafe(no_mangle)]
pub extern "C" fn x25_next_timeout(alloc: Global, slot: &mut Slot, now: u64, most: u64) -> u64
    ensures kept { slot.new.handle.held ≡ slot.old.handle.held }
    ensures left { IfSome slot.old.handle.held (λ h. result ≡ left_until now most (next_in h.clock)) }
    ensures none { IfNone slot.old.handle.held (result ≡ most) }
{
    let Some(held) = slot.take(alloc) else {
        return most;
    };
    let left = left(&held.clock, now, most);
    slot.put(held);
    left
}
