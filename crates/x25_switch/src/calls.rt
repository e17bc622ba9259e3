//! The calls of a switch in a list: which of them a leg is of, and what they want.
ghost use Rattle.std.specs.Prelude.{◌≡◌, ◌<◌, ◌≤◌, true, false, length, map, vec_capacity, vec_len, IfNone, IfSome};
ghost use Rattle.std.specs.Prelude.{OnErr, OnOk, slice_get};
ghost use Rattle.x25_crossing.specs.Asking.{is_over};
ghost use Rattle.x25_crossing.specs.Told.{may_lack, plain_told};
ghost use Rattle.x25_switch.specs.Calls.{AreApart, Holds, Sweeps, is_on, lacks_in, legs_in, lingered_call, lost_call};
ghost use Rattle.x25_switch.specs.Calls.{place_of, told_in, vacated};
ghost use Rattle.x25_switch.specs.code.Asked.{IsMade, IsWanted, Makes, channel_asked};
ghost use Rattle.x25_switch.specs.code.Plain.{plains};

use crate::call::{Call, Want};
use crate::leg::command_to;
use crate::round::Round;
use std::alloc::AllocError;
use x25_crossing::{Side, Told};
use x25_station::{Entry, Role, Station, StationError, Step};

// The first call that has a leg on this channel of this line, and which leg.
fn find(calls: &[Call], line: u8, channel: u16) -> Option<(usize, Side)>
    ensures place { result ≡ place_of line channel (plains calls.now) }
    ensures within { IfSome result (λ found. found.0 < length calls.now) }
{
    for index in 0..calls.len() {
        if let Some(side) = calls[index].leg_of(line, channel) {
            return Some((index, side));
        }
    }
    None
}

/// What is told at a leg is told to the first call that has it. Err: no memory.
pub(crate) fn tell(
    calls: &mut Vec<Call>,
    line: u8,
    channel: u16,
    told: Told<'_>,
) -> Result<(), AllocError>
    ensures told { OnOk result (plains calls.new.items
        ≡ told_in line channel (plain_told told.entry) (plains calls.old.items)) }
    ensures lacks { OnErr result (plains calls.new.items ≡ lacks_in line channel (plains calls.old.items)) }
    ensures only { OnErr result (may_lack (plain_told told.entry) ≡ true) }
    ensures apart { AreApart (plains calls.old.items) → AreApart (plains calls.new.items) }
    ensures places { vec_capacity calls.new ≡ vec_capacity calls.old }
    ensures count { vec_len calls.new ≡ vec_len calls.old }
{
    let Some((index, side)) = find(calls.as_slice(), line, channel) else {
        return Ok(());
    };
    calls[index].crossing.told(side, told)
}

/// What is told at each leg on a line, as it goes down or all its calls are restarted.
pub(crate) fn lose(calls: &mut Vec<Call>, line: u8, told: Told<'_>)
    requires { may_lack (plain_told told) ≡ false }
    ensures lost { plains calls.new.items ≡ map (lost_call (plain_told told.entry) line) (plains calls.old.items) }
    ensures apart { AreApart (plains calls.old.items) → AreApart (plains calls.new.items) }
    ensures places { vec_capacity calls.new ≡ vec_capacity calls.old }
    ensures count { vec_len calls.new ≡ vec_len calls.old }
{
    for index in 0..calls.len() {
        calls[index].lose(line, told);
    }
}

/// What waits for legs that are to be cleared has waited on.
pub(crate) fn linger(calls: &mut Vec<Call>)
    ensures lingered { plains calls.new.items ≡ map lingered_call (plains calls.old.items) }
    ensures apart { AreApart (plains calls.old.items) → AreApart (plains calls.new.items) }
    ensures places { vec_capacity calls.new ≡ vec_capacity calls.old }
    ensures count { vec_len calls.new ≡ vec_len calls.old }
{
    for index in 0..calls.len() {
        calls[index].linger();
    }
}

/// The leg that stands on this channel of this line is lost.
pub(crate) fn vacate(calls: &mut Vec<Call>, line: u8, channel: u16)
    ensures vacated { plains calls.new.items ≡ vacated line channel (plains calls.old.items) }
    ensures none { AreApart (plains calls.old.items) → legs_in line channel (plains calls.new.items) ≡ 0 }
    ensures apart { AreApart (plains calls.old.items) → AreApart (plains calls.new.items) }
    ensures places { vec_capacity calls.new ≡ vec_capacity calls.old }
    ensures count { vec_len calls.new ≡ vec_len calls.old }
{
    match tell(calls, line, channel, Told::Lost) {
        Ok(()) => {}
        Err(AllocError) => {}
    }
}

// The first call that is over.
fn over(calls: &[Call]) -> Option<usize>
    ensures over { IfSome result (λ index. Holds (λ call. is_over call.crossing ≡ true)
        (slice_get (plains calls.now) index)) }
    ensures within { IfSome result (λ index. index < length calls.now) }
{
    for index in 0..calls.len() {
        if calls[index].is_over() {
            return Some(index);
        }
    }
    None
}

/// A call that is over is let go.
pub(crate) fn sweep(calls: &mut Vec<Call>)
    ensures swept { Sweeps (plains calls.old.items) (plains calls.new.items) }
    ensures apart { AreApart (plains calls.old.items) → AreApart (plains calls.new.items) }
    ensures places { vec_capacity calls.new ≡ vec_capacity calls.old }
    ensures count { vec_len calls.new ≤ vec_len calls.old }
{
    if let Some(index) = over(calls.as_slice()) {
        calls.remove(index);
    }
}

/// The first call that is to be made on a line.
pub(crate) fn made_on(calls: &[Call], line: u8) -> Option<usize>
    ensures { IfSome result (λ index. index < length calls.now) }
{
    for index in 0..calls.len() {
        if calls[index].is_made_on(line) {
            return Some(index);
        }
    }
    None
}

/// The next call of a round that wants something of the line's station, which is this end, and what.
pub(crate) fn wanting(calls: &[Call], round: Round, role: Role) -> Option<(usize, Want)>
    ensures on { IfSome result (λ found. Holds (λ call. is_on round.line found.1.side call ≡ true)
        (slice_get (plains calls.now) found.0)) }
    ensures within { IfSome result (λ found. found.0 < length calls.now) }
{
    for index in round.call..calls.len() {
        let from = if index == round.call { round.place } else { 0 };
        if let Some(want) = calls[index].wanting(round.line, from, role) {
            return Some((index, want));
        }
    }
    None
}

// The channel of the call that was asked for.
fn channel_of(step: &Step) -> u16
    ensures { result ≡ channel_asked step.now.entries.items }
{
    match step.entries.as_slice().first() {
        Some(Entry::Asked { channel, .. }) => *channel,
        _ => 0,
    }
}

// The station of a line has called, or refuses to, for a call.
fn settle(
    calls: &mut Vec<Call>,
    index: usize,
    line: u8,
    step: &Step,
    answer: Result<(), StationError>,
)
    requires { index < vec_len calls.old }
    ensures made { Makes line index answer step.now (plains calls.old.items) (plains calls.new.items) }
    ensures apart { AreApart (plains calls.old.items) → AreApart (plains calls.new.items) }
    ensures places { vec_capacity calls.new ≡ vec_capacity calls.old }
    ensures count { vec_len calls.new ≡ vec_len calls.old }
{
    match answer {
        Ok(()) => {
            let channel = channel_of(step);
            vacate(calls, line, channel);
            calls[index].called(line, channel);
        }
        Err(error) => calls[index].not_called(error.number()),
    }
}

/// Makes a call on a line.
pub(crate) fn make(
    calls: &mut Vec<Call>,
    index: usize,
    line: u8,
    station: &mut Station,
    step: &mut Step,
) -> Result<(), StationError>
    requires { index < vec_len calls.old }
    ensures made { IsMade line (plains calls.old.items) (plains calls.new.items) station.old station.new step.new
        result }
    ensures apart { AreApart (plains calls.old.items) → AreApart (plains calls.new.items) }
    ensures places { vec_capacity calls.new ≡ vec_capacity calls.old }
    ensures count { vec_len calls.new ≡ vec_len calls.old }
{
    let answer = command_to(station, calls[index].request.command(), step);
    settle(calls, index, line, step, answer);
    answer
}

/// Asks the station of a line, which is this end, for what a call wants there.
pub(crate) fn ask(
    calls: &mut Vec<Call>,
    index: usize,
    want: Want,
    line: u8,
    role: Role,
    station: &mut Station,
    step: &mut Step,
) -> Option<Result<(), StationError>>
    requires within { index < vec_len calls.old }
    requires on { Holds (λ call. is_on line want.side call ≡ true) (slice_get (plains calls.old.items) index) }
    ensures wanted { IfSome result (λ answer. IsWanted line role (plains calls.old.items) (plains calls.new.items)
        station.old station.new step.new answer) }
    ensures stays { IfNone result (station.new ≡ station.old) }
    ensures same { IfNone result (plains calls.new.items ≡ plains calls.old.items) }
    ensures apart { AreApart (plains calls.old.items) → AreApart (plains calls.new.items) }
    ensures places { vec_capacity calls.new ≡ vec_capacity calls.old }
    ensures count { vec_len calls.new ≤ vec_len calls.old }
{
    let answer = calls[index].ask(want, role, station, step)?;
    sweep(calls);
    Some(answer)
}
