//! Deadlines, and what is under way on a channel: the answer that is awaited, and a data packet.
ghost use Rattle.std.specs.Prelude.{◌≡◌};
ghost use Rattle.x25_clock.specs.Clock.{deadline, is_heard, is_past, number_of, running, since, sooner, time_of};
ghost use Rattle.x25_clock.specs.Clock.{due_on, is_same, nothing_on, renewed, rotated, wait_after};

use crate::due::Due;
use crate::times::Times;
use x25_layer::Awaits;
use x25_station::Step;

/// What is awaited on a channel, and until when; P(S) of the first data packet that isn't acknowledged, and until when
/// P(R) is to move. No moment where that may take for ever.
#[derive(Clone, Copy)]
pub(crate) struct Wait {
    pub(crate) channel: u16,
    pub(crate) awaits: Awaits,
    pub(crate) until: Option<u64>,
    pub(crate) unacknowledged: Option<u8>,
    pub(crate) rotates: Option<u64>,
}

/// So much later, where it isn't for ever and there is such a moment.
pub(crate) fn deadline(now: u64, time: u32) -> Option<u64>
    ensures { result ≡ deadline now time }
{
    if time == 0 || now > u64::MAX - u64::from(time) {
        None
    } else {
        Some(now + u64::from(time))
    }
}

/// Whether a moment has come.
pub(crate) fn is_past(until: Option<u64>, now: u64) -> bool
    ensures { result ≡ is_past now until }
{
    match until {
        Some(moment) => moment <= now,
        None => false,
    }
}

/// The sooner of two moments.
pub(crate) fn sooner(one: Option<u64>, other: Option<u64>) -> Option<u64>
    ensures { result ≡ sooner one other }
{
    match (one, other) {
        (Some(moment), Some(another)) => { if moment <= another { one } else { other } }
        (Some(_), None) => one,
        (None, _) => other,
    }
}

/// Whether something is heard: octets came, and the station answers a frame or tells something.
pub(crate) fn is_heard(has_come: bool, step: &Step) -> bool
    ensures { result ≡ is_heard has_come step.now.frames step.now.entries.items }
{
    if step.frames.len() == 0 && step.entries.as_slice().is_empty() {
        return false;
    }
    has_come
}

/// A deadline that stands while something is so, and begins anew where it is to.
pub(crate) fn running(stands: bool, anew: bool, old: Option<u64>, new: Option<u64>) -> Option<u64>
    ensures { result ≡ running stands anew old new }
{
    match (stands, anew, old) {
        (false, _, _) => None,
        (true, false, Some(_)) => old,
        (true, _, _) => new,
    }
}

/// The deadline of what begins now, where that is so.
pub(crate) fn since(stands: bool, now: u64, time: u32) -> Option<u64>
    ensures { result ≡ since stands now time }
{
    if stands { deadline(now, time) } else { None }
}

fn number(awaits: Awaits) -> u8
    ensures { result ≡ number_of awaits }
{
    match awaits {
        Awaits::Nothing => 0,
        Awaits::Acceptance => 1,
        Awaits::ResetConfirmation => 2,
        Awaits::ClearConfirmation => 3,
        Awaits::InterruptConfirmation => 4,
    }
}

/// How long an answer may take.
pub(crate) fn time_of(times: Times, awaits: Awaits) -> u32
    ensures { result ≡ time_of times awaits }
{
    match awaits {
        Awaits::Nothing => 0,
        Awaits::Acceptance => times.t21,
        Awaits::ResetConfirmation => times.t22,
        Awaits::ClearConfirmation => times.t23,
        Awaits::InterruptConfirmation => times.t26,
    }
}

// Whether both are there and the same.
fn is_same(one: Option<u8>, other: Option<u8>) -> bool
    ensures { result ≡ is_same one other }
{
    match (one, other) {
        (Some(number), Some(another)) => number == another,
        _ => false,
    }
}

impl Wait {
    /// Nothing is awaited on a channel, and all is acknowledged.
    pub(crate) fn nothing_on(channel: u16) -> Wait
        ensures { result ≡ nothing_on channel }
    {
        Wait {
            channel,
            awaits: Awaits::Nothing,
            until: None,
            unacknowledged: None,
            rotates: None,
        }
    }

    /// As this is awaited, and this is the first data packet that isn't acknowledged: another one than before has its
    /// time from now on.
    pub(crate) fn heed(self, times: Times, now: u64, awaits: Awaits, first: Option<u8>) -> Wait
        ensures { result ≡ wait_after times now awaits first self }
    {
        let another = number(self.awaits) != number(awaits);
        let answered = deadline(now, time_of(times, awaits));
        let moved = !is_same(self.unacknowledged, first);
        let rotates = deadline(now, times.t25);
        Wait {
            channel: self.channel,
            awaits,
            until: running(awaits.is_any(), another, self.until, answered),
            unacknowledged: first,
            rotates: running(first.is_some(), moved, self.rotates, rotates),
        }
    }

    /// What is to be asked as its time has passed.
    pub(crate) fn due(self) -> Option<Due>
        ensures { result ≡ due_on self }
    {
        let channel = self.channel;
        match self.awaits {
            Awaits::Nothing => None,
            Awaits::Acceptance | Awaits::ResetConfirmation => Some(Due::Clear { channel }),
            Awaits::ClearConfirmation => Some(Due::Restart { channel }),
            Awaits::InterruptConfirmation => Some(Due::Reset { channel }),
        }
    }

    /// The time of the answer on a channel begins anew, where this is its.
    pub(crate) fn renewed(self, times: Times, now: u64, channel: u16) -> Wait
        ensures { result ≡ renewed times now channel self }
    {
        if self.channel != channel {
            return self;
        }
        Wait {
            until: deadline(now, time_of(times, self.awaits)),
            ..self
        }
    }

    /// The time of a data packet on a channel begins anew, where this is its.
    pub(crate) fn rotated(self, times: Times, now: u64, channel: u16) -> Wait
        ensures { result ≡ rotated times now channel self }
    {
        if self.channel != channel {
            return self;
        }
        Wait {
            rotates: since(self.unacknowledged.is_some(), now, times.t25),
            ..self
        }
    }
}
