//! What is under way on channels; those on which nothing is aren't looked at.
ghost use Rattle.std.specs.Prelude.{◌≡◌, ℕ, suc, ◌+◌, ◌<◌, ◌≤◌, drop, length, map, vec_capacity, IfSome, IfNone};
ghost use Rattle.x25_layer.specs.code.FitsLayer.{awaited_at, unacknowledged_at};
ghost use Rattle.x25_station.specs.code.FitsStation.{FitsStation};
ghost use Rattle.x25_station.specs.Config.{Settings, layer_settings};
ghost use Rattle.x25_station.specs.Station.{Station as State};
ghost use Rattle.x25_clock.specs.Clock.{first_of, heeded_on, overdue_of, renewed, rotated, unmoved_of, wait_at};
ghost use Rattle.x25_clock.specs.Awaited.{AreListed, AwaitsNone};

use crate::times::Times;
use crate::wait::{Wait, is_past, sooner};
use x25_station::Station;

/// The soonest of a moment and those of these.
pub(crate) fn soonest(waits: &[Wait], moment: Option<u64>) -> Option<u64>
    ensures { result ≡ first_of moment waits.now }
{
    let mut first = moment;
    for wait in waits {
        first = sooner(sooner(first, wait.until), wait.rotates);
    }
    first
}

/// The first of these of which an answer is due.
pub(crate) fn overdue_in(waits: &[Wait], now: u64) -> Option<Wait>
    ensures { result ≡ overdue_of now waits.now }
{
    for wait in waits {
        if is_past(wait.until, now) {
            return Some(*wait);
        }
    }
    None
}

/// The channel of the first of these of which a data packet wasn't acknowledged in time.
pub(crate) fn unmoved_in(waits: &[Wait], now: u64) -> Option<u16>
    ensures { result ≡ unmoved_of now waits.now }
{
    for wait in waits {
        if is_past(wait.rotates, now) {
            return Some(wait.channel);
        }
    }
    None
}

/// The time of the answer on a channel begins anew.
pub(crate) fn renew_in(waits: &mut Vec<Wait>, times: Times, now: u64, channel: u16)
    ensures items { waits.new.items ≡ map (renewed times now channel) waits.old.items }
    ensures places { vec_capacity waits.new ≡ vec_capacity waits.old }
{
    for wait in waits.iter_mut() {
        *wait = wait.renewed(times, now, channel);
    }
}

/// The time of a data packet on a channel begins anew.
pub(crate) fn rotate_in(waits: &mut Vec<Wait>, times: Times, now: u64, channel: u16)
    ensures items { waits.new.items ≡ map (rotated times now channel) waits.old.items }
    ensures places { vec_capacity waits.new ≡ vec_capacity waits.old }
{
    for wait in waits.iter_mut() {
        *wait = wait.rotated(times, now, channel);
    }
}

// The next channel after one, up to a number, on which something may be under way.
fn busy_after(station: &Station, past: u16, most: u16) -> Option<u16>
    ensures higher { IfSome result (λ h. past < h) }
    ensures within { IfSome result (λ h. h ≤ most) }
    ensures between { (c : Settings) (s : State) → FitsStation c station.now s
        → IfSome result (λ h. AwaitsNone (awaited_at (layer_settings c) s.layer)
        (unacknowledged_at (layer_settings c) s.layer) past h) }
    ensures none { (c : Settings) (s : State) → FitsStation c station.now s
        → IfNone result (AwaitsNone (awaited_at (layer_settings c) s.layer)
        (unacknowledged_at (layer_settings c) s.layer) past (most + 1)) }
{
    match station.busy_after(past) {
        Some(channel) => {
            if channel > most {
                return None;
            }
            Some(channel)
        }
        None => None,
    }
}

// What a list has of a channel from a place on, and from which place on it has those of higher channels.
fn find(waits: &[Wait], at: usize, channel: u16) -> (usize, Wait)
    requires listed { (most past : ℕ) × AreListed most past waits.now }
    requires at { at ≤ length waits.now }
    ensures wait { result.1 ≡ wait_at channel (drop at waits.now) }
    ensures bound { result.0 ≤ length waits.now }
    ensures rest { (h : ℕ) → channel < h → wait_at h (drop result.0 waits.now) ≡ wait_at h (drop at waits.now) }
{
    for place in at..waits.len() {
        let wait = waits[place];
        if wait.channel == channel {
            return (place, wait);
        }
        if wait.channel > channel {
            return (place, Wait::nothing_on(channel));
        }
    }
    (waits.len(), Wait::nothing_on(channel))
}

/// Makes the list of what is under way on channels up to a number, by what was listed.
pub(crate) fn list_all(
    old: &[Wait],
    list: &mut Vec<Wait>,
    most: u16,
    times: Times,
    now: u64,
    station: &Station,
)
    requires listed { AreListed most 0 old.now }
    requires places { vec_capacity list.old ≡ most }
    ensures listed { AreListed most 0 list.new.items }
    ensures places { vec_capacity list.new ≡ vec_capacity list.old }
    ensures heeds { (c : Settings) (s : State) → FitsStation c station.now s → (h : ℕ) → 1 ≤ h → h ≤ most
        → wait_at h list.new.items ≡ heeded_on times now (layer_settings c) s.layer (wait_at h old.now) }
{
    list.clear();
    let mut at = 0;
    let mut past = 0;
    while let Some(channel) = busy_after(station, past, most) {
        past = channel;
        let (place, wait) = find(old, at, channel);
        at = place;
        let stands = station.channel(channel);
        list.push_reserved(wait.heed(times, now, stands.awaits, stands.unacknowledged));
    }
}
