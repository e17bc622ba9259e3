ghost use Rattle.std.specs.Prelude.{◌≡◌, map, length, vec_capacity};
ghost use Rattle.x25_clock.specs.Awaited.{AreListed, listed_is_fact};
ghost use Rattle.x25_station.specs.code.FitsStation.{FitsStation};
ghost use Rattle.x25_station.specs.Config.{Settings, layer_settings};
ghost use Rattle.x25_station.specs.Station.{Station as State};

use crate::awaited::{list_all, overdue_in, renew_in, rotate_in, soonest, unmoved_in};
use crate::due::Due;
use crate::times::Times;
use crate::wait::{Wait, deadline, is_heard, is_past, running, since, sooner};
use std::alloc::{AllocError, Global};
use std::mem;
use x25_station::{Station, Step, Timer};

/// The deadlines of a station: of T1, of an idle link, of a restart, and on each channel of what is awaited and of a
/// data packet that isn't acknowledged. It holds two lists of these, each with a place for each channel, which are made
/// in `new`.
///
/// After each step of the station, pulls among it, it is to `heed` that. `next` says when something is due, if nothing
/// happens before; then `due` says what is to be asked, one after another, each to be heeded in turn.
#[derive(Drop)]
pub struct Clock {
    times: Times,
    t1: Option<u64>,
    idle: Option<u64>,
    restart: Option<u64>,
    channels: u16,
    /// What is under way on channels, in rising order.
    waits: Vec<Wait>,
    ghost listed: { AreListed channels 0 waits.items } by { listed_is_fact channels 0 waits.items },
    ghost places: { vec_capacity waits ≡ channels },
    /// Where the next list is made.
    spare: Vec<Wait>,
    ghost spare_places: { vec_capacity spare ≡ channels },
}

impl Clock {
    ghost use Rattle.std.specs.Prelude.{IfOk};
    ghost use Rattle.x25_clock.specs.Clock.{after_due, due_of, heeded, heeded_on, next_of, nothing_awaited, overdue_of};
    ghost use Rattle.x25_clock.specs.Clock.{begun, most_due, plain, renewed, rotated, seen, unmoved_of};

    /// The clock of a station with so many channels (`Station::channels`) whose link is down.
    ///
    /// Err: memory was refused.
    pub fn new(alloc: Global, times: Times, channels: u16) -> Result<Clock, AllocError>
        ensures plain { IfOk result (λ clock. plain clock ≡ nothing_awaited channels) }
        ensures times { IfOk result (λ clock. clock.times ≡ times) }
        ensures most { IfOk result (λ clock. clock.channels ≡ channels) }
    {
        let waits = Vec::with_capacity(alloc, usize::from(channels))?;
        let spare = Vec::with_capacity(alloc, usize::from(channels))?;
        Ok(Clock {
            times,
            t1: None,
            idle: None,
            restart: None,
            channels,
            waits,
            spare,
        })
    }

    /// Heeds a step of the station, which has led to this one: a deadline is set where something begins to be awaited,
    /// stays while that is, and is dropped. `has_come` is whether octets came: where the station answers these by a
    /// frame or tells of them, an idle link is watched anew.
    pub fn heed(&mut self, now: u64, station: &Station, step: &Step, has_come: bool)
        ensures heeds { (c : Settings) (s : State) → FitsStation c station.now s
            → plain self.new ≡ heeded self.old.times now (seen c s step.now has_come) (plain self.old) }
        ensures times { self.new.times ≡ self.old.times }
        ensures channels { self.new.channels ≡ self.old.channels }
    {
        let times = self.times;
        self.t1 = match step.timer {
            Timer::Off => None,
            Timer::GoesOn => self.t1,
            Timer::Begins => deadline(now, times.t1),
        };
        let status = station.status();
        let asks = deadline(now, times.t3);
        let heard = is_heard(has_come, step);
        self.idle = running(status.is_at_rest, heard, self.idle, asks);
        let anew = step.tells_link();
        let relinks = deadline(now, times.t20);
        self.restart = running(status.is_restarting, anew, self.restart, relinks);
        self.heed_channels(now, station);
    }

    /// Begins beside a station, whatever it has heeded: what the station awaits is awaited from this moment on.
    pub fn begin(&mut self, now: u64, station: &Station)
        ensures begins { (c : Settings) (s : State) → FitsStation c station.now s
            → plain self.new ≡ begun self.old.times now self.old.channels c s }
        ensures times { self.new.times ≡ self.old.times }
        ensures channels { self.new.channels ≡ self.old.channels }
    {
        let times = self.times;
        let status = station.status();
        self.t1 = since(status.timer_runs, now, times.t1);
        self.idle = since(status.is_at_rest, now, times.t3);
        self.restart = since(status.is_restarting, now, times.t20);
        self.waits.clear();
        self.heed_channels(now, station);
    }

    // What is under way on channels.
    fn heed_channels(&mut self, now: u64, station: &Station)
        ensures waits { (c : Settings) (s : State) → FitsStation c station.now s → (plain self.new).waits
            ≡ map (heeded_on self.old.times now (layer_settings c) s.layer) (plain self.old).waits }
        ensures kept { plain self.new ≡ record (plain self.old) { waits = (plain self.new).waits } }
        ensures times { self.new.times ≡ self.old.times }
        ensures channels { self.new.channels ≡ self.old.channels }
    {
        let waits = self.waits.as_slice();
        list_all(
            waits,
            &mut self.spare,
            self.channels,
            self.times,
            now,
            station,
        );
        mem::swap(&mut self.waits, &mut self.spare);
    }

    /// The next moment at which something is due; none where nothing is.
    pub fn next(&self) -> Option<u64>
        ensures { result ≡ next_of (plain self.now) }
    {
        let first = sooner(sooner(self.t1, self.idle), self.restart);
        soonest(self.waits.as_slice(), first)
    }

    /// How much may be due at one moment, each asked for once: T1, an idle link, a restart, and of each channel what it
    /// awaits and T25.
    pub fn most_due(&self) -> usize
        ensures { result ≡ most_due (plain self.now) }
    {
        3 + 2 * usize::from(self.channels)
    }

    // The first channel on which an answer is due.
    fn overdue(&self, now: u64) -> Option<Wait>
        ensures { result ≡ overdue_of now (plain self.now).waits }
    {
        overdue_in(self.waits.as_slice(), now)
    }

    // The time of the answer on a channel begins anew.
    fn renew(&mut self, now: u64, channel: u16)
        ensures waits { (plain self.new).waits ≡ map (renewed self.old.times now channel) (plain self.old).waits }
        ensures kept { plain self.new ≡ record (plain self.old) { waits = (plain self.new).waits } }
        ensures times { self.new.times ≡ self.old.times }
        ensures channels { self.new.channels ≡ self.old.channels }
    {
        renew_in(&mut self.waits, self.times, now, channel);
    }

    // The first channel on which T25 has passed.
    fn unmoved(&self, now: u64) -> Option<u16>
        ensures { result ≡ unmoved_of now (plain self.now).waits }
    {
        unmoved_in(self.waits.as_slice(), now)
    }

    // T25 of a channel begins anew.
    fn rotate(&mut self, now: u64, channel: u16)
        ensures waits { (plain self.new).waits ≡ map (rotated self.old.times now channel) (plain self.old).waits }
        ensures kept { plain self.new ≡ record (plain self.old) { waits = (plain self.new).waits } }
        ensures times { self.new.times ≡ self.old.times }
        ensures channels { self.new.channels ≡ self.old.channels }
    {
        rotate_in(&mut self.waits, self.times, now, channel);
    }

    /// What is to be asked at a moment: T1, then what wasn't answered, a restart before channels in rising order, then
    /// those on which T25 has passed, and then an idle link; none where nothing is due. Its time begins anew, so that
    /// it is asked again where it is refused.
    pub fn due(&mut self, now: u64) -> Option<Due>
        ensures due { result ≡ due_of now (plain self.old) }
        ensures after { plain self.new ≡ after_due self.old.times now (plain self.old) }
        ensures times { self.new.times ≡ self.old.times }
        ensures channels { self.new.channels ≡ self.old.channels }
    {
        let times = self.times;
        if is_past(self.t1, now) {
            self.t1 = deadline(now, times.t1);
            return Some(Due::T1);
        }
        if is_past(self.restart, now) {
            self.restart = deadline(now, times.t20);
            return Some(Due::Relink);
        }
        if let Some(wait) = self.overdue(now) {
            self.renew(now, wait.channel);
            return wait.due();
        }
        if let Some(channel) = self.unmoved(now) {
            self.rotate(now, channel);
            return Some(Due::ResetUnacknowledged { channel });
        }
        if is_past(self.idle, now) {
            self.idle = deadline(now, times.t3);
            return Some(Due::Probe);
        }
        None
    }
}
