//! A station that has a clock, and what is told of both.
ghost use Rattle.std.specs.Prelude.{◌≡◌, ◌≤◌, ◌<◌, ◌↔◌, ℕ, List, IsTrue, MatchOption, decimal, length};
ghost use Rattle.x25_io.specs.HeldLine.{most_line};
ghost use Rattle.x25_pipe.specs.Timed.{moment_in, moment_of, time_in, time_said};

use crate::pipe::Pipe;
use crate::telling::{channel_of, tell_next, tell_timeout};
use itoa::Buffer;
use std::alloc::Global;
use std::str;
use x25_clock::{Clock, Due, Times};
use x25_io::{Fault, Sink};
use x25_station::{Cfg, Role};

/// A station behind a pipe, its clock, and the time that was said last, none before.
#[derive(Drop)]
pub(crate) struct TimedPipe {
    pub(crate) pipe: Pipe,
    clock: Clock,
    now: Option<u64>,
}

/// The moment at which something happens: 0 before a time is said.
fn moment_at(time: Option<u64>) -> u64
    ensures { result ≡ moment_of time }
{
    time.unwrap_or(0)
}

/// Whether the text writes the number in decimal without leading zeros.
fn is_decimal(number: u64, text: &str) -> bool
    ensures { IsTrue result ↔ (decimal number ≡ text.now) }
{
    let mut buffer = Buffer::new();
    buffer.format(number) == text
}

/// The moment that the figures write.
fn moment(figures: &[u8]) -> Option<u64>
    ensures { result ≡ moment_in figures.now }
{
    let text = str::from_utf8(figures).ok()?;
    let number = text.parse::<u64>().ok()?;
    if is_decimal(number, text) {
        Some(number)
    } else {
        None
    }
}

/// The time that a line says, in milliseconds.
fn time_of(line: &[u8]) -> Option<u64>
    ensures { result ≡ time_in line.now }
{
    let [b'@', b' ', figures @ ..] = line else {
        return None;
    };
    moment(figures)
}

/// The time that a line says, which is none where it is longer than any that is held.
pub fn time_said_in(line: Option<&[u8]>) -> Option<u64>
    ensures { (text : List ℕ)
        → MatchOption line.entry (most_line < length text) (λ held. (held.now ≡ text) × (length text ≤ most_line))
        → result ≡ time_said text }
{
    match line {
        Some(line) => time_of(line),
        None => None,
    }
}

impl TimedPipe {
    ghost use Rattle.std.specs.Prelude.{[], ◌≤◌, ◌<◌, ℕ, Bool, false, List, Option, None, IfErr, IfOk, OnOk};
    ghost use Rattle.std.specs.Prelude.{MatchOption, length};
    ghost use Rattle.x25_clock.specs.Clock.{most_due, nothing_awaited, plain};
    ghost use Rattle.x25_io.specs.HeldLine.{most_line};
    ghost use Rattle.x25_io.specs.code.MarksFaults.{MarksFaults};
    ghost use Rattle.x25_station.specs.Config.{Settings, config_refusal, settings_from};
    ghost use Rattle.x25_station.specs.Station.{new_station};
    ghost use Rattle.x25_station.specs.code.FitsStation.{FitsStation};
    ghost use Rattle.x25_pipe.specs.Pipe.{Act, asked_act, event_in, nothing_act};
    ghost use Rattle.x25_pipe.specs.Timed.{Timed, act_turn, answer_turn, begins, due_turns, insist_turn, mark_turn};
    ghost use Rattle.x25_pipe.specs.Timed.{time_said};
    ghost use Rattle.x25_pipe.specs.code.Stands.{IsActed};
    ghost use Rattle.x25_pipe.specs.code.TimedStands.{StandsTimed, StandsTimedAt, TurnsTimed};

    /// A station that never was up, a clock by which nothing is awaited, and nothing was told.
    pub(crate) fn new(alloc: Global, end: Role, cfg: Cfg, times: Times) -> Result<TimedPipe, Fault>
        requires range { config_refusal cfg ≡ None }
        ensures fits { IfOk result (λ p. FitsStation (settings_from end cfg) p.pipe.station new_station) }
        ensures role { IfOk result (λ p. p.pipe.end ≡ end) }
        ensures empty { IfOk result (λ p. p.pipe.output ≡ []) }
        ensures is_refused { IfOk result (λ p. p.pipe.is_refused ≡ false) }
        ensures clock { IfOk result (λ p. plain p.clock ≡ nothing_awaited cfg.channels.count) }
        ensures times { IfOk result (λ p. p.clock.times ≡ times) }
        ensures channels { IfOk result (λ p. p.clock.channels ≡ cfg.channels.count) }
        ensures now { IfOk result (λ p. p.now ≡ None) }
        ensures memory { IfErr result (λ fault. fault ≡ Fault.NoMemory) }
    {
        let clock = Clock::new(alloc, times, cfg.channels.count)?;
        let pipe = Pipe::new(alloc, end, cfg)?;
        Ok(TimedPipe {
            pipe,
            clock,
            now: None,
        })
    }

    /// Tells the mark of what is due next, and writes what waits.
    pub(crate) fn mark<W: Sink>(&mut self, writer: &mut W) -> Result<(), Fault>
        ensures turns { (c : Settings) (times : Times) (old : Option (List ℕ))
            → TurnsTimed c times old (W.contents writer.old) (W.contents writer.new) self.old self.new result
            (mark_turn c) }
        ensures written { OnOk result (self.new.pipe.output ≡ []) }
        ensures faults { MarksFaults W.Sink writer.old writer.new result }
    {
        let next = self.clock.next();
        let is_idle = self.pipe.station.idle();
        let is_due = self.pipe.station.awaits_answers();
        tell_next(next, is_idle, is_due, &mut self.pipe.output, writer)?;
        self.pipe.flush(writer)
    }

    /// The clock heeds what the station did.
    fn heed(&mut self)
        ensures { (c : Settings) (times : Times) (old now : Option (List ℕ)) (w : Timed) (told : List ℕ)
            (refused : Bool) (a : Act)
            → IsActed c old now self.old.pipe told refused a → plain self.old.clock ≡ w.deadlines
            → self.old.clock.times ≡ times → self.old.clock.channels ≡ c.channels.count → self.old.now ≡ w.now
            → StandsTimedAt c times old now self.new told refused (act_turn c times w a) }
    {
        let pipe = &self.pipe;
        let now = moment_at(self.now);
        self.clock
            .heed(now, &pipe.station, &pipe.step, pipe.has_come);
    }

    /// A line asks for nothing.
    fn read_nothing<W: Sink>(&mut self, writer: &mut W) -> Result<(), Fault>
        ensures turns { (c : Settings) (times : Times) (old : Option (List ℕ))
            → TurnsTimed c times old (W.contents writer.old) (W.contents writer.new) self.old self.new result
            (λ w. act_turn c times w (nothing_act w.station)) }
        ensures faults { MarksFaults W.Sink writer.old writer.new result }
    {
        self.pipe.read_nothing(writer)?;
        self.heed();
        Ok(())
    }

    /// A line is answered as without a clock.
    fn obey<W: Sink>(&mut self, line: Option<&[u8]>, writer: &mut W) -> Result<(), Fault>
        ensures turns { (c : Settings) (times : Times) (old : Option (List ℕ)) (text : List ℕ)
            → MatchOption line.entry (most_line < length text) (λ held. (held.now ≡ text) × (length text ≤ most_line))
            → TurnsTimed c times old (W.contents writer.old) (W.contents writer.new) self.old self.new result
            (λ w. act_turn c times w (asked_act c w.station (event_in c.wide c.role text))) }
        ensures faults { MarksFaults W.Sink writer.old writer.new result }
    {
        self.pipe.answer(line, writer)?;
        self.heed();
        Ok(())
    }

    /// Tells which timer has passed, and asks for what is due.
    fn insist<W: Sink>(&mut self, due: Due, writer: &mut W) -> Result<(), Fault>
        ensures turns { (c : Settings) (times : Times) (old : Option (List ℕ))
            → TurnsTimed c times old (W.contents writer.old) (W.contents writer.new) self.old self.new result
            (insist_turn c times due) }
        ensures faults { MarksFaults W.Sink writer.old writer.new result }
    {
        let awaits = self.pipe.station.channel(channel_of(due)).awaits;
        tell_timeout(self.pipe.end, awaits, due, &mut self.pipe.output, writer)?;
        self.pipe.insist(due, writer)?;
        self.heed();
        Ok(())
    }

    /// What is due is asked for, one after another.
    fn ask_due<W: Sink>(&mut self, writer: &mut W) -> Result<(), Fault>
        ensures turns { (c : Settings) (times : Times) (old : Option (List ℕ))
            → TurnsTimed c times old (W.contents writer.old) (W.contents writer.new) self.old self.new result
            (λ w. due_turns c times (most_due w.deadlines) w) }
        ensures faults { MarksFaults W.Sink writer.old writer.new result }
    {
        let mut left = self.clock.most_due();
        while left > 0 {
            let Some(due) = self.clock.due(moment_at(self.now)) else {
                return Ok(());
            };
            self.insist(due, writer)?;
            left -= 1;
        }
        Ok(())
    }

    /// The clock begins, as the first time is said.
    fn begin(&mut self, now: u64)
        ensures { (c : Settings) (times : Times) (old written : Option (List ℕ)) (w : Timed) (told : List ℕ)
            (refused : Bool)
            → StandsTimed c times old written self.old w told refused
            → StandsTimed c times old written self.new (begins c times now w) told refused }
    {
        self.clock.begin(now, &self.pipe.station);
        self.now = Some(now);
    }

    /// A line says the time, at which what is due is asked for; the first time has the clock begin, and one before the
    /// time that was said last asks for nothing.
    fn pass<W: Sink>(&mut self, now: u64, writer: &mut W) -> Result<(), Fault>
        ensures turns { (c : Settings) (times : Times) (old : Option (List ℕ)) (line : List ℕ)
            → TurnsTimed c times old (W.contents writer.old) (W.contents writer.new) self.old self.new result
            (λ w. answer_turn c times line w (Some now)) }
        ensures faults { MarksFaults W.Sink writer.old writer.new result }
    {
        let Some(last) = self.now else {
            self.begin(now);
            return Ok(());
        };
        if now < last {
            return self.read_nothing(writer);
        }
        self.now = Some(now);
        self.ask_due(writer)
    }

    /// What a line asks for happens.
    pub(crate) fn answer<W: Sink>(
        &mut self,
        line: Option<&[u8]>,
        writer: &mut W,
    ) -> Result<(), Fault>
        ensures turns { (c : Settings) (times : Times) (old : Option (List ℕ)) (text : List ℕ)
            → MatchOption line.entry (most_line < length text) (λ held. (held.now ≡ text) × (length text ≤ most_line))
            → TurnsTimed c times old (W.contents writer.old) (W.contents writer.new) self.old self.new result
            (λ w. answer_turn c times text w (time_said text)) }
        ensures faults { MarksFaults W.Sink writer.old writer.new result }
    {
        match time_said_in(line) {
            Some(now) => self.pass(now, writer),
            None => self.obey(line, writer),
        }
    }
}
