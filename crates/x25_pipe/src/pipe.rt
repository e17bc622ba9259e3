//! A station, and what is told of it.
ghost use Rattle.std.specs.Prelude.{◌≡◌, ◌↔◌, ◌++◌, ◌≤◌, IfErr, IfOk, IsTrue};
ghost use Rattle.x25_pipe.specs.Pipe.{is_same as are_same};

use crate::telling::{tell_frames, tell_mark};
use std::alloc::Global;
use x25_clock::Due;
use x25_console::{
    given_beside, read_user, station_command, tell_entries, tell_nothing, tell_refusal,
};
use x25_decode::read_sent;
use x25_io::{Fault, Output, Sink};
use x25_script::{Command, HexDigits, ScriptTaker, read_line};
use x25_station::{Cfg, Role, Station, StationError, Step};
use x25_text::MOST_OCTETS;

/// What was refused.
#[derive(Clone, Copy, Debug, PartialEq, Eq)]
pub(crate) enum Refusal {
    /// The line asks for nothing.
    Line,
    /// What it asks for.
    Event(StationError),
}

/// The station at an end, what it answered last, whether octets came then, the octets of a frame and of a command, and
/// what waits to be written.
#[derive(Drop)]
pub(crate) struct Pipe {
    pub(crate) end: Role,
    pub(crate) station: Station,
    pub(crate) step: Step,
    pub(crate) has_come: bool,
    octets: [u8; MOST_OCTETS],
    user: Vec<u8>,
    pub(crate) output: Output,
    is_refused: bool,
    // How often something was refused, as far as that is counted, and what last.
    refusals: u64,
    last: Refusal,
}

fn is_same(end: Role, found: Role) -> bool
    ensures { result ≡ are_same end found }
{
    matches!(
        (end, found),
        (Role::Dte, Role::Dte) | (Role::Dce, Role::Dce)
    )
}

/// Whether memory was refused.
fn is_memory(error: StationError) -> bool
    ensures { IsTrue result ↔ (error ≡ StationError.NoMemory) }
{
    matches!(error, StationError::NoMemory)
}

impl Pipe {
    ghost use Rattle.std.specs.Prelude.{[], ◌∷◌, ℕ, ◌<◌, Bool, true, false, List, Option, Some, None, OnOk, OnErr};
    ghost use Rattle.std.specs.Prelude.{MatchOption, MatchResult, length, take};
    ghost use Rattle.x25_clock.specs.Due.{asked_of, event_for};
    ghost use Rattle.x25_clock.specs.laws.ClockLaw.{comes};
    ghost use Rattle.x25_console.specs.Commands.{command_asked};
    ghost use Rattle.x25_io.specs.HeldLine.{most_line};
    ghost use Rattle.x25_io.specs.code.MarksFaults.{MarksFaults};
    ghost use Rattle.x25_io.specs.code.Written.{AppendsPrefix, Tells, TellsMore};
    ghost use Rattle.x25_script.specs.ScriptLine.{is_taken, plain_command};
    ghost use Rattle.x25_station.specs.code.FitsStation.{FitsStation};
    ghost use Rattle.x25_station.specs.Config.{Settings, config_refusal, settings_from};
    ghost use Rattle.x25_station.specs.Station.{Station as State, new_station};
    ghost use Rattle.x25_station.specs.Step.{Outcome};
    ghost use Rattle.x25_station.specs.laws.TimerLaw.{Asks, Comes, StationEvent, Fires, timer as timer_of};
    ghost use Rattle.x25_pipe.specs.Pipe.{act_of, asked_act, event_act, event_in, mark_turn, nothing_act};
    ghost use Rattle.x25_pipe.specs.Pipe.{sayings_text, standing_turn, trace_event};
    ghost use Rattle.x25_pipe.specs.code.Stands.{Acted, Acts, IsError, IsStep, Stands, Turns, answer_told};

    /// A station that never was up, and nothing was told.
    pub(crate) fn new(alloc: Global, end: Role, cfg: Cfg) -> Result<Pipe, Fault>
        requires range { config_refusal cfg ≡ None }
        ensures fits { IfOk result (λ p. FitsStation (settings_from end cfg) p.station new_station) }
        ensures role { IfOk result (λ p. p.end ≡ end) }
        ensures empty { IfOk result (λ p. p.output ≡ []) }
        ensures is_refused { IfOk result (λ p. p.is_refused ≡ false) }
        ensures memory { IfErr result (λ fault. fault ≡ Fault.NoMemory) }
    {
        let output = Output::new(alloc)?;
        let Ok(step) = Step::new(alloc) else {
            return Err(Fault::NoMemory);
        };
        let Ok(station) = Station::new(alloc, end, cfg) else {
            return Err(Fault::NoMemory);
        };
        Ok(Pipe {
            end,
            station,
            step,
            has_come: false,
            octets: [0; MOST_OCTETS],
            user: Vec::new(alloc),
            output,
            is_refused: false,
            refusals: 0,
            last: Refusal::Line,
        })
    }

    /// Writes what waits.
    pub(crate) fn flush<W: Sink>(&mut self, writer: &mut W) -> Result<(), Fault>
        ensures kept { OnOk result (W.is_marked writer.new ≡ W.is_marked writer.old) }
        ensures stands { (c : Settings) (old : Option (List ℕ)) (s : State) (told : List ℕ) (refused : Bool)
            → Stands c old (W.contents writer.old) self.old s told refused
            → MatchResult result (λ _. Stands c old (W.contents writer.new) self.new s told refused)
            (λ _. AppendsPrefix old (W.contents writer.new) told) }
        ensures written { OnOk result (self.new.output ≡ []) }
        ensures is_refused { self.new.is_refused ≡ self.old.is_refused }
        ensures write { IfErr result (λ fault. fault ≡ Fault.Write) }
        ensures marked { OnErr result (W.is_marked writer.new ≡ true) }
    {
        match self.output.flush(writer) {
            Ok(()) => Ok(()),
            Err(_) => Err(Fault::Write),
        }
    }

    /// Tells the mark of what T1 became, and writes what waits.
    pub(crate) fn mark<W: Sink>(&mut self, writer: &mut W) -> Result<(), Fault>
        ensures turns { (c : Settings) (old : Option (List ℕ))
            → Turns c old (W.contents writer.old) (W.contents writer.new)
            self.old self.new result (mark_turn c self.old.step.timer) }
        ensures written { OnOk result (self.new.output ≡ []) }
        ensures faults { MarksFaults W.Sink writer.old writer.new result }
    {
        let is_idle = self.station.idle();
        let is_due = self.station.awaits_answers();
        tell_mark(self.step.timer, is_idle, is_due, &mut self.output, writer)?;
        self.flush(writer)
    }

    /// The mark that comes before anything is read.
    pub(crate) fn mark_standing<W: Sink>(&mut self, writer: &mut W) -> Result<(), Fault>
        ensures turns { (c : Settings) (old : Option (List ℕ))
            → Turns c old (W.contents writer.old) (W.contents writer.new) self.old self.new result (standing_turn c) }
        ensures written { OnOk result (self.new.output ≡ []) }
        ensures faults { MarksFaults W.Sink writer.old writer.new result }
    {
        self.station.reuse(&mut self.step);
        self.mark(writer)
    }

    /// Tells the entries of a step, and behind these its frames.
    fn tell_answer<W: Sink>(&mut self, writer: &mut W) -> Result<(), Fault>
        ensures tells { TellsMore result (W.contents writer.old) (W.contents writer.new) self.old.output self.new.output
            (sayings_text self.old.end (answer_told self.old.step)) }
        ensures station { self.new.station ≡ self.old.station }
        ensures step { self.new.step ≡ self.old.step }
        ensures role { self.new.end ≡ self.old.end }
        ensures has_come { self.new.has_come ≡ self.old.has_come }
        ensures is_refused { self.new.is_refused ≡ self.old.is_refused }
        ensures faults { MarksFaults W.Sink writer.old writer.new result }
    {
        tell_entries(self.end, &self.step.entries, &mut self.output, writer)?;
        let frames = self.step.frames.as_slice();
        tell_frames(self.end, frames, &mut self.output, writer)
    }

    /// Pulls what waits behind a step of the station, and tells both.
    fn follow_up<W: Sink>(&mut self, writer: &mut W) -> Result<(), Fault>
        requires { length self.old.step.frames ≤ 9 }
        ensures acted { (c : Settings) (old : Option (List ℕ)) (s : State) (event : StationEvent) (o : Outcome)
            (told : List ℕ)
            (refused : Bool)
            → IsStep c self.old.station self.old.step o → self.old.step.timer ≡ timer_of s event o
            → self.old.has_come ≡ comes event → self.old.end ≡ c.role
            → Tells old (W.contents writer.old) self.old.output told → self.old.is_refused ≡ refused
            → Acted c old (W.contents writer.new) self.new told refused result (act_of c s event o) }
        ensures faults { MarksFaults W.Sink writer.old writer.new result }
    {
        self.station.pull(&mut self.step);
        self.tell_answer(writer)
    }

    /// Tells that an event is refused; want of memory is a fault.
    fn refuse<W: Sink>(&mut self, error: StationError, writer: &mut W) -> Result<(), Fault>
        ensures acted { (c : Settings) (old : Option (List ℕ)) (s : State) (event : StationEvent) (o : Outcome)
            (told : List ℕ)
            (refused : Bool)
            → Stands c old (W.contents writer.old) self.old s told refused → self.old.has_come ≡ comes event
            → IsError error o
            → Acted c old (W.contents writer.new) self.new told refused result (act_of c s event o) }
        ensures faults { MarksFaults W.Sink writer.old writer.new result }
    {
        if is_memory(error) {
            return Err(Fault::NoMemory);
        }
        self.is_refused = true;
        self.refusals = self.refusals.saturating_add(1);
        self.last = Refusal::Event(error);
        self.station.reuse(&mut self.step);
        tell_refusal(error.number(), &mut self.output, writer)
    }

    /// Tells that a line asks for nothing.
    pub(crate) fn read_nothing<W: Sink>(&mut self, writer: &mut W) -> Result<(), Fault>
        ensures acts { (c : Settings) (old : Option (List ℕ))
            → Acts c old (W.contents writer.old) (W.contents writer.new) self.old self.new result nothing_act }
        ensures faults { MarksFaults W.Sink writer.old writer.new result }
    {
        self.is_refused = true;
        self.refusals = self.refusals.saturating_add(1);
        self.last = Refusal::Line;
        self.has_come = false;
        self.station.reuse(&mut self.step);
        tell_nothing(&mut self.output, writer)
    }

    /// The first `count` octets of those read come.
    fn receive<W: Sink>(&mut self, count: usize, writer: &mut W) -> Result<(), Fault>
        requires { count ≤ length self.old.octets }
        ensures acts { (c : Settings) (old : Option (List ℕ))
            → Acts c old (W.contents writer.old) (W.contents writer.new) self.old self.new result
            (λ s. event_act c s (Comes (take count self.old.octets))) }
        ensures faults { MarksFaults W.Sink writer.old writer.new result }
    {
        self.has_come = true;
        let octets = &self.octets[..count];
        self.station.receive(octets, &mut self.step);
        self.follow_up(writer)
    }

    /// The first `count` octets of those read were sent by an end.
    fn hear<W: Sink>(&mut self, from: Role, count: usize, writer: &mut W) -> Result<(), Fault>
        requires { count ≤ length self.old.octets }
        ensures acts { (c : Settings) (old : Option (List ℕ))
            → Acts c old (W.contents writer.old) (W.contents writer.new) self.old self.new result
            (λ s. asked_act c s (trace_event self.old.end (from, take count self.old.octets))) }
        ensures faults { MarksFaults W.Sink writer.old writer.new result }
    {
        if is_same(self.end.other(), from) {
            return self.receive(count, writer);
        }
        self.read_nothing(writer)
    }

    /// Whether a command is taken: with `--wide` any, else one that a line of the strict profile has.
    fn takes(&self, asked: &Command) -> bool
        ensures { (c : Settings) (s : State) → FitsStation c self.now.station s
            → result ≡ is_taken c.wide (plain_command asked.now) }
    {
        !asked.is_wide() || self.station.is_wide()
    }

    /// The user of this end asks for something.
    fn ask<W: Sink>(&mut self, command: Command, writer: &mut W) -> Result<(), Fault>
        ensures acts { (c : Settings) (old : Option (List ℕ))
            → Acts c old (W.contents writer.old) (W.contents writer.new) self.old self.new result
            (λ s. event_act c s (Asks (command_asked (plain_command command.entry)))) }
        ensures faults { MarksFaults W.Sink writer.old writer.new result }
    {
        self.has_come = false;
        let count = read_user(&command, &mut self.user)?;
        let octets = &self.user[..count];
        let given = given_beside(&command, octets);
        let asked = station_command(&command, octets, given.as_ref());
        match self.station.command(asked, &mut self.step) {
            Ok(()) => self.follow_up(writer),
            Err(error) => self.refuse(error, writer),
        }
    }

    /// T1 runs out.
    fn fire<W: Sink>(&mut self, writer: &mut W) -> Result<(), Fault>
        ensures acts { (c : Settings) (old : Option (List ℕ))
            → Acts c old (W.contents writer.old) (W.contents writer.new) self.old self.new result
            (λ s. event_act c s Fires) }
        ensures faults { MarksFaults W.Sink writer.old writer.new result }
    {
        self.has_come = false;
        match self.station.t1(&mut self.step) {
            Ok(()) => self.follow_up(writer),
            Err(error) => self.refuse(error, writer),
        }
    }

    /// What is due is asked for, as no line says it.
    pub(crate) fn insist<W: Sink>(&mut self, due: Due, writer: &mut W) -> Result<(), Fault>
        ensures acts { (c : Settings) (old : Option (List ℕ))
            → Acts c old (W.contents writer.old) (W.contents writer.new) self.old self.new result
            (λ s. event_act c s (event_for (asked_of c s due))) }
        ensures faults { MarksFaults W.Sink writer.old writer.new result }
    {
        self.has_come = false;
        match due.ask(&mut self.station, &mut self.step) {
            Ok(()) => self.follow_up(writer),
            Err(error) => self.refuse(error, writer),
        }
    }

    /// What a line of the trace or of the script asks for happens.
    fn obey<W: Sink>(&mut self, line: &[u8], writer: &mut W) -> Result<(), Fault>
        ensures acts { length line.now ≤ most_line → (c : Settings) (old : Option (List ℕ))
            → Acts c old (W.contents writer.old) (W.contents writer.new) self.old self.new result
            (λ s. asked_act c s (event_in c.wide c.role line.now)) }
        ensures faults { MarksFaults W.Sink writer.old writer.new result }
    {
        match read_sent(line, self.octets.as_mut_slice()) {
            Some((from, count)) => self.hear(from, count, writer),
            None => read_line(line, self, writer),
        }
    }

    /// What a line asks for happens, which is nothing where it is longer than any that is held.
    pub(crate) fn answer<W: Sink>(
        &mut self,
        line: Option<&[u8]>,
        writer: &mut W,
    ) -> Result<(), Fault>
        ensures acts { (c : Settings) (old : Option (List ℕ)) (text : List ℕ)
            → MatchOption line.entry (most_line < length text) (λ held. (held.now ≡ text) × (length text ≤ most_line))
            → Acts c old (W.contents writer.old) (W.contents writer.new) self.old self.new result
            (λ s. asked_act c s (event_in c.wide c.role text)) }
        ensures faults { MarksFaults W.Sink writer.old writer.new result }
    {
        match line {
            Some(line) => self.obey(line, writer),
            None => self.read_nothing(writer),
        }
    }

    /// Whether a line or an event was refused.
    pub(crate) fn is_refused(&self) -> bool
        ensures { result ≡ self.now.is_refused }
    {
        self.is_refused
    }

    /// How often something was refused, as far as that is counted, and what last.
    pub(crate) fn refusals(&self) -> (u64, Refusal) {
        (self.refusals, self.last)
    }
}

/// What a line of a script asks of this end happens; a line of the other end, or of the line between, asks for nothing.
impl<W: Sink> ScriptTaker<W> for Pipe {
    ghost use Rattle.std.specs.Prelude.{List, ℕ, Option, option_and_then};
    ghost use Rattle.x25_io.specs.code.MarksFaults.{MarksFaults};
    ghost use Rattle.x25_station.specs.Config.{Settings};
    ghost use Rattle.x25_pipe.specs.Pipe.{asked_act, script_event};
    ghost use Rattle.x25_script.specs.ScriptLine.{taken};
    ghost use Rattle.x25_pipe.specs.code.Stands.{Acts};

    type Answer = Result<(), Fault>;

    ghost gives = { λ p was q is result asked. ((c : Settings) (old : Option (List ℕ))
        → Acts c old (W.contents was) (W.contents is) p q result
        (λ s. asked_act c s (option_and_then (script_event p.end) (taken c.wide asked))))
        × MarksFaults W.Sink was is result };

    fn command(&mut self, end: Role, asked: Command, writer: &mut W) -> Result<(), Fault> {
        if !self.takes(&asked) {
            return self.read_nothing(writer);
        }
        if is_same(self.end, end) {
            return self.ask(asked, writer);
        }
        self.read_nothing(writer)
    }

    fn t1(&mut self, end: Role, writer: &mut W) -> Result<(), Fault> {
        if is_same(self.end, end) {
            return self.fire(writer);
        }
        self.read_nothing(writer)
    }

    fn deliver(&mut self, _from: Role, writer: &mut W) -> Result<(), Fault> {
        self.read_nothing(writer)
    }

    fn lose(&mut self, _from: Role, _place: u16, writer: &mut W) -> Result<(), Fault> {
        self.read_nothing(writer)
    }

    fn damage(
        &mut self,
        _from: Role,
        _place: u16,
        _octets: HexDigits,
        writer: &mut W,
    ) -> Result<(), Fault> {
        self.read_nothing(writer)
    }

    fn drain(&mut self, _count: u16, writer: &mut W) -> Result<(), Fault> {
        self.read_nothing(writer)
    }

    fn heal(&mut self, writer: &mut W) -> Result<(), Fault> {
        self.read_nothing(writer)
    }

    fn nothing(&mut self, writer: &mut W) -> Result<(), Fault> {
        self.read_nothing(writer)
    }
}
