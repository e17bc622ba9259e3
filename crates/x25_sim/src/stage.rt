//! Two stations, a line between them, and what is told of them.
ghost use Rattle.std.specs.Prelude.{◌≡◌, ◌≢◌, IfErr, IfOk, OnOk, drop, length, map};
ghost use Rattle.x25_bits.specs.Role.{end_of, other};
ghost use Rattle.x25_world.specs.code.FitsWorld.{FitsWorld};
ghost use Rattle.x25_world.specs.code.ShownWorld.{ShownWorld, line_from, line_of};
ghost use Rattle.x25_sim.specs.code.Stands.{opening};

use crate::telling::{refusal_number, tell_frames, tell_mark};
use std::alloc::Global;
use x25_console::{tell_entries, tell_nothing, tell_refusal};
use x25_io::{Fault, Output, Sink};
use x25_script::Command;
use x25_station::{Cfg, Cmd, Step};
use x25_world::{
    Direction, Event, Role, SABM_ARRIVES, UA_ARRIVES, World, WorldError, two_stations_keep_order,
};

/// What is told beside entries and refusals.
#[derive(Clone, Copy, Debug, PartialEq, Eq)]
pub struct Shown {
    /// The frames that were put on the line in a step, behind its entries.
    pub tap: bool,
    /// Each event, behind what it made.
    pub events: bool,
}

/// A world of which all was told, and what waits to be written.
#[derive(Drop)]
pub(crate) struct Stage {
    world: World,
    step: Step,
    shown: Shown,
    output: Output,
    is_refused: bool,
    // How many events were refused, as far as that is counted, and the number of the last one's error.
    refusals: u64,
    last_error: u8,
}

/// How many deliveries follow one another at most, and how many rounds of them, where frames arrive until there is
/// none.
const MOST_TIMES: u32 = 4_294_967_295;

/// Two stations, of which the DTE has asked that the link be set up, or with `down` both links are down.
fn first_world(alloc: Global, down: bool, cfg: Cfg) -> Result<World, WorldError>
    ensures { IfOk result (λ world. FitsWorld cfg world (opening cfg down)) }
{
    if down {
        World::start(alloc, cfg)
    } else {
        World::connecting(alloc, cfg)
    }
}

/// Nothing, where an event was refused; want of memory is a fault.
fn unless_memory(error: WorldError) -> Result<(), Fault>
    ensures other { OnOk result (error ≢ WorldError.NoMemory) }
    ensures memory { IfErr result (λ fault. fault ≡ Fault.NoMemory) }
{
    match error {
        WorldError::NoMemory => Err(Fault::NoMemory),
        _ => Ok(()),
    }
}

/// The direction that leads away from an end.
pub(crate) fn away_from(end: Role) -> Direction
    ensures end { end_of result ≡ other end }
    ensures line { (v : ShownWorld) → line_of v result ≡ line_from v end }
{
    match end {
        Role::Dte => Direction::ToDce,
        Role::Dce => Direction::ToDte,
    }
}

impl Stage {
    ghost use Rattle.std.specs.Prelude.{◌≡◌, ◌⊎◌, ◌++◌, true, ℕ, List, Bool, Option, Some, None, [], false, OnOk};
    ghost use Rattle.std.specs.Prelude.{OnErr, IfErr, MatchResult, is_none, option_map};
    ghost use Rattle.x25_io.specs.code.MarksFaults.{MarksFaults};
    ghost use Rattle.x25_io.specs.code.Written.{AppendsPrefix, Tells, TellsMore};
    ghost use Rattle.x25_station.specs.declared.config.Cfg.{Cfg as Settings};
    ghost use Rattle.x25_world.specs.World.{World as State, start, entered, tapped, WorldOutcome, event_of, happens};
    ghost use Rattle.x25_world.specs.World.{refusal_of};
    ghost use Rattle.x25_world.specs.Healing.{next_end};
    ghost use Rattle.x25_script.specs.ScriptLine.{is_taken, plain_command};
    ghost use Rattle.x25_sim.specs.Telling.{taps, sayings_text};
    ghost use Rattle.x25_sim.specs.Stage.{and_then, asked_turn, drained, emptied, event_turn, fired, healed, marked};
    ghost use Rattle.x25_sim.specs.Stage.{most_times, opened, pulled, told_between, tried, turn_of};
    ghost use Rattle.x25_sim.specs.declared.stage.Shown.{Shown as Show};
    ghost use Rattle.x25_sim.specs.code.Stands.{IsOpening, Stands, Stood, Turns};

    /// The first world, of which nothing was told.
    #[tactic(auto, unfolding(crate::specs::code::Stands::IsOpening))]
    pub(crate) fn new(alloc: Global, down: bool, cfg: Cfg, shown: Shown) -> Result<Stage, Fault>
        ensures opening { IfOk result (IsOpening cfg down) }
        ensures shown { IfOk result (λ s. s.shown ≡ shown) }
        ensures empty { IfOk result (λ s. s.output ≡ []) }
        ensures is_refused { IfOk result (λ s. s.is_refused ≡ false) }
        ensures memory { IfErr result (λ fault. fault ≡ Fault.NoMemory) }
    {
        let output = Output::new(alloc)?;
        let Ok(step) = Step::new(alloc) else {
            return Err(Fault::NoMemory);
        };
        let Ok(world) = first_world(alloc, down, cfg) else {
            return Err(Fault::NoMemory);
        };
        Ok(Stage {
            world,
            step,
            shown,
            output,
            is_refused: false,
            refusals: 0,
            last_error: 0,
        })
    }

    /// Tells the frames on the line from an end that stand behind so many that were there before.
    fn tell_put<W: Sink>(&mut self, at: Role, before: usize, writer: &mut W) -> Result<(), Fault>
        ensures tells { TellsMore result (W.contents writer.old) (W.contents writer.new) self.old.output self.new.output
            (sayings_text (map taps (tapped at (drop before (line_from self.old.world at))))) }
        ensures world { self.new.world ≡ self.old.world }
        ensures shown { self.new.shown ≡ self.old.shown }
        ensures is_refused { self.new.is_refused ≡ self.old.is_refused }
        ensures faults { MarksFaults W.Sink writer.old writer.new result }
    {
        let away = away_from(at);
        tell_frames(at, &self.world, away, before, &mut self.output, writer)
    }

    /// Tells the step of an end: its entries, and behind these its frames where they are asked for, which stand on the
    /// line behind so many.
    #[inline(always)]
    fn tell_step<W: Sink>(&mut self, at: Role, before: usize, writer: &mut W) -> Result<(), Fault>
        ensures tells { (old : Option (List ℕ)) (told : List ℕ) (w next : State) → next.transcript ≡ w.transcript
            ++ entered at self.old.step.entries.items
            → next.tap ≡ w.tap ++ tapped at (drop before (line_from self.old.world at))
            → Tells old (W.contents writer.old) self.old.output told
            → let sayings = told_between self.old.shown w next in
            MatchResult result (λ _. Tells old (W.contents writer.new) self.new.output (told ++ sayings_text sayings))
            (λ _. AppendsPrefix old (W.contents writer.new) (told ++ sayings_text sayings)) }
        ensures world { self.new.world ≡ self.old.world }
        ensures shown { self.new.shown ≡ self.old.shown }
        ensures is_refused { self.new.is_refused ≡ self.old.is_refused }
        ensures faults { MarksFaults W.Sink writer.old writer.new result }
    {
        tell_entries(at, &self.step.entries, &mut self.output, writer)?;
        if !self.shown.tap {
            return Ok(());
        }
        self.tell_put(at, before, writer)
    }

    /// How many frames are on the line from an end.
    fn sent(&self, end: Role) -> usize
        ensures { result ≡ length (line_from self.now.world end) }
    {
        match end {
            Role::Dte => self.world.on_line(Direction::ToDce),
            Role::Dce => self.world.on_line(Direction::ToDte),
        }
    }

    /// Tells that an event is refused; want of memory is a fault.
    #[inline(always)]
    fn refuse<W: Sink>(&mut self, error: WorldError, writer: &mut W) -> Result<(), Fault>
        ensures stood { (cfg : Settings) (shown : Show) (old : Option (List ℕ)) (w : State) (outcome : WorldOutcome)
            (told : List ℕ) (refused : Bool)
            → Stands cfg shown old (W.contents writer.old) self.old w told refused
            → ((refusal_of outcome ≡ Some error) ⊎ (error ≡ WorldError.NoMemory))
            → Stood cfg shown old (W.contents writer.new) self.new told refused result (turn_of shown w outcome) }
        ensures faults { MarksFaults W.Sink writer.old writer.new result }
    {
        unless_memory(error)?;
        self.is_refused = true;
        self.refusals = self.refusals.saturating_add(1);
        self.last_error = refusal_number(error);
        tell_refusal(refusal_number(error), &mut self.output, writer)
    }

    /// How many events were refused, as far as that is counted.
    #[inline(always)]
    pub(crate) fn refusals(&self) -> u64 {
        self.refusals
    }

    /// The number of the error of the last one.
    pub(crate) fn last_error(&self) -> u8 {
        self.last_error
    }

    /// Tells an event, where events are told.
    #[inline(always)]
    fn mark<W: Sink>(&mut self, event: Event, writer: &mut W) -> Result<(), Fault>
        ensures turns { (cfg : Settings) (shown : Show) (old : Option (List ℕ))
            → Turns cfg shown old (W.contents writer.old) (W.contents writer.new) self.old self.new result
            (marked shown (event_of event.entry)) }
        ensures faults { MarksFaults W.Sink writer.old writer.new result }
    {
        if !self.shown.events {
            return Ok(());
        }
        tell_mark(event, &mut self.output, writer)
    }

    /// An event happens, and what it makes is told, or it is told that it is refused.
    #[inline(always)]
    fn occur<W: Sink>(&mut self, event: Event, writer: &mut W) -> Result<(), Fault>
        ensures turns { (cfg : Settings) (shown : Show) (old : Option (List ℕ))
            → Turns cfg shown old (W.contents writer.old) (W.contents writer.new) self.old self.new result
            (λ w. turn_of shown w (happens cfg w (event_of event.entry))) }
        ensures faults { MarksFaults W.Sink writer.old writer.new result }
    {
        let at = event.at();
        let before = self.sent(at);
        match self.world.step(event, &mut self.step) {
            Ok(()) => self.tell_step(at, before, writer),
            Err(error) => self.refuse(error, writer),
        }
    }

    /// An event happens, and what it makes and which it was is told, or it is told that it is refused.
    #[inline(always)]
    pub(crate) fn happen<W: Sink>(&mut self, event: Event, writer: &mut W) -> Result<(), Fault>
        ensures turns { (cfg : Settings) (shown : Show) (old : Option (List ℕ))
            → Turns cfg shown old (W.contents writer.old) (W.contents writer.new) self.old self.new result
            (event_turn cfg shown (event_of event.entry)) }
        ensures faults { MarksFaults W.Sink writer.old writer.new result }
    {
        self.occur(event, writer)?;
        self.mark(event, writer)
    }

    /// Where the next frame of a drain is delivered: to the DCE where one is on the line to it, else to the DTE.
    fn next_direction(&self) -> Option<Direction>
        ensures { option_map end_of result ≡ next_end self.now.world.to_dce self.now.world.to_dte }
    {
        if self.world.on_line(Direction::ToDce) > 0 {
            Some(Direction::ToDce)
        } else if self.world.on_line(Direction::ToDte) > 0 {
            Some(Direction::ToDte)
        } else {
            None
        }
    }

    /// Whether nothing is on the line.
    fn is_line_empty(&self) -> bool
        ensures { result ≡ is_none (next_end self.now.world.to_dce self.now.world.to_dte) }
    {
        self.next_direction().is_none()
    }

    /// At most so many frames are delivered.
    pub(crate) fn drain<W: Sink>(&mut self, count: u32, writer: &mut W) -> Result<(), Fault>
        ensures turns { (cfg : Settings) (shown : Show) (old : Option (List ℕ))
            → Turns cfg shown old (W.contents writer.old) (W.contents writer.new) self.old self.new result
            (drained cfg shown count) }
        ensures faults { MarksFaults W.Sink writer.old writer.new result }
    {
        for _ in 0..count {
            let Some(direction) = self.next_direction() else {
                return Ok(());
            };
            self.happen(Event::Deliver(direction), writer)?;
        }
        Ok(())
    }

    /// An event happens, and is told; where it is refused nothing is told.
    fn attempt<W: Sink>(&mut self, event: Event, writer: &mut W) -> Result<(), Fault>
        ensures turns { (cfg : Settings) (shown : Show) (old : Option (List ℕ))
            → Turns cfg shown old (W.contents writer.old) (W.contents writer.new) self.old self.new result
            (tried cfg shown (event_of event.entry)) }
        ensures faults { MarksFaults W.Sink writer.old writer.new result }
    {
        let at = event.at();
        let before = self.sent(at);
        if let Err(error) = self.world.step(event, &mut self.step) {
            return unless_memory(error);
        }
        self.tell_step(at, before, writer)?;
        self.mark(event, writer)
    }

    /// Two events happen, each where it isn't refused.
    fn attempt_both<W: Sink>(
        &mut self,
        first: Event,
        second: Event,
        writer: &mut W,
    ) -> Result<(), Fault>
        ensures turns { (cfg : Settings) (shown : Show) (old : Option (List ℕ))
            → Turns cfg shown old (W.contents writer.old) (W.contents writer.new) self.old self.new result
            (λ w. and_then (tried cfg shown (event_of second.entry)) (tried cfg shown (event_of first.entry) w)) }
        ensures faults { MarksFaults W.Sink writer.old writer.new result }
    {
        self.attempt(first, writer)?;
        self.attempt(second, writer)
    }

    /// What is on the line arrives, and then two events happen, each where it isn't refused.
    fn deliver_all_then<W: Sink>(
        &mut self,
        first: Event,
        second: Event,
        writer: &mut W,
    ) -> Result<(), Fault>
        ensures turns { (cfg : Settings) (shown : Show) (old : Option (List ℕ))
            → Turns cfg shown old (W.contents writer.old) (W.contents writer.new) self.old self.new result
            (λ w. and_then (λ v. and_then (tried cfg shown (event_of second.entry))
            (tried cfg shown (event_of first.entry) v))
            (drained cfg shown most_times w)) }
        ensures faults { MarksFaults W.Sink writer.old writer.new result }
    {
        self.drain(MOST_TIMES, writer)?;
        self.attempt_both(first, second, writer)
    }

    /// What is on the line arrives, and then timer T1 runs out at each end where it runs.
    fn fire<W: Sink>(&mut self, writer: &mut W) -> Result<(), Fault>
        ensures turns { (cfg : Settings) (shown : Show) (old : Option (List ℕ))
            → Turns cfg shown old (W.contents writer.old) (W.contents writer.new) self.old self.new result
            (fired cfg shown) }
        ensures faults { MarksFaults W.Sink writer.old writer.new result }
    {
        self.deliver_all_then(Event::T1(Role::Dte), Event::T1(Role::Dce), writer)
    }

    /// What is on the line arrives, and then each end pulls what waits in its circuits.
    fn pull<W: Sink>(&mut self, writer: &mut W) -> Result<(), Fault>
        ensures turns { (cfg : Settings) (shown : Show) (old : Option (List ℕ))
            → Turns cfg shown old (W.contents writer.old) (W.contents writer.new) self.old self.new result
            (pulled cfg shown) }
        ensures faults { MarksFaults W.Sink writer.old writer.new result }
    {
        self.deliver_all_then(
            Event::Command(Role::Dte, Cmd::Pull),
            Event::Command(Role::Dce, Cmd::Pull),
            writer,
        )
    }

    /// So it goes on as long as that puts frames on the line.
    fn empty<W: Sink>(&mut self, writer: &mut W) -> Result<(), Fault>
        ensures turns { (cfg : Settings) (shown : Show) (old : Option (List ℕ))
            → Turns cfg shown old (W.contents writer.old) (W.contents writer.new) self.old self.new result
            (emptied cfg shown most_times) }
        ensures faults { MarksFaults W.Sink writer.old writer.new result }
    {
        for _ in 0..MOST_TIMES {
            self.pull(writer)?;
            if self.is_line_empty() {
                return Ok(());
            }
        }
        Ok(())
    }

    /// The line is good for a moment: what is on it arrives, timer T1 runs out at each end where it runs, and what they
    /// send then and what waits in the circuits arrives.
    pub(crate) fn heal<W: Sink>(&mut self, writer: &mut W) -> Result<(), Fault>
        ensures turns { (cfg : Settings) (shown : Show) (old : Option (List ℕ))
            → Turns cfg shown old (W.contents writer.old) (W.contents writer.new) self.old self.new result
            (healed cfg shown) }
        ensures faults { MarksFaults W.Sink writer.old writer.new result }
    {
        self.fire(writer)?;
        self.empty(writer)
    }

    /// Whether a command is taken: with `--wide` any, else one that a line of the strict profile has.
    pub(crate) fn takes(&self, asked: &Command) -> bool
        ensures { (cfg : Settings) (w : State) → FitsWorld cfg self.now.world w
            → result ≡ is_taken cfg.wide (plain_command asked.now) }
    {
        !asked.is_wide() || self.world.station(Role::Dte).is_wide()
    }

    /// Tells that a line isn't in the grammar.
    pub(crate) fn read_nothing<W: Sink>(&mut self, writer: &mut W) -> Result<(), Fault>
        ensures turns { (cfg : Settings) (shown : Show) (old : Option (List ℕ))
            → Turns cfg shown old (W.contents writer.old) (W.contents writer.new) self.old self.new result
            (λ w. asked_turn cfg shown w None) }
        ensures faults { MarksFaults W.Sink writer.old writer.new result }
    {
        self.is_refused = true;
        tell_nothing(&mut self.output, writer)
    }

    /// Whether a line or an event was refused.
    pub(crate) fn is_refused(&self) -> bool
        ensures { result ≡ self.now.is_refused }
    {
        self.is_refused
    }

    /// Writes what waits.
    pub(crate) fn flush<W: Sink>(&mut self, writer: &mut W) -> Result<(), Fault>
        ensures kept { OnOk result (W.is_marked writer.new ≡ W.is_marked writer.old) }
        ensures stands { (cfg : Settings) (shown : Show) (old : Option (List ℕ)) (w : State) (told : List ℕ)
            (refused : Bool)
            → Stands cfg shown old (W.contents writer.old) self.old w told refused
            → MatchResult result (λ _. Stands cfg shown old (W.contents writer.new) self.new w told refused)
            (λ _. AppendsPrefix old (W.contents writer.new) told) }
        ensures empty { OnOk result (self.new.output ≡ []) }
        ensures is_refused { self.new.is_refused ≡ self.old.is_refused }
        ensures write { IfErr result (λ fault. fault ≡ Fault.Write) }
        ensures marked { OnErr result (W.is_marked writer.new ≡ true) }
    {
        Ok(self.output.flush(writer)?)
    }

    /// Tells the frames of the first world where they are asked for.
    fn begin<W: Sink>(&mut self, writer: &mut W) -> Result<(), Fault>
        ensures tells { (cfg : Settings) (down : Bool) (old : Option (List ℕ)) (told : List ℕ)
            → FitsWorld cfg self.old.world (opening cfg down)
            → Tells old (W.contents writer.old) self.old.output told
            → let sayings = told_between self.old.shown start (opening cfg down) in
            MatchResult result (λ _. Tells old (W.contents writer.new) self.new.output (told ++ sayings_text sayings))
            (λ _. AppendsPrefix old (W.contents writer.new) (told ++ sayings_text sayings)) }
        ensures world { self.new.world ≡ self.old.world }
        ensures shown { self.new.shown ≡ self.old.shown }
        ensures is_refused { self.new.is_refused ≡ self.old.is_refused }
        ensures faults { MarksFaults W.Sink writer.old writer.new result }
    {
        if !self.shown.tap {
            return Ok(());
        }
        self.tell_put(Role::Dte, 0, writer)
    }

    /// What the first world holds is told, and where the DTE has asked that the link be set up, its SABM and the UA are
    /// delivered, and that is told.
    pub(crate) fn open<W: Sink>(&mut self, writer: &mut W) -> Result<(), Fault>
        ensures stood { (cfg : Settings) (down : Bool) (old : Option (List ℕ)) → IsOpening cfg down self.old
            → self.old.is_refused ≡ false → Tells old (W.contents writer.old) self.old.output []
            → Stood cfg self.old.shown old (W.contents writer.new) self.new [] false result
            (opened cfg down self.old.shown) }
        ensures faults { MarksFaults W.Sink writer.old writer.new result }
    {
        two_stations_keep_order();
        self.begin(writer)?;
        self.attempt_both(SABM_ARRIVES, UA_ARRIVES, writer)
    }
}
