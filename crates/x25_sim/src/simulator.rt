//! A script, line by line.
use crate::stage::{Stage, away_from};
use x25_console::{Reporter, given_beside, read_octets, read_user, station_command};
use x25_io::{Fault, LineTaker, Sink};
use x25_script::{Command, HexDigits, Role, ScriptTaker, read_line};
use x25_world::Event;

/// The octets of a line, the stations, and who is told of lines that are none and of refusals.
#[derive(Drop)]
pub(crate) struct Simulator<P: Reporter> {
    octets: Vec<u8>,
    stage: Stage,
    reporter: P,
    // How many lines were taken, as far as that is counted.
    number: u64,
    // The last line that was read is none.
    is_none: bool,
    // How many refusals were reported.
    reported: u64,
}

impl<P: Reporter> Simulator<P> {
    ghost use Rattle.std.specs.Prelude.{◌≡◌, Bool, List, ℕ, Option};
    ghost use Rattle.x25_io.specs.code.MarksFaults.{MarksFaults};
    ghost use Rattle.x25_script.specs.Reading.{line_in};
    ghost use Rattle.x25_script.specs.ScriptLine.{taken};
    ghost use Rattle.x25_station.specs.declared.config.Cfg.{Cfg as Settings};
    ghost use Rattle.x25_sim.specs.Stage.{asked_turn};
    ghost use Rattle.x25_sim.specs.code.Stands.{Turns};
    ghost use Rattle.x25_sim.specs.declared.stage.Shown.{Shown as Show};

    pub(crate) fn new(octets: Vec<u8>, stage: Stage, reporter: P) -> Simulator<P>
        ensures { result.stage ≡ stage }
    {
        Simulator {
            octets,
            stage,
            reporter,
            number: 0,
            is_none: false,
            reported: 0,
        }
    }

    /// Reports the line that was read, where it is none.
    fn report_none(&mut self, line: &[u8])
        ensures { self.new.stage ≡ self.old.stage }
    {
        if self.is_none {
            self.is_none = false;
            self.reporter.report(self.number, Some(line));
        }
    }

    /// Reports what the line that was read asks for, where that was refused.
    #[inline(always)]
    fn report_refusal(&mut self, line: &[u8])
        ensures { self.new.stage ≡ self.old.stage }
    {
        if self.stage.refusals() != self.reported {
            self.report_refused(line);
        }
    }

    #[cold]
    #[inline(never)]
    fn report_refused(&mut self, line: &[u8])
        ensures { self.new.stage ≡ self.old.stage }
    {
        self.reported = self.stage.refusals();
        self.reporter
            .refuse(self.number, self.stage.last_error(), line);
    }

    /// Does what a line asks for.
    #[inline(always)]
    fn read<W: Sink>(&mut self, line: &[u8], writer: &mut W) -> Result<(), Fault>
        ensures turns { (cfg : Settings) (shown : Show) (old : Option (List ℕ))
            → Turns cfg shown old (W.contents writer.old) (W.contents writer.new) self.old.stage self.new.stage result
            (λ w. asked_turn cfg shown w (taken cfg.wide (line_in line.now))) }
        ensures faults { MarksFaults W.Sink writer.old writer.new result }
    {
        let result = read_line(line, self, writer);
        self.report_none(line);
        self.report_refusal(line);
        result
    }
}

/// What a line of the script asks for happens, and is told.
impl<W: Sink, P: Reporter> ScriptTaker<W> for Simulator<P> {
    ghost use Rattle.std.specs.Prelude.{Bool, List, ℕ, Option};
    ghost use Rattle.x25_io.specs.code.MarksFaults.{MarksFaults};
    ghost use Rattle.x25_station.specs.declared.config.Cfg.{Cfg as Settings};
    ghost use Rattle.x25_script.specs.ScriptLine.{taken};
    ghost use Rattle.x25_sim.specs.Stage.{asked_turn};
    ghost use Rattle.x25_sim.specs.code.Stands.{Turns};
    ghost use Rattle.x25_sim.specs.declared.stage.Shown.{Shown as Show};

    type Answer = Result<(), Fault>;

    ghost gives = { λ s was u is result asked. ((cfg : Settings) (shown : Show) (old : Option (List ℕ))
        → Turns cfg shown old (W.contents was) (W.contents is) s.stage u.stage result
        (λ w. asked_turn cfg shown w (taken cfg.wide asked)))
        × MarksFaults W.Sink was is result };

    #[inline(always)]
    #[tactic(auto, unfolding(crate::specs::Stage::line_turn))]
    fn command(&mut self, end: Role, asked: Command, writer: &mut W) -> Result<(), Fault> {
        if !self.stage.takes(&asked) {
            self.is_none = true;
            return self.stage.read_nothing(writer);
        }
        let count = read_user(&asked, &mut self.octets)?;
        let octets = &self.octets[..count];
        let given = given_beside(&asked, octets);
        let command = station_command(&asked, octets, given.as_ref());
        self.stage.happen(Event::Command(end, command), writer)
    }

    #[inline(never)]
    #[tactic(auto, unfolding(crate::specs::Stage::line_turn))]
    fn t1(&mut self, end: Role, writer: &mut W) -> Result<(), Fault> {
        self.stage.happen(Event::T1(end), writer)
    }

    #[tactic(auto, unfolding(crate::specs::Stage::line_turn))]
    fn deliver(&mut self, from: Role, writer: &mut W) -> Result<(), Fault> {
        self.stage.happen(Event::Deliver(away_from(from)), writer)
    }

    #[inline(never)]
    #[tactic(auto, unfolding(crate::specs::Stage::line_turn))]
    fn lose(&mut self, from: Role, place: u16, writer: &mut W) -> Result<(), Fault> {
        let lost = Event::Lose(away_from(from), usize::from(place));
        self.stage.happen(lost, writer)
    }

    #[tactic(auto, unfolding(crate::specs::Stage::line_turn))]
    fn damage(
        &mut self,
        from: Role,
        place: u16,
        octets: HexDigits,
        writer: &mut W,
    ) -> Result<(), Fault> {
        let count = read_octets(&octets, &mut self.octets)?;
        let damaged = Event::Damage(away_from(from), usize::from(place), &self.octets[..count]);
        self.stage.happen(damaged, writer)
    }

    #[tactic(auto, unfolding(crate::specs::Stage::line_turn))]
    fn drain(&mut self, count: u16, writer: &mut W) -> Result<(), Fault> {
        self.stage.drain(u32::from(count), writer)
    }

    #[tactic(auto, unfolding(crate::specs::Stage::line_turn))]
    fn heal(&mut self, writer: &mut W) -> Result<(), Fault> {
        self.stage.heal(writer)
    }

    fn nothing(&mut self, writer: &mut W) -> Result<(), Fault> {
        self.is_none = true;
        self.stage.read_nothing(writer)
    }
}

impl<P: Reporter> LineTaker for Simulator<P> {
    ghost use Rattle.x25_sim.specs.Stage.{sim_status, sim_text, simulated};
    ghost use Rattle.x25_sim.specs.code.Stream.{Asked, Simulates, WritesLines};

    // How the simulation was asked for.
    ghost Setting = { Asked };

    ghost text_of = { λ a. sim_text a.cfg a.down a.shown };

    ghost status_of = { λ a. sim_status a.cfg a.down a.shown };

    ghost waiting = { λ s. s.stage.output };

    ghost may_want = { Unit {0} };

    ghost stands = { λ a s. Simulates a s.stage };

    ghost ended = { λ a old now lines script. WritesLines a.cfg a.shown old now lines
        (simulated a.cfg a.down a.shown script) };

    #[inline(always)]
    fn take_line<W: Sink>(&mut self, line: Option<&[u8]>, writer: &mut W) -> Result<(), Fault> {
        self.number = self.number.saturating_add(1);
        match line {
            Some(line) => self.read(line, writer),
            None => {
                self.reporter.report(self.number, None);
                self.stage.read_nothing(writer)
            }
        }
    }

    fn pass_over(&mut self) {
        self.number = self.number.saturating_add(1);
    }

    fn write_out<W: Sink>(&mut self, writer: &mut W) -> Result<(), Fault> {
        self.stage.flush(writer)
    }

    fn end<W: Sink>(&mut self, writer: &mut W) -> Result<u8, Fault> {
        self.stage.flush(writer)?;
        Ok(u8::from(self.stage.is_refused()))
    }
}
