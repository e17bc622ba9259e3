//! A station, and what it last answered.
ghost use Rattle.std.specs.Prelude.{◌≡◌, ◌≤◌, ◌+◌, [], None, Ok, IfOk, OnErr, OnOk, length, slice_get, unwrap_or};
ghost use Rattle.std.specs.Option.{option_map};
ghost use Rattle.x25_bits.specs.declared.role.Role.{Role};
ghost use Rattle.x25_script.specs.Reading.{command_in};
ghost use Rattle.x25_script.specs.ScriptLine.{plain_command};
ghost use Rattle.x25_station.specs.declared.config.Cfg.{Cfg};
ghost use Rattle.x25_station.specs.Config.{settings_from};
ghost use Rattle.x25_station.specs.Station.{new_station};
ghost use Rattle.x25_station.specs.laws.TimerLaw.{Comes};
ghost use Rattle.x25_station.specs.code.FitsStation.{FitsStation, FitsStill, IsEmpty};
ghost use Rattle.x25_c.specs.code.EarlierEntries.{plain_pair};
ghost use Rattle.x25_c.specs.Held.{channel_of, entries_of, frames_of, in_place, lines_of, no_answer, part_of};
ghost use Rattle.x25_c.specs.Held.{timer_of, whole_of, IsAlone};
ghost use Rattle.x25_c.specs.Item.{items_of, last_items, later_items, plain_item};
ghost use Rattle.x25_c.specs.code.Clocks.{Insists, IsSaid, Passes, Rests, Sets};
ghost use Rattle.x25_c.specs.code.Happens.{DoesCommand, GivesAnswer, HappensTo, IsNew, Lacks, event_of};
ghost use Rattle.x25_c.specs.code.Receives.{ReceivesAll};

use crate::answers::then;
use crate::clocked::{Passed, awaited, begin, heed, moment, take_due};
use crate::earlier::{Earlier, append_copies};
use crate::earlier_entries::entry_at;
use crate::happening::{Happening, happen};
use crate::item::Item;
use crate::numbers::{BAD_PARAMETER, NO_MEMORY};
use std::alloc::{AllocError, Global};
use x25_clock::{Clock, Due, Times};
use x25_console::{given_beside, read_user, station_command};
use x25_script::{Command, HexDigits, ScriptTaker, read_command};
use x25_station::{Entry, Lent, Role, Station, StationError, Step, Timer};
use x25_text::Text;
use x25_transcript::entry_line;

/// A station, which end it is, and what it answered to its last call, nothing where that was refused. Of frames that
/// came in one call, `earlier` is what all but the last were answered. Its clock, where it has one, the time that was
/// said last, none before, and the timer that the last answer tells of.
#[derive(Drop)]
pub struct Held {
    pub end: Role,
    pub station: Station,
    pub earlier: Earlier,
    pub step: Step,
    pub clock: Option<Clock>,
    pub time: Option<u64>,
    pub passed: Option<Passed>,
}

impl Held {
    pub(crate) fn new(alloc: Global, end: Role, station: Station, step: Step) -> Held
        requires empty { IsEmpty step }
        requires timer { step.timer ≡ Timer.Off }
        ensures { (cfg : Cfg) → FitsStation (settings_from end cfg) station new_station →
            IsNew end cfg result }
    {
        Held {
            end,
            station,
            earlier: Earlier::new(alloc),
            step,
            clock: None,
            time: None,
            passed: None,
        }
    }

    // Lets go of what frames before the last were answered.
    fn begin(&mut self)
        ensures station { FitsStill self.old.station self.new.station }
        ensures alone { IsAlone self.new }
        ensures passed { self.new.passed ≡ None }
        ensures end { self.new.end ≡ self.old.end }
        ensures step { self.new.step ≡ self.old.step }
        ensures clock { self.new.clock ≡ self.old.clock }
        ensures time { self.new.time ≡ self.old.time }
    {
        self.earlier.clear();
        self.passed = None;
    }

    /// Lets something happen to the station, and pulls behind it.
    pub(crate) fn happen(&mut self, event: Happening<'_>) -> Result<(), StationError>
        ensures happens { HappensTo self.old self.new result (event_of event.entry) }
        ensures alone { IsAlone self.new }
        ensures passed { self.new.passed ≡ None }
    {
        self.begin();
        self.go_on(event)
    }

    // The same behind what was answered before.
    fn go_on(&mut self, event: Happening<'_>) -> Result<(), StationError>
        ensures happens { HappensTo self.old self.new result (event_of event.entry) }
        ensures earlier { self.new.earlier ≡ self.old.earlier }
        ensures passed { self.new.passed ≡ self.old.passed }
    {
        match happen(&mut self.station, event, &mut self.step) {
            Ok(()) => {
                self.station.pull(&mut self.step);
                heed(&mut self.clock, self.time, &self.station, &self.step, false);
                Ok(())
            }
            Err(error) => Err(error),
        }
    }

    /// Takes octets that came, and pulls behind it.
    pub(crate) fn receive(&mut self, octets: &[u8])
        ensures happens { HappensTo self.old self.new (Ok tt) (Comes octets.now) }
        ensures alone { IsAlone self.new }
        ensures passed { self.new.passed ≡ None }
    {
        self.begin();
        self.take(octets);
    }

    // The same behind what was answered before.
    fn take(&mut self, octets: &[u8])
        ensures happens { HappensTo self.old self.new (Ok tt) (Comes octets.now) }
        ensures earlier { self.new.earlier ≡ self.old.earlier }
        ensures passed { self.new.passed ≡ self.old.passed }
    {
        self.station.receive(octets, &mut self.step);
        self.station.pull(&mut self.step);
        heed(&mut self.clock, self.time, &self.station, &self.step, true);
    }

    // Refuses for want of memory.
    fn refuse(&mut self) -> Result<(), StationError>
        ensures lacks { Lacks self.old self.new result }
        ensures alone { IsAlone self.new }
        ensures passed { self.new.passed ≡ None }
    {
        self.begin();
        self.station.reuse(&mut self.step);
        Err(StationError::NoMemory)
    }

    // Does a command.
    fn ask(&mut self, alloc: Global, command: Command) -> Result<(), StationError>
        ensures { DoesCommand self.old self.new result (plain_command command.entry) }
    {
        let mut user = Vec::new(alloc);
        let Ok(count) = read_user(&command, &mut user) else {
            return self.refuse();
        };
        let octets = &user[..count];
        let given = given_beside(&command, octets);
        let asked = station_command(&command, octets, given.as_ref());
        self.happen(Happening::Asks(asked))
    }

    /// Does the command that a text spells, where it spells one.
    pub(crate) fn obey(
        &mut self,
        mut alloc: Global,
        text: &[u8],
    ) -> Option<Result<(), StationError>>
        ensures { GivesAnswer self.old self.new result (command_in text.now) }
    {
        read_command(self.end, text, self, &mut alloc)
    }

    // Puts the last answer behind those before it. Err: no memory; all that was answered stands in either case.
    fn keep(&mut self) -> Result<(), AllocError>
        ensures whole { whole_of self.new ≡ whole_of self.old }
        ensures kept { OnOk result (part_of self.new.step ≡ no_answer) }
        ensures station { self.new.station ≡ self.old.station }
        ensures end { self.new.end ≡ self.old.end }
        ensures clock { self.new.clock ≡ self.old.clock }
        ensures time { self.new.time ≡ self.old.time }
        ensures passed { self.new.passed ≡ self.old.passed }
    {
        self.earlier.entries.take(&mut self.step.entries)?;
        append_copies(&mut self.earlier.frames, self.step.frames.as_slice())?;
        self.step.frames.clear();
        self.earlier.timer = then(self.earlier.timer, self.step.timer);
        self.step.timer = Timer::GoesOn;
        Ok(())
    }

    /// Receives frames one behind another, the octets of all, of which each has so many. Answers how many were taken,
    /// and the number of a refusal, 0 where all were.
    ///
    /// 34 where the octets of the next aren't there, and 70 where memory is refused for what was answered to those
    /// before.
    pub(crate) fn receive_all(&mut self, octets: &[u8], counts: &[usize]) -> (usize, u32)
        ensures { ReceivesAll octets.now counts.now self.old self.new result.0 result.1 }
    {
        self.begin();
        self.station.reuse(&mut self.step);
        self.step.timer = Timer::GoesOn;
        let mut at = 0;
        for place in 0..counts.len() {
            let count = counts[place];
            if count > octets.len() - at {
                return (place, BAD_PARAMETER);
            }
            if self.keep().is_err() {
                return (place, NO_MEMORY);
            }
            self.take(&octets[at..at + count]);
            at += count;
        }
        (counts.len(), 0)
    }

    /// Gives the station a clock, by which the time of what is awaited begins. Err: no memory, and it has the clock
    /// that it had.
    pub(crate) fn set(&mut self, alloc: Global, times: Times) -> Result<(), AllocError>
        ensures set { OnOk result (Sets self.old self.new times) }
        ensures refused { OnErr result (self.new ≡ self.old) }
    {
        let mut clock = Clock::new(alloc, times, self.station.channels())?;
        clock.begin(moment(self.time), &self.station);
        self.clock = Some(clock);
        Ok(())
    }

    // Nothing happens, and nothing is answered.
    fn rest(&mut self)
        ensures { Rests self.old self.new }
    {
        self.begin();
        self.station.reuse(&mut self.step);
        self.step.timer = Timer::GoesOn;
    }

    // What is due is asked for, as its timer has passed.
    fn insist(&mut self, due: Due) -> Result<(), StationError>
        ensures { Insists self.old self.new result due }
    {
        let channel = due.channel();
        let timer = due.timer(self.end, awaited(&self.station, channel));
        self.begin();
        match due.ask(&mut self.station, &mut self.step) {
            Ok(()) => {
                self.station.pull(&mut self.step);
                heed(&mut self.clock, self.time, &self.station, &self.step, false);
                self.passed = Some(Passed { timer, channel });
                Ok(())
            }
            Err(error) => Err(error),
        }
    }

    // The time is this.
    fn say(&mut self, now: u64)
        ensures { IsSaid now self.old self.new }
    {
        if self.time.is_none() {
            begin(&mut self.clock, now, &self.station);
        }
        self.time = Some(now);
    }

    /// The time is this: the first of what is due is asked for. Nothing happens where nothing is due.
    pub(crate) fn pass(&mut self, now: u64) -> Result<(), StationError>
        ensures { Passes self.old self.new result now }
    {
        self.say(now);
        match take_due(&mut self.clock, now) {
            Some(due) => self.insist(due),
            None => {
                self.rest();
                Ok(())
            }
        }
    }

    pub(crate) fn frames(&self) -> usize
        ensures { result ≡ length (frames_of self.now) }
    {
        self.earlier.frames.len() + self.step.frames.len()
    }

    pub(crate) fn entries(&self) -> usize
        ensures { result ≡ length (entries_of self.now) }
    {
        self.earlier.entries.len() + self.step.entries.len()
    }

    pub(crate) fn timer(&self) -> Timer
        ensures { result ≡ timer_of self.now }
    {
        then(self.earlier.timer, self.step.timer)
    }

    pub(crate) fn frame(&self, i: usize) -> &[u8]
        ensures { result.now ≡ in_place (frames_of self.now) i }
    {
        let before = self.earlier.frames.len();
        if i < before {
            return self.earlier.frames[i].as_slice();
        }
        match self.step.frames.as_slice().get(i - before) {
            Some(frame) => frame.as_slice(),
            None => &[],
        }
    }

    // Entry `i` of the answer.
    fn entry(&self, i: usize) -> Option<(&Entry, &Lent)>
        ensures { option_map plain_pair result ≡ slice_get (entries_of self.now) i }
    {
        let before = self.earlier.entries.len();
        if i < before {
            return self.earlier.entries.get(i);
        }
        entry_at(&self.step.entries, i - before)
    }

    // Item `i` behind the frames and a timer that passed: the entries, and then what becomes of timer T1.
    fn last_item(&self, i: usize) -> Option<Item<'_>>
        ensures { option_map plain_item result ≡ slice_get (last_items self.now) i }
    {
        let count = self.entries();
        if i == count {
            return Some(Item::Timer(self.timer()));
        }
        match self.entry(i) {
            Some((entry, lent)) => Some(Item::Entry(entry, lent)),
            None => None,
        }
    }

    // Item `i` behind the frames.
    fn later_item(&self, i: usize) -> Option<Item<'_>>
        ensures { option_map plain_item result ≡ slice_get (later_items self.now) i }
    {
        match self.passed {
            Some(passed) if i == 0 => Some(Item::Passed(passed)),
            Some(_) => self.last_item(i - 1),
            None => self.last_item(i),
        }
    }

    /// Item `i` of the answer.
    pub(crate) fn item(&self, i: usize) -> Option<Item<'_>>
        ensures { option_map plain_item result ≡ slice_get (items_of self.now) i }
    {
        let frames = self.frames();
        if i < frames {
            return Some(Item::Frame(self.frame(i)));
        }
        self.later_item(i - frames)
    }

    /// The channel of the first entry, 0 where that has none.
    pub(crate) fn channel(&self) -> u16
        ensures { result ≡ channel_of self.now }
    {
        match self.step.entries.as_slice().first() {
            Some(Entry::Asked { channel, .. } | Entry::Told { channel, .. }) => *channel,
            _ => 0,
        }
    }

    /// The line of entry `i`, where there is one. Err: no memory.
    pub(crate) fn line(&self, alloc: Global, i: usize) -> Result<Option<Text>, AllocError>
        ensures { IfOk result (λ line. unwrap_or line [] ≡ in_place (lines_of self.now) i) }
    {
        match self.entry(i) {
            Some((entry, lent)) => Ok(Some(entry_line(alloc, self.end, entry, lent)?)),
            None => Ok(None),
        }
    }
}

/// The command that is read is done; a text without the name of an end asks for nothing else.
impl ScriptTaker<Global> for Held {
    ghost use Rattle.x25_c.specs.code.Happens.{GivesAnswer, asked_in};

    type Answer = Option<Result<(), StationError>>;

    ghost gives = { λ h was g is result asked. GivesAnswer h g result (asked_in asked) };

    fn command(
        &mut self,
        _end: Role,
        asked: Command,
        alloc: &mut Global,
    ) -> Option<Result<(), StationError>> {
        Some(self.ask(*alloc, asked))
    }

    fn t1(&mut self, _end: Role, _alloc: &mut Global) -> Option<Result<(), StationError>> {
        None
    }

    fn deliver(&mut self, _from: Role, _alloc: &mut Global) -> Option<Result<(), StationError>> {
        None
    }

    fn lose(
        &mut self,
        _from: Role,
        _place: u16,
        _alloc: &mut Global,
    ) -> Option<Result<(), StationError>> {
        None
    }

    fn damage(
        &mut self,
        _from: Role,
        _place: u16,
        _octets: HexDigits,
        _alloc: &mut Global,
    ) -> Option<Result<(), StationError>> {
        None
    }

    fn drain(&mut self, _count: u16, _alloc: &mut Global) -> Option<Result<(), StationError>> {
        None
    }

    fn heal(&mut self, _alloc: &mut Global) -> Option<Result<(), StationError>> {
        None
    }

    fn nothing(&mut self, _alloc: &mut Global) -> Option<Result<(), StationError>> {
        None
    }
}
