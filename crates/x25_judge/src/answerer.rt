//! Lines answered as they come.
ghost use Rattle.std.specs.Prelude.{length};

use crate::doubt::At;
use crate::judge::{Judge, MOST_ANSWER, Strictness};
use std::alloc::{AllocError, Global};
use x25_decode::{Reading, long_lines_send_nothing};
use x25_io::{Failed, Fault, LineTaker, Output, Sink, split_loose};
use x25_possible::Defaults;
use x25_text::MOST_OCTETS;

/// The octets of the last line, the answers that wait to be written, and the judge.
///
/// Its buffers are made by `new`; no other call is refused for want of memory.
#[derive(Drop)]
pub(crate) struct Answerer {
    octets: [u8; MOST_OCTETS],
    output: Output,
    judge: Judge,
    loose: bool,
    is_faulty: bool,
}

impl Answerer {
    ghost use Rattle.std.specs.Prelude.{◌≡◌, ◌<◌, ◌≤◌, ◌++◌, [], ℕ, List, Option, true, false, ◌||◌, IfOk, OnOk, OnErr};
    ghost use Rattle.std.specs.Prelude.{◌+◌, MatchOption, MatchResult};
    ghost use Rattle.x25_io.specs.HeldLine.{most_line};
    ghost use Rattle.x25_io.specs.code.Written.{AppendsPrefix, Tells, TellsMore};
    ghost use Rattle.x25_judge.specs.Answerer.{reply};
    ghost use Rattle.x25_judge.specs.Judge.{answer_to, begins_at, counts_text, is_nothing};
    ghost use Rattle.x25_judge.specs.code.Stream.{Replies};

    /// Nothing waits.
    pub(crate) fn new(
        alloc: Global,
        at: At,
        window: u8,
        defaults: Defaults,
        reading: Reading,
        strictness: Strictness,
        loose: bool,
    ) -> Result<Answerer, AllocError>
        ensures loose { IfOk result (λ a. a.loose ≡ loose) }
        ensures judge { IfOk result (λ a. a.judge ≡ begins_at at window defaults reading strictness) }
        ensures empty { IfOk result (λ a. a.output ≡ []) }
        ensures faultless { IfOk result (λ a. a.is_faulty ≡ false) }
    {
        let output = Output::new(alloc)?;
        let judge = Judge::new(alloc, at, window, defaults, reading, strictness)?;
        Ok(Answerer {
            octets: [0; MOST_OCTETS],
            output,
            judge,
            loose,
            is_faulty: false,
        })
    }

    /// Answers what a line asks.
    fn answer_asked<W: Sink>(&mut self, line: &[u8], writer: &mut W) -> Result<(), Failed>
        ensures kept { OnOk result (W.is_marked writer.new ≡ W.is_marked writer.old) }
        ensures tells { TellsMore result (W.contents writer.old) (W.contents writer.new) self.old.output self.new.output
            (answer_to self.old.judge line.now).text }
        ensures next { OnOk result (self.new.judge ≡ (answer_to self.old.judge line.now).next) }
        ensures is_faulty { OnOk result (self.new.is_faulty
            ≡ (self.old.is_faulty || (answer_to self.old.judge line.now).counts)) }
        ensures loose { self.new.loose ≡ self.old.loose }
        ensures marked { OnErr result (W.is_marked writer.new ≡ true) }
    {
        self.output.make_room(MOST_ANSWER, writer)?;
        let counts = self
            .judge
            .answer(line, &mut self.octets, self.output.text());
        self.is_faulty |= counts;
        Ok(())
    }

    /// Answers a line, and before that tells what stands beside what it asks.
    fn answer_parts<W: Sink>(&mut self, line: &[u8], writer: &mut W) -> Result<(), Failed>
        ensures kept { OnOk result (W.is_marked writer.new ≡ W.is_marked writer.old) }
        ensures replies { length line.now ≤ most_line → Replies result (W.contents writer.old) (W.contents writer.new)
            self.old self.new (reply self.old.loose self.old.judge line.now) }
        ensures marked { OnErr result (W.is_marked writer.new ≡ true) }
    {
        let (carried, asked) = split_loose(self.loose, line);
        self.output.tell(carried, writer)?;
        match asked {
            Some(line) => self.answer_asked(line, writer),
            None => self.output.tell(b"\n", writer),
        }
    }

    /// Answers a line, `None` where it is too long.
    fn answer_line<W: Sink>(&mut self, line: Option<&[u8]>, writer: &mut W) -> Result<(), Failed>
        ensures kept { OnOk result (W.is_marked writer.new ≡ W.is_marked writer.old) }
        ensures replies { (first : List ℕ) → MatchOption line.entry (most_line < length first) (λ held.
            (held.now ≡ first) × (length first ≤ most_line))
            → Replies result (W.contents writer.old) (W.contents writer.new) self.old self.new
            (reply self.old.loose self.old.judge first) }
        ensures marked { OnErr result (W.is_marked writer.new ≡ true) }
    {
        match line {
            Some(line) => self.answer_parts(line, writer),
            None => {
                long_lines_send_nothing();
                self.is_faulty = true;
                self.output.tell(b"? 60\n", writer)
            }
        }
    }

    /// Whether a line was faulty, or none had octets.
    fn fails(&self) -> bool
        ensures { result ≡ (self.now.is_faulty || is_nothing self.now.judge) }
    {
        self.is_faulty || self.judge.is_nothing()
    }

    /// Tells how much was judged and what was told, and writes what waits.
    fn finish<W: Sink>(&mut self, writer: &mut W) -> Result<(), Failed>
        ensures kept { OnOk result (W.is_marked writer.new ≡ W.is_marked writer.old) }
        ensures tells { TellsMore result (W.contents writer.old) (W.contents writer.new) self.old.output self.new.output
            (counts_text self.old.judge) }
        ensures empty { OnOk result (self.new.output ≡ []) }
        ensures loose { self.new.loose ≡ self.old.loose }
        ensures marked { OnErr result (W.is_marked writer.new ≡ true) }
    {
        self.judge.tell_counts(&mut self.output, writer)?;
        self.output.flush(writer)
    }
}

impl LineTaker for Answerer {
    ghost use Rattle.std.specs.Prelude.{Bool};
    ghost use Rattle.x25_judge.specs.Answerer.{output_by, status_by};
    ghost use Rattle.x25_judge.specs.code.Stream.{JudgesOn, WritesLines};
    ghost use Rattle.x25_judge.specs.declared.judge.Judge as judge;

    // Whether lines are read loosely, and the judge before the first line.
    ghost Setting = { Bool × judge.Judge };

    ghost text_of = { λ s. output_by s.0 s.1 };

    ghost status_of = { λ s. status_by s.0 s.1 };

    ghost waiting = { λ a. a.output };

    ghost may_want = { ⊥ };

    ghost stands = { λ s. JudgesOn s.0 s.1 };

    ghost ended = { λ s old now lines input. WritesLines s.0 old now lines (output_by s.0 s.1 input) };

    fn take_line<W: Sink>(&mut self, line: Option<&[u8]>, writer: &mut W) -> Result<(), Fault> {
        match self.answer_line(line, writer) {
            Ok(()) => Ok(()),
            Err(_) => Err(Fault::Write),
        }
    }

    fn pass_over(&mut self) {}

    fn write_out<W: Sink>(&mut self, writer: &mut W) -> Result<(), Fault> {
        match self.output.flush(writer) {
            Ok(()) => Ok(()),
            Err(_) => Err(Fault::Write),
        }
    }

    fn end<W: Sink>(&mut self, writer: &mut W) -> Result<u8, Fault> {
        let fails = self.fails();
        match self.finish(writer) {
            Ok(()) => Ok(u8::from(fails)),
            Err(_) => Err(Fault::Write),
        }
    }
}
