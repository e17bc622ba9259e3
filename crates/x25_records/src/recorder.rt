//! Records of lines as they come.
ghost use Rattle.std.specs.Prelude.{◌≡◌, ◌++◌, OnOk, codes};
ghost use Rattle.x25_records.specs.Records.{record_of};

use crate::record::push_record;
use std::alloc::{AllocError, Global};
use x25_io::{Fault, LineTaker, Output, Sink};
use x25_text::Text;

/// So much room is made before a record is written where it waits: a longer one makes the buffer grow.
const LINE: usize = 8_300;

/// The records that wait to be written, and whether a line was too long.
#[derive(Drop)]
pub(crate) struct Recorder {
    output: Output,
    is_refused: bool,
}

/// Appends the record of a line, and a line feed.
fn push_line(line: &[u8], text: &mut Text) -> Result<(), AllocError>
    ensures { OnOk result (text.new ≡ text.old ++ (record_of line.now ++ codes "\n")) }
{
    push_record(line, text)?;
    text.try_push(b"\n")
}

impl Recorder {
    ghost use Rattle.std.specs.Prelude.{◌<◌, ◌≤◌, ◌||◌, ℕ, true, false, List, [], IfOk, MatchOption, length};
    ghost use Rattle.x25_io.specs.HeldLine.{most_line};
    ghost use Rattle.x25_io.specs.code.MarksFaults.{MarksFaults};
    ghost use Rattle.x25_io.specs.code.Written.{TellsMore};
    ghost use Rattle.x25_records.specs.Records.{answer_to, is_long};

    /// Nothing waits. Err: no memory.
    pub(crate) fn new(alloc: Global) -> Result<Recorder, AllocError>
        ensures empty { IfOk result (λ r. r.output ≡ []) }
        ensures none { IfOk result (λ r. r.is_refused ≡ false) }
    {
        Ok(Recorder {
            output: Output::new(alloc)?,
            is_refused: false,
        })
    }

    /// Tells the record of a line.
    fn tell_record<W: Sink>(&mut self, line: &[u8], writer: &mut W) -> Result<(), Fault>
        ensures tells { TellsMore result (W.contents writer.old) (W.contents writer.new) self.old.output self.new.output
            (record_of line.now ++ codes "\n") }
        ensures refused { self.new.is_refused ≡ self.old.is_refused }
        ensures faults { MarksFaults W.Sink writer.old writer.new result }
    {
        self.output.make_room(LINE, writer)?;
        Ok(push_line(line, self.output.text())?)
    }

    /// Refuses a line that is too long.
    fn refuse<W: Sink>(&mut self, writer: &mut W) -> Result<(), Fault>
        ensures tells { TellsMore result (W.contents writer.old) (W.contents writer.new) self.old.output self.new.output
            (codes "? 60\n") }
        ensures refused { self.new.is_refused ≡ true }
        ensures faults { MarksFaults W.Sink writer.old writer.new result }
    {
        self.is_refused = true;
        Ok(self.output.tell(b"? 60\n", writer)?)
    }

    /// Answers a line, `None` where it is too long.
    #[tactic(auto, unfolding(crate::specs::Records::answer_to))]
    fn answer<W: Sink>(&mut self, line: Option<&[u8]>, writer: &mut W) -> Result<(), Fault>
        ensures tells { (first : List ℕ) → MatchOption line.entry (most_line < length first) (λ held. (held.now ≡ first)
            × (length first ≤ most_line))
            → TellsMore result (W.contents writer.old) (W.contents writer.new) self.old.output self.new.output
            (answer_to first) }
        ensures refused { (first : List ℕ)
            → MatchOption line.entry (most_line < length first) (λ held. (held.now ≡ first)
            × (length first ≤ most_line))
            → self.new.is_refused ≡ (self.old.is_refused || is_long first) }
        ensures faults { MarksFaults W.Sink writer.old writer.new result }
    {
        match line {
            Some(line) => self.tell_record(line, writer),
            None => self.refuse(writer),
        }
    }
}

impl LineTaker for Recorder {
    ghost use Rattle.x25_records.specs.Records.{records_of, status_of};
    ghost use Rattle.x25_records.specs.code.Stream.{Records, WritesLines};

    ghost Setting = { Unit {0} };

    ghost text_of = { λ _. records_of };

    ghost status_of = { λ _. status_of };

    ghost waiting = { λ r. r.output };

    ghost may_want = { Unit {0} };

    ghost stands = { λ _. Records };

    ghost ended = { λ _. WritesLines };

    fn take_line<W: Sink>(&mut self, line: Option<&[u8]>, writer: &mut W) -> Result<(), Fault> {
        self.answer(line, writer)
    }

    fn pass_over(&mut self) {}

    fn write_out<W: Sink>(&mut self, writer: &mut W) -> Result<(), Fault> {
        Ok(self.output.flush(writer)?)
    }

    fn end<W: Sink>(&mut self, writer: &mut W) -> Result<u8, Fault> {
        self.output.flush(writer)?;
        Ok(u8::from(self.is_refused))
    }
}
