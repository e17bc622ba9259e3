//! Lines answered as they come, with what may stand beside what they ask.
use crate::answer::{MOST_ANSWER, Reading, answer};
use crate::law::long_lines_send_nothing;
use std::alloc::{AllocError, Global};
use x25_io::{Failed, Fault, LineTaker, Output, Sink, split_loose};
use x25_text::MOST_OCTETS;

/// The answers that wait to be written.
///
/// Its buffers are made by `new`; no other call is refused for want of memory.
#[derive(Drop)]
pub(crate) struct LooseDecoder {
    octets: [u8; MOST_OCTETS],
    output: Output,
    is_refused: bool,
    reading: Reading,
}

impl LooseDecoder {
    ghost use Rattle.std.specs.Prelude.{◌≡◌, ◌<◌, ◌≤◌, ◌++◌, [], ℕ, List, Option, true, false, ◌||◌, IfOk, OnOk, OnErr};
    ghost use Rattle.std.specs.Prelude.{MatchOption, MatchResult, length, codes, Some, None};
    ghost use Rattle.x25_io.specs.HeldLine.{most_line};
    ghost use Rattle.x25_io.specs.code.Written.{AppendsPrefix, Tells, TellsMore};
    ghost use Rattle.x25_decode.specs.Decoding.{answer_to, is_refused as refuses};
    ghost use Rattle.x25_decode.specs.LooseDecoder.{answer_loosely, refuses_loosely};

    /// Nothing waits.
    pub(crate) fn new(alloc: Global, reading: Reading) -> Result<LooseDecoder, AllocError>
        ensures reading { IfOk result (λ d. d.reading ≡ reading) }
        ensures empty { IfOk result (λ d. d.output ≡ []) }
        ensures none { IfOk result (λ d. d.is_refused ≡ false) }
    {
        let output = Output::new(alloc)?;
        Ok(LooseDecoder {
            octets: [0; MOST_OCTETS],
            output,
            is_refused: false,
            reading,
        })
    }

    /// Answers what a line asks.
    fn answer_asked<W: Sink>(&mut self, line: &[u8], writer: &mut W) -> Result<(), Failed>
        ensures kept { OnOk result (W.is_marked writer.new ≡ W.is_marked writer.old) }
        ensures tells { TellsMore result (W.contents writer.old) (W.contents writer.new) self.old.output self.new.output
            (answer_to self.old.reading line.now) }
        ensures refused { OnOk result (self.new.is_refused ≡ (self.old.is_refused || refuses line.now)) }
        ensures reading { self.new.reading ≡ self.old.reading }
        ensures marked { OnErr result (W.is_marked writer.new ≡ true) }
    {
        self.output.make_room(MOST_ANSWER, writer)?;
        let refused = answer(self.reading, line, &mut self.octets, self.output.text());
        self.is_refused |= refused;
        Ok(())
    }

    /// Refuses a line that is too long.
    fn refuse<W: Sink>(&mut self, writer: &mut W) -> Result<(), Failed>
        ensures kept { OnOk result (W.is_marked writer.new ≡ W.is_marked writer.old) }
        ensures tells { TellsMore result (W.contents writer.old) (W.contents writer.new) self.old.output self.new.output
            (codes "? 60\n") }
        ensures refused { self.new.is_refused ≡ true }
        ensures reading { self.new.reading ≡ self.old.reading }
        ensures marked { OnErr result (W.is_marked writer.new ≡ true) }
    {
        self.is_refused = true;
        self.output.tell(b"? 60\n", writer)
    }

    /// Answers a line that isn't too long.
    fn answer_parts<W: Sink>(&mut self, line: &[u8], writer: &mut W) -> Result<(), Failed>
        ensures kept { OnOk result (W.is_marked writer.new ≡ W.is_marked writer.old) }
        ensures tells { length line.now ≤ most_line → TellsMore result (W.contents writer.old) (W.contents writer.new)
            self.old.output self.new.output (answer_loosely self.old.reading line.now) }
        ensures refused { length line.now ≤ most_line
            → OnOk result (self.new.is_refused ≡ (self.old.is_refused || refuses_loosely line.now)) }
        ensures reading { self.new.reading ≡ self.old.reading }
        ensures marked { OnErr result (W.is_marked writer.new ≡ true) }
    {
        let (carried, asked) = split_loose(true, line);
        self.output.tell(carried, writer)?;
        match asked {
            Some(line) => self.answer_asked(line, writer),
            None => self.output.tell(b"\n", writer),
        }
    }

    /// Answers a line, `None` where it is too long.
    fn answer_line<W: Sink>(&mut self, line: Option<&[u8]>, writer: &mut W) -> Result<(), Failed>
        ensures kept { OnOk result (W.is_marked writer.new ≡ W.is_marked writer.old) }
        ensures tells { (first : List ℕ) → MatchOption line.entry (most_line < length first) (λ held. (held.now ≡ first)
            × (length first ≤ most_line))
            → TellsMore result (W.contents writer.old) (W.contents writer.new) self.old.output self.new.output
            (answer_loosely self.old.reading first) }
        ensures refused { (first : List ℕ)
            → MatchOption line.entry (most_line < length first) (λ held. (held.now ≡ first)
            × (length first ≤ most_line))
            → OnOk result (self.new.is_refused ≡ (self.old.is_refused || refuses_loosely first)) }
        ensures reading { self.new.reading ≡ self.old.reading }
        ensures marked { OnErr result (W.is_marked writer.new ≡ true) }
    {
        match line {
            Some(line) => self.answer_parts(line, writer),
            None => {
                long_lines_send_nothing();
                self.refuse(writer)
            }
        }
    }
}

impl LineTaker for LooseDecoder {
    ghost use Rattle.x25_decode.specs.declared.answer.Reading.{Reading};
    ghost use Rattle.x25_decode.specs.LooseDecoder.{loose_output, loose_status};
    ghost use Rattle.x25_decode.specs.code.LooseStream.{DecodesLines, WritesLines};

    // How octets are read.
    ghost Setting = { Reading };

    ghost text_of = { loose_output };

    ghost status_of = { λ _. loose_status };

    ghost waiting = { λ d. d.output };

    ghost may_want = { ⊥ };

    ghost stands = { DecodesLines };

    ghost ended = { WritesLines };

    fn take_line<W: Sink>(&mut self, line: Option<&[u8]>, writer: &mut W) -> Result<(), Fault> {
        Ok(self.answer_line(line, writer)?)
    }

    fn pass_over(&mut self) {}

    fn write_out<W: Sink>(&mut self, writer: &mut W) -> Result<(), Fault> {
        Ok(self.output.flush(writer)?)
    }

    fn end<W: Sink>(&mut self, writer: &mut W) -> Result<u8, Fault> {
        self.output.flush(writer)?;
        Ok(u8::from(self.is_refused))
    }
}
