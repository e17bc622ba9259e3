//! Lines of a trace, sent as frames.
ghost use Rattle.std.specs.Prelude.{◌≡◌};
ghost use Rattle.x25_bit_line.specs.Framing.{begins_by_mark};

use crate::line_bits::LineBits;
use std::alloc::{AllocError, Global};
use x25_decode::{long_lines_send_nothing, read_gap, read_sent};
use x25_io::{Fault, LineTaker, Output, Sink};
use x25_text::MOST_OCTETS;

/// Whether a line begins with `#`.
fn is_comment(line: &[u8]) -> bool
    ensures { result ≡ begins_by_mark line.now }
{
    match line {
        [character, ..] => *character == b'#',
        [] => false,
    }
}

/// The bits on their way to the line, and the octets that wait to be written.
#[derive(Drop)]
pub(crate) struct FrameSender {
    bits: LineBits,
    octets: [u8; MOST_OCTETS],
    output: Output,
    is_wrong: bool,
}

impl FrameSender {
    ghost use Rattle.std.specs.Prelude.{◌≡◌, ◌≤◌, ◌||◌, not, [], true, false, ℕ, Bool, List, Option, IfOk, OnOk};
    ghost use Rattle.std.specs.Prelude.{IsErrOf, MatchResult, is_some, length};
    ghost use Rattle.std.specs.Io.KnownBytes.{Appends};
    ghost use Rattle.x25_bits.specs.Found.{octets_of};
    ghost use Rattle.x25_bits.specs.Stuffing.{filled};
    ghost use Rattle.x25_decode.specs.Decoding.{gap_in};
    ghost use Rattle.x25_io.specs.HeldLine.{most_line};
    ghost use Rattle.x25_io.specs.code.MarksFaults.{MarksFaults};
    ghost use Rattle.x25_io.specs.code.Written.{AppendsPrefix, Tells};
    ghost use Rattle.x25_bit_line.specs.Framing.{is_wrong, line_bits};
    ghost use Rattle.x25_bit_line.specs.LineBits.{Sends, SendsLine};

    /// Nothing was sent.
    pub(crate) fn new(alloc: Global) -> Result<FrameSender, AllocError>
        ensures bits { IfOk result (λ sender. sender.bits.bits ≡ []) }
        ensures empty { IfOk result (λ sender. sender.output ≡ []) }
        ensures right { IfOk result (λ sender. sender.is_wrong ≡ false) }
    {
        let output = Output::new(alloc)?;
        Ok(FrameSender {
            bits: LineBits::new(alloc),
            octets: [0; MOST_OCTETS],
            output,
            is_wrong: false,
        })
    }

    /// Writes what waits.
    fn flush<W: Sink>(&mut self, writer: &mut W) -> Result<(), Fault>
        ensures kept { OnOk result (W.is_marked writer.new ≡ W.is_marked writer.old) }
        ensures tells { (old : Option (List ℕ)) (told : List ℕ) → Tells old (W.contents writer.old) self.old.output told
            → MatchResult result (λ _. Tells old (W.contents writer.new) self.new.output told)
            (λ _. AppendsPrefix old (W.contents writer.new) told) }
        ensures empty { OnOk result (self.new.output ≡ []) }
        ensures bits { self.new.bits ≡ self.old.bits }
        ensures wrong { self.new.is_wrong ≡ self.old.is_wrong }
        ensures write { IsErrOf result Fault.Write → W.is_marked writer.new ≡ true }
        ensures memory { IsErrOf result Fault.NoMemory → ⊥ }
        ensures read { IsErrOf result Fault.Read → ⊥ }
    {
        Ok(self.output.flush(writer)?)
    }

    /// Passes over a line without octets: where it is neither a gap nor a comment, it is refused.
    fn pass_over(&mut self, line: &[u8])
        ensures bits { self.new.bits ≡ self.old.bits }
        ensures output { self.new.output ≡ self.old.output }
        ensures wrong { self.new.is_wrong
            ≡ (self.old.is_wrong || not (is_some (gap_in line.now) || begins_by_mark line.now)) }
    {
        if read_gap(line).is_some() || is_comment(line) {
            return;
        }
        self.is_wrong = true;
    }

    /// Sends the frame of a line of a trace, and nothing for another line.
    fn take<W: Sink>(&mut self, line: &[u8], writer: &mut W) -> Result<(), Fault>
        ensures sends { SendsLine result (W.contents writer.old)
            (W.contents writer.new) self.old.bits.bits self.new.bits.bits self.old.output self.new.output
            (line_bits line.now) }
        ensures wrong { length line.now ≤ most_line
            → OnOk result (self.new.is_wrong ≡ (self.old.is_wrong || is_wrong line.now)) }
        ensures faults { MarksFaults W.Sink writer.old writer.new result }
    {
        match read_sent(line, self.octets.as_mut_slice()) {
            Some((_from, count)) => {
                self.bits
                    .send_frame(&self.octets[..count], &mut self.output, writer)
            }
            None => {
                self.pass_over(line);
                Ok(())
            }
        }
    }

    /// Sends the bits that are left, and writes what waits.
    fn finish<W: Sink>(&mut self, writer: &mut W) -> Result<(), Fault>
        ensures text { (old : Option (List ℕ)) (before : List Bool)
            → Sends old (W.contents writer.old) self.old.bits.bits self.old.output before
            → MatchResult result (λ _. Appends old (W.contents writer.new) (octets_of (filled before)))
            (λ _. AppendsPrefix old (W.contents writer.new) (octets_of (filled before))) }
        ensures wrong { self.new.is_wrong ≡ self.old.is_wrong }
        ensures faults { MarksFaults W.Sink writer.old writer.new result }
    {
        self.bits.send_rest(&mut self.output, writer)?;
        self.flush(writer)
    }
}

impl LineTaker for FrameSender {
    ghost use Rattle.x25_bit_line.specs.Framing.{frame_status, framed_octets};
    ghost use Rattle.x25_bit_line.specs.code.Frames.{FramesOn, WritesLines};

    ghost Setting = { Unit {0} };

    ghost text_of = { λ _. framed_octets };

    ghost status_of = { λ _. frame_status };

    ghost waiting = { λ s. s.output };

    ghost may_want = { Unit {0} };

    ghost stands = { λ _. FramesOn };

    ghost ended = { λ _. WritesLines };

    fn take_line<W: Sink>(&mut self, line: Option<&[u8]>, writer: &mut W) -> Result<(), Fault> {
        match line {
            Some(line) => self.take(line, writer),
            None => {
                long_lines_send_nothing();
                self.is_wrong = true;
                Ok(())
            }
        }
    }

    fn pass_over(&mut self) {}

    fn write_out<W: Sink>(&mut self, writer: &mut W) -> Result<(), Fault> {
        self.flush(writer)
    }

    fn end<W: Sink>(&mut self, writer: &mut W) -> Result<u8, Fault> {
        self.finish(writer)?;
        Ok(u8::from(self.is_wrong))
    }
}
