//! Octets of a synchronous line, taken in any pieces.
ghost use Rattle.std.specs.Prelude.{◌≡◌, true};

use crate::span_lines::SpanLines;
use crate::spans::take_octets;
use x25_bits::{Deframer, cuts_agree};
use x25_io::{Fault, PIECE, Sink, TextTaker};

/// The bits of the line so far, as far as they are held, and the lines that wait.
#[derive(Drop)]
pub(crate) struct Finder {
    deframer: Deframer,
    lines: SpanLines,
}

impl Finder {
    /// No bits have come.
    pub(crate) fn new(deframer: Deframer, lines: SpanLines) -> Finder
        ensures deframer { result.deframer ≡ deframer }
        ensures lines { result.lines ≡ lines }
    {
        Finder { deframer, lines }
    }
}

impl TextTaker for Finder {
    ghost use Rattle.std.specs.Prelude.{[]};
    ghost use Rattle.x25_bits.specs.declared.role.Role.{Role as RoleValue};
    ghost use Rattle.x25_bit_line.specs.Deframing.{deframed};
    ghost use Rattle.x25_bit_line.specs.code.Reads.{ReadsOn, WritesRead};

    // The end that sends on the line.
    ghost Setting = { RoleValue };

    ghost text_of = { deframed };

    ghost status_of = { λ _ _. 0 };

    ghost leads = { ReadsOn };

    ghost ended = { WritesRead };

    ghost waiting = { λ f. f.lines.output };

    ghost may_want = { ⊥ };

    fn take_piece<W: Sink>(&mut self, piece: &[u8], writer: &mut W) -> Result<(), Fault> {
        cuts_agree();
        let mut left = piece;
        while !left.is_empty() {
            let (front, rest) = left.split_at(left.len().min(PIECE));
            take_octets(&mut self.deframer, &mut self.lines, front, writer)?;
            left = rest;
        }
        Ok(self.lines.flush(writer)?)
    }

    fn end<W: Sink>(mut self, writer: &mut W) -> Result<u8, Fault> {
        self.lines.flush(writer)?;
        Ok(0)
    }

    fn give_up<W: Sink>(mut self, writer: &mut W) -> Fault {
        cuts_agree();
        match self.lines.flush(writer) {
            Ok(()) => Fault::Read,
            Err(_) => Fault::Write,
        }
    }
}
