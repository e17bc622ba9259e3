//! Octets of a synchronous line, span by span.
ghost use Rattle.std.specs.Prelude.{◌≡◌, ◌*◌, ◌^◌, ◌<◌, ◌≤◌, ◌++◌, true, ℕ, Bool, List, Option, IfOk, OnOk, OnErr};
ghost use Rattle.std.specs.Prelude.{MatchResult, length, take, drop};
ghost use Rattle.x25_bits.specs.FrameCheck.{bits_of};
ghost use Rattle.x25_bits.specs.code.Fits.{Fits};
ghost use Rattle.x25_bits.specs.code.Reading.{part};
ghost use Rattle.x25_bits.specs.Found.{found_of};
ghost use Rattle.x25_io.specs.code.Written.{AppendsPrefix};
ghost use Rattle.x25_bit_line.specs.Deframing.{class_lines};
ghost use Rattle.x25_bit_line.specs.code.Reads.{Reads};

use crate::span_lines::SpanLines;
use x25_bits::{Deframer, cuts_agree};
use x25_io::{Failed, Sink};

/// Reads bits of the octets from a place on until a span is classed or they end, tells what the span is, and answers
/// the place behind the last bit read.
fn take_span<W: Sink>(
    deframer: &mut Deframer,
    lines: &mut SpanLines,
    octets: &[u8],
    at: usize,
    writer: &mut W,
) -> Result<usize, Failed>
    requires size { 8 * length octets.now < 2 ^ 64 }
    requires at { at < 8 * length octets.now }
    ensures kept { OnOk result (W.is_marked writer.new ≡ W.is_marked writer.old) }
    ensures moves { IfOk result (λ place. at < place) }
    ensures high { IfOk result (λ place. place ≤ 8 * length octets.now) }
    ensures reads { (old : Option (List ℕ)) (before : List Bool)
        → Reads lines.old.from old (W.contents writer.old) deframer.old lines.old.output before
        → MatchResult result (λ place. Reads lines.old.from old (W.contents writer.new) deframer.new lines.new.output
        (before ++ part at place (bits_of octets.now)))
        (λ _. AppendsPrefix old (W.contents writer.new) (class_lines lines.old.from (found_of (before
        ++ drop at (bits_of octets.now))))) }
    ensures marked { OnErr result (W.is_marked writer.new ≡ true) }
    ensures from { lines.new.from ≡ lines.old.from }
{
    cuts_agree();
    let (place, span) = deframer.feed_next_octets(octets, at);
    let Some(span) = span else {
        return Ok(place);
    };
    lines.tell(&span, writer)?;
    Ok(place)
}

/// Reads all the bits of the octets.
pub(crate) fn take_octets<W: Sink>(
    deframer: &mut Deframer,
    lines: &mut SpanLines,
    octets: &[u8],
    writer: &mut W,
) -> Result<(), Failed>
    requires size { 8 * length octets.now < 2 ^ 64 }
    ensures kept { OnOk result (W.is_marked writer.new ≡ W.is_marked writer.old) }
    ensures reads { (old : Option (List ℕ)) (before : List Bool)
        → Reads lines.old.from old (W.contents writer.old) deframer.old lines.old.output before
        → MatchResult result (λ _. Reads lines.old.from old (W.contents writer.new) deframer.new lines.new.output
        (before ++ bits_of octets.now))
        (λ _. AppendsPrefix old (W.contents writer.new) (class_lines lines.old.from (found_of (before
        ++ bits_of octets.now)))) }
    ensures marked { OnErr result (W.is_marked writer.new ≡ true) }
    ensures from { lines.new.from ≡ lines.old.from }
{
    let mut at = 0;
    while at < 8 * octets.len() {
        at = take_span(deframer, lines, octets, at, writer)?;
    }
    Ok(())
}
