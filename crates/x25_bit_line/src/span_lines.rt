//! The lines that tell of spans.
use std::alloc::{AllocError, Global};
use x25_bits::{Role, Span};
use x25_decode::mark;
use x25_io::{Failed, Output, Sink};
use x25_text::{MOST_OCTETS, Text};

/// The lines for spans of the line on which an end sends: those that wait to be written.
///
/// Its buffers are made by `new`; no other call is refused for want of memory.
#[derive(Drop)]
pub(crate) struct SpanLines {
    from: Role,
    digits: Text,
    output: Output,
}

impl SpanLines {
    ghost use Rattle.std.specs.Prelude.{◌≡◌, ◌≤◌, ◌++◌, [], true, ℕ, List, Option, IfOk, OnOk, OnErr, MatchResult};
    ghost use Rattle.std.specs.Prelude.{length};
    ghost use Rattle.std.specs.List.{flat_map};
    ghost use Rattle.x25_bits.specs.code.Plain.{plain_span};
    ghost use Rattle.x25_io.specs.code.Written.{AppendsPrefix, Tells, TellsMore};
    ghost use Rattle.x25_text.specs.Text.{octet_text};
    ghost use Rattle.x25_bit_line.specs.Deframing.{class_line, trace_line};

    /// Nothing waits.
    pub(crate) fn new(alloc: Global, from: Role) -> Result<SpanLines, AllocError>
        ensures from { IfOk result (λ lines. lines.from ≡ from) }
        ensures empty { IfOk result (λ lines. lines.output ≡ []) }
    {
        let digits = Text::new(alloc)?;
        let output = Output::new(alloc)?;
        Ok(SpanLines {
            from,
            digits,
            output,
        })
    }

    /// Writes what waits.
    pub(crate) fn flush<W: Sink>(&mut self, writer: &mut W) -> Result<(), Failed>
        ensures kept { OnOk result (W.is_marked writer.new ≡ W.is_marked writer.old) }
        ensures tells { (old : Option (List ℕ)) (told : List ℕ) → Tells old (W.contents writer.old) self.old.output told
            → MatchResult result (λ _. Tells old (W.contents writer.new) self.new.output told)
            (λ _. AppendsPrefix old (W.contents writer.new) told) }
        ensures empty { OnOk result (self.new.output ≡ []) }
        ensures marked { OnErr result (W.is_marked writer.new ≡ true) }
        ensures from { self.new.from ≡ self.old.from }
    {
        self.output.flush(writer)
    }

    /// Spells octets as hexadecimal digits.
    fn spell(&mut self, octets: &[u8])
        requires few { length octets.now ≤ MOST_OCTETS }
        ensures digits { self.new.digits ≡ flat_map octet_text octets.now }
        ensures output { self.new.output ≡ self.old.output }
        ensures from { self.new.from ≡ self.old.from }
    {
        self.digits.clear();
        self.digits.push_hexadecimal(octets);
    }

    /// Tells octets as hexadecimal digits.
    fn tell_digits<W: Sink>(&mut self, octets: &[u8], writer: &mut W) -> Result<(), Failed>
        ensures kept { OnOk result (W.is_marked writer.new ≡ W.is_marked writer.old) }
        ensures tells { TellsMore result (W.contents writer.old) (W.contents writer.new) self.old.output self.new.output
            (flat_map octet_text octets.now) }
        ensures marked { OnErr result (W.is_marked writer.new ≡ true) }
        ensures from { self.new.from ≡ self.old.from }
    {
        let mut left = octets;
        while !left.is_empty() {
            let (part, rest) = left.split_at(left.len().min(MOST_OCTETS));
            self.spell(part);
            self.output.tell(self.digits.as_slice(), writer)?;
            left = rest;
        }
        Ok(())
    }

    /// Tells a content.
    fn tell_content<W: Sink>(&mut self, octets: &[u8], writer: &mut W) -> Result<(), Failed>
        ensures kept { OnOk result (W.is_marked writer.new ≡ W.is_marked writer.old) }
        ensures tells { TellsMore result (W.contents writer.old) (W.contents writer.new) self.old.output self.new.output
            (trace_line self.old.from octets.now) }
        ensures marked { OnErr result (W.is_marked writer.new ≡ true) }
        ensures from { self.new.from ≡ self.old.from }
    {
        self.output.tell(mark(self.from), writer)?;
        self.tell_digits(octets, writer)?;
        self.output.tell(b"\n", writer)
    }

    /// Tells a span.
    pub(crate) fn tell<W: Sink>(&mut self, span: &Span<'_>, writer: &mut W) -> Result<(), Failed>
        ensures kept { OnOk result (W.is_marked writer.new ≡ W.is_marked writer.old) }
        ensures tells { TellsMore result (W.contents writer.old) (W.contents writer.new) self.old.output self.new.output
            (class_line self.old.from (plain_span span.now)) }
        ensures marked { OnErr result (W.is_marked writer.new ≡ true) }
        ensures from { self.new.from ≡ self.old.from }
    {
        match span {
            Span::Content(octets) => self.tell_content(octets, writer),
            Span::Abort => self.output.tell(b"# abort\n", writer),
            Span::Short => self.output.tell(b"# short\n", writer),
            Span::Long => self.output.tell(b"# long\n", writer),
            Span::Ragged => self.output.tell(b"# ragged\n", writer),
        }
    }
}
