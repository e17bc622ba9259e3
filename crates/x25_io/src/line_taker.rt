//! A text that is taken line by line.
ghost use Rattle.std.specs.Prelude.{◌≡◌, ◌≤◌, ◌<◌, ◌∷◌, [], ℕ, true, List, Option, IfOk, OnOk, IsErrOf, MatchOption};
ghost use Rattle.std.specs.Prelude.{MatchResult, length};
ghost use Rattle.std.specs.Io.KnownBytes.{Appends};
ghost use Rattle.x25_io.specs.HeldLine.{most_line};
ghost use Rattle.x25_io.specs.code.Written.{AppendsPrefix};

use crate::device::Sink;
use crate::fault::Fault;
use crate::held_line::HeldLine;
use crate::lines::split_line;
use crate::pieces::TextTaker;

/// What takes lines one after another, and writes the answers to them.
pub trait LineTaker: Drop {
    // As of a `TextTaker`.
    ghost Setting: { Type 0 };

    ghost text_of: { Setting → List ℕ → List ℕ };

    ghost status_of: { Setting → List ℕ → ℕ };

    ghost waiting: { Self → List ℕ };

    ghost may_want: { Type 0 };
    // `stands setting taker old now lines text`: the writer held `old` at first and holds `now`, and `lines` of the
    // text are to come.
    ghost stands: { Setting → Self → Option (List ℕ) → Option (List ℕ) → List (List ℕ) → List ℕ → Type 0 };
    // `ended setting old now lines text`: all is written but what `lines` give.
    ghost ended: { Setting → Option (List ℕ) → Option (List ℕ) → List (List ℕ) → List ℕ → Type 0 };

    /// Takes a line, `None` where it is longer than any that is held.
    fn take_line<W: Sink>(&mut self, line: Option<&[u8]>, writer: &mut W) -> Result<(), Fault>
        ensures kept { OnOk result (W.is_marked writer.new ≡ W.is_marked writer.old) }
        ensures on { (setting : Setting) (old : Option (List ℕ)) (first : List ℕ) (lines : List (List ℕ))
            (text : List ℕ)
            → MatchOption line.entry (most_line < length first) (λ held. (held.now ≡ first)
            × (length first ≤ most_line))
            → stands setting self.old old (W.contents writer.old) (first ∷ lines) text
            → MatchResult result (λ _. stands setting self.new old (W.contents writer.new) lines text)
            (λ _. AppendsPrefix old (W.contents writer.new) (text_of setting text)) }
        ensures write { IsErrOf result Fault.Write → W.is_marked writer.new ≡ true }
        ensures memory { IsErrOf result Fault.NoMemory → may_want × (W.is_marked writer.new ≡ W.is_marked writer.old) }
        ensures read { IsErrOf result Fault.Read → ⊥ };

    /// Passes over a line that asks nothing.
    fn pass_over(&mut self)
        ensures { (setting : Setting) (old now : Option (List ℕ)) (lines : List (List ℕ)) (text : List ℕ)
            → stands setting self.old old now lines text → stands setting self.new old now lines text };

    /// Writes what waits.
    fn write_out<W: Sink>(&mut self, writer: &mut W) -> Result<(), Fault>
        ensures written { OnOk result (waiting self.new ≡ []) }
        ensures kept { OnOk result (W.is_marked writer.new ≡ W.is_marked writer.old) }
        ensures on { (setting : Setting) (old : Option (List ℕ)) (lines : List (List ℕ)) (text : List ℕ)
            → stands setting self.old old (W.contents writer.old) lines text
            → MatchResult result (λ _. stands setting self.new old (W.contents writer.new) lines text
            × ended setting old (W.contents writer.new) lines text
            × AppendsPrefix old (W.contents writer.new) (text_of setting text))
            (λ _. AppendsPrefix old (W.contents writer.new) (text_of setting text)) }
        ensures write { IsErrOf result Fault.Write → W.is_marked writer.new ≡ true }
        ensures memory { IsErrOf result Fault.NoMemory → ⊥ }
        ensures read { IsErrOf result Fault.Read → ⊥ };

    /// Writes what waits where no line is to come, and answers the status.
    fn end<W: Sink>(&mut self, writer: &mut W) -> Result<u8, Fault>
        ensures zero_or_one { IfOk result (λ status. status ≤ 1) }
        ensures kept { OnOk result (W.is_marked writer.new ≡ W.is_marked writer.old) }
        ensures all { (setting : Setting) (old : Option (List ℕ)) (text : List ℕ)
            → stands setting self.old old (W.contents writer.old) [] text
            → MatchResult result (λ status. Appends old (W.contents writer.new) (text_of setting text)
            × (status ≡ status_of setting text))
            (λ _. AppendsPrefix old (W.contents writer.new) (text_of setting text)) }
        ensures write { IsErrOf result Fault.Write → W.is_marked writer.new ≡ true }
        ensures memory { IsErrOf result Fault.NoMemory → may_want × (W.is_marked writer.new ≡ W.is_marked writer.old) }
        ensures read { IsErrOf result Fault.Read → ⊥ };
}

/// Lines that are handed on as they end, with at most one line held.
#[derive(Drop)]
pub struct LineByLine<T: LineTaker> {
    held: HeldLine,
    taker: T,
}

impl<T: LineTaker> LineByLine<T> {
    ghost use Rattle.std.specs.Prelude.{◌++◌};
    ghost use Rattle.x25_io.specs.HeldLine.{HoldsLine};
    ghost use Rattle.x25_io.specs.Lines.{IsOpen};
    ghost use Rattle.x25_io.specs.code.LinesLead.{LinesLead};

    /// No line has begun.
    pub fn new(held: HeldLine, taker: T) -> LineByLine<T>
        ensures held { result.held ≡ held }
        ensures taker { result.taker ≡ taker }
    {
        LineByLine { held, taker }
    }

    /// The line that is held has ended.
    fn end_line<W: Sink>(&mut self, writer: &mut W) -> Result<(), Fault>
        ensures kept { OnOk result (W.is_marked writer.new ≡ W.is_marked writer.old) }
        ensures on { (setting : T.Setting) (old : Option (List ℕ)) (begun : List ℕ) (lines : List (List ℕ))
            (text : List ℕ) → HoldsLine begun self.old.held
            → T.stands setting self.old.taker old (W.contents writer.old) (begun ∷ lines) text
            → MatchResult result (λ _. T.stands setting self.new.taker old (W.contents writer.new) lines text)
            (λ _. AppendsPrefix old (W.contents writer.new) (T.text_of setting text)) }
        ensures cleared { OnOk result (HoldsLine [] self.new.held) }
        ensures write { IsErrOf result Fault.Write → W.is_marked writer.new ≡ true }
        ensures memory { IsErrOf result Fault.NoMemory → T.may_want
            × (W.is_marked writer.new ≡ W.is_marked writer.old) }
        ensures read { IsErrOf result Fault.Read → ⊥ }
    {
        self.taker.take_line(self.held.line(), writer)?;
        self.held.clear();
        Ok(())
    }

    /// The line that has begun ends behind `tail`.
    fn close<W: Sink>(&mut self, tail: &[u8], writer: &mut W) -> Result<(), Fault>
        requires { IsOpen tail.now }
        ensures kept { OnOk result (W.is_marked writer.new ≡ W.is_marked writer.old) }
        ensures on { (setting : T.Setting) (old : Option (List ℕ)) (rest text : List ℕ)
            → LinesLead (λ lines. T.stands setting self.old.taker old (W.contents writer.old) lines text) self.old.held
            (tail.now ++ 10 ∷ rest)
            → MatchResult result (λ _. LinesLead
            (λ lines. T.stands setting self.new.taker old (W.contents writer.new) lines text) self.new.held rest)
            (λ _. AppendsPrefix old (W.contents writer.new) (T.text_of setting text)) }
        ensures write { IsErrOf result Fault.Write → W.is_marked writer.new ≡ true }
        ensures memory { IsErrOf result Fault.NoMemory → T.may_want
            × (W.is_marked writer.new ≡ W.is_marked writer.old) }
        ensures read { IsErrOf result Fault.Read → ⊥ }
    {
        // It isn't copied where it lies in the piece as a whole.
        if self.held.is_whole(tail) {
            return self.taker.take_line(Some(tail), writer);
        }
        self.held.hold(tail);
        self.end_line(writer)
    }
}

impl<T: LineTaker> TextTaker for LineByLine<T> {
    ghost use Rattle.x25_io.specs.code.LinesLead.{LinesEnded, LinesLead};

    ghost Setting = { T.Setting };

    ghost text_of = { T.text_of };

    ghost status_of = { T.status_of };

    ghost leads = { λ setting t old now rest text. LinesLead
        (λ lines. T.stands setting t.taker old now lines text) t.held rest };

    ghost ended = { λ setting old now rest text. LinesEnded (λ lines. T.ended setting old now lines text) rest };

    ghost waiting = { λ t. T.waiting t.taker };

    ghost may_want = { T.may_want };

    fn take_piece<W: Sink>(&mut self, piece: &[u8], writer: &mut W) -> Result<(), Fault> {
        let mut left = piece;
        while let Some((tail, after)) = split_line(left) {
            self.close(tail, writer)?;
            left = after;
        }
        self.held.hold(left);
        self.taker.write_out(writer)
    }

    fn end<W: Sink>(mut self, writer: &mut W) -> Result<u8, Fault> {
        if self.held.is_empty() {
            return self.taker.end(writer);
        }
        self.end_line(writer)?;
        self.taker.end(writer)
    }

    fn give_up<W: Sink>(mut self, writer: &mut W) -> Fault {
        match self.taker.write_out(writer) {
            Ok(()) => Fault::Read,
            Err(_) => Fault::Write,
        }
    }
}
