//! Lines answered as they come, with at most one line held.
ghost use Rattle.x25_text.specs.declared.text.TheConstants.{ROOM};

use crate::answer::{MOST_ANSWER, Reading, answer, answer_front};
use std::alloc::{AllocError, Global};
use x25_io::{Failed, Fault, HeldLine, Output, Sink, TextTaker, split_line};
use x25_text::MOST_OCTETS;

/// The line that has begun, and the answers that wait to be written.
///
/// Its buffers are made by `new`; no other call is refused for want of memory.
#[derive(Drop)]
pub struct Decoder {
    held: HeldLine,
    octets: [u8; MOST_OCTETS],
    output: Output,
    is_refused: bool,
    reading: Reading,
}

impl Decoder {
    ghost use Rattle.std.specs.Prelude.{◌≡◌, ◌≤◌, ◌<◌, ◌+◌, ◌++◌, ◌∷◌, [], ℕ, Bool, true, List, Option, ◌||◌, IfOk};
    ghost use Rattle.std.specs.Prelude.{OnOk, OnErr, MatchOption, MatchResult, length};
    ghost use Rattle.std.specs.Io.KnownBytes.{Appends};
    ghost use Rattle.x25_decode.specs.Decoding.{answer_to, is_refused};
    ghost use Rattle.x25_decode.specs.code.Stream.{DecodesOn, LeadsFrom};
    ghost use Rattle.x25_io.specs.HeldLine.{HoldsLine};
    ghost use Rattle.x25_io.specs.Lines.{IsOpen};
    ghost use Rattle.x25_io.specs.code.Written.{AppendsPrefix};

    /// Nothing is held and nothing waits.
    ///
    /// `reading` says how octets are read.
    pub fn new(alloc: Global, reading: Reading) -> Result<Decoder, AllocError>
        ensures { IfOk result (λ d. (old : Option (List ℕ)) (input : List ℕ)
            → DecodesOn reading d old old input input) }
    {
        let held = HeldLine::new(alloc)?;
        let output = Output::new(alloc)?;
        Ok(Decoder {
            held,
            octets: [0; MOST_OCTETS],
            output,
            is_refused: false,
            reading,
        })
    }

    /// Answers the line that is held, and says whether it is refused.
    fn answer_held(&mut self) -> bool
        requires room { length self.old.output + MOST_ANSWER ≤ ROOM }
        ensures text { (begun : List ℕ) → HoldsLine begun self.old.held → self.new.output ≡ self.old.output
            ++ answer_to self.old.reading begun }
        ensures refused { (begun : List ℕ) → HoldsLine begun self.old.held → result ≡ is_refused begun }
        ensures held { self.new.held ≡ self.old.held }
        ensures is_refused { self.new.is_refused ≡ self.old.is_refused }
        ensures reading { self.new.reading ≡ self.old.reading }
    {
        match self.held.line() {
            Some(line) => answer(self.reading, line, &mut self.octets, self.output.text()),
            None => {
                self.output.text().push(b"? 60\n");
                true
            }
        }
    }

    /// The line that is held has ended.
    fn end_line(&mut self)
        requires room { length self.old.output + MOST_ANSWER ≤ ROOM }
        ensures text { (begun : List ℕ) → HoldsLine begun self.old.held → self.new.output ≡ self.old.output
            ++ answer_to self.old.reading begun }
        ensures refused { (begun : List ℕ) → HoldsLine begun self.old.held
            → self.new.is_refused ≡ (self.old.is_refused || is_refused begun) }
        ensures cleared { HoldsLine [] self.new.held }
        ensures reading { self.new.reading ≡ self.old.reading }
    {
        let refused = self.answer_held();
        self.is_refused |= refused;
        self.held.clear();
    }

    /// The line that has begun ends behind `tail`.
    fn close(&mut self, tail: &[u8])
        requires open { IsOpen tail.now }
        requires room { length self.old.output + MOST_ANSWER ≤ ROOM }
        ensures leads { (old now : Option (List ℕ)) (rest all : List ℕ) (any : Bool)
            → LeadsFrom old now self.old (tail.now ++ 10 ∷ rest) all any
            → LeadsFrom old now self.new rest all any }
        ensures reading { self.new.reading ≡ self.old.reading }
    {
        if self.held.is_empty() {
            let refused = answer(self.reading, tail, &mut self.octets, self.output.text());
            self.is_refused |= refused;
            return;
        }
        self.held.hold(tail);
        self.end_line();
    }

    /// Takes the line at the front of a text, where it ends there, and answers what stands behind it. Its end is
    /// searched for.
    fn take_found_line<'a>(&mut self, left: &'a [u8]) -> Option<&'a [u8]>
        requires room { length self.old.output + MOST_ANSWER ≤ ROOM }
        ensures leads { (old now : Option (List ℕ)) (rest all : List ℕ) (any : Bool)
            → LeadsFrom old now self.old (left.now ++ rest) all any
            → MatchOption result (LeadsFrom old now self.new (left.now
            ++ rest) all any) (λ more. LeadsFrom old now self.new (more.now ++ rest) all any) }
        ensures line { MatchOption result (IsOpen left.now) (λ more. length more.now < length left.now) }
        ensures reading { self.new.reading ≡ self.old.reading }
    {
        let Some((tail, after)) = split_line(left) else {
            return None;
        };
        self.close(tail);
        Some(after)
    }

    /// Takes the line at the front of a text, where it ends there, and answers what stands behind it.
    fn take_line<'a, W: Sink>(
        &mut self,
        left: &'a [u8],
        writer: &mut W,
    ) -> Result<Option<&'a [u8]>, Failed>
        ensures kept { OnOk result (W.is_marked writer.new ≡ W.is_marked writer.old) }
        ensures leads { (old : Option (List ℕ)) (rest all : List ℕ) (any : Bool)
            → LeadsFrom old (W.contents writer.old) self.old (left.now ++ rest) all any
            → MatchResult result (λ after. MatchOption after (LeadsFrom old (W.contents writer.new) self.new (left.now
            ++ rest) all any)
            (λ more. LeadsFrom old (W.contents writer.new) self.new (more.now ++ rest) all any))
            (λ _. AppendsPrefix old (W.contents writer.new) all) }
        ensures line { IfOk result (λ after. MatchOption after (IsOpen left.now)
            (λ more. length more.now < length left.now)) }
        ensures marked { OnErr result (W.is_marked writer.new ≡ true) }
        ensures reading { self.new.reading ≡ self.old.reading }
    {
        self.output.make_room(MOST_ANSWER, writer)?;
        if !self.held.is_empty() {
            return Ok(self.take_found_line(left));
        }
        match answer_front(self.reading, left, &mut self.octets, self.output.text()) {
            Some(count) => Ok(Some(&left[count + 1..])),
            None => Ok(self.take_found_line(left)),
        }
    }

    /// Takes the lines that end in a piece, and answers what stands behind them.
    fn take_lines<'a, W: Sink>(
        &mut self,
        piece: &'a [u8],
        writer: &mut W,
    ) -> Result<&'a [u8], Failed>
        ensures kept { OnOk result (W.is_marked writer.new ≡ W.is_marked writer.old) }
        ensures leads { (old : Option (List ℕ)) (rest all : List ℕ) (any : Bool)
            → LeadsFrom old (W.contents writer.old) self.old (piece.now ++ rest) all any
            → MatchResult result (λ left. LeadsFrom old (W.contents writer.new) self.new (left.now ++ rest) all any)
            (λ _. AppendsPrefix old (W.contents writer.new) all) }
        ensures open { IfOk result (λ left. IsOpen left.now) }
        ensures marked { OnErr result (W.is_marked writer.new ≡ true) }
        ensures reading { self.new.reading ≡ self.old.reading }
    {
        let mut left = piece;
        while let Some(after) = self.take_line(left, writer)? {
            left = after;
        }
        Ok(left)
    }

    /// Answers the last line, where it has no line feed, and writes what waits.
    fn finish<W: Sink>(&mut self, writer: &mut W) -> Result<(), Failed>
        ensures kept { OnOk result (W.is_marked writer.new ≡ W.is_marked writer.old) }
        ensures text { (old : Option (List ℕ)) (all : List ℕ) (any : Bool)
            → LeadsFrom old (W.contents writer.old) self.old [] all any
            → MatchResult result (λ _. Appends old (W.contents writer.new) all × (self.new.is_refused ≡ any))
            (λ _. AppendsPrefix old (W.contents writer.new) all) }
        ensures marked { OnErr result (W.is_marked writer.new ≡ true) }
    {
        if self.held.is_empty() {
            return self.output.flush(writer);
        }
        self.output.make_room(MOST_ANSWER, writer)?;
        self.end_line();
        self.output.flush(writer)
    }
}

impl TextTaker for Decoder {
    ghost use Rattle.x25_decode.specs.declared.answer.Reading.{Reading};
    ghost use Rattle.x25_decode.specs.Decoding.{output_of, status_of as status_of_input};
    ghost use Rattle.x25_decode.specs.code.Stream.{DecodesOn, WritesEnded};

    // How octets are read.
    ghost Setting = { Reading };

    ghost text_of = { output_of };

    ghost status_of = { λ _. status_of_input };

    ghost leads = { DecodesOn };

    ghost ended = { λ reading old now rest input. WritesEnded reading old now rest (output_of reading input) };

    ghost waiting = { λ d. d.output };

    ghost may_want = { ⊥ };

    fn take_piece<W: Sink>(&mut self, piece: &[u8], writer: &mut W) -> Result<(), Fault> {
        let left = self.take_lines(piece, writer)?;
        self.held.hold(left);
        Ok(self.output.flush(writer)?)
    }

    fn end<W: Sink>(mut self, writer: &mut W) -> Result<u8, Fault> {
        self.finish(writer)?;
        Ok(u8::from(self.is_refused))
    }

    fn give_up<W: Sink>(mut self, writer: &mut W) -> Fault {
        if let Err(_) = self.output.flush(writer) {
            return Fault::Write;
        }
        Fault::Read
    }
}
