//! The spans between flags, found in bits that come in any cut, ITU-T X.25 (10/96), section 2.2.
ghost use Rattle.std.specs.Prelude.{ℕ, ◌≡◌, ◌*◌, ◌^◌, ◌<◌, ◌≤◌, ◌++◌, ◌∷◌, [], Bool, List, length, take, true, false};
ghost use Rattle.std.specs.Prelude.{IfNone, IfOk, if◌then◌else◌};
ghost use Rattle.std.specs.Borrow.{sem};
ghost use Rattle.x25_bits.specs.laws.Cuts.{found_more};
ghost use Rattle.x25_bits.specs.FrameCheck.{bits_of};
ghost use Rattle.x25_bits.specs.code.Held.{Held, Seen, seen_next, seen_found, ends, closing, kept_next, kept_found};
ghost use Rattle.x25_bits.specs.code.Plain.{listed_span};
ghost use Rattle.x25_bits.specs.code.Shows.{Shows};
ghost use Rattle.x25_bits.specs.Found.{Class};

use crate::bits::{Bits, read_bit};
use crate::found::Span;
use crate::kept::Kept;
use crate::no_memory::NoMemory;
use crate::scan::Scan;
use std::alloc::Global;
use std::mem;

/// The fewest bits of a content: 4 octets.
const FEWEST: usize = 32;

/// The most bits of a content: 4,103 octets.
const MOST: usize = 32_824;

/// The most unstuffed bits that are held: one more than the longest content and the first six bits of a flag.
pub(crate) const HELD: usize = 32_831;

/// Finds the spans between flags, in bits that come in any cut.
#[derive(Debug, Drop)]
pub struct Deframer {
    pub(crate) scan: Scan,
    /// The unstuffed bits behind the last flag, as long as they can be content.
    pub(crate) kept: Kept,
    /// Those that the last flag closed, of which a call lends what their span is.
    pub(crate) last: Kept,
    ghost few: { length kept ≤ 32831 },
}

impl Deframer {
    ghost use Rattle.x25_bits.specs.code.Fits.{Fits};
    ghost use Rattle.x25_bits.specs.code.FitsSeen.{FitsSeen};
    ghost use Rattle.x25_bits.specs.code.Reading.{part, Lends, EndsRead};

    /// A deframer that no bits have come to, with memory for all that it ever holds, and for a content that it lends:
    /// 4,104 octets for each. Error 70 where there is none.
    pub fn new(alloc: Global) -> Result<Deframer, NoMemory>
        ensures { IfOk result (λ deframer. Fits deframer []) }
    {
        let kept = Kept::new(alloc)?;
        let last = Kept::new(alloc)?;
        Ok(Deframer {
            scan: Scan::START,
            kept,
            last,
        })
    }

    /// Reads bits from place `at` on, until one span is classed or the bits end. Answers the place behind the last bit
    /// read, and what that span is, its octets lent. So calls until the end give, in order, what the bits close,
    /// however the bits so far were cut. At most 32,831 bits are held, and it takes no memory.
    pub fn feed_next(&mut self, bits: &Bits, at: usize) -> (usize, Option<Span<'_>>)
        requires at { at ≤ length bits.now }
        ensures low { at ≤ result.0 }
        ensures high { result.0 ≤ length bits.now }
        ensures moves { at < length bits.now → at < result.0 }
        ensures found { (before : List Bool) → Fits self.old before
            → listed_span result.1 ≡ found_more before (part at result.0 bits.now) }
        ensures first { (before : List Bool) (n : ℕ) → Fits self.old before → n < result.0
            → found_more before (part at n bits.now) ≡ [] }
        ensures end { (before : List Bool) → Fits self.old before → IfNone result.1 (result.0 ≡ length bits.now) }
        ensures* after { sem 𝓛 (EndsRead self.entry bits.now at result.0) }
    {
        let (place, closed) = self.read_bits(bits, at);
        (place, self.lent(closed))
    }

    /// The same of octets of a synchronous line, each octet's lowest bit first. Places are those of bits.
    pub fn feed_next_octets(&mut self, octets: &[u8], at: usize) -> (usize, Option<Span<'_>>)
        requires size { 8 * length octets.now < 2 ^ 64 }
        requires at { at ≤ 8 * length octets.now }
        ensures low { at ≤ result.0 }
        ensures high { result.0 ≤ 8 * length octets.now }
        ensures moves { at < 8 * length octets.now → at < result.0 }
        ensures found { (before : List Bool) → Fits self.old before
            → listed_span result.1 ≡ found_more before (part at result.0 (bits_of octets.now)) }
        ensures first { (before : List Bool) (n : ℕ) → Fits self.old before → n < result.0
            → found_more before (part at n (bits_of octets.now)) ≡ [] }
        ensures end { (before : List Bool) → Fits self.old before → IfNone result.1 (result.0 ≡ 8 * length octets.now) }
        ensures* after { sem 𝓛 (EndsRead self.entry (bits_of octets.now) at result.0) }
    {
        let (place, closed) = self.read(octets, at, 8 * octets.len());
        (place, self.lent(closed))
    }

    /// What the span is that a flag closed behind this scan.
    fn lent(&self, closed: Option<Scan>) -> Option<Span<'_>>
        ensures { (found : List Class) → Lends closed self.now.last found → listed_span result ≡ found }
    {
        let scan = closed?;
        span_of(scan, &self.last)
    }

    /// Reads bits, until a span is classed or they end. Answers the place behind the last bit read, and the scan before
    /// the span was closed.
    fn read_bits(&mut self, bits: &Bits, at: usize) -> (usize, Option<Scan>)
        requires at { at ≤ length bits.now }
        ensures low { at ≤ result.0 }
        ensures high { result.0 ≤ length bits.now }
        ensures moves { at < length bits.now → at < result.0 }
        ensures fits { (before : List Bool) → Fits self.old before
            → Fits self.new (before ++ part at result.0 bits.now) }
        ensures found { (before : List Bool) → Fits self.old before
            → Lends result.1 self.new.last (found_more before (part at result.0 bits.now)) }
        ensures first { (before : List Bool) (n : ℕ) → Fits self.old before → n < result.0
            → found_more before (part at n bits.now) ≡ [] }
        ensures end { IfNone result.1 (result.0 ≡ length bits.now) }
    {
        self.read(bits.octets(), at, bits.len())
    }

    /// The same of the octets' bits up to the place `end`.
    fn read(&mut self, octets: &[u8], at: usize, end: usize) -> (usize, Option<Scan>)
        requires at { at ≤ end }
        requires end { end ≤ 8 * length octets.now }
        ensures low { at ≤ result.0 }
        ensures high { result.0 ≤ end }
        ensures moves { at < end → at < result.0 }
        ensures fits { (before : List Bool) → Fits self.old before
            → Fits self.new (before ++ part at result.0 (bits_of octets.now)) }
        ensures found { (before : List Bool) → Fits self.old before
            → Lends result.1 self.new.last (found_more before (part at result.0 (bits_of octets.now))) }
        ensures first { (before : List Bool) (n : ℕ) → Fits self.old before → n < result.0
            → found_more before (part at n (bits_of octets.now)) ≡ [] }
        ensures end { IfNone result.1 (result.0 ≡ end) }
    {
        let mut place = at;
        while place < end {
            let behind = self.take_content(octets, place, end);
            if behind == end {
                place = behind;
                continue;
            }
            let next = self.idle_bits_until(octets, behind, end);
            if next > behind {
                place = next;
                continue;
            }
            if let Some(stretch) = self.stretch_at(octets, behind, end) {
                self.keep_passed(stretch.passed);
                place = stretch.end;
                continue;
            }
            if let Some(skipped) = self.skip_at(octets, behind, end) {
                self.skip(skipped.scan);
                place = skipped.end;
                continue;
            }
            let closed = self.step(read_bit(octets, behind));
            place = behind + 1;
            if closed.is_some() {
                return (place, closed);
            }
        }
        (end, None)
    }

    /// Takes one bit. Where it closes a span that is classed, answers the scan before it.
    fn step(&mut self, bit: bool) -> Option<Scan>
        ensures fits { (v : Seen) → FitsSeen self.old v → FitsSeen self.new (seen_next v bit) }
        ensures found { (v : Seen) → FitsSeen self.old v → Lends result self.new.last (seen_found v bit) }
    {
        if self.scan.ends(bit) {
            return self.close();
        }
        self.go_on(bit);
        None
    }

    /// Takes a bit that ends no flag.
    fn go_on(&mut self, bit: bool)
        ensures fits { (v : Seen) → FitsSeen self.old v → ends v bit ≡ false → FitsSeen self.new (seen_next v bit) }
    {
        self.keep(bit);
        self.scan = self.scan.next(bit);
    }

    /// Keeps the bit, where it can be content.
    fn keep(&mut self, bit: bool)
        ensures fits { (v : Seen) → FitsSeen self.old v → FitsSeen self.new (kept_next v bit) }
        ensures scan { self.new.scan ≡ self.old.scan }
    {
        if !self.scan.is_open {
            return;
        }
        if self.scan.is_aborted {
            return;
        }
        push_if(self.scan.keeps(bit), bit, &mut self.kept);
    }

    /// Begins behind a flag. Where that closes a span which is classed, answers the scan before it.
    fn close(&mut self) -> Option<Scan>
        ensures fits { (v : Seen) (b : Bool) → FitsSeen self.old v → ends v b ≡ true
            → FitsSeen self.new (seen_next v b) }
        ensures found { (v : Seen) → FitsSeen self.old v
            → Lends result self.new.last (if v.is_open then closing v.held else []) }
    {
        let closed = self.scan;
        self.swap();
        if !closed.is_open {
            return None;
        }
        if span_of(closed, &self.last).is_some() {
            return Some(closed);
        }
        None
    }

    /// Begins behind a flag. What was kept stays, to be lent.
    fn swap(&mut self)
        ensures fits { (v : Seen) (b : Bool) → FitsSeen self.old v → ends v b ≡ true
            → FitsSeen self.new (seen_next v b) }
        ensures last { self.new.last ≡ self.old.kept }
    {
        self.scan = Scan::OPEN;
        self.last.clear();
        mem::swap(&mut self.kept, &mut self.last);
    }
}

/// Keeps the bit, where it can be content and there are not too many.
fn push_if(is_kept: bool, bit: bool, kept: &mut Kept)
    requires few { length kept.old ≤ 32831 }
    ensures fits { (all : List Bool) → kept.old ≡ take 32831 all
        → kept.new ≡ take 32831 (if is_kept then all ++ bit ∷ [] else all) }
    ensures few { length kept.new ≤ 32831 }
{
    if !is_kept {
        return;
    }
    if kept.len() == HELD {
        return;
    }
    kept.push(bit);
}

/// What the span is that a flag closes behind this scan and these kept bits.
pub(crate) fn span_of(scan: Scan, kept: &Kept) -> Option<Span<'_>>
    ensures { (h : Held) → Shows scan kept.now h → listed_span result ≡ closing h }
{
    if scan.is_aborted {
        return Some(Span::Abort);
    }
    if scan.is_inserted {
        return Some(Span::Ragged);
    }
    span_in(kept)
}

/// What the span is whose unstuffed bits and the first six of a flag these are.
fn span_in(kept: &Kept) -> Option<Span<'_>>
    ensures { (all : List Bool) → kept.now ≡ take 32831 all → listed_span result ≡ kept_found all }
{
    if kept.len() <= 6 {
        return None;
    }
    let count = kept.len() - 6;
    if count < FEWEST {
        return Some(Span::Short);
    }
    if count > MOST {
        return Some(Span::Long);
    }
    if count % 8 != 0 {
        return Some(Span::Ragged);
    }
    Some(Span::Content(kept.whole_octets()))
}
