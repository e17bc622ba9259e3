//! Whole octets of a content, one after another, up to one in which a flag ends or a seventh 1 bit comes.
ghost use Rattle.std.specs.Prelude.{◌≡◌, ◌+◌, ◌-◌, ◌*◌, ◌<◌, ◌≤◌, ◌++◌, [], true, false, length, take, vec_capacity};
ghost use Rattle.x25_bits.specs.FrameCheck.{bits_of};
ghost use Rattle.x25_bits.specs.Passing.{PassesOn, kept_from};
ghost use Rattle.x25_bits.specs.code.FitsSeen.{FitsSeen};
ghost use Rattle.x25_bits.specs.code.Held.{Seen, seen_from, found_from};
ghost use Rattle.x25_bits.specs.code.Reading.{part};

use crate::bits::write_octet;
use crate::deframer::{Deframer, HELD};
use crate::passing::pass_octet;
use crate::scan::Scan;

/// What whole octets leave.
#[derive(Clone, Copy, Debug)]
pub struct Taken {
    /// The place behind them.
    pub end: usize,
    /// The bits that are kept, with those that were before.
    pub count: usize,
    /// The 1 bits at the end.
    pub run: u8,
    /// The last 0 stood behind five 1 bits.
    pub is_inserted: bool,
}

/// Takes octets from the place `at` on, none from `end` on. What is kept of their bits stands behind the first `size`
/// bits of the memory.
fn take_into(
    octets: &[u8],
    at: usize,
    end: usize,
    scan: Scan,
    memory: &mut [u8],
    size: usize,
) -> Taken
    requires at { at ≤ end }
    requires end { end ≤ length octets.now }
    requires few { size + 8 * (end - at) ≤ 32831 }
    requires room { size + 8 * (end - at) < 8 * length memory.old }
    ensures low { at ≤ result.end }
    ensures high { result.end ≤ end }
    ensures passes { PassesOn result.run result.is_inserted scan.run scan.is_inserted
        (part (8 * at) (8 * result.end) (bits_of octets.now)) }
    ensures kept { take result.count (bits_of memory.new) ≡ take size (bits_of memory.old)
        ++ kept_from scan.run (part (8 * at) (8 * result.end) (bits_of octets.now)) }
    ensures few { result.count ≤ size + 8 * (end - at) }
    ensures len { length memory.new ≡ length memory.old }
{
    let mut run = scan.run;
    let mut is_inserted = scan.is_inserted;
    let mut count = size;
    let mut place = at;
    while place < end {
        let Some(passed) = pass_octet(run, octets[place]) else {
            return Taken {
                end: place,
                count,
                run,
                is_inserted,
            };
        };
        write_octet(memory, count, passed.kept);
        count += passed.count as usize;
        run = passed.run;
        is_inserted = passed.is_inserted;
        place += 1;
    }
    Taken {
        end: place,
        count,
        run,
        is_inserted,
    }
}

/// The same into the memory of a vector.
pub(crate) fn take_whole(
    octets: &[u8],
    at: usize,
    end: usize,
    scan: Scan,
    memory: &mut Vec<u8>,
    size: usize,
) -> Taken
    requires at { at ≤ end }
    requires end { end ≤ length octets.now }
    requires few { size + 8 * (end - at) ≤ 32831 }
    requires room { size + 8 * (end - at) < 8 * length memory.old.items }
    ensures low { at ≤ result.end }
    ensures high { result.end ≤ end }
    ensures passes { PassesOn result.run result.is_inserted scan.run scan.is_inserted
        (part (8 * at) (8 * result.end) (bits_of octets.now)) }
    ensures kept { take result.count (bits_of memory.new.items) ≡ take size (bits_of memory.old.items)
        ++ kept_from scan.run (part (8 * at) (8 * result.end) (bits_of octets.now)) }
    ensures few { result.count ≤ size + 8 * (end - at) }
    ensures len { length memory.new.items ≡ length memory.old.items }
    ensures capacity { vec_capacity memory.new ≡ vec_capacity memory.old }
{
    take_into(octets, at, end, scan, memory.as_mut_slice(), size)
}

/// The place up to which octets can be taken at once: there is room for all of their bits behind so many.
fn room_until(at: usize, end: usize, size: usize) -> usize
    requires at { at ≤ end }
    requires size { size ≤ 32831 }
    ensures low { at ≤ result }
    ensures high { result ≤ end }
    ensures few { size + 8 * (result - at) ≤ 32831 }
{
    let most = (HELD - size) / 8;
    if end - at < most { end } else { at + most }
}

impl Deframer {
    /// Whether an octet here can be of a content, and there is room for its bits.
    fn is_in_content(&self) -> bool
        ensures opened { result ≡ true → self.now.scan.is_open ≡ true }
        ensures going { result ≡ true → self.now.scan.is_aborted ≡ false }
        ensures room { result ≡ true → length self.now.kept ≤ 32823 }
    {
        self.scan.is_open && !self.scan.is_aborted && self.kept.len() <= HELD - 8
    }

    /// Takes whole octets of a content, by places of bits, from `at` on, none from `end` on. Answers the place behind
    /// them. It is `at` where no octet begins there.
    pub(crate) fn take_content(&mut self, octets: &[u8], at: usize, end: usize) -> usize
        requires at { at ≤ end }
        requires end { end ≤ 8 * length octets.now }
        ensures low { at ≤ result }
        ensures high { result ≤ end }
        ensures fits { (v : Seen) → FitsSeen self.old v
            → FitsSeen self.new (seen_from v (part at result (bits_of octets.now))) }
        ensures found { (v : Seen) → FitsSeen self.old v → found_from v (part at result (bits_of octets.now)) ≡ [] }
    {
        if at % 8 != 0 {
            return at;
        }
        if !self.is_in_content() {
            return at;
        }
        let until = room_until(at / 8, end / 8, self.kept.len());
        let taken = self.kept.take_whole(octets, at / 8, until, self.scan);
        self.scan = self.scan.behind_octets(taken);
        8 * taken.end
    }
}
