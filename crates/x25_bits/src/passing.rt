//! Bits in which no flag ends and no seventh 1 bit comes: what an octet's leave is looked up.
ghost use Rattle.std.specs.Prelude.{Bool, ◌≡◌, ◌<◌, ◌≤◌, ◌^◌, ◌++◌, ◌+◌, ◌*◌, ◌/◌, ◌==◌, if◌then◌else◌, length, IfSome};
ghost use Rattle.x25_bits.specs.FrameCheck.{low_bits};
ghost use Rattle.x25_bits.specs.Passing.{Passes};

use crate::deframer::Deframer;
use crate::octet_table::{ENTRIES, SPECIAL};

/// The most 1 bits before an octet that is looked up. Behind six of them no bit passes.
pub(crate) const MOST_ONES: u8 = 5;

/// What bits leave in which no flag ends and no seventh 1 bit comes.
#[derive(Clone, Copy, Debug)]
pub struct Passed {
    /// The bits that are kept, the first the lowest.
    pub kept: u8,
    /// How many they are.
    pub count: u8,
    /// The 1 bits at the end.
    pub run: u8,
    /// The last 0 stood behind five 1 bits.
    pub is_inserted: bool,
}

/// What an octet's bits leave behind `run` 1 bits, the lowest bit first.
pub fn pass_octet(run: u8, octet: u8) -> Option<Passed>
    ensures passes { IfSome result (λ passed. (was : Bool) → Passes passed run was (low_bits 8 octet)) }
    ensures few { IfSome result (λ passed. passed.count ≤ 8) }
{
    if run > MOST_ONES {
        return None;
    }
    let entry = ENTRIES[run as usize * 256 + octet as usize];
    let ones = (entry / 4096 % 8) as u8;
    if ones == SPECIAL {
        return None;
    }
    Some(Passed {
        kept: (entry % 256) as u8,
        count: (entry / 256 % 16) as u8,
        run: ones,
        is_inserted: entry / 32_768 == 1,
    })
}

impl Deframer {
    /// Keeps what these bits leave.
    pub(crate) fn keep_passed(&mut self, passed: Passed)
        requires size { passed.count ≤ 8 }
        requires room { length self.old.kept ≤ 32823 }
        ensures kept { self.new.kept ≡ self.old.kept ++ low_bits passed.count passed.kept }
        ensures run { self.new.scan.run ≡ passed.run }
        ensures opened { self.new.scan.is_open ≡ self.old.scan.is_open }
        ensures aborted { self.new.scan.is_aborted ≡ self.old.scan.is_aborted }
        ensures inserted { self.new.scan.is_inserted ≡ passed.is_inserted }
    {
        self.kept.append(passed.kept, passed.count);
        self.scan = self.scan.behind(passed);
    }
}
