ghost use Rattle.std.specs.Prelude.{◌≡◌, ◌==◌, ◌&&◌, ◌||◌, not, if◌then◌else◌};
ghost use Rattle.x25_bits.specs.code.Held.{up, keeps};

use crate::contents::Taken;
use crate::passing::Passed;

/// What the bits so far say, beside those that are kept.
#[derive(Clone, Copy, Debug)]
pub struct Scan {
    /// The 1 bits at the end. Seven stand for more, or for no 0 so far.
    pub run: u8,
    /// A flag has come.
    pub is_open: bool,
    /// Since then seven 1 bits in a row.
    pub is_aborted: bool,
    /// The last 0 stood behind five 1 bits.
    pub is_inserted: bool,
}

impl Scan {
    /// Before any bit.
    pub const START: Scan = Scan {
        run: 7,
        is_open: false,
        is_aborted: false,
        is_inserted: false,
    };

    /// Behind a flag.
    pub const OPEN: Scan = Scan {
        run: 0,
        is_open: true,
        is_aborted: false,
        is_inserted: false,
    };

    /// Whether this bit ends a flag.
    pub fn ends(self, bit: bool) -> bool
        ensures { result ≡ (not bit && self.run == 6) }
    {
        !bit && self.run == 6
    }

    /// Whether this bit can be content: it is no inserted 0, no sixth 1 and nothing behind seven.
    pub fn keeps(self, bit: bool) -> bool
        ensures { result ≡ keeps self.run bit }
    {
        if bit {
            self.run < 5
        } else {
            self.run != 5 && self.run != 7
        }
    }

    /// After a bit that ends no flag.
    pub fn next(self, bit: bool) -> Scan
        ensures run { result.run ≡ up self.run bit }
        ensures open { result.is_open ≡ self.is_open }
        ensures aborted { result.is_aborted ≡ (self.is_aborted || (bit && self.run == 6)) }
        ensures inserted { result.is_inserted ≡ (if bit then self.is_inserted else self.run == 5) }
    {
        Scan {
            run: up(self.run, bit),
            is_open: self.is_open,
            is_aborted: aborts(self, bit),
            is_inserted: inserts(self, bit),
        }
    }

    /// After bits in which no flag ends and no seventh 1 bit comes.
    pub fn behind(self, passed: Passed) -> Scan
        ensures run { result.run ≡ passed.run }
        ensures opened { result.is_open ≡ self.is_open }
        ensures aborted { result.is_aborted ≡ self.is_aborted }
        ensures inserted { result.is_inserted ≡ passed.is_inserted }
    {
        Scan {
            run: passed.run,
            is_open: self.is_open,
            is_aborted: self.is_aborted,
            is_inserted: passed.is_inserted,
        }
    }

    /// After whole octets of a content.
    pub fn behind_octets(self, taken: Taken) -> Scan
        ensures run { result.run ≡ taken.run }
        ensures opened { result.is_open ≡ self.is_open }
        ensures aborted { result.is_aborted ≡ self.is_aborted }
        ensures inserted { result.is_inserted ≡ taken.is_inserted }
    {
        Scan {
            run: taken.run,
            is_open: self.is_open,
            is_aborted: self.is_aborted,
            is_inserted: taken.is_inserted,
        }
    }
}

/// The 1 bits at the end after one more bit.
fn up(run: u8, bit: bool) -> u8
    ensures { result ≡ up run bit }
{
    if !bit {
        0
    } else if run < 7 {
        run + 1
    } else {
        run
    }
}

fn aborts(scan: Scan, bit: bool) -> bool
    ensures { result ≡ (scan.is_aborted || (bit && scan.run == 6)) }
{
    scan.is_aborted || bit && scan.run == 6
}

fn inserts(scan: Scan, bit: bool) -> bool
    ensures { result ≡ (if bit then scan.is_inserted else scan.run == 5) }
{
    if bit { scan.is_inserted } else { scan.run == 5 }
}
