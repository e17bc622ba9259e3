//! Some bits of one octet of which nothing is kept: a flag but its last 0 outside of a content, and seven 1 bits behind
//! a flag.
ghost use Rattle.std.specs.Prelude.{◌≡◌, ◌+◌, ◌*◌, ◌%◌, ◌/◌, ◌<◌, ◌≤◌, true, false, length, IfSome};
ghost use Rattle.x25_bits.specs.code.Skips.{PassesOver};

use crate::deframer::Deframer;
use crate::scan::Scan;

/// A flag's bits, the first the lowest.
const FLAG: u8 = 0x7E;

/// The seven 1 bits behind a flag's last 0.
const SEVEN: u8 = 0x7F;

/// The scan behind bits of which nothing is kept, and the place behind them.
#[derive(Clone, Copy, Debug)]
pub struct Skipped {
    pub scan: Scan,
    pub end: usize,
}

impl Deframer {
    /// Bits from this place on, all of one octet, of which nothing is kept.
    pub(crate) fn skip_at(&self, octets: &[u8], place: usize, end: usize) -> Option<Skipped>
        requires place { place < end }
        requires end { end ≤ 8 * length octets.now }
        ensures { IfSome result (λ s. PassesOver self.now octets.now place end s) }
    {
        if !self.scan.is_open {
            return None;
        }
        if self.scan.is_aborted {
            return self.flag_at(octets, place, end);
        }
        self.seven_at(octets, place, end)
    }

    /// The first seven bits of a flag, behind seven 1 bits.
    fn flag_at(&self, octets: &[u8], place: usize, end: usize) -> Option<Skipped>
        requires place { place < end }
        requires end { end ≤ 8 * length octets.now }
        requires opened { self.now.scan.is_open ≡ true }
        requires aborted { self.now.scan.is_aborted ≡ true }
        ensures { IfSome result (λ s. PassesOver self.now octets.now place end s) }
    {
        if place % 8 != 0 {
            return None;
        }
        if end - place < 8 {
            return None;
        }
        if self.scan.run != 7 {
            return None;
        }
        let octet = octets[place / 8];
        if octet != FLAG {
            return None;
        }
        Some(Skipped {
            scan: Scan {
                run: 6,
                is_open: true,
                is_aborted: true,
                is_inserted: false,
            },
            end: place + 7,
        })
    }

    /// Seven 1 bits behind a flag that ends with an octet's first bit.
    fn seven_at(&self, octets: &[u8], place: usize, end: usize) -> Option<Skipped>
        requires place { place < end }
        requires end { end ≤ 8 * length octets.now }
        requires opened { self.now.scan.is_open ≡ true }
        requires going { self.now.scan.is_aborted ≡ false }
        ensures { IfSome result (λ s. PassesOver self.now octets.now place end s) }
    {
        if place % 8 != 1 {
            return None;
        }
        if end - place < 7 {
            return None;
        }
        if self.scan.run != 0 {
            return None;
        }
        let ones = octets[place / 8] / 2;
        if ones != SEVEN {
            return None;
        }
        Some(Skipped {
            scan: Scan {
                run: 7,
                is_open: true,
                is_aborted: true,
                is_inserted: false,
            },
            end: place + 7,
        })
    }

    /// Goes on with this scan.
    pub(crate) fn skip(&mut self, scan: Scan)
        ensures scan { self.new.scan ≡ scan }
        ensures kept { self.new.kept ≡ self.old.kept }
        ensures last { self.new.last ≡ self.old.last }
    {
        self.scan = scan;
    }
}
