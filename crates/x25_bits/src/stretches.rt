//! Some bits of one octet that are taken at once: from behind a flag to the octet's end, or up to a flag's last 0.
ghost use Rattle.std.specs.Prelude.{◌≡◌, ◌+◌, ◌-◌, ◌*◌, ◌%◌, ◌/◌, ◌^◌, ◌<◌, ◌≤◌, true, false, length, IfSome, OnSome};
ghost use Rattle.x25_bits.specs.FrameCheck.{bits_of};
ghost use Rattle.x25_bits.specs.Passing.{Passes};
ghost use Rattle.x25_bits.specs.code.Reading.{part};

use crate::deframer::{Deframer, HELD};
use crate::passing::{MOST_ONES, Passed, pass_octet};
use crate::scan::Scan;

/// A flag's bits, the first the lowest.
const FLAG: u8 = 0x7E;

/// What bits leave that are taken at once, and the place behind them.
#[derive(Clone, Copy, Debug)]
pub struct Stretch {
    pub passed: Passed,
    pub end: usize,
}

/// What is left without so many 0 bits, which came first.
fn behind_zeros(passed: Passed, zeros: u8) -> Passed
    requires few { zeros ≤ passed.count }
    requires octet { zeros < 8 }
    ensures kept { result.kept ≡ passed.kept / 2 ^ zeros }
    ensures count { result.count ≡ passed.count - zeros }
    ensures run { result.run ≡ passed.run }
    ensures inserted { result.is_inserted ≡ passed.is_inserted }
{
    Passed {
        kept: passed.kept >> zeros,
        count: passed.count - zeros,
        run: passed.run,
        is_inserted: passed.is_inserted,
    }
}

/// The bits to an octet's end, behind a 0 that isn't an inserted one, as behind a flag.
fn rest_of(scan: Scan, octets: &[u8], place: usize, end: usize) -> Option<Stretch>
    requires place { place < 8 * length octets.now }
    requires end { place + (8 - place % 8) ≤ end }
    ensures passes { IfSome result (λ s. Passes s.passed scan.run scan.is_inserted
        (part place s.end (bits_of octets.now))) }
    ensures size { IfSome result (λ s. s.passed.count ≤ 8) }
    ensures low { IfSome result (λ s. place < s.end) }
    ensures high { IfSome result (λ s. s.end ≤ end) }
{
    if scan.run != 0 {
        return None;
    }
    if scan.is_inserted {
        return None;
    }
    let low = place % 8;
    let Some(passed) = pass_octet(0, octets[place / 8] >> low << low) else {
        return None;
    };
    Some(Stretch {
        passed: behind_zeros(passed, low as u8),
        end: place + (8 - low),
    })
}

/// The bits of an octet up to a flag's last 0, where the flag ends in it.
fn up_to_flag(scan: Scan, octets: &[u8], place: usize, end: usize) -> Option<Stretch>
    requires first { place % 8 ≡ 0 }
    requires place { place < 8 * length octets.now }
    requires end { place + 8 ≤ end }
    ensures passes { IfSome result (λ s. Passes s.passed scan.run scan.is_inserted
        (part place s.end (bits_of octets.now))) }
    ensures size { IfSome result (λ s. s.passed.count ≤ 8) }
    ensures low { IfSome result (λ s. place < s.end) }
    ensures high { IfSome result (λ s. s.end ≤ end) }
{
    let run = scan.run;
    if run > MOST_ONES {
        return None;
    }
    let octet = octets[place / 8];
    if octet << (run + 2) == 0xFCu8 << run {
        return Some(Stretch {
            passed: Passed {
                kept: 31u8 >> run,
                count: 5 - run,
                run: 6,
                is_inserted: scan.is_inserted,
            },
            end: place + (6 - run) as usize,
        });
    }
    if octet != FLAG {
        return None;
    }
    if run == 5 {
        return None;
    }
    Some(Stretch {
        passed: Passed {
            kept: 62,
            count: 6,
            run: 6,
            is_inserted: false,
        },
        end: place + 7,
    })
}

impl Deframer {
    /// Bits from this place on, all of one octet, that are taken at once.
    pub(crate) fn stretch_at(&self, octets: &[u8], place: usize, end: usize) -> Option<Stretch>
        requires place { place < end }
        requires end { end ≤ 8 * length octets.now }
        ensures passes { IfSome result (λ s. Passes s.passed self.now.scan.run self.now.scan.is_inserted
            (part place s.end (bits_of octets.now))) }
        ensures size { IfSome result (λ s. s.passed.count ≤ 8) }
        ensures opened { OnSome result (self.now.scan.is_open ≡ true) }
        ensures going { OnSome result (self.now.scan.is_aborted ≡ false) }
        ensures room { OnSome result (length self.now.kept ≤ 32823) }
        ensures low { IfSome result (λ s. place < s.end) }
        ensures high { IfSome result (λ s. s.end ≤ end) }
    {
        if !self.scan.is_open {
            return None;
        }
        if self.scan.is_aborted {
            return None;
        }
        if self.kept.len() > HELD - 8 {
            return None;
        }
        if end - place < 8 - place % 8 {
            return None;
        }
        if place % 8 == 0 {
            up_to_flag(self.scan, octets, place, end)
        } else {
            rest_of(self.scan, octets, place, end)
        }
    }
}
