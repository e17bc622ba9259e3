//! An idle line: octets that leave all as it is, one after another.
ghost use Rattle.std.specs.Prelude.{◌≡◌, ◌-◌, ◌*◌, ◌≤◌, true, false, [], min, length, IfSome, OnSome};
ghost use Rattle.x25_bits.specs.FrameCheck.{bits_of, low_bits};
ghost use Rattle.x25_bits.specs.code.FitsSeen.{FitsSeen};
ghost use Rattle.x25_bits.specs.code.Held.{Seen, seen_from, found_from};
ghost use Rattle.x25_bits.specs.code.Reading.{part};

use crate::deframer::Deframer;

/// The octets of a line of flags, by how many bits of a flag came before each.
static FLAGS: [u8; 8] = [0x7E, 0x3F, 0x9F, 0xCF, 0xE7, 0xF3, 0xF9, 0xFC];

/// Behind seven 1 bits an octet of them leaves all as it is.
const ONES: u8 = 0xFF;

/// The most bits of a flag that are kept: its sixth 1 isn't.
const KEPT: usize = 6;

impl Deframer {
    /// How many bits of a flag have come behind a flag, where nothing else has.
    fn begun(&self) -> Option<usize>
        ensures few { IfSome result (λ count. count ≤ 7) }
        ensures opened { OnSome result (self.now.scan.is_open ≡ true) }
        ensures going { OnSome result (self.now.scan.is_aborted ≡ false) }
        ensures plain { OnSome result (self.now.scan.is_inserted ≡ false) }
        ensures run { IfSome result (λ count. self.now.scan.run ≡ count - 1) }
        ensures kept { IfSome result (λ count. self.now.kept ≡ low_bits (min count 6) 126) }
    {
        if self.kept.len() > KEPT {
            return None;
        }
        if !self.scan.is_open {
            return None;
        }
        if self.scan.is_aborted {
            return None;
        }
        if self.scan.is_inserted {
            return None;
        }
        if self.scan.run > 6 {
            return None;
        }
        if self.kept.len() == 0 {
            return none_begun(self.scan.run);
        }
        let count = self.scan.run as usize + 1;
        if self.kept.len() != usize::min(count, KEPT) {
            return None;
        }
        if !self.kept.is_low_of(FLAGS[0]) {
            return None;
        }
        Some(count)
    }

    /// The octet that leaves all as it is, where there is one: of flags behind a flag, or of 1 bits behind seven.
    fn idle_octet(&self) -> Option<u8>
        ensures seen { IfSome result (λ octet. (v : Seen) → FitsSeen self.now v → seen_from v (low_bits 8 octet) ≡ v) }
        ensures found { IfSome result (λ octet. (v : Seen) → FitsSeen self.now v
            → found_from v (low_bits 8 octet) ≡ []) }
    {
        if self.scan.run == 7 {
            return Some(ONES);
        }
        let Some(count) = self.begun() else {
            return None;
        };
        Some(FLAGS[count])
    }

    /// The place behind the octets from `at` on, none from `end` on, that leave all as it is.
    pub(crate) fn idle_until(&self, octets: &[u8], at: usize, end: usize) -> usize
        requires at { at ≤ end }
        requires end { end ≤ length octets.now }
        ensures low { at ≤ result }
        ensures high { result ≤ end }
        ensures seen { (v : Seen) → FitsSeen self.now v
            → seen_from v (part (8 * at) (8 * result) (bits_of octets.now)) ≡ v }
        ensures found { (v : Seen) → FitsSeen self.now v
            → found_from v (part (8 * at) (8 * result) (bits_of octets.now)) ≡ [] }
    {
        let Some(octet) = self.idle_octet() else {
            return at;
        };
        let mut place = at;
        while place < end {
            if octets[place] != octet {
                return place;
            }
            place += 1;
        }
        end
    }

    /// The same by places of bits. It is `at` where no octet begins there.
    pub(crate) fn idle_bits_until(&self, octets: &[u8], at: usize, end: usize) -> usize
        requires at { at ≤ end }
        requires end { end ≤ 8 * length octets.now }
        ensures low { at ≤ result }
        ensures high { result ≤ end }
        ensures seen { (v : Seen) → FitsSeen self.now v → seen_from v (part at result (bits_of octets.now)) ≡ v }
        ensures found { (v : Seen) → FitsSeen self.now v → found_from v (part at result (bits_of octets.now)) ≡ [] }
    {
        if at % 8 != 0 {
            return at;
        }
        8 * self.idle_until(octets, at / 8, end / 8)
    }
}

/// No bits of a flag have begun, where no 1 bits stand at the end.
fn none_begun(run: u8) -> Option<usize>
    ensures none { IfSome result (λ count. count ≡ 0) }
    ensures run { OnSome result (run ≡ 0) }
{
    if run != 0 {
        return None;
    }
    Some(0)
}
