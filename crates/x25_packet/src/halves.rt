//! The half octets of an address with its type and plan.
ghost use Rattle.std.specs.Prelude.{◌≡◌, ◌≤◌, ◌<◌, ◌+◌, ◌*◌, drop, length, slice_index};
ghost use Rattle.x25_packet.specs.Digits.{halves_at};

use std::marker::Model;

/// The half octets of an address, at most 255. Contracts see the list of them.
#[derive(Debug, Drop)]
pub struct Halves<'a> {
    octets: &'a [u8],
    start: usize,
    count: usize,
}

impl<'a> Model for Halves<'a> {
    ghost use Rattle.std.specs.Prelude.{ℕ, List, ◌≤◌, ◌+◌, ◌*◌, length};
    ghost use Rattle.x25_packet.specs.Digits.{halves_at};

    ghost Value = { List ℕ };

    ghost view = { λ h. halves_at h.octets.now h.start h.count };

    ghost invariant = { λ h. (h.count ≤ 255) × (h.start + h.count ≤ 2 * length h.octets.now) };
}

impl<'a> Halves<'a> {
    /// The `count` half octets from the half octet `start` on, as far as they are there.
    pub(crate) fn of(octets: &'a [u8], start: usize, count: u8) -> Halves<'a>
        ensures { result ≡ halves_at octets.now start count }
    {
        let end = 2 * octets.len();
        let start = start.min(end);
        Halves {
            octets,
            start,
            count: usize::from(count).min(end - start),
        }
    }

    /// How many half octets there are.
    pub fn len(&self) -> usize
        ensures number { result ≡ length self.now }
        ensures few { result ≤ 255 }
    {
        self.count
    }

    /// The half octets behind the first `count`.
    pub fn behind(&self, count: u8) -> Halves<'a>
        requires { count ≤ length self.now }
        ensures { result ≡ drop count self.now }
    {
        Halves {
            octets: self.octets,
            start: self.start + usize::from(count),
            count: self.count - usize::from(count),
        }
    }

    /// The octets that hold them, and how many half octets stand in these before the first: 0 or 1.
    pub fn octets(&self) -> (&'a [u8], usize)
        ensures held { halves_at result.0.now result.1 (length self.now) ≡ self.now }
        ensures before { result.1 ≤ 1 }
        ensures room { result.1 + length self.now ≤ 2 * length result.0.now }
        ensures few { 2 * length result.0.now ≤ length self.now + 2 }
    {
        let end = (self.start + self.count + 1) / 2;
        (&self.octets[self.start / 2..end], self.start % 2)
    }

    /// The half octet at a place, 0 to 15. The first is at place 0.
    pub fn get(&self, place: usize) -> u8
        requires { place < length self.now }
        ensures value { result ≡ slice_index self.now place }
        ensures small { result < 16 }
    {
        let place = self.start + place;
        let octet = self.octets[place / 2];
        if place % 2 == 0 {
            octet / 16
        } else {
            octet % 16
        }
    }
}
