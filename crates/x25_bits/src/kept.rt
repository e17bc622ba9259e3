//! The bits that are kept between flags, in memory that was set aside for all of them.
ghost use Rattle.std.specs.Prelude.{◌≡◌, ◌+◌, ◌-◌, ◌*◌, ◌<◌, ◌≤◌, ◌++◌, ◌∷◌, [], true, length, IfOk};
ghost use Rattle.std.specs.Prelude.{vec_len, vec_capacity};
ghost use Rattle.x25_bits.specs.FrameCheck.{bits_of, low_bits};
ghost use Rattle.x25_bits.specs.Passing.{PassesOn, kept_from};
ghost use Rattle.x25_bits.specs.Found.{octets_of};
ghost use Rattle.x25_bits.specs.code.Reading.{part};

use crate::bits::{set_bit, set_octet, whole_octets};
use crate::contents::{Taken, take_whole};
use crate::no_memory::NoMemory;
use crate::scan::Scan;
use std::alloc::{AllocError, Global};
use std::marker::Model;

/// The octets that 32,832 bits fill.
const ROOM: usize = 4104;

/// A list of at most 32,832 bits, kept eight in an octet, in memory for all of them and no more.
#[derive(Debug, Drop)]
pub struct Kept {
    octets: Vec<u8>,
    count: usize,
}

impl Model for Kept {
    ghost use Rattle.std.specs.Prelude.{◌≡◌, ◌≤◌, Bool, List, length, take, vec_capacity};
    ghost use Rattle.x25_bits.specs.FrameCheck.{bits_of};

    ghost Value = { List Bool };

    ghost view = { λ k. take k.count (bits_of k.octets.items) };

    ghost invariant = { λ k. (k.count ≤ 32832) × (length k.octets.items ≡ 4104) × (vec_capacity k.octets ≡ 4104) };
}

// 4,104 octets, in memory for them and no more. What std fills by itself may take more.
fn blank_octets(alloc: Global) -> Result<Vec<u8>, AllocError>
    ensures places { IfOk result (λ octets. vec_len octets ≡ 4104) }
    ensures room { IfOk result (λ octets. vec_capacity octets ≡ 4104) }
{
    let mut octets = Vec::with_capacity(alloc, ROOM)?;
    for _place in 0..ROOM {
        octets.push_reserved(0u8);
    }
    Ok(octets)
}

impl Kept {
    /// No bits, and 4,104 octets of memory. Error 70 where there are none.
    pub fn new(alloc: Global) -> Result<Kept, NoMemory>
        ensures { IfOk result (λ kept. kept ≡ []) }
    {
        Ok(Kept {
            octets: blank_octets(alloc)?,
            count: 0,
        })
    }

    /// Appends a bit.
    #[tactic(auto, using(crate::proofs::KeepingLemmas::count_of))]
    pub fn push(&mut self, bit: bool)
        requires { length self.old < 32832 }
        ensures { self.new ≡ self.old ++ bit ∷ [] }
    {
        set_bit(&mut self.octets, self.count, bit);
        self.count += 1;
    }

    /// Appends the lowest `size` bits of an octet.
    pub fn append(&mut self, octet: u8, size: u8)
        requires size { size ≤ 8 }
        requires few { length self.old ≤ 32823 }
        ensures { self.new ≡ self.old ++ low_bits size octet }
    {
        set_octet(&mut self.octets, self.count, octet);
        self.count += size as usize;
    }

    /// Appends what is kept of octets' bits, from the place `at` on, none from `end` on.
    pub(crate) fn take_whole(&mut self, octets: &[u8], at: usize, end: usize, scan: Scan) -> Taken
        requires at { at ≤ end }
        requires end { end ≤ length octets.now }
        requires few { length self.old + 8 * (end - at) ≤ 32831 }
        ensures low { at ≤ result.end }
        ensures high { result.end ≤ end }
        ensures passes { PassesOn result.run result.is_inserted scan.run scan.is_inserted
            (part (8 * at) (8 * result.end) (bits_of octets.now)) }
        ensures bits { self.new ≡ self.old ++ kept_from scan.run (part (8 * at) (8 * result.end) (bits_of octets.now)) }
        ensures few { length self.new ≤ 32831 }
    {
        let taken = take_whole(octets, at, end, scan, &mut self.octets, self.count);
        self.count = taken.count;
        taken
    }

    /// The number of bits.
    pub fn len(&self) -> usize
        ensures { result ≡ length self.now }
    {
        self.count
    }

    /// Whether these bits, fewer than eight, are the lowest of an octet.
    pub fn is_low_of(&self, octet: u8) -> bool
        requires { length self.now < 8 }
        ensures { result ≡ true → self.now ≡ low_bits (length self.now) octet }
    {
        if self.count == 0 {
            return true;
        }
        let weight = 1u8 << self.count;
        self.octets[0] % weight == octet % weight
    }

    /// Drops all bits.
    pub fn clear(&mut self)
        ensures { self.new ≡ [] }
    {
        self.count = 0;
    }

    /// The whole octets of the bits, each lowest bit first.
    pub fn whole_octets(&self) -> &[u8]
        ensures { result.now ≡ octets_of self.now }
    {
        whole_octets(self.octets.as_slice(), self.count)
    }
}
