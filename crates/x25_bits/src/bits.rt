ghost use Rattle.std.specs.Prelude.{ℕ, ◌≡◌, ◌+◌, ◌*◌, ◌/◌, ◌%◌, ◌^◌, ◌<◌, ◌≤◌, ◌++◌, ◌∷◌, [], ◌==◌, ◌↔◌, Bool, List};
ghost use Rattle.std.specs.Prelude.{false, length, take, IsTrue, IfOk, OnOk, OnErr, slice_get, slice_index};
ghost use Rattle.std.specs.Prelude.{slice_index_or, vec_capacity};
ghost use Rattle.x25_bits.specs.code.Prefix.{IsPrefix};
ghost use Rattle.x25_bits.specs.FrameCheck.{bits_of, low_bits};
ghost use Rattle.x25_bits.specs.Found.{octets_by, octets_of};

use crate::no_memory::NoMemory;
use std::alloc::Global;
use std::marker::Model;

/// A list of bits, kept eight in an octet.
#[derive(Debug, Drop)]
pub struct Bits {
    octets: Vec<u8>,
    count: usize,
}

impl Model for Bits {
    ghost use Rattle.std.specs.Prelude.{◌≤◌, ◌*◌, Bool, List, length, take};
    ghost use Rattle.x25_bits.specs.FrameCheck.{bits_of};

    ghost Value = { List Bool };

    ghost view = { λ b. take b.count (bits_of b.octets.items) };

    ghost invariant = { λ b. b.count ≤ 8 * length b.octets.items };
}

impl Bits {
    /// No bits.
    pub fn new(alloc: Global) -> Bits
        ensures { result ≡ [] }
    {
        Bits {
            octets: Vec::new(alloc),
            count: 0,
        }
    }

    /// No bits, in memory for so many octets. Error 70 where there is none.
    pub(crate) fn with_room(alloc: Global, octets: usize) -> Result<Bits, NoMemory>
        ensures { IfOk result (λ bits. bits ≡ []) }
    {
        let octets = vec![in alloc; 0u8; octets]?;
        Ok(Bits { octets, count: 0 })
    }

    /// Appends a bit. Error 70 where there is no memory for it, or as many as `usize::MAX` bits are there.
    pub fn push(&mut self, bit: bool) -> Result<(), NoMemory>
        ensures ok { OnOk result (self.new ≡ self.old ++ bit ∷ []) }
        ensures err { OnErr result (self.new ≡ self.old) }
    {
        let Some(count) = self.count.checked_add(1) else {
            return Err(NoMemory);
        };
        write_bit(&mut self.octets, self.count, bit)?;
        self.count = count;
        Ok(())
    }

    /// Appends the lowest `count` bits of an octet. Error 70 as for `push`.
    pub(crate) fn append(&mut self, octet: u8, count: u8) -> Result<(), NoMemory>
        requires { count ≤ 8 }
        ensures ok { OnOk result (self.new ≡ self.old ++ low_bits count octet) }
        ensures err { OnErr result (self.new ≡ self.old) }
    {
        let Some(after) = self.count.checked_add(count as usize) else {
            return Err(NoMemory);
        };
        grow(&mut self.octets, self.count / 8 + 2)?;
        set_octet(&mut self.octets, self.count, octet);
        self.count = after;
        Ok(())
    }

    /// The number of bits.
    pub fn len(&self) -> usize
        ensures { result ≡ length self.now }
    {
        self.count
    }

    /// Whether there is no bit.
    pub fn is_empty(&self) -> bool
        ensures { IsTrue result ↔ (self.now ≡ []) }
    {
        self.count == 0
    }

    /// The bit at a place, counted from 0, where there is one.
    pub fn get(&self, place: usize) -> Option<bool>
        ensures { result ≡ slice_get self.now place }
    {
        if place < self.len() {
            Some(self.bit(place))
        } else {
            None
        }
    }

    /// The allocator that the bits have.
    pub(crate) fn alloc(&self) -> Global {
        *self.octets.allocator()
    }

    /// Octets whose bits begin with these.
    pub(crate) fn octets(&self) -> &[u8]
        ensures bits { take (length self.now) (bits_of result.now) ≡ self.now }
        ensures len { length self.now ≤ 8 * length result.now }
    {
        self.octets.as_slice()
    }

    /// The bit at a place.
    pub(crate) fn bit(&self, place: usize) -> bool
        requires { place < length self.now }
        ensures { result ≡ slice_index_or self.now place false }
    {
        read_bit(self.octets.as_slice(), place)
    }

    /// Drops all bits but the first `count`.
    pub(crate) fn truncate(&mut self, count: usize)
        requires { count ≤ length self.old }
        ensures { self.new ≡ take count self.old }
    {
        self.count = count;
    }

    /// The whole octets of the bits, each lowest bit first.
    pub(crate) fn whole_octets(&self) -> &[u8]
        ensures { result.now ≡ octets_of self.now }
    {
        whole_octets(self.octets.as_slice(), self.count)
    }
}

/// The octet whose lowest `size` bits are those of this one, with a bit behind them.
fn with_bit(octet: u8, size: usize, bit: bool) -> u8
    requires { size < 8 }
    ensures { low_bits (size + 1) result ≡ low_bits size octet ++ bit ∷ [] }
{
    let weight = 1u8 << size;
    let below = octet % weight;
    if bit { below + weight } else { below }
}

/// Writes a bit behind the first `place` bits of the octets, which grow where all of their bits come before.
pub(crate) fn write_bit(octets: &mut Vec<u8>, place: usize, bit: bool) -> Result<(), NoMemory>
    requires { place ≤ 8 * length octets.old.items }
    ensures ok { OnOk result (take (place + 1) (bits_of octets.new.items) ≡ take place (bits_of octets.old.items)
        ++ bit ∷ []) }
    ensures room { OnOk result (place + 1 ≤ 8 * length octets.new.items) }
    ensures grows { length octets.old.items ≤ length octets.new.items }
    ensures err { OnErr result (octets.new.items ≡ octets.old.items) }
{
    let at = place / 8;
    if at == octets.len() {
        octets.push(u8::from(bit))?;
        return Ok(());
    }
    set_bit(octets, place, bit);
    Ok(())
}

/// Writes a bit behind the first `place` bits of the octets, of which there are more.
pub(crate) fn set_bit(octets: &mut Vec<u8>, place: usize, bit: bool)
    requires { place < 8 * length octets.old.items }
    ensures bits { take (place + 1) (bits_of octets.new.items) ≡ take place (bits_of octets.old.items) ++ bit ∷ [] }
    ensures len { length octets.new.items ≡ length octets.old.items }
    ensures capacity { vec_capacity octets.new ≡ vec_capacity octets.old }
{
    let at = place / 8;
    octets[at] = with_bit(octets[at], place % 8, bit);
}

/// The lowest `size` bits of an octet, and those of another one behind them.
fn behind(octet: u8, size: usize, next: u8) -> u16
    requires { size < 8 }
    ensures { result ≡ octet % 2 ^ size + next * 2 ^ size }
{
    (octet % (1u8 << size)) as u16 + ((next as u16) << size)
}

/// Writes the bits of an octet behind the first `place` bits of the octets, of which one more stands behind that
/// place's.
pub(crate) fn write_octet(octets: &mut [u8], place: usize, octet: u8)
    requires { place / 8 + 1 < length octets.old }
    ensures bits { (count : ℕ) → count ≤ 8 → take (place + count) (bits_of octets.new) ≡ take place (bits_of octets.old)
        ++ low_bits count octet }
    ensures len { length octets.new ≡ length octets.old }
{
    let at = place / 8;
    let both = behind(octets[at], place % 8, octet);
    octets[at] = (both % 256) as u8;
    octets[at + 1] = (both / 256) as u8;
}

/// The same of a vector's.
pub(crate) fn set_octet(octets: &mut Vec<u8>, place: usize, octet: u8)
    requires { place / 8 + 1 < length octets.old.items }
    ensures bits { (count : ℕ) → count ≤ 8
        → take (place + count) (bits_of octets.new.items) ≡ take place (bits_of octets.old.items)
        ++ low_bits count octet }
    ensures len { length octets.new.items ≡ length octets.old.items }
    ensures capacity { vec_capacity octets.new ≡ vec_capacity octets.old }
{
    write_octet(octets.as_mut_slice(), place, octet);
}

/// Puts octets of 0 behind these, up to so many in all.
pub(crate) fn grow(octets: &mut Vec<u8>, count: usize) -> Result<(), NoMemory>
    ensures room { OnOk result (count ≤ length octets.new.items) }
    ensures begins { IsPrefix octets.old.items octets.new.items }
{
    for _ in octets.len()..count {
        octets.push(0)?;
    }
    Ok(())
}

/// The bit at a place of the octets' bits.
pub(crate) fn read_bit(octets: &[u8], place: usize) -> bool
    requires { place < 8 * length octets.now }
    ensures { result ≡ slice_index_or (bits_of octets.now) place false }
{
    octets[place / 8] >> (place % 8) & 1 == 1
}

/// The octets that the first `count` bits fill.
pub(crate) fn whole_octets(octets: &[u8], count: usize) -> &[u8]
    requires { count ≤ 8 * length octets.now }
    ensures { result.now ≡ octets_by (count / 8) (take count (bits_of octets.now)) }
{
    &octets[..count / 8]
}
