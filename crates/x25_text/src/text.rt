//! A text that waits to be written.
ghost use Rattle.std.specs.Prelude.{◌≡◌, ◌↔◌, ◌+◌, ◌*◌, ◌≤◌, ◌<◌, ◌++◌, [], ◌∷◌, ℕ, List, IfOk, OnOk, OnErr, IsTrue};
ghost use Rattle.std.specs.Prelude.{length, max, take, replicate, decimal, vec_len, vec_capacity};
ghost use Rattle.std.specs.List.{flat_map};
ghost use Rattle.x25_frame.specs.Spelling.{bit};
ghost use Rattle.x25_text.specs.Text.{octet_text, octets_text};
ghost use Rattle.x25_text.specs.declared.text.TheConstants.{MOST_ROOM, ROOM};

use crate::hexadecimal::write_hexadecimal;
use itoa::Buffer;
use std::alloc::{AllocError, Global};
use std::marker::Model;
use std::mem;
use x25_frame::Seq;

/// The characters that a text has room for at least.
pub const ROOM: usize = 65_536;

/// The characters that a text has room for at most.
pub const MOST_ROOM: usize = 262_144;

/// The most octets of a frame: with 4,099 octets of information, address, control and frame check sequence.
pub const MOST_OCTETS: usize = 4_103;

/// Characters, at the front of a buffer of `ROOM` of them or more, and of `MOST_ROOM` at most. No call takes memory but
/// `new` and those named `try_push`, which make it longer where it has no room.
#[derive(Drop)]
pub struct Text {
    buffer: Vec<u8>,
    count: usize,
}

impl Model for Text {
    ghost Value = { List ℕ };

    ghost view = { λ text. take text.count text.buffer.items };

    ghost invariant = { λ text. (ROOM ≤ length text.buffer.items) × (text.count ≤ length text.buffer.items)
        × (vec_capacity text.buffer ≤ MOST_ROOM) };
}

// What a buffer has, and behind it so many blank places, in memory that there is.
fn with_places(buffer: Vec<u8>, more: usize) -> Vec<u8>
    requires { vec_len buffer + more ≤ vec_capacity buffer }
    ensures items { result.items ≡ buffer.items ++ replicate more 0 }
    ensures len { vec_len result ≡ vec_len buffer + more }
    ensures capacity { vec_capacity result ≡ vec_capacity buffer }
{
    let mut places = buffer;
    for _place in 0..more {
        places.push_reserved(0);
    }
    places
}

/// Makes the buffer longer, so that `more` characters have room behind the first `count`, which stay. Err: no memory,
/// or these are more than `MOST_ROOM`.
#[cold]
fn grow(buffer: &mut Vec<u8>, count: usize, more: usize) -> Result<(), AllocError>
    requires held { count ≤ length buffer.old.items }
    requires short { length buffer.old.items ≤ count + more }
    requires few { vec_capacity buffer.old ≤ MOST_ROOM }
    ensures room { OnOk result (length buffer.new.items ≡ count + more) }
    ensures kept { take count buffer.new.items ≡ take count buffer.old.items }
    ensures few { vec_capacity buffer.new ≤ MOST_ROOM }
    ensures unchanged { OnErr result (buffer.new.items ≡ buffer.old.items) }
{
    let end = count.saturating_add(more);
    if end > MOST_ROOM {
        return Err(AllocError);
    }
    let missing = end - buffer.len();
    buffer.reserve_exact(missing)?;
    let none = Vec::new(*buffer.allocator());
    *buffer = with_places(mem::replace(buffer, none), missing);
    Ok(())
}

/// Makes room for `more` characters behind the first `count`, which stay.
#[inline(always)]
fn reserve(buffer: &mut Vec<u8>, count: usize, more: usize) -> Result<(), AllocError>
    requires held { count ≤ length buffer.old.items }
    requires few { vec_capacity buffer.old ≤ MOST_ROOM }
    ensures room { OnOk result (length buffer.new.items ≡ max (length buffer.old.items) (count + more)) }
    ensures kept { take count buffer.new.items ≡ take count buffer.old.items }
    ensures few { vec_capacity buffer.new ≤ MOST_ROOM }
    ensures unchanged { OnErr result (buffer.new.items ≡ buffer.old.items) }
{
    if more <= buffer.len() - count {
        return Ok(());
    }
    grow(buffer, count, more)
}

/// Puts characters behind the first `count`, and answers how many there are then.
fn put(buffer: &mut [u8], count: usize, characters: &[u8]) -> usize
    requires room { count + length characters.now ≤ length buffer.old }
    ensures text { take result buffer.new ≡ take count buffer.old ++ characters.now }
    ensures count { result ≡ count + length characters.now }
    ensures size { length buffer.new ≡ length buffer.old }
{
    let end = count + characters.len();
    buffer[count..end].copy_from_slice(characters);
    end
}

/// Puts octets as hexadecimal digits behind the first `count` characters, and answers how many there are then.
fn put_hexadecimal(buffer: &mut [u8], count: usize, octets: &[u8]) -> usize
    requires room { count + 2 * length octets.now ≤ length buffer.old }
    ensures text { take result buffer.new ≡ take count buffer.old ++ flat_map octet_text octets.now }
    ensures count { result ≡ count + 2 * length octets.now }
    ensures size { length buffer.new ≡ length buffer.old }
{
    let end = count + 2 * octets.len();
    write_hexadecimal(octets, &mut buffer[count..end]);
    end
}

/// A number of one digit as a character.
pub fn digit(number: u8) -> u8
    requires { number < 10 }
    ensures { decimal number ≡ result ∷ [] }
{
    b'0' + number
}

/// A bit as a character.
pub(crate) fn bit_digit(is_set: bool) -> u8
    ensures { decimal (bit is_set) ≡ result ∷ [] }
{
    digit(u8::from(is_set))
}

/// A sequence number as a character.
pub(crate) fn seq_digit(number: Seq) -> u8
    ensures { decimal number.number ≡ result ∷ [] }
{
    digit(number.get())
}

impl Text {
    /// No characters, in memory for `ROOM` of them. Err: no memory.
    pub fn new(alloc: Global) -> Result<Text, AllocError>
        ensures { IfOk result (λ text. text ≡ []) }
    {
        let buffer = with_places(Vec::with_capacity(alloc, ROOM)?, ROOM);
        Ok(Text { buffer, count: 0 })
    }

    /// The characters.
    pub fn as_slice(&self) -> &[u8]
        ensures { result.now ≡ self.now }
    {
        &self.buffer[..self.count]
    }

    /// The number of characters.
    pub fn len(&self) -> usize
        ensures { result ≡ length self.now }
    {
        self.as_slice().len()
    }

    /// Whether there is no character.
    pub fn is_empty(&self) -> bool
        ensures { IsTrue result ↔ (length self.now ≡ 0) }
    {
        self.count == 0
    }

    /// Forgets all characters.
    pub fn clear(&mut self)
        ensures { self.new ≡ [] }
    {
        self.count = 0;
    }

    /// Appends the characters.
    pub fn push(&mut self, characters: &[u8])
        requires room { length self.old + length characters.now ≤ ROOM }
        ensures text { self.new ≡ self.old ++ characters.now }
        ensures size { length self.new ≡ length self.old + length characters.now }
    {
        let buffer = self.buffer.as_mut_slice();
        self.count = put(buffer, self.count, characters);
    }

    /// Appends a number of one digit.
    pub fn push_digit(&mut self, number: u8)
        requires digit { number < 10 }
        requires room { length self.old + 1 ≤ ROOM }
        ensures text { self.new ≡ self.old ++ decimal number }
        ensures size { length self.new ≡ length self.old + 1 }
    {
        self.push(&[digit(number)]);
    }

    /// Appends a label and then a bit.
    pub fn push_bit(&mut self, label: &[u8], is_set: bool)
        requires room { length self.old + (length label.now + 1) ≤ ROOM }
        ensures text { self.new ≡ self.old ++ (label.now ++ decimal (bit is_set)) }
        ensures size { length self.new ≡ length self.old + (length label.now + 1) }
    {
        self.push(label);
        self.push_digit(u8::from(is_set));
    }

    /// Appends a label and then a sequence number.
    pub fn push_seq(&mut self, label: &[u8], number: Seq)
        requires room { length self.old + (length label.now + 1) ≤ ROOM }
        ensures text { self.new ≡ self.old ++ (label.now ++ decimal number.number) }
        ensures size { length self.new ≡ length self.old + (length label.now + 1) }
    {
        self.push(label);
        self.push_digit(number.get());
    }

    /// Appends a label and then a number in decimal.
    #[inline]
    pub fn push_number(&mut self, label: &[u8], number: u16)
        requires room { length self.old + (length label.now + 5) ≤ ROOM }
        ensures text { self.new ≡ self.old ++ (label.now ++ decimal number) }
        ensures size { length self.new ≤ length self.old + (length label.now + 5) }
    {
        self.push(label);
        if number < 10 {
            self.push_digit(number as u8);
        } else {
            let mut buffer = Buffer::new();
            self.push(buffer.format(number).as_bytes());
        }
    }

    /// Appends the octets as hexadecimal digits, two for each.
    pub fn push_hexadecimal(&mut self, octets: &[u8])
        requires few { length octets.now ≤ MOST_OCTETS }
        requires room { length self.old + 2 * length octets.now ≤ ROOM }
        ensures text { self.new ≡ self.old ++ flat_map octet_text octets.now }
        ensures size { length self.new ≡ length self.old + 2 * length octets.now }
    {
        let buffer = self.buffer.as_mut_slice();
        self.count = put_hexadecimal(buffer, self.count, octets);
    }

    /// Appends the octets as hexadecimal digits, `-` where there are none.
    pub fn push_octets(&mut self, octets: &[u8])
        requires few { length octets.now ≤ MOST_OCTETS }
        requires room { length self.old + (2 * length octets.now + 1) ≤ ROOM }
        ensures text { self.new ≡ self.old ++ octets_text octets.now }
        ensures size { length self.new ≤ length self.old + (2 * length octets.now + 1) }
    {
        match octets {
            [] => self.push(b"-"),
            _ => self.push_hexadecimal(octets),
        }
    }

    /// Appends characters, however many. Err: no memory, or the text would be longer than `MOST_ROOM`.
    #[inline(always)]
    pub fn try_push(&mut self, characters: &[u8]) -> Result<(), AllocError>
        ensures text { OnOk result (self.new ≡ self.old ++ characters.now) }
        ensures unchanged { OnErr result (self.new ≡ self.old) }
    {
        reserve(&mut self.buffer, self.count, characters.len())?;
        self.count = put(self.buffer.as_mut_slice(), self.count, characters);
        Ok(())
    }

    // Appends two parts, or neither.
    #[inline(always)]
    fn try_push_both(&mut self, first: &[u8], second: &[u8]) -> Result<(), AllocError>
        ensures text { OnOk result (self.new ≡ self.old ++ (first.now ++ second.now)) }
        ensures unchanged { OnErr result (self.new ≡ self.old) }
    {
        reserve(&mut self.buffer, self.count, first.len() + second.len())?;
        let buffer = self.buffer.as_mut_slice();
        let middle = put(buffer, self.count, first);
        self.count = put(buffer, middle, second);
        Ok(())
    }

    /// Appends a label and then a number in decimal. Err: no memory, or the text would be longer than `MOST_ROOM`.
    #[inline(always)]
    pub fn try_push_number(&mut self, label: &[u8], number: u64) -> Result<(), AllocError>
        ensures text { OnOk result (self.new ≡ self.old ++ (label.now ++ decimal number)) }
        ensures unchanged { OnErr result (self.new ≡ self.old) }
    {
        if number < 10 {
            return self.try_push_both(label, &[digit(number as u8)]);
        }
        let mut figures = Buffer::new();
        self.try_push_both(label, figures.format(number).as_bytes())
    }

    /// Appends octets as hexadecimal digits, however many. Err: no memory, or the text would be longer than
    /// `MOST_ROOM`.
    pub fn try_push_hexadecimal(&mut self, octets: &[u8]) -> Result<(), AllocError>
        ensures text { OnOk result (self.new ≡ self.old ++ flat_map octet_text octets.now) }
        ensures unchanged { OnErr result (self.new ≡ self.old) }
    {
        reserve(&mut self.buffer, self.count, 2 * octets.len())?;
        self.count = put_hexadecimal(self.buffer.as_mut_slice(), self.count, octets);
        Ok(())
    }

    /// Appends octets as hexadecimal digits, `-` where there are none, however many. Err: no memory, or the text would
    /// be longer than `MOST_ROOM`.
    pub fn try_push_octets(&mut self, octets: &[u8]) -> Result<(), AllocError>
        ensures text { OnOk result (self.new ≡ self.old ++ octets_text octets.now) }
        ensures unchanged { OnErr result (self.new ≡ self.old) }
    {
        match octets {
            [] => self.try_push(b"-"),
            _ => self.try_push_hexadecimal(octets),
        }
    }
}
