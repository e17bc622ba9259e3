ghost use Rattle.std.specs.Prelude.{◌≡◌, ◌≤◌, [], length, take, vec_capacity, IfOk};

use std::alloc::{AllocError, Global};
use std::marker::Model;
use x25_bits::append_octets;
use x25_packet::Halves;

/// The most octets of a text: those of the user data of a call, where it may be long. Interrupts, addresses and
/// facilities have fewer.
const LONGEST_TEXT: usize = 128;

/// A text that entries lend: at most 128 octets, in memory for so many. Contracts see the list of them.
#[derive(Drop)]
pub(crate) struct Text {
    octets: Vec<u8>,
}

impl Model for Text {
    ghost use Rattle.std.specs.Prelude.{◌≡◌, ℕ, List, vec_capacity};

    ghost Value = { List ℕ };

    ghost view = { λ t. t.octets.items };

    ghost invariant = { λ t. vec_capacity t.octets ≡ 128 };
}

impl Text {
    /// No octets. Err: no memory.
    pub(crate) fn new(alloc: Global) -> Result<Text, AllocError>
        ensures { IfOk result (λ text. text ≡ []) }
    {
        Ok(Text {
            octets: Vec::with_capacity(alloc, LONGEST_TEXT)?,
        })
    }

    /// Puts the first 128 of these octets in the place of its own.
    pub(crate) fn set(&mut self, octets: &[u8])
        ensures { self.new ≡ take 128 octets.now }
    {
        let count = LONGEST_TEXT.min(octets.len());
        self.octets.clear();
        append_octets(&mut self.octets, &octets[..count]);
    }

    /// Puts the digits of an address in the place of its octets.
    pub(crate) fn set_digits(&mut self, digits: &Halves)
        requires { length digits.now ≤ 15 }
        ensures { self.new ≡ digits.now }
    {
        self.octets.clear();
        for place in 0..digits.len() {
            self.octets.push_reserved(digits.get(place));
        }
    }

    /// Lends the octets.
    pub(crate) fn as_slice(&self) -> &[u8]
        ensures items { result.now ≡ self.now }
        ensures short { length result.now ≤ 128 }
    {
        self.octets.as_slice()
    }
}
