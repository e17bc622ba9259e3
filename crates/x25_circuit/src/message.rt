ghost use Rattle.std.specs.Prelude.{◌≡◌, ◌+◌, ◌≤◌, length, true, false, IfNone, OnOk, OnErr};

use crate::codes::{MIXED_QUALIFIERS, PACKET_TOO_LONG};
use crate::octets::Octets;
use std::alloc::{AllocError, Global};
use std::marker::Model;
use x25_bits::append_octets;
use x25_packet::Marks;

/// The message of which some packets were taken: its qualifier, where it has begun, and its octets so far, in memory
/// for the longest message, which is made for the first call and kept from then on.
#[derive(Drop)]
pub struct PartialMessage {
    begun: Option<bool>,
    octets: Option<Vec<u8>>,
    longest: usize,
    alloc: Global,
}

impl Model for PartialMessage {
    ghost use Rattle.x25_circuit.specs.code.PartialMessage.{ShownPartial};

    ghost Value = { ShownPartial };

    ghost use Rattle.x25_circuit.specs.code.PartialFields.{shown, IsSound};

    ghost view = { shown };

    ghost invariant = { IsSound };
}

impl PartialMessage {
    ghost use Rattle.x25_circuit.specs.Message.{no_part, ground_of, joined, completed, piece_of};
    ghost use Rattle.x25_circuit.specs.code.PartialMessage.{ended};

    /// No message has begun, and no memory is made.
    pub fn new(alloc: Global, longest: usize) -> PartialMessage
        requires { longest ≤ 65535 }
        ensures part { result.part ≡ no_part }
        ensures made { result.made ≡ false }
        ensures longest { result.longest ≡ longest }
    {
        PartialMessage {
            begun: None,
            octets: None,
            longest,
            alloc,
        }
    }

    /// The most octets of a message.
    pub fn longest(&self) -> usize
        ensures value { result ≡ self.now.longest }
        ensures few { result ≤ 65535 }
    {
        self.longest
    }

    /// Makes the memory, where there is none. Err: no memory; all is as it was then.
    pub fn make(&mut self) -> Result<(), AllocError>
        ensures part { self.new.part ≡ self.old.part }
        ensures longest { self.new.longest ≡ self.old.longest }
        ensures made { OnOk result (self.new.made ≡ true) }
        ensures missing { OnErr result (self.old.made ≡ false) }
        ensures unchanged { OnErr result (self.new ≡ self.old) }
    {
        if self.octets.is_none() {
            self.octets = Some(Vec::with_capacity(self.alloc, self.longest)?);
        }
        Ok(())
    }

    /// The diagnostic for which so many octets with this qualifier are refused behind what has begun, if any: 39 or 83.
    pub fn ground(&self, size: usize, count: usize, q: bool) -> Option<u8>
        ensures value { result ≡ ground_of self.now.longest size self.now.part count q }
        ensures fits { IfNone result (count ≤ size) }
    {
        let come = match &self.octets {
            Some(octets) => octets.len(),
            None => 0,
        };
        if count > size || count > self.longest - come {
            return Some(PACKET_TOO_LONG);
        }
        match self.begun {
            Some(begun) if begun != q => Some(MIXED_QUALIFIERS),
            _ => None,
        }
    }

    /// Joins a packet, and says whether a message ends with it: its octets are those of `message` then.
    pub fn join(&mut self, marks: Marks, m: bool, user: &[u8], message: &mut Octets) -> bool
        requires made { self.old.made ≡ true }
        requires short { length self.old.part.user + length user.now ≤ self.old.longest }
        ensures part { self.new.part ≡ joined self.old.part (piece_of marks m user.now) }
        ensures made { self.new.made ≡ true }
        ensures message { ended marks message.new result ≡ completed self.old.part (piece_of marks m user.now) }
        ensures kept { result ≡ false → message.new ≡ message.old }
        ensures longest { self.new.longest ≡ self.old.longest }
        ensures short { length self.new.part.user ≤ self.new.longest }
    {
        let Some(octets) = &mut self.octets else {
            unreachable!();
        };
        if m {
            append_octets(octets, user);
            self.begun = Some(marks.q);
            return false;
        }
        message.set(octets.as_slice(), user);
        octets.clear();
        self.begun = None;
        true
    }

    /// Drops it, and keeps its memory.
    pub fn clear(&mut self)
        ensures part { self.new.part ≡ no_part }
        ensures made { self.new.made ≡ self.old.made }
        ensures longest { self.new.longest ≡ self.old.longest }
    {
        self.begun = None;
        if let Some(octets) = &mut self.octets {
            octets.clear();
        }
    }
}
