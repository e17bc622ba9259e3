ghost use Rattle.std.specs.Prelude.{◌≡◌, ◌≤◌, length, IfOk};

use std::alloc::{AllocError, Global};
use std::marker::Model;
use x25_bits::append_octets;
use x25_circuit::Marks;

/// A message that waits, in memory for its octets and no more. Contracts see the message.
#[derive(Drop)]
pub struct Held {
    marks: Marks,
    octets: Vec<u8>,
}

impl Model for Held {
    ghost use Rattle.std.specs.Prelude.{◌≡◌, ◌≤◌, vec_len, vec_capacity};
    ghost use Rattle.x25_circuit.specs.Message.{Message};

    ghost Value = { Message };

    ghost view = { λ h. record { marks = h.marks; user = h.octets.items } };

    ghost invariant = { λ h. (vec_len h.octets ≤ 65535) × (vec_capacity h.octets ≡ vec_len h.octets) };
}

impl Held {
    /// A copy of a message of at most 65,535 octets. Err: no memory.
    pub fn new(alloc: Global, marks: Marks, user: &[u8]) -> Result<Held, AllocError>
        requires { length user.now ≤ 65535 }
        ensures { IfOk result (λ held. held ≡ record { marks = marks; user = user.now }) }
    {
        let mut octets = Vec::with_capacity(alloc, user.len())?;
        append_octets(&mut octets, user);
        Ok(Held { marks, octets })
    }

    /// Its marks.
    pub fn marks(&self) -> Marks
        ensures { result ≡ self.now.marks }
    {
        self.marks
    }

    /// Its octets.
    pub fn octets(&self) -> &[u8]
        ensures items { result.now ≡ self.now.user }
        ensures short { length result.now ≤ 65535 }
    {
        self.octets.as_slice()
    }
}
