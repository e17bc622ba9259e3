ghost use Rattle.std.specs.Prelude.{◌≡◌, ◌≤◌, length, max, vec_len, vec_capacity};

use std::marker::Model;
use x25_packet::Marks;

/// A message that waits to be sent, in memory of its own: of as many octets as it has, or of at most 4,096. Contracts
/// see the message.
#[derive(Drop)]
pub struct Sent {
    marks: Marks,
    octets: Vec<u8>,
}

impl Model for Sent {
    ghost use Rattle.std.specs.Prelude.{◌≤◌, max, vec_len, vec_capacity};
    ghost use Rattle.x25_circuit.specs.Message.{Message};

    ghost Value = { Message };

    ghost view = { λ s. record { marks = s.marks; user = s.octets.items } };

    ghost invariant = { λ s. (vec_len s.octets ≤ 65535) × (vec_capacity s.octets ≤ max (vec_len s.octets) 4096) };
}

impl Sent {
    /// The message of these octets. It takes no memory.
    pub fn of(marks: Marks, octets: Vec<u8>) -> Sent
        requires short { vec_len octets ≤ 65535 }
        requires memory { vec_capacity octets ≤ max (vec_len octets) 4096 }
        ensures { result ≡ record { marks = marks; user = octets.items } }
    {
        Sent { marks, octets }
    }

    /// Its marks.
    pub fn marks(&self) -> Marks
        ensures { result ≡ self.now.marks }
    {
        self.marks
    }

    /// The list of its octets. It takes no memory.
    pub fn into_vec(self) -> Vec<u8>
        ensures items { result.items ≡ self.user }
        ensures short { length result.items ≤ 65535 }
        ensures memory { vec_capacity result ≤ max (length result.items) 4096 }
    {
        self.octets
    }
}
