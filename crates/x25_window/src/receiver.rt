ghost use Rattle.std.specs.Prelude.{ℕ, ◌≡◌, ◌+◌, ◌%◌, ◌↔◌, IsTrue, if◌then◌else◌};
ghost use Rattle.x25_window.specs.Receiver.{FitsTaken};

use std::marker::Model;
use x25_bits::Seq;

/// The receiving half of a window: the number of the item that is awaited, V(R) modulo 8.
///
/// It fits each whole number of items taken that it equals modulo 8. No call takes memory.
/// ITU-T X.25 (10/96), sections 2.3.2 and 2.4.5.2; for packets 4.4.1.
#[derive(Clone, Copy, Debug, PartialEq, Eq)]
pub struct Receiver {
    wanted: Seq,
}

impl Model for Receiver {
    ghost use Rattle.x25_bits.specs.declared.seq.Seq.{Seq};

    ghost Value = { Seq };

    ghost view = { λ r. r.wanted };

    ghost inverse = { λ s. record { wanted = s } };
}

impl Receiver {
    /// A receiver that has taken nothing.
    pub fn new() -> Receiver
        ensures { FitsTaken result 0 }
    {
        Receiver { wanted: Seq::ZERO }
    }

    /// The number of the item that is awaited, V(R) modulo 8. It is the N(R) of each frame sent now.
    pub fn wanted(&self) -> Seq
        ensures state { (taken : ℕ) → FitsTaken self.now taken → result.number ≡ taken % 8 }
        ensures held { result ≡ self.now }
    {
        self.wanted
    }

    /// Whether an item of this number is taken: where it is the one awaited. The next one is awaited then.
    pub fn accept(&mut self, number: Seq) -> bool
        ensures wanted { (taken : ℕ) → FitsTaken self.old taken → IsTrue result ↔ (number.number ≡ taken % 8) }
        ensures step { (taken : ℕ) → FitsTaken self.old taken
            → FitsTaken self.new (if result then taken + 1 else taken) }
        ensures held { IsTrue result ↔ (number.number ≡ self.old.number) }
    {
        if number != self.wanted {
            return false;
        }
        *self = Receiver {
            wanted: number.next(),
        };
        true
    }
}
