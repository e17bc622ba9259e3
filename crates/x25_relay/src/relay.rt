ghost use Rattle.std.specs.Prelude.{◌≡◌, ◌<◌, ◌⊎◌, ◌≤◌, [], ◌∷◌, ◌++◌, length, drop, IfOk, OnOk, OnErr, IfErr};
ghost use Rattle.std.specs.Prelude.{Some, None, option_copied, slice_get};
ghost use Rattle.x25_relay.specs.declared.error.RelayError.TheVariants as error;
ghost use Rattle.x25_relay.specs.Relay.{octets_of, refusal, is_slow};

use crate::error::RelayError;
use crate::held::Held;
use circular_buffer::HeapCircularBuffer;
use std::alloc::{AllocError, Global};
use x25_circuit::{LONGEST_MESSAGE, Marks};

/// How many messages may wait: 8 until the line that they come by is told to wait, the 7 that its window lets come
/// then, and one that is under way.
pub const PLACES: usize = 16;

/// So many messages wait where the line that they come by is told to wait.
const SLOW: usize = 8;

/// The messages of one way of a call that came by one line and wait for the other: at most 16, in a ring that is made
/// once, with at most `most` octets, in memory for these and no more.
#[derive(Drop)]
pub struct Relay {
    pub ring: HeapCircularBuffer<Held>,
    octets: usize,
    most: usize,
    alloc: Global,
    ghost places: { ring.capacity ≡ 16 },
    ghost few: { length ring.items ≤ 16 },
    ghost counted: { octets ≡ octets_of ring.items },
    ghost bounded: { octets ≤ most },
}

// A message waits behind the others.
fn push(ring: &mut HeapCircularBuffer<Held>, held: Held)
    requires places { ring.old.capacity ≡ 16 }
    requires room { length ring.old.items < 16 }
    ensures items { ring.new.items ≡ ring.old.items ++ held ∷ [] }
    ensures places { ring.new.capacity ≡ 16 }
{
    let _ = ring.push_back(held);
}

impl Relay {
    ghost use Rattle.x25_relay.specs.code.Waiting.{waiting};

    /// Nothing waits. Err: no memory.
    pub fn new(alloc: Global, most: usize) -> Result<Relay, AllocError>
        ensures waiting { IfOk result (λ r. waiting r ≡ []) }
        ensures most { IfOk result (λ r. r.most ≡ most) }
    {
        let ring = HeapCircularBuffer::with_capacity(alloc, PLACES)?;
        Ok(Relay {
            ring,
            octets: 0,
            most,
            alloc,
        })
    }

    /// Takes a message that a line handed up.
    ///
    /// 32 where it has over 65,535 octets; else 31 where 16 messages wait, or those that wait and it have over `most`
    /// octets; else 70 alone. All is as before then.
    #[tactic(auto, using(crate::proofs::WaitingLemmas::octets_push))]
    pub fn take(&mut self, marks: Marks, user: &[u8]) -> Result<(), RelayError>
        ensures taken { OnOk result (waiting self.new
            ≡ waiting self.old ++ record { marks = marks; user = user.now } ∷ []) }
        ensures allowed { OnOk result (refusal self.old.most (waiting self.old) (length user.now) ≡ None) }
        ensures refused { IfErr result (λ e. (refusal self.old.most (waiting self.old) (length user.now) ≡ Some e)
            ⊎ ((refusal self.old.most (waiting self.old) (length user.now) ≡ None) × (e ≡ error.NoMemory))) }
        ensures unchanged { OnErr result (self.new ≡ self.old) }
        ensures most { self.new.most ≡ self.old.most }
    {
        if user.len() > LONGEST_MESSAGE {
            return Err(RelayError::TooLong);
        }
        if self.ring.len() == PLACES || user.len() > self.most - self.octets {
            return Err(RelayError::Full);
        }
        let held = Held::new(self.alloc, marks, user)?;
        push(&mut self.ring, held);
        self.octets += user.len();
        Ok(())
    }

    /// The message that goes on next, where one waits.
    pub fn front(&self) -> Option<&Held>
        ensures { option_copied result ≡ slice_get (waiting self.now) 0 }
    {
        self.ring.front()
    }

    /// The other line has taken the message in front, where one waits.
    pub fn pass(&mut self)
        ensures waiting { waiting self.new ≡ drop 1 (waiting self.old) }
        ensures most { self.new.most ≡ self.old.most }
    {
        if let Some(held) = self.ring.pop_front() {
            self.octets -= held.octets().len();
        }
    }

    /// The stretch has ended: nothing waits any more.
    pub fn clear(&mut self)
        ensures waiting { waiting self.new ≡ [] }
        ensures most { self.new.most ≡ self.old.most }
    {
        self.ring.clear();
        self.octets = 0;
    }

    /// Whether the line that messages come by is to be told to wait: 8 wait, or half of the octets that there is room
    /// for.
    pub fn is_slow(&self) -> bool
        ensures { result ≡ is_slow self.now.most (waiting self.now) }
    {
        let octets = self.octets;
        let left = self.most - self.octets;
        self.ring.len() >= SLOW || octets >= left
    }
}
