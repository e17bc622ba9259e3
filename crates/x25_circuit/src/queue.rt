ghost use Rattle.std.specs.Prelude.{◌≡◌, ℕ, ◌+◌, ◌<◌, ◌≤◌, [], ◌∷◌, ◌++◌, length, IfOk, OnErr, IfSome};
ghost use Rattle.std.specs.Prelude.{IfNone, true, false, max, vec_capacity};

use crate::cutter::{Cut, Cutter};
use crate::sent::Sent;
use circular_buffer::HeapCircularBuffer;
use std::alloc::{AllocError, Global};

/// How many messages may wait (profile).
pub const PLACES: usize = 8;

/// The messages that wait, at most 8, in a ring that is made once: the first of them, while it is cut, and the others.
#[derive(Drop)]
pub struct Queue {
    pub cutter: Cutter,
    pub ring: HeapCircularBuffer<Sent>,
    ghost places: { ring.capacity ≡ 8 },
    ghost few: { length cutter.left + length ring.items ≤ 8 },
}

impl Queue {
    ghost use Rattle.x25_circuit.specs.Queue.{waiting};
    ghost use Rattle.x25_circuit.specs.code.Cutter.{first_cut, first_left, marked};

    /// No message waits. Err: no memory.
    pub fn new(alloc: Global) -> Result<Queue, AllocError>
        ensures { IfOk result (λ q. waiting q ≡ []) }
    {
        let ring = HeapCircularBuffer::with_capacity(alloc, PLACES)?;
        Ok(Queue {
            cutter: Cutter::new(alloc),
            ring,
        })
    }

    /// How many messages wait.
    pub fn len(&self) -> usize
        ensures value { result ≡ length (waiting self.now) }
        ensures few { result ≤ 8 }
    {
        if self.cutter.is_cut() {
            return self.ring.len();
        }
        self.ring.len() + 1
    }

    /// Lets a message wait behind the others, of which there are fewer than 8.
    pub fn push(&mut self, message: Sent)
        requires { length (waiting self.old) < 8 }
        ensures { waiting self.new ≡ waiting self.old ++ message ∷ [] }
    {
        let _ = self.ring.push_back(message);
    }

    // Lets the first message be cut, unless one is. It says whether there is one.
    fn begin(&mut self) -> bool
        ensures same { waiting self.new ≡ waiting self.old }
        ensures some { result ≡ true → 0 < length self.new.cutter.left }
        ensures none { result ≡ false → waiting self.new ≡ [] }
    {
        if !self.cutter.is_cut() {
            return true;
        }
        let Some(front) = self.ring.pop_front() else {
            return false;
        };
        self.cutter.load(front);
        true
    }

    /// Cuts the next packet off, of at most `size` octets, where a message waits.
    pub fn cut(&mut self, size: usize) -> Option<Cut>
        ensures some { IfSome result (λ cut. 0 < length (waiting self.old)) }
        ensures left { IfSome result (λ cut. waiting self.new ≡ first_left size (waiting self.old)) }
        ensures packet { IfSome result (λ cut. marked cut.marks cut.m self.new.cutter.lent
            ≡ first_cut size (waiting self.old)) }
        ensures short { IfSome result (λ cut. length self.new.cutter.lent ≤ size) }
        ensures none { IfNone result (waiting self.old ≡ []) }
        ensures same { IfNone result (waiting self.new ≡ []) }
    {
        if !self.begin() {
            return None;
        }
        Some(self.cutter.cut(size))
    }

    /// Memory for a message of so many octets: that of one that was cut to its end or dropped, of which the packet cut
    /// last isn't lent any more then, or else new. Err: no memory.
    pub fn memory(&mut self, count: usize) -> Result<Vec<u8>, AllocError>
        ensures same { waiting self.new ≡ waiting self.old }
        ensures unchanged { OnErr result (self.new ≡ self.old) }
        ensures empty { IfOk result (λ memory. memory.items ≡ []) }
        ensures room { IfOk result (λ memory. count ≤ vec_capacity memory) }
        ensures most { IfOk result (λ memory. vec_capacity memory ≤ max count 4096) }
    {
        self.cutter.memory(count)
    }
}
