ghost use Rattle.std.specs.Prelude.{◌≡◌, ◌<◌, ◌≤◌, [], ◌∷◌, length, true, false, vec_capacity, IfSome, IfNone};
ghost use Rattle.std.specs.Prelude.{IfOk, OnErr, max};

use crate::sent::Sent;
use std::alloc::{AllocError, Global};
use std::marker::Model;
use std::mem;
use x25_packet::Marks;

/// The most octets of memory that serves another message.
const MOST_KEPT: usize = 4096;

/// What is cut off says beside its user data: its marks, and the more data mark.
#[derive(Clone, Copy)]
pub struct Cut {
    pub marks: Marks,
    pub m: bool,
}

/// A message while it is cut into data packets: what is left of it, and the packet cut last, which is lent from it.
#[derive(Drop)]
pub struct Cutter {
    marks: Marks,
    user: Vec<u8>,
    /// Where the packet cut last begins, and where it ends.
    lent: usize,
    start: usize,
    /// Nothing is left.
    is_cut: bool,
    alloc: Global,
}

impl Model for Cutter {
    ghost use Rattle.x25_circuit.specs.code.Cutter.{ShownCutter};

    ghost Value = { ShownCutter };

    ghost use Rattle.x25_circuit.specs.code.CutterFields.{shown, IsSound};

    ghost view = { shown };

    ghost invariant = { IsSound };
}

impl Cutter {
    ghost use Rattle.x25_circuit.specs.code.Cutter.{ShownCutter, first_left, first_cut, marked};

    /// Nothing is left of no message.
    pub fn new(alloc: Global) -> Cutter
        ensures { result.left ≡ [] }
    {
        Cutter {
            marks: Marks { q: false, d: false },
            user: Vec::new(alloc),
            lent: 0,
            start: 0,
            is_cut: true,
            alloc,
        }
    }

    /// Whether nothing is left.
    pub fn is_cut(&self) -> bool
        ensures cut { result ≡ true → self.now.left ≡ [] }
        ensures left { result ≡ false → length self.now.left ≡ 1 }
    {
        self.is_cut
    }

    /// Begins to cut this message.
    pub fn load(&mut self, message: Sent)
        ensures { self.new.left ≡ message ∷ [] }
    {
        self.marks = message.marks();
        self.user = message.into_vec();
        self.lent = 0;
        self.start = 0;
        self.is_cut = false;
    }

    /// Drops what is left. Its memory stays until the next message is begun, or serves one.
    pub fn clear(&mut self)
        ensures { self.new.left ≡ [] }
    {
        self.is_cut = true;
    }

    /// Cuts the next packet off, of at most `size` octets.
    pub fn cut(&mut self, size: usize) -> Cut
        requires { 0 < length self.old.left }
        ensures left { self.new.left ≡ first_left size self.old.left }
        ensures short { length self.new.lent ≤ size }
        ensures packet { marked result.marks result.m self.new.lent ≡ first_cut size self.old.left }
    {
        let left = self.user.len() - self.start;
        self.lent = self.start;
        if left <= size {
            self.start += left;
            self.is_cut = true;
            Cut {
                marks: self.marks,
                m: false,
            }
        } else {
            self.start += size;
            // A network may join it with the next one: section 4.3.4.
            Cut {
                marks: Marks {
                    q: self.marks.q,
                    d: false,
                },
                m: true,
            }
        }
    }

    /// Memory for a message of so many octets: that of one that was cut to its end or dropped, of which the packet cut
    /// last isn't lent any more then, or else new. Err: no memory.
    pub fn memory(&mut self, count: usize) -> Result<Vec<u8>, AllocError>
        ensures left { self.new.left ≡ self.old.left }
        ensures unchanged { OnErr result (self.new ≡ self.old) }
        ensures empty { IfOk result (λ memory. memory.items ≡ []) }
        ensures room { IfOk result (λ memory. count ≤ vec_capacity memory) }
        ensures most { IfOk result (λ memory. vec_capacity memory ≤ max count 4096) }
    {
        match self.spent_memory(count) {
            Some(memory) => Ok(memory),
            None => Vec::with_capacity(self.alloc, count),
        }
    }

    // Memory of a message that was cut to its end or dropped, for one of so many octets and for 4,096 at most, where it
    // is. The packet cut last isn't lent any more then.
    fn spent_memory(&mut self, count: usize) -> Option<Vec<u8>>
        ensures left { self.new.left ≡ self.old.left }
        ensures none { IfNone result (self.new ≡ self.old) }
        ensures empty { IfSome result (λ memory. memory.items ≡ []) }
        ensures room { IfSome result (λ memory. count ≤ vec_capacity memory) }
        ensures few { IfSome result (λ memory. vec_capacity memory ≤ 4096) }
    {
        let room = self.user.capacity();
        if !self.is_cut || room < count || room > MOST_KEPT {
            return None;
        }
        self.lent = 0;
        self.start = 0;
        let mut memory = mem::replace(&mut self.user, Vec::new(self.alloc));
        memory.clear();
        Some(memory)
    }

    /// The user data of the packet cut last.
    pub fn lent(&self) -> &[u8]
        ensures { result.now ≡ self.now.lent }
    {
        &self.user[self.lent..self.start]
    }
}
