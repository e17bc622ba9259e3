//! The line that has begun.
ghost use Rattle.std.specs.Prelude.{◌≡◌, ◌≤◌, ◌+◌, ◌++◌, length, vec_len, vec_capacity};

use std::alloc::{AllocError, Global};
use std::mem;

/// The most characters of a line, without its line feed.
const MOST_LINE: usize = 131_200;

/// The line that has begun, as far as it is held: its characters, or that it is too long. It has memory for 131,200
/// characters, from `new` on, and takes no more.
#[derive(Drop)]
pub struct HeldLine {
    characters: Vec<u8>,
    is_long: bool,
    ghost few: { vec_len characters ≤ 131200 },
    ghost room: { vec_capacity characters ≡ 131200 },
}

// The characters, and these behind them, in room that there is. It owns them, so that they are copied as a block.
fn with_part(characters: Vec<u8>, part: &[u8]) -> Vec<u8>
    requires { vec_len characters + length part.now ≤ vec_capacity characters }
    ensures items { result.items ≡ characters.items ++ part.now }
    ensures len { vec_len result ≡ vec_len characters + length part.now }
    ensures capacity { vec_capacity result ≡ vec_capacity characters }
{
    let mut all = characters;
    for character in part {
        all.push_reserved(*character);
    }
    all
}

impl HeldLine {
    ghost use Rattle.std.specs.Prelude.{◌≡◌, ◌≤◌, ◌<◌, ◌++◌, ◌↔◌, [], ℕ, List, IfOk, IsTrue, MatchOption, length};
    ghost use Rattle.x25_io.specs.HeldLine.{HoldsLine, most_line};

    /// No line has begun. Err: no memory.
    pub fn new(alloc: Global) -> Result<HeldLine, AllocError>
        ensures { IfOk result (HoldsLine []) }
    {
        let characters = Vec::with_capacity(alloc, MOST_LINE)?;
        Ok(HeldLine {
            characters,
            is_long: false,
        })
    }

    /// Holds what follows of the line.
    #[cold]
    pub fn hold(&mut self, part: &[u8])
        ensures { (begun : List ℕ) → HoldsLine begun self.old → HoldsLine (begun ++ part.now) self.new }
    {
        if self.is_long {
            return;
        }
        if MOST_LINE - self.characters.len() < part.len() {
            self.is_long = true;
        } else {
            let none = Vec::new(*self.characters.allocator());
            let characters = mem::replace(&mut self.characters, none);
            self.characters = with_part(characters, part);
        }
    }

    /// Whether no line has begun.
    pub fn is_empty(&self) -> bool
        ensures { (begun : List ℕ) → HoldsLine begun self.now → (IsTrue result ↔ (begun ≡ [])) }
    {
        !self.is_long && self.characters.is_empty()
    }

    /// Whether the part is a line by itself: none has begun, and the part isn't too long.
    pub(crate) fn is_whole(&self, part: &[u8]) -> bool
        ensures { (begun : List ℕ) → HoldsLine begun self.now → IsTrue result → (begun ≡ [])
            × (length part.now ≤ most_line) }
    {
        self.is_empty() && part.len() <= MOST_LINE
    }

    /// The line, where it isn't too long.
    pub fn line(&self) -> Option<&[u8]>
        ensures { (begun : List ℕ) → HoldsLine begun self.now
            → MatchOption result (most_line < length begun) (λ line. (line.now ≡ begun) × (length begun ≤ most_line)) }
    {
        if self.is_long {
            None
        } else {
            Some(self.characters.as_slice())
        }
    }

    /// The line has ended.
    pub fn clear(&mut self)
        ensures { HoldsLine [] self.new }
    {
        self.characters.clear();
        self.is_long = false;
    }
}
