//! What was answered before the last frame that came.
ghost use Rattle.std.specs.Prelude.{◌≡◌, ◌++◌, [], map, OnErr, OnOk};

use crate::earlier_entries::EarlierEntries;
use std::alloc::{AllocError, Global};
use x25_bits::with_octets;
use x25_station::Timer;

/// What the frames of a call but the last were answered: copies of the frames to send, the entries, in memory that was
/// that of their steps, and what becomes of timer T1.
#[derive(Drop)]
pub struct Earlier {
    pub frames: Vec<Vec<u8>>,
    pub entries: EarlierEntries,
    pub timer: Timer,
}

impl Earlier {
    /// Nothing was answered.
    pub(crate) fn new(alloc: Global) -> Earlier
        ensures frames { result.frames.items ≡ [] }
        ensures entries { result.entries ≡ [] }
        ensures timer { result.timer ≡ Timer.GoesOn }
    {
        Earlier {
            frames: Vec::new(alloc),
            entries: EarlierEntries::new(alloc),
            timer: Timer::GoesOn,
        }
    }

    /// Takes all of it out.
    pub(crate) fn clear(&mut self)
        ensures frames { self.new.frames.items ≡ [] }
        ensures entries { self.new.entries ≡ [] }
        ensures timer { self.new.timer ≡ Timer.GoesOn }
    {
        self.frames.clear();
        self.entries.clear();
        self.timer = Timer::GoesOn;
    }
}

/// Appends copies of frames, each in memory of its own length. Err: no memory, and none is appended.
pub(crate) fn append_copies(all: &mut Vec<Vec<u8>>, frames: &[Vec<u8>]) -> Result<(), AllocError>
    ensures ok { OnOk result (map (λ frame. frame.items) all.new.items
        ≡ map (λ frame. frame.items) all.old.items ++ map (λ frame. frame.items) frames.now) }
    ensures err { OnErr result (all.new.items ≡ all.old.items) }
{
    let alloc = *all.allocator();
    let mut copies = Vec::with_capacity(alloc, frames.len())?;
    for frame in frames {
        let copy = Vec::with_capacity(alloc, frame.len())?;
        copies.push_reserved(with_octets(copy, frame.as_slice()));
    }
    all.append(&mut copies)
}
