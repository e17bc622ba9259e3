//! One end of a line in memory: a line that is a list, a timer that is a flag, and a user whose notices are text.
use crate::driving::{Line, Timer, User};
use std::alloc::{AllocError, Global};
use x25_station::{Entry, Lent, Role};
use x25_text::Text;
use x25_transcript::push_entry;

/// Frames that were sent and haven't come yet, the first in front.
#[derive(Drop)]
pub(crate) struct Frames {
    alloc: Global,
    frames: Vec<Vec<u8>>,
}

impl Frames {
    pub(crate) fn new(alloc: Global) -> Frames {
        Frames {
            alloc,
            frames: Vec::new(alloc),
        }
    }

    /// The frame that comes next.
    pub(crate) fn next(&mut self) -> Option<Vec<u8>> {
        if self.frames.is_empty() {
            return None;
        }
        Some(self.frames.remove(0))
    }
}

impl Line for Frames {
    fn send(&mut self, frame: &[u8]) -> Result<(), AllocError> {
        let mut octets = Vec::with_capacity(self.alloc, frame.len())?;
        octets.extend_from_slice(frame)?;
        self.frames.push(octets)?;
        Ok(())
    }
}

/// A timer without a clock: who holds it sees whether it runs.
#[derive(Drop)]
pub(crate) struct Flag {
    pub runs: bool,
}

impl Timer for Flag {
    fn start(&mut self) {
        self.runs = true;
    }

    fn stop(&mut self) {
        self.runs = false;
    }
}

/// What was reported to the user of an end, as lines of a transcript.
#[derive(Drop)]
pub(crate) struct Told {
    end: Role,
    pub text: Text,
}

impl Told {
    pub(crate) fn new(alloc: Global, end: Role) -> Result<Told, AllocError> {
        let text = Text::new(alloc)?;
        Ok(Told { end, text })
    }
}

impl User for Told {
    fn notice(&mut self, entry: &Entry, lent: &Lent) -> Result<(), AllocError> {
        push_entry(self.end, entry, lent, &mut self.text)
    }
}
