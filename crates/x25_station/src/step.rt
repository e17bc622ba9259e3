ghost use Rattle.std.specs.Prelude.{◌≡◌, IfOk};
ghost use Rattle.x25_station.specs.code.FitsStation.{IsEmpty, RefusesForMemory};
ghost use Rattle.x25_station.specs.Timer.{tells_link as tell_link};

use crate::entries::Entries;
use crate::entry::Entry;
use crate::error::StationError;
use crate::timer::Timer;
use std::alloc::Global;
use x25_link::Frames;

/// The most frames that a call of a station answers: one for what came, seven I frames, and the RR that ends an RNR.
pub const MOST_FRAMES: usize = 9;

/// The most entries that a call of a station makes.
pub const MOST_ENTRIES: usize = 3;

/// What a call of a station answers: the frames to send, frame check sequence included, and the entries of the
/// transcript, each in order, and what becomes of timer T1. The entry of an accepted command is the first.
///
/// It has the memory of all that it is answered, from when it was made on: for 25 frames of 4,103 octets each, which a
/// call exchanges with those of the link, and for entries and what they say.
#[derive(Drop)]
pub struct Step {
    pub frames: Frames,
    pub entries: Entries,
    pub timer: Timer,
}

impl Step {
    /// A step for calls to answer into.
    ///
    /// 70 alone.
    pub fn new(alloc: Global) -> Result<Step, StationError>
        ensures empty { IfOk result IsEmpty }
        ensures timer { IfOk result (λ step. step.timer ≡ Timer.Off) }
        ensures refused { RefusesForMemory result }
    {
        let Ok(frames) = Frames::new(alloc) else {
            return Err(StationError::NoMemory);
        };
        let Ok(entries) = Entries::new(alloc) else {
            return Err(StationError::NoMemory);
        };
        Ok(Step {
            frames,
            entries,
            timer: Timer::Off,
        })
    }

    /// Whether the link came up or went down.
    pub fn tells_link(&self) -> bool
        ensures { result ≡ tell_link self.now.entries.items }
    {
        for entry in self.entries.as_slice() {
            if let Entry::LinkUp | Entry::LinkDown(_) = entry {
                return true;
            }
        }
        false
    }

    /// Takes all out. The memory of frames and entries stays, and becomes that of other ones.
    #[inline(always)]
    pub(crate) fn clear(&mut self)
        ensures { IsEmpty self.new }
    {
        self.frames.clear();
        self.entries.list.clear();
    }
}
