//! What waits in the circuits is pulled behind a step.
ghost use Rattle.std.specs.Prelude.{◌≡◌, ◌<◌, ◌≤◌, length};
ghost use Rattle.x25_station.specs.code.FitsStation.{FitsStation};
ghost use Rattle.x25_station.specs.code.Pulls.{Pulls};
ghost use Rattle.x25_station.specs.Config.{Settings};
ghost use Rattle.x25_station.specs.Pulling.{pulled};
ghost use Rattle.x25_station.specs.Station.{Station as State};
ghost use Rattle.x25_station.specs.Timer.{timer_pulled};

use crate::driving::pull;
use crate::law::steps_keep_bounds;
use crate::station::Station;
use crate::step::{MOST_FRAMES, Step};
use x25_link::Frames;

impl Station {
    /// Pulls behind a step: hands the data packets that wait in the circuits of all channels down to the link, in
    /// rounds, while fewer than 8 packets wait there, and puts the frames behind those of the step (profile). It has no
    /// entry, and does nothing where the link isn't up or a restart is under way.
    ///
    /// Each accepted command and each packet that comes pulls too. A step in which the link acts by itself doesn't, so
    /// that a message may wait in its circuit while nothing is on its way: one who calls this behind each step leaves
    /// none to wait so.
    ///
    /// Nothing happens at all where the step has more frames than a call answers, as one that was pulled behind may.
    pub fn pull(&mut self, out: &mut Step)
        ensures pulls { length out.old.frames ≤ 9 → Pulls self.old self.new out.old.frames out.new.frames }
        ensures timer { length out.old.frames ≤ 9 → (c : Settings) (s : State) → FitsStation c self.old s →
            out.new.timer ≡ timer_pulled out.old.timer s (pulled c s).near }
        ensures entries { out.new.entries ≡ out.old.entries }
        ensures full { 9 < length out.old.frames → (self.new ≡ self.old) × (out.new ≡ out.old) }
    {
        if out.frames.len() > MOST_FRAMES {
            return;
        }
        let ran = self.link.timer_runs();
        self.pull_frames(&mut out.frames);
        out.timer = out.timer.pulled(ran, self.link.timer_runs());
    }

    // The frames of a pull come behind others, which the link has meanwhile.
    fn pull_frames(&mut self, frames: &mut Frames)
        requires { length frames.old ≤ 9 }
        ensures { Pulls self.old self.new frames.old frames.new }
    {
        steps_keep_bounds();
        self.link.swap_frames(frames);
        // It is refused where it does nothing.
        let _ = pull(&mut self.layer, &mut self.link, &mut self.turn);
        self.link.swap_frames(frames);
    }
}
