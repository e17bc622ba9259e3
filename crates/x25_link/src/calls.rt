//! What a station does at the calls of its user and of its timer.
ghost use Rattle.std.specs.Prelude.{◌≡◌, ℕ, ◌+◌, ◌<◌, ◌≤◌, List, length, false, true};
ghost use Rattle.x25_link.specs.Station.{LinkSettings, LinkStation as StationState, Side, is_up, disconnected};
ghost use Rattle.x25_link.specs.Station.{with_near};
ghost use Rattle.x25_link.specs.code.Fits.{FitsSide, FitsStation, FitsHeard, Leads, Hears, Turns};
ghost use Rattle.x25_link.specs.Hearing.{quiet};
ghost use Rattle.x25_link.specs.Link.{connects, disconnects, fires, answered, asks_again, gives_up, relinks};
ghost use Rattle.x25_link.specs.Link.{timer_runs};

use crate::frames::Frames;
use crate::heard::Heard;
use crate::phase::{Closing, Ending, Phase, Reason};
use crate::station::LinkStation;
use x25_frame::Frame;

impl LinkStation {
    /// Begins to set the link up.
    pub fn connect(&mut self, out: &mut Frames)
        requires { length out.old < 25 }
        ensures step { (c : LinkSettings) (before : List (List ℕ)) (t : Side) → FitsSide c self.old before out.old t
            → FitsSide c self.new before out.new (connects t).side }
        ensures one { length out.new ≤ length out.old + 1 }
    {
        self.phase = Phase::Waiting;
        self.tries = 0;
        self.send(&Frame::Sabm { p: true }, out);
    }

    /// Disconnects, for good.
    pub fn disconnect<'a>(&mut self, out: &mut Frames) -> Heard<'a>
        requires { length out.old < 25 }
        ensures step { Hears self.old self.new out.old out.new result (λ c t. disconnects c.disc_again t) }
        ensures one { length out.new ≤ length out.old + 1 }
    {
        let down = if self.phase.is_up() {
            Some(Reason::Local)
        } else {
            None
        };
        self.close();
        self.send(&Frame::Disc { p: true }, out);
        Heard::noted(down, false)
    }

    // Drops all packets, for good. The answer to the DISC is awaited where that goes again.
    fn close(&mut self)
        ensures step { Turns self.old self.new (λ c t. with_near t (disconnected c.disc_again)) }
    {
        self.clear(Phase::Closed);
        self.tries = 0;
        if self.parameters.disc_again {
            self.closing = Closing::Asked;
        }
    }

    /// Leaves Up without a frame, and begins to set the link up anew.
    pub fn relink<'a>(&mut self, out: &mut Frames) -> Heard<'a>
        requires { length out.old < 25 }
        ensures step { Hears self.old self.new out.old out.new result (λ c t. relinks t) }
        ensures one { length out.new ≤ length out.old + 1 }
    {
        let heard = self.leave(Reason::Local);
        self.connect(out);
        heard
    }

    /// A firing of timer T1, where it runs.
    pub fn fire<'a>(&mut self, out: &mut Frames) -> Heard<'a>
        requires { length out.old < 25 }
        ensures step { Hears self.old self.new out.old out.new result (λ c t. fires c t) }
        ensures one { length out.new ≤ length out.old + 1 }
    {
        if self.tries >= self.parameters.n2 {
            return self.give_up();
        }
        self.tries += 1;
        self.ask_again(out);
        Heard::quiet()
    }

    // No command goes any more.
    fn give_up<'a>(&mut self) -> Heard<'a>
        ensures step { (c : LinkSettings) (before made : List (List ℕ)) (t : Side) → FitsSide c self.old before made t
            → FitsHeard c self.new t.near before made result (gives_up t.near.phase t) }
    {
        if !self.phase.is_closed() {
            return self.leave(Reason::Retries);
        }
        self.end_closing(Ending::GivenUp)
    }

    /// The answer that a DISC awaits came, or none is awaited any more.
    pub fn end_closing<'a>(&mut self, ending: Ending) -> Heard<'a>
        ensures step { (c : LinkSettings) (before made : List (List ℕ)) (t : Side) → FitsSide c self.old before made t
            → FitsHeard c self.new t.near before made result (quiet (answered ending t.near.closing t)) }
    {
        if !self.closing.is_asked() {
            return Heard::quiet();
        }
        self.closing = Closing::Ended(ending);
        Heard::quiet()
    }

    /// Whether timer T1 runs where the link isn't up.
    pub fn timer_runs_apart(&self) -> bool
        requires apart { is_up self.now.phase ≡ false }
        ensures { (c : LinkSettings) (s : StationState) → FitsStation c self.now s → result ≡ timer_runs s.phase s }
    {
        match self.phase {
            Phase::Up | Phase::Down => false,
            Phase::Waiting => true,
            Phase::Closed => self.closing.is_asked(),
        }
    }

    // SABM or DISC again while its answer is awaited, and a poll in Up.
    fn ask_again(&mut self, out: &mut Frames)
        requires { length out.old < 25 }
        ensures step { Leads self.old self.new out.old out.new (λ c t. asks_again t.near.phase t) }
        ensures one { length out.new ≤ length out.old + 1 }
    {
        match self.phase {
            Phase::Up => {
                self.recovery = true;
                self.ready(true, true, out);
            }
            Phase::Down | Phase::Waiting => self.send(&Frame::Sabm { p: true }, out),
            Phase::Closed => self.send(&Frame::Disc { p: true }, out),
        }
    }
}
