//! What a station that is Up does with frames that carry an N(R).
ghost use Rattle.std.specs.Prelude.{◌≡◌, ℕ, ◌+◌, ◌<◌, ◌≤◌, nat_lt, List, length, true, false};
ghost use Rattle.std.specs.Prelude.{is_some, IfSome, OnSome, MatchOption};
ghost use Rattle.x25_window.specs.code.Modulo.{resolved};
ghost use Rattle.x25_link.specs.Station.{LinkSettings, LinkStation as StationState, Side};
ghost use Rattle.x25_link.specs.code.Fits.{FitsStation, FitsSide, Leads};
ghost use Rattle.x25_link.specs.Hearing.{is_valid, acknowledged, passes_over, polls};

use crate::frames::Frames;
use crate::station::LinkStation;
use x25_bits::Seq;
use x25_frame::Frame;

impl LinkStation {
    /// Takes a received N(R): all frames below it are acknowledged. It says whether these are any, and nothing where
    /// the number isn't valid.
    #[inline(always)]
    pub fn acknowledge(&mut self, nr: Seq) -> Option<bool>
        ensures valid { (c : LinkSettings) (s : StationState) → FitsStation c self.old s
            → is_some result ≡ is_valid nr.number s }
        ensures any { (c : LinkSettings) (s : StationState) → FitsStation c self.old s
            → IfSome result (λ any. any ≡ nat_lt s.outgoing.acked (resolved s.outgoing.acked nr.number)) }
        ensures step { (c : LinkSettings) (before made : List (List ℕ)) (t : Side) → FitsSide c self.old before made t
            → OnSome result (FitsSide c self.new before made (acknowledged nr.number t)) }
        ensures unchanged { MatchOption result (self.new ≡ self.old) (λ _. Unit {0}) }
    {
        let Ok(count) = self.outgoing.sender.acknowledges(nr) else {
            return None;
        };
        if count == 0 {
            return Some(false);
        }
        self.outgoing.release(count);
        self.tries = 0;
        Some(true)
    }

    /// Passes over an I frame that isn't taken.
    pub fn pass_over(&mut self, p: bool, out: &mut Frames)
        requires { length out.old < 25 }
        ensures step { Leads self.old self.new out.old out.new (λ c t. passes_over p t) }
        ensures one { length out.new ≤ length out.old + 1 }
    {
        if self.is_busy() {
            self.ready(false, p, out);
        } else if !self.rejecting {
            self.rejecting = true;
            let nr = self.receiver.wanted();
            self.send(
                &Frame::Rej {
                    command: false,
                    nr,
                    pf: p,
                },
                out,
            );
        } else if p {
            self.ready(false, true, out);
        }
    }

    /// Answers a command with P=1. A response with F=1 ends recovery.
    pub fn poll(&mut self, command: bool, pf: bool, out: &mut Frames)
        requires { length out.old < 25 }
        ensures step { Leads self.old self.new out.old out.new (λ c t. polls command pf t) }
        ensures one { length out.new ≤ length out.old + 1 }
    {
        match (command, pf) {
            (true, true) => self.ready(false, true, out),
            (false, true) => {
                self.recovery = false;
                self.tries = 0;
                self.outgoing.go_back();
            }
            (_, false) => {}
        }
    }
}
