ghost use Rattle.std.specs.Prelude.{◌≡◌, ℕ, ◌+◌, ◌<◌, ◌≤◌, ◌&&◌, true, false, List, length, if◌then◌else◌};
ghost use Rattle.x25_frame.specs.Frame.{plain};
ghost use Rattle.x25_frame.specs.Spelling.{information_of};
ghost use Rattle.x25_link.specs.Hearing.{leaves};
ghost use Rattle.x25_link.specs.Station.{LinkSettings, LinkStation as StationState, Side, is_busy, sends, ready};
ghost use Rattle.x25_link.specs.Station.{with_nothing, with_near, fresh, may_send, pumped_once, ended};

use crate::frames::Frames;
use crate::heard::Heard;
use crate::outgoing::Outgoing;
use crate::phase::{Closing, Phase, Reason};
use x25_bits::Role;
use x25_frame::Frame;
use x25_window::Receiver;

/// How many packets may wait before the station is busy.
pub const BUSY_ABOVE: usize = 254;

/// The most frames of a window.
pub const FRAMES: u8 = 7;

/// The system parameters N1, in octets of information, and N2, of ITU-T X.25 (10/96), section 2.4.8, and whether DISC
/// is sent again until it is answered (profile).
#[derive(Clone, Copy)]
pub struct Parameters {
    pub n1: usize,
    pub n2: u8,
    pub disc_again: bool,
    ghost short: { n1 ≤ 4099 },
}

/// The variables of a LAPB station. ITU-T X.25 (10/96), sections 2.3.2 and 2.4.
#[derive(Drop)]
pub struct LinkStation {
    pub role: Role,
    pub parameters: Parameters,
    pub outgoing: Outgoing,
    pub receiver: Receiver,
    pub phase: Phase,
    pub tries: u8,
    pub recovery: bool,
    pub peer_busy: bool,
    pub rejecting: bool,
    /// RNR was the last of RR and RNR that were sent.
    pub said_busy: bool,
    pub closing: Closing,
}

impl LinkStation {
    ghost use Rattle.x25_link.specs.code.Fits.{FitsStation, FitsSide, FitsHeard, Leads, Turns};

    /// Whether the station is busy, and takes no I frame.
    pub fn is_busy(&self) -> bool
        ensures { (c : LinkSettings) (s : StationState) → FitsStation c self.now s → result ≡ is_busy s }
    {
        self.outgoing.queue.len() > BUSY_ABOVE
    }

    /// Sends a frame that carries no packet.
    #[inline(never)]
    #[tactic(auto, using(crate::proofs::FitsLemmas::made_more))]
    pub fn send(&self, frame: &Frame, out: &mut Frames)
        requires place { length out.old < 25 }
        requires short { length (information_of (plain frame.now)) ≤ 3 }
        ensures step { Leads self.now self.now out.old out.new (λ c t. sends (plain frame.now) t) }
        ensures one { length out.new ≡ length out.old + 1 }
    {
        out.push(self.role, frame);
    }

    /// Sends RR, or RNR where the station is busy.
    pub fn ready(&mut self, command: bool, pf: bool, out: &mut Frames)
        requires { length out.old < 25 }
        ensures step { Leads self.old self.new out.old out.new (λ c t. ready command pf t) }
        ensures one { length out.new ≡ length out.old + 1 }
    {
        let nr = self.receiver.wanted();
        if self.is_busy() {
            self.said_busy = true;
            self.send(&Frame::Rnr { command, nr, pf }, out);
        } else {
            self.said_busy = false;
            out.push(self.role, &Frame::Rr { command, nr, pf });
        }
    }

    /// Sends by the sending rule, for at most seven frames, and then an RR where RNR was the last and the station is no
    /// longer busy.
    pub fn end(&mut self, out: &mut Frames)
        requires { length out.old + 8 ≤ 25 }
        ensures step { Leads self.old self.new out.old out.new (λ c t. ended c.window t) }
        ensures few { length out.new ≤ length out.old + 8 }
    {
        for _frame in 0..FRAMES {
            if !self.pump_once(out) {
                break;
            }
        }
        if self.phase.is_up() && self.said_busy && !self.is_busy() {
            self.ready(false, false, out);
        }
    }

    /// The sending rule, once. It says whether a frame was sent.
    #[inline(always)]
    pub fn pump_once(&mut self, out: &mut Frames) -> bool
        requires { length out.old < 25 }
        ensures sent { (c : LinkSettings) (s : StationState) → FitsStation c self.old s → result ≡ may_send c.window s }
        ensures step { Leads self.old self.new out.old out.new (λ c t. pumped_once c.window t) }
        ensures one { length out.new ≤ length out.old + 1 }
        ensures none { result ≡ false → out.new ≡ out.old }
    {
        if !self.phase.is_up() || self.recovery || self.peer_busy {
            return false;
        }
        let nr = self.receiver.wanted();
        self.outgoing.send_next(self.role, nr, out)
    }

    /// Drops all packets, and sets all variables but `tries` to 0.
    #[cold]
    pub fn clear(&mut self, phase: Phase)
        ensures step { Turns self.old self.new (λ c t. with_near t (with_nothing phase t.near.tries)) }
    {
        self.phase = phase;
        self.outgoing.clear();
        self.receiver = Receiver::new();
        self.recovery = false;
        self.peer_busy = false;
        self.rejecting = false;
        self.said_busy = false;
        self.closing = Closing::Unasked;
    }

    /// The link is set up: all variables are 0.
    pub fn set_up(&mut self)
        ensures step { Turns self.old self.new (λ c t. with_near t fresh) }
    {
        self.clear(Phase::Up);
        self.tries = 0;
    }

    /// Leaves Up.
    #[cold]
    pub fn leave<'a>(&mut self, reason: Reason) -> Heard<'a>
        ensures step { (c : LinkSettings) (before made : List (List ℕ)) (t : Side) → FitsSide c self.old before made t
            → FitsHeard c self.new t.near before made result (leaves reason t) }
    {
        self.clear(Phase::Down);
        Heard::down(reason)
    }
}
