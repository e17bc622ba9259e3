//! What a station does with the octets that it takes, phase by phase.
ghost use Rattle.std.specs.Prelude.{◌≡◌, ◌+◌, ◌<◌, ◌≤◌, length, Ok, Err, true, false};
ghost use Rattle.x25_frame.specs.Frame.{plain};
ghost use Rattle.x25_frame.specs.Reading.{frame_of};
ghost use Rattle.x25_link.specs.Station.{is_up};
ghost use Rattle.x25_link.specs.code.Fits.{Leads, Hears};
ghost use Rattle.x25_link.specs.Hearing.{numbered, hears_info, polls, peer_is, goes_back, quiet, row_of};
ghost use Rattle.x25_link.specs.Hearing.{other};
ghost use Rattle.x25_link.specs.Link.{declines, when_down, when_waiting, when_closed, hears};

use crate::frames::Frames;
use crate::frmr::{BAD_INFORMATION, INVALID_NR, LONG_INFORMATION, UNDEFINED_CONTROL};
use crate::heard::Heard;
use crate::phase::{Ending, Phase, Reason};
use crate::station::LinkStation;
use x25_bits::Seq;
use x25_frame::{Frame, FrameError, decode};

impl LinkStation {
    // ---- Up

    // An I frame.
    fn hear_i<'a>(
        &mut self,
        octets: &[u8],
        ns: Seq,
        nr: Seq,
        p: bool,
        info: &'a [u8],
        out: &mut Frames,
    ) -> Heard<'a>
        requires place { length out.old < 25 }
        ensures step { Hears self.old self.new out.old out.new result
            (λ c t. numbered c octets.now nr.number (hears_info c.window ns.number p info.now) t) }
        ensures one { length out.new ≤ length out.old + 1 }
    {
        let Some(acknowledged) = self.acknowledge(nr) else {
            return self.reject(octets, INVALID_NR, out);
        };
        if self.is_busy() || !self.receiver.accept(ns) {
            self.pass_over(p, out);
            return Heard::numbered(None, acknowledged);
        }
        self.rejecting = false;
        if p || !self.pump_once(out) {
            self.ready(false, p, out);
        }
        Heard::numbered(Some(info), acknowledged)
    }

    // RR, or RNR where the peer is busy.
    #[inline(always)]
    fn hear_ready<'a>(
        &mut self,
        octets: &[u8],
        busy: bool,
        command: bool,
        nr: Seq,
        pf: bool,
        out: &mut Frames,
    ) -> Heard<'a>
        requires { length out.old < 25 }
        ensures step { Hears self.old self.new out.old out.new result
            (λ c t. numbered c octets.now nr.number (λ u. quiet (polls command pf (peer_is busy u))) t) }
        ensures one { length out.new ≤ length out.old + 1 }
    {
        let Some(acknowledged) = self.acknowledge(nr) else {
            return self.reject(octets, INVALID_NR, out);
        };
        self.peer_busy = busy;
        self.poll(command, pf, out);
        Heard::numbered(None, acknowledged)
    }

    // REJ.
    fn hear_rej<'a>(
        &mut self,
        octets: &[u8],
        command: bool,
        nr: Seq,
        pf: bool,
        out: &mut Frames,
    ) -> Heard<'a>
        requires { length out.old < 25 }
        ensures step { Hears self.old self.new out.old out.new result
            (λ c t. numbered c octets.now nr.number (λ u. quiet (polls command pf (goes_back (peer_is false u)))) t) }
        ensures one { length out.new ≤ length out.old + 1 }
    {
        let Some(acknowledged) = self.acknowledge(nr) else {
            return self.reject(octets, INVALID_NR, out);
        };
        self.peer_busy = false;
        self.outgoing.go_back();
        self.poll(command, pf, out);
        Heard::numbered(None, acknowledged)
    }

    // Octets that spell no frame, in Up.
    fn hear_error<'a>(&mut self, octets: &[u8], error: FrameError, out: &mut Frames) -> Heard<'a>
        requires { length out.old < 25 }
        ensures step { Hears self.old self.new out.old out.new result (λ c t. row_of c octets.now (Err error) t) }
        ensures one { length out.new ≤ length out.old + 1 }
    {
        match error {
            FrameError::Undefined { .. } => self.reject(octets, UNDEFINED_CONTROL, out),
            FrameError::NoInfoAllowed { .. } => self.reject(octets, BAD_INFORMATION, out),
            FrameError::TooLong => self.reject(octets, LONG_INFORMATION, out),
            FrameError::Short | FrameError::BadFcs | FrameError::BadAddress => Heard::quiet(),
        }
    }

    // ---- the other phases

    // A command with P=1 is answered by DM.
    fn decline(&self, frame: &Frame, out: &mut Frames)
        requires { length out.old < 25 }
        ensures step { Leads self.now self.now out.old out.new (λ c t. declines (plain frame.now) t) }
        ensures one { length out.new ≤ length out.old + 1 }
    {
        if frame.is_poll() {
            self.send(&Frame::Dm { f: true }, out);
        }
    }

    // A frame, in Down.
    #[cold]
    fn hear_down<'a>(&mut self, frame: &Frame, out: &mut Frames) -> Heard<'a>
        requires { length out.old < 25 }
        ensures step { Hears self.old self.new out.old out.new result (λ c t. when_down (plain frame.now) t) }
        ensures one { length out.new ≤ length out.old + 1 }
    {
        match frame {
            Frame::Sabm { p } => {
                self.send(&Frame::Ua { f: *p }, out);
                self.set_up();
                Heard::noted(None, true)
            }
            Frame::Disc { p } => {
                self.send(&Frame::Dm { f: *p }, out);
                Heard::quiet()
            }
            _ => {
                self.decline(frame, out);
                Heard::quiet()
            }
        }
    }

    // A frame, in Waiting.
    #[cold]
    fn hear_waiting<'a>(&mut self, frame: &Frame, out: &mut Frames) -> Heard<'a>
        requires { length out.old < 25 }
        ensures step { Hears self.old self.new out.old out.new result (λ c t. when_waiting (plain frame.now) t) }
        ensures one { length out.new ≤ length out.old + 1 }
    {
        match frame {
            Frame::Ua { f: true } => {
                self.set_up();
                Heard::noted(None, true)
            }
            Frame::Sabm { p } => {
                self.send(&Frame::Ua { f: *p }, out);
                Heard::quiet()
            }
            Frame::Disc { p } => {
                self.send(&Frame::Dm { f: *p }, out);
                Heard::quiet()
            }
            _ => Heard::quiet(),
        }
    }

    // A frame, in Closed.
    #[cold]
    fn hear_closed<'a>(&mut self, frame: &Frame, out: &mut Frames) -> Heard<'a>
        requires { length out.old < 25 }
        ensures step { Hears self.old self.new out.old out.new result (λ c t. when_closed (plain frame.now) t) }
        ensures one { length out.new ≤ length out.old + 1 }
    {
        match frame {
            Frame::Ua { f: true } => self.end_closing(Ending::ByUa),
            Frame::Dm { f: true } => self.end_closing(Ending::ByDm),
            _ => {
                self.decline(frame, out);
                Heard::quiet()
            }
        }
    }

    // Octets, in a phase other than Up.
    #[cold]
    #[inline(never)]
    fn hear_apart<'a>(&mut self, octets: &[u8], out: &mut Frames) -> Heard<'a>
        requires apart { is_up self.old.phase ≡ false }
        requires place { length out.old < 25 }
        ensures step { Hears self.old self.new out.old out.new result
            (λ c t. hears c octets.now (frame_of (other c.role) c.longest octets.now) t.near.phase t) }
        ensures one { length out.new ≤ length out.old + 1 }
    {
        let read = decode(self.role.other(), self.parameters.n1, octets);
        let Ok(frame) = read else {
            return Heard::quiet();
        };
        // Up isn't met here.
        match self.phase {
            Phase::Down => self.hear_down(&frame, out),
            Phase::Waiting => self.hear_waiting(&frame, out),
            Phase::Up | Phase::Closed => self.hear_closed(&frame, out),
        }
    }

    // ---- all phases

    /// What the octets bring, before the sending rule.
    pub fn hear<'a>(&mut self, octets: &'a [u8], out: &mut Frames) -> Heard<'a>
        requires place { length out.old < 25 }
        ensures step { Hears self.old self.new out.old out.new result
            (λ c t. hears c octets.now (frame_of (other c.role) c.longest octets.now) t.near.phase t) }
        ensures one { length out.new ≤ length out.old + 1 }
    {
        if !self.phase.is_up() {
            return self.hear_apart(octets, out);
        }
        let read = decode(self.role.other(), self.parameters.n1, octets);
        let frame = match read {
            Ok(frame) => frame,
            Err(error) => return self.hear_error(octets, error, out),
        };
        match frame {
            Frame::I { ns, nr, p, info } => self.hear_i(octets, ns, nr, p, info, out),
            Frame::Rr { command, nr, pf } => self.hear_ready(octets, false, command, nr, pf, out),
            Frame::Rnr { command, nr, pf } => self.hear_ready(octets, true, command, nr, pf, out),
            Frame::Rej { command, nr, pf } => self.hear_rej(octets, command, nr, pf, out),
            Frame::Sabm { p } => {
                self.send(&Frame::Ua { f: p }, out);
                self.set_up();
                Heard::noted(Some(Reason::Reset), true)
            }
            Frame::Disc { p } => {
                self.send(&Frame::Ua { f: p }, out);
                self.leave(Reason::Disc)
            }
            Frame::Ua { .. } => Heard::quiet(),
            Frame::Dm { .. } => self.leave(Reason::Dm),
            Frame::Frmr { .. } => self.leave(Reason::FrmrGot),
        }
    }
}
