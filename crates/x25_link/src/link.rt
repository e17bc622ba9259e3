ghost use Rattle.std.specs.Prelude.{◌≡◌, ◌+◌, ◌<◌, ◌≤◌, [], length, true, None, Ok, IfOk, OnOk, OnErr, IsOk};
ghost use Rattle.x25_link.specs.Station.{LinkSettings, LinkStation as StationState, is_up, awaits_ua, with_nothing};
ghost use Rattle.x25_link.specs.Station.{awaits_end, settings_of};
ghost use Rattle.x25_link.specs.Outgoing.{waits};
ghost use Rattle.x25_link.specs.Link.{Refuses, config_refusal, take_step, put_refusal, connect_refusal};
ghost use Rattle.x25_link.specs.Link.{connect_step, disconnect_refusal, disconnect_step, timer_refusal, timer_runs};
ghost use Rattle.x25_link.specs.Link.{timer_step, abandon_step, is_idle, probe_refusal, relink_refusal, relink_step};
ghost use Rattle.x25_link.specs.code.FitsLink.{LinkState as State, FitsLink, FitsWhole, Does, after_put_to};
ghost use Rattle.x25_link.specs.code.FitsLink.{limit_of, up_of, waiting_of};
ghost use Rattle.x25_link.specs.code.Frames.{places_left};
ghost use Rattle.x25_link.specs.declared.phase.Phase.TheVariants.{Down};

use crate::error::LinkError;
use crate::frames::{Frames, MOST_FRAMES};
use crate::heard::Heard;
use crate::outgoing::{Outgoing, PLACES};
use crate::phase::{Closing, Phase, Reason};
use crate::station::{FRAMES, LinkStation, Parameters};
use std::alloc::Global;
use std::marker::Model;
use std::mem;
use x25_bits::Role;
use x25_frame::N1;
use x25_window::Receiver;

/// A LAPB station, DTE or DCE. ITU-T X.25 (10/96), section 2.
///
/// Each call leaves its frames for `swap_frames`, in place of those of the call before, and `put` leaves its own behind
/// those.
#[derive(Drop)]
pub struct Link {
    station: LinkStation,
    frames: Frames,
}

impl Model for Link {
    ghost use Rattle.x25_link.specs.code.FitsLink.{ShownLink};

    ghost Value = { ShownLink };

    ghost view = { λ l. record { station = l.station; frames = l.frames } };

    ghost invariant = { λ _. Unit {0} };
}

impl Link {
    /// A link that is down. `k` is the window, 1 to 7; `n1` the most octets of a packet, 1 to 4,099; and a command that
    /// isn't answered is sent `n2` times more, 1 to 255: DISC only where `disc_again` is set.
    ///
    /// 14 where one is out of its range, then 70.
    pub fn new(
        alloc: Global,
        role: Role,
        k: u8,
        n1: usize,
        n2: u8,
        disc_again: bool,
    ) -> Result<Link, LinkError>
        ensures state { IfOk result (λ l. FitsLink (settings_of role k n1 n2 disc_again) l (with_nothing Down 0)) }
        ensures no_frames { IfOk result (λ l. l.frames ≡ []) }
        ensures refused { Refuses (config_refusal k n1 n2) result }
    {
        if k < 1 || k > FRAMES || n1 < 1 || n1 > N1 || n2 < 1 {
            return Err(LinkError::BadConfig);
        }
        let Some(outgoing) = Outgoing::new(alloc, k)? else {
            return Err(LinkError::BadConfig);
        };
        Ok(Link {
            station: LinkStation {
                role,
                parameters: Parameters { n1, n2, disc_again },
                outgoing,
                receiver: Receiver::new(),
                phase: Phase::Down,
                tries: 0,
                recovery: false,
                peer_busy: false,
                rejecting: false,
                said_busy: false,
                closing: Closing::Unasked,
            },
            frames: Frames::new(alloc)?,
        })
    }

    /// Begins to set the link up: SABM with P=1.
    ///
    /// 12 where it is being set up, 13 where it is closed, 15 where it is up.
    pub fn connect(&mut self) -> Result<Heard<'static>, LinkError>
        ensures { Does self.old self.new result (λ s. connect_refusal s.phase) connect_step }
    {
        match self.station.phase {
            Phase::Down => {}
            Phase::Waiting => return Err(LinkError::AlreadyWaiting),
            Phase::Up => return Err(LinkError::AlreadyUp),
            Phase::Closed => return Err(LinkError::Closed),
        }
        self.frames.clear();
        self.station.connect(&mut self.frames);
        Ok(Heard::quiet())
    }

    /// Takes octets, frame check sequence included, and does what they ask for by the must-send table and the phases.
    pub fn hear<'a>(&mut self, octets: &'a [u8]) -> Heard<'a>
        ensures { Does self.old self.new (Ok result) (λ s. None) (λ c s. take_step c octets.now s) }
    {
        self.frames.clear();
        let heard = self.station.hear(octets, &mut self.frames);
        self.station.end(&mut self.frames);
        heard
    }

    /// Disconnects this end, for good: DISC with P=1, which is sent again where `new` was told so, until `closing` has
    /// its end. It notes LinkDown(local) where the link was up.
    ///
    /// 13 where it is closed.
    pub fn disconnect(&mut self) -> Result<Heard<'static>, LinkError>
        ensures { Does self.old self.new result (λ s. disconnect_refusal s.phase) disconnect_step }
    {
        match self.station.phase {
            Phase::Down | Phase::Waiting | Phase::Up => {}
            Phase::Closed => return Err(LinkError::Closed),
        }
        self.frames.clear();
        Ok(self.station.disconnect(&mut self.frames))
    }

    /// A firing of timer T1: a SABM, a poll or a DISC again, or after `n2` of these LinkDown(retries), or the end of a
    /// DISC.
    ///
    /// 11 where the timer doesn't run.
    pub fn t1(&mut self) -> Result<Heard<'static>, LinkError>
        ensures { Does self.old self.new result timer_refusal timer_step }
    {
        if !self.timer_runs() {
            return Err(LinkError::NotRunning);
        }
        self.frames.clear();
        Ok(self.station.fire(&mut self.frames))
    }

    /// Polls the other end, whether timer T1 runs or not: RR with P=1, or RNR where this end is busy. It counts as a
    /// firing of T1 does, so after `n2` of these without an answer it notes LinkDown(retries).
    ///
    /// 9 where the link isn't up, 13 where it is closed.
    pub fn probe(&mut self) -> Result<Heard<'static>, LinkError>
        ensures { Does self.old self.new result (λ s. probe_refusal s.phase) timer_step }
    {
        match self.station.phase {
            Phase::Up => {}
            Phase::Down | Phase::Waiting => return Err(LinkError::NotUp),
            Phase::Closed => return Err(LinkError::Closed),
        }
        self.frames.clear();
        let heard = self.station.fire(&mut self.frames);
        Ok(heard)
    }

    /// Sets a link that is up up anew: it notes LinkDown(local), and sends SABM with P=1.
    ///
    /// 9 where the link is down, 12 where it is being set up, 13 where it is closed.
    pub fn relink(&mut self) -> Result<Heard<'static>, LinkError>
        ensures { Does self.old self.new result (λ s. relink_refusal s.phase) relink_step }
    {
        match self.station.phase {
            Phase::Up => {}
            Phase::Down => return Err(LinkError::NotUp),
            Phase::Waiting => return Err(LinkError::AlreadyWaiting),
            Phase::Closed => return Err(LinkError::Closed),
        }
        self.frames.clear();
        Ok(self.station.relink(&mut self.frames))
    }

    /// Leaves Up without a frame, and notes LinkDown(counts) (profile).
    pub fn abandon(&mut self) -> Heard<'static>
        requires { up_of self.old ≡ true }
        ensures { Does self.old self.new (Ok result) (λ s. None) abandon_step }
    {
        self.frames.clear();
        self.station.leave(Reason::Counts)
    }

    /// Exchanges the frames to send with those of a list, which stand before the frames of later calls of `put`.
    pub fn swap_frames(&mut self, frames: &mut Frames)
        ensures frames { frames.new ≡ self.old.frames }
        ensures link { self.new ≡ record self.old { frames = frames.old } }
    {
        mem::swap(&mut self.frames, frames);
    }

    /// Whether the link is up, nothing waits and all that was sent is acknowledged.
    pub fn idle(&self) -> bool
        ensures { (c : LinkSettings) (s : StationState) → FitsLink c self.now s → result ≡ is_idle s }
    {
        let outgoing = &self.station.outgoing;
        self.is_up() && outgoing.queue.len() == 0 && outgoing.sender.unacked() == 0
    }

    /// Whether this end sent a SABM and awaits its UA.
    pub fn awaits_ua(&self) -> bool
        ensures { (c : LinkSettings) (s : StationState) → FitsLink c self.now s → result ≡ awaits_ua s.phase }
    {
        self.station.phase.awaits_ua()
    }

    /// Whether timer T1 runs: exactly where `t1` isn't refused with 11.
    pub fn timer_runs(&self) -> bool
        ensures { (c : LinkSettings) (s : StationState) → FitsLink c self.now s → result ≡ timer_runs s.phase s }
    {
        let station = &self.station;
        if station.phase.is_up() {
            // One test: a branch for each is often guessed wrong.
            (station.outgoing.sender.unacked() > 0) | (station.recovery | station.peer_busy)
        } else {
            station.timer_runs_apart()
        }
    }

    /// Whether the answer to a DISC is awaited.
    pub fn is_closing(&self) -> bool
        ensures { (c : LinkSettings) (s : StationState) → FitsLink c self.now s
            → result ≡ awaits_end s.phase s.closing }
    {
        self.station.phase.is_closed() && self.station.closing.is_asked()
    }

    /// What became of the DISC of a link that sends it again.
    pub fn closing(&self) -> Closing
        ensures { (c : LinkSettings) (s : StationState) → FitsLink c self.now s → result ≡ s.closing }
    {
        self.station.closing
    }

    /// The most octets of a packet that is handed down.
    pub fn limit(&self) -> usize
        ensures { result ≡ limit_of self.now }
    {
        self.station.parameters.n1
    }

    /// How many packets wait to be sent.
    pub fn waiting(&self) -> usize
        ensures value { result ≡ waiting_of self.now }
        ensures state { (c : LinkSettings) (s : StationState) → FitsLink c self.now s → result ≡ waits s.outgoing }
        ensures few { result ≤ 256 }
    {
        self.station.outgoing.queue.len()
    }

    /// Whether the link is up.
    pub fn is_up(&self) -> bool
        ensures value { result ≡ up_of self.now }
        ensures state { (c : LinkSettings) (s : StationState) → FitsLink c self.now s → result ≡ is_up s.phase }
    {
        self.station.phase.is_up()
    }

    /// Copies a packet of at most `limit()` octets, and hands it down behind all others. It takes no memory.
    ///
    /// 9 where the link isn't up, then 10 where 256 packets wait, and else 70 alone, only where 25 frames stand, or
    /// where 8 or more packets wait and this one has more than 260 octets.
    #[inline(always)]
    pub fn put(&mut self, packet: &[u8]) -> Result<(), LinkError>
        requires { length packet.now ≤ limit_of self.old }
        ensures state { (x : State) → FitsWhole self.old x
            → OnOk result (FitsWhole self.new (after_put_to x packet.now)) }
        ensures refused { (c : LinkSettings) (s : StationState) → FitsLink c self.old s
            → Refuses (put_refusal s) result }
        ensures accepted { up_of self.old ≡ true → waiting_of self.old < 256 → 0 < places_left self.old.frames
            → length packet.now ≤ 260 → IsOk result }
        ensures long { up_of self.old ≡ true → waiting_of self.old < 8 → 0 < places_left self.old.frames → IsOk result }
        ensures places { OnOk result (places_left self.old.frames ≤ places_left self.new.frames + 1) }
        ensures up_stays { up_of self.new ≡ up_of self.old }
        ensures longest_stays { limit_of self.new ≡ limit_of self.old }
        ensures err { OnErr result (self.new ≡ self.old) }
    {
        if !self.station.phase.is_up() {
            return Err(LinkError::NotUp);
        }
        if self.station.outgoing.queue.len() == PLACES {
            return Err(LinkError::QueueFull);
        }
        if self.frames.len() == MOST_FRAMES {
            return Err(LinkError::NoMemory);
        }
        let station = &mut self.station;
        let held = station.recovery | station.peer_busy;
        let nr = station.receiver.wanted();
        let outgoing = &mut station.outgoing;
        if !outgoing.put(packet, held, station.role, nr, &mut self.frames) {
            return Err(LinkError::NoMemory);
        }
        Ok(())
    }
}
