ghost use Rattle.std.specs.Prelude.{◌≡◌, ℕ, ◌+◌, ◌%◌, ◌<◌, ◌≤◌, nat_le, length, drop, List, ◌∷◌, []};
ghost use Rattle.std.specs.Prelude.{◌++◌, true};
ghost use Rattle.std.specs.Prelude.{false, IfOk, IfErr, OnOk, OnErr, IfSome, IfNone};
ghost use Rattle.std.specs.Prelude.{Some, None, if◌then◌else◌, max, vec_capacity};
ghost use Rattle.x25_window.specs.code.Modulo.{resolved};
ghost use Rattle.x25_circuit.specs.code.FitsNumbers.{FitsNumbers};
ghost use Rattle.x25_circuit.specs.Message.{Piece, cut};
ghost use Rattle.x25_circuit.specs.Message.{asks as asks_of, asked_in};
ghost use Rattle.x25_circuit.specs.Circuit.{Talk, silent};
ghost use Rattle.x25_circuit.specs.Queue.{waiting};
ghost use Rattle.x25_circuit.specs.code.Changes.{with_acked, with_rest};

use crate::error::CircuitError;
use crate::message::PartialMessage;
use crate::queue::Queue;
use crate::sent::Sent;
use crate::terms::Terms;
use std::alloc::{AllocError, Global};
use x25_bits::{Seq, with_octets};
use x25_packet::Marks;
use x25_window::{Receiver, Sender};

/// The most packets of a window.
pub const PACKETS: u8 = 7;

/// What a data packet says beside its user data.
#[derive(Clone, Copy)]
pub struct Header {
    pub marks: Marks,
    pub m: bool,
    pub ps: Seq,
    pub pr: Seq,
}

/// The variables of data transfer, p4. ITU-T X.25 (10/96), sections 4.3 and 4.4.
#[derive(Drop)]
pub struct Transfer {
    /// Of each packet sent whether a message ends with it of which confirmation was asked; its user data isn't kept.
    pub sender: Sender<bool>,
    pub receiver: Receiver,
    pub queue: Queue,
    pub partial: PartialMessage,
    /// How many messages haven't the confirmation yet that was asked of them.
    pub unconfirmed: u8,
    /// This end's interrupt isn't confirmed yet.
    pub interrupt_out: bool,
    pub peer_ready: bool,
    pub own_ready: bool,
}

// Counts one packet more as sent, with whether it asks for confirmation, and gives the number that it has.
fn count_sent(sender: &mut Sender<bool>, asks: bool) -> Seq
    requires { length sender.old.items < 7 }
    ensures number { (n : ℕ) (sent : List Piece) → FitsNumbers sender.old n sent → result.number ≡ length sent % 8 }
    ensures fits { (n : ℕ) (sent : List Piece) (p : Piece) → FitsNumbers sender.old n sent → asks_of p ≡ asks
        → FitsNumbers sender.new n (sent ++ p ∷ []) }
{
    let ps = sender.top();
    // Fewer than seven stand unacknowledged, so this isn't refused.
    sender.offer(asks).ok();
    ps
}

// So many packets are acknowledged: how many of them ask for confirmation.
fn acknowledge(sender: &mut Sender<bool>, count: u8) -> u8
    requires { count ≤ length sender.old.items }
    ensures fits { (n : ℕ) (sent : List Piece) → FitsNumbers sender.old n sent
        → FitsNumbers sender.new (n + count) sent }
    ensures asked { (n : ℕ) (sent : List Piece) → FitsNumbers sender.old n sent
        → result + asked_in (drop (n + count) sent) ≡ asked_in (drop n sent) }
    ensures few { result ≤ count }
{
    let mut asked = 0;
    for _packet in 0..count {
        asked += u8::from(sender.release());
    }
    asked
}

impl Transfer {
    ghost use Rattle.x25_circuit.specs.code.Fits.{FitsTalk, IsSent, IsHeld};

    /// Nothing was sent or taken, nothing waits, and both ends are ready. 70 alone.
    pub fn new(alloc: Global, longest: usize) -> Result<Transfer, CircuitError>
        requires { longest ≤ 65535 }
        ensures fits { (size : ℕ) → IfOk result (λ t. FitsTalk size t silent) }
        ensures made { IfOk result (λ t. t.partial.made ≡ false) }
        ensures longest { IfOk result (λ t. t.partial.longest ≡ longest) }
        ensures err { IfErr result (λ e. e ≡ CircuitError.NoMemory) }
    {
        let Some(sender) = Sender::new(alloc, PACKETS)? else {
            unreachable!();
        };
        let queue = Queue::new(alloc)?;
        Ok(Transfer {
            sender,
            receiver: Receiver::new(),
            queue,
            partial: PartialMessage::new(alloc, longest),
            unconfirmed: 0,
            interrupt_out: false,
            peer_ready: true,
            own_ready: true,
        })
    }

    /// Makes the memory of the message in part, where there is none. Err: no memory; all is as it was then.
    pub fn make(&mut self) -> Result<(), AllocError>
        ensures fits { (size : ℕ) (t : Talk) → FitsTalk size self.old t → FitsTalk size self.new t }
        ensures longest { self.new.partial.longest ≡ self.old.partial.longest }
        ensures made { OnOk result (self.new.partial.made ≡ true) }
        ensures missing { OnErr result (self.old.partial.made ≡ false) }
        ensures unchanged { OnErr result (self.new ≡ self.old) }
    {
        self.partial.make()
    }

    /// Drops everything, and keeps the memory of the message in part.
    pub fn clear(&mut self)
        ensures fits { (size other : ℕ) (t : Talk) → FitsTalk size self.old t → FitsTalk other self.new silent }
        ensures made { self.new.partial.made ≡ self.old.partial.made }
        ensures longest { self.new.partial.longest ≡ self.old.partial.longest }
    {
        self.sender.clear();
        self.receiver = Receiver::new();
        self.queue.cutter.clear();
        self.queue.ring.clear();
        self.partial.clear();
        self.unconfirmed = 0;
        self.interrupt_out = false;
        self.peer_ready = true;
        self.own_ready = true;
    }

    /// Takes a received P(R), and says whether it is valid. All packets below it are acknowledged.
    pub fn ack(&mut self, pr: Seq) -> bool
        ensures valid { (size : ℕ) (t : Talk) → FitsTalk size self.old t
            → result ≡ nat_le (resolved t.acked pr.number) (length t.sent) }
        ensures fits { (size : ℕ) (t : Talk) → FitsTalk size self.old t → result ≡ true
            → FitsTalk size self.new (with_acked (resolved t.acked pr.number) t) }
        ensures partial { self.new.partial ≡ self.old.partial }
        ensures receiver { self.new.receiver ≡ self.old.receiver }
        ensures queue { self.new.queue ≡ self.old.queue }
        ensures unchanged { result ≡ false → self.new ≡ self.old }
    {
        if self.unconfirmed == 0 {
            return self.sender.ack(pr).is_ok();
        }
        let Ok(count) = self.sender.acknowledges(pr) else {
            return false;
        };
        let asked = acknowledge(&mut self.sender, count);
        self.unconfirmed = self.unconfirmed.saturating_sub(asked);
        true
    }

    /// Lets a copy of a message wait. Err: no memory; all is as it was then.
    pub fn push(&mut self, marks: Marks, user: &[u8]) -> Result<(), AllocError>
        requires few { length (waiting self.old.queue) < 8 }
        requires short { length user.now ≤ 65535 }
        ensures fits { (size : ℕ) (t : Talk) → FitsTalk size self.old t
            → OnOk result (FitsTalk size self.new (with_rest (t.rest ++ cut size marks user.now) t)) }
        ensures partial { self.new.partial ≡ self.old.partial }
        ensures unchanged { OnErr result (self.new ≡ self.old) }
    {
        let memory = self.queue.memory(user.len())?;
        self.queue.push(Sent::of(marks, with_octets(memory, user)));
        self.unconfirmed = self.unconfirmed.saturating_add(u8::from(marks.d));
        Ok(())
    }

    /// Sends the next data packet, where the other end is ready, the window is open and a message waits. Its user data
    /// is lent by `queue`.
    pub fn advance(&mut self, terms: Terms) -> Option<Header>
        ensures some { (t : Talk) → FitsTalk terms.size self.old t
            → IfSome result (λ header. IsSent terms.window terms.size t self.new header) }
        ensures none { (t : Talk) → FitsTalk terms.size self.old t → IfNone result (FitsTalk terms.size self.new t) }
        ensures short { IfSome result (λ header. length self.new.queue.cutter.lent ≤ terms.size) }
        ensures held { (t : Talk) → FitsTalk terms.size self.old t → IfNone result (IsHeld terms.window t) }
        ensures partial { self.new.partial ≡ self.old.partial }
    {
        if !self.peer_ready || self.sender.unacked() >= terms.window {
            return None;
        }
        let Some(cut) = self.queue.cut(terms.size) else {
            return None;
        };
        let ps = count_sent(&mut self.sender, cut.marks.d);
        Some(Header {
            marks: cut.marks,
            m: cut.m,
            ps,
            pr: self.receiver.wanted(),
        })
    }
}
