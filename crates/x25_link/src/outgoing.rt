ghost use Rattle.std.specs.Prelude.{◌≡◌, ℕ, ◌+◌, ◌-◌, ◌%◌, ◌<◌, ◌≤◌, List, [], ◌∷◌, ◌++◌, length};
ghost use Rattle.std.specs.Prelude.{IfOk, IfErr, MatchOption};
ghost use Rattle.std.specs.Prelude.{true, false, not, ◌&&◌, if◌then◌else◌};
ghost use Rattle.x25_window.specs.Sender.{Sending, acknowledged, offered};
ghost use Rattle.x25_window.specs.code.Held.{Fits, with_item};
ghost use Rattle.x25_frame.specs.Frame.{info};
ghost use Rattle.x25_frame.specs.Spelling.{spelling_of};
ghost use Rattle.x25_link.specs.Outgoing.{Outgoing as OutgoingState, no_packet, added, gone_back};
ghost use Rattle.x25_link.specs.Outgoing.{is_open, next_packet, waits};
ghost use Rattle.x25_link.specs.Outgoing.{moved_on as sent_on};
ghost use Rattle.x25_link.specs.code.Places.{longs, left_for};

use crate::error::LinkError;
use crate::frames::Frames;
use crate::places::{Packet, Places};
use circular_buffer::HeapCircularBuffer;
use std::alloc::Global;
use x25_bits::{Role, Seq};
use x25_window::Sender;

/// How many places there are for long packets: for 7 that stand unacknowledged and 8 that wait, as a packet layer has
/// them.
const LONG_PACKETS: usize = 15;

/// How many packets may wait.
pub const PLACES: usize = 256;

/// The packets handed down that aren't acknowledged: those that were sent, and behind them those that wait. And the
/// places that none of them stands in.
#[derive(Drop)]
pub struct Outgoing {
    pub sender: Sender<Packet>,
    /// The packets that wait, in a ring that is made once.
    pub queue: HeapCircularBuffer<Packet>,
    pub places: Places,
    ghost ring: { queue.capacity ≡ 256 },
    ghost long_ones: { places.long.all ≡ 15 },
    ghost window: { sender.window ≤ 7 },
    ghost sent: { length sender.items ≤ sender.window },
    ghost short: { places.short.left + (length sender.items + length queue.items)
        ≡ 263 + (longs sender.items + longs queue.items) },
    ghost long: { places.long.left + (longs sender.items + longs queue.items) ≡ places.long.all },
}

impl Outgoing {
    ghost use Rattle.x25_link.specs.code.OutgoingHeld.{FitsOutgoing};

    /// No packet, or `None` where the window k isn't 1 to 7. 70 alone.
    #[tactic(auto, using(crate::proofs::PlaceLemmas::longs_none))]
    pub fn new(alloc: Global, window: u8) -> Result<Option<Outgoing>, LinkError>
        ensures fits { IfOk result (λ made. MatchOption made
            (¬ ((1 ≤ window) × (window ≤ 7))) (λ b. FitsOutgoing window b no_packet)) }
        ensures err { IfErr result (λ e. e ≡ LinkError.NoMemory) }
    {
        let Some(sender) = Sender::new(alloc, window)? else {
            return Ok(None);
        };
        let queue = HeapCircularBuffer::with_capacity(alloc, PLACES)?;
        Ok(Some(Outgoing {
            sender,
            queue,
            places: Places::new(alloc, LONG_PACKETS)?,
        }))
    }

    /// The highest number ever sent plus one.
    #[tactic(auto, using(crate::proofs::OutgoingLemmas::sent_length))]
    pub fn top(&self) -> Seq
        ensures { (k : ℕ) (o : OutgoingState) → FitsOutgoing k self.now o → result.number ≡ o.sent % 8 }
    {
        self.sender.top()
    }

    /// Takes the first packets as acknowledged, and their places back.
    pub fn release(&mut self, count: u8)
        requires { count ≤ length self.old.sender.items }
        ensures sender { (w : Sending (List ℕ)) → Fits self.old.sender w
            → Fits self.new.sender (acknowledged w (w.acked + count)) }
        ensures queue { self.new.queue ≡ self.old.queue }
        ensures left { length self.new.sender.items + count ≡ length self.old.sender.items }
    {
        for _packet in 0..count {
            let packet = self.sender.release();
            self.places.give(packet);
        }
    }

    /// Moves the place to send from back to the first frame that isn't acknowledged.
    pub fn go_back(&mut self)
        ensures state { (k : ℕ) (o : OutgoingState) → FitsOutgoing k self.old o
            → FitsOutgoing k self.new (gone_back o) }
    {
        self.sender.go_back();
    }

    /// Drops all packets.
    #[cold]
    pub fn clear(&mut self)
        ensures state { (k : ℕ) (o : OutgoingState) → FitsOutgoing k self.old o → FitsOutgoing k self.new no_packet }
    {
        let unacked = self.sender.unacked();
        self.release(unacked);
        let waiting = self.queue.len();
        for _packet in 0..waiting {
            if let Some(packet) = self.queue.pop_front() {
                self.places.give(packet);
            }
        }
        self.sender.clear();
    }

    /// Takes a packet, which waits where frames are held up. Else nothing may be sent before it: so it goes at once if
    /// the window is open, for then none waits. `false` where no place is left for it.
    pub fn put(&mut self, packet: &[u8], held: bool, from: Role, nr: Seq, out: &mut Frames) -> bool
        requires few { length self.old.queue.items < 256 }
        requires fits { length packet.now ≤ 4099 }
        requires place { length out.old < 25 }
        ensures step { (k : ℕ) (o : OutgoingState) → FitsOutgoing k self.old o → (held ≡ false → is_open k o ≡ false)
            → result ≡ true → FitsOutgoing k self.new
            (if not held && is_open k (added packet.now o) then sent_on (added packet.now o) else added packet.now o) }
        ensures made { (k : ℕ) (o : OutgoingState) → FitsOutgoing k self.old o → (held ≡ false → is_open k o ≡ false)
            → result ≡ true → out.new ≡ (if not held && is_open k (added packet.now o)
            then out.old
            ++ spelling_of from (info (o.place % 8) nr.number false (next_packet (added packet.now o))) ∷ []
            else out.old) }
        ensures refused { result ≡ false → (self.new ≡ self.old) × (out.new ≡ out.old)
            × (left_for self.old.places.short self.old.places.long (length packet.now) ≡ 0) }
        ensures one { length out.new ≤ length out.old + 1 }
    {
        let Some(packet) = self.places.take(packet) else {
            return false;
        };
        if held | self.sender.is_full() {
            let _ = self.queue.push_back(packet);
            return true;
        }
        send_new(&mut self.sender, packet, from, nr, out);
        true
    }

    /// Sends the next packet, again or new, where the window is open and there is one. It says whether it did.
    #[inline(always)]
    pub fn send_next(&mut self, from: Role, nr: Seq, out: &mut Frames) -> bool
        requires { length out.old < 25 }
        ensures sent { (k : ℕ) (o : OutgoingState) → FitsOutgoing k self.old o → result ≡ is_open k o }
        ensures step { (k : ℕ) (o : OutgoingState) → FitsOutgoing k self.old o
            → FitsOutgoing k self.new (if result then sent_on o else o) }
        ensures made { (k : ℕ) (o : OutgoingState) → FitsOutgoing k self.old o →
            out.new ≡ (if result
            then out.old ++ spelling_of from (info (o.place % 8) nr.number false (next_packet o)) ∷ []
            else out.old) }
        ensures queue { length self.new.queue.items ≤ length self.old.queue.items }
        ensures one { length out.new ≤ length out.old + 1 }
        ensures none { result ≡ false → out.new ≡ out.old }
    {
        let is_closed = self.sender.is_full();
        if let Some((ns, packet)) = self.sender.next() {
            out.push_packet(from, ns, nr, packet.as_slice());
            return true;
        }
        if is_closed {
            return false;
        }
        let Some(packet) = self.queue.pop_front() else {
            return false;
        };
        send_new(&mut self.sender, packet, from, nr, out);
        true
    }
}

// Sends a packet for the first time.
#[inline(always)]
fn send_new(sender: &mut Sender<Packet>, packet: Packet, from: Role, nr: Seq, out: &mut Frames)
    requires place { length out.old < 25 }
    requires open { ¬ (length sender.old.items ≡ sender.old.window) }
    ensures step { (w : Sending (List ℕ)) → Fits sender.old w → length w.given < w.acked + w.window
        → Fits sender.new (offered w packet) }
    ensures made { (w : Sending (List ℕ)) → Fits sender.old w →
        out.new ≡ out.old ++ spelling_of from (info (length w.given % 8) nr.number false packet) ∷ [] }
    ensures held { sender.new ≡ with_item sender.old packet }
    ensures one { length out.new ≡ length out.old + 1 }
{
    out.push_packet(from, sender.top(), nr, packet.as_slice());
    sender.offer(packet).unwrap();
}
