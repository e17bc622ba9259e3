ghost use Rattle.std.specs.Prelude.{ℕ, ◌≡◌, ◌+◌, ◌-◌, ◌%◌, ◌<◌, ◌≤◌, ◌↔◌, IsTrue, IsErr, OnOk, OnErr, IfOk};
ghost use Rattle.std.specs.Prelude.{IfErr, MatchOption, length, slice_get};
ghost use Rattle.x25_window.specs.code.Modulo.{resolved};
ghost use Rattle.x25_window.specs.Sender.{Sending, Acknowledges, fresh, offered, acknowledged, from_acked};
ghost use Rattle.x25_window.specs.code.Held.{Fits, with_item, without};

use crate::window_error::WindowError;
use circular_buffer::HeapCircularBuffer;
use std::alloc::Global;
use std::marker::Model;
use x25_bits::{NoMemory, Seq};

/// The sending half of a window: the items that were sent and aren't acknowledged, and the place to send from, V(S).
///
/// It fits each state of the window machine whose part it holds: all items ever sent are a list, numbered from 0, and a
/// sequence number stands for the one number of the window that equals it modulo 8.
/// Only `new` takes memory. ITU-T X.25 (10/96), sections 2.3.2 and 2.4.5; for packets 4.4.1.
#[derive(Drop)]
pub struct Sender<T> {
    window: u8,
    first: Seq,
    before: u8,
    items: HeapCircularBuffer<T>,
}

impl<T> Model for Sender<T> {
    ghost use Rattle.x25_window.specs.code.Held.{Held};

    ghost Value = { Held T };

    ghost use Rattle.x25_window.specs.code.SenderFields.{held, IsSound};

    ghost view = { held };

    ghost invariant = { IsSound };
}

impl<T> Sender<T> {
    ghost use Rattle.std.specs.Borrow.{sem};
    ghost use Rattle.x25_window.specs.code.SenderLends.{EndsFitting};

    /// A sender that has sent nothing, with room for `window` items (k, 1 to 7), or `None` for any other window.
    ///
    /// 70 where memory for the items is refused.
    pub fn new(alloc: Global, window: u8) -> Result<Option<Sender<T>>, NoMemory>
        ensures { IfOk result (λ made. MatchOption made (¬ ((1 ≤ window)
            × (window ≤ 7))) (λ sender. Fits sender (fresh window))) }
    {
        if window < 1 || window > 7 {
            return Ok(None);
        }
        let items = HeapCircularBuffer::with_capacity(alloc, window as usize)?;
        Ok(Some(Sender {
            window,
            first: Seq::ZERO,
            before: 0,
            items,
        }))
    }

    /// How many items may stand unacknowledged, k, 1 to 7.
    pub fn window(&self) -> u8
        ensures state { (w : Sending T) → Fits self.now w → result ≡ w.window }
        ensures held { result ≡ self.now.window }
        ensures range { (1 ≤ result) × (result ≤ 7) }
    {
        self.window
    }

    /// How many items aren't acknowledged, at most 7.
    #[tactic(auto, using(crate::proofs::Fitting::Fits_length))]
    pub fn unacked(&self) -> u8
        ensures state { (w : Sending T) → Fits self.now w → w.acked + result ≡ length w.given }
        ensures held { result ≡ length self.now.items }
        ensures few { (result ≤ self.now.window) × (self.now.window ≤ 7) }
    {
        self.items.len() as u8
    }

    /// The number that the next item offered gets, modulo 8: the highest ever sent plus one.
    #[tactic(auto, using(crate::proofs::Fitting::Fits_length))]
    pub fn top(&self) -> Seq
        ensures { (w : Sending T) → Fits self.now w → result.number ≡ length w.given % 8 }
    {
        Seq::modulo(self.first.get() + self.unacked())
    }

    /// Whether as many items stand unacknowledged as the window holds, so that `offer` would be refused.
    #[tactic(auto, using(crate::proofs::Fitting::Fits_length))]
    pub fn is_full(&self) -> bool
        ensures state { (w : Sending T) → Fits self.now w → IsTrue result ↔ (length w.given ≡ w.acked + w.window) }
        ensures held { IsTrue result ↔ (length self.now.items ≡ self.now.window) }
        ensures few { length self.now.items ≤ self.now.window }
    {
        self.unacked() == self.window
    }

    /// Sends a further item: it gets the next number, which is answered modulo 8. The place to send from moves on where
    /// nothing is to be sent again, and else stays. It takes no memory.
    ///
    /// 8 Full exactly where as many items stand unacknowledged as the window holds. The item is dropped then.
    #[inline(always)]
    #[tactic(auto, using(crate::proofs::Fitting::Fits_length))]
    pub fn offer(&mut self, item: T) -> Result<Seq, WindowError>
    where
        T: Drop,
        ensures number { (w : Sending T) → Fits self.old w
            → IfOk result (λ number. number.number ≡ length w.given % 8) }
        ensures step { (w : Sending T) → Fits self.old w → OnOk result (Fits self.new (offered w item)) }
        ensures open { (w : Sending T) → Fits self.old w → OnOk result (length w.given < w.acked + w.window) }
        ensures full { (w : Sending T) → Fits self.old w → OnErr result (length w.given ≡ w.acked + w.window) }
        ensures refused { IsErr result ↔ (length self.old.items ≡ self.old.window) }
        ensures held { OnOk result (self.new ≡ with_item self.old item) }
        ensures error { IfErr result (λ error. error ≡ WindowError.Full) }
        ensures unchanged { OnErr result (self.new ≡ self.old) }
    {
        if self.is_full() {
            return Err(WindowError::Full);
        }
        let number = self.top();
        if self.before == self.unacked() {
            self.before += 1;
        }
        self.items.push_back(item);
        Ok(number)
    }

    /// Moves the place to send from back to the first item that isn't acknowledged.
    pub fn go_back(&mut self)
        ensures state { (w : Sending T) → Fits self.old w → Fits self.new (from_acked w) }
        ensures held { self.new ≡ record self.old { before = 0 } }
    {
        self.before = 0;
    }

    /// The item at the place to send from, with its number modulo 8, and moves on. `None` where all items offered were
    /// sent since the place was last moved back.
    pub fn next(&mut self) -> Option<(Seq, &T)>
        ensures value { (w : Sending T) → Fits self.old w → MatchOption result (w.place ≡ length w.given)
            (λ r. (w.place < length w.given) × (r.0.number ≡ w.place % 8)
            × (slice_get w.given w.place ≡ Some r.1.now)) }
        ensures held { MatchOption result (self.old.before
            ≡ length self.old.items) (λ _. self.old.before < length self.old.items) }
        ensures* after { sem 𝓛 (EndsFitting T.row self.entry) }
    {
        if self.before == self.unacked() {
            return None;
        }
        let at = self.before;
        self.before += 1;
        let number = Seq::modulo(self.first.get() + at);
        Some((number, self.items.get(at as usize).unwrap()))
    }

    /// How many items a received N(R) acknowledges: all below the number that it stands for.
    ///
    /// 7 BadAck exactly where the N(R) stands for no number from the first that isn't acknowledged to the highest ever
    /// sent plus one.
    #[tactic(auto, using(crate::proofs::Fitting::Fits_length))]
    pub fn acknowledges(&self, number: Seq) -> Result<u8, WindowError>
        ensures stands_for { (w : Sending T) → Fits self.now w
            → IfOk result (λ count. Acknowledges w number.number (w.acked + count)) }
        ensures bad { (w : Sending T) → Fits self.now w → OnErr result ((n : ℕ) → ¬ Acknowledges w number.number n) }
        ensures resolves { (w : Sending T) → Fits self.now w
            → IfOk result (λ count. w.acked + count ≡ resolved w.acked number.number) }
        ensures beyond { (w : Sending T) → Fits self.now w
            → OnErr result (length w.given < resolved w.acked number.number) }
        ensures held { IfOk result (λ count. (count ≤ length self.now.items)
            × ((self.now.first + count) % 8 ≡ number.number)) }
        ensures error { IfErr result (λ error. error ≡ WindowError.BadAck) }
    {
        let count = (number.get() + 8 - self.first.get()) % 8;
        if count > self.unacked() {
            return Err(WindowError::BadAck);
        }
        Ok(count)
    }

    /// Takes a received N(R): all items below the number that it stands for are acknowledged and dropped, and their
    /// count is answered. The place to send from is lifted where it was below.
    ///
    /// 7 BadAck exactly where the N(R) stands for no number from the first that isn't acknowledged to the highest ever
    /// sent plus one.
    #[tactic(auto, using(crate::proofs::Fitting::Fits_length))]
    pub fn ack(&mut self, number: Seq) -> Result<u8, WindowError>
    where
        T: Drop,
        ensures step { (w : Sending T) → Fits self.old w
            → IfOk result (λ count. Fits self.new (acknowledged w (w.acked + count))) }
        ensures stands_for { (w : Sending T) → Fits self.old w
            → IfOk result (λ count. Acknowledges w number.number (w.acked + count)) }
        ensures bad { (w : Sending T) → Fits self.old w → OnErr result ((n : ℕ) → ¬ Acknowledges w number.number n) }

        // the same by computing
        ensures resolves { (w : Sending T) → Fits self.old w
            → IfOk result (λ count. w.acked + count ≡ resolved w.acked number.number) }
        ensures beyond { (w : Sending T) → Fits self.old w
            → OnErr result (length w.given < resolved w.acked number.number) }
        ensures held { IfOk result (λ count. self.new ≡ without self.old count number.number) }
        ensures error { IfErr result (λ error. error ≡ WindowError.BadAck) }
        ensures unchanged { OnErr result (self.new ≡ self.old) }
    {
        let count = self.acknowledges(number)?;
        let kept = self.items.len() - count as usize;
        self.items.truncate_front(kept);
        self.first = number;
        self.before = self.before.saturating_sub(count);
        Ok(count)
    }

    /// Takes the first item that isn't acknowledged as acknowledged, and hands it out. There is one. The place to send
    /// from is lifted where it was below.
    #[tactic(auto, using(crate::proofs::Fitting::Fits_length))]
    pub fn release(&mut self) -> T
        requires { 0 < length self.old.items }
        ensures step { (w : Sending T) → Fits self.old w → Fits self.new (acknowledged w (w.acked + 1)) }
        ensures item { slice_get self.old.items 0 ≡ Some result }
        ensures held { self.new ≡ without self.old 1 ((self.old.first + 1) % 8) }
    {
        let item = self.items.pop_front().unwrap();
        self.first = self.first.next();
        self.before = self.before.saturating_sub(1);
        item
    }

    /// Drops all items: nothing was sent, and the next number is 0. The room is kept.
    pub fn clear(&mut self)
    where
        T: Drop,
        ensures state { (w : Sending T) → Fits self.old w → Fits self.new (fresh w.window) }
        ensures held { Fits self.new (fresh self.old.window) }
    {
        self.go_back();
        self.items.clear();
        self.first = Seq::ZERO;
    }
}
