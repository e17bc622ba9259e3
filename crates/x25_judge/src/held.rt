//! The octets of the last I frame of each number that an end sent.
ghost use Rattle.std.specs.Prelude.{◌≡◌, ◌≤◌, [], ℕ, IfOk, List, length, vec_capacity};
ghost use Rattle.x25_frame.specs.Frame.{plain};
ghost use Rattle.x25_judge.specs.Held.{Held, differs, forgets, forgets_all, is_same, keeps, no_octets, none_held};

use std::alloc::{AllocError, Global};
use std::marker::Model;
use x25_frame::Frame;
use x25_text::{ROOM, Text};

/// How many numbers there are.
const NUMBERS: usize = 8;

/// A text for each number: no call but `new` takes memory.
#[derive(Drop)]
pub(crate) struct Held {
    slots: Vec<Text>,
    known: [bool; 8],
}

impl Model for Held {
    ghost Value = { Held };

    ghost view = { λ h. record { octets = h.slots.items; known = h.known } };

    ghost invariant = { λ h. (length h.slots.items ≡ 8) × (vec_capacity h.slots ≡ 8) };
}

/// No octets of each number.
#[tactic(auto, unfolding(crate::specs::Held::no_octets))]
fn fill_up(alloc: Global, slots: &mut Vec<Text>) -> Result<(), AllocError>
    requires empty { slots.old.items ≡ [] }
    requires room { 8 ≤ vec_capacity slots.old }
    ensures items { IfOk result (λ _. slots.new.items ≡ no_octets) }
    ensures size { IfOk result (λ _. length slots.new.items ≡ 8) }
    ensures capacity { vec_capacity slots.new ≡ vec_capacity slots.old }
{
    for _ in 0..NUMBERS {
        slots.push_reserved(Text::new(alloc)?);
    }
    Ok(())
}

impl Held {
    /// No octets. Err: no memory.
    pub(crate) fn new(alloc: Global) -> Result<Held, AllocError>
        ensures { IfOk result (λ held. held ≡ none_held) }
    {
        let mut slots = Vec::with_capacity(alloc, NUMBERS)?;
        fill_up(alloc, &mut slots)?;
        Ok(Held {
            slots,
            known: [false; 8],
        })
    }

    /// Whether an I frame has the octets of the last one of its number, and whether it is known to have others.
    #[tactic(auto, unfolding(crate::specs::Held::is_same, crate::specs::Held::differs))]
    pub(crate) fn compare(&self, frame: &Frame) -> (bool, bool)
        ensures same { result.0 ≡ is_same self.now (plain frame.now) }
        ensures differs { result.1 ≡ differs self.now (plain frame.now) }
    {
        let Frame::I { ns, info, .. } = frame else {
            return (false, false);
        };
        let at = usize::from(ns.get()) % NUMBERS;
        if !self.known[at] {
            return (false, false);
        }
        let is_same = self.slots[at].as_slice() == *info;
        (is_same, !is_same)
    }

    /// The octets of a number are known no longer.
    pub(crate) fn forget(&mut self, number: u8)
        ensures { self.new ≡ forgets number self.old }
    {
        self.known[usize::from(number) % NUMBERS] = false;
    }

    pub(crate) fn forget_all(&mut self)
        ensures { self.new ≡ forgets_all self.old }
    {
        self.known = [false; 8];
    }

    /// Holds the octets of an I frame.
    #[tactic(auto, unfolding(crate::specs::Held::keeps))]
    pub(crate) fn keep(&mut self, frame: &Frame)
        ensures { self.new ≡ keeps self.old (plain frame.now) }
    {
        if let Frame::I { ns, info, .. } = frame {
            let at = usize::from(ns.get()) % NUMBERS;
            let slot = &mut self.slots[at];
            slot.clear();
            self.known[at] = info.len() <= ROOM;
            if info.len() <= ROOM {
                slot.push(info);
            }
        }
    }
}
