ghost use Rattle.std.specs.Prelude.{◌≡◌, ◌+◌, ◌<◌, ◌≤◌, List, [], ◌∷◌, ◌++◌, length, map, IfOk, OnOk};
ghost use Rattle.std.specs.Prelude.{vec_capacity, false, take, drop};
ghost use Rattle.std.specs.List.{All};
ghost use Rattle.x25_frame.specs.Frame.{plain, info};
ghost use Rattle.x25_frame.specs.Spelling.{spelling_of, information_of};

use std::alloc::{AllocError, Global};
use std::marker::Model;
use std::mem::replace;
use x25_bits::{Role, Seq};
use x25_frame::{Frame, encode};

/// The most frames of a list: nine of a step of the link, and those of 16 packets that a packet layer hands down in it.
pub const MOST_FRAMES: usize = 25;

/// The most octets of a frame: those of a packet, address, control and frame check sequence.
const LONGEST_FRAME: usize = 4103;

/// Frames to send, in order, as the octets that spell them: 25 at most. Their memory is had when the list is made, and
/// stays with it.
#[derive(Drop)]
pub struct Frames {
    places: Vec<Vec<u8>>,
    count: usize,
}

impl Model for Frames {
    ghost use Rattle.std.specs.Prelude.{◌≡◌, ℕ, ◌≤◌, List, length, map, take, vec_capacity};
    ghost use Rattle.std.specs.List.{All};

    ghost Value = { List (List ℕ) };

    ghost view = { λ f. take f.count (map (λ v. v.items) f.places.items) };

    ghost invariant = { λ f. (f.count ≤ 25) × (length f.places.items ≡ 25) × (vec_capacity f.places ≡ 25)
        × All (λ v. vec_capacity v ≡ 4103) f.places.items };
}

impl Frames {
    /// No frame, and memory for 25 of 4,103 octets each, which may be refused.
    pub fn new(alloc: Global) -> Result<Frames, AllocError>
        ensures { IfOk result (λ f. f ≡ []) }
    {
        let mut places = Vec::with_capacity(alloc, MOST_FRAMES)?;
        fill(&mut places, alloc)?;
        Ok(Frames { places, count: 0 })
    }

    /// How many frames there are.
    pub fn len(&self) -> usize
        ensures value { result ≡ length self.now }
        ensures few { result ≤ 25 }
    {
        self.count
    }

    /// The frames, in order.
    pub fn as_slice(&self) -> &[Vec<u8>]
        ensures frames { map (λ v. v.items) result.now ≡ self.now }
        ensures memory { All (λ v. vec_capacity v ≡ 4103) result.now }
    {
        &self.places[..self.count]
    }

    /// Takes the octets of the frame at this place out with their memory. Other memory comes in its stead, and what
    /// stands there is of no use.
    pub fn exchange(&mut self, place: usize, memory: Vec<u8>) -> Vec<u8>
        requires place { place < length self.old }
        requires memory { vec_capacity memory ≡ 4103 }
        ensures frame { take 1 (drop place self.old) ≡ result.items ∷ [] }
        ensures memory { vec_capacity result ≡ 4103 }
        ensures rest { drop (place + 1) self.new ≡ drop (place + 1) self.old }
        ensures count { length self.new ≡ length self.old }
    {
        replace(&mut self.places[place], memory)
    }

    /// Takes all frames out. Their memory stays.
    pub fn clear(&mut self)
        ensures { self.new ≡ [] }
    {
        self.count = 0;
    }

    /// Puts an I frame with P=0 behind the others.
    pub(crate) fn push_packet(&mut self, from: Role, ns: Seq, nr: Seq, packet: &[u8])
        requires place { length self.old < 25 }
        requires fits { length packet.now ≤ 4099 }
        ensures { self.new ≡ self.old ++ spelling_of from (info ns.number nr.number false packet.now) ∷ [] }
    {
        let frame = Frame::I {
            ns,
            nr,
            p: false,
            info: packet,
        };
        self.push(from, &frame);
    }

    /// Puts a frame behind the others.
    #[inline(always)]
    pub(crate) fn push(&mut self, from: Role, frame: &Frame)
        requires place { length self.old < 25 }
        requires fits { length (information_of (plain frame.now)) ≤ 4099 }
        ensures { self.new ≡ self.old ++ spelling_of from (plain frame.now) ∷ [] }
    {
        let octets = &mut self.places[self.count];
        octets.clear();
        encode(from, frame, octets).unwrap();
        self.count += 1;
    }
}

// Fills a list with places of frames.
fn fill(places: &mut Vec<Vec<u8>>, alloc: Global) -> Result<(), AllocError>
    requires none { places.old.items ≡ [] }
    requires room { 25 ≤ vec_capacity places.old }
    ensures count { OnOk result (length places.new.items ≡ 25) }
    ensures memory { OnOk result (All (λ v. vec_capacity v ≡ 4103) places.new.items) }
    ensures list { vec_capacity places.new ≡ vec_capacity places.old }
{
    for _place in 0..MOST_FRAMES {
        places.push_reserved(Vec::with_capacity(alloc, LONGEST_FRAME)?);
    }
    Ok(())
}
