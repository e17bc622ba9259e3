ghost use Rattle.std.specs.Prelude.{◌≡◌, ℕ, ◌+◌, ◌<◌, ◌≤◌, length, vec_len, vec_capacity};
ghost use Rattle.std.specs.Prelude.{IfOk, OnOk, OnSome, MatchOption};
ghost use Rattle.x25_link.specs.code.Places.{room_for, long_of, left_for};

use std::alloc::{AllocError, Global};
use std::marker::Model;
use x25_bits::append_octets;

/// How many packets at most wait or stand unacknowledged: for each there is a short place.
const MOST_PACKETS: usize = 263;

/// The most octets of a packet in a short place.
const SHORT: usize = 260;

/// The octets of a packet that waits or stands unacknowledged, in a place of 260 octets, or where these are more of
/// 4,099.
#[derive(Drop)]
pub struct Packet {
    octets: Vec<u8>,
}

impl Model for Packet {
    ghost use Rattle.std.specs.Prelude.{◌≡◌, ℕ, ◌≤◌, List, vec_len, vec_capacity};
    ghost use Rattle.x25_link.specs.code.Places.{room_for};

    ghost Value = { List ℕ };

    ghost view = { λ p. p.octets.items };

    ghost invariant = { λ p. (vec_capacity p.octets ≡ room_for (vec_len p.octets)) × (vec_len p.octets ≤ 4099) };
}

impl Packet {
    /// Lends the octets.
    pub fn as_slice(&self) -> &[u8]
        ensures items { result.now ≡ self.now }
        ensures short { length result.now ≤ 4099 }
    {
        self.octets.as_slice()
    }
}

// A place that no packet stands in. What stands there still is of no use.
#[derive(Drop)]
struct Spare<const ROOM: usize> {
    octets: Vec<u8>,
    ghost room: { vec_capacity octets ≡ ROOM },
}

/// Places of ROOM octets that no packet stands in. Their memory is had when the list is made, and so is that of the
/// list.
#[derive(Drop)]
pub struct Spares<const ROOM: usize> {
    places: Vec<Spare<ROOM>>,
}

impl<const ROOM: usize> Model for Spares<ROOM> {
    ghost use Rattle.std.specs.Prelude.{◌≤◌, vec_len, vec_capacity};
    ghost use Rattle.x25_link.specs.code.Places.{ShownSpares};

    ghost Value = { ShownSpares };

    ghost view = { λ s. record { left = vec_len s.places; all = vec_capacity s.places } };

    ghost invariant = { λ s. vec_len s.places ≤ vec_capacity s.places };
}

impl<const ROOM: usize> Spares<ROOM> {
    // So many places. Err: no memory.
    fn new(alloc: Global, count: usize) -> Result<Spares<ROOM>, AllocError>
        ensures left { IfOk result (λ s. s.left ≡ count) }
        ensures all { IfOk result (λ s. s.all ≡ count) }
    {
        let mut places = Vec::with_capacity(alloc, count)?;
        fill(&mut places, alloc, count)?;
        Ok(Spares { places })
    }

    // Takes a place back.
    fn give(&mut self, octets: Vec<u8>)
        requires room { vec_capacity octets ≡ ROOM }
        requires free { self.old.left < self.old.all }
        ensures left { self.new.left ≡ self.old.left + 1 }
        ensures all { self.new.all ≡ self.old.all }
    {
        self.places.push_reserved(Spare { octets });
    }
}

// Fills a list with so many places.
fn fill<const ROOM: usize>(
    places: &mut Vec<Spare<ROOM>>,
    alloc: Global,
    count: usize,
) -> Result<(), AllocError>
    requires none { vec_len places.old ≡ 0 }
    requires room { count ≤ vec_capacity places.old }
    ensures count { OnOk result (vec_len places.new ≡ count) }
    ensures list { vec_capacity places.new ≡ vec_capacity places.old }
{
    for _place in 0..count {
        let octets = Vec::with_capacity(alloc, ROOM)?;
        places.push_reserved(Spare { octets });
    }
    Ok(())
}

/// The places of a link that no packet stands in: short ones of 260 octets, for all packets that may wait or stand
/// unacknowledged, and long ones of 4,099 octets for those that are longer.
#[derive(Drop)]
pub struct Places {
    pub short: Spares<260>,
    pub long: Spares<4099>,
    ghost short_ones: { short.all ≡ 263 },
}

impl Places {
    /// Short places for 263 packets, and so many long ones. Err: no memory.
    pub fn new(alloc: Global, long: usize) -> Result<Places, AllocError>
        ensures short { IfOk result (λ p. p.short.left ≡ 263) }
        ensures long { IfOk result (λ p. p.long.left ≡ long) }
        ensures long_ones { IfOk result (λ p. p.long.all ≡ long) }
    {
        Ok(Places {
            short: Spares::new(alloc, MOST_PACKETS)?,
            long: Spares::new(alloc, long)?,
        })
    }

    /// Copies a packet into a place of its own, over what stood there. `None` where no place is left for it.
    pub fn take(&mut self, packet: &[u8]) -> Option<Packet>
        requires fits { length packet.now ≤ 4099 }
        ensures packet { MatchOption result ((left_for self.old.short self.old.long (length packet.now) ≡ 0)
            × (self.new ≡ self.old)) (λ p. p ≡ packet.now) }
        ensures short { OnSome result (self.new.short.left + 1 ≡ self.old.short.left + long_of packet.now) }
        ensures long { OnSome result (self.new.long.left + long_of packet.now ≡ self.old.long.left) }
        ensures long_ones { self.new.long.all ≡ self.old.long.all }
    {
        let mut octets = if packet.len() <= SHORT {
            let spare = self.short.places.pop()?;
            spare.octets
        } else {
            let spare = self.long.places.pop()?;
            spare.octets
        };
        octets.clear();
        append_octets(&mut octets, packet);
        Some(Packet { octets })
    }

    /// Takes the place of a packet back.
    pub fn give(&mut self, packet: Packet)
        requires short { self.old.short.left < 263 + long_of packet }
        requires long { self.old.long.left + long_of packet ≤ self.old.long.all }
        ensures short { self.new.short.left + long_of packet ≡ self.old.short.left + 1 }
        ensures long { self.new.long.left ≡ self.old.long.left + long_of packet }
        ensures long_ones { self.new.long.all ≡ self.old.long.all }
    {
        if packet.octets.len() <= SHORT {
            self.short.give(packet.octets);
        } else {
            self.long.give(packet.octets);
        }
    }
}
