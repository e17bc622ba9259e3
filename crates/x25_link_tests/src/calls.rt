//! The calls of a link without their claims: a body that makes one of the link's own carries all that it promises.

use std::alloc::Global;
use x25_bits::Role;
use x25_link::{Frames, Heard, Link, LinkError};

// A value in a place of its own: a body that holds the box lets go of it by one call, and not of each part of the
// value, and so does one that doesn't know what it is.
fn boxed<T: Drop>(alloc: Global, value: T) -> Option<Box<T>> {
    Box::new(alloc, value).ok()
}

/// A link just made, for packets of at most so many octets.
pub fn link_for(
    alloc: Global,
    role: Role,
    k: u8,
    longest: usize,
    n2: u8,
) -> Result<Box<Link>, LinkError> {
    boxed(alloc, Link::new(alloc, role, k, longest, n2, false)?).ok_or(LinkError::NoMemory)
}

/// A link just made, for packets of at most 4,099 octets.
pub fn link(alloc: Global, role: Role, k: u8, n2: u8) -> Result<Box<Link>, LinkError> {
    link_for(alloc, role, k, 4099, n2)
}

/// A link just made, which sends DISC again until it is answered.
pub fn link_that_asks_again(alloc: Global, role: Role, n2: u8) -> Result<Box<Link>, LinkError> {
    boxed(alloc, Link::new(alloc, role, 7, 4099, n2, true)?).ok_or(LinkError::NoMemory)
}

/// A list of no frames.
pub fn no_frames(alloc: Global) -> Result<Box<Frames>, LinkError> {
    boxed(alloc, Frames::new(alloc)?).ok_or(LinkError::NoMemory)
}

/// Exchanges the frames to send with those of a list.
pub fn swap(link: &mut Link, frames: &mut Frames) {
    link.swap_frames(frames);
}

/// The first frame of a list, for which other memory is given.
pub fn first_out(frames: &mut Frames, alloc: Global) -> Option<Vec<u8>> {
    let memory = Vec::with_capacity(alloc, 4103).ok()?;
    if frames.len() == 0 {
        return None;
    }
    Some(frames.exchange(0, memory))
}

pub fn connect(link: &mut Link) -> Result<Heard<'static>, LinkError> {
    link.connect()
}

pub fn disconnect(link: &mut Link) -> Result<Heard<'static>, LinkError> {
    link.disconnect()
}

pub fn probe(link: &mut Link) -> Result<Heard<'static>, LinkError> {
    link.probe()
}

pub fn relink(link: &mut Link) -> Result<Heard<'static>, LinkError> {
    link.relink()
}

/// Leaves Up, where the link is up.
pub fn abandon(link: &mut Link) -> Result<Heard<'static>, LinkError> {
    if !link.is_up() {
        return Err(LinkError::NotUp);
    }
    Ok(link.abandon())
}

/// Timer T1 fires.
pub fn fire(link: &mut Link) -> Result<Heard<'static>, LinkError> {
    link.t1()
}

pub fn take<'a>(link: &mut Link, octets: &'a [u8]) -> Heard<'a> {
    link.hear(octets)
}

/// Hands a packet down, where it is short enough.
pub fn put(link: &mut Link, packet: &[u8]) -> Result<(), LinkError> {
    if packet.len() > link.limit() {
        return Err(LinkError::BadConfig);
    }
    link.put(packet)
}
