//! The list of frames that a link exchanges with its caller's.

use crate::calls::{connect, first_out, link, no_frames, put, relink, swap, take};
use std::alloc::Global;
use x25_bits::{Role, Seq};
use x25_frame::{Frame, encode};
use x25_link::{Frames, Link, LinkError};

/// SABM with P=1 of the DTE.
static SABM: [u8; 4] = [0x01, 0x3F, 0xEB, 0xDF];

/// UA with F=1 of the DCE.
static UA: [u8; 4] = [0x01, 0x73, 0x83, 0x57];

/// The I frame with N(S) 0 that carries the octet 0, of the DCE.
static FIRST: [u8; 5] = [0x03, 0x00, 0x00, 0xA8, 0x29];

fn is(frame: Option<&Vec<u8>>, octets: &[u8]) -> bool {
    match frame {
        Some(frame) => frame.as_slice() == octets,
        None => false,
    }
}

/// How many frames a list holds, whether the first is UA, and whether the last is the I frame.
type Ends = (usize, bool, bool);

fn ends(frames: &Frames) -> Ends {
    let list = frames.as_slice();
    (frames.len(), is(list.first(), &UA), is(list.last(), &FIRST))
}

// What stands in the list behind two SABMs; once it is given back, exchanged again, how many are in it; and what stands
// there once it is given back and a packet is handed down.
fn answers(link: &mut Link, frames: &mut Frames) -> Result<(Ends, usize, Ends), LinkError> {
    take(link, &SABM);
    take(link, &SABM);
    swap(link, frames);
    let twice = ends(frames);
    swap(link, frames);
    let count = frames.len();
    put(link, &[0])?;
    swap(link, frames);
    Ok((twice, count, ends(frames)))
}

fn answers_of_a_dce(alloc: Global) -> Result<(Ends, usize, Ends), LinkError> {
    let mut link = link(alloc, Role::Dce, 7, 10)?;
    let mut frames = no_frames(alloc)?;
    answers(&mut link, &mut frames)
}

#[test]
fn frames_come_in_order(rt: HostRuntime) {
    let wanted = ((1, true, false), 0, (2, true, true));
    assert_eq!(rt; answers_of_a_dce(rt.alloc()), Ok(wanted));
}

// Whether the first of two frames is UA, and what stands in the list once it is taken out.
fn taken_out(alloc: Global) -> Result<(bool, Ends), LinkError> {
    let mut link = link(alloc, Role::Dce, 7, 10)?;
    let mut frames = no_frames(alloc)?;
    take(&mut link, &SABM);
    put(&mut link, &[0])?;
    swap(&mut link, &mut frames);
    let first = first_out(&mut frames, alloc);
    Ok((is(first.as_ref(), &UA), ends(&frames)))
}

#[test]
fn a_frame_is_taken_out_with_its_memory(rt: HostRuntime) {
    assert_eq!(rt; taken_out(rt.alloc()), Ok((true, (2, false, true))));
}

// The DCE acknowledges all frames below this number.
fn acknowledge(link: &mut Link, alloc: Global, nr: Seq) -> Result<(), LinkError> {
    let mut octets = Vec::new(alloc);
    let frame = Frame::Rr {
        command: false,
        nr,
        pf: false,
    };
    encode(Role::Dce, &frame, &mut octets)?;
    take(link, octets.as_slice());
    Ok(())
}

// Hands seven packets down, which go behind the frames of the list, and acknowledges them.
fn seven_more(
    link: &mut Link,
    frames: &mut Frames,
    alloc: Global,
    nr: u8,
) -> Result<(), LinkError> {
    for _ in 0..7u8 {
        put(link, &[0])?;
    }
    swap(link, frames);
    acknowledge(link, alloc, Seq::modulo(nr))?;
    swap(link, frames);
    Ok(())
}

// How many packets go until no place is left, and the number of the refusal of the next.
fn fills(
    link: &mut Link,
    frames: &mut Frames,
    alloc: Global,
) -> Result<(usize, Option<u8>), LinkError> {
    connect(link)?;
    take(link, &UA);
    for nr in [7, 6, 5] {
        seven_more(link, frames, alloc, nr)?;
    }
    for _ in 0..4u8 {
        put(link, &[0])?;
    }
    let refused = put(link, &[0]).err().map(LinkError::number);
    swap(link, frames);
    Ok((frames.len(), refused))
}

fn fills_of_a_dte(alloc: Global) -> Result<(usize, Option<u8>), LinkError> {
    let mut link = link(alloc, Role::Dte, 7, 10)?;
    let mut frames = no_frames(alloc)?;
    fills(&mut link, &mut frames, alloc)
}

#[test]
fn twenty_five_frames_have_places(rt: HostRuntime) {
    assert_eq!(rt; fills_of_a_dte(rt.alloc()), Ok((25, Some(70))));
}

// How many packets of 261 octets go until no long place is left, and the number of the refusal of the next.
fn long_ones(link: &mut Link) -> (u8, Option<u8>) {
    for count in 0..16u8 {
        if let Err(error) = put(link, &[0; 261]) {
            return (count, Some(error.number()));
        }
    }
    (16, None)
}

/// How many long packets go, at first, once seven were acknowledged, and once the link was set up anew, and whether one
/// of 260 octets still goes behind the first of them.
type Long = ((u8, Option<u8>), bool, (u8, Option<u8>), (u8, Option<u8>));

fn long_ones_of_a_dte(alloc: Global) -> Result<Long, LinkError> {
    let mut link = link(alloc, Role::Dte, 7, 10)?;
    connect(&mut link)?;
    take(&mut link, &UA);
    let first = long_ones(&mut link);
    let is_short_put = put(&mut link, &[0; 260]).is_ok();
    acknowledge(&mut link, alloc, Seq::modulo(7))?;
    let acknowledged = long_ones(&mut link);
    relink(&mut link)?;
    take(&mut link, &UA);
    Ok((first, is_short_put, acknowledged, long_ones(&mut link)))
}

#[test]
fn fifteen_long_packets_have_places(rt: HostRuntime) {
    let wanted = ((15, Some(70)), true, (7, Some(70)), (15, Some(70)));
    assert_eq!(rt; long_ones_of_a_dte(rt.alloc()), Ok(wanted));
}
