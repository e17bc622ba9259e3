//! Events and damaged bits, one behind the other: which are refused, and how many entries they tell.

use crate::calls::{USUAL, empty_step, establish, step};
use std::alloc::Global;
use x25_station::{Cmd, Step};
use x25_world::Direction::{ToDce, ToDte};
use x25_world::Event::{Command, Damage, Deliver, Lose, T1};
use x25_world::Role::{Dce, Dte};
use x25_world::{Bits, Event, World, WorldError};

#[derive(Clone, Copy)]
enum Act {
    Happens(Event<'static>),
    /// These bits come in the place of those between the flags of a frame to the DCE.
    Damages(usize, &'static str),
}

/// What happens, the number of the refusal or 0, and how many entries are told.
type Row = (Act, u8, usize);

static EVENTS: [Row; 15] = [
    (Act::Happens(Deliver(ToDce)), 0, 1),
    (Act::Happens(Deliver(ToDce)), 50, 0),
    (Act::Happens(T1(Dce)), 0, 0),
    (Act::Happens(Deliver(ToDte)), 0, 1),
    (Act::Happens(Deliver(ToDte)), 0, 0),
    (Act::Happens(Lose(ToDte, 0)), 0, 0),
    (Act::Happens(T1(Dte)), 11, 0),
    (Act::Happens(T1(Dce)), 0, 0),
    (Act::Happens(Lose(ToDte, 1)), 51, 0),
    (Act::Happens(Damage(ToDte, 0, b"")), 0, 0),
    (Act::Happens(Damage(ToDte, 0, b"\x00\x00\x00")), 0, 0),
    (Act::Happens(Damage(ToDte, 0, b"\x01\x73\x83\x57")), 52, 0),
    (Act::Happens(Lose(ToDte, 65535)), 51, 0),
    (Act::Happens(Command(Dte, Cmd::Disconnect)), 0, 2),
    (Act::Happens(Command(Dte, Cmd::Disconnect)), 13, 0),
];

/// The bits between the flags of a SABM from the DTE.
const SABM: &str = "1000000011111010011010111110111011";

/// The same with the last bit 0.
const DAMAGED_SABM: &str = "1000000011111010011010111110111010";

// The RESTART that is on the line to the DCE is damaged, so that its delivery tells nothing.
static BITS: [Row; 6] = [
    (Act::Damages(1, SABM), 51, 0),
    (Act::Damages(1, "1111111"), 51, 0),
    (Act::Damages(0, SABM), 52, 0),
    (Act::Damages(0, DAMAGED_SABM), 0, 0),
    (Act::Damages(0, "1111111"), 0, 0),
    (Act::Happens(Deliver(ToDce)), 0, 0),
];

fn damages(alloc: Global, world: &mut World, place: usize, text: &str) -> Result<(), WorldError> {
    let mut bits = Bits::new(alloc);
    for digit in text.as_bytes() {
        if bits.push(*digit == b'1').is_err() {
            return Err(WorldError::NoMemory);
        }
    }
    world.damage_bits(ToDce, place, &bits)
}

// The number of the refusal, that of the station where it refuses, or 0.
fn number(alloc: Global, world: &mut World, act: Act, out: &mut Step) -> u8 {
    let done = match act {
        Act::Happens(event) => step(world, event, out),
        Act::Damages(place, text) => damages(alloc, world, place, text),
    };
    match done {
        Ok(()) => 0,
        Err(WorldError::Station(error)) => error.number(),
        Err(error) => error.number(),
    }
}

// The first row in which something else comes of what happens.
fn odd_row(alloc: Global, world: &mut World, rows: &[Row], out: &mut Step) -> Option<usize> {
    for (place, &(act, wanted, count)) in rows.iter().enumerate() {
        if number(alloc, world, act, out) != wanted || out.entries.len() != count {
            return Some(place);
        }
    }
    None
}

fn odd_row_of(alloc: Global, rows: &[Row]) -> Result<Option<usize>, WorldError> {
    let mut world = establish(alloc, USUAL)?;
    let mut out = empty_step(alloc)?;
    Ok(odd_row(alloc, &mut world, rows, &mut out))
}

#[test]
fn events_are_refused(rt: HostRuntime) {
    assert_eq!(rt; odd_row_of(rt.alloc(), EVENTS.as_slice()), Ok(None));
}

#[test]
fn bits_are_damaged(rt: HostRuntime) {
    assert_eq!(rt; odd_row_of(rt.alloc(), BITS.as_slice()), Ok(None));
}
