//! Messages that wait, go on, or aren't taken.
use std::alloc::Global;
use x25_circuit::Marks;
use x25_relay::{PLACES, Relay, RelayError};

/// What is done to a relay.
#[derive(Clone, Copy)]
enum Step {
    /// A message with Q of so many octets comes, each of which is their number modulo 256.
    Take(usize),
    Pass,
    Clear,
}

/// What the first message is that waits (whether it has Q, how many octets, the last of them), and whether the line
/// that they come by is to be told to wait.
type Says = (Option<(bool, usize, u8)>, bool);

/// What is done, the number of its refusal or else 0, and what the relay says then.
type Row = (Step, u8, Says);

const NOTHING: Says = (None, false);

/// There is room for 100 octets.
static ROWS: [Row; 13] = [
    (Step::Pass, 0, NOTHING),
    (Step::Take(40), 0, (Some((true, 40, 40)), false)),
    (Step::Take(61), 31, (Some((true, 40, 40)), false)),
    (Step::Take(60), 0, (Some((true, 40, 40)), true)),
    (Step::Take(1), 31, (Some((true, 40, 40)), true)),
    (Step::Take(0), 0, (Some((true, 40, 40)), true)),
    (Step::Pass, 0, (Some((true, 60, 60)), true)),
    (Step::Pass, 0, (Some((true, 0, 0)), false)),
    (Step::Take(65_536), 32, (Some((true, 0, 0)), false)),
    (Step::Take(50), 0, (Some((true, 0, 0)), true)),
    (Step::Clear, 0, NOTHING),
    (Step::Take(100), 0, (Some((true, 100, 100)), true)),
    (Step::Pass, 0, NOTHING),
];

fn first(relay: &Relay) -> Option<(bool, usize, u8)> {
    let held = relay.front()?;
    let octets = held.octets();
    Some((held.marks().q, octets.len(), *octets.last().unwrap_or(&0)))
}

fn says(relay: &Relay) -> Says {
    (first(relay), relay.is_slow())
}

fn take(relay: &mut Relay, alloc: Global, count: usize) -> Result<(), RelayError> {
    let octets = vec![in alloc; (count % 256) as u8; count]?;
    relay.take(Marks { q: true, d: false }, &octets)
}

fn does(relay: &mut Relay, alloc: Global, step: Step) -> u8 {
    match step {
        Step::Take(count) => match take(relay, alloc, count) {
            Ok(()) => 0,
            Err(error) => error.number(),
        },
        Step::Pass => {
            relay.pass();
            0
        }
        Step::Clear => {
            relay.clear();
            0
        }
    }
}

// The first row that differs, if any.
fn odd_row(relay: &mut Relay, alloc: Global, rows: &[Row]) -> Option<usize> {
    for (index, &(step, number, said)) in rows.iter().enumerate() {
        if does(relay, alloc, step) != number || says(relay) != said {
            return Some(index);
        }
    }
    None
}

fn played(alloc: Global, most: usize, rows: &[Row]) -> Result<Option<usize>, RelayError> {
    let mut relay = Relay::new(alloc, most)?;
    Ok(odd_row(&mut relay, alloc, rows))
}

#[test]
fn messages_wait_while_there_is_room(rt: HostRuntime) {
    assert_eq!(rt; played(rt.alloc(), 100, &ROWS), Ok(None));
}

// How many messages are taken, of which how many before the line is told to wait, and the refusal of the next one.
fn filled(relay: &mut Relay, alloc: Global) -> (usize, usize, u8) {
    let mut quick = 0;
    for taken in 0..2 * PLACES {
        if !relay.is_slow() {
            quick = taken;
        }
        let number = does(relay, alloc, Step::Take(1));
        if number > 0 {
            return (taken, quick, number);
        }
    }
    (2 * PLACES, quick, 0)
}

fn filled_anew(alloc: Global, most: usize) -> Result<(usize, usize, u8), RelayError> {
    let mut relay = Relay::new(alloc, most)?;
    Ok(filled(&mut relay, alloc))
}

#[test]
fn sixteen_messages_wait(rt: HostRuntime) {
    assert_eq!(rt; filled_anew(rt.alloc(), 1000), Ok((16, 7, 31)));
}
