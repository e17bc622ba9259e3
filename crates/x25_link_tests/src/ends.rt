//! How it ends that a link is disconnected, where DISC is sent again until it is answered.

use crate::calls::{connect, disconnect, fire, link_that_asks_again, no_frames, swap, take};
use std::alloc::Global;
use x25_bits::Role;
use x25_link::{Closing, Ending, Frames, Heard, Link, LinkError};

/// What happens at a DTE.
#[derive(Clone, Copy)]
enum Act {
    Connect,
    Disconnect,
    /// Timer T1 fires.
    T1,
    /// Octets come.
    Take(&'static [u8]),
}

/// The number of a refusal, or 0; the octets of the frame that it sends; whether it awaits an answer and T1 runs; and
/// what became of DISC.
type Row = (Act, u8, &'static [u8], bool, Closing);

const NONE: &[u8] = &[];

/// SABM with P=1 of the DTE.
const SABM: &[u8] = &[0x01, 0x3F, 0xEB, 0xDF];

/// DISC with P=1 of the DTE, and of the DCE.
const DISC: &[u8] = &[0x01, 0x53, 0x81, 0x76];

const ITS_DISC: &[u8] = &[0x03, 0x53, 0x31, 0x45];

/// UA of the DCE with F=1 and with F=0.
const UA: &[u8] = &[0x01, 0x73, 0x83, 0x57];

const UA_0: &[u8] = &[0x01, 0x63, 0x02, 0x47];

/// DM of the DCE with F=1 and with F=0, and of the DTE.
const DM: &[u8] = &[0x01, 0x1F, 0xE9, 0xFE];

const DM_0: &[u8] = &[0x01, 0x0F, 0x68, 0xEE];

const OWN_DM: &[u8] = &[0x03, 0x1F, 0x59, 0xCD];

const BY_UA: Closing = Closing::Ended(Ending::ByUa);

const BY_DM: Closing = Closing::Ended(Ending::ByDm);

const GIVEN_UP: Closing = Closing::Ended(Ending::GivenUp);

// On a dead line, before the UA to SABM: DISC goes N2 times more.
static DEAD: [Row; 7] = [
    (Act::Connect, 0, SABM, false, Closing::Unasked),
    (Act::T1, 0, SABM, false, Closing::Unasked),
    (Act::Disconnect, 0, DISC, true, Closing::Asked),
    (Act::T1, 0, DISC, true, Closing::Asked),
    (Act::T1, 0, DISC, true, Closing::Asked),
    (Act::T1, 0, NONE, false, GIVEN_UP),
    (Act::T1, 11, NONE, false, GIVEN_UP),
];

// A link that was up: the first UA ends it, to whichever DISC that was.
static ANSWERED: [Row; 9] = [
    (Act::Connect, 0, SABM, false, Closing::Unasked),
    (Act::Take(UA), 0, NONE, false, Closing::Unasked),
    (Act::Disconnect, 0, DISC, true, Closing::Asked),
    (Act::T1, 0, DISC, true, Closing::Asked),
    (Act::Take(UA_0), 0, NONE, true, Closing::Asked),
    (Act::Take(UA), 0, NONE, false, BY_UA),
    (Act::Take(DM), 0, NONE, false, BY_UA),
    (Act::T1, 11, NONE, false, BY_UA),
    (Act::Disconnect, 13, NONE, false, BY_UA),
];

// One that never was up: the other end's DISC is declined.
static DECLINED: [Row; 4] = [
    (Act::Disconnect, 0, DISC, true, Closing::Asked),
    (Act::Take(ITS_DISC), 0, OWN_DM, true, Closing::Asked),
    (Act::Take(DM_0), 0, NONE, true, Closing::Asked),
    (Act::Take(DM), 0, NONE, false, BY_DM),
];

fn number(answer: Result<Heard, LinkError>) -> u8 {
    answer.err().map(LinkError::number).unwrap_or(0)
}

fn happens(link: &mut Link, act: Act) -> u8 {
    match act {
        Act::Connect => number(connect(link)),
        Act::Disconnect => number(disconnect(link)),
        Act::T1 => number(fire(link)),
        Act::Take(octets) => number(Ok(take(link, octets))),
    }
}

// Whether the frame that is to send is this one, or none is.
fn sends(link: &mut Link, frames: &mut Frames, octets: &[u8]) -> bool {
    frames.clear();
    swap(link, frames);
    match frames.as_slice() {
        [frame] => frame.as_slice() == octets,
        [] => octets.is_empty(),
        _ => false,
    }
}

// The first row in which something else comes of what happens.
fn odd_row(link: &mut Link, frames: &mut Frames, rows: &[Row]) -> Option<usize> {
    for (place, &(act, wanted, sent, awaits, closing)) in rows.iter().enumerate() {
        let found = happens(link, act);
        let said = (found, link.is_closing(), link.closing());
        if !sends(link, frames, sent) || said != (wanted, awaits, closing) {
            return Some(place);
        }
    }
    None
}

// That of a DTE just made, which sends again twice.
fn odd_row_of(alloc: Global, rows: &[Row]) -> Result<Option<usize>, LinkError> {
    let mut link = link_that_asks_again(alloc, Role::Dte, 2)?;
    let mut frames = no_frames(alloc)?;
    Ok(odd_row(&mut link, &mut frames, rows))
}

#[test]
fn a_dead_line_ends_the_disc(rt: HostRuntime) {
    assert_eq!(rt; odd_row_of(rt.alloc(), DEAD.as_slice()), Ok(None));
}

#[test]
fn the_first_answer_ends_the_disc(rt: HostRuntime) {
    assert_eq!(rt; odd_row_of(rt.alloc(), ANSWERED.as_slice()), Ok(None));
}

#[test]
fn dm_ends_the_disc(rt: HostRuntime) {
    assert_eq!(rt; odd_row_of(rt.alloc(), DECLINED.as_slice()), Ok(None));
}
