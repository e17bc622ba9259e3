//! What a link answers, and what it says of itself then; `tests/golden` has the frames of whole sessions.

use crate::calls::{
    abandon, connect, disconnect, fire, link, link_for, no_frames, probe, put, relink, swap, take,
};
use std::alloc::Global;
use x25_bits::{Role, Seq};
use x25_frame::{Frame, encode};
use x25_link::{Frames, Heard, Link, LinkError, Reason};

/// What happens at a link.
#[derive(Clone, Copy)]
enum Act {
    Connect,
    Disconnect,
    Probe,
    Relink,
    /// Leaves Up, where the link is up.
    Abandon,
    /// Timer T1 fires.
    T1,
    /// So many packets of one octet are handed down.
    Put(u16),
    /// Octets come.
    Take(&'static [u8]),
    /// An I frame with 4,100 octets of information comes.
    TakeLong,
}

/// What it answers: the number of a refusal, or 0; why the link went down; and whether it came up.
type Answer = (u8, Option<Reason>, bool);

/// The frames that it sends: how many, and the octets of the last.
type Sent = (usize, &'static [u8]);

/// What a link says: whether it is idle, awaits UA, and T1 runs; whether the step acknowledged frames; and how many
/// packets wait.
type Says = (bool, bool, bool, bool, usize);

type Row = (Act, Answer, Sent, Says);

const OK: Answer = (0, None, false);

const UP: Answer = (0, None, true);

const NONE: Sent = (0, &[]);

const DOWN: Says = (false, false, false, false, 0);

const AWAITS_UA: Says = (false, true, true, false, 0);

const IDLE: Says = (true, false, false, false, 0);

const IDLE_RUNS: Says = (true, false, true, false, 0);

const BUSY: Says = (false, false, true, false, 0);

/// SABM with P=1 of the DTE.
const SABM: &[u8] = &[0x01, 0x3F, 0xEB, 0xDF];

/// UA with F=1 of the DCE.
const UA: &[u8] = &[0x01, 0x73, 0x83, 0x57];

/// RR with N(R)=2 of the DCE.
const RR_2: &[u8] = &[0x01, 0x41, 0x12, 0x45];

// A set-up that ends without an answer, one that is answered, packets that are acknowledged by an N(R) that comes
// twice, and the end of the link.
static DTE: [Row; 23] = [
    (Act::T1, (11, None, false), NONE, DOWN),
    (Act::Put(1), (9, None, false), NONE, DOWN),
    (Act::Probe, (9, None, false), NONE, DOWN),
    (Act::Relink, (9, None, false), NONE, DOWN),
    (Act::Connect, OK, (1, SABM), AWAITS_UA),
    (Act::Connect, (12, None, false), NONE, AWAITS_UA),
    (Act::T1, OK, (1, SABM), AWAITS_UA),
    (Act::T1, (0, Some(Reason::Retries), false), NONE, DOWN),
    (Act::Connect, OK, (1, SABM), AWAITS_UA),
    (Act::Take(UA), UP, NONE, IDLE),
    (Act::Connect, (15, None, false), NONE, IDLE),
    (Act::Put(1), OK, (1, &[0x01, 0x00, 0x00, 0x10, 0x9C]), BUSY),
    (Act::Put(2), OK, (2, &[0x01, 0x04, 0x00, 0x70, 0xFB]), BUSY),
    (Act::Take(RR_2), OK, NONE, (false, false, true, true, 0)),
    (Act::Take(RR_2), OK, NONE, BUSY),
    (Act::Put(6), OK, (6, &[0x01, 0x00, 0x00, 0x10, 0x9C]), BUSY),
    (Act::Put(256), OK, NONE, (false, false, true, false, 256)),
    (
        Act::Put(1),
        (10, None, false),
        NONE,
        (false, false, true, false, 256),
    ),
    (
        Act::Disconnect,
        (0, Some(Reason::Local), false),
        (1, &[0x01, 0x53, 0x81, 0x76]),
        DOWN,
    ),
    (Act::Disconnect, (13, None, false), NONE, DOWN),
    (Act::Probe, (13, None, false), NONE, DOWN),
    (Act::Relink, (13, None, false), NONE, DOWN),
    (Act::Connect, (13, None, false), NONE, DOWN),
];

static DCE: [Row; 5] = [
    (Act::Take(SABM), UP, (1, UA), IDLE),
    (Act::Abandon, (0, Some(Reason::Counts), false), NONE, DOWN),
    (Act::Put(1), (9, None, false), NONE, DOWN),
    (Act::Take(SABM), UP, (1, UA), IDLE),
    (
        Act::TakeLong,
        (0, Some(Reason::FrmrSent), false),
        (1, &[0x01, 0x87, 0x00, 0x00, 0x04, 0x58, 0xF8]),
        DOWN,
    ),
];

/// RR with P=1 of the DTE, and with F=1 of the DCE: it goes under one address, as a command and as its response.
const POLL: &[u8] = &[0x01, 0x11, 0x97, 0x17];

// An idle link is polled, and answers; then it doesn't. It is set up anew, while it is polled too.
static ASKED: [Row; 12] = [
    (Act::Connect, OK, (1, SABM), AWAITS_UA),
    (Act::Probe, (9, None, false), NONE, AWAITS_UA),
    (Act::Relink, (12, None, false), NONE, AWAITS_UA),
    (Act::Take(UA), UP, NONE, IDLE),
    (Act::Probe, OK, (1, POLL), IDLE_RUNS),
    (Act::Take(POLL), OK, NONE, IDLE),
    (Act::Probe, OK, (1, POLL), IDLE_RUNS),
    (
        Act::Relink,
        (0, Some(Reason::Local), false),
        (1, SABM),
        AWAITS_UA,
    ),
    (Act::Take(UA), UP, NONE, IDLE),
    (Act::Probe, OK, (1, POLL), IDLE_RUNS),
    (Act::Probe, (0, Some(Reason::Retries), false), NONE, DOWN),
    (Act::Probe, (9, None, false), NONE, DOWN),
];

fn put_many(link: &mut Link, count: u16) -> Result<(), LinkError> {
    for _ in 0..count {
        put(link, &[0])?;
    }
    Ok(())
}

fn long_frame(alloc: Global) -> Result<Vec<u8>, LinkError> {
    let info = vec![in alloc; 0u8; 4100]?;
    let frame = Frame::I {
        ns: Seq::ZERO,
        nr: Seq::ZERO,
        p: false,
        info: info.as_slice(),
    };
    let mut octets = Vec::new(alloc);
    encode(Role::Dte, &frame, &mut octets)?;
    Ok(octets)
}

fn number(answer: Result<(), LinkError>) -> (Answer, bool) {
    match answer {
        Ok(()) => (OK, false),
        Err(error) => ((error.number(), None, false), false),
    }
}

fn heard(answer: Result<Heard, LinkError>) -> (Answer, bool) {
    match answer {
        Ok(heard) => ((0, heard.notes.down, heard.notes.up), heard.acknowledged),
        Err(error) => number(Err(error)),
    }
}

fn take_long(link: &mut Link, alloc: Global) -> (Answer, bool) {
    match long_frame(alloc) {
        Ok(octets) => heard(Ok(take(link, octets.as_slice()))),
        Err(error) => number(Err(error)),
    }
}

// What it answers, and whether it acknowledged frames.
fn happens(link: &mut Link, alloc: Global, act: Act) -> (Answer, bool) {
    match act {
        Act::Connect => heard(connect(link)),
        Act::Disconnect => heard(disconnect(link)),
        Act::Probe => heard(probe(link)),
        Act::Relink => heard(relink(link)),
        Act::Abandon => heard(abandon(link)),
        Act::T1 => heard(fire(link)),
        Act::Put(count) => number(put_many(link, count)),
        Act::Take(octets) => heard(Ok(take(link, octets))),
        Act::TakeLong => take_long(link, alloc),
    }
}

fn says(link: &Link, acknowledged: bool) -> Says {
    (
        link.idle(),
        link.awaits_ua(),
        link.timer_runs(),
        acknowledged,
        link.waiting(),
    )
}

fn last(frames: &[Vec<u8>]) -> &[u8] {
    match frames {
        [.., frame] => frame.as_slice(),
        [] => &[],
    }
}

// Whether the frames that are to send are these.
fn sends(link: &mut Link, frames: &mut Frames, (count, octets): Sent) -> bool {
    frames.clear();
    swap(link, frames);
    frames.len() == count && last(frames.as_slice()) == octets
}

// The first row in which something else comes of what happens.
fn odd_row(link: &mut Link, frames: &mut Frames, alloc: Global, rows: &[Row]) -> Option<usize> {
    for (place, &(act, answer, sent, wanted)) in rows.iter().enumerate() {
        let (found, acknowledged) = happens(link, alloc, act);
        let said = says(link, acknowledged);
        if !sends(link, frames, sent) || (found, said) != (answer, wanted) {
            return Some(place);
        }
    }
    None
}

// That of a link just made, which sends again so often.
fn odd_row_of(alloc: Global, role: Role, n2: u8, rows: &[Row]) -> Result<Option<usize>, LinkError> {
    let mut link = link(alloc, role, 7, n2)?;
    let mut frames = no_frames(alloc)?;
    Ok(odd_row(&mut link, &mut frames, alloc, rows))
}

#[test]
fn steps_of_a_dte(rt: HostRuntime) {
    assert_eq!(rt;
        odd_row_of(rt.alloc(), Role::Dte, 1, DTE.as_slice()),
        Ok(None)
    );
}

#[test]
fn an_idle_link_is_asked_and_set_up_anew(rt: HostRuntime) {
    assert_eq!(rt;
        odd_row_of(rt.alloc(), Role::Dte, 1, ASKED.as_slice()),
        Ok(None)
    );
}

#[test]
fn steps_of_a_dce(rt: HostRuntime) {
    assert_eq!(rt;
        odd_row_of(rt.alloc(), Role::Dce, 10, DCE.as_slice()),
        Ok(None)
    );
}

/// k, N1 and N2 of which one is out of its range.
static SETTINGS: [(u8, usize, u8); 5] = [
    (8, 4099, 10),
    (0, 4099, 10),
    (7, 0, 10),
    (7, 4100, 10),
    (7, 4099, 0),
];

fn refusal(alloc: Global, k: u8, n1: usize, n2: u8) -> Option<u8> {
    let error = link_for(alloc, Role::Dte, k, n1, n2).err();
    error.map(LinkError::number)
}

#[test]
fn a_parameter_out_of_its_range_is_refused(rt: HostRuntime) {
    for &(k, n1, n2) in &SETTINGS {
        assert_eq!(rt; refusal(rt.alloc(), k, n1, n2), Some(14), "{k} {n1} {n2}");
    }
}
