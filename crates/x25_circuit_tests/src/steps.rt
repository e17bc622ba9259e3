//! What a circuit answers, and what it says of itself then; `tests/golden` has the packets of whole calls.

use crate::calls::{ask, circuit, circuit_with, hear, hear_too_few, message};
use crate::requests::{Proposals, acceptance};
use std::alloc::Global;
use x25_circuit::{Circuit, CircuitError, Notice, Octets, Owed, Params, Reply, Requested, Role};
use x25_packet::{Marks, Packet, Seq, call_views};

/// What happens to a circuit.
#[derive(Clone, Copy)]
enum Act {
    /// The user asks for the request of this index.
    Ask(usize),
    CallAccepted,
    Clear,
    ResetConfirmed,
    TooFewOctets,
    /// DATA comes, with P(S), P(R), M, its marks and so many octets.
    Data(u8, u8, bool, Marks, usize),
    /// RR comes, with P(R).
    Rr(u8),
    /// RNR comes, with P(R).
    Rnr(u8),
    Pull,
    Forget,
    Zero,
}

/// What it answers: the number of a refusal or of a fault, else 0; the marks of a message that ended, and how many
/// octets it has; and the third octet of a packet, and how many octets of user data it has.
type Answer = (u8, Option<(Marks, usize)>, Option<(u8, usize)>);

/// What a circuit says: how often it was cleared and reset, whether it is free and is open, how many messages wait, how
/// many more it takes, and how many aren't confirmed.
type Says = (u64, u64, bool, bool, usize, usize, usize);

type Row = (Act, Answer, Says);

const PLAIN: Marks = Marks { q: false, d: false };

const QUALIFIED: Marks = Marks { q: true, d: false };

const ASKING: Marks = Marks { q: true, d: true };

const FREE: Says = (0, 0, true, false, 0, 0, 0);

const OPEN: Says = (0, 0, false, true, 0, 8, 0);

const ONE_WAITS: Says = (0, 0, false, true, 1, 7, 0);

const TWO_WAIT: Says = (0, 0, false, true, 2, 6, 0);

const CLEARED: Says = (1, 0, true, false, 0, 0, 0);

/// In no state of these.
const BETWEEN: Says = (0, 0, false, false, 0, 0, 0);

const CALL: Answer = (0, None, Some((0x0B, 0)));

const NOTHING: Answer = (0, None, None);

const RESET_FOR_PS: Answer = (1, None, Some((0x1B, 0)));

const RESET_FOR_PR: Answer = (2, None, Some((0x1B, 0)));

/// The indices of a call, of a clear, of a message, of a reset, of the user's not being ready, and of a message of
/// which confirmation is asked.
const CALLS: usize = 0;

const CLEARS: usize = 5;

const SENDS: usize = 6;

const RESETS: usize = 9;

const NOT_READY: usize = 11;

const ASKS: usize = 16;

const SENDS_ONE: usize = 17;

const SENDS_TWO: usize = 18;

// A message has one octet at most.
static OF_AN_OCTET: [Row; 9] = [
    (Act::Ask(CALLS), CALL, BETWEEN),
    (Act::CallAccepted, NOTHING, OPEN),
    (Act::Ask(SENDS_TWO), (32, None, None), OPEN),
    (Act::Ask(SENDS_ONE), NOTHING, ONE_WAITS),
    (
        Act::Data(0, 0, true, PLAIN, 1),
        (0, None, Some((0x21, 0))),
        ONE_WAITS,
    ),
    (
        Act::Data(1, 0, false, PLAIN, 0),
        (0, Some((PLAIN, 1)), Some((0x41, 0))),
        ONE_WAITS,
    ),
    (
        Act::Data(2, 0, true, PLAIN, 1),
        (0, None, Some((0x61, 0))),
        ONE_WAITS,
    ),
    (
        Act::Data(3, 0, false, PLAIN, 1),
        (39, None, Some((0x1B, 0))),
        BETWEEN,
    ),
    (Act::Ask(SENDS_ONE), (30, None, None), BETWEEN),
];

static IN_A_CALL: [Row; 15] = [
    (Act::Ask(CALLS), CALL, BETWEEN),
    (Act::CallAccepted, NOTHING, OPEN),
    (
        Act::Data(0, 0, true, QUALIFIED, 128),
        (0, None, Some((0x21, 0))),
        OPEN,
    ),
    (
        Act::Data(1, 0, false, ASKING, 2),
        (0, Some((ASKING, 130)), Some((0x41, 0))),
        OPEN,
    ),
    (Act::Ask(SENDS), NOTHING, ONE_WAITS),
    (Act::Ask(SENDS), NOTHING, TWO_WAIT),
    (Act::Rnr(0), NOTHING, TWO_WAIT),
    (Act::Pull, NOTHING, TWO_WAIT),
    (Act::Rr(0), NOTHING, TWO_WAIT),
    (Act::Pull, (0, None, Some((0x40, 0))), ONE_WAITS),
    (Act::Ask(NOT_READY), (0, None, Some((0x45, 0))), ONE_WAITS),
    (
        Act::Data(2, 1, false, PLAIN, 0),
        (0, Some((PLAIN, 0)), Some((0x65, 0))),
        ONE_WAITS,
    ),
    (Act::Rr(2), RESET_FOR_PR, BETWEEN),
    (Act::Rr(0), NOTHING, BETWEEN),
    (Act::Ask(RESETS), (30, None, None), BETWEEN),
];

// The same packet comes once more.
static REPEATED: [Row; 4] = [
    (Act::Ask(CALLS), CALL, BETWEEN),
    (Act::CallAccepted, NOTHING, OPEN),
    (
        Act::Data(0, 0, true, QUALIFIED, 128),
        (0, None, Some((0x21, 0))),
        OPEN,
    ),
    (Act::Data(0, 0, true, QUALIFIED, 128), RESET_FOR_PS, BETWEEN),
];

static BETWEEN_CALLS: [Row; 8] = [
    (Act::TooFewOctets, (38, None, Some((0x13, 0))), BETWEEN),
    (Act::Clear, NOTHING, CLEARED),
    (Act::Zero, NOTHING, FREE),
    (Act::Ask(CLEARS), (30, None, None), FREE),
    (Act::Clear, (0, None, Some((0x17, 0))), CLEARED),
    (Act::Ask(CALLS), CALL, (1, 0, false, false, 0, 0, 0)),
    (Act::CallAccepted, NOTHING, (1, 0, false, true, 0, 8, 0)),
    (Act::Forget, NOTHING, CLEARED),
];

// Each packet of the window is acknowledged by itself; then there is a reset, and at last the call is cleared.
static CONFIRMED: [Row; 17] = [
    (Act::Ask(CALLS), CALL, BETWEEN),
    (Act::CallAccepted, NOTHING, OPEN),
    (Act::Ask(ASKS), NOTHING, (0, 0, false, true, 1, 7, 1)),
    (Act::Ask(SENDS), NOTHING, (0, 0, false, true, 2, 6, 1)),
    (Act::Ask(ASKS), NOTHING, (0, 0, false, true, 3, 5, 2)),
    (
        Act::Pull,
        (0, None, Some((0x00, 0))),
        (0, 0, false, true, 2, 6, 2),
    ),
    (
        Act::Pull,
        (0, None, Some((0x02, 0))),
        (0, 0, false, true, 1, 7, 2),
    ),
    (Act::Rr(1), NOTHING, (0, 0, false, true, 1, 7, 1)),
    (
        Act::Pull,
        (0, None, Some((0x04, 0))),
        (0, 0, false, true, 0, 8, 1),
    ),
    (Act::Rr(2), NOTHING, (0, 0, false, true, 0, 8, 1)),
    (Act::Rr(3), NOTHING, OPEN),
    (Act::Ask(ASKS), NOTHING, (0, 0, false, true, 1, 7, 1)),
    (Act::Ask(RESETS), (0, None, Some((0x1B, 0))), BETWEEN),
    (Act::ResetConfirmed, NOTHING, (0, 1, false, true, 0, 8, 0)),
    (Act::Ask(ASKS), NOTHING, (0, 1, false, true, 1, 7, 1)),
    (
        Act::Pull,
        (0, None, Some((0x00, 0))),
        (0, 1, false, true, 0, 8, 1),
    ),
    (Act::Clear, (0, None, Some((0x17, 0))), CLEARED),
];

// A full packet, an empty one and the last of one message, and the first of another.
static JOINED: [Row; 6] = [
    (Act::Ask(CALLS), CALL, BETWEEN),
    (Act::CallAccepted, NOTHING, OPEN),
    (
        Act::Data(0, 0, true, PLAIN, 128),
        (0, None, Some((0x21, 0))),
        OPEN,
    ),
    (
        Act::Data(1, 0, true, PLAIN, 0),
        (0, None, Some((0x41, 0))),
        OPEN,
    ),
    (
        Act::Data(2, 0, false, PLAIN, 1),
        (0, Some((PLAIN, 129)), Some((0x61, 0))),
        OPEN,
    ),
    (
        Act::Data(3, 0, false, PLAIN, 3),
        (0, Some((PLAIN, 3)), Some((0x81, 0))),
        OPEN,
    ),
];

// The third octet of a packet, and how many octets of user data it has.
fn shape(packet: &Packet) -> (u8, usize) {
    match packet {
        Packet::Call { a, body, .. } => (0x0B, call_views(*a, body).user.len()),
        Packet::Accept { .. } => (0x0F, 0),
        Packet::Clear { .. } => (0x13, 0),
        Packet::ClearConf { .. } => (0x17, 0),
        Packet::Data {
            m,
            ps,
            pr,
            user,
            ..
        } => {
            (
                pr.get() << 5 | u8::from(*m) << 4 | ps.get() << 1,
                user.len(),
            )
        }
        Packet::Rr { pr, .. } => (pr.get() << 5 | 0x01, 0),
        Packet::Rnr { pr, .. } => (pr.get() << 5 | 0x05, 0),
        Packet::Interrupt { user, .. } => (0x23, user.len()),
        Packet::InterruptConf { .. } => (0x27, 0),
        Packet::Reset { .. } => (0x1B, 0),
        Packet::ResetConf { .. } => (0x1F, 0),
        Packet::Restart { .. } => (0xFB, 0),
        Packet::RestartConf => (0xFF, 0),
    }
}

// The shape of a packet that is owed.
fn shape_of(owed: &Option<Owed>) -> Option<(u8, usize)> {
    match owed {
        Some(owed) => Some(shape(&owed.packet(1))),
        None => None,
    }
}

// The shape of a packet that a request sends.
fn shape_asked(packet: &Requested) -> (u8, usize) {
    match packet {
        Requested::Call { user, .. } => (0x0B, user.len()),
        Requested::Accept { .. } => (0x0F, 0),
        Requested::Interrupt { user } => (0x23, user.len()),
        Requested::Owed(owed) => shape(&owed.packet(1)),
    }
}

fn asked(circuit: &mut Circuit, index: usize) -> Answer {
    match ask(circuit, Proposals::new().request(index)) {
        Ok(Some(packet)) => (0, None, Some(shape_asked(&packet))),
        Ok(None) => NOTHING,
        Err(error) => (error.number(), None, None),
    }
}

fn replied(reply: &Reply, message: &Octets) -> Answer {
    let (number, message) = match &reply.notice {
        Some(Notice::Fault { diagnostic }) => (*diagnostic, None),
        Some(Notice::Delivered { marks }) => (0, Some((*marks, message.as_slice().len()))),
        _ => (0, None),
    };
    (number, message, shape_of(&reply.packet))
}

// The octets in the place of the message, before something comes.
const BEFORE: &[u8] = b"before";

// What is answered, where the octets in the place of the message are as they were unless one is told.
fn kept(reply: &Reply, message: &Octets) -> Result<Answer, CircuitError> {
    let is_told = matches!(reply.notice, Some(Notice::Delivered { .. }));
    if is_told || message.as_slice() == BEFORE {
        return Ok(replied(reply, message));
    }
    Err(CircuitError::BadParameter)
}

fn heard(
    circuit: &mut Circuit,
    message: &mut Octets,
    packet: Packet,
) -> Result<Answer, CircuitError> {
    message.set(BEFORE, &[]);
    let reply = hear(circuit, packet, message)?;
    kept(&reply, message)
}

fn heard_too_few(circuit: &mut Circuit, message: &mut Octets) -> Result<Answer, CircuitError> {
    message.set(BEFORE, &[]);
    let reply = hear_too_few(circuit, message)?;
    kept(&reply, message)
}

fn heard_data(
    circuit: &mut Circuit,
    message: &mut Octets,
    alloc: Global,
    (ps, pr): (u8, u8),
    (m, marks): (bool, Marks),
    count: usize,
) -> Result<Answer, CircuitError> {
    let user = vec![in alloc; 0u8; count]?;
    heard(
        circuit,
        message,
        Packet::Data {
            channel: 1,
            marks,
            m,
            ps: Seq::modulo(ps),
            pr: Seq::modulo(pr),
            user: user.as_slice(),
        },
    )
}

fn pulled(circuit: &mut Circuit) -> Answer {
    match circuit.pull() {
        Some(data) => (0, None, Some(shape(&data.packet()))),
        None => NOTHING,
    }
}

const CLEAR: Packet<'static> = Packet::Clear {
    channel: 1,
    cause: 0,
    diagnostic: 0,
};

fn happens(
    circuit: &mut Circuit,
    message: &mut Octets,
    alloc: Global,
    act: Act,
) -> Result<Answer, CircuitError> {
    match act {
        Act::Ask(index) => Ok(asked(circuit, index)),
        Act::CallAccepted => heard(circuit, message, acceptance()),
        Act::Clear => heard(circuit, message, CLEAR),
        Act::ResetConfirmed => heard(circuit, message, Packet::ResetConf { channel: 1 }),
        Act::TooFewOctets => heard_too_few(circuit, message),
        Act::Data(ps, pr, m, marks, count) => heard_data(
            circuit,
            message,
            alloc,
            (ps, pr),
            (m, marks),
            count,
        ),
        Act::Rr(pr) => heard(
            circuit,
            message,
            Packet::Rr {
                channel: 1,
                pr: Seq::modulo(pr),
            },
        ),
        Act::Rnr(pr) => heard(
            circuit,
            message,
            Packet::Rnr {
                channel: 1,
                pr: Seq::modulo(pr),
            },
        ),
        Act::Pull => Ok(pulled(circuit)),
        Act::Forget => {
            circuit.forget();
            Ok(NOTHING)
        }
        Act::Zero => {
            circuit.zero();
            Ok(NOTHING)
        }
    }
}

fn says(circuit: &Circuit) -> Says {
    let (clears, resets) = circuit.counts();
    (
        clears,
        resets,
        circuit.is_free(),
        circuit.is_open(),
        circuit.waits(),
        circuit.room(),
        circuit.unconfirmed(),
    )
}

fn is_idle(circuit: &Circuit) -> bool {
    circuit.waits() == 0 && !circuit.awaits().is_any() && circuit.unacknowledged().is_none()
}

// The first row in which something else comes of what happens.
fn odd_row(
    circuit: &mut Circuit,
    message: &mut Octets,
    alloc: Global,
    rows: &[Row],
) -> Option<usize> {
    for (place, &(act, answer, wanted)) in rows.iter().enumerate() {
        let found = happens(circuit, message, alloc, act);
        if found != Ok(answer) || says(circuit) != wanted || circuit.is_idle() != is_idle(circuit) {
            return Some(place);
        }
    }
    None
}

fn odd_row_of(alloc: Global, rows: &[Row]) -> Result<Option<usize>, CircuitError> {
    let mut circuit = circuit(alloc, Role::Dte)?;
    Ok(odd_row(&mut circuit, &mut message(alloc)?, alloc, rows))
}

#[test]
fn packets_of_data_transfer_are_answered(rt: HostRuntime) {
    assert_eq!(rt; odd_row_of(rt.alloc(), IN_A_CALL.as_slice()), Ok(None));
    assert_eq!(rt; odd_row_of(rt.alloc(), REPEATED.as_slice()), Ok(None));
    assert_eq!(rt; odd_row_of(rt.alloc(), CONFIRMED.as_slice()), Ok(None));
}

/// P(S) of the first data packet that isn't acknowledged, behind each of these: it stays the first as another goes, and
/// there is none while the other end isn't ready.
static OUT: [(Act, Option<u8>); 12] = [
    (Act::Ask(CALLS), None),
    (Act::CallAccepted, None),
    (Act::Ask(SENDS), None),
    (Act::Pull, Some(0)),
    (Act::Ask(SENDS), Some(0)),
    (Act::Pull, Some(0)),
    (Act::Rnr(0), None),
    (Act::Rr(1), Some(1)),
    (Act::Rr(2), None),
    (Act::Ask(SENDS), None),
    (Act::Pull, Some(2)),
    (Act::Ask(RESETS), None),
];

// The first place in which something else is out.
fn odd_place(circuit: &mut Circuit, message: &mut Octets, alloc: Global) -> Option<usize> {
    for (place, &(act, first)) in OUT.iter().enumerate() {
        if happens(circuit, message, alloc, act).is_err() || circuit.unacknowledged() != first {
            return Some(place);
        }
    }
    None
}

fn odd_place_of(alloc: Global) -> Result<Option<usize>, CircuitError> {
    let mut circuit = circuit(alloc, Role::Dte)?;
    Ok(odd_place(&mut circuit, &mut message(alloc)?, alloc))
}

#[test]
fn a_data_packet_is_out_until_it_is_acknowledged(rt: HostRuntime) {
    assert_eq!(rt; odd_place_of(rt.alloc()), Ok(None));
}

fn odd_row_of_an_octet(alloc: Global) -> Result<Option<usize>, CircuitError> {
    let mut circuit = circuit_with(alloc, Role::Dte, 1)?;
    Ok(odd_row(
        &mut circuit,
        &mut message(alloc)?,
        alloc,
        OF_AN_OCTET.as_slice(),
    ))
}

#[test]
fn a_message_is_as_long_as_the_longest(rt: HostRuntime) {
    assert_eq!(rt; odd_row_of_an_octet(rt.alloc()), Ok(None));
}

#[test]
fn a_message_comes_in_parts(rt: HostRuntime) {
    assert_eq!(rt; odd_row_of(rt.alloc(), JOINED.as_slice()), Ok(None));
}

#[test]
fn a_circuit_counts_clears(rt: HostRuntime) {
    assert_eq!(rt; odd_row_of(rt.alloc(), BETWEEN_CALLS.as_slice()), Ok(None));
}

fn params(alloc: Global) -> Result<Params, CircuitError> {
    Ok(circuit(alloc, Role::Dte)?.params())
}

#[test]
fn a_free_circuit_has_the_defaults(rt: HostRuntime) {
    assert_eq!(rt; params(rt.alloc()), Ok(Params::default()));
}

/// The octets of a message, those set in their place, and how many there are behind them.
fn set(alloc: Global) -> Result<(bool, bool), CircuitError> {
    let mut octets = Octets::new(alloc)?;
    let is_empty = octets.as_slice().is_empty();
    octets.set(b"first", b"of all");
    octets.set(b"la", b"st");
    Ok((is_empty, octets.as_slice() == b"last".as_slice()))
}

#[test]
fn octets_are_set_in_place_of_others(rt: HostRuntime) {
    assert_eq!(rt; set(rt.alloc()), Ok((true, true)));
}
