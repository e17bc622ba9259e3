//! The calls of the user in one, and why they would be refused.

use crate::calls::{ask, circuit, hear, message};
use std::alloc::Global;
use x25_circuit::{Circuit, CircuitError, Owed, Params, Proposal, Request, Requested, Role};
use x25_packet::{Marks, Packet};

/// What is proposed: one that may be, and one that may not.
#[derive(Drop)]
pub struct Proposals {
    usual: Proposal,
    size_3: Proposal,
}

impl Proposals {
    pub fn new() -> Proposals {
        Proposals {
            usual: Proposal::new(Params::default(), false),
            size_3: Proposal::new(
                Params {
                    size_called: 3,
                    ..Params::default()
                },
                false,
            ),
        }
    }

    /// The request of an index up to 18.
    pub fn request(&self, index: usize) -> Request<'_> {
        match index {
            0 => self.call("2", &self.usual),
            1 => self.call("a", &self.usual),
            2 => self.call("2", &self.size_3),
            3 => Request::Accept { answer: None },
            4 => Request::Accept {
                answer: Some(&self.usual),
            },
            5 => clear(0),
            6 => Request::Send {
                marks: Marks { q: false, d: false },
                user: &[],
            },
            7 => Request::Interrupt { user: b"1" },
            8 => Request::Interrupt { user: &[] },
            9 => reset(0),
            10 => Request::Ready,
            11 => Request::NotReady,
            12 => clear(129),
            13 => clear(9),
            14 => reset(128),
            15 => reset(255),
            16 => Request::Send {
                marks: Marks { q: false, d: true },
                user: &[],
            },
            17 => Request::Send {
                marks: Marks { q: false, d: false },
                user: b"1",
            },
            _ => Request::Send {
                marks: Marks { q: false, d: false },
                user: b"12",
            },
        }
    }

    fn call<'a>(&self, calling: &'a str, proposal: &'a Proposal) -> Request<'a> {
        Request::Call {
            called: "1",
            calling,
            user: &[],
            proposal,
        }
    }
}

fn clear<'a>(cause: u8) -> Request<'a> {
    Request::Clear {
        cause,
        diagnostic: 7,
    }
}

fn reset<'a>(cause: u8) -> Request<'a> {
    Request::Reset {
        cause,
        diagnostic: 7,
    }
}

/// Of each request of a DTE, in order, the number of its refusal or 0: in p1, of a circuit that called, and in p4 with
/// d1.
static REFUSALS: [[u8; 3]; 17] = [
    [0, 30, 30],
    [34, 30, 30],
    [34, 30, 30],
    [30, 30, 30],
    [30, 30, 30],
    [30, 0, 0],
    [30, 30, 0],
    [30, 30, 0],
    [30, 30, 34],
    [30, 30, 0],
    [30, 30, 0],
    [30, 30, 0],
    [30, 0, 0],
    [30, 34, 34],
    [30, 30, 34],
    [30, 30, 0],
    [30, 30, 0],
];

/// The other end's answer to a call.
pub fn acceptance() -> Packet<'static> {
    Packet::Accept {
        a: false,
        channel: 1,
        body: &[],
    }
}

// Brings a circuit in p1 to the place of a number in a row.
fn goes_to(circuit: &mut Circuit, alloc: Global, place: usize) -> Result<(), CircuitError> {
    if place > 0 {
        ask(circuit, Proposals::new().request(0))?;
    }
    if place > 1 {
        hear(circuit, acceptance(), &mut message(alloc)?)?;
    }
    Ok(())
}

fn number(error: Option<CircuitError>) -> u8 {
    match error {
        Some(error) => error.number(),
        None => 0,
    }
}

// The refusal that is told beforehand, and the one that comes.
fn refusals(circuit: &mut Circuit, index: usize) -> (u8, u8) {
    let proposals = Proposals::new();
    let told = circuit.refusal(&proposals.request(index));
    (
        number(told),
        number(ask(circuit, proposals.request(index)).err()),
    )
}

fn refusals_at(alloc: Global, place: usize, index: usize) -> Result<(u8, u8), CircuitError> {
    let mut circuit = circuit(alloc, Role::Dte)?;
    goes_to(&mut circuit, alloc, place)?;
    Ok(refusals(&mut circuit, index))
}

#[test]
fn a_request_is_refused_as_was_told(rt: HostRuntime) {
    for (index, numbers) in REFUSALS.iter().enumerate() {
        for (place, number) in numbers.iter().enumerate() {
            let found = refusals_at(rt.alloc(), place, index);
            assert_eq!(rt; found, Ok((*number, *number)), "request {index} at {place}");
        }
    }
}

/// Causes at their bounds, and whether a user of a DTE and of a DCE may give them with CLEAR and RESET.
static CAUSES: [(u8, [bool; 4]); 10] = [
    (0, [true, true, true, true]),
    (1, [false, false, true, true]),
    (3, [false, false, false, true]),
    (5, [false, false, true, false]),
    (9, [false, false, true, true]),
    (19, [false, false, false, true]),
    (127, [false, false, true, true]),
    (128, [false, false, false, false]),
    (129, [true, true, true, true]),
    (255, [true, true, true, true]),
];

// The packet of a request of an open circuit, where it isn't refused: its cause and its diagnostic.
fn sent(alloc: Global, role: Role, request: Request<'_>) -> Option<(u8, u8)> {
    let mut circuit = circuit(alloc, role).ok()?;
    goes_to(&mut circuit, alloc, 2).ok()?;
    match circuit.ask(request) {
        Ok(
            Some(
                Requested::Owed(
                    Owed::Clear { cause, diagnostic } | Owed::Reset { cause, diagnostic },
                ),
            ),
        ) => Some((cause, diagnostic)),
        _ => None,
    }
}

fn given(may_give: bool, cause: u8) -> Option<(u8, u8)> {
    if may_give { Some((cause, 7)) } else { None }
}

#[test]
fn causes_that_a_user_gives_are_sent(rt: HostRuntime) {
    for &(cause, may) in CAUSES.iter() {
        let found = (
            sent(rt.alloc(), Role::Dte, clear(cause)),
            sent(rt.alloc(), Role::Dte, reset(cause)),
            sent(rt.alloc(), Role::Dce, clear(cause)),
            sent(rt.alloc(), Role::Dce, reset(cause)),
        );
        let wanted = (
            given(may[0], cause),
            given(may[1], cause),
            given(may[2], cause),
            given(may[3], cause),
        );
        assert_eq!(rt; found, wanted, "{cause}");
    }
}

#[test]
fn numbers_of_errors(rt: HostRuntime) {
    let numbers = (
        CircuitError::WrongState.number(),
        CircuitError::NoMemory.number(),
    );
    assert_eq!(rt; numbers, (30, 70));
}
