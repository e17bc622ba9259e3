//! Calls through a switch: what is told at a leg, and what is to be asked then.
use std::alloc::{AllocError, Global};
use x25_circuit::{Marks, Role};
use x25_crossing::{Ask, Crossing, Flow, Side, Stage, Told, clear_goes_on, reset_goes_on};

/// What happens to a call whose near leg has a DCE's station, and whose far one a DTE's.
#[derive(Clone, Copy)]
enum Step {
    Tell(Side, Told<'static>),
    /// A message of these octets comes by the near leg.
    Message(&'static [u8]),
    /// The station of a leg has accepted what was asked, a message, an interrupt, or whether messages are to come.
    Asked(Side),
    Sent(Side),
    InterruptSent(Side),
    Flowed(Side),
}

/// What is asked at the near leg and at the far one, the first octets of the message and of the interrupt that go out
/// next by the far leg, and what the end of the near leg is to be told.
type Says = (
    Option<Ask>,
    Option<Ask>,
    Option<u8>,
    Option<u8>,
    Option<Flow>,
);

const NEAR: Side = Side::Near;

const FAR: Side = Side::Far;

const QUIET: Says = (None, None, None, None, None);

/// There is room for 10 octets each way.
static ROWS: [(Step, Says); 21] = [
    (Step::Asked(FAR), QUIET),
    (
        Step::Tell(FAR, Told::Collided),
        (None, Some(Ask::Call), None, None, None),
    ),
    (Step::Asked(FAR), QUIET),
    (
        Step::Tell(FAR, Told::Connected),
        (Some(Ask::Accept), None, None, None, None),
    ),
    (Step::Asked(NEAR), QUIET),
    (Step::Message(&[1, 1, 1]), (None, None, Some(1), None, None)),
    (
        Step::Message(&[2, 2]),
        (None, None, Some(1), None, Some(Flow::NotReady)),
    ),
    (Step::Flowed(NEAR), (None, None, Some(1), None, None)),
    (Step::Sent(FAR), (None, None, Some(2), None, None)),
    (Step::Sent(FAR), (None, None, None, None, Some(Flow::Ready))),
    (Step::Flowed(NEAR), QUIET),
    (
        Step::Tell(NEAR, Told::Interrupted { user: &[9] }),
        (None, None, None, Some(9), None),
    ),
    (Step::InterruptSent(FAR), QUIET),
    (Step::Message(&[3]), (None, None, Some(3), None, None)),
    (
        Step::Tell(
            NEAR,
            Told::WasReset {
                cause: 5,
                diagnostic: 27,
            },
        ),
        (
            None,
            Some(Ask::Reset {
                cause: 131,
                diagnostic: 27,
            }),
            None,
            None,
            None,
        ),
    ),
    (Step::Asked(FAR), QUIET),
    (Step::Message(&[4]), QUIET),
    (
        Step::Tell(FAR, Told::ResetDone),
        (None, None, Some(4), None, None),
    ),
    (
        Step::Tell(
            NEAR,
            Told::Cleared {
                cause: 19,
                diagnostic: 33,
            },
        ),
        (None, None, Some(4), None, None),
    ),
    (
        Step::Sent(FAR),
        (
            None,
            Some(Ask::Clear {
                cause: 145,
                diagnostic: 33,
            }),
            None,
            None,
            None,
        ),
    ),
    (Step::Asked(FAR), QUIET),
];

/// Where more comes than there is room for.
static TOO_MUCH: [(Step, Says); 4] = [
    (Step::Asked(FAR), QUIET),
    (
        Step::Tell(FAR, Told::Connected),
        (Some(Ask::Accept), None, None, None, None),
    ),
    (Step::Asked(NEAR), QUIET),
    (
        Step::Message(&[1; 11]),
        (
            Some(Ask::Reset {
                cause: 7,
                diagnostic: 0,
            }),
            Some(Ask::Reset {
                cause: 135,
                diagnostic: 0,
            }),
            None,
            None,
            None,
        ),
    ),
];

fn does(call: &mut Crossing, step: Step) -> Result<(), AllocError> {
    match step {
        Step::Tell(side, told) => return call.told(side, told),
        Step::Message(user) => {
            let marks = Marks { q: false, d: false };
            return call.told(NEAR, Told::Delivered { marks, user });
        }
        Step::Asked(side) => call.asked(side),
        Step::Sent(side) => call.sent(side),
        Step::InterruptSent(side) => call.interrupt_sent(side),
        Step::Flowed(side) => call.flowed(side),
    }
    Ok(())
}

fn says(call: &Crossing) -> Says {
    let message = match call.message(FAR) {
        Some(held) => held.octets().first().copied(),
        None => None,
    };
    let interrupt = match call.interrupt(FAR) {
        Some(held) => held.octets().first().copied(),
        None => None,
    };
    (
        call.asks(NEAR, Role::Dce),
        call.asks(FAR, Role::Dte),
        message,
        interrupt,
        call.flow(NEAR),
    )
}

// The first row that differs, if any, and how the legs stand in the end.
fn odd_row(call: &mut Crossing, rows: &[(Step, Says)]) -> Result<Option<usize>, AllocError> {
    for (index, &(step, said)) in rows.iter().enumerate() {
        does(call, step)?;
        if says(call) != said {
            return Ok(Some(index));
        }
    }
    Ok(None)
}

fn played(
    alloc: Global,
    rows: &[(Step, Says)],
) -> Result<(Option<usize>, Stage, bool), AllocError> {
    let mut call = Crossing::new(alloc, 10)?;
    let odd = odd_row(&mut call, rows)?;
    Ok((odd, call.stage(NEAR), call.is_over()))
}

#[test]
fn a_call_goes_through(rt: HostRuntime) {
    assert_eq!(rt; played(rt.alloc(), &ROWS), Ok((None, Stage::Gone, true)));
}

#[test]
fn too_much_resets_both_legs(rt: HostRuntime) {
    let stage = Stage::Resets {
        cause: 7,
        diagnostic: 0,
    };
    assert_eq!(rt; played(rt.alloc(), &TOO_MUCH), Ok((None, stage, false)));
}

/// A cause, and those by which a clear and a reset of it go on at the station of a DCE, and of a DTE.
static CAUSES: [(u8, [u8; 4]); 6] = [
    (0, [0, 0, 0, 0]),
    (3, [13, 3, 131, 131]),
    (5, [5, 3, 133, 131]),
    (19, [17, 19, 145, 147]),
    (128, [0, 0, 0, 0]),
    (200, [200, 200, 200, 200]),
];

fn odd_cause(rows: &[(u8, [u8; 4])]) -> Option<u8> {
    for &(cause, wanted) in rows {
        let found = [
            clear_goes_on(Role::Dce, cause),
            reset_goes_on(Role::Dce, cause),
            clear_goes_on(Role::Dte, cause),
            reset_goes_on(Role::Dte, cause),
        ];
        if found != wanted {
            return Some(cause);
        }
    }
    None
}

#[test]
fn causes_go_on(rt: HostRuntime) {
    assert_eq!(rt; odd_cause(&CAUSES), None);
}
