//! Moments at which more than one thing is due or happens, that are earlier than the last one, or the last there is.

use crate::silence::{
    Act, CALL, CALLED, CLEARED, NONE, RESTART, RESTARTS, RR_1, RR_2, RR_3, RR_4, Row, TIMES, UA,
    odd_row_of,
};
use x25_clock::{Due, Times};
use x25_station::{Awaits, Cmd};

const RESET: (Awaits, bool, bool) = (Awaits::ResetConfirmation, false, true);

const INTERRUPTED: (Awaits, bool, bool) = (Awaits::InterruptConfirmation, false, true);

/// T1, a call on either channel and a restart take as long as each other.
const ALIKE: Times = Times {
    t1: 210,
    t3: 0,
    t20: 210,
    t21: 210,
    t22: 0,
    t23: 0,
    t25: 0,
    t26: 0,
};

static DUE_AT_ONCE: [Row; 9] = [
    (0, Act::Ask(Cmd::Connect), 0, None, Some(210), NONE),
    (0, UA, 0, None, Some(210), RESTARTS),
    (0, RR_1, 0, None, Some(210), RESTARTS),
    (0, RESTART, 0, None, None, NONE),
    (5, CALL, 0, None, Some(215), CALLED),
    (5, CALL, 0, None, Some(215), CALLED),
    (215, Act::Obey, 0, Some(Due::T1), Some(215), CALLED),
    (
        215,
        Act::Obey,
        0,
        Some(Due::Clear { channel: 1 }),
        Some(215),
        CALLED,
    ),
    (
        215,
        Act::Obey,
        0,
        Some(Due::Clear { channel: 2 }),
        Some(425),
        CLEARED,
    ),
];

static DUE_WITH_A_RESTART: [Row; 5] = [
    (0, Act::Ask(Cmd::Connect), 0, None, Some(210), NONE),
    (0, UA, 0, None, Some(210), RESTARTS),
    (210, Act::Obey, 0, Some(Due::T1), Some(210), RESTARTS),
    (210, Act::Obey, 0, Some(Due::Relink), Some(420), NONE),
    (210, Act::Obey, 0, None, Some(420), NONE),
];

/// CALL ACCEPTED of channel 2.
const ACCEPTED: Act = Act::Take(&[0x03, 0x42, 0x10, 0x02, 0x0F, 0xA8, 0xB3]);

/// CLEAR of channel 2.
const CLEAR: Act = Act::Take(&[0x03, 0x64, 0x10, 0x02, 0x13, 0x00, 0x00, 0xC4, 0x54]);

/// As in `TIMES`, but a reset takes as long as a call.
const RESETS: Times = Times {
    t1: 10,
    t3: 1000,
    t20: 200,
    t21: 210,
    t22: 210,
    t23: 230,
    t25: 150,
    t26: 220,
};

/// The answer to a call and a clearing that ends a reset come as their time passes; and time runs back.
static ANSWERED: [Row; 14] = [
    (0, Act::Ask(Cmd::Connect), 0, None, Some(10), NONE),
    (0, UA, 0, None, Some(10), RESTARTS),
    (0, RR_1, 0, None, Some(200), RESTARTS),
    (0, RESTART, 0, None, Some(1000), NONE),
    (30, CALL, 0, None, Some(40), CALLED),
    (31, RR_2, 0, None, Some(240), CALLED),
    (240, ACCEPTED, 0, None, Some(1240), NONE),
    (240, Act::Obey, 0, None, Some(1240), NONE),
    (
        250,
        Act::Ask(Cmd::Reset {
            channel: 2,
            cause: 0,
            diagnostic: 0,
        }),
        0,
        None,
        Some(260),
        RESET,
    ),
    (251, RR_3, 0, None, Some(460), RESET),
    (200, Act::Obey, 0, None, Some(460), RESET),
    (460, CLEAR, 0, None, Some(470), NONE),
    (460, Act::Obey, 0, None, Some(470), NONE),
    (100, Act::Ask(Cmd::Relink), 0, None, Some(110), NONE),
];

const INTERRUPT: Act = Act::Ask(Cmd::Interrupt {
    channel: 2,
    user: &[7],
});

/// INTERRUPT CONFIRMATION of channel 2.
const CONFIRMED: Act = Act::Take(&[0x03, 0x64, 0x10, 0x02, 0x27, 0x2B, 0xDA]);

/// An interrupt that isn't confirmed is reset, and then the channel is cleared.
static INTERRUPT_UNANSWERED: [Row; 12] = [
    (0, Act::Ask(Cmd::Connect), 0, None, Some(10), NONE),
    (0, UA, 0, None, Some(10), RESTARTS),
    (0, RR_1, 0, None, Some(200), RESTARTS),
    (0, RESTART, 0, None, Some(1000), NONE),
    (30, CALL, 0, None, Some(40), CALLED),
    (31, RR_2, 0, None, Some(240), CALLED),
    (240, ACCEPTED, 0, None, Some(1240), NONE),
    (250, INTERRUPT, 0, None, Some(260), INTERRUPTED),
    (251, RR_3, 0, None, Some(470), INTERRUPTED),
    (
        470,
        Act::Obey,
        0,
        Some(Due::Reset { channel: 2 }),
        Some(480),
        RESET,
    ),
    (471, RR_4, 0, None, Some(680), RESET),
    (
        680,
        Act::Obey,
        0,
        Some(Due::Clear { channel: 2 }),
        Some(690),
        CLEARED,
    ),
];

/// One that is confirmed is awaited no longer, and the next one has its own time.
static INTERRUPT_ANSWERED: [Row; 11] = [
    (0, Act::Ask(Cmd::Connect), 0, None, Some(10), NONE),
    (0, UA, 0, None, Some(10), RESTARTS),
    (0, RR_1, 0, None, Some(200), RESTARTS),
    (0, RESTART, 0, None, Some(1000), NONE),
    (30, CALL, 0, None, Some(40), CALLED),
    (31, RR_2, 0, None, Some(240), CALLED),
    (240, ACCEPTED, 0, None, Some(1240), NONE),
    (250, INTERRUPT, 0, None, Some(260), INTERRUPTED),
    (255, CONFIRMED, 0, None, Some(1255), NONE),
    (300, INTERRUPT, 0, None, Some(310), INTERRUPTED),
    (301, RR_4, 0, None, Some(520), INTERRUPTED),
];

const SEND: Act = Act::Ask(Cmd::Send {
    channel: 2,
    q: false,
    d: false,
    user: &[7],
});

/// RNR of channel 2 with P(R) 0, RR with P(R) 0, and RR with P(R) 1.
const NOT_READY: Act = Act::Take(&[0x03, 0x64, 0x10, 0x02, 0x05, 0x3B, 0xD8]);

const READY: Act = Act::Take(&[0x03, 0x66, 0x10, 0x02, 0x01, 0x69, 0xA7]);

const ONE_TAKEN: Act = Act::Take(&[0x03, 0x88, 0x10, 0x02, 0x21, 0xA3, 0x9C]);

/// A data packet that isn't acknowledged is reset. RNR stops its time, RR begins it; another packet behind it leaves
/// it, and P(R) that moves begins it anew.
static DATA_UNANSWERED: [Row; 15] = [
    (0, Act::Ask(Cmd::Connect), 0, None, Some(10), NONE),
    (0, UA, 0, None, Some(10), RESTARTS),
    (0, RR_1, 0, None, Some(200), RESTARTS),
    (0, RESTART, 0, None, Some(1000), NONE),
    (30, CALL, 0, None, Some(40), CALLED),
    (31, RR_2, 0, None, Some(240), CALLED),
    (240, ACCEPTED, 0, None, Some(1240), NONE),
    (250, SEND, 0, None, Some(260), NONE),
    (251, RR_3, 0, None, Some(400), NONE),
    (300, NOT_READY, 0, None, Some(1300), NONE),
    (350, READY, 0, None, Some(500), NONE),
    (400, SEND, 0, None, Some(410), NONE),
    (401, RR_4, 0, None, Some(500), NONE),
    (450, ONE_TAKEN, 0, None, Some(600), NONE),
    (
        600,
        Act::Obey,
        0,
        Some(Due::ResetUnacknowledged { channel: 2 }),
        Some(610),
        RESET,
    ),
];

/// What would be due later than any moment never is.
static LAST: [Row; 3] = [
    (
        u64::MAX - 10,
        Act::Ask(Cmd::Connect),
        0,
        None,
        Some(u64::MAX),
        NONE,
    ),
    (u64::MAX, Act::Obey, 0, Some(Due::T1), None, NONE),
    (u64::MAX, UA, 0, None, None, RESTARTS),
];

/// Two calls, of 4,095 channels: the one on the highest isn't answered, and neither is its clearing.
static ON_THE_HIGHEST: [Row; 11] = [
    (0, Act::Ask(Cmd::Connect), 0, None, Some(10), NONE),
    (0, UA, 0, None, Some(10), RESTARTS),
    (0, RR_1, 0, None, Some(200), RESTARTS),
    (0, RESTART, 0, None, Some(1000), NONE),
    (30, CALL, 0, None, Some(40), CALLED),
    (31, RR_2, 0, None, Some(240), CALLED),
    (32, CALL, 0, None, Some(42), CALLED),
    (33, RR_3, 0, None, Some(240), CALLED),
    (
        240,
        Act::Obey,
        0,
        Some(Due::Clear { channel: 4095 }),
        Some(242),
        CLEARED,
    ),
    (
        242,
        Act::Obey,
        0,
        Some(Due::Clear { channel: 4094 }),
        Some(250),
        CLEARED,
    ),
    (250, RR_4, 0, None, Some(260), CLEARED),
];

/// Noise on a line at rest: an octet, a damaged frame, one of another address, and an RR that asks for nothing begin no
/// time anew; a poll does.
static NOISE: [Row; 11] = [
    (0, Act::Ask(Cmd::Connect), 0, None, Some(10), NONE),
    (0, UA, 0, None, Some(10), RESTARTS),
    (0, RR_1, 0, None, Some(200), RESTARTS),
    (0, RESTART, 0, None, Some(1000), NONE),
    (10, Act::Take(&[0x03]), 0, None, Some(1000), NONE),
    (
        20,
        Act::Take(&[0x01, 0x21, 0x14, 0x27]),
        0,
        None,
        Some(1000),
        NONE,
    ),
    (
        30,
        Act::Take(&[0x07, 0x01, 0xC6, 0x53]),
        0,
        None,
        Some(1000),
        NONE,
    ),
    (
        40,
        Act::Take(&[0x03, 0x21, 0xA4, 0x15]),
        0,
        None,
        Some(1000),
        NONE,
    ),
    (
        50,
        Act::Take(&[0x03, 0x31, 0x25, 0x05]),
        0,
        None,
        Some(1050),
        NONE,
    ),
    (1049, Act::Obey, 0, None, Some(1050), NONE),
    (1050, Act::Obey, 0, Some(Due::Probe), Some(1060), NONE),
];

/// The clock begins once UA is awaited, and again once a call is.
static BEGUN: [Row; 10] = [
    (0, Act::Ask(Cmd::Connect), 0, None, Some(10), NONE),
    (7000, Act::Begin, 0, None, Some(7010), NONE),
    (7000, Act::Obey, 0, None, Some(7010), NONE),
    (7000, UA, 0, None, Some(7010), RESTARTS),
    (7000, RR_1, 0, None, Some(7200), RESTARTS),
    (7100, Act::Begin, 0, None, Some(7300), RESTARTS),
    (7100, RESTART, 0, None, Some(8100), NONE),
    (7110, CALL, 0, None, Some(7120), CALLED),
    (7111, RR_2, 0, None, Some(7320), CALLED),
    (7200, Act::Begin, 0, None, Some(7410), CALLED),
];

#[test]
fn moments_are_told_apart(rt: HostRuntime) {
    let odd_rows = [
        odd_row_of(rt.alloc(), (2, ALIKE), &DUE_AT_ONCE),
        odd_row_of(rt.alloc(), (2, ALIKE), &DUE_WITH_A_RESTART),
        odd_row_of(rt.alloc(), (2, RESETS), &ANSWERED),
        odd_row_of(rt.alloc(), (2, RESETS), &INTERRUPT_UNANSWERED),
        odd_row_of(rt.alloc(), (2, RESETS), &INTERRUPT_ANSWERED),
        odd_row_of(rt.alloc(), (2, RESETS), &DATA_UNANSWERED),
        odd_row_of(rt.alloc(), (2, TIMES), &LAST),
        odd_row_of(rt.alloc(), (4095, TIMES), &ON_THE_HIGHEST),
        odd_row_of(rt.alloc(), (2, TIMES), &NOISE),
        odd_row_of(rt.alloc(), (2, TIMES), &BEGUN),
    ];
    assert_eq!(rt; odd_rows, [Some(None); 10]);
}
