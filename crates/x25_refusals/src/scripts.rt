//! Scripts of two stations and the line between them, in which each kind of call that asks for memory stands.
use Act::{Do, Drain, Heal};
use x25_layer::Params;
use x25_station::{Cfg, Cmd, Given, Ranges};
use x25_world::Direction::ToDce;
use x25_world::Event::{self, Command, Damage, Lose, T1};
use x25_world::Role::{Dce, Dte};

/// What is played.
#[derive(Clone, Copy)]
pub(crate) enum Act {
    Do(Event<'static>),
    /// Deliveries, first those to the DCE, until nothing is on the line.
    Drain,
    /// The line is good for a moment.
    Heal,
}

/// What is played at a world.
#[derive(Clone, Copy)]
pub(crate) struct Script {
    pub name: &'static str,
    pub cfg: Cfg,
    /// Whether the link was just set up, or both links are down.
    pub is_up: bool,
    pub acts: &'static [Act],
}

const CHANNELS: Ranges = Ranges {
    count: 1,
    incoming: 0,
    outgoing: 0,
    message: 65_535,
};

const USUAL: Cfg = Cfg {
    k: 7,
    n2: 10,
    channels: CHANNELS,
    long_data: false,
    say_sizes: false,
    wide: false,
};

const WIDE: Cfg = Cfg {
    k: 7,
    n2: 10,
    channels: CHANNELS,
    long_data: false,
    say_sizes: false,
    wide: true,
};

const CALLS: Act = Do(Command(
    Dte,
    Cmd::Call {
        called: "123",
        calling: "4567",
        user: b"A",
        params: None,
        given: None,
    },
));

const PROPOSES: Act = Do(Command(
    Dte,
    Cmd::Call {
        called: "1",
        calling: "2",
        user: b"",
        params: Some(Params {
            size_called: 8,
            size_calling: 8,
            win_called: 3,
            win_calling: 3,
        }),
        given: None,
    },
));

/// Reverse charging.
const CALLS_WITH: Act = Do(Command(
    Dte,
    Cmd::Call {
        called: "1",
        calling: "2",
        user: b"A",
        params: None,
        given: Some(&Given {
            facilities: &[0x01, 0x01],
            user: &[],
            d: false,
        }),
    },
));

const ACCEPTS: Act = Do(Command(
    Dce,
    Cmd::Accept {
        channel: 1,
        params: None,
        given: None,
    },
));

const ANSWERS: Act = Do(Command(
    Dce,
    Cmd::Accept {
        channel: 1,
        params: Some(Params {
            size_called: 7,
            size_calling: 8,
            win_called: 3,
            win_calling: 2,
        }),
        given: None,
    },
));

const ACCEPTS_WITH: Act = Do(Command(
    Dce,
    Cmd::Accept {
        channel: 1,
        params: None,
        given: Some(&Given {
            facilities: &[],
            user: b"hi",
            d: true,
        }),
    },
));

const SENDS: Act = Do(Command(
    Dte,
    Cmd::Send {
        channel: 1,
        q: false,
        d: false,
        user: b"hi",
    },
));

const INTERRUPTS: Act = Do(Command(
    Dte,
    Cmd::Interrupt {
        channel: 1,
        user: b"!",
    },
));

const RESETS: Act = Do(Command(
    Dte,
    Cmd::Reset {
        channel: 1,
        cause: 0,
        diagnostic: 0,
    },
));

const CLEARS: Act = Do(Command(
    Dte,
    Cmd::Clear {
        channel: 1,
        cause: 0,
        diagnostic: 0,
        given: None,
    },
));

const RESTARTS: Act = Do(Command(
    Dte,
    Cmd::Restart {
        cause: 0,
        diagnostic: 0,
    },
));

const CONNECTS: Act = Do(Command(Dte, Cmd::Connect));

const IS_NOT_READY: Act = Do(Command(Dce, Cmd::NotReady { channel: 1 }));

const IS_READY: Act = Do(Command(Dce, Cmd::Ready { channel: 1 }));

const LOSES: Act = Do(Lose(ToDce, 0));

pub(crate) static SCRIPTS: [Script; 6] = [
    Script {
        name: "messages to an end that isn't ready, an interrupt, a reset and a clear",
        cfg: USUAL,
        is_up: false,
        acts: &[
            CONNECTS,
            Drain,
            CALLS,
            Drain,
            ACCEPTS,
            Drain,
            IS_NOT_READY,
            Drain,
            SENDS,
            SENDS,
            INTERRUPTS,
            Drain,
            IS_READY,
            Drain,
            RESETS,
            Drain,
            CLEARS,
            Drain,
        ],
    },
    Script {
        name: "an idle link that is polled, a restart, and the end of the link",
        cfg: USUAL,
        is_up: false,
        acts: &[
            CONNECTS,
            Drain,
            Do(Command(Dte, Cmd::Probe)),
            Drain,
            Do(Command(Dte, Cmd::Relink)),
            Drain,
            CALLS,
            RESTARTS,
            Drain,
            Do(Command(Dte, Cmd::Pull)),
            Do(Command(Dte, Cmd::Disconnect)),
            Drain,
        ],
    },
    Script {
        name: "a call that proposes sizes and windows",
        cfg: USUAL,
        is_up: false,
        acts: &[CONNECTS, Drain, PROPOSES, Drain, ANSWERS, Drain],
    },
    Script {
        name: "facilities with a call, and user data with its acceptance",
        cfg: WIDE,
        is_up: false,
        acts: &[CONNECTS, Drain, CALLS_WITH, Drain, ACCEPTS_WITH, Drain],
    },
    Script {
        name: "a frame is damaged, and comes again",
        cfg: USUAL,
        is_up: true,
        acts: &[
            Drain,
            CALLS,
            Do(Damage(ToDce, 0, b"\x01\x22")),
            Drain,
            Do(T1(Dte)),
            Drain,
        ],
    },
    Script {
        name: "an I frame is lost, and the line is good then",
        cfg: USUAL,
        is_up: true,
        acts: &[Drain, CALLS, Drain, ACCEPTS, Drain, SENDS, LOSES, Heal],
    },
];
