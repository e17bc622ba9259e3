//! Which refusal comes, by the state of the link, of the layer and of the channel, and that it is told beforehand.

use crate::calls::{ask, call, layer, layer_with, restart};
use std::alloc::Global;
use x25_circuit::{Marks, Request};
use x25_layer::{Layer, LayerError, LinkState, Ranges, Role};

/// What is asked of a channel, by its index up to 7.
pub fn request(index: usize) -> Request<'static> {
    match index {
        0 => Request::Accept { answer: None },
        1 => Request::Clear {
            cause: 0,
            diagnostic: 0,
        },
        2 => Request::Send {
            marks: Marks { q: false, d: false },
            user: &[],
        },
        3 => Request::Interrupt { user: &[7] },
        4 => Request::Reset {
            cause: 0,
            diagnostic: 0,
        },
        5 => Request::Ready,
        6 => Request::NotReady,
        _ => Request::Send {
            marks: Marks { q: false, d: true },
            user: &[],
        },
    }
}

/// A link that is up, and takes packets.
pub static UP: LinkState = LinkState {
    is_up: true,
    is_full: false,
};

static FULL: LinkState = LinkState {
    is_up: true,
    is_full: true,
};

static DOWN: LinkState = LinkState {
    is_up: false,
    is_full: false,
};

/// What happens, and the number of its refusal or 0.
#[derive(Clone, Copy)]
enum Act {
    /// With a cause.
    Restart(u8, u8),
    /// Each request is asked on a channel, in order.
    Ask(u16, [u8; 7]),
    /// A call with these addresses, called and calling, and octets of user data.
    Call(&'static str, &'static str, &'static [u8], u8),
    /// Whether anything at all may be asked.
    Unready(u8),
}

fn number(error: Option<LayerError>) -> u8 {
    match error {
        Some(error) => error.number(),
        None => 0,
    }
}

// The refusal of a request that is told, and the one that comes.
fn refusals(layer: &mut Layer, link: LinkState, channel: u16, index: usize) -> (u8, u8) {
    let told = layer.refusal(link, channel, &request(index));
    (
        number(told),
        number(ask(layer, link, channel, request(index)).err()),
    )
}

fn refuses_on(layer: &mut Layer, link: LinkState, channel: u16, numbers: &[u8; 7]) -> bool {
    for (index, wanted) in numbers.iter().enumerate() {
        if refusals(layer, link, channel, index) != (*wanted, *wanted) {
            return false;
        }
    }
    true
}

// The same of a call.
fn refusals_of_call(
    layer: &mut Layer,
    link: LinkState,
    addresses: (&str, &str),
    user: &[u8],
) -> (u8, u8) {
    let (told, answer) = call(layer, link, addresses, user);
    (number(told), number(answer.err()))
}

// Whether an act is refused as it says.
fn happens(layer: &mut Layer, link: LinkState, act: &Act) -> bool {
    match act {
        Act::Restart(cause, wanted) => number(restart(layer, link, *cause).err()) == *wanted,
        Act::Ask(channel, numbers) => refuses_on(layer, link, *channel, numbers),
        Act::Call(called, calling, user, wanted) => {
            refusals_of_call(layer, link, (called, calling), user) == (*wanted, *wanted)
        }
        Act::Unready(wanted) => number(layer.unready(link)) == *wanted,
    }
}

// The first act that is refused otherwise.
fn odd_act(layer: &mut Layer, link: LinkState, acts: &[Act]) -> Option<usize> {
    for (place, act) in acts.iter().enumerate() {
        if !happens(layer, link, act) {
            return Some(place);
        }
    }
    None
}

// At a DTE with so many channels these acts happen while the link is up, and then these where it is in some state.
fn odd_act_of(
    alloc: Global,
    channels: u16,
    before: &[Act],
    link: LinkState,
    acts: &[Act],
) -> Option<Option<usize>> {
    let mut layer = layer(alloc, Role::Dte, channels).ok()?;
    if odd_act(&mut layer, UP, before).is_some() {
        return None;
    }
    Some(odd_act(&mut layer, link, acts))
}

static IN_A_RESTART: [Act; 2] = [Act::Unready(0), Act::Restart(0, 0)];

static RESTARTING: [Act; 4] = [
    Act::Unready(40),
    Act::Ask(4, [40; 7]),
    Act::Call("1", "2", &[], 40),
    Act::Restart(7, 40),
];

#[test]
fn a_restart_refuses_all(rt: HostRuntime) {
    assert_eq!(rt;
        odd_act_of(rt.alloc(), 3, &IN_A_RESTART, FULL, &RESTARTING),
        Some(None)
    );
}

static LINK_DOWN: [Act; 4] = [
    Act::Unready(9),
    Act::Ask(4, [9; 7]),
    Act::Call("1", "2", &[], 9),
    Act::Restart(7, 9),
];

#[test]
fn a_link_that_is_down_refuses_all(rt: HostRuntime) {
    assert_eq!(rt;
        odd_act_of(rt.alloc(), 3, &IN_A_RESTART, DOWN, &LINK_DOWN),
        Some(None)
    );
}

static ONE_CALL: [Act; 1] = [Act::Call("", "", &[], 0)];

// The only channel has a call.
static NO_SUCH_CHANNEL: [Act; 5] = [
    Act::Ask(0, [42; 7]),
    Act::Ask(2, [42; 7]),
    Act::Ask(257, [42; 7]),
    Act::Ask(4097, [42; 7]),
    Act::Call("1", "2", &[], 41),
];

#[test]
fn a_channel_that_is_not_there_goes_before_a_full_queue(rt: HostRuntime) {
    assert_eq!(rt;
        odd_act_of(rt.alloc(), 1, &ONE_CALL, FULL, &NO_SUCH_CHANNEL),
        Some(None)
    );
}

// A message puts no packet at once.
static FULL_QUEUE: [Act; 5] = [
    Act::Unready(0),
    Act::Ask(1, [10, 10, 30, 10, 10, 10, 10]),
    Act::Call("1", "2", &[], 10),
    Act::Call("x", "", &[], 10),
    Act::Restart(7, 10),
];

#[test]
fn a_full_queue_goes_before_the_circuit(rt: HostRuntime) {
    assert_eq!(rt;
        odd_act_of(rt.alloc(), 3, &[], FULL, &FULL_QUEUE),
        Some(None)
    );
}

// A DTE gives 0 or a cause with bit 8, but not the one by which it tells of an error of procedure.
static CAUSES_OF_A_DTE: [Act; 3] = [
    Act::Restart(7, 34),
    Act::Restart(128, 34),
    Act::Restart(129, 0),
];

#[test]
fn a_restart_has_a_cause_of_its_end(rt: HostRuntime) {
    assert_eq!(rt;
        odd_act_of(rt.alloc(), 3, &[], UP, &CAUSES_OF_A_DTE),
        Some(None)
    );
}

static NOT_ALLOWED: [Act; 4] = [
    Act::Ask(1, [30; 7]),
    Act::Call("x", "", &[], 34),
    Act::Call("", "1234567890123456", &[], 34),
    Act::Call("", "", &[0; 17], 34),
];

#[test]
fn the_circuit_refuses_what_its_state_does_not_allow(rt: HostRuntime) {
    assert_eq!(rt;
        odd_act_of(rt.alloc(), 3, &[], UP, &NOT_ALLOWED),
        Some(None)
    );
}

fn refusal(alloc: Global, count: u16, incoming: u16, outgoing: u16) -> Option<LayerError> {
    let channels = Ranges {
        count,
        incoming,
        outgoing,
        message: 65_535,
    };
    layer_with(alloc, Role::Dte, channels).err()
}

#[test]
fn a_layer_has_1_to_4095_channels_and_no_more_are_one_way(rt: HostRuntime) {
    for (count, incoming, outgoing) in [(0, 0, 0), (4096, 0, 0), (3, 4, 0), (3, 2, 2)] {
        assert_eq!(rt;
            refusal(rt.alloc(), count, incoming, outgoing),
            Some(LayerError::BadConfig),
            "{count} {incoming} {outgoing}"
        );
    }
    assert_eq!(rt; refusal(rt.alloc(), 3, 2, 1), None);
}
