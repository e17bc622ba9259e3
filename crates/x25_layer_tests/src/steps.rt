//! What a layer leaves to be put, and what it says of itself then; `tests/golden` has the packets of whole calls.

use crate::calls::{ask, call, hear, layer, layer_with, message, pull, restart, up};
use crate::refusals::{UP, request};
use std::alloc::Global;
use x25_circuit::{Marks, Notice, Octets, Request};
use x25_layer::{Layer, LayerError, Params, Ranges, Report, Role, Stretch};

/// What happens to a layer whose link is up.
#[derive(Clone, Copy)]
enum Act {
    Up,
    Down,
    Restart,
    /// The next data packet is pulled, of the channels behind one.
    Pull(u16),
    /// The request of an index is asked on a channel.
    Ask(u16, usize),
    /// A message of so many octets is sent on a channel.
    Send(u16, usize),
    /// Octets are handed up.
    Take(&'static [u8]),
    /// The same, where they are read in all forms.
    TakeWide(&'static [u8]),
}

/// What an act answers: the number of a refusal or the diagnostic of a fault, else 0; and how many octets the message
/// has that came, or which channel's packet is pulled.
type Answer = (u8, Option<usize>);

/// The second octet of the packet that is to be put, the third, and how many it has.
type Put = Option<(u8, u8, usize)>;

/// What a layer says: the name of channel 1 and whether it is open, how many messages wait, and how many more channel 1
/// takes.
type Says = (Option<Stretch>, bool, usize, usize);

type Row = (Act, Answer, Put, Says);

const OK: Answer = (0, None);

const NO_MEMORY: Answer = (70, None);

const FIRST: Option<Stretch> = Some(Stretch {
    restarts: 0,
    clears: 0,
    resets: 0,
});

const RESTARTED: Option<Stretch> = Some(Stretch {
    restarts: 1,
    clears: 0,
    resets: 0,
});

const CLOSED: Says = (FIRST, false, 0, 0);

const CLOSED_BEHIND_A_RESTART: Says = (RESTARTED, false, 0, 0);

const OPEN: Says = (FIRST, true, 0, 8);

const ONE_WAITS: Says = (FIRST, true, 1, 7);

const TWO_WAIT: Says = (FIRST, true, 2, 7);

// `down` leaves the counts, and `up` sets them to 0.
static COUNTS_STAND: [Row; 7] = [
    (Act::Up, OK, Some((0, 0xFB, 5)), CLOSED),
    (
        Act::Take(&[0x10, 0x00, 0xFB, 0x07, 0x00]),
        OK,
        None,
        CLOSED_BEHIND_A_RESTART,
    ),
    (Act::Down, OK, None, CLOSED_BEHIND_A_RESTART),
    (Act::Up, OK, Some((0, 0xFB, 5)), CLOSED),
    (Act::Restart, (40, None), None, CLOSED),
    (Act::Down, OK, None, CLOSED),
    (Act::Restart, OK, Some((0, 0xFB, 5)), CLOSED),
];

// Calls come on two channels, and are accepted.
static TWO_OPEN: [Row; 4] = [
    (Act::Take(&[0x10, 0x02, 0x0B, 0x00, 0x00]), OK, None, CLOSED),
    (Act::Take(&[0x10, 0x01, 0x0B, 0x00, 0x00]), OK, None, CLOSED),
    (Act::Ask(2, 0), OK, Some((2, 0x0F, 3)), CLOSED),
    (Act::Ask(1, 0), OK, Some((1, 0x0F, 3)), OPEN),
];

// Two packets of each channel fill its window, and RR opens it. What comes then is answered beside what waits, and a
// message begins to come.
static PULLED: [Row; 15] = [
    (Act::Send(1, 300), OK, None, ONE_WAITS),
    (Act::Send(2, 300), OK, None, TWO_WAIT),
    (Act::Pull(0), (0, Some(1)), Some((1, 0x10, 131)), TWO_WAIT),
    (Act::Pull(1), (0, Some(2)), Some((2, 0x10, 131)), TWO_WAIT),
    (Act::Pull(2), OK, None, TWO_WAIT),
    (Act::Pull(0), (0, Some(1)), Some((1, 0x12, 131)), TWO_WAIT),
    (Act::Pull(0), (0, Some(2)), Some((2, 0x12, 131)), TWO_WAIT),
    (Act::Pull(0), OK, None, TWO_WAIT),
    (Act::Take(&[0x10, 0x02, 0x41]), OK, None, TWO_WAIT),
    (Act::Pull(0), (0, Some(2)), Some((2, 0x04, 47)), ONE_WAITS),
    (
        Act::Take(&[0x10, 0x01, 0x23, 0xAA]),
        (0, Some(1)),
        Some((1, 0x27, 3)),
        ONE_WAITS,
    ),
    (
        Act::Take(&[0x10, 0x01, 0x40, 0x00]),
        (0, Some(1)),
        Some((1, 0x21, 3)),
        ONE_WAITS,
    ),
    (Act::Pull(0), (0, Some(1)), Some((1, 0x24, 47)), OPEN),
    (
        Act::Take(&[0x10, 0x01, 0x52, 0xAA, 0xBB]),
        OK,
        Some((1, 0x41, 3)),
        OPEN,
    ),
    (Act::Take(&[]), OK, None, OPEN),
];

// A restart leaves nothing to be pulled.
static RESTARTED_BESIDE: [Row; 3] = [
    (Act::Send(1, 1), OK, None, ONE_WAITS),
    (Act::Restart, OK, Some((0, 0xFB, 5)), CLOSED),
    (Act::Pull(0), OK, None, CLOSED),
];

// Messages wait on the first and on the last of 4,095 channels.
static FAR_APART: [Row; 11] = [
    (Act::Take(&[0x10, 0x01, 0x0B, 0x00, 0x00]), OK, None, CLOSED),
    (Act::Take(&[0x1F, 0xFF, 0x0B, 0x00, 0x00]), OK, None, CLOSED),
    (Act::Ask(4095, 0), OK, Some((0xFF, 0x0F, 3)), CLOSED),
    (Act::Ask(1, 0), OK, Some((1, 0x0F, 3)), OPEN),
    (Act::Send(4095, 300), OK, None, (FIRST, true, 1, 8)),
    (Act::Send(1, 300), OK, None, TWO_WAIT),
    (Act::Pull(0), (0, Some(1)), Some((1, 0x10, 131)), TWO_WAIT),
    (
        Act::Pull(1),
        (0, Some(4095)),
        Some((0xFF, 0x10, 131)),
        TWO_WAIT,
    ),
    (Act::Pull(4095), OK, None, TWO_WAIT),
    (Act::Pull(0), (0, Some(1)), Some((1, 0x12, 131)), TWO_WAIT),
    (Act::Down, OK, None, CLOSED),
];

// DATA comes on a channel that is free, too, and an RR with the qualifier.
static TRANSFERS: [Row; 9] = [
    (Act::Take(&[0x10, 0x01, 0x0B, 0x00, 0x00]), OK, None, CLOSED),
    (Act::Ask(1, 0), OK, Some((1, 0x0F, 3)), OPEN),
    (
        Act::Take(&[0x10, 0x01, 0x10, 0xAA]),
        OK,
        Some((1, 0x21, 3)),
        (FIRST, true, 0, 8),
    ),
    (
        Act::Take(&[0x10, 0x02, 0x02, 0xBB]),
        (20, None),
        Some((2, 0x13, 5)),
        (FIRST, true, 0, 8),
    ),
    (
        Act::Take(&[0x10, 0x01, 0x02, 0xBB]),
        (0, Some(2)),
        Some((1, 0x41, 3)),
        OPEN,
    ),
    (Act::Send(1, 1), OK, None, ONE_WAITS),
    (Act::Pull(0), (0, Some(1)), Some((1, 0x40, 4)), OPEN),
    (Act::Take(&[0x10, 0x01, 0x21]), OK, None, OPEN),
    (
        Act::Take(&[0x90, 0x01, 0x01]),
        (40, None),
        Some((1, 0x1B, 5)),
        CLOSED,
    ),
];

// A RESTART without a diagnostic, and a CALL with a facility that a layer doesn't know and D.
static IN_ALL_FORMS: [Row; 6] = [
    (Act::Take(&[0x10, 0x00, 0xFB, 0x07]), OK, None, CLOSED),
    (
        Act::TakeWide(&[0x10, 0x00, 0xFB, 0x07]),
        OK,
        Some((0, 0xFF, 3)),
        CLOSED_BEHIND_A_RESTART,
    ),
    (
        Act::TakeWide(&[
            0x50, 0x01, 0x0B, 0x11, 0x12, 0x05, 0x01, 0x01, 0x43, 0x02, 0x02, 0x41,
        ]),
        OK,
        None,
        CLOSED_BEHIND_A_RESTART,
    ),
    (
        Act::Ask(1, 0),
        OK,
        Some((1, 0x0F, 3)),
        (RESTARTED, true, 0, 8),
    ),
    (
        Act::TakeWide(&[0x50, 0x01, 0x00, 0x68]),
        (0, Some(1)),
        Some((1, 0x21, 3)),
        (RESTARTED, true, 0, 8),
    ),
    (
        Act::Take(&[0x10, 0x01, 0x1B, 0x05]),
        (38, None),
        Some((1, 0x1B, 5)),
        CLOSED_BEHIND_A_RESTART,
    ),
];

// The second octet of a packet, its third, and how many it has; of none nothing.
fn head(packet: &[u8]) -> Put {
    match packet {
        [_, second, third, ..] => Some((*second, *third, packet.len())),
        _ => None,
    }
}

// A refused act and one that gives nothing leave nothing to be put.
fn answered(layer: &Layer, answer: Result<(), LayerError>) -> (Answer, Put) {
    match answer {
        Ok(()) => (OK, head(layer.to_put())),
        Err(error) => ((error.number(), None), None),
    }
}

fn pulled(layer: &Layer, channel: Option<u16>) -> (Answer, Put) {
    match channel {
        Some(channel) => ((0, Some(usize::from(channel))), head(layer.to_put())),
        None => (OK, None),
    }
}

fn told(report: &Report, message: &Octets) -> Answer {
    match report {
        Report::Channel {
            notice: Some(notice),
            ..
        } => match notice {
            Notice::Delivered { .. } => (0, Some(message.as_slice().len())),
            Notice::Interrupted { user } => (0, Some(user.len())),
            Notice::Fault { diagnostic } => (*diagnostic, None),
            _ => OK,
        },
        Report::Fault { diagnostic } => (*diagnostic, None),
        _ => OK,
    }
}

fn sends(alloc: Global, layer: &mut Layer, channel: u16, count: usize) -> (Answer, Put) {
    let Ok(user) = vec![in alloc; 0u8; count] else {
        return (NO_MEMORY, None);
    };
    let request = Request::Send {
        marks: Marks { q: false, d: false },
        user: user.as_slice(),
    };
    let answer = ask(layer, UP, channel, request);
    answered(layer, answer)
}

// Whether a message is told.
fn is_message(report: &Report) -> bool {
    matches!(
        report,
        Report::Channel {
            notice: Some(Notice::Delivered { .. }),
            ..
        }
    )
}

// The octets in the place of the message, before something comes.
const BEFORE: &[u8] = b"before";

// What is told, where the octets in the place of the message are as they were unless one is told.
fn hears(alloc: Global, layer: &mut Layer, octets: &[u8], is_wide: bool) -> (Answer, Put) {
    let Some(mut message) = message(alloc) else {
        return (NO_MEMORY, None);
    };
    message.set(BEFORE, &[]);
    match hear(layer, is_wide, octets, &mut message) {
        Some(report) if is_message(&report) || message.as_slice() == BEFORE => {
            (told(&report, &message), head(layer.to_put()))
        }
        _ => (NO_MEMORY, None),
    }
}

fn asks(layer: &mut Layer, channel: u16, index: usize) -> (Answer, Put) {
    let answer = ask(layer, UP, channel, request(index));
    answered(layer, answer)
}

fn restarts(layer: &mut Layer) -> (Answer, Put) {
    let answer = restart(layer, UP, 0);
    answered(layer, answer)
}

fn pulls(layer: &mut Layer, behind: u16) -> (Answer, Put) {
    let channel = pull(layer, behind);
    pulled(layer, channel)
}

fn goes_up(layer: &mut Layer) -> (Answer, Put) {
    up(layer);
    (OK, head(layer.to_put()))
}

fn goes_down(layer: &mut Layer) -> (Answer, Put) {
    layer.down();
    (OK, None)
}

fn happens(alloc: Global, layer: &mut Layer, act: Act) -> (Answer, Put) {
    match act {
        Act::Up => goes_up(layer),
        Act::Down => goes_down(layer),
        Act::Restart => restarts(layer),
        Act::Pull(behind) => pulls(layer, behind),
        Act::Ask(channel, index) => asks(layer, channel, index),
        Act::Send(channel, count) => sends(alloc, layer, channel, count),
        Act::Take(octets) => hears(alloc, layer, octets, false),
        Act::TakeWide(octets) => hears(alloc, layer, octets, true),
    }
}

fn says(layer: &Layer) -> Says {
    (
        layer.name(1),
        layer.is_open(1),
        layer.waits(),
        layer.room(1),
    )
}

// The first row in which something else happens.
fn odd_row(alloc: Global, layer: &mut Layer, rows: &[Row]) -> Option<usize> {
    for (row, &(act, answer, put, wanted)) in rows.iter().enumerate() {
        let found = happens(alloc, layer, act);
        if (found, says(layer)) != ((answer, put), wanted) {
            return Some(row);
        }
    }
    None
}

// The first table of these, and its row.
fn odd_table(alloc: Global, layer: &mut Layer, tables: &[&[Row]]) -> Option<(usize, usize)> {
    for (table, rows) in tables.iter().enumerate() {
        if let Some(row) = odd_row(alloc, layer, rows) {
            return Some((table, row));
        }
    }
    None
}

// At a DTE with so many channels these tables happen in order.
fn odd_row_of(alloc: Global, channels: u16, tables: &[&[Row]]) -> Option<Option<(usize, usize)>> {
    let mut layer = layer(alloc, Role::Dte, channels).ok()?;
    Some(odd_table(alloc, &mut layer, tables))
}

#[test]
fn link_down_leaves_the_counts(rt: HostRuntime) {
    assert_eq!(rt; odd_row_of(rt.alloc(), 2, &[&COUNTS_STAND]), Some(None));
}

#[test]
fn pulls_go_from_a_channel_to_the_next(rt: HostRuntime) {
    assert_eq!(rt;
        odd_row_of(rt.alloc(), 2, &[&TWO_OPEN, &PULLED, &RESTARTED_BESIDE]),
        Some(None)
    );
    assert_eq!(rt; odd_row_of(rt.alloc(), 4095, &[&FAR_APART]), Some(None));
}

#[test]
fn packets_of_data_transfer_are_answered(rt: HostRuntime) {
    assert_eq!(rt; odd_row_of(rt.alloc(), 2, &[&TRANSFERS]), Some(None));
}

#[test]
fn packets_are_read_in_all_forms(rt: HostRuntime) {
    assert_eq!(rt; odd_row_of(rt.alloc(), 2, &[&IN_ALL_FORMS]), Some(None));
}

fn is_new(layer: &Layer) -> bool {
    let names = (
        layer.name(1),
        layer.name(4095),
        layer.name(0),
        layer.name(4096),
    );
    let said = (layer.params(4095), layer.params(4096), layer.full());
    names == (FIRST, FIRST, None, None)
        && said == (Some(Params::default()), None, false)
        && (layer.channels(), layer.busy_after(0)) == (4095, None)
}

fn is_made_new(alloc: Global) -> Option<bool> {
    let layer = layer(alloc, Role::Dte, 4095).ok()?;
    Some(is_new(&layer))
}

#[test]
fn a_layer_has_the_channels_it_was_made_with(rt: HostRuntime) {
    assert_eq!(rt; is_made_new(rt.alloc()), Some(true));
}

// The channels that two calls take, and the first on which an answer is awaited then, of all and of those after 4,094.
type Called = (
    Result<u16, LayerError>,
    Result<u16, LayerError>,
    Option<u16>,
    Option<u16>,
);

fn calls_twice(layer: &mut Layer) -> Called {
    let (_, first) = call(layer, UP, ("1", "2"), &[]);
    let (_, second) = call(layer, UP, ("1", "2"), &[]);
    (first, second, layer.busy_after(0), layer.busy_after(4094))
}

// At an end with 4,095 channels.
fn called(alloc: Global, role: Role) -> Option<Called> {
    let mut layer = layer(alloc, role, 4095).ok()?;
    Some(calls_twice(&mut layer))
}

#[test]
fn a_call_takes_the_channel_of_its_end(rt: HostRuntime) {
    assert_eq!(rt;
        called(rt.alloc(), Role::Dte),
        Some((Ok(4095), Ok(4094), Some(4094), Some(4095)))
    );
    assert_eq!(rt;
        called(rt.alloc(), Role::Dce),
        Some((Ok(1), Ok(2), Some(1), None))
    );
}

// The first channel on which an answer is awaited, on how many it is, the first one behind channel 62, and those from
// the last channel on.
type UnderWay = (Option<u16>, usize, Option<u16>, Option<u16>, Option<u16>);

// At an end with so many channels, which called 66 times.
fn under_way(alloc: Global, role: Role, channels: u16) -> Option<UnderWay> {
    let mut layer = layer(alloc, role, channels).ok()?;
    for _ in 0..66 {
        let _ = call(&mut layer, UP, ("1", "2"), &[]);
    }
    Some((
        layer.busy_after(0),
        layer.awaited(),
        layer.busy_after(62),
        layer.busy_after(channels.saturating_sub(1)),
        layer.busy_after(channels),
    ))
}

#[test]
fn channels_under_way_are_found(rt: HostRuntime) {
    assert_eq!(rt;
        under_way(rt.alloc(), Role::Dte, 1),
        Some((Some(1), 1, None, Some(1), None))
    );
    assert_eq!(rt;
        under_way(rt.alloc(), Role::Dte, 63),
        Some((Some(1), 63, Some(63), Some(63), None))
    );
    assert_eq!(rt;
        under_way(rt.alloc(), Role::Dte, 64),
        Some((Some(1), 64, Some(63), Some(64), None))
    );
    assert_eq!(rt;
        under_way(rt.alloc(), Role::Dte, 65),
        Some((Some(1), 65, Some(63), Some(65), None))
    );
    assert_eq!(rt;
        under_way(rt.alloc(), Role::Dte, 4095),
        Some((Some(4030), 66, Some(4030), Some(4095), None))
    );
    assert_eq!(rt;
        under_way(rt.alloc(), Role::Dce, 4095),
        Some((Some(1), 66, Some(63), None, None))
    );
}

// The answers to four calls.
type FourCalls = [Result<u16, LayerError>; 4];

// At an end with four channels, 1 and 2 one-way incoming and 4 one-way outgoing.
fn called_in_ranges(alloc: Global, role: Role) -> Option<FourCalls> {
    let channels = Ranges {
        count: 4,
        incoming: 2,
        outgoing: 1,
        message: 65_535,
    };
    let mut layer = layer_with(alloc, role, channels).ok()?;
    let (_, first) = call(&mut layer, UP, ("1", "2"), &[]);
    let (_, second) = call(&mut layer, UP, ("1", "2"), &[]);
    let (_, third) = call(&mut layer, UP, ("1", "2"), &[]);
    let (_, fourth) = call(&mut layer, UP, ("1", "2"), &[]);
    Some([first, second, third, fourth])
}

#[test]
fn a_call_takes_no_channel_that_is_kept_for_the_other_end(rt: HostRuntime) {
    let none = Err(LayerError::NoFreeChannel);
    assert_eq!(rt;
        called_in_ranges(rt.alloc(), Role::Dte),
        Some([Ok(4), Ok(3), none, none])
    );
    assert_eq!(rt;
        called_in_ranges(rt.alloc(), Role::Dce),
        Some([Ok(1), Ok(2), Ok(3), none])
    );
}

// How many messages are unconfirmed on channel 1 after one asks for it and after its acknowledgement, and on channel 3,
// which isn't configured.
fn unconfirmed(alloc: Global) -> Option<(usize, usize, usize)> {
    let mut layer = layer(alloc, Role::Dte, 2).ok()?;
    if odd_row(alloc, &mut layer, &TWO_OPEN).is_some() {
        return None;
    }
    ask(&mut layer, UP, 1, request(7)).ok()?;
    let asked = layer.unconfirmed(1);
    hear(&mut layer, false, &[0x10, 0x01, 0x21], &mut message(alloc)?)?;
    Some((asked, layer.unconfirmed(1), layer.unconfirmed(3)))
}

#[test]
fn a_message_is_unconfirmed_until_it_is_acknowledged(rt: HostRuntime) {
    assert_eq!(rt; unconfirmed(rt.alloc()), Some((1, 0, 0)));
}

// P(S) of the first data packet that isn't acknowledged on channel 1, as one is out and after its acknowledgement, and
// on channel 3, which isn't configured.
fn unacknowledged(alloc: Global) -> Option<(Option<u8>, Option<u8>, Option<u8>)> {
    let mut layer = layer(alloc, Role::Dte, 2).ok()?;
    if odd_row(alloc, &mut layer, &TWO_OPEN).is_some() {
        return None;
    }
    ask(&mut layer, UP, 1, request(7)).ok()?;
    pull(&mut layer, 0)?;
    let out = layer.unacknowledged(1);
    hear(&mut layer, false, &[0x10, 0x01, 0x21], &mut message(alloc)?)?;
    Some((out, layer.unacknowledged(1), layer.unacknowledged(3)))
}

#[test]
fn a_data_packet_is_out_until_it_is_acknowledged(rt: HostRuntime) {
    assert_eq!(rt; unacknowledged(rt.alloc()), Some((Some(0), None, None)));
}
