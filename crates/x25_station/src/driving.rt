//! The packet layer over the link: what a call of the layer has to put is put, and then the data packets that wait, in
//! rounds (profile): channels in rising order, one packet each, until a round gives none, while fewer than 8 wait. They
//! begin behind the channel whose packet was the last that 8 let through, so that each has its turn.
ghost use Rattle.std.specs.Prelude.{◌≡◌, ◌==◌, ◌⊎◌, ◌+◌, ◌<◌, ◌≤◌, [], length, true, false, Option, Some, IfOk, IfSome};
ghost use Rattle.std.specs.Prelude.{IsSome};
ghost use Rattle.x25_packet.specs.Packet.{PlainPacket};
ghost use Rattle.x25_circuit.specs.Request.{plain_request};
ghost use Rattle.x25_link.specs.code.FitsLink.{LinkState as State, FitsWhole, after_put_to, limit_of, up_of};
ghost use Rattle.x25_link.specs.code.FitsLink.{waiting_of};
ghost use Rattle.x25_link.specs.code.Frames.{places_left};
ghost use Rattle.x25_layer.specs.Layer.{LayerSettings};
ghost use Rattle.x25_layer.specs.Layer.{Layer as LayerState};
ghost use Rattle.x25_layer.specs.Calls.{Asks, Dials, Restarts, PullsAll, free_channel};
ghost use Rattle.x25_layer.specs.laws.Rounds.{Putting, begin, rounds, comes_up};
ghost use Rattle.x25_layer.specs.code.Answering.{spelled};
ghost use Rattle.x25_layer.specs.code.FitsLayer.{FitsLayer};
ghost use Rattle.x25_station.specs.code.OverLink.{after_all, seen_at, Drives};
ghost use Rattle.x25_station.specs.code.OverLink.{all_asked, seen_asked, DrivesAsked};
ghost use Rattle.x25_given.specs.Given.{given_with, may_give, plain_given};
ghost use Rattle.x25_given.specs.Writing.{write};
ghost use Rattle.x25_station.specs.Giving.{suits};
ghost use Rattle.x25_station.specs.Receiving.{CanPut, PutsBehind};

use x25_circuit::{Proposal, Request};
use x25_given::{Given, Writing};
use x25_layer::{Layer, LayerError, LinkState, calls_are_runs};
use x25_link::Link;

/// A data packet is pulled where fewer packets than these wait in the link.
const FEW: usize = 8;

/// The most data packets that the rounds of a call put: each is pulled where fewer than 8 packets wait, and of those
/// that don't wait at most 7 aren't acknowledged.
const MOST_PULLED: usize = 15;

/// What the layer is told of the link.
#[inline(always)]
pub(crate) fn state(link: &Link) -> LinkState
    ensures up { result.is_up ≡ up_of link.now }
    ensures full { result.is_full ≡ false → waiting_of link.now < 256 }
    ensures waits { result.is_full ≡ (waiting_of link.now == 256) }
{
    LinkState {
        is_up: link.is_up(),
        is_full: link.waiting() == 256,
    }
}

// Puts the data packets of all channels, in rounds that go on behind the turn, while fewer than 8 packets wait in the
// link.
#[inline(always)]
fn pull_all(layer: &mut Layer, link: &mut Link, turn: &mut u16)
    requires up { up_of link.old ≡ true }
    requires longest { 4099 ≤ limit_of link.old }
    requires places { 15 ≤ places_left link.old.frames }
    ensures layer { (c : LayerSettings) (s : Putting) (x : State) → FitsLayer c layer.old s.layer
        → FitsWhole link.old (after_all x s.put) → FitsLayer c layer.new (rounds (seen_at turn.old x) c s).layer }
    ensures link { (c : LayerSettings) (s : Putting) (x : State) → FitsLayer c layer.old s.layer
        → FitsWhole link.old (after_all x s.put)
        → FitsWhole link.new (after_all x (rounds (seen_at turn.old x) c s).put) }
    ensures turn { (c : LayerSettings) (s : Putting) (x : State) → FitsLayer c layer.old s.layer
        → FitsWhole link.old (after_all x s.put) → turn.new ≡ (rounds (seen_at turn.old x) c s).turn }
{
    calls_are_runs();
    let mut left = MOST_PULLED;
    let mut channel = *turn;
    while left > 0 && link.waiting() < FEW {
        match layer.pull(channel) {
            Some(next) => {
                link.put(layer.to_put()).unwrap();
                left -= 1;
                channel = next;
            }
            None => {
                if channel == 0 {
                    *turn = 0;
                    return;
                }
                channel = 0;
            }
        }
    }
    *turn = channel;
}

/// Puts what a call of the layer has to put, and pulls.
#[inline(always)]
pub(crate) fn drive(layer: &mut Layer, link: &mut Link, turn: &mut u16)
    requires up { up_of link.old ≡ true }
    requires free { (layer.old.sheet ≡ []) ⊎ (waiting_of link.old < 256) }
    requires places { 16 ≤ places_left link.old.frames }
    requires longest { 4099 ≤ limit_of link.old }
    requires short { length layer.old.sheet ≤ 260 }
    ensures layer { (c : LayerSettings) (l : LayerState) (packet : Option PlainPacket) (x : State)
        → FitsLayer c layer.old l → layer.old.sheet ≡ spelled packet → FitsWhole link.old x
        → FitsLayer c layer.new (rounds (seen_at turn.old x) c (begin l packet)).layer }
    ensures link { (c : LayerSettings) (l : LayerState) (packet : Option PlainPacket) (x : State)
        → FitsLayer c layer.old l → layer.old.sheet ≡ spelled packet → FitsWhole link.old x
        → FitsWhole link.new (after_all x (rounds (seen_at turn.old x) c (begin l packet)).put) }
    ensures turn { (c : LayerSettings) (l : LayerState) (packet : Option PlainPacket) (x : State)
        → FitsLayer c layer.old l → layer.old.sheet ≡ spelled packet → FitsWhole link.old x
        → turn.new ≡ (rounds (seen_at turn.old x) c (begin l packet)).turn }
{
    if !layer.to_put().is_empty() {
        link.put(layer.to_put()).unwrap();
    }
    pull_all(layer, link, turn);
}

// Puts what a call of the layer has to put, with what is given beside it, and pulls.
fn drive_with(
    layer: &mut Layer,
    link: &mut Link,
    turn: &mut u16,
    writing: &mut Writing,
    given: Option<&Given<'_>>,
)
    requires allowed { IfSome (given_with given) (λ g. may_give g ≡ true) }
    requires up { up_of link.old ≡ true }
    requires free { (layer.old.sheet ≡ []) ⊎ (waiting_of link.old < 256) }
    requires places { 16 ≤ places_left link.old.frames }
    requires longest { 4099 ≤ limit_of link.old }
    requires short { length layer.old.sheet ≤ 260 }
    ensures layer { (c : LayerSettings) (l : LayerState) (packet : Option PlainPacket) (x : State)
        → FitsLayer c layer.old l → layer.old.sheet ≡ spelled packet → FitsWhole link.old x
        → IfSome (given_with given.entry) (λ g. IsSome packet)
        → FitsLayer c layer.new (rounds (seen_asked (given_with given.entry) turn.old x) c (begin l packet)).layer }
    ensures link { (c : LayerSettings) (l : LayerState) (packet : Option PlainPacket) (x : State)
        → FitsLayer c layer.old l → layer.old.sheet ≡ spelled packet → FitsWhole link.old x
        → IfSome (given_with given.entry) (λ g. IsSome packet)
        → FitsWhole link.new (all_asked (given_with given.entry) x
        (rounds (seen_asked (given_with given.entry) turn.old x) c (begin l packet)).put) }
    ensures turn { (c : LayerSettings) (l : LayerState) (packet : Option PlainPacket) (x : State)
        → FitsLayer c layer.old l → layer.old.sheet ≡ spelled packet → FitsWhole link.old x
        → IfSome (given_with given.entry) (λ g. IsSome packet)
        → turn.new ≡ (rounds (seen_asked (given_with given.entry) turn.old x) c (begin l packet)).turn }
{
    let Some(given) = given else {
        drive(layer, link, turn);
        return;
    };
    if layer.to_put().is_empty() {
        return;
    }
    put_with(link, layer.to_put(), writing, given);
    pull_all(layer, link, turn);
}

// Puts the octets of a packet with what is given.
fn put_with(link: &mut Link, octets: &[u8], writing: &mut Writing, given: &Given<'_>)
    requires allowed { may_give (plain_given given.now) ≡ true }
    requires up { up_of link.old ≡ true }
    requires free { waiting_of link.old < 256 }
    requires places { 0 < places_left link.old.frames }
    requires longest { 4099 ≤ limit_of link.old }
    requires short { length octets.now ≤ 260 }
    ensures link { (x : State) → FitsWhole link.old x
        → FitsWhole link.new (after_put_to x (write (plain_given given.now) octets.now)) }
    ensures places { places_left link.old.frames ≤ places_left link.new.frames + 1 }
    ensures up { up_of link.new ≡ up_of link.old }
    ensures longest { limit_of link.new ≡ limit_of link.old }
{
    match writing.written(given, octets) {
        Some(written) => link.put(written).unwrap(),
        None => link.put(octets).unwrap(),
    }
}

/// LinkUp: RESTART is put alone.
pub(crate) fn come_up_alone(layer: &mut Layer, link: &mut Link, turn: &mut u16)
    requires put { CanPut link.old }
    ensures { PutsBehind layer.old link.old turn.old layer.new link.new turn.new (λ view c l. (comes_up view c).step) }
{
    calls_are_runs();
    layer.up();
    *turn = 0;
    link.put(layer.to_put()).unwrap();
}

/// What a user asks of the circuit of a channel, with what is given beside its packet.
#[inline(always)]
pub(crate) fn ask(
    layer: &mut Layer,
    link: &mut Link,
    turn: &mut u16,
    writing: &mut Writing,
    channel: u16,
    request: Request<'_>,
    given: Option<&Given<'_>>,
) -> Result<(), LayerError>
    requires allowed { IfSome (given_with given) (λ g. may_give g ≡ true) }
    requires suits { IfSome (given_with given) (λ g. suits g (Asks channel (plain_request request)) ≡ true) }
    requires longest { 4099 ≤ limit_of link.old }
    requires places { 16 ≤ places_left link.old.frames }
    ensures { DrivesAsked (given_with given.entry) layer.old link.old turn.old layer.new link.new turn.new result
        (Asks channel (plain_request request.entry)) }
{
    layer.ask(state(link), channel, request)?;
    drive_with(layer, link, turn, writing, given);
    Ok(())
}

/// A restart of all channels.
pub(crate) fn restart(
    layer: &mut Layer,
    link: &mut Link,
    turn: &mut u16,
    cause: u8,
    diagnostic: u8,
) -> Result<(), LayerError>
    requires longest { 4099 ≤ limit_of link.old }
    requires places { 16 ≤ places_left link.old.frames }
    ensures { Drives layer.old link.old turn.old layer.new link.new turn.new result (Restarts cause diagnostic) }
{
    layer.restart(state(link), cause, diagnostic)?;
    drive(layer, link, turn);
    Ok(())
}

/// What waits is pulled, and nothing else happens.
pub(crate) fn pull(layer: &mut Layer, link: &mut Link, turn: &mut u16) -> Result<(), LayerError>
    requires longest { 4099 ≤ limit_of link.old }
    requires places { 15 ≤ places_left link.old.frames }
    ensures { Drives layer.old link.old turn.old layer.new link.new turn.new result PullsAll }
{
    if let Some(error) = layer.unready(state(link)) {
        return Err(error);
    }
    pull_all(layer, link, turn);
    Ok(())
}

/// A new call, with what is given beside its packet.
pub(crate) fn call(
    layer: &mut Layer,
    link: &mut Link,
    turn: &mut u16,
    writing: &mut Writing,
    called: &str,
    calling: &str,
    user: &[u8],
    proposal: &Proposal,
    given: Option<&Given<'_>>,
) -> Result<u16, LayerError>
    requires allowed { IfSome (given_with given) (λ g. may_give g ≡ true) }
    requires longest { 4099 ≤ limit_of link.old }
    requires places { 16 ≤ places_left link.old.frames }
    ensures does { DrivesAsked (given_with given.entry) layer.old link.old turn.old layer.new link.new turn.new result
        (Dials called.now calling.now user.now proposal.now) }
    ensures channel { (c : LayerSettings) (l : LayerState) → FitsLayer c layer.old l
        → IfOk result (λ channel. free_channel c.circuit.role l.circuits c.channels ≡ Some channel) }
{
    let channel = layer.call(state(link), called, calling, user, proposal)?;
    drive_with(layer, link, turn, writing, given);
    Ok(channel)
}
