//! The states in which an end may be, in a fixed room: each with the place on the way up to which it has come.
ghost use Rattle.std.specs.Prelude.{◌≡◌, ◌≤◌, None, Some, [], drop, length, take, true};
ghost use Rattle.x25_possible.specs.code.Steps as definition;
ghost use Rattle.x25_possible.specs.declared.phase.Phase.TheVariants.{Idle};

use crate::channel::{at_once, found, goes_on, is_bound, is_large, is_polite, sends, takes};
use crate::packet::Packet;
use crate::phase::Phase;
use arrayvec::ArrayVec;
use x25_bits::Role;

/// A state, and how much of what is on the way has come.
#[derive(Clone, Copy, Default)]
pub struct Spot {
    pub phase: Phase,
    pub at: usize,
}

pub type Spots = ArrayVec<Spot, 16>;

/// Whether two states are surely one.
fn is_same(one: Phase, two: Phase) -> bool
    ensures { result ≡ definition.is_same one two }
{
    match (one, two) {
        (Phase::Idle, Phase::Idle) => true,
        (Phase::Clears, Phase::Clears) => true,
        (Phase::WasCleared, Phase::WasCleared) => true,
        (Phase::Restarts, Phase::Restarts) => true,
        (Phase::WasRestarted, Phase::WasRestarted) => true,
        (Phase::Calls(one), Phase::Calls(two)) => one == two,
        (Phase::WasCalled(one), Phase::WasCalled(two)) => one == two,
        (Phase::Resets(one), Phase::Resets(two)) => one == two,
        (Phase::WasReset(one), Phase::WasReset(two)) => one == two,
        _ => false,
    }
}

#[inline(always)]
fn is_there(spots: &[Spot], spot: Spot) -> bool
    ensures { result ≡ definition.is_there spot spots.now }
{
    for other in spots {
        if other.at == spot.at && is_same(other.phase, spot.phase) {
            return true;
        }
    }
    false
}

/// Adds one that isn't there. False: no room.
#[inline(always)]
fn keep(out: &mut Spots, spot: Spot) -> bool
    ensures { definition.made result out.new.items ≡ definition.kept spot out.old.items }
{
    if is_there(out.as_slice(), spot) {
        return true;
    }
    if out.is_full() {
        return false;
    }
    out.push(spot);
    true
}

/// Adds all to which it comes from there on. False: no room.
#[inline(always)]
fn settle(role: Role, phase: Phase, at: usize, way: &[Packet], out: &mut Spots) -> bool
    ensures { definition.made result out.new.items ≡ definition.settles role at (drop at way.now) phase out.old.items }
{
    let mut phase = phase;
    let mut at = at;
    loop {
        if is_large(phase) {
            return false;
        }
        if at >= way.len() {
            return keep(out, Spot { phase, at });
        }
        if let Some(next) = at_once(&phase, &way[at]) {
            phase = next;
            at += 1;
            continue;
        }
        if !keep(out, Spot { phase, at }) {
            return false;
        }
        phase = takes(role, &phase, &way[at]);
        at += 1;
    }
}

/// Adds all that one comes to as the end sends a packet, by the rules, or where that breaks one. False: no room.
fn goes(
    breaks: bool,
    role: Role,
    spot: &Spot,
    way: &[Packet],
    packet: &Packet,
    out: &mut Spots,
) -> bool
    ensures { definition.made result out.new.items
        ≡ definition.goes breaks role way.now packet.now spot.now out.old.items }
{
    if is_large(spot.phase) {
        return false;
    }
    let next = if breaks {
        goes_on(spot.phase, *packet)
    } else {
        sends(&spot.phase, packet)
    };
    match next {
        None => true,
        Some(next) => settle(role, next, spot.at, way, out),
    }
}

fn go_all(
    breaks: bool,
    role: Role,
    spots: &[Spot],
    way: &[Packet],
    packet: &Packet,
    out: &mut Spots,
) -> bool
    ensures { definition.made result out.new.items
        ≡ definition.go_all breaks role way.now packet.now spots.now out.old.items }
{
    for spot in spots {
        if !goes(breaks, role, spot, way, packet, out) {
            return false;
        }
    }
    true
}

/// Adds all that one comes to as the other end sends a packet, the last on the way. False: no room.
fn grows(role: Role, spot: &Spot, last: usize, way: &[Packet], out: &mut Spots) -> bool
    ensures { definition.made result out.new.items ≡ definition.grows role last way.now spot.now out.old.items }
{
    if spot.at >= last {
        settle(role, spot.phase, last, way, out)
    } else {
        keep(out, *spot)
    }
}

fn grow_all(role: Role, spots: &[Spot], last: usize, way: &[Packet], out: &mut Spots) -> bool
    ensures { definition.made result out.new.items ≡ definition.grow_all role last way.now spots.now out.old.items }
{
    for spot in spots {
        if !grows(role, spot, last, way, out) {
            return false;
        }
    }
    true
}

/// Adds all to which it comes from there on, where it is known. False: no room.
fn settle_found(
    role: Role,
    phase: Option<Phase>,
    at: usize,
    way: &[Packet],
    out: &mut Spots,
) -> bool
    ensures { definition.made result out.new.items
        ≡ definition.settles_found role at (drop at way.now) phase out.old.items }
{
    match phase {
        None => true,
        Some(phase) => settle(role, phase, at, way, out),
    }
}

/// Adds all in which an end is behind a packet that was anywhere from there on, by the last that it took. False: no
/// room.
fn find(
    role: Role,
    last: Option<Packet>,
    at: usize,
    way: &[Packet],
    packet: Packet,
    out: &mut Spots,
) -> bool
    ensures { definition.made result out.new.items
        ≡ definition.found_from role last at (drop at way.now) packet out.old.items }
{
    if !settle_found(role, found(last, packet), at, way, out) {
        return false;
    }
    if at >= way.len() {
        return true;
    }
    find(role, Some(way[at]), at + 1, way, packet, out)
}

fn is_past(spots: &[Spot], end: usize) -> bool
    ensures { result ≡ definition.are_at_end end spots.now }
{
    for spot in spots {
        if spot.at < end {
            return false;
        }
    }
    true
}

/// Nothing is on the way any more. Those that are kept stand in front, and are counted.
fn renew_all(spots: &mut [Spot]) -> usize
    requires { length spots.old ≤ 16 }
    ensures kept { Some (take result spots.new) ≡ definition.anew spots.old [] }
{
    let mut count = 0;
    for index in 0..spots.len() {
        let spot = Spot {
            phase: spots[index].phase,
            at: 0,
        };
        if !is_there(&spots[..count], spot) {
            spots[count] = spot;
            count += 1;
        }
    }
    count
}

/// Nothing is on the way any more: what is there twice then is left out.
pub(crate) fn renew(spots: &mut Spots)
    ensures { Some spots.new.items ≡ definition.anew spots.old.items [] }
{
    let count = renew_all(spots.as_mut_slice());
    spots.truncate(count);
}

// ---- a new list. False: no room

pub(crate) fn gone(
    breaks: bool,
    role: Role,
    spots: &Spots,
    way: &ArrayVec<Packet, 16>,
    packet: &Packet,
    out: &mut Spots,
) -> bool
    ensures { definition.made result out.new.items
        ≡ definition.go_all breaks role way.now.items packet.now spots.now.items [] }
{
    out.clear();
    go_all(breaks, role, spots.as_slice(), way.as_slice(), packet, out)
}

/// With `last` in front of the last packet on the way.
pub(crate) fn grown(
    role: Role,
    spots: &Spots,
    last: usize,
    way: &ArrayVec<Packet, 16>,
    out: &mut Spots,
) -> bool
    ensures { definition.made result out.new.items
        ≡ definition.grow_all role last way.now.items spots.now.items [] }
{
    out.clear();
    grow_all(role, spots.as_slice(), last, way.as_slice(), out)
}

/// Where an end is behind a packet that may have been anywhere on the way.
pub(crate) fn found_all(
    role: Role,
    way: &ArrayVec<Packet, 16>,
    packet: Packet,
    out: &mut Spots,
) -> bool
    ensures { definition.made result out.new.items ≡ definition.found_from role None 0 way.now.items packet [] }
{
    out.clear();
    find(role, None, 0, way.as_slice(), packet, out)
}

/// Whether each has come to the end of the way.
pub(crate) fn are_at_end(spots: &Spots, end: usize) -> bool
    ensures { result ≡ definition.are_at_end end spots.now.items }
{
    is_past(spots.as_slice(), end)
}

// ---- what is told

fn must_answer(phase: Phase) -> bool
    ensures { result ≡ definition.must_answer phase }
{
    matches!(
        phase,
        Phase::WasReset(_) | Phase::WasCleared | Phase::WasRestarted
    )
}

/// The first state of those that have taken most, and have nothing to answer.
pub(crate) fn latest(spots: &[Spot]) -> Phase
    ensures { result ≡ definition.latest_from true Idle 0 spots.now }
{
    let mut phase = Phase::Idle;
    let mut at = 0;
    let mut is_first = true;
    for spot in spots {
        if (is_first || spot.at > at) && !must_answer(spot.phase) {
            phase = spot.phase;
            at = spot.at;
            is_first = false;
        }
    }
    phase
}

fn may_send(phase: &Phase, packet: &Packet) -> bool
    ensures { result ≡ definition.may_send phase.now packet.now }
{
    if is_large(*phase) {
        return false;
    }
    sends(phase, packet).is_some()
}

fn are_polite(spots: &[Spot], packet: Packet) -> bool
    ensures { result ≡ definition.are_polite packet spots.now }
{
    for spot in spots {
        if is_large(spot.phase) || !is_polite(spot.phase, packet) {
            return false;
        }
    }
    true
}

/// The last state that may send a packet, where none may politely.
pub(crate) fn rude(spots: &[Spot], packet: Packet) -> Option<Phase>
    ensures { result ≡ definition.rude_from packet None spots.now }
{
    // Most packets are polite in all states, and go so.
    if are_polite(spots, packet) {
        return None;
    }
    let mut found = None;
    for spot in spots {
        if may_send(&spot.phase, &packet) {
            if is_polite(spot.phase, packet) {
                return None;
            }
            found = Some(spot.phase);
        }
    }
    found
}

/// Whether a packet is a state's own request once more, before its answer.
fn is_again(packet: Packet, phase: Phase) -> bool
    ensures { result ≡ definition.is_again packet phase }
{
    match phase {
        Phase::Restarts => matches!(packet, Packet::Restart),
        Phase::Clears => matches!(packet, Packet::Clear),
        Phase::Resets(_) => matches!(packet, Packet::Reset),
        _ => false,
    }
}

pub(crate) fn are_again(packet: Packet, spots: &[Spot]) -> bool
    ensures { result ≡ definition.are_again packet spots.now }
{
    for spot in spots {
        if !is_again(packet, spot.phase) {
            return false;
        }
    }
    true
}

// ---- what makes a set known

pub(crate) fn is_one_idle(spots: &[Spot]) -> bool
    ensures { result ≡ definition.is_one_idle spots.now }
{
    for spot in spots {
        if matches!(spot.phase, Phase::Idle) {
            return true;
        }
    }
    false
}

/// Whether each took something that was seen, if it is in a call.
pub(crate) fn are_bound(spots: &[Spot]) -> bool
    ensures { result ≡ definition.are_bound spots.now }
{
    for spot in spots {
        if !is_bound(spot.phase) {
            return false;
        }
    }
    true
}

/// Whether such a packet answers a state's request, and crosses none; of a DCE that called, the DTE may have called
/// before.
fn is_answered(role: Role, packet: Packet, phase: Phase) -> bool
    ensures { result ≡ definition.is_answered role packet phase }
{
    match phase {
        Phase::Restarts => matches!(packet, Packet::RestartConf),
        Phase::Clears => matches!(packet, Packet::ClearConf),
        Phase::Calls(_) => matches!(packet, Packet::Accept(_)) && matches!(role, Role::Dte),
        _ => false,
    }
}

pub(crate) fn are_answered(role: Role, spots: &[Spot], packet: Packet) -> bool
    ensures { result ≡ definition.are_answered role packet spots.now }
{
    for spot in spots {
        if !is_answered(role, packet, spot.phase) {
            return false;
        }
    }
    true
}
