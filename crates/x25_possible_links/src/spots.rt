//! The places in which an end may be, in a fixed room: each with how much of what is on the way has come.
ghost use Rattle.std.specs.Prelude.{◌≡◌, drop, map};
ghost use Rattle.x25_possible_links.specs.code.Steps as definition;

use crate::frame::Frame;
use crate::link::{
    FRESH, Mode, is_asking, is_below, is_large, is_lost, is_plain, moves, onward, passed, pressed,
    upward,
};
use crate::stand::Stand;
use arrayvec::ArrayVec;

/// A stand, and how much of what is on the way has come.
#[derive(Clone, Copy, Default)]
pub struct Spot {
    pub stand: Stand,
    pub at: usize,
}

pub type Spots = ArrayVec<Spot, 16>;

/// Whether one of them stands for all that this one does.
fn is_covered(spots: &[Spot], spot: Spot) -> bool
    ensures { result ≡ definition.is_covered spot spots.now }
{
    for other in spots {
        if other.at <= spot.at && is_below(spot.stand, other.stand) {
            return true;
        }
    }
    false
}

/// Adds one that none covers. False: no room.
fn keep(out: &mut Spots, spot: Spot) -> bool
    ensures { definition.made result out.new.items ≡ definition.kept spot out.old.items }
{
    if is_covered(out.as_slice(), spot) {
        return true;
    }
    if out.is_full() {
        return false;
    }
    out.push(spot);
    true
}

/// Where it is once it has made the best of what it loses nothing by; None where a number is too large.
fn best(stand: Stand, at: usize, way: &[Frame]) -> Option<Spot>
    ensures { result ≡ definition.best at (drop at way.now) stand }
{
    let mut stand = stand;
    let mut at = at;
    loop {
        if is_large(stand) {
            return None;
        }
        if at >= way.len() || !is_plain(stand, way[at]) {
            return Some(Spot { stand, at });
        }
        stand = onward(stand, way[at]);
        at += 1;
    }
}

/// Adds a stand, once it has made the best of what it loses nothing by. False: no room.
fn settle(stand: Stand, at: usize, way: &[Frame], out: &mut Spots) -> bool
    ensures { definition.made result out.new.items ≡ definition.settles at (drop at way.now) stand out.old.items }
{
    match best(stand, at, way) {
        None => false,
        Some(spot) => keep(out, spot),
    }
}

/// Adds the first place from there on in which it may send a frame. False: no room.
fn goes(mode: Mode, frame: Frame, stand: Stand, at: usize, way: &[Frame], out: &mut Spots) -> bool
    ensures { definition.made result out.new.items
        ≡ definition.goes mode frame way.now at (drop at way.now) stand out.old.items }
{
    let mut stand = stand;
    let mut at = at;
    loop {
        if is_large(stand) {
            return false;
        }
        if let Some(next) = moves(mode, stand, at, way, frame) {
            return settle(next, at, way, out);
        }
        if at >= way.len() {
            return true;
        }
        stand = upward(stand, way[at]);
        at += 1;
    }
}

/// Adds where it is behind UA to SABM. False: no room.
fn answered(stand: Stand, at: usize, way: &[Frame], out: &mut Spots) -> bool
    ensures { definition.made result out.new.items ≡ definition.answered way.now stand at out.old.items }
{
    if !settle(FRESH, at, way, out) {
        return false;
    }
    !is_asking(stand) || settle(Stand::Asking, at, way, out)
}

/// Adds where it is behind UA, to the first SABM from there on, or to a DISC before that. False: no room.
fn answers(stand: Stand, at: usize, way: &[Frame], out: &mut Spots) -> bool
    ensures { definition.made result out.new.items
        ≡ definition.answers way.now stand at (drop at way.now) out.old.items }
{
    if at >= way.len() {
        return true;
    }
    match way[at] {
        Frame::Sabm | Frame::Unread => answered(stand, at + 1, way, out),
        Frame::Before => answered(stand, at, way, out),
        Frame::Disc => {
            if !settle(Stand::Out, at + 1, way, out) {
                return false;
            }
            answers(stand, at + 1, way, out)
        }
        _ => answers(stand, at + 1, way, out),
    }
}

/// Adds where one is behind octets that spell no frame: these lead nowhere where nothing is known. False: no room.
fn any_frame(spot: Spot, way: &[Frame], out: &mut Spots) -> bool
    ensures { definition.made result out.new.items ≡ definition.any_frame way.now spot out.old.items }
{
    if !settle(spot.stand, spot.at, way, out) {
        return false;
    }
    if matches!(spot.stand, Stand::Free) {
        return true;
    }
    if !answers(spot.stand, spot.at, way, out) {
        return false;
    }
    if !goes(Mode::Right, Frame::Sabm, spot.stand, spot.at, way, out) {
        return false;
    }
    goes(Mode::Right, Frame::Unread, spot.stand, spot.at, way, out)
}

/// Adds where one is behind a frame that the end sends. False: no room.
fn walks(mode: Mode, frame: Frame, spot: Spot, way: &[Frame], out: &mut Spots) -> bool
    ensures { definition.made result out.new.items ≡ definition.walks mode frame way.now spot out.old.items }
{
    match (mode, frame) {
        (Mode::Right, Frame::Ua) => answers(spot.stand, spot.at, way, out),
        (Mode::Right, Frame::Unread) => any_frame(spot, way, out),
        _ => goes(mode, frame, spot.stand, spot.at, way, out),
    }
}

/// Adds where they are behind a frame that the end sends. False: no room.
pub(crate) fn walk_all(
    mode: Mode,
    frame: Frame,
    spots: &[Spot],
    way: &[Frame],
    out: &mut Spots,
) -> bool
    ensures { definition.made result out.new.items ≡ definition.walk_all mode frame way.now spots.now out.old.items }
{
    for spot in spots {
        if !walks(mode, frame, *spot, way, out) {
            return false;
        }
    }
    true
}

/// At its best, with one frame more on the way than `last`.
fn grown(spot: Spot, last: usize, way: &[Frame]) -> Option<Spot>
    ensures { result ≡ definition.grown last way.now spot }
{
    if spot.at <= last {
        best(spot.stand, spot.at, way)
    } else {
        None
    }
}

/// Each at its best, with one frame more on the way than `last`. False: a number is too large.
pub(crate) fn grow_all(spots: &mut [Spot], last: usize, way: &[Frame]) -> bool
    ensures { definition.made result spots.new ≡ definition.grow_all last way.now spots.old }
{
    for spot in spots.iter_mut() {
        match grown(*spot, last, way) {
            None => return false,
            Some(next) => *spot = next,
        }
    }
    true
}

fn shifted(count: usize, spot: Spot) -> Spot
    ensures { result ≡ definition.shifted count spot }
{
    Spot {
        stand: spot.stand,
        at: spot.at.saturating_sub(count),
    }
}

/// So much of the way is taken off.
pub(crate) fn shift_all(count: usize, spots: &mut [Spot])
    ensures { spots.new ≡ map (definition.shifted count) spots.old }
{
    for spot in spots.iter_mut() {
        *spot = shifted(count, *spot);
    }
}

/// How much of the way has come to each of them.
pub(crate) fn least(spots: &[Spot], most: usize) -> usize
    ensures { result ≡ definition.least spots.now most }
{
    let mut least = most;
    for spot in spots {
        if spot.at < least {
            least = spot.at;
        }
    }
    least
}

// ---- where they stand once all has come

/// Free where a number is too large: from there on it is Free whatever comes.
fn come(stand: Stand, at: usize, way: &[Frame]) -> Stand
    ensures { result ≡ definition.come (drop at way.now) stand }
{
    let mut stand = stand;
    let mut at = at;
    loop {
        if is_lost(stand) {
            return Stand::Free;
        }
        if at >= way.len() {
            return stand;
        }
        stand = upward(stand, way[at]);
        at += 1;
    }
}

/// Where it stands once all has come, whatever it made of it.
fn rushed(stand: Stand, at: usize, front: &[Frame]) -> Stand
    ensures { result ≡ definition.rushed (drop at front.now) stand }
{
    let mut stand = stand;
    let mut at = at;
    loop {
        if is_lost(stand) {
            return Stand::Free;
        }
        if at >= front.len() {
            return stand;
        }
        stand = pressed(stand, front[at]);
        at += 1;
    }
}

fn hurried(count: usize, front: &[Frame], spot: Spot) -> Spot
    ensures { result ≡ definition.hurried count front.now spot }
{
    Spot {
        stand: rushed(spot.stand, spot.at, front),
        at: spot.at.saturating_sub(count),
    }
}

/// So many have come to all, the front of the way.
pub(crate) fn hurry_all(count: usize, front: &[Frame], spots: &mut [Spot])
    ensures { spots.new ≡ map (definition.hurried count front.now) spots.old }
{
    for spot in spots.iter_mut() {
        *spot = hurried(count, front, *spot);
    }
}

/// Where it stands once all has come, where octets that spell no frame were none.
fn gone(stand: Stand, at: usize, way: &[Frame]) -> Stand
    ensures { result ≡ definition.gone (drop at way.now) stand }
{
    let mut stand = stand;
    let mut at = at;
    loop {
        if is_lost(stand) {
            return Stand::Free;
        }
        if at >= way.len() {
            return stand;
        }
        stand = passed(stand, way[at]);
        at += 1;
    }
}

/// Of the first of those that have come farthest.
pub(crate) fn latest(spots: &[Spot], way: &[Frame]) -> Stand
    ensures { result ≡ definition.latest spots.now way.now }
{
    if spots.is_empty() {
        return Stand::Free;
    }
    let mut far = spots[0];
    for spot in spots {
        if far.at < spot.at {
            far = *spot;
        }
    }
    come(far.stand, far.at, way)
}

/// Of the first of all: no octets were sent that spell no frame.
pub(crate) fn plainest(spots: &[Spot], way: &[Frame]) -> Stand
    ensures { result ≡ definition.plainest spots.now way.now }
{
    if spots.is_empty() {
        return Stand::Free;
    }
    gone(spots[0].stand, spots[0].at, way)
}

/// Whether each that is in a session then has sent so many I frames.
pub(crate) fn agree(sent: u64, spots: &[Spot], way: &[Frame]) -> bool
    ensures { result ≡ definition.agree sent way.now spots.now }
{
    for spot in spots {
        if let Stand::Up(k) = come(spot.stand, spot.at, way) {
            if k.sent != sent {
                return false;
            }
        }
    }
    true
}
