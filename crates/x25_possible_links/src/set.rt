//! The places in which an end of a link may be, frame by frame.
ghost use Rattle.std.specs.Prelude.{◌≡◌, ◌<◌, ◌∷◌, [], drop, length, IfSome};
ghost use Rattle.x25_possible_links.specs.code.Steps as definition;
ghost use Rattle.x25_possible_links.specs.code.Steps.{IsInSession, IsSmall, IsStep, IsTaken};
ghost use Rattle.x25_possible_links.specs.declared.stand.Stand.TheVariants.{Up};

use crate::frame::Frame;
use crate::link::{Mode, is_plain, is_sure, is_ua, near_numbers, up_hears, up_sends};
use crate::spots::{
    Spot, Spots, agree, grow_all, hurry_all, latest, least, plainest, shift_all, walk_all,
};
use crate::stand::{Numbers, Stand};
use arrayvec::ArrayVec;
use std::marker::Model;

/// Half of the room for what is on the way.
const HALF: usize = 64;

/// A list in which places are made: no contract says what it holds.
#[derive(Drop)]
struct Spare {
    list: Spots,
}

impl Model for Spare {
    ghost use Rattle.std.specs.Prelude.{◌≡◌};

    ghost Value = { Unit {0} };

    ghost view = { λ s. tt };
}

/// The places in which an end may be, and what the other one sent that may not have come to all of them.
#[derive(Drop)]
pub struct LinkSet {
    pub way: ArrayVec<Frame, 128>,
    pub spots: Spots,
    spare: Spare,
    /// There was no room for its places once, or it may have missed UA: less is known than the rules say, and told.
    pub is_blind: bool,
}

/// What is told of a frame: nothing; that it leaves numbers out; or that it breaks a rule. With where the end stands
/// that has come farthest.
#[derive(Clone, Copy)]
pub enum Told {
    Nothing,
    Skips(Stand),
    Broken(Stand),
}

/// What is known of an end before a frame that it sends.
#[derive(Clone, Copy)]
pub struct Facts {
    /// Its numbers.
    pub stand: Stand,
    /// It is known what it may acknowledge.
    pub is_sure: bool,
    /// V(S) is known, or none.
    pub is_counted: bool,
    pub is_known: bool,
    /// All is shown that its next response may answer.
    pub is_shown: bool,
    /// It is UA, and known whether it answers something: SABM or DISC may wait for it, or all that waits is shown.
    pub is_answering: bool,
}

fn are_known(spots: &[Spot]) -> bool
    ensures { result ≡ definition.are_known spots.now }
{
    for spot in spots {
        if matches!(spot.stand, Stand::Free) {
            return false;
        }
    }
    true
}

/// Whether one may be in a session, in front of all on the way.
fn are_in_session(spots: &[Spot]) -> bool
    ensures { result ≡ definition.are_in_session spots.now }
{
    for spot in spots {
        if spot.at == 0 && matches!(spot.stand, Stand::Up(_)) {
            return true;
        }
    }
    false
}

fn unread(way: &[Frame]) -> usize
    ensures { result ≡ definition.unread way.now }
{
    let mut count = 0;
    for frame in way {
        if matches!(frame, Frame::Unread) {
            count += 1;
        }
    }
    count
}

fn has_all(way: &[Frame]) -> bool
    ensures { result ≡ definition.has_all way.now }
{
    way.is_empty() || !matches!(way[0], Frame::Before)
}

fn has_request(way: &[Frame]) -> bool
    ensures { result ≡ definition.has_request way.now }
{
    for frame in way {
        if matches!(frame, Frame::Sabm | Frame::Disc) {
            return true;
        }
    }
    false
}

/// Whether it may carry something.
fn carries(frame: Frame) -> bool
    ensures { result ≡ definition.carries frame }
{
    matches!(frame, Frame::Info { .. } | Frame::Unread)
}

/// Whether what carries something may come in front of SABM or DISC, from there on.
fn hides(at: usize, way: &[Frame]) -> bool
    ensures { result ≡ definition.hides (drop at way.now) }
{
    if at >= way.len() {
        return false;
    }
    (carries(way[at]) && has_request(&way[at + 1..])) || hides(at + 1, way)
}

/// In place of these.
fn put(spots: &mut Spots, next: &Spots)
    ensures { spots.new.items ≡ next.now.items }
{
    spots.clear();
    let _ = spots.try_extend_from_slice(next.as_slice());
}

impl LinkSet {
    /// Nothing is known of the end, or of what was sent to it.
    pub fn new() -> LinkSet
        ensures { result ≡ definition.unknown }
    {
        let mut way = ArrayVec::new();
        way.push(Frame::Before);
        let mut spots = Spots::new();
        spots.push(Spot {
            stand: Stand::Free,
            at: 0,
        });
        LinkSet {
            way,
            spots,
            spare: Spare { list: Spots::new() },
            is_blind: false,
        }
    }

    /// The end is in a session with such numbers, and nothing is on the way to it.
    pub fn standing(k: Numbers) -> LinkSet
        ensures { result ≡ definition.begun_as (Up k ∷ []) }
    {
        let at = 0;
        let mut spots = Spots::new();
        spots.push(Spot {
            stand: Stand::Up(k),
            at,
        });
        LinkSet {
            way: ArrayVec::new(),
            spots,
            spare: Spare { list: Spots::new() },
            is_blind: false,
        }
    }

    /// Whether it is known where the end stands, or in which of some places.
    pub fn is_known(&self) -> bool
        ensures { result ≡ definition.is_known self.now }
    {
        are_known(self.spots.as_slice())
    }

    /// Where the one of the places stands that has come farthest, once all has come.
    fn latest(&self) -> Stand
        ensures { result ≡ definition.latest self.now.spots.items self.now.way.items }
    {
        latest(self.spots.as_slice(), self.way.as_slice())
    }

    /// Its numbers once all has come, where octets that spell no frame, of either end, were none; where it isn't in a
    /// session then, where they were any.
    pub fn numbers(&self) -> Stand
        ensures { result ≡ definition.numbers self.now }
    {
        if self.is_loose() {
            return Stand::Free;
        }
        let stand = plainest(self.spots.as_slice(), self.way.as_slice());
        match stand {
            Stand::Up(_) => stand,
            _ => self.latest(),
        }
    }

    /// What is known of it before a frame that it sends.
    pub fn facts(&self, frame: Frame) -> Facts
        ensures { result ≡ definition.facts frame self.now }
    {
        let stand = self.numbers();
        let is_known = self.is_known();
        let is_followed = self.is_followed();
        Facts {
            stand,
            is_sure: is_known && (self.unread() == 0 && is_sure(self.latest())),
            is_counted: match stand {
                Stand::Up(k) => agree(k.sent, self.spots.as_slice(), self.way.as_slice()),
                _ => true,
            },
            is_known,
            is_shown: is_known && is_followed,
            is_answering: is_ua(frame) && (self.has_request() || is_followed),
        }
    }

    /// How much on the way can't be read.
    pub fn unread(&self) -> usize
        ensures { result ≡ definition.unread self.now.way.items }
    {
        unread(self.way.as_slice())
    }

    /// Whether SABM or DISC may wait for it.
    pub fn has_request(&self) -> bool
        ensures { result ≡ definition.has_request self.now.way.items }
    {
        has_request(self.way.as_slice())
    }

    /// Whether what it may answer is shown: nothing of before may come.
    pub fn is_followed(&self) -> bool
        ensures { result ≡ definition.is_followed self.now }
    {
        has_all(self.way.as_slice())
    }

    /// Whether I frames may come to it in front of a SABM or DISC that waits for it.
    pub fn is_open(&self) -> bool
        ensures { result ≡ definition.is_open self.now }
    {
        hides(0, self.way.as_slice())
    }

    /// Whether what was sent before may come to it, and count: UA, which it awaits, or what goes in a session that no
    /// frame of the trace began.
    pub fn awaits_before(&self) -> bool
        ensures { result ≡ definition.awaits_before self.now }
    {
        !self.is_followed()
            && (matches!(self.latest(), Stand::Asking)
                || (are_in_session(self.spots.as_slice()) && !self.has_request()))
    }

    /// Takes what has come to all places off the way.
    fn trim(&mut self)
        ensures { self.new ≡ definition.trimmed self.old }
    {
        let count = least(self.spots.as_slice(), self.way.len());
        if count == 0 {
            return;
        }
        shift_all(count, self.spots.as_mut_slice());
        if count == self.way.len() {
            self.way.clear();
        } else {
            let _ = self.way.drain(..count);
        }
    }

    /// The older half of a way that is full counts as come. An end that awaited UA may have passed over one there.
    fn hurry(&mut self)
        requires { length self.old.way.items ≡ 128 }
        ensures set { self.new ≡ definition.hastened self.old }
        ensures room { length self.new.way.items < 128 }
    {
        let (front, _) = self.way.as_slice().split_at(HALF);
        hurry_all(HALF, front, self.spots.as_mut_slice());
        let _ = self.way.drain(..HALF);
        if !self.is_known() {
            self.is_blind = true;
        }
    }

    /// It may be anywhere from there on.
    fn strays(&mut self, at: usize)
        ensures { self.new ≡ definition.astray at self.old }
    {
        self.spots.clear();
        self.spots.push(Spot {
            stand: Stand::Free,
            at,
        });
        self.trim();
    }

    /// There is no room: it may be anywhere from there on.
    fn lose(&mut self, at: usize)
        ensures { self.new ≡ definition.lost at self.old }
    {
        self.is_blind = true;
        self.strays(at);
    }

    /// How much of the way has come to all places.
    fn came(&self) -> usize
        ensures { result ≡ definition.came self.now }
    {
        least(self.spots.as_slice(), self.way.len())
    }

    /// Numbers go on from a frame that breaks a rule; where none do, nothing is known.
    fn breaks(&mut self, frame: Frame)
        ensures { self.new ≡ definition.broken frame self.old }
    {
        self.spare.list.clear();
        if !walk_all(
            Mode::Wrong,
            frame,
            self.spots.as_slice(),
            self.way.as_slice(),
            &mut self.spare.list,
        ) {
            let at = self.came();
            self.lose(at);
        } else if self.spare.list.is_empty() {
            let at = self.came();
            self.strays(at);
        } else {
            put(&mut self.spots, &self.spare.list);
            self.trim();
        }
    }

    /// No place allows a frame. UA leaves all as it was.
    fn is_unexplained(&mut self, frame: Frame) -> Told
        ensures set { self.new ≡ (definition.unexplained frame self.old).set }
        ensures told { result ≡ (definition.unexplained frame self.old).told }
    {
        let stand = self.latest();
        if matches!(frame, Frame::Ua) {
            return Told::Broken(stand);
        }
        self.spare.list.clear();
        if !walk_all(
            Mode::Skipping,
            frame,
            self.spots.as_slice(),
            self.way.as_slice(),
            &mut self.spare.list,
        ) {
            let at = self.came();
            self.lose(at);
            Told::Broken(stand)
        } else if self.spare.list.is_empty() {
            self.breaks(frame);
            Told::Broken(stand)
        } else {
            put(&mut self.spots, &self.spare.list);
            self.trim();
            Told::Skips(stand)
        }
    }

    /// Its numbers, where it has one place, in a session, nothing is on the way, and what it may acknowledge is known.
    #[inline(always)]
    fn session(&self) -> Option<Numbers>
        ensures same { result ≡ definition.session self.now }
        ensures small { IfSome result (λ k. IsSmall (Up k)) }
    {
        match (self.way.as_slice(), self.spots.as_slice()) {
            ([], [spot]) => if spot.at == 0 {
                near_numbers(spot.stand)
            } else {
                None
            },
            _ => None,
        }
    }

    /// Its numbers, and those behind a frame that it sends, where it is known to be in a session, and nothing is on the
    /// way. None: it isn't, or it may not send that frame so.
    #[inline(always)]
    pub fn steps(&self, frame: Frame) -> Option<(Numbers, Numbers)>
        ensures same { result ≡ definition.steps frame self.now }
        ensures step { IfSome result (λ both. IsStep frame both.0 both.1 self.now) }
    {
        let Some(k) = self.session() else {
            return None;
        };
        match up_sends(k, frame) {
            Some(next) => Some((k, next)),
            None => None,
        }
    }

    /// Its numbers behind a frame that comes, where it is known to be in a session, and nothing else is on the way.
    /// None: it isn't, or the frame is of none.
    #[inline(always)]
    pub fn takes(&self, frame: Frame) -> Option<Numbers>
        ensures same { result ≡ definition.takes frame self.now }
        ensures taken { IfSome result (λ next. IsTaken frame next self.now) }
    {
        match self.session() {
            Some(k) => up_hears(k, frame),
            None => None,
        }
    }

    /// Its one place is in a session with other numbers.
    #[inline(always)]
    pub fn stands(&mut self, k: Numbers)
        requires { IsInSession self.old }
        ensures { self.new ≡ definition.in_session k self.old }
    {
        self.spots[0].stand = Stand::Up(k);
    }

    /// Whether nothing is known of it, and something waits for it that may end this.
    fn is_loose(&self) -> bool
        ensures { result ≡ definition.is_loose self.now }
    {
        match (self.way.as_slice(), self.spots.as_slice()) {
            ([first, ..], [spot]) => matches!(spot.stand, Stand::Free)
                && (spot.at == 0 && !is_plain(Stand::Free, *first)),
            _ => false,
        }
    }

    /// The end sends a frame. Something is told where no run of an end that keeps the rules explains it.
    pub fn sends(&mut self, frame: Frame) -> Told
        ensures set { self.new ≡ (definition.sends_to frame self.old).set }
        ensures told { result ≡ (definition.sends_to frame self.old).told }
    {
        if matches!(frame, Frame::Info { .. } | Frame::Ready(_)) && self.is_loose() {
            return Told::Nothing;
        }
        self.spare.list.clear();
        if !walk_all(
            Mode::Right,
            frame,
            self.spots.as_slice(),
            self.way.as_slice(),
            &mut self.spare.list,
        ) {
            let at = self.came();
            self.lose(at);
            Told::Nothing
        } else if self.spare.list.is_empty() {
            self.is_unexplained(frame)
        } else {
            put(&mut self.spots, &self.spare.list);
            self.trim();
            Told::Nothing
        }
    }

    /// One more is on the way.
    fn extend(&mut self, frame: Frame)
        requires { length self.old.way.items < 128 }
        ensures { self.new ≡ definition.extended frame self.old }
    {
        if self.is_loose() {
            self.way.push(frame);
            return;
        }
        let at = self.came();
        let last = self.way.len();
        self.way.push(frame);
        if grow_all(self.spots.as_mut_slice(), last, self.way.as_slice()) {
            self.trim();
        } else {
            self.lose(at);
        }
    }

    /// The other end sends a frame, which may come at any moment from now on, or is lost.
    pub fn shows(&mut self, frame: Frame)
        ensures { self.new ≡ definition.shows_to frame self.old }
    {
        if self.way.is_full() {
            self.hurry();
        }
        self.extend(frame);
    }
}
