//! The states in which an end of a channel may be, packet by packet.
ghost use Rattle.std.specs.Prelude.{◌≡◌, IfSome};
ghost use Rattle.x25_possible.specs.Spots.{IsSmall};
ghost use Rattle.x25_possible.specs.code.Steps as definition;
ghost use Rattle.x25_possible.specs.code.Steps.{IsAlone, IsStep, IsTaken};
ghost use Rattle.x25_possible.specs.declared.phase.Phase.TheVariants.{Talks};

use crate::channel::{alone_sends, dropped, flow, flow_sends, flow_takes, small};
use crate::packet::Packet;
use crate::phase::{Phase, Talk};
use crate::spots::{
    Spot, Spots, are_again, are_answered, are_at_end, are_bound, found_all, gone, grown,
    is_one_idle, latest, renew, rude,
};
use arrayvec::ArrayVec;
use x25_bits::Role;

/// What is known of an end: nothing any more; nothing, and it may be anywhere on the way; or the states in which it may
/// be.
#[derive(Clone, Copy)]
pub enum Knowledge {
    Blind,
    Lost,
    /// It may be anywhere, and nothing of before comes.
    Ready,
    /// It may be anywhere, behind a packet that wasn't read.
    Doubt,
    /// Its states, but for what wasn't seen and may come yet.
    Likely,
    Known,
}

/// What is told of a packet: nothing; that no state that allows it does so politely; or that none allows it.
#[derive(Clone, Copy)]
pub enum Told {
    Nothing,
    Rude(Phase),
    Broken(Phase),
}

/// The states in which an end may be, and what the other one sent that it may not have taken.
#[derive(Drop)]
pub struct Set {
    pub role: Role,
    pub way: ArrayVec<Packet, 16>,
    pub spots: Spots,
    pub knowledge: Knowledge,
}

/// Whether a packet that the end sends makes it known, with such states behind it.
fn makes_known(knowledge: Knowledge, packet: Packet, spots: &[Spot]) -> bool
    ensures { result ≡ definition.makes_known knowledge packet spots.now }
{
    match packet {
        Packet::RestartConf | Packet::ClearConf | Packet::Accept(_) => true,
        Packet::Restart => matches!(knowledge, Knowledge::Ready) || is_one_idle(spots),
        Packet::Clear => is_one_idle(spots),
        Packet::Data { .. }
        | Packet::Rr(_)
        | Packet::Rnr(_)
        | Packet::Interrupt
        | Packet::InterruptConf => are_bound(spots),
        Packet::Call(_) | Packet::Reset | Packet::ResetConf | Packet::Elsewhere => false,
    }
}

/// Whether a packet may say where the end is: behind one that wasn't read no call is known, and behind a set-up its
/// RESTART comes.
fn may_find(knowledge: Knowledge, packet: Packet) -> bool
    ensures { result ≡ definition.may_find knowledge packet }
{
    match packet {
        Packet::Accept(_) => !matches!(knowledge, Knowledge::Doubt),
        Packet::Data { .. } => !matches!(knowledge, Knowledge::Ready),
        _ => true,
    }
}

fn told_by(found: Option<Phase>) -> Told
    ensures { result ≡ definition.told_by found }
{
    match found {
        None => Told::Nothing,
        Some(phase) => Told::Rude(phase),
    }
}

impl Set {
    /// It has restarted, and there is no call.
    pub fn new(role: Role) -> Set
        ensures { result ≡ definition.begun role }
    {
        let mut spots = Spots::new();
        spots.push(Spot {
            phase: Phase::Idle,
            at: 0,
        });
        Set {
            role,
            way: ArrayVec::new(),
            spots,
            knowledge: Knowledge::Known,
        }
    }

    fn anywhere(role: Role, knowledge: Knowledge) -> Set
        ensures { result ≡ definition.anywhere role knowledge }
    {
        Set {
            role,
            way: ArrayVec::new(),
            spots: Spots::new(),
            knowledge,
        }
    }

    /// Nothing is known yet.
    pub fn any(role: Role) -> Set
        ensures { result ≡ definition.any role }
    {
        Set::anywhere(role, Knowledge::Lost)
    }

    /// The link is set up: nothing is known, but nothing of before comes.
    pub fn ready(role: Role) -> Set
        ensures { result ≡ definition.ready role }
    {
        Set::anywhere(role, Knowledge::Ready)
    }

    /// Nothing is known but what is on the way.
    fn hide(&mut self, knowledge: Knowledge)
        ensures { self.new ≡ definition.hidden knowledge self.old }
    {
        if matches!(self.knowledge, Knowledge::Blind) {
            return;
        }
        self.spots.clear();
        self.knowledge = knowledge;
    }

    /// Packets of both ends weren't seen: nothing is known. What was seen before may come yet.
    pub fn lose(&mut self)
        ensures { self.new ≡ definition.lost self.old }
    {
        self.hide(Knowledge::Lost);
    }

    /// Nothing is known behind a packet that wasn't read.
    pub fn doubt(&mut self)
        ensures { self.new ≡ definition.doubted self.old }
    {
        self.hide(Knowledge::Doubt);
    }

    /// The same.
    pub fn copy(&self) -> Set
        ensures { result ≡ self.now }
    {
        let mut way = ArrayVec::new();
        let _ = way.try_extend_from_slice(self.way.as_slice());
        let mut spots = Spots::new();
        let _ = spots.try_extend_from_slice(self.spots.as_slice());
        Set {
            role: self.role,
            way,
            spots,
            knowledge: self.knowledge,
        }
    }

    pub fn is_known(&self) -> bool
        ensures { result ≡ definition.is_known self.now }
    {
        matches!(self.knowledge, Knowledge::Known)
    }

    /// Whether a packet that the end sends is surely its RESTART, CLEAR or RESET once more, before the answer.
    pub fn repeats(&self, packet: &Packet) -> bool
        ensures { result ≡ definition.repeats packet.now self.now }
    {
        self.is_known() && are_again(*packet, self.spots.as_slice())
    }

    /// No states are listed.
    fn is_blind(&self) -> bool
        ensures { result ≡ definition.is_blind self.now }
    {
        !matches!(self.knowledge, Knowledge::Likely | Knowledge::Known)
    }

    /// States are listed, and something is on the way.
    fn is_awaiting(&self) -> bool
        ensures { result ≡ definition.is_awaiting self.now }
    {
        !self.is_blind() && !self.way.is_empty()
    }

    fn is_lost(&self) -> bool
        ensures { result ≡ definition.is_lost self.now }
    {
        matches!(
            self.knowledge,
            Knowledge::Lost | Knowledge::Ready | Knowledge::Doubt
        )
    }

    /// No room: nothing is told any more.
    fn give_up(&mut self)
        ensures { self.new ≡ definition.without_room self.old }
    {
        self.way.clear();
        self.spots.clear();
        self.knowledge = Knowledge::Blind;
    }

    fn take(&mut self, spots: &Spots)
        ensures { self.new ≡ definition.standing self.old.role self.old.way.items spots.now.items self.old.knowledge }
    {
        self.spots.clear();
        let _ = self.spots.try_extend_from_slice(spots.as_slice());
    }

    /// Where all have come to the end of the way, nothing is on it.
    fn trim(&mut self)
        ensures { self.new ≡ definition.trimmed self.old }
    {
        if self.is_awaiting() && are_at_end(&self.spots, self.way.len()) {
            renew(&mut self.spots);
            self.way.clear();
        }
    }

    /// Behind a packet that no state allows: numbers go on from it, or nothing is known.
    fn breaks(&mut self, packet: Packet, next: &mut Spots)
        ensures { self.new ≡ definition.breaks packet self.old }
    {
        if gone(true, self.role, &self.spots, &self.way, &packet, next) && !next.is_empty() {
            self.take(next);
        } else {
            self.lose();
        }
    }

    fn is_unexplained(&mut self, packet: Packet, next: &mut Spots) -> Told
        ensures set { self.new ≡ (definition.unexplained packet self.old).set }
        ensures told { result ≡ (definition.unexplained packet self.old).told }
    {
        if self.is_known() {
            let phase = latest(self.spots.as_slice());
            self.breaks(packet, next);
            Told::Broken(phase)
        } else {
            self.lose();
            Told::Nothing
        }
    }

    fn is_explained(&mut self, packet: Packet, spots: &Spots) -> Told
        ensures set { self.new ≡ (definition.explained packet spots.now.items self.old).set }
        ensures told { result ≡ (definition.explained packet spots.now.items self.old).told }
    {
        if self.is_known() {
            let found = rude(self.spots.as_slice(), packet);
            self.take(spots);
            return told_by(found);
        }
        let is_found = makes_known(self.knowledge, packet, spots.as_slice());
        self.take(spots);
        if is_found {
            self.knowledge = Knowledge::Known;
        }
        Told::Nothing
    }

    /// The end may be anywhere on the way, and a packet says where it is behind it.
    fn locates(&mut self, packet: Packet, spots: &Spots)
        ensures { self.new ≡ definition.located packet spots.now.items self.old }
    {
        self.knowledge = if makes_known(self.knowledge, packet, spots.as_slice()) {
            Knowledge::Known
        } else {
            Knowledge::Likely
        };
        self.take(spots);
        self.trim();
    }

    /// By data it isn't anywhere on the way: all of that counts as taken.
    fn catch_up(&mut self, packet: Packet)
        ensures { self.new ≡ definition.caught_up packet self.old }
    {
        if matches!(packet, Packet::Data { .. }) {
            self.way.clear();
        }
    }

    /// A packet of an end that may be anywhere on the way.
    fn finds(&mut self, packet: Packet)
        ensures { self.new ≡ definition.finds packet self.old }
    {
        if !self.is_lost() || !may_find(self.knowledge, packet) {
            return;
        }
        self.catch_up(packet);
        let mut next = Spots::new();
        if found_all(self.role, &self.way, packet, &mut next) && !next.is_empty() {
            self.locates(packet, &next);
        }
    }

    /// As `sends`, with what came left on the way.
    fn goes(&mut self, packet: Packet) -> Told
        ensures set { self.new ≡ (definition.sent packet self.old).set }
        ensures told { result ≡ (definition.sent packet self.old).told }
    {
        let mut next = Spots::new();
        if !gone(false, self.role, &self.spots, &self.way, &packet, &mut next) {
            self.give_up();
            Told::Nothing
        } else if next.is_empty() {
            self.is_unexplained(packet, &mut next)
        } else {
            self.is_explained(packet, &next)
        }
    }

    /// Where it surely is, with nothing on the way to it.
    fn alone(&self) -> Option<Phase>
        ensures same { result ≡ definition.alone self.now }
        ensures small { IfSome result (λ s. IsSmall s) }
    {
        if !self.is_known() {
            return None;
        }
        match (self.way.as_slice(), self.spots.as_slice()) {
            ([], [spot]) => if spot.at == 0 {
                small(spot.phase)
            } else {
                None
            },
            _ => None,
        }
    }

    /// Its one state becomes another.
    fn stands(&mut self, phase: Phase)
        requires { IsAlone self.old }
        ensures { self.new ≡ definition.alone_in phase self.old }
    {
        self.spots[0].phase = phase;
    }

    /// Its numbers, where that is in flow control.
    fn flow(&self) -> Option<Talk>
        ensures same { result ≡ definition.flow_in (definition.alone self.now) }
        ensures small { IfSome result (λ k. IsSmall (Talks k)) }
    {
        if !self.is_known() {
            return None;
        }
        match (self.way.as_slice(), self.spots.as_slice()) {
            ([], [spot]) => if spot.at == 0 { flow(spot.phase) } else { None },
            _ => None,
        }
    }

    /// Where it is behind a packet that it sends, where the whole of that is this.
    fn steps_alone(&self, packet: Packet) -> Option<Phase>
        ensures { IfSome result (λ next. IsStep packet next self.now) }
    {
        match self.alone() {
            Some(phase) => alone_sends(phase, packet),
            None => None,
        }
    }

    /// The same in flow control.
    #[inline(always)]
    fn steps(&self, packet: Packet) -> Option<Talk>
        ensures { IfSome result (λ next. IsStep packet (Talks next) self.now) }
    {
        match self.flow() {
            Some(talk) => flow_sends(talk, packet),
            None => None,
        }
    }

    /// As `sends`, of any set.
    fn sends_any(&mut self, packet: Packet) -> Told
        ensures set { self.new ≡ (definition.sends_to packet self.old).set }
        ensures told { result ≡ (definition.sends_to packet self.old).told }
    {
        if let Some(next) = self.steps_alone(packet) {
            self.stands(next);
            return Told::Nothing;
        }
        if self.is_blind() {
            self.finds(packet);
            return Told::Nothing;
        }
        let told = self.goes(packet);
        self.trim();
        told
    }

    /// The end sends a packet.
    #[inline(always)]
    pub fn sends(&mut self, packet: &Packet) -> Told
        ensures set { self.new ≡ (definition.sends_to packet.now self.old).set }
        ensures told { result ≡ (definition.sends_to packet.now self.old).told }
    {
        let Some(next) = self.steps(*packet) else {
            return self.sends_any(*packet);
        };
        self.stands(Phase::Talks(next));
        Told::Nothing
    }

    /// What comes to an end that may be anywhere is kept on the way, where it may say in which state that is.
    fn awaits(&mut self, packet: Packet)
        ensures { self.new ≡ definition.awaits packet self.old }
    {
        if !self.is_lost() || dropped(packet, Phase::Idle).is_some() {
            return;
        }
        if self.way.is_full() {
            self.give_up();
            return;
        }
        self.way.push(packet);
    }

    /// As `shows`, with what came left on the way.
    fn grows(&mut self, packet: Packet)
        ensures { self.new ≡ definition.shown packet self.old }
    {
        if self.way.is_full() {
            self.give_up();
            return;
        }
        let is_known = self.is_known() || are_answered(self.role, self.spots.as_slice(), packet);
        let last = self.way.len();
        self.way.push(packet);
        let mut next = Spots::new();
        if !grown(self.role, &self.spots, last, &self.way, &mut next) {
            self.give_up();
            return;
        }
        self.take(&next);
        if is_known {
            self.knowledge = Knowledge::Known;
        }
    }

    /// Where it is in flow control behind a packet that comes, where the whole of that is this.
    #[inline(always)]
    fn hears(&self, packet: Packet) -> Option<Talk>
        ensures { IfSome result (λ next. IsTaken packet (Talks next) self.now) }
    {
        match self.flow() {
            Some(talk) => flow_takes(talk, packet),
            None => None,
        }
    }

    /// As `shows`, to any set.
    fn shows_any(&mut self, packet: Packet)
        ensures { self.new ≡ definition.shows_to packet self.old }
    {
        if self.is_blind() {
            self.awaits(packet);
            return;
        }
        self.grows(packet);
        self.trim();
    }

    /// The other end sends a packet, which may come at any moment from now on.
    #[inline(always)]
    pub fn shows(&mut self, packet: &Packet)
        ensures { self.new ≡ definition.shows_to packet.now self.old }
    {
        match self.hears(*packet) {
            Some(next) => self.stands(Phase::Talks(next)),
            None => self.shows_any(*packet),
        }
    }
}
