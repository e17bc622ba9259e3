//! Both ends of a logical channel, as the sets of states in which they may be.
ghost use Rattle.std.specs.Prelude.{◌≡◌, true};
ghost use Rattle.x25_packet_judge.specs.Channel as definition;
ghost use Rattle.x25_possible.specs.code.Steps.{begun};
ghost use Rattle.x25_possible.specs.declared.packet.Packet.TheVariants.{Elsewhere};

use crate::book::{Noted, Verdict, passed};
use crate::packet_rule::{PacketRule, is_order};
use crate::reason::{manners, reason};
use x25_bits::Role;
use x25_possible::{Packet, Phase, Set, Told};

/// Both ends of a channel, or of all that were never seen.
#[derive(Drop)]
pub(crate) struct Channel {
    pub(crate) dte: Set,
    pub(crate) dce: Set,
    /// It was noted that one of them isn't known.
    pub(crate) is_noted: bool,
}

/// What happens to all channels: an end sends a packet; or packets of both weren't seen.
#[derive(Clone, Copy)]
pub(crate) enum Event {
    Sends(Role, Packet),
    Loss,
}

fn rule_of(told: Told, packet: Packet) -> Option<PacketRule>
    ensures { result ≡ definition.rule_of told packet }
{
    match told {
        Told::Nothing => None,
        Told::Rude(phase) => Some(manners(phase)),
        Told::Broken(phase) => Some(reason(phase, packet)),
    }
}

/// Whether an end has surely restarted, and nothing is on the way to it.
fn is_begun(set: &Set) -> bool
    ensures { result ≡ true → set.now ≡ begun set.now.role }
{
    match set.spots.as_slice() {
        [spot] => matches!(spot.phase, Phase::Idle)
            && spot.at == 0
            && set.way.is_empty()
            && set.is_known(),
        _ => false,
    }
}

/// An end sends a packet.
fn sent(own: &mut Set, packet: &Packet) -> Verdict
    ensures own { own.new ≡ (definition.sent packet.now own.old).set }
    ensures verdict { result ≡ (definition.sent packet.now own.old).verdict }
{
    let was_known = own.is_known();
    let is_again = own.repeats(packet);
    let rule = rule_of(own.sends(packet), *packet);
    Verdict {
        rule,
        noted: if is_again { Some(Noted::Again) } else { None },
        is_judged: was_known && (rule.is_some() || own.is_known()),
    }
}

impl Channel {
    /// Nothing is known of either end.
    pub(crate) fn any() -> Channel
        ensures { result ≡ definition.any_channel }
    {
        Channel {
            dte: Set::any(Role::Dte),
            dce: Set::any(Role::Dce),
            is_noted: false,
        }
    }

    /// Both have restarted.
    pub(crate) fn begun() -> Channel
        ensures { result ≡ definition.begun_channel }
    {
        Channel {
            dte: Set::new(Role::Dte),
            dce: Set::new(Role::Dce),
            is_noted: false,
        }
    }

    /// The link is set up: nothing is known, but nothing of before comes.
    pub(crate) fn ready() -> Channel
        ensures { result ≡ definition.ready_channel }
    {
        Channel {
            dte: Set::ready(Role::Dte),
            dce: Set::ready(Role::Dce),
            is_noted: false,
        }
    }

    /// Packets of both ends weren't seen.
    pub(crate) fn lose(&mut self)
        ensures { self.new ≡ definition.lost self.old }
    {
        self.dte.lose();
        self.dce.lose();
        self.is_noted = false;
    }

    /// The same.
    pub(crate) fn copy(&self) -> Channel
        ensures { result ≡ self.now }
    {
        Channel {
            dte: self.dte.copy(),
            dce: self.dce.copy(),
            is_noted: self.is_noted,
        }
    }

    /// An end sends a packet, which may come to the other one at any moment.
    #[inline(always)]
    pub(crate) fn takes(&mut self, from: Role, packet: &Packet) -> Verdict
        ensures channel { self.new ≡ (definition.takes from packet.now self.old).channel }
        ensures verdict { result ≡ (definition.takes from packet.now self.old).verdict }
    {
        match from {
            Role::Dte => {
                self.dce.shows(packet);
                sent(&mut self.dte, packet)
            }
            Role::Dce => {
                self.dte.shows(packet);
                sent(&mut self.dce, packet)
            }
        }
    }

    pub(crate) fn happens(&mut self, event: Event)
        ensures { self.new ≡ definition.happens event self.old }
    {
        match event {
            Event::Sends(from, packet) => {
                self.takes(from, &packet);
            }
            Event::Loss => self.lose(),
        }
    }

    /// An end sends a packet on another channel; whether its RESTART, or that of the other end, is to be answered
    /// first.
    pub(crate) fn passes_over(&mut self, from: Role) -> bool
        ensures channel { self.new ≡ (definition.takes from Elsewhere self.old).channel }
        ensures early { result ≡ definition.is_early from self.old }
    {
        // It changes nothing then: most packets of a trace go so.
        if is_begun(&self.dte) && is_begun(&self.dce) {
            return false;
        }
        let verdict = self.takes(from, &Packet::Elsewhere);
        is_order(verdict.rule)
    }

    fn is_known(&self) -> bool
        ensures { result ≡ definition.is_known self.now }
    {
        self.dte.is_known() && self.dce.is_known()
    }

    /// It isn't judged, which is noted once.
    pub(crate) fn passes(&mut self, number: u16) -> Verdict
        ensures channel { self.new ≡ (definition.passed number self.old).channel }
        ensures verdict { result ≡ (definition.passed number self.old).verdict }
    {
        if self.is_noted {
            return passed(None);
        }
        self.is_noted = true;
        passed(Some(Noted::Unjudged(number)))
    }

    /// What isn't judged is noted once, until both ends are known.
    fn marks(&mut self, number: u16, verdict: Verdict) -> Verdict
        ensures channel { self.new ≡ (definition.marked number verdict self.old).channel }
        ensures verdict { result ≡ (definition.marked number verdict self.old).verdict }
    {
        if !verdict.is_judged {
            return self.passes(number);
        }
        self.is_noted = self.is_noted && !self.is_known();
        verdict
    }

    /// The same as `takes`, and where it isn't judged that is noted.
    #[tactic(auto, unfolding(crate::specs::Channel::judges))]
    pub(crate) fn judges(&mut self, number: u16, from: Role, packet: &Packet) -> Verdict
        ensures channel { self.new ≡ (definition.judges number from packet.now self.old).channel }
        ensures verdict { result ≡ (definition.judges number from packet.now self.old).verdict }
    {
        let verdict = self.takes(from, packet);
        self.marks(number, verdict)
    }

    /// A packet that isn't read.
    pub(crate) fn misses(&mut self, number: u16) -> Verdict
        ensures channel { self.new ≡ (definition.misses number self.old).channel }
        ensures verdict { result ≡ (definition.misses number self.old).verdict }
    {
        self.dte.doubt();
        self.dce.doubt();
        self.passes(number)
    }
}
