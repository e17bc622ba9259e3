//! Which frames a trace may lack, and what they would explain of what is told.
ghost use Rattle.std.specs.Prelude.{◌≡◌};
ghost use Rattle.x25_judge.specs.Doubt as definition;

use crate::rule::Rule;
use x25_frame::Role;
use x25_packet_judge::PacketRule;
use x25_possible_links::LinkSet;

/// Where a trace was made: what the line lost before that place isn't in it.
#[derive(Clone, Copy, Debug, PartialEq, Eq)]
pub enum At {
    /// On the line: it has all that both ends sent.
    Line,
    /// In front of the DTE: it has all that the DTE sent, and all that came to it.
    Dte,
    /// In front of the DCE.
    Dce,
    /// At either end, or anywhere: any frame may be missing.
    Either,
}

/// Which frames may be missing that would explain what is told of an end.
#[derive(Clone, Copy)]
pub(crate) enum Frames {
    Nothing,
    /// Those of the end that the line lost, which goes on as if they were there.
    Lost,
    Any,
}

/// What may be missing that would explain what is told of an end: frames, and packets since the last set-up.
#[derive(Clone, Copy)]
pub(crate) struct Lack {
    pub(crate) frames: Frames,
    pub(crate) packets: bool,
}

impl At {
    /// Which frames of an end may be missing, with the places in which that may be. A UA that it awaits may stand in
    /// front of the trace. Where SABM or DISC waits for the far end, its UA may have been lost.
    pub(crate) fn lack(self, from: Role, own: &LinkSet) -> Frames
        ensures { result ≡ definition.lack self from own.now }
    {
        match (self, from) {
            _ if own.awaits_before() => Frames::Any,
            (At::Line, _) | (At::Dte, Role::Dte) | (At::Dce, Role::Dce) => Frames::Nothing,
            _ if own.has_request() => Frames::Any,
            (At::Dte, Role::Dce) | (At::Dce, Role::Dte) => Frames::Lost,
            (At::Either, _) => Frames::Any,
        }
    }
}

impl Lack {
    /// Whether they would explain that a rule is told. Packets explain none of octets that spell no packet.
    pub(crate) fn explains(self, rule: Rule) -> bool
        ensures { result ≡ definition.explains self rule }
    {
        let is_of_packets = match rule {
            Rule::Packet { rule } => !matches!(rule, PacketRule::NoPacket),
            _ => false,
        };
        (self.packets && is_of_packets)
            || match (self.frames, rule) {
                (Frames::Nothing, _) | (Frames::Any, Rule::NoFrame) => false,
                (Frames::Any, _) | (Frames::Lost, Rule::Differs | Rule::UaUnasked) => true,
                (Frames::Lost, rule) => rule.is_of_manners(),
            }
    }
}
