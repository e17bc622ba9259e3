//! The rules that a frame may break, and which of them are of manners.
ghost use Rattle.std.specs.Prelude.{◌≡◌, Some, not};
ghost use Rattle.x25_judge.specs.Rule as definition;
ghost use Rattle.x25_judge.specs.laws.Session.{IsOfLink, is_of_order};

use x25_packet_judge::PacketRule;

/// A rule that a frame breaks, with what would have been right. ITU-T X.25 (10/96); the section is in the text of each.
///
/// Numbers are N(S) and N(R), and I frames that are unacknowledged; `Packet` is a rule of the packet layer.
#[derive(Clone, Copy)]
pub(crate) enum Rule {
    NoFrame,
    UaUnasked,
    NotUp,
    NoPoll,
    Unsent { most: u8 },
    Falls { least: u8 },
    RejectAgain,
    OverWindow { window: u8 },
    Skips { next: u8 },
    Repeats { next: u8 },
    Differs,
    Packet { rule: PacketRule },
}

impl Rule {
    /// Whether the link keeps order without it: it is of manners.
    pub(crate) fn is_of_manners(self) -> bool
        ensures manners { result ≡ definition.is_of_manners self }
        ensures order { IsOfLink self → is_of_order (Some self) ≡ not result }
    {
        match self {
            Rule::NoPoll | Rule::RejectAgain | Rule::Skips { .. } | Rule::Repeats { .. } => true,
            Rule::OverWindow { window } => window < 7,
            Rule::Packet { rule } => rule.is_of_manners(),
            _ => false,
        }
    }
}

/// The first of two rules, but one of order before one of manners.
pub(crate) fn first(rule: Option<Rule>, next: Option<Rule>) -> Option<Rule>
    ensures { result ≡ definition.first rule next }
{
    match (rule, next) {
        (None, _) => next,
        (Some(broken), Some(worse)) if broken.is_of_manners() && !worse.is_of_manners() => next,
        (Some(_), _) => rule,
    }
}

/// Whether a rule is broken that isn't.
pub(crate) fn breaks_order(rule: Option<Rule>) -> bool
    ensures { result ≡ definition.breaks_order rule }
{
    match rule {
        Some(rule) => !rule.is_of_manners(),
        None => false,
    }
}
