//! The rules of the packet layer that a packet may break.
ghost use Rattle.std.specs.Prelude.{◌≡◌, not};
ghost use Rattle.x25_packet_judge.specs.PacketRule as definition;
ghost use Rattle.x25_packet_judge.specs.laws.Order.{is_of_order};

/// A rule that a packet breaks, with what would have been right. ITU-T X.25 (10/96); the section is in the text of
/// each.
///
/// Numbers are P(S) and P(R), data packets that are unacknowledged, and octets of user data.
#[derive(Clone, Copy)]
pub enum PacketRule {
    NoPacket,
    RestartAwaited,
    RestartUnasked,
    ClearAwaited,
    ClearUnasked,
    CallAgain,
    AcceptUnasked,
    NoCall,
    ResetAwaited,
    ResetUnasked,
    PacketUnsent { most: u8 },
    PacketFalls { least: u8 },
    PacketSkips { next: u8 },
    OverPackets { window: u8 },
    InterruptAgain,
    InterruptUnasked,
    TooManyOctets { most: u16 },
    NotFull { size: u16 },
    QualifierChanges,
}

impl PacketRule {
    /// Whether the packet layer keeps order without it: it is of manners. Profile.
    pub fn is_of_manners(self) -> bool
        ensures manners { result ≡ definition.is_of_manners self }
        ensures order { is_of_order self ≡ not result }
    {
        match self {
            PacketRule::OverPackets { window } => window < 7,
            PacketRule::NotFull { .. } => true,
            _ => false,
        }
    }
}

/// Whether a rule is told, and order stands on it.
pub(crate) fn is_order(rule: Option<PacketRule>) -> bool
    ensures { result ≡ definition.is_order rule }
{
    match rule {
        Some(broken) => !broken.is_of_manners(),
        None => false,
    }
}
