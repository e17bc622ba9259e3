//! Rules of the packet layer as text.
ghost use Rattle.std.specs.Prelude.{◌≡◌, ◌≤◌, length};
ghost use Rattle.x25_packet_judge.specs.PacketRuleText.{number_in, words_of};

use crate::packet_rule::PacketRule;

impl PacketRule {
    /// What it says, but for its number. ITU-T X.25 (10/96), the sections that it names.
    pub fn words(self) -> &'static [u8]
        ensures words { result.now ≡ words_of self }
        ensures few { length result.now ≤ 90 }
    {
        match self {
            PacketRule::NoPacket => b"no packet of X.25 has these octets (5)",
            PacketRule::RestartAwaited =>
                b"nothing but RESTART goes before its confirmation (3.3.1)",
            PacketRule::RestartUnasked => b"RESTART CONFIRMATION of no RESTART (3.3.1)",
            PacketRule::ClearAwaited => b"nothing but CLEAR goes before its confirmation (4.1.7)",
            PacketRule::ClearUnasked => b"CLEAR CONFIRMATION of no CLEAR (4.1.7)",
            PacketRule::CallAgain => b"CALL where the channel has a call (4.1.2)",
            PacketRule::AcceptUnasked =>
                b"CALL ACCEPTED of no call, or not as proposed (4.1.4, 6.12)",
            PacketRule::NoCall => b"no call is up on the channel (4.3)",
            PacketRule::ResetAwaited => b"nothing but RESET goes before its confirmation (4.4.3)",
            PacketRule::ResetUnasked => b"RESET CONFIRMATION of no RESET (4.4.3.4)",
            PacketRule::PacketUnsent { .. } =>
                b"P(R) acknowledges what was never sent (4.4.1.3): at most ",
            PacketRule::PacketFalls { .. } => b"P(R) falls (4.4.1.3): at least ",
            PacketRule::PacketSkips { .. } => b"P(S) isn't the next one (4.4.1.1): it should be ",
            PacketRule::OverPackets { .. } =>
                b"more data packets are unacknowledged than the window (4.4.1.2): at most ",
            PacketRule::InterruptAgain => b"INTERRUPT before the last one is confirmed (4.3.7)",
            PacketRule::InterruptUnasked => b"INTERRUPT CONFIRMATION of no INTERRUPT (4.3.7)",
            PacketRule::TooManyOctets { .. } =>
                b"more user data than the packet size (4.3.2): at most ",
            PacketRule::NotFull { .. } =>
                b"M=1 in a packet that isn't full (4.3.4): it should have ",
            PacketRule::QualifierChanges => b"Q changes within a message (4.3.6)",
        }
    }

    /// The number that would have been right.
    pub fn number(self) -> Option<u16>
        ensures { result ≡ number_in self }
    {
        match self {
            PacketRule::PacketUnsent { most } => Some(u16::from(most)),
            PacketRule::PacketFalls { least } => Some(u16::from(least)),
            PacketRule::PacketSkips { next } => Some(u16::from(next)),
            PacketRule::OverPackets { window } => Some(u16::from(window)),
            PacketRule::TooManyOctets { most } => Some(most),
            PacketRule::NotFull { size } => Some(size),
            _ => None,
        }
    }
}
