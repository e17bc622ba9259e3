//! Which rule a packet breaks that no state of its sender allows, and which manners.
ghost use Rattle.std.specs.Prelude.{◌≡◌};
ghost use Rattle.x25_packet_judge.specs.Reason as definition;

use crate::numbers::apart;
use crate::packet_rule::PacketRule;
use x25_possible::{Packet, Phase, Talk};

/// A P(R) that acknowledges nothing that may be acknowledged: whichever is nearer.
fn acknowledges(talk: Talk, number: u8) -> Option<PacketRule>
    ensures { result ≡ definition.acknowledges talk number }
{
    let pending = talk.taken.saturating_sub(talk.told);
    let ahead = apart(number, (talk.told % 8) as u8);
    if u32::from(ahead) <= pending {
        None
    } else if u32::from(8u8.saturating_sub(ahead)) < u32::from(ahead).saturating_sub(pending) {
        Some(PacketRule::PacketFalls {
            least: (talk.told % 8) as u8,
        })
    } else {
        Some(PacketRule::PacketUnsent {
            most: (talk.taken % 8) as u8,
        })
    }
}

/// A data packet, whose P(R) is right.
fn follows(talk: Talk, ps: u8, size: u16) -> PacketRule
    ensures { result ≡ definition.follows talk ps size }
{
    let next = (talk.sent % 8) as u8;
    if ps != next {
        PacketRule::PacketSkips { next }
    } else if 7 <= talk.sent.saturating_sub(talk.acked) {
        PacketRule::OverPackets { window: 7 }
    } else if 0 < talk.most && talk.most < size {
        PacketRule::TooManyOctets { most: talk.most }
    } else {
        PacketRule::QualifierChanges
    }
}

/// While its RESTART waits: what isn't its confirmation breaks `rule`.
fn in_restart(packet: Packet, rule: PacketRule) -> PacketRule
    ensures { result ≡ definition.in_restart packet rule }
{
    match packet {
        Packet::RestartConf => PacketRule::RestartUnasked,
        _ => rule,
    }
}

/// The same while its CLEAR waits.
fn in_clear(packet: Packet, rule: PacketRule) -> PacketRule
    ensures { result ≡ definition.in_clear packet rule }
{
    match packet {
        Packet::ClearConf => PacketRule::ClearUnasked,
        _ => in_restart(packet, rule),
    }
}

/// The same where there is no call.
fn out_of_call(packet: Packet, rule: PacketRule) -> PacketRule
    ensures { result ≡ definition.out_of_call packet rule }
{
    match packet {
        Packet::Call(_) => PacketRule::CallAgain,
        Packet::Accept(_) => PacketRule::AcceptUnasked,
        _ => in_clear(packet, rule),
    }
}

/// The same while its RESET waits.
fn in_reset(packet: Packet, rule: PacketRule) -> PacketRule
    ensures { result ≡ definition.in_reset packet rule }
{
    match packet {
        Packet::ResetConf => PacketRule::ResetUnasked,
        _ => out_of_call(packet, rule),
    }
}

/// In a call.
fn in_call(talk: Talk, packet: Packet) -> PacketRule
    ensures { result ≡ definition.in_call talk packet }
{
    match packet {
        Packet::Interrupt => PacketRule::InterruptAgain,
        Packet::InterruptConf => PacketRule::InterruptUnasked,
        Packet::Data { ps, pr, size, .. } => acknowledges(talk, pr).unwrap_or(follows(
            talk, ps, size,
        )),
        Packet::Rr(pr) | Packet::Rnr(pr) => acknowledges(talk, pr).unwrap_or(
            PacketRule::PacketUnsent { most: 0 },
        ),
        _ => in_reset(packet, PacketRule::NoCall),
    }
}

/// The rule that a packet breaks in a state that doesn't allow it.
pub(crate) fn reason(phase: Phase, packet: Packet) -> PacketRule
    ensures { result ≡ definition.reason phase packet }
{
    match phase {
        Phase::Talks(talk) => in_call(talk, packet),
        Phase::Resets(_) => in_reset(packet, PacketRule::ResetAwaited),
        Phase::Clears => in_clear(packet, PacketRule::ClearAwaited),
        Phase::Restarts => in_restart(packet, PacketRule::RestartAwaited),
        _ => out_of_call(packet, PacketRule::NoCall),
    }
}

/// The manners that a packet breaks in a state that allows it.
pub(crate) fn manners(phase: Phase) -> PacketRule
    ensures { result ≡ definition.manners phase }
{
    match phase {
        Phase::Talks(talk) => if 0 < talk.window
            && talk.window < 7
            && u32::from(talk.window) <= talk.sent.saturating_sub(talk.acked)
        {
            PacketRule::OverPackets {
                window: talk.window,
            }
        } else {
            PacketRule::NotFull { size: talk.most }
        },
        _ => PacketRule::NotFull { size: 0 },
    }
}
