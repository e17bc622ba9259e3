//! What an end may send and take in each state, as the definition has it.
ghost use Rattle.std.specs.Prelude.{◌≡◌, ◌+◌, ◌<◌, ◌^◌, IfSome, false};
ghost use Rattle.x25_possible.specs.Channel as definition;
ghost use Rattle.x25_possible.specs.Spots.{IsSmall};
ghost use Rattle.x25_possible.specs.code.Steps as steps;
ghost use Rattle.x25_possible.specs.declared.packet.Packet.TheVariants.{Data, Rr};
ghost use Rattle.x25_possible.specs.declared.phase.Phase.TheVariants.{Talks};

use crate::packet::{Packet, Said, Sizes, Terms, Windows};
use crate::phase::{Limits, Phase, Talk};
use x25_bits::Role;

/// Numbers up to here are counted; a set with larger ones says nothing.
const LARGEST: u32 = 2_147_483_647;

/// What isn't known counts as this number.
const FAR: u32 = 1_073_741_824;

/// Whether a number is so large that it isn't counted on.
pub(crate) fn is_large(phase: Phase) -> bool
    ensures same { result ≡ steps.is_large phase }
    ensures small { result ≡ false → IsSmall phase }
{
    match phase {
        Phase::Talks(talk) => {
            talk.sent > LARGEST
                || talk.acked > LARGEST
                || talk.taken > LARGEST
                || talk.told > LARGEST
                || talk.owed > LARGEST
        }
        _ => false,
    }
}

/// The first whole number from `low` on that is this one modulo 8.
fn nth(low: u32, number: u8) -> u32
    requires { low < 2 ^ 31 }
    ensures { result ≡ definition.nth low number }
{
    low + (number as u32 + 8 - low % 8) % 8
}

fn calling_limits(terms: Terms, said: Said) -> Limits
    ensures { result ≡ definition.calling_limits terms said }
{
    Limits {
        most: match said.sizes {
            Some(sizes) => sizes.calling,
            None => terms.calling_size,
        },
        window: match said.windows {
            Some(windows) => windows.calling,
            None => terms.calling_window,
        },
    }
}

fn called_limits(terms: Terms, said: Said) -> Limits
    ensures { result ≡ definition.called_limits terms said }
{
    Limits {
        most: match said.sizes {
            Some(sizes) => sizes.called,
            None => terms.called_size,
        },
        window: match said.windows {
            Some(windows) => windows.called,
            None => terms.called_window,
        },
    }
}

/// What is answered lies between what was proposed and the default.
fn is_toward(default: u16, proposed: u16, n: u16) -> bool
    ensures { result ≡ definition.is_toward default proposed n }
{
    (default <= n && n <= proposed) || (proposed <= n && n <= default)
}

fn is_size(default: u16, proposed: u16, n: u16) -> bool
    ensures { result ≡ definition.is_size default proposed n }
{
    proposed == 0 || is_toward(default, proposed, n)
}

fn may_have_sizes(terms: Terms, said: Option<Sizes>) -> bool
    ensures { result ≡ definition.may_have_sizes terms said }
{
    match said {
        Some(sizes) => {
            let default = terms.defaults.size;
            is_size(default, terms.called_size, sizes.called)
                && is_size(default, terms.calling_size, sizes.calling)
        }
        None => true,
    }
}

fn may_have_windows(terms: Terms, said: Option<Windows>) -> bool
    ensures { result ≡ definition.may_have_windows terms said }
{
    match said {
        Some(windows) => {
            let default = terms.defaults.window.into();
            is_toward(default, terms.called_window.into(), windows.called.into())
                && is_toward(default, terms.calling_window.into(), windows.calling.into())
        }
        None => true,
    }
}

fn limits_of(talk: Talk) -> Limits
    ensures { result ≡ definition.limits_of talk }
{
    Limits {
        most: talk.most,
        window: talk.window,
    }
}

fn fresh(limits: Limits) -> Phase
    ensures { result ≡ definition.fresh limits }
{
    Phase::Talks(Talk {
        most: limits.most,
        window: limits.window,
        sent: 0,
        acked: 0,
        taken: 0,
        told: 0,
        begun: None,
        is_out: false,
        owed: 0,
    })
}

fn may_ack(t: u32, talk: Talk, pr: u8) -> bool
    ensures { result ≡ definition.may_ack t talk pr }
{
    pr as u32 == t % 8 && talk.told <= t && t <= talk.taken
}

fn is_one_message(begun: Option<bool>, q: bool) -> bool
    ensures { result ≡ definition.is_one_message begun q }
{
    match begun {
        None => true,
        Some(true) => q,
        Some(false) => !q,
    }
}

fn fits(most: u16, size: u16) -> bool
    ensures { result ≡ definition.fits most size }
{
    most == 0 || size <= most
}

fn may_number(talk: Talk, ps: u8) -> bool
    requires { IsSmall (Talks talk) }
    ensures { result ≡ definition.may_number talk ps }
{
    ps as u32 == talk.sent % 8 && talk.sent < talk.acked + 7
}

fn begun_by(m: bool, q: bool) -> Option<bool>
    ensures { result ≡ definition.begun_by m q }
{
    if m { Some(q) } else { None }
}

fn may_follow(talk: Talk, q: bool, ps: u8, size: u16) -> bool
    requires { IsSmall (Talks talk) }
    ensures { result ≡ definition.may_follow talk q ps size }
{
    may_number(talk, ps) && (fits(talk.most, size) && is_one_message(talk.begun, q))
}

/// Behind a data packet, which says that it took all below `t`.
fn talked(t: u32, talk: Talk, q: bool, m: bool) -> Talk
    requires { IsSmall (Talks talk) }
    ensures { result ≡ record talk { sent = talk.sent + 1; told = t; begun = definition.begun_by m q } }
{
    Talk {
        sent: talk.sent + 1,
        told: t,
        begun: begun_by(m, q),
        ..talk
    }
}

fn sends_data(t: u32, talk: Talk, q: bool, m: bool, ps: u8, pr: u8, size: u16) -> Option<Phase>
    requires { IsSmall (Talks talk) }
    ensures { result ≡ definition.talk_sends t talk (Data q m ps pr size) }
{
    let may = may_ack(t, talk, pr) && may_follow(talk, q, ps, size);
    if may {
        Some(Phase::Talks(talked(t, talk, q, m)))
    } else {
        None
    }
}

/// RR or RNR.
fn sends_ready(t: u32, talk: Talk, pr: u8) -> Option<Phase>
    ensures { result ≡ definition.talk_sends t talk (Rr pr) }
{
    if may_ack(t, talk, pr) {
        Some(Phase::Talks(Talk { told: t, ..talk }))
    } else {
        None
    }
}

fn talk_sends(talk: Talk, packet: Packet) -> Option<Phase>
    requires { IsSmall (Talks talk) }
    ensures { result ≡ definition.sends (Talks talk) packet }
{
    match packet {
        Packet::Reset => Some(Phase::Resets(limits_of(talk))),
        Packet::Clear => Some(Phase::Clears),
        Packet::Restart => Some(Phase::Restarts),
        Packet::Data { q, m, ps, pr, size } => sends_data(
            nth(talk.told, pr),
            talk,
            q,
            m,
            ps,
            pr,
            size,
        ),
        Packet::Rr(pr) | Packet::Rnr(pr) => sends_ready(nth(talk.told, pr), talk, pr),
        Packet::Interrupt => {
            if talk.is_out {
                None
            } else {
                Some(Phase::Talks(Talk {
                    is_out: true,
                    ..talk
                }))
            }
        }
        Packet::InterruptConf => {
            if talk.owed > 0 {
                Some(Phase::Talks(Talk {
                    owed: talk.owed - 1,
                    ..talk
                }))
            } else {
                None
            }
        }
        Packet::Elsewhere => Some(Phase::Talks(talk)),
        _ => None,
    }
}

/// What ends the call, or all; and what goes on another channel.
fn ending_sends(phase: Phase, packet: Packet) -> Option<Phase>
    ensures { result ≡ definition.ending_sends phase packet }
{
    match packet {
        Packet::Clear => Some(Phase::Clears),
        Packet::Restart => Some(Phase::Restarts),
        Packet::Elsewhere => Some(phase),
        _ => None,
    }
}

fn silent_sends(packet: Packet) -> Option<Phase>
    ensures { result ≡ definition.silent_sends packet }
{
    match packet {
        Packet::Restart => Some(Phase::Restarts),
        _ => None,
    }
}

fn idle_sends(packet: Packet) -> Option<Phase>
    ensures { result ≡ definition.idle_sends packet }
{
    match packet {
        Packet::Call(terms) => Some(Phase::Calls(terms)),
        _ => ending_sends(Phase::Idle, packet),
    }
}

fn called_sends(terms: Terms, packet: Packet) -> Option<Phase>
    ensures { result ≡ definition.called_sends terms packet }
{
    match packet {
        Packet::Accept(said) => {
            let may = may_have_sizes(terms, said.sizes) && may_have_windows(terms, said.windows);
            if may {
                Some(fresh(called_limits(terms, said)))
            } else {
                None
            }
        },
        _ => ending_sends(Phase::WasCalled(terms), packet),
    }
}

fn resets_sends(limits: Limits, packet: Packet) -> Option<Phase>
    ensures { result ≡ definition.resets_sends limits packet }
{
    match packet {
        Packet::Reset => Some(Phase::Resets(limits)),
        _ => ending_sends(Phase::Resets(limits), packet),
    }
}

fn reset_sends(limits: Limits, packet: Packet) -> Option<Phase>
    ensures { result ≡ definition.reset_sends limits packet }
{
    match packet {
        Packet::ResetConf => Some(fresh(limits)),
        _ => ending_sends(Phase::WasReset(limits), packet),
    }
}

fn clears_sends(packet: Packet) -> Option<Phase>
    ensures { result ≡ definition.clears_sends packet }
{
    match packet {
        Packet::Clear | Packet::Elsewhere => Some(Phase::Clears),
        _ => silent_sends(packet),
    }
}

fn cleared_sends(packet: Packet) -> Option<Phase>
    ensures { result ≡ definition.cleared_sends packet }
{
    match packet {
        Packet::ClearConf => Some(Phase::Idle),
        Packet::Elsewhere => Some(Phase::WasCleared),
        _ => silent_sends(packet),
    }
}

fn restarted_sends(packet: Packet) -> Option<Phase>
    ensures { result ≡ definition.restarted_sends packet }
{
    match packet {
        Packet::RestartConf => Some(Phase::Idle),
        _ => silent_sends(packet),
    }
}

/// Where it is behind a packet that it sends; None where it may not.
pub(crate) fn sends(phase: &Phase, packet: &Packet) -> Option<Phase>
    requires { IsSmall phase.now }
    ensures { result ≡ definition.sends phase.now packet.now }
{
    match phase {
        Phase::Idle => idle_sends(*packet),
        Phase::Calls(_) => ending_sends(*phase, *packet),
        Phase::WasCalled(terms) => called_sends(*terms, *packet),
        Phase::Talks(talk) => talk_sends(*talk, *packet),
        Phase::Resets(limits) => resets_sends(*limits, *packet),
        Phase::WasReset(limits) => reset_sends(*limits, *packet),
        Phase::Clears => clears_sends(*packet),
        Phase::Restarts => silent_sends(*packet),
        Phase::WasCleared => cleared_sends(*packet),
        Phase::WasRestarted => restarted_sends(*packet),
    }
}

/// What it makes of what comes in the stretch.
fn heard(talk: Talk, packet: Packet) -> Talk
    requires { IsSmall (Talks talk) }
    ensures { result ≡ definition.heard talk packet }
{
    match packet {
        Packet::Data { ps, pr, .. } => Talk {
            acked: nth(talk.acked, pr),
            taken: if ps as u32 == talk.taken % 8 {
                talk.taken + 1
            } else {
                talk.taken
            },
            ..talk
        },
        Packet::Rr(pr) | Packet::Rnr(pr) => Talk {
            acked: nth(talk.acked, pr),
            ..talk
        },
        Packet::Interrupt => Talk {
            owed: talk.owed + 1,
            ..talk
        },
        Packet::InterruptConf => Talk {
            is_out: false,
            ..talk
        },
        _ => talk,
    }
}

fn ended_by(packet: Packet, phase: Phase) -> Phase
    ensures { result ≡ definition.ended_by packet phase }
{
    match packet {
        Packet::Clear => Phase::WasCleared,
        Packet::Restart => Phase::WasRestarted,
        _ => phase,
    }
}

fn calls_takes(role: Role, terms: Terms, packet: Packet) -> Phase
    ensures { result ≡ definition.calls_takes role terms packet }
{
    match packet {
        Packet::Call(theirs) => match role {
            Role::Dte => Phase::Calls(terms),
            Role::Dce => Phase::WasCalled(theirs),
        },
        Packet::Accept(said) => fresh(calling_limits(terms, said)),
        _ => ended_by(packet, Phase::Calls(terms)),
    }
}

fn idle_takes(packet: Packet) -> Phase
    ensures { result ≡ definition.idle_takes packet }
{
    match packet {
        Packet::Call(terms) => Phase::WasCalled(terms),
        _ => ended_by(packet, Phase::Idle),
    }
}

fn talk_takes(talk: Talk, packet: Packet) -> Phase
    requires { IsSmall (Talks talk) }
    ensures { result ≡ definition.talk_takes talk packet }
{
    match packet {
        Packet::Reset => Phase::WasReset(limits_of(talk)),
        _ => ended_by(packet, Phase::Talks(heard(talk, packet))),
    }
}

fn resets_takes(limits: Limits, packet: Packet) -> Phase
    ensures { result ≡ definition.resets_takes limits packet }
{
    match packet {
        Packet::Reset | Packet::ResetConf => fresh(limits),
        _ => ended_by(packet, Phase::Resets(limits)),
    }
}

fn clears_takes(packet: Packet) -> Phase
    ensures { result ≡ definition.clears_takes packet }
{
    match packet {
        Packet::Clear | Packet::ClearConf => Phase::Idle,
        Packet::Restart => Phase::WasRestarted,
        _ => Phase::Clears,
    }
}

fn restarts_takes(packet: Packet) -> Phase
    ensures { result ≡ definition.restarts_takes packet }
{
    match packet {
        Packet::Restart | Packet::RestartConf => Phase::Idle,
        _ => Phase::Restarts,
    }
}

/// Where it is behind a packet that comes.
pub(crate) fn takes(role: Role, phase: &Phase, packet: &Packet) -> Phase
    requires { IsSmall phase.now }
    ensures { result ≡ definition.takes role phase.now packet.now }
{
    match phase {
        Phase::Idle => idle_takes(*packet),
        Phase::Calls(terms) => calls_takes(role, *terms, *packet),
        Phase::WasCalled(_) | Phase::WasReset(_) | Phase::WasCleared => ended_by(*packet, *phase),
        Phase::Talks(talk) => talk_takes(*talk, *packet),
        Phase::Resets(limits) => resets_takes(*limits, *packet),
        Phase::Clears => clears_takes(*packet),
        Phase::Restarts => restarts_takes(*packet),
        Phase::WasRestarted => Phase::WasRestarted,
    }
}

pub(crate) fn dropped(packet: Packet, phase: Phase) -> Option<Phase>
    ensures { result ≡ definition.dropped packet phase }
{
    match packet {
        Packet::Data { .. }
        | Packet::Rr(_)
        | Packet::Rnr(_)
        | Packet::Interrupt
        | Packet::InterruptConf
        | Packet::Elsewhere => Some(phase),
        _ => None,
    }
}

fn dropped_in_call(packet: Packet, phase: Phase) -> Option<Phase>
    ensures { result ≡ definition.dropped_in_call packet phase }
{
    match packet {
        Packet::Call(_) | Packet::Accept(_) => Some(phase),
        _ => dropped(packet, phase),
    }
}

fn talk_at_once(talk: Talk, packet: Packet) -> Option<Phase>
    requires { IsSmall (Talks talk) }
    ensures { result ≡ definition.talk_at_once talk packet }
{
    let next = Phase::Talks(heard(talk, packet));
    match packet {
        Packet::InterruptConf => if talk.is_out { Some(next) } else { None },
        _ => dropped_in_call(packet, next),
    }
}

/// Where it is behind a packet that comes and may be taken at once.
pub(crate) fn at_once(phase: &Phase, packet: &Packet) -> Option<Phase>
    requires { IsSmall phase.now }
    ensures { result ≡ definition.at_once phase.now packet.now }
{
    match phase {
        Phase::Talks(talk) => talk_at_once(*talk, *packet),
        Phase::Idle | Phase::Calls(_) => dropped(*packet, *phase),
        Phase::Resets(_) => dropped_in_call(*packet, *phase),
        Phase::Clears => match packet {
            Packet::Clear | Packet::ClearConf | Packet::Restart | Packet::RestartConf => None,
            _ => Some(Phase::Clears),
        },
        Phase::Restarts => match packet {
            Packet::Restart | Packet::RestartConf => None,
            _ => Some(Phase::Restarts),
        },
        _ => None,
    }
}

// ---- one state, with nothing on the way

/// Where its numbers aren't too large.
pub(crate) fn small(phase: Phase) -> Option<Phase>
    ensures same { result ≡ steps.small phase }
    ensures small { IfSome result (λ s. IsSmall s) }
{
    if is_large(phase) { None } else { Some(phase) }
}

fn small_in(phase: Option<Phase>) -> Option<Phase>
    ensures { result ≡ steps.small_in phase }
{
    match phase {
        Some(phase) => small(phase),
        None => None,
    }
}

/// Where it is behind a packet that it sends politely.
pub(crate) fn alone_sends(phase: Phase, packet: Packet) -> Option<Phase>
    requires { IsSmall phase }
    ensures { result ≡ steps.alone_sends phase packet }
{
    if is_polite(phase, packet) {
        small_in(sends(&phase, &packet))
    } else {
        None
    }
}

// ---- in flow control, as most are

/// Its numbers.
pub(crate) fn flow(phase: Phase) -> Option<Talk>
    ensures same { result ≡ steps.flow_in (steps.small phase) }
    ensures small { IfSome result (λ k. IsSmall (Talks k)) }
{
    match phase {
        Phase::Talks(talk) => if is_large(phase) { None } else { Some(talk) },
        _ => None,
    }
}

#[inline(always)]
fn flow_in(phase: Option<Phase>) -> Option<Talk>
    ensures { result ≡ steps.flow_in (steps.small_in phase) }
{
    match phase {
        Some(phase) => flow(phase),
        None => None,
    }
}

/// Its numbers behind a data packet, RR or RNR that it sends politely.
#[inline(always)]
pub(crate) fn flow_sends(talk: Talk, packet: Packet) -> Option<Talk>
    requires { IsSmall (Talks talk) }
    ensures { result ≡ steps.flow_sends talk packet }
{
    match packet {
        Packet::Data { q, m, ps, pr, size } => if is_polite(Phase::Talks(talk), packet) {
            flow_in(sends_data(nth(talk.told, pr), talk, q, m, ps, pr, size))
        } else {
            None
        },
        Packet::Rr(pr) | Packet::Rnr(pr) => flow_in(sends_ready(nth(talk.told, pr), talk, pr)),
        _ => None,
    }
}

/// Its numbers behind one that is taken at once.
pub(crate) fn flow_takes(talk: Talk, packet: Packet) -> Option<Talk>
    requires { IsSmall (Talks talk) }
    ensures { result ≡ steps.flow_takes talk packet }
{
    flow_in(talk_at_once(talk, packet))
}

// ---- beside the rules

/// Whether it keeps the window of the call, and M=1 in full packets alone.
pub(crate) fn is_polite(phase: Phase, packet: Packet) -> bool
    requires { IsSmall phase }
    ensures { result ≡ definition.is_polite phase packet }
{
    match (phase, packet) {
        (Phase::Talks(talk), Packet::Data { m, size, .. }) => {
            (talk.window == 0 || talk.sent < talk.acked + talk.window as u32)
                && (!m || talk.most <= size)
        }
        _ => true,
    }
}

/// Numbers go on behind a P(R) that is out of range.
fn unacked(talk: Talk) -> Talk
    ensures { result ≡ record talk { acked = definition.far; taken = definition.far } }
{
    Talk {
        acked: FAR,
        taken: FAR,
        ..talk
    }
}

fn next_sent(ps: u8, sent: u32) -> u32
    requires { sent < 2 ^ 31 }
    ensures { result ≡ definition.next_sent ps sent }
{
    if ps as u32 == sent % 8 {
        sent + 1
    } else {
        ps as u32 + 1
    }
}

fn talks_on(talk: Talk, packet: Packet) -> Option<Phase>
    requires { IsSmall (Talks talk) }
    ensures { result ≡ definition.talks_on talk packet }
{
    match packet {
        Packet::Data { q, m, ps, pr, .. } => {
            let t = nth(talk.told, pr);
            let may = may_ack(t, talk, pr) && may_number(talk, ps);
            if may {
                Some(Phase::Talks(talked(t, talk, q, m)))
            } else {
                Some(Phase::Talks(Talk {
                    sent: next_sent(ps, talk.sent),
                    acked: FAR,
                    taken: FAR,
                    begun: begun_by(m, q),
                    ..talk
                }))
            }
        }
        Packet::Rr(_) | Packet::Rnr(_) => Some(Phase::Talks(unacked(talk))),
        _ => None,
    }
}

/// Where numbers go on behind a packet that breaks a rule of them, of the size or of Q.
pub(crate) fn goes_on(phase: Phase, packet: Packet) -> Option<Phase>
    requires { IsSmall phase }
    ensures { result ≡ definition.goes_on phase packet }
{
    match phase {
        Phase::Talks(talk) => talks_on(talk, packet),
        _ => None,
    }
}

/// In the midst of a call, behind a data packet: what is acknowledged to it, and what it took, isn't known.
fn amidst(q: bool, m: bool, ps: u8, pr: u8) -> Talk
    ensures { result ≡ definition.amidst q m ps pr }
{
    Talk {
        most: 0,
        window: 0,
        sent: ps as u32 + 1,
        acked: FAR,
        taken: FAR,
        told: pr as u32,
        begun: begun_by(m, q),
        is_out: false,
        owed: FAR,
    }
}

/// Whether it is in no call, or in one that was seen to begin, or in which the other end took nine of its packets.
pub(crate) fn is_bound(phase: Phase) -> bool
    ensures { result ≡ steps.is_bound phase }
{
    match phase {
        Phase::Talks(talk) => talk.acked < FAR || talk.acked >= FAR + 16,
        _ => true,
    }
}

/// Where an end that may have been in any state is behind a packet that it sends, by the last one that it took; None
/// where that says nothing.
pub(crate) fn found(last: Option<Packet>, packet: Packet) -> Option<Phase>
    ensures { result ≡ definition.found last packet }
{
    match packet {
        Packet::Call(terms) => Some(Phase::Calls(terms)),
        Packet::Clear => Some(Phase::Clears),
        Packet::Restart => Some(Phase::Restarts),
        Packet::Accept(said) => match last {
            Some(Packet::Call(terms)) => Some(fresh(called_limits(terms, said))),
            _ => None,
        },
        Packet::ClearConf => match last {
            Some(Packet::Clear) => Some(Phase::Idle),
            _ => None,
        },
        Packet::RestartConf => match last {
            Some(Packet::Restart) => Some(Phase::Idle),
            _ => None,
        },
        Packet::Data { q, m, ps, pr, .. } => Some(Phase::Talks(amidst(q, m, ps, pr))),
        _ => None,
    }
}
