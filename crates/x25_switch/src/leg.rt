//! What a call asks of the station of a leg.
ghost use Rattle.std.specs.Prelude.{◌≡◌, None, IfSome, IfNone};
ghost use Rattle.x25_crossing.specs.Crossing.{two_of};
ghost use Rattle.x25_crossing.specs.code.Plain.{plain as plain_call};
ghost use Rattle.x25_station.specs.Command.{command_of};
ghost use Rattle.x25_switch.specs.Leg.{wanted};
ghost use Rattle.x25_switch.specs.code.Legs.{Asks, Commanded, Leaves};

use x25_crossing::{Ask, Crossing, Flow, Side};
use x25_station::{Cmd, Role, Station, StationError, Step};

/// What is asked at a leg, of each kind at most one thing at a time.
#[derive(Clone, Copy, Debug, PartialEq, Eq)]
pub enum Kind {
    /// An acceptance, a reset or a clear.
    Control,
    Interrupt,
    Message,
    /// That messages are to come, or to wait.
    Flow,
}

/// A command of a station.
pub(crate) fn command_to(
    station: &mut Station,
    command: Cmd<'_>,
    step: &mut Step,
) -> Result<(), StationError>
    ensures { Commanded station.old station.new step.new result (command_of command.entry) }
{
    station.command(command, step)
}

// An acceptance, a reset or a clear.
fn control(
    call: &mut Crossing,
    side: Side,
    role: Role,
    channel: u16,
    station: &mut Station,
    step: &mut Step,
) -> Option<Result<(), StationError>>
    ensures asks { IfSome result (λ answer.
        Asks call.old side Kind.Control role channel station.old station.new step.new answer) }
    ensures call { IfSome result (λ answer. Leaves call.old side Kind.Control answer call.new) }
    ensures none { IfNone result (wanted Kind.Control role channel (two_of side (plain_call call.old)) ≡ None) }
    ensures stays { IfNone result (station.new ≡ station.old) }
    ensures same { IfNone result (call.new ≡ call.old) }
{
    let command = match call.asks(side, role)? {
        Ask::Call => return None,
        Ask::Accept => Cmd::Accept {
            channel,
            params: None,
            given: None,
        },
        Ask::Reset { cause, diagnostic } => Cmd::Reset {
            channel,
            cause,
            diagnostic,
        },
        Ask::Clear { cause, diagnostic } => Cmd::Clear {
            channel,
            cause,
            diagnostic,
            given: None,
        },
    };
    let answer = command_to(station, command, step);
    if answer.is_ok() {
        call.asked(side);
    }
    Some(answer)
}

// The interrupt that goes out next.
fn interrupt(
    call: &mut Crossing,
    side: Side,
    channel: u16,
    station: &mut Station,
    step: &mut Step,
) -> Option<Result<(), StationError>>
    ensures asks { (role : Role) → IfSome result (λ answer.
        Asks call.old side Kind.Interrupt role channel station.old station.new step.new answer) }
    ensures call { IfSome result (λ answer. Leaves call.old side Kind.Interrupt answer call.new) }
    ensures none { (role : Role)
        → IfNone result (wanted Kind.Interrupt role channel (two_of side (plain_call call.old)) ≡ None) }
    ensures stays { IfNone result (station.new ≡ station.old) }
    ensures same { IfNone result (call.new ≡ call.old) }
{
    let user = call.interrupt(side)?.octets();
    let answer = command_to(station, Cmd::Interrupt { channel, user }, step);
    if answer.is_ok() {
        call.interrupt_sent(side);
    }
    Some(answer)
}

// The message that goes out next.
fn message(
    call: &mut Crossing,
    side: Side,
    channel: u16,
    station: &mut Station,
    step: &mut Step,
) -> Option<Result<(), StationError>>
    ensures asks { (role : Role) → IfSome result (λ answer.
        Asks call.old side Kind.Message role channel station.old station.new step.new answer) }
    ensures call { IfSome result (λ answer. Leaves call.old side Kind.Message answer call.new) }
    ensures none { (role : Role)
        → IfNone result (wanted Kind.Message role channel (two_of side (plain_call call.old)) ≡ None) }
    ensures stays { IfNone result (station.new ≡ station.old) }
    ensures same { IfNone result (call.new ≡ call.old) }
{
    let held = call.message(side)?;
    let marks = held.marks();
    let command = Cmd::Send {
        channel,
        q: marks.q,
        d: marks.d,
        user: held.octets(),
    };
    let answer = command_to(station, command, step);
    if answer.is_ok() {
        call.sent(side);
    }
    Some(answer)
}

// That messages are to come, or to wait.
fn flow(
    call: &mut Crossing,
    side: Side,
    channel: u16,
    station: &mut Station,
    step: &mut Step,
) -> Option<Result<(), StationError>>
    ensures asks { (role : Role) → IfSome result (λ answer.
        Asks call.old side Kind.Flow role channel station.old station.new step.new answer) }
    ensures call { IfSome result (λ answer. Leaves call.old side Kind.Flow answer call.new) }
    ensures none { (role : Role)
        → IfNone result (wanted Kind.Flow role channel (two_of side (plain_call call.old)) ≡ None) }
    ensures stays { IfNone result (station.new ≡ station.old) }
    ensures same { IfNone result (call.new ≡ call.old) }
{
    let command = match call.flow(side)? {
        Flow::Ready => Cmd::Ready { channel },
        Flow::NotReady => Cmd::NotReady { channel },
    };
    let answer = command_to(station, command, step);
    if answer.is_ok() {
        call.flowed(side);
    }
    Some(answer)
}

/// Asks the station of a leg, which is this end and where the leg has this channel, for the next thing of a kind. None
/// where the call has none; nothing is asked then. What the station accepts the call is told; what it refuses stays.
pub fn ask(
    call: &mut Crossing,
    side: Side,
    kind: Kind,
    role: Role,
    channel: u16,
    station: &mut Station,
    step: &mut Step,
) -> Option<Result<(), StationError>>
    ensures asks { IfSome result
        (λ answer. Asks call.old side kind role channel station.old station.new step.new answer) }
    ensures call { IfSome result (λ answer. Leaves call.old side kind answer call.new) }
    ensures none { IfNone result (wanted kind role channel (two_of side (plain_call call.old)) ≡ None) }
    ensures stays { IfNone result (station.new ≡ station.old) }
    ensures same { IfNone result (call.new ≡ call.old) }
{
    match kind {
        Kind::Control => control(call, side, role, channel, station, step),
        Kind::Interrupt => interrupt(call, side, channel, station, step),
        Kind::Message => message(call, side, channel, station, step),
        Kind::Flow => flow(call, side, channel, station, step),
    }
}
