//! What is to be asked of the station of the first of two legs, and what becomes of them where that is accepted.
ghost use Rattle.std.specs.Prelude.{◌≡◌, option_copied};
ghost use Rattle.x25_crossing.specs.Asking.{asks_of, flow_of, flowed_leg, goes_out};
ghost use Rattle.x25_crossing.specs.Asking.{interrupt_of, interrupt_sent_two, message_of, sent_two, stage_asked};
ghost use Rattle.x25_crossing.specs.Told.{at_stage};
ghost use Rattle.x25_crossing.specs.code.Plain.{plain_leg, plain_two};

use crate::ask::{Ask, Flow};
use crate::cause::{clear_goes_on, reset_goes_on};
use crate::leg::Leg;
use crate::stage::Stage;
use x25_circuit::Role;
use x25_relay::Held;

/// A call, an acceptance, a reset or a clear.
pub(crate) fn asks(role: Role, this: &Leg, other: &Leg) -> Option<Ask>
    ensures { result ≡ asks_of role (plain_two this.now other.now) }
{
    match this.stage {
        Stage::Calls => Some(Ask::Call),
        Stage::Answers => Some(Ask::Accept),
        Stage::Resets { cause, diagnostic } => Some(Ask::Reset {
            cause: reset_goes_on(role, cause),
            diagnostic,
        }),
        Stage::Clears { cause, diagnostic } => {
            if !other.is_done() {
                return None;
            }
            Some(Ask::Clear {
                cause: clear_goes_on(role, cause),
                diagnostic,
            })
        }
        _ => None,
    }
}

fn stage_asked(stage: Stage) -> Stage
    ensures { result ≡ stage_asked stage }
{
    match stage {
        Stage::Calls => Stage::Called,
        Stage::Answers => Stage::Open,
        Stage::Resets { .. } => Stage::Resetting,
        Stage::Clears { .. } => Stage::Gone,
        _ => stage,
    }
}

/// That is accepted.
pub(crate) fn asked(this: &mut Leg)
    ensures { plain_leg this.new ≡ at_stage (stage_asked this.old.stage) (plain_leg this.old) }
{
    this.set(stage_asked(this.stage));
}

fn goes_out(stage: Stage) -> bool
    ensures { result ≡ goes_out stage }
{
    matches!(stage, Stage::Open | Stage::Clears { .. })
}

/// The message that goes out next by this leg.
pub(crate) fn message<'a>(this: &Leg, other: &'a Leg) -> Option<&'a Held>
    ensures { option_copied result ≡ message_of (plain_two this.now other.now) }
{
    if !goes_out(this.stage) {
        return None;
    }
    other.messages.front()
}

/// It went out.
pub(crate) fn sent(this: &Leg, other: &mut Leg)
    ensures { plain_two this.now other.new ≡ sent_two (plain_two this.now other.old) }
{
    if goes_out(this.stage) {
        other.messages.pass();
    }
}

/// The interrupt that goes out next by this leg.
pub(crate) fn interrupt<'a>(this: &Leg, other: &'a Leg) -> Option<&'a Held>
    ensures { option_copied result ≡ interrupt_of (plain_two this.now other.now) }
{
    if !goes_out(this.stage) {
        return None;
    }
    other.interrupts.front()
}

/// It went out.
pub(crate) fn interrupt_sent(this: &Leg, other: &mut Leg)
    ensures { plain_two this.now other.new ≡ interrupt_sent_two (plain_two this.now other.old) }
{
    if goes_out(this.stage) {
        other.interrupts.pass();
    }
}

/// What the end of the leg is to be told.
pub(crate) fn flow(this: &Leg) -> Option<Flow>
    ensures { result ≡ flow_of (plain_leg this.now) }
{
    if this.stage != Stage::Open {
        return None;
    }
    if this.is_slowed {
        return match this.messages.front() {
            Some(_) => None,
            None => Some(Flow::Ready),
        };
    }
    if this.messages.is_slow() {
        Some(Flow::NotReady)
    } else {
        None
    }
}

/// It was told that.
pub(crate) fn flowed(this: &mut Leg)
    ensures { plain_leg this.new ≡ flowed_leg (flow_of (plain_leg this.old)) (plain_leg this.old) }
{
    if flow(this).is_some() {
        this.is_slowed = !this.is_slowed;
    }
}
