//! The table: what becomes of two legs by what is told at the first one.
ghost use Rattle.std.specs.Prelude.{◌≡◌, true, OnOk, OnErr};
ghost use Rattle.x25_crossing.specs.Told.{both_reset, congested, gone_beside, left_with, may_lack, plain_told};
ghost use Rattle.x25_crossing.specs.Told.{reset_with, row_lacks};
ghost use Rattle.x25_crossing.specs.Told.{row_collided, row_connected, row_delivered, row_ended, row_interrupted};
ghost use Rattle.x25_crossing.specs.Told.{row_lingered, row_refused, row_resets_itself, row_was_reset, told_two};
ghost use Rattle.x25_crossing.specs.Told.{unmarked};
ghost use Rattle.x25_crossing.specs.code.Plain.{plain_leg, plain_two};

use crate::cause::restart_goes_on;
use crate::leg::Leg;
use crate::stage::Stage;
use crate::told::Told;
use std::alloc::AllocError;
use x25_circuit::Marks;
use x25_relay::RelayError;

// The called leg has answered.
fn connected(this: &mut Leg, other: &mut Leg)
    ensures { plain_two this.new other.new ≡ row_connected this.old.stage (plain_two this.old other.old) }
{
    if this.stage == Stage::Called {
        this.set(Stage::Open);
        if other.stage == Stage::Came {
            other.set(Stage::Answers);
        }
    }
}

// The call that was made is dropped, and is to be made again.
fn collided(this: &mut Leg, other: &mut Leg)
    ensures { plain_two this.new other.new ≡ row_collided this.old.stage (plain_two this.old other.old) }
{
    if this.stage == Stage::Called {
        this.set(Stage::Calls);
    }
}

// The stage of a leg where the call ends at the other one.
fn left_with(cause: u8, diagnostic: u8, stage: Stage) -> Stage
    ensures { result ≡ left_with cause diagnostic stage }
{
    match stage {
        Stage::Calls | Stage::Gone => Stage::Gone,
        Stage::Clears { .. } => stage,
        _ => Stage::Clears { cause, diagnostic },
    }
}

// The leg is gone: what came by it goes out first, where the other one is open.
fn go(this: &mut Leg, beside: Stage)
    ensures { plain_leg this.new ≡ gone_beside beside (plain_leg this.old) }
{
    if beside == Stage::Open {
        this.stage = Stage::Gone;
        this.is_slowed = false;
    } else {
        this.renew(Stage::Gone);
    }
}

// The call has ended at this leg.
fn ended(this: &mut Leg, other: &mut Leg, cause: u8, diagnostic: u8)
    ensures { plain_two this.new other.new
        ≡ row_ended cause diagnostic this.old.stage (plain_two this.old other.old) }
{
    match this.stage {
        Stage::Calls | Stage::Gone => {}
        _ => {
            go(this, other.stage);
            other.renew(left_with(cause, diagnostic, other.stage));
        }
    }
}

// A station refuses for good what was asked.
fn refused(this: &mut Leg, other: &mut Leg, cause: u8, diagnostic: u8)
    ensures { plain_two this.new other.new
        ≡ row_refused cause diagnostic this.old.stage (plain_two this.old other.old) }
{
    if this.stage != Stage::Gone {
        this.renew(left_with(cause, diagnostic, this.stage));
        other.renew(left_with(cause, diagnostic, other.stage));
    }
}

// What waits for this leg has waited for long enough.
fn lingered(this: &mut Leg, other: &mut Leg)
    ensures { plain_two this.new other.new ≡ row_lingered this.old.stage (plain_two this.old other.old) }
{
    if let Stage::Clears { .. } = this.stage {
        other.renew(other.stage);
    }
}

// The stage of a leg where a stretch ends at the other one.
fn reset_with(cause: u8, diagnostic: u8, stage: Stage) -> Stage
    ensures { result ≡ reset_with cause diagnostic stage }
{
    match stage {
        Stage::Open => Stage::Resets { cause, diagnostic },
        _ => stage,
    }
}

// A stretch has ended at this leg.
fn both_reset(this: &mut Leg, other: &mut Leg, stage: Stage, cause: u8, diagnostic: u8)
    ensures { plain_two this.new other.new ≡ both_reset stage cause diagnostic (plain_two this.old other.old) }
{
    this.renew(stage);
    other.renew(reset_with(cause, diagnostic, other.stage));
}

// More came than there is room for: 7, network congestion.
fn congest(this: &mut Leg, other: &mut Leg)
    ensures { plain_two this.new other.new ≡ congested (plain_two this.old other.old) }
{
    let stage = Stage::Resets {
        cause: 7,
        diagnostic: 0,
    };
    both_reset(this, other, stage, 7, 0);
}

// The other end has reset this leg, or confirmed a reset.
fn was_reset(this: &mut Leg, other: &mut Leg, cause: u8, diagnostic: u8)
    ensures { plain_two this.new other.new
        ≡ row_was_reset cause diagnostic this.old.stage (plain_two this.old other.old) }
{
    match this.stage {
        Stage::Open => both_reset(this, other, Stage::Open, cause, diagnostic),
        Stage::Resets { .. } | Stage::Resetting => this.set(Stage::Open),
        _ => {}
    }
}

// The station resets this leg.
fn resets_itself(this: &mut Leg, other: &mut Leg, diagnostic: u8)
    ensures { plain_two this.new other.new
        ≡ row_resets_itself diagnostic this.old.stage (plain_two this.old other.old) }
{
    match this.stage {
        Stage::Open => both_reset(this, other, Stage::Resetting, 5, diagnostic),
        Stage::Resets { .. } => this.set(Stage::Resetting),
        _ => {}
    }
}

// A message has come by this leg. Err: no memory; it is too much then.
fn delivered(this: &mut Leg, other: &mut Leg, marks: Marks, user: &[u8]) -> Result<(), AllocError>
    ensures told { OnOk result (plain_two this.new other.new
        ≡ row_delivered (record { marks = marks; user = user.now }) this.old.stage (plain_two this.old other.old)) }
    ensures lacks { OnErr result (plain_two this.new other.new
        ≡ row_lacks this.old.stage (plain_two this.old other.old)) }
{
    if this.stage != Stage::Open {
        return Ok(());
    }
    match this.messages.take(marks, user) {
        Ok(()) => Ok(()),
        Err(RelayError::NoMemory) => {
            congest(this, other);
            Err(AllocError)
        }
        Err(_) => {
            congest(this, other);
            Ok(())
        }
    }
}

// An interrupt has come by this leg. Err: as above.
fn interrupted(this: &mut Leg, other: &mut Leg, user: &[u8]) -> Result<(), AllocError>
    ensures told { OnOk result (plain_two this.new other.new
        ≡ row_interrupted (unmarked user.now) this.old.stage (plain_two this.old other.old)) }
    ensures lacks { OnErr result (plain_two this.new other.new
        ≡ row_lacks this.old.stage (plain_two this.old other.old)) }
{
    if this.stage != Stage::Open {
        return Ok(());
    }
    let unmarked = Marks { q: false, d: false };
    match this.interrupts.take(unmarked, user) {
        Ok(()) => Ok(()),
        Err(RelayError::NoMemory) => {
            congest(this, other);
            Err(AllocError)
        }
        Err(_) => {
            congest(this, other);
            Ok(())
        }
    }
}

/// What is told at a leg. Err: no memory for what came; both legs are to be reset then, as where it is too much.
pub(crate) fn told(this: &mut Leg, other: &mut Leg, told: Told<'_>) -> Result<(), AllocError>
    ensures told { OnOk result (plain_two this.new other.new
        ≡ told_two (plain_told told.entry) (plain_two this.old other.old)) }
    ensures lacks { OnErr result (plain_two this.new other.new
        ≡ row_lacks this.old.stage (plain_two this.old other.old)) }
    ensures only { OnErr result (may_lack (plain_told told.entry) ≡ true) }
{
    match told {
        Told::Connected => connected(this, other),
        Told::Collided => collided(this, other),
        Told::Cleared { cause, diagnostic } => ended(this, other, cause, diagnostic),
        Told::ClearDone => ended(this, other, 19, 49),
        Told::ClearFault { diagnostic } => ended(this, other, 19, diagnostic),
        Told::Restarted { cause, diagnostic } => {
            ended(this, other, restart_goes_on(cause), diagnostic)
        }
        Told::Lost => ended(this, other, 9, 0),
        Told::WasReset { cause, diagnostic } => was_reset(this, other, cause, diagnostic),
        Told::ResetDone => was_reset(this, other, 5, 0),
        Told::ResetFault { diagnostic } => resets_itself(this, other, diagnostic),
        Told::Delivered { marks, user } => return delivered(this, other, marks, user),
        Told::Interrupted { user } => return interrupted(this, other, user),
        Told::Refused { cause, diagnostic } => refused(this, other, cause, diagnostic),
        Told::Lingered => lingered(this, other),
    }
    Ok(())
}
