ghost use Rattle.std.specs.Prelude.{◌≡◌, true, IfOk, OnOk, OnErr, option_copied};
ghost use Rattle.x25_crossing.specs.Asking.{asked_at, asks_of, flow_of, flowed_at, interrupt_of, interrupt_sent_at};
ghost use Rattle.x25_crossing.specs.Asking.{is_over, message_of, sent_at};
ghost use Rattle.x25_crossing.specs.Crossing.{leg_at, new_crossing, two_of};
ghost use Rattle.x25_crossing.specs.Told.{lacks_at, may_lack, plain_told, told_at};
ghost use Rattle.x25_crossing.specs.code.Plain.{plain};

use crate::ask::{Ask, Flow};
use crate::leg::Leg;
use crate::side::Side;
use crate::stage::Stage;
use crate::told::Told;
use crate::{asking, rows};
use std::alloc::{AllocError, Global};
use x25_circuit::Role;
use x25_relay::Held;

/// A call through a switch: its two legs, and of each what came by it and waits to go out by the other.
///
/// What is told at a leg it is `told`. Then its owner asks the stations of both legs for what it has to ask, and says
/// what they accepted. What is refused stays to be asked.
#[derive(Drop)]
pub struct Crossing {
    pub(crate) near: Leg,
    pub(crate) far: Leg,
}

impl Crossing {
    /// A call that came by the near leg, and is to be made by the far one, with room for so many octets of messages
    /// each way. Err: no memory.
    pub fn new(alloc: Global, most: usize) -> Result<Crossing, AllocError>
        ensures { IfOk result (λ crossing. plain crossing ≡ new_crossing most) }
    {
        Ok(Crossing {
            near: Leg::new(alloc, most, Stage::Came)?,
            far: Leg::new(alloc, most, Stage::Calls)?,
        })
    }

    /// How a leg stands.
    pub fn stage(&self, side: Side) -> Stage
        ensures { result ≡ (leg_at side (plain self.now)).stage }
    {
        match side {
            Side::Near => self.near.stage,
            Side::Far => self.far.stage,
        }
    }

    /// Takes what is told at a leg.
    ///
    /// Err: memory was refused for a message or an interrupt. Both legs are to be reset then, as where too much waits.
    pub fn told(&mut self, side: Side, told: Told<'_>) -> Result<(), AllocError>
        ensures told { OnOk result (plain self.new ≡ told_at side (plain_told told.entry) (plain self.old)) }
        ensures lacks { OnErr result (plain self.new ≡ lacks_at side (plain self.old)) }
        ensures only { OnErr result (may_lack (plain_told told.entry) ≡ true) }
    {
        match side {
            Side::Near => rows::told(&mut self.near, &mut self.far, told),
            Side::Far => rows::told(&mut self.far, &mut self.near, told),
        }
    }

    /// What is to be asked of the station of a leg, which is this end, before messages go.
    pub fn asks(&self, side: Side, role: Role) -> Option<Ask>
        ensures { result ≡ asks_of role (two_of side (plain self.now)) }
    {
        match side {
            Side::Near => asking::asks(role, &self.near, &self.far),
            Side::Far => asking::asks(role, &self.far, &self.near),
        }
    }

    /// The station of a leg has accepted what was to be asked.
    pub fn asked(&mut self, side: Side)
        ensures { plain self.new ≡ asked_at side (plain self.old) }
    {
        match side {
            Side::Near => asking::asked(&mut self.near),
            Side::Far => asking::asked(&mut self.far),
        }
    }

    /// The message that is to go out next by a leg.
    pub fn message(&self, side: Side) -> Option<&Held>
        ensures { option_copied result ≡ message_of (two_of side (plain self.now)) }
    {
        match side {
            Side::Near => asking::message(&self.near, &self.far),
            Side::Far => asking::message(&self.far, &self.near),
        }
    }

    /// The station of a leg has taken that message.
    pub fn sent(&mut self, side: Side)
        ensures { plain self.new ≡ sent_at side (plain self.old) }
    {
        match side {
            Side::Near => asking::sent(&self.near, &mut self.far),
            Side::Far => asking::sent(&self.far, &mut self.near),
        }
    }

    /// The interrupt that is to go out next by a leg.
    pub fn interrupt(&self, side: Side) -> Option<&Held>
        ensures { option_copied result ≡ interrupt_of (two_of side (plain self.now)) }
    {
        match side {
            Side::Near => asking::interrupt(&self.near, &self.far),
            Side::Far => asking::interrupt(&self.far, &self.near),
        }
    }

    /// The station of a leg has taken that interrupt.
    pub fn interrupt_sent(&mut self, side: Side)
        ensures { plain self.new ≡ interrupt_sent_at side (plain self.old) }
    {
        match side {
            Side::Near => asking::interrupt_sent(&self.near, &mut self.far),
            Side::Far => asking::interrupt_sent(&self.far, &mut self.near),
        }
    }

    /// What the end of a leg is to be told of the messages that come by it.
    pub fn flow(&self, side: Side) -> Option<Flow>
        ensures { result ≡ flow_of (leg_at side (plain self.now)) }
    {
        match side {
            Side::Near => asking::flow(&self.near),
            Side::Far => asking::flow(&self.far),
        }
    }

    /// The station of a leg has told it that.
    pub fn flowed(&mut self, side: Side)
        ensures { plain self.new ≡ flowed_at side (plain self.old) }
    {
        match side {
            Side::Near => asking::flowed(&mut self.near),
            Side::Far => asking::flowed(&mut self.far),
        }
    }

    /// Whether neither leg stands.
    pub fn is_over(&self) -> bool
        ensures { result ≡ is_over (plain self.now) }
    {
        self.near.stage == Stage::Gone && self.far.stage == Stage::Gone
    }
}
