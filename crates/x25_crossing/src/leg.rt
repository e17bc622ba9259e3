ghost use Rattle.std.specs.Prelude.{◌≡◌};

use crate::stage::Stage;
use std::alloc::{AllocError, Global};
use x25_relay::Relay;

/// How many octets of interrupts may wait: sixteen of 32.
const INTERRUPT_OCTETS: usize = 512;

/// A leg of a call, and what came by it and waits to go out by the other one.
#[derive(Drop)]
pub(crate) struct Leg {
    pub(crate) stage: Stage,
    pub(crate) messages: Relay,
    pub(crate) interrupts: Relay,
    /// The end of the leg was told to wait.
    pub(crate) is_slowed: bool,
    ghost room: { interrupts.most ≡ 512 },
}

impl Leg {
    ghost use Rattle.std.specs.Prelude.{IfOk};
    ghost use Rattle.x25_crossing.specs.Crossing.{empty, fresh};
    ghost use Rattle.x25_crossing.specs.Told.{at_stage};
    ghost use Rattle.x25_crossing.specs.Asking.{is_done};
    ghost use Rattle.x25_crossing.specs.code.Plain.{plain_leg};

    /// A leg by which nothing came, with room for so many octets of messages. Err: no memory.
    pub(crate) fn new(alloc: Global, most: usize, stage: Stage) -> Result<Leg, AllocError>
        ensures { IfOk result (λ leg. plain_leg leg ≡ empty most stage) }
    {
        Ok(Leg {
            stage,
            messages: Relay::new(alloc, most)?,
            interrupts: Relay::new(alloc, INTERRUPT_OCTETS)?,
            is_slowed: false,
        })
    }

    /// Comes to a stage.
    pub(crate) fn set(&mut self, stage: Stage)
        ensures { plain_leg self.new ≡ at_stage stage (plain_leg self.old) }
    {
        self.stage = stage;
    }

    /// Comes to a stage in which nothing waits that came by it.
    pub(crate) fn renew(&mut self, stage: Stage)
        ensures { plain_leg self.new ≡ fresh stage (plain_leg self.old) }
    {
        self.stage = stage;
        self.messages.clear();
        self.interrupts.clear();
        self.is_slowed = false;
    }

    /// Whether nothing waits that came by it.
    pub(crate) fn is_done(&self) -> bool
        ensures { result ≡ is_done (plain_leg self.now) }
    {
        self.messages.front().is_none() && self.interrupts.front().is_none()
    }
}
