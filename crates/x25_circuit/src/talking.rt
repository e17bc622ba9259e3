//! The user's calls in data transfer. ITU-T X.25 (10/96), sections 4.3 and 4.4.
ghost use Rattle.std.specs.Prelude.{◌≡◌, OnErr, IsErrOf};
ghost use Rattle.x25_circuit.specs.Circuit.{CircuitSettings};
ghost use Rattle.x25_circuit.specs.Circuit.{Circuit as Channel};
ghost use Rattle.x25_circuit.specs.Calling.{outcome, Sends as CallSends, Interrupts, Resets};
ghost use Rattle.x25_circuit.specs.Calling.{ready_in};
ghost use Rattle.x25_circuit.specs.Request.{MayLack};
ghost use Rattle.x25_circuit.specs.code.FitsCircuit.{FitsCircuit, Keeps, KeepsCounts, SendsBy};

use crate::circuit::Circuit;
use crate::error::CircuitError;
use crate::owed::Owed;
use crate::requested::Requested;
use crate::state::State;
use x25_packet::Marks;

/// The most octets of an interrupt's user data.
pub(crate) const INTERRUPT_OCTETS: usize = 32;

impl Circuit {
    /// Lets a copy of a message wait that isn't longer than the longest, with these marks.
    ///
    /// 30 WrongState outside of p4 with d1, then 32 TooLong, then 31 Full exactly where 8 messages wait, and else 70
    /// alone.
    #[inline(always)]
    pub(crate) fn send(&mut self, marks: Marks, user: &[u8]) -> Result<(), CircuitError>
        ensures outcome { (c : CircuitSettings) (x : Channel) → FitsCircuit c self.old x
            → Keeps c self.new result (outcome c x (CallSends marks user.now)) }
        ensures keeps { KeepsCounts self.old self.new }
        ensures unchanged { OnErr result (self.new ≡ self.old) }
        ensures memory { IsErrOf result CircuitError.NoMemory → MayLack self.old (CallSends marks user.now) }
    {
        if let Some(error) = self.send_refusal(user.len()) {
            return Err(error);
        }
        self.transfer.push(marks, user)?;
        Ok(())
    }

    /// Sends an interrupt of 1 to 32 octets. It answers INTERRUPT.
    ///
    /// 30 WrongState outside of p4 with d1, then 34 BadParameter for another length, then 33 InterruptOutstanding.
    pub(crate) fn interrupt<'a>(&mut self, user: &'a [u8]) -> Result<Requested<'a>, CircuitError>
        ensures { SendsBy self.old self.new result (λ c x. outcome c x (Interrupts user.now)) }
    {
        if let Some(error) = self.interrupt_refusal(user) {
            return Err(error);
        }
        self.transfer.interrupt_out = true;
        Ok(Requested::Interrupt { user })
    }

    /// Resets the call, and drops what waits and what came in part. It answers RESET.
    ///
    /// 30 WrongState outside of p4 with d1, then 34 BadParameter where the cause is none that a user may give.
    pub(crate) fn reset<'a>(
        &mut self,
        cause: u8,
        diagnostic: u8,
    ) -> Result<Requested<'a>, CircuitError>
        ensures { SendsBy self.old self.new result (λ c x. outcome c x (Resets cause diagnostic)) }
    {
        if let Some(error) = self.reset_refusal(cause) {
            return Err(error);
        }
        self.begin_stretch(State::Resetting);
        Ok(Requested::Owed(Owed::Reset { cause, diagnostic }))
    }

    /// Says whether this end is ready to receive data packets, also where that was so before. It answers RR or RNR.
    ///
    /// 30 WrongState outside of p4 with d1.
    pub(crate) fn say<'a>(&mut self, is_ready: bool) -> Result<Requested<'a>, CircuitError>
        ensures { SendsBy self.old self.new result (λ c x. ready_in x x.state is_ready) }
    {
        if let Some(error) = self.closed() {
            return Err(error);
        }
        self.transfer.own_ready = is_ready;
        Ok(Requested::Owed(self.status()))
    }
}
