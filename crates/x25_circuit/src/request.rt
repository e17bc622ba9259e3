//! What the user of a circuit asks for, as one type.
ghost use Rattle.std.specs.Prelude.{◌≡◌, ◌≢◌, ◌≤◌, ◌<◌, Bool, ℕ, List, true, false, OnErr, IfOk, IfSome, IfNone, Some};
ghost use Rattle.std.specs.Prelude.{None};
ghost use Rattle.std.specs.Prelude.{IsErrOf};
ghost use Rattle.std.specs.Prelude.{length};
ghost use Rattle.x25_packet.specs.declared.marks.Marks.{Marks};
ghost use Rattle.x25_packet.specs.Spelling.{IsInRange};
ghost use Rattle.x25_circuit.specs.Circuit.{CircuitSettings};
ghost use Rattle.x25_circuit.specs.Circuit.{Circuit as Channel};
ghost use Rattle.x25_circuit.specs.Calling.{outcome, Accepts, clear_in, send_in, interrupt_in, reset_in};
ghost use Rattle.x25_circuit.specs.Calling.{ready_in};
ghost use Rattle.x25_circuit.specs.Cause.{may_clear_for, may_reset_for};
ghost use Rattle.x25_circuit.specs.code.FitsCircuit.{FitsCircuit, Sends, clears_of, resets_of};
ghost use Rattle.x25_circuit.specs.Queue.{waiting};
ghost use Rattle.x25_circuit.specs.Request.{plain_answer, plain_request, refusal_of, with_packet, AnswersRequest};
ghost use Rattle.x25_circuit.specs.Request.{MayPut, MayLack};
ghost use Rattle.x25_circuit.specs.code.Replies.{IsControl, IsSendable, plain_sent};

use crate::cause::{may_clear_for, may_reset_for};
use crate::circuit::Circuit;
use crate::error::CircuitError;
use crate::proposal::Proposal;
use crate::queue::PLACES;
use crate::requested::Requested;
use crate::state::State;
use crate::talking::INTERRUPT_OCTETS;
use x25_packet::Marks;

/// A call of the user of a circuit. What it says is borrowed.
#[derive(Clone, Copy, Debug)]
pub enum Request<'a> {
    Call {
        called: &'a str,
        calling: &'a str,
        user: &'a [u8],
        proposal: &'a Proposal,
    },
    /// None accepts what is proposed.
    Accept {
        answer: Option<&'a Proposal>,
    },
    Clear {
        cause: u8,
        diagnostic: u8,
    },
    Send {
        marks: Marks,
        user: &'a [u8],
    },
    Interrupt {
        user: &'a [u8],
    },
    Reset {
        cause: u8,
        diagnostic: u8,
    },
    Ready,
    NotReady,
}

// A packet that is sent is one that there may be.
fn with_packet<'a>(
    answer: Result<Requested<'a>, CircuitError>,
) -> Result<Option<Requested<'a>>, CircuitError>
    ensures { result ≡ with_packet answer.entry }
{
    Ok(Some(answer?))
}

impl Circuit {
    /// Does what is asked. It answers the packet to send, where there is one.
    ///
    /// 30 WrongState where the state doesn't allow it: a call outside of p1, an acceptance where no call came, a clear
    /// in p1 and where this end's CLEAR isn't confirmed yet, and all others outside of p4 with d1. Then of a message 32
    /// TooLong where it has more octets than the longest and 31 Full where 8 wait, of an interrupt 34 BadParameter
    /// where it hasn't 1 to 32 octets and 33 InterruptOutstanding, of a call 34 BadParameter where an address isn't 0
    /// to 15 digits, the user data is more than 16 octets (128 where it may be long), a packet size isn't 4 to 12 or a
    /// window isn't 1 to 7, of an acceptance 34 where a value isn't from the proposed one to the default, and of a
    /// clear or a reset 34 where the cause is none that the user of this end may give. Else 70 alone, and that for a
    /// message, which is copied, and for a call and an acceptance, where the circuit had no call yet for which the
    /// memory of messages that come was made. The circuit is as before then. No request changes a count.
    #[inline(always)]
    pub fn ask<'a>(&mut self, request: Request<'a>) -> Result<Option<Requested<'a>>, CircuitError>
        ensures outcome { (c : CircuitSettings) (x : Channel) → FitsCircuit c self.old x
            → AnswersRequest c self.new result (outcome c x (plain_request request.entry)) }
        ensures range { IfOk result (λ packet. IsSendable (plain_sent packet)) }
        ensures control { IfOk result (λ packet. IsControl (plain_sent packet)) }
        ensures at_once { IfOk result (λ packet. MayPut (plain_request request.entry) packet) }
        ensures clears { clears_of self.new ≡ clears_of self.old }
        ensures resets { resets_of self.new ≡ resets_of self.old }
        ensures unchanged { OnErr result (self.new ≡ self.old) }
        ensures memory { IsErrOf result CircuitError.NoMemory → MayLack self.old (plain_request request.entry) }
    {
        match request {
            Request::Call {
                called,
                calling,
                user,
                proposal,
            } => with_packet(self.call(called, calling, user, proposal)),
            Request::Accept { answer } => with_packet(self.accept(answer)),
            Request::Clear { cause, diagnostic } => with_packet(self.clear(cause, diagnostic)),
            Request::Send { marks, user } => {
                self.send(marks, user)?;
                Ok(None)
            }
            Request::Interrupt { user } => with_packet(self.interrupt(user)),
            Request::Reset { cause, diagnostic } => with_packet(self.reset(cause, diagnostic)),
            Request::Ready => with_packet(self.say(true)),
            Request::NotReady => with_packet(self.say(false)),
        }
    }

    /// Why `ask` would refuse this now, if it would.
    pub fn refusal(&self, request: &Request<'_>) -> Option<CircuitError>
        ensures { (c : CircuitSettings) (x : Channel) → FitsCircuit c self.now x
            → result ≡ refusal_of (outcome c x (plain_request request.now)) }
    {
        match request {
            Request::Call {
                called,
                calling,
                user,
                proposal,
            } => self
                .call_fields(called, calling, user, proposal.params())
                .err(),
            Request::Accept { answer } => self.accepted(*answer).err(),
            Request::Clear { cause, .. } => self.clear_refusal(*cause),
            Request::Send { user, .. } => self.send_refusal(user.len()),
            Request::Interrupt { user } => self.interrupt_refusal(user),
            Request::Reset { cause, .. } => self.reset_refusal(*cause),
            Request::Ready | Request::NotReady => self.closed(),
        }
    }

    pub(crate) fn clear_refusal(&self, cause: u8) -> Option<CircuitError>
        ensures refusal { (c : CircuitSettings) (x : Channel) (diagnostic : ℕ) → FitsCircuit c self.now x
            → result ≡ refusal_of (clear_in c x x.state cause diagnostic) }
        ensures not_free { IfNone result (self.now.state ≢ State.Free) }
        ensures not_clearing { IfNone result (self.now.state ≢ State.Clearing) }
        ensures given { IfNone result (may_clear_for self.now.role cause ≡ true) }
        ensures kinds { IfSome result (λ e. e ≢ CircuitError.NoMemory) }
    {
        let may_give = may_clear_for(self.role, cause);
        match self.state {
            State::Free | State::Clearing => Some(CircuitError::WrongState),
            _ if may_give => None,
            _ => Some(CircuitError::BadParameter),
        }
    }

    pub(crate) fn reset_refusal(&self, cause: u8) -> Option<CircuitError>
        ensures refusal { (c : CircuitSettings) (x : Channel) (diagnostic : ℕ) → FitsCircuit c self.now x
            → result ≡ refusal_of (reset_in c x x.state cause diagnostic) }
        ensures open { IfNone result (self.now.state ≡ State.Open) }
        ensures given { IfNone result (may_reset_for self.now.role cause ≡ true) }
        ensures kinds { IfSome result (λ e. e ≢ CircuitError.NoMemory) }
    {
        let may_give = may_reset_for(self.role, cause);
        match self.state {
            State::Open if may_give => None,
            State::Open => Some(CircuitError::BadParameter),
            _ => Some(CircuitError::WrongState),
        }
    }

    pub(crate) fn send_refusal(&self, count: usize) -> Option<CircuitError>
        ensures refusal { (c : CircuitSettings) (x : Channel) (marks : Marks) (user : List ℕ) → length user ≡ count
            → FitsCircuit c self.now x → result ≡ refusal_of (send_in c x x.state marks user) }
        ensures open { IfNone result (self.now.state ≡ State.Open) }
        ensures longest { IfNone result (count ≤ self.now.transfer.partial.longest) }
        ensures short { IfNone result (count ≤ 65535) }
        ensures few { IfNone result (length (waiting self.now.transfer.queue) < 8) }
        ensures kinds { IfSome result (λ e. e ≢ CircuitError.NoMemory) }
    {
        let longest = self.transfer.partial.longest();
        match self.state {
            State::Open if count > longest => Some(CircuitError::TooLong),
            State::Open if self.transfer.queue.len() == PLACES => Some(CircuitError::Full),
            State::Open => None,
            _ => Some(CircuitError::WrongState),
        }
    }

    pub(crate) fn interrupt_refusal(&self, user: &[u8]) -> Option<CircuitError>
        ensures refusal { (c : CircuitSettings) (x : Channel) → FitsCircuit c self.now x
            → result ≡ refusal_of (interrupt_in x x.state user.now) }
        ensures open { IfNone result (self.now.state ≡ State.Open) }
        ensures none_out { IfNone result (self.now.transfer.interrupt_out ≡ false) }
        ensures some { IfNone result (1 ≤ length user.now) }
        ensures short { IfNone result (length user.now ≤ 32) }
        ensures kinds { IfSome result (λ e. e ≢ CircuitError.NoMemory) }
    {
        if self.state != State::Open {
            return Some(CircuitError::WrongState);
        }
        if user.is_empty() || user.len() > INTERRUPT_OCTETS {
            return Some(CircuitError::BadParameter);
        }
        if self.transfer.interrupt_out {
            return Some(CircuitError::InterruptOutstanding);
        }
        None
    }

    // Where it isn't in p4 with d1.
    pub(crate) fn closed(&self) -> Option<CircuitError>
        ensures open { IfNone result (self.now.state ≡ State.Open) }
        ensures refusal { (c : CircuitSettings) (x : Channel) (is_ready : Bool) → FitsCircuit c self.now x
            → result ≡ refusal_of (ready_in x x.state is_ready) }
        ensures kinds { IfSome result (λ e. e ≢ CircuitError.NoMemory) }
    {
        match self.state {
            State::Open => None,
            _ => Some(CircuitError::WrongState),
        }
    }
}
