//! Clears and resets: those that errors of procedure cause, and those that are done. ITU-T X.25 (10/96), sections 4.1.7
//! to 4.1.9, 4.4.3 and Annex C.
ghost use Rattle.std.specs.Prelude.{◌≡◌, ℕ, suc, ◌^◌, ◌-◌, ◌<◌, true, false, None, Some, [], ◌∷◌};
ghost use Rattle.x25_circuit.specs.Circuit.{CircuitSettings};
ghost use Rattle.x25_circuit.specs.Circuit.{Circuit as Channel};
ghost use Rattle.x25_circuit.specs.Notice.{reset_done};
ghost use Rattle.x25_circuit.specs.Hearing.{cause_at, diagnostic_in, clears_for, resets_for, unexpected, clears_to};
ghost use Rattle.x25_circuit.specs.Hearing.{resets_to, row_clear, row_clear_conf, row_reset, row_reset_conf};
ghost use Rattle.x25_circuit.specs.Hearing.{undecoded, cause_of};
ghost use Rattle.x25_circuit.specs.code.FitsCircuit.{FitsCircuit, made_of, clears_of, resets_of};
ghost use Rattle.x25_circuit.specs.code.Replies.{Says, IsSendable, RepliesBy, plain_owed, tells_message};

use crate::circuit::Circuit;
use crate::codes::{
    DTE_FAULT, INVALID_FACILITY, LOCAL_PROCEDURE_ERROR, LOCAL_PROCEDURE_ERROR_OF_A_CALL,
    NO_DIAGNOSTIC, NOT_IN_D1, NOT_IN_P1, NOT_IN_P2, NOT_IN_P3, NOT_IN_P4, NOT_IN_P5,
};
use crate::notice::{Notice, Reply};
use crate::owed::Owed;
use crate::state::State;
use x25_bits::Role;
use x25_packet::PacketError;

/// A DTE sends 128 in place of each cause of a DCE (profile).
fn cause_at(role: Role, cause: u8) -> u8
    ensures { result ≡ cause_at role cause }
{
    match role {
        Role::Dte => DTE_FAULT,
        Role::Dce => cause,
    }
}

fn by_role(role: Role, dte: u8, dce: u8) -> u8
    ensures dte { role ≡ Role.Dte → result ≡ dte }
    ensures dce { role ≡ Role.Dce → result ≡ dce }
{
    match role {
        Role::Dte => dte,
        Role::Dce => dce,
    }
}

// The diagnostic of a packet that this state doesn't allow (profile).
fn diagnostic_in(role: Role, state: State) -> u8
    ensures { result ≡ diagnostic_in role state }
{
    match state {
        State::Free => NOT_IN_P1,
        State::Calling => by_role(role, NOT_IN_P2, NOT_IN_P3),
        State::Arriving => by_role(role, NOT_IN_P3, NOT_IN_P2),
        State::Open | State::Resetting => NOT_IN_P4,
        State::Collision => NOT_IN_P5,
        State::Clearing => NO_DIAGNOSTIC,
    }
}

// The cause of the CLEAR for octets that spell no packet (profile).
fn cause_of(error: PacketError) -> u8
    ensures { result ≡ cause_of error }
{
    match error {
        PacketError::BadFacility | PacketError::BadParameter => INVALID_FACILITY,
        _ => LOCAL_PROCEDURE_ERROR_OF_A_CALL,
    }
}

impl Circuit {
    /// Clears the call for an error of procedure.
    pub(crate) fn clear_for<'a>(&mut self, cause: u8, diagnostic: u8) -> Reply<'a>
        ensures { RepliesBy self.old self.new result (λ c x. clears_for c x cause diagnostic) }
    {
        self.end_call(State::Clearing);
        Reply::both(
            Owed::Clear {
                cause: cause_at(self.role, cause),
                diagnostic,
            },
            Notice::Fault { diagnostic },
        )
    }

    /// Resets the call for an error of procedure.
    pub(crate) fn reset_for<'a>(&mut self, diagnostic: u8) -> Reply<'a>
        requires { made_of self.old ≡ true }
        ensures { RepliesBy self.old self.new result (λ c x. resets_for c x diagnostic) }
    {
        self.begin_stretch(State::Resetting);
        Reply::both(
            Owed::Reset {
                cause: cause_at(self.role, LOCAL_PROCEDURE_ERROR),
                diagnostic,
            },
            Notice::Fault { diagnostic },
        )
    }

    /// A packet that the state doesn't allow.
    pub(crate) fn unexpected<'a>(&mut self) -> Reply<'a>
        ensures { RepliesBy self.old self.new result (λ c x. unexpected c x self.old.state) }
    {
        self.clear_for(
            LOCAL_PROCEDURE_ERROR_OF_A_CALL,
            diagnostic_in(self.role, self.state),
        )
    }

    // A clear is done.
    fn be_cleared(&mut self)
        requires { clears_of self.old < 2 ^ 64 - 1 }
        ensures fits { (c : CircuitSettings) (x : Channel) → FitsCircuit c self.old x
            → FitsCircuit c self.new (clears_to x None []).next }
    {
        self.end_call(State::Free);
        self.clears += 1;
        self.resets = 0;
    }

    // A reset is done.
    fn be_reset(&mut self)
        requires made { made_of self.old ≡ true }
        requires left { resets_of self.old < 2 ^ 64 - 1 }
        ensures fits { (c : CircuitSettings) (x : Channel) → FitsCircuit c self.old x
            → FitsCircuit c self.new (resets_to x None []).next }
    {
        self.begin_stretch(State::Open);
        self.resets += 1;
    }

    // This end's reset is done: it isn't confirmed, by whatever packet it was.
    fn end_reset<'a>(&mut self) -> Reply<'a>
        requires made { made_of self.old ≡ true }
        requires left { resets_of self.old < 2 ^ 64 - 1 }
        ensures next { (c : CircuitSettings) (x : Channel) → FitsCircuit c self.old x
            → FitsCircuit c self.new (resets_to x None (reset_done ∷ [])).next }
        ensures says { Says [] result None (reset_done ∷ []) }
        ensures range { IsSendable (plain_owed result.packet) }
        ensures told { tells_message result.notice ≡ false }
    {
        self.be_reset();
        Reply::tells(Notice::ResetDone)
    }

    pub(crate) fn hear_clear<'a>(&mut self, cause: u8, diagnostic: u8) -> Reply<'a>
        requires { clears_of self.old < 2 ^ 64 - 1 }
        ensures { RepliesBy self.old self.new result (λ c x. row_clear x self.old.state cause diagnostic) }
    {
        let state = self.state;
        self.be_cleared();
        match state {
            State::Clearing => Reply::tells(Notice::ClearDone),
            State::Free => Reply::owes(Owed::ClearConf),
            _ => Reply::both(Owed::ClearConf, Notice::Cleared { cause, diagnostic }),
        }
    }

    pub(crate) fn hear_clear_conf<'a>(&mut self) -> Reply<'a>
        requires { clears_of self.old < 2 ^ 64 - 1 }
        ensures { RepliesBy self.old self.new result (λ c x. row_clear_conf c x self.old.state) }
    {
        match self.state {
            State::Clearing => {
                self.be_cleared();
                Reply::tells(Notice::ClearDone)
            }
            _ => self.unexpected(),
        }
    }

    pub(crate) fn hear_reset<'a>(&mut self, cause: u8, diagnostic: u8) -> Reply<'a>
        requires { resets_of self.old < 2 ^ 64 - 1 }
        ensures { RepliesBy self.old self.new result (λ c x. row_reset c x self.old.state cause diagnostic) }
    {
        match self.state {
            State::Open => {
                self.be_reset();
                Reply::both(Owed::ResetConf, Notice::WasReset { cause, diagnostic })
            }
            State::Resetting => self.end_reset(),
            State::Clearing => Reply::nothing(),
            _ => self.unexpected(),
        }
    }

    pub(crate) fn hear_reset_conf<'a>(&mut self) -> Reply<'a>
        requires { resets_of self.old < 2 ^ 64 - 1 }
        ensures { RepliesBy self.old self.new result (λ c x. row_reset_conf c x self.old.state) }
    {
        match self.state {
            State::Open => self.reset_for(NOT_IN_D1),
            State::Resetting => self.end_reset(),
            State::Clearing => Reply::nothing(),
            _ => self.unexpected(),
        }
    }

    /// Octets that spell no packet, by the error that they have.
    pub(crate) fn undecoded<'a>(&mut self, error: PacketError) -> Reply<'a>
        ensures { RepliesBy self.old self.new result (λ c x. undecoded c x error) }
    {
        match self.state {
            State::Open => self.reset_for(error.diagnostic()),
            State::Resetting | State::Clearing => Reply::nothing(),
            _ => self.clear_for(cause_of(error), error.diagnostic()),
        }
    }
}
