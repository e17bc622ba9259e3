ghost use Rattle.std.specs.Prelude.{◌≡◌, ℕ, ◌<◌, ◌≤◌, true, false, length, IfOk, IfErr};
ghost use Rattle.x25_circuit.specs.declared.state.State.{State};
ghost use Rattle.x25_circuit.specs.Params.{default_params};
ghost use Rattle.x25_circuit.specs.Calling.{pulled, pulls_nothing};
ghost use Rattle.x25_circuit.specs.Circuit.{CircuitSettings, begun, entered, forgotten, zeroed, is_free, is_open};
ghost use Rattle.x25_circuit.specs.Circuit.{awaited_by, is_unacknowledged, unacknowledged, waits, is_idle};
ghost use Rattle.x25_circuit.specs.Circuit.{message_room, unconfirmed, outgoing};
ghost use Rattle.x25_circuit.specs.code.CallMemory.{has_memory};
ghost use Rattle.x25_circuit.specs.Circuit.{Circuit as Channel};

use crate::awaits::Awaits;
use crate::error::CircuitError;
use crate::params::{FlowControl, Params};
use crate::queue::PLACES;
use crate::state::State;
use crate::terms::Terms;
use crate::transfer::Transfer;
use std::alloc::Global;
use x25_bits::Role;

/// One logical channel at one end, DTE or DCE. ITU-T X.25 (10/96), section 4.
///
/// Its packets name channel 1, and it doesn't look at the channel of those that it takes.
#[derive(Drop)]
pub struct Circuit {
    pub(crate) role: Role,
    /// Whether the user data of a CALL may be long.
    pub(crate) long_data: bool,
    pub(crate) state: State,
    /// How many clears were done, and how many resets since the last of them.
    pub(crate) clears: u64,
    pub(crate) resets: u64,
    /// Packet sizes and windows: proposed until a call is accepted, then in force; and whether this end called.
    pub(crate) flow: FlowControl,
    pub(crate) calls: bool,
    pub(crate) transfer: Transfer,
    ghost made: { has_memory state ≡ true → transfer.partial.made ≡ true },
}

impl Circuit {
    ghost use Rattle.x25_circuit.specs.code.FitsCircuit.{FitsCircuit, KeepsCounts};
    ghost use Rattle.x25_circuit.specs.code.FitsCircuit.{made_of, clears_of, resets_of, waits_of};

    /// A channel that was never used: p1. With `long_data` a call has at most 128 octets of user data (profile), else
    /// at most 16. A message has at most `longest` octets, sent or taken, and that much memory is made for the first
    /// call.
    ///
    /// 70 alone.
    pub fn with(
        alloc: Global,
        role: Role,
        long_data: bool,
        longest: u16,
    ) -> Result<Circuit, CircuitError>
        ensures fits { IfOk result (λ v. FitsCircuit
            (record { role = role; long_data = long_data; longest = longest }) v begun) }
        ensures made { IfOk result (λ v. made_of v ≡ false) }
        ensures err { IfErr result (λ e. e ≡ CircuitError.NoMemory) }
    {
        let transfer = Transfer::new(alloc, usize::from(longest))?;
        Ok(Circuit {
            role,
            long_data,
            state: State::Free,
            clears: 0,
            resets: 0,
            flow: FlowControl::usual(),
            calls: false,
            transfer,
        })
    }

    /// How many clears were done, and how many resets since the last of them.
    pub fn counts(&self) -> (u64, u64)
        ensures clears { (c : CircuitSettings) (x : Channel) → FitsCircuit c self.now x → result.0 ≡ x.clears }
        ensures resets { (c : CircuitSettings) (x : Channel) → FitsCircuit c self.now x → result.1 ≡ x.resets }
        ensures clears_held { result.0 ≡ clears_of self.now }
        ensures resets_held { result.1 ≡ resets_of self.now }
    {
        (self.clears, self.resets)
    }

    /// Sets both counts to 0.
    pub fn zero(&mut self)
        ensures fits { (c : CircuitSettings) (x : Channel) → FitsCircuit c self.old x
            → FitsCircuit c self.new (zeroed x) }
    {
        self.clears = 0;
        self.resets = 0;
    }

    /// Goes to p1, with everything dropped, no packet and no notice. The counts are as they were.
    pub fn forget(&mut self)
        ensures fits { (c : CircuitSettings) (x : Channel) → FitsCircuit c self.old x
            → FitsCircuit c self.new (forgotten x) }
    {
        self.end_call(State::Free);
    }

    /// Packet sizes and windows: those that are proposed, until the call is accepted, and then those in force; the
    /// defaults where there is no call.
    pub fn params(&self) -> Params
        ensures { (c : CircuitSettings) (x : Channel) → FitsCircuit c self.now x → result ≡ x.params }
    {
        self.flow.params
    }

    /// Of the data packets that this end sends.
    pub(crate) fn outgoing(&self) -> Terms
        ensures window { (c : CircuitSettings) (x : Channel) → FitsCircuit c self.now x
            → result.window ≡ (outgoing x).window }
        ensures size { (c : CircuitSettings) (x : Channel) → FitsCircuit c self.now x
            → result.size ≡ (outgoing x).size }
    {
        self.flow.terms(self.calls)
    }

    /// Whether it is in p1.
    pub fn is_free(&self) -> bool
        ensures { (c : CircuitSettings) (x : Channel) → FitsCircuit c self.now x → result ≡ is_free x }
    {
        self.state == State::Free
    }

    /// Whether it is in p4 with d1.
    pub fn is_open(&self) -> bool
        ensures { (c : CircuitSettings) (x : Channel) → FitsCircuit c self.now x → result ≡ is_open x }
    {
        self.state == State::Open
    }

    /// The answer that this end awaits.
    pub fn awaits(&self) -> Awaits
        ensures { (c : CircuitSettings) (x : Channel) → FitsCircuit c self.now x → result ≡ awaited_by x }
    {
        match self.state {
            State::Free | State::Arriving => Awaits::Nothing,
            State::Calling | State::Collision => Awaits::Acceptance,
            State::Open => {
                if self.transfer.interrupt_out {
                    return Awaits::InterruptConfirmation;
                }
                Awaits::Nothing
            }
            State::Resetting => Awaits::ResetConfirmation,
            State::Clearing => Awaits::ClearConfirmation,
        }
    }

    // Whether a data packet of this end isn't acknowledged, while the other end is ready to receive.
    fn is_unacknowledged(&self) -> bool
        ensures { (c : CircuitSettings) (x : Channel) → FitsCircuit c self.now x → result ≡ is_unacknowledged x }
    {
        self.is_open() & self.transfer.peer_ready & (self.transfer.sender.unacked() > 0)
    }

    /// P(S) of the first data packet of this end that isn't acknowledged, while the other end is ready to receive. T25
    /// counts as long as there is one, and begins anew with another.
    pub fn unacknowledged(&self) -> Option<u8>
        ensures { (c : CircuitSettings) (x : Channel) → FitsCircuit c self.now x → result ≡ unacknowledged x }
    {
        if !self.is_unacknowledged() {
            return None;
        }
        let sender = &self.transfer.sender;
        Some((sender.top().get() + 8 - sender.unacked()) % 8)
    }

    /// Whether nothing is under way: no message waits, no answer is awaited, and all that was sent is acknowledged, but
    /// where the other end isn't ready.
    pub fn is_idle(&self) -> bool
        ensures value { (c : CircuitSettings) (x : Channel) → FitsCircuit c self.now x → result ≡ is_idle x }
        ensures none { result ≡ true → waits_of self.now ≡ 0 }
    {
        if self.awaits().is_any() {
            return false;
        }
        (self.waits() == 0) & !self.is_unacknowledged()
    }

    /// How many messages wait, at most 8. None has more octets than the longest.
    pub fn waits(&self) -> usize
        ensures value { (c : CircuitSettings) (x : Channel) → FitsCircuit c self.now x → result ≡ waits x }
        ensures none { (c : CircuitSettings) (x : Channel) → FitsCircuit c self.now x → result ≡ 0
            → pulled c x ≡ pulls_nothing x }
        ensures held { result ≡ waits_of self.now }
        ensures few { result ≤ 8 }
    {
        self.transfer.queue.len()
    }

    /// How many messages more it takes: 8 less those that wait, in p4 with d1, and else 0.
    pub fn room(&self) -> usize
        ensures value { (c : CircuitSettings) (x : Channel) → FitsCircuit c self.now x → result ≡ message_room x }
        ensures few { result ≤ 8 }
    {
        if !self.is_open() {
            return 0;
        }
        PLACES - self.waits()
    }

    /// How many messages haven't the confirmation yet that was asked of them: they wait, or their last packet isn't
    /// acknowledged. They are 15 at most. ITU-T X.25 (10/96), section 4.4.1.4.
    pub fn unconfirmed(&self) -> usize
        ensures value { (c : CircuitSettings) (x : Channel) → FitsCircuit c self.now x → result ≡ unconfirmed x }
        ensures few { (c : CircuitSettings) (x : Channel) → FitsCircuit c self.now x → result ≤ 15 }
    {
        usize::from(self.transfer.unconfirmed)
    }

    /// Goes to this state, with these packet sizes and windows, and nothing kept.
    pub(crate) fn enter(&mut self, state: State, flow: FlowControl, calls: bool)
        requires { has_memory state ≡ true → made_of self.old ≡ true }
        ensures fits { (c : CircuitSettings) (x : Channel) → FitsCircuit c self.old x
            → FitsCircuit c self.new (entered x state flow.params calls) }
        ensures role { self.new.role ≡ self.old.role }
        ensures made { made_of self.new ≡ made_of self.old }
        ensures keeps { KeepsCounts self.old self.new }
    {
        self.state = state;
        self.flow = flow;
        self.calls = calls;
        self.transfer.clear();
    }

    /// Goes to this state, in which there is no call.
    pub(crate) fn end_call(&mut self, state: State)
        requires { has_memory state ≡ false }
        ensures fits { (c : CircuitSettings) (x : Channel) → FitsCircuit c self.old x
            → FitsCircuit c self.new (entered x state default_params false) }
        ensures role { self.new.role ≡ self.old.role }
        ensures keeps { KeepsCounts self.old self.new }
    {
        self.enter(state, FlowControl::usual(), false);
    }

    /// Goes to this state, in which the call goes on with nothing kept.
    pub(crate) fn begin_stretch(&mut self, state: State)
        requires { has_memory state ≡ true → made_of self.old ≡ true }
        ensures fits { (c : CircuitSettings) (x : Channel) → FitsCircuit c self.old x
            → FitsCircuit c self.new (entered x state x.params x.calls) }
        ensures role { self.new.role ≡ self.old.role }
        ensures keeps { KeepsCounts self.old self.new }
    {
        self.enter(state, self.flow, self.calls);
    }
}
