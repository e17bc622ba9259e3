//! The user's calls that set up and clear. ITU-T X.25 (10/96), sections 4.1.2, 4.1.4 and 4.1.7.
ghost use Rattle.std.specs.Prelude.{◌≡◌, ◌≢◌, ◌≤◌, IfSome, IfNone, Bool, true, false, IfOk, IfErr, length};
ghost use Rattle.std.specs.Result.{result_err};
ghost use Rattle.x25_packet.specs.Digits.{IsAddress, digits_of_text};
ghost use Rattle.x25_circuit.specs.declared.state.State.{State};
ghost use Rattle.x25_circuit.specs.Circuit.{CircuitSettings};
ghost use Rattle.x25_circuit.specs.Circuit.{Circuit as Channel};
ghost use Rattle.x25_circuit.specs.Params.{may_answer};
ghost use Rattle.x25_circuit.specs.Calling.{outcome, Calls, Accepts, Clears, may_call, call_in, accept_in};
ghost use Rattle.x25_circuit.specs.Calling.{is_address_text};
ghost use Rattle.x25_circuit.specs.Request.{plain_answer, params_answered, refusal_of};
ghost use Rattle.x25_circuit.specs.code.FitsCircuit.{FitsCircuit, SendsBy, BeginsBy};

use crate::circuit::Circuit;
use crate::error::CircuitError;
use crate::owed::Owed;
use crate::params::{FlowControl, Params};
use crate::proposal::Proposal;
use crate::requested::Requested;
use crate::state::State;
use x25_packet::{Digits, FacilityField, longest_user};

// The digits of an address, where the text is one.
fn address<'a>(text: &'a str) -> Option<Digits<'a>>
    ensures some { IfSome result (λ digits. is_address_text text.now ≡ true) }
    ensures digits { IfSome result (λ digits. digits ≡ digits_of_text text.now) }
    ensures address { IfSome result IsAddress }
    ensures none { IfNone result (is_address_text text.now ≡ false) }
{
    Digits::of(text)
}

/// What a call says that may be made.
#[derive(Drop)]
pub(crate) struct CallFields<'a> {
    called: Digits<'a>,
    calling: Digits<'a>,
    flow: FlowControl,
}

// What a call of these says, where it may be made.
fn fields_of<'a>(
    long_data: bool,
    called: &'a str,
    calling: &'a str,
    user: &[u8],
    params: Params,
) -> Option<CallFields<'a>>
    ensures may_call { IfSome result (λ fields. may_call long_data called.now calling.now user.now params ≡ true) }
    ensures called { IfSome result (λ fields. fields.called ≡ digits_of_text called.now) }
    ensures calling { IfSome result (λ fields. fields.calling ≡ digits_of_text calling.now) }
    ensures called_address { IfSome result (λ fields. IsAddress fields.called) }
    ensures calling_address { IfSome result (λ fields. IsAddress fields.calling) }
    ensures short { IfSome result (λ fields. length user.now ≤ 128) }
    ensures flow { IfSome result (λ fields. fields.flow.params ≡ params) }
    ensures none { IfNone result (may_call long_data called.now calling.now user.now params ≡ false) }
{
    let called = address(called)?;
    let calling = address(calling)?;
    if user.len() > longest_user(long_data) {
        return None;
    }
    let flow = FlowControl::of(params)?;
    Some(CallFields {
        called,
        calling,
        flow,
    })
}

impl Circuit {
    /// Calls the other end, with addresses of 0 to 15 digits and at most 16 octets of user data (128 where it may be
    /// long), and proposes these packet sizes and windows: sizes of 4 to 12, and windows of 1 to 7. It answers CALL, in
    /// which what isn't the default stands, and with `says_all` what is. ITU-T X.25 (10/96), section 6.12.
    ///
    /// 30 WrongState outside of p1, then 34 BadParameter where an address, the user data, a size or a window is none of
    /// these, and else 70 alone.
    pub(crate) fn call<'a>(
        &mut self,
        called: &'a str,
        calling: &'a str,
        user: &'a [u8],
        proposal: &Proposal,
    ) -> Result<Requested<'a>, CircuitError>
        ensures { BeginsBy self.old self.new result
            (λ c x. outcome c x (Calls called.now calling.now user.now proposal.now)) }
    {
        let fields = self.call_fields(called, calling, user, proposal.params())?;
        self.transfer.make()?;
        self.enter(State::Calling, fields.flow, true);
        Ok(Requested::Call {
            called: fields.called,
            calling: fields.calling,
            facilities: proposal.field_for(Params::default()),
            user,
        })
    }

    // What a call says, where it may be made now.
    pub(crate) fn call_fields<'a>(
        &self,
        called: &'a str,
        calling: &'a str,
        user: &[u8],
        params: Params,
    ) -> Result<CallFields<'a>, CircuitError>
        ensures free { IfOk result (λ fields. self.now.state ≡ State.Free) }
        ensures may_call { IfOk result (λ fields. may_call self.now.long_data called.now calling.now user.now params
            ≡ true) }
        ensures called { IfOk result (λ fields. fields.called ≡ digits_of_text called.now) }
        ensures calling { IfOk result (λ fields. fields.calling ≡ digits_of_text calling.now) }
        ensures called_address { IfOk result (λ fields. IsAddress fields.called) }
        ensures calling_address { IfOk result (λ fields. IsAddress fields.calling) }
        ensures short { IfOk result (λ fields. length user.now ≤ 128) }
        ensures flow { IfOk result (λ fields. fields.flow.params ≡ params) }
        ensures refusal { (c : CircuitSettings) (x : Channel) (says_all : Bool) → FitsCircuit c self.now x
            → result_err result ≡ refusal_of (call_in c x x.state called.now calling.now user.now
            (record { params = params; says_all = says_all })) }
        ensures kinds { IfErr result (λ e. e ≢ CircuitError.NoMemory) }
    {
        if self.state != State::Free {
            return Err(CircuitError::WrongState);
        }
        let Some(fields) = fields_of(self.long_data, called, calling, user, params) else {
            return Err(CircuitError::BadParameter);
        };
        Ok(fields)
    }

    /// Accepts the call of the other end, with these packet sizes and windows, each from the proposed value to the
    /// default, or else with those that it proposes. It answers CALL ACCEPTED, in which what isn't as proposed stands,
    /// and with `says_all` what is. ITU-T X.25 (10/96), section 6.12.
    ///
    /// 30 WrongState where no call came, then 34 BadParameter where a value is out of this range, and else 70 alone.
    pub(crate) fn accept<'a>(
        &mut self,
        answer: Option<&Proposal>,
    ) -> Result<Requested<'a>, CircuitError>
        ensures { BeginsBy self.old self.new result (λ c x. outcome c x (Accepts (plain_answer answer.entry))) }
    {
        let proposed = self.flow.params;
        let flow = self.accepted(answer)?;
        self.transfer.make()?;
        self.enter(State::Open, flow, false);
        match answer {
            Some(answer) => Ok(Requested::Accept {
                facilities: answer.field_for(proposed),
            }),
            None => Ok(Requested::Accept {
                facilities: FacilityField::none(),
            }),
        }
    }

    // Packet sizes and windows in force once the call is accepted with this answer, where it may be now.
    pub(crate) fn accepted(&self, answer: Option<&Proposal>) -> Result<FlowControl, CircuitError>
        ensures arriving { IfOk result (λ flow. self.now.state ≡ State.Arriving) }
        ensures may_answer { IfOk result (λ flow. IfSome (plain_answer answer.entry)
            (λ said. may_answer self.now.flow.params said.params ≡ true)) }
        ensures flow { IfOk result (λ flow. flow.params
            ≡ params_answered (plain_answer answer.entry) self.now.flow.params) }
        ensures refusal { (c : CircuitSettings) (x : Channel) → FitsCircuit c self.now x
            → result_err result ≡ refusal_of (accept_in x x.state (plain_answer answer.entry)) }
        ensures kinds { IfErr result (λ e. e ≢ CircuitError.NoMemory) }
    {
        if self.state != State::Arriving {
            return Err(CircuitError::WrongState);
        }
        match answer {
            Some(answer) => {
                let Some(flow) = self.flow.answered(answer.params()) else {
                    return Err(CircuitError::BadParameter);
                };
                Ok(flow)
            }
            None => Ok(self.flow),
        }
    }

    /// Clears the call, and drops everything. It answers CLEAR.
    ///
    /// 30 WrongState in p1 and where this end's CLEAR isn't confirmed yet, then 34 BadParameter where the cause is none
    /// that a user may give.
    pub(crate) fn clear<'a>(
        &mut self,
        cause: u8,
        diagnostic: u8,
    ) -> Result<Requested<'a>, CircuitError>
        ensures { SendsBy self.old self.new result (λ c x. outcome c x (Clears cause diagnostic)) }
    {
        if let Some(error) = self.clear_refusal(cause) {
            return Err(error);
        }
        self.end_call(State::Clearing);
        Ok(Requested::Owed(Owed::Clear { cause, diagnostic }))
    }
}
