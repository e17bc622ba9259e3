//! What may be asked of a call, with or without something that the user gives beside its packet.
ghost use Rattle.std.specs.Prelude.{◌≡◌, ℕ, List};
ghost use Rattle.x25_circuit.specs.Params.{Proposal as PlainProposal};
ghost use Rattle.x25_circuit.specs.Request.{plain_request};
ghost use Rattle.x25_given.specs.Given.{given_with};
ghost use Rattle.x25_layer.specs.Calls.{Asks, Dials};
ghost use Rattle.x25_station.specs.Giving.{may_ask_with};

use crate::error::StationError;
use x25_circuit::{CircuitError, Request};
use x25_given::Given;
use x25_layer::LayerError;

/// What may not be asked, or given so.
pub(crate) const NOT_TAKEN: StationError = StationError::Layer(LayerError::Circuit(
    CircuitError::BadParameter,
));

/// Whether this may be asked of a circuit, with or without something given: confirmation, and what is given beside an
/// ACCEPT or a CLEAR, which has no D, by a station that reads packets in all their forms.
pub(crate) fn may_ask(wide: bool, request: &Request<'_>, given: Option<&Given<'_>>) -> bool
    ensures { (h : ℕ) → result ≡ may_ask_with wide (given_with given.entry) (Asks h (plain_request request.now)) }
{
    let Some(given) = given else {
        return match request {
            Request::Send { marks, .. } => !marks.d || wide,
            _ => true,
        };
    };
    match request {
        Request::Accept { .. } => wide && given.is_allowed(),
        Request::Clear { .. } => wide && (given.is_allowed() && !given.d),
        _ => false,
    }
}

/// Whether a call may be made, with or without something given: user data of a CALL stands in the command.
pub(crate) fn may_dial(wide: bool, given: Option<&Given<'_>>) -> bool
    ensures { (called calling user : List ℕ) (proposal : PlainProposal)
        → result ≡ may_ask_with wide (given_with given.entry) (Dials called calling user proposal) }
{
    match given {
        Some(given) => wide && (given.is_allowed() && given.user.is_empty()),
        None => true,
    }
}
