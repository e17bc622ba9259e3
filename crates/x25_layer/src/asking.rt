//! What the user asks of the circuit of a channel: the steps that the calls with a channel share.
ghost use Rattle.std.specs.Prelude.{◌≡◌, ◌≢◌, length, true, false, IfOk, IfSome, IfNone};
ghost use Rattle.std.specs.Prelude.{[], OnOk, OnErr, IsErrOf};
ghost use Rattle.x25_circuit.specs.Calling.{outcome};
ghost use Rattle.x25_circuit.specs.code.Replies.{IsControl, IsSendable, plain_sent};
ghost use Rattle.x25_circuit.specs.Request.{plain_request, may_ask_memory, MayPut};
ghost use Rattle.x25_layer.specs.Layer.{LayerSettings};
ghost use Rattle.x25_layer.specs.Ranges.{is_number};
ghost use Rattle.x25_layer.specs.Layer.{Layer as State};
ghost use Rattle.x25_layer.specs.Calls.{LayerRequest, Asks, Declined, asked_where, puts_at_once, outcome_on};
ghost use Rattle.x25_layer.specs.code.FitsLayer.{FitsLayer, FitsStill};
ghost use Rattle.x25_layer.specs.code.Answering.{Does};
ghost use Rattle.x25_layer.specs.Asking.{AsksCircuit, refusal_on};

use crate::error::LayerError;
use crate::layer::Layer;
use crate::link_state::LinkState;
use x25_circuit::{Request, Requested};

/// All but a message put a packet at once.
pub(crate) fn puts_at_once(request: &Request<'_>) -> bool
    ensures { result ≡ puts_at_once (plain_request request.now) }
{
    !matches!(request, Request::Send { .. })
}

impl Layer {
    /// Why no call of the user is accepted now, whatever it asks: 9 NotUp, then 40 Restarting.
    pub fn unready(&self, link: LinkState) -> Option<LayerError>
        ensures refused { (c : LayerSettings) (l : State) (request : LayerRequest) → FitsLayer c self.now l
            → IfSome result (λ e. asked_where c link.is_up link.is_full l request ≡ Declined e) }
        ensures kinds { IfSome result (λ e. e ≢ LayerError.NoMemory) }
        ensures up { IfNone result (link.is_up ≡ true) }
        ensures ready { IfNone result (self.now.restarting ≡ false) }
    {
        if !link.is_up {
            return Some(LayerError::NotUp);
        }
        if self.restarting {
            return Some(LayerError::Restarting);
        }
        None
    }

    // The circuit of a channel does what is asked.
    #[inline(always)]
    fn ask_circuit<'a>(
        &mut self,
        channel: u16,
        request: Request<'a>,
    ) -> Result<Option<Requested<'a>>, LayerError>
        requires { is_number (length self.old.circuits.items) channel ≡ true }
        ensures outcome { (c : LayerSettings) (l : State) → FitsLayer c self.old l
            → AsksCircuit c self.new result l channel
            (outcome c.circuit (l.circuits channel) (plain_request request.entry)) }
        ensures range { IfOk result (λ packet. IsSendable (plain_sent packet)) }
        ensures control { IfOk result (λ packet. IsControl (plain_sent packet)) }
        ensures at_once { IfOk result (λ packet. MayPut (plain_request request.entry) packet) }
        ensures fits { OnErr result (FitsStill self.old self.new) }
        ensures missing { IsErrOf result LayerError.NoMemory → may_ask_memory (plain_request request.entry) ≡ true }
    {
        let place = usize::from(channel) - 1;
        self.busy.note(channel, true);
        match self.circuits[place].ask(request) {
            Ok(packet) => Ok(packet),
            Err(error) => Err(LayerError::of_circuit(error)),
        }
    }

    /// Why no request to the circuit of a channel is accepted now, whatever the circuit says: as `unready`, then 42
    /// NoSuchChannel, then 10 QueueFull but for a message.
    pub(crate) fn closed(
        &self,
        link: LinkState,
        channel: u16,
        request: &Request<'_>,
    ) -> Option<LayerError>
        ensures refused { (c : LayerSettings) (l : State) → FitsLayer c self.now l
            → IfSome result (λ e. asked_where c link.is_up link.is_full l
            (Asks channel (plain_request request.now)) ≡ Declined e) }
        ensures kinds { IfSome result (λ e. e ≢ LayerError.NoMemory) }
        ensures channel { IfNone result (is_number (length self.now.circuits.items) channel ≡ true) }
        ensures ready { IfNone result (self.now.restarting ≡ false) }
        ensures up { IfNone result (link.is_up ≡ true) }
        ensures free { IfNone result (puts_at_once (plain_request request.now) ≡ true → link.is_full ≡ false) }
    {
        if let Some(error) = self.unready(link) {
            return Some(error);
        }
        if self.circuit(channel).is_none() {
            return Some(LayerError::NoSuchChannel);
        }
        if puts_at_once(request) && link.is_full {
            return Some(LayerError::QueueFull);
        }
        None
    }

    /// Why the circuit of a configured channel would refuse this now, if it would.
    pub(crate) fn circuit_refusal(&self, channel: u16, request: &Request<'_>) -> Option<LayerError>
        requires { is_number (length self.now.circuits.items) channel ≡ true }
        ensures { (c : LayerSettings) (l : State) → FitsLayer c self.now l
            → result ≡ refusal_on (outcome c.circuit (l.circuits channel) (plain_request request.now)) }
    {
        let Some(circuit) = self.circuit(channel) else {
            unreachable!();
        };
        match circuit.refusal(request) {
            Some(error) => Some(LayerError::Circuit(error)),
            None => None,
        }
    }

    /// Asks the circuit of a configured channel, where neither the link nor a restart nor a full queue refuses it.
    #[inline(always)]
    pub(crate) fn ask_ready(&mut self, channel: u16, request: Request<'_>) -> Result<(), LayerError>
        requires channel { is_number (length self.old.circuits.items) channel ≡ true }
        requires ready { self.old.restarting ≡ false }
        ensures does { Does self.old self.new result (may_ask_memory (plain_request request.entry))
            (λ c l. outcome_on l.restarts l.circuits channel
            (outcome c.circuit (l.circuits channel) (plain_request request.entry))) }
        ensures later { OnOk result (puts_at_once (plain_request request.entry) ≡ false → self.new.sheet ≡ []) }
    {
        let packet = self.ask_circuit(channel, request)?;
        self.sheet.spell_sent(channel, packet);
        Ok(())
    }
}
