//! The calls of the user with a channel. ITU-T X.25 (10/96), sections 4.1, 4.3 and 4.4.
//!
//! Each is refused for the first of these grounds, numbers of the profile: 9 NotUp, 40 Restarting, 42 NoSuchChannel (a
//! new call: 41 NoFreeChannel), 10 QueueFull where 256 packets wait (no message, which puts no packet at once), and
//! then as the circuit refuses it. 70 comes in place of acceptance alone, and only where memory is refused for the copy
//! of a message, or at a call or an acceptance for messages that come. Where a call is refused, the layer is as before.
//!
//! An accepted call leaves its packet, where it has one, to be put.
ghost use Rattle.std.specs.Prelude.{◌≡◌, ◌≢◌, ℕ, List, length, Some, true, false, IfOk, IfErr};
ghost use Rattle.x25_circuit.specs.Params.{Proposal as Proposed};
ghost use Rattle.x25_circuit.specs.Request.{plain_request};
ghost use Rattle.x25_layer.specs.Layer.{LayerSettings};
ghost use Rattle.x25_layer.specs.Ranges.{is_number};
ghost use Rattle.x25_layer.specs.Layer.{Layer as State};
ghost use Rattle.x25_layer.specs.code.FitsLayer.{FitsLayer};
ghost use Rattle.x25_layer.specs.code.Answering.{Answers};
ghost use Rattle.x25_layer.specs.Calls.{Asks, Dials, Declined, asked_where, declined_for, free_channel};

use crate::error::LayerError;
use crate::layer::Layer;
use crate::link_state::LinkState;
use x25_circuit::{Proposal, Request};

impl Layer {
    /// Asks the circuit of a channel, whose packet, where there is one, is to be put.
    ///
    /// 9 NotUp, 40 Restarting, 42 NoSuchChannel, 10 QueueFull but for a message, then as the circuit refuses it, and
    /// else 70 alone.
    // It and what it calls stand in their callers' place, where the kind of the request is known and it needn't be
    // copied whole.
    #[inline(always)]
    pub fn ask(
        &mut self,
        link: LinkState,
        channel: u16,
        request: Request<'_>,
    ) -> Result<(), LayerError>
        ensures { Answers self.old self.new result link (Asks channel (plain_request request.entry)) }
    {
        if let Some(error) = self.closed(link, channel, &request) {
            return Err(error);
        }
        self.ask_ready(channel, request)
    }

    /// Why `ask` would refuse this now, if it would, but for want of memory.
    pub fn refusal(
        &self,
        link: LinkState,
        channel: u16,
        request: &Request<'_>,
    ) -> Option<LayerError>
        ensures { (c : LayerSettings) (l : State) → FitsLayer c self.now l
            → result ≡ declined_for (asked_where c link.is_up link.is_full l
            (Asks channel (plain_request request.now))) }
    {
        if let Some(error) = self.closed(link, channel, request) {
            return Some(error);
        }
        self.circuit_refusal(channel, request)
    }

    // The channel of a new call, or why there is none for any: as `unready`, then 41 NoFreeChannel, then 10 QueueFull.
    fn call_channel(&self, link: LinkState) -> Result<u16, LayerError>
        ensures refused { (c : LayerSettings) (l : State) (called calling user : List ℕ) (proposal : Proposed)
            → FitsLayer c self.now l → IfErr result (λ e. asked_where c link.is_up link.is_full l
            (Dials called calling user proposal) ≡ Declined e) }
        ensures kinds { IfErr result (λ e. e ≢ LayerError.NoMemory) }
        ensures value { (c : LayerSettings) (l : State) → FitsLayer c self.now l
            → IfOk result (λ channel. free_channel c.circuit.role l.circuits c.channels ≡ Some channel) }
        ensures channel { IfOk result (λ channel. is_number (length self.now.circuits.items) channel ≡ true) }
        ensures ready { IfOk result (λ _. self.now.restarting ≡ false) }
        ensures up { IfOk result (λ _. link.is_up ≡ true) }
        ensures free { IfOk result (λ _. link.is_full ≡ false) }
    {
        if let Some(error) = self.unready(link) {
            return Err(error);
        }
        let Some(channel) = self.free_channel() else {
            return Err(LayerError::NoFreeChannel);
        };
        if link.is_full {
            return Err(LayerError::QueueFull);
        }
        Ok(channel)
    }

    /// Calls the other end, with addresses of 0 to 15 digits and at most 16 octets of user data (128 where it may be
    /// long), on the highest free channel at a DTE and on the lowest at a DCE, which it answers. The CALL is to be put.
    /// It proposes these packet sizes and windows: sizes of 4 to 12, and windows of 1 to 7. What isn't the default
    /// stands in the CALL, and with `says_all` what is. ITU-T X.25 (10/96), section 6.12.
    ///
    /// 9 NotUp, 40 Restarting, 41 NoFreeChannel, 10 QueueFull, then 34 BadParameter of the circuit where an address,
    /// the user data, a size or a window is none of these, and else 70 alone.
    pub fn call(
        &mut self,
        link: LinkState,
        called: &str,
        calling: &str,
        user: &[u8],
        proposal: &Proposal,
    ) -> Result<u16, LayerError>
        ensures does { Answers self.old self.new result link
            (Dials called.now calling.now user.now proposal.now) }
        ensures channel { (c : LayerSettings) (l : State) → FitsLayer c self.old l
            → IfOk result (λ channel. free_channel c.circuit.role l.circuits c.channels ≡ Some channel) }
    {
        let channel = self.call_channel(link)?;
        let request = Request::Call {
            called,
            calling,
            user,
            proposal,
        };
        self.ask_ready(channel, request)?;
        Ok(channel)
    }

    /// Why `call` would refuse this now, if it would, but for want of memory.
    pub fn call_refusal(
        &self,
        link: LinkState,
        called: &str,
        calling: &str,
        user: &[u8],
        proposal: &Proposal,
    ) -> Option<LayerError>
        ensures { (c : LayerSettings) (l : State) → FitsLayer c self.now l
            → result ≡ declined_for (asked_where c link.is_up link.is_full l
            (Dials called.now calling.now user.now proposal.now)) }
    {
        let channel = match self.call_channel(link) {
            Ok(channel) => channel,
            Err(error) => return Some(error),
        };
        let request = Request::Call {
            called,
            calling,
            user,
            proposal,
        };
        self.circuit_refusal(channel, &request)
    }
}
