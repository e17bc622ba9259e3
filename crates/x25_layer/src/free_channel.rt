//! The channel that a new call takes. ITU-T X.25 (10/96), sections 4.1.2 and 4.1.3, and Annex A.
ghost use Rattle.std.specs.Prelude.{◌≡◌, ℕ, ◌≤◌, length, true, IfSome};
ghost use Rattle.x25_circuit.specs.Circuit.{Circuit as Channel};
ghost use Rattle.x25_layer.specs.Layer.{LayerSettings};
ghost use Rattle.x25_layer.specs.Ranges.{is_number};
ghost use Rattle.x25_layer.specs.Layer.{Layer as State};
ghost use Rattle.x25_layer.specs.Calls.{lowest_free, highest_free, first_free, free_channel};
ghost use Rattle.x25_layer.specs.code.FitsLayer.{FitsLayer, FitsCircuits};

use crate::layer::Layer;
use x25_bits::Role;
use x25_circuit::Circuit;

fn lowest_free(circuits: &[Circuit]) -> Option<u16>
    requires { length circuits.now ≤ 4095 }
    ensures value { (c : LayerSettings) (f : ℕ → Channel) → FitsCircuits c circuits.now f
        → result ≡ lowest_free f (length circuits.now) }
    ensures some { IfSome result (λ channel. is_number (length circuits.now) channel ≡ true) }
{
    let mut channel = 0;
    for circuit in circuits {
        channel += 1;
        if circuit.is_free() {
            return Some(channel);
        }
    }
    None
}

fn highest_free(circuits: &[Circuit]) -> Option<u16>
    requires { length circuits.now ≤ 4095 }
    ensures value { (c : LayerSettings) (f : ℕ → Channel) → FitsCircuits c circuits.now f
        → result ≡ highest_free f (length circuits.now) }
    ensures some { IfSome result (λ channel. is_number (length circuits.now) channel ≡ true) }
{
    let mut channel = circuits.len();
    while channel > 0 {
        if circuits[channel - 1].is_free() {
            return Some(channel as u16);
        }
        channel -= 1;
    }
    None
}

impl Layer {
    // The highest free channel at a DTE, and the lowest at a DCE.
    fn first_free(&self) -> Option<u16>
        ensures value { (c : LayerSettings) (l : State) → FitsLayer c self.now l
            → result ≡ first_free c.circuit.role l.circuits c.channels.count }
        ensures some { IfSome result (λ channel. is_number (length self.now.circuits.items) channel ≡ true) }
    {
        match self.role {
            Role::Dte => highest_free(&self.circuits),
            Role::Dce => lowest_free(&self.circuits),
        }
    }

    /// The channel that a new call takes: the highest free one at a DTE, and the lowest at a DCE, of those that aren't
    /// kept for calls of the other end.
    pub(crate) fn free_channel(&self) -> Option<u16>
        ensures value { (c : LayerSettings) (l : State) → FitsLayer c self.now l
            → result ≡ free_channel c.circuit.role l.circuits c.channels }
        ensures some { IfSome result (λ channel. is_number (length self.now.circuits.items) channel ≡ true) }
    {
        let channel = self.first_free()?;
        if self.ranges.may_call(self.role, channel) {
            Some(channel)
        } else {
            None
        }
    }
}
