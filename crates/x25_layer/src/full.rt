//! Whether the counts of a layer have room.
ghost use Rattle.std.specs.Prelude.{◌≡◌, ℕ, length, false};
ghost use Rattle.x25_circuit.specs.Circuit.{Circuit as Channel};
ghost use Rattle.x25_layer.specs.Layer.{LayerSettings};
ghost use Rattle.x25_layer.specs.Layer.{Layer as State};
ghost use Rattle.x25_layer.specs.code.FitsLayer.{FitsLayer, FitsCircuits, full_up_to, is_full};
ghost use Rattle.x25_layer.specs.Full.{HaveCountsLeft, IsNotFull};

use crate::layer::Layer;
use x25_circuit::Circuit;

// Whether a count of one of the circuits is at its most.
fn any_full(circuits: &[Circuit]) -> bool
    ensures value { (c : LayerSettings) (f : ℕ → Channel) → FitsCircuits c circuits.now f
        → result ≡ full_up_to f (length circuits.now) }
    ensures left { result ≡ false → HaveCountsLeft circuits.now }
{
    for circuit in circuits.iter() {
        let (clears, resets) = circuit.counts();
        if (clears == u64::MAX) | (resets == u64::MAX) {
            return true;
        }
    }
    false
}

impl Layer {
    /// Whether a count of restarts, clears or resets is at 2^64 - 1.
    pub fn full(&self) -> bool
        ensures value { (c : LayerSettings) (l : State) → FitsLayer c self.now l → result ≡ is_full c l }
        ensures left { result ≡ false → IsNotFull self.now }
    {
        if self.counts_left {
            return false;
        }
        self.restarts == u64::MAX || any_full(&self.circuits)
    }
}
