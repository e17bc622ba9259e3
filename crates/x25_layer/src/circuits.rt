//! All circuits of a layer at once.
ghost use Rattle.std.specs.Prelude.{◌≡◌, ◌≤◌, ℕ, length, vec_capacity, IfOk, IfErr};
ghost use Rattle.x25_circuit.specs.Circuit.{forgotten};
ghost use Rattle.x25_circuit.specs.Circuit.{Circuit as Channel};
ghost use Rattle.x25_layer.specs.Layer.{LayerSettings, at_rest};
ghost use Rattle.x25_layer.specs.Ranges.{two_way};
ghost use Rattle.x25_layer.specs.code.FitsLayer.{FitsCircuits};

use crate::error::LayerError;
use std::alloc::Global;
use x25_bits::Role;
use x25_circuit::Circuit;

/// So many circuits that were never used, of messages of so many octets at most.
pub(crate) fn begun_circuits(
    alloc: Global,
    role: Role,
    channels: usize,
    long_data: bool,
    longest: u16,
) -> Result<Vec<Circuit>, LayerError>
    ensures fits { IfOk result (λ v. FitsCircuits
        (record {
          channels = two_way channels;
          circuit = record {
            role = role;
            long_data = long_data;
            longest = longest;
          };
        }) v.items at_rest.circuits) }
    ensures count { IfOk result (λ v. length v.items ≡ channels) }
    ensures places { IfOk result (λ v. vec_capacity v ≡ channels) }
    ensures message { longest ≤ 65535 }
    ensures err { IfErr result (λ e. e ≡ LayerError.NoMemory) }
{
    let Ok(mut circuits) = Vec::with_capacity(alloc, channels) else {
        return Err(LayerError::NoMemory);
    };
    for _ in 0..channels {
        let Ok(circuit) = Circuit::with(alloc, role, long_data, longest) else {
            return Err(LayerError::NoMemory);
        };
        circuits.push_reserved(circuit);
    }
    Ok(circuits)
}

/// All circuits are as if never used.
pub(crate) fn begin_all(circuits: &mut Vec<Circuit>)
    ensures fits { (c : LayerSettings) (f : ℕ → Channel) → FitsCircuits c circuits.old.items f
        → FitsCircuits c circuits.new.items at_rest.circuits }
    ensures count { length circuits.new.items ≡ length circuits.old.items }
{
    for circuit in circuits.iter_mut() {
        circuit.forget();
        circuit.zero();
    }
}

/// All circuits go to p1, with everything dropped. Their counts are as they were.
pub(crate) fn forget_all(circuits: &mut Vec<Circuit>)
    ensures fits { (c : LayerSettings) (f : ℕ → Channel) → FitsCircuits c circuits.old.items f
        → FitsCircuits c circuits.new.items (λ k. forgotten (f k)) }
    ensures count { length circuits.new.items ≡ length circuits.old.items }
{
    for circuit in circuits.iter_mut() {
        circuit.forget();
    }
}
