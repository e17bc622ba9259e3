//! Tests of `x25_circuit`: each of its public functions with ample memory. What a circuit answers packet by packet is
//! played by `tests/golden`.
#![tactic(auto)]

#[cfg(test)]
mod calls;
#[cfg(test)]
mod requests;
#[cfg(test)]
mod steps;
