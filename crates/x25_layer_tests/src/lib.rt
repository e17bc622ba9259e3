//! Tests of `x25_layer`: its public functions, and which refusal comes first. What a layer answers packet by packet is
//! played by `tests/golden`.
#![tactic(auto)]

#[cfg(test)]
mod calls;
#[cfg(test)]
mod errors;
#[cfg(test)]
mod refusals;
#[cfg(test)]
mod steps;
