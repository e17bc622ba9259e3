//! Tests of `x25_bits`, `x25_frame` and `x25_window`: vectors from outside, worked runs, and each of their public
//! functions with ample memory. `tests/golden` has octets of synchronous lines.
#![tactic(auto)]

#[cfg(test)]
mod deframing;
#[cfg(test)]
mod errors;
#[cfg(test)]
mod frames;
#[cfg(test)]
mod harmless_bits;
#[cfg(test)]
mod lent_spans;
#[cfg(test)]
mod numbers;
#[cfg(test)]
mod octets;
#[cfg(test)]
mod raw;
#[cfg(test)]
mod receiving;
#[cfg(test)]
mod sealing;
#[cfg(test)]
mod sending;
#[cfg(test)]
mod spans;
