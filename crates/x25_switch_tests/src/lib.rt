//! Tests of `x25_switch`: each of its public functions with ample memory, and a call through a switch of two lines.
#![tactic(auto)]

#[cfg(test)]
mod legs;
#[cfg(test)]
mod net;
#[cfg(test)]
mod through;
