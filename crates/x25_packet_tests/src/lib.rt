//! Tests of `x25_packet`: packets whose octets come from outside, as equipment sends them, and each of its public
//! functions with ample memory.
#![tactic(auto)]

#[cfg(test)]
mod facilities;
#[cfg(test)]
mod fields;
#[cfg(test)]
mod narrowing;
#[cfg(test)]
mod packets;
#[cfg(test)]
mod views;
#[cfg(test)]
mod wide_packets;
