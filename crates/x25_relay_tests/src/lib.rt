//! Tests of `x25_relay`, `x25_routes` and `x25_crossing`: each of their public functions with ample memory.
#![tactic(auto)]

#[cfg(test)]
mod crossings;
#[cfg(test)]
mod relays;
#[cfg(test)]
mod routes;
