//! Tests of `x25_station`: each of its public functions with ample memory, and octets that no table chose. What a
//! station answers line by line is played by `tests/golden`.
#![tactic(auto)]

#[cfg(test)]
mod calls;
#[cfg(test)]
mod channels;
#[cfg(test)]
mod confirmed;
#[cfg(test)]
mod errors;
#[cfg(test)]
mod given;
#[cfg(test)]
mod octets;
#[cfg(test)]
mod reused;
#[cfg(test)]
mod settings;
#[cfg(test)]
mod steps;
