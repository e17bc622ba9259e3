//! Tests of `x25_io`, and of `decode`, `sim`, `station`, `deframe`, `frame` and `tabs` over readers and writers that
//! fail, or that take and give a few octets at a time; `tests/golden` has worked traces, scripts and sessions.
#![tactic(auto)]

#[cfg(test)]
mod devices;
#[cfg(test)]
mod faults;
#[cfg(test)]
mod lines;
#[cfg(test)]
mod output;
#[cfg(test)]
mod pieces;
#[cfg(test)]
mod runs;
#[cfg(test)]
mod statuses;
