//! A switch between two lines: its stations, each at a line with any peer that keeps the rules of docs/PEER.md.
//!
//! It runs nothing: the public function states a law as its contract.
#![tactic(auto)]

mod law;

pub use law::{calls_come_through, messages_come_through_the_switch, messages_go_through_switches};
