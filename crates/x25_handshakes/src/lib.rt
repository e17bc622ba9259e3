//! The rules that a packet layer keeps (docs/PEER.md), and what holds of any two that keep them, as handshakes within
//! handshakes: in each epoch of restart, clear and reset.
//!
//! It runs nothing: its public functions state, as their contracts, what the theorem of the packet layer stands on.
#![tactic(auto)]

mod law;

pub use law::{peers_move, two_layers_keep_order, two_peers_keep_order};
