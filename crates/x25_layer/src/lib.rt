//! The packet layer of X.25 at one end: restart, and its logical channels. It answers packets, and knows no link.
//! ITU-T X.25 (10/96), sections 3 and 4.
#![tactic(auto)]

mod asking;
mod busy;
mod calls;
mod circuits;
mod error;
mod free_channel;
mod full;
mod law;
mod layer;
mod link_state;
mod pulling;
mod ranges;
mod receiving;
mod report;
mod restarting;
mod sheet;
mod stretch;

pub use error::LayerError;
pub use law::{
    acknowledged_are_handed_up, any_peer_keeps_transcripts, apart_layers_keep_order,
    calls_are_runs, each_channel_has_its_turn, each_end_is_by_itself, layers_are_ends,
    messages_wait_for_users, names_are_told, two_layers_keep_order,
};
pub use layer::Layer;
pub use link_state::LinkState;
pub use ranges::Ranges;
pub use report::Report;
pub use stretch::Stretch;
pub use x25_bits::Role;
pub use x25_circuit::{Awaits, Params, Proposal};
