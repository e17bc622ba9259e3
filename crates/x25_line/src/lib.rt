//! Any two ends, two link stations, or one and any peer, over a line that keeps order and may lose any frame.
//!
//! It runs nothing: its public functions state laws as their contracts.
#![tactic(auto)]

mod healing;
mod law;
mod peers;

pub use healing::{drains_end, one_busy_heals, puts_heal, rest_shows};
pub use law::{
    any_peer_keeps_order, each_event_hands_one, each_session_event_hands_one, links_keep_order,
    links_move, peers_move, sessions_are_links, sessions_keep_order, sessions_move,
    silent_tape_keeps_order, stations_are_peers,
};
pub use peers::{
    any_peer_keeps_sessions, peers_move_over_sessions, stations_are_peers_over_sessions,
    two_ends_keep_sessions,
};
