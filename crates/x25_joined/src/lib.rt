//! Two programs `x25 station`, or one and any peer, joined by a line that keeps order and may lose or visibly damage
//! any frame: what they write is a run of two stations, or of one beside that peer, and what holds of it.
//!
//! It runs nothing: its public functions state laws as their contracts.
#![tactic(auto)]

mod law;

pub use law::{
    any_peer_keeps_programs, any_peer_keeps_timed_programs, programs_meet_in_sessions,
    programs_move, programs_move_beside_peers, timed_program_is_a_program,
    timed_programs_meet_in_sessions, timed_programs_move, timed_programs_obey_their_clock,
    two_programs_are_a_world, two_programs_keep_order, two_timed_programs_keep_order,
};
