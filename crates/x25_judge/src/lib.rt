//! The judge of a trace, over any reader and writer: which end broke which rule of the link layer or of the packet
//! layer.
//!
//! docs/FORMATS.md has the lines, and docs/JUDGE.md what is said of them. Profile.
#![tactic(auto)]

mod answerer;
mod counts;
mod doubt;
mod held;
mod judge;
mod judging;
mod law;
mod links;
mod manners;
mod midst;
mod note;
mod rule;
mod rule_text;

pub use doubt::At;
pub use judge::Strictness;
pub use judging::judge_lines;
pub use law::{
    guilty_are_told, sessions_stay_untold, set_ups_begin, silence_means_one_packet,
    silence_means_order, silence_means_rules_kept, stations_stay_untold,
};
pub use x25_possible::Defaults;
