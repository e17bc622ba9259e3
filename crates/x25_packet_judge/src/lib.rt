//! The rules of the packet layer, judged of a trace: which of them a frame breaks by the packet that it carries.
//!
//! docs/JUDGE.md has the rules and what is said of them. Profile.
#![tactic(auto)]

mod book;
mod channel;
mod channels;
mod item;
mod law;
mod layers;
mod numbers;
mod packet_rule;
mod packet_rule_text;
mod reason;

pub use book::{Book, Noted, Verdict};
pub use law::{books_follow_tapes, books_tell_exactly, innocent_tapes_stay_untold, restarts_begin};
pub use numbers::{apart, less};
pub use packet_rule::PacketRule;
