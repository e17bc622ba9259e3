//! What is common to programs that hold stations: what a line asks of a station, and lines that tell of entries, frames
//! and refusals.
//!
//! docs/FORMATS.md has the texts. Profile.
#![tactic(auto)]

mod commands;
mod reporter;
mod telling;

pub use commands::{given_beside, read_octets, read_user, station_command};
pub use reporter::{Reporter, Silent};
pub use telling::{tell, tell_entries, tell_frame, tell_nothing, tell_refusal};
