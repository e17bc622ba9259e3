//! A simulator of two stations of X.25 and a line between them: scripts answered by transcripts, over any readers and
//! writers.
//!
//! docs/MANUAL.md says how scripts are written. Profile.
#![tactic(auto)]

mod law;
mod running;
mod simulator;
mod stage;
mod telling;

pub use law::{
    heal_is_the_schedule, scripts_are_runs, scripts_keep_order, scripts_meet_in_sessions,
    scripts_move,
};
pub use running::sim;
pub use stage::Shown;
pub use x25_console::{Reporter, Silent};
pub use x25_io::{Device, Failed, Fault, Sink, Source};
pub use x25_station::{Cfg, Ranges};
