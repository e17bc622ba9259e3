//! One station of X.25 behind a pipe: lines of a trace that come to it and lines of a script of its user are answered
//! by what it does and by what its timer T1 does, or by when something is due of its timers, over any readers and
//! writers.
//!
//! docs/MANUAL.md says how the lines are written. Profile.
#![tactic(auto)]

mod answerer;
mod law;
mod pipe;
mod reporting;
mod running;
mod telling;
mod timed;
mod timed_answerer;

pub use law::{answers_as_worked, clock_is_obeyed};
pub use running::{station, timed_station};
pub use telling::{channel_of, tell_timeout};
pub use timed::time_said_in;
pub use x25_clock::Times;
pub use x25_console::{Reporter, Silent};
pub use x25_io::{Device, Failed, Fault, Sink, Source};
pub use x25_station::{Cfg, Role};
