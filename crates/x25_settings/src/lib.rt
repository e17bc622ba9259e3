//! What the words of the command line of `x25` ask for.
#![tactic(auto)]

mod items;
mod options;
mod words;

pub use options::{
    At, Choice, Command, Decoding, End, GivenTimes, Judging, Place, Simulation, StationOptions,
};
pub use words::{Asked, Refusal, Task, Why, settings};
