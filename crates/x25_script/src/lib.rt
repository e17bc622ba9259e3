//! The lines of a script: what a user asks of the simulator of two stations and a line.
//!
//! docs/FORMATS.md has their forms. Profile.
#![tactic(auto)]

mod command;
mod fields;
mod given;
mod hex_digits;
mod law;
mod params;
mod reading;
mod script_line;

pub use given::Given;
pub use hex_digits::HexDigits;
pub use law::{lines_are_in_octets, reading_is_the_grammar};
pub use reading::{read_command, read_line};
pub use script_line::{Beside, Command, ScriptTaker};
pub use x25_bits::Role;
