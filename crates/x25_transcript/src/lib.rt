//! The text of the entries of a transcript: one line each.
//!
//! docs/FORMATS.md has the texts. Profile.
#![tactic(auto)]

mod entry_text;

pub use entry_text::{entry_line, push_entry};
