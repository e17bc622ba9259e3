//! Lines of text as records for programs: fields apart by tabs.
//!
//! docs/FORMATS.md has the fields. Profile.
#![tactic(auto)]

mod record;
mod recorder;
mod records;

pub use records::write_records;
