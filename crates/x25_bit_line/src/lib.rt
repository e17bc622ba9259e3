//! A synchronous line as octets, over any reader and writer: the spans between its flags as lines of a trace, and lines
//! of a trace as frames between flags.
//!
//! docs/FORMATS.md has the lines. Profile.
#![tactic(auto)]

mod deframing;
mod finder;
mod frame_sender;
mod framing;
mod law;
mod line_bits;
mod span_lines;
mod spans;

pub use deframing::deframe;
pub use framing::frame;
pub use law::trace_comes_back;
pub use x25_bits::Role;
