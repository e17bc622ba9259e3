//! `decode` and the stored test vectors, over any readers and writers: lines of a trace answered by lines of text.
//!
//! docs/FORMATS.md has the lines and their answers. Profile.
#![tactic(auto)]

mod answer;
mod decoder;
mod decoding;
mod law;
mod loose_decoder;
mod test_vectors;

pub use answer::{Reading, mark, push_gap, read_gap, read_sent};
pub use decoding::decode_lines;
pub use law::long_lines_send_nothing;
pub use test_vectors::{vectors, vectors_hold};
