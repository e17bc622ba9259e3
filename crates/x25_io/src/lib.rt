//! What programs over readers and writers share: devices that remember a fault, a text in pieces, its lines, the line
//! that has begun, text on its way to a writer, and what ends a run. Profile.
#![tactic(auto)]

mod device;
mod fault;
mod held_line;
mod line_taker;
mod lines;
mod loose;
mod output;
mod pieces;
mod status;

pub use device::{Device, Failed, Sink, Source, write_all};
pub use fault::Fault;
pub use held_line::HeldLine;
pub use line_taker::{LineByLine, LineTaker};
pub use lines::split_line;
pub use loose::{Loosely, split_loose};
pub use output::Output;
pub use pieces::{PIECE, Piece, TextTaker, take_text};
pub use status::exit_status;
