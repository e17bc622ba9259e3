//! The LAPB station of ITU-T X.25 (10/96), section 2, modulo 8.
#![tactic(auto)]

mod calls;
mod error;
mod frames;
mod frmr;
mod heard;
mod hearing;
mod law;
mod link;
mod numbered_frames;
mod outgoing;
mod phase;
mod places;
mod station;

pub use error::LinkError;
pub use frames::Frames;
pub use heard::Heard;
pub use law::{
    asks_and_answers, comes_to_rest, follows_the_window, holds_few, notes_what_changes,
    sets_up_by_rows, tells_whether_busy,
};
pub use link::Link;
pub use phase::{Closing, Ending, Notes, Phase, Reason};
pub use x25_bits::Role;
