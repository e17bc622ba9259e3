//! The text that a trace shows: frames and packets on one line, in a buffer that was set aside.
//!
//! docs/FORMATS.md has the texts. Profile.
#![tactic(auto)]

mod frame_text;
mod hexadecimal;
mod packet_text;
mod text;
mod wide_frame_text;
mod wide_packet_text;

pub use frame_text::{MOST_TEXT, push_fault, push_frame};
pub use hexadecimal::{
    is_hexadecimal, lowest_set, read_digits, read_hexadecimal, read_line, write_hexadecimal,
};
pub use packet_text::{MOST_PACKET_TEXT, push_information, push_packet};
pub use text::{MOST_OCTETS, MOST_ROOM, ROOM, Text, digit};
pub use wide_frame_text::{push_other_frame, push_wide_frame};
pub use wide_packet_text::{push_wide_information, push_wide_packet};
