//! What lies below the frames of X.25: bits, flags and stuffing, the frame check sequence, and numbers modulo 8.
#![tactic(auto)]

mod bits;
mod contents;
mod deframer;
mod direction;
mod found;
mod frame_check;
mod frame_check_table;
mod harmless_bits;
mod idling;
mod kept;
mod laws;
mod line_octets;
mod no_memory;
mod octet_table;
mod octets;
mod passing;
mod role;
mod scan;
mod seq;
mod skipping;
mod stretches;
mod stuffing;
mod stuffing_table;

pub use bits::Bits;
pub use deframer::Deframer;
pub use direction::Direction;
pub use found::{Found, Span};
pub use frame_check::{check, fcs, seal};
pub use harmless_bits::{first_content, harmless};
pub use laws::{
    calls_find_all, content_stuffs_again, cuts_agree, flag_parts, harmless_bits_lose_a_frame,
    put_is_found, sealed_is_tested, stuffing_is_undone,
};
pub use line_octets::put_octets;
pub use no_memory::NoMemory;
pub use octets::{append_octets, with_octets};
pub use role::Role;
pub use seq::Seq;
pub use stuffing::put;
