//! The frames of LAPB, modulo 8: their octets and their values.
//!
//! ITU-T X.25 (10/96), sections 2.2 and 2.3.
#![tactic(auto)]

mod address;
mod codes;
mod error;
mod frame;
mod law;
mod reading;
mod spelling;

pub use address::command_address;
pub use error::FrameError;
pub use frame::{Frame, N1};
pub use law::{reading_is_the_grammar, reads_what_is_spelled};
pub use reading::decode;
pub use spelling::encode;
pub use x25_bits::{NoMemory, Role, Seq};
