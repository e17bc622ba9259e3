//! The packets of X.25, modulo 8: their octets and their values.
//!
//! A station sends one form of each packet, and `decode_within` reads that. `decode` reads what ITU-T X.25 (10/96),
//! sections 5 and 7, lets any equipment send: facilities of all classes, addresses with their types, the D bit,
//! causes alone, basic and extended formats.
#![tactic(auto)]

mod block;
mod classes;
pub mod codes;
mod digits;
mod error;
mod facilities;
mod form;
mod grammar;
mod halves;
mod law;
mod made;
mod marks;
mod narrowing;
mod packet;
mod reading;
mod spelling;
mod taking;
mod views;

pub use block::{Block, Fields};
pub use classes::{Own, own_facilities};
pub use digits::{Digits, hold_digits};
pub use error::PacketError;
pub use facilities::{Directions, Facilities, FacilityField};
pub use form::{Form, Forms, Kind};
pub use grammar::{FAST_SELECT_OCTETS, decode};
pub use halves::Halves;
pub use law::{reading_is_the_grammar, taking_keeps_octets};
pub use marks::Marks;
pub use packet::Packet;
pub use reading::{CALL_OCTETS, LONG_CALL_OCTETS, channel, decode_within, longest_user};
pub use spelling::{encode, encode_accept, encode_call};
pub use taking::read;
pub use views::{CallViews, call_views};
pub use x25_bits::{NoMemory, Seq};
