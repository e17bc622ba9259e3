//! One logical channel of X.25 at one end. ITU-T X.25 (10/96), sections 4 and Annex C.
#![tactic(auto)]

mod awaits;
mod calling;
mod cause;
mod circuit;
mod clearing;
mod codes;
mod cutter;
mod error;
mod hearing;
mod law;
mod message;
mod notice;
mod octets;
mod owed;
mod params;
mod proposal;
mod pulling;
mod queue;
mod request;
mod requested;
mod sent;
mod setting_up;
mod state;
mod talking;
mod terms;
mod transfer;

pub use awaits::Awaits;
pub use cause::may_restart_for;
pub use circuit::Circuit;
pub use error::CircuitError;
pub use law::{messages_are_carried, values_are_agreed, what_waits_is_pulled};
pub use notice::{Notice, Reply};
pub use octets::{LONGEST_MESSAGE, Octets};
pub use owed::Owed;
pub use params::Params;
pub use proposal::Proposal;
pub use pulling::DataPacket;
pub use request::Request;
pub use requested::Requested;
pub use x25_bits::Role;
pub use x25_packet::Marks;
