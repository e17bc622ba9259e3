//! What waits between two lines of a switch: the messages of one way of a call, in a ring that is made once. A law says
//! what packets carry that are sent on in another size.
#![tactic(auto)]

mod error;
mod held;
mod law;
mod relay;

pub use error::RelayError;
pub use held::Held;
pub use law::recut_packets_carry_the_same;
pub use relay::{PLACES, Relay};
