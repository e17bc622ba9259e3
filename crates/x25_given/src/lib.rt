//! What a user gives beside a packet of his own: facilities, user data and the D bit, and the packet's octets with it.
//! ITU-T X.25 (10/96), sections 5.2.1 to 5.2.3, 6.16 and 7.1.
#![tactic(auto)]

mod given;
mod law;
mod writing;

pub use given::Given;
pub use law::what_is_written_is_read;
pub use writing::Writing;
