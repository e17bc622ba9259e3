//! What an end of a link that keeps rules may be, told of by a tape.
#![tactic(auto)]

mod frame;
mod law;
mod link;
mod set;
mod spots;
mod stand;

pub use frame::Frame;
pub use law::{guilty_are_told, innocents_stay_untold, links_tell_exactly, rows_are_told};
pub use set::{Facts, LinkSet, Told};
pub use spots::{Spot, Spots};
pub use stand::{Numbers, Stand};
