//! What an end that keeps rules may be, told of by a tape.
#![tactic(auto)]

mod channel;
mod law;
mod packet;
mod phase;
mod set;
mod spots;

pub use law::{
    channel_tells_exactly, found_stay_untold, guilty_are_told, innocents_stay_untold,
    polite_stay_untold, rows_are_told, sets_stay_known, sets_tell_exactly, tells_exactly,
};
pub use packet::{Defaults, Packet, Said, Sizes, Terms, Windows};
pub use phase::{Limits, Phase, Talk};
pub use set::{Knowledge, Set, Told};
