//! One call through a switch: its two legs, what waits between them, and what is to be asked of the stations.
#![tactic(auto)]

mod ask;
mod asking;
mod cause;
mod crossing;
mod law;
mod leg;
mod rows;
mod side;
mod stage;
mod told;

pub use ask::{Ask, Flow};
pub use cause::{clear_goes_on, reset_goes_on};
pub use crossing::Crossing;
pub use law::{calls_end_at_both_legs, causes_may_be_given, next_goes_out};
pub use side::Side;
pub use stage::Stage;
pub use told::Told;
