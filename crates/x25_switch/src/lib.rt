//! A switch: calls between the stations of several lines.
#![tactic(auto)]

mod call;
mod calls;
mod law;
mod leg;
mod refusal;
mod request;
mod round;
mod switch;
mod telling;

pub use law::calls_run_by_events;
pub use leg::{Kind, ask};
pub use round::Round;
pub use switch::Switch;
pub use telling::told_of;
