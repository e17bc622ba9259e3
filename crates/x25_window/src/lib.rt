//! The window of a link or of a logical channel: what is sent and not yet acknowledged, and what is taken next.
#![tactic(auto)]

mod receiver;
mod sender;
mod window_error;

pub use receiver::Receiver;
pub use sender::Sender;
pub use window_error::WindowError;
