//! Which lines a call is tried on, by its called address: the longest prefix that a route was made for holds.
#![tactic(auto)]

mod error;
mod found;
mod law;
mod route;
mod routes;

pub use error::RouteError;
pub use found::Found;
pub use law::longest_prefix_holds;
pub use route::Route;
pub use routes::Routes;
