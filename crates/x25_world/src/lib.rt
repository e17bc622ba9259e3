//! Two stations of X.25 and a line between them that keeps order and may lose or visibly damage any frame.
#![tactic(auto)]

mod acting;
mod bit_damage;
mod error;
mod event;
mod healing;
mod law;
mod line;
mod set_up;
mod told;
mod world;

pub use error::WorldError;
pub use event::{Event, SABM_ARRIVES, UA_ARRIVES};
pub use healing::{Healed, healing_brings_all, stations_heal};
pub use law::{
    hands_down_octets, messages_wait_for_users, stations_meet_in_sessions, two_stations_keep_order,
    two_stations_move, worlds_hold_few,
};
pub use told::Entered;
pub use world::World;
pub use x25_bits::{Bits, Direction, Role};
