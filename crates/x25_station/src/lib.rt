//! A station of X.25: the LAPB link and the packet layer joined, at one end. ITU-T X.25 (10/96), sections 2 to 4.
#![tactic(auto)]

mod asking;
mod beside;
mod command;
mod config;
mod confirming;
mod driving;
mod entering;
mod entries;
mod entry;
mod error;
mod giving;
mod law;
mod lent;
mod linking;
mod pulling;
mod receiving;
mod reusing;
mod station;
mod status;
mod step;
mod text;
mod timer;

pub use command::Cmd;
pub use config::Cfg;
pub use entries::Entries;
pub use entry::{Asked, Entry, Told};
pub use error::StationError;
pub use law::{
    confirmed_is_acknowledged, deadlines_are_true, disconnects_are_told, puts_are_readable,
    puts_beside_peers_are_readable, silence_is_asked, stations_ask_or_rest, stations_hold_few,
    steps_are_joined, steps_keep_bounds, steps_leave_none, ways_out_lead_on, what_is_given_is_told,
};
pub use lent::Lent;
pub use station::Station;
pub use status::{Channel, Status};
pub use step::{MOST_ENTRIES, MOST_FRAMES, Step};
pub use timer::Timer;
pub use x25_bits::Role;
pub use x25_circuit::Marks;
pub use x25_frame::N1;
pub use x25_given::Given;
pub use x25_layer::{Awaits, Ranges};
pub use x25_link::Frames;
