//! A clock beside a station of X.25, of no device: the time is an argument. It knows when timers T1, T3, T20
//! to T23, T25 and T26 pass, and what is then to be asked. ITU-T X.25 (10/96), sections 2.4.8 and Annex D.
#![tactic(auto)]

mod awaited;
mod clock;
mod due;
mod law;
mod times;
mod wait;

pub use clock::Clock;
pub use due::Due;
pub use law::{
    answers_are_told, awaited_deadlines_are_true, nothing_waits_for_ever, pulls_are_heeded_at_once,
    silence_is_told, silent_peer_is_left, windows_rotate,
};
pub use times::Times;
