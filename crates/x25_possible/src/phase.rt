//! Where an end stands on a channel.
use crate::packet::Terms;

/// The packet size and the window of what an end sends in a call; 0 isn't known.
#[derive(Clone, Copy, PartialEq, Eq)]
pub struct Limits {
    pub most: u16,
    pub window: u8,
}

/// In flow control ready (d1): its limits; its data packets, and how many of these are acknowledged to it; those that
/// it took, and what its last P(R) stood for; Q of the message that has begun; whether an interrupt of its own is out,
/// and how many it has to confirm. Numbers are whole.
#[derive(Clone, Copy, PartialEq, Eq)]
pub struct Talk {
    pub most: u16,
    pub window: u8,
    pub sent: u32,
    pub acked: u32,
    pub taken: u32,
    pub told: u32,
    pub begun: Option<bool>,
    pub is_out: bool,
    pub owed: u32,
}

#[derive(Clone, Copy, Default, PartialEq, Eq)]
pub enum Phase {
    /// p1
    #[default]
    Idle,
    /// p2
    Calls(Terms),
    /// p3
    WasCalled(Terms),
    /// d1
    Talks(Talk),
    /// d2, in a call with these limits
    Resets(Limits),
    /// d3
    WasReset(Limits),
    /// p6
    Clears,
    /// p7
    WasCleared,
    /// r2
    Restarts,
    /// r3
    WasRestarted,
}
