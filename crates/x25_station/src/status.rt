//! What a station tells of itself.
use x25_layer::{Awaits, Stretch};

/// How a station stands.
#[derive(Clone, Copy, Debug, PartialEq, Eq)]
pub struct Status {
    /// The link is at rest: it is up, no packet waits in it, all that was sent is acknowledged, and timer T1 doesn't
    /// run. Messages may wait in circuits.
    pub is_at_rest: bool,
    /// The link is being set up: a SABM was sent, and its UA is awaited.
    pub awaits_ua: bool,
    /// A restart is under way: this end awaits that its RESTART be confirmed.
    pub is_restarting: bool,
    /// Timer T1 runs: exactly where `t1` isn't refused with 11.
    pub timer_runs: bool,
}

/// How a channel of a station stands.
#[derive(Clone, Copy, Debug, PartialEq, Eq)]
pub struct Channel {
    /// The answer that this end awaits; none where the channel isn't configured, while a restart is under way, and
    /// where the link isn't up.
    pub awaits: Awaits,
    /// How many messages more it takes: 8 less those that wait, where it is open and the link is up, and else 0. A
    /// message that isn't too long, of which confirmation isn't asked or may be, is refused exactly where it is 0, but
    /// for want of memory.
    pub room: usize,
    /// How many messages haven't the confirmation yet that was asked of them: they wait, or their last packet isn't
    /// acknowledged. 0 where the channel isn't configured.
    pub unconfirmed: usize,
    /// P(S) of the first data packet that isn't acknowledged, while the other end is ready to receive.
    pub unacknowledged: Option<u8>,
    /// The name of the stretch that is open, in p4 with d1, where one is.
    pub stretch: Option<Stretch>,
}
