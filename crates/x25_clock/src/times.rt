ghost use Rattle.std.specs.Prelude.{◌≡◌};
ghost use Rattle.x25_clock.specs.Times.{standard};

use x25_station::Role;

/// How long each answer may take, in milliseconds; 0 is for ever.
#[derive(Clone, Copy, Debug, PartialEq, Eq)]
pub struct Times {
    /// T1: what is sent is acknowledged, and a SABM or a poll is answered. Section 2.4.8.1.
    pub t1: u32,
    /// T3: an idle link goes so long without being polled. Section 2.4.8.3.
    pub t3: u32,
    /// T20 of a DTE, T10 of a DCE: a restart is confirmed. Annex D, as those below.
    pub t20: u32,
    /// T21, or T11: a call is accepted.
    pub t21: u32,
    /// T22, or T12: a reset is confirmed.
    pub t22: u32,
    /// T23, or T13: clearing is confirmed.
    pub t23: u32,
    /// T25: a data packet is acknowledged, counted anew as P(R) moves, and not while the other end isn't ready to
    /// receive. For ever unless it is set (profile).
    pub t25: u32,
    /// T26: an interrupt is confirmed. Annex D has none of a DCE.
    pub t26: u32,
}

impl Times {
    /// Those of Annex D, and of the link 3 seconds for T1 and 60 for T3 (profile).
    pub fn standard(end: Role) -> Times
        ensures { result ≡ standard end }
    {
        match end {
            Role::Dte => Times {
                t1: 3_000,
                t3: 60_000,
                t20: 180_000,
                t21: 200_000,
                t22: 180_000,
                t23: 180_000,
                t25: 0,
                t26: 180_000,
            },
            Role::Dce => Times {
                t1: 3_000,
                t3: 60_000,
                t20: 60_000,
                t21: 180_000,
                t22: 60_000,
                t23: 60_000,
                t25: 0,
                t26: 0,
            },
        }
    }
}
