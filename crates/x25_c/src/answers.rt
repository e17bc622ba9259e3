//! Two answers, one behind the other.
ghost use Rattle.std.specs.Prelude.{◌≡◌};
ghost use Rattle.x25_c.specs.Held.{timer_then};

use x25_station::Timer;

/// What becomes of timer T1 at both: what the later says, and where it goes on there what the first says.
pub(crate) fn then(first: Timer, later: Timer) -> Timer
    ensures { result ≡ timer_then first later }
{
    match later {
        Timer::GoesOn => first,
        _ => later,
    }
}
