//! What happens to a station that may refuse it.
ghost use Rattle.std.specs.Prelude.{◌≡◌, false};
ghost use Rattle.x25_station.specs.Config.{Settings};
ghost use Rattle.x25_station.specs.Station.{Station as State};
ghost use Rattle.x25_station.specs.code.Clock.{TellsTimer};
ghost use Rattle.x25_station.specs.code.FitsStation.{FitsStation, Does, RefusesOnly};
ghost use Rattle.x25_station.specs.laws.TimerLaw.{is_firing, outcome};
ghost use Rattle.x25_c.specs.Happening.{may_lack_at};
ghost use Rattle.x25_c.specs.code.Happens.{event_of};

use x25_station::{Cmd, Station, StationError, Step};

/// What happens to a station that may refuse it.
#[derive(Clone, Copy)]
pub(crate) enum Happening<'a> {
    /// The user asks for something.
    Asks(Cmd<'a>),
    /// Timer T1 fired.
    Fires,
}

/// Lets it happen to a station.
// In each export the event is known, so that nothing is left of it.
pub(crate) fn happen(
    station: &mut Station,
    event: Happening<'_>,
    out: &mut Step,
) -> Result<(), StationError>
    ensures does { Does station.old station.new out.new result (λ c s. outcome c s (event_of event.entry)) }
    ensures only { may_lack_at (event_of event.entry) ≡ false → (c : Settings) (s : State) → FitsStation c station.old s
        → RefusesOnly result (outcome c s (event_of event.entry)) }
    ensures timer { TellsTimer station.old out.new.timer result (is_firing (event_of event.entry))
        (λ c s. outcome c s (event_of event.entry)) }
{
    match event {
        Happening::Asks(command) => station.command(command, out),
        Happening::Fires => station.t1(out),
    }
}
