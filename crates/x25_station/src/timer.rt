//! What becomes of timer T1 at a step.
ghost use Rattle.std.specs.Prelude.{◌≡◌, not};
ghost use Rattle.x25_station.specs.code.FitsStation.{FitsStation};
ghost use Rattle.x25_station.specs.Config.{Settings};
ghost use Rattle.x25_station.specs.Station.{Station as State};
ghost use Rattle.x25_station.specs.Step.{Did, Step as PlainStep};
ghost use Rattle.x25_station.specs.Timer.{is_acknowledged, pulled_timer, runs as runs_in};
ghost use Rattle.x25_station.specs.Timer.{timer_at};

use crate::station::Station;
use crate::step::Step;

/// What becomes of timer T1 at a step, for one who has a clock: he stops it, sets it anew, or leaves it as it is.
///
/// ITU-T X.25 (10/96), sections 2.4.4.1, 2.4.5.5 and 2.4.5.9.
#[derive(Clone, Copy, Debug, PartialEq, Eq)]
pub enum Timer {
    /// It doesn't run.
    Off,
    /// It runs from its beginning on.
    Begins,
    /// It runs on as it did.
    GoesOn,
}

impl Timer {
    /// What becomes of T1 at a step, of which this is what it does, and a pull behind it, before which it ran or not.
    pub(crate) fn pulled(self, ran: bool, runs: bool) -> Timer
        ensures { result ≡ pulled_timer self ran runs }
    {
        if !runs {
            Timer::Off
        } else if ran {
            self
        } else {
            Timer::Begins
        }
    }
}

impl Station {
    /// What became of T1 at a step, before which it ran or not, by whether it fired and whether the link says that
    /// frames were acknowledged.
    pub(crate) fn timer_behind(
        &self,
        ran: bool,
        has_fired: bool,
        acknowledged: bool,
        out: &Step,
    ) -> Timer
        ensures { (c : Settings) (s : State) (step : PlainStep) → ran ≡ runs_in s → FitsStation c self.now step.near
            → out.now.entries.items ≡ step.entries → acknowledged ≡ is_acknowledged s.link step.near.link
            → result ≡ timer_at s has_fired (Did step) }
    {
        if !self.link.timer_runs() {
            return Timer::Off;
        }
        if !ran | (has_fired | (out.tells_link() | acknowledged)) {
            Timer::Begins
        } else {
            Timer::GoesOn
        }
    }
}
