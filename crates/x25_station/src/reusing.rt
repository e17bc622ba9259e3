//! A step to which nothing is answered.
ghost use Rattle.std.specs.Prelude.{◌≡◌};
ghost use Rattle.x25_station.specs.code.FitsStation.{FitsStation, IsEmpty};
ghost use Rattle.x25_station.specs.Config.{Settings};
ghost use Rattle.x25_station.specs.Station.{Station as State};
ghost use Rattle.x25_station.specs.Timer.{standing};

use crate::station::Station;
use crate::step::Step;
use crate::timer::Timer;

impl Station {
    /// Takes a step back that was read, of this station or of another, and leaves it empty. Timer T1 goes on in it, or
    /// is off.
    pub fn reuse(&self, out: &mut Step)
        ensures empty { IsEmpty out.new }
        ensures timer { (c : Settings) (s : State) → FitsStation c self.now s → out.new.timer ≡ standing s }
    {
        out.clear();
        out.timer = Timer::GoesOn.pulled(true, self.link.timer_runs());
    }
}
