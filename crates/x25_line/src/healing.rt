//! Healing: once the line is good for a moment, everything arrives. Laws of two link stations over a line, set up and
//! set up again at any moment, each the contract of a function that does nothing.
ghost use Rattle.x25_line.specs.Healing.{EachRestShows, SessionsDrainEnd, SomeSessionsDrain};
ghost use Rattle.x25_line.specs.Healing.{SessionsHealUnlessBothBusy};
ghost use Rattle.x25_line.specs.laws.HealingOnce.{RestShows, HealsUnlessBothBusy, PutsHeal};
ghost use Rattle.x25_line.specs.laws.HealingPuts.{PutsHealSessions};
ghost use Rattle.x25_line.specs.laws.SessionClaims.{Throughout};
ghost use Rattle.x25_line.specs.rows.HealingRows.{OneBusyIsReached};
ghost use Rattle.x25_line.specs.laws.StationClaims.{Always};

use crate::law::laws_below;

/// After each list of events: an end that is Up and whose timer T1 doesn't run is at rest; and where the other end is
/// Up too or met its session, all that it was handed down in it has been handed up there. Whatever is on the line then
/// changes nothing of this. As long as the link isn't set up anew, all that was handed down has been handed up,
/// whenever T1 runs out (`once`).
pub fn rest_shows()
    ensures once { Always RestShows }
    ensures sessions { Throughout EachRestShows }
{
    laws_below();
}

/// Deliver, fire once at each end, deliver: everything sent has arrived, in order, once, and both ends are at rest.
/// From each moment in which nothing is on the line and not both ends are Up and busy: timer T1 runs out once at each
/// end where it runs, and then all that is on the line comes, in any order of the two directions. Whatever the phases
/// of the ends and their tries are, each is at rest or not Up then; and if both were Up, with tries left where T1 ran,
/// both are at rest, each in the session that it was in, and all that was handed down in these has been handed up in
/// that of the other. So it is of a link that is set up once, whenever T1 ran out before (`whatever`).
///
/// Worked moments with one busy end (`reached`): the other has left Up, or asks for set-up, or the busy end's only try
/// is made.
pub fn one_busy_heals()
    ensures whatever { Always HealsUnlessBothBusy }
    ensures each_session { SessionsHealUnlessBothBusy }
    ensures reached { OneBusyIsReached }
{
    laws_below();
}

/// The same while packets are handed down: from a moment in which nothing is on the line, both ends are Up, neither is
/// busy, and tries are left where timer T1 runs. Both fire, and then all that is on the line comes, while packets are
/// put at either end, in any order of these, where neither end is busy as octets come, nor at the end. Once nothing is
/// on the line, both ends are at rest, each in the session that it was in, and all that was handed down in these, then
/// and since, has been handed up in that of the other. So it is of a link that is set up once (`at_once`).
pub fn puts_heal()
    ensures at_once { Always PutsHeal }
    ensures sessions { PutsHealSessions }
{
    laws_below();
}

/// Each line drains: from every world that events lead to, from nothing as well as from a link just set up, whenever
/// timer T1 runs out, in whichever phases and busy or not, with any frame lost or damaged, deliveries alone come to an
/// end, as the world bounds how many find octets, in whichever order (`sessions`). So there are deliveries after which
/// nothing is on the line (`some_sessions`).
pub fn drains_end()
    ensures sessions { SessionsDrainEnd }
    ensures some_sessions { SomeSessionsDrain }
{
    laws_below();
}
