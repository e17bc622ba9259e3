//! What the simulator writes is a run, and what holds of it, as laws about the definition: each is the contract of a
//! function that does nothing.
ghost use Rattle.x25_world.specs.laws.Claims.{ArrivesAll, HasNoProcedureError, IsLawful, IsNamed};
ghost use Rattle.x25_world.specs.laws.ConfirmedClaims.{ConfirmedAreHandedUp};
ghost use Rattle.x25_world.specs.laws.SessionClaims.{AllArrive, AreLawfulWhereMet, AreNamedInSessions, MeetInStep};
ghost use Rattle.x25_world.specs.laws.SessionClaims.{OpenStretchesMeet, UnmetAreToldNothing};
ghost use Rattle.x25_world.specs.laws.SessionWindow.{UpIsInWindow};
ghost use Rattle.x25_sim.specs.laws.RunLaw.{HealBringsAll, HealRestShowsAll, HealIsTheSchedule, OfAllScripts};
ghost use Rattle.x25_sim.specs.laws.RunLaw.{IsInWindow, OfScripts, OfScriptsSetUp};
ghost use Rattle.x25_sim.specs.laws.RunLaw.{ScriptsAreRuns, ScriptsAreTapped, ScriptsAreTold, UpOnceUnlessAsked};
ghost use Rattle.x25_sim.specs.rows.ScriptRows.{BothEndsGoDown, BothEndsHeal, CallsCollide, DamageIsSeen};
ghost use Rattle.x25_sim.specs.rows.ScriptRows.{EventsAreTold};
ghost use Rattle.x25_sim.specs.rows.ScriptRows.{FramesAreWritten, LinkGoesDown, LinkIsSetUp, LinkIsSetUpAgain};
ghost use Rattle.x25_sim.specs.rows.ScriptRows.{LinksComeUp, LinksThatAreDownHeal, LostFrameArrives, LostUaComesAgain};
ghost use Rattle.x25_sim.specs.rows.ScriptRows.{MessagesArrive, OtherLinesAreRefused, ResetIsDone, RestartIsDone};
ghost use Rattle.x25_sim.specs.rows.ScriptRows.{WaitingMessageIsPulled};

use x25_script::lines_are_in_octets;
use x25_world::{healing_brings_all, stations_meet_in_sessions, two_stations_keep_order};

/// For every script: events that are each accepted, and whose users hand down octets, lead from two stations with both
/// links up, or with `down` from both links down, to where the script leads; the entries among what is said are the
/// transcript of that run, and the frames, where they are asked for, its tap.
pub fn scripts_are_runs()
    ensures { ScriptsAreRuns }
{
    lines_are_in_octets();
}

/// For every script, with `down` or without, as long as LinkUp is reported to neither end a second time: what
/// `two_stations_keep_order` says of two stations holds of those to which the script leads, `window` of a script that
/// begins with both links up. By `up_once` to each end of such a script it is reported once where no line is `connect`,
/// so that it has no other premise than those below. For every script transcript and tap are the entries and the frames
/// that are written.
///
/// Premises: k is 1 to 7, N2 1 to 255, channels 1 to 4,095.
pub fn scripts_keep_order()
    ensures lawful { OfScripts IsLawful }
    ensures named { OfScripts IsNamed }
    ensures arrives { OfScripts ArrivesAll }
    ensures quiet { OfScripts HasNoProcedureError }
    ensures window { OfScriptsSetUp IsInWindow }
    ensures up_once { UpOnceUnlessAsked }
    ensures told { ScriptsAreTold }
    ensures tapped { ScriptsAreTapped }
{
    scripts_are_runs();
    two_stations_keep_order();
}

/// For every script, with `down` or without, wherever the link is set up anew: what `stations_meet_in_sessions` says of
/// two stations holds of those to which the script leads.
///
/// Premises: k is 1 to 7, N2 1 to 255, channels 1 to 4,095.
pub fn scripts_meet_in_sessions()
    ensures step { OfAllScripts MeetInStep }
    ensures lawful { OfAllScripts AreLawfulWhereMet }
    ensures named { OfAllScripts AreNamedInSessions }
    ensures arrives { OfAllScripts AllArrive }
    ensures unmet { OfAllScripts UnmetAreToldNothing }
    ensures stand { OfAllScripts OpenStretchesMeet }
    ensures quiet { OfAllScripts HasNoProcedureError }
    ensures window { OfAllScripts UpIsInWindow }
    ensures confirmed { OfAllScripts ConfirmedAreHandedUp }
{
    scripts_are_runs();
    stations_meet_in_sessions();
}

/// A line `heal`, wherever it stands, leads to where the schedule of `World::heal` leads; so behind every script, with
/// `down` or without, rest shows and it brings about what `healing_brings_all` says.
///
/// Premises: k is 1 to 7, N2 1 to 255, channels 1 to 4,095.
pub fn heal_is_the_schedule()
    ensures schedule { HealIsTheSchedule }
    ensures shows { OfAllScripts HealRestShowsAll }
    ensures arrives { OfAllScripts HealBringsAll }
{
    scripts_are_runs();
    healing_brings_all();
}

/// Worked scripts, with what is written and the status: set-up, and with its frames; events; a link that goes down by
/// retries; damage and other refusals; two calls that collide; lines outside of the grammar; a call and its messages;
/// `reset`, `restart` and `disconnect`; `connect` from both links down, also where a UA is lost, and of a link that
/// went down; `heal` where frames are lost one way and both ways, where a message waits in its circuit, and where both
/// links are down.
pub fn scripts_move()
    ensures set_up { LinksComeUp }
    ensures frames { FramesAreWritten }
    ensures events { EventsAreTold }
    ensures down { LinkGoesDown }
    ensures damage { DamageIsSeen }
    ensures collision { CallsCollide }
    ensures unread { OtherLinesAreRefused }
    ensures messages { MessagesArrive }
    ensures reset { ResetIsDone }
    ensures restart { RestartIsDone }
    ensures disconnect { BothEndsGoDown }
    ensures connect { LinkIsSetUp }
    ensures lost_ua { LostUaComesAgain }
    ensures again { LinkIsSetUpAgain }
    ensures healed { LostFrameArrives }
    ensures both_healed { BothEndsHeal }
    ensures pulled { WaitingMessageIsPulled }
    ensures nothing_healed { LinksThatAreDownHeal }
{}
