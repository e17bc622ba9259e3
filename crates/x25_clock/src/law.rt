//! What deadlines stand for, and what they are good for: laws, each the contract of a function that does nothing.
ghost use Rattle.x25_clock.specs.laws.AnswerLaw.{AnswerIsTold};
ghost use Rattle.x25_clock.specs.laws.ClockLaw.{DeadlinesAreTrue, TrueStays};
ghost use Rattle.x25_clock.specs.laws.PullLaw.{PullIsHeeded};
ghost use Rattle.x25_clock.specs.laws.SilenceLaw.{IdleIsAsked, IdleIsSinceHeard, NoiseIsUnheard, SilenceEnds};
ghost use Rattle.x25_clock.specs.laws.WaitLaw.{NothingWaits, WindowRotates};
ghost use Rattle.x25_clock.specs.rows.SilentRows.{SilentPeerIsLeft};

use x25_station::{
    silence_is_asked, stations_ask_or_rest, steps_keep_bounds, steps_leave_none, ways_out_lead_on,
};

/// Over any events of a station at any times, each of them heeded, and with what is due asked for at any moments: the
/// deadline of T1 stands exactly while T1 runs, that of an idle link while it is at rest, that of a restart while one
/// is under way, and those of each channel for the answer that it awaits, and for the first data packet that isn't
/// acknowledged; each is its time after a moment since which it is so, or none where that is for ever. Deadlines of
/// which that is so stay such.
pub fn awaited_deadlines_are_true()
    ensures so { DeadlinesAreTrue }
    ensures stays { TrueStays }
{}

/// No silence of the other end leaves a channel waiting. One who heeds each event, lets no moment pass at which
/// something is due, and asks at once what is: then, whatever comes and whatever else is asked, a channel awaits an
/// answer no longer than T21 for a call, T22 for a reset, or T26 and T22 for an interrupt, with T23 and T20 together,
/// or hears of LinkUp or LinkDown before. None of these times is for ever, T26 where an interrupt is awaited. Where 256
/// packets wait in the link as a reset, a clear or a restart is asked, the link is set up anew, and LinkDown is told.
pub fn nothing_waits_for_ever()
    ensures { NothingWaits }
{
    ways_out_lead_on();
    steps_keep_bounds();
}

/// Nor does a window stand still. One who obeys his clock so sees the first data packet that isn't acknowledged stay
/// the first no longer than T25, while the other end is ready to receive, or hears of LinkUp or LinkDown before, where
/// T25 isn't for ever: each P(R) that moves begins it anew, RNR stops it, and as it passes the channel is reset, or the
/// link is set up anew.
pub fn windows_rotate()
    ensures { WindowRotates }
{
    ways_out_lead_on();
    steps_keep_bounds();
}

/// And the answer is told. One who obeys his clock so, while a channel awaits an answer or a restart is under way, is
/// told the answer on that channel, that of the restart, LinkUp or LinkDown within the same time.
pub fn answers_are_told()
    ensures { AnswerIsTold }
{
    nothing_waits_for_ever();
    ways_out_lead_on();
}

/// Nor does a dead line stay unnoticed. One who obeys his clock so polls a link at rest of which nothing is heard after
/// T3 at the latest, and not before T3 since it was heard last; and while UA is awaited, or nothing comes but noise of
/// a link that is up, LinkUp or LinkDown is told after N2 times T1 and once more at the latest, where T1 doesn't run
/// after T3 and that. Neither T1 nor T3 is for ever. Noise, which is no frame that the other end sends, isn't heard and
/// leaves the station as it was.
pub fn silence_is_told()
    ensures ends { SilenceEnds }
    ensures idle { IdleIsAsked }
    ensures since { IdleIsSinceHeard }
    ensures noise { NoiseIsUnheard }
{
    silence_is_asked();
    stations_ask_or_rest();
}

/// Worked rows: beside a peer whose packet layer is silent a DTE calls, clears, restarts, and sets the link up anew, or
/// sends an interrupt, and resets first; each when it is due, and the last at the very moment up to which
/// `nothing_waits_for_ever` lets it wait.
pub fn silent_peer_is_left()
    ensures { SilentPeerIsLeft }
{}

/// One who pulls behind a step may heed both at once: what T1 became at both (`timer_pulled`), what the step tells, and
/// the station behind the pull. His deadlines are then those of one who heeds the step and the pull in turn, at one
/// moment. So what these laws say of one who heeds each is true of him. The link is settled and the deadlines are true,
/// as from a new station on.
pub fn pulls_are_heeded_at_once()
    ensures { PullIsHeeded }
{
    stations_ask_or_rest();
    steps_leave_none();
}
