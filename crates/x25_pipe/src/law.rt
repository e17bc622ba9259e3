//! What is written for worked input, and that a clock is obeyed: laws, each the contract of a function that does
//! nothing.
ghost use Rattle.x25_pipe.specs.laws.ClockedLaw.{DueIsDone, EventIsDone, NothingIsDue, PipeIsWatched};
ghost use Rattle.x25_pipe.specs.rows.PipeRows.{CallGoesOut, MarkComesFirst, OthersAreRefused};

use x25_clock::{awaited_deadlines_are_true, pulls_are_heeded_at_once};
use x25_station::stations_ask_or_rest;

/// The answers to lines of a trace and of a script, each with its mark, as text.
pub fn answers_as_worked()
    ensures first { MarkComesFirst }
    ensures call { CallGoesOut }
    ensures others { OthersAreRefused }
{}

/// What `timed_station` does with its clock is what one does who obeys it, of whom the laws of `x25_clock` speak. An
/// event that a line asks for happens at the time that was said last, and the pull behind it too, where it is accepted;
/// and so does what is told as due, which is asked. k is at most 7, the link is settled, and the deadlines are true, as
/// from a new station on.
/// Behind a line that says the time, be it the first one, nothing is due: at one moment each channel is at most twice,
/// by what it awaits and by T25, beside T1, an idle link and a restart, and each is asked once. So what any lines lead
/// to is what some moments do, of which `awaited_deadlines_are_true` speaks: what came before the first time is as if
/// it came at that time.
pub fn clock_is_obeyed()
    ensures event { EventIsDone }
    ensures due { DueIsDone }
    ensures nothing { NothingIsDue }
    ensures watched { PipeIsWatched }
{
    stations_ask_or_rest();
    pulls_are_heeded_at_once();
    awaited_deadlines_are_true();
}
