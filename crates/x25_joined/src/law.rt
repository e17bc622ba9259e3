//! Two programs `x25 station`, or one and any peer, joined by a line, with clocks or without, as laws about what they
//! read and write. Each is the contract of a function that does nothing.
ghost use Rattle.x25_world.specs.laws.Claims.{HasNoProcedureError, IsNamed};
ghost use Rattle.x25_world.specs.laws.SessionClaims.{SessionsKeepOrder};
ghost use Rattle.x25_joined.specs.laws.BesidePeerClaims.{KeepsSessions, OfProgram};
ghost use Rattle.x25_joined.specs.laws.JoinedClaims.{AreLawful, AreWorlds, Arrive, OfPrograms, OfProgramsUpOnce};
ghost use Rattle.x25_joined.specs.laws.JoinedClaims.{UntilSecondUp};
ghost use Rattle.x25_joined.specs.laws.Obeyed.{AnswerIsWritten, ClockIsObeyed, SilenceIsWritten};
ghost use Rattle.x25_joined.specs.laws.PlayedClaims.{AreProgramsWithoutClock, SaidIsWritten};
ghost use Rattle.x25_joined.specs.laws.TimedJoinedClaims.{AreLawfulTimed, ArriveTimed, OfTimedPrograms};
ghost use Rattle.x25_joined.specs.laws.TimedJoinedClaims.{OfTimedProgramsUpOnce, UntilSecondUpTimed};
ghost use Rattle.x25_joined.specs.laws.TimedPeerClaims.{OfTimedProgram};
ghost use Rattle.x25_joined.specs.rows.BesidePeerRows.{CallIsAccepted};
ghost use Rattle.x25_joined.specs.rows.JoinedRows.{FiringHasToWait, LinkIsSetUp, LostSabmGoesAgain, MessageArrives};
ghost use Rattle.x25_joined.specs.rows.JoinedRows.{OtherLinesDoNothing};
ghost use Rattle.x25_joined.specs.rows.TimedRows.{LinkIsSetUpTimed, SabmGoesAgain, TimeHasToWait};

use x25_clock::{answers_are_told, awaited_deadlines_are_true, silence_is_told};
use x25_peer::any_peer_keeps_stations_over_sessions;
use x25_pipe::clock_is_obeyed;
use x25_script::{lines_are_in_octets, reading_is_the_grammar};
use x25_station::stations_ask_or_rest;
use x25_world::{stations_meet_in_sessions, two_stations_keep_order};

/// Two programs, one at each end, with the same settings: each reads lines of its user, firings of its timer T1, and
/// the frames that the other wrote, as they were written, in the order in which they were, but for those that are lost
/// and those that others came in the place of, which fail their frame check sequence; in any interleaving. What
/// `station` writes for all that each read, by its clause `text`, is told by a run of two stations over a line, from
/// both links down, whose events are each accepted: their entries are the transcript of each end, their frames what it
/// put on the line, and the stations and the frames on the line are those where the run leads. A line that is refused,
/// and one that names the other end's user, is no event of it.
///
/// Premises: k is 1 to 7, N2 1 to 255, channels 1 to 4,095; a user's line is no frame of the other end; timer T1 of an
/// end that awaits UA doesn't run out while its SABM, or a UA to it, is on the line.
pub fn two_programs_are_a_world()
    ensures { AreWorlds }
{
    lines_are_in_octets();
    stations_meet_in_sessions();
}

/// As long as neither program writes `linkup` a second time:
///
/// - `lawful`: on each channel and under each name of a stretch, the messages, interrupts and calls that a program
/// writes as handed up are a
/// beginning of those that the other wrote as handed down: each comes once, in order, whole, and none of another call.
/// - `arrives`: what is handed up is all of the messages and interrupts of a stretch, where the end that gives is idle,
/// as its last mark says, and both
///   ends have that stretch open.
/// - `named`, `quiet`: what `two_stations_keep_order` says of the transcript and of what was put on the line.
///
/// Premises: those of `two_programs_are_a_world`.
pub fn two_programs_keep_order()
    ensures lawful { UntilSecondUp AreLawful }
    ensures arrives { UntilSecondUp Arrive }
    ensures named { OfProgramsUpOnce IsNamed }
    ensures quiet { OfProgramsUpOnce HasNoProcedureError }
{
    two_programs_are_a_world();
    two_stations_keep_order();
}

/// Wherever a program writes `linkup` again: what `stations_meet_in_sessions` says of two stations, with their sessions
/// by what the programs wrote.
///
/// Premises: those of `two_programs_are_a_world`.
pub fn programs_meet_in_sessions()
    ensures { OfPrograms SessionsKeepOrder }
{
    two_programs_are_a_world();
    stations_meet_in_sessions();
}

/// One program, and any peer that keeps the rules of docs/PEER.md in place of the other: it reads lines of its user,
/// firings of its timer T1, and the frames on the line to it, in any interleaving. What `station` writes for all that
/// it read, by its clause `text`, is told by a station beside that peer, set up and set up again at any moment: its
/// entries are those of its sessions, one after another, its frames what it put on the line, each in the session that
/// the last `linkup` began, and the station and the frames on the line are those where that leads. A line that is
/// refused, and one that names the other end's user, is nothing of it. Of that one station all holds that
/// `any_peer_keeps_stations_over_sessions` says: who meets whom, the order, that all was taken where its link is idle,
/// and that it reports no error of procedure.
///
/// Premises: k is 1 to 7, N2 1 to 255, channels 1 to 4,095; a user's line is no frame of the other end; a frame that
/// comes is at most 4,103 octets; timer T1 of a station that awaits UA runs out where it is due.
pub fn any_peer_keeps_programs()
    ensures { OfProgram KeepsSessions }
{
    lines_are_in_octets();
    any_peer_keeps_stations_over_sessions();
}

/// A worked row: a program and a peer set the link up, the peer confirms its RESTART and calls, and that is reported,
/// and accepted with a facility and the D bit.
pub fn programs_move_beside_peers()
    ensures { CallIsAccepted }
{}

/// Worked rows, each a history that may happen: what two programs read and write as the link is set up, and as SABM is
/// lost, or damaged, and goes again when timer T1 runs out, which has to wait while SABM is on the line; lines that do
/// nothing; and a call with a message.
pub fn programs_move()
    ensures set_up { LinkIsSetUp }
    ensures lost { LostSabmGoesAgain }
    ensures timer { FiringHasToWait }
    ensures others { OtherLinesDoNothing }
    ensures message { MessageArrives }
{}

/// What a program with a clock writes, by the clause `text` of `timed_station`, is the text of what it plays: of lines
/// that say no time, and of what is due at those that do (`text`). Its entries, its frames and its station are those of
/// the program without one that reads, in the place of each line that says a time, the lines of its user for what is
/// due then, in their order (`same`).
///
/// Premises of `same`: at most 4,095 channels, and `--wide`, or T25 asks for nothing: a line with its diagnostic is
/// read with `--wide` alone.
pub fn timed_program_is_a_program()
    ensures text { SaidIsWritten }
    ensures same { AreProgramsWithoutClock }
{
    reading_is_the_grammar();
}

/// As `any_peer_keeps_programs`, of a program with a clock: it reads lines of its user, times, and the frames on the
/// line to it, in any interleaving.
///
/// Premises: those of `any_peer_keeps_programs`, of timer T1 where a line says a time at which it is due; and `--wide`,
/// or T25 asks for nothing.
pub fn any_peer_keeps_timed_programs()
    ensures { OfTimedProgram KeepsSessions }
{
    reading_is_the_grammar();
    lines_are_in_octets();
    any_peer_keeps_programs();
}

/// As `two_programs_keep_order`, of two programs with clocks, each with times of its own: all its clauses.
///
/// Premises: those of `two_programs_are_a_world`, of timer T1 where a line says a time at which it is due; and
/// `--wide`, or T25 asks for nothing.
pub fn two_timed_programs_keep_order()
    ensures lawful { UntilSecondUpTimed AreLawfulTimed }
    ensures arrives { UntilSecondUpTimed ArriveTimed }
    ensures named { OfTimedProgramsUpOnce IsNamed }
    ensures quiet { OfTimedProgramsUpOnce HasNoProcedureError }
{
    reading_is_the_grammar();
    two_programs_keep_order();
}

/// As `programs_meet_in_sessions`, of two programs with clocks.
///
/// Premises: those of `two_timed_programs_keep_order`.
pub fn timed_programs_meet_in_sessions()
    ensures { OfTimedPrograms SessionsKeepOrder }
{
    reading_is_the_grammar();
    programs_meet_in_sessions();
}

/// A program with a clock obeys it from the first time that is said, where no line says a time after the next moment
/// that the mark before it has: what is due is asked at its moment, as the deeds of one who obeys his clock are
/// (`clock`). So who asks something of it is
/// answered within a bound, whatever the other end does: while a channel awaits an answer, or a restart is under way,
/// it writes the answer, LinkUp or LinkDown within the time that `answers_are_told` has (`answers`). Where nothing
/// comes of a link that is up but noise, or UA is awaited, it writes LinkUp or LinkDown within the time that
/// `silence_is_told` has (`silence`).
///
/// Premises: k is at most 7, and a time was said; of `answers`, T20 to T23 aren't for ever; of `silence`, T1 and T3
/// aren't.
pub fn timed_programs_obey_their_clock()
    ensures clock { ClockIsObeyed }
    ensures answers { AnswerIsWritten }
    ensures silence { SilenceIsWritten }
{
    stations_ask_or_rest();
    awaited_deadlines_are_true();
    answers_are_told();
    silence_is_told();
    clock_is_obeyed();
}

/// Worked rows: a time is said, a program asks that the link be set up, SABM is lost, and it goes again as T1 is due by
/// its clock, beside a peer; the same of two programs, up to the RESTARTs of both; and that T1 has to wait while SABM
/// is on the line.
pub fn timed_programs_move()
    ensures peer { SabmGoesAgain }
    ensures two { LinkIsSetUpTimed }
    ensures timer { TimeHasToWait }
{}
