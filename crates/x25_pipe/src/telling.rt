//! What is told of a step of the station beside its entries: a line for each frame, and the mark.
ghost use Rattle.std.specs.Prelude.{◌≡◌, ◌++◌, OnOk, codes, map};
ghost use Rattle.x25_io.specs.code.MarksFaults.{MarksFaults};
ghost use Rattle.x25_io.specs.code.Written.{TellsMore};
ghost use Rattle.x25_pipe.specs.Pipe.{marks, saying_line, sayings_text, sends};
ghost use Rattle.x25_pipe.specs.Pipe.{work_text};
ghost use Rattle.x25_pipe.specs.Timed.{channel_for, channel_in, next_line, next_text, timeout_line, timer_text};
ghost use Rattle.x25_transcript.specs.EntryText.{end_text};

use std::alloc::AllocError;
use x25_clock::Due;
use x25_console::{tell, tell_frame};
use x25_io::{Fault, Output, Sink};
use x25_station::{Awaits, Role, Timer};
use x25_text::Text;

/// So much room is made before a line of the clock is written where it waits: none is longer.
const LINE: usize = 64;

/// Tells the frames of a step.
#[tactic(auto, unfolding(crate::specs::Pipe::saying_line))]
pub(crate) fn tell_frames<W: Sink>(
    end: Role,
    frames: &[Vec<u8>],
    output: &mut Output,
    writer: &mut W,
) -> Result<(), Fault>
    ensures tells { TellsMore result (W.contents writer.old) (W.contents writer.new) output.old output.new
        (sayings_text end (map sends (map (λ frame. frame.items) frames.now))) }
    ensures faults { MarksFaults W.Sink writer.old writer.new result }
{
    for frame in frames {
        tell_frame(end, frame.as_slice(), output, writer)?;
    }
    Ok(())
}

/// The line of a mark: what T1 does, and whether the station is idle, or an answer is due of the other end then.
#[tactic(auto, unfolding(crate::specs::Pipe::saying_line))]
fn mark_line(timer: Timer, is_idle: bool, is_due: bool) -> &'static [u8]
    ensures { (end : Role) → result.now ≡ saying_line end (marks timer is_idle is_due) }
{
    match (timer, is_idle, is_due) {
        (Timer::Off, true, false) => b". off idle\n",
        (Timer::Off, true, true) => b". off due\n",
        (Timer::Off, false, _) => b". off busy\n",
        (Timer::GoesOn, true, false) => b". on idle\n",
        (Timer::GoesOn, true, true) => b". on due\n",
        (Timer::GoesOn, false, _) => b". on busy\n",
        (Timer::Begins, true, false) => b". start idle\n",
        (Timer::Begins, true, true) => b". start due\n",
        (Timer::Begins, false, _) => b". start busy\n",
    }
}

/// Tells a mark.
pub(crate) fn tell_mark<W: Sink>(
    timer: Timer,
    is_idle: bool,
    is_due: bool,
    output: &mut Output,
    writer: &mut W,
) -> Result<(), Fault>
    ensures tells { (end : Role)
        → TellsMore result (W.contents writer.old) (W.contents writer.new) output.old output.new
        (saying_line end (marks timer is_idle is_due)) }
    ensures faults { MarksFaults W.Sink writer.old writer.new result }
{
    tell(mark_line(timer, is_idle, is_due), output, writer)
}

/// What the station does: it is idle, an answer is due of the other end then, or it is busy.
fn work(is_idle: bool, is_due: bool) -> &'static [u8]
    ensures { result.now ≡ work_text is_idle is_due }
{
    match (is_idle, is_due) {
        (true, false) => b"idle",
        (true, true) => b"due",
        (false, _) => b"busy",
    }
}

fn push_moment(next: Option<u64>, text: &mut Text) -> Result<(), AllocError>
    ensures { OnOk result (text.new ≡ text.old ++ (codes ". " ++ next_text next)) }
{
    match next {
        Some(moment) => text.try_push_number(b". ", moment),
        None => text.try_push(b". -"),
    }
}

#[tactic(auto, unfolding(crate::specs::Timed::next_line))]
fn push_next(
    next: Option<u64>,
    is_idle: bool,
    is_due: bool,
    text: &mut Text,
) -> Result<(), AllocError>
    ensures { OnOk result (text.new ≡ text.old ++ next_line next is_idle is_due) }
{
    push_moment(next, text)?;
    text.try_push(b" ")?;
    text.try_push(work(is_idle, is_due))?;
    text.try_push(b"\n")
}

/// Tells a mark by the next moment at which something is due. 62: a call of the writer failed, and the writer is
/// marked; 70: no memory.
pub(crate) fn tell_next<W: Sink>(
    next: Option<u64>,
    is_idle: bool,
    is_due: bool,
    output: &mut Output,
    writer: &mut W,
) -> Result<(), Fault>
    ensures tells { TellsMore result (W.contents writer.old) (W.contents writer.new) output.old output.new
        (next_line next is_idle is_due) }
    ensures faults { MarksFaults W.Sink writer.old writer.new result }
{
    output.make_room(LINE, writer)?;
    Ok(push_next(next, is_idle, is_due, output.text())?)
}

/// The name of a timer at an end.
fn timer_name(end: Role, awaits: Awaits, due: Due) -> &'static [u8]
    ensures { result.now ≡ timer_text end awaits due }
{
    match (end, due, awaits) {
        (_, Due::T1, _) => b"T1",
        (_, Due::Probe, _) => b"T3",
        (_, Due::Reset { .. }, _) => b"T26",
        (_, Due::ResetUnacknowledged { .. }, _) => b"T25",
        (Role::Dte, Due::Relink, _) => b"T20",
        (Role::Dce, Due::Relink, _) => b"T10",
        (Role::Dte, Due::Clear { .. }, Awaits::ResetConfirmation) => b"T22",
        (Role::Dce, Due::Clear { .. }, Awaits::ResetConfirmation) => b"T12",
        (Role::Dte, Due::Clear { .. }, _) => b"T21",
        (Role::Dce, Due::Clear { .. }, _) => b"T11",
        (Role::Dte, Due::Restart { .. }, _) => b"T23",
        (Role::Dce, Due::Restart { .. }, _) => b"T13",
    }
}

/// The channel of what is due, 0 where it is of none.
pub fn channel_of(due: Due) -> u16
    ensures { result ≡ channel_for due }
{
    match due {
        Due::T1 | Due::Probe | Due::Relink => 0,
        Due::Reset { channel }
        | Due::ResetUnacknowledged { channel }
        | Due::Clear { channel }
        | Due::Restart { channel } => channel,
    }
}

fn end_name(end: Role) -> &'static [u8]
    ensures { result.now ≡ end_text end }
{
    match end {
        Role::Dte => b"dte ",
        Role::Dce => b"dce ",
    }
}

fn push_channel(due: Due, text: &mut Text) -> Result<(), AllocError>
    ensures { OnOk result (text.new ≡ text.old ++ channel_in due) }
{
    match due {
        Due::T1 | Due::Probe | Due::Relink => Ok(()),
        Due::Reset { channel }
        | Due::ResetUnacknowledged { channel }
        | Due::Clear { channel }
        | Due::Restart { channel } => text.try_push_number(b" ch=", u64::from(channel)),
    }
}

#[tactic(auto, unfolding(crate::specs::Timed::timeout_line))]
fn push_timeout(end: Role, awaits: Awaits, due: Due, text: &mut Text) -> Result<(), AllocError>
    ensures { OnOk result (text.new ≡ text.old ++ timeout_line end awaits due) }
{
    text.try_push(end_name(end))?;
    text.try_push(b"timeout ")?;
    text.try_push(timer_name(end, awaits, due))?;
    push_channel(due, text)?;
    text.try_push(b"\n")
}

/// Tells that a timer has passed. 62: a call of the writer failed, and the writer is marked; 70: no memory.
pub fn tell_timeout<W: Sink>(
    end: Role,
    awaits: Awaits,
    due: Due,
    output: &mut Output,
    writer: &mut W,
) -> Result<(), Fault>
    ensures tells { TellsMore result (W.contents writer.old) (W.contents writer.new) output.old output.new
        (timeout_line end awaits due) }
    ensures faults { MarksFaults W.Sink writer.old writer.new result }
{
    output.make_room(LINE, writer)?;
    Ok(push_timeout(end, awaits, due, output.text())?)
}
