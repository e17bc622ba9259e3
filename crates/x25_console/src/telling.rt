//! Lines that tell of entries, of frames and of refusals.
ghost use Rattle.std.specs.Prelude.{◌≡◌, ◌≤◌, ◌+◌, ◌++◌, ℕ, List, Option, IsErrOf, OnOk, OnErr};
ghost use Rattle.std.specs.Prelude.{MatchResult, length};
ghost use Rattle.x25_console.specs.Telling.{entries_text, frame_line, nothing_line, refusal_line};
ghost use Rattle.x25_io.specs.code.MarksFaults.{MarksFaults};
ghost use Rattle.x25_io.specs.code.Written.{AppendsPrefix, Tells, TellsMore};
ghost use Rattle.x25_station.specs.code.PlainEntry.{plain_entry};
ghost use Rattle.x25_transcript.specs.EntryText.{entry_line};
ghost use Rattle.x25_text.specs.declared.text.TheConstants.{ROOM};

use std::alloc::AllocError;
use x25_decode::mark;
use x25_io::{Fault, Output, Sink};
use x25_station::{Entries, Entry, Lent, Role};
use x25_text::{ROOM, Text};
use x25_transcript::push_entry;

/// So much room is made before a line is written where it waits: a longer one makes the buffer grow.
const LINE: usize = 8_209;

/// Tells a line. 62 alone: a call of the writer failed, and the writer is marked.
pub fn tell<W: Sink>(line: &[u8], output: &mut Output, writer: &mut W) -> Result<(), Fault>
    ensures tells { TellsMore result (W.contents writer.old) (W.contents writer.new) output.old output.new line.now }
    ensures faults { MarksFaults W.Sink writer.old writer.new result }
    ensures memory { IsErrOf result Fault.NoMemory → ⊥ }
{
    Ok(output.tell(line, writer)?)
}

/// Tells that a line isn't in the grammar, by `? 60`. 62 alone: a call of the writer failed, and the writer is marked.
pub fn tell_nothing<W: Sink>(output: &mut Output, writer: &mut W) -> Result<(), Fault>
    ensures tells { TellsMore result (W.contents writer.old) (W.contents writer.new) output.old output.new
        nothing_line }
    ensures faults { MarksFaults W.Sink writer.old writer.new result }
    ensures memory { IsErrOf result Fault.NoMemory → ⊥ }
{
    tell(b"? 60\n", output, writer)
}

/// Tells an entry of an end.
#[inline(never)]
fn tell_entry<W: Sink>(
    at: Role,
    entry: &Entry,
    lent: &Lent,
    output: &mut Output,
    writer: &mut W,
) -> Result<(), Fault>
    ensures tells { TellsMore result (W.contents writer.old) (W.contents writer.new) output.old output.new
        (entry_line at (plain_entry lent.now entry.now)) }
    ensures faults { MarksFaults W.Sink writer.old writer.new result }
{
    output.make_room(LINE, writer)?;
    Ok(push_entry(at, entry, lent, output.text())?)
}

/// Tells the entries of an end. 62: a call of the writer failed, and the writer is marked; 70: no memory for a long
/// line.
#[inline(always)]
pub fn tell_entries<W: Sink>(
    at: Role,
    entries: &Entries,
    output: &mut Output,
    writer: &mut W,
) -> Result<(), Fault>
    ensures tells { TellsMore result (W.contents writer.old) (W.contents writer.new) output.old output.new
        (entries_text at entries.now.items) }
    ensures faults { MarksFaults W.Sink writer.old writer.new result }
{
    let lent = entries.lent();
    let list = entries.as_slice();
    for entry in list {
        tell_entry(at, entry, lent, output, writer)?;
    }
    Ok(())
}

#[tactic(auto, unfolding(crate::specs::Telling::frame_line))]
fn push_frame(from: Role, octets: &[u8], text: &mut Text) -> Result<(), AllocError>
    ensures { OnOk result (text.new ≡ text.old ++ frame_line from octets.now) }
{
    text.try_push(mark(from))?;
    text.try_push_hexadecimal(octets)?;
    text.try_push(b"\n")
}

/// Tells a frame that an end sent, as a line for `decode`. 62: a call of the writer failed, and the writer is marked;
/// 70: no memory for a long line.
pub fn tell_frame<W: Sink>(
    from: Role,
    octets: &[u8],
    output: &mut Output,
    writer: &mut W,
) -> Result<(), Fault>
    ensures tells { TellsMore result (W.contents writer.old) (W.contents writer.new) output.old output.new
        (frame_line from octets.now) }
    ensures faults { MarksFaults W.Sink writer.old writer.new result }
{
    output.make_room(LINE, writer)?;
    Ok(push_frame(from, octets, output.text())?)
}

#[tactic(auto, unfolding(crate::specs::Telling::refusal_line))]
fn push_refusal(number: u8, text: &mut Text)
    requires room { length text.old + LINE ≤ ROOM }
    ensures { text.new ≡ text.old ++ refusal_line number }
{
    text.push_number(b"! ", u16::from(number));
    text.push(b"\n");
}

/// Tells that what a line asks for is refused, by the number of the error. 62 alone: a call of the writer failed, and
/// the writer is marked.
pub fn tell_refusal<W: Sink>(number: u8, output: &mut Output, writer: &mut W) -> Result<(), Fault>
    ensures tells { TellsMore result (W.contents writer.old) (W.contents writer.new) output.old output.new
        (refusal_line number) }
    ensures faults { MarksFaults W.Sink writer.old writer.new result }
    ensures memory { IsErrOf result Fault.NoMemory → ⊥ }
{
    output.make_room(LINE, writer)?;
    push_refusal(number, output.text());
    Ok(())
}
