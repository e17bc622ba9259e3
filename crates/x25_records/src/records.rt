//! A text as records.
ghost use Rattle.std.specs.Prelude.{◌≡◌};
ghost use Rattle.x25_io.specs.code.Runs.{Runs};
ghost use Rattle.x25_records.specs.code.Stream.{program};

use crate::recorder::Recorder;
use std::alloc::Global;
use x25_io::{Fault, HeldLine, LineByLine, Piece, Sink, Source, take_text};

/// Writes a record of each line that the reader gives, in order, and answers the status: 1 where a line was too long,
/// else 0.
///
/// The line of a frame, as `decode` or `judge` writes it, becomes eight fields with tabs between them: the time that
/// stood before it, its direction, the frame and its numbers, the packet and its fields, `wide` where that is in
/// another form than a station writes, and what is told of it. The line of an entry has an end in the place of the
/// direction, and no frame. Other lines stand as they are. One of more than 131,200 characters becomes `? 60`.
///
/// After each read the records of the lines that have ended are written. Buffers are made first; a growth that is
/// refused later ends the run with `NoMemory`. A reader is called at most 2^64 - 1 times; the clauses on the text speak
/// of inputs of fewer octets than that. Profile.
pub fn write_records<R: Source, W: Sink>(
    alloc: Global,
    reader: &mut R,
    writer: &mut W,
) -> Result<u8, Fault>
    ensures { Runs R.Source W.Sink program reader.old reader.new writer.old writer.new result }
{
    let piece = Piece::new(alloc)?;
    let held = HeldLine::new(alloc)?;
    let recorder = Recorder::new(alloc)?;
    let lines = LineByLine::new(held, recorder);
    take_text(lines, piece, reader, writer)
}
