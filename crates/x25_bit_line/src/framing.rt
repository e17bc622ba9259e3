//! Lines of a trace answered by octets of a synchronous line.
ghost use Rattle.x25_bit_line.specs.code.Frames.{program};
ghost use Rattle.x25_io.specs.code.Runs.{Runs};

use crate::frame_sender::FrameSender;
use std::alloc::Global;
use x25_io::{Fault, HeldLine, LineByLine, Loosely, Piece, Sink, Source, take_text};

/// Reads lines of a trace, and writes the octets of a synchronous line, each lowest bit first, that carries their
/// frames in order, whichever end sent them: of each a flag, its octets' stuffed bits and a flag, without bits between
/// them, and 1 bits that fill the last octet. It answers the status: 1 where a line was neither of a trace nor a
/// comment, else 0. Such a line, and a comment, which begins with `#`, puts nothing on the line. With `loose` an empty
/// line is passed over too, a time and its tab may stand before a line, and a carriage return at its end.
///
/// At most one line of 131,200 characters is held, and the bits of one frame. After each read all octets are written
/// that the lines which have ended fill; fewer than eight bits wait for what follows. A reader is called at most 2^64 -
/// 1 times; the clauses on the text speak of inputs of fewer octets than that. ITU-T X.25 (10/96), section 2.2; the
/// lines are profile.
pub fn frame<R: Source, W: Sink>(
    alloc: Global,
    loose: bool,
    reader: &mut R,
    writer: &mut W,
) -> Result<u8, Fault>
    ensures { Runs R.Source W.Sink (program loose) reader.old reader.new writer.old writer.new result }
{
    let piece = Piece::new(alloc)?;
    let held = HeldLine::new(alloc)?;
    let sender = FrameSender::new(alloc)?;
    let read = Loosely::new(loose, sender);
    let lines = LineByLine::new(held, read);
    take_text(lines, piece, reader, writer)
}
