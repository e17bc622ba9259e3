//! Lines of octets answered by lines of text.
ghost use Rattle.std.specs.Prelude.{◌≡◌, IsErrOf};
ghost use Rattle.x25_decode.specs.code.LooseStream.{loose_program, program_by};
ghost use Rattle.x25_decode.specs.code.Stream.{program};
ghost use Rattle.x25_io.specs.code.Runs.{Runs};

use crate::answer::Reading;
use crate::decoder::Decoder;
use crate::loose_decoder::LooseDecoder;
use std::alloc::Global;
use x25_io::{Fault, HeldLine, LineByLine, Piece, Sink, Source, take_text};

/// As `decode_lines` without `loose`.
fn decode_plainly<R: Source, W: Sink>(
    alloc: Global,
    reading: Reading,
    reader: &mut R,
    writer: &mut W,
) -> Result<u8, Fault>
    ensures runs { Runs R.Source W.Sink (program reading) reader.old reader.new writer.old writer.new result }
    ensures memory { IsErrOf result Fault.NoMemory → (reader.new ≡ reader.old) × (writer.new ≡ writer.old) }
{
    let piece = Piece::new(alloc)?;
    let decoder = Decoder::new(alloc, reading)?;
    take_text(decoder, piece, reader, writer)
}

/// As `decode_lines` with `loose`.
fn decode_loosely<R: Source, W: Sink>(
    alloc: Global,
    reading: Reading,
    reader: &mut R,
    writer: &mut W,
) -> Result<u8, Fault>
    ensures runs { Runs R.Source W.Sink (loose_program reading) reader.old reader.new writer.old writer.new result }
    ensures memory { IsErrOf result Fault.NoMemory → (reader.new ≡ reader.old) × (writer.new ≡ writer.old) }
{
    let piece = Piece::new(alloc)?;
    let held = HeldLine::new(alloc)?;
    let decoder = LooseDecoder::new(alloc, reading)?;
    let lines = LineByLine::new(held, decoder);
    take_text(lines, piece, reader, writer)
}

/// Answers each line that the reader gives by a line to the writer, and answers the status: 1 where a line was refused,
/// else 0.
///
/// `reading` says how octets are read. With `loose` a time and its tab may stand before a line, and go before its
/// answer; an empty line and a comment, which begins with `#`, are their own answers; and a carriage return at the end
/// of a line is left out. At most one line of 131,200 characters is held, and after each read the answers to the lines
/// that have ended are written. The buffers are made first: `NoMemory` comes with nothing read and nothing written. A
/// reader is called at most 2^64 - 1 times; the clauses on the text speak of inputs of fewer octets than that. Profile.
pub fn decode_lines<R: Source, W: Sink>(
    alloc: Global,
    reading: Reading,
    loose: bool,
    reader: &mut R,
    writer: &mut W,
) -> Result<u8, Fault>
    ensures runs { Runs R.Source W.Sink (program_by loose reading) reader.old reader.new writer.old writer.new result }
    ensures memory { IsErrOf result Fault.NoMemory → (reader.new ≡ reader.old) × (writer.new ≡ writer.old) }
{
    if loose {
        decode_loosely(alloc, reading, reader, writer)
    } else {
        decode_plainly(alloc, reading, reader, writer)
    }
}
