//! A synchronous line answered by lines of a trace.
ghost use Rattle.std.specs.Prelude.{◌≡◌, IsErrOf};
ghost use Rattle.x25_bit_line.specs.code.Reads.{program};
ghost use Rattle.x25_io.specs.code.Runs.{Runs};

use crate::finder::Finder;
use crate::span_lines::SpanLines;
use std::alloc::Global;
use x25_bits::{Deframer, Role};
use x25_io::{Fault, Piece, Sink, Source, take_text};

/// Reads octets of a synchronous line on which an end sends, each lowest bit first, and writes a line for each span
/// between two flags: of a content its line of a trace, for `decode`, and for others a comment, `# abort`, `# short`,
/// `# long` or `# ragged`. It answers the status, 0.
///
/// At most 65,668 bits are held, and after each read all is written that is found in what was read. The buffers are
/// made first: `NoMemory` comes with nothing read and nothing written. A reader is called at most 2^64 - 1 times; the
/// clauses on the text speak of inputs of fewer octets than that. ITU-T X.25 (10/96), section 2.2; the lines are
/// profile.
pub fn deframe<R: Source, W: Sink>(
    alloc: Global,
    from: Role,
    reader: &mut R,
    writer: &mut W,
) -> Result<u8, Fault>
    ensures runs { Runs R.Source W.Sink (program from) reader.old reader.new writer.old writer.new result }
    ensures memory { IsErrOf result Fault.NoMemory → (reader.new ≡ reader.old) × (writer.new ≡ writer.old) }
{
    let piece = Piece::new(alloc)?;
    let deframer = Deframer::new(alloc)?;
    let lines = SpanLines::new(alloc, from)?;
    let finder = Finder::new(deframer, lines);
    take_text(finder, piece, reader, writer)
}
