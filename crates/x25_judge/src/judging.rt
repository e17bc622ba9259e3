//! A trace judged line by line.
ghost use Rattle.std.specs.Prelude.{◌≡◌, IsErrOf};
ghost use Rattle.x25_io.specs.code.Runs.{Runs};
ghost use Rattle.x25_judge.specs.Judge.{begins_at};
ghost use Rattle.x25_judge.specs.code.Stream.{program};

use crate::answerer::Answerer;
use crate::doubt::At;
use crate::judge::Strictness;
use std::alloc::Global;
use x25_decode::Reading;
use x25_io::{Fault, HeldLine, LineByLine, Piece, Sink, Source, take_text};
use x25_possible::Defaults;

/// Answers each line of a trace that the reader gives by the line of `decode`, and behind it, where the frame breaks a
/// rule of the link layer, or its packet one of the packet layer, by the end that sent it and the rule; and at the end
/// how many frames and packets of each end there were, how many of them were judged, and how many rules were told. It
/// answers the status: 1 where a rule was broken or a line was refused, or by its `strictness` where manners were, or
/// anything wasn't judged, else 0.
///
/// With `loose` a time and its tab may stand before a line, and go before its answer; an empty line and a comment,
/// which begins with `#`, are their own answers; and a carriage return at the end of a line is left out.
///
/// The trace was made `at` a place, and has what both ends sent, in the order in which it passed there. A gap, `> ..`
/// or `< ..`, stands for any number of frames. A rule that frames would explain which may be missing has a mark, and
/// makes the status 1 where what isn't judged does. At most `window` I frames may be unacknowledged; of data packets
/// on a channel as many as its call and the acceptance say, and else the network's `defaults`. `reading` says how
/// octets are read: with `wide` a packet in any form is judged as the one that a station takes it for. At most one line
/// is held, and after each read the answers to the lines that have ended are written. The buffers are made first:
/// `NoMemory` comes with nothing read and nothing written. A reader is called at most 2^64 - 1 times; the clauses on
/// the text speak of inputs of fewer octets than that. Profile.
pub fn judge_lines<R: Source, W: Sink>(
    alloc: Global,
    at: At,
    window: u8,
    defaults: Defaults,
    reading: Reading,
    strictness: Strictness,
    loose: bool,
    reader: &mut R,
    writer: &mut W,
) -> Result<u8, Fault>
    ensures runs { Runs R.Source W.Sink (program loose (begins_at at window defaults reading strictness))
        reader.old reader.new writer.old writer.new result }
    ensures memory { IsErrOf result Fault.NoMemory → (reader.new ≡ reader.old) × (writer.new ≡ writer.old) }
{
    let piece = Piece::new(alloc)?;
    let held = HeldLine::new(alloc)?;
    let answerer = Answerer::new(alloc, at, window, defaults, reading, strictness, loose)?;
    let lines = LineByLine::new(held, answerer);
    take_text(lines, piece, reader, writer)
}
