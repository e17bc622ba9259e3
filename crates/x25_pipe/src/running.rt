//! Lines answered by one station.
ghost use Rattle.std.specs.Prelude.{◌≡◌, None};
ghost use Rattle.x25_io.specs.code.Runs.{Runs};
ghost use Rattle.x25_pipe.specs.code.Stream.{program};
ghost use Rattle.x25_pipe.specs.code.TimedStream.{timed_program};
ghost use Rattle.x25_station.specs.Config.{config_refusal, settings_from};

use crate::answerer::Answerer;
use crate::pipe::Pipe;
use crate::timed::TimedPipe;
use crate::timed_answerer::TimedAnswerer;
use std::alloc::Global;
use x25_clock::Times;
use x25_console::Reporter;
use x25_io::{Fault, HeldLine, LineByLine, Loosely, Piece, Sink, Source, take_text};
use x25_station::{Cfg, Role};

/// Writes the first mark, has the station at an end do what each line that the reader gives asks for, and answers each
/// line by what the step tells: entries, then frames as lines for `decode`, then one mark. It answers the status: 1
/// where a line or an event was refused, else 0.
///
/// A line is a line of a trace of what the other end sent, or a line of a script of this end's user or timer. Any
/// other, or one of more than 131,200 characters, becomes `? 60`; an event that is refused `! ` and its number. A mark
/// is `. `, what T1 does (`off`, `on` where it is left as it is, `start` where it begins anew), and `idle` or `busy`;
/// each is written before the next line is taken. What is refused is reported, before its answer is written.
///
/// With `loose` comments, which begin with `#`, and empty lines are passed over, without a mark, and what may stand
/// beside what a line asks: a time and its tab before it, a carriage return at its end.
///
/// A reader is called at most 2^64 - 1 times; the clauses on the text speak of inputs of fewer octets than that.
/// Profile.
pub fn station<P: Reporter, R: Source, W: Sink>(
    alloc: Global,
    end: Role,
    cfg: Cfg,
    loose: bool,
    reporter: P,
    reader: &mut R,
    writer: &mut W,
) -> Result<u8, Fault>
    requires range { config_refusal cfg ≡ None }
    ensures { Runs R.Source W.Sink (program (settings_from end cfg) loose) reader.old reader.new
        writer.old writer.new result }
{
    let piece = Piece::new(alloc)?;
    let held = HeldLine::new(alloc)?;
    let mut pipe = Pipe::new(alloc, end, cfg)?;
    if let Err(fault) = pipe.mark_standing(writer) {
        // By one call: as its scope ends a body lets go of the station part by part, which the prover follows.
        drop(pipe);
        return Err(fault);
    }
    let answerer = Answerer::new(pipe, reporter);
    let read = Loosely::new(loose, answerer);
    let lines = LineByLine::new(held, read);
    take_text(lines, piece, reader, writer)
}

/// As `station`, with a clock: a line `@ MS` says the time in milliseconds. With the first one all begins that is
/// awaited then. At each later one all that is due is asked for: T1 fires, or a command is asked as if by the user,
/// behind a line `END timeout` and the timer's name, with the channel where it is of one. The time is that until it is
/// said again; a line with an earlier one, or with a number of 2^64 or more, becomes `? 60`. A mark has the next moment
/// at which something is due in the place of what T1 does, `-` for none; before the first time it is counted from 0.
/// Profile.
pub fn timed_station<P: Reporter, R: Source, W: Sink>(
    alloc: Global,
    end: Role,
    cfg: Cfg,
    times: Times,
    loose: bool,
    reporter: P,
    reader: &mut R,
    writer: &mut W,
) -> Result<u8, Fault>
    requires range { config_refusal cfg ≡ None }
    ensures { Runs R.Source W.Sink (timed_program (settings_from end cfg) times loose) reader.old reader.new
        writer.old writer.new result }
{
    let piece = Piece::new(alloc)?;
    let held = HeldLine::new(alloc)?;
    let mut pipe = TimedPipe::new(alloc, end, cfg, times)?;
    if let Err(fault) = pipe.mark(writer) {
        drop(pipe);
        return Err(fault);
    }
    let answerer = TimedAnswerer::new(pipe, reporter);
    let read = Loosely::new(loose, answerer);
    let lines = LineByLine::new(held, read);
    take_text(lines, piece, reader, writer)
}
