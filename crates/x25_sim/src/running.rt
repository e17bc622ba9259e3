//! Scripts answered by transcripts.
ghost use Rattle.std.specs.Prelude.{◌≡◌, [], false, None, IfErr, IfOk, OnOk};
ghost use Rattle.x25_io.specs.HeldLine.{HoldsLine};
ghost use Rattle.x25_io.specs.Loose.{asked_text};
ghost use Rattle.x25_io.specs.code.Runs.{OfInput, Runs};
ghost use Rattle.x25_station.specs.Config.{config_refusal};
ghost use Rattle.x25_sim.specs.code.Stands.{IsOpening};
ghost use Rattle.x25_sim.specs.code.Stream.{program};
ghost use Rattle.x25_sim.specs.laws.WritesRun.{WritesRun};

use crate::law::{scripts_keep_order, scripts_meet_in_sessions};
use crate::simulator::Simulator;
use crate::stage::{Shown, Stage};
use std::alloc::Global;
use x25_console::Reporter;
use x25_io::{Fault, HeldLine, LineByLine, Loosely, Piece, Sink, Source, take_text};
use x25_station::Cfg;

/// The buffers of a run, and the stage before the first line. It has no reader and no writer: where memory is refused
/// here, nothing is read and nothing written.
fn made_ready(
    alloc: Global,
    down: bool,
    cfg: Cfg,
    shown: Shown,
) -> Result<(Piece, HeldLine, Stage), Fault>
    ensures held { IfOk result (λ ready. HoldsLine [] ready.1) }
    ensures opening { IfOk result (λ ready. IsOpening cfg down ready.2) }
    ensures shown { IfOk result (λ ready. ready.2.shown ≡ shown) }
    ensures empty { IfOk result (λ ready. ready.2.output ≡ []) }
    ensures is_refused { IfOk result (λ ready. ready.2.is_refused ≡ false) }
    ensures memory { IfErr result (λ fault. fault ≡ Fault.NoMemory) }
{
    let piece = Piece::new(alloc)?;
    let held = HeldLine::new(alloc)?;
    let stage = Stage::new(alloc, down, cfg, shown)?;
    Ok((piece, held, stage))
}

/// As `sim`, but for what the laws say.
fn play<P: Reporter, R: Source, W: Sink>(
    alloc: Global,
    down: bool,
    cfg: Cfg,
    shown: Shown,
    loose: bool,
    reporter: P,
    reader: &mut R,
    writer: &mut W,
) -> Result<u8, Fault>
    ensures { Runs R.Source W.Sink (program cfg down shown loose) reader.old reader.new writer.old writer.new result }
{
    let (piece, held, mut stage) = made_ready(alloc, down, cfg, shown)?;
    if let Err(fault) = stage.open(writer) {
        // By one call: as its scope ends a body lets go of the stations part by part, which the prover follows.
        drop(stage);
        return Err(fault);
    }
    let simulator = Simulator::new(Vec::new(alloc), stage, reporter);
    let read = Loosely::new(loose, simulator);
    let lines = LineByLine::new(held, read);
    take_text(lines, piece, reader, writer)
}

/// Sets two stations up over a line, does what the lines of the script that the reader gives ask for, and writes what
/// happens: the entries of the transcript; with `tap` behind the entries of each step the frames that were put on the
/// line, as lines for `decode`; and with `events` behind what an event made, or its refusal, the event. With `down`
/// nothing is set up, and both links are down where the script begins. It answers the status: 1 where a line or an
/// event was refused, else 0.
///
/// With `loose` comments, which begin with `#`, and empty lines are passed over, and what may stand beside what a line
/// asks: a time and its tab before it, a carriage return at its end.
///
/// A line outside of the grammar, of more than 131,200 characters, or with a cause or a diagnostic where `Cfg::wide`
/// isn't set, becomes `? 60`, and is reported; an event that is refused `! ` and its number, which is the station's own
/// where the station refuses. `drain` is several deliveries, and `heal` deliveries, firings of timer T1 and pulls, each
/// a step. What was told is let go of. Buffers are made first; a growth that is refused later ends the run with
/// `NoMemory`. A reader is called at most 2^64 - 1 times; the clauses on the text speak of scripts of fewer octets than
/// that. Profile.
pub fn sim<P: Reporter, R: Source, W: Sink>(
    alloc: Global,
    down: bool,
    cfg: Cfg,
    shown: Shown,
    loose: bool,
    reporter: P,
    reader: &mut R,
    writer: &mut W,
) -> Result<u8, Fault>
    requires range { config_refusal cfg ≡ None }
    ensures runs { Runs R.Source W.Sink
        (program cfg down shown loose) reader.old reader.new writer.old writer.new result }

    // What is written is the transcript of a run of two stations, and with `tap` its frames, of which the claims hold.
    ensures claims { OnOk result (OfInput (R.remaining reader.old) (λ script.
        WritesRun cfg down shown (asked_text loose script) (W.contents writer.old) (W.contents writer.new))) }
{
    scripts_keep_order();
    scripts_meet_in_sessions();
    play(alloc, down, cfg, shown, loose, reporter, reader, writer)
}
