//! What each task does, over any reader and writer.
ghost use Rattle.std.specs.Prelude.{◌≡◌, true, IsErrOf, OnOk};
ghost use Rattle.x25.specs.Tasks.{WritesScript, is_plain, place_program, program_of, role_in, settings_in, shown_in};
ghost use Rattle.x25.specs.Tasks.{at_in, times_in};
ghost use Rattle.x25_io.specs.Loose.{asked_text};
ghost use Rattle.x25_io.specs.code.Runs.{OfInput, Runs};
ghost use Rattle.x25_settings.specs.Words.{AreInRange};
ghost use Rattle.x25_sim.specs.code.Stream as simulating;
ghost use Rattle.x25_sim.specs.laws.WritesRun.{WritesRun};

use std::alloc::Global;
use x25_bit_line::{deframe, frame};
use x25_decode::{Reading, decode_lines, vectors};
use x25_io::{Fault, Sink, Source};
use x25_judge::{At, Defaults, Strictness, judge_lines};
use x25_pipe::{Role, Times, station, timed_station};
use x25_records::write_records;
use x25_settings::{At as Where, End, GivenTimes, Place, Simulation, StationOptions, Task};
use x25_sim::{Cfg, Ranges, Reporter, Shown, sim};

/// The settings of a station with so many one-way channels, as the words of the command line say the rest.
fn settings_of(options: StationOptions, incoming: u16, outgoing: u16) -> Cfg
    ensures { result ≡ settings_in options incoming outgoing }
{
    Cfg {
        k: options.k,
        n2: options.n2,
        channels: Ranges {
            count: options.channels,
            incoming,
            outgoing,
            message: options.message,
        },
        long_data: options.long,
        say_sizes: options.say_sizes,
        wide: options.wide,
    }
}

/// Where a trace was made.
fn at_of(at: Where) -> At
    ensures { result ≡ at_in at }
{
    match at {
        Where::Line => At::Line,
        Where::Dte => At::Dte,
        Where::Dce => At::Dce,
        Where::Either => At::Either,
    }
}

/// An end, as the words of the command line say it.
fn role_of(end: End) -> Role
    ensures { result ≡ role_in end }
{
    match end {
        End::Dte => Role::Dte,
        End::Dce => Role::Dce,
    }
}

/// How long the timers of a clock at an end are, as the words of the command line say it, or else as is usual there.
fn times_of(end: Role, given: GivenTimes) -> Times
    ensures { result ≡ times_in end given }
{
    let usual = Times::standard(end);
    Times {
        t1: given.t1.unwrap_or(usual.t1),
        t3: given.t3.unwrap_or(usual.t3),
        t20: given.t20.unwrap_or(usual.t20),
        t21: given.t21.unwrap_or(usual.t21),
        t22: given.t22.unwrap_or(usual.t22),
        t23: given.t23.unwrap_or(usual.t23),
        t25: given.t25.unwrap_or(usual.t25),
        t26: given.t26.unwrap_or(usual.t26),
    }
}

/// Runs one station as the words of the command line ask for.
fn answer_lines<P: Reporter, R: Source, W: Sink>(
    alloc: Global,
    place: Place,
    reporter: P,
    reader: &mut R,
    writer: &mut W,
) -> Result<u8, Fault>
    requires { AreInRange (Task.Station place) }
    ensures { Runs R.Source W.Sink (place_program place) reader.old reader.new writer.old writer.new result }
{
    let end = role_of(place.end);
    let options = place.station;
    let cfg = settings_of(options, options.incoming, options.outgoing);
    match place.clock {
        None => station(alloc, end, cfg, place.loose, reporter, reader, writer),
        Some(given) => {
            let times = times_of(end, given);
            timed_station(
                alloc,
                end,
                cfg,
                times,
                place.loose,
                reporter,
                reader,
                writer,
            )
        }
    }
}

/// Runs the simulator as the words of the command line ask for.
fn simulate<P: Reporter, R: Source, W: Sink>(
    alloc: Global,
    simulation: Simulation,
    reporter: P,
    reader: &mut R,
    writer: &mut W,
) -> Result<u8, Fault>
    requires { AreInRange (Task.Sim simulation) }
    ensures runs { Runs R.Source W.Sink
        (simulating.program (settings_in simulation.station 0 0) simulation.down (shown_in simulation) simulation.loose)
        reader.old reader.new writer.old writer.new result }
    ensures claims { OnOk result (OfInput (R.remaining reader.old) (λ script.
        WritesRun (settings_in simulation.station 0 0) simulation.down (shown_in simulation)
        (asked_text simulation.loose script)
        (W.contents writer.old) (W.contents writer.new))) }
{
    sim(
        alloc,
        simulation.down,
        settings_of(simulation.station, 0, 0),
        Shown {
            tap: simulation.tap,
            events: simulation.events,
        },
        simulation.loose,
        reporter,
        reader,
        writer,
    )
}

/// Does a task, and answers the exit status: 1 where a line was refused, a rule was broken or a vector is bad, else 0.
pub(crate) fn perform<P: Reporter, R: Source, W: Sink>(
    alloc: Global,
    task: Task,
    reporter: P,
    reader: &mut R,
    writer: &mut W,
) -> Result<u8, Fault>
    requires { AreInRange task }
    // What is written and answered is the task's.
    ensures runs { Runs R.Source W.Sink (program_of task) reader.old reader.new writer.old writer.new result }
    // What is written for a script is the transcript of a run of two stations, of which the claims hold.
    ensures claims { OnOk result (OfInput (R.remaining reader.old) (λ script.
        WritesScript task script (W.contents writer.old) (W.contents writer.new))) }
    // Of `decode`, `vectors`, `judge` and `deframe` want of memory is answered with nothing read and nothing written.
    ensures untouched { IsErrOf result Fault.NoMemory → is_plain task ≡ true → (reader.new ≡ reader.old)
        × (writer.new ≡ writer.old) }
    ensures unread { task ≡ Task.Vectors → reader.new ≡ reader.old }
{
    match task {
        Task::Decode(decoding) => decode_lines(
            alloc,
            Reading {
                long: decoding.long,
                wide: decoding.wide,
            },
            decoding.loose,
            reader,
            writer,
        ),
        Task::Sim(simulation) => simulate(alloc, simulation, reporter, reader, writer),
        Task::Station(place) => answer_lines(alloc, place, reporter, reader, writer),
        Task::Vectors => vectors(alloc, writer),
        Task::Judge(judging) => judge_lines(
            alloc,
            at_of(judging.at),
            judging.k,
            Defaults {
                size: judging.size,
                window: judging.window,
            },
            Reading {
                long: judging.long,
                wide: judging.wide,
            },
            Strictness {
                unjudged: judging.strict,
                manners: judging.manners,
            },
            judging.loose,
            reader,
            writer,
        ),
        Task::Deframe(end) => deframe(alloc, role_of(end), reader, writer),
        Task::Frame { loose } => frame(alloc, loose, reader, writer),
        Task::Tabs => write_records(alloc, reader, writer),
    }
}
