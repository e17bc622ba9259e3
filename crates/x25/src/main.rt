//! `x25`: traces of X.25 on lines of text.
//!
//! Exit statuses: 0, also where help or the version is asked for; 1 where a line was refused or a rule broken; 2 for
//! words that ask for nothing it does; 3 where a read, a write or memory failed.
#![tactic(auto)]

ghost use Rattle.std.specs.Prelude.{◌≡◌, ◌≤◌, ◌⊎◌, IfErr, IfOk, OnErr, map};
ghost use Rattle.x25.specs.Main.{IsToldOf};
ghost use Rattle.x25.specs.Tasks.{Ends, EndsOn, EndsOnFile};
ghost use Rattle.x25_settings.specs.Words.{AreInRange, asked_in};

mod explainer;
mod help;
mod nearest;
mod output;
mod tasks;
mod usage;
mod watched;

use explainer::Explainer;
use help::{help_text, version_text};
use output::{Output, is_unread};
use std::alloc::AllocError;
use std::convert::AsStr;
use std::fs::{File, Files};
use std::io::{ErrorKind, Write};
use std::process::ExitCode;
use std::rt::Env;
use std::{env, io};
use tasks::perform;
use usage::tell_refusal;
use watched::Watched;
use x25_io::{Device, Fault, Source, exit_status};
use x25_settings::{Asked, Refusal, Task, Why, settings};

/// The exit status of a usage fault.
const USAGE: u8 = 2;

/// Reports a fault on standard error, and answers its exit status. Where standard error fails too, nothing is reported.
fn report<E: Eprint>(rt: &E, fault: Fault) -> u8
    ensures { result ≡ 3 }
{
    eprintln!(rt; "{fault}").ok();
    exit_status(&Err(fault))
}

/// The exit status of a run. A fault is reported on standard error, but where nobody reads any more what is written.
fn conclude<E: Eprint>(rt: &E, run: Result<u8, Fault>, is_closed: bool) -> u8
    ensures answered { IfOk run (λ status. result ≡ status) }
    ensures fault { OnErr run (result ≡ 3) }
{
    match run {
        Ok(_) => exit_status(&run),
        Err(_) if is_closed => exit_status(&run),
        Err(fault) => report(rt, fault),
    }
}

/// Does a task, and answers the exit status: the task's, or 3 at a fault.
fn run<E: Eprint + AllocGlobal, R: Source, W: Write>(
    rt: &E,
    task: Task,
    reader: &mut Watched<R>,
    writer: &mut Output<W>,
) -> u8
    requires { AreInRange task }
    ensures { Ends task result (R.remaining reader.old.source)
        (W.contents writer.old.writer) (W.contents writer.new.writer) }
{
    let result = perform(rt.alloc(), task, Explainer::new(rt, task), reader, writer);
    if reader.is_capture() {
        eprintln!(rt;
            "this is a capture, and no lines: `x25 dump` reads it (tools/x25dump.py)"
        ).ok();
    }
    if matches!((task, &result), (Task::Frame { .. }, Ok(1))) {
        eprintln!(rt; "left out: lines that are no frame").ok();
    }
    conclude(rt, result, writer.is_closed())
}

/// Writes what was asked for, and answers the exit status: 0, or 3 where it can't be written or memory fails.
fn show<E: Print + Eprint>(rt: &E, text: Result<String, AllocError>) -> u8
    ensures { (result ≡ 0) ⊎ (result ≡ 3) }
{
    let Ok(text) = text else {
        return report(rt, Fault::NoMemory);
    };
    match print!(rt; "{text}") {
        Ok(()) => 0,
        Err(failed) => conclude(rt, Err(Fault::Write), is_unread(&failed)),
    }
}

/// Tells who asked for help or the version, and answers 0, or 3 where that can't be written; of other words it says
/// on standard error why they ask for nothing, and answers 2. Profile.
fn tell<E: Print + Eprint + AllocGlobal, S: AsStr>(rt: &E, words: &[S], refusal: Refusal) -> u8
    ensures { IsToldOf refusal.why result }
{
    match refusal.why {
        Why::Help => show(rt, help_text(rt.alloc(), refusal.command)),
        Why::Version => show(rt, version_text(rt.alloc())),
        _ => {
            tell_refusal(rt, words, refusal);
            USAGE
        }
    }
}

/// Does a task on a file, and answers the exit status: the task's, 3 at a fault, or 2 where there is no such file.
fn run_on<R: Eprint + AllocGlobal + Files, W: Write>(
    rt: &R,
    task: Task,
    path: &str,
    writer: &mut Output<W>,
) -> u8
    requires { AreInRange task }
    ensures done { EndsOnFile R.File R.File.remaining task result
        (W.contents writer.old.writer) (W.contents writer.new.writer) }
    ensures range { result ≤ 3 }
{
    match File::open(rt, path) {
        Ok(file) => run(rt, task, &mut Watched::new(Device::new(file)), writer),
        Err(error) => {
            eprintln!(rt; "{path}: {error}").ok();
            USAGE
        }
    }
}

/// Does what the words behind the program's name ask for, and answers the exit status.
fn start<E: Print + Eprint + AllocGlobal + Files, R: Source, W: Write, S: AsStr>(
    rt: &E,
    words: &[S],
    reader: &mut Watched<R>,
    writer: &mut Output<W>,
) -> u8
    ensures range { result ≤ 3 }
    // What is asked for is done, on what the reader or the file gives.
    ensures asked { IfOk (asked_in (map S.text words.now)) (λ asked. EndsOn E.File E.File.remaining asked result
        (R.remaining reader.old.source) (W.contents writer.old.writer) (W.contents writer.new.writer)) }
    // For other words no status is a task's 1, and nothing is read.
    ensures refused { IfErr (asked_in (map S.text words.now)) (λ refusal. IsToldOf refusal.why result
        × (reader.new ≡ reader.old) × (writer.new ≡ writer.old)) }
{
    match settings(words) {
        Err(refusal) => tell(rt, words, refusal),
        Ok(Asked { task, file: None }) => run(rt, task, reader, writer),
        Ok(
            Asked {
                task,
                file: Some(place),
            },
        ) => match words.get(place) {
            Some(path) => run_on(rt, task, path.as_str(), writer),
            None => USAGE,
        },
    }
}

/// Does what the words of the command line ask for, and answers the exit status.
fn answer<R: Input + Print + Eprint + Env + AllocGlobal + Files>(rt: &R) -> u8
    ensures { result ≤ 3 }
{
    let words = match env::args(rt) {
        Ok(words) => words,
        Err(error) if error.kind() == ErrorKind::OutOfMemory => {
            return report(rt, Fault::NoMemory);
        }
        Err(_) => {
            eprintln!(rt; "the words are no text").ok();
            return USAGE;
        }
    };
    let Ok(words) = words.skip(1).collect::<Vec<String>>(rt.alloc()) else {
        return report(rt, Fault::NoMemory);
    };
    let mut reader = Watched::new(Device::new(rt.reader()));
    let mut writer = Output::new(io::writer(rt));
    start(rt, words.as_slice(), &mut reader, &mut writer)
}

fn main(rt: HostRuntime) -> ExitCode {
    ExitCode::from(answer(&rt))
}
