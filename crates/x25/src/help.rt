//! What is told to who asks for help, and how a command is used.
use clap::{Arg, ArgAction, Command as Told};
use std::alloc::{AllocError, Global};
use x25_settings::{Choice, Command};

/// What a command does.
fn about<'a>(command: Command) -> &'a str {
    match command {
        Command::Decode => {
            "Answer lines of octets, `> HEX` from the DTE and `< HEX` from the DCE, by lines of text"
        }
        Command::Vectors => "Run the stored test vectors",
        Command::Sim => {
            "Run a script of two stations joined by a line, and write what each end is told"
        }
        Command::Station => {
            "Run one station: lines of the other end and of its user in, what it does out"
        }
        Command::Judge => {
            "Answer lines of a trace of both ends as `decode` does, in its place, \
            and say which end broke which rule"
        }
        Command::Deframe => {
            "Answer octets of a synchronous line by the lines of a trace that it carries"
        }
        Command::Frame => {
            "Answer lines of a trace by octets of a synchronous line that carries their frames"
        }
        Command::Tabs => {
            "Answer lines of `decode`, `judge`, `sim` or `station` by records for programs, fields with tabs between"
        }
    }
}

/// How it is used.
fn usage<'a>(command: Command) -> &'a str {
    match command {
        Command::Decode => "x25 decode [OPTIONS] [FILE]",
        Command::Vectors => "x25 vectors",
        Command::Sim => "x25 sim [OPTIONS] [FILE]",
        Command::Station => "x25 station END [OPTIONS] [FILE]",
        Command::Judge => "x25 judge [OPTIONS] [FILE]",
        Command::Deframe => "x25 deframe END [FILE]",
        Command::Frame => "x25 frame [OPTIONS] [FILE]",
        Command::Tabs => "x25 tabs [FILE]",
    }
}

/// What stands below its options.
fn below<'a>(command: Command) -> &'a str {
    match command {
        Command::Sim => {
            "Examples:
  x25 sim < examples/call.script
  x25 sim --tap < examples/call.script | grep '^[<>]' | x25 decode"
        }
        Command::Station => {
            "END is dte or dce: the end at which the station is.

Examples:
  printf 'dte connect\\n< 01738357\\n' | x25 station dte"
        }
        Command::Judge => {
            "Examples:
  x25 judge < examples/exchange.trace
  x25 sim --tap < examples/losses.script | grep '^[<>]' | x25 judge --at line"
        }
        Command::Deframe => {
            "END is dte or dce: the end that sends on the line.

Examples:
  x25 deframe dte < line.bin | grep -v '^#' | x25 decode
  grep '^>' trace | x25 frame | x25 deframe dte"
        }
        Command::Tabs => {
            "Examples:
  x25 decode --wide < trace | x25 tabs | cut -f 5 | sort | uniq -c"
        }
        _ => "",
    }
}

/// What an option does.
fn help<'a>(command: Command, choice: Choice) -> &'a str {
    match choice {
        Choice::Clock => {
            "Read the time in lines `@ MS`, in milliseconds, and ask for what is due then"
        }
        Choice::Down => "Begin with both links down, in place of just set up",
        Choice::Events => "Write which event it was after what it made",
        Choice::Long => "Take up to 128 octets of user data in a CALL, in place of 16",
        Choice::Loose => {
            "Read a time and a tab before a line, comments (#), empty lines and CR LF too"
        }
        Choice::Manners => "Answer status 1 too where manners were broken",
        Choice::Reasons => {
            "Say on standard error why a line is refused: its number, and what that means"
        }
        Choice::SaySizes => {
            "Say packet sizes and windows in each CALL and CALL ACCEPTED, also where they are the default"
        }
        Choice::Strict => {
            "Answer status 1 too where something wasn't judged, or missing frames may explain a rule"
        }
        Choice::Tap => "Write the frames of each step after its entries, as lines for `decode`",
        Choice::Wide if matches!(command, Command::Sim | Command::Station) => {
            "Take packets in all the forms that X.25 lets equipment send"
        }
        Choice::Wide => {
            "Read packets in all the forms that X.25 lets equipment send, and mark those by `~ wide`"
        }
        Choice::At => {
            "What the trace may lack: nothing (line), what the line lost before this end (dte, dce), \
            any frame (either) [default: either]"
        }
        Choice::Window => "The window of the link: 1 to 7 [default: 7]",
        Choice::Tries => {
            "How often an unanswered command of the link is sent again: 1 to 255 [default: 10]"
        }
        Choice::Channels if matches!(command, Command::Sim) => {
            "The number of logical channels: 1 to 16 [default: 1]"
        }
        Choice::Channels => "The number of logical channels: 1 to 4095 [default: 1]",
        Choice::Incoming => {
            "Channels 1 to N are one-way incoming: a DTE doesn't call on them [default: 0]"
        }
        Choice::Outgoing => {
            "The N highest channels are one-way outgoing: a DCE doesn't call on them [default: 0]"
        }
        Choice::Message => {
            "The most octets of a message, for which each call has memory: 1 to 65535 [default: 65535]"
        }
        Choice::Size => {
            "The network's packet size where a call names none, in octets: 16 to 4096 [default: 128]"
        }
        Choice::PacketWindow => {
            "The network's window of a channel where a call names none: 1 to 7 [default: 2]"
        }
        Choice::T1 => {
            "With --clock, how long T1 is, in milliseconds: 0 (never) to 86400000 [default: 3000]; \
            `x25 bridge` has seconds"
        }
        Choice::T3 => "T3, of a link at rest, in milliseconds as all of these [default: 60000]",
        Choice::T20 => "T20, of a restart, at a DCE T10 [default: 180000, at a DCE 60000]",
        Choice::T21 => "T21, of a call, at a DCE T11 [default: 200000, at a DCE 180000]",
        Choice::T22 => "T22, of a reset, at a DCE T12 [default: 180000, at a DCE 60000]",
        Choice::T23 => "T23, of a clearing, at a DCE T13 [default: 180000, at a DCE 60000]",
        Choice::T25 => "T25, of a data packet that isn't acknowledged [default: 0]",
        Choice::T26 => "T26, of an interrupt [default: 180000, at a DCE 0]",
    }
}

/// The name of an option's value.
fn value<'a>(choice: Choice) -> &'a str {
    match choice {
        Choice::At => "PLACE",
        Choice::T1
        | Choice::T3
        | Choice::T20
        | Choice::T21
        | Choice::T22
        | Choice::T23
        | Choice::T25
        | Choice::T26 => "MS",
        _ => "N",
    }
}

/// An option, as the parser has it.
fn arg<'a>(alloc: Global, command: Command, choice: Choice) -> Result<Arg<'a>, AllocError> {
    let word: &str = choice.word();
    let name = word.trim_start_matches('-');
    let arg = Arg::new(alloc, name).long(name).help(help(command, choice));
    if choice.wants_value() {
        Ok(arg.value_name(value(choice)))
    } else {
        Ok(arg.action(ArgAction::SetTrue))
    }
}

/// Two that were made, or the first refusal. A body that knows their types lets go of what is left over at a refusal
/// part by part, which the prover follows.
fn both<A: Drop, B: Drop>(
    first: Result<A, AllocError>,
    second: Result<B, AllocError>,
) -> Result<(A, B), AllocError> {
    Ok((first?, second?))
}

/// A command that was made, with one more option.
fn with_arg<'a>(
    told: Result<Told<'a>, AllocError>,
    arg: Result<Arg<'a>, AllocError>,
) -> Result<Told<'a>, AllocError> {
    let (told, arg) = both(told, arg)?;
    told.arg(arg)
}

/// The program that was made, with one more command.
fn with_command<'a>(
    program: Result<Told<'a>, AllocError>,
    told: Result<Told<'a>, AllocError>,
) -> Result<Told<'a>, AllocError> {
    let (program, told) = both(program, told)?;
    program.subcommand(told)
}

/// A command, with none of its options yet.
fn bare<'a>(alloc: Global, command: Command) -> Told<'a> {
    Told::new(alloc, command.word())
        .about(about(command))
        .override_usage(usage(command))
        .after_help(below(command))
}

/// A command, as the parser has it.
fn told<'a>(alloc: Global, command: Command) -> Result<Told<'a>, AllocError> {
    let mut told = Ok(bare(alloc, command));
    for choice in &Choice::ALL {
        if command.has(*choice) {
            told = with_arg(told, arg(alloc, command, *choice));
        }
    }
    told
}

/// The program, with none of its commands yet.
fn program<'a>(alloc: Global) -> Told<'a> {
    Told::new(alloc, "x25")
        .about("X.25 packet layer over LAPB, on lines of text")
        .version("0.1.0")
        .subcommand_required(true)
}

/// The program with its commands, or one of these. A refusal is handed on from command to command.
fn asked<'a>(alloc: Global, command: Option<Command>) -> Result<Told<'a>, AllocError> {
    if let Some(command) = command {
        return told(alloc, command);
    }
    let mut all = Ok(program(alloc));
    for command in &Command::ALL {
        all = with_command(all, told(alloc, *command));
    }
    all
}

/// The help of a command, or of the program.
pub(crate) fn help_text(alloc: Global, command: Option<Command>) -> Result<String, AllocError> {
    asked(alloc, command)?.render_help()
}

/// How a command is used, or the program.
pub(crate) fn usage_text(alloc: Global, command: Option<Command>) -> Result<String, AllocError> {
    asked(alloc, command)?.render_usage()
}

/// Which version of the program this is.
pub(crate) fn version_text(alloc: Global) -> Result<String, AllocError> {
    program(alloc).render_version()
}
