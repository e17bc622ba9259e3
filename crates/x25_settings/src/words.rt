//! What the words of the command line ask for.
ghost use Rattle.std.specs.Prelude.{◌≡◌, false, IfOk, Some, Err, map, length};
ghost use Rattle.x25_settings.specs.Items.{items};
ghost use Rattle.x25_settings.specs.Words.{AreInRange, asked_behind, asked_in, clock_of, end_of};
ghost use Rattle.x25_settings.specs.Words.{file_of, front_fault, placed_at, station_of, task_of};

use crate::items::{
    Named, asks_help, asks_version, first_fault, given, is_chosen, number_of, operand_of, place_of,
    split_word,
};
use crate::options::{
    At, Choice, Command, Decoding, End, GivenTimes, Judging, Place, Simulation, StationOptions,
    command_named, is,
};
use std::convert::AsStr;

/// What to run.
#[derive(Clone, Copy, Debug, PartialEq, Eq)]
pub enum Task {
    Decode(Decoding),
    Vectors,
    Sim(Simulation),
    Station(Place),
    Judge(Judging),
    /// Of a synchronous line, the end that sends on it.
    Deframe(End),
    Frame {
        /// Times, comments, empty lines and carriage returns are read.
        loose: bool,
    },
    Tabs,
}

/// What the words ask for.
#[derive(Clone, Copy, Debug, PartialEq, Eq)]
pub struct Asked {
    pub task: Task,
    /// Which of the words, from 0 on, names the file that is read in place of standard input.
    pub file: Option<usize>,
}

/// Why words ask for nothing.
#[derive(Clone, Copy, Debug, PartialEq, Eq)]
pub enum Why {
    /// They ask for help.
    Help,
    /// They ask for the version.
    Version,
    NoCommand,
    UnknownCommand,
    UnknownOption,
    /// The command hasn't got this option.
    NotHere,
    /// The option comes again.
    Twice,
    WantsValue,
    WantsNone,
    /// The value is no number from the first to the second, written without a sign and leading zeros.
    Number(u32, u32),
    /// The value is no place of a trace.
    Place,
    NoEnd,
    /// The word is no end.
    End,
    TooMany,
    /// A time is given, and no clock.
    NoClock,
    /// More channels are one-way than there are.
    OneWay,
}

/// Words that ask for nothing.
#[derive(Clone, Copy, Debug, PartialEq, Eq)]
pub struct Refusal {
    /// Their command.
    pub command: Option<Command>,
    /// Which word is refused, from 0 on; their number where none of them is.
    pub place: usize,
    pub why: Why,
}

fn refuse(command: Command, place: usize, why: Why) -> Refusal
    ensures { result ≡ record { command = Some command; place = place; why = why } }
{
    Refusal {
        command: Some(command),
        place,
        why,
    }
}

/// What a station is run with.
fn station_of<S: AsStr>(command: Command, words: &[S]) -> StationOptions
    ensures { result ≡ station_of (items command false (map S.text words.now)) }
{
    StationOptions {
        long: is_chosen(command, words, Choice::Long),
        say_sizes: is_chosen(command, words, Choice::SaySizes),
        wide: is_chosen(command, words, Choice::Wide),
        k: number_of(command, words, Choice::Window) as u8,
        n2: number_of(command, words, Choice::Tries) as u8,
        channels: number_of(command, words, Choice::Channels) as u16,
        incoming: number_of(command, words, Choice::Incoming) as u16,
        outgoing: number_of(command, words, Choice::Outgoing) as u16,
        message: number_of(command, words, Choice::Message) as u16,
    }
}

/// The times of the clock, where there is one.
fn clock_of<S: AsStr>(command: Command, words: &[S]) -> Option<GivenTimes>
    ensures { result ≡ clock_of (items command false (map S.text words.now)) }
{
    if !is_chosen(command, words, Choice::Clock) {
        return None;
    }
    Some(GivenTimes {
        t1: given(command, words, Choice::T1),
        t3: given(command, words, Choice::T3),
        t20: given(command, words, Choice::T20),
        t21: given(command, words, Choice::T21),
        t22: given(command, words, Choice::T22),
        t23: given(command, words, Choice::T23),
        t25: given(command, words, Choice::T25),
        t26: given(command, words, Choice::T26),
    })
}

/// The end that is named.
fn end_of<S: AsStr>(command: Command, words: &[S]) -> Option<End>
    ensures { result ≡ end_of (items command false (map S.text words.now)) }
{
    match operand_of(command, words, false) {
        Some((_, Named::End(end))) => Some(end),
        _ => None,
    }
}

/// The file that is named, by how many words are left there.
fn file_of<S: AsStr>(command: Command, words: &[S]) -> Option<usize>
    ensures { result ≡ file_of command (items command false (map S.text words.now)) }
{
    match operand_of(command, words, command.has_end()) {
        None | Some((_, Named::Input)) => None,
        Some((left, _)) => Some(left),
    }
}

/// What the words behind `station` say.
fn station<S: AsStr>(command: Command, words: &[S]) -> Result<Task, Why>
    ensures { result ≡ placed_at (items command false (map S.text words.now))
        (end_of (items command false (map S.text words.now))) }
{
    let Some(end) = end_of(command, words) else {
        return Err(Why::NoEnd);
    };
    let station = station_of(command, words);
    let one_way = usize::from(station.incoming) + usize::from(station.outgoing);
    if one_way <= usize::from(station.channels) {
        let clock = clock_of(command, words);
        Ok(Task::Station(Place {
            end,
            station,
            clock,
            loose: is_chosen(command, words, Choice::Loose),
            reasons: is_chosen(command, words, Choice::Reasons),
        }))
    } else {
        Err(Why::OneWay)
    }
}

/// What the words behind a command say.
fn task_of<S: AsStr>(command: Command, words: &[S]) -> Result<Task, Why>
    ensures { result ≡ task_of command (items command false (map S.text words.now)) }
{
    Ok(match command {
        Command::Decode => Task::Decode(Decoding {
            long: is_chosen(command, words, Choice::Long),
            loose: is_chosen(command, words, Choice::Loose),
            wide: is_chosen(command, words, Choice::Wide),
        }),
        Command::Vectors => Task::Vectors,
        Command::Sim => Task::Sim(Simulation {
            down: is_chosen(command, words, Choice::Down),
            tap: is_chosen(command, words, Choice::Tap),
            events: is_chosen(command, words, Choice::Events),
            loose: is_chosen(command, words, Choice::Loose),
            station: station_of(command, words),
        }),
        Command::Station => return station(command, words),
        Command::Judge => Task::Judge(Judging {
            long: is_chosen(command, words, Choice::Long),
            loose: is_chosen(command, words, Choice::Loose),
            manners: is_chosen(command, words, Choice::Manners),
            strict: is_chosen(command, words, Choice::Strict),
            wide: is_chosen(command, words, Choice::Wide),
            k: number_of(command, words, Choice::Window) as u8,
            size: number_of(command, words, Choice::Size) as u16,
            window: number_of(command, words, Choice::PacketWindow) as u8,
            at: place_of(command, words),
        }),
        Command::Deframe => Task::Deframe(end_of(command, words).ok_or(Why::NoEnd)?),
        Command::Frame => Task::Frame {
            loose: is_chosen(command, words, Choice::Loose),
        },
        Command::Tabs => Task::Tabs,
    })
}

/// What the words behind a command ask for, where so many words are there in all.
fn asked_behind<S: AsStr>(command: Command, count: usize, words: &[S]) -> Result<Asked, Refusal>
    ensures { result ≡ asked_behind command count (items command false (map S.text words.now)) }
{
    if let Some((left, why)) = first_fault(command, words) {
        return Err(refuse(command, count.saturating_sub(left), why));
    }
    match task_of(command, words) {
        Err(why) => Err(refuse(command, count, why)),
        Ok(task) => {
            let file = match file_of(command, words) {
                Some(left) => Some(count.saturating_sub(left)),
                None => None,
            };
            Ok(Asked { task, file })
        }
    }
}

/// Why words whose first one is no command ask for nothing.
fn front_refusal<S: AsStr>(word: &str, words: &[S]) -> Refusal
    ensures { Err result ≡ front_fault word.now (map S.text words.now) }
{
    let (command, why) = if is(word, "help") {
        let command = match split_word(words) {
            Some((word, _)) => command_named(word),
            None => None,
        };
        (command, Why::Help)
    } else if asks_help(word) {
        (None, Why::Help)
    } else if asks_version(word) {
        (None, Why::Version)
    } else {
        (None, Why::UnknownCommand)
    };
    Refusal {
        command,
        place: 0,
        why,
    }
}

/// What the words after the program's name ask for.
///
/// The first word is the command. After it stand its options, an end where it is of one, and a file to read in place
/// of standard input, which `-` is, in any order. An option is there once. Its value is the next word, or stands in
/// its own word after `=`. After `--` no word is an option. A number is decimal without leading zeros. Profile.
///
/// Of `station`, no more channels are one-way than there are, and times are given with a clock alone. Err: the words
/// ask for help or for the version, or the first of them that is wrong. It takes no memory.
pub fn settings<S: AsStr>(words: &[S]) -> Result<Asked, Refusal>
    ensures asked { result ≡ asked_in (map S.text words.now) }
    ensures range { IfOk result (λ asked. AreInRange asked.task) }
{
    let Some((word, behind)) = split_word(words) else {
        return Err(Refusal {
            command: None,
            place: 0,
            why: Why::NoCommand,
        });
    };
    match command_named(word) {
        Some(command) => asked_behind(command, words.len(), behind),
        None => Err(front_refusal(word, behind)),
    }
}
