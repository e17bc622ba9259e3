//! What is said on standard error of words that ask for nothing.
use crate::help::usage_text;
use crate::nearest::Nearest;
use std::alloc::Global;
use std::convert::AsStr;
use x25_settings::{Choice, Command, Refusal, Why};

/// The ends of the link, and the places of a trace.
const ENDS: &str = "dte or dce";

const PLACES: &str = "line, dte, dce or either";

/// The word at a place, nothing where none is there.
fn word_at<S: AsStr>(words: &[S], place: usize) -> &str {
    match words.get(place) {
        Some(word) => word.as_str(),
        None => "",
    }
}

/// The name of an option and its value, which stands in its word or is the next one.
fn split_option<S: AsStr>(words: &[S], place: usize) -> (&str, &str) {
    let word = word_at(words, place);
    match word.split_once('=') {
        Some((name, value)) => (name, value),
        None => (word, word_at(words, place.saturating_add(1))),
    }
}

/// Whether digits are written, without leading zeros.
fn is_number(text: &str) -> bool {
    let digits = text.as_bytes();
    let is_plain = digits.len() == 1 || !text.starts_with('0');
    !digits.is_empty() && is_plain && digits.iter().all(|digit| digit.is_ascii_digit())
}

/// The command that may be meant by a word.
fn nearest_command(alloc: Global, word: &str) -> Option<&'static str> {
    let mut nearest = Nearest::new(alloc, word);
    for command in &Command::ALL {
        nearest = nearest.or(command.word());
    }
    nearest.found()
}

/// The option of a command that may be meant by a word.
fn nearest_option(alloc: Global, command: Option<Command>, word: &str) -> Option<&'static str> {
    let mut nearest = Nearest::new(alloc, word);
    for choice in &Choice::ALL {
        if command.is_some_and(|command| command.has(*choice)) {
            nearest = nearest.or(choice.word());
        }
    }
    nearest.found()
}

/// Says of a word that it is none of what may stand there, and which may be meant.
fn tell_unknown<E: Eprint>(rt: &E, what: &str, word: &str, nearest: Option<&str>) {
    match nearest {
        Some(nearest) => {
            eprintln!(rt; "error: no such {what}: '{word:.60}'; did you mean '{nearest}'?").ok()
        }
        None => eprintln!(rt; "error: no such {what}: '{word:.60}'").ok(),
    };
}

/// The word of a command, where there is one.
fn command_word(command: Option<Command>) -> &'static str {
    match command {
        Some(command) => command.word(),
        None => "",
    }
}

fn is(word: &str, other: &str) -> bool {
    word == other
}

/// Says that a command has an option.
fn tell_has<E: Eprint>(rt: &E, command: Command, name: &str) {
    for choice in &Choice::ALL {
        if is(choice.word(), name) && command.has(*choice) {
            eprint!(rt; " {}", command.word()).ok();
        }
    }
}

/// Says which commands have an option.
fn tell_where<E: Eprint>(rt: &E, command: Option<Command>, name: &str) {
    let word = command_word(command);
    eprint!(rt; "error: '{name}' is no option of '{word}'; commands that have it:").ok();
    for other in &Command::ALL {
        tell_has(rt, *other, name);
    }
    eprintln!(rt; "").ok();
}

/// Says why a value is none of its option.
fn tell_value<E: Eprint>(rt: &E, name: &str, value: &str, least: u32, most: u32) {
    if is_number(value) {
        eprintln!(rt; "error: {value:.60} is not in {least}..={most}: '{name}'").ok();
    } else {
        eprintln!(rt;
            "error: '{value:.60}' is no number in {least}..={most}, without a sign and leading zeros: '{name}'"
        ).ok();
    }
}

/// Says why words ask for nothing.
fn tell_why<E: Eprint + AllocGlobal, S: AsStr>(rt: &E, words: &[S], refusal: Refusal) {
    let word = word_at(words, refusal.place);
    let (name, value) = split_option(words, refusal.place);
    match refusal.why {
        Why::Help | Why::Version => {}
        Why::NoCommand => {
            eprintln!(rt; "error: no command").ok();
        }
        Why::UnknownCommand if word.starts_with('-') => {
            eprintln!(rt; "error: the command comes first, then '{word:.60}'").ok();
        }
        Why::UnknownCommand => {
            tell_unknown(rt, "command", word, nearest_command(rt.alloc(), word));
        }
        Why::UnknownOption => {
            let nearest = nearest_option(rt.alloc(), refusal.command, name);
            tell_unknown(rt, "option", name, nearest);
        }
        Why::NotHere => tell_where(rt, refusal.command, name),
        Why::Twice => {
            eprintln!(rt; "error: '{name}' is there twice").ok();
        }
        Why::WantsValue if is(name, "--at") => {
            eprintln!(rt; "error: '{name}' wants a place: {PLACES}").ok();
        }
        Why::WantsValue => {
            eprintln!(rt; "error: '{name}' wants a number").ok();
        }
        Why::WantsNone => {
            eprintln!(rt; "error: '{name}' has no value: '{word:.60}'").ok();
        }
        Why::Number(least, most) => tell_value(rt, name, value, least, most),
        Why::Place => {
            eprintln!(rt; "error: '{value:.60}' is none of {PLACES}: '{name}'").ok();
        }
        Why::NoEnd => {
            eprintln!(rt; "error: no end: {ENDS}").ok();
        }
        Why::End => {
            eprintln!(rt; "error: '{word:.60}' is no end: {ENDS}").ok();
        }
        Why::TooMany => {
            eprintln!(rt; "error: unexpected argument '{word:.60}' found").ok();
        }
        Why::NoClock => {
            eprintln!(rt; "error: '{name}' is a time of a clock: '--clock' isn't there").ok();
        }
        Why::OneWay => {
            eprintln!(rt;
                "error: '--incoming' and '--outgoing' are more than '--channels' together"
            ).ok();
        }
    }
}

/// Says on standard error why words ask for nothing, and how their command is used.
pub(crate) fn tell_refusal<E: Eprint + AllocGlobal, S: AsStr>(
    rt: &E,
    words: &[S],
    refusal: Refusal,
) {
    tell_why(rt, words, refusal);
    if let Ok(usage) = usage_text(rt.alloc(), refusal.command) {
        eprintln!(rt; "\n{usage}\n\nFor more information, try '--help'.").ok();
    }
}
