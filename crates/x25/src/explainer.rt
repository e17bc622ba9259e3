//! What is said on standard error of lines of a script or of a station that are none, and of those that are refused.
use crate::nearest::Nearest;
use std::alloc::Global;
use std::str;
use x25_settings::{End, Task};
use x25_sim::Reporter;

/// A word that says what a line asks for, and the form of such a line.
struct Form {
    word: &'static str,
    form: &'static str,
}

/// The lines of a user, whose second word says what he asks for.
static OF_A_USER: [Form; 15] = [
    Form {
        word: "call",
        form: "END call CALLED CALLING HEX [SIZE SIZE WINDOW WINDOW]",
    },
    Form {
        word: "accept",
        form: "END accept CH [SIZE SIZE WINDOW WINDOW]",
    },
    Form {
        word: "clear",
        form: "END clear CH (and with --wide [cause=N] [diag=N])",
    },
    Form {
        word: "with",
        form: "END with FAC HEX [d] REST (with --wide; REST is call .., accept .. or clear ..)",
    },
    Form {
        word: "send",
        form: "END send CH Q [d] HEX (d with --wide)",
    },
    Form {
        word: "int",
        form: "END int CH HEX",
    },
    Form {
        word: "reset",
        form: "END reset CH (and with --wide [cause=N] [diag=N])",
    },
    Form {
        word: "ready",
        form: "END ready CH",
    },
    Form {
        word: "notready",
        form: "END notready CH",
    },
    Form {
        word: "restart",
        form: "END restart (and with --wide [cause=N] [diag=N])",
    },
    Form {
        word: "pull",
        form: "END pull",
    },
    Form {
        word: "connect",
        form: "END connect",
    },
    Form {
        word: "disconnect",
        form: "END disconnect",
    },
    Form {
        word: "probe",
        form: "END probe",
    },
    Form {
        word: "relink",
        form: "END relink",
    },
];

/// The other lines, whose first word says it.
static OF_THE_LINE: [Form; 8] = [
    Form {
        word: "t1",
        form: "t1 END",
    },
    Form {
        word: "deliver",
        form: "deliver DIR",
    },
    Form {
        word: "lose",
        form: "lose DIR PLACE",
    },
    Form {
        word: "damage",
        form: "damage DIR PLACE HEX",
    },
    Form {
        word: "drain",
        form: "drain N",
    },
    Form {
        word: "heal",
        form: "heal",
    },
    Form {
        word: "dte",
        form: "END call .., END accept .., and the like",
    },
    Form {
        word: "dce",
        form: "END call .., END accept .., and the like",
    },
];

/// What the number of an error says of what a line asks for.
fn meaning<'a>(error: u8) -> &'a str {
    match error {
        9 => "the link isn't up",
        10 => "256 packets wait",
        11 => "timer T1 isn't running",
        12 => "the link is being set up",
        13 => "the link was ended",
        15 => "the link is up",
        30 => "not in this state of the channel",
        31 => "8 messages wait",
        32 => "a message that is too long",
        33 => "an interrupt isn't confirmed yet",
        34 => "a parameter is out of range",
        40 => "a restart is under way",
        41 => "no channel is free",
        42 => "no such channel",
        50 => "nothing is on the line",
        51 => "no frame at that place",
        52 => "the damage can't be seen: the octets pass the frame check sequence",
        54 => "timer T1, while the SABM of the end or a UA to it is on the line",
        _ => "refused",
    }
}

/// The form of the lines with a word.
fn form_of<'a>(word: &str, forms: &'a [Form]) -> Option<&'a Form> {
    forms.iter().find(|form| form.word == word)
}

/// The word of a form that may be meant by another one.
fn nearest(alloc: Global, word: &str, forms: &'static [Form]) -> Option<&'static str> {
    let mut nearest = Nearest::new(alloc, word);
    for form in forms {
        nearest = nearest.or(form.word);
    }
    nearest.found()
}

/// The word of a line that says what it asks for, and the forms that it may have.
fn asking(line: &str) -> (&str, &'static [Form]) {
    let (first, behind) = line.split_once(' ').unwrap_or((line, ""));
    if first == "dte" || first == "dce" {
        let (second, _) = behind.split_once(' ').unwrap_or((behind, ""));
        return (second, &OF_A_USER);
    }
    (first, &OF_THE_LINE)
}

/// Whether a number of 16 bits is written, without a sign or leading zeros.
fn is_number(word: &str) -> bool {
    let is_plain = word == "0" || !(word.starts_with('0') || word.starts_with('+'));
    is_plain && word.parse::<u16>().is_ok()
}

/// Whether octets are written, or that there are none.
fn are_octets(word: &str) -> bool {
    let digits = word.as_bytes();
    let is_paired = !digits.is_empty() && digits.len() % 2 == 0;
    word == "-" || is_paired && digits.iter().all(|digit| digit.is_ascii_hexdigit())
}

/// What a field of a form is, where the word in its place is none.
fn wanted(field: &str, word: &str) -> Option<&'static str> {
    match field {
        "CALLED" | "CALLING" | "CH" | "Q" | "HEX" | "FAC" | "END" | "DIR" | "PLACE" | "N"
            if word.is_empty() => { Some("after a blank too many") }
        "END" if word != "dte" && word != "dce" => Some("dte or dce"),
        "DIR" if word != ">" && word != "<" => Some("> or <"),
        "Q" if word != "0" && word != "1" => Some("0 or 1"),
        "N" if word == "0" || !is_number(word) => Some("a number from 1 to 65535"),
        "CH" | "PLACE" if !is_number(word) => Some("a number from 0 to 65535"),
        "HEX" | "FAC" if !are_octets(word) => Some("pairs of digits 0 to f, or -"),
        _ => None,
    }
}

/// The first field of a form in whose place another word stands, or none, and what it is.
fn misfit<'a>(form: &'a str, line: &str) -> Option<(&'a str, &'static str)> {
    let (plain, note) = form.split_once(" (").unwrap_or((form, ""));
    let (needed, more) = plain.split_once(" [SIZE").unwrap_or((plain, note));
    let mut words = line.split(' ').filter(|word| *word != "d");
    for field in needed.split(' ').filter(|field| *field != "[d]") {
        let Some(word) = words.next() else {
            return Some((field, "missing"));
        };
        if let Some(wanted) = wanted(field, word) {
            return Some((field, wanted));
        }
    }
    if more.is_empty() && words.next().is_some() {
        let last = needed.split(' ').filter(|field| *field != "[d]").last();
        Some((last.unwrap_or(needed), "the last word"))
    } else {
        None
    }
}

/// What may be wrong with a line whose first word asks for nothing.
fn hint<'a>(line: &str) -> &'a str {
    let (first, _) = line.split_once(' ').unwrap_or((line, ""));
    let has_capital = first
        .as_bytes()
        .iter()
        .any(|octet| octet.is_ascii_uppercase());
    if line.starts_with('#') {
        " (--loose takes comments)"
    } else if line.starts_with(' ') {
        " (a blank stands before it)"
    } else if form_of(first, &OF_A_USER).is_some() {
        " (dte or dce stands before it)"
    } else if has_capital {
        " (words are in lower case)"
    } else {
        ""
    }
}

/// Whether a text has no control characters, and no mark of UTF-8 at its front.
fn is_plain(text: &str) -> bool {
    !text.starts_with('\u{FEFF}') && text.as_bytes().iter().all(|octet| *octet >= b' ')
}

/// What the lines are of which it is said why they are refused.
#[derive(Clone, Copy)]
enum Told {
    Nothing,
    Script,
    /// Lines of a station at an end, which has a clock or not.
    Station(End, bool),
}

/// The lines of a task.
fn told_of(task: Task) -> Told {
    match task {
        Task::Sim(_) => Told::Script,
        Task::Station(place) if place.reasons => Told::Station(place.end, place.clock.is_some()),
        _ => Told::Nothing,
    }
}

/// Whether a word names the other end, or is the mark of what this end sends.
fn is_of_other(end: End, word: &str) -> bool {
    match end {
        End::Dte => word == "dce",
        End::Dce => word == "dte",
    }
}

fn is_own_mark(end: End, word: &str) -> bool {
    match end {
        End::Dte => word == ">",
        End::Dce => word == "<",
    }
}

/// Why a line that may be one of another end, or of a script of both ends, is none of a station.
fn strange_line<'a>(end: End, has_clock: bool, line: &str) -> Option<&'a str> {
    let (first, rest) = line.split_once(' ').unwrap_or((line, ""));
    let (second, _) = rest.split_once(' ').unwrap_or((rest, ""));
    match first {
        _ if is_of_other(end, first) => Some("is of the other end"),
        "t1" if is_of_other(end, second) => Some("is of the other end"),
        "deliver" | "lose" | "damage" | "drain" | "heal" => {
            Some("is of `sim`: a station has no line between two ends")
        }
        "@" if has_clock => Some("says no time in milliseconds, or an earlier one than before"),
        "@" => Some("says the time, which --clock reads"),
        ">" | "<" if is_own_mark(end, first) => Some(
            "is what this end sends, and no line that comes to it",
        ),
        ">" | "<" => Some("has no octets of a frame: pairs of digits 0 to f"),
        _ => None,
    }
}

/// Of how many lines it is said what is wrong.
const MOST_TOLD: u8 = 20;

/// Says on standard error what is wrong with the first lines, and of empty lines once.
#[derive(Drop)]
pub(crate) struct Explainer<'a, E> {
    rt: &'a E,
    of: Told,
    told: u8,
    is_empty_told: bool,
}

impl<'a, E: Eprint + AllocGlobal> Explainer<'a, E> {
    pub(crate) fn new(rt: &'a E, task: Task) -> Explainer<'a, E> {
        Explainer {
            rt,
            of: told_of(task),
            told: 0,
            is_empty_told: false,
        }
    }

    /// Says what is wrong with a line of text.
    fn explain(&self, number: u64, line: &str) {
        let strange = match self.of {
            Told::Station(end, has_clock) => strange_line(end, has_clock, line),
            _ => None,
        };
        match strange {
            Some(why) => {
                eprintln!(self.rt; "line {number}: '{line:.60}' {why}").ok();
            }
            None => self.explain_event(number, line),
        }
    }

    /// Says what is wrong with an event.
    fn explain_event(&self, number: u64, line: &str) {
        let (word, forms) = asking(line);
        if let Some(known) = form_of(word, forms) {
            let form = known.form;
            if let Some((field, wanted)) = misfit(form, line) {
                eprintln!(self.rt;
                    "line {number}: '{line:.60}' isn't of the form '{form}': {field} is {wanted}"
                ).ok();
            } else {
                eprintln!(self.rt; "line {number}: '{line:.60}' isn't of the form '{form}'").ok();
            }
        } else if let Some(near) = nearest(self.rt.alloc(), word, forms) {
            eprintln!(self.rt;
                "line {number}: no such event '{line:.60}' (did you mean {near}?)"
            ).ok();
        } else {
            eprintln!(self.rt; "line {number}: no such event '{line:.60}'{}", hint(line)).ok();
        }
    }

    /// Whether one line more may be told of; of the last one it says so.
    fn may_tell(&mut self) -> bool {
        if matches!(self.of, Told::Nothing) {
            return false;
        }
        if self.told == MOST_TOLD {
            self.told += 1;
            eprintln!(self.rt; "no more is said of such lines").ok();
        }
        if self.told > MOST_TOLD {
            return false;
        }
        self.told += 1;
        true
    }

    /// Says what is wrong with a line that isn't empty.
    fn tell(&self, number: u64, line: Option<&[u8]>) {
        let Some(octets) = line else {
            eprintln!(self.rt; "line {number}: longer than 131,200 characters").ok();
            return;
        };
        match str::from_utf8(octets) {
            Ok(text) if is_plain(text) => self.explain(number, text),
            _ => {
                eprintln!(self.rt;
                    "line {number}: has other characters than text (--loose takes a time and a tab or the \
                     mark of UTF-8 before an event, and a carriage return at its end)"
                )
                .ok();
            }
        }
    }
}

impl<'a, E: Eprint + AllocGlobal> Reporter for Explainer<'a, E> {
    fn report(&mut self, number: u64, line: Option<&[u8]>) {
        if line.is_some_and(|octets| octets.is_empty()) {
            if !self.is_empty_told && !matches!(self.of, Told::Nothing) {
                self.is_empty_told = true;
                eprintln!(self.rt; "line {number}: empty (--loose takes empty lines)").ok();
            }
            return;
        }
        if self.may_tell() {
            self.tell(number, line);
        }
    }

    fn refuse(&mut self, number: u64, error: u8, line: &[u8]) {
        if !self.may_tell() {
            return;
        }
        let text = str::from_utf8(line).unwrap_or("");
        eprintln!(self.rt;
            "line {number}: ! {error}, {}: '{text:.60}'",
            meaning(error)
        )
        .ok();
    }
}
