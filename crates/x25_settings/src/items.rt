//! The words behind a command: options, and words that are none.
ghost use Rattle.std.specs.Prelude.{◌≡◌, false, ◌≤◌, ◌<◌, ◌∷◌, [], IfSome, MatchOption, option_map, map, length};
ghost use Rattle.x25_settings.specs.Items.{choice_of, fault_in, is_again, is_chosen, is_of, is_operand, item_at};
ghost use Rattle.x25_settings.specs.Items.{item_fault, item_of, items, name_in, named_of, operand_fault, operand_of};
ghost use Rattle.x25_settings.specs.Items.{asks_help, asks_version, chosen, dashed, ends, is_dashed, is_valued};
ghost use Rattle.x25_settings.specs.Items.{located};
ghost use Rattle.x25_settings.specs.Items.{named_by, numbered, operand, option_fault, plain, read_value, takes_next};
ghost use Rattle.x25_settings.specs.Items.{value_in, valued};
ghost use Rattle.x25_settings.specs.Options.{has_end, has_file, most_of};
ghost use Rattle.x25_settings.specs.Words.{given_of, number_of, site_of};
ghost use Rattle.x25_settings.specs.declared.options.Choice.TheVariants as choice;
ghost use Rattle.x25_settings.specs.declared.options.Command.TheVariants.{Station};

use crate::options::{At, Choice, Command, End, choice_named, end_named, is, number, place_named};
use crate::words::Why;
use std::convert::AsStr;

/// What stands at the front of words behind a command.
#[derive(Clone, Copy)]
pub(crate) enum Item {
    Flag(Choice),
    Number(Choice, u32),
    /// Where a trace was made.
    Located(At),
    /// Behind `--` no word is an option.
    Dashes,
    Operand(Named),
    Wrong(Why),
}

/// A word that is no option.
#[derive(Clone, Copy)]
pub(crate) enum Named {
    /// An end; it may be the name of a file too.
    End(End),
    /// Standard input.
    Input,
    File,
}

impl Item {
    /// The option that it is.
    fn choice(self) -> Option<Choice>
        ensures { result ≡ choice_of self }
    {
        match self {
            Item::Flag(choice) | Item::Number(choice, _) => Some(choice),
            Item::Located(_) => Some(Choice::At),
            _ => None,
        }
    }

    /// Whether it is one of an option.
    fn is_of(self, choice: Choice) -> bool
        ensures { result ≡ is_of choice self }
    {
        match self.choice() {
            None => false,
            Some(other) => is(choice.word(), other.word()),
        }
    }

    /// A word that is no option.
    fn named(self) -> Option<Named>
        ensures { result ≡ named_of self }
    {
        match self {
            Item::Operand(named) => Some(named),
            _ => None,
        }
    }

    /// What is wrong with it, where the words have a clock or not, where the option comes again or not, and where an
    /// end and a file may still come.
    fn fault(self, clock: bool, again: bool, end: bool, file: bool) -> Option<Why>
        ensures { result ≡ item_fault clock again end file self }
    {
        match self {
            Item::Wrong(why) => Some(why),
            Item::Operand(named) => operand_fault(named, end, file),
            _ => option_fault(self.choice(), clock, again),
        }
    }
}

/// What is wrong with an option.
fn option_fault(choice: Option<Choice>, clock: bool, again: bool) -> Option<Why>
    ensures { result ≡ option_fault clock again choice }
{
    match choice {
        Some(_) if again => Some(Why::Twice),
        Some(choice) if choice.is_time() && !clock => Some(Why::NoClock),
        _ => None,
    }
}

/// What is wrong with a word that is no option, where an end and a file may still come.
fn operand_fault(named: Named, end: bool, file: bool) -> Option<Why>
    ensures { result ≡ operand_fault end file named }
{
    if end {
        match named {
            Named::End(_) => None,
            _ => Some(Why::End),
        }
    } else if file {
        None
    } else {
        Some(Why::TooMany)
    }
}

/// Whether a word begins with a dash and is more than that.
fn is_dashed(word: &str) -> bool
    ensures { result ≡ is_dashed word.now }
{
    matches!(word.as_bytes(), [b'-', _, ..])
}

/// A word up to its first `=`, and what stands after that.
fn split_value(word: &str) -> (&str, Option<&str>)
    ensures name { result.0.now ≡ name_in word.now }
    ensures value { option_map (λ text. text.now) result.1 ≡ value_in word.now }
{
    match word.split_once('=') {
        Some((name, value)) => (name, Some(value)),
        None => (word, None),
    }
}

pub(crate) fn asks_help(word: &str) -> bool
    ensures { result ≡ asks_help word.now }
{
    is(word, "--help") || is(word, "-h")
}

pub(crate) fn asks_version(word: &str) -> bool
    ensures { result ≡ asks_version word.now }
{
    is(word, "--version") || is(word, "-V")
}

/// An option whose value is a text.
fn read_value(command: Command, choice: Choice, text: &str) -> Item
    ensures { result ≡ read_value command choice text.now }
{
    if let Choice::At = choice {
        return match place_named(text) {
            Some(at) => Item::Located(at),
            None => Item::Wrong(Why::Place),
        };
    }
    let (least, most) = (choice.least(), choice.most(command));
    match number(text, least, most) {
        Some(n) => Item::Number(choice, n),
        None => Item::Wrong(Why::Number(least, most)),
    }
}

/// An option that has a value.
fn valued(command: Command, choice: Choice, text: Option<&str>) -> Item
    ensures { result ≡ valued command choice (option_map (λ text. text.now) text.entry) }
{
    match text {
        Some(text) => read_value(command, choice, text),
        None => Item::Wrong(Why::WantsValue),
    }
}

/// An option, with the value in its own word and the word behind it.
fn chosen(command: Command, choice: Option<Choice>, own: Option<&str>, next: Option<&str>) -> Item
    ensures { result ≡ chosen command (option_map (λ text. text.now) own.entry)
        (option_map (λ text. text.now) next.entry) choice }
{
    match choice {
        None => Item::Wrong(Why::UnknownOption),
        Some(choice) if !command.has(choice) => Item::Wrong(Why::NotHere),
        Some(choice) if choice.wants_value() => valued(command, choice, own.or(next)),
        Some(choice) if own.is_none() => Item::Flag(choice),
        Some(_) => Item::Wrong(Why::WantsNone),
    }
}

/// A word that begins with a dash, and the word behind it.
fn dashed(command: Command, word: &str, next: Option<&str>) -> Item
    ensures { result ≡ dashed command word.now (option_map (λ text. text.now) next.entry) }
{
    if is(word, "--") {
        Item::Dashes
    } else if asks_help(word) {
        Item::Wrong(Why::Help)
    } else if asks_version(word) {
        Item::Wrong(Why::Version)
    } else {
        let (name, own) = split_value(word);
        chosen(command, choice_named(name), own, next)
    }
}

/// A word that is no option.
fn operand(word: &str) -> Item
    ensures { result ≡ operand word.now }
{
    Item::Operand(match end_named(word) {
        Some(end) => Named::End(end),
        None if is(word, "-") => Named::Input,
        None => Named::File,
    })
}

/// What a word and the one behind it are. Where the options have ended, no word is one.
fn item_at(command: Command, ended: bool, word: &str, next: Option<&str>) -> Item
    ensures { result ≡ item_at command ended word.now (option_map (λ text. text.now) next.entry) }
{
    if !ended && is_dashed(word) {
        dashed(command, word, next)
    } else {
        operand(word)
    }
}

/// Whether the value of an option is the next word.
fn takes_next(ended: bool, word: &str) -> bool
    ensures { result ≡ takes_next ended word.now }
{
    let (name, own) = split_value(word);
    match choice_named(name) {
        Some(choice) => !ended && choice.wants_value() && own.is_none(),
        None => false,
    }
}

/// The first word and those behind it, where there is one.
pub(crate) fn split_word<S: AsStr>(words: &[S]) -> Option<(&str, &[S])>
    ensures parts { MatchOption result (words.now ≡ []) (λ parts. map S.text words.now
        ≡ parts.0.now ∷ map S.text parts.1.now) }
    ensures shorter { IfSome result (λ parts. length parts.1.now < length words.now) }
{
    match words.split_first() {
        Some((word, after)) => Some((word.as_str(), after)),
        None => None,
    }
}

/// Whether the options have ended behind a word.
fn ends(ended: bool, word: &str) -> bool
    ensures { result ≡ ends ended word.now }
{
    ended || is(word, "--")
}

/// The item at the front, whether the options have ended behind it, and the words that are left.
fn split_item<S: AsStr>(command: Command, ended: bool, words: &[S]) -> Option<(Item, bool, &[S])>
    ensures parts { MatchOption result (items command ended (map S.text words.now) ≡ []) (λ parts.
        items command ended (map S.text words.now)
        ≡ (length words.now, parts.0) ∷ items command parts.1 (map S.text parts.2.now)) }
    ensures shorter { IfSome result (λ parts. length parts.2.now < length words.now) }
{
    let Some((word, behind)) = split_word(words) else {
        return None;
    };
    let ends = ends(ended, word);
    let Some((next, rest)) = split_word(behind) else {
        return Some((item_at(command, ended, word, None), ends, behind));
    };
    let item = item_at(command, ended, word, Some(next));
    if takes_next(ended, word) {
        Some((item, ends, rest))
    } else {
        Some((item, ends, behind))
    }
}

/// The first item of an option.
fn item_of<S: AsStr>(command: Command, ended: bool, words: &[S], choice: Choice) -> Option<Item>
    ensures { result ≡ item_of choice (items command ended (map S.text words.now)) }
{
    let (mut ended, mut words) = (ended, words);
    while let Some((item, ends, behind)) = split_item(command, ended, words) {
        if item.is_of(choice) {
            return Some(item);
        }
        (ended, words) = (ends, behind);
    }
    None
}

/// Whether an option is among the words behind a command.
pub(crate) fn is_chosen<S: AsStr>(command: Command, words: &[S], choice: Choice) -> bool
    ensures { result ≡ is_chosen choice (items command false (map S.text words.now)) }
{
    item_of(command, false, words, choice).is_some()
}

/// The number of an option, where it is there.
pub(crate) fn given<S: AsStr>(command: Command, words: &[S], choice: Choice) -> Option<u32>
    ensures given { result ≡ given_of choice (items command false (map S.text words.now)) }
    ensures within { IfSome result (λ n. n ≤ most_of Station choice) }
{
    match item_of(command, false, words, choice) {
        Some(Item::Number(_, n)) => Some(n),
        _ => None,
    }
}

/// The number of an option, which is as usual where it isn't there.
pub(crate) fn number_of<S: AsStr>(command: Command, words: &[S], choice: Choice) -> u32
    ensures number { result ≡ number_of choice (items command false (map S.text words.now)) }
    ensures within { result ≤ most_of Station choice }
{
    given(command, words, choice).unwrap_or(choice.usual())
}

/// Where a trace was made.
pub(crate) fn place_of<S: AsStr>(command: Command, words: &[S]) -> At
    ensures { result ≡ site_of (item_of choice.At (items command false (map S.text words.now))) }
{
    match item_of(command, false, words, Choice::At) {
        Some(Item::Located(at)) => at,
        _ => At::Either,
    }
}

/// The first word that is no option, or the one behind it, and how many words are left there.
pub(crate) fn operand_of<S: AsStr>(
    command: Command,
    words: &[S],
    skip: bool,
) -> Option<(usize, Named)>
    ensures { result ≡ operand_of skip (items command false (map S.text words.now)) }
{
    let (mut ended, mut words, mut skip) = (false, words, skip);
    while let Some((item, ends, behind)) = split_item(command, ended, words) {
        if let Some(named) = item.named() {
            if !skip {
                return Some((words.len(), named));
            }
            skip = false;
        }
        (ended, words) = (ends, behind);
    }
    None
}

/// Whether the option of an item comes again.
fn is_again<S: AsStr>(command: Command, ended: bool, words: &[S], item: Item) -> bool
    ensures { result ≡ is_again item (items command ended (map S.text words.now)) }
{
    match item.choice() {
        Some(choice) => item_of(command, ended, words, choice).is_some(),
        None => false,
    }
}

/// The first fault, and how many words are left there.
pub(crate) fn first_fault<S: AsStr>(command: Command, words: &[S]) -> Option<(usize, Why)>
    ensures { result ≡ fault_in (is_chosen choice.Clock (items command false (map S.text words.now)))
        (has_end command) (has_file command) (items command false (map S.text words.now)) }
{
    let clock = is_chosen(command, words, Choice::Clock);
    let (mut ended, mut words) = (false, words);
    let (mut end, mut file) = (command.has_end(), command.has_file());
    while let Some((item, ends, behind)) = split_item(command, ended, words) {
        let again = is_again(command, ends, behind, item);
        if let Some(why) = item.fault(clock, again, end, file) {
            return Some((words.len(), why));
        }
        let is_operand = item.named().is_some();
        file = file && (end || !is_operand);
        end = end && !is_operand;
        (ended, words) = (ends, behind);
    }
    None
}
