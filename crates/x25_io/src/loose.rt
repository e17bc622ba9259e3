//! What may stand on a line beside what it asks: a time or a mark before it, a carriage return behind it, a comment in
//! its place.
ghost use Rattle.std.specs.Prelude.{◌≡◌, ◌≤◌, None, Some, IfSome, MatchOption, length};
ghost use Rattle.std.specs.List.{position};
ghost use Rattle.x25_io.specs.HeldLine.{most_line};
ghost use Rattle.x25_io.specs.Loose.{asked, asked_in, carried, carried_by, is_passed, is_past_time, stamp_length};
ghost use Rattle.x25_io.specs.Loose.{without_mark as unmarked_line, without_return as bare_line};

use crate::device::Sink;
use crate::fault::Fault;
use crate::line_taker::LineTaker;

/// The most characters of a time.
const MOST_TIME: usize = 20;

/// The place of the first character that is no digit and no point.
fn time_end(line: &[u8]) -> Option<usize>
    ensures { result ≡ position is_past_time line.now }
{
    line.iter().position(|character| !character.is_ascii_digit() && *character != b'.')
}

/// How many characters a time and its tab have at the front of a line, 0 where there is none.
#[tactic(auto, unfolding(crate::specs::Loose::stamp_length))]
fn stamp_len(line: &[u8]) -> usize
    ensures value { result ≡ stamp_length line.now }
    ensures within { result ≤ length line.now }
{
    match time_end(line) {
        Some(end) if 1 <= end && end <= MOST_TIME && line[end] == b'\t' => end + 1,
        _ => 0,
    }
}

/// A line without the carriage return at its end.
fn without_return(line: &[u8]) -> &[u8]
    ensures value { result.now ≡ bare_line line.now }
    ensures shorter { length result.now ≤ length line.now }
{
    let count = line.len();
    if count > 0 && line[count - 1] == b'\r' {
        &line[..count - 1]
    } else {
        line
    }
}

/// A line without the mark of UTF-8 at its front.
fn without_mark(line: &[u8]) -> &[u8]
    ensures value { result.now ≡ unmarked_line line.now }
    ensures shorter { length result.now ≤ length line.now }
{
    line.strip_prefix(b"\xEF\xBB\xBF").unwrap_or(line)
}

/// Whether a line is empty or a comment, which begins with `#`.
fn asks_nothing(line: &[u8]) -> bool
    ensures { result ≡ is_passed line.now }
{
    match line {
        [character, ..] => *character == b'#',
        [] => true,
    }
}

/// What goes before the answer to a line, and what the line asks, in a text that is read loosely.
fn split_read_loosely(line: &[u8]) -> (&[u8], Option<&[u8]>)
    ensures carried { result.0.now ≡ carried_by line.now }
    ensures asked { MatchOption result.1 (asked_in line.now ≡ None) (λ found. asked_in line.now ≡ Some found.now) }
    ensures shorter { IfSome result.1 (λ found. length found.now ≤ length line.now) }
{
    let line = without_mark(without_return(line));
    if asks_nothing(line) {
        return (line, None);
    }
    let stamp = stamp_len(line);
    (&line[..stamp], Some(&line[stamp..]))
}

/// What goes before the answer to a line, and what the line asks.
///
/// With `loose` a time and its tab go before the answer, and what stands behind them is asked; an empty line and a
/// comment, which begins with `#`, go there whole, and ask nothing; and a carriage return at the end and the mark of
/// UTF-8 at the front are of neither. Else all of the line is asked. Profile.
#[tactic(auto, unfolding(crate::specs::Loose::carried, crate::specs::Loose::asked))]
pub fn split_loose(loose: bool, line: &[u8]) -> (&[u8], Option<&[u8]>)
    ensures carried { length line.now ≤ most_line → result.0.now ≡ carried loose line.now }
    ensures asked { length line.now ≤ most_line → MatchOption result.1 (asked loose line.now ≡ None)
        (λ found. asked loose line.now ≡ Some found.now) }
    ensures shorter { IfSome result.1 (λ found. length found.now ≤ length line.now) }
{
    if loose {
        split_read_loosely(line)
    } else {
        (&line[..0], Some(line))
    }
}

/// Lines that are read loosely, of which a taker gets what they ask.
#[derive(Drop)]
pub struct Loosely<T: LineTaker> {
    loose: bool,
    taker: T,
}

impl<T: LineTaker> Loosely<T> {
    /// With `loose` comments, empty lines and what stands beside what a line asks are passed over.
    pub fn new(loose: bool, taker: T) -> Loosely<T>
        ensures loose { result.loose ≡ loose }
        ensures taker { result.taker ≡ taker }
    {
        Loosely { loose, taker }
    }
}

impl<T: LineTaker> LineTaker for Loosely<T> {
    ghost use Rattle.std.specs.Prelude.{◌≡◌, Bool};
    ghost use Rattle.x25_io.specs.Loose.{asked_lines, asked_text};

    // Whether lines are read so, and the taker's setting.
    ghost Setting = { Bool × T.Setting };

    ghost text_of = { λ s text. T.text_of s.1 (asked_text s.0 text) };

    ghost status_of = { λ s text. T.status_of s.1 (asked_text s.0 text) };

    ghost waiting = { λ l. T.waiting l.taker };

    ghost may_want = { T.may_want };

    ghost stands = { λ s l old now lines text. (l.loose ≡ s.0)
        × T.stands s.1 l.taker old now (asked_lines s.0 lines) (asked_text s.0 text) };

    ghost ended = { λ s old now lines text. T.ended s.1 old now (asked_lines s.0 lines) (asked_text s.0 text) };

    #[inline(always)]
    fn take_line<W: Sink>(&mut self, line: Option<&[u8]>, writer: &mut W) -> Result<(), Fault> {
        let Some(line) = line else {
            return self.taker.take_line(None, writer);
        };
        let (_, asked) = split_loose(self.loose, line);
        match asked {
            Some(line) => self.taker.take_line(Some(line), writer),
            None => {
                self.taker.pass_over();
                Ok(())
            }
        }
    }

    fn pass_over(&mut self) {
        self.taker.pass_over();
    }

    fn write_out<W: Sink>(&mut self, writer: &mut W) -> Result<(), Fault> {
        self.taker.write_out(writer)
    }

    fn end<W: Sink>(&mut self, writer: &mut W) -> Result<u8, Fault> {
        self.taker.end(writer)
    }
}
