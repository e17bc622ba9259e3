//! What answers a line.
ghost use Rattle.std.specs.Prelude.{◌≡◌, ◌+◌, ◌*◌, ◌≤◌, ◌++◌, Some, None, false, codes, length, not, take};
ghost use Rattle.std.specs.Prelude.{IfSome, MatchOption, is_some};
ghost use Rattle.x25_frame.specs.Reading.{frame_of};
ghost use Rattle.x25_decode.specs.Decoding.{answer_to, gap_in, gap_text, is_refused, line_text, mark_of, n1};
ghost use Rattle.x25_decode.specs.Decoding.{octets_in, sender_of, sent_in};
ghost use Rattle.x25_decode.specs.code.Front.{StandsInFront};
ghost use Rattle.x25_text.specs.FrameText.{reading_text};
ghost use Rattle.x25_text.specs.WideFrameText.{wide_reading_text};

use x25_frame::{FrameError, N1, Role, decode};
use x25_text::{
    MOST_OCTETS, MOST_TEXT, ROOM, Text, push_fault, push_frame, push_other_frame, push_wide_frame,
    read_hexadecimal, read_line,
};

/// The most characters of an answer, with its mark, a space and its line feed.
pub const MOST_ANSWER: usize = MOST_TEXT + 3;

/// How octets are read.
#[derive(Clone, Copy, Debug, PartialEq, Eq)]
pub struct Reading {
    /// The user data of a CALL has at most 128 octets, in place of 16.
    pub long: bool,
    /// Packets are read in all the forms that a peer may send, and frames that LAPB modulo 8 lacks are named.
    pub wide: bool,
}

fn sender(mark: u8) -> Option<Role>
    ensures { result ≡ sender_of mark }
{
    if mark != b'>' && mark != b'<' {
        return None;
    }
    Some(if mark == b'>' { Role::Dte } else { Role::Dce })
}

/// The mark of what an end sent, with the blank behind it.
pub fn mark(from: Role) -> &'static [u8]
    ensures mark { result.now ≡ mark_of from }
    ensures size { length result.now ≡ 2 }
{
    match from {
        Role::Dte => b"> ",
        Role::Dce => b"< ",
    }
}

/// Reads the octets that the digits write to the front of `octets`, and answers how many.
fn read_octets(digits: &[u8], octets: &mut [u8]) -> Option<usize>
    requires { length octets.old ≡ MOST_OCTETS }
    ensures octets { MatchOption result (octets_in digits.now ≡ None)
        (λ count. (count ≤ MOST_OCTETS) × (octets_in digits.now ≡ Some (take count octets.new))) }
{
    let count = digits.len() / 2;
    if count > MOST_OCTETS {
        return None;
    }
    if digits.len() % 2 == 1 {
        return None;
    }
    if read_hexadecimal(digits, &mut octets[..count]) {
        Some(count)
    } else {
        None
    }
}

/// Reads the octets of a line to the front of `octets`, and answers their sender and how many they are.
pub fn read_sent(line: &[u8], octets: &mut [u8]) -> Option<(Role, usize)>
    requires { length octets.old ≡ MOST_OCTETS }
    ensures sent { MatchOption result (sent_in line.now ≡ None)
        (λ sent. (sent.1 ≤ MOST_OCTETS) × (sent_in line.now ≡ Some (sent.0, take sent.1 octets.new))) }
{
    let [mark, b' ', digits @ ..] = line else {
        return None;
    };
    let Some(from) = sender(*mark) else {
        return None;
    };
    match read_octets(digits, octets) {
        Some(count) => Some((from, count)),
        None => None,
    }
}

/// The end of which frames may be missing, where a line says that there is a gap.
pub fn read_gap(line: &[u8]) -> Option<Role>
    ensures { result ≡ gap_in line.now }
{
    if line == b"> ..".as_slice() {
        Some(Role::Dte)
    } else if line == b"< ..".as_slice() {
        Some(Role::Dce)
    } else {
        None
    }
}

/// Appends the line that answers one without octets, a gap by itself, and says whether that line was refused.
pub fn push_gap(gap: Option<Role>, text: &mut Text) -> bool
    requires { length text.old + 6 ≤ ROOM }
    ensures text { text.new ≡ text.old ++ (gap_text gap ++ codes "\n") }
    ensures refused { result ≡ not (is_some gap) }
{
    match gap {
        Some(Role::Dte) => text.push(b"> ..\n"),
        Some(Role::Dce) => text.push(b"< ..\n"),
        None => text.push(b"? 60\n"),
    }
    gap.is_none()
}

/// Appends what the octets read as, with packets in the form that a station writes.
fn push_written(long: bool, from: Role, octets: &[u8], text: &mut Text)
    requires room { length text.old + MOST_TEXT ≤ ROOM }
    ensures text { text.new ≡ text.old ++ reading_text long (frame_of from n1 octets.now) }
    ensures size { length text.new ≤ length text.old + MOST_TEXT }
{
    match decode(from, N1, octets) {
        Ok(frame) => push_frame(long, &frame, text),
        Err(error) => push_fault(error, text),
    }
}

/// Appends what the octets read as, with packets in all their forms, and frames of other procedures by their names.
#[inline(never)]
fn push_any(long: bool, from: Role, octets: &[u8], text: &mut Text)
    requires few { length octets.now ≤ MOST_OCTETS }
    requires room { length text.old + MOST_TEXT ≤ ROOM }
    ensures text { text.new ≡ text.old ++ wide_reading_text long from octets.now (frame_of from n1 octets.now) }
    ensures size { length text.new ≤ length text.old + MOST_TEXT }
{
    match decode(from, N1, octets) {
        Ok(frame) => push_wide_frame(long, &frame, text),
        Err(FrameError::Undefined { control }) => push_other_frame(from, octets, control, text),
        Err(error) => push_fault(error, text),
    }
}

/// Appends what the octets read as.
fn push_line(reading: Reading, from: Role, octets: &[u8], text: &mut Text)
    requires few { length octets.now ≤ MOST_OCTETS }
    requires room { length text.old + MOST_TEXT ≤ ROOM }
    ensures text { text.new ≡ text.old ++ line_text reading from octets.now }
    ensures size { length text.new ≤ length text.old + MOST_TEXT }
{
    if reading.wide {
        push_any(reading.long, from, octets, text);
    } else {
        push_written(reading.long, from, octets, text);
    }
}

/// Appends the line that answers octets which were sent.
fn push_answer(reading: Reading, from: Role, octets: &[u8], text: &mut Text)
    requires few { length octets.now ≤ MOST_OCTETS }
    requires room { length text.old + MOST_ANSWER ≤ ROOM }
    ensures { text.new ≡ text.old ++ (mark_of from ++ line_text reading from octets.now ++ codes "\n") }
{
    text.push(mark(from));
    push_line(reading, from, octets, text);
    text.push(b"\n");
}

/// Appends the line that answers a line, and says whether that line was refused. `octets` is overwritten.
///
/// `reading` says how octets are read.
#[tactic(auto, unfolding(crate::specs::Decoding::answer_to, crate::specs::Decoding::is_refused))]
pub fn answer(reading: Reading, line: &[u8], octets: &mut [u8], text: &mut Text) -> bool
    requires octets { length octets.old ≡ MOST_OCTETS }
    requires room { length text.old + MOST_ANSWER ≤ ROOM }
    ensures text { text.new ≡ text.old ++ answer_to reading line.now }
    ensures refused { result ≡ is_refused line.now }
{
    match read_sent(line, octets) {
        Some((from, count)) => {
            push_answer(reading, from, &octets[..count], text);
            false
        }
        None => push_gap(read_gap(line), text),
    }
}

/// Reads the octets of the line at the front of a text to the front of `octets`, where it can be read with no search
/// for its end, and answers their sender and how many they are.
fn read_front(left: &[u8], octets: &mut [u8]) -> Option<(Role, usize)>
    requires { length octets.old ≡ MOST_OCTETS }
    ensures few { IfSome result (λ sent. sent.1 ≤ MOST_OCTETS) }
    ensures line { IfSome result (λ sent. StandsInFront (2 * sent.1 + 2) left.now) }
    ensures sent { IfSome result (λ sent. sent_in (take (2 * sent.1 + 2) left.now)
        ≡ Some (sent.0, take sent.1 octets.new)) }
{
    let [mark, b' ', digits @ ..] = left else {
        return None;
    };
    let Some(from) = sender(*mark) else {
        return None;
    };
    match read_line(digits, octets) {
        Some(count) => Some((from, count)),
        None => None,
    }
}

/// Appends the line that answers the line at the front of a text, where that can be read with no search for its end,
/// and answers how many characters it has before its line feed. `octets` is overwritten.
///
/// `reading` says how octets are read.
#[tactic(auto, unfolding(crate::specs::Decoding::answer_to, crate::specs::Decoding::is_refused))]
pub fn answer_front(
    reading: Reading,
    left: &[u8],
    octets: &mut [u8],
    text: &mut Text,
) -> Option<usize>
    requires octets { length octets.old ≡ MOST_OCTETS }
    requires room { length text.old + MOST_ANSWER ≤ ROOM }
    ensures line { IfSome result (λ count. StandsInFront count left.now) }
    ensures text { MatchOption result (text.new ≡ text.old) (λ count. text.new ≡ text.old
        ++ answer_to reading (take count left.now)) }
    ensures taken { IfSome result (λ count. is_refused (take count left.now) ≡ false) }
{
    match read_front(left, octets) {
        Some((from, count)) => {
            push_answer(reading, from, &octets[..count], text);
            Some(2 * count + 2)
        }
        None => None,
    }
}
