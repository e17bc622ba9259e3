//! A line of text as a record.
ghost use Rattle.std.specs.Prelude.{◌≡◌, ◌<◌, ◌++◌, IfSome, OnOk, length};
ghost use Rattle.x25_records.specs.Records.{bar_in, behind, behind_blank, blank_in, entry_fields, fields_of, form_of};
ghost use Rattle.x25_records.specs.Records.{frame_fields, frame_of, is_direction, is_end, kind_of, mark_in, packet_of};
ghost use Rattle.x25_records.specs.Records.{plain_part, record_of, said_part, tab_in, tabbed, time_by, timed_by};
ghost use Rattle.x25_records.specs.Records.{up_to, up_to_blank, verdict_of};

use std::alloc::AllocError;
use x25_text::Text;

/// The place of the first blank.
fn first_blank(text: &[u8]) -> Option<usize>
    ensures place { result ≡ blank_in text.now }
    ensures within { IfSome result (λ at. at < length text.now) }
{
    text.iter().position(|character| *character == b' ')
}

/// The place of the first bar.
fn first_bar(text: &[u8]) -> Option<usize>
    ensures place { result ≡ bar_in text.now }
    ensures within { IfSome result (λ at. at < length text.now) }
{
    text.iter().position(|character| *character == b'|')
}

/// The place of the first tab.
fn first_tab(text: &[u8]) -> Option<usize>
    ensures place { result ≡ tab_in text.now }
    ensures within { IfSome result (λ at. at < length text.now) }
{
    text.iter().position(|character| *character == b'\t')
}

/// The place of the first mark of what is said of a frame.
fn first_mark(text: &[u8]) -> Option<usize>
    ensures place { result ≡ mark_in text.now }
    ensures within { IfSome result (λ at. at < length text.now) }
{
    text.iter()
        .position(|character| *character == b'!' || *character == b'~')
}

/// The parts of a text before and after a place, all and nothing where there is none.
fn split_after(text: &[u8], place: Option<usize>) -> (&[u8], &[u8])
    requires { IfSome place (λ at. at < length text.now) }
    ensures before { result.0.now ≡ up_to text.now place }
    ensures after { result.1.now ≡ behind text.now place }
{
    match place {
        Some(at) => (&text[..at], &text[at + 1..]),
        None => (text, b""),
    }
}

/// Without a blank at its front.
fn behind_blank(text: &[u8]) -> &[u8]
    ensures { result.now ≡ behind_blank text.now }
{
    match text {
        [b' ', text @ ..] => text,
        _ => text,
    }
}

/// Without a blank at its end.
fn up_to_blank(text: &[u8]) -> &[u8]
    ensures { result.now ≡ up_to_blank text.now }
{
    let count = text.len();
    if count > 0 && text[count - 1] == b' ' {
        &text[..count - 1]
    } else {
        text
    }
}

/// A frame with its packet, and what is said of it.
fn split_said(text: &[u8]) -> (&[u8], &[u8])
    ensures plain { result.0.now ≡ plain_part text.now }
    ensures said { result.1.now ≡ said_part text.now }
{
    match first_mark(text) {
        Some(at) => (&text[..at], &text[at..]),
        None => (text, b""),
    }
}

/// The form of a packet, and what is told of its frame.
fn split_form(said: &[u8]) -> (&[u8], &[u8])
    ensures form { result.0.now ≡ form_of said.now }
    ensures verdict { result.1.now ≡ verdict_of said.now }
{
    match said.strip_prefix(b"~ wide") {
        Some(told) => (b"wide", behind_blank(told)),
        None => (b"", said),
    }
}

/// A word, and what stands after it.
fn split_word(text: &[u8]) -> (&[u8], &[u8])
    ensures before { result.0.now ≡ up_to text.now (blank_in text.now) }
    ensures after { result.1.now ≡ behind text.now (blank_in text.now) }
{
    split_after(text, first_blank(text))
}

/// A kind and its fields.
fn split_kind(text: &[u8]) -> (&[u8], &[u8])
    ensures kind { result.0.now ≡ kind_of text.now }
    ensures fields { result.1.now ≡ fields_of text.now }
{
    let (kind, fields) = split_word(text);
    (kind, up_to_blank(fields))
}

/// A frame and its packet.
fn split_packet(plain: &[u8]) -> (&[u8], &[u8])
    ensures frame { result.0.now ≡ frame_of plain.now }
    ensures packet { result.1.now ≡ packet_of plain.now }
{
    let (frame, packet) = split_after(plain, first_bar(plain));
    (frame, behind_blank(packet))
}

/// Appends a field with a tab before it.
fn push_field(field: &[u8], text: &mut Text) -> Result<(), AllocError>
    ensures { OnOk result (text.new ≡ text.old ++ tabbed field.now) }
{
    text.try_push(b"\t")?;
    text.try_push(field)
}

/// Appends the fields of a frame and of its packet, and what is said of it.
fn push_frame(frame: &[u8], text: &mut Text) -> Result<(), AllocError>
    ensures { OnOk result (text.new ≡ text.old ++ frame_fields (plain_part frame.now) (said_part frame.now)) }
{
    let (plain, said) = split_said(frame);
    let (frame, packet) = split_packet(plain);
    let (kind, numbers) = split_kind(frame);
    push_field(kind, text)?;
    push_field(numbers, text)?;
    let (kind, fields) = split_kind(packet);
    push_field(kind, text)?;
    push_field(fields, text)?;
    let (form, verdict) = split_form(said);
    push_field(form, text)?;
    push_field(verdict, text)
}

/// Appends the fields of an entry.
fn push_entry(entry: &[u8], text: &mut Text) -> Result<(), AllocError>
    ensures { OnOk result (text.new ≡ text.old ++ entry_fields entry.now) }
{
    let (kind, fields) = split_kind(entry);
    text.try_push(b"\t\t")?;
    push_field(kind, text)?;
    push_field(fields, text)?;
    text.try_push(b"\t\t")
}

fn is_direction(word: &[u8]) -> bool
    ensures { result ≡ is_direction word.now }
{
    word == b">".as_slice() || word == b"<".as_slice()
}

fn is_end(word: &[u8]) -> bool
    ensures { result ≡ is_end word.now }
{
    word == b"dte".as_slice() || word == b"dce".as_slice()
}

/// A time, nothing where there is none, and the line after it and its tab.
fn split_time(line: &[u8]) -> (&[u8], &[u8])
    ensures time { result.0.now ≡ time_by line.now (tab_in line.now) }
    ensures rest { result.1.now ≡ timed_by line.now (tab_in line.now) }
{
    match first_tab(line) {
        Some(at) => (&line[..at], &line[at + 1..]),
        None => (b"", line),
    }
}

/// Appends the record of a line, with no line feed.
#[tactic(auto, unfolding(crate::specs::Records::record_of))]
pub(crate) fn push_record(line: &[u8], text: &mut Text) -> Result<(), AllocError>
    ensures { OnOk result (text.new ≡ text.old ++ record_of line.now) }
{
    let (time, rest) = split_time(line);
    let (word, behind) = split_word(rest);
    if is_direction(word) {
        text.try_push(time)?;
        push_field(word, text)?;
        push_frame(behind, text)
    } else if is_end(word) {
        text.try_push(time)?;
        push_field(word, text)?;
        push_entry(behind, text)
    } else {
        text.try_push(line)
    }
}
