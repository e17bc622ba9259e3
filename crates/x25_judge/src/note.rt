//! What may be noted of a frame that breaks no rule.
ghost use Rattle.std.specs.Prelude.{◌≡◌, ◌+◌, ◌≤◌, ◌++◌, length};
ghost use Rattle.x25_judge.specs.Note as definition;

use x25_packet_judge::Noted;
use x25_text::{ROOM, Text};

/// What isn't judged, and what a loss, damage or a trace that begins in the middle explains. ITU-T X.25 (10/96); the
/// section is in the text of each.
#[derive(Clone, Copy)]
pub(crate) enum Note {
    Unjudged { channel: u16 },
    NoneJudged,
    RequestAgain,
    SentAgain,
    SentBehindDamage,
    HeardBehindDamage,
    PollAgain,
    PollUnseen,
    NumbersUnjudged,
    NotTakenUp,
    TakenUp,
}

/// The most characters of the text of a note.
pub(crate) const MOST_NOTE: usize = 80;

/// The first of two notes.
pub(crate) fn first_note(note: Option<Note>, next: Option<Note>) -> Option<Note>
    ensures { result ≡ definition.first_note note next }
{
    match note {
        Some(_) => note,
        None => next,
    }
}

/// The note of a packet; channel 0 stands for all.
pub(crate) fn packet_note(noted: Option<Noted>) -> Option<Note>
    ensures { result ≡ definition.packet_note noted }
{
    match noted {
        None => None,
        Some(Noted::Again) => Some(Note::RequestAgain),
        Some(Noted::Unjudged(0)) => Some(Note::NoneJudged),
        Some(Noted::Unjudged(channel)) => Some(Note::Unjudged { channel }),
    }
}

/// Appends what a note says.
pub(crate) fn push_note(note: Note, text: &mut Text)
    requires { length text.old + MOST_NOTE ≤ ROOM }
    ensures text { text.new ≡ text.old ++ definition.note_text note }
    ensures size { length text.new ≤ length text.old + MOST_NOTE }
{
    match note {
        Note::Unjudged { channel } => text.push_number(
            b"not judged before a RESTART, a CLEAR or a CALL is answered (4.1): channel ",
            channel,
        ),
        Note::NoneJudged => text.push(b"no channel is judged before a RESTART is answered (3.3.1)"),
        Note::RequestAgain => text.push(
            b"RESTART, CLEAR or RESET goes again before its answer (3.3.1, 4.1.7, 4.4.3)",
        ),
        Note::SentAgain => text.push(b"an I frame is sent again (2.4.5.9)"),
        Note::SentBehindDamage => text.push(
            b"N(S) is out of order behind a damaged frame (2.4.5.1)",
        ),
        Note::HeardBehindDamage => text.push(
            b"N(R) is out of range behind a damaged frame (2.3.4.9)",
        ),
        Note::PollAgain => text.push(b"P=1 again, and no F=1 answered the last one (2.4.3)"),
        Note::PollUnseen => text.push(b"F=1 answers no P=1 that the trace shows (2.4.3)"),
        Note::NumbersUnjudged => text.push(
            b"not all N(S) and N(R) are judged before the next set-up (2.4.4.1)",
        ),
        Note::NotTakenUp => text.push(
            b"N(S) and N(R) aren't judged before a set-up, or eight I frames acknowledged",
        ),
        Note::TakenUp => text.push(
            b"V(S) of both ends is known: N(S) and N(R) are judged from here on (2.4.5)",
        ),
    }
}
