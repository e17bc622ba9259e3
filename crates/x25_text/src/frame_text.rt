//! Frames and faults as text.
ghost use Rattle.std.specs.Prelude.{◌≡◌, ◌+◌, ◌*◌, ◌≤◌, ◌++◌, codes, decimal, length};
ghost use Rattle.std.specs.List.{flat_map};
ghost use Rattle.x25_frame.specs.Frame.{plain};
ghost use Rattle.x25_frame.specs.Spelling.{bit};
ghost use Rattle.x25_text.specs.Text.{octet_text};
ghost use Rattle.x25_text.specs.FrameText.{fault_text, frame_text, supervisory_text, why_text};

use crate::packet_text::push_information;
use crate::text::{ROOM, Text, bit_digit, seq_digit};
use x25_frame::{Frame, FrameError, Seq};

/// The most characters of a frame or of a fault on one line, without its mark and line feed.
pub const MOST_TEXT: usize = 8_300;

pub(crate) fn push_supervisory(label: &[u8], command: bool, pf: bool, nr: Seq, text: &mut Text)
    requires room { length text.old + (length label.now + 11) ≤ ROOM }
    ensures text { text.new ≡ text.old ++ (label.now ++ supervisory_text command pf nr.number) }
    ensures size { length text.new ≡ length text.old + (length label.now + 11) }
{
    text.push(label);
    let empty = if command {
        b"cmd P=_ R=_"
    } else {
        b"rsp F=_ R=_"
    };
    let mut characters = *empty;
    characters[6] = bit_digit(pf);
    characters[10] = seq_digit(nr);
    text.push(&characters);
}

/// Appends a label and then octets as hexadecimal digits.
fn push_labelled(label: &[u8], octets: &[u8], text: &mut Text)
    requires few { length octets.now ≤ 3 }
    requires room { length text.old + (length label.now + 6) ≤ ROOM }
    ensures text { text.new ≡ text.old ++ (label.now ++ flat_map octet_text octets.now) }
    ensures size { length text.new ≤ length text.old + (length label.now + 6) }
{
    text.push(label);
    text.push_hexadecimal(octets);
}

/// Appends an I frame but for its information.
pub(crate) fn push_numbers(ns: Seq, nr: Seq, p: bool, text: &mut Text)
    requires room { length text.old + 20 ≤ ROOM }
    ensures text { text.new ≡ text.old ++ (codes "I cmd P=" ++ decimal (bit p) ++ codes " S=" ++ decimal ns.number
        ++ codes " R=" ++ decimal nr.number ++ codes " | ") }
    ensures size { length text.new ≡ length text.old + 20 }
{
    let mut characters = *b"I cmd P=_ S=_ R=_ | ";
    characters[8] = bit_digit(p);
    characters[12] = seq_digit(ns);
    characters[16] = seq_digit(nr);
    text.push(&characters);
}

fn push_frame_reject(f: bool, why: [u8; 3], text: &mut Text)
    requires room { length text.old + 32 ≤ ROOM }
    ensures text { text.new ≡ text.old ++ (codes "FRMR rsp F=" ++ decimal (bit f) ++ (codes " why=" ++ why_text why)) }
    ensures size { length text.new ≤ length text.old + 32 }
{
    text.push_bit(b"FRMR rsp F=", f);
    push_labelled(b" why=", &[why[0], why[1], why[2]], text);
}

/// Appends a frame on one line.
///
/// With `long_data` the user data of a CALL in it has at most 128 octets, else at most 16.
pub fn push_frame(long_data: bool, frame: &Frame, text: &mut Text)
    requires { length text.old + MOST_TEXT ≤ ROOM }
    ensures text { text.new ≡ text.old ++ frame_text long_data (plain frame.now) }
    ensures size { length text.new ≤ length text.old + MOST_TEXT }
{
    match frame {
        Frame::I { ns, nr, p, info } => {
            push_numbers(*ns, *nr, *p, text);
            push_information(long_data, info, text);
        }
        Frame::Rr { command, nr, pf } => push_supervisory(b"RR ", *command, *pf, *nr, text),
        Frame::Rnr { command, nr, pf } => push_supervisory(b"RNR ", *command, *pf, *nr, text),
        Frame::Rej { command, nr, pf } => push_supervisory(b"REJ ", *command, *pf, *nr, text),
        Frame::Sabm { p } => text.push_bit(b"SABM cmd P=", *p),
        Frame::Disc { p } => text.push_bit(b"DISC cmd P=", *p),
        Frame::Ua { f } => text.push_bit(b"UA rsp F=", *f),
        Frame::Dm { f } => text.push_bit(b"DM rsp F=", *f),
        Frame::Frmr { f, why } => push_frame_reject(*f, *why, text),
    }
}

/// Appends the error that octets have.
pub fn push_fault(error: FrameError, text: &mut Text)
    requires room { length text.old + MOST_TEXT ≤ ROOM }
    ensures text { text.new ≡ text.old ++ fault_text error }
    ensures size { length text.new ≤ length text.old + MOST_TEXT }
{
    match error {
        FrameError::Short => text.push(b"fault 1 short"),
        FrameError::BadFcs => text.push(b"fault 2 fcs"),
        FrameError::BadAddress => text.push(b"fault 3 address"),
        FrameError::Undefined { control } => push_labelled(
            b"fault 4 undefined ctl=",
            &[control],
            text,
        ),
        FrameError::NoInfoAllowed { control } => push_labelled(
            b"fault 5 info ctl=",
            &[control],
            text,
        ),
        FrameError::TooLong => text.push(b"fault 6 long"),
    }
}
