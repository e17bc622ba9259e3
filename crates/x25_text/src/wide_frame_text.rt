//! Frames as text where packets are read in all their forms, and frames that LAPB modulo 8 lacks.
ghost use Rattle.std.specs.Prelude.{◌≡◌, ◌+◌, ◌*◌, ◌≤◌, ◌==◌, ◌++◌, true, slice_index, [], Some, None, is_some};
ghost use Rattle.std.specs.Prelude.{unwrap_or, IfSome, MatchOption, length};
ghost use Rattle.x25_frame.specs.Frame.{plain};
ghost use Rattle.x25_frame.specs.Error.{information_in};
ghost use Rattle.x25_frame.specs.Spelling.{address_of};
ghost use Rattle.x25_text.specs.WideFrameText.{headed_text, other_frame_text, other_head, other_information_text};
ghost use Rattle.x25_text.specs.WideFrameText.{poll_text};
ghost use Rattle.x25_text.specs.WideFrameText.{unnumbered_name, wide_frame_text};

use crate::frame_text::{MOST_TEXT, push_fault, push_frame, push_numbers, push_supervisory};
use crate::text::{MOST_OCTETS, ROOM, Text};
use crate::wide_packet_text::push_wide_information;
use x25_frame::{Frame, FrameError, Role, Seq, command_address};

/// Appends a frame on one line, with its packet in any form.
///
/// With `long_data` the user data of a CALL in it has at most 128 octets, else at most 16 without fast select.
pub fn push_wide_frame(long_data: bool, frame: &Frame, text: &mut Text)
    requires { length text.old + MOST_TEXT ≤ ROOM }
    ensures text { text.new ≡ text.old ++ wide_frame_text long_data (plain frame.now) }
    ensures size { length text.new ≤ length text.old + MOST_TEXT }
{
    match frame {
        Frame::I { ns, nr, p, info } => {
            push_numbers(*ns, *nr, *p, text);
            push_wide_information(long_data, info, text);
        }
        _ => push_frame(long_data, frame, text),
    }
}

/// The name of a frame that LAPB modulo 8 lacks, by its control without the poll or final bit.
fn unnumbered_name(command: bool, base: u8) -> Option<&'static [u8]>
    ensures name { MatchOption result (unnumbered_name command base ≡ None) (λ name. unnumbered_name command base
        ≡ Some name.now) }
    ensures size { IfSome result (λ name. length name.now ≤ 5) }
{
    match base {
        0x03 => Some(b"UI"),
        0xAF => Some(b"XID"),
        0xE3 => Some(b"TEST"),
        0x6F if command => Some(b"SABME"),
        0x0F if command => Some(b"SARM"),
        _ => None,
    }
}

fn push_poll(command: bool, pf: bool, text: &mut Text)
    requires room { length text.old + 8 ≤ ROOM }
    ensures text { text.new ≡ text.old ++ poll_text command pf }
    ensures size { length text.new ≡ length text.old + 8 }
{
    if command {
        text.push_bit(b" cmd P=", pf);
    } else {
        text.push_bit(b" rsp F=", pf);
    }
}

/// Appends a frame that LAPB modulo 8 lacks, but for its information, and says whether it is one.
fn push_other_head(command: bool, control: u8, text: &mut Text) -> bool
    requires room { length text.old + 16 ≤ ROOM }
    ensures is { result ≡ is_some (other_head command control) }
    ensures text { text.new ≡ text.old ++ unwrap_or (other_head command control) [] }
    ensures size { length text.new ≤ length text.old + 16 }
{
    let pf = control / 16 % 2 == 1;
    if control % 16 == 0x0D {
        push_supervisory(b"SREJ ", command, pf, Seq::modulo(control / 32), text);
        return true;
    }
    let Some(name) = unnumbered_name(command, control % 16 + control / 32 * 32) else {
        return false;
    };
    text.push(name);
    push_poll(command, pf, text);
    true
}

fn push_other_information(information: &[u8], text: &mut Text)
    requires few { length information.now ≤ 4_099 }
    requires room { length text.old + 8_205 ≤ ROOM }
    ensures text { text.new ≡ text.old ++ other_information_text information.now }
    ensures size { length text.new ≤ length text.old + 8_205 }
{
    if information.is_empty() {
        return;
    }
    text.push(b" info=");
    text.push_octets(information);
}

/// Appends a frame that LAPB modulo 8 lacks, or the error where it has no name.
fn push_other(command: bool, control: u8, information: &[u8], text: &mut Text)
    requires few { length information.now ≤ 4_099 }
    requires room { length text.old + MOST_TEXT ≤ ROOM }
    ensures text { text.new ≡ text.old ++ headed_text control information.now (other_head command control) }
    ensures size { length text.new ≤ length text.old + MOST_TEXT }
{
    if push_other_head(command, control, text) {
        push_other_information(information, text);
        text.push(b" ~ wide");
    } else {
        push_fault(FrameError::Undefined { control }, text);
    }
}

fn is_command(from: Role, octets: &[u8]) -> bool
    requires { 4 ≤ length octets.now }
    ensures { result ≡ (slice_index octets.now 0 == address_of from true) }
{
    octets[0] == command_address(from)
}

/// What lies between the control and the frame check sequence.
fn information<'a>(octets: &'a [u8]) -> &'a [u8]
    requires { 4 ≤ length octets.now }
    ensures information { result.now ≡ information_in octets.now }
    ensures size { length result.now + 4 ≡ length octets.now }
{
    &octets[2..octets.len() - 2]
}

/// Appends what octets are that were sent by `from` and whose control is of no frame of LAPB modulo 8: a frame of
/// another procedure by its name, or the error.
pub fn push_other_frame(from: Role, octets: &[u8], control: u8, text: &mut Text)
    requires long { 4 ≤ length octets.now }
    requires few { length octets.now ≤ MOST_OCTETS }
    requires room { length text.old + MOST_TEXT ≤ ROOM }
    ensures text { text.new ≡ text.old ++ other_frame_text from octets.now control }
    ensures size { length text.new ≤ length text.old + MOST_TEXT }
{
    push_other(is_command(from, octets), control, information(octets), text);
}
