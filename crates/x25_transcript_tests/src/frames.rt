//! Each function that writes the text of a frame or a packet; `tests/golden` has those of each kind.
use std::alloc::{AllocError, Global};
use x25_frame::{FrameError, Role, decode};
use x25_text::{
    Text, push_fault, push_frame, push_information, push_other_frame, push_wide_frame,
    push_wide_information, push_wide_packet,
};

/// What octets are read as: a frame of the DTE, or the packet in an I frame, in the form that a station writes or in
/// any.
#[derive(Clone, Copy)]
enum As {
    Frame,
    WideFrame,
    Information,
    WideInformation,
    Form,
}

/// Octets in hexadecimal, and their text.
type Row = (As, &'static str, &'static str);

static ROWS: [Row; 10] = [
    (As::Frame, "013febdf", "SABM cmd P=1"),
    (As::Frame, "033f5bec", "fault 4 undefined ctl=3f"),
    (As::WideFrame, "013febdf", "SABM cmd P=1"),
    (As::WideFrame, "017fef9d", "SABME cmd P=1 ~ wide"),
    (
        As::Information,
        "9001b4",
        "DATA ch=1 S=2 R=5 M=1 Q=1 data=-",
    ),
    (As::Information, "10011300", "fault 20 diag=38"),
    (As::WideInformation, "1000fb07", "RESTART cause=7 ~ wide"),
    (As::WideInformation, "10010b000142", "fault 26 diag=66"),
    (As::Form, "1000fb07", "RESTART cause=7 ~ wide"),
    (As::Form, "100149", "REJ ch=1 R=2 ~ wide"),
];

fn show_frame(octets: &[u8], text: &mut Text) {
    text.clear();
    match decode(Role::Dte, 4_099, octets) {
        Ok(frame) => push_frame(false, &frame, text),
        Err(error) => push_fault(error, text),
    }
}

fn show_wide_frame(octets: &[u8], text: &mut Text) {
    text.clear();
    match decode(Role::Dte, 4_099, octets) {
        Ok(frame) => push_wide_frame(false, &frame, text),
        Err(FrameError::Undefined { control }) if octets.len() <= 8 => {
            push_other_frame(Role::Dte, octets, control, text)
        }
        Err(_) => {}
    }
}

fn show_wide_packet(octets: &[u8], text: &mut Text) {
    text.clear();
    if let Ok(packet) = x25_packet::decode(16, octets) {
        push_wide_packet(&packet, text);
    }
}

fn show_information(octets: &[u8], text: &mut Text) {
    text.clear();
    push_information(false, octets, text);
}

fn show_wide_information(octets: &[u8], text: &mut Text) {
    text.clear();
    push_wide_information(false, octets, text);
}

fn show(read_as: As, octets: &[u8], text: &mut Text) {
    match read_as {
        As::Frame => show_frame(octets, text),
        As::WideFrame => show_wide_frame(octets, text),
        As::Information => show_information(octets, text),
        As::WideInformation => show_wide_information(octets, text),
        As::Form => show_wide_packet(octets, text),
    }
}

fn is_shown(text: &mut Text, alloc: Global, (read_as, octets, shown): Row) -> Option<bool> {
    let octets = hex::decode(alloc, octets).ok()?;
    show(read_as, octets.as_slice(), text);
    Some(text.as_slice() == shown.as_bytes())
}

// The first row that is shown otherwise.
fn odd_row(text: &mut Text, alloc: Global) -> Option<usize> {
    for (place, &(read_as, octets, shown)) in ROWS.iter().enumerate() {
        if is_shown(text, alloc, (read_as, octets, shown)) != Some(true) {
            return Some(place);
        }
    }
    None
}

fn odd_row_in_new(alloc: Global) -> Result<Option<usize>, AllocError> {
    let mut text = Text::new(alloc)?;
    Ok(odd_row(&mut text, alloc))
}

#[test]
fn shows_frames_and_packets(rt: HostRuntime) {
    assert_eq!(rt; odd_row_in_new(rt.alloc()), Ok(None));
}
