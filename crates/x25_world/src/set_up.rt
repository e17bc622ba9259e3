//! The frames of a set-up that are on the line.
ghost use Rattle.std.specs.Prelude.{◌≡◌, ◌||◌};
ghost use Rattle.x25_bits.specs.Role.{other};
ghost use Rattle.x25_world.specs.SetUp.{reads_as, carries};
ghost use Rattle.x25_world.specs.code.ShownLine.{line_to};
ghost use Rattle.x25_world.specs.declared.set_up.SetUpFrame.{SetUpFrame};

use crate::line::Line;
use x25_bits::Role;
use x25_frame::{Frame, N1, decode};

/// A frame by which a link is set up: SABM, or the UA that answers it.
#[derive(Clone, Copy)]
pub enum SetUpFrame {
    Sabm,
    Ua,
}

/// Whether the SABM of this end is on the line, or a UA to it.
pub fn is_on_line(end: Role, line: &Line) -> bool
    ensures { result ≡ (carries SetUpFrame.Sabm end (line_to line.now (other end))
        || carries SetUpFrame.Ua (other end) (line_to line.now end)) }
{
    is_carried(SetUpFrame::Sabm, end.other(), line) || is_carried(SetUpFrame::Ua, end, line)
}

// Whether such a frame is on the line to this end.
fn is_carried(frame: SetUpFrame, to: Role, line: &Line) -> bool
    ensures { result ≡ carries frame (other to) (line_to line.now to) }
{
    for place in 0..line.len(to) {
        if let Some(octets) = line.get(to, place) {
            if reads_as(frame, to.other(), octets) {
                return true;
            }
        }
    }
    false
}

// Whether these octets of an end read as such a frame.
fn reads_as(frame: SetUpFrame, from: Role, octets: &[u8]) -> bool
    ensures { result ≡ reads_as frame from octets.now }
{
    match decode(from, N1, octets) {
        Ok(Frame::Sabm { .. }) => matches!(frame, SetUpFrame::Sabm),
        Ok(Frame::Ua { .. }) => matches!(frame, SetUpFrame::Ua),
        _ => false,
    }
}
