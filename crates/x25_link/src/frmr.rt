//! FRMR: how a station rejects a frame. ITU-T X.25 (10/96), sections 2.3.4.9 and 2.4.7.3.
ghost use Rattle.std.specs.Prelude.{◌≡◌, ◌+◌, ◌*◌, ◌/◌, ◌%◌, ◌<◌, ◌≤◌, ◌==◌, length, slice_index, if◌then◌else◌};
ghost use Rattle.x25_frame.specs.Frame.{plain};
ghost use Rattle.x25_frame.specs.Spelling.{information_of};
ghost use Rattle.x25_link.specs.Station.{LinkSettings, LinkStation as StationState};
ghost use Rattle.x25_link.specs.code.Fits.{FitsStation, Hears};
ghost use Rattle.x25_link.specs.Hearing.{rejects, reject_of};

use crate::frames::Frames;
use crate::heard::Heard;
use crate::phase::Reason;
use crate::station::LinkStation;
use x25_frame::{Frame, command_address};

/// W, the first bit of FRMR's third octet: the control is undefined.
pub const UNDEFINED_CONTROL: u8 = 1;

/// W and X: the frame may have no information, or its information has a wrong length.
pub const BAD_INFORMATION: u8 = 3;

/// Y: there are more than N1 octets of information.
pub const LONG_INFORMATION: u8 = 4;

/// Z: the N(R) acknowledges what was never sent.
pub const INVALID_NR: u8 = 8;

// The octet at this place, or 0 where there is none.
fn octet_at(octets: &[u8], place: usize) -> u8
    ensures { result ≡ slice_index octets.now place }
{
    if place < octets.len() {
        octets[place]
    } else {
        0
    }
}

impl LinkStation {
    /// Sends FRMR for these octets, with the third octet of its information, and leaves Up.
    pub fn reject<'a>(&mut self, octets: &[u8], why: u8, out: &mut Frames) -> Heard<'a>
        requires { length out.old < 25 }
        ensures step { Hears self.old self.new out.old out.new result (λ c t. rejects c octets.now why t) }
        ensures one { length out.new ≤ length out.old + 1 }
    {
        let frame = self.rejection(octets, why);
        self.send(&frame, out);
        self.leave(Reason::FrmrSent)
    }

    // The FRMR for these octets.
    fn rejection<'a>(&self, octets: &[u8], why: u8) -> Frame<'a>
        ensures frame { (c : LinkSettings) (s : StationState) → FitsStation c self.now s
            → plain result ≡ reject_of c octets.now why s }
        ensures short { length (information_of (plain result)) ≤ 3 }
    {
        let control = octet_at(octets, 1);
        let command = octet_at(octets, 0) == command_address(self.role.other());
        let of_response = if command { 0 } else { 16 };
        let numbers = 2 * self.outgoing.top().get()
            + of_response
            + 32 * self.receiver.wanted().get();
        Frame::Frmr {
            f: command && control / 16 % 2 == 1,
            why: [control, numbers, why],
        }
    }
}
