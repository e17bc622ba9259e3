//! From octets to the frame that they spell.
ghost use Rattle.std.specs.Prelude.{IfOk, IfErr, IsOkAnd, ◌≡◌, ◌+◌, ◌*◌, ◌/◌, ◌%◌, ◌≤◌, ℕ, length};
ghost use Rattle.x25_frame.specs.Frame.{PlainFrame, plain};
ghost use Rattle.x25_frame.specs.Spelling.{Spells};
ghost use Rattle.x25_frame.specs.Error.{IsFirstError};
ghost use Rattle.x25_frame.specs.Reading.{Gives, bare, frame_of, kind_of, unnumbered, addressed_frame};

use crate::address::address;
use crate::codes::{DISC, DM, FRMR, REJ, RNR, RR, SABM, UA};
use crate::{Frame, FrameError, Role, Seq};
use x25_bits::check;

/// The frame, where it has no information.
fn read_bare<'a>(control: u8, info: &[u8], frame: Frame<'a>) -> Result<Frame<'a>, FrameError>
    ensures { Gives result (bare control info.now (plain frame.entry)) }
{
    match info {
        [] => Ok(frame),
        _ => Err(FrameError::NoInfoAllowed { control }),
    }
}

fn read_unnumbered<'a>(
    command: bool,
    control: u8,
    pf: bool,
    info: &'a [u8],
) -> Result<Frame<'a>, FrameError>
    ensures { Gives result (unnumbered command (control % 16 + 32 * (control / 32)) control pf info.now) }
{
    match (command, control % 16 + control / 32 * 32) {
        (true, SABM) => read_bare(control, info, Frame::Sabm { p: pf }),
        (true, DISC) => read_bare(control, info, Frame::Disc { p: pf }),
        (false, UA) => read_bare(control, info, Frame::Ua { f: pf }),
        (false, DM) => read_bare(control, info, Frame::Dm { f: pf }),
        (false, FRMR) => match info {
            [first, second, third] => Ok(Frame::Frmr {
                f: pf,
                why: [*first, *second, *third],
            }),
            _ => Err(FrameError::NoInfoAllowed { control }),
        },
        _ => Err(FrameError::Undefined { control }),
    }
}

fn read_kind<'a>(
    n1: usize,
    command: bool,
    control: u8,
    info: &'a [u8],
) -> Result<Frame<'a>, FrameError>
    ensures { Gives result (kind_of n1 command control info.now) }
{
    let nr = Seq::modulo(control / 32);
    let pf = control / 16 % 2 == 1;
    if control % 2 == 0 {
        if !command {
            return Err(FrameError::Undefined { control });
        }
        if info.len() > n1 {
            return Err(FrameError::TooLong);
        }
        let ns = Seq::modulo(control / 2);
        return Ok(Frame::I {
            ns,
            nr,
            p: pf,
            info,
        });
    }
    match control % 16 {
        RR => read_bare(control, info, Frame::Rr { command, nr, pf }),
        RNR => read_bare(control, info, Frame::Rnr { command, nr, pf }),
        REJ => read_bare(control, info, Frame::Rej { command, nr, pf }),
        _ => read_unnumbered(command, control, pf, info),
    }
}

#[inline(always)]
fn read_addressed<'a>(from: Role, n1: usize, octets: &'a [u8]) -> Result<Frame<'a>, FrameError>
    requires { 4 ≤ length octets.now }
    ensures { Gives result (addressed_frame from n1 octets.now) }
{
    let info = &octets[2..octets.len() - 2];
    if octets[0] == address(from, true) {
        read_kind(n1, true, octets[1], info)
    } else if octets[0] == address(from, false) {
        read_kind(n1, false, octets[1], info)
    } else {
        Err(FrameError::BadAddress)
    }
}

/// The frame that the octets spell, sent by `from`: address, control, information and frame check sequence.
///
/// `n1` is the most octets of information that an I frame may have. An octet list spells at most one frame, and the
/// error is the first that applies, 1 to 6. ITU-T X.25 (10/96), sections 2.2 and 2.3.
#[inline(always)]
#[tactic(auto, unfolding(crate::specs::Reading::frame_of))]
pub fn decode<'a>(from: Role, n1: usize, octets: &'a [u8]) -> Result<Frame<'a>, FrameError>
    ensures exact { Gives result (frame_of from n1 octets.now) }
    // What is read is spelled so.
    ensures found { IfOk result (λ v. Spells from n1 (plain v) octets.now) }
    // What is spelled so is read.
    ensures only { (v : PlainFrame) → Spells from n1 v octets.now → IsOkAnd result (λ w. plain w ≡ v) }
    ensures error { IfErr result (λ e. IsFirstError from n1 octets.now e) }
{
    if octets.len() < 4 {
        return Err(FrameError::Short);
    }
    if !check(octets) {
        return Err(FrameError::BadFcs);
    }
    read_addressed(from, n1, octets)
}
