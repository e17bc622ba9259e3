//! From a frame to the octets that spell it.
ghost use Rattle.std.specs.Prelude.{◌≡◌, ◌+◌, ◌*◌, ◌≤◌, [], ◌∷◌, ◌++◌, OnOk, OnErr, IsOk, length, max, vec_len};
ghost use Rattle.std.specs.Prelude.{vec_capacity};
ghost use Rattle.std.specs.Vec.{VecUnchanged};
ghost use Rattle.x25_frame.specs.Frame.{plain};
ghost use Rattle.x25_bits.specs.FrameCheck.Sealed.{seal_of};
ghost use Rattle.x25_frame.specs.Spelling.{spelling_of, body_of, control_of, information_of};

use crate::address::address;
use crate::codes::{DISC, DM, FRMR, REJ, RNR, RR, SABM, UA};
use crate::{Frame, NoMemory, Role};
use x25_bits::{append_octets, fcs};

#[inline(always)]
fn control(frame: &Frame) -> u8
    ensures { result ≡ control_of (plain frame.now) }
{
    match frame {
        Frame::I { ns, nr, p, info: _ } => 2 * ns.get() + 16 * u8::from(*p) + 32 * nr.get(),
        Frame::Rr { nr, pf, .. } => RR + 16 * u8::from(*pf) + 32 * nr.get(),
        Frame::Rnr { nr, pf, .. } => RNR + 16 * u8::from(*pf) + 32 * nr.get(),
        Frame::Rej { nr, pf, .. } => REJ + 16 * u8::from(*pf) + 32 * nr.get(),
        Frame::Sabm { p } => SABM + 16 * u8::from(*p),
        Frame::Disc { p } => DISC + 16 * u8::from(*p),
        Frame::Ua { f } => UA + 16 * u8::from(*f),
        Frame::Dm { f } => DM + 16 * u8::from(*f),
        Frame::Frmr { f, .. } => FRMR + 16 * u8::from(*f),
    }
}

fn information<'a>(frame: &'a Frame<'a>) -> &'a [u8]
    ensures { result.now ≡ information_of (plain frame.now) }
{
    match frame {
        Frame::I { info, .. } => info,
        Frame::Frmr { why, .. } => why.as_slice(),
        _ => &[],
    }
}

/// Appends the octets that spell the frame, sent by `from`: address, control, information and frame check sequence.
///
/// Each frame has this one spelling. The information of an I frame isn't bounded here. It takes no memory where the
/// capacity has room for the information and four octets more, and else memory for them and no more. ITU-T X.25
/// (10/96), sections 2.2 and 2.3.
#[inline(always)]
pub fn encode(from: Role, frame: &Frame, octets: &mut Vec<u8>) -> Result<(), NoMemory>
    ensures ok { OnOk result (octets.new.items ≡ octets.old.items ++ spelling_of from (plain frame.now)) }
    ensures err { OnErr result (VecUnchanged octets.old octets.new) }
    ensures room { vec_len octets.old + (length (information_of (plain frame.now)) + 4) ≤ vec_capacity octets.old
        → IsOk result }
    ensures memory { vec_capacity octets.new
        ≤ max (vec_capacity octets.old) (vec_len octets.old + (length (information_of (plain frame.now)) + 4)) }
    ensures capacity { vec_capacity octets.old ≤ vec_capacity octets.new }
{
    let head = [address(from, frame.is_command()), control(frame)];
    let info = information(frame);
    if info.is_empty() {
        return encode_bare(head[0], head[1], octets);
    }
    octets.reserve_exact(info.len() + 4)?;
    let start = octets.len();
    append_octets(octets, &head);
    append_octets(octets, info);
    let sequence = fcs(&octets[start..]);
    append_octets(octets, &sequence.to_le_bytes());
    Ok(())
}

/// Appends a frame without information, which has this address and control.
#[inline(always)]
fn encode_bare(address: u8, control: u8, octets: &mut Vec<u8>) -> Result<(), NoMemory>
    ensures ok { OnOk result (octets.new.items ≡ octets.old.items
        ++ (address ∷ control ∷ [] ++ seal_of (address ∷ control ∷ []))) }
    ensures err { OnErr result (VecUnchanged octets.old octets.new) }
    ensures room { vec_len octets.old + 4 ≤ vec_capacity octets.old → IsOk result }
    ensures memory { vec_capacity octets.new ≤ max (vec_capacity octets.old) (vec_len octets.old + 4) }
    ensures capacity { vec_capacity octets.old ≤ vec_capacity octets.new }
{
    let sequence = fcs(&[address, control]).to_le_bytes();
    octets.reserve_exact(4)?;
    append_octets(octets, &[address, control, sequence[0], sequence[1]]);
    Ok(())
}
