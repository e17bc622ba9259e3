//! Octets between flags, with a 0 inserted behind each five 1 bits, ITU-T X.25 (10/96), sections 2.2.2 and 2.2.6.
ghost use Rattle.std.specs.Prelude.{ℕ, ◌≡◌, ◌<◌, ◌≤◌, ◌++◌, ◌∷◌, [], Bool, List, length, IfOk, OnOk, OnErr};
ghost use Rattle.std.specs.Prelude.{slice_index};
ghost use Rattle.x25_bits.specs.code.Prefix.{IsPrefix};
ghost use Rattle.x25_bits.specs.FrameCheck.{bits_of, low_bits};
ghost use Rattle.x25_bits.specs.Deframer.{flag};
ghost use Rattle.x25_bits.specs.Stuffing.{stuffed_from, framed};

use crate::bits::Bits;
use crate::no_memory::NoMemory;
use crate::stuffing_table::STUFFED;

/// A flag's bits, the first the lowest.
const FLAG: u8 = 0x7e;

/// Appends a flag.
pub(crate) fn put_flag(bits: &mut Bits) -> Result<(), NoMemory>
    ensures ok { OnOk result (bits.new ≡ bits.old ++ flag) }
    ensures begins { IsPrefix bits.old bits.new }
{
    bits.append(FLAG, 8)?;
    Ok(())
}

/// Appends the lowest `count` bits of an octet.
fn put_low(octet: u8, count: u8, bits: &mut Bits) -> Result<(), NoMemory>
    requires { count ≤ 8 }
    ensures ok { OnOk result (bits.new ≡ bits.old ++ low_bits count octet) }
    ensures begins { IsPrefix bits.old bits.new }
{
    bits.append(octet, count)?;
    Ok(())
}

/// The same where mostly there are none.
fn put_rest(octet: u8, count: u8, bits: &mut Bits) -> Result<(), NoMemory>
    requires { count ≤ 8 }
    ensures ok { OnOk result (bits.new ≡ bits.old ++ low_bits count octet) }
    ensures begins { IsPrefix bits.old bits.new }
{
    if count == 0 {
        return Ok(());
    }
    put_low(octet, count, bits)
}

/// An octet's bits behind `run` 1 bits, and a 0 behind the fifth of them; answers how many stand there then.
fn put_octet(run: u8, octet: u8, bits: &mut Bits) -> Result<u8, NoMemory>
    requires { run < 5 }
    ensures few { IfOk result (λ after. after < 5) }
    ensures stuffs { IfOk result (λ after. (rest : List Bool) → bits.new ++ stuffed_from after rest ≡ bits.old
        ++ stuffed_from run (low_bits 8 octet ++ rest)) }
    ensures begins { IsPrefix bits.old bits.new }
{
    let entry = STUFFED[run as usize * 256 + octet as usize];
    put_low((entry % 256) as u8, 8, bits)?;
    put_rest((entry / 256 % 4) as u8, (entry / 1024 % 4) as u8, bits)?;
    Ok((entry / 4096) as u8)
}

fn put_stuffed(octets: &[u8], bits: &mut Bits) -> Result<(), NoMemory>
    ensures ok { OnOk result (bits.new ≡ bits.old ++ stuffed_from 0 (bits_of octets.now)) }
    ensures begins { IsPrefix bits.old bits.new }
{
    let mut run = 0;
    for octet in octets {
        run = put_octet(run, *octet, bits)?;
    }
    Ok(())
}

fn put_framed(octets: &[u8], bits: &mut Bits) -> Result<(), NoMemory>
    ensures ok { OnOk result (bits.new ≡ bits.old ++ framed octets.now) }
    ensures begins { IsPrefix bits.old bits.new }
{
    put_flag(bits)?;
    put_stuffed(octets, bits)?;
    put_flag(bits)
}

/// Appends a flag, the octets' bits with a 0 inserted behind each five 1 bits, and a flag.
pub fn put(octets: &[u8], bits: &mut Bits) -> Result<(), NoMemory>
    ensures ok { OnOk result (bits.new ≡ bits.old ++ framed octets.now) }
    ensures err { OnErr result (bits.new ≡ bits.old) }
{
    let count = bits.len();
    if let Err(error) = put_framed(octets, bits) {
        bits.truncate(count);
        return Err(error);
    }
    Ok(())
}
