//! Bits on their way to a synchronous line, each octet lowest bit first.
ghost use Rattle.std.specs.Prelude.{◌≡◌, ◌+◌, ◌^◌, ◌<◌, ◌≤◌, false, IfOk, length, take, drop, slice_index_or};
ghost use Rattle.x25_bits.specs.FrameCheck.{number_of};

use std::alloc::Global;
use x25_bits::{Bits, NoMemory, put};
use x25_io::{Fault, Output, Sink};

/// The bit at a place.
fn bit_at(bits: &Bits, place: usize) -> bool
    requires { place < length bits.now }
    ensures { result ≡ slice_index_or bits.now place false }
{
    bits.get(place).unwrap_or(false)
}

/// The octet whose bits begin at a place.
fn octet_at(bits: &Bits, place: usize) -> u8
    requires inside { place + 8 ≤ length bits.now }
    requires size { place + 8 < 2 ^ 64 }
    ensures { result ≡ number_of (take 8 (drop place bits.now)) }
{
    let mut octet = 0u8;
    for behind in 0..8usize {
        octet = 2 * octet + u8::from(bit_at(bits, place + (7 - behind)));
    }
    octet
}

/// The bits from a place on.
fn bits_from(alloc: Global, bits: &Bits, place: usize) -> Result<Bits, NoMemory>
    requires { place ≤ length bits.now }
    ensures { IfOk result (λ rest. rest ≡ drop place bits.now) }
{
    let mut rest = Bits::new(alloc);
    for at in place..bits.len() {
        rest.push(bit_at(bits, at))?;
    }
    Ok(rest)
}

/// Bits that fill no octet yet.
#[derive(Drop)]
pub(crate) struct LineBits {
    alloc: Global,
    bits: Bits,
}

impl LineBits {
    ghost use Rattle.std.specs.Prelude.{◌≡◌, ◌++◌, [], true, OnOk, IsErrOf};
    ghost use Rattle.x25_bits.specs.Found.{octets_of};
    ghost use Rattle.x25_bits.specs.Stuffing.{filled, framed};
    ghost use Rattle.x25_io.specs.code.MarksFaults.{MarksFaults};
    ghost use Rattle.x25_io.specs.code.Written.{TellsMore};
    ghost use Rattle.x25_bit_line.specs.LineBits.{behind_octets};

    /// No bits.
    pub(crate) fn new(alloc: Global) -> LineBits
        ensures { result.bits ≡ [] }
    {
        LineBits {
            alloc,
            bits: Bits::new(alloc),
        }
    }

    /// Tells the octets that the bits fill.
    fn tell_octets<W: Sink>(&self, output: &mut Output, writer: &mut W) -> Result<(), Fault>
        ensures kept { OnOk result (W.is_marked writer.new ≡ W.is_marked writer.old) }
        ensures tells { TellsMore result (W.contents writer.old) (W.contents writer.new) output.old output.new
            (octets_of self.now.bits) }
        ensures write { IsErrOf result Fault.Write → W.is_marked writer.new ≡ true }
        ensures memory { IsErrOf result Fault.NoMemory → ⊥ }
        ensures read { IsErrOf result Fault.Read → ⊥ }
    {
        for index in 0..self.bits.len() / 8 {
            let octet = octet_at(&self.bits, 8 * index);
            output.tell(&[octet], writer)?;
        }
        Ok(())
    }

    /// Tells the octets that the bits fill, and keeps the bits behind them.
    fn send<W: Sink>(&mut self, output: &mut Output, writer: &mut W) -> Result<(), Fault>
        ensures tells { TellsMore result (W.contents writer.old) (W.contents writer.new) output.old output.new
            (octets_of self.old.bits) }
        ensures rest { OnOk result (self.new.bits ≡ behind_octets self.old.bits) }
        ensures faults { MarksFaults W.Sink writer.old writer.new result }
    {
        self.tell_octets(output, writer)?;
        let whole = self.bits.len() / 8;
        self.bits = bits_from(self.alloc, &self.bits, 8 * whole)?;
        Ok(())
    }

    /// Sends a frame: a flag, the octets' stuffed bits, a flag.
    pub(crate) fn send_frame<W: Sink>(
        &mut self,
        octets: &[u8],
        output: &mut Output,
        writer: &mut W,
    ) -> Result<(), Fault>
        ensures tells { TellsMore result (W.contents writer.old) (W.contents writer.new) output.old output.new
            (octets_of (self.old.bits ++ framed octets.now)) }
        ensures rest { OnOk result (self.new.bits ≡ behind_octets (self.old.bits ++ framed octets.now)) }
        ensures faults { MarksFaults W.Sink writer.old writer.new result }
    {
        put(octets, &mut self.bits)?;
        self.send(output, writer)
    }

    /// Fills the last octet by 1 bits.
    fn fill(&mut self) -> Result<(), NoMemory>
        ensures { OnOk result (self.new.bits ≡ filled self.old.bits) }
    {
        let missing = (8 - self.bits.len() % 8) % 8;
        for _ in 0..missing {
            self.bits.push(true)?;
        }
        Ok(())
    }

    /// Sends the bits that are left, and 1 bits that fill their octet.
    pub(crate) fn send_rest<W: Sink>(
        &mut self,
        output: &mut Output,
        writer: &mut W,
    ) -> Result<(), Fault>
        ensures tells { TellsMore result (W.contents writer.old) (W.contents writer.new) output.old output.new
            (octets_of (filled self.old.bits)) }
        ensures faults { MarksFaults W.Sink writer.old writer.new result }
    {
        self.fill()?;
        self.tell_octets(output, writer)
    }
}
