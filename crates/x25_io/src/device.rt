//! Readers and writers that remember whether a call failed.
ghost use Rattle.std.specs.Prelude.{◌≡◌, ◌≤◌, ◌<◌, ℕ, Bool, true, false, List, Option, length, IfOk, OnOk, OnErr};
ghost use Rattle.std.specs.Io.KnownBytes.{Appends, ReadConsumes, WriteAppends};
ghost use Rattle.x25_io.specs.code.Written.{AppendsPrefix};

use std::io::{Read, Write};

/// A call of a reader or of a writer failed.
#[derive(Clone, Copy, Debug, PartialEq, Eq)]
pub struct Failed;

/// What octets are read from.
pub trait Source {
    // The octets that are still to come, where they are known.
    ghost remaining: { Self → Option (List ℕ) };
    // The mark: a call failed.
    ghost is_marked: { Self → Bool };

    /// Reads octets to the front of the buffer and answers how many. None, where there is room, means the end.
    fn read(&mut self, buffer: &mut [u8]) -> Result<usize, Failed>
        ensures bound { IfOk result (λ count. count ≤ length buffer.new) }
        ensures octets { ReadConsumes (remaining self.old) (remaining self.new) result buffer.new }
        ensures kept { OnOk result (is_marked self.new ≡ is_marked self.old) }
        ensures marked { OnErr result (is_marked self.new ≡ true) };
}

/// What octets are written to.
pub trait Sink {
    // The octets that were written so far, where they are known.
    ghost contents: { Self → Option (List ℕ) };
    // The mark: a call failed.
    ghost is_marked: { Self → Bool };

    /// Writes octets from the front of the buffer and answers how many: one at least, where there are any.
    fn write(&mut self, buffer: &[u8]) -> Result<usize, Failed>
        ensures bound { IfOk result (λ count. count ≤ length buffer.now) }
        ensures some { 0 < length buffer.now → IfOk result (λ count. 0 < count) }
        ensures octets { WriteAppends (contents self.old) (contents self.new) result buffer.now }
        ensures kept { OnOk result (is_marked self.new ≡ is_marked self.old) }
        ensures marked { OnErr result (is_marked self.new ≡ true) };
}

/// A reader or a writer of std, with its mark.
#[derive(Drop)]
pub struct Device<D> {
    device: D,
    is_marked: bool,
}

impl<D> Device<D> {
    /// The reader or writer, unmarked.
    pub fn new(device: D) -> Device<D>
        ensures device { result.device ≡ device }
        ensures unmarked { result.is_marked ≡ false }
    {
        Device {
            device,
            is_marked: false,
        }
    }

    /// The reader or writer itself.
    pub fn into_inner(self) -> D
        ensures { result ≡ self.device }
    {
        let Device {
            device,
            is_marked: _,
        } = self;
        device
    }
}

impl<R: Read> Source for Device<R> {
    ghost remaining = { λ d. R.remaining d.device };

    ghost is_marked = { λ d. d.is_marked };

    fn read(&mut self, buffer: &mut [u8]) -> Result<usize, Failed> {
        match self.device.read(buffer) {
            Ok(count) => Ok(count),
            Err(_) => {
                self.is_marked = true;
                Err(Failed)
            }
        }
    }
}

/// A write that takes none of some octets fails.
impl<W: Write> Sink for Device<W> {
    ghost contents = { λ d. W.contents d.device };

    ghost is_marked = { λ d. d.is_marked };

    fn write(&mut self, buffer: &[u8]) -> Result<usize, Failed> {
        match self.device.write(buffer) {
            Ok(count) if 0 < count || buffer.is_empty() => Ok(count),
            _ => {
                self.is_marked = true;
                Err(Failed)
            }
        }
    }
}

/// Writes all the octets, in as many calls as that takes. Err: one of them failed; the writer is marked then, and
/// octets from their front are written.
pub fn write_all<W: Sink>(writer: &mut W, octets: &[u8]) -> Result<(), Failed>
    ensures kept { OnOk result (W.is_marked writer.new ≡ W.is_marked writer.old) }
    ensures ok { OnOk result (Appends (W.contents writer.old) (W.contents writer.new) octets.now) }
    ensures err { OnErr result (AppendsPrefix (W.contents writer.old) (W.contents writer.new) octets.now) }
    ensures marked { OnErr result (W.is_marked writer.new ≡ true) }
{
    let mut rest = octets;
    while !rest.is_empty() {
        let count = writer.write(rest)?;
        rest = &rest[count..];
    }
    Ok(())
}
