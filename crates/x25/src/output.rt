//! What the program writes to.
ghost use Rattle.std.specs.Prelude.{◌≡◌, ◌↔◌, true, false, IsTrue};
ghost use Rattle.std.specs.IoError.{error_kind};

use std::io::{Error, ErrorKind, Write};
use x25_io::{Failed, Sink};

/// Whether a write failed since nobody reads what is written any more, as `head` ends once it has its lines.
pub(crate) fn is_unread(error: &Error) -> bool
    ensures { IsTrue result ↔ (error_kind error.now ≡ ErrorKind.BrokenPipe) }
{
    error.kind() == ErrorKind::BrokenPipe
}

/// A writer of std that remembers whether a call failed, and whether nobody reads any more.
#[derive(Drop)]
pub(crate) struct Output<W> {
    writer: W,
    is_marked: bool,
    is_closed: bool,
}

impl<W> Output<W> {
    /// The writer, unmarked.
    pub(crate) fn new(writer: W) -> Output<W>
        ensures writer { result.writer ≡ writer }
        ensures unmarked { result.is_marked ≡ false }
        ensures open { result.is_closed ≡ false }
    {
        Output {
            writer,
            is_marked: false,
            is_closed: false,
        }
    }

    /// Whether a write failed since nobody reads any more.
    pub(crate) fn is_closed(&self) -> bool
        ensures { result ≡ self.now.is_closed }
    {
        self.is_closed
    }

    /// Marks a write that failed.
    fn mark(&mut self, is_closed: bool) -> Failed
        ensures writer { self.new.writer ≡ self.old.writer }
        ensures marked { self.new.is_marked ≡ true }
        ensures closed { self.new.is_closed ≡ is_closed }
    {
        self.is_marked = true;
        self.is_closed = is_closed;
        Failed
    }
}

/// A write that takes none of some octets fails.
impl<W: Write> Sink for Output<W> {
    ghost contents = { λ o. W.contents o.writer };

    ghost is_marked = { λ o. o.is_marked };

    fn write(&mut self, buffer: &[u8]) -> Result<usize, Failed> {
        match self.writer.write(buffer) {
            Ok(count) if 0 < count || buffer.is_empty() => Ok(count),
            Ok(_) => Err(self.mark(false)),
            Err(error) => Err(self.mark(is_unread(&error))),
        }
    }
}
