//! What the program reads, and whether that is a capture.
ghost use Rattle.std.specs.Prelude.{◌≡◌};

use x25_io::{Failed, Source};

/// A source that remembers whether what it gave first begins as a capture does.
#[derive(Drop)]
pub(crate) struct Watched<R> {
    source: R,
    is_begun: bool,
    is_capture: bool,
}

impl<R> Watched<R> {
    pub(crate) fn new(source: R) -> Watched<R>
        ensures { result.source ≡ source }
    {
        Watched {
            source,
            is_begun: false,
            is_capture: false,
        }
    }

    /// Whether it begins as a capture does.
    pub(crate) fn is_capture(&self) -> bool {
        self.is_capture
    }
}

/// Whether octets begin as a capture does: pcapng, or pcap of either order with times in micro- or nanoseconds.
fn begins_capture(octets: &[u8]) -> bool {
    matches!(
        octets,
        [0x0a, 0x0d, 0x0d, 0x0a, ..]
            | [0xd4, 0xc3, 0xb2, 0xa1, ..]
            | [0xa1, 0xb2, 0xc3, 0xd4, ..]
            | [0x4d, 0x3c, 0xb2, 0xa1, ..]
            | [0xa1, 0xb2, 0x3c, 0x4d, ..]
    )
}

impl<R: Source> Source for Watched<R> {
    ghost remaining = { λ w. R.remaining w.source };

    ghost is_marked = { λ w. R.is_marked w.source };

    fn read(&mut self, buffer: &mut [u8]) -> Result<usize, Failed> {
        let read = self.source.read(buffer);
        if !self.is_begun {
            self.is_begun = true;
            self.is_capture = begins_capture(buffer);
        }
        read
    }
}
