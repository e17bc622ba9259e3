//! Readers and writers in memory that fail at one call alone, and work again after it.

use std::io::{self, ErrorKind, Read, Write};
use x25_io::{Failed, Sink, Source};

/// A reader that gives at most `most` octets at once, and fails at the call that has `before` calls before it.
#[derive(Drop)]
pub struct FailingReader<'a> {
    octets: &'a [u8],
    most: usize,
    before: usize,
    has_failed: bool,
}

impl<'a> FailingReader<'a> {
    ghost use Rattle.std.specs.Prelude.{◌≡◌, ◌≤◌, true, false, length, IfSome, IfNone, OnSome};

    /// A reader that no call of has failed.
    pub fn new(octets: &'a [u8], most: usize, before: usize) -> FailingReader<'a>
        ensures octets { result.octets.now ≡ octets.now }
        ensures most { result.most ≡ most }
        ensures before { result.before ≡ before }
        ensures unmarked { result.has_failed ≡ false }
    {
        FailingReader {
            octets,
            most,
            before,
            has_failed: false,
        }
    }

    /// Gives the next octets, and answers how many; none where this call fails.
    fn give(&mut self, buffer: &mut [u8]) -> Option<usize>
        ensures bound { IfSome result (λ count. count ≤ length buffer.new) }
        ensures kept { OnSome result (self.new.has_failed ≡ self.old.has_failed) }
        ensures failed { IfNone result (self.new.has_failed ≡ true) }
    {
        if self.before == 0 && !self.has_failed {
            self.has_failed = true;
            return None;
        }
        self.before = self.before.saturating_sub(1);
        let count = self.most.min(self.octets.len()).min(buffer.len());
        let (front, rest) = self.octets.split_at(count);
        buffer[..count].copy_from_slice(front);
        self.octets = rest;
        Some(count)
    }
}

impl Source for FailingReader<'_> {
    ghost use Rattle.std.specs.Prelude.{None};

    ghost remaining = { λ _. None };

    ghost is_marked = { λ r. r.has_failed };

    fn read(&mut self, buffer: &mut [u8]) -> Result<usize, Failed> {
        match self.give(buffer) {
            Some(count) => Ok(count),
            None => Err(Failed),
        }
    }
}

impl Read for FailingReader<'_> {
    fn read(&mut self, buffer: &mut [u8]) -> io::Result<usize> {
        match self.give(buffer) {
            Some(count) => Ok(count),
            None => Err(ErrorKind::Other.into()),
        }
    }
}

/// A writer that takes at most `most` octets at once, and fails at the call that has `before` calls before it.
#[derive(Drop)]
pub struct FailingWriter {
    octets: Vec<u8>,
    most: usize,
    before: usize,
    has_failed: bool,
}

impl FailingWriter {
    ghost use Rattle.std.specs.Prelude.{◌≡◌, ◌≤◌, ◌<◌, true, false, length, IfSome, IfNone, OnSome};

    /// A writer that no call of has failed; what it takes goes behind these octets.
    pub fn new(octets: Vec<u8>, most: usize, before: usize) -> FailingWriter
        ensures octets { result.octets.items ≡ octets.items }
        ensures most { result.most ≡ most }
        ensures before { result.before ≡ before }
        ensures unmarked { result.has_failed ≡ false }
    {
        FailingWriter {
            octets,
            most,
            before,
            has_failed: false,
        }
    }

    /// What was taken.
    pub fn octets(&self) -> &[u8]
        ensures { result.now ≡ self.now.octets.items }
    {
        self.octets.as_slice()
    }

    /// Takes octets, one at least where there are any, and answers how many; none where this call fails.
    fn take(&mut self, buffer: &[u8]) -> Option<usize>
        ensures bound { IfSome result (λ count. count ≤ length buffer.now) }
        ensures some { 0 < length buffer.now → IfSome result (λ count. 0 < count) }
        ensures kept { OnSome result (self.new.has_failed ≡ self.old.has_failed) }
        ensures failed { IfNone result (self.new.has_failed ≡ true) }
    {
        let count = self.most.max(1).min(buffer.len());
        let fails = self.before == 0 && !self.has_failed;
        if fails || self.octets.extend_from_slice(&buffer[..count]).is_err() {
            self.has_failed = true;
            return None;
        }
        self.before = self.before.saturating_sub(1);
        Some(count)
    }
}

impl Sink for FailingWriter {
    ghost use Rattle.std.specs.Prelude.{None};

    ghost contents = { λ _. None };

    ghost is_marked = { λ w. w.has_failed };

    fn write(&mut self, buffer: &[u8]) -> Result<usize, Failed> {
        match self.take(buffer) {
            Some(count) => Ok(count),
            None => Err(Failed),
        }
    }
}

impl Write for FailingWriter {
    fn write(&mut self, buffer: &[u8]) -> io::Result<usize> {
        match self.take(buffer) {
            Some(count) => Ok(count),
            None => Err(ErrorKind::Other.into()),
        }
    }

    fn flush(&mut self) -> io::Result<()> {
        Ok(())
    }
}
