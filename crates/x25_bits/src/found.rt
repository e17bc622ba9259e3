ghost use Rattle.std.specs.Prelude.{◌≡◌, IfOk};
ghost use Rattle.x25_bits.specs.code.Plain.{plain, plain_span};

use crate::no_memory::NoMemory;
use std::alloc::Global;

/// What a span between two flags is.
#[derive(Debug, PartialEq, Eq, Drop)]
pub enum Found {
    /// 4 to 4,103 octets.
    Content(Vec<u8>),
    /// Seven 1 bits in a row.
    Abort,
    /// Fewer than 4 octets.
    Short,
    /// More than 4,103 octets.
    Long,
    /// No whole number of octets, or five 1 bits at the end with no 0 inserted behind them.
    Ragged,
}

/// The same, where the octets are borrowed.
#[derive(Clone, Copy)]
pub enum Span<'a> {
    Content(&'a [u8]),
    Abort,
    Short,
    Long,
    Ragged,
}

impl Span<'_> {
    /// The same with octets of its own. Error 70 where there is no memory for them.
    pub fn copied(&self, alloc: Global) -> Result<Found, NoMemory>
        ensures { IfOk result (λ found. plain found ≡ plain_span self.now) }
    {
        match self {
            Span::Content(octets) => Ok(Found::Content(Vec::from_slice(alloc, octets)?)),
            Span::Abort => Ok(Found::Abort),
            Span::Short => Ok(Found::Short),
            Span::Long => Ok(Found::Long),
            Span::Ragged => Ok(Found::Ragged),
        }
    }
}
