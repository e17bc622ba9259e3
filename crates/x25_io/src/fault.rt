ghost use Rattle.std.specs.Prelude.{◌≡◌};
ghost use Rattle.x25_io.specs.declared.fault.Fault.TheVariants.{NoMemory, Write};

use crate::device::Failed;
use std::alloc::AllocError;
use thiserror::Error;

/// What ends a run before its end.
#[derive(Clone, Copy, Debug, PartialEq, Eq, Error)]
pub enum Fault {
    /// A call of the reader failed.
    #[error("read failed")]
    Read,
    /// A call of the writer failed, or took nothing.
    #[error("write failed")]
    Write,
    /// A buffer was refused its memory.
    #[error("no memory")]
    NoMemory,
}

impl Fault {
    ghost use Rattle.x25_io.specs.Fault.{number_of};

    /// The number of the error: 61 a failed read, 62 a failed write, 70 no memory.
    pub fn number(self) -> u8
        ensures { result ≡ number_of self }
    {
        match self {
            Fault::Read => 61,
            Fault::Write => 62,
            Fault::NoMemory => 70,
        }
    }
}

impl From<AllocError> for Fault {
    ghost from_gives = { λ _ fault. fault ≡ NoMemory };

    fn from(_error: AllocError) -> Fault {
        Fault::NoMemory
    }
}

impl From<x25_bits::NoMemory> for Fault {
    ghost from_gives = { λ _ fault. fault ≡ NoMemory };

    fn from(_error: x25_bits::NoMemory) -> Fault {
        Fault::NoMemory
    }
}

/// Of a writer: a failed read is no error of a call that has a writer alone.
impl From<Failed> for Fault {
    ghost from_gives = { λ _ fault. fault ≡ Write };

    fn from(_failed: Failed) -> Fault {
        Fault::Write
    }
}
