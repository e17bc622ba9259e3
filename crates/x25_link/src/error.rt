ghost use Rattle.std.specs.Prelude.{◌≡◌};
ghost use Rattle.x25_link.specs.Error.{number_of};
ghost use Rattle.x25_link.specs.declared.error.LinkError.TheVariants as error;

use std::alloc::{AllocError, AllocFailed};
use thiserror::Error;
use x25_bits::NoMemory;

/// Why a link refuses a call.
#[derive(Clone, Copy, Debug, PartialEq, Eq, Error)]
pub enum LinkError {
    /// 9: the link isn't up.
    #[error("the link is not up")]
    NotUp,
    /// 10: 256 packets wait.
    #[error("256 packets wait")]
    QueueFull,
    /// 11: timer T1 doesn't run.
    #[error("timer T1 does not run")]
    NotRunning,
    /// 12: the link is being set up.
    #[error("the link is being set up")]
    AlreadyWaiting,
    /// 13: the link was disconnected by this end, for good.
    #[error("the link is closed")]
    Closed,
    /// 14: a parameter is out of its range.
    #[error("a parameter is out of range")]
    BadConfig,
    /// 15: the link is up.
    #[error("the link is up")]
    AlreadyUp,
    /// 70: a growth was refused.
    #[error("no memory")]
    NoMemory,
}

impl LinkError {
    /// The number of this error, the same in all crates.
    pub fn number(self) -> u8
        ensures { result ≡ number_of self }
    {
        match self {
            LinkError::NotUp => 9,
            LinkError::QueueFull => 10,
            LinkError::NotRunning => 11,
            LinkError::AlreadyWaiting => 12,
            LinkError::Closed => 13,
            LinkError::BadConfig => 14,
            LinkError::AlreadyUp => 15,
            LinkError::NoMemory => 70,
        }
    }
}

impl From<AllocError> for LinkError {
    ghost from_gives = { λ _ e. e ≡ error.NoMemory };

    fn from(_error: AllocError) -> LinkError {
        LinkError::NoMemory
    }
}

impl<T: Drop> From<AllocFailed<T>> for LinkError {
    ghost from_gives = { λ _ e. e ≡ error.NoMemory };

    fn from(_error: AllocFailed<T>) -> LinkError {
        LinkError::NoMemory
    }
}

impl From<NoMemory> for LinkError {
    ghost from_gives = { λ _ e. e ≡ error.NoMemory };

    fn from(_error: NoMemory) -> LinkError {
        LinkError::NoMemory
    }
}
