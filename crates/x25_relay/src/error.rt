ghost use Rattle.std.specs.Prelude.{◌≡◌};
ghost use Rattle.x25_relay.specs.Error.{number_of};
ghost use Rattle.x25_relay.specs.declared.error.RelayError.TheVariants as error;

use std::alloc::AllocError;
use thiserror::Error;

/// Why a relay doesn't take a message.
#[derive(Clone, Copy, Debug, PartialEq, Eq, Error)]
pub enum RelayError {
    /// 31: sixteen messages wait, or there isn't room for its octets beside those that wait.
    #[error("too much waits")]
    Full,
    /// 32: the message has more octets than the longest.
    #[error("the message is too long")]
    TooLong,
    /// 70: a growth was refused.
    #[error("no memory")]
    NoMemory,
}

impl RelayError {
    /// The number of this error, the same in all crates.
    pub fn number(self) -> u8
        ensures { result ≡ number_of self }
    {
        match self {
            RelayError::Full => 31,
            RelayError::TooLong => 32,
            RelayError::NoMemory => 70,
        }
    }
}

impl From<AllocError> for RelayError {
    ghost from_gives = { λ _ e. e ≡ error.NoMemory };

    fn from(_error: AllocError) -> RelayError {
        RelayError::NoMemory
    }
}
