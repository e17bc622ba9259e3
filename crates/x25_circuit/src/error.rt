ghost use Rattle.std.specs.Prelude.{◌≡◌};
ghost use Rattle.x25_circuit.specs.Error.{number_of};
ghost use Rattle.x25_circuit.specs.declared.error.CircuitError.TheVariants as error;

use std::alloc::AllocError;
use thiserror::Error;
use x25_bits::NoMemory;

/// Why a call of a circuit is refused.
#[derive(Clone, Copy, Debug, PartialEq, Eq, Error)]
pub enum CircuitError {
    /// 30: the state doesn't allow this call.
    #[error("not in this state")]
    WrongState,
    /// 31: eight messages wait.
    #[error("eight messages wait")]
    Full,
    /// 32: the message has more octets than the longest.
    #[error("the message is too long")]
    TooLong,
    /// 33: an interrupt isn't confirmed yet.
    #[error("an interrupt is outstanding")]
    InterruptOutstanding,
    /// 34: an address isn't 0 to 15 digits, user data of a call is more than 16 octets (128 where it may be long), a
    /// packet size or a window isn't one that may be proposed or answered, or user data of an interrupt isn't 1 to 32
    /// octets.
    #[error("a parameter is out of range")]
    BadParameter,
    /// 70: a growth was refused.
    #[error("no memory")]
    NoMemory,
}

impl CircuitError {
    /// The number of this error, the same in all crates.
    pub fn number(self) -> u8
        ensures { result ≡ number_of self }
    {
        match self {
            CircuitError::WrongState => 30,
            CircuitError::Full => 31,
            CircuitError::TooLong => 32,
            CircuitError::InterruptOutstanding => 33,
            CircuitError::BadParameter => 34,
            CircuitError::NoMemory => 70,
        }
    }
}

impl From<AllocError> for CircuitError {
    ghost from_gives = { λ _ e. e ≡ error.NoMemory };

    fn from(_error: AllocError) -> CircuitError {
        CircuitError::NoMemory
    }
}

impl From<NoMemory> for CircuitError {
    ghost from_gives = { λ _ e. e ≡ error.NoMemory };

    fn from(_error: NoMemory) -> CircuitError {
        CircuitError::NoMemory
    }
}
