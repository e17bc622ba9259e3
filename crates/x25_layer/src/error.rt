ghost use Rattle.std.specs.Prelude.{◌≡◌};
ghost use Rattle.x25_layer.specs.Error.{number_of, of_circuit};

use thiserror::Error;
use x25_circuit::CircuitError;

/// Why a call of a layer is refused.
#[derive(Clone, Copy, Debug, PartialEq, Eq, Error)]
pub enum LayerError {
    /// 9: the link isn't up.
    #[error("the link is not up")]
    NotUp,
    /// 10: 256 packets wait.
    #[error("256 packets wait")]
    QueueFull,
    /// 14: a parameter is out of its range.
    #[error("a parameter is out of range")]
    BadConfig,
    /// 40: a restart isn't confirmed yet.
    #[error("a restart is under way")]
    Restarting,
    /// 41: no channel is free.
    #[error("no channel is free")]
    NoFreeChannel,
    /// 42: the channel isn't configured.
    #[error("no such channel")]
    NoSuchChannel,
    /// The circuit of the channel refuses the call.
    #[error("{0}")]
    Circuit(CircuitError),
    /// 70: a growth was refused.
    #[error("no memory")]
    NoMemory,
}

impl LayerError {
    /// The number of this error, the same in all crates.
    pub fn number(self) -> u8
        ensures { result ≡ number_of self }
    {
        match self {
            LayerError::NotUp => 9,
            LayerError::QueueFull => 10,
            LayerError::BadConfig => 14,
            LayerError::Restarting => 40,
            LayerError::NoFreeChannel => 41,
            LayerError::NoSuchChannel => 42,
            LayerError::Circuit(error) => error.number(),
            LayerError::NoMemory => 70,
        }
    }

    /// The error of a layer whose circuit refuses the call.
    pub(crate) fn of_circuit(error: CircuitError) -> LayerError
        ensures { result ≡ of_circuit error }
    {
        match error {
            CircuitError::NoMemory => LayerError::NoMemory,
            _ => LayerError::Circuit(error),
        }
    }
}
