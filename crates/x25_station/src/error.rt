ghost use Rattle.std.specs.Prelude.{◌≡◌};
ghost use Rattle.x25_station.specs.Error.{number_of, of_link, of_layer};

use thiserror::Error;
use x25_layer::LayerError;
use x25_link::LinkError;

/// Why a call of a station is refused.
#[derive(Clone, Copy, Debug, PartialEq, Eq, Error)]
pub enum StationError {
    /// 14: a setting is out of its range.
    #[error("a parameter is out of range")]
    BadConfig,
    /// The link refuses `connect`, `disconnect`, `probe`, `relink` or timer T1: 9, 11, 12, 13 or 15.
    #[error("{0}")]
    Link(LinkError),
    /// The packet layer refuses a command: 9, 10, 30 to 34, or 40 to 42.
    #[error("{0}")]
    Layer(LayerError),
    /// 70: a growth was refused.
    #[error("no memory")]
    NoMemory,
}

impl StationError {
    /// Why a call is refused where the link refuses it so.
    pub(crate) fn of_link(error: LinkError) -> StationError
        ensures { result ≡ of_link error }
    {
        match error {
            LinkError::NoMemory => StationError::NoMemory,
            _ => StationError::Link(error),
        }
    }

    /// Why a call is refused where the packet layer refuses it so.
    pub(crate) fn of_layer(error: LayerError) -> StationError
        ensures { result ≡ of_layer error }
    {
        match error {
            LayerError::NoMemory => StationError::NoMemory,
            _ => StationError::Layer(error),
        }
    }

    /// The number of this error, the same in all crates.
    pub fn number(self) -> u8
        ensures { result ≡ number_of self }
    {
        match self {
            StationError::BadConfig => 14,
            StationError::Link(error) => error.number(),
            StationError::Layer(error) => error.number(),
            StationError::NoMemory => 70,
        }
    }
}
