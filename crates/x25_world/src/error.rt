ghost use Rattle.std.specs.Prelude.{◌≡◌};
ghost use Rattle.x25_world.specs.Error.{number_of, error_of};

use thiserror::Error;
use x25_station::StationError;

/// Why an event is refused, or a world isn't made (profile).
#[derive(Clone, Copy, Debug, PartialEq, Eq, Error)]
pub enum WorldError {
    /// 14: a setting is out of its range.
    #[error("a parameter is out of range")]
    BadConfig,
    /// 50: nothing is on the line.
    #[error("nothing on the line")]
    Empty,
    /// 51: the line has no frame at that place.
    #[error("no such frame on the line")]
    NoSuchFrame,
    /// 52: the octets that come in the place of the frame have a right frame check sequence.
    #[error("the damage cannot be seen")]
    Unseen,
    /// 53: the station refuses it.
    #[error("{0}")]
    Station(StationError),
    /// 54: timer T1 of an end that awaits UA, while its SABM, or a UA to it, is on the line.
    #[error("the set-up is still on the line")]
    OnLine,
    /// 70: a growth was refused.
    #[error("no memory")]
    NoMemory,
}

impl WorldError {
    /// The error of a world whose station refuses this.
    pub(crate) fn of_station(error: StationError) -> WorldError
        ensures { result ≡ error_of error }
    {
        match error {
            StationError::NoMemory => WorldError::NoMemory,
            StationError::BadConfig | StationError::Link(_) | StationError::Layer(_) => {
                WorldError::Station(error)
            }
        }
    }

    /// The number of this error, the same in all crates.
    pub fn number(self) -> u8
        ensures { result ≡ number_of self }
    {
        match self {
            WorldError::BadConfig => 14,
            WorldError::Empty => 50,
            WorldError::NoSuchFrame => 51,
            WorldError::Unseen => 52,
            WorldError::Station(_) => 53,
            WorldError::OnLine => 54,
            WorldError::NoMemory => 70,
        }
    }
}
