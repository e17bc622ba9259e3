ghost use Rattle.std.specs.Prelude.{◌≡◌};

use thiserror::Error;

/// Why a call of a sender is refused.
#[derive(Clone, Copy, Debug, PartialEq, Eq, Error)]
pub enum WindowError {
    /// 7: the N(R) stands for no number from the lowest unacknowledged one to the next to be given.
    #[error("N(R) outside of the window")]
    BadAck,
    /// 8: as many items stand unacknowledged as the window holds.
    #[error("window full")]
    Full,
}

impl WindowError {
    /// The number of this error: 7 or 8.
    pub fn number(self) -> u8
        ensures bad_ack { self ≡ WindowError.BadAck → result ≡ 7 }
        ensures full { self ≡ WindowError.Full → result ≡ 8 }
    {
        match self {
            WindowError::BadAck => 7,
            WindowError::Full => 8,
        }
    }
}
