ghost use Rattle.std.specs.Prelude.{◌≡◌};
ghost use Rattle.x25_frame.specs.Error.{number_of};

use thiserror::Error;

/// Why octets spell no frame: the first ground that applies, in this order.
///
/// ITU-T X.25 (10/96), sections 2.2.9 and 2.3.5.4. `control` is the frame's second octet.
#[derive(Clone, Copy, Debug, PartialEq, Eq, Error)]
pub enum FrameError {
    /// 1: fewer than four octets.
    #[error("fewer than four octets")]
    Short,
    /// 2: the last two octets aren't the frame check sequence of those before them.
    #[error("a wrong frame check sequence")]
    BadFcs,
    /// 3: the address is neither 0x03 nor 0x01.
    #[error("an address that is neither A nor B")]
    BadAddress,
    /// 4: no frame with this address has this control.
    #[error("an undefined control {control:#04x}")]
    Undefined { control: u8 },
    /// 5: information in a frame that has none, or a FRMR without exactly three octets of it.
    #[error("information that is not allowed behind the control {control:#04x}")]
    NoInfoAllowed { control: u8 },
    /// 6: an I frame with more than N1 octets of information.
    #[error("more than N1 octets of information")]
    TooLong,
}

impl FrameError {
    /// The number of this error, 1 to 6.
    pub fn number(self) -> u8
        ensures { result ≡ number_of self }
    {
        match self {
            FrameError::Short => 1,
            FrameError::BadFcs => 2,
            FrameError::BadAddress => 3,
            FrameError::Undefined { .. } => 4,
            FrameError::NoInfoAllowed { .. } => 5,
            FrameError::TooLong => 6,
        }
    }
}
