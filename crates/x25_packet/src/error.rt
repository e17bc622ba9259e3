ghost use Rattle.std.specs.Prelude.{◌≡◌};
ghost use Rattle.x25_packet.specs.Error.{diagnostic_of, number_of};

use thiserror::Error;

/// Why octets spell no packet: the first ground that applies.
///
/// Grounds are tried in the order length under three octets, format, type, and then the body from its front to its end.
#[derive(Clone, Copy, Debug, PartialEq, Eq, Error)]
pub enum PacketError {
    /// 20, diagnostic 38: octets are missing.
    #[error("too few octets")]
    TooShort,
    /// 21, diagnostic 40: the general format identifier is none of a packet modulo 8 of this type.
    #[error("a wrong general format identifier")]
    BadFormat,
    /// 22, diagnostic 33: no packet has this type on this channel.
    #[error("an unidentifiable packet type")]
    Unidentified,
    /// 23, diagnostic 39: octets are left over.
    #[error("too many octets")]
    TooLong,
    /// 24, no diagnostic (0): a half octet of an address is no digit, or one that fills up isn't 0.
    #[error("a wrong digit of an address")]
    BadDigit,
    /// 25, diagnostic 65: a facility that isn't known, that comes twice or that is out of order.
    #[error("a facility that is not allowed")]
    BadFacility,
    /// 26, diagnostic 66: a facility's octets are missing or out of range.
    #[error("a facility parameter that is not allowed")]
    BadParameter,
}

impl PacketError {
    /// The number of this error.
    pub fn number(self) -> u8
        ensures { result ≡ number_of self }
    {
        match self {
            PacketError::TooShort => 20,
            PacketError::BadFormat => 21,
            PacketError::Unidentified => 22,
            PacketError::TooLong => 23,
            PacketError::BadDigit => 24,
            PacketError::BadFacility => 25,
            PacketError::BadParameter => 26,
        }
    }

    /// The diagnostic code that reports this error (profile), 0 where none does.
    pub fn diagnostic(self) -> u8
        ensures { result ≡ diagnostic_of self }
    {
        match self {
            PacketError::TooShort => 38,
            PacketError::BadFormat => 40,
            PacketError::Unidentified => 33,
            PacketError::TooLong => 39,
            PacketError::BadFacility => 65,
            PacketError::BadParameter => 66,
            PacketError::BadDigit => 0,
        }
    }
}
