ghost use Rattle.std.specs.Prelude.{◌≡◌};
ghost use Rattle.x25_routes.specs.Error.{number_of};
ghost use Rattle.x25_routes.specs.declared.error.RouteError.TheVariants as error;

use std::alloc::AllocError;
use thiserror::Error;

/// Why a route isn't made or removed.
#[derive(Clone, Copy, Debug, PartialEq, Eq, Error)]
pub enum RouteError {
    /// 70: a growth was refused.
    #[error("no memory")]
    NoMemory,
    /// 80: a route has no line, or one that there isn't.
    #[error("no such line")]
    NoSuchLine,
    /// 81: a prefix, or what it becomes, isn't 0 to 15 digits.
    #[error("a prefix is 0 to 15 digits")]
    BadPrefix,
    /// 82: there is no route of this prefix.
    #[error("no such route")]
    NoSuchRoute,
    /// 83: there is a route of this prefix.
    #[error("the route stands")]
    Stands,
}

impl RouteError {
    /// The number of this error, the same in all crates.
    pub fn number(self) -> u8
        ensures { result ≡ number_of self }
    {
        match self {
            RouteError::NoMemory => 70,
            RouteError::NoSuchLine => 80,
            RouteError::BadPrefix => 81,
            RouteError::NoSuchRoute => 82,
            RouteError::Stands => 83,
        }
    }
}

impl From<AllocError> for RouteError {
    ghost from_gives = { λ _ e. e ≡ error.NoMemory };

    fn from(_error: AllocError) -> RouteError {
        RouteError::NoMemory
    }
}
