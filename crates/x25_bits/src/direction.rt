ghost use Rattle.std.specs.Prelude.{◌≡◌};

use crate::role::Role;

/// A direction of the line.
#[derive(Clone, Copy, Debug, PartialEq, Eq)]
pub enum Direction {
    /// From the DTE to the DCE.
    ToDce,
    /// From the DCE to the DTE.
    ToDte,
}

impl Direction {
    ghost use Rattle.x25_bits.specs.Role.{end_of};

    /// The end that this direction leads to.
    pub fn end(self) -> Role
        ensures { result ≡ end_of self }
    {
        match self {
            Direction::ToDce => Role::Dce,
            Direction::ToDte => Role::Dte,
        }
    }
}
