//! The addresses of frames, ITU-T X.25 (10/96), section 2.4.2.
ghost use Rattle.std.specs.Prelude.{◌≡◌, true};
ghost use Rattle.x25_frame.specs.Spelling.{address_of};

use crate::Role;

/// The address that a command or a response of this end carries: A is 3, B is 1.
pub(crate) fn address(from: Role, command: bool) -> u8
    ensures { result ≡ address_of from command }
{
    match (from, command) {
        (Role::Dte, true) | (Role::Dce, false) => 1,
        (Role::Dte, false) | (Role::Dce, true) => 3,
    }
}

/// The address that the commands of this end carry: B, 1, of the DTE, and A, 3, of the DCE.
pub fn command_address(from: Role) -> u8
    ensures { result ≡ address_of from true }
{
    address(from, true)
}
