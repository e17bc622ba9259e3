//! The addresses of a call, as a C program hands them over.
ghost use Rattle.std.specs.Prelude.{◌≡◌};
ghost use Rattle.x25_c.specs.Dialing.{dialed};

use std::str;

/// The text of an address. Octets that are no text are taken for one that has no digits, for which a call is refused.
pub(crate) fn dialed(address: &[u8]) -> &str
    ensures { result.now ≡ dialed address.now }
{
    match str::from_utf8(address) {
        Ok(text) => text,
        Err(_) => "?",
    }
}
