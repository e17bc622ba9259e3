//! Octets as hexadecimal digits.
ghost use Rattle.std.specs.Prelude.{◌≡◌, ◌==◌, [], List, ℕ, length};
ghost use Rattle.x25_script.specs.HexDigits.{octets_of, octets_written, AreWritten};

use std::marker::Model;
use x25_text::{is_hexadecimal, read_digits};

/// Octets as the hexadecimal digits of a line, two for each, of either case. Contracts see the list of octets.
#[derive(Debug, Drop)]
pub struct HexDigits<'a> {
    digits: &'a [u8],
}

impl<'a> Model for HexDigits<'a> {
    ghost Value = { List ℕ };

    ghost view = { λ octets. octets_written octets.digits.now };

    ghost invariant = { λ octets. AreWritten octets.digits.now };
}

impl<'a> HexDigits<'a> {
    /// The octets that these digits write: an even number of hexadecimal digits, of either case.
    pub(crate) fn of(digits: &'a [u8]) -> Option<HexDigits<'a>>
        ensures { result ≡ octets_of digits.now }
    {
        if digits.len() % 2 == 1 || !is_hexadecimal(digits) {
            return None;
        }
        Some(HexDigits { digits })
    }

    /// No octets.
    #[tactic(auto, using(crate::proofs::OctetLemmas::octets_of_none))]
    pub(crate) fn none() -> HexDigits<'a>
        ensures { result ≡ [] }
    {
        HexDigits { digits: b"" }
    }

    /// The same octets once more.
    pub(crate) fn copied(&self) -> HexDigits<'a>
        ensures { result ≡ self.now }
    {
        HexDigits {
            digits: self.digits,
        }
    }

    /// How many octets there are.
    pub fn len(&self) -> usize
        ensures { result ≡ length self.now }
    {
        self.digits.len() / 2
    }

    /// Whether there is no octet.
    pub fn is_empty(&self) -> bool
        ensures { result ≡ (length self.now == 0) }
    {
        self.len() == 0
    }

    /// Writes the octets; `octets` has room for just these.
    pub fn write_to(&self, octets: &mut [u8])
        requires { length octets.old ≡ length self.now }
        ensures { octets.new ≡ self.now }
    {
        read_digits(self.digits, octets);
    }
}
