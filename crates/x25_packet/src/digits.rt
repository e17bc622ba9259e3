//! The digits of an address, ITU-T X.25 (10/96), section 5.2.1.
ghost use Rattle.std.specs.Prelude.{◌≡◌, ◌==◌, ◌<◌, ◌≤◌, ◌+◌, ◌/◌, length, IfSome, IsSome, ◌↔◌, slice_index, true};
ghost use Rattle.std.specs.List.{list_all};
ghost use Rattle.x25_packet.specs.Digits.{IsAddress, digits_of_text, hold_digits, is_figure};

use crate::halves::Halves;
use std::marker::Model;

/// The most digits that an address has.
const MOST: usize = 15;

fn are_figures(text: &[u8]) -> bool
    ensures { result ≡ list_all is_figure text.now }
{
    text.iter()
        .all(|character| 48 <= *character && *character <= 57)
}

/// Whether each half octet is a digit, and those behind the first `count` are 0.
pub fn hold_digits(count: usize, octets: &[u8]) -> bool
    requires { length octets.now ≤ (count + 1) / 2 }
    ensures { result ≡ hold_digits count octets.now }
{
    let mut are_digits = true;
    for octet in octets {
        are_digits &= (*octet / 16 <= 9) & (*octet % 16 <= 9);
    }
    if !are_digits {
        return false;
    }
    octets.get(count / 2).copied().unwrap_or(0) % 16 == 0
}

/// The digits of an address, at most 15: figures of a text, or half octets. Contracts see the list of them.
#[derive(Debug, Drop)]
pub struct Digits<'a> {
    figures: &'a [u8],
    halves: Halves<'a>,
}

impl<'a> Model for Digits<'a> {
    ghost use Rattle.std.specs.Prelude.{ℕ, List, ◌++◌};
    ghost use Rattle.x25_packet.specs.Digits.{IsAddress, digits_of_text};

    ghost Value = { List ℕ };

    ghost view = { λ d. digits_of_text d.figures.now ++ d.halves };

    ghost invariant = { λ d. IsAddress (digits_of_text d.figures.now ++ d.halves) };
}

impl<'a> Digits<'a> {
    /// The digits of a text of at most 15 figures `0` to `9`.
    pub fn of(text: &'a str) -> Option<Digits<'a>>
        ensures some { IsSome result ↔ ((length text.now ≤ 15) × (list_all is_figure text.now ≡ true)) }
        ensures digits { IfSome result (λ digits. digits ≡ digits_of_text text.now) }
        ensures address { IfSome result (λ digits. IsAddress digits) }
    {
        let figures = text.as_bytes();
        if figures.len() > MOST || !are_figures(figures) {
            return None;
        }
        Some(Digits {
            figures,
            halves: Halves::of(&[], 0, 0),
        })
    }

    /// The digits that half octets are.
    pub(crate) fn in_halves(halves: Halves<'a>) -> Digits<'a>
        requires { IsAddress halves }
        ensures { result ≡ halves.entry }
    {
        Digits {
            figures: &[],
            halves,
        }
    }

    /// How many digits there are, 0 to 15.
    pub fn len(&self) -> usize
        ensures number { result ≡ length self.now }
        ensures address { IsAddress self.now }
    {
        self.figures.len() + self.halves.len()
    }

    /// Whether there is no digit.
    pub fn is_empty(&self) -> bool
        ensures { result ≡ (length self.now == 0) }
    {
        self.len() == 0
    }

    /// The digit at a place, 0 to 9. The first is at place 0.
    pub fn get(&self, place: usize) -> u8
        requires { place < length self.now }
        ensures value { result ≡ slice_index self.now place }
        ensures digit { result ≤ 9 }
    {
        if place < self.figures.len() {
            return self.figures[place].saturating_sub(48);
        }
        self.halves.get(place - self.figures.len())
    }
}
