//! The fields of a line.
ghost use Rattle.std.specs.Prelude.{◌≡◌, ◌==◌, ◌≤◌, ◌∷◌, ◌++◌, true, false, nat_lt, if◌then◌else◌, length, take};
ghost use Rattle.std.specs.Prelude.{IsTrue, MatchOption, None, Some, codes};
ghost use Rattle.std.specs.Char.{is_ascii_digit};
ghost use Rattle.std.specs.List.{list_all, position};
ghost use Rattle.std.specs.Str.{bytes_eq};
ghost use Rattle.std.specs.Str.Parse.{digits_value};
ghost use Rattle.x25_script.specs.Reading.{address_in, digits_in, end_in, from_in, number_in, octets_in};
ghost use Rattle.x25_script.specs.Reading.{parts_of, q_in, small_number_in, GivesParts, GivesText, IsNotBehind};
ghost use Rattle.x25_script.specs.Reading.Spelling.{end_text};

use crate::hex_digits::HexDigits;
use x25_bits::Role;

/// Whether the text is this word.
pub(crate) fn is(text: &[u8], word: &str) -> bool
    ensures { result ≡ bytes_eq text.now word.now }
{
    text == word.as_bytes()
}

/// Whether the text begins with this word. Each character is compared, so that it is one comparison at a literal word.
fn begins_with(text: &[u8], word: &[u8]) -> bool
    ensures value { result ≡ bytes_eq word.now (take (length word.now) text.now) }
    ensures bound { IsTrue result → length word.now ≤ length text.now }
{
    if text.len() < word.len() {
        return false;
    }
    let mut is_same = true;
    let mut left = word.len();
    while left > 0 {
        left -= 1;
        is_same = (word[left] == text[left]) & is_same;
    }
    is_same
}

/// What follows this word, where the text begins with it.
pub(crate) fn behind<'a>(text: &'a [u8], word: &[u8]) -> Option<&'a [u8]>
    ensures { MatchOption result (IsNotBehind word.now text.now) (λ rest. text.now ≡ word.now ++ rest.now) }
{
    if begins_with(text, word) {
        Some(&text[word.len()..])
    } else {
        None
    }
}

/// The place of the first blank.
fn first_blank(text: &[u8]) -> Option<usize>
    ensures { result ≡ position (λ character. character == 32) text.now }
{
    text.iter().position(|character| *character == b' ')
}

/// What stands before the first blank, and what follows it.
pub(crate) fn split_blank(text: &[u8]) -> Option<(&[u8], &[u8])>
    ensures { GivesParts result (parts_of text.now) }
{
    match first_blank(text) {
        Some(at) => Some((&text[..at], &text[at + 1..])),
        None => None,
    }
}

/// The end that a text begins with, and what follows its word. Which of the two it is isn't branched on here.
pub(crate) fn split_end(text: &[u8]) -> Option<(Role, &[u8])>
    ensures { MatchOption result (IsNotBehind (codes "dte ") text.now × IsNotBehind (codes "dce ") text.now)
        (λ found. text.now ≡ end_text found.0 ++ (32 ∷ found.1.now)) }
{
    let is_dte = begins_with(text, b"dte ");
    let is_dce = begins_with(text, b"dce ");
    if !(is_dte | is_dce) {
        return None;
    }
    let end = if is_dte { Role::Dte } else { Role::Dce };
    Some((end, &text[4..]))
}

pub(crate) fn end(text: &[u8]) -> Option<Role>
    ensures { result ≡ end_in text.now }
{
    if is(text, "dte") {
        Some(Role::Dte)
    } else if is(text, "dce") {
        Some(Role::Dce)
    } else {
        None
    }
}

/// The end that a direction leads away from.
pub(crate) fn from(text: &[u8]) -> Option<Role>
    ensures { result ≡ from_in text.now }
{
    if is(text, ">") {
        Some(Role::Dte)
    } else if is(text, "<") {
        Some(Role::Dce)
    } else {
        None
    }
}

pub(crate) fn q(text: &[u8]) -> Option<bool>
    ensures { result ≡ q_in text.now }
{
    match text {
        [b'0' | b'1'] => Some(text[0] == b'1'),
        _ => None,
    }
}

fn are_digits(text: &[u8]) -> bool
    ensures { result ≡ list_all is_ascii_digit text.now }
{
    text.iter().all(|character| character.is_ascii_digit())
}

/// The text, where all its characters are digits `0` to `9`.
fn digits(text: &[u8]) -> Option<&str>
    ensures { GivesText result (digits_in text.now) }
{
    if are_digits(text) {
        str::from_utf8(text).ok()
    } else {
        None
    }
}

/// The number that at most five digits write.
fn value_of(text: &[u8]) -> Option<u32>
    requires { length text.now ≤ 5 }
    ensures { MatchOption result (list_all is_ascii_digit text.now
        ≡ false) (λ value. (list_all is_ascii_digit text.now ≡ true) × (digits_value 10 text.now ≡ value)) }
{
    let mut value = 0u32;
    for character in text {
        if !character.is_ascii_digit() {
            return None;
        }
        value = 10 * value + u32::from(*character - b'0');
    }
    Some(value)
}

fn sixteen_bits(value: u32) -> Option<u16>
    ensures { result ≡ (if nat_lt value 65536 then Some value else None) }
{
    if value < 65_536 {
        Some(value as u16)
    } else {
        None
    }
}

/// A number of 16 bits, without leading zeros.
#[inline(always)]
pub(crate) fn number(text: &[u8]) -> Option<u16>
    ensures { result ≡ number_in text.now }
{
    if text.is_empty() {
        return None;
    }
    if text.len() > 5 {
        return None;
    }
    if text.len() > 1 && text[0] == b'0' {
        return None;
    }
    match value_of(text) {
        Some(value) => sixteen_bits(value),
        None => None,
    }
}

/// A number of 8 bits, without leading zeros.
#[tactic(auto, unfolding(crate::specs::Reading::small_number_in))]
pub(crate) fn small_number(text: &[u8]) -> Option<u8>
    ensures { result ≡ small_number_in text.now }
{
    u8::try_from(number(text)?).ok()
}

/// The digits of an address, one at least or `-`.
pub(crate) fn address(text: &[u8]) -> Option<&str>
    ensures { GivesText result (address_in text.now) }
{
    if is(text, "-") {
        Some("")
    } else if text.is_empty() {
        None
    } else {
        digits(text)
    }
}

/// Octets, one pair of digits at least or `-`.
#[tactic(auto, using(crate::proofs::OctetLemmas::octets_of_none))]
pub(crate) fn octets(text: &[u8]) -> Option<HexDigits<'_>>
    ensures { result ≡ octets_in text.now }
{
    if is(text, "-") {
        HexDigits::of(b"")
    } else if text.is_empty() {
        None
    } else {
        HexDigits::of(text)
    }
}
