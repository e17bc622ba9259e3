ghost use Rattle.std.specs.Prelude.{◌≡◌, ◌<◌, ◌++◌, ◌∷◌, not, IfSome, MatchOption, length};
ghost use Rattle.std.specs.List.{prefix_len};
ghost use Rattle.memchr.specs.Find.{IsFirstByte, is_byte};
ghost use Rattle.x25_io.specs.Lines.{IsOpen};

use memchr::memchr;
use std::simd::prelude::*;
use x25_text::lowest_set;

/// The place of the first line feed of sixteen octets, 16 where there is none.
fn first_line_feed(octets: u8x16) -> usize
    ensures { result ≡ prefix_len (λ octet. not (is_byte 10 octet)) octets }
{
    lowest_set(octets.simd_eq(u8x16::splat(b'\n')).to_bitmask())
}

/// The place of the first line feed. Where one stands in the first sixteen octets it is found by these alone.
fn line_end(octets: &[u8]) -> Option<usize>
    ensures { IsFirstByte (is_byte 10) octets.now result }
{
    if octets.len() >= 16 {
        let at = first_line_feed(u8x16::from_slice(octets));
        if at < 16 {
            return Some(at);
        }
    }
    memchr(b'\n', octets)
}

/// The octets before the first line feed and those behind it, where there is one.
#[inline(always)]
pub fn split_line(octets: &[u8]) -> Option<(&[u8], &[u8])>
    ensures parts { MatchOption result (IsOpen octets.now)
        (λ parts. IsOpen parts.0.now × (octets.now ≡ parts.0.now ++ 10 ∷ parts.1.now)) }
    ensures shorter { IfSome result (λ parts. length parts.1.now < length octets.now) }
{
    match line_end(octets) {
        Some(at) => Some((&octets[..at], &octets[at + 1..])),
        None => None,
    }
}
