//! Octets from hexadecimal digits, and as such.
ghost use Rattle.std.specs.Prelude.{◌≡◌, ◌==◌, ◌&&◌, ◌+◌, ◌*◌, ◌≤◌, ◌<◌, ◌++◌, ℕ, nat_le, nat_lt, if◌then◌else◌};
ghost use Rattle.std.specs.Prelude.{length, slice_index, take, drop, map, Some, None, IfSome, IsTrue};
ghost use Rattle.std.specs.Char.{is_ascii_hexdigit};
ghost use Rattle.std.specs.Int.{trailing_zeros, w64};
ghost use Rattle.std.specs.List.{flat_map, list_all, prefix_len};
ghost use Rattle.std.specs.Result.{result_ok};
ghost use Rattle.hex.specs.Hex.{decode_of};
ghost use Rattle.x25_text.specs.Hexadecimal.{octets_of, paired, value_of};
ghost use Rattle.x25_text.specs.Text.{octet_text};

use std::simd::prelude::*;

/// The value of each character that is a hexadecimal digit, 255 for the others.
static VALUES: [u8; 256] = [
    255, 255, 255, 255, 255, 255, 255, 255, 255, 255, 255, 255, 255, 255, 255, 255, 255, 255, 255,
    255, 255, 255, 255, 255, 255, 255, 255, 255, 255, 255, 255, 255, 255, 255, 255, 255, 255, 255,
    255, 255, 255, 255, 255, 255, 255, 255, 255, 255, 0, 1, 2, 3, 4, 5, 6, 7, 8, 9, 255, 255, 255,
    255, 255, 255, 255, 10, 11, 12, 13, 14, 15, 255, 255, 255, 255, 255, 255, 255, 255, 255, 255,
    255, 255, 255, 255, 255, 255, 255, 255, 255, 255, 255, 255, 255, 255, 255, 255, 10, 11, 12, 13,
    14, 15, 255, 255, 255, 255, 255, 255, 255, 255, 255, 255, 255, 255, 255, 255, 255, 255, 255,
    255, 255, 255, 255, 255, 255, 255, 255, 255, 255, 255, 255, 255, 255, 255, 255, 255, 255, 255,
    255, 255, 255, 255, 255, 255, 255, 255, 255, 255, 255, 255, 255, 255, 255, 255, 255, 255, 255,
    255, 255, 255, 255, 255, 255, 255, 255, 255, 255, 255, 255, 255, 255, 255, 255, 255, 255, 255,
    255, 255, 255, 255, 255, 255, 255, 255, 255, 255, 255, 255, 255, 255, 255, 255, 255, 255, 255,
    255, 255, 255, 255, 255, 255, 255, 255, 255, 255, 255, 255, 255, 255, 255, 255, 255, 255, 255,
    255, 255, 255, 255, 255, 255, 255, 255, 255, 255, 255, 255, 255, 255, 255, 255, 255, 255, 255,
    255, 255, 255, 255, 255, 255, 255, 255, 255, 255, 255, 255, 255, 255, 255, 255, 255, 255, 255,
    255, 255, 255,
];

fn value(character: u8) -> u8
    ensures { result ≡ value_of character }
{
    VALUES[character as usize]
}

/// Reads the octets that the digits write, two for each, and says whether all were digits.
fn read_pairs(digits: &[u8], octets: &mut [u8]) -> bool
    requires { length digits.now ≡ 2 * length octets.old }
    ensures { octets_of digits.now ≡ (if result then Some octets.new else None) }
{
    for i in 0..octets.len() {
        let high = value(digits[2 * i]);
        let low = value(digits[2 * i + 1]);
        if high > 15 || low > 15 {
            return false;
        }
        octets[i] = 16 * high + low;
    }
    true
}

/// The values of sixteen characters, 255 of one that is no digit.
fn values(characters: u8x16) -> u8x16
    ensures { result ≡ map value_of characters }
{
    let decimal = characters - u8x16::splat(b'0');
    let letter = (characters | u8x16::splat(0x20)) - u8x16::splat(b'a');
    let of_letter = letter
        .simd_lt(u8x16::splat(6))
        .select(letter + u8x16::splat(10), u8x16::splat(255));
    decimal.simd_lt(u8x16::splat(10)).select(decimal, of_letter)
}

/// Whether all are values of digits.
fn are_digits(values: u8x16) -> bool
    ensures { result ≡ list_all (λ value. nat_lt value 16) values }
{
    values.simd_lt(u8x16::splat(16)).all()
}

/// The octets of sixteen values, as far as these are values of digits.
fn joined(values: u8x16) -> u8x8
    ensures size { length result ≡ 8 }
    ensures front { (count : ℕ) → count ≤ 8 → IsTrue (list_all (λ value. nat_lt value 16) (take (2 * count) values))
        → take count result ≡ paired (take (2 * count) values) }
{
    let high: u8x8 = values.swizzle([0, 2, 4, 6, 8, 10, 12, 14]);
    let low: u8x8 = values.swizzle([1, 3, 5, 7, 9, 11, 13, 15]);
    high * u8x8::splat(16) + low
}

/// Reads eight octets from a place on.
fn read_eight(digits: &[u8], octets: &mut [u8], place: usize) -> bool
    requires digits { length digits.now ≡ 2 * length octets.old }
    requires room { place + 8 ≤ length octets.old }
    ensures octets { octets_of (take 16 (drop (2 * place) digits.now)) ≡ (if result
        then Some (take 8 (drop place octets.new)) else None) }
    ensures before { take place octets.new ≡ take place octets.old }
{
    let values = values(u8x16::from_slice(&digits[2 * place..]));
    if are_digits(values) {
        joined(values).copy_to_slice(&mut octets[place..]);
        true
    } else {
        false
    }
}

/// Reads the octets that the digits write, two for each, and says whether all were digits.
///
/// Eight octets at a time; the last eight may be read over some that were read before.
pub fn read_hexadecimal(digits: &[u8], octets: &mut [u8]) -> bool
    requires { length digits.now ≡ 2 * length octets.old }
    ensures { result_ok (decode_of digits.now) ≡ (if result then Some octets.new else None) }
{
    let count = octets.len();
    if count < 8 {
        return read_pairs(digits, octets);
    }
    for eight in 0..count / 8 {
        if !read_eight(digits, octets, 8 * eight) {
            return false;
        }
    }
    read_eight(digits, octets, count - 8)
}

/// The values of sixteen characters, as far as these are digits.
fn values_of_digits(characters: u8x16) -> u8x16
    ensures { IsTrue (list_all is_ascii_hexdigit characters) → result ≡ map value_of characters }
{
    // Of `0` to `9` the first is less, and of the letters, of either case, the second.
    let figures = characters - u8x16::splat(b'0');
    let letters = (characters | u8x16::splat(0x20)) - u8x16::splat(b'a' - 10);
    figures.simd_min(letters)
}

/// Reads eight octets from a place on, whose characters are digits.
fn read_eight_digits(digits: &[u8], octets: &mut [u8], place: usize)
    requires digits { IsTrue (list_all is_ascii_hexdigit digits.now) }
    requires length { length digits.now ≡ 2 * length octets.old }
    requires room { place + 8 ≤ length octets.old }
    ensures octets { octets_of (take 16 (drop (2 * place) digits.now)) ≡ Some (take 8 (drop place octets.new)) }
    ensures before { take place octets.new ≡ take place octets.old }
{
    let values = values_of_digits(u8x16::from_slice(&digits[2 * place..]));
    joined(values).copy_to_slice(&mut octets[place..]);
}

/// The octets of sixteen values, as far as these are values of digits: each in a word.
fn joined_words(values: u8x16) -> u16x8
    ensures size { length result ≡ 8 }
    ensures octets { IsTrue (list_all (λ value. nat_lt value 16) values) → result ≡ paired values }
{
    // Of a word `high + 256 * low` this is `high + 256 * (16 * high + low)`, and what is above falls away.
    (u16x8::from_le_bytes(values) * u16x8::splat(4097)) >> 8
}

/// The octets of twice sixteen values, as far as these are values of digits.
fn joined_sixteen(first: u8x16, second: u8x16) -> u8x16
    ensures size { length result ≡ 16 }
    ensures octets { IsTrue (list_all (λ value. nat_lt value 16) first)
        → IsTrue (list_all (λ value. nat_lt value 16) second)
        → result ≡ paired first ++ paired second }
{
    let front: u8x16 = joined_words(first).to_le_bytes();
    let back: u8x16 = joined_words(second).to_le_bytes();
    front.shuffle(
        back,
        [0, 2, 4, 6, 8, 10, 12, 14, 16, 18, 20, 22, 24, 26, 28, 30],
    )
}

/// Reads sixteen octets from a place on, whose characters are digits.
fn read_sixteen_digits(digits: &[u8], octets: &mut [u8], place: usize)
    requires digits { IsTrue (list_all is_ascii_hexdigit digits.now) }
    requires length { length digits.now ≡ 2 * length octets.old }
    requires room { place + 16 ≤ length octets.old }
    ensures octets { octets_of (take 32 (drop (2 * place) digits.now)) ≡ Some (take 16 (drop place octets.new)) }
    ensures before { take place octets.new ≡ take place octets.old }
{
    let first = values_of_digits(u8x16::from_slice(&digits[2 * place..]));
    let second = values_of_digits(u8x16::from_slice(&digits[2 * place + 16..]));
    joined_sixteen(first, second).copy_to_slice(&mut octets[place..]);
}

/// Reads the octets that fewer than 32 characters write, which are known to be digits, two for each.
///
/// From eight octets on, the last eight are read over some that were read before.
#[inline(never)]
fn read_few_digits(digits: &[u8], octets: &mut [u8])
    requires digits { IsTrue (list_all is_ascii_hexdigit digits.now) }
    requires length { length digits.now ≡ 2 * length octets.old }
    requires few { length octets.old < 16 }
    ensures { octets_of digits.now ≡ Some octets.new }
{
    let count = octets.len();
    if count < 8 {
        read_pairs(digits, octets);
        return;
    }
    read_eight_digits(digits, octets, 0);
    read_eight_digits(digits, octets, count - 8);
}

/// Reads the octets that characters write that are known to be digits, two for each.
///
/// Sixteen octets at a time, of which the last sixteen, behind the loop, may be read over some that were read before.
/// Fewer are read by a call, so that this function is small enough for its callers' place.
pub fn read_digits(digits: &[u8], octets: &mut [u8])
    requires digits { IsTrue (list_all is_ascii_hexdigit digits.now) }
    requires length { length digits.now ≡ 2 * length octets.old }
    ensures { result_ok (decode_of digits.now) ≡ Some octets.new }
{
    let count = octets.len();
    if count < 16 {
        read_few_digits(digits, octets);
        return;
    }
    for sixteen in 0..(count - 1) / 16 {
        read_sixteen_digits(digits, octets, 16 * sixteen);
    }
    read_sixteen_digits(digits, octets, count - 16);
}

/// The place of the lowest bit that is set, 16 where none is.
pub fn lowest_set(mask: u64) -> usize
    ensures { result ≡ (if mask == 0 then 16 else trailing_zeros w64 mask) }
{
    if mask == 0 {
        16
    } else {
        mask.trailing_zeros() as usize
    }
}

/// How many of sixteen values stand before the first that is of no digit.
fn leading(values: u8x16) -> usize
    ensures { result ≡ prefix_len (λ value. nat_lt value 16) values }
{
    lowest_set(values.simd_ge(u8x16::splat(16)).to_bitmask())
}

/// Reads eight octets from a place on, and answers how many of their sixteen characters stand before the first that is
/// no digit: so far the octets are right.
fn read_leading(text: &[u8], octets: &mut [u8], place: usize) -> usize
    requires text { 2 * place + 16 ≤ length text.now }
    requires room { place + 8 ≤ length octets.old }
    ensures digits { result ≡ prefix_len is_ascii_hexdigit (take 16 (drop (2 * place) text.now)) }
    ensures octets { (count : ℕ) → 2 * count ≤ result
        → octets_of (take (2 * count) (drop (2 * place) text.now)) ≡ Some (take count (drop place octets.new)) }
    ensures before { take place octets.new ≡ take place octets.old }
{
    let values = values(u8x16::from_slice(&text[2 * place..]));
    joined(values).copy_to_slice(&mut octets[place..]);
    leading(values)
}

/// The octets before a line feed, where one stands behind so many characters: `before` octets of two, and `more`.
fn octets_before(text: &[u8], before: usize, more: usize) -> Option<usize>
    requires { 2 * before + more < length text.now }
    ensures count { IfSome result (λ count. 2 * count ≡ 2 * before + more) }
    ensures end { IfSome result (λ _. slice_index text.now (2 * before + more) ≡ 10) }
    ensures found { (count : ℕ) → 2 * count ≡ 2 * before + more → slice_index text.now (2 * count) ≡ 10
        → result ≡ Some count }
{
    if more % 2 == 1 || text[2 * before + more] != b'\n' {
        return None;
    }
    Some(before + more / 2)
}

/// How many times eight octets can be read of so many characters into so much room, with sixteen characters looked at
/// each time.
fn blocks(characters: usize, room: usize) -> usize
    ensures characters { 16 * result ≤ characters }
    ensures room { 8 * result ≤ room }
    ensures most { (count : ℕ) → 16 * count ≤ characters → 8 * count ≤ room → count ≤ result }
{
    let whole = characters / 16;
    let most = room / 8;
    if whole < most { whole } else { most }
}

/// Reads the octets that the digits write at the front of a text, up to its first line feed, and answers how many they
/// are.
///
/// Eight octets at a time, so that the line feed is found on the way. `None`: no line of digits ends there, or fewer
/// than sixteen characters, from its line feed on, or room for fewer than eight octets more are left.
pub fn read_line(text: &[u8], octets: &mut [u8]) -> Option<usize>
    ensures room { IfSome result (λ count. count ≤ length octets.new) }
    ensures end { IfSome result (λ count. (2 * count < length text.now) × (slice_index text.now (2 * count) ≡ 10)) }
    ensures octets { IfSome result (λ count. result_ok (decode_of (take (2 * count) text.now))
        ≡ Some (take count octets.new)) }
    ensures found { (count : ℕ) → prefix_len is_ascii_hexdigit text.now ≡ 2 * count
        → slice_index text.now (2 * count) ≡ 10 → 2 * count + 16 ≤ length text.now → count + 8 ≤ length octets.old
        → result ≡ Some count }
{
    for eight in 0..blocks(text.len(), octets.len()) {
        let more = read_leading(text, octets, 8 * eight);
        if more < 16 {
            return octets_before(text, 8 * eight, more);
        }
    }
    None
}

/// The digits of four octets.
fn digits_of_four(octets: u8x4) -> u8x8
    ensures { result ≡ flat_map octet_text octets }
{
    let high = octets >> u8x4::splat(4);
    let low = octets & u8x4::splat(15);
    let halves: u8x8 = high.shuffle(low, [0, 4, 1, 5, 2, 6, 3, 7]);
    let more = halves
        .simd_lt(u8x8::splat(10))
        .select(u8x8::splat(0), u8x8::splat(b'a' - 10 - b'0'));
    halves + u8x8::splat(b'0') + more
}

/// The digits of eight octets.
fn digits_of(octets: u8x8) -> u8x16
    ensures { result ≡ flat_map octet_text octets }
{
    let high = octets >> u8x8::splat(4);
    let low = octets & u8x8::splat(15);
    let halves: u8x16 = high.shuffle(low, [0, 8, 1, 9, 2, 10, 3, 11, 4, 12, 5, 13, 6, 14, 7, 15]);
    let more = halves
        .simd_lt(u8x16::splat(10))
        .select(u8x16::splat(0), u8x16::splat(b'a' - 10 - b'0'));
    halves + u8x16::splat(b'0') + more
}

/// Writes the digits of the four octets from a place on.
fn write_four(octets: &[u8], digits: &mut [u8], place: usize)
    requires digits { length digits.old ≡ 2 * length octets.now }
    requires room { place + 4 ≤ length octets.now }
    ensures { take (2 * (place + 4)) digits.new ≡ take (2 * place) digits.old
        ++ flat_map octet_text (take 4 (drop place octets.now)) }
{
    digits_of_four(u8x4::from_slice(&octets[place..])).copy_to_slice(&mut digits[2 * place..]);
}

/// Writes the digits of the eight octets from a place on.
fn write_eight(octets: &[u8], digits: &mut [u8], place: usize)
    requires digits { length digits.old ≡ 2 * length octets.now }
    requires room { place + 8 ≤ length octets.now }
    ensures { take (2 * (place + 8)) digits.new ≡ take (2 * place) digits.old
        ++ flat_map octet_text (take 8 (drop place octets.now)) }
{
    digits_of(u8x8::from_slice(&octets[place..])).copy_to_slice(&mut digits[2 * place..]);
}

/// Writes fewer than eight octets as digits: four at a time, the digits of the last four over some that are there.
fn write_few(octets: &[u8], digits: &mut [u8])
    requires length { length digits.old ≡ 2 * length octets.now }
    requires few { length octets.now < 8 }
    ensures { digits.new ≡ flat_map octet_text octets.now }
{
    let count = octets.len();
    if count < 4 {
        hex::encode_to_slice(octets, digits).unwrap();
        return;
    }
    write_four(octets, digits, 0);
    write_four(octets, digits, count - 4);
}

/// Writes the octets as hexadecimal digits in lower case, two for each.
///
/// Eight octets at a time, of which the digits of the last eight, behind the loop, may be written over some that are
/// there.
pub fn write_hexadecimal(octets: &[u8], digits: &mut [u8])
    requires { length digits.old ≡ 2 * length octets.now }
    ensures { digits.new ≡ flat_map octet_text octets.now }
{
    let count = octets.len();
    if count < 8 {
        write_few(octets, digits);
        return;
    }
    for eight in 0..(count - 1) / 8 {
        write_eight(octets, digits, 8 * eight);
    }
    write_eight(octets, digits, count - 8);
}

/// A mark for each of sixteen characters: 246 or more for a digit, less for another.
fn marks(characters: u8x16) -> u8x16
    ensures { list_all (nat_le 246) result ≡ list_all is_ascii_hexdigit characters }
{
    let figures = characters + u8x16::splat(198);
    // Of letters `A` to `F`, of either case, 250 and more, and then 246 and more.
    let letters = (characters & u8x16::splat(0xdf)) + u8x16::splat(185);
    let few = letters.simd_lt(u8x16::splat(4));
    let letters = few.select(u8x16::splat(4), letters) - u8x16::splat(4);
    figures.simd_lt(letters).select(letters, figures)
}

/// The marks of the sixteen characters from a place on.
fn marks_at(text: &[u8], place: usize) -> u8x16
    requires { place + 16 ≤ length text.now }
    ensures { list_all (nat_le 246) result ≡ list_all is_ascii_hexdigit (take 16 (drop place text.now)) }
{
    marks(u8x16::from_slice(&text[place..]))
}

/// The lesser of two marks, sixteen times.
fn lesser(first: u8x16, second: u8x16) -> u8x16
    ensures { list_all (nat_le 246) result ≡ (list_all (nat_le 246) first && list_all (nat_le 246) second) }
{
    first.simd_lt(second).select(first, second)
}

fn are_below_ten(values: u8x16) -> bool
    ensures { result ≡ list_all (λ value. nat_lt value 10) values }
{
    values.simd_lt(u8x16::splat(10)).all()
}

/// Whether all marks are of digits.
fn are_of_digits(marks: u8x16) -> bool
    ensures { result ≡ list_all (nat_le 246) marks }
{
    are_below_ten(marks + u8x16::splat(10))
}

/// Whether all characters are hexadecimal digits, of either case.
///
/// Twice sixteen at a time; the last of these may be tested over some that were tested before. The answer is taken of
/// all marks at the end.
pub fn is_hexadecimal(text: &[u8]) -> bool
    ensures { result ≡ list_all is_ascii_hexdigit text.now }
{
    let count = text.len();
    if count < 16 {
        return text.iter().all(|character| value(*character) < 16);
    }
    let mut least = u8x16::splat(255);
    for pair in 0..count / 32 {
        let both = lesser(marks_at(text, 32 * pair), marks_at(text, 32 * pair + 16));
        least = lesser(least, both);
    }
    let last = lesser(
        marks_at(text, count.saturating_sub(32)),
        marks_at(text, count - 16),
    );
    are_of_digits(lesser(least, last))
}
