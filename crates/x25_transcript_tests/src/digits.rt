use std::alloc::Global;
use x25_text::{is_hexadecimal, read_digits, read_hexadecimal, read_line, write_hexadecimal};

static DIGITS: [u8; 58] = *b"0123456789abcdefABCDEF0011223344556677889900aaBBccDDeeFF12";

fn hex_reads(alloc: Global, digits: &[u8], octets: &[u8]) -> bool {
    match hex::decode(alloc, digits) {
        Ok(read) => read.as_slice() == octets,
        Err(_) => false,
    }
}

fn hex_writes(alloc: Global, octets: &[u8], digits: &[u8]) -> bool {
    match hex::encode(alloc, octets) {
        Ok(written) => written.as_bytes() == digits,
        Err(_) => false,
    }
}

/// For each number of octets, with and without a block over the one before.
#[test]
fn reads_and_writes_digits_as_hex_does(rt: HostRuntime) {
    for count in 0..30usize {
        let digits = &DIGITS[..2 * count];
        let mut octets = [0u8; 29];
        let is_read = read_hexadecimal(digits, &mut octets[..count]);
        let mut written = [0u8; 58];
        write_hexadecimal(&octets[..count], &mut written[..2 * count]);
        let found = (
            is_read,
            hex_reads(rt.alloc(), digits, &octets[..count]),
            hex_writes(rt.alloc(), &octets[..count], &written[..2 * count]),
        );
        assert_eq!(rt; found, (true, true, true), "{count}");
    }
}

static MANY_DIGITS: [u8; 100] =
    *b"243f6a8885a308d313198A2E03707344A4093822299F31D0082EFA98ec4e6c89452821e638d01377be5466CF34E90C6CC0AC";

/// For each number of octets, of characters that were tested before: with none, one and more blocks of sixteen, and
/// with and without a block over the one before.
#[test]
fn reads_tested_digits_as_hex_does(rt: HostRuntime) {
    for count in 0..51usize {
        let digits = &MANY_DIGITS[..2 * count];
        let mut octets = [0u8; 50];
        if is_hexadecimal(digits) {
            read_digits(digits, &mut octets[..count]);
        }
        assert!(rt; hex_reads(rt.alloc(), digits, &octets[..count]), "{count}");
    }
}

/// For each number of octets, with a line feed behind them and more characters behind that.
#[test]
fn reads_a_line_as_hex_does(rt: HostRuntime) {
    for count in 0..30usize {
        let digits = &DIGITS[..2 * count];
        let mut text = [b'0'; 80];
        text[..2 * count].copy_from_slice(digits);
        text[2 * count] = b'\n';
        let mut octets = [0u8; 32];
        let read = read_line(&text, &mut octets);
        text[2 * count + 1] = b'\n';
        text[2 * count] = b'0';
        let odd = read_line(&text, &mut [0u8; 32]);
        let is_read = hex_reads(rt.alloc(), digits, &octets[..count]);
        assert_eq!(rt; (read, odd, is_read), (Some(count), None, true));
    }
}

#[test]
fn finds_what_is_no_digit_at_each_place(rt: HostRuntime) {
    for character in [b'g', b'G', b'/', b':', b'@', b'`', 0, 255] {
        for place in 0..DIGITS.len() {
            let mut digits = DIGITS;
            digits[place] = character;
            let mut octets = [0u8; 29];
            let is_read = read_hexadecimal(&digits, &mut octets);
            let found = (
                is_read,
                is_hexadecimal(&digits),
                is_hexadecimal(&digits[..place]),
            );
            assert_eq!(rt; found, (false, false, true), "{character} at {place}");
        }
    }
}
