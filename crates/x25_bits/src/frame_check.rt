//! The frame check sequence (FCS) of a frame, ITU-T X.25 (10/96), section 2.2.7.
ghost use Rattle.std.specs.Prelude.{◌≡◌, ◌+◌, ◌*◌, ◌/◌, ◌%◌, ◌^◌, ◌<◌, ◌≤◌, ◌++◌, ◌↔◌, false, length, replicate, take};
ghost use Rattle.std.specs.Prelude.{drop, IsTrue, IsOk, OnOk, OnErr, vec_len, vec_capacity};
ghost use Rattle.std.specs.Vec.{VecUnchanged};
ghost use Rattle.byteorder.specs.Endian.{little_number};
ghost use Rattle.x25_bits.specs.FrameCheck.{bits_of, fcs_of, low_bits};
ghost use Rattle.x25_bits.specs.code.Register.{fed, words_leave};
ghost use Rattle.x25_bits.specs.FrameCheck.Sealed.{seal_of, is_sealed, IsSealed};

use crate::frame_check_table::LEFT;
use crate::no_memory::NoMemory;
use byteorder::{ByteOrder, LittleEndian};

/// Eight octets that leave what these leave with eight octets of 0 behind them.
///
/// The divisor's fourth power is x^64 + x^48 + x^20 + 1. Multiples of it, taken away until the first 64 coefficients
/// are 0, change no others but the next 64.
fn folded(held: u64) -> u64
    ensures { fed (low_bits 16 0) (low_bits 64 result) ≡ fed (low_bits 16 0) (low_bits 64 held ++ replicate 64 false) }
{
    let near = held ^ (held << 16);
    let taken = near ^ (near << 32) ^ (held << 44);
    taken ^ (taken >> 20) ^ (taken >> 48)
}

/// Thirty-two octets as four words, the first octets in the first, the low octet of each first.
#[derive(Clone, Copy)]
struct Block {
    first: u64,
    second: u64,
    third: u64,
    fourth: u64,
}

/// Thirty-two octets that leave what these leave with thirty-two octets of 0 behind them.
///
/// The divisor's sixteenth power is x^256 + x^192 + x^80 + 1, so that whole words are taken away, and words moved by
/// sixteen places.
fn folded_block(first: u64, second: u64, third: u64, fourth: u64) -> Block
    ensures { words_leave result.first result.second result.third result.fourth
        ≡ fed (words_leave first second third fourth) (replicate 256 false) }
{
    let pair = second ^ first;
    let run = third ^ pair;
    let moved = run ^ (first << 48);
    let all = fourth ^ run ^ ((second << 48) ^ (first >> 16));
    Block {
        first: first ^ all ^ ((pair >> 16) ^ (moved << 48)),
        second: pair ^ ((moved >> 16) ^ (all << 48)),
        third: moved ^ (all >> 16),
        fourth: all,
    }
}

/// Thirty-two octets that leave what the held ones and the next thirty-two leave.
fn with_block(held: Block, octets: &[u8]) -> Block
    requires { 32 ≤ length octets.now }
    ensures { fed (words_leave result.first result.second result.third result.fourth) (bits_of (drop 32 octets.now))
        ≡ fed (words_leave held.first held.second held.third held.fourth) (bits_of octets.now) }
{
    let first = LittleEndian::read_u64(octets);
    let second = LittleEndian::read_u64(&octets[8..]);
    let third = LittleEndian::read_u64(&octets[16..]);
    let fourth = LittleEndian::read_u64(&octets[24..]);
    let next = folded_block(held.first, held.second, held.third, held.fourth);
    Block {
        first: next.first ^ first,
        second: next.second ^ second,
        third: next.third ^ third,
        fourth: next.fourth ^ fourth,
    }
}

/// Eight octets that leave what these thirty-two leave.
fn last_word(held: Block) -> u64
    ensures { fed (low_bits 16 0) (low_bits 64 result) ≡ words_leave held.first held.second held.third held.fourth }
{
    let second = folded(held.first) ^ held.second;
    let third = folded(second) ^ held.third;
    folded(third) ^ held.fourth
}

/// What an octet leaves at this place of eight, the others 0.
fn left(place: usize, octet: u8) -> u16
    requires { place < 8 }
    ensures { low_bits 16 result ≡ fed (low_bits 16 0) (low_bits 64 (octet * 256 ^ place)) }
{
    LEFT[place * 256 + octet as usize]
}

/// The register that eight octets leave: what they leave each by itself, added.
fn reduced(held: u64) -> u16
    ensures { low_bits 16 result ≡ fed (low_bits 16 0) (low_bits 64 held) }
{
    let one = left(0, (held % 256) as u8);
    let two = left(1, ((held >> 8) % 256) as u8) ^ one;
    let three = left(2, ((held >> 16) % 256) as u8) ^ two;
    let four = left(3, ((held >> 24) % 256) as u8) ^ three;
    let five = left(4, ((held >> 32) % 256) as u8) ^ four;
    let six = left(5, ((held >> 40) % 256) as u8) ^ five;
    let seven = left(6, ((held >> 48) % 256) as u8) ^ six;
    left(7, ((held >> 56) % 256) as u8) ^ seven
}

/// What eight octets hold after fewer than eight: a register of ones, fed so many octets of 0.
static STARTS: [u64; 8] = [
    0xF321_0000_0000_0000,
    0x3078_0000_0000_0000,
    0xFFFF_0000_0000_0000,
    0x0F87_0000_0000_0000,
    0xF0B8_0000_0000_0000,
    0x3933_0000_0000_0000,
    0x0321_0000_0000_0000,
    0x3088_0000_0000_0000,
];

/// One to seven octets as a number, the low octet first.
fn short_word(octets: &[u8]) -> u64
    requires some { 0 < length octets.now }
    requires few { length octets.now < 8 }
    ensures { result ≡ little_number (length octets.now) octets.now }
{
    let count = octets.len();
    // Of the last octets those are shifted out that the first ones have already.
    if count >= 4 {
        let last = u64::from(LittleEndian::read_u32(&octets[count - 4..]));
        let behind = last >> (8 * (8 - count as u32));
        u64::from(LittleEndian::read_u32(octets)) + (behind << 32)
    } else if count >= 2 {
        let last = u64::from(LittleEndian::read_u16(&octets[count - 2..]));
        let behind = last >> (8 * (4 - count as u32));
        u64::from(LittleEndian::read_u16(octets)) + (behind << 16)
    } else {
        u64::from(octets[0])
    }
}

/// Eight octets that leave what the first `count` octets leave in a register of ones. They are fewer than eight.
fn begun(octets: &[u8], count: usize) -> u64
    requires few { count < 8 }
    requires within { count ≤ length octets.now }
    ensures { fed (low_bits 16 0) (low_bits 64 result) ≡ fed (low_bits 16 65535) (bits_of (take count octets.now)) }
{
    if count == 0 {
        return STARTS[0];
    }
    // What a word holds behind these octets is shifted out.
    let word = if octets.len() < 8 {
        short_word(octets)
    } else {
        LittleEndian::read_u64(octets)
    };
    STARTS[count] ^ (word << (64 - 8 * count as u32))
}

/// Eight octets that leave what the held ones and those behind them leave, eight at a time.
fn through_words(start: u64, octets: &[u8]) -> u64
    requires { length octets.now % 8 ≡ 0 }
    ensures { fed (low_bits 16 0) (low_bits 64 result)
        ≡ fed (fed (low_bits 16 0) (low_bits 64 start)) (bits_of octets.now) }
{
    let mut held = start;
    for eight in 0..octets.len() / 8 {
        held = folded(held) ^ LittleEndian::read_u64(&octets[8 * eight..]);
    }
    held
}

/// The same, thirty-two at a time.
fn through_blocks(start: u64, octets: &[u8]) -> u64
    requires { length octets.now % 32 ≡ 0 }
    ensures { fed (low_bits 16 0) (low_bits 64 result)
        ≡ fed (fed (low_bits 16 0) (low_bits 64 start)) (bits_of octets.now) }
{
    let mut held = Block {
        first: 0,
        second: 0,
        third: 0,
        fourth: start,
    };
    for block in 0..octets.len() / 32 {
        held = with_block(held, &octets[32 * block..]);
    }
    last_word(held)
}

/// The register that the octets leave in one of ones: fed eight octets at a time, behind those beyond a multiple of
/// that, and thirty-two at a time where sixty-four or more are left.
#[inline(never)]
fn register(octets: &[u8]) -> u16
    ensures { low_bits 16 result ≡ fed (low_bits 16 65535) (bits_of octets.now) }
{
    if octets.len() < 8 {
        return reduced(begun(octets, octets.len()));
    }
    let count = octets.len() % 8;
    let held = begun(octets, count);
    let (_, rest) = octets.split_at(count);
    if rest.len() < 64 {
        return reduced(through_words(held, rest));
    }
    let (words, blocks) = rest.split_at(rest.len() % 32);
    let start = through_words(held, words);
    reduced(through_blocks(start, blocks))
}

/// The frame check sequence of the octets.
#[inline(always)]
pub fn fcs(octets: &[u8]) -> u16
    ensures { result ≡ fcs_of octets.now }
{
    if octets.len() == 2 {
        let word = LittleEndian::read_u16(octets) ^ 0xFFFF;
        let first = left(6, (word % 256) as u8);
        return !(left(7, (word >> 8) as u8) ^ first);
    }
    !register(octets)
}

/// Whether the last two octets are the frame check sequence of the octets before them, the low octet first.
/// Fewer than two octets aren't.
pub fn check(octets: &[u8]) -> bool
    ensures sealed { IsTrue result ↔ IsSealed octets.now }
    ensures value { result ≡ is_sealed octets.now }
{
    if octets.len() < 2 {
        return false;
    }
    let (body, last) = octets.split_at(octets.len() - 2);
    LittleEndian::read_u16(last) == fcs(body)
}

/// Appends the frame check sequence of the octets to them, the low octet first.
///
/// It takes no memory where the capacity has room for two octets more. Error 70 where there is none for them; the
/// octets are as they were then.
pub fn seal(octets: &mut Vec<u8>) -> Result<(), NoMemory>
    ensures ok { OnOk result (octets.new.items ≡ octets.old.items ++ seal_of octets.old.items) }
    ensures err { OnErr result (VecUnchanged octets.old octets.new) }
    ensures room { vec_len octets.old + 2 ≤ vec_capacity octets.old → IsOk result }
{
    let mut last = [0u8; 2];
    LittleEndian::write_u16(&mut last, fcs(octets.as_slice()));
    octets.extend_from_slice(&last)?;
    Ok(())
}
