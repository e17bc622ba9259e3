//! What tests of the deframer share: bits written as text, and what is found in them, told by letters and octets.
use std::alloc::Global;
use x25_bits::{Bits, Deframer, NoMemory, Span, put};

pub const FLAG: &str = "01111110";

/// The content of a SABM from the DTE, and the 34 bits that it stuffs to.
pub const SABM: [u8; 4] = [0x01, 0x3F, 0xEB, 0xDF];

pub const STUFFED: &str = "1000000011111010011010111110111011";

/// Appends the bits of a text.
pub fn push_text(text: &str, bits: &mut Bits) -> Result<(), NoMemory> {
    for digit in text.as_bytes() {
        bits.push(*digit == b'1')?;
    }
    Ok(())
}

/// The bits of these texts, one behind the other.
pub fn bits_of(alloc: Global, texts: &[&str]) -> Result<Bits, NoMemory> {
    let mut bits = Bits::new(alloc);
    for text in texts {
        push_text(text, &mut bits)?;
    }
    Ok(bits)
}

/// A content of these octets between flags.
pub fn line_of(alloc: Global, octets: &[u8]) -> Result<Bits, NoMemory> {
    let mut line = Bits::new(alloc);
    put(octets, &mut line)?;
    Ok(line)
}

// These bits from one place up to another.
fn part_of(alloc: Global, bits: &Bits, from: usize, to: usize) -> Result<Bits, NoMemory> {
    let mut part = Bits::new(alloc);
    for place in from..to {
        part.push(bits.get(place) == Some(true))?;
    }
    Ok(part)
}

// Appends the letter of a span, and behind that of a content its octets.
fn tell(span: Span, told: &mut Vec<u8>) -> Result<(), NoMemory> {
    match span {
        Span::Content(octets) => {
            told.push(b'C')?;
            told.extend_from_slice(octets)?;
        }
        Span::Abort => told.push(b'A')?,
        Span::Short => told.push(b'S')?,
        Span::Long => told.push(b'L')?,
        Span::Ragged => told.push(b'R')?,
    }
    Ok(())
}

/// Tells what calls lend of these bits until they end.
pub fn find(deframer: &mut Deframer, bits: &Bits, told: &mut Vec<u8>) -> Result<(), NoMemory> {
    let mut at = 0usize;
    for _ in 0..bits.len() {
        if at >= bits.len() {
            return Ok(());
        }
        let (place, span) = deframer.feed_next(bits, at);
        if let Some(span) = span {
            tell(span, told)?;
        }
        at = place;
    }
    Ok(())
}

/// A value in a place of its own: a body that holds the box lets go of it by one call, and not of each part of the
/// value, and so does one that doesn't know what it is.
pub fn boxed<T: Drop>(alloc: Global, value: T) -> Option<Box<T>> {
    Box::new(alloc, value).ok()
}

/// A deframer that no bits have come to.
pub fn deframer(alloc: Global) -> Result<Box<Deframer>, NoMemory> {
    boxed(alloc, Deframer::new(alloc)?).ok_or(NoMemory)
}

// Tells what is found in these bits, read in pieces of these sizes, the last size again and again.
fn find_in_pieces(
    alloc: Global,
    deframer: &mut Deframer,
    bits: &Bits,
    sizes: &[usize],
    told: &mut Vec<u8>,
) -> Result<(), NoMemory> {
    let mut from = 0usize;
    let mut size = 1usize;
    for piece in 0..bits.len() {
        if from >= bits.len() {
            return Ok(());
        }
        if let Some(next) = sizes.get(piece) {
            size = *next;
        }
        let to = usize::min(from.saturating_add(size), bits.len());
        let part = part_of(alloc, bits, from, to)?;
        find(deframer, &part, told)?;
        from = to;
    }
    Ok(())
}

/// What is told of them.
pub fn told_of(alloc: Global, bits: &Bits, sizes: &[usize]) -> Result<Vec<u8>, NoMemory> {
    let mut told = Vec::new(alloc);
    let mut deframer = deframer(alloc)?;
    find_in_pieces(alloc, &mut deframer, bits, sizes, &mut told)?;
    Ok(told)
}

/// Which of these cuts something else is told of, or none.
pub fn odd_cut(
    alloc: Global,
    bits: &Bits,
    cuts: &[&[usize]],
    wanted: &[u8],
) -> Result<Option<usize>, NoMemory> {
    for (place, sizes) in cuts.iter().enumerate() {
        let told = told_of(alloc, bits, sizes)?;
        if told.as_slice() != wanted {
            return Ok(Some(place));
        }
    }
    Ok(None)
}

/// Octets that look random.
pub fn some_octets(alloc: Global, count: usize) -> Result<Vec<u8>, NoMemory> {
    let mut octets = Vec::new(alloc);
    let mut state = 7u32;
    for _ in 0..count {
        state = state.wrapping_mul(1_664_525).wrapping_add(1_013_904_223);
        octets.push((state >> 24) as u8)?;
    }
    Ok(octets)
}

/// What is told of a content of these octets.
pub fn content(alloc: Global, octets: &[u8]) -> Result<Vec<u8>, NoMemory> {
    let mut told = Vec::new(alloc);
    tell(Span::Content(octets), &mut told)?;
    Ok(told)
}
