//! Spans found in bits that come in any cut.
use crate::spans::{
    FLAG, SABM, STUFFED, bits_of, content, line_of, odd_cut, push_text, some_octets, told_of,
};
use std::alloc::Global;
use x25_bits::{Bits, NoMemory, put};

fn same(first: &Bits, second: &Bits) -> bool {
    for place in 0..=first.len() {
        if first.get(place) != second.get(place) {
            return false;
        }
    }
    true
}

// How many bits a SABM is put as, and whether these are they.
fn stuffed(alloc: Global) -> Result<(usize, bool), NoMemory> {
    let line = line_of(alloc, &SABM)?;
    let wanted = bits_of(alloc, &[FLAG, STUFFED, FLAG])?;
    Ok((line.len(), same(&line, &wanted)))
}

#[test]
fn stuffs_a_content(rt: HostRuntime) {
    assert_eq!(rt; stuffed(rt.alloc()), Ok((50, true)));
    assert!(rt; Bits::new(rt.alloc()).is_empty());
}

/// Bits, and what is found in them.
static ROWS: [(&[&str], &[u8]); 8] = [
    (&["0111111001111110"], b""),
    (&["011111101111110"], b""),
    (&[FLAG, "11111110", FLAG], b"A"),
    (&[FLAG, "1111111", FLAG], b"A"),
    (&[FLAG, "00011111", FLAG], b"R"),
    (&[FLAG, "000000000000000000000000", FLAG], b"S"),
    (&[FLAG, "000000000000000000000000000000000", FLAG], b"R"),
    (&[FLAG, STUFFED, FLAG], b"C\x01\x3F\xEB\xDF"),
];

// The pieces of 4 cut a flag in two; by the last both flags of a SABM are cut, and the bits between them are one piece.
static CUTS: [&[usize]; 5] = [&[1], &[4], &[8], &[50], &[4, 4, 34, 5, 3]];

fn odd_cut_of_texts(
    alloc: Global,
    texts: &[&str],
    wanted: &[u8],
) -> Result<Option<usize>, NoMemory> {
    let bits = bits_of(alloc, texts)?;
    odd_cut(alloc, &bits, CUTS.as_slice(), wanted)
}

#[test]
fn classes_spans(rt: HostRuntime) {
    for &(texts, wanted) in &ROWS {
        let odd = odd_cut_of_texts(rt.alloc(), texts, wanted);
        assert_eq!(rt; odd, Ok(None), "{texts:?}");
    }
}

// How often an octet is among these.
fn count_of(octets: &[u8], wanted: u8) -> usize {
    let mut count = 0usize;
    for octet in octets {
        count = count.saturating_add(usize::from(*octet == wanted));
    }
    count
}

/// How many 0 octets stand between flags; how many octets are told of them, of these 0, and that it is too long.
static LONGEST: [(usize, (usize, usize, usize)); 2] = [(4103, (4104, 4103, 0)), (4104, (1, 0, 1))];

fn told_of_zeros(alloc: Global, count: usize) -> Result<(usize, usize, usize), NoMemory> {
    let zeros = vec![in alloc; 0u8; count]?;
    let line = line_of(alloc, zeros.as_slice())?;
    let told = told_of(alloc, &line, &[40_000])?;
    let told = told.as_slice();
    Ok((told.len(), count_of(told, 0), count_of(told, b'L')))
}

#[test]
fn bounds_a_content(rt: HostRuntime) {
    for &(count, wanted) in &LONGEST {
        assert_eq!(rt; told_of_zeros(rt.alloc(), count), Ok(wanted), "{count}");
    }
}

fn is_found_in_cut(
    alloc: Global,
    line: &Bits,
    cut: usize,
    wanted: &[u8],
) -> Result<bool, NoMemory> {
    let (each, two) = ([cut], [cut, line.len()]);
    let odd = odd_cut(alloc, line, &[each.as_slice(), two.as_slice()], wanted)?;
    Ok(odd.is_none())
}

// The first place at which a short content that is cut there isn't found, or in pieces of that size.
fn odd_place(alloc: Global) -> Result<Option<usize>, NoMemory> {
    let octets = some_octets(alloc, 12)?;
    let line = line_of(alloc, octets.as_slice())?;
    let wanted = content(alloc, octets.as_slice())?;
    for cut in 1..line.len() {
        if !is_found_in_cut(alloc, &line, cut, wanted.as_slice())? {
            return Ok(Some(cut));
        }
    }
    Ok(None)
}

#[test]
fn finds_in_each_cut(rt: HostRuntime) {
    assert_eq!(rt; odd_place(rt.alloc()), Ok(None));
}

static SIZES: [&[usize]; 7] = [&[1], &[7], &[8], &[9], &[64], &[1000], &[40_000]];

fn odd_cut_of_length(alloc: Global, length: usize) -> Result<Option<usize>, NoMemory> {
    let octets = some_octets(alloc, length)?;
    let line = line_of(alloc, octets.as_slice())?;
    let wanted = content(alloc, octets.as_slice())?;
    odd_cut(alloc, &line, SIZES.as_slice(), wanted.as_slice())
}

// Contents of many lengths up to the longest are found in pieces of several sizes, and as a whole.
#[test]
fn finds_each_length(rt: HostRuntime) {
    for step in 0..93usize {
        let length = usize::min(4 + 45 * step, 4103);
        assert_eq!(rt; odd_cut_of_length(rt.alloc(), length), Ok(None), "{length}");
    }
}

// Contents with stray bits between them.
fn contents_and_stray_bits(alloc: Global) -> Result<Bits, NoMemory> {
    let octets = some_octets(alloc, 400)?;
    let mut line = Bits::new(alloc);
    for part in octets.as_slice().chunks(9) {
        put(part, &mut line)?;
        for octet in part {
            line.push(*octet % 5 != 0)?;
        }
    }
    Ok(line)
}

// How many octets are told of a line read bit by bit, how many of them are the letter of a content, and in which of
// these cuts something else is told.
fn told_alike(
    alloc: Global,
    line: &Bits,
    cuts: &[&[usize]],
) -> Result<(usize, usize, Option<usize>), NoMemory> {
    let wanted = told_of(alloc, line, &[1])?;
    let odd = odd_cut(alloc, line, cuts, wanted.as_slice())?;
    Ok((wanted.len(), count_of(wanted.as_slice(), b'C'), odd))
}

static STRAY_CUTS: [&[usize]; 8] = [&[2], &[3], &[5], &[8], &[13], &[64], &[501], &[10_000]];

fn told_of_stray_bits(alloc: Global) -> Result<(usize, usize, Option<usize>), NoMemory> {
    let line = contents_and_stray_bits(alloc)?;
    told_alike(alloc, &line, STRAY_CUTS.as_slice())
}

// The 400 octets of 45 contents, and the letters of more than 60 spans.
#[test]
fn finds_the_same_in_any_cut(rt: HostRuntime) {
    let found = told_of_stray_bits(rt.alloc());
    assert!(rt; matches!(found, Ok((461.., 45.., None))));
}

/// What comes behind the flags of an idle line before the next frame.
static STRAYS: [&str; 6] = ["", "0", "1", "011", "0111111", "11111111111111111111111111"];

// As many bits as it takes to begin at this place of an octet, and thirty flags.
fn push_idle(place: usize, line: &mut Bits) -> Result<(), NoMemory> {
    for _ in 0..8u8 {
        if line.len() % 8 != place {
            line.push(false)?;
        }
    }
    for _ in 0..30u8 {
        push_text(FLAG, line)?;
    }
    Ok(())
}

// For each place and each of those, a frame, flags from that place on, the stray bits and a frame.
fn idle_line(alloc: Global) -> Result<Bits, NoMemory> {
    let mut line = Bits::new(alloc);
    for place in 0..8usize {
        for text in &STRAYS {
            put(&SABM, &mut line)?;
            push_idle(place, &mut line)?;
            push_text(text, &mut line)?;
            put(&SABM, &mut line)?;
        }
    }
    Ok(line)
}

static IDLE_CUTS: [&[usize]; 5] = [&[5], &[8], &[24], &[137], &[100_000]];

fn told_of_idle_line(alloc: Global) -> Result<(usize, usize, Option<usize>), NoMemory> {
    let line = idle_line(alloc)?;
    told_alike(alloc, &line, IDLE_CUTS.as_slice())
}

#[test]
fn finds_the_same_on_an_idle_line(rt: HostRuntime) {
    let found = told_of_idle_line(rt.alloc());
    assert!(rt; matches!(found, Ok((_, 96, None))));
}
