//! Spans that are lent, one a call, and octets of a line.
use crate::spans::{FLAG, SABM, STUFFED, bits_of, deframer};
use std::alloc::Global;
use x25_bits::{Found, NoMemory, Span, put_octets};

fn is_sabm(span: &Option<Span<'_>>) -> bool {
    match span {
        Some(Span::Content(content)) => *content == SABM.as_slice(),
        _ => false,
    }
}

// Behind which place the call ends, and whether a SABM is lent.
fn lent(alloc: Global) -> Result<(usize, bool), NoMemory> {
    let bits = bits_of(alloc, &[FLAG, STUFFED, FLAG])?;
    let mut deframer = deframer(alloc)?;
    let (place, span) = deframer.feed_next(&bits, 0);
    Ok((place, is_sabm(&span)))
}

#[test]
fn lends_a_content(rt: HostRuntime) {
    assert_eq!(rt; lent(rt.alloc()), Ok((50, true)));
}

/// A flag, the 34 stuffed bits of a SABM, a flag, and six 0 bits; each octet lowest bit first.
static SABM_LINE: [u8; 7] = [0x7E, 0x01, 0x5F, 0xD6, 0x77, 0xFB, 0x01];

// Behind which place each of two calls ends, whether a SABM is lent, and whether anything is.
fn lent_in_turn(alloc: Global) -> Result<[(usize, bool, bool); 2], NoMemory> {
    let mut deframer = deframer(alloc)?;
    let (place, span) = deframer.feed_next_octets(&SABM_LINE, 0);
    let first = (place, is_sabm(&span), span.is_some());
    let (place, span) = deframer.feed_next_octets(&SABM_LINE, 50);
    Ok([first, (place, is_sabm(&span), span.is_some())])
}

#[test]
fn lends_a_content_of_octets(rt: HostRuntime) {
    let found = lent_in_turn(rt.alloc());
    assert_eq!(rt; found, Ok([(50, true, true), (56, false, false)]));
}

fn is_copied(alloc: Global) -> Result<bool, NoMemory> {
    match Span::Content(&SABM).copied(alloc)? {
        Found::Content(octets) => Ok(octets.as_slice() == SABM.as_slice()),
        _ => Ok(false),
    }
}

#[test]
fn copies_a_content(rt: HostRuntime) {
    assert!(rt; is_copied(rt.alloc()) == Ok(true));
}

/// The octets of the line with six 1 bits in the place of the last six.
static SABM_PUT: [u8; 7] = [0x7E, 0x01, 0x5F, 0xD6, 0x77, 0xFB, 0xFD];

fn is_put(alloc: Global) -> Result<bool, NoMemory> {
    let mut line = Vec::new(alloc);
    put_octets(&SABM, &mut line)?;
    Ok(line.as_slice() == SABM_PUT.as_slice())
}

#[test]
fn puts_octets_of_a_line(rt: HostRuntime) {
    assert!(rt; is_put(rt.alloc()) == Ok(true));
}
