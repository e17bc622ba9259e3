use crate::spans::{FLAG, SABM, STUFFED, bits_of};
use std::alloc::Global;
use x25_bits::{NoMemory, first_content, harmless};

/// The bits of a SABM with the last bit 0.
const DAMAGED: &str = "1000000011111010011010111110111010";

/// Bits in the place of those between the flags of a frame, whether they are harmless, and their first content.
static ROWS: [(&[&str], bool, &[u8]); 6] = [
    (&[STUFFED], false, &SABM),
    (&[DAMAGED], true, &[0x01, 0x3F, 0xEB, 0x5F]),
    (&["1111111"], true, &[]),
    (&[], true, &[]),
    (&[STUFFED, FLAG, "1"], false, &SABM),
    (&["1", FLAG, STUFFED], false, &SABM),
];

// Whether these bits are harmless, and whether this is their first content.
fn told(alloc: Global, texts: &[&str], content: &[u8]) -> Result<(bool, bool), NoMemory> {
    let bits = bits_of(alloc, texts)?;
    let first = first_content(&bits)?;
    Ok((harmless(&bits)?, first.as_slice() == content))
}

#[test]
fn tells_harmless_bits(rt: HostRuntime) {
    for &(texts, is_harmless, content) in &ROWS {
        let found = told(rt.alloc(), texts, content);
        assert_eq!(rt; found, Ok((is_harmless, true)), "{texts:?}");
    }
}
