use std::alloc::Global;
use x25_bits::{NoMemory, check, fcs, seal};

/// Octets, and whether the last two of them are the frame check sequence of the others.
static ROWS: [(&[u8], bool); 4] = [
    (&[0x01, 0x3F, 0xEB, 0xDF], true),
    (&[0x01, 0x3F, 0xEB, 0xDE], false),
    (&[0, 0], true),
    (&[0], false),
];

#[test]
fn checks(rt: HostRuntime) {
    for &(octets, is_sealed) in &ROWS {
        assert_eq!(rt; check(octets), is_sealed, "{octets:?}");
    }
    // The check value of this code, CRC-16/X-25.
    assert_eq!(rt; fcs(b"123456789"), 0x906E);
}

fn is_sealed(alloc: Global) -> Result<bool, NoMemory> {
    let mut octets = [0x01, 0x3F].to_vec(alloc)?;
    seal(&mut octets)?;
    Ok(octets.as_slice() == [0x01, 0x3F, 0xEB, 0xDF].as_slice())
}

#[test]
fn seals(rt: HostRuntime) {
    assert!(rt; is_sealed(rt.alloc()) == Ok(true));
}
