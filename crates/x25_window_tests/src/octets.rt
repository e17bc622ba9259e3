use std::alloc::{AllocError, Global};
use x25_bits::{append_octets, with_octets};

fn appends(alloc: Global) -> Result<bool, AllocError> {
    let mut octets = with_octets(Vec::with_capacity(alloc, 3)?, &[0x01]);
    append_octets(&mut octets, &[0x3F, 0xE1]);
    Ok(octets.as_slice() == [0x01, 0x3F, 0xE1].as_slice())
}

#[test]
fn appends_octets(rt: HostRuntime) {
    assert!(rt; appends(rt.alloc()) == Ok(true));
}
