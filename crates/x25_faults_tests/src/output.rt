use std::test::Fail;
use x25_io::{Device, Output};

/// Lines, each a character so many times: with room behind what waits, without it, and longer than the buffer.
static LINES: [(u8, usize); 5] = [
    (b'a', 3),
    (b'b', 65_536),
    (b'c', 0),
    (b'd', 65_537),
    (b'e', 1),
];

#[test]
fn writes_what_was_told_in_order(rt: HostRuntime) -> Result<(), Fail> {
    let mut writer = Device::new(Vec::new(rt.alloc()));
    let mut output = Output::new(rt.alloc())?;
    let mut told = Vec::new(rt.alloc());
    let mut faults = 0u8;
    for &(character, count) in &LINES {
        let line = vec![in rt.alloc(); character; count]?;
        told.extend_from_slice(line.as_slice())?;
        faults |= u8::from(output.tell(line.as_slice(), &mut writer).is_err());
    }
    faults |= u8::from(output.flush(&mut writer).is_err());
    let written = writer.into_inner();
    assert_eq!(rt; (faults, written.as_slice() == told.as_slice()), (0, true));
    Ok(())
}

#[test]
fn makes_room_behind_what_waits(rt: HostRuntime) -> Result<(), Fail> {
    let mut writer = Device::new(Vec::new(rt.alloc()));
    let mut output = Output::new(rt.alloc())?;
    output.text().push(b"ab");
    let is_made = output.make_room(65_536, &mut writer).is_ok();
    assert_eq!(rt;
        (is_made, writer.into_inner().as_slice()),
        (true, b"ab".as_slice())
    );
    Ok(())
}
