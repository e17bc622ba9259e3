use x25_bits::{NoMemory, Role, Seq};

/// A number, whether it is a sequence number, what it is modulo 8, and the one after that.
static ROWS: [(u8, bool, u8, u8); 5] = [
    (0, true, 0, 1),
    (7, true, 7, 0),
    (8, false, 0, 1),
    (13, false, 5, 6),
    (255, false, 7, 0),
];

#[test]
fn counts_modulo_8(rt: HostRuntime) {
    for &(number, is_one, rest, after) in &ROWS {
        let seq = Seq::modulo(number);
        let found = (Seq::new(number).is_some(), seq.get(), seq.next().get());
        assert_eq!(rt; found, (is_one, rest, after), "at {number}");
    }
}

#[test]
fn names(rt: HostRuntime) {
    let found = (Seq::new(0), NoMemory.number(), Role::Dte.other());
    assert_eq!(rt; found, (Some(Seq::ZERO), 70, Role::Dce));
}
