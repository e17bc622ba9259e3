use std::test::Fail;
use x25_io::{Fault, exit_status};

/// Each fault, its text and its number.
static FAULTS: [(Fault, &str, u8); 3] = [
    (Fault::Read, "read failed", 61),
    (Fault::Write, "write failed", 62),
    (Fault::NoMemory, "no memory", 70),
];

#[test]
fn has_a_text_and_a_number(rt: HostRuntime) -> Result<(), Fail> {
    for &(fault, text, number) in &FAULTS {
        let told = format!(in rt.alloc(); "{fault}")?;
        assert_eq!(rt; (told.as_str(), fault.number()), (text, number));
    }
    Ok(())
}

/// What a run ends with, and the exit status for that.
static STATUSES: [(Result<u8, Fault>, u8); 5] = [
    (Ok(0), 0),
    (Ok(1), 1),
    (Err(Fault::Read), 3),
    (Err(Fault::Write), 3),
    (Err(Fault::NoMemory), 3),
];

#[test]
fn has_an_exit_status(rt: HostRuntime) {
    for (run, status) in &STATUSES {
        assert_eq!(rt; exit_status(run), *status);
    }
}
