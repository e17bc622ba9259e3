//! A read or a write that fails: it is told, and what was written is a beginning of all.
use crate::devices::{FailingReader, FailingWriter};
use crate::runs::{DECODE, DEFRAME, FRAME, Run, SIM, STATION, TABS, does};
use std::alloc::Global;
use x25_io::{Device, Fault};

/// What a run ends with: the fault, where the failing call comes, and else its status.
fn wanted(has_failed: bool, fault: Fault, run: &Run) -> Result<u8, Fault> {
    if has_failed { Err(fault) } else { Ok(run.3) }
}

/// A run, the most octets of a read, how many calls read what is given, the one at its end among them, and before how
/// many nothing is written.
static READS: [(Run, usize, usize, usize); 4] = [
    (DECODE, 7, 9, 2),
    (SIM, 7, 7, 0),
    (STATION, 7, 5, 0),
    (DEFRAME, 3, 5, 2),
];

// What a run ends with whose read fails that has so many before it, whether it wrote a beginning, and whether nothing.
fn reads(alloc: Global, run: &Run, most: usize, before: usize) -> (Result<u8, Fault>, bool, bool) {
    let &(task, given, told, _) = run;
    let mut reader = FailingReader::new(given, most, before);
    let mut writer = FailingWriter::new(Vec::new(alloc), 1000, 1000);
    let status = does(alloc, task, &mut reader, &mut writer);
    let written = writer.octets();
    (status, told.starts_with(written), written.is_empty())
}

#[test]
fn tells_the_read_that_fails(rt: HostRuntime) {
    for (row, &(run, most, calls, quiet)) in READS.iter().enumerate() {
        for before in 0..12usize {
            let status = wanted(before < calls, Fault::Read, &run);
            let found = reads(rt.alloc(), &run, most, before);
            assert_eq!(rt;
                found,
                (status, true, before < quiet),
                "row {row} at {before}"
            );
        }
    }
}

/// Runs that write what they tell in one block, the most octets of a write, and how many octets it has.
static WRITES: [(Run, usize); 4] = [(DECODE, 9), (SIM, 9), (FRAME, 3), (TABS, 9)];

// What a run ends with whose write fails that has so many before it, whether it wrote a beginning, and how many octets.
fn writes(
    alloc: Global,
    run: &Run,
    most: usize,
    before: usize,
) -> (Result<u8, Fault>, bool, usize) {
    let &(task, given, told, _) = run;
    let mut reader = FailingReader::new(given, 1000, 1000);
    let mut writer = FailingWriter::new(Vec::new(alloc), most, before);
    let status = does(alloc, task, &mut reader, &mut writer);
    let written = writer.octets();
    (status, told.starts_with(written), written.len())
}

#[test]
fn tells_the_write_that_fails(rt: HostRuntime) {
    for (row, &(run, most)) in WRITES.iter().enumerate() {
        for before in 0..19usize {
            let count = run.2.len().min(most.saturating_mul(before));
            let status = wanted(count < run.2.len(), Fault::Write, &run);
            let found = writes(rt.alloc(), &run, most, before);
            assert_eq!(rt; found, (status, true, count), "row {row} at {before}");
        }
    }
}

// A station writes its lines event by event.
#[test]
fn tells_the_write_of_a_station_that_fails(rt: HostRuntime) {
    for before in 0..40usize {
        let (status, is_beginning, count) = writes(rt.alloc(), &STATION, 9, before);
        let wanted = wanted(count < STATION.2.len(), Fault::Write, &STATION);
        assert_eq!(rt; (status, is_beginning), (wanted, true), "at {before}");
    }
}

// The same of devices that remember a fault.

fn reads_of_a_device(alloc: Global, before: usize) -> (Result<u8, Fault>, bool) {
    let (task, given, told, _) = DECODE;
    let mut reader = Device::new(FailingReader::new(given, 7, before));
    let mut writer = Device::new(Vec::new(alloc));
    let status = does(alloc, task, &mut reader, &mut writer);
    (status, told.starts_with(writer.into_inner().as_slice()))
}

fn writes_of_a_device(alloc: Global, before: usize) -> (Result<u8, Fault>, bool, usize) {
    let (task, given, told, _) = DECODE;
    let mut reader = Device::new(given);
    let mut writer = Device::new(FailingWriter::new(Vec::new(alloc), 9, before));
    let status = does(alloc, task, &mut reader, &mut writer);
    let written = writer.into_inner();
    (
        status,
        told.starts_with(written.octets()),
        written.octets().len(),
    )
}

#[test]
fn tells_the_call_of_a_device_that_fails(rt: HostRuntime) {
    let told = DECODE.2.len();
    for before in 0..14usize {
        let count = told.min(9 * before);
        let read = (wanted(before < 9, Fault::Read, &DECODE), true);
        let written = (wanted(count < told, Fault::Write, &DECODE), true, count);
        let found = (
            reads_of_a_device(rt.alloc(), before),
            writes_of_a_device(rt.alloc(), before),
        );
        assert_eq!(rt; found, (read, written), "at {before}");
    }
}
