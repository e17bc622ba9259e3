//! Octets that come and go a few at a time.
use crate::devices::{FailingReader, FailingWriter};
use crate::runs::{DECODE, DEFRAME, FRAME, Run, SIM, STATION, TABS, Task, does};
use std::alloc::Global;
use x25_bit_line::Role;
use x25_io::Fault;

static RUNS: [Run; 16] = [
    DECODE,
    SIM,
    STATION,
    TABS,
    DEFRAME,
    // A flag, the stuffed bits of a SABM, a flag, and six 0 bits; of the other end with six 1 bits behind it.
    (
        Task::Deframe(Role::Dte),
        b"\x7E\x01\x5F\xD6\x77\xFB\x01",
        b"> 013febdf\n",
        0,
    ),
    (
        Task::Deframe(Role::Dce),
        b"\x7E\x01\x5F\xD6\x77\xFB\xFD",
        b"< 013febdf\n",
        0,
    ),
    // Flags alone, 1 bits alone, and nothing.
    (Task::Deframe(Role::Dte), b"\x7E\x7E\x7E\x7E", b"", 0),
    (Task::Deframe(Role::Dte), b"\xFF\xFF\xFF", b"", 0),
    (Task::Deframe(Role::Dte), b"", b"", 0),
    // Flags, parts of flags and runs of 1 bits.
    (
        Task::Deframe(Role::Dce),
        b"\x7E\x3F\x7E\x7E\xCB\x7E\x7E\x04\x3F\x4F\x01\x0A\x7E\x8A\xCB\x4F\x3F\xF7\xA4\x82\
\xFC\x7E\x61\xD6\x15\xFC\xFF\xFF\xFB\xFF\x7E\x63\x3F\x3F\xDD\xFC\xFC\xFC\x9B\xDA\
\xA5\x7E\x56\xFC\xFF\x7E\x19\x60\xE1\x76\x7E\xFF\x3F\xFC\xFC\x7E\x3F\x3F\x42\x3F",
        b"# short\n# short\n# short\n# short\n# short\n# short\n# short\n# abort\n# short\n# short\n\
# abort\n# abort\n< 1960e176\n# abort\n# short\n",
        0,
    ),
    FRAME,
    // Two frames, bit behind bit, and a comment; the last line has no line feed.
    (
        Task::Frame,
        b"> 013febdf\n# abort\n< 01738357",
        b"\x7E\x01\x5F\xD6\x77\xFB\xF9\x05\xCC\x0D\x5E\xF9\xFD",
        0,
    ),
    // No octets between the flags.
    (Task::Frame, b"> \n", b"\x7E\x7E", 0),
    (Task::Frame, b"", b"", 0),
    // Lines that are none of a trace.
    (
        Task::Frame,
        b"x\n> 013febdf\n\n> 7\n",
        b"\x7E\x01\x5F\xD6\x77\xFB\xFD",
        1,
    ),
];

// The status of a run, so many octets at a time, and whether it writes what is wanted.
fn runs(alloc: Global, run: &Run, most: usize) -> (Result<u8, Fault>, bool) {
    let &(task, given, told, _) = run;
    let mut reader = FailingReader::new(given, most, 1000);
    let mut writer = FailingWriter::new(Vec::new(alloc), most, 1000);
    let status = does(alloc, task, &mut reader, &mut writer);
    (status, writer.octets() == told)
}

#[test]
fn answers_in_any_pieces(rt: HostRuntime) {
    for (row, run) in RUNS.iter().enumerate() {
        for most in 1..9usize {
            let found = runs(rt.alloc(), run, most);
            assert_eq!(rt; found, (Ok(run.3), true), "row {row} by {most}");
        }
    }
}
