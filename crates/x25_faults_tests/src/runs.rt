//! Tasks, what they are given, and what they write for that.
use std::alloc::Global;
use x25_bit_line::{Role, deframe, frame};
use x25_decode::{Reading, decode_lines};
use x25_io::{Fault, Sink, Source};
use x25_pipe::station;
use x25_records::write_records;
use x25_sim::{Cfg, Ranges, Shown, Silent, sim};

#[derive(Clone, Copy)]
pub enum Task {
    Decode,
    Sim,
    Station,
    Deframe(Role),
    Frame,
    Tabs,
}

/// A task, what it is given, what it writes for that, and its status then.
pub type Run = (Task, &'static [u8], &'static [u8], u8);

pub const DECODE: Run = (
    Task::Decode,
    b"> 013febdf\n< 01738357\n> 01001000fb00007702\nx\n> 0101\n",
    b"> SABM cmd P=1\n< UA rsp F=1\n> I cmd P=0 S=0 R=0 | RESTART cause=0 diag=0\n? 60\n\
> fault 1 short\n",
    1,
);

pub const SIM: Run = (
    Task::Sim,
    b"drain 9\nx\ndte call 1 2 -\ndte accept 1\n",
    b"dce linkup\ndte linkup\ndce restarted cause=0 diag=0\ndte restarted cause=7 diag=0\n? 60\n\
dte call ch=1 at 1.0.0 called=1 calling=2 data=-\n! 30\n",
    1,
);

pub const STATION: Run = (
    Task::Station,
    b"dte connect\nx\n< 01738357\nx\n",
    b". off busy\ndte connect\n> 013febdf\n. start busy\n? 60\n. on busy\ndte linkup\n\
> 01001000fb00007702\n. start busy\n? 60\n. on busy\n",
    1,
);

/// Seven 1 bits, and the 34 stuffed bits of a SABM between flags behind them.
pub const DEFRAME: Run = (
    Task::Deframe(Role::Dte),
    b"\x7E\x01\x5F\xFE\x7F\x7E\x01\x5F\xD6\x77\xFB\x01",
    b"# abort\n> 013febdf\n",
    0,
);

pub const FRAME: Run = (
    Task::Frame,
    b"> 013febdf\n",
    b"\x7E\x01\x5F\xD6\x77\xFB\xFD",
    0,
);

pub const TABS: Run = (
    Task::Tabs,
    b"> SABM cmd P=1\ndte linkup\n? 60\n",
    b"\t>\tSABM\tcmd P=1\t\t\t\t\n\tdte\t\t\tlinkup\t\t\t\n? 60\n",
    0,
);

const AS_WRITTEN: Reading = Reading {
    long: false,
    wide: false,
};

const USUAL: Cfg = Cfg {
    k: 7,
    n2: 10,
    channels: Ranges {
        count: 1,
        incoming: 0,
        outgoing: 0,
        message: 65_535,
    },
    long_data: false,
    say_sizes: false,
    wide: false,
};

const PLAIN: Shown = Shown {
    tap: false,
    events: false,
};

/// Does a task.
pub fn does<R: Source, W: Sink>(
    alloc: Global,
    task: Task,
    reader: &mut R,
    writer: &mut W,
) -> Result<u8, Fault> {
    match task {
        Task::Decode => decode_lines(alloc, AS_WRITTEN, false, reader, writer),
        Task::Sim => sim(alloc, false, USUAL, PLAIN, false, Silent, reader, writer),
        Task::Station => station(alloc, Role::Dte, USUAL, false, Silent, reader, writer),
        Task::Deframe(from) => deframe(alloc, from, reader, writer),
        Task::Frame => frame(alloc, false, reader, writer),
        Task::Tabs => write_records(alloc, reader, writer),
    }
}
