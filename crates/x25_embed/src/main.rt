//! `x25_embed`: two stations in a program of its own. It has the lines between them, loses a frame, and fires timer T1;
//! then it prints what was reported to each user.
#![tactic(auto)]

mod driving;
mod in_memory;

use crate::driving::{Event, Trouble, drive};
use crate::in_memory::{Flag, Frames, Told};
use anyhow::Result;
use std::alloc::Global;
use std::io::{self, Write};
use x25_station::{Cfg, Cmd, Ranges, Role, Station, StationError, Step};

/// As many frames as a run delivers at most, each way, before it gives up.
const MOST_DELIVERIES: usize = 1_000;

const SETTINGS: Cfg = Cfg {
    k: 7,
    n2: 10,
    channels: Ranges {
        count: 1,
        incoming: 0,
        outgoing: 0,
        message: 65_535,
    },
    long_data: false,
    say_sizes: false,
    wide: false,
};

/// One end: its station, and what a program keeps beside it.
#[derive(Drop)]
struct End {
    station: Station,
    step: Step,
    out: Frames,
    timer: Flag,
    told: Told,
}

// An end is large: in a box it is let go of by one call, which is lighter for the prover.
fn boxed<T: Drop>(alloc: Global, value: T) -> Option<Box<T>> {
    Box::new(alloc, value).ok()
}

impl End {
    fn new(alloc: Global, role: Role) -> Result<Box<End>, StationError> {
        let Ok(told) = Told::new(alloc, role) else {
            return Err(StationError::NoMemory);
        };
        let end = End {
            station: Station::new(alloc, role, SETTINGS)?,
            step: Step::new(alloc)?,
            out: Frames::new(alloc),
            timer: Flag { runs: false },
            told,
        };
        boxed(alloc, end).ok_or(StationError::NoMemory)
    }

    fn happen(&mut self, event: Event<'_>) -> Result<(), Trouble> {
        drive(
            &mut self.station,
            &mut self.step,
            event,
            &mut self.out,
            &mut self.timer,
            &mut self.told,
        )
    }

    fn ask(&mut self, command: Cmd<'_>) -> Result<(), Trouble> {
        self.happen(Event::Asked(command))
    }

    /// Fires timer T1, where it runs.
    fn fire(&mut self) -> Result<(), Trouble> {
        if self.timer.runs {
            return self.happen(Event::Fired);
        }
        Ok(())
    }
}

/// Delivers the next frame of an end to the other one, and answers whether there was one.
fn deliver(from: &mut End, to: &mut End) -> Result<bool, Trouble> {
    match from.out.next() {
        Some(frame) => {
            to.happen(Event::Frame(frame.as_slice()))?;
            Ok(true)
        }
        None => Ok(false),
    }
}

/// Delivers frames, from the ends in turn, until none is under way.
fn deliver_all(dte: &mut End, dce: &mut End) -> Result<(), Trouble> {
    for _ in 0..MOST_DELIVERIES {
        let is_sent = deliver(dte, dce)?;
        let is_answered = deliver(dce, dte)?;
        if !is_sent && !is_answered {
            return Ok(());
        }
    }
    Ok(())
}

/// Sets the link up, and calls; the first frame of the call is lost, and comes again when timer T1 fires.
fn call(dte: &mut End, dce: &mut End) -> Result<(), Trouble> {
    dte.ask(Cmd::Connect)?;
    deliver_all(dte, dce)?;
    dte.ask(Cmd::Call {
        called: "123",
        calling: "4567",
        user: b"A",
        params: None,
        given: None,
    })?;
    dte.out.next();
    dte.fire()?;
    deliver_all(dte, dce)?;
    dce.ask(Cmd::Accept {
        channel: 1,
        params: None,
        given: None,
    })?;
    deliver_all(dte, dce)
}

/// Sends a message each way, and disconnects.
fn talk(dte: &mut End, dce: &mut End) -> Result<(), Trouble> {
    dte.ask(Cmd::Send {
        channel: 1,
        q: false,
        d: false,
        user: b"hello",
    })?;
    dce.ask(Cmd::Send {
        channel: 1,
        q: false,
        d: false,
        user: b"hello yourself",
    })?;
    deliver_all(dte, dce)?;
    dte.ask(Cmd::Disconnect)?;
    deliver_all(dte, dce)
}

fn play(dte: &mut End, dce: &mut End) -> Result<(), Trouble> {
    call(dte, dce)?;
    talk(dte, dce)
}

/// Writes what the users were told.
fn tell<W: Write>(dte: &Told, dce: &Told, writer: &mut W) -> io::Result<()> {
    writer.write_all(dte.text.as_slice())?;
    writer.write_all(dce.text.as_slice())
}

fn main(rt: HostRuntime) -> Result<()> {
    let alloc = rt.alloc();
    let mut dte = End::new(alloc, Role::Dte)?;
    let mut dce = End::new(alloc, Role::Dce)?;
    play(&mut dte, &mut dce)?;
    tell(&dte.told, &dce.told, &mut io::writer(&rt))?;
    Ok(())
}
