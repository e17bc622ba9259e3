//! A switch of two lines, each with a user whose station is the DTE, over lines that lose nothing.

use std::alloc::{AllocError, Global};
use x25_station::{Cfg, Cmd, Entry, Ranges, Role, Station, StationError, Step, Told};
use x25_switch::{Round, Switch};

/// One channel.
const SETTINGS: Cfg = Cfg {
    k: 7,
    n2: 1,
    channels: Ranges {
        count: 1,
        incoming: 0,
        outgoing: 0,
        message: 65_535,
    },
    long_data: false,
    say_sizes: false,
    wide: false,
};

/// A line: the station of its user, and that of the switch.
#[derive(Drop)]
pub struct Line {
    user: Box<Station>,
    inner: Box<Station>,
}

/// A frame under way, to the switch or from it.
#[derive(Drop)]
struct Frame {
    line: u8,
    is_up: bool,
    octets: Vec<u8>,
}

#[derive(Drop)]
pub struct Net {
    near: Line,
    far: Line,
    switch: Box<Switch>,
    step: Box<Step>,
    frames: Vec<Frame>,
    /// What users were told: 1 of a call that comes, 2 connected, 3 a message, 4 cleared, and 16 more by line 1.
    pub log: Vec<u8>,
    alloc: Global,
}

// A value in a place of its own: a body that holds the box lets go of it by one call.
fn boxed<T: Drop>(alloc: Global, value: T) -> Option<Box<T>> {
    Box::new(alloc, value).ok()
}

fn station(alloc: Global, role: Role) -> Option<Box<Station>> {
    boxed(alloc, Station::new(alloc, role, SETTINGS).ok()?)
}

fn step(alloc: Global) -> Option<Box<Step>> {
    boxed(alloc, Step::new(alloc).ok()?)
}

// Two lines, and at most two calls.
fn switch(alloc: Global) -> Option<Box<Switch>> {
    boxed(alloc, Switch::new(alloc, 2, 2, 100_000).ok()?)
}

fn new_line(alloc: Global) -> Option<Line> {
    Some(Line {
        user: station(alloc, Role::Dte)?,
        inner: station(alloc, Role::Dce)?,
    })
}

// The calls without their claims: a body that makes one itself carries all that it promises.
fn command(station: &mut Station, command: Cmd<'_>, step: &mut Step) -> Result<(), StationError> {
    station.command(command, step)
}

fn receive(station: &mut Station, octets: &[u8], step: &mut Step) {
    station.receive(octets, step);
}

fn ask(
    switch: &mut Switch,
    round: &mut Round,
    station: &mut Station,
    step: &mut Step,
) -> Option<Result<(), StationError>> {
    switch.ask(round, Role::Dce, station, step)
}

fn heed(switch: &mut Switch, line: u8, station: &Station, step: &Step) {
    switch.heed(line, station, step);
}

fn post(
    frames: &mut Vec<Frame>,
    alloc: Global,
    line: u8,
    is_up: bool,
    step: &Step,
) -> Result<(), AllocError> {
    for octets in step.frames.as_slice() {
        let octets = Vec::from_slice(alloc, octets)?;
        frames.push(Frame {
            line,
            is_up,
            octets,
        })?;
    }
    Ok(())
}

// The switch asks the station of a line for all that is wanted there.
fn ask_all(
    switch: &mut Switch,
    line: u8,
    station: &mut Station,
    step: &mut Step,
    frames: &mut Vec<Frame>,
    alloc: Global,
) -> Result<(), AllocError> {
    let mut round = Round::new(line);
    for _ in 0..32 {
        if ask(switch, &mut round, station, step).is_none() {
            break;
        }
        post(frames, alloc, line, false, step)?;
        heed(switch, line, station, step);
    }
    let _ = command(station, Cmd::Pull, step);
    post(frames, alloc, line, false, step)
}

fn kind(entry: &Entry) -> Option<u8> {
    match entry {
        Entry::Told { told, .. } => match told {
            Told::Incoming { .. } => Some(1),
            Told::Connected { .. } => Some(2),
            Told::Delivered { .. } => Some(3),
            Told::Cleared { .. } => Some(4),
            _ => None,
        },
        _ => None,
    }
}

fn note(log: &mut Vec<u8>, line: u8, step: &Step) -> Result<(), AllocError> {
    for entry in step.entries.as_slice() {
        if let Some(kind) = kind(entry) {
            log.push(if line == 0 { kind } else { 0x10 | kind })?;
        }
    }
    Ok(())
}

fn user_asks(
    at: &mut Line,
    line: u8,
    asked: Cmd<'_>,
    step: &mut Step,
    frames: &mut Vec<Frame>,
    alloc: Global,
) -> Option<()> {
    command(&mut at.user, asked, step).ok()?;
    post(frames, alloc, line, true, step).ok()?;
    let _ = command(&mut at.user, Cmd::Pull, step);
    post(frames, alloc, line, true, step).ok()
}

fn comes_up(
    at: &mut Line,
    line: u8,
    octets: &[u8],
    switch: &mut Switch,
    step: &mut Step,
    frames: &mut Vec<Frame>,
    alloc: Global,
) -> Result<(), AllocError> {
    receive(&mut at.inner, octets, step);
    post(frames, alloc, line, false, step)?;
    heed(switch, line, &at.inner, step);
    Ok(())
}

fn comes_down(
    at: &mut Line,
    line: u8,
    octets: &[u8],
    log: &mut Vec<u8>,
    step: &mut Step,
    frames: &mut Vec<Frame>,
    alloc: Global,
) -> Result<(), AllocError> {
    receive(&mut at.user, octets, step);
    note(log, line, step)?;
    post(frames, alloc, line, true, step)?;
    let _ = command(&mut at.user, Cmd::Pull, step);
    post(frames, alloc, line, true, step)
}

impl Net {
    pub fn new(alloc: Global) -> Option<Net> {
        Some(Net {
            near: new_line(alloc)?,
            far: new_line(alloc)?,
            switch: switch(alloc)?,
            step: step(alloc)?,
            frames: Vec::new(alloc),
            log: Vec::new(alloc),
            alloc,
        })
    }

    /// A route, by the number of its refusal or else 0.
    pub fn route(&mut self, prefix: &[u8], lines: &[u8]) -> u8 {
        match self.switch.routes().route(prefix, prefix, lines) {
            Ok(()) => 0,
            Err(error) => error.number(),
        }
    }

    pub fn calls(&self) -> usize {
        self.switch.calls()
    }

    pub fn linger(&mut self) {
        self.switch.linger();
    }

    /// A user asks, and all comes that follows.
    pub fn user(&mut self, line: u8, asked: Cmd<'_>) -> Option<()> {
        let (step, frames) = (&mut self.step, &mut self.frames);
        if line == 0 {
            user_asks(&mut self.near, line, asked, step, frames, self.alloc)?;
        } else {
            user_asks(&mut self.far, line, asked, step, frames, self.alloc)?;
        }
        self.run()
    }

    fn run(&mut self) -> Option<()> {
        for _ in 0..200 {
            if self.frames.is_empty() {
                return Some(());
            }
            let frame = self.frames.remove(0);
            if frame.is_up {
                self.come_up(frame.line, frame.octets.as_slice()).ok()?;
            } else {
                self.come_down(frame.line, frame.octets.as_slice()).ok()?;
            }
        }
        None
    }

    fn come_up(&mut self, line: u8, octets: &[u8]) -> Result<(), AllocError> {
        let (step, frames) = (&mut self.step, &mut self.frames);
        let switch = &mut self.switch;
        if line == 0 {
            comes_up(
                &mut self.near,
                line,
                octets,
                switch,
                step,
                frames,
                self.alloc,
            )?;
        } else {
            comes_up(
                &mut self.far,
                line,
                octets,
                switch,
                step,
                frames,
                self.alloc,
            )?;
        }
        self.ask_both()
    }

    fn ask_both(&mut self) -> Result<(), AllocError> {
        ask_all(
            &mut self.switch,
            0,
            &mut self.near.inner,
            &mut self.step,
            &mut self.frames,
            self.alloc,
        )?;
        ask_all(
            &mut self.switch,
            1,
            &mut self.far.inner,
            &mut self.step,
            &mut self.frames,
            self.alloc,
        )
    }

    fn come_down(&mut self, line: u8, octets: &[u8]) -> Result<(), AllocError> {
        let (step, frames) = (&mut self.step, &mut self.frames);
        let log = &mut self.log;
        if line == 0 {
            comes_down(&mut self.near, line, octets, log, step, frames, self.alloc)
        } else {
            comes_down(&mut self.far, line, octets, log, step, frames, self.alloc)
        }
    }
}
