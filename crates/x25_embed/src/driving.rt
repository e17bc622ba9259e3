//! A station between what a program has: a line, a timer and a user.
use std::alloc::AllocError;
use thiserror::Error;
use x25_station::{Cmd, Entry, Lent, Station, StationError, Step, Timer as T1};

/// The line that leads away from a station.
pub(crate) trait Line {
    /// Sends the octets of a frame, frame check sequence included.
    fn send(&mut self, frame: &[u8]) -> Result<(), AllocError>;
}

/// Timer T1 of a station.
pub(crate) trait Timer {
    /// Begins, anew where it runs.
    fn start(&mut self);

    /// Stops, where it runs.
    fn stop(&mut self);
}

/// To whom what comes is reported.
pub(crate) trait User {
    /// Takes a notice, with what its step lends.
    fn notice(&mut self, entry: &Entry, lent: &Lent) -> Result<(), AllocError>;
}

/// What happens to a station.
#[derive(Clone, Copy)]
pub(crate) enum Event<'a> {
    /// The octets of a frame came.
    Frame(&'a [u8]),
    /// Timer T1 fired.
    Fired,
    /// The user asks for something.
    Asked(Cmd<'a>),
}

/// Why an event ends the program.
#[derive(Debug, Drop, Error)]
pub(crate) enum Trouble {
    /// The station refused the event.
    #[error("refused: {0}")]
    Refused(StationError),
    /// No memory for what was to be sent or reported.
    #[error("no memory")]
    NoMemory,
}

impl From<AllocError> for Trouble {
    fn from(_: AllocError) -> Trouble {
        Trouble::NoMemory
    }
}

fn happen(station: &mut Station, event: Event<'_>, step: &mut Step) -> Result<(), StationError> {
    match event {
        Event::Frame(octets) => {
            station.receive(octets, step);
            Ok(())
        }
        Event::Fired => station.t1(step),
        Event::Asked(command) => station.command(command, step),
    }
}

// What waits in the circuits goes, so that no message is left there while nothing is on the line.
fn pull(station: &mut Station, step: &mut Step) {
    station.pull(step);
}

// What a station answered goes on: frames to the line, notices to the user, and timer T1 is set.
fn hand_on<L: Line, T: Timer, U: User>(
    step: &Step,
    line: &mut L,
    timer: &mut T,
    user: &mut U,
) -> Result<(), AllocError> {
    for entry in step.entries.as_slice() {
        user.notice(entry, step.entries.lent())?;
    }
    for frame in step.frames.as_slice() {
        line.send(frame.as_slice())?;
    }
    match step.timer {
        T1::Off => timer.stop(),
        T1::Begins => timer.start(),
        T1::GoesOn => {}
    }
    Ok(())
}

/// Gives an event to a station, and hands on what it answers. The step is kept from event to event.
pub(crate) fn drive<L: Line, T: Timer, U: User>(
    station: &mut Station,
    step: &mut Step,
    event: Event<'_>,
    line: &mut L,
    timer: &mut T,
    user: &mut U,
) -> Result<(), Trouble> {
    if let Err(error) = happen(station, event, step) {
        return Err(Trouble::Refused(error));
    }
    pull(station, step);
    hand_on(step, line, timer, user)?;
    Ok(())
}
