//! A world that is played at, and the frames on its line.
use crate::lines::Lines;
use crate::scripts::Script;
use std::alloc::{AllocError, Global};
use thiserror::Error;
use x25_station::{Cfg, Channel, Role, Station, Status, Step};
use x25_world::{Direction, Entered, Event, Healed, World, WorldError};

/// Why the player ends.
#[derive(Debug, Drop, Error)]
pub(crate) enum Trouble {
    /// A call that was refused memory changed something.
    #[error("a call that was refused memory changed something")]
    Changed,
    /// Memory was refused twice.
    #[error("no memory")]
    NoMemory,
    /// An event was refused.
    #[error("refused with {0}")]
    Refused(u8),
    /// What is shown can't be written.
    #[error("write failed")]
    Write,
}

impl From<AllocError> for Trouble {
    fn from(_: AllocError) -> Trouble {
        Trouble::NoMemory
    }
}

/// Whether an end is idle, and how it and its channel 1 stand.
type Answers = (bool, Status, Channel);

fn answers_of(station: &Station) -> Answers {
    (station.idle(), station.status(), station.channel(1))
}

/// What both ends answer, and the frames on the line.
#[derive(Drop)]
pub(crate) struct Seen {
    dte: Answers,
    dce: Answers,
    frames: Lines,
}

/// A world, and what its last event and healing tell.
#[derive(Drop)]
pub(crate) struct Worlds {
    alloc: Global,
    world: Box<World>,
    step: Step,
    healed: Vec<Entered>,
}

// The calls of a world without their claims: a body that makes one of the world's own carries all that it promises.

fn both_down(alloc: Global, cfg: Cfg) -> Option<World> {
    World::start(alloc, cfg).ok()
}

fn set_up(alloc: Global, cfg: Cfg) -> Option<World> {
    World::establish(alloc, cfg).ok()
}

fn step(world: &mut World, event: Event<'static>, out: &mut Step) -> Result<(), WorldError> {
    world.step(event, out)
}

fn heal(world: &mut World, told: &mut Vec<Entered>) -> Result<Healed, WorldError> {
    world.heal(told)
}

/// A world in a place of its own: a body that holds the box lets go of it by one call, and not of each part of it.
fn made(alloc: Global, script: &Script) -> Option<Box<World>> {
    let world = if script.is_up {
        set_up(alloc, script.cfg)?
    } else {
        both_down(alloc, script.cfg)?
    };
    match Box::new(alloc, world) {
        Ok(boxed) => Some(boxed),
        Err(refused) => Box::new(alloc, refused.value).ok(),
    }
}

/// The direction that leads away from an end.
fn away_from(end: Role) -> Direction {
    match end {
        Role::Dte => Direction::ToDce,
        Role::Dce => Direction::ToDte,
    }
}

/// The frames on the line from an end, from this place on.
fn push_frames(
    world: &World,
    from: Role,
    first: usize,
    lines: &mut Lines,
) -> Result<(), AllocError> {
    let away = away_from(from);
    for place in first..world.on_line(away) {
        if let Some(octets) = world.frame(away, place) {
            lines.push_frame(from, octets)?;
        }
    }
    Ok(())
}

/// All frames on the line.
fn push_line(world: &World, lines: &mut Lines) -> Result<(), AllocError> {
    push_frames(world, Role::Dte, 0, lines)?;
    push_frames(world, Role::Dce, 0, lines)
}

/// A step. Memory that is refused is asked for again.
fn empty_step(alloc: Global) -> Result<Step, AllocError> {
    if let Ok(step) = Step::new(alloc) {
        return Ok(step);
    }
    match Step::new(alloc) {
        Ok(step) => Ok(step),
        Err(_) => Err(AllocError),
    }
}

/// The number of a refusal, that of the station where it refuses.
fn number_of(error: WorldError) -> u8 {
    match error {
        WorldError::Station(error) => error.number(),
        error => error.number(),
    }
}

impl Worlds {
    /// The world of a script. One that is refused memory is made again. What is on its line is shown.
    pub(crate) fn new(
        alloc: Global,
        script: &Script,
        shown: &mut Lines,
    ) -> Result<Worlds, Trouble> {
        if let Some(world) = made(alloc, script) {
            return Ok(Worlds::of(alloc, world, shown)?);
        }
        shown.push_refused(if script.is_up {
            "World::establish"
        } else {
            "World::start"
        })?;
        match made(alloc, script) {
            Some(world) => Ok(Worlds::of(alloc, world, shown)?),
            None => Err(Trouble::NoMemory),
        }
    }

    fn of(alloc: Global, world: Box<World>, shown: &mut Lines) -> Result<Worlds, AllocError> {
        push_line(&world, shown)?;
        Ok(Worlds {
            alloc,
            world,
            step: empty_step(alloc)?,
            healed: Vec::new(alloc),
        })
    }

    /// Lets an event happen once, and shows what it tells and the frames that it sends. False: it was refused memory.
    pub(crate) fn happens(
        &mut self,
        event: Event<'static>,
        shown: &mut Lines,
    ) -> Result<bool, Trouble> {
        let at = event.at();
        let before = self.world.on_line(away_from(at));
        if let Err(error) = step(&mut self.world, event, &mut self.step) {
            return match number_of(error) {
                70 => Ok(false),
                number => Err(Trouble::Refused(number)),
            };
        }
        shown.push_entries(at, &self.step.entries)?;
        push_frames(&self.world, at, before, shown)?;
        Ok(true)
    }

    /// The line is good for a moment, and what is told is shown. False: it was refused memory.
    pub(crate) fn heals(&mut self, shown: &mut Lines) -> Result<bool, AllocError> {
        let is_healed = heal(&mut self.world, &mut self.healed).is_ok();
        for entered in self.healed.iter() {
            shown.push_entries(entered.at, &entered.entries)?;
        }
        Ok(is_healed)
    }

    pub(crate) fn seen(&self) -> Result<Seen, AllocError> {
        let mut frames = Lines::new(self.alloc)?;
        push_line(&self.world, &mut frames)?;
        Ok(Seen {
            dte: answers_of(self.world.station(Role::Dte)),
            dce: answers_of(self.world.station(Role::Dce)),
            frames,
        })
    }

    /// Whether an event that was refused told nothing and left all as it was.
    pub(crate) fn stands_as(&self, before: &Seen) -> Result<bool, AllocError> {
        let seen = self.seen()?;
        Ok(
            self.step.entries.is_empty()
                && seen.dte == before.dte
                && seen.dce == before.dce
                && seen.frames.as_slice() == before.frames.as_slice(),
        )
    }

    /// The direction of the next delivery of a drain.
    pub(crate) fn next_delivery(&self) -> Option<Direction> {
        if self.world.on_line(Direction::ToDce) > 0 {
            Some(Direction::ToDce)
        } else if self.world.on_line(Direction::ToDte) > 0 {
            Some(Direction::ToDte)
        } else {
            None
        }
    }
}
