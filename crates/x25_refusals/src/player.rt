//! Plays scripts at a world. A call that is refused memory has to leave all as it was, and is then made again.
use crate::lines::Lines;
use crate::scripts::Act;
use crate::worlds::{Trouble, Worlds};
use x25_station::Cmd;
use x25_world::{Direction, Event};

/// As many frames as a drain delivers at most.
const MOST_DELIVERIES: u8 = 100;

/// The name of the call that an event is.
fn name_of(event: Event<'_>) -> &'static str {
    match event {
        Event::Command(_, command) => name_of_command(command),
        Event::Deliver(_) => "World::step(Deliver)",
        Event::Lose(_, _) => "World::step(Lose)",
        Event::Damage(_, _, _) => "World::step(Damage)",
        Event::T1(_) => "World::step(T1)",
    }
}

/// The same of a command.
fn name_of_command(command: Cmd<'_>) -> &'static str {
    match command {
        Cmd::Call { given: Some(_), .. } | Cmd::Accept { given: Some(_), .. } => {
            "World::step with something given"
        }
        Cmd::Call { params: None, .. } => "World::step(Call)",
        Cmd::Call { .. } => "World::step(Call) with sizes",
        Cmd::Accept { params: None, .. } => "World::step(Accept)",
        Cmd::Accept { .. } => "World::step(Accept) with sizes",
        Cmd::Send { .. } => "World::step(Send)",
        Cmd::Connect => "World::step(Connect)",
        _ => "World::step of another command",
    }
}

fn happens(world: &mut Worlds, event: Event<'static>, shown: &mut Lines) -> Result<(), Trouble> {
    let before = world.seen()?;
    if world.happens(event, shown)? {
        return Ok(());
    }
    shown.push_refused(name_of(event))?;
    if !world.stands_as(&before)? {
        return Err(Trouble::Changed);
    }
    if world.happens(event, shown)? {
        Ok(())
    } else {
        Err(Trouble::NoMemory)
    }
}

fn drains(world: &mut Worlds, shown: &mut Lines) -> Result<(), Trouble> {
    for _ in 0..MOST_DELIVERIES {
        let Some(direction) = world.next_delivery() else {
            return Ok(());
        };
        happens(world, Event::Deliver(direction), shown)?;
    }
    Ok(())
}

/// The line is good for a moment. Where memory is refused, what was told stands, and the line is good again.
fn heals(world: &mut Worlds, shown: &mut Lines) -> Result<(), Trouble> {
    if world.heals(shown)? {
        return Ok(());
    }
    shown.push_refused("World::heal")?;
    if world.heals(shown)? {
        Ok(())
    } else {
        Err(Trouble::NoMemory)
    }
}

/// Plays what a script says.
pub(crate) fn plays(world: &mut Worlds, acts: &[Act], shown: &mut Lines) -> Result<(), Trouble> {
    for act in acts {
        match *act {
            Act::Do(event) => happens(world, event, shown)?,
            Act::Drain => drains(world, shown)?,
            Act::Heal => heals(world, shown)?,
        }
    }
    Ok(())
}
