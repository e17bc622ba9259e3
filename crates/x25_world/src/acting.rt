//! What happens at one end, and on the line to it.
ghost use Rattle.std.specs.Prelude.{◌≡◌, ◌&&◌, ◌+◌, ◌*◌, ◌≤◌, ◌++◌, ◌⊎◌, ◌<◌, [], length, max, vec_len, vec_capacity};
ghost use Rattle.std.specs.Prelude.{Err, IfErr, OnOk, OnErr};
ghost use Rattle.x25_link.specs.Station.{awaits_ua};
ghost use Rattle.x25_line.specs.laws.Stations.{is_visible};
ghost use Rattle.x25_station.specs.Command.{command_of};
ghost use Rattle.x25_station.specs.declared.config.Cfg.{Cfg};
ghost use Rattle.x25_station.specs.Config.{settings_from};
ghost use Rattle.x25_station.specs.code.FitsStation.{IsEmpty};
ghost use Rattle.x25_station.specs.Step.{commands};
ghost use Rattle.x25_world.specs.World as definition;
ghost use Rattle.x25_world.specs.World.{Happened, Declined, of_station, delivered, is_on_line, fired, on_line, lost};
ghost use Rattle.x25_world.specs.World.{damaged, acts, entered, event_of};
ghost use Rattle.x25_world.specs.code.PlainTold.{plain_told};
ghost use Rattle.x25_world.specs.code.ShownLine.{put_by, line_to, with_line_to, with_room_of, TakesFew};
ghost use Rattle.x25_world.specs.code.FitsWorld.{FitsWorld, FitsSide, IsStepOf, IsStepOfAct, HasActed, HasActedAt};
ghost use Rattle.x25_world.specs.code.ShownWorld.{shown_with};

use crate::error::WorldError;
use crate::event::Event;
use crate::line::Line;
use crate::set_up::is_on_line;
use crate::told::Entered;
use std::mem::replace;
use x25_bits::{Role, check};
use x25_link::Frames;
use x25_station::{Cmd, Entries, Station, Step};

/// The event happens at its end, or on the line to it. What it tells comes into the step, in place of what was there,
/// and its frames go on the line. Refused with the one ground that applies, 50, 51, 52, 53 or 54, or with 70; all is
/// as before then, and the step is empty.
#[inline(always)]
pub fn act_at_end(
    dte: &mut Station,
    dce: &mut Station,
    line: &mut Line,
    out: &mut Step,
    event: Event,
) -> Result<(), WorldError>
    ensures step { IsStepOfAct result out.new (event_of event.entry).act }
    ensures places { TakesFew 9 line.old line.new }
    ensures acted { (cfg : Cfg) (w : definition.World) → FitsWorld cfg (shown_with dte.old dce.old line.old) w →
        HasActedAt cfg (shown_with dte.new dce.new line.new)
        (entered (event_of event.entry).at out.new.entries.items) result w (event_of event.entry) }
{
    match event.at() {
        Role::Dte => act(Role::Dte, dte, line, out, event),
        Role::Dce => act(Role::Dce, dce, line, out, event),
    }
}

// The event happens at the end, or on the line to it. Refused with the one ground that applies, 50, 51, 52, 53 or 54,
// or with 70; all is as before then.
#[inline(always)]
fn act(
    at: Role,
    near: &mut Station,
    line: &mut Line,
    out: &mut Step,
    event: Event,
) -> Result<(), WorldError>
    ensures step { IsStepOfAct result out.new (event_of event.entry).act }
    ensures places { TakesFew 9 line.old line.new }
    ensures acted { (cfg : Cfg) (w : definition.World) → FitsSide cfg at near.old line.old w →
        HasActed cfg at near.new line.new (entered at out.new.entries.items) result w
        (acts (settings_from at cfg) w (event_of event.entry).act) }
{
    match event {
        Event::Command(_, cmd) => command(at, near, line, out, cmd),
        Event::Deliver(_) => deliver(at, near, line, out),
        Event::Lose(_, place) => {
            near.reuse(out);
            lose(at, line, place)
        }
        Event::Damage(_, place, octets) => {
            near.reuse(out);
            damage(at, line, place, octets)
        }
        Event::T1(_) => fire(at, near, line, out),
    }
}

// Refuses an event before the station does anything, which else empties the step.
fn refuse(near: &Station, step: &mut Step, error: WorldError) -> Result<(), WorldError>
    ensures empty { IsEmpty step.new }
    ensures error { result ≡ Err error }
{
    near.reuse(step);
    Err(error)
}

/// The user of the end asks for something. 53 where the station refuses it, or else 70; all is as before then.
#[inline(always)]
pub fn command(
    at: Role,
    near: &mut Station,
    line: &mut Line,
    out: &mut Step,
    cmd: Cmd,
) -> Result<(), WorldError>
    ensures step { IsStepOf result out.new 3 }
    ensures places { TakesFew 9 line.old line.new }
    ensures acted { (cfg : Cfg) (w : definition.World) → FitsSide cfg at near.old line.old w →
        HasActed cfg at near.new line.new (entered at out.new.entries.items) result w
        (of_station (settings_from at cfg) w (commands (settings_from at cfg) w.near (command_of cmd.entry))) }
{
    if line.reserve().is_err() {
        return refuse(near, out, WorldError::NoMemory);
    }
    match near.command(cmd, out) {
        Ok(()) => {
            put(at, line, &mut out.frames);
            Ok(())
        }
        Err(error) => Err(WorldError::of_station(error)),
    }
}

// The front frame on the line to the end arrives.
#[inline(always)]
fn deliver(at: Role, near: &mut Station, line: &mut Line, out: &mut Step) -> Result<(), WorldError>
    ensures step { IsStepOf result out.new 3 }
    ensures places { TakesFew 9 line.old line.new }
    ensures acted { (cfg : Cfg) (w : definition.World) → FitsSide cfg at near.old line.old w →
        HasActed cfg at near.new line.new (entered at out.new.entries.items) result w
        (delivered (settings_from at cfg) w w.back) }
{
    if line.reserve().is_err() {
        return refuse(near, out, WorldError::NoMemory);
    }
    let Some(frame) = line.take(at, 0) else {
        return refuse(near, out, WorldError::Empty);
    };
    near.receive(frame.octets.as_slice(), out);
    put(at, line, &mut out.frames);
    line.keep(frame);
    Ok(())
}

// The frames of a step come on the line, in room that there is, and none is left in it.
#[inline(always)]
fn put(at: Role, line: &mut Line, frames: &mut Frames)
    requires { length frames.old ≤ line.old.room }
    ensures empty { frames.new ≡ [] }
    ensures line { line.new ≡ put_by line.old at frames.old }
{
    for place in 0..frames.len() {
        line.put(at, frames, place);
    }
    frames.clear();
}

// Timer T1 of the end runs out, which it doesn't while UA is awaited and can still come.
#[inline(always)]
fn fire(at: Role, near: &mut Station, line: &mut Line, out: &mut Step) -> Result<(), WorldError>
    ensures step { IsStepOf result out.new 3 }
    ensures places { TakesFew 9 line.old line.new }
    ensures acted { (cfg : Cfg) (w : definition.World) → FitsSide cfg at near.old line.old w →
        HasActed cfg at near.new line.new (entered at out.new.entries.items) result w
        (fired (settings_from at cfg) w) }
{
    if awaits_frames(at, near, line) {
        return refuse(near, out, WorldError::OnLine);
    }
    if line.reserve().is_err() {
        return refuse(near, out, WorldError::NoMemory);
    }
    match near.t1(out) {
        Ok(()) => {
            put(at, line, &mut out.frames);
            Ok(())
        }
        Err(error) => Err(WorldError::of_station(error)),
    }
}

// Whether UA is awaited, and can still come by frames that are on the line.
fn awaits_frames(at: Role, near: &Station, line: &Line) -> bool
    ensures { (cfg : Cfg) (w : definition.World) → FitsSide cfg at near.now line.now w →
        result ≡ (awaits_ua w.near.link.phase && is_on_line (settings_from at cfg) w) }
{
    near.status().awaits_ua && is_on_line(at, line)
}

/// A place for what an event tells, and the entries of a step that has none: their memory takes the place of that which
/// goes with what is told.
pub fn reserve_entries(transcript: &mut Vec<Entered>) -> Result<Entries, WorldError>
    ensures room { OnOk result (vec_len transcript.new < vec_capacity transcript.new) }
    ensures items { transcript.new.items ≡ transcript.old.items }
    ensures refused { IfErr result (λ e. e ≡ WorldError.NoMemory) }
    ensures few { vec_capacity transcript.new ≤ max (vec_capacity transcript.old) (2 * vec_len transcript.old + 1) }
{
    let Ok(entries) = Entries::new(*transcript.allocator()) else {
        return Err(WorldError::NoMemory);
    };
    if transcript.len() < transcript.capacity() {
        return Ok(entries);
    }
    if transcript.reserve_exact(transcript.len().max(1)).is_err() {
        return Err(WorldError::NoMemory);
    }
    Ok(entries)
}

/// What an end told comes into the transcript, in a place that there is, where it told anything. The fresh entries take
/// the place of these.
pub fn enter(at: Role, told: &mut Entries, fresh: Entries, transcript: &mut Vec<Entered>)
    requires room { vec_len transcript.old < vec_capacity transcript.old }
    ensures entries { plain_told transcript.new.items ≡ plain_told transcript.old.items ++ entered at told.old.items }
    ensures capacity { vec_capacity transcript.new ≡ vec_capacity transcript.old }
{
    if told.is_empty() {
        return;
    }
    let entries = replace(told, fresh);
    transcript.push_reserved(Entered { at, entries });
}

// The frame at this place on the line to the end is lost.
fn lose(to: Role, line: &mut Line, place: usize) -> Result<(), WorldError>
    ensures happened { (w : definition.World) → line_to line.old to ≡ w.back
        → OnOk result (lost w place ≡ Happened (on_line w (line_to line.new to))) }
    ensures only { line.new ≡ with_line_to line.old to (line_to line.new to) }
    ensures refused { (w : definition.World) → line_to line.old to ≡ w.back
        → IfErr result (λ e. lost w place ≡ Declined e) }
    ensures kinds { IfErr result (λ e. e ≡ WorldError.NoSuchFrame) }
    ensures unchanged { OnErr result (line.new ≡ line.old) }
{
    if place >= line.len(to) {
        return Err(WorldError::NoSuchFrame);
    }
    line.remove(to, place);
    Ok(())
}

// These octets come in the place of the frame at this place on the line to the end.
fn damage(to: Role, line: &mut Line, place: usize, octets: &[u8]) -> Result<(), WorldError>
    ensures happened { (w : definition.World) → line_to line.old to ≡ w.back
        → OnOk result (damaged w place octets.now ≡ Happened (on_line w (line_to line.new to))) }
    ensures only { line.new ≡ with_line_to line.old to (line_to line.new to) }
    ensures refused { (w : definition.World) → line_to line.old to ≡ w.back
        → IfErr result (λ e. (damaged w place octets.now ≡ Declined e) ⊎ (e ≡ WorldError.NoMemory)) }
    ensures unchanged { OnErr result (line.new ≡ line.old) }
{
    if place >= line.len(to) {
        return Err(WorldError::NoSuchFrame);
    }
    if !shows(octets) {
        return Err(WorldError::Unseen);
    }
    if line.replace(to, place, octets).is_err() {
        return Err(WorldError::NoMemory);
    }
    Ok(())
}

// Whether damage that leaves these octets is visible.
fn shows(octets: &[u8]) -> bool
    ensures { result ≡ is_visible octets.now }
{
    octets.len() < 4 || !check(octets)
}
