//! What is told of a step beside its entries: a line for each frame where frames are asked for, and the event.
ghost use Rattle.std.specs.Prelude.{◌≡◌, ◌≤◌, ◌+◌, ◌++◌, codes, drop, length, map};
ghost use Rattle.x25_io.specs.code.MarksFaults.{MarksFaults};
ghost use Rattle.x25_io.specs.code.Written.{TellsMore};
ghost use Rattle.x25_world.specs.World.{event_of, tapped};
ghost use Rattle.x25_world.specs.code.ShownWorld.{line_of};
ghost use Rattle.x25_sim.specs.Telling.{act_text, direction_to as direction_of, end_word as word_of};
ghost use Rattle.x25_sim.specs.Telling.{mark_line, place_text, refusal_number as number_of_refusal, sayings_text};
ghost use Rattle.x25_sim.specs.Telling.{taps};

use x25_console::tell_frame;
use x25_io::{Fault, Output, Sink};
use x25_text::{ROOM, Text};
use x25_world::{Direction, Event, Role, World, WorldError};

/// The most characters of the line of an event.
const MOST_MARK: usize = 17;

/// The number of a refusal, the station's own where the station refuses.
#[inline(always)]
pub(crate) fn refusal_number(error: WorldError) -> u8
    ensures { result ≡ number_of_refusal error }
{
    match error {
        WorldError::Station(error) => error.number(),
        _ => error.number(),
    }
}

/// Tells the frames on the line that an end put behind so many that were there before.
pub(crate) fn tell_frames<W: Sink>(
    from: Role,
    world: &World,
    direction: Direction,
    before: usize,
    output: &mut Output,
    writer: &mut W,
) -> Result<(), Fault>
    ensures tells { TellsMore result (W.contents writer.old) (W.contents writer.new) output.old output.new
        (sayings_text (map taps (tapped from (drop before (line_of world.now direction))))) }
    ensures faults { MarksFaults W.Sink writer.old writer.new result }
{
    for place in before..world.on_line(direction) {
        if let Some(octets) = world.frame(direction, place) {
            tell_frame(from, octets, output, writer)?;
        }
    }
    Ok(())
}

/// The mark of the direction that leads to an end.
fn direction_to(end: Role) -> &'static [u8]
    ensures value { result.now ≡ direction_of end }
    ensures size { length result.now ≡ 1 }
{
    match end {
        Role::Dce => b">",
        Role::Dte => b"<",
    }
}

/// The word for an end.
fn end_word(end: Role) -> &'static [u8]
    ensures value { result.now ≡ word_of end }
    ensures size { length result.now ≡ 3 }
{
    match end {
        Role::Dte => b"dte",
        Role::Dce => b"dce",
    }
}

/// Appends what an event does to a frame on its way to an end, and the place of that, 65,535 where it is greater.
fn push_place(word: &[u8], end: Role, place: usize, text: &mut Text)
    requires short { length word.now ≤ 7 }
    requires room { length text.old + 14 ≤ ROOM }
    ensures text { text.new ≡ text.old ++ (word.now ++ direction_of end ++ codes " " ++ place_text place) }
    ensures size { length text.new ≤ length text.old + 14 }
{
    text.push(word);
    text.push(direction_to(end));
    let shown = if place <= 65_535 {
        place as u16
    } else {
        65_535
    };
    text.push_number(b" ", shown);
}

/// Appends which event it was.
fn push_event(event: Event, text: &mut Text)
    requires room { length text.old + 14 ≤ ROOM }
    ensures text { text.new ≡ text.old ++ act_text (event_of event.entry).at (event_of event.entry).act }
    ensures size { length text.new ≤ length text.old + 14 }
{
    let at = event.at();
    match event {
        Event::Command(_, _) => {
            text.push(end_word(at));
            text.push(b" asks");
        }
        Event::T1(_) => {
            text.push(b"t1 ");
            text.push(end_word(at));
        }
        Event::Deliver(_) => {
            text.push(b"deliver ");
            text.push(direction_to(at));
        }
        Event::Lose(_, place) => push_place(b"lose ", at, place, text),
        Event::Damage(_, place, _) => push_place(b"damage ", at, place, text),
    }
}

/// Appends the line of an event.
#[tactic(auto, unfolding(crate::specs::Telling::mark_line))]
fn push_mark(event: Event, text: &mut Text)
    requires room { length text.old + MOST_MARK ≤ ROOM }
    ensures { text.new ≡ text.old ++ mark_line (event_of event.entry) }
{
    text.push(b". ");
    push_event(event, text);
    text.push(b"\n");
}

/// Tells an event.
pub(crate) fn tell_mark<W: Sink>(
    event: Event,
    output: &mut Output,
    writer: &mut W,
) -> Result<(), Fault>
    ensures tells { TellsMore result (W.contents writer.old) (W.contents writer.new) output.old output.new
        (mark_line (event_of event.entry)) }
    ensures faults { MarksFaults W.Sink writer.old writer.new result }
{
    output.make_room(MOST_MARK, writer)?;
    push_mark(event, output.text());
    Ok(())
}
