//! A line of a script read from its characters.
ghost use Rattle.std.specs.Prelude.{◌≡◌, IfSome, Option, Some, codes, option_and_then, option_map};
ghost use Rattle.x25_script.specs.ScriptLine.{PlainCommand, PlainLine, command, damage, drain, lose};
ghost use Rattle.x25_script.specs.Reading.{accept_in, after, damage_in, drain_in, line_in, lose_in, send_in, with_in};
ghost use Rattle.x25_script.specs.Reading.{GivesCommand};
ghost use Rattle.x25_script.specs.Reading.{Deliver, End, IsNotBehind, T1};
ghost use Rattle.x25_script.specs.Reading.Spelling.{Spells};

use crate::command::{accept, other_command, part, sent, split_beside};
use crate::fields::{behind, end, from, is, number, octets, split_blank, split_end};
use crate::hex_digits::HexDigits;
use crate::script_line::{Command, ScriptTaker};
use x25_bits::Role;

/// From which end a frame is lost, and its place.
#[inline(always)]
#[tactic(auto, unfolding(crate::specs::Reading::lose_in))]
fn lost(fields: &[u8]) -> Option<(Role, u16)>
    ensures { option_map (λ parts. lose parts.0 parts.1) result ≡ lose_in fields.now }
{
    let (direction, place) = split_blank(fields)?;
    Some((from(direction)?, number(place)?))
}

/// From which end a frame is damaged, its place, and what stands there then.
#[tactic(auto, unfolding(crate::specs::Reading::damage_in))]
fn damaged(fields: &[u8]) -> Option<(Role, u16, HexDigits<'_>)>
    ensures { option_map (λ parts. damage parts.0 parts.1 parts.2) result ≡ damage_in fields.now }
{
    let (direction, rest) = split_blank(fields)?;
    let (place, digits) = split_blank(rest)?;
    Some((from(direction)?, number(place)?, octets(digits)?))
}

/// How many frames arrive at most.
#[tactic(auto, unfolding(crate::specs::Reading::drain_in))]
fn at_most(fields: &[u8]) -> Option<u16>
    ensures { option_map drain result ≡ drain_in fields.now }
{
    let count = number(fields)?;
    if count == 0 {
        return None;
    }
    Some(count)
}

/// Hands a command on, where there is one.
#[inline(always)]
fn hand_command<W, T: ScriptTaker<W>>(
    end: Role,
    asked: Option<Command<'_>>,
    taker: &mut T,
    with: &mut W,
) -> T::Answer
    ensures { (read : Option PlainCommand) → GivesCommand asked.entry read
        → T.gives taker.old with.old taker.new with.new result
        (option_and_then (λ asked. Some (command end asked)) read) }
{
    match asked {
        Some(command) => taker.command(end, command, with),
        None => taker.nothing(with),
    }
}

fn read_accept<W, T: ScriptTaker<W>>(
    end: Role,
    fields: &[u8],
    taker: &mut T,
    with: &mut W,
) -> T::Answer
    ensures { T.gives taker.old with.old taker.new with.new result
        (option_and_then (λ asked. Some (command end asked)) (accept_in fields.now)) }
{
    hand_command(end, accept(fields, None), taker, with)
}

fn read_send<W, T: ScriptTaker<W>>(
    end: Role,
    fields: &[u8],
    taker: &mut T,
    with: &mut W,
) -> T::Answer
    ensures { T.gives taker.old with.old taker.new with.new result
        (option_and_then (λ asked. Some (command end asked)) (send_in fields.now)) }
{
    match sent(fields) {
        Some((channel, q, d, user)) => {
            let message = Command::Send {
                channel,
                q,
                d,
                user,
            };
            taker.command(end, message, with)
        }
        None => taker.nothing(with),
    }
}

/// Hands on what is asked of a call with something beside it.
fn read_with<W, T: ScriptTaker<W>>(
    end: Role,
    fields: &[u8],
    taker: &mut T,
    with: &mut W,
) -> T::Answer
    ensures { T.gives taker.old with.old taker.new with.new result
        (option_and_then (λ asked. Some (command end asked)) (with_in fields.now)) }
{
    match split_beside(fields) {
        Some((beside, asked)) => hand_command(end, part(asked, &beside), taker, with),
        None => taker.nothing(with),
    }
}

/// Hands on a command that neither sends nor accepts.
fn read_other<W, T: ScriptTaker<W>>(
    end: Role,
    text: &[u8],
    taker: &mut T,
    with: &mut W,
) -> T::Answer
    ensures { IsNotBehind (codes "send ") text.now → IsNotBehind (codes "accept ") text.now
        → T.gives taker.old with.old taker.new with.new result (after (End end) text.now) }
{
    if let Some(fields) = behind(text, b"with ") {
        return read_with(end, fields, taker, with);
    }
    hand_command(end, other_command(text), taker, with)
}

/// Hands on what an end is commanded, as a line has it behind the name of that end.
#[inline(never)]
pub fn read_command<W, T: ScriptTaker<W>>(
    end: Role,
    text: &[u8],
    taker: &mut T,
    with: &mut W,
) -> T::Answer
    ensures { T.gives taker.old with.old taker.new with.new result (after (End end) text.now) }
{
    if let Some(fields) = behind(text, b"send ") {
        return read_send(end, fields, taker, with);
    }
    if let Some(fields) = behind(text, b"accept ") {
        return read_accept(end, fields, taker, with);
    }
    read_other(end, text, taker, with)
}

fn read_t1<W, T: ScriptTaker<W>>(fields: &[u8], taker: &mut T, with: &mut W) -> T::Answer
    ensures { T.gives taker.old with.old taker.new with.new result (after T1 fields.now) }
{
    match end(fields) {
        Some(end) => taker.t1(end, with),
        None => taker.nothing(with),
    }
}

fn read_deliver<W, T: ScriptTaker<W>>(fields: &[u8], taker: &mut T, with: &mut W) -> T::Answer
    ensures { T.gives taker.old with.old taker.new with.new result (after Deliver fields.now) }
{
    match from(fields) {
        Some(from) => taker.deliver(from, with),
        None => taker.nothing(with),
    }
}

#[inline(always)]
fn read_lose<W, T: ScriptTaker<W>>(fields: &[u8], taker: &mut T, with: &mut W) -> T::Answer
    ensures { T.gives taker.old with.old taker.new with.new result (lose_in fields.now) }
{
    match lost(fields) {
        Some((from, place)) => taker.lose(from, place, with),
        None => taker.nothing(with),
    }
}

fn read_damage<W, T: ScriptTaker<W>>(fields: &[u8], taker: &mut T, with: &mut W) -> T::Answer
    ensures { T.gives taker.old with.old taker.new with.new result (damage_in fields.now) }
{
    match damaged(fields) {
        Some((from, place, octets)) => taker.damage(from, place, octets, with),
        None => taker.nothing(with),
    }
}

fn read_drain<W, T: ScriptTaker<W>>(fields: &[u8], taker: &mut T, with: &mut W) -> T::Answer
    ensures { T.gives taker.old with.old taker.new with.new result (drain_in fields.now) }
{
    match at_most(fields) {
        Some(count) => taker.drain(count, with),
        None => taker.nothing(with),
    }
}

/// The line, by its first word.
#[inline(always)]
fn read<W, T: ScriptTaker<W>>(line: &[u8], taker: &mut T, with: &mut W) -> T::Answer
    ensures { T.gives taker.old with.old taker.new with.new result (line_in line.now) }
{
    if let Some(fields) = behind(line, b"deliver ") {
        return read_deliver(fields, taker, with);
    }
    if let Some((end, text)) = split_end(line) {
        return read_command(end, text, taker, with);
    }
    if let Some(fields) = behind(line, b"drain ") {
        return read_drain(fields, taker, with);
    }
    if let Some(fields) = behind(line, b"t1 ") {
        return read_t1(fields, taker, with);
    }
    if let Some(fields) = behind(line, b"lose ") {
        return read_lose(fields, taker, with);
    }
    if let Some(fields) = behind(line, b"damage ") {
        return read_damage(fields, taker, with);
    }
    if is(line, "heal") {
        return taker.heal(with);
    }
    taker.nothing(with)
}

/// Reads a line of a script, its characters without a line feed: the taker does what it asks for, and answers. It takes
/// no memory itself. Profile.
///
/// A line is its fields, apart by one blank each. Nothing else stands between or around them: no carriage return, no
/// tab, no sign and no leading zero.
#[inline(always)]
pub fn read_line<W, T: ScriptTaker<W>>(line: &[u8], taker: &mut T, with: &mut W) -> T::Answer
    ensures exact { T.gives taker.old with.old taker.new with.new result (line_in line.now) }
    // What is read is spelled so.
    ensures found { (asked : Option PlainLine) × T.gives taker.old with.old taker.new with.new result asked
        × IfSome asked (λ v. Spells v line.now) }
    // What is spelled so is read.
    ensures only { (v : PlainLine) → Spells v line.now → T.gives taker.old with.old taker.new with.new result (Some v) }
{
    read(line, taker, with)
}
