//! What the user of an end asks for.
ghost use Rattle.std.specs.Prelude.{◌≡◌, MatchOption, None, codes, option_map};
ghost use Rattle.x25_script.specs.Reading.{accept_in, bare_command_in, call_in, command_in, interrupt_in, send_in};
ghost use Rattle.x25_script.specs.Reading.{giving_on, restart_in, with_fields, GivesCommand};
ghost use Rattle.x25_script.specs.Reading.{d_in, part_in, with_in, IsNotBehind, NotReady, Ready};
ghost use Rattle.x25_script.specs.ScriptLine.{clear as command_clear, given_by, reset as command_reset, send};
ghost use Rattle.x25_script.specs.ScriptLine.{with_beside};

use crate::fields::{address, behind, is, number, octets, q, split_blank};
use crate::given::{Given, read_given, with_given};
use crate::hex_digits::HexDigits;
use crate::params::with_params;
use crate::script_line::{Beside, Command};

#[tactic(auto, unfolding(crate::specs::Reading::call_in))]
fn call<'a>(text: &'a [u8], beside: Option<&'a Beside<'a>>) -> Option<Command<'a>>
    ensures { GivesCommand result (option_map (with_beside beside.entry) (call_in text.now)) }
{
    let (called, rest) = split_blank(text)?;
    let (calling, rest) = split_blank(rest)?;
    let (user, params) = with_params(rest)?;
    Some(Command::Call {
        called: address(called)?,
        calling: address(calling)?,
        user: octets(user)?,
        params,
        beside,
    })
}

#[tactic(auto, unfolding(crate::specs::Reading::accept_in))]
pub(crate) fn accept<'a>(text: &'a [u8], beside: Option<&'a Beside<'a>>) -> Option<Command<'a>>
    ensures { GivesCommand result (option_map (with_beside beside.entry) (accept_in text.now)) }
{
    let (channel, params) = with_params(text)?;
    Some(Command::Accept {
        params,
        channel: number(channel)?,
        beside,
    })
}

/// Whether D is set, and what follows its word.
fn split_d(text: &[u8]) -> (bool, &[u8])
    ensures { (result.0, result.1.now) ≡ d_in text.now }
{
    match behind(text, b"d ") {
        Some(rest) => (true, rest),
        None => (false, text),
    }
}

/// On which channel a message is sent, Q, D, and its octets.
#[inline(always)]
#[tactic(auto, unfolding(crate::specs::Reading::send_in))]
pub(crate) fn sent(text: &[u8]) -> Option<(u16, bool, bool, HexDigits<'_>)>
    ensures { option_map (λ sent. send sent.0 sent.1 sent.2 sent.3) result ≡ send_in text.now }
{
    let (channel, rest) = split_blank(text)?;
    let (mark, rest) = split_blank(rest)?;
    let (d, user) = split_d(rest);
    Some((number(channel)?, q(mark)?, d, octets(user)?))
}

#[tactic(auto, unfolding(crate::specs::Reading::interrupt_in))]
fn interrupt(text: &[u8]) -> Option<Command<'_>>
    ensures { GivesCommand result (interrupt_in text.now) }
{
    let (channel, user) = split_blank(text)?;
    Some(Command::Interrupt {
        channel: number(channel)?,
        user: octets(user)?,
    })
}

fn clear<'a>(text: &'a [u8], beside: Option<&'a Beside<'a>>) -> Option<Command<'a>>
    ensures { GivesCommand result (option_map (with_beside beside.entry) (giving_on command_clear text.now)) }
{
    let (channel, given) = with_given(text)?;
    Some(Command::Clear {
        channel: number(channel)?,
        given,
        beside,
    })
}

fn reset(text: &[u8]) -> Option<Command<'_>>
    ensures { GivesCommand result (giving_on command_reset text.now) }
{
    let (channel, given) = with_given(text)?;
    Some(Command::Reset {
        channel: number(channel)?,
        given,
    })
}

fn restart(text: &[u8]) -> Option<Command<'_>>
    ensures { GivesCommand result (restart_in text.now) }
{
    let given = read_given(text)?;
    Some(Command::Restart { given })
}

#[tactic(auto, unfolding(crate::specs::Reading::with_fields))]
fn ready(text: &[u8]) -> Option<Command<'_>>
    ensures { GivesCommand result (with_fields Ready text.now) }
{
    let channel = number(text)?;
    Some(Command::Ready { channel })
}

#[tactic(auto, unfolding(crate::specs::Reading::with_fields))]
fn not_ready(text: &[u8]) -> Option<Command<'_>>
    ensures { GivesCommand result (with_fields NotReady text.now) }
{
    let channel = number(text)?;
    Some(Command::NotReady { channel })
}

/// What stands beside what is asked of a call, and what is asked.
#[tactic(auto, unfolding(crate::specs::Reading::with_in))]
pub(crate) fn split_beside(text: &[u8]) -> Option<(Beside<'_>, &[u8])>
    ensures { MatchOption result (with_in text.now ≡ None)
        (λ found. with_in text.now ≡ option_map (given_by found.0) (part_in found.1.now)) }
{
    let (field, rest) = split_blank(text)?;
    let (digits, rest) = split_blank(rest)?;
    let (d, asked) = split_d(rest);
    let beside = Beside {
        facilities: octets(field)?,
        user: octets(digits)?,
        d,
    };
    Some((beside, asked))
}

/// What is asked of a call with something beside it, by its first word.
pub(crate) fn part<'a>(text: &'a [u8], beside: &'a Beside<'a>) -> Option<Command<'a>>
    ensures { GivesCommand result (option_map (given_by beside.now) (part_in text.now)) }
{
    if let Some(fields) = behind(text, b"call ") {
        return call(fields, Some(beside));
    }
    if let Some(fields) = behind(text, b"accept ") {
        return accept(fields, Some(beside));
    }
    if let Some(fields) = behind(text, b"clear ") {
        return clear(fields, Some(beside));
    }
    None
}

/// A command without fields.
fn bare_command(text: &[u8]) -> Option<Command<'_>>
    ensures { GivesCommand result (bare_command_in text.now) }
{
    if is(text, "restart") {
        Some(Command::Restart {
            given: Given::nothing(),
        })
    } else if is(text, "pull") {
        Some(Command::Pull)
    } else if is(text, "connect") {
        Some(Command::Connect)
    } else if is(text, "disconnect") {
        Some(Command::Disconnect)
    } else if is(text, "probe") {
        Some(Command::Probe)
    } else if is(text, "relink") {
        Some(Command::Relink)
    } else {
        None
    }
}

/// A command that neither sends nor accepts, with nothing beside it, by its first word.
#[inline(never)]
pub(crate) fn other_command(text: &[u8]) -> Option<Command<'_>>
    ensures { IsNotBehind (codes "send ") text.now → IsNotBehind (codes "accept ") text.now
        → IsNotBehind (codes "with ") text.now → GivesCommand result (command_in text.now) }
{
    if let Some(fields) = behind(text, b"call ") {
        return call(fields, None);
    }
    if let Some(fields) = behind(text, b"int ") {
        return interrupt(fields);
    }
    if let Some(fields) = behind(text, b"reset ") {
        return reset(fields);
    }
    if let Some(fields) = behind(text, b"clear ") {
        return clear(fields, None);
    }
    if let Some(fields) = behind(text, b"ready ") {
        return ready(fields);
    }
    if let Some(fields) = behind(text, b"notready ") {
        return not_ready(fields);
    }
    if let Some(fields) = behind(text, b"restart ") {
        return restart(fields);
    }
    bare_command(text)
}
