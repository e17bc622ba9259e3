//! Commands of a script, as a station takes them.
ghost use Rattle.std.specs.Prelude.{◌≡◌, ◌≤◌, IfOk, OnOk, OnErr, length, max, option_map, take};
ghost use Rattle.x25_script.specs.ScriptLine.{part_user, plain_alone, plain_command};
ghost use Rattle.x25_given.specs.Given.{given_with, plain_given};
ghost use Rattle.x25_station.specs.Command.{command_of};
ghost use Rattle.x25_console.specs.Commands.{command_asked, given_asked, given_in, user_in};

use std::alloc::AllocError;
use x25_script::{Beside, Command, HexDigits};
use x25_station::{Cmd, Given};

/// Makes a list that has fewer octets so long. Err: no memory; the list is as it was then.
fn reserve(octets: &mut Vec<u8>, count: usize) -> Result<(), AllocError>
    ensures room { OnOk result (length octets.new.items ≡ max (length octets.old.items) count) }
    ensures unchanged { OnErr result (octets.new.items ≡ octets.old.items) }
{
    if count <= octets.len() {
        return Ok(());
    }
    octets.resize(count, 0u8)
}

/// Puts the octets that the digits write in the place of as many others, from the first on.
fn write_front(digits: &HexDigits, octets: &mut [u8])
    requires room { length digits.now ≤ length octets.old }
    ensures front { take (length digits.now) octets.new ≡ digits.now }
    ensures size { length octets.new ≡ length octets.old }
{
    digits.write_to(&mut octets[..digits.len()]);
}

/// The octets that the digits write, at the front of the list, and how many these are. Err: no memory; the list is as
/// it was then.
///
/// A list that was as long once takes none.
pub fn read_octets(digits: &HexDigits, octets: &mut Vec<u8>) -> Result<usize, AllocError>
    ensures read { IfOk result (λ count. take count octets.new.items ≡ digits.now) }
    ensures few { IfOk result (λ count. count ≤ length octets.new.items) }
    ensures memory { length octets.new.items ≤ max (length octets.old.items) (length digits.now) }
    ensures unchanged { OnErr result (octets.new.items ≡ octets.old.items) }
{
    if digits.is_empty() {
        return Ok(0);
    }
    let count = digits.len();
    reserve(octets, count)?;
    write_front(digits, octets.as_mut_slice());
    Ok(count)
}

/// Writes facilities, user data beside what is asked of a call, and the user data in it; `octets` has room for just
/// these.
fn write_parts(beside: &Beside, user: &HexDigits, octets: &mut [u8])
    requires { length octets.old ≡ length (given_in beside.now.facilities beside.now.user user.now) }
    ensures { octets.new ≡ given_in beside.now.facilities beside.now.user user.now }
{
    let (front, rest) = octets.split_at_mut(beside.facilities.len());
    beside.facilities.write_to(front);
    let (middle, last) = rest.split_at_mut(beside.user.len());
    beside.user.write_to(middle);
    user.write_to(last);
}

/// Puts these octets, so many, in the place of as many others, from the first on.
fn write_given(beside: &Beside, user: &HexDigits, count: usize, octets: &mut [u8])
    requires count { count ≡ length (given_in beside.now.facilities beside.now.user user.now) }
    requires room { count ≤ length octets.old }
    ensures front { take count octets.new ≡ given_in beside.now.facilities beside.now.user user.now }
    ensures size { length octets.new ≡ length octets.old }
{
    write_parts(beside, user, &mut octets[..count]);
}

/// These octets, at the front of the list, and how many they are. Err: no memory; the list is as it was then.
fn read_given(
    beside: &Beside,
    user: HexDigits<'_>,
    octets: &mut Vec<u8>,
) -> Result<usize, AllocError>
    ensures read { IfOk result
        (λ count. take count octets.new.items ≡ given_in beside.now.facilities beside.now.user user.entry) }
    ensures few { IfOk result (λ count. count ≤ length octets.new.items) }
    ensures memory { length octets.new.items ≤ max (length octets.old.items)
        (length (given_in beside.now.facilities beside.now.user user.entry)) }
    ensures unchanged { OnErr result (octets.new.items ≡ octets.old.items) }
{
    let Some(both) = beside.user.len().checked_add(user.len()) else {
        return Err(AllocError);
    };
    let Some(count) = beside.facilities.len().checked_add(both) else {
        return Err(AllocError);
    };
    reserve(octets, count)?;
    write_given(beside, &user, count, octets.as_mut_slice());
    Ok(count)
}

/// The octets of facilities and of user data that a command has, none where it has no such field, at the front of the
/// list, and how many these are. Err: no memory; the list is as it was then.
#[inline(always)]
pub fn read_user(command: &Command, octets: &mut Vec<u8>) -> Result<usize, AllocError>
    ensures read { IfOk result (λ count. take count octets.new.items ≡ user_in (plain_command command.now)) }
    ensures few { IfOk result (λ count. count ≤ length octets.new.items) }
    ensures memory { length octets.new.items ≤ max (length octets.old.items)
        (length (user_in (plain_command command.now))) }
    ensures unchanged { OnErr result (octets.new.items ≡ octets.old.items) }
{
    let user = command.user();
    match command.beside() {
        Some(beside) => read_given(beside, user, octets),
        None => read_octets(&user, octets),
    }
}

/// What a command gives beside its packet, of its octets of facilities and user data.
#[inline(always)]
pub fn given_beside<'a>(command: &Command, octets: &'a [u8]) -> Option<Given<'a>>
    requires { octets.now ≡ user_in (plain_command command.now) }
    ensures { option_map plain_given result ≡ given_asked (plain_command command.now) }
{
    let beside = command.beside()?;
    let (facilities, rest) = octets.split_at(beside.facilities.len());
    let (user, _) = rest.split_at(beside.user.len());
    Some(Given {
        facilities,
        user,
        d: beside.d,
    })
}

/// The user data of a command, of its octets of facilities and user data.
fn own_user<'a>(command: &Command, octets: &'a [u8]) -> &'a [u8]
    requires { octets.now ≡ user_in (plain_command command.now) }
    ensures { result.now ≡ part_user (plain_alone command.now) }
{
    let Some(beside) = command.beside() else {
        return octets;
    };
    let (_, rest) = octets.split_at(beside.facilities.len());
    let (_, own) = rest.split_at(beside.user.len());
    own
}

/// The command with its octets of facilities and user data, and with what it gives.
#[inline(always)]
pub fn station_command<'a>(
    command: &Command<'a>,
    user: &'a [u8],
    given: Option<&'a Given<'a>>,
) -> Cmd<'a>
    requires octets { user.now ≡ user_in (plain_command command.now) }
    requires given { given_with given ≡ given_asked (plain_command command.now) }
    ensures { command_of result ≡ command_asked (plain_command command.now) }
{
    match command {
        Command::Call {
            called,
            calling,
            params,
            ..
        } => Cmd::Call {
            called,
            calling,
            user: own_user(command, user),
            params: *params,
            given,
        },
        Command::Accept {
            channel,
            params,
            ..
        } => Cmd::Accept {
            channel: *channel,
            params: *params,
            given,
        },
        Command::Clear {
            channel,
            given: said,
            ..
        } => Cmd::Clear {
            channel: *channel,
            cause: said.cause.unwrap_or(0),
            diagnostic: said.diagnostic.unwrap_or(0),
            given,
        },
        Command::Send { channel, q, d, .. } => Cmd::Send {
            channel: *channel,
            q: *q,
            d: *d,
            user,
        },
        Command::Interrupt { channel, .. } => Cmd::Interrupt {
            channel: *channel,
            user,
        },
        Command::Reset { channel, given } => Cmd::Reset {
            channel: *channel,
            cause: given.cause.unwrap_or(0),
            diagnostic: given.diagnostic.unwrap_or(0),
        },
        Command::Ready { channel } => Cmd::Ready { channel: *channel },
        Command::NotReady { channel } => Cmd::NotReady { channel: *channel },
        Command::Restart { given } => Cmd::Restart {
            cause: given.cause.unwrap_or(0),
            diagnostic: given.diagnostic.unwrap_or(0),
        },
        Command::Pull => Cmd::Pull,
        Command::Connect => Cmd::Connect,
        Command::Disconnect => Cmd::Disconnect,
        Command::Probe => Cmd::Probe,
        Command::Relink => Cmd::Relink,
    }
}
