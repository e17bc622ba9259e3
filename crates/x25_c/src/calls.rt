//! Calls that let something happen to a station, and leave their answer in it.
ghost use Rattle.std.specs.Prelude.{◌≡◌, ◌≢◌, IfSome, IfNone, true, unwrap_or};
ghost use Rattle.x25_given.specs.Given.{given_with};
ghost use Rattle.x25_circuit.specs.Calling.{Accepts, Clears, Interrupts, Resets, SaysNotReady, SaysReady, Sends};
ghost use Rattle.x25_circuit.specs.Params.{default_params, in_brief};
ghost use Rattle.x25_layer.specs.Calls.{Asks as OnChannel, Dials, PullsAll, Restarts};
ghost use Rattle.x25_packet.specs.Marks.{with_q};
ghost use Rattle.x25_script.specs.Reading.{command_in};
ghost use Rattle.x25_station.specs.Command.{Connects, Disconnects, Probes, Relinks, Requests, answer_in_brief};
ghost use Rattle.x25_station.specs.Command.{command_of, requesting};
ghost use Rattle.x25_station.specs.laws.TimerLaw.{Asks, Comes, Fires};
ghost use Rattle.x25_c.specs.Dialing.{dialed};
ghost use Rattle.x25_c.specs.Given.{asked_with};
ghost use Rattle.x25_c.specs.Held.{channel_of};
ghost use Rattle.x25_c.specs.Sizes.{params_in};
ghost use Rattle.x25_c.specs.Slot.{Answers, AnswersAll, Commands};

use crate::dialing::dialed;
use crate::given::Given;
use crate::happening::Happening;
use crate::numbers::{NO_COMMAND, NO_STATION, number_of};
use crate::sizes::Sizes;
use crate::slot::Slot;
use std::alloc::Global;
use x25_station::{Cmd, Given as StationGiven};

// Asks for something, and pulls behind it.
fn ask(alloc: Global, slot: &mut Slot, command: Cmd<'_>) -> u32
    ensures { Answers slot.old.handle.held slot.new.handle.held result (Asks (command_of command.entry)) }
{
    let Some(mut held) = slot.take(alloc) else {
        return NO_STATION;
    };
    let answer = held.happen(Happening::Asks(command));
    slot.put(held);
    number_of(answer)
}

// Calls, and tells the channel of the call.
fn ask_call(alloc: Global, slot: &mut Slot, command: Cmd<'_>, channel: &mut u16) -> u32
    ensures calls { Answers slot.old.handle.held slot.new.handle.held result (Asks (command_of command.entry)) }
    ensures channel { result ≡ 0 → IfSome slot.new.handle.held (λ h. channel.new ≡ channel_of h) }
    ensures refused { result ≢ 0 → channel.new ≡ channel.old }
{
    let Some(mut held) = slot.take(alloc) else {
        return NO_STATION;
    };
    let answer = held.happen(Happening::Asks(command));
    let number = number_of(answer);
    if number == 0 {
        *channel = held.channel();
    }
    slot.put(held);
    number
}

// A call, with what is given beside it.
fn dials<'a>(
    called: &'a [u8],
    calling: &'a [u8],
    user: &'a [u8],
    sizes: Sizes,
    given: Option<&'a StationGiven<'a>>,
) -> Cmd<'a>
    ensures { command_of result ≡ requesting (given_with given.entry) (Dials (dialed called.now) (dialed calling.now)
        user.now (in_brief (unwrap_or (params_in sizes) default_params))) }
{
    Cmd::Call {
        called: dialed(called),
        calling: dialed(calling),
        user,
        params: sizes.params(),
        given,
    }
}

/// Begins to set the link up, and pulls behind it.
///
/// 16 where the slot holds no station, else as `Station::command` of `Cmd::Connect`. The station is as before then.
#[unsafe(no_mangle)]
pub extern "C" fn x25_connect(alloc: Global, slot: &mut Slot) -> u32
    ensures { Answers slot.old.handle.held slot.new.handle.held result (Asks Connects) }
{
    ask(alloc, slot, Cmd::Connect)
}

/// Disconnects the link, for good.
///
/// 16 where the slot holds no station, else as `Station::command` of `Cmd::Disconnect`. The station is as before then.
#[unsafe(no_mangle)]
pub extern "C" fn x25_disconnect(alloc: Global, slot: &mut Slot) -> u32
    ensures { Answers slot.old.handle.held slot.new.handle.held result (Asks Disconnects) }
{
    ask(alloc, slot, Cmd::Disconnect)
}

/// Polls the other end, whether timer T1 runs or not.
///
/// 16 where the slot holds no station, else as `Station::command` of `Cmd::Probe`. The station is as before then.
#[unsafe(no_mangle)]
pub extern "C" fn x25_probe(alloc: Global, slot: &mut Slot) -> u32
    ensures { Answers slot.old.handle.held slot.new.handle.held result (Asks Probes) }
{
    ask(alloc, slot, Cmd::Probe)
}

/// Sets a link that is up up anew.
///
/// 16 where the slot holds no station, else as `Station::command` of `Cmd::Relink`. The station is as before then.
#[unsafe(no_mangle)]
pub extern "C" fn x25_relink(alloc: Global, slot: &mut Slot) -> u32
    ensures { Answers slot.old.handle.held slot.new.handle.held result (Asks Relinks) }
{
    ask(alloc, slot, Cmd::Relink)
}

/// Restarts the packet layer, with a cause that this end may give and any diagnostic: all calls are cleared.
///
/// 16 where the slot holds no station, else as `Station::command` of `Cmd::Restart`. The station is as before then.
#[unsafe(no_mangle)]
pub extern "C" fn x25_restart(alloc: Global, slot: &mut Slot, cause: u8, diagnostic: u8) -> u32
    ensures { Answers slot.old.handle.held slot.new.handle.held result
        (Asks (Requests (Restarts cause diagnostic))) }
{
    ask(alloc, slot, Cmd::Restart { cause, diagnostic })
}

/// Calls the other end on a free channel, with addresses in digits, and packet sizes and windows where some are named;
/// `channel` becomes that of the call.
///
/// 16 where the slot holds no station, else as `Station::command` of `Cmd::Call`. The station and `channel` are as
/// before then.
#[unsafe(no_mangle)]
pub extern "C" fn x25_call(
    alloc: Global,
    slot: &mut Slot,
    called: &[u8],
    calling: &[u8],
    user: &[u8],
    sizes: Sizes,
    channel: &mut u16,
) -> u32
    ensures calls { Answers slot.old.handle.held slot.new.handle.held result
        (Asks (Requests (Dials (dialed called.now) (dialed calling.now) user.now
        (in_brief (unwrap_or (params_in sizes) default_params))))) }
    ensures channel { result ≡ 0 → IfSome slot.new.handle.held (λ h. channel.new ≡ channel_of h) }
    ensures refused { result ≢ 0 → channel.new ≡ channel.old }
{
    // It is lent, so that what the command lends has one lifetime, that of this body.
    let nothing: Option<StationGiven<'_>> = None;
    let call = dials(called, calling, user, sizes, nothing.as_ref());
    ask_call(alloc, slot, call, channel)
}

/// The same, with facilities or the D bit beside the call, where some are given.
///
/// As `x25_call`, and where something is given as `Station::command` says.
#[unsafe(no_mangle)]
pub extern "C" fn x25_call_with(
    alloc: Global,
    slot: &mut Slot,
    called: &[u8],
    calling: &[u8],
    user: &[u8],
    sizes: Sizes,
    given: Given<'_>,
    channel: &mut u16,
) -> u32
    ensures calls { Answers slot.old.handle.held slot.new.handle.held result
        (Asks (asked_with given.entry (Dials (dialed called.now) (dialed calling.now) user.now
        (in_brief (unwrap_or (params_in sizes) default_params))))) }
    ensures channel { result ≡ 0 → IfSome slot.new.handle.held (λ h. channel.new ≡ channel_of h) }
    ensures refused { result ≢ 0 → channel.new ≡ channel.old }
{
    let given = given.beside();
    let call = dials(called, calling, user, sizes, given.as_ref());
    ask_call(alloc, slot, call, channel)
}

/// Accepts an incoming call, with the packet sizes and windows that are named, or where none is with those proposed.
///
/// 16 where the slot holds no station, else as `Station::command` of `Cmd::Accept`. The station is as before then.
#[unsafe(no_mangle)]
pub extern "C" fn x25_accept(alloc: Global, slot: &mut Slot, channel: u16, sizes: Sizes) -> u32
    ensures { Answers slot.old.handle.held slot.new.handle.held result
        (Asks (Requests (OnChannel channel (Accepts (answer_in_brief (params_in sizes)))))) }
{
    let accept = Cmd::Accept {
        channel,
        params: sizes.params(),
        given: None,
    };
    ask(alloc, slot, accept)
}

/// The same, with facilities, user data or the D bit beside the acceptance, where some are given.
///
/// As `x25_accept`, and where something is given as `Station::command` says.
#[unsafe(no_mangle)]
pub extern "C" fn x25_accept_with(
    alloc: Global,
    slot: &mut Slot,
    channel: u16,
    sizes: Sizes,
    given: Given<'_>,
) -> u32
    ensures { Answers slot.old.handle.held slot.new.handle.held result
        (Asks (asked_with given.entry (OnChannel channel (Accepts (answer_in_brief (params_in sizes)))))) }
{
    let given = given.beside();
    let accept_with = Cmd::Accept {
        channel,
        params: sizes.params(),
        given: given.as_ref(),
    };
    ask(alloc, slot, accept_with)
}

/// Clears a call, with a cause that this end may give and any diagnostic.
///
/// 16 where the slot holds no station, else as `Station::command` of `Cmd::Clear`. The station is as before then.
#[unsafe(no_mangle)]
pub extern "C" fn x25_clear(
    alloc: Global,
    slot: &mut Slot,
    channel: u16,
    cause: u8,
    diagnostic: u8,
) -> u32
    ensures { Answers slot.old.handle.held slot.new.handle.held result
        (Asks (Requests (OnChannel channel (Clears cause diagnostic)))) }
{
    let clear = Cmd::Clear {
        channel,
        cause,
        diagnostic,
        given: None,
    };
    ask(alloc, slot, clear)
}

/// The same, with facilities or user data beside the clearing, where some are given.
///
/// As `x25_clear`, and where something is given as `Station::command` says.
#[unsafe(no_mangle)]
pub extern "C" fn x25_clear_with(
    alloc: Global,
    slot: &mut Slot,
    channel: u16,
    cause: u8,
    diagnostic: u8,
    given: Given<'_>,
) -> u32
    ensures { Answers slot.old.handle.held slot.new.handle.held result
        (Asks (asked_with given.entry (OnChannel channel (Clears cause diagnostic)))) }
{
    let given = given.beside();
    let clear_with = Cmd::Clear {
        channel,
        cause,
        diagnostic,
        given: given.as_ref(),
    };
    ask(alloc, slot, clear_with)
}

/// Resets a call, with a cause that this end may give and any diagnostic.
///
/// 16 where the slot holds no station, else as `Station::command` of `Cmd::Reset`. The station is as before then.
#[unsafe(no_mangle)]
pub extern "C" fn x25_reset(
    alloc: Global,
    slot: &mut Slot,
    channel: u16,
    cause: u8,
    diagnostic: u8,
) -> u32
    ensures { Answers slot.old.handle.held slot.new.handle.held result
        (Asks (Requests (OnChannel channel (Resets cause diagnostic)))) }
{
    let reset = Cmd::Reset {
        channel,
        cause,
        diagnostic,
    };
    ask(alloc, slot, reset)
}

/// Sends an interrupt of 1 to 32 octets.
///
/// 16 where the slot holds no station, else as `Station::command` of `Cmd::Interrupt`. The station is as before then.
#[unsafe(no_mangle)]
pub extern "C" fn x25_interrupt(alloc: Global, slot: &mut Slot, channel: u16, user: &[u8]) -> u32
    ensures { Answers slot.old.handle.held slot.new.handle.held result
        (Asks (Requests (OnChannel channel (Interrupts user.now)))) }
{
    ask(alloc, slot, Cmd::Interrupt { channel, user })
}

/// Tells the other end that this one takes data packets.
///
/// 16 where the slot holds no station, else as `Station::command` of `Cmd::Ready`. The station is as before then.
#[unsafe(no_mangle)]
pub extern "C" fn x25_ready(alloc: Global, slot: &mut Slot, channel: u16) -> u32
    ensures { Answers slot.old.handle.held slot.new.handle.held result (Asks (Requests (OnChannel channel SaysReady))) }
{
    ask(alloc, slot, Cmd::Ready { channel })
}

/// Tells the other end that this one takes no data packets for now.
///
/// 16 where the slot holds no station, else as `Station::command` of `Cmd::NotReady`. The station is as before then.
#[unsafe(no_mangle)]
pub extern "C" fn x25_not_ready(alloc: Global, slot: &mut Slot, channel: u16) -> u32
    ensures { Answers slot.old.handle.held slot.new.handle.held result
        (Asks (Requests (OnChannel channel SaysNotReady))) }
{
    ask(alloc, slot, Cmd::NotReady { channel })
}

/// Hands down what waits in the circuits, as far as the link has room.
///
/// 16 where the slot holds no station, else as `Station::command` of `Cmd::Pull`. The station is as before then.
#[unsafe(no_mangle)]
pub extern "C" fn x25_pull(alloc: Global, slot: &mut Slot) -> u32
    ensures { Answers slot.old.handle.held slot.new.handle.held result (Asks (Requests PullsAll)) }
{
    ask(alloc, slot, Cmd::Pull)
}

/// Timer T1 fired; what waits is pulled behind it.
///
/// 16 where the slot holds no station, else as `Station::t1`. The station is as before then.
#[unsafe(no_mangle)]
pub extern "C" fn x25_t1(alloc: Global, slot: &mut Slot) -> u32
    ensures { Answers slot.old.handle.held slot.new.handle.held result Fires }
{
    let Some(mut held) = slot.take(alloc) else {
        return NO_STATION;
    };
    let answer = held.happen(Happening::Fires);
    slot.put(held);
    number_of(answer)
}

/// Takes the octets of a frame that came, frame check sequence included, and pulls behind it.
///
/// 16 where the slot holds no station, and nothing else.
#[unsafe(no_mangle)]
pub extern "C" fn x25_receive(alloc: Global, slot: &mut Slot, octets: &[u8]) -> u32
    ensures answers { Answers slot.old.handle.held slot.new.handle.held result (Comes octets.now) }
    ensures taken { IfSome slot.old.handle.held (λ h. result ≡ 0) }
{
    let Some(mut held) = slot.take(alloc) else {
        return NO_STATION;
    };
    held.receive(octets);
    slot.put(held);
    0
}

/// Receives frames, one behind another, as `x25_receive` does each: `octets` are those of all, and `counts` says how
/// many each has. `taken` becomes how many were taken, and what is answered to all of them is one answer.
///
/// 16 where the slot holds no station, 34 where the octets of the next aren't there, and else 70 alone, for what was
/// answered to those before; the station is as those that were taken left it.
#[unsafe(no_mangle)]
pub extern "C" fn x25_receive_all(
    alloc: Global,
    slot: &mut Slot,
    octets: &[u8],
    counts: &[usize],
    taken: &mut usize,
) -> u32
    ensures all { AnswersAll octets.now counts.now slot.old.handle.held slot.new.handle.held taken.new result }
    ensures none { IfNone slot.old.handle.held (taken.new ≡ 0) }
{
    *taken = 0;
    let Some(mut held) = slot.take(alloc) else {
        return NO_STATION;
    };
    let received = held.receive_all(octets, counts);
    slot.put(held);
    *taken = received.0;
    received.1
}

// Sends a message, whose confirmation is asked or isn't, and pulls behind it.
fn send(alloc: Global, slot: &mut Slot, channel: u16, q: bool, d: bool, user: &[u8]) -> u32
    ensures { Answers slot.old.handle.held slot.new.handle.held result
        (Asks (Requests (OnChannel channel (Sends (record { q = q; d = d }) user.now)))) }
{
    let message = Cmd::Send {
        channel,
        q,
        d,
        user,
    };
    ask(alloc, slot, message)
}

/// Sends a message on a channel, and pulls behind it.
///
/// 16 where the slot holds no station, else as `Station::command` of `Cmd::Send`. The station is as before then.
#[unsafe(no_mangle)]
pub extern "C" fn x25_send(
    alloc: Global,
    slot: &mut Slot,
    channel: u16,
    q: bool,
    user: &[u8],
) -> u32
    ensures { Answers slot.old.handle.held slot.new.handle.held result
        (Asks (Requests (OnChannel channel (Sends (with_q q) user.now)))) }
{
    send(alloc, slot, channel, q, false, user)
}

/// The same, and asks for confirmation of its delivery, with `wide`.
///
/// 16 where the slot holds no station, else as `Station::command` of `Cmd::Send`. The station is as before then.
#[unsafe(no_mangle)]
pub extern "C" fn x25_send_asking(
    alloc: Global,
    slot: &mut Slot,
    channel: u16,
    q: bool,
    user: &[u8],
) -> u32
    ensures { Answers slot.old.handle.held slot.new.handle.held result
        (Asks (Requests (OnChannel channel (Sends (record { q = q; d = true }) user.now)))) }
{
    send(alloc, slot, channel, q, true, user)
}

/// Does the command that a text spells, as behind the end's name in a line of a script, and pulls behind it. One with a
/// cause or a diagnostic is taken of any station, since typed calls are.
///
/// 16 where the slot holds no station, 60 where the text spells no command, and the last answer stands; else as
/// `Station::command`. The station is as before then.
#[unsafe(no_mangle)]
pub extern "C" fn x25_command(alloc: Global, slot: &mut Slot, text: &[u8]) -> u32
    ensures { Commands slot.old.handle.held slot.new.handle.held result (command_in text.now) }
{
    let Some(mut held) = slot.take(alloc) else {
        return NO_STATION;
    };
    let answer = held.obey(alloc, text);
    slot.put(held);
    match answer {
        Some(answer) => number_of(answer),
        None => NO_COMMAND,
    }
}
