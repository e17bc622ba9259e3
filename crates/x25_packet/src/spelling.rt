//! From a packet to the octets that spell it.
ghost use Rattle.std.specs.Prelude.{ℕ, ◌≡◌, ◌+◌, ◌*◌, ◌≤◌, ◌++◌, Ok, OnOk, OnErr, IsOk, drop, length, max, slice_index};
ghost use Rattle.std.specs.Prelude.{vec_len, vec_capacity};
ghost use Rattle.std.specs.Vec.{VecUnchanged};
ghost use Rattle.x25_packet.specs.Digits.{packed};
ghost use Rattle.x25_packet.specs.Packet.{accept, call, plain};
ghost use Rattle.x25_packet.specs.Reading.{packet_of};
ghost use Rattle.x25_packet.specs.Spelling.{IsInRange, IsWithoutD, accept_body, body_of, call_body, channel_of};
ghost use Rattle.x25_packet.specs.Spelling.{IsChannel, format_of, spelling_of, type_of};

use crate::codes;
use crate::digits::Digits;
use crate::facilities::FacilityField;
use crate::packet::Packet;
use crate::views::call_views;
use x25_bits::{NoMemory, append_octets};

fn format(packet: &Packet) -> u8
    ensures value { result ≡ format_of (plain packet.now) }
    ensures half { result ≤ 13 }
{
    match packet {
        Packet::Data { marks, .. } => 1 + 4 * u8::from(marks.d) + 8 * u8::from(marks.q),
        _ => 1,
    }
}

/// The channel, 0 where there is none, and the type.
#[inline(always)]
fn named(packet: &Packet) -> (u16, u8)
    ensures channel { result.0 ≡ channel_of (plain packet.now) }
    ensures kind { result.1 ≡ type_of (plain packet.now) }
{
    match packet {
        Packet::Call { channel, .. } => (*channel, codes::CALL),
        Packet::Accept { channel, .. } => (*channel, codes::ACCEPT),
        Packet::Clear { channel, .. } => (*channel, codes::CLEAR),
        Packet::ClearConf { channel } => (*channel, codes::CLEAR_CONF),
        Packet::Data {
            m,
            ps,
            pr,
            channel,
            ..
        } => { (*channel, 2 * ps.get() + 16 * u8::from(*m) + 32 * pr.get()) }
        Packet::Rr { channel, pr } => (*channel, codes::RR + 32 * pr.get()),
        Packet::Rnr { channel, pr } => (*channel, codes::RNR + 32 * pr.get()),
        Packet::Interrupt { channel, .. } => (*channel, codes::INTERRUPT),
        Packet::InterruptConf { channel } => (*channel, codes::INTERRUPT_CONF),
        Packet::Reset { channel, .. } => (*channel, codes::RESET),
        Packet::ResetConf { channel } => (*channel, codes::RESET_CONF),
        Packet::Restart { .. } => (0, codes::RESTART),
        Packet::RestartConf => (0, codes::RESTART_CONF),
    }
}

/// How many octets follow the type of a CALL.
fn call_len(called: &Digits, calling: &Digits, facilities: &[u8], user: &[u8]) -> usize
    requires field { length facilities.now ≤ 6 }
    requires user { length user.now ≤ 128 }
    ensures value { result ≡ length (call_body called.now calling.now facilities.now user.now) }
    ensures few { result ≤ 4096 }
{
    2 + (called.len() + calling.len() + 1) / 2 + facilities.len() + user.len()
}

/// How many octets follow the type of an ACCEPT.
fn accept_len(facilities: &[u8]) -> usize
    requires field { length facilities.now ≤ 6 }
    ensures value { result ≡ length (accept_body facilities.now) }
    ensures few { result ≤ 8 }
{
    if facilities.is_empty() {
        return 0;
    }
    2 + facilities.len()
}

/// How many octets follow the type.
#[inline(always)]
fn body_len(packet: &Packet) -> usize
    requires { IsInRange 128 (plain packet.now) }
    ensures value { result ≡ length (body_of (plain packet.now)) }
    ensures few { result ≤ 4096 }
{
    match packet {
        Packet::Call { a, body, .. } => {
            let views = call_views(*a, body);
            let called = Digits::in_halves(views.called);
            let calling = Digits::in_halves(views.calling);
            call_len(&called, &calling, views.facilities.as_slice(), views.user)
        }
        Packet::Accept { a, body, .. } => accept_len(call_views(*a, body).facilities.as_slice()),
        Packet::Data { user, .. } | Packet::Interrupt { user, .. } => user.len(),
        Packet::Clear { .. } | Packet::Reset { .. } | Packet::Restart { .. } => 2,
        _ => 0,
    }
}

/// The digit at a place of the called and then the calling digits, 0 behind them.
fn digit_at(called: &Digits, calling: &Digits, place: usize) -> u8
    ensures value { result ≡ slice_index (called.now ++ calling.now) place }
    ensures digit { result ≤ 9 }
{
    if place < called.len() {
        return called.get(place);
    }
    let behind = place - called.len();
    if behind < calling.len() {
        return calling.get(behind);
    }
    0
}

/// Appends the digits, two to an octet.
fn append_digits(called: &Digits, calling: &Digits, octets: &mut Vec<u8>)
    requires { vec_len octets.old + length (packed (called.now ++ calling.now)) ≤ vec_capacity octets.old }
    ensures items { octets.new.items ≡ octets.old.items ++ packed (called.now ++ calling.now) }
    ensures len { vec_len octets.new ≡ vec_len octets.old + length (packed (called.now ++ calling.now)) }
    ensures capacity { vec_capacity octets.new ≡ vec_capacity octets.old }
{
    for pair in 0..(called.len() + calling.len() + 1) / 2 {
        let high = digit_at(called, calling, 2 * pair);
        let low = digit_at(called, calling, 2 * pair + 1);
        octets.push_reserved(16 * high + low);
    }
}

/// Appends what follows the type of a CALL.
#[inline(never)]
fn append_call(
    called: &Digits,
    calling: &Digits,
    facilities: &[u8],
    user: &[u8],
    octets: &mut Vec<u8>,
)
    requires field { length facilities.now ≤ 6 }
    requires room { vec_len octets.old + length
        (call_body called.now calling.now facilities.now user.now) ≤ vec_capacity octets.old }
    ensures items { octets.new.items ≡ octets.old.items ++ call_body called.now calling.now facilities.now user.now }
    ensures capacity { vec_capacity octets.new ≡ vec_capacity octets.old }
{
    append_octets(octets, &[16 * calling.len() as u8 + called.len() as u8]);
    append_digits(called, calling, octets);
    append_octets(octets, &[facilities.len() as u8]);
    append_octets(octets, facilities);
    append_octets(octets, user);
}

/// Appends what follows the type of an ACCEPT.
fn append_accept(facilities: &[u8], octets: &mut Vec<u8>)
    requires field { length facilities.now ≤ 6 }
    requires room { vec_len octets.old + length (accept_body facilities.now) ≤ vec_capacity octets.old }
    ensures items { octets.new.items ≡ octets.old.items ++ accept_body facilities.now }
    ensures capacity { vec_capacity octets.new ≡ vec_capacity octets.old }
{
    if facilities.is_empty() {
        return;
    }
    append_octets(octets, &[0, facilities.len() as u8]);
    append_octets(octets, facilities);
}

/// Appends what follows the type.
#[inline(always)]
fn append_body(packet: &Packet, octets: &mut Vec<u8>)
    requires range { IsInRange 128 (plain packet.now) }
    requires room { vec_len octets.old + length (body_of (plain packet.now)) ≤ vec_capacity octets.old }
    ensures items { octets.new.items ≡ octets.old.items ++ body_of (plain packet.now) }
    ensures capacity { vec_capacity octets.new ≡ vec_capacity octets.old }
{
    match packet {
        Packet::Call { a, body, .. } => {
            let views = call_views(*a, body);
            let called = Digits::in_halves(views.called);
            let calling = Digits::in_halves(views.calling);
            append_call(
                &called,
                &calling,
                views.facilities.as_slice(),
                views.user,
                octets,
            );
        }
        Packet::Accept { a, body, .. } => {
            append_accept(call_views(*a, body).facilities.as_slice(), octets);
        }
        Packet::Data { user, .. } | Packet::Interrupt { user, .. } => append_octets(octets, user),
        Packet::Clear {
            cause,
            diagnostic,
            ..
        }
        | Packet::Reset {
            cause,
            diagnostic,
            ..
        }
        | Packet::Restart { cause, diagnostic } => append_octets(octets, &[*cause, *diagnostic]),
        _ => {}
    }
}

/// Appends the octets that spell the packet: format, channel, type and body. Each packet has this one spelling.
///
/// The packet's fields are in their ranges, with at most 128 octets of user data in a CALL. It takes no memory where
/// the capacity has room for the octets, and else memory for them and no more; it is refused with `NoMemory` (70) where
/// there is none. ITU-T X.25 (10/96), section 5.
#[inline(always)]
pub fn encode(packet: &Packet, octets: &mut Vec<u8>) -> Result<(), NoMemory>
    requires { IsInRange 128 (plain packet.now) }
    ensures ok { OnOk result (octets.new.items ≡ octets.old.items ++ spelling_of (plain packet.now)) }
    // What is appended reads as the packet, wherever a CALL may have that many octets of user data.
    ensures again { (most : ℕ) → IsInRange most (plain packet.now) → IsWithoutD (plain packet.now)
        → OnOk result (packet_of most (drop (length octets.old.items) octets.new.items) ≡ Ok (plain packet.now)) }
    ensures err { OnErr result (VecUnchanged octets.old octets.new) }
    ensures room { vec_len octets.old + length (spelling_of (plain packet.now)) ≤ vec_capacity octets.old
        → IsOk result }
    ensures memory { vec_capacity octets.new
        ≤ max (vec_capacity octets.old) (vec_len octets.old + length (spelling_of (plain packet.now))) }
    ensures capacity { vec_capacity octets.old ≤ vec_capacity octets.new }
{
    octets.reserve_exact(3 + body_len(packet))?;
    let (channel, kind) = named(packet);
    let [group, number] = channel.to_be_bytes();
    append_octets(octets, &[16 * format(packet) + group, number, kind]);
    append_body(packet, octets);
    Ok(())
}

/// Appends the octets that spell a CALL of these fields, with at most 128 octets of user data.
///
/// It takes memory and is refused it as `encode`.
pub fn encode_call(
    channel: u16,
    called: &Digits,
    calling: &Digits,
    facilities: &FacilityField,
    user: &[u8],
    octets: &mut Vec<u8>,
) -> Result<(), NoMemory>
    requires channel { IsChannel channel }
    requires user { length user.now ≤ 128 }
    ensures ok { OnOk result (octets.new.items ≡ octets.old.items
        ++ spelling_of (call channel called.now calling.now facilities.now user.now)) }
    ensures err { OnErr result (VecUnchanged octets.old octets.new) }
    ensures room { vec_len octets.old
        + length (spelling_of (call channel called.now calling.now facilities.now user.now))
        ≤ vec_capacity octets.old → IsOk result }
    ensures memory { vec_capacity octets.new ≤ max (vec_capacity octets.old) (vec_len octets.old
        + length (spelling_of (call channel called.now calling.now facilities.now user.now))) }
    ensures capacity { vec_capacity octets.old ≤ vec_capacity octets.new }
{
    let facilities = facilities.as_slice();
    octets.reserve_exact(3 + call_len(called, calling, facilities, user))?;
    let [group, number] = channel.to_be_bytes();
    append_octets(octets, &[16 + group, number, codes::CALL]);
    append_call(called, calling, facilities, user, octets);
    Ok(())
}

/// Appends the octets that spell an ACCEPT with these facilities.
///
/// It takes memory and is refused it as `encode`.
pub fn encode_accept(
    channel: u16,
    facilities: &FacilityField,
    octets: &mut Vec<u8>,
) -> Result<(), NoMemory>
    requires channel { IsChannel channel }
    ensures ok { OnOk result (octets.new.items ≡ octets.old.items ++ spelling_of (accept channel facilities.now)) }
    ensures err { OnErr result (VecUnchanged octets.old octets.new) }
    ensures room { vec_len octets.old + length (spelling_of (accept channel facilities.now)) ≤ vec_capacity octets.old
        → IsOk result }
    ensures memory { vec_capacity octets.new
        ≤ max (vec_capacity octets.old) (vec_len octets.old + length (spelling_of (accept channel facilities.now))) }
    ensures capacity { vec_capacity octets.old ≤ vec_capacity octets.new }
{
    let facilities = facilities.as_slice();
    octets.reserve_exact(3 + accept_len(facilities))?;
    let [group, number] = channel.to_be_bytes();
    append_octets(octets, &[16 + group, number, codes::ACCEPT]);
    append_accept(facilities, octets);
    Ok(())
}
