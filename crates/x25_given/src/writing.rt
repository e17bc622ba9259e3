//! The octets of a packet with what is given beside it.
ghost use Rattle.std.specs.Prelude.{◌≡◌, ◌≤◌, ◌+◌, ◌/◌, ◌++◌, length, take, drop, vec_len, vec_capacity, true, false};
ghost use Rattle.std.specs.Prelude.{[], IfOk, Some, IfSome, MatchOption};
ghost use Rattle.x25_packet.specs.Block.{fields_octets};
ghost use Rattle.x25_given.specs.Given.{may_give, plain_given};
ghost use Rattle.x25_given.specs.Writing.{fields, head_of, write};

use crate::given::Given;
use std::alloc::Global;
use x25_bits::{NoMemory, append_octets};
use x25_packet::{FAST_SELECT_OCTETS, Packet, call_views, decode_within};

const CALL: u8 = 0x0B;

const ACCEPT: u8 = 0x0F;

const CLEAR: u8 = 0x13;

/// The most octets of a packet with what is given beside it: three, address lengths and 30 digits, a facility field of
/// 109 behind its length, and 128 of user data.
const MOST_OCTETS: usize = 257;

/// Memory for the octets of a packet with what is given beside it.
#[derive(Drop)]
pub struct Writing {
    octets: Vec<u8>,
    ghost room: { vec_capacity octets ≡ 257 },
}

impl Writing {
    /// Memory for 257 octets, of which there is none yet.
    ///
    /// 70 alone.
    pub fn new(alloc: Global) -> Result<Writing, NoMemory>
        ensures { IfOk result (λ writing. writing.octets.items ≡ []) }
    {
        match Vec::with_capacity(alloc, MOST_OCTETS) {
            Ok(octets) => Ok(Writing { octets }),
            Err(_) => Err(NoMemory),
        }
    }

    /// The octets of a packet with what is given, 257 at most, where that is allowed; none where they are as they were,
    /// as those of any other packet.
    pub fn written(&mut self, given: &Given<'_>, octets: &[u8]) -> Option<&[u8]>
        requires { may_give (plain_given given.now) ≡ true }
        ensures written { MatchOption result (write (plain_given given.now) octets.now ≡ octets.now)
            (λ w. w.now ≡ write (plain_given given.now) octets.now) }
        ensures short { IfSome result (λ w. length w.now ≤ 257) }
    {
        if !self.write(given, octets) {
            return None;
        }
        Some(&self.octets)
    }

    // The octets of a CALL, an ACCEPT or a CLEAR with what is given beside it. Of any other octets there are none.
    fn write(&mut self, given: &Given<'_>, octets: &[u8]) -> bool
        requires { may_give (plain_given given.now) ≡ true }
        ensures as_before { result ≡ false → write (plain_given given.now) octets.now ≡ octets.now }
        ensures written { result ≡ true → self.new.octets.items ≡ write (plain_given given.now) octets.now }
        ensures few { result ≡ true → vec_len self.new.octets ≤ 257 }
    {
        let Ok(packet) = decode_within(FAST_SELECT_OCTETS, octets) else {
            return false;
        };
        match packet {
            Packet::Call { a, channel, body } => {
                let views = call_views(a, body);
                self.spell(
                    &head(given.d, channel, CALL),
                    addresses(octets, views.called.len() + views.calling.len()),
                    views.facilities.as_slice(),
                    given.facilities,
                    views.user,
                );
            }
            Packet::Accept { a, channel, body } => self.spell(
                &head(given.d, channel, ACCEPT),
                &[0],
                call_views(a, body).facilities.as_slice(),
                given.facilities,
                given.user,
            ),
            Packet::Clear {
                channel,
                cause,
                diagnostic,
            } => self.spell(
                &head(false, channel, CLEAR),
                &[cause, diagnostic, 0],
                &[],
                given.facilities,
                given.user,
            ),
            _ => return false,
        }
        true
    }

    // The octets of a packet: head, what goes before its facilities, these in two parts, and user data.
    fn spell(&mut self, head: &[u8], front: &[u8], own: &[u8], more: &[u8], user: &[u8])
        requires head { length head.now ≡ 3 }
        requires front { length front.now ≤ 16 }
        requires own { length own.now ≤ 6 }
        requires more { length more.now ≤ 103 }
        requires user { length user.now ≤ 128 }
        ensures items { self.new.octets.items ≡ head.now ++ (front.now
            ++ fields_octets (Some (fields (own.now ++ more.now) user.now))) }
        ensures few { vec_len self.new.octets ≤ 257 }
    {
        self.octets.clear();
        append_octets(&mut self.octets, head);
        append_octets(&mut self.octets, front);
        append_fields(&mut self.octets, own, more, user);
    }
}

// Appends a facility field, in two parts, and user data.
fn append_fields(octets: &mut Vec<u8>, own: &[u8], more: &[u8], user: &[u8])
    requires own { length own.now ≤ 6 }
    requires more { length more.now ≤ 103 }
    requires room { vec_len octets.old + (1 + length own.now + length more.now + length user.now)
        ≤ vec_capacity octets.old }
    ensures items { octets.new.items ≡ octets.old.items
        ++ fields_octets (Some (fields (own.now ++ more.now) user.now)) }
    ensures len { vec_len octets.new ≡ vec_len octets.old + (1 + length own.now + length more.now + length user.now) }
    ensures capacity { vec_capacity octets.new ≡ vec_capacity octets.old }
{
    append_octets(octets, &[(own.len() + more.len()) as u8]);
    append_octets(octets, own);
    append_octets(octets, more);
    append_octets(octets, user);
}

// A packet's first three octets: with D or without, the channel, and the type.
fn head(d: bool, channel: u16, kind: u8) -> [u8; 3]
    requires { channel ≤ 4095 }
    ensures { result ≡ head_of d channel kind }
{
    let [group, number] = channel.to_be_bytes();
    let mark = if d { 64 } else { 0 };
    [mark + 16 + group, number, kind]
}

// What goes before the facilities of a CALL of so many digits: the lengths of its addresses, and these.
fn addresses(octets: &[u8], digits: usize) -> &[u8]
    requires digits { digits ≤ 30 }
    requires long { 4 + (digits + 1) / 2 ≤ length octets.now }
    ensures { result.now ≡ take (1 + (digits + 1) / 2) (drop 3 octets.now) }
{
    &octets[3..4 + (digits + 1) / 2]
}
