//! The packets that a station sends, read from their octets.
ghost use Rattle.std.specs.Prelude.{◌≡◌, ◌≤◌, IfErr, IfOk, IsOkAnd};
ghost use Rattle.x25_packet.specs.Packet.{PlainPacket, plain};
ghost use Rattle.x25_packet.specs.Reading.{channel_in, packet_of};
ghost use Rattle.x25_packet.specs.Reading.FirstError.{IsFirstError};
ghost use Rattle.x25_packet.specs.Spelling.{Spells, longest_user};
ghost use Rattle.x25_packet.specs.Grammar.{Gives};

use crate::error::PacketError;
use crate::form::Forms;
use crate::grammar::read;
use crate::packet::Packet;

/// The most octets of user data in a CALL, section 5.2.1.
pub const CALL_OCTETS: usize = 16;

/// The most octets of user data in a CALL where it may be long: as with fast select, section 6.16.
pub const LONG_CALL_OCTETS: usize = 128;

/// The channel that the first two octets name, where there are three octets or more.
///
/// ITU-T X.25 (10/96), sections 5.1.2 and 5.1.3.
pub fn channel(octets: &[u8]) -> Option<u16>
    ensures { result ≡ channel_in octets.now }
{
    match octets {
        [first, second, _, ..] => Some(u16::from(*first % 16) * 256 + u16::from(*second)),
        _ => None,
    }
}

/// The most octets of user data in a CALL: 128 with `long_data`, else 16.
///
/// ITU-T X.25 (10/96), section 5.2.1. 128 is what a CALL has with the facility fast select (section 6.16); here it has
/// them without (profile).
pub fn longest_user(long_data: bool) -> usize
    ensures value { result ≡ longest_user long_data }
    ensures few { result ≤ 128 }
{
    if long_data {
        LONG_CALL_OCTETS
    } else {
        CALL_OCTETS
    }
}

/// The packet that the octets spell, with at most `most` octets of user data in a CALL.
///
/// ITU-T X.25 (10/96), section 5. Errors 20 to 26, the first that applies: fewer than three octets (20), the general
/// format identifier (21), the type on this channel (22), then the body from its front to its end: octets missing (20),
/// digits (24), facilities (25 and 26), octets left over (23).
pub fn decode_within<'a>(most: usize, octets: &'a [u8]) -> Result<Packet<'a>, PacketError>
    ensures exact { Gives plain result (packet_of most octets.now) }
    // The first error, from the front.
    ensures fault { IfErr result (IsFirstError most octets.now) }
    // What is read is spelled so.
    ensures found { IfOk result (λ v. Spells most (plain v) octets.now) }
    // What is spelled so is read.
    ensures only { (v : PlainPacket) → Spells most v octets.now → IsOkAnd result (λ w. plain w ≡ v) }
{
    read(Forms::Written, most, octets)
}
