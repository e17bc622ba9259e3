//! Packets and their errors as text.
ghost use Rattle.std.specs.Prelude.{◌≡◌, ◌+◌, ◌*◌, ◌≤◌, ◌<◌, ◌++◌, codes, decimal, length, map};
ghost use Rattle.x25_packet.specs.Packet.{plain};
ghost use Rattle.x25_packet.specs.Spelling.{IsInRange};
ghost use Rattle.x25_packet.specs.Views.{called_of, calling_of, field_of, user_of};
ghost use Rattle.x25_text.specs.Text.{octets_text};
ghost use Rattle.x25_text.specs.PacketText.{addresses_text, digits_text, fields_text, information_text, marks_text};
ghost use Rattle.x25_text.specs.PacketText.{confirmation_text};
ghost use Rattle.x25_text.specs.PacketText.{numbers_text, packet_fault_text, packet_text, reason_text};

use crate::text::{MOST_OCTETS, ROOM, Text, bit_digit, seq_digit};
use x25_frame::Seq;
use x25_packet::{Halves, Marks, Packet, PacketError, call_views, decode_within, longest_user};

/// The most characters of a packet or of its error on one line.
pub const MOST_PACKET_TEXT: usize = 8_260;

/// Appends a label and then octets.
pub(crate) fn push_field(label: &[u8], octets: &[u8], text: &mut Text)
    requires few { length octets.now ≤ MOST_OCTETS }
    requires room { length text.old + (length label.now + (2 * length octets.now + 1)) ≤ ROOM }
    ensures text { text.new ≡ text.old ++ (label.now ++ octets_text octets.now) }
    ensures size { length text.new ≤ length text.old + (length label.now + (2 * length octets.now + 1)) }
{
    text.push(label);
    text.push_octets(octets);
}

fn push_digits(digits: &Halves, text: &mut Text)
    requires few { length digits.now ≤ 15 }
    requires room { length text.old + length digits.now ≤ ROOM }
    ensures text { text.new ≡ text.old ++ map (λ digit. 48 + digit) digits.now }
    ensures size { length text.new ≡ length text.old + length digits.now }
{
    let (octets, before) = digits.octets();
    let mut figures = [b'0'; 16];
    for place in 0..octets.len() {
        figures[2 * place] = b'0' + octets[place] / 16;
        figures[2 * place + 1] = b'0' + octets[place] % 16;
    }
    text.push(&figures[before..before + digits.len()]);
}

/// Appends a label and then an address.
fn push_address(label: &[u8], digits: &Halves, text: &mut Text)
    requires digits { length digits.now ≤ 15 }
    requires room { length text.old + (length label.now + 16) ≤ ROOM }
    ensures text { text.new ≡ text.old ++ (label.now ++ digits_text digits.now) }
    ensures size { length text.new ≤ length text.old + (length label.now + 16) }
{
    text.push(label);
    if digits.len() == 0 {
        text.push(b"-");
    } else {
        push_digits(digits, text);
    }
}

/// Appends a cause and a diagnostic.
pub(crate) fn push_reason(cause: u8, diagnostic: u8, text: &mut Text)
    requires room { length text.old + 23 ≤ ROOM }
    ensures text { text.new ≡ text.old ++ reason_text cause diagnostic }
    ensures size { length text.new ≤ length text.old + 23 }
{
    text.push_number(b" cause=", u16::from(cause));
    text.push_number(b" diag=", u16::from(diagnostic));
}

pub(crate) fn push_addresses(called: &Halves, calling: &Halves, text: &mut Text)
    requires called { length called.now ≤ 15 }
    requires calling { length calling.now ≤ 15 }
    requires room { length text.old + 49 ≤ ROOM }
    ensures text { text.new ≡ text.old ++ addresses_text called.now calling.now }
    ensures size { length text.new ≤ length text.old + 49 }
{
    push_address(b" called=", called, text);
    push_address(b" calling=", calling, text);
}

/// Appends a facility field and user data.
pub(crate) fn push_fields(facilities: &[u8], user: &[u8], text: &mut Text)
    requires facilities { length facilities.now ≤ 109 }
    requires user { length user.now ≤ 128 }
    requires room { length text.old + 487 ≤ ROOM }
    ensures text { text.new ≡ text.old ++ fields_text facilities.now user.now }
    ensures size { length text.new ≤ length text.old + 487 }
{
    push_field(b" fac=", facilities, text);
    push_field(b" data=", user, text);
}

/// Appends the numbers and marks of a DATA packet, and the label of its user data.
pub(crate) fn push_marks(ps: Seq, pr: Seq, m: bool, marks: Marks, text: &mut Text)
    requires room { length text.old + 26 ≤ ROOM }
    ensures text { text.new ≡ text.old ++ (numbers_text ps.number pr.number ++ marks_text m marks.q
        ++ confirmation_text marks.d ++ codes " data=") }
    ensures size { length text.new ≤ length text.old + 26 }
{
    let mut characters = *b" S=_ R=_ M=_ Q=_ data=";
    characters[3] = seq_digit(ps);
    characters[7] = seq_digit(pr);
    characters[11] = bit_digit(m);
    characters[15] = bit_digit(marks.q);
    if marks.d {
        text.push(&characters[..16]);
        text.push(b" D=1 data=");
    } else {
        text.push(&characters);
    }
}

/// Appends what a CALL says behind its channel.
fn push_call_body(a: bool, body: &[u8], text: &mut Text)
    requires user { length (user_of a body.now) ≤ 128 }
    requires room { length text.old + 536 ≤ ROOM }
    ensures text { text.new ≡ text.old ++ (addresses_text (called_of a body.now) (calling_of a body.now)
        ++ fields_text (field_of a body.now) (user_of a body.now)) }
    ensures size { length text.new ≤ length text.old + 536 }
{
    let views = call_views(a, body);
    push_addresses(&views.called, &views.calling, text);
    push_fields(views.facilities.as_slice(), views.user, text);
}

/// Appends what an ACCEPT says behind its channel.
fn push_accept_body(a: bool, body: &[u8], text: &mut Text)
    requires room { length text.old + 18 ≤ ROOM }
    ensures text { text.new ≡ text.old ++ (codes " fac=" ++ octets_text (field_of a body.now)) }
    ensures size { length text.new ≤ length text.old + 18 }
{
    push_field(b" fac=", call_views(a, body).facilities.as_slice(), text);
}

/// Appends a packet on one line. A CALL has at most 128 octets of user data.
pub fn push_packet(packet: &Packet, text: &mut Text)
    requires range { IsInRange 128 (plain packet.now) }
    requires room { length text.old + MOST_PACKET_TEXT ≤ ROOM }
    ensures text { text.new ≡ text.old ++ packet_text (plain packet.now) }
    ensures size { length text.new ≤ length text.old + MOST_PACKET_TEXT }
{
    match packet {
        Packet::Call { a, channel, body } => {
            text.push_number(b"CALL ch=", *channel);
            push_call_body(*a, body, text);
        }
        Packet::Accept { a, channel, body } => {
            text.push_number(b"ACCEPT ch=", *channel);
            push_accept_body(*a, body, text);
        }
        Packet::Clear {
            channel,
            cause,
            diagnostic,
        } => {
            text.push_number(b"CLEAR ch=", *channel);
            push_reason(*cause, *diagnostic, text);
        }
        Packet::ClearConf { channel } => text.push_number(b"CLEARCONF ch=", *channel),
        Packet::Data {
            channel,
            marks,
            m,
            ps,
            pr,
            user,
        } => {
            text.push_number(b"DATA ch=", *channel);
            push_marks(*ps, *pr, *m, *marks, text);
            text.push_octets(user);
        }
        Packet::Rr { channel, pr } => {
            text.push_number(b"RR ch=", *channel);
            text.push_seq(b" R=", *pr);
        }
        Packet::Rnr { channel, pr } => {
            text.push_number(b"RNR ch=", *channel);
            text.push_seq(b" R=", *pr);
        }
        Packet::Interrupt { channel, user } => {
            text.push_number(b"INT ch=", *channel);
            push_field(b" data=", user, text);
        }
        Packet::InterruptConf { channel } => text.push_number(b"INTCONF ch=", *channel),
        Packet::Reset {
            channel,
            cause,
            diagnostic,
        } => {
            text.push_number(b"RESET ch=", *channel);
            push_reason(*cause, *diagnostic, text);
        }
        Packet::ResetConf { channel } => text.push_number(b"RESETCONF ch=", *channel),
        Packet::Restart { cause, diagnostic } => {
            text.push(b"RESTART");
            push_reason(*cause, *diagnostic, text);
        }
        Packet::RestartConf => text.push(b"RESTARTCONF"),
    }
}

/// Appends the error that octets have that spell no packet.
pub(crate) fn push_packet_fault(error: PacketError, text: &mut Text)
    requires room { length text.old + 22 ≤ ROOM }
    ensures text { text.new ≡ text.old ++ packet_fault_text error }
    ensures size { length text.new ≤ length text.old + 22 }
{
    text.push_number(b"fault ", u16::from(error.number()));
    text.push_number(b" diag=", u16::from(error.diagnostic()));
}

/// Appends what the information of an I frame is: a packet, or its error.
///
/// With `long_data` the user data of a CALL has at most 128 octets, else at most 16.
pub fn push_information(long_data: bool, information: &[u8], text: &mut Text)
    requires room { length text.old + MOST_PACKET_TEXT ≤ ROOM }
    ensures text { text.new ≡ text.old ++ information_text long_data information.now }
    ensures size { length text.new ≤ length text.old + MOST_PACKET_TEXT }
{
    match decode_within(longest_user(long_data), information) {
        Ok(packet) => push_packet(&packet, text),
        Err(error) => push_packet_fault(error, text),
    }
}
