//! Packets in all their forms as text.
ghost use Rattle.std.specs.Prelude.{◌≡◌, ◌+◌, ◌*◌, ◌≤◌, ◌<◌, ◌++◌, ◌∷◌, [], codes, decimal, false, length, map, true};
ghost use Rattle.std.specs.Fmt.{digit_glyph};
ghost use Rattle.x25_packet.specs.Block.{AreAddresses, IsBlock, MayBeBlock, MayBeFields, called_in, calling_in};
ghost use Rattle.x25_packet.specs.Block.{optional_at, plain_block, plain_fields};
ghost use Rattle.x25_packet.specs.Form.{plain, plain_kind};
ghost use Rattle.x25_packet.specs.Form.Spelling.{IsKind};
ghost use Rattle.x25_packet.specs.declared.form.Forms.TheVariants.{Any};
ghost use Rattle.x25_text.specs.PacketText.{confirmation_text};
ghost use Rattle.x25_text.specs.WidePacketText.{block_text, format_text, halves_text, kind_text};
ghost use Rattle.x25_text.specs.WidePacketText.{optional_block_text, typed_addresses_text, typed_text};
ghost use Rattle.x25_text.specs.WidePacketText.{wide_fields_text, wide_information_text, wide_packet_text};
ghost use Rattle.x25_text.specs.WidePacketText.{wide_reason_text};

use crate::packet_text::{
    MOST_PACKET_TEXT, push_addresses, push_field, push_fields, push_marks, push_packet,
    push_packet_fault, push_reason,
};
use crate::text::{ROOM, Text};
use x25_packet::{Block, Fields, Form, Halves, Kind, Marks, decode, decode_within, longest_user};

fn push_format(a: bool, text: &mut Text)
    requires room { length text.old + 4 ≤ ROOM }
    ensures text { text.new ≡ text.old ++ format_text a }
    ensures size { length text.new ≤ length text.old + 4 }
{
    if a {
        text.push(b" A=1");
    }
}

fn push_confirmation(d: bool, text: &mut Text)
    requires room { length text.old + 4 ≤ ROOM }
    ensures text { text.new ≡ text.old ++ confirmation_text d }
    ensures size { length text.new ≤ length text.old + 4 }
{
    if d {
        text.push(b" D=1");
    }
}

fn push_wide_fields(fields: &Option<Fields>, text: &mut Text)
    requires fields { MayBeFields Any 128 (plain_fields fields.now) }
    requires room { length text.old + 487 ≤ ROOM }
    ensures text { text.new ≡ text.old ++ wide_fields_text (plain_fields fields.now) }
    ensures size { length text.new ≤ length text.old + 487 }
{
    if let Some(fields) = fields {
        push_fields(fields.facilities, fields.user, text);
    }
}

/// A half octet as a hexadecimal digit.
fn half_digit(half: u8) -> u8
    requires { half < 16 }
    ensures { result ≡ digit_glyph false half }
{
    if half < 10 {
        b'0' + half
    } else {
        b'a' - 10 + half
    }
}

fn push_half(half: u8, text: &mut Text)
    requires half { half < 16 }
    requires room { length text.old + 1 ≤ ROOM }
    ensures text { text.new ≡ text.old ++ (digit_glyph false half ∷ []) }
    ensures size { length text.new ≡ length text.old + 1 }
{
    text.push(&[half_digit(half)]);
}

fn push_each_half(halves: &Halves, text: &mut Text)
    requires room { length text.old + length halves.now ≤ ROOM }
    ensures text { text.new ≡ text.old ++ map (λ h. digit_glyph false h) halves.now }
    ensures size { length text.new ≡ length text.old + length halves.now }
{
    for place in 0..halves.len() {
        push_half(halves.get(place), text);
    }
}

fn push_halves(halves: &Halves, text: &mut Text)
    requires room { length text.old + (length halves.now + 1) ≤ ROOM }
    ensures text { text.new ≡ text.old ++ halves_text halves.now }
    ensures size { length text.new ≤ length text.old + (length halves.now + 1) }
{
    if halves.len() == 0 {
        text.push(b"-");
    } else {
        push_each_half(halves, text);
    }
}

/// Appends the type of address, the numbering plan and the digits.
fn push_typed(address: &Halves, text: &mut Text)
    requires room { length text.old + (length address.now + 3) ≤ ROOM }
    ensures text { text.new ≡ text.old ++ typed_text address.now }
    ensures size { length text.new ≤ length text.old + (length address.now + 3) }
{
    if address.len() == 0 {
        text.push(b"-");
        return;
    }
    push_half(address.get(0), text);
    if address.len() == 1 {
        return;
    }
    text.push(b"/");
    push_half(address.get(1), text);
    text.push(b"/");
    push_halves(&address.behind(2), text);
}

fn push_typed_addresses(block: &Block, text: &mut Text)
    requires block { AreAddresses true (plain_block block.now) }
    requires room { length text.old + 533 ≤ ROOM }
    ensures text { text.new ≡ text.old
        ++ typed_addresses_text (called_in (plain_block block.now)) (calling_in (plain_block block.now)) }
    ensures size { length text.new ≤ length text.old + 533 }
{
    text.push(b" called=");
    push_typed(&block.called_halves(), text);
    text.push(b" calling=");
    push_typed(&block.calling_halves(), text);
}

/// Appends addresses in the format that the A bit says, and what follows them.
fn push_block(a: bool, block: &Block, text: &mut Text)
    requires block { IsBlock Any a 128 (plain_block block.now) }
    requires room { length text.old + 1_020 ≤ ROOM }
    ensures text { text.new ≡ text.old ++ block_text a (plain_block block.now) }
    ensures size { length text.new ≤ length text.old + 1_020 }
{
    if a {
        push_typed_addresses(block, text);
    } else {
        push_addresses(&block.called_halves(), &block.calling_halves(), text);
    }
    push_wide_fields(&block.fields, text);
}

fn push_optional_block(a: bool, body: &[u8], text: &mut Text)
    requires block { MayBeBlock Any a 128 (optional_at a body.now) }
    requires room { length text.old + 1_020 ≤ ROOM }
    ensures text { text.new ≡ text.old ++ optional_block_text a (optional_at a body.now) }
    ensures size { length text.new ≤ length text.old + 1_020 }
{
    if !body.is_empty() {
        push_block(a, &Block::of(a, body), text);
    }
}

fn push_wide_reason(cause: u8, diagnostic: Option<u8>, text: &mut Text)
    requires room { length text.old + 23 ≤ ROOM }
    ensures text { text.new ≡ text.old ++ wide_reason_text cause diagnostic }
    ensures size { length text.new ≤ length text.old + 23 }
{
    match diagnostic {
        Some(diagnostic) => push_reason(cause, diagnostic, text),
        None => text.push_number(b" cause=", u16::from(cause)),
    }
}

/// Appends a packet without the mark of its form.
#[tactic(auto, using(crate::proofs::BlockLength::with_user_data))]
fn push_kind(packet: &Form, text: &mut Text)
    requires range { IsKind Any packet.now.bit_8 128 (plain_kind packet.now.bit_8 packet.now.kind) }
    requires room { length text.old + 8_250 ≤ ROOM }
    ensures text { text.new ≡ text.old
        ++ kind_text packet.now.channel packet.now.bit_8 packet.now.d (plain_kind packet.now.bit_8 packet.now.kind) }
    ensures size { length text.new ≤ length text.old + 8_250 }
{
    match &packet.kind {
        Kind::Call { body } => {
            text.push_number(b"CALL ch=", packet.channel);
            push_format(packet.bit_8, text);
            push_confirmation(packet.d, text);
            push_block(packet.bit_8, &Block::of(packet.bit_8, body), text);
        }
        Kind::Accept { body } => {
            text.push_number(b"ACCEPT ch=", packet.channel);
            push_format(packet.bit_8, text);
            push_confirmation(packet.d, text);
            push_optional_block(packet.bit_8, body, text);
        }
        Kind::Clear { cause, diagnostic } => {
            text.push_number(b"CLEAR ch=", packet.channel);
            push_format(packet.bit_8, text);
            push_wide_reason(*cause, *diagnostic, text);
        }
        Kind::ExtendedClear {
            cause,
            diagnostic,
            body,
        } => {
            text.push_number(b"CLEAR ch=", packet.channel);
            push_format(packet.bit_8, text);
            push_reason(*cause, *diagnostic, text);
            push_block(packet.bit_8, &Block::of(packet.bit_8, body), text);
        }
        Kind::ClearConf { body } => {
            text.push_number(b"CLEARCONF ch=", packet.channel);
            push_format(packet.bit_8, text);
            push_optional_block(packet.bit_8, body, text);
        }
        Kind::Data { m, ps, pr, user } => {
            text.push_number(b"DATA ch=", packet.channel);
            push_marks(
                *ps,
                *pr,
                *m,
                Marks {
                    q: packet.bit_8,
                    d: packet.d,
                },
                text,
            );
            text.push_octets(user);
        }
        Kind::Rr { pr } => {
            text.push_number(b"RR ch=", packet.channel);
            text.push_seq(b" R=", *pr);
        }
        Kind::Rnr { pr } => {
            text.push_number(b"RNR ch=", packet.channel);
            text.push_seq(b" R=", *pr);
        }
        Kind::Rej { pr } => {
            text.push_number(b"REJ ch=", packet.channel);
            text.push_seq(b" R=", *pr);
        }
        Kind::Interrupt { user } => {
            text.push_number(b"INT ch=", packet.channel);
            push_field(b" data=", user, text);
        }
        Kind::InterruptConf => text.push_number(b"INTCONF ch=", packet.channel),
        Kind::Reset { cause, diagnostic } => {
            text.push_number(b"RESET ch=", packet.channel);
            push_wide_reason(*cause, *diagnostic, text);
        }
        Kind::ResetConf => text.push_number(b"RESETCONF ch=", packet.channel),
        Kind::Restart { cause, diagnostic } => {
            text.push(b"RESTART");
            push_wide_reason(*cause, *diagnostic, text);
        }
        Kind::RestartConf => text.push(b"RESTARTCONF"),
        Kind::Diagnostic { code, explanation } => {
            text.push_number(b"DIAG diag=", u16::from(*code));
            push_field(b" expl=", explanation, text);
        }
        Kind::Registration { octets } => push_field(b"REG data=", octets, text),
        Kind::RegistrationConf { octets } => push_field(b"REGCONF data=", octets, text),
    }
}

/// Appends a packet that has another form than a station writes, with the mark of that.
pub fn push_wide_packet(packet: &Form, text: &mut Text)
    requires range { IsKind Any packet.now.bit_8 128 (plain_kind packet.now.bit_8 packet.now.kind) }
    requires room { length text.old + MOST_PACKET_TEXT ≤ ROOM }
    ensures text { text.new ≡ text.old ++ wide_packet_text (plain packet.now) }
    ensures size { length text.new ≤ length text.old + MOST_PACKET_TEXT }
{
    push_kind(packet, text);
    text.push(b" ~ wide");
}

/// Appends what the information of an I frame is: a packet as a station writes it, or else one in any form, or its
/// error.
///
/// With `long_data` the user data of a CALL has at most 128 octets, else at most 16 without fast select.
pub fn push_wide_information(long_data: bool, information: &[u8], text: &mut Text)
    requires room { length text.old + MOST_PACKET_TEXT ≤ ROOM }
    ensures text { text.new ≡ text.old ++ wide_information_text long_data information.now }
    ensures size { length text.new ≤ length text.old + MOST_PACKET_TEXT }
{
    let most = longest_user(long_data);
    if let Ok(packet) = decode_within(most, information) {
        push_packet(&packet, text);
        return;
    }
    match decode(most, information) {
        Ok(packet) => push_wide_packet(&packet, text),
        Err(error) => push_packet_fault(error, text),
    }
}
