//! Packets in the forms that any equipment sends, read from their octets.
ghost use Rattle.std.specs.Prelude.{◌≡◌, IfOk, IsOkAnd};
ghost use Rattle.x25_packet.specs.Made.{Makes, Reads};
ghost use Rattle.x25_packet.specs.Form.{PlainForm, plain, plain_kind};
ghost use Rattle.x25_packet.specs.Form.Spelling.{Spells};
ghost use Rattle.x25_packet.specs.Grammar.{Gives, accept_of, bare, call_of, clear_conf_of, clear_of};
ghost use Rattle.x25_packet.specs.Grammar.{data_of, diagnostic_of, extended_of, form_in, has_format, interrupt_of};
ghost use Rattle.x25_packet.specs.Grammar.{read_of, reason_of, unchannelled, unwritten, without_data};
ghost use Rattle.x25_packet.specs.declared.form.Forms.TheVariants.{Any};

use crate::block::{Block, check_block, check_optional_block};
use crate::classes::asked;
use crate::codes;
use crate::error::PacketError;
use crate::form::{Form, Forms, Kind};
use crate::made::{Head, Made};
use x25_bits::Seq;

/// The most octets of user data in CALL, ACCEPT and CLEAR with fast select, section 6.16.
pub const FAST_SELECT_OCTETS: usize = 128;

/// The packet type identifier of REJ, with 0 for P(R), table 5-2, and those of two on channel 0.
const REJ: u8 = 0x09;

const REGISTRATION: u8 = 0xF3;

const REGISTRATION_CONF: u8 = 0xF7;

/// The most octets of user data in a data packet.
const DATA_OCTETS: usize = 4096;

/// The most octets in an interrupt packet.
const INTERRUPT_OCTETS: usize = 32;

/// The most octets of explanation in a diagnostic packet.
const EXPLANATION_OCTETS: usize = 3;

#[inline(always)]
fn bare<'a, M: Made<'a>>(head: Head, kind: Kind<'a>, body: &[u8]) -> Result<M, PacketError>
    ensures { Makes M.gives head result (bare (plain_kind head.bit_8 kind.entry) body.now) }
{
    match body {
        [] => M::made(head, kind),
        _ => Err(PacketError::TooLong),
    }
}

fn call<'a, M: Made<'a>>(
    head: Head,
    forms: Forms,
    most: usize,
    body: &'a [u8],
) -> Result<M, PacketError>
    ensures { Makes M.gives head result (call_of forms head.bit_8 most body.now) }
{
    match forms {
        Forms::Written => {
            check_block(forms, head.bit_8, most, body)?;
            M::made(head, Kind::Call { body })
        }
        Forms::Any => {
            check_block(forms, head.bit_8, most.max(FAST_SELECT_OCTETS), body)?;
            if let Some(fields) = Block::of(head.bit_8, body).fields {
                if fields.user.len() > most && !asked(fields.facilities).fast_select {
                    return Err(PacketError::TooLong);
                }
            }
            M::made(head, Kind::Call { body })
        }
    }
}

/// An ACCEPT: in the form that a station writes address lengths of 0, and facilities.
fn accept<'a, M: Made<'a>>(head: Head, forms: Forms, body: &'a [u8]) -> Result<M, PacketError>
    ensures { Makes M.gives head result (accept_of forms head.bit_8 body.now) }
{
    let most = match forms {
        Forms::Any => FAST_SELECT_OCTETS,
        Forms::Written => match body {
            [0, 0, ..] => return Err(PacketError::BadParameter),
            [] | [0, ..] => 0,
            _ => return Err(PacketError::BadDigit),
        },
    };
    check_optional_block(forms, head.bit_8, most, body)?;
    M::made(head, Kind::Accept { body })
}

/// The cause that ends a packet, and the diagnostic that may follow it: a station writes both.
fn reason(forms: Forms, body: &[u8]) -> Result<(u8, Option<u8>), PacketError>
    ensures { result ≡ reason_of forms body.now }
{
    match body {
        [cause] => match forms {
            Forms::Written => Err(PacketError::TooShort),
            Forms::Any => Ok((*cause, None)),
        },
        [cause, diagnostic] => Ok((*cause, Some(*diagnostic))),
        [] => Err(PacketError::TooShort),
        _ => Err(PacketError::TooLong),
    }
}

/// What stands behind the diagnostic of a CLEAR.
fn extended<'a, M: Made<'a>>(
    head: Head,
    forms: Forms,
    cause: u8,
    diagnostic: u8,
    octets: &'a [u8],
) -> Result<M, PacketError>
    ensures { Makes M.gives head result (extended_of forms head.bit_8 cause diagnostic octets.now) }
{
    match forms {
        Forms::Written => Err(PacketError::TooLong),
        Forms::Any => {
            check_block(forms, head.bit_8, FAST_SELECT_OCTETS, octets)?;
            M::made(
                head,
                Kind::ExtendedClear {
                    cause,
                    diagnostic,
                    body: octets,
                },
            )
        }
    }
}

fn clear<'a, M: Made<'a>>(head: Head, forms: Forms, body: &'a [u8]) -> Result<M, PacketError>
    ensures { Makes M.gives head result (clear_of forms head.bit_8 body.now) }
{
    match body {
        [cause, diagnostic, rest @ ..] if !rest.is_empty() => {
            extended(head, forms, *cause, *diagnostic, rest)
        }
        _ => {
            let (cause, diagnostic) = reason(forms, body)?;
            M::made(head, Kind::Clear { cause, diagnostic })
        }
    }
}

fn clear_conf<'a, M: Made<'a>>(head: Head, forms: Forms, body: &'a [u8]) -> Result<M, PacketError>
    ensures { Makes M.gives head result (clear_conf_of forms head.bit_8 body.now) }
{
    match forms {
        Forms::Written => bare(head, Kind::ClearConf { body: &[] }, body),
        Forms::Any => {
            check_optional_block(forms, head.bit_8, 0, body)?;
            M::made(head, Kind::ClearConf { body })
        }
    }
}

fn interrupt<'a, M: Made<'a>>(head: Head, body: &'a [u8]) -> Result<M, PacketError>
    ensures { Makes M.gives head result (interrupt_of body.now) }
{
    if body.is_empty() {
        return Err(PacketError::TooShort);
    }
    if body.len() > INTERRUPT_OCTETS {
        return Err(PacketError::TooLong);
    }
    M::made(head, Kind::Interrupt { user: body })
}

fn data<'a, M: Made<'a>>(head: Head, kind: u8, body: &'a [u8]) -> Result<M, PacketError>
    ensures { Makes M.gives head result (data_of kind body.now) }
{
    if body.len() > DATA_OCTETS {
        return Err(PacketError::TooLong);
    }
    M::made(
        head,
        Kind::Data {
            m: kind / 16 % 2 == 1,
            ps: Seq::modulo(kind / 2),
            pr: Seq::modulo(kind / 32),
            user: body,
        },
    )
}

fn diagnostic<'a, M: Made<'a>>(head: Head, body: &'a [u8]) -> Result<M, PacketError>
    ensures { Makes M.gives head result (diagnostic_of body.now) }
{
    let [code, explanation @ ..] = body else {
        return Err(PacketError::TooShort);
    };
    if explanation.len() > EXPLANATION_OCTETS {
        return Err(PacketError::TooLong);
    }
    M::made(
        head,
        Kind::Diagnostic {
            code: *code,
            explanation,
        },
    )
}

/// A packet of no channel that a station doesn't write.
fn unwritten<'a, M: Made<'a>>(head: Head, kind: u8, body: &'a [u8]) -> Result<M, PacketError>
    ensures { Makes M.gives head result (unwritten kind body.now) }
{
    match kind {
        codes::DIAGNOSTIC => diagnostic(head, body),
        REGISTRATION | REGISTRATION_CONF if body.len() > DATA_OCTETS => Err(PacketError::TooLong),
        REGISTRATION => M::made(head, Kind::Registration { octets: body }),
        REGISTRATION_CONF => M::made(head, Kind::RegistrationConf { octets: body }),
        _ => Err(PacketError::Unidentified),
    }
}

/// A packet of no channel.
fn unchannelled<'a, M: Made<'a>>(
    head: Head,
    forms: Forms,
    kind: u8,
    body: &'a [u8],
) -> Result<M, PacketError>
    ensures { Makes M.gives head result (unchannelled forms kind body.now) }
{
    match kind {
        codes::RESTART => {
            let (cause, diagnostic) = reason(forms, body)?;
            M::made(head, Kind::Restart { cause, diagnostic })
        }
        codes::RESTART_CONF => bare(head, Kind::RestartConf, body),
        _ => match forms {
            Forms::Written => Err(PacketError::Unidentified),
            Forms::Any => unwritten(head, kind, body),
        },
    }
}

/// A packet of a channel, but for data.
fn channelled<'a, M: Made<'a>>(
    head: Head,
    forms: Forms,
    most: usize,
    kind: u8,
    body: &'a [u8],
) -> Result<M, PacketError>
    ensures { Makes M.gives head result (without_data forms head.bit_8 most kind body.now) }
{
    let pr = Seq::modulo(kind / 32);
    match kind % 32 {
        codes::RR => return bare(head, Kind::Rr { pr }, body),
        codes::RNR => return bare(head, Kind::Rnr { pr }, body),
        REJ if matches!(forms, Forms::Any) => return bare(head, Kind::Rej { pr }, body),
        _ => {}
    }
    match kind {
        codes::CALL => call(head, forms, most, body),
        codes::ACCEPT => accept(head, forms, body),
        codes::CLEAR => clear(head, forms, body),
        codes::CLEAR_CONF => clear_conf(head, forms, body),
        codes::INTERRUPT => interrupt(head, body),
        codes::INTERRUPT_CONF => bare(head, Kind::InterruptConf, body),
        codes::RESET => {
            let (cause, diagnostic) = reason(forms, body)?;
            M::made(head, Kind::Reset { cause, diagnostic })
        }
        codes::RESET_CONF => bare(head, Kind::ResetConf, body),
        _ => Err(PacketError::Unidentified),
    }
}

/// Whether a packet of this type may have these bits 7 and 8 in its first octet, which is of one modulo 8.
fn has_format(forms: Forms, first: u8, kind: u8) -> bool
    ensures { result ≡ has_format forms first kind }
{
    let bit_8 = first / 128 == 1;
    let d = first / 64 % 2 == 1;
    let is_data = kind % 2 == 0;
    let may_have = match forms {
        Forms::Written => (!bit_8 || is_data) && !d,
        Forms::Any => {
            let is_call = kind == codes::CALL || kind == codes::ACCEPT;
            let is_clear = kind == codes::CLEAR || kind == codes::CLEAR_CONF;
            let may_8 = !bit_8 || is_data || is_call || is_clear;
            let may_d = !d || is_data || is_call;
            may_8 && may_d
        }
    };
    first / 16 % 4 == 1 && may_have
}

/// What the octets are read to, as a packet of these forms.
#[tactic(auto, unfolding(crate::specs::Grammar::read_of))]
pub(crate) fn read<'a, M: Made<'a>>(
    forms: Forms,
    most: usize,
    octets: &'a [u8],
) -> Result<M, PacketError>
    ensures { Reads M.gives result (read_of forms most octets.now) }
{
    let [first, second, kind, body @ ..] = octets else {
        return Err(PacketError::TooShort);
    };
    if !has_format(forms, *first, *kind) {
        return Err(PacketError::BadFormat);
    }
    let head = Head {
        channel: u16::from(*first % 16) * 256 + u16::from(*second),
        bit_8: *first / 128 == 1,
        d: *first / 64 % 2 == 1,
    };
    if head.channel == 0 {
        return unchannelled(head, forms, *kind, body);
    }
    if *kind % 2 == 0 {
        return data(head, *kind, body);
    }
    channelled(head, forms, most, *kind, body)
}

/// The packet that the octets spell, with at most `most` octets of user data in a CALL without fast select.
///
/// ITU-T X.25 (10/96), section 5. Errors 20 to 24 and 26, the first that applies: fewer than three octets (20), the
/// general format identifier (21), the type on this channel (22), then the body from its front to its end: octets
/// missing (20), digits and the half octet left over (24), a facility whose octets are missing (26), octets left over
/// (23).
pub fn decode<'a>(most: usize, octets: &'a [u8]) -> Result<Form<'a>, PacketError>
    ensures exact { Gives plain result (form_in most octets.now) }
    // What is read is spelled so.
    ensures found { IfOk result (λ w. Spells Any most (plain w) octets.now) }
    // What is spelled so is read.
    ensures only { (v : PlainForm) → Spells Any most v octets.now → IsOkAnd result (λ w. plain w ≡ v) }
{
    read(Forms::Any, most, octets)
}
