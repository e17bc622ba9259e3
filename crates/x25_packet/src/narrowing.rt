//! What a station takes a packet for: one of those that it writes itself.
ghost use Rattle.x25_packet.specs.Packet.{plain as plain_written};
ghost use Rattle.x25_packet.specs.Block.{plain_fields};
ghost use Rattle.x25_packet.specs.Narrowing.{field_shown, field_taken, narrow_of};
ghost use Rattle.x25_packet.specs.Grammar.{Gives};

use crate::block::{Block, Fields};
use crate::classes::asked;
use crate::error::PacketError;
use crate::facilities::is_within;
use crate::form::Kind;
use crate::made::{Head, Made};
use crate::marks::Marks;
use crate::packet::Packet;

/// Whether what is asked for is in its range.
fn check_fields(fields: Option<Fields>) -> Result<(), PacketError>
    ensures { Gives (λ _. field_shown (plain_fields fields.entry)) result (field_taken (plain_fields fields.entry)) }
{
    let Some(fields) = fields else {
        return Ok(());
    };
    let own = asked(fields.facilities);
    if let Some(sizes) = own.packet_size {
        if !is_within(4, 12, sizes.called) || !is_within(4, 12, sizes.calling) {
            return Err(PacketError::BadParameter);
        }
    }
    if let Some(windows) = own.window_size {
        if !is_within(1, 7, windows.called) || !is_within(1, 7, windows.calling) {
            return Err(PacketError::BadParameter);
        }
    }
    Ok(())
}

impl<'a> Made<'a> for Packet<'a> {
    ghost gives = { λ r w. Gives plain_written r (narrow_of w) };

    /// What a station takes the packet for.
    ///
    /// 26: a packet size or window size out of its range. 22: REJ, DIAGNOSTIC and REGISTRATION, which a station doesn't
    /// know.
    #[inline(always)]
    fn made(head: Head, kind: Kind<'a>) -> Result<Packet<'a>, PacketError> {
        let channel = head.channel;
        let a = head.bit_8;
        match kind {
            Kind::Call { body } => {
                check_fields(Block::of(a, body).fields)?;
                Ok(Packet::Call { a, channel, body })
            }
            Kind::Accept { body } => {
                check_fields(Block::of(a, body).fields)?;
                Ok(Packet::Accept { a, channel, body })
            }
            Kind::Clear { cause, diagnostic } => Ok(Packet::Clear {
                cause,
                diagnostic: diagnostic.unwrap_or(0),
                channel,
            }),
            Kind::ExtendedClear {
                cause,
                diagnostic,
                ..
            } => Ok(Packet::Clear {
                cause,
                diagnostic,
                channel,
            }),
            Kind::ClearConf { .. } => Ok(Packet::ClearConf { channel }),
            Kind::Data { m, ps, pr, user } => Ok(Packet::Data {
                marks: Marks { q: a, d: head.d },
                m,
                ps,
                pr,
                channel,
                user,
            }),
            Kind::Rr { pr } => Ok(Packet::Rr { channel, pr }),
            Kind::Rnr { pr } => Ok(Packet::Rnr { channel, pr }),
            Kind::Interrupt { user } => Ok(Packet::Interrupt { channel, user }),
            Kind::InterruptConf => Ok(Packet::InterruptConf { channel }),
            Kind::Reset { cause, diagnostic } => Ok(Packet::Reset {
                cause,
                diagnostic: diagnostic.unwrap_or(0),
                channel,
            }),
            Kind::ResetConf => Ok(Packet::ResetConf { channel }),
            Kind::Restart { cause, diagnostic } => Ok(Packet::Restart {
                cause,
                diagnostic: diagnostic.unwrap_or(0),
            }),
            Kind::RestartConf => Ok(Packet::RestartConf),
            Kind::Rej { .. }
            | Kind::Diagnostic { .. }
            | Kind::Registration { .. }
            | Kind::RegistrationConf { .. } => Err(PacketError::Unidentified),
        }
    }
}
