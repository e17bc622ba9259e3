//! What a CALL or an ACCEPT says, by its A bit and the octets behind its type, whatever they are.
ghost use Rattle.std.specs.Prelude.{◌≡◌, ◌≤◌, length};
ghost use Rattle.x25_packet.specs.Views.{called_of, calling_of, field_of, user_of};

use crate::block::{Block, Fields};
use crate::classes::asked;
use crate::facilities::{Facilities, FacilityField};
use crate::halves::Halves;

/// What a CALL says. Of an address with a type and a plan the digits are those behind it, where both addresses are of
/// digits alone and it has at most 15, and else there are none. The facility field says the packet sizes and windows of
/// the facilities before a marker. An ACCEPT says this field alone.
#[derive(Debug, Drop)]
pub struct CallViews<'a> {
    pub called: Halves<'a>,
    pub calling: Halves<'a>,
    pub facilities: FacilityField,
    pub user: &'a [u8],
}

/// What a CALL or an ACCEPT says.
pub fn call_views<'a>(a: bool, body: &'a [u8]) -> CallViews<'a>
    ensures called { result.called ≡ called_of a body.now }
    ensures called_few { length result.called ≤ 15 }
    ensures calling { result.calling ≡ calling_of a body.now }
    ensures calling_few { length result.calling ≤ 15 }
    ensures facilities { result.facilities ≡ field_of a body.now }
    ensures user { result.user.now ≡ user_of a body.now }
{
    let block = Block::of(a, body);
    let fields = block.fields.unwrap_or(Fields {
        facilities: &[],
        user: &[],
    });
    let own = asked(fields.facilities);
    CallViews {
        called: block.taken(a, 0, block.called),
        calling: block.taken(a, block.called, block.calling),
        facilities: FacilityField::of(Facilities {
            packet_size: own.packet_size,
            window_size: own.window_size,
        }),
        user: fields.user,
    }
}
