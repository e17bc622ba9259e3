ghost use Rattle.std.specs.Prelude.{◌≡◌, None, Some, false};

use crate::phase::{Notes, Reason};

/// What a frame brought: the packet that is handed up, what is noted, and whether I frames were acknowledged.
///
/// Timer T1 begins anew where the link came up or went down or frames were acknowledged, and at its own firing.
#[derive(Drop)]
pub struct Heard<'a> {
    pub packet: Option<&'a [u8]>,
    pub notes: Notes,
    pub acknowledged: bool,
}

impl<'a> Heard<'a> {
    /// Nothing.
    pub(crate) fn quiet() -> Heard<'a>
        ensures packet { result.packet ≡ None }
        ensures notes { result.notes ≡ record { down = None; up = false } }
        ensures acknowledged { result.acknowledged ≡ false }
    {
        Heard::noted(None, false)
    }

    /// The link went down.
    pub(crate) fn down(reason: Reason) -> Heard<'a>
        ensures packet { result.packet ≡ None }
        ensures notes { result.notes ≡ record { down = Some reason; up = false } }
        ensures acknowledged { result.acknowledged ≡ false }
    {
        Heard::noted(Some(reason), false)
    }

    /// The link went down for this reason, if any, and then up, if it did.
    pub(crate) fn noted(down: Option<Reason>, up: bool) -> Heard<'a>
        ensures packet { result.packet ≡ None }
        ensures notes { result.notes ≡ record { down = down; up = up } }
        ensures acknowledged { result.acknowledged ≡ false }
    {
        Heard {
            packet: None,
            notes: Notes { down, up },
            acknowledged: false,
        }
    }

    /// An N(R), which acknowledged frames or none, and the packet that came with it.
    pub(crate) fn numbered(packet: Option<&'a [u8]>, acknowledged: bool) -> Heard<'a>
        ensures packet { result.packet ≡ packet.entry }
        ensures notes { result.notes ≡ record { down = None; up = false } }
        ensures acknowledged { result.acknowledged ≡ acknowledged }
    {
        Heard {
            packet,
            notes: Notes {
                down: None,
                up: false,
            },
            acknowledged,
        }
    }
}
