//! Messages that a packet confirms. ITU-T X.25 (10/96), sections 4.3.3 and 4.4.1.4.
ghost use Rattle.std.specs.Prelude.{◌≡◌, ℕ, IfSome};
ghost use Rattle.x25_layer.specs.Layer.{LayerSettings};
ghost use Rattle.x25_layer.specs.Layer.{Layer as State};
ghost use Rattle.x25_layer.specs.code.FitsLayer.{FitsLayer};
ghost use Rattle.x25_station.specs.Confirming.{confirmed, named_by};
ghost use Rattle.x25_station.specs.code.Confirming.{Stands, Tells};
ghost use Rattle.x25_station.specs.code.Entries.{IsWhole};

use crate::entry::Entry;
use x25_layer::{Layer, Stretch};
use x25_packet::channel;

/// The stretch that is open on a channel, and how many of its messages are unconfirmed: one at least.
#[derive(Clone, Copy)]
pub(crate) struct Unconfirmed {
    channel: u16,
    name: Stretch,
    count: usize,
}

/// What is unconfirmed on the channel that a packet names, where something is: on channel 0 nothing ever is.
pub(crate) fn unconfirmed_on(layer: &Layer, packet: &[u8]) -> Option<Unconfirmed>
    ensures { (c : LayerSettings) (l : State) → FitsLayer c layer.now l → Stands c l (named_by packet.now) result }
{
    let channel = channel(packet).unwrap_or(0);
    let count = layer.unconfirmed(channel);
    if count == 0 || !layer.is_open(channel) {
        return None;
    }
    let Some(name) = layer.name(channel) else {
        return None;
    };
    Some(Unconfirmed {
        channel,
        name,
        count,
    })
}

/// The entry of what of this is confirmed in the layer as it is then: none where another stretch stands there.
pub(crate) fn confirmed(before: Option<Unconfirmed>, layer: &Layer) -> Option<Entry>
    ensures tells { (c : LayerSettings) (h : ℕ) (l next : State) → Stands c l h before → FitsLayer c layer.now next
        → Tells next h (confirmed c l next h) result }
    ensures whole { IfSome result (λ entry. IsWhole entry) }
{
    let Some(before) = before else {
        return None;
    };
    let Some(name) = layer.name(before.channel) else {
        return None;
    };
    if name != before.name || !layer.is_open(before.channel) {
        return None;
    }
    let count = before
        .count
        .saturating_sub(layer.unconfirmed(before.channel));
    if count == 0 {
        return None;
    }
    Some(Entry::Confirmed {
        channel: before.channel,
        name,
        count,
    })
}
