//! Items of an answer that are taken at once.
ghost use Rattle.std.specs.Prelude.{◌≡◌, ◌≤◌, length, drop};
ghost use Rattle.x25_c.specs.Item.{TakesAll, items_of};

use crate::event::Event;
use crate::held::Held;

/// Writes items from the first on, each to a place of `events` and its octets to `room`, behind those before it, and
/// answers how many: as many as there are, or as fit.
pub(crate) fn take_all(held: &Held, first: usize, events: &mut [Event], room: &mut [u8]) -> usize
    ensures { TakesAll first (drop first (items_of held.now)) result events.old events.new room.old room.new }
{
    let mut filled = 0;
    for place in 0..events.len() {
        if place > usize::MAX - first {
            return place;
        }
        let Some(item) = held.item(first + place) else {
            return place;
        };
        let octets = item.octets();
        if octets.len() > room.len() - filled {
            return place;
        }
        events[place] = item.event();
        room[filled..filled + octets.len()].copy_from_slice(octets);
        filled += octets.len();
    }
    events.len()
}
