//! What the rules of a channel look at of a packet.
ghost use Rattle.std.specs.Prelude.{◌≡◌, length};
ghost use Rattle.x25_packet.specs.Packet.{plain};
ghost use Rattle.x25_packet_judge.specs.Item as definition;

use x25_packet::{Directions, Facilities, Packet, call_views};
use x25_possible::{Defaults, Packet as Item, Said, Sizes, Terms, Windows};

/// The octets that a packet size stands for, 0 where it stands for none.
fn octets_of(size: u8) -> u16
    ensures { result ≡ definition.octets_of size }
{
    if 4 <= size && size <= 12 {
        1 << size
    } else {
        0
    }
}

/// Octets of user data, of which no packet has more than these.
fn size_of(user: &[u8]) -> u16
    ensures { result ≡ definition.size_of (length user.now) }
{
    if user.len() < 65_535 {
        user.len() as u16
    } else {
        65_535
    }
}

fn sizes_said(said: Option<Directions>) -> Option<Sizes>
    ensures { result ≡ definition.sizes_said said }
{
    said.map(|sizes| Sizes {
        calling: octets_of(sizes.calling),
        called: octets_of(sizes.called),
    })
}

fn windows_said(said: Option<Directions>) -> Option<Windows>
    ensures { result ≡ definition.windows_said said }
{
    said.map(|windows| Windows {
        calling: windows.calling,
        called: windows.called,
    })
}

/// What a facility field says of packet sizes and windows, where it can be read.
fn said(field: &[u8]) -> Said
    ensures { result ≡ definition.said field.now }
{
    match Facilities::of(field) {
        Ok(facilities) => Said {
            sizes: sizes_said(facilities.packet_size),
            windows: windows_said(facilities.window_size),
        },
        Err(_) => Said {
            sizes: None,
            windows: None,
        },
    }
}

/// What a CALL proposes: the network's defaults where it says nothing.
fn proposed(defaults: Defaults, said: Said) -> Terms
    ensures { result ≡ definition.proposed defaults said }
{
    let sizes = said.sizes.unwrap_or(Sizes {
        calling: defaults.size,
        called: defaults.size,
    });
    let windows = said.windows.unwrap_or(Windows {
        calling: defaults.window,
        called: defaults.window,
    });
    Terms {
        defaults,
        calling_size: sizes.calling,
        called_size: sizes.called,
        calling_window: windows.calling,
        called_window: windows.called,
    }
}

/// A packet as the rules of its channel look at it.
#[tactic(auto, unfolding(crate::specs::Item::item_of))]
pub(crate) fn item_of(defaults: Defaults, packet: &Packet) -> Item
    ensures { result ≡ definition.item_of defaults (plain packet.now) }
{
    match packet {
        Packet::Call { a, body, .. } => Item::Call(proposed(
            defaults,
            said(call_views(*a, body).facilities.as_slice()),
        )),
        Packet::Accept { a, body, .. } => {
            Item::Accept(said(call_views(*a, body).facilities.as_slice()))
        }
        Packet::Clear { .. } => Item::Clear,
        Packet::ClearConf { .. } => Item::ClearConf,
        Packet::Data {
            marks,
            m,
            ps,
            pr,
            user,
            ..
        } => Item::Data {
            q: marks.q,
            m: *m && !marks.d,
            ps: ps.get(),
            pr: pr.get(),
            size: size_of(user),
        },
        Packet::Rr { pr, .. } => Item::Rr(pr.get()),
        Packet::Rnr { pr, .. } => Item::Rnr(pr.get()),
        Packet::Interrupt { .. } => Item::Interrupt,
        Packet::InterruptConf { .. } => Item::InterruptConf,
        Packet::Reset { .. } => Item::Reset,
        Packet::ResetConf { .. } => Item::ResetConf,
        Packet::Restart { .. } => Item::Restart,
        Packet::RestartConf => Item::RestartConf,
    }
}
