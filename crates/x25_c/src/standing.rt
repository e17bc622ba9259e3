//! Calls that tell how a station stands.
ghost use Rattle.std.specs.Prelude.{◌≡◌, false, None, IfSome, IfNone};
ghost use Rattle.x25_clock.specs.Clock.{number_of as number_awaited};
ghost use Rattle.x25_layer.specs.Layer.Confirmed.{unconfirmed_at};
ghost use Rattle.x25_layer.specs.code.FitsLayer.{awaited_at};
ghost use Rattle.x25_station.specs.Config.{Settings as StationSettings, layer_settings};
ghost use Rattle.x25_station.specs.Station.{Station as State};
ghost use Rattle.x25_station.specs.Station.Told.{is_idle, room, stretch};
ghost use Rattle.x25_station.specs.code.FitsStation.{FitsStation};
ghost use Rattle.x25_c.specs.Standing.{has_call, open_calls};
ghost use Rattle.x25_c.specs.StretchName.{Names};

use crate::clocked::awaited;
use crate::numbers::number_awaited;
use crate::slot::Slot;
use crate::stretch_name::{StretchName, tell_name};
use std::alloc::Global;
use x25_station::Station;

/// Whether the link is up, and all that was asked was sent and acknowledged.
#[unsafe(no_mangle)]
pub extern "C" fn x25_idle(alloc: Global, slot: &mut Slot) -> bool
    ensures kept { slot.new.handle.held ≡ slot.old.handle.held }
    ensures idle { (c : StationSettings) (s : State) →
        IfSome slot.old.handle.held (λ h. FitsStation c h.station s → result ≡ is_idle c s) }
    ensures none { IfNone slot.old.handle.held (result ≡ false) }
{
    let Some(held) = slot.take(alloc) else {
        return false;
    };
    let is_idle = held.station.idle();
    slot.put(held);
    is_idle
}

/// How many messages more `x25_send` takes on a channel.
#[unsafe(no_mangle)]
pub extern "C" fn x25_room(alloc: Global, slot: &mut Slot, channel: u16) -> usize
    ensures kept { slot.new.handle.held ≡ slot.old.handle.held }
    ensures room { (c : StationSettings) (s : State) →
        IfSome slot.old.handle.held (λ h. FitsStation c h.station s → result ≡ room c s channel) }
    ensures none { IfNone slot.old.handle.held (result ≡ 0) }
{
    let Some(held) = slot.take(alloc) else {
        return 0;
    };
    let count = held.station.channel(channel).room;
    slot.put(held);
    count
}

/// How many messages of a channel haven't the confirmation yet that was asked of them.
#[unsafe(no_mangle)]
pub extern "C" fn x25_unconfirmed(alloc: Global, slot: &mut Slot, channel: u16) -> usize
    ensures kept { slot.new.handle.held ≡ slot.old.handle.held }
    ensures unconfirmed { (c : StationSettings) (s : State) →
        IfSome slot.old.handle.held (λ h. FitsStation c h.station s
        → result ≡ unconfirmed_at (layer_settings c) s.layer channel) }
    ensures none { IfNone slot.old.handle.held (result ≡ 0) }
{
    let Some(held) = slot.take(alloc) else {
        return 0;
    };
    let count = held.station.channel(channel).unconfirmed;
    slot.put(held);
    count
}

/// What this end awaits on a channel: 0 nothing, 1 that a call is accepted, 2 that a reset, 3 that clearing and 4 that
/// an interrupt is confirmed.
#[unsafe(no_mangle)]
pub extern "C" fn x25_awaits(alloc: Global, slot: &mut Slot, channel: u16) -> u32
    ensures kept { slot.new.handle.held ≡ slot.old.handle.held }
    ensures awaits { (c : StationSettings) (s : State) → IfSome slot.old.handle.held (λ h. FitsStation c h.station s
        → result ≡ number_awaited (awaited_at (layer_settings c) s.layer channel)) }
    ensures none { IfNone slot.old.handle.held (result ≡ 0) }
{
    let Some(held) = slot.take(alloc) else {
        return 0;
    };
    let number = number_awaited(awaited(&held.station, channel));
    slot.put(held);
    number
}

// Whether a stretch is open on a channel, or an answer is awaited there.
fn has_call(station: &Station, channel: u16) -> bool
    ensures { (c : StationSettings) (s : State) → FitsStation c station.now s → result ≡ has_call c s channel }
{
    let at = station.channel(channel);
    at.stretch.is_some() || at.awaits.is_any()
}

// On how many channels that is so.
fn open_calls(station: &Station) -> usize
    ensures { (c : StationSettings) (s : State) → FitsStation c station.now s → result ≡ open_calls c s }
{
    let mut count = 0;
    for channel in 0..station.channels() {
        count += usize::from(has_call(station, channel + 1));
    }
    count
}

/// On how many channels a stretch is open, or this end awaits an answer.
#[unsafe(no_mangle)]
pub extern "C" fn x25_open_calls(alloc: Global, slot: &mut Slot) -> usize
    ensures kept { slot.new.handle.held ≡ slot.old.handle.held }
    ensures count { (c : StationSettings) (s : State) →
        IfSome slot.old.handle.held (λ h. FitsStation c h.station s → result ≡ open_calls c s) }
    ensures none { IfNone slot.old.handle.held (result ≡ 0) }
{
    let Some(held) = slot.take(alloc) else {
        return 0;
    };
    let count = open_calls(&held.station);
    slot.put(held);
    count
}

/// Whether a restart is under way: this end awaits that it be confirmed.
#[unsafe(no_mangle)]
pub extern "C" fn x25_is_restarting(alloc: Global, slot: &mut Slot) -> bool
    ensures kept { slot.new.handle.held ≡ slot.old.handle.held }
    ensures restarting { (c : StationSettings) (s : State) →
        IfSome slot.old.handle.held (λ h. FitsStation c h.station s → result ≡ s.layer.restarting) }
    ensures none { IfNone slot.old.handle.held (result ≡ false) }
{
    let Some(held) = slot.take(alloc) else {
        return false;
    };
    let is_restarting = held.station.status().is_restarting;
    slot.put(held);
    is_restarting
}

/// Whether a stretch is open on a channel; then its name is written to `name`, which else is as before.
#[unsafe(no_mangle)]
pub extern "C" fn x25_stretch(
    alloc: Global,
    slot: &mut Slot,
    channel: u16,
    name: &mut StretchName,
) -> bool
    ensures kept { slot.new.handle.held ≡ slot.old.handle.held }
    ensures named { (c : StationSettings) (s : State) → IfSome slot.old.handle.held
        (λ h. FitsStation c h.station s → Names (stretch c s channel) result name.old name.new) }
    ensures none { IfNone slot.old.handle.held (Names None result name.old name.new) }
{
    let Some(held) = slot.take(alloc) else {
        return false;
    };
    let is_open = tell_name(held.station.channel(channel).stretch, name);
    slot.put(held);
    is_open
}
