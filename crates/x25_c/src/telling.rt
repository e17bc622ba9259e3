//! Calls that tell what a station last answered.
ghost use Rattle.std.specs.Prelude.{◌≡◌, ◌≢◌, [], None, IfSome, IfNone, drop, length, slice_get};
ghost use Rattle.x25_c.specs.Copying.{Copies};
ghost use Rattle.x25_c.specs.Held.{frames_of, in_place, lines_of, timer_of};
ghost use Rattle.x25_c.specs.Item.{Takes, TakesAll, called_at, calling_at, facilities_at, items_of, of_item};
ghost use Rattle.x25_c.specs.Slot.{number_of_timer};

use crate::copying::copy;
use crate::event::Event;
use crate::numbers::{NO_MEMORY, NO_STATION, timer_number};
use crate::slot::Slot;
use crate::taking::take_all;
use std::alloc::Global;

/// Takes item `i` of the last answer, counted from 0: its frames, the timer that passed, its entries, and then what
/// becomes of timer T1. What it is is written to `event`, and its octets to the front of `room` where they fit.
///
/// `false` where there is none, and where the slot holds no station; `event` and `room` are then as before.
#[unsafe(no_mangle)]
pub extern "C" fn x25_take(
    alloc: Global,
    slot: &mut Slot,
    i: usize,
    event: &mut Event,
    room: &mut [u8],
) -> bool
    ensures kept { slot.new.handle.held ≡ slot.old.handle.held }
    ensures taken { IfSome slot.old.handle.held
        (λ h. Takes (slice_get (items_of h) i) result event.old event.new room.old room.new) }
    ensures none { IfNone slot.old.handle.held (Takes None result event.old event.new room.old room.new) }
{
    let Some(held) = slot.take(alloc) else {
        return false;
    };
    let is_there = match held.item(i) {
        Some(item) => {
            *event = item.event();
            copy(item.octets(), room);
            true
        }
        None => false,
    };
    slot.put(held);
    is_there
}

/// Takes items of the last answer from `first` on, as `x25_take` does, each to a place of `events`, and its octets to
/// `room`, behind those of the items before. Answers how many were taken: as many as there are, or as fit.
///
/// 0 where the slot holds no station.
#[unsafe(no_mangle)]
pub extern "C" fn x25_take_all(
    alloc: Global,
    slot: &mut Slot,
    first: usize,
    events: &mut [Event],
    room: &mut [u8],
) -> usize
    ensures kept { slot.new.handle.held ≡ slot.old.handle.held }
    ensures taken { IfSome slot.old.handle.held
        (λ h. TakesAll first (drop first (items_of h)) result events.old events.new room.old room.new) }
    ensures none { IfNone slot.old.handle.held (TakesAll first [] result events.old events.new room.old room.new) }
{
    let Some(held) = slot.take(alloc) else {
        return 0;
    };
    let count = take_all(&held, first, events, room);
    slot.put(held);
    count
}

/// Copies the address that is called, in digits, of item `i` of the last answer, as `x25_frame` does; 0 where it has
/// none.
#[unsafe(no_mangle)]
pub extern "C" fn x25_called(alloc: Global, slot: &mut Slot, i: usize, text: &mut [u8]) -> usize
    ensures kept { slot.new.handle.held ≡ slot.old.handle.held }
    ensures copied { IfSome slot.old.handle.held
        (λ h. Copies (of_item called_at (slice_get (items_of h) i)) text.old text.new) }
    ensures count { IfSome slot.old.handle.held (λ h. result ≡ length (of_item called_at (slice_get (items_of h) i))) }
    ensures none { IfNone slot.old.handle.held ((result ≡ 0) × (text.new ≡ text.old)) }
{
    let Some(held) = slot.take(alloc) else {
        return 0;
    };
    let count = match held.item(i) {
        Some(item) => item.called(text),
        None => copy(&[], text),
    };
    slot.put(held);
    count
}

/// Copies the address that calls, in digits, of item `i` of the last answer, as `x25_frame` does; 0 where it has none.
#[unsafe(no_mangle)]
pub extern "C" fn x25_calling(alloc: Global, slot: &mut Slot, i: usize, text: &mut [u8]) -> usize
    ensures kept { slot.new.handle.held ≡ slot.old.handle.held }
    ensures copied { IfSome slot.old.handle.held
        (λ h. Copies (of_item calling_at (slice_get (items_of h) i)) text.old text.new) }
    ensures count { IfSome slot.old.handle.held (λ h. result ≡ length (of_item calling_at (slice_get (items_of h) i))) }
    ensures none { IfNone slot.old.handle.held ((result ≡ 0) × (text.new ≡ text.old)) }
{
    let Some(held) = slot.take(alloc) else {
        return 0;
    };
    let count = match held.item(i) {
        Some(item) => item.calling(text),
        None => copy(&[], text),
    };
    slot.put(held);
    count
}

/// Copies the facility field of item `i` of the last answer, as `x25_frame` does; 0 where it has none.
#[unsafe(no_mangle)]
pub extern "C" fn x25_facilities(alloc: Global, slot: &mut Slot, i: usize, room: &mut [u8]) -> usize
    ensures kept { slot.new.handle.held ≡ slot.old.handle.held }
    ensures copied { IfSome slot.old.handle.held
        (λ h. Copies (of_item facilities_at (slice_get (items_of h) i)) room.old room.new) }
    ensures count { IfSome slot.old.handle.held (λ h. result
        ≡ length (of_item facilities_at (slice_get (items_of h) i))) }
    ensures none { IfNone slot.old.handle.held ((result ≡ 0) × (room.new ≡ room.old)) }
{
    let Some(held) = slot.take(alloc) else {
        return 0;
    };
    let count = match held.item(i) {
        Some(item) => copy(item.facilities(), room),
        None => copy(&[], room),
    };
    slot.put(held);
    count
}

/// How many frames the last call answered.
#[unsafe(no_mangle)]
pub extern "C" fn x25_frames(alloc: Global, slot: &mut Slot) -> usize
    ensures kept { slot.new.handle.held ≡ slot.old.handle.held }
    ensures count { IfSome slot.old.handle.held (λ h. result ≡ length (frames_of h)) }
    ensures none { IfNone slot.old.handle.held (result ≡ 0) }
{
    let Some(held) = slot.take(alloc) else {
        return 0;
    };
    let count = held.frames();
    slot.put(held);
    count
}

/// Copies the octets of frame `i` of the last answer, counted from 0, to the front of `room` where they fit, and
/// answers how many they are; 0 where there is none.
#[unsafe(no_mangle)]
pub extern "C" fn x25_frame(alloc: Global, slot: &mut Slot, i: usize, room: &mut [u8]) -> usize
    ensures kept { slot.new.handle.held ≡ slot.old.handle.held }
    ensures copied { IfSome slot.old.handle.held (λ h. Copies (in_place (frames_of h) i) room.old room.new) }
    ensures count { IfSome slot.old.handle.held (λ h. result ≡ length (in_place (frames_of h) i)) }
    ensures none { IfNone slot.old.handle.held ((result ≡ 0) × (room.new ≡ room.old)) }
{
    let Some(held) = slot.take(alloc) else {
        return 0;
    };
    let count = copy(held.frame(i), room);
    slot.put(held);
    count
}

/// How many entries of the transcript the last call answered.
#[unsafe(no_mangle)]
pub extern "C" fn x25_entries(alloc: Global, slot: &mut Slot) -> usize
    ensures kept { slot.new.handle.held ≡ slot.old.handle.held }
    ensures count { IfSome slot.old.handle.held (λ h. result ≡ length (lines_of h)) }
    ensures none { IfNone slot.old.handle.held (result ≡ 0) }
{
    let Some(held) = slot.take(alloc) else {
        return 0;
    };
    let count = held.entries();
    slot.put(held);
    count
}

/// Copies the line of entry `i`, with its line feed, as `x25_frame` does, and writes its length to `count`.
///
/// 16 where the slot holds no station, and else 70 alone; `text` and `count` are then as before.
#[unsafe(no_mangle)]
pub extern "C" fn x25_entry(
    alloc: Global,
    slot: &mut Slot,
    i: usize,
    text: &mut [u8],
    count: &mut usize,
) -> u32
    ensures kept { slot.new.handle.held ≡ slot.old.handle.held }
    ensures copied { result ≡ 0 →
        IfSome slot.old.handle.held (λ h. Copies (in_place (lines_of h) i) text.old text.new) }
    ensures count { result ≡ 0 →
        IfSome slot.old.handle.held (λ h. count.new ≡ length (in_place (lines_of h) i)) }
    ensures refused { result ≢ 0 → (text.new ≡ text.old) × (count.new ≡ count.old) }
    ensures memory { IfSome slot.old.handle.held (λ h. result ≢ 0 → result ≡ 70) }
    ensures none { IfNone slot.old.handle.held (result ≡ 16) }
{
    let Some(held) = slot.take(alloc) else {
        return NO_STATION;
    };
    let number = match held.line(alloc, i) {
        Ok(line) => {
            *count = match line {
                Some(line) => copy(line.as_slice(), text),
                None => copy(&[], text),
            };
            0
        }
        Err(_) => NO_MEMORY,
    };
    slot.put(held);
    number
}

/// What became of timer T1 at the last call: 0 it is off, 1 it begins anew, 2 it goes on.
#[unsafe(no_mangle)]
pub extern "C" fn x25_timer(alloc: Global, slot: &mut Slot) -> u32
    ensures kept { slot.new.handle.held ≡ slot.old.handle.held }
    ensures timer { IfSome slot.old.handle.held (λ h. result ≡ number_of_timer (timer_of h)) }
    ensures none { IfNone slot.old.handle.held (result ≡ 0) }
{
    let Some(held) = slot.take(alloc) else {
        return 0;
    };
    let number = timer_number(held.timer());
    slot.put(held);
    number
}
