//! A station for C: what `include/x25.h` declares.
//!
//! A C program keeps a `Slot`, of which all zeros hold no station, and hands its address to each call.
#![tactic(auto)]

mod answers;
mod calls;
mod clocked;
mod copying;
mod dialing;
mod earlier;
mod earlier_entries;
mod event;
mod given;
mod handle;
mod happening;
mod held;
mod item;
mod making;
mod numbers;
mod refusal_text;
mod settings;
mod sizes;
mod slot;
mod standing;
mod stretch_name;
mod taking;
mod telling;
mod times;
mod timing;
mod unboxed;

ghost use Rattle.std.specs.Prelude.{◌≡◌, None};
ghost use Rattle.x25_c.specs.Settings.{cfg_in};
ghost use Rattle.x25_c.specs.Slot.{Makes};

use crate::making::make;
use crate::numbers::{BAD_SETTING, IN_USE};
use crate::settings::Settings;
use crate::slot::Slot;
use std::alloc::Global;

/// 10,000 times the first number of the version, 100 times the second, and the third.
const VERSION: u32 = 100;

/// How many octets an `Event` has, as a C program on a machine of 64 bits has it.
const EVENT_SIZE: usize = 80;

/// The version of the library, as X25_VERSION of the header is that of a program.
#[unsafe(no_mangle)]
pub extern "C" fn x25_version() -> u32
    ensures { result ≡ 100 }
{
    VERSION
}

/// How many octets an event has that is taken: a program that is compiled otherwise doesn't read them right.
#[unsafe(no_mangle)]
pub extern "C" fn x25_event_size() -> usize
    ensures { result ≡ 80 }
{
    EVENT_SIZE
}

/// Makes a station whose link is down: `end` is 0 for a DTE and 1 for a DCE.
///
/// 17 where the slot holds a station, else 14 where a setting is out of its range or isn't known, and else 70 alone;
/// the slot is then as before.
#[unsafe(no_mangle)]
pub extern "C" fn x25_new(alloc: Global, slot: &mut Slot, end: u8, settings: Settings) -> u32
    ensures { Makes slot.old.handle.held slot.new.handle.held result end (cfg_in settings) }
{
    if slot.is_open {
        return IN_USE;
    }
    let Some(cfg) = settings.cfg() else {
        return BAD_SETTING;
    };
    match make(alloc, end, cfg) {
        Ok(held) => {
            slot.put(held);
            0
        }
        Err(error) => u32::from(error.number()),
    }
}

/// Lets a station go, where there is one. The slot holds none then.
#[unsafe(no_mangle)]
pub extern "C" fn x25_free(alloc: Global, slot: &mut Slot)
    ensures { slot.new.handle.held ≡ None }
{
    drop(slot.take(alloc));
}
