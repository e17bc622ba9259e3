//! An item of what a station last answered.
ghost use Rattle.std.specs.Prelude.{◌≡◌, length};
ghost use Rattle.x25_station.specs.code.PlainEntry.{plain_asked, plain_entry, plain_told};
ghost use Rattle.x25_c.specs.Copying.{Copies};
ghost use Rattle.x25_c.specs.Event.{asked_user, entry_user, told_user};
ghost use Rattle.x25_c.specs.Item.{called_at, calling_at, event_at, facilities_at, octets_at, plain_item};

use crate::clocked::Passed;
use crate::copying::{copy, copy_figures};
use crate::event::{Event, FRAME, TIMEOUT, TIMER};
use crate::numbers::timer_number;
use x25_station::{Asked, Entry, Lent, Timer, Told};

/// A frame to send, a timer that passed, an entry of the transcript, or what becomes of timer T1.
#[derive(Clone, Copy)]
pub(crate) enum Item<'a> {
    Frame(&'a [u8]),
    Passed(Passed),
    Entry(&'a Entry, &'a Lent),
    Timer(Timer),
}

impl<'a> Item<'a> {
    // In the place of its call the event is written where C has it, and not copied there.
    pub(crate) fn event(&self) -> Event
        ensures { result ≡ event_at (plain_item self.now) }
    {
        match self {
            Item::Frame(octets) => Event {
                count: octets.len(),
                ..Event::alone(FRAME)
            },
            Item::Passed(passed) => Event {
                reason: passed.timer,
                channel: passed.channel,
                ..Event::alone(TIMEOUT)
            },
            Item::Entry(entry, lent) => Event::of_entry(entry, lent),
            Item::Timer(timer) => Event {
                timer: timer_number(*timer),
                ..Event::alone(TIMER)
            },
        }
    }

    /// The octets of a frame, or user data.
    pub(crate) fn octets(&self) -> &[u8]
        ensures { result.now ≡ octets_at (plain_item self.now) }
    {
        match self {
            Item::Frame(octets) => octets,
            Item::Entry(entry, lent) => user_of(entry, lent),
            Item::Passed(_) | Item::Timer(_) => &[],
        }
    }

    /// Copies the address that is called, in figures.
    pub(crate) fn called(&self, room: &mut [u8]) -> usize
        ensures copied { Copies (called_at (plain_item self.now)) room.old room.new }
        ensures count { result ≡ length (called_at (plain_item self.now)) }
    {
        match self {
            Item::Entry(
                Entry::Asked {
                    asked: Asked::Call { .. },
                    ..
                },
                lent,
            ) => copy(lent.called(), room),
            Item::Entry(
                Entry::Told {
                    told: Told::Incoming { .. },
                    ..
                },
                lent,
            ) => copy_figures(lent.called(), room),
            _ => copy(&[], room),
        }
    }

    /// Copies the address that calls, in figures.
    pub(crate) fn calling(&self, room: &mut [u8]) -> usize
        ensures copied { Copies (calling_at (plain_item self.now)) room.old room.new }
        ensures count { result ≡ length (calling_at (plain_item self.now)) }
    {
        match self {
            Item::Entry(
                Entry::Asked {
                    asked: Asked::Call { .. },
                    ..
                },
                lent,
            ) => copy(lent.calling(), room),
            Item::Entry(
                Entry::Told {
                    told: Told::Incoming { .. },
                    ..
                },
                lent,
            ) => copy_figures(lent.calling(), room),
            _ => copy(&[], room),
        }
    }

    /// The facility field that came beside.
    pub(crate) fn facilities(&self) -> &[u8]
        ensures { result.now ≡ facilities_at (plain_item self.now) }
    {
        match self {
            Item::Entry(Entry::Beside { .. }, lent) => lent.facilities(),
            _ => &[],
        }
    }
}

fn user_of<'a>(entry: &Entry, lent: &'a Lent) -> &'a [u8]
    ensures { result.now ≡ entry_user (plain_entry lent.now entry.now) }
{
    match entry {
        Entry::Asked { asked, .. } => user_asked(*asked, lent),
        Entry::Told { told, .. } => user_told(*told, lent),
        Entry::Beside { .. } => lent.beside(),
        _ => &[],
    }
}

fn user_asked(asked: Asked, lent: &Lent) -> &[u8]
    ensures { result.now ≡ asked_user (plain_asked lent.now asked) }
{
    match asked {
        Asked::Call { .. } | Asked::Interrupt => lent.user(),
        Asked::Send { .. } => lent.message(),
        _ => &[],
    }
}

fn user_told(told: Told, lent: &Lent) -> &[u8]
    ensures { result.now ≡ told_user (plain_told lent.now told) }
{
    match told {
        Told::Incoming { .. } | Told::Interrupted => lent.user(),
        Told::Delivered { .. } => lent.message(),
        _ => &[],
    }
}
