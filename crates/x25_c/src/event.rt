//! What a C program is told of an item of an answer: an event, of which each kind has what `include/x25.h` says, and
//! else 0.
ghost use Rattle.std.specs.Prelude.{◌≡◌, length};
ghost use Rattle.x25_c.specs.Event.{asked_event, ending_number, entry_event, kind_alone, on, reason_number, under};
ghost use Rattle.x25_c.specs.Event.{told_event};
ghost use Rattle.x25_station.specs.code.PlainEntry.{plain_asked, plain_entry, plain_name, plain_told};

use crate::sizes::Sizes;
use crate::stretch_name::StretchName;
use x25_layer::{Params, Stretch};
use x25_link::{Ending, Reason};
use x25_station::{Asked, Entry, Lent, Marks, Told};

pub(crate) const FRAME: u16 = 1;

pub(crate) const TIMER: u16 = 2;

const LINK_UP: u16 = 3;

const LINK_DOWN: u16 = 4;

const RESTARTED: u16 = 5;

const RESTART_DONE: u16 = 6;

const FAULT: u16 = 7;

const BESIDE: u16 = 8;

const DIAGNOSTIC: u16 = 9;

const INCOMING: u16 = 10;

const CONNECTED: u16 = 11;

const COLLIDED: u16 = 12;

const CLEARED: u16 = 13;

const CLEAR_DONE: u16 = 14;

const RESET: u16 = 15;

const RESET_DONE: u16 = 16;

const MESSAGE: u16 = 17;

const INTERRUPT: u16 = 18;

const INTERRUPT_DONE: u16 = 19;

const CONNECT_ASKED: u16 = 20;

const DISCONNECT_ASKED: u16 = 21;

const RESTART_ASKED: u16 = 22;

const CALL_ASKED: u16 = 23;

const ACCEPT_ASKED: u16 = 24;

const CLEAR_ASKED: u16 = 25;

const SEND_ASKED: u16 = 26;

const INTERRUPT_ASKED: u16 = 27;

const RESET_ASKED: u16 = 28;

const READY_ASKED: u16 = 29;

const NOT_READY_ASKED: u16 = 30;

const RELINK_ASKED: u16 = 31;

pub(crate) const TIMEOUT: u16 = 32;

const CONFIRMED: u16 = 33;

const DISCONNECTED: u16 = 34;

/// An event: its kind, and what that has; `count` is how many octets of a frame or of user data there are. `later` and
/// `more` are room for what later versions tell.
#[repr(C)]
#[derive(Clone, Copy)]
pub struct Event {
    pub kind: u16,
    pub channel: u16,
    pub q: bool,
    pub d: bool,
    pub cause: u8,
    pub diagnostic: u8,
    pub reason: u8,
    pub sizes: Sizes,
    pub timer: u32,
    pub stretch: StretchName,
    pub count: usize,
    pub confirmed: usize,
    pub later: u64,
    pub more: u64,
}

impl Event {
    /// A kind that has nothing.
    pub(crate) fn alone(kind: u16) -> Event
        ensures { result ≡ kind_alone kind }
    {
        Event {
            kind,
            channel: 0,
            q: false,
            d: false,
            cause: 0,
            diagnostic: 0,
            reason: 0,
            sizes: Sizes::none(),
            timer: 0,
            stretch: StretchName::none(),
            count: 0,
            confirmed: 0,
            later: 0,
            more: 0,
        }
    }

    fn on(kind: u16, channel: u16) -> Event
        ensures { result ≡ on kind channel }
    {
        Event {
            channel,
            ..Event::alone(kind)
        }
    }

    fn under(kind: u16, channel: u16, name: &Stretch) -> Event
        ensures { result ≡ under kind channel (plain_name name.now) }
    {
        Event {
            channel,
            stretch: StretchName::of(name),
            ..Event::alone(kind)
        }
    }

    // A message that is asked to be sent, or came.
    fn of_message(kind: u16, channel: u16, name: &Stretch, marks: Marks, user: &[u8]) -> Event
        ensures { result ≡ record (under kind channel (plain_name name.now)) {
          q = marks.q;
          d = marks.d;
          count = length user.now;
        } }
    {
        Event {
            q: marks.q,
            d: marks.d,
            count: user.len(),
            ..Event::under(kind, channel, name)
        }
    }

    fn of_asked(channel: u16, name: &Stretch, asked: Asked, lent: &Lent) -> Event
        ensures { result ≡ asked_event channel (plain_name name.now) (plain_asked lent.now asked) }
    {
        match asked {
            Asked::Call { params } => Event {
                sizes: Sizes::of(params),
                count: lent.user().len(),
                ..Event::under(CALL_ASKED, channel, name)
            },
            Asked::Accept { params } => Event {
                sizes: Sizes::of(params),
                ..Event::on(ACCEPT_ASKED, channel)
            },
            Asked::Clear { cause, diagnostic } => Event {
                cause,
                diagnostic,
                ..Event::on(CLEAR_ASKED, channel)
            },
            Asked::Send { marks } => {
                Event::of_message(SEND_ASKED, channel, name, marks, lent.message())
            }
            Asked::Interrupt => Event {
                count: lent.user().len(),
                ..Event::under(INTERRUPT_ASKED, channel, name)
            },
            Asked::Reset { cause, diagnostic } => Event {
                cause,
                diagnostic,
                ..Event::on(RESET_ASKED, channel)
            },
            Asked::Ready => Event::on(READY_ASKED, channel),
            Asked::NotReady => Event::on(NOT_READY_ASKED, channel),
        }
    }

    fn of_told(channel: u16, name: &Stretch, told: Told, lent: &Lent) -> Event
        ensures { result ≡ told_event channel (plain_name name.now) (plain_told lent.now told) }
    {
        match told {
            Told::Incoming { params } => Event {
                sizes: Sizes::of(params),
                count: lent.user().len(),
                ..Event::under(INCOMING, channel, name)
            },
            Told::Connected { params } => Event {
                sizes: Sizes::of(params),
                ..Event::on(CONNECTED, channel)
            },
            Told::Collided => Event::on(COLLIDED, channel),
            Told::Cleared { cause, diagnostic } => Event {
                cause,
                diagnostic,
                ..Event::on(CLEARED, channel)
            },
            Told::ClearDone => Event::on(CLEAR_DONE, channel),
            Told::WasReset { cause, diagnostic } => Event {
                cause,
                diagnostic,
                ..Event::on(RESET, channel)
            },
            Told::ResetDone => Event::on(RESET_DONE, channel),
            Told::Delivered { marks } => {
                Event::of_message(MESSAGE, channel, name, marks, lent.message())
            }
            Told::Interrupted => Event {
                count: lent.user().len(),
                ..Event::under(INTERRUPT, channel, name)
            },
            Told::InterruptDone => Event::on(INTERRUPT_DONE, channel),
            Told::Fault { diagnostic } => Event {
                diagnostic,
                ..Event::on(FAULT, channel)
            },
        }
    }

    /// What an entry of the transcript says, with what its step lends.
    pub(crate) fn of_entry(entry: &Entry, lent: &Lent) -> Event
        ensures { result ≡ entry_event (plain_entry lent.now entry.now) }
    {
        match entry {
            Entry::Asked {
                channel,
                name,
                asked,
            } => Event::of_asked(*channel, name, *asked, lent),
            Entry::Told {
                channel,
                name,
                told,
            } => Event::of_told(*channel, name, *told, lent),
            Entry::RestartAsked { cause, diagnostic } => Event {
                cause: *cause,
                diagnostic: *diagnostic,
                ..Event::alone(RESTART_ASKED)
            },
            Entry::ConnectAsked => Event::alone(CONNECT_ASKED),
            Entry::DisconnectAsked => Event::alone(DISCONNECT_ASKED),
            Entry::RelinkAsked => Event::alone(RELINK_ASKED),
            Entry::LinkUp => Event::alone(LINK_UP),
            Entry::LinkDown(reason) => Event {
                reason: number_of_reason(*reason),
                ..Event::alone(LINK_DOWN)
            },
            Entry::Disconnected(ending) => Event {
                reason: number_of_ending(*ending),
                ..Event::alone(DISCONNECTED)
            },
            Entry::WasRestarted { cause, diagnostic } => Event {
                cause: *cause,
                diagnostic: *diagnostic,
                ..Event::alone(RESTARTED)
            },
            Entry::RestartDone => Event::alone(RESTART_DONE),
            Entry::Fault { diagnostic } => Event {
                diagnostic: *diagnostic,
                ..Event::alone(FAULT)
            },
            Entry::Beside { channel } => Event {
                count: lent.beside().len(),
                ..Event::on(BESIDE, *channel)
            },
            Entry::Confirmed {
                channel,
                name,
                count,
            } => Event {
                confirmed: *count,
                ..Event::under(CONFIRMED, *channel, name)
            },
            Entry::Diagnosed { diagnostic } => Event {
                diagnostic: *diagnostic,
                ..Event::alone(DIAGNOSTIC)
            },
        }
    }
}

fn number_of_reason(reason: Reason) -> u8
    ensures { result ≡ reason_number reason }
{
    match reason {
        Reason::Retries => 1,
        Reason::Disc => 2,
        Reason::Dm => 3,
        Reason::FrmrSent => 4,
        Reason::FrmrGot => 5,
        Reason::Reset => 6,
        Reason::Local => 7,
        Reason::Counts => 8,
    }
}

fn number_of_ending(ending: Ending) -> u8
    ensures { result ≡ ending_number ending }
{
    match ending {
        Ending::ByUa => 1,
        Ending::ByDm => 2,
        Ending::GivenUp => 3,
    }
}
