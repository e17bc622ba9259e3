//! Entries of a transcript as text.
ghost use Rattle.std.specs.Prelude.{◌≡◌, ◌++◌, [], IfOk, OnOk, OnErr, codes, decimal};
ghost use Rattle.x25_transcript.specs.EntryText.{address_text, channel_text, digits_text, end_text, name_text};
ghost use Rattle.x25_transcript.specs.EntryText.{given_number, given_text, params_text};
ghost use Rattle.x25_transcript.specs.EntryText.{down_text, ending_text, entry_line as line_of, entry_text};
ghost use Rattle.x25_transcript.specs.EntryText.{notice_text};
ghost use Rattle.x25_transcript.specs.EntryText.{marks_text, request_text};
ghost use Rattle.x25_transcript.specs.EntryText.{stretch_text, user_text};
ghost use Rattle.x25_station.specs.code.PlainEntry.{plain_asked, plain_entry, plain_name, plain_told};
ghost use Rattle.x25_packet.specs.Spelling.{bit};
ghost use Rattle.x25_text.specs.PacketText.{reason_text};
ghost use Rattle.x25_text.specs.Text.{octets_text};

use std::alloc::{AllocError, Global};
use x25_layer::{Params, Stretch};
use x25_link::{Ending, Reason};
use x25_packet::Marks;
use x25_station::{Asked, Entry, Lent, Role, Told};
use x25_text::Text;

#[inline(always)]
fn push_channel(channel: u16, text: &mut Text) -> Result<(), AllocError>
    ensures { OnOk result (text.new ≡ text.old ++ channel_text channel) }
{
    text.try_push_number(b" ch=", u64::from(channel))
}

#[inline(always)]
fn push_stretch(channel: u16, name: &Stretch, text: &mut Text) -> Result<(), AllocError>
    ensures { OnOk result (text.new ≡ text.old ++ stretch_text channel (plain_name name.now)) }
{
    push_channel(channel, text)?;
    text.try_push_number(b" at ", name.restarts)?;
    text.try_push_number(b".", name.clears)?;
    text.try_push_number(b".", name.resets)
}

/// Appends a label and then an address that is a text of digits.
fn push_address(label: &[u8], address: &[u8], text: &mut Text) -> Result<(), AllocError>
    ensures { OnOk result (text.new ≡ text.old ++ (label.now ++ address_text address.now)) }
{
    text.try_push(label)?;
    match address {
        [] => text.try_push(b"-"),
        figures => text.try_push(figures),
    }
}

/// Appends a label and then an address that is a list of digits.
fn push_digits(label: &[u8], digits: &[u8], text: &mut Text) -> Result<(), AllocError>
    ensures { OnOk result (text.new ≡ text.old ++ (label.now ++ digits_text digits.now)) }
{
    text.try_push(label)?;
    if digits.is_empty() {
        return text.try_push(b"-");
    }
    for digit in digits {
        text.try_push_number(b"", u64::from(*digit))?;
    }
    Ok(())
}

#[inline(always)]
fn push_user(user: &[u8], text: &mut Text) -> Result<(), AllocError>
    ensures { OnOk result (text.new ≡ text.old ++ user_text user.now) }
{
    text.try_push(b" data=")?;
    text.try_push_octets(user)
}

/// Appends a word, the name of a stretch, and a message that is sent or delivered there.
#[inline(always)]
fn push_message(
    word: &[u8],
    channel: u16,
    name: &Stretch,
    marks: Marks,
    user: &[u8],
    text: &mut Text,
) -> Result<(), AllocError>
    ensures { OnOk result (text.new ≡ text.old ++ (word.now ++ stretch_text channel (plain_name name.now)
        ++ marks_text marks ++ user_text user.now)) }
{
    push_under(word, channel, name, text)?;
    text.try_push_number(b" q=", u64::from(marks.q))?;
    if marks.d {
        text.try_push(b" d=1")?;
    }
    push_user(user, text)
}

fn push_reason(cause: u8, diagnostic: u8, text: &mut Text) -> Result<(), AllocError>
    ensures { OnOk result (text.new ≡ text.old ++ reason_text cause diagnostic) }
{
    text.try_push_number(b" cause=", u64::from(cause))?;
    text.try_push_number(b" diag=", u64::from(diagnostic))
}

/// Appends a number, where it isn't 0.
fn push_given_number(label: &[u8], number: u8, text: &mut Text) -> Result<(), AllocError>
    ensures { OnOk result (text.new ≡ text.old ++ given_number label.now number) }
{
    if number == 0 {
        return Ok(());
    }
    text.try_push_number(label, u64::from(number))
}

/// Appends a cause and a diagnostic that were given, each where it isn't 0.
fn push_given(cause: u8, diagnostic: u8, text: &mut Text) -> Result<(), AllocError>
    ensures { OnOk result (text.new ≡ text.old ++ given_text cause diagnostic) }
{
    push_given_number(b" cause=", cause, text)?;
    push_given_number(b" diag=", diagnostic, text)
}

/// Appends the packet sizes and windows, where one of them isn't the default.
fn push_params(params: Params, text: &mut Text) -> Result<(), AllocError>
    ensures { OnOk result (text.new ≡ text.old ++ params_text params) }
{
    if params == Params::default() {
        return Ok(());
    }
    text.try_push_number(b" size=", u64::from(params.size_called))?;
    text.try_push_number(b",", u64::from(params.size_calling))?;
    text.try_push_number(b" win=", u64::from(params.win_called))?;
    text.try_push_number(b",", u64::from(params.win_calling))
}

/// Appends a word and then a channel.
fn push_at(word: &[u8], channel: u16, text: &mut Text) -> Result<(), AllocError>
    ensures { OnOk result (text.new ≡ text.old ++ (word.now ++ channel_text channel)) }
{
    text.try_push(word)?;
    push_channel(channel, text)
}

/// Appends a word, a channel, and the packet sizes and windows of its call.
fn push_agreed(word: &[u8], channel: u16, params: Params, text: &mut Text) -> Result<(), AllocError>
    ensures { OnOk result (text.new ≡ text.old ++ (word.now ++ channel_text channel ++ params_text params)) }
{
    push_at(word, channel, text)?;
    push_params(params, text)
}

/// Appends a word, and then a channel and the name of its stretch.
#[inline(always)]
fn push_under(word: &[u8], channel: u16, name: &Stretch, text: &mut Text) -> Result<(), AllocError>
    ensures { OnOk result (text.new ≡ text.old ++ (word.now ++ stretch_text channel (plain_name name.now))) }
{
    text.try_push(word)?;
    push_stretch(channel, name, text)
}

/// Appends what the user of a channel asked.
fn push_asked(
    channel: u16,
    name: &Stretch,
    asked: Asked,
    lent: &Lent,
    text: &mut Text,
) -> Result<(), AllocError>
    ensures { OnOk result (text.new ≡ text.old ++ request_text channel (plain_name name.now)
        (plain_asked lent.now asked)) }
{
    match asked {
        Asked::Call { params } => {
            push_under(b"call", channel, name, text)?;
            push_address(b" called=", lent.called(), text)?;
            push_address(b" calling=", lent.calling(), text)?;
            push_user(lent.user(), text)?;
            push_params(params, text)
        }
        Asked::Accept { params } => push_agreed(b"accept", channel, params, text),
        Asked::Clear { cause, diagnostic } => {
            push_at(b"clear", channel, text)?;
            push_given(cause, diagnostic, text)
        }
        Asked::Send { marks } => push_message(b"send", channel, name, marks, lent.message(), text),
        Asked::Interrupt => {
            push_under(b"int", channel, name, text)?;
            push_user(lent.user(), text)
        }
        Asked::Reset { cause, diagnostic } => {
            push_at(b"reset", channel, text)?;
            push_given(cause, diagnostic, text)
        }
        Asked::Ready => push_at(b"ready", channel, text),
        Asked::NotReady => push_at(b"notready", channel, text),
    }
}

/// Appends what was reported to the user of a channel.
fn push_told(
    channel: u16,
    name: &Stretch,
    told: Told,
    lent: &Lent,
    text: &mut Text,
) -> Result<(), AllocError>
    ensures { OnOk result (text.new ≡ text.old ++ notice_text channel (plain_name name.now)
        (plain_told lent.now told)) }
{
    match told {
        Told::Incoming { params } => {
            push_under(b"incoming", channel, name, text)?;
            push_digits(b" called=", lent.called(), text)?;
            push_digits(b" calling=", lent.calling(), text)?;
            push_user(lent.user(), text)?;
            push_params(params, text)
        }
        Told::Connected { params } => push_agreed(b"connected", channel, params, text),
        Told::Collided => push_at(b"collided", channel, text),
        Told::Cleared { cause, diagnostic } => {
            push_at(b"cleared", channel, text)?;
            push_reason(cause, diagnostic, text)
        }
        Told::ClearDone => push_at(b"cleardone", channel, text),
        Told::WasReset { cause, diagnostic } => {
            push_at(b"wasreset", channel, text)?;
            push_reason(cause, diagnostic, text)
        }
        Told::ResetDone => push_at(b"resetdone", channel, text),
        Told::Delivered { marks } => push_message(
            b"message",
            channel,
            name,
            marks,
            lent.message(),
            text,
        ),
        Told::Interrupted => {
            push_under(b"interrupt", channel, name, text)?;
            push_user(lent.user(), text)
        }
        Told::InterruptDone => push_at(b"intdone", channel, text),
        Told::Fault { diagnostic } => {
            push_at(b"fault", channel, text)?;
            text.try_push_number(b" diag=", u64::from(diagnostic))
        }
    }
}

/// Appends why the link went down.
fn push_down(reason: Reason, text: &mut Text) -> Result<(), AllocError>
    ensures { OnOk result (text.new ≡ text.old ++ down_text reason) }
{
    text.try_push(match reason {
        Reason::Retries => b"retries",
        Reason::Disc => b"disc",
        Reason::Dm => b"dm",
        Reason::FrmrSent => b"frmr-sent",
        Reason::FrmrGot => b"frmr-got",
        Reason::Reset => b"reset",
        Reason::Local => b"local",
        Reason::Counts => b"counts",
    })
}

/// Appends how it ended that this end disconnected the link.
fn push_ending(ending: Ending, text: &mut Text) -> Result<(), AllocError>
    ensures { OnOk result (text.new ≡ text.old ++ ending_text ending) }
{
    text.try_push(match ending {
        Ending::ByUa => b"ua",
        Ending::ByDm => b"dm",
        Ending::GivenUp => b"retries",
    })
}

/// Appends what a packet brought beside what was told of it.
fn push_beside(
    channel: u16,
    facilities: &[u8],
    user: &[u8],
    text: &mut Text,
) -> Result<(), AllocError>
    ensures { OnOk result (text.new ≡ text.old ++ (codes "beside" ++ channel_text channel
        ++ (codes " fac=" ++ octets_text facilities.now) ++ user_text user.now)) }
{
    push_at(b"beside", channel, text)?;
    text.try_push(b" fac=")?;
    text.try_push_octets(facilities)?;
    push_user(user, text)
}

/// Appends that a DIAGNOSTIC came.
fn push_diagnosed(diagnostic: u8, text: &mut Text) -> Result<(), AllocError>
    ensures { OnOk result (text.new ≡ text.old ++ (codes "diagnostic" ++ (codes " diag=" ++ decimal diagnostic))) }
{
    text.try_push(b"diagnostic")?;
    text.try_push_number(b" diag=", u64::from(diagnostic))
}

/// Appends that messages are confirmed.
fn push_confirmed(
    channel: u16,
    name: &Stretch,
    count: usize,
    text: &mut Text,
) -> Result<(), AllocError>
    ensures { OnOk result (text.new ≡ text.old ++ (codes "confirmed" ++ stretch_text channel (plain_name name.now)
        ++ (codes " count=" ++ decimal count))) }
{
    push_under(b"confirmed", channel, name, text)?;
    text.try_push_number(b" count=", count as u64)
}

fn push_entry_text(entry: &Entry, lent: &Lent, text: &mut Text) -> Result<(), AllocError>
    ensures { OnOk result (text.new ≡ text.old ++ entry_text (plain_entry lent.now entry.now)) }
{
    match entry {
        Entry::Asked {
            channel,
            name,
            asked,
        } => push_asked(*channel, name, *asked, lent, text),
        Entry::Told {
            channel,
            name,
            told,
        } => push_told(*channel, name, *told, lent, text),
        Entry::RestartAsked { cause, diagnostic } => {
            text.try_push(b"restart")?;
            push_given(*cause, *diagnostic, text)
        }
        Entry::ConnectAsked => text.try_push(b"connect"),
        Entry::DisconnectAsked => text.try_push(b"disconnect"),
        Entry::RelinkAsked => text.try_push(b"relink"),
        Entry::LinkUp => text.try_push(b"linkup"),
        Entry::LinkDown(reason) => {
            text.try_push(b"linkdown ")?;
            push_down(*reason, text)
        }
        Entry::Disconnected(ending) => {
            text.try_push(b"disconnected ")?;
            push_ending(*ending, text)
        }
        Entry::WasRestarted { cause, diagnostic } => {
            text.try_push(b"restarted")?;
            push_reason(*cause, *diagnostic, text)
        }
        Entry::RestartDone => text.try_push(b"restartdone"),
        Entry::Fault { diagnostic } => {
            push_at(b"fault", 0, text)?;
            text.try_push_number(b" diag=", u64::from(*diagnostic))
        }
        Entry::Beside { channel } => {
            push_beside(*channel, lent.facilities(), lent.beside(), text)
        }
        Entry::Confirmed {
            channel,
            name,
            count,
        } => push_confirmed(*channel, name, *count, text),
        Entry::Diagnosed { diagnostic } => push_diagnosed(*diagnostic, text),
    }
}

fn push_end(at: Role, text: &mut Text) -> Result<(), AllocError>
    ensures { OnOk result (text.new ≡ text.old ++ end_text at) }
{
    text.try_push(match at {
        Role::Dte => b"dte ",
        Role::Dce => b"dce ",
    })
}

#[tactic(auto, unfolding(crate::specs::EntryText::entry_line))]
fn push_line(at: Role, entry: &Entry, lent: &Lent, text: &mut Text) -> Result<(), AllocError>
    ensures { OnOk result (text.new ≡ text.old ++ line_of at (plain_entry lent.now entry.now)) }
{
    push_end(at, text)?;
    push_entry_text(entry, lent, text)?;
    text.try_push(b"\n")
}

/// Appends the line of an entry at an end, with what its step lends and its line feed. Err: no memory; the text is
/// empty then.
pub fn push_entry(at: Role, entry: &Entry, lent: &Lent, text: &mut Text) -> Result<(), AllocError>
    ensures text { OnOk result (text.new ≡ text.old ++ line_of at (plain_entry lent.now entry.now)) }
    ensures cleared { OnErr result (text.new ≡ []) }
{
    if let Err(error) = push_line(at, entry, lent, text) {
        text.clear();
        return Err(error);
    }
    Ok(())
}

/// The line of an entry at an end, as above, in memory of its own. Err: no memory.
pub fn entry_line(alloc: Global, at: Role, entry: &Entry, lent: &Lent) -> Result<Text, AllocError>
    ensures { IfOk result (λ text. text ≡ line_of at (plain_entry lent.now entry.now)) }
{
    let mut text = Text::new(alloc)?;
    push_entry(at, entry, lent, &mut text)?;
    Ok(text)
}
