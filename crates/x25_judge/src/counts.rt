//! How many frames and packets were seen, how many of them were judged, and what was told.
ghost use Rattle.std.specs.Prelude.{◌≡◌, ◌+◌, ◌≤◌, ◌%◌, ◌++◌, [], true, ℕ, IfOk, List, OnOk, OnErr, Option};
ghost use Rattle.std.specs.{Prelude.{MatchResult, decimal, length, slice_index_or, vec_capacity}, List.{flat_map}};
ghost use Rattle.x25_io.specs.code.Written.{AppendsPrefix, Tells, TellsMore};
ghost use Rattle.x25_judge.specs.Counts as definition;
ghost use Rattle.x25_judge.specs.declared.counts.Count as declared;

use itoa::Buffer;
use std::alloc::{AllocError, Global};
use std::marker::Model;
use x25_frame::Role;
use x25_io::{Failed, Output, Sink};
use x25_text::{ROOM, Text};

/// How many numbers a logical channel may have.
const CHANNELS: usize = 4_096;

/// Frames or packets that an end sent.
#[derive(Clone, Copy)]
pub(crate) struct Count {
    /// The logical channel of packets.
    pub(crate) channel: u16,
    pub(crate) seen: u64,
    pub(crate) judged: u64,
}

impl Count {
    /// None.
    pub(crate) fn none() -> Count
        ensures { result ≡ definition.none }
    {
        Count {
            channel: 0,
            seen: 0,
            judged: 0,
        }
    }

    /// One more.
    pub(crate) fn more(self, channel: u16, is_judged: bool) -> Count
        ensures { result ≡ definition.more channel is_judged self }
    {
        Count {
            channel,
            seen: self.seen.saturating_add(1),
            judged: if is_judged {
                self.judged.saturating_add(1)
            } else {
                self.judged
            },
        }
    }
}

/// How many frames broke a rule, how many one of manners, and of how many a frame that is missing may explain that.
#[derive(Clone, Copy)]
pub(crate) struct Tally {
    pub(crate) rules: u64,
    pub(crate) manners: u64,
    pub(crate) doubts: u64,
}

impl Tally {
    /// One more of each that is broken, or one more that is in doubt.
    pub(crate) fn more(self, in_doubt: bool, is_rule: bool, is_manners: bool) -> Tally
        ensures { result ≡ definition.tallied in_doubt is_rule is_manners self }
    {
        if in_doubt {
            return Tally {
                doubts: self.doubts.saturating_add(1),
                ..self
            };
        }
        Tally {
            doubts: self.doubts,
            rules: if is_rule {
                self.rules.saturating_add(1)
            } else {
                self.rules
            },
            manners: if is_manners {
                self.manners.saturating_add(1)
            } else {
                self.manners
            },
        }
    }
}

/// The packets of an end on the channels 0 to 4,095: no call but `new` takes memory.
#[derive(Drop)]
pub(crate) struct Counts {
    counts: Vec<Count>,
}

impl Model for Counts {
    ghost Value = { List declared.Count };

    ghost view = { λ c. c.counts.items };

    ghost invariant = { λ c. (length c.counts.items ≡ 4096) × (vec_capacity c.counts ≡ 4096) };
}

/// Puts none for each channel.
#[tactic(auto, unfolding(crate::specs::Counts::no_counts))]
fn fill_up(counts: &mut Vec<Count>)
    requires empty { counts.old.items ≡ [] }
    requires room { 4096 ≤ vec_capacity counts.old }
    ensures items { counts.new.items ≡ definition.no_counts }
    ensures size { length counts.new.items ≡ 4096 }
    ensures capacity { vec_capacity counts.new ≡ vec_capacity counts.old }
{
    for _ in 0..CHANNELS {
        counts.push_reserved(Count::none());
    }
}

impl Counts {
    /// None. Err: no memory.
    pub(crate) fn new(alloc: Global) -> Result<Counts, AllocError>
        ensures { IfOk result (λ counts. counts ≡ definition.no_counts) }
    {
        let mut counts = Vec::with_capacity(alloc, CHANNELS)?;
        fill_up(&mut counts);
        Ok(Counts { counts })
    }

    /// One packet more on a channel.
    pub(crate) fn add(&mut self, channel: u16, is_judged: bool)
        ensures { self.new ≡ definition.counted channel is_judged self.old }
    {
        let at = usize::from(channel) % CHANNELS;
        self.counts[at] = self.counts[at].more(channel, is_judged);
    }

    pub(crate) fn as_slice(&self) -> &[Count]
        ensures { result.now ≡ self.now }
    {
        self.counts.as_slice()
    }
}

/// The most characters of a line of counts.
const MOST_COUNT: usize = 180;

/// Appends a number.
fn push_count(count: u64, text: &mut Text)
    requires { length text.old + 20 ≤ ROOM }
    ensures text { text.new ≡ text.old ++ decimal count }
    ensures size { length text.new ≤ length text.old + 20 }
{
    let mut buffer = Buffer::new();
    text.push(buffer.format(count).as_bytes());
}

/// Appends how many there are, and how many were judged.
fn push_counted(count: Count, what: &[u8], text: &mut Text)
    requires few { length what.now ≤ 12 }
    requires room { length text.old + 110 ≤ ROOM }
    ensures text { text.new ≡ text.old ++ definition.counted_text count what.now }
    ensures size { length text.new ≤ length text.old + 110 }
{
    push_count(count.seen, text);
    text.push(what);
    push_count(count.judged, text);
    text.push(b" judged, ");
    push_count(count.seen.saturating_sub(count.judged), text);
    text.push(b" not judged\n");
}

/// Appends why no frame of an end was judged, where it sent some.
fn push_why(from: Role, count: Count, text: &mut Text)
    requires { length text.old + 60 ≤ ROOM }
    ensures { text.new ≡ text.old ++ definition.why_line from count }
{
    if count.seen == 0 || count.judged != 0 {
        return;
    }
    match from {
        Role::Dte => text.push(b"# no frame of dte is judged: the trace shows no set-up\n"),
        Role::Dce => text.push(b"# no frame of dce is judged: the trace shows no set-up\n"),
    }
}

/// Appends the line on the frames of an end, and why none was judged.
fn push_frames(from: Role, count: Count, text: &mut Text)
    requires { length text.old + MOST_COUNT ≤ ROOM }
    ensures { text.new ≡ text.old ++ definition.frames_line from count }
{
    match from {
        Role::Dte => text.push(b"# dte: "),
        Role::Dce => text.push(b"# dce: "),
    }
    push_counted(count, b" frames, ", text);
    push_why(from, count, text);
}

/// Appends the line on the packets of an end on a channel, where there are any.
fn push_packets(from: Role, count: Count, text: &mut Text)
    requires { length text.old + MOST_COUNT ≤ ROOM }
    ensures { text.new ≡ text.old ++ definition.packets_line from count }
{
    if count.seen == 0 {
        return;
    }
    match from {
        Role::Dte => text.push_number(b"# dte channel ", count.channel),
        Role::Dce => text.push_number(b"# dce channel ", count.channel),
    }
    text.push(b": ");
    push_counted(count, b" packets, ", text);
}

/// Appends how much is in doubt, where anything is.
fn push_doubts(count: u64, text: &mut Text)
    requires { length text.old + 40 ≤ ROOM }
    ensures text { text.new ≡ text.old ++ definition.doubts_text count }
    ensures size { length text.new ≤ length text.old + 40 }
{
    if count == 0 {
        return;
    }
    text.push(b", ");
    push_count(count, text);
    text.push(b" in doubt");
}

/// Appends the line on what was told.
fn push_tally(tally: Tally, text: &mut Text)
    requires { length text.old + MOST_COUNT ≤ ROOM }
    ensures { text.new ≡ text.old ++ definition.tally_line tally }
{
    text.push(b"# told: ");
    push_count(tally.rules, text);
    text.push(b" rules, ");
    push_count(tally.manners, text);
    text.push(b" manners");
    push_doubts(tally.doubts, text);
    text.push(b"\n");
}

/// A line on frames of an end, on its packets on a channel, on what was told, that there was nothing to judge, or that
/// nothing was judged.
#[derive(Clone, Copy)]
pub(crate) enum Line {
    Frames(Role, Count),
    Packets(Role, Count),
    Told(Tally),
    Nothing,
    Unjudged,
}

/// Appends it.
fn push_line(line: Line, text: &mut Text)
    requires { length text.old + MOST_COUNT ≤ ROOM }
    ensures { text.new ≡ text.old ++ definition.line_text line }
{
    match line {
        Line::Frames(from, count) => push_frames(from, count, text),
        Line::Packets(from, count) => push_packets(from, count, text),
        Line::Told(tally) => push_tally(tally, text),
        Line::Nothing => text.push(
            b"# nothing was judged: no line has a frame in hexadecimal digits\n",
        ),
        Line::Unjudged => text.push(
            b"# nothing was judged: the trace shows no set-up of the link\n",
        ),
    }
}

/// Tells a line.
pub(crate) fn tell_line<W: Sink>(
    line: Line,
    output: &mut Output,
    writer: &mut W,
) -> Result<(), Failed>
    ensures kept { OnOk result (W.is_marked writer.new ≡ W.is_marked writer.old) }
    ensures tells { TellsMore result (W.contents writer.old) (W.contents writer.new) output.old output.new
        (definition.line_text line) }
    ensures marked { OnErr result (W.is_marked writer.new ≡ true) }
{
    output.make_room(MOST_COUNT, writer)?;
    push_line(line, output.text());
    Ok(())
}

/// How many packets on each channel there were, and how many were judged.
fn tell_packets<W: Sink>(
    from: Role,
    counts: &[Count],
    output: &mut Output,
    writer: &mut W,
) -> Result<(), Failed>
    ensures kept { OnOk result (W.is_marked writer.new ≡ W.is_marked writer.old) }
    ensures tells { TellsMore result (W.contents writer.old) (W.contents writer.new) output.old output.new
        (flat_map (definition.packets_line from) counts.now) }
    ensures marked { OnErr result (W.is_marked writer.new ≡ true) }
{
    for count in counts {
        tell_line(Line::Packets(from, *count), output, writer)?;
    }
    Ok(())
}

/// Tells how much of an end was judged.
pub(crate) fn tell_end<W: Sink>(
    from: Role,
    frames: Count,
    packets: &Counts,
    output: &mut Output,
    writer: &mut W,
) -> Result<(), Failed>
    ensures kept { OnOk result (W.is_marked writer.new ≡ W.is_marked writer.old) }
    ensures tells { TellsMore result (W.contents writer.old) (W.contents writer.new) output.old output.new
        (definition.end_text from frames packets.now) }
    ensures marked { OnErr result (W.is_marked writer.new ≡ true) }
{
    tell_line(Line::Frames(from, frames), output, writer)?;
    tell_packets(from, packets.as_slice(), output, writer)
}
