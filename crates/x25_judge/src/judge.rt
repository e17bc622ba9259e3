//! What answers a line.
ghost use Rattle.std.specs.Prelude.{◌≡◌, ◌+◌, ◌≤◌, ◌++◌, ℕ, List, Option, true, length, codes, is_some, IfOk, OnOk};
ghost use Rattle.std.specs.Prelude.{Err, false, if◌then◌else◌, OnErr, MatchResult};
ghost use Rattle.x25_io.specs.code.Written.{AppendsPrefix, Tells, TellsMore};
ghost use Rattle.x25_decode.specs.Decoding.{mark_of, n1};
ghost use Rattle.x25_frame.specs.{Error.{IsFirstError}, Reading.{frame_of}, Frame.{plain}};
ghost use Rattle.x25_text.specs.FrameText.{frame_text, reading_text};
ghost use Rattle.x25_text.specs.WideFrameText.{wide_frame_text, wide_reading_text};
ghost use Rattle.x25_packet_judge.specs.Book.{IsRead};
ghost use Rattle.x25_judge.specs.{Doubt.{explains_told}, Links.{passes as passes_by, quiet}};
ghost use Rattle.x25_judge.specs.Judge.{answer_to, begins_at, behind, book_of, broken_text, counts_by, counts_carried};
ghost use Rattle.x25_judge.specs.Judge.{counts_frame, counts_text, covers, doubt_text, end_of, forgotten, gap_of};
ghost use Rattle.x25_judge.specs.{Judge.{has_taken, is_behind_gap}, Rule.{breaks_order as is_broken}};
ghost use Rattle.x25_judge.specs.Judge.{is_nothing, is_settled, lack_of, last_line, missed_by, next_by, next_missed};
ghost use Rattle.x25_judge.specs.Judge.{no_frame, noted_text, other_of, own_of, read_of, remark_by, remark_missed};
ghost use Rattle.x25_judge.specs.Judge.{remark_of, remark_text, seen_by, sign_of, tallies};

use crate::counts::{Count, Counts, Line, Tally, tell_end, tell_line};
use crate::doubt::{At, Frames, Lack};
use crate::links::{End, Seen, misses, passes, sees};
use crate::manners::Manners;
use crate::midst::Watch;
use crate::note::{MOST_NOTE, Note, first_note, packet_note, push_note};
use crate::rule::{Rule, breaks_order, first};
use crate::rule_text::{MOST_RULE, push_rule};
use std::alloc::{AllocError, Global};
use x25_decode::{Reading, push_gap, read_gap, read_sent};
use x25_frame::{Frame, FrameError, N1, Role, decode};
use x25_io::{Failed, Output, Sink};
use x25_packet::{Packet, PacketError, channel, decode_within, longest_user};
use x25_packet_judge::Book;
use x25_possible::Defaults;
use x25_possible_links::{LinkSet, Stand};
use x25_text::{
    MOST_OCTETS, MOST_TEXT, ROOM, Text, push_fault, push_frame, push_other_frame, push_packet,
    push_wide_frame,
};

/// The most characters of the rule that a frame breaks, of the end in front of it, and of what it says of a frame that
/// is missing; no note has as many.
const MOST_REMARK: usize = MOST_RULE + 47;

/// The most characters of an answer, with its mark, a space and its line feed.
pub(crate) const MOST_ANSWER: usize = MOST_TEXT + MOST_REMARK + 3;

/// What makes the status 1, beside a broken rule and a line that is refused.
#[derive(Clone, Copy)]
pub struct Strictness {
    /// A frame or a packet that isn't judged, and a rule that frames would explain which may be missing.
    pub unjudged: bool,
    /// Broken manners.
    pub manners: bool,
}

/// Both ends, as what they sent shows them; at most `window` I frames may be unacknowledged.
#[derive(Drop)]
pub(crate) struct Judge {
    pub(crate) window: u8,
    pub(crate) reading: Reading,
    pub(crate) strictness: Strictness,
    pub(crate) dte: End,
    pub(crate) dce: End,
    pub(crate) book: Book,
    pub(crate) dte_frames: Count,
    pub(crate) dce_frames: Count,
    pub(crate) dte_packets: Counts,
    pub(crate) dce_packets: Counts,
    pub(crate) told: Tally,
    /// A frame or a packet was judged, or something was told.
    pub(crate) has_judged: bool,
    pub(crate) at: At,
    /// Frames that were sent to it are missing, behind a gap.
    pub(crate) dte_misses: bool,
    pub(crate) dce_misses: bool,
}

/// The rule that octets break which spell no frame, where they aren't damaged.
fn no_frame(error: FrameError) -> Option<Rule>
    ensures { result ≡ no_frame error }
{
    match error {
        FrameError::Undefined { .. } | FrameError::NoInfoAllowed { .. } | FrameError::TooLong =>
            Some(Rule::NoFrame),
        FrameError::Short | FrameError::BadFcs | FrameError::BadAddress => None,
    }
}

/// Whether no packet of the frame goes unjudged.
#[tactic(auto, unfolding(crate::specs::Judge::covers))]
fn covers(frame: &Frame, is_again: bool, is_judged: bool) -> bool
    ensures { result ≡ covers (plain frame.now) is_again is_judged }
{
    match frame {
        Frame::I { .. } => is_again || is_judged,
        _ => true,
    }
}

/// The packet of an I frame, where packets aren't read in all forms.
#[inline(always)]
fn packet_of<'a>(reading: Reading, frame: &Frame<'a>) -> Result<Packet<'a>, PacketError>
    ensures { IsRead reading (plain frame.now) result }
{
    match frame {
        Frame::I { info, .. } if !reading.wide => decode_within(longest_user(reading.long), info),
        _ => Err(PacketError::TooShort),
    }
}

/// Appends a frame, as it is read.
#[inline(always)]
fn push_seen(reading: Reading, frame: &Frame, packet: &Result<Packet, PacketError>, text: &mut Text)
    requires read { IsRead reading (plain frame.now) packet.now }
    requires room { length text.old + MOST_TEXT ≤ ROOM }
    ensures text { text.new ≡ text.old ++ (if reading.wide then wide_frame_text reading.long (plain frame.now)
        else frame_text reading.long (plain frame.now)) }
    ensures size { length text.new ≤ length text.old + MOST_TEXT }
{
    match (frame, packet) {
        _ if reading.wide => push_wide_frame(reading.long, frame, text),
        (Frame::I { ns, nr, p, .. }, Ok(packet)) => {
            text.push_bit(b"I cmd P=", *p);
            text.push_seq(b" S=", *ns);
            text.push_seq(b" R=", *nr);
            text.push(b" | ");
            push_packet(packet, text);
        }
        _ => push_frame(reading.long, frame, text),
    }
}

/// Appends what octets are that spell no frame.
fn push_missed(reading: Reading, from: Role, octets: &[u8], error: FrameError, text: &mut Text)
    requires error { IsFirstError from n1 octets.now error }
    requires few { length octets.now ≤ MOST_OCTETS }
    requires room { length text.old + MOST_TEXT ≤ ROOM }
    ensures text { text.new ≡ text.old ++ (if reading.wide
        then wide_reading_text reading.long from octets.now (Err error) else reading_text reading.long (Err error)) }
    ensures size { length text.new ≤ length text.old + MOST_TEXT }
{
    match error {
        FrameError::Undefined { control } if reading.wide => push_other_frame(
            from, octets, control, text,
        ),
        _ => push_fault(error, text),
    }
}

/// Appends what stands before the end that broke a rule.
fn push_sign(in_doubt: bool, rule: Rule, text: &mut Text)
    requires { length text.old + 13 ≤ ROOM }
    ensures text { text.new ≡ text.old ++ sign_of in_doubt rule }
    ensures size { length text.new ≤ length text.old + 13 }
{
    match (in_doubt, rule.is_of_manners()) {
        (true, true) => text.push(b" ~? manners: "),
        (true, false) => text.push(b" !? "),
        (false, true) => text.push(b" ~ manners: "),
        (false, false) => text.push(b" ! "),
    }
}

/// Appends what is said where a frame that is missing may explain it.
fn push_doubt(in_doubt: bool, text: &mut Text)
    requires { length text.old + 29 ≤ ROOM }
    ensures text { text.new ≡ text.old ++ doubt_text in_doubt }
    ensures size { length text.new ≤ length text.old + 29 }
{
    if in_doubt {
        text.push(b", or the capture lacks frames");
    }
}

/// Appends the end.
fn push_end(from: Role, text: &mut Text)
    requires { length text.old + 5 ≤ ROOM }
    ensures text { text.new ≡ text.old ++ end_of from }
    ensures size { length text.new ≤ length text.old + 5 }
{
    match from {
        Role::Dte => text.push(b"dte: "),
        Role::Dce => text.push(b"dce: "),
    }
}

/// Appends the end and the rule that it broke.
fn push_broken(from: Role, in_doubt: bool, rule: Rule, text: &mut Text)
    requires { length text.old + MOST_REMARK ≤ ROOM }
    ensures text { text.new ≡ text.old ++ broken_text from in_doubt rule }
    ensures size { length text.new ≤ length text.old + MOST_REMARK }
{
    push_sign(in_doubt, rule, text);
    push_end(from, text);
    push_rule(rule, text);
    push_doubt(in_doubt, text);
}

/// Appends what is noted of a frame that breaks no rule.
fn push_noted(note: Option<Note>, text: &mut Text)
    requires { length text.old + MOST_REMARK ≤ ROOM }
    ensures text { text.new ≡ text.old ++ noted_text note }
    ensures size { length text.new ≤ length text.old + MOST_REMARK }
{
    if let Some(note) = note {
        text.push(b" ~ note: ");
        push_note(note, text);
    }
}

/// Whether an end acknowledged eight I frames of its session: of those that were on the way at once it took the last.
fn has_taken(stand: Stand) -> bool
    ensures { result ≡ has_taken stand }
{
    match stand {
        Stand::Up(k) => 8 <= k.told,
        _ => false,
    }
}

/// Whether it is known where an end stands, and nothing of before may come to it.
fn is_settled(end: &End) -> bool
    ensures { result ≡ is_settled end.now }
{
    end.set.is_known() && end.set.is_followed()
}

/// Nothing is known of an end any more.
fn forget(end: &mut End)
    ensures { end.new ≡ forgotten end.old }
{
    end.set = LinkSet::new();
    end.held.forget_all();
    end.manners = Manners::new();
    end.watch = Watch::Unseen;
}

impl Judge {
    /// Nothing was sent.
    pub(crate) fn new(
        alloc: Global,
        at: At,
        window: u8,
        defaults: Defaults,
        reading: Reading,
        strictness: Strictness,
    ) -> Result<Judge, AllocError>
        ensures { IfOk result (λ judge. judge ≡ begins_at at window defaults reading strictness) }
    {
        let dte = End::new(alloc)?;
        let dce = End::new(alloc)?;
        let book = Book::new(alloc, defaults)?;
        let dte_packets = Counts::new(alloc)?;
        let dce_packets = Counts::new(alloc)?;
        Ok(Judge {
            window,
            reading,
            strictness,
            dte,
            dce,
            book,
            dte_frames: Count::none(),
            dce_frames: Count::none(),
            dte_packets,
            dce_packets,
            told: Tally {
                rules: 0,
                manners: 0,
                doubts: 0,
            },
            has_judged: false,
            at,
            dte_misses: false,
            dce_misses: false,
        })
    }

    /// Counts a frame.
    fn count_frame(&mut self, from: Role, is_judged: bool)
        ensures { self.new ≡ counts_frame from is_judged self.old }
    {
        self.has_judged = self.has_judged || is_judged;
        match from {
            Role::Dte => self.dte_frames = self.dte_frames.more(0, is_judged),
            Role::Dce => self.dce_frames = self.dce_frames.more(0, is_judged),
        }
    }

    /// Counts the packet of an I frame that wasn't sent before.
    #[tactic(auto, unfolding(crate::specs::Judge::counts_carried))]
    fn count_carried(&mut self, from: Role, frame: &Frame, is_again: bool, is_judged: bool)
        ensures { self.new ≡ counts_carried from (plain frame.now) is_again is_judged self.old }
    {
        let Frame::I { info, .. } = frame else {
            return;
        };
        if is_again {
            return;
        }
        let channel = channel(info).unwrap_or(0);
        self.has_judged = self.has_judged || is_judged;
        match from {
            Role::Dte => self.dte_packets.add(channel, is_judged),
            Role::Dce => self.dce_packets.add(channel, is_judged),
        }
    }

    /// Appends the rule that was broken, which is counted, or what is noted, and a line feed; whether that counts for
    /// the status is answered.
    #[inline(always)]
    fn tell(
        &mut self,
        from: Role,
        strictness: Strictness,
        lack: Lack,
        remark: Seen,
        text: &mut Text,
    ) -> bool
        requires { length text.old + (MOST_REMARK + 1) ≤ ROOM }
        ensures next { self.new ≡ tallies (explains_told lack remark.rule) remark.rule self.old }
        ensures text { text.new ≡ text.old
            ++ (remark_text from (explains_told lack remark.rule) remark.rule remark.note ++ codes "\n") }
        ensures counts { result ≡ counts_by strictness (explains_told lack remark.rule) remark }
        ensures order { is_broken remark.rule ≡ true → explains_told lack remark.rule ≡ false → result ≡ true }
    {
        let is_open = strictness.unjudged && !remark.is_judged;
        let Some(rule) = remark.rule else {
            push_noted(remark.note, text);
            text.push(b"\n");
            return is_open;
        };
        let in_doubt = lack.explains(rule);
        let is_manners = rule.is_of_manners();
        self.told = self.told.more(in_doubt, !is_manners, is_manners);
        self.has_judged = true;
        push_broken(from, in_doubt, rule, text);
        text.push(b"\n");
        let breaks = !is_manners || strictness.manners;
        ((!in_doubt || strictness.unjudged) && breaks) || is_open
    }

    /// Whether a gap may explain what is told of an end: one of both isn't settled, or it may not have taken what is
    /// missing.
    fn is_behind_gap(&self, from: Role) -> bool
        ensures { result ≡ is_behind_gap from self.now }
    {
        if !self.dte_misses && !self.dce_misses {
            return false;
        }
        if !is_settled(&self.dte) || !is_settled(&self.dce) {
            return true;
        }
        match from {
            Role::Dte => self.dte_misses && !has_taken(self.dte.set.numbers()),
            Role::Dce => self.dce_misses && !has_taken(self.dce.set.numbers()),
        }
    }

    /// Which frames may be missing that would explain what is told of an end.
    fn lack(&self, from: Role) -> Lack
        ensures { result ≡ lack_of self.now from }
    {
        let frames = match from {
            _ if self.is_behind_gap(from) => Frames::Any,
            Role::Dte => self.at.lack(from, &self.dte.set),
            Role::Dce => self.at.lack(from, &self.dce.set),
        };
        Lack {
            frames,
            packets: !self.book.is_whole,
        }
    }

    /// Whether the link layer judges a frame and says nothing of it, and it goes for the first time. False: it may, and
    /// nothing has changed.
    #[inline(always)]
    fn passes(&mut self, from: Role, frame: &Frame) -> bool
        ensures same { result
            ≡ passes_by self.old.window (plain frame.now) (own_of from self.old) (other_of from self.old) }
        ensures next { result ≡ true → self.new ≡ behind from (seen_by self.old from (plain frame.now)).own
            (seen_by self.old from (plain frame.now)).other self.old.book self.old }
        ensures seen { result ≡ true → (seen_by self.old from (plain frame.now)).seen ≡ quiet }
        ensures kept { result ≡ false → self.new ≡ self.old }
    {
        match from {
            Role::Dte => passes(&mut self.dte, &mut self.dce, self.window, frame),
            Role::Dce => passes(&mut self.dce, &mut self.dte, self.window, frame),
        }
    }

    /// What the link layer says of a frame.
    fn look(&mut self, from: Role, frame: &Frame) -> Seen
        ensures next { self.new ≡ behind from (seen_by self.old from (plain frame.now)).own
            (seen_by self.old from (plain frame.now)).other self.old.book self.old }
        ensures seen { result ≡ (seen_by self.old from (plain frame.now)).seen }
    {
        match from {
            Role::Dte => sees(&mut self.dte, &mut self.dce, self.window, frame),
            Role::Dce => sees(&mut self.dce, &mut self.dte, self.window, frame),
        }
    }

    /// What the link layer notes of octets that spell no frame.
    fn look_past(&mut self, from: Role) -> Option<Note>
        ensures next { self.new
            ≡ behind from (missed_by self.old from).own (missed_by self.old from).other self.old.book self.old }
        ensures note { result ≡ (missed_by self.old from).note }
    {
        match from {
            Role::Dte => misses(&mut self.dte, &mut self.dce),
            Role::Dce => misses(&mut self.dce, &mut self.dte),
        }
    }

    /// Judges the packet of a frame of which the link layer says this; what is said of both is answered.
    #[inline(always)]
    fn carries(
        &mut self,
        from: Role,
        frame: &Frame,
        packet: &Result<Packet, PacketError>,
        seen: Seen,
    ) -> Seen
        requires { IsRead self.old.reading (plain frame.now) packet.now }
        ensures next { let s = book_of self.old from (plain frame.now) seen in self.new
            ≡ counts_carried from (plain frame.now) seen.is_again s.verdict.is_judged
            (counts_frame from seen.is_judged (record self.old { book = s.book })) }
        ensures remark { result
            ≡ remark_by (plain frame.now) seen (book_of self.old from (plain frame.now) seen).verdict }
    {
        let verdict = self.book.sees(
            from,
            self.reading,
            frame,
            packet,
            breaks_order(seen.rule),
            seen.is_open,
        );
        self.count_frame(from, seen.is_judged);
        self.count_carried(from, frame, seen.is_again, verdict.is_judged);
        Seen {
            rule: match verdict.rule {
                Some(rule) => first(seen.rule, Some(Rule::Packet { rule })),
                None => seen.rule,
            },
            note: first_note(packet_note(verdict.noted), seen.note),
            is_judged: seen.is_judged && covers(frame, seen.is_again, verdict.is_judged),
            ..seen
        }
    }

    /// The rule that a frame breaks, and what is noted of it.
    #[inline(never)]
    fn sees(&mut self, from: Role, frame: &Frame, packet: &Result<Packet, PacketError>) -> Seen
        requires { IsRead self.old.reading (plain frame.now) packet.now }
        ensures next { self.new ≡ next_by from (plain frame.now) (seen_by self.old from (plain frame.now))
            (book_of self.old from (plain frame.now) (seen_by self.old from (plain frame.now)).seen) self.old }
        ensures remark { result ≡ remark_of self.old from (plain frame.now) (seen_by self.old from (plain frame.now)) }
    {
        let seen = self.look(from, frame);
        self.carries(from, frame, packet, seen)
    }

    /// Judges a frame, and appends what is said of it, and a line feed; whether it counts is answered. Of most the link
    /// layer says nothing.
    #[inline(always)]
    fn takes(
        &mut self,
        from: Role,
        strictness: Strictness,
        lack: Lack,
        frame: &Frame,
        packet: &Result<Packet, PacketError>,
        text: &mut Text,
    ) -> bool
        requires read { IsRead self.old.reading (plain frame.now) packet.now }
        requires room { length text.old + (MOST_REMARK + 1) ≤ ROOM }
        ensures next { let t = seen_by self.old from (plain frame.now) in
            let r = remark_of self.old from (plain frame.now) t in
            self.new ≡ tallies (explains_told lack r.rule) r.rule
            (next_by from (plain frame.now) t (book_of self.old from (plain frame.now) t.seen) self.old) }
        ensures text { let r = remark_of self.old from (plain frame.now) (seen_by self.old from (plain frame.now)) in
            text.new ≡ text.old ++ (remark_text from (explains_told lack r.rule) r.rule r.note ++ codes "\n") }
        ensures counts { let r = remark_of self.old from (plain frame.now) (seen_by self.old from (plain frame.now)) in
            result ≡ counts_by strictness (explains_told lack r.rule) r }
    {
        if self.passes(from, frame) {
            let remark = self.carries(from, frame, packet, Seen::quiet());
            self.tell(from, strictness, lack, remark, text)
        } else {
            let remark = self.sees(from, frame, packet);
            self.tell(from, strictness, lack, remark, text)
        }
    }

    /// The rule that octets break which spell no frame.
    fn misses(&mut self, from: Role, error: FrameError) -> Seen
        ensures next { self.new ≡ next_missed from error (missed_by self.old from) self.old }
        ensures remark { result ≡ remark_missed error (missed_by self.old from) }
    {
        let note = self.look_past(from);
        self.book.misses(from);
        let rule = no_frame(error);
        self.count_frame(from, rule.is_some());
        Seen {
            rule,
            note,
            is_again: false,
            is_judged: rule.is_some(),
            is_open: false,
        }
    }

    /// Appends what the octets read as, and the rule that they break; whether that counts is answered.
    fn read(&mut self, from: Role, octets: &[u8], text: &mut Text) -> bool
        requires few { length octets.now ≤ MOST_OCTETS }
        requires room { length text.old + MOST_ANSWER ≤ ROOM }
        ensures text { text.new ≡ text.old ++ (read_of self.old from octets.now (frame_of from n1 octets.now)).text }
        ensures next { self.new ≡ (read_of self.old from octets.now (frame_of from n1 octets.now)).next }
        ensures counts { result ≡ (read_of self.old from octets.now (frame_of from n1 octets.now)).counts }
    {
        let strictness = self.strictness;
        let lack = self.lack(from);
        match from {
            Role::Dte => text.push(b"> "),
            Role::Dce => text.push(b"< "),
        }
        match decode(from, N1, octets) {
            // Each with a copy of its own: most frames have no packet, and move none.
            Ok(frame) => if matches!(frame, Frame::I { .. }) {
                let packet = packet_of(self.reading, &frame);
                push_seen(self.reading, &frame, &packet, text);
                self.takes(from, strictness, lack, &frame, &packet, text)
            } else {
                let packet = packet_of(self.reading, &frame);
                push_seen(self.reading, &frame, &packet, text);
                self.takes(from, strictness, lack, &frame, &packet, text)
            },
            Err(error) => {
                push_missed(self.reading, from, octets, error, text);
                let remark = self.misses(from, error);
                self.tell(from, strictness, lack, remark, text)
            }
        }
    }

    /// Appends the line that answers one without octets, a gap or none of a trace; whether it counts is answered.
    fn pass_gap(&mut self, gap: Option<Role>, text: &mut Text) -> bool
        requires { length text.old + 6 ≤ ROOM }
        ensures text { text.new ≡ text.old ++ (gap_of self.old gap).text }
        ensures next { self.new ≡ (gap_of self.old gap).next }
        ensures counts { result ≡ (gap_of self.old gap).counts }
    {
        push_gap(gap, text);
        match gap {
            None => true,
            Some(from) => {
                forget(&mut self.dte);
                forget(&mut self.dce);
                self.book.passes_gap();
                match from {
                    Role::Dte => self.dce_misses = true,
                    Role::Dce => self.dte_misses = true,
                }
                self.strictness.unjudged
            }
        }
    }

    /// Whether no frame and no packet was judged, and nothing told.
    pub(crate) fn is_nothing(&self) -> bool
        ensures { result ≡ is_nothing self.now }
    {
        !self.has_judged
    }

    fn last_line(&self) -> Line
        ensures { result ≡ last_line self.now }
    {
        if self.has_judged {
            Line::Told(self.told)
        } else if self.dte_frames.seen == 0 && self.dce_frames.seen == 0 {
            Line::Nothing
        } else {
            Line::Unjudged
        }
    }

    /// Tells how much was judged, and what was told.
    pub(crate) fn tell_counts<W: Sink>(
        &self,
        output: &mut Output,
        writer: &mut W,
    ) -> Result<(), Failed>
        ensures kept { OnOk result (W.is_marked writer.new ≡ W.is_marked writer.old) }
        ensures tells { TellsMore result (W.contents writer.old) (W.contents writer.new) output.old output.new
            (counts_text self.now) }
        ensures marked { OnErr result (W.is_marked writer.new ≡ true) }
    {
        tell_end(
            Role::Dte,
            self.dte_frames,
            &self.dte_packets,
            output,
            writer,
        )?;
        tell_end(
            Role::Dce,
            self.dce_frames,
            &self.dce_packets,
            output,
            writer,
        )?;
        tell_line(self.last_line(), output, writer)
    }

    /// Appends the line that answers a line; whether it counts is answered. `octets` is overwritten.
    #[tactic(auto, unfolding(crate::specs::Judge::answer_to))]
    pub(crate) fn answer(&mut self, line: &[u8], octets: &mut [u8], text: &mut Text) -> bool
        requires octets { length octets.old ≡ MOST_OCTETS }
        requires room { length text.old + MOST_ANSWER ≤ ROOM }
        ensures text { text.new ≡ text.old ++ (answer_to self.old line.now).text }
        ensures next { self.new ≡ (answer_to self.old line.now).next }
        ensures counts { result ≡ (answer_to self.old line.now).counts }
    {
        match read_sent(line, octets) {
            Some((from, count)) => self.read(from, &octets[..count], text),
            None => self.pass_gap(read_gap(line), text),
        }
    }
}
