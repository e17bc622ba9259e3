//! The manners of an end: V(S) set back with cause, REJ once for a gap, F=1 for P=1, and the window of --k.
ghost use Rattle.std.specs.Prelude.{◌≡◌, true, false};
ghost use Rattle.x25_judge.specs.Manners as definition;

use crate::note::Note;
use crate::rule::Rule;
use x25_packet_judge::{apart, less};
use x25_possible_links::Numbers;

/// What an end did that counts for its next frames, beside its numbers.
#[derive(Clone, Copy)]
pub(crate) struct Manners {
    /// How far before V(S) the place lies from which frames are sent again.
    pub(crate) behind: u8,
    /// How many REJ and answers to polls may still send V(S) back.
    pub(crate) causes: u8,
    /// How far before V(S) the N(R) of the last of these lies; 8 where none counts.
    pub(crate) reach: u8,
    /// How far before V(S) the farthest N(R) of these lies.
    pub(crate) farthest: u8,
    /// An N(R) for it may be missing: it isn't known how many of its I frames are acknowledged.
    pub(crate) is_astray: bool,
    /// It isn't known which number it sends next, as octets that spell no frame may have been one.
    pub(crate) is_adrift: bool,
    /// It asked by REJ for the number that it awaits.
    pub(crate) is_rejecting: bool,
    /// How many commands with P=1 it sent that no F=1 has answered; 255 where there are more.
    pub(crate) polls: u8,
    /// No F=1 came behind the last of them.
    pub(crate) is_polling: bool,
}

/// Numbers modulo 8: V(S), how many I frames were sent, and how many are unacknowledged.
#[derive(Clone, Copy)]
pub(crate) struct Place {
    pub(crate) next: u8,
    pub(crate) ever: u64,
    pub(crate) pending: u8,
}

/// Manners behind a frame, those that it breaks, what is noted of it, and whether it is an I frame that was sent
/// before.
#[derive(Clone, Copy)]
pub(crate) struct Minded {
    pub(crate) manners: Manners,
    pub(crate) rule: Option<Rule>,
    pub(crate) note: Option<Note>,
    pub(crate) is_again: bool,
}

/// The place of an end with such numbers.
pub(crate) fn place_of(k: Numbers) -> Place
    ensures { result ≡ definition.place_of k }
{
    let pending = k.sent.saturating_sub(k.acked);
    Place {
        next: (k.sent % 8) as u8,
        ever: k.sent,
        pending: if pending < 8 { pending as u8 } else { 8 },
    }
}

/// What is told and noted of a frame.
pub(crate) fn says(
    rule: Option<Rule>,
    note: Option<Note>,
    is_again: bool,
    manners: Manners,
) -> Minded
    ensures { result ≡ record { manners = manners; rule = rule; note = note; is_again = is_again } }
{
    Minded {
        manners,
        rule,
        note,
        is_again,
    }
}

impl Manners {
    pub(crate) fn new() -> Manners
        ensures { result ≡ definition.none }
    {
        Manners {
            behind: 0,
            causes: 0,
            reach: 8,
            farthest: 0,
            is_astray: false,
            is_adrift: false,
            is_rejecting: false,
            polls: 0,
            is_polling: false,
        }
    }

    /// Its numbers begin anew.
    pub(crate) fn begun(self) -> Manners
        ensures { result ≡ definition.begun self }
    {
        Manners {
            polls: self.polls,
            is_polling: self.is_polling,
            ..Manners::new()
        }
    }

    // ---- P and F

    /// It may have sent P=1.
    pub(crate) fn asks_on(self, is_polling: bool) -> Manners
        ensures { result ≡ definition.asks_on is_polling self }
    {
        Manners {
            polls: self.polls.saturating_add(1),
            is_polling,
            ..self
        }
    }

    /// It sends a command with P=1.
    pub(crate) fn asks(self) -> Minded
        ensures { result ≡ definition.asks self }
    {
        if self.is_polling {
            says(None, Some(Note::PollAgain), false, self.asks_on(true))
        } else {
            says(None, None, false, self.asks_on(true))
        }
    }

    /// F=1 is sent to it. It is at fault where all is shown that it may answer.
    pub(crate) fn answered(self, is_shown: bool) -> Minded
        ensures { result ≡ definition.answered is_shown self }
    {
        let next = Manners {
            polls: less(self.polls),
            is_polling: false,
            ..self
        };
        if self.polls != 0 {
            says(None, None, false, next)
        } else if is_shown {
            says(Some(Rule::NoPoll), None, false, next)
        } else {
            says(None, Some(Note::PollUnseen), false, next)
        }
    }

    // ---- REJ

    /// It sends an N(R), above its last one or not.
    pub(crate) fn hears(self, is_above: bool) -> Manners
        ensures { result ≡ definition.hears is_above self }
    {
        Manners {
            is_rejecting: self.is_rejecting && !is_above,
            ..self
        }
    }

    /// An N(R) for it is shown.
    pub(crate) fn heard(self) -> Manners
        ensures { result ≡ definition.heard self }
    {
        Manners {
            is_astray: false,
            ..self
        }
    }

    /// It sends REJ.
    pub(crate) fn rejects(self, is_sure: bool) -> Minded
        ensures { result ≡ definition.rejects is_sure self }
    {
        let next = Manners {
            is_rejecting: true,
            ..self
        };
        if is_sure && self.is_rejecting {
            says(Some(Rule::RejectAgain), None, false, next)
        } else {
            says(None, None, false, next)
        }
    }

    /// What sets its V(S) back to a number so far before comes to it, or may.
    pub(crate) fn sent_back(self, far: u8) -> Manners
        ensures { result ≡ definition.sent_back far self }
    {
        Manners {
            causes: self.causes.saturating_add(1),
            reach: far,
            farthest: if 0 < self.causes && far < self.farthest {
                self.farthest
            } else {
                far
            },
            ..self
        }
    }

    // ---- octets that spell no frame

    /// Some are sent to it: they may have been an I frame, and REJ.
    pub(crate) fn unheard(self, pending: u8) -> Manners
        ensures { result ≡ definition.unheard pending self }
    {
        Manners {
            is_astray: true,
            is_rejecting: false,
            ..self.sent_back(pending)
        }
    }

    /// It sent some, or an I frame that doesn't show where V(S) stands.
    pub(crate) fn adrift(self) -> Manners
        ensures { result ≡ definition.adrift self }
    {
        Manners {
            behind: 0,
            farthest: 255,
            is_adrift: true,
            ..self
        }
    }

    /// It is taken up where it stands: what may set its V(S) back was seen, and not to which number.
    pub(crate) fn found(self) -> Manners
        ensures { result ≡ definition.found self }
    {
        Manners {
            causes: self.causes,
            reach: 0,
            ..self.begun()
        }
        .adrift()
    }

    // ---- N(S)

    /// So many numbers more were sent. What sent V(S) back to a number that is eight or more behind counts no more.
    pub(crate) fn grown(self, count: u8) -> Manners
        ensures { result ≡ definition.grown count self }
    {
        let reach = self.reach.saturating_add(count);
        Manners {
            behind: 0,
            is_adrift: false,
            causes: if 7 < reach { 0 } else { self.causes },
            reach: if 7 < reach { 8 } else { reach },
            farthest: self.farthest.saturating_add(count),
            ..self
        }
    }

    /// A number that lies so far before V(S) was sent again.
    fn repeated(self, back: u8) -> Manners
        ensures { result ≡ definition.repeated back self }
    {
        Manners {
            behind: back.saturating_sub(1),
            is_adrift: false,
            ..self
        }
    }

    /// V(S) is set back to it.
    fn gone_back(self, is_poll: bool, back: u8) -> Manners
        ensures { result ≡ definition.gone_back is_poll back self }
    {
        if is_poll {
            return self.repeated(back);
        }
        Manners {
            causes: self.causes.saturating_sub(1),
            ..self.repeated(back)
        }
    }

    /// Whether it may be.
    fn may_go_back(self, at: Place, is_poll: bool, back: u8) -> bool
        ensures { result ≡ definition.may_go_back at is_poll back self }
    {
        self.behind < back
            && (at.pending <= back
                && (u64::from(back) <= at.ever
                    && (is_poll || (0 < self.causes && back <= self.farthest))))
    }

    /// Whether it goes on with what it sends again, or behind what was acknowledged of that.
    fn goes_on(self, at: Place, back: u8) -> bool
        ensures { result ≡ definition.goes_on at back self }
    {
        self.is_adrift || back == self.behind || (at.pending <= back && back < self.behind)
    }

    /// The next new number. An eighth breaks a rule of order.
    fn sent_new(self, window: u8, at: Place) -> Minded
        ensures { result ≡ definition.sent_new window at self }
    {
        if window < 7 && window <= at.pending {
            says(
                Some(Rule::OverWindow { window }),
                None,
                false,
                self.grown(1),
            )
        } else {
            says(None, None, false, self.grown(1))
        }
    }

    /// Whether it is the next new number, with P=0, and nothing is said of it. False: something may be.
    #[inline(always)]
    pub(crate) fn goes_straight(self, window: u8, at: Place, number: u8) -> bool
        ensures same { result ≡ definition.goes_straight window at number self }
        ensures quiet { result ≡ true
            → definition.sends window at number false false self ≡ definition.quiet (definition.grown 1 self) }
    {
        self.behind == 0 && apart(at.next, number) == 0 && (7 <= window || at.pending < window)
    }

    /// A number before V(S), with the octets that it had.
    fn sent_again(self, at: Place, next: u8, is_poll: bool, back: u8) -> Minded
        ensures { result ≡ definition.sent_again at next is_poll back self }
    {
        if self.goes_on(at, back) {
            says(None, Some(Note::SentAgain), true, self.repeated(back))
        } else if self.may_go_back(at, is_poll, back) {
            says(
                None,
                Some(Note::SentAgain),
                true,
                self.gone_back(is_poll, back),
            )
        } else if back < self.behind {
            says(Some(Rule::Skips { next }), None, true, self.repeated(back))
        } else {
            says(
                Some(Rule::Repeats { next }),
                None,
                true,
                self.repeated(back),
            )
        }
    }

    /// The end sends an I frame, which leaves numbers out where it `skips`.
    pub(crate) fn sends(
        self,
        window: u8,
        at: Place,
        number: u8,
        is_poll: bool,
        skips: bool,
    ) -> Minded
        ensures { result ≡ definition.sends window at number is_poll skips self }
    {
        let at = if self.is_astray {
            Place { pending: 0, ..at }
        } else {
            at
        };
        let back = apart(at.next, number);
        let next = apart(at.next, self.behind);
        if skips {
            says(
                Some(Rule::Skips { next }),
                None,
                false,
                self.grown(9u8.saturating_sub(back)),
            )
        } else if 0 < back {
            self.sent_again(at, next, is_poll, back)
        } else if self.behind == 0 || at.pending == 0 {
            self.sent_new(window, at)
        } else {
            says(Some(Rule::Skips { next }), None, false, self.grown(1))
        }
    }
}
