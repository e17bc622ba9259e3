//! The packet layers of both ends, as the frames of the link show them.
ghost use Rattle.std.specs.Prelude.{◌≡◌, false};
ghost use Rattle.x25_packet_judge.specs.Layers as definition;

use crate::numbers::{apart, less};

/// Whether an end's packets are followed: not yet; not until its next set-up of the link; or each, in the order of
/// N(S).
#[derive(Clone, Copy)]
pub(crate) enum Track {
    Unseen,
    Dropped,
    Followed,
}

/// The packet layer of one end.
#[derive(Clone, Copy)]
pub(crate) struct Layer {
    pub(crate) track: Track,
    /// No I frame and no supervisory frame was sent since the set-up.
    pub(crate) is_fresh: bool,
    /// N(S) of the next packet that wasn't seen yet.
    pub(crate) next: u8,
    /// The other end's last N(R).
    pub(crate) acked: u8,
    /// How many SABMs and DISCs of the other end may still be answered.
    pub(crate) asked: u8,
    /// No packet was sent since the set-up, and its SABM doesn't stand behind what wasn't seen.
    pub(crate) is_quiet: bool,
}

impl Layer {
    /// Nothing is known.
    pub(crate) fn unseen() -> Layer
        ensures { result ≡ definition.unseen }
    {
        Layer {
            track: Track::Unseen,
            is_fresh: false,
            next: 0,
            acked: 0,
            asked: 0,
            is_quiet: false,
        }
    }

    /// As a trace begins: a SABM that is seen first is the first one.
    pub(crate) fn new() -> Layer
        ensures { result ≡ definition.new }
    {
        Layer {
            is_quiet: true,
            ..Layer::unseen()
        }
    }

    /// The link is set up.
    pub(crate) fn begun(asked: u8) -> Layer
        ensures { result ≡ definition.begun asked }
    {
        Layer {
            track: Track::Followed,
            is_fresh: true,
            asked,
            is_quiet: true,
            ..Layer::unseen()
        }
    }

    /// Not all of its packets were seen.
    pub(crate) fn lost(mut self) -> Layer
        ensures { result ≡ definition.lost self }
    {
        self.track = Track::Unseen;
        self.is_fresh = false;
        self.is_quiet = false;
        self
    }

    /// What it sent since its set-up may be on its way.
    pub(crate) fn is_under_way(&self) -> bool
        ensures { result ≡ definition.is_under_way self.now }
    {
        matches!(self.track, Track::Followed) && !self.is_fresh
    }

    /// Behind a UA of it that comes again.
    pub(crate) fn late(mut self) -> Layer
        ensures { result ≡ definition.late self }
    {
        self.asked = less(self.asked);
        if self.is_under_way() {
            self.track = Track::Dropped;
        }
        self
    }
}

/// The end that sends and the other end.
#[derive(Clone, Copy)]
pub(crate) struct Layers {
    pub(crate) own: Layer,
    pub(crate) other: Layer,
}

impl Layers {
    /// One of both isn't followed before its next set-up.
    pub(crate) fn are_dropped(&self) -> bool
        ensures { result ≡ definition.are_dropped self.now }
    {
        matches!(self.own.track, Track::Dropped) || matches!(self.other.track, Track::Dropped)
    }

    /// Packets of the end that sends were missed.
    pub(crate) fn lost(self) -> Layers
        ensures { result ≡ definition.loses self }
    {
        Layers {
            own: self.own.lost(),
            other: if self.other.is_fresh {
                self.other
            } else {
                self.other.lost()
            },
        }
    }

    /// The link is set up for the end that sends: what the other one sent before is dropped.
    fn begins(mut self, asked: u8) -> Layers
        ensures { result ≡ definition.begins asked self }
    {
        self.own = Layer::begun(asked);
        if !matches!(self.other.track, Track::Followed) || !self.other.is_fresh {
            self.other.track = Track::Dropped;
        }
        self
    }

    /// SABM or DISC asks for UA or DM.
    pub(crate) fn asks_more(mut self) -> Layers
        ensures { result ≡ definition.asks_more self }
    {
        self.other.asked = self.other.asked.saturating_add(1);
        self
    }

    /// The end sends DM.
    pub(crate) fn answers(mut self) -> Layers
        ensures { result ≡ definition.answers self }
    {
        self.own.asked = less(self.own.asked);
        self
    }

    /// SABM once more: the other end may have answered the first one, and its packets come behind that.
    pub(crate) fn is_asked_again(&self) -> bool
        ensures { result ≡ definition.is_asked_again self.now }
    {
        self.own.is_fresh
            && (matches!(self.own.track, Track::Dropped)
                || matches!(self.other.track, Track::Followed))
    }

    /// The end sends SABM: what of it is on its way comes first, so that the other end may send by either.
    pub(crate) fn asks(self) -> Layers
        ensures { result ≡ definition.asks self }
    {
        let mut next = self.asks_more();
        if self.is_asked_again() {
            return next;
        }
        if self.own.is_under_way() {
            next.other.track = Track::Dropped;
        }
        next = next.begins(self.own.asked);
        next.own.is_quiet = self.own.is_quiet || !matches!(self.own.track, Track::Unseen);
        next
    }

    /// UA again, before which nothing was sent since the first one, or behind frames of the other end.
    pub(crate) fn is_late(&self) -> bool
        ensures { result ≡ definition.is_late self.now }
    {
        !self.other.is_fresh || (matches!(self.own.track, Track::Followed) && self.own.is_fresh)
    }

    /// The end sends UA, which may come again.
    pub(crate) fn accepts(self) -> Layers
        ensures { result ≡ definition.accepts self }
    {
        if self.is_late() {
            Layers {
                own: self.own.late(),
                ..self
            }
        } else {
            self.begins(less(self.own.asked))
        }
    }

    /// The first end sends octets that are no frame: they may have been UA, where one was asked for.
    pub(crate) fn misses(mut self) -> Layers
        ensures { result ≡ definition.misses self }
    {
        self.own.is_fresh = false;
        if 0 < self.own.asked {
            self.lost()
        } else {
            self
        }
    }
}

/// An end sends an N(R); whether it shows that packets of the other end weren't seen.
pub(crate) fn hear(own: &mut Layer, other: &mut Layer, number: u8) -> bool
    ensures own { own.new ≡ (definition.hears number (record { own = own.old; other = other.old })).own }
    ensures other { other.new ≡ (definition.hears number (record { own = own.old; other = other.old })).other }
    ensures found { result ≡ definition.finds_other number (record { own = own.old; other = other.old }) }
{
    own.is_fresh = false;
    own.is_quiet = own.is_quiet && !matches!(own.track, Track::Unseen);
    if matches!(own.track, Track::Dropped)
        || matches!(other.track, Track::Dropped)
        || other.is_fresh
    {
        return false;
    }
    let is_ahead = apart(other.next, other.acked) < apart(number, other.acked);
    if matches!(other.track, Track::Unseen) || is_ahead {
        other.track = Track::Followed;
        other.is_fresh = false;
        other.next = number;
        other.acked = number;
        other.is_quiet = false;
        return true;
    }
    other.acked = number;
    false
}

/// An end sends an I frame; whether its packet is judged.
pub(crate) fn advance(own: &mut Layer, other: &Layer, number: u8) -> bool
    ensures own { own.new ≡ (definition.moves number (record { own = own.old; other = other.now })).own }
    ensures judged { result ≡ definition.may_judge number (record { own = own.old; other = other.now }) }
{
    let is_next = matches!(own.track, Track::Followed) && number == own.next;
    if !is_next {
        return false;
    }
    own.next = own.next.saturating_add(1) % 8;
    matches!(other.track, Track::Followed)
}
