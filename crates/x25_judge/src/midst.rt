//! A link that the trace finds set up, at its beginning or behind a gap: where both ends stand by what they send.
ghost use Rattle.std.specs.Prelude.{◌≡◌};
ghost use Rattle.x25_judge.specs.Midst as definition;

use crate::note::Note;
use x25_packet_judge::apart;
use x25_possible_links::{Frame as Shown, Numbers};

/// As many I frames of an end, one after the other: no I frame of before is behind them, as seven at most are
/// unacknowledged.
const MOST: u8 = 7;

/// So many of them may be unacknowledged beside eight that aren't.
const ENOUGH: u8 = 15;

/// What an end has sent since the beginning of the trace, or since a gap.
#[derive(Clone, Copy)]
pub(crate) enum Watch {
    /// Nothing.
    Unseen,
    /// Frames with numbers alone: how many I frames one after the other, the N(S) that comes then, and its last N(R).
    Numbers { run: u8, next: u8, told: u8 },
    /// What makes it known, or it was taken up.
    Over,
}

impl Watch {
    /// It sends an I frame. Behind seven in a row all others are such as go again.
    fn counts(self, ns: u8, nr: u8) -> Watch
        ensures { result ≡ definition.counted ns nr self }
    {
        let next = (ns % 8 + 1) % 8;
        match self {
            Watch::Unseen => Watch::Numbers {
                run: 1,
                next,
                told: nr,
            },
            Watch::Numbers { run, next: due, .. } => if ns == due {
                Watch::Numbers {
                    run: if run < ENOUGH { run + 1 } else { run },
                    next,
                    told: nr,
                }
            } else if MOST <= run {
                Watch::Numbers {
                    run,
                    next: due,
                    told: nr,
                }
            } else {
                Watch::Numbers {
                    run: 1,
                    next,
                    told: nr,
                }
            },
            Watch::Over => Watch::Over,
        }
    }

    /// It sends RR, RNR or REJ.
    fn acknowledges(self, nr: u8) -> Watch
        ensures { result ≡ definition.acknowledged nr self }
    {
        match self {
            Watch::Unseen => Watch::Numbers {
                run: 0,
                next: 0,
                told: nr,
            },
            Watch::Numbers { run, next, .. } => Watch::Numbers {
                run,
                next,
                told: nr,
            },
            Watch::Over => Watch::Over,
        }
    }

    /// It sends octets that spell no frame: an I frame may be among them, and where it has sent no other, SABM.
    fn strays(self) -> Watch
        ensures { result ≡ definition.strayed self }
    {
        match self {
            Watch::Numbers { .. } => Watch::Numbers {
                run: 0,
                next: 0,
                told: 0,
            },
            _ => Watch::Over,
        }
    }

    /// It sends a frame.
    pub(crate) fn sends(self, frame: Shown) -> Watch
        ensures { result ≡ definition.sends frame self }
    {
        match frame {
            Shown::Info { ns, nr, .. } => self.counts(ns, nr),
            Shown::Ready(nr) => self.acknowledges(nr),
            Shown::Unread => self.strays(),
            _ => Watch::Over,
        }
    }

    pub(crate) fn is_over(self) -> bool
        ensures { result ≡ definition.is_over self }
    {
        matches!(self, Watch::Over)
    }
}

/// Whether eight I frames in a row are acknowledged, where the next N(S) and the last N(R) of the other end are these.
fn are_acknowledged(run: u8, next: u8, told: u8) -> bool
    ensures { result ≡ definition.are_acknowledged run next told }
{
    8 + apart(next, told) <= run
}

/// Whether it is known where both ends stand: each acknowledged eight I frames of the other one, all of which the trace
/// shows.
pub(crate) fn are_known(own: Watch, other: Watch) -> bool
    ensures { result ≡ definition.are_known own other }
{
    match (own, other) {
        (
            Watch::Numbers { run, next, told },
            Watch::Numbers {
                run: there,
                next: due,
                told: heard,
            },
        ) => are_acknowledged(run, next, heard) && are_acknowledged(there, due, told),
        _ => false,
    }
}

/// Where an end stands then, by its N(S) and N(R), and those of the other end. Numbers are whole, and such that it may
/// have sent and taken eight.
fn numbers_in(next: u8, told: u8, due: u8, heard: u8) -> Numbers
    ensures { result ≡ definition.numbers_in next told due heard }
{
    let sent = 16 + u64::from(next % 8);
    let taken = 16 + u64::from(due % 8);
    Numbers {
        sent,
        acked: sent - u64::from(apart(next, heard)),
        taken,
        told: taken - u64::from(apart(due, told)),
    }
}

/// Where the first stands.
pub(crate) fn numbers(own: Watch, other: Watch) -> Numbers
    ensures { result ≡ definition.numbers own other }
{
    match (own, other) {
        (
            Watch::Numbers { next, told, .. },
            Watch::Numbers {
                next: due,
                told: heard,
                ..
            },
        ) => numbers_in(next, told, due, heard),
        _ => numbers_in(0, 0, 0, 0),
    }
}

/// What is noted: that both ends are known, or that this one isn't yet.
pub(crate) fn note_of(are_known: bool, was: Watch, is: Watch) -> Option<Note>
    ensures { result ≡ definition.note_of are_known was is }
{
    if are_known {
        return Some(Note::TakenUp);
    }
    match (was, is) {
        (Watch::Unseen, Watch::Numbers { .. }) => Some(Note::NotTakenUp),
        _ => None,
    }
}
