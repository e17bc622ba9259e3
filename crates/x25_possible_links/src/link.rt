//! What an end may send, and what it makes of what comes, as the definition has it.
ghost use Rattle.std.specs.Prelude.{◌≡◌, ◌<◌, ◌^◌, false, true, drop, IfSome};
ghost use Rattle.x25_possible.specs.Channel.{nth as nth_of};
ghost use Rattle.x25_possible_links.specs.laws.Link as definition;
ghost use Rattle.x25_possible_links.specs.laws.Places as places;
ghost use Rattle.x25_possible_links.specs.code.Steps as steps;
ghost use Rattle.x25_possible_links.specs.code.Steps.{IsSmall, is_large as large, is_lost as lost};
ghost use Rattle.x25_possible_links.specs.declared.stand.Stand.TheVariants.{Up};

use crate::frame::Frame;
use crate::stand::{Numbers, Stand};

/// Numbers up to here are counted; a set with larger ones says nothing.
const LARGEST: u64 = (1 << 62) - 1;

/// As many I frames that are taken, or acknowledged, where it isn't known how many may be.
const FAR: u64 = 1 << 60;

/// Numbers below this stay below `FAR` behind a frame.
const NEAR: u64 = 1 << 59;

/// A session that begins.
pub(crate) const FRESH: Stand = Stand::Up(Numbers {
    sent: 0,
    acked: 0,
    taken: 0,
    told: 0,
});

/// Whether a number is so large that it isn't counted on.
pub(crate) fn is_large(stand: Stand) -> bool
    ensures same { result ≡ large stand }
    ensures small { result ≡ false → IsSmall stand }
{
    match stand {
        Stand::Up(k) => {
            k.sent > LARGEST || k.acked > LARGEST || k.taken > LARGEST || k.told > LARGEST
        }
        _ => false,
    }
}

/// Whether it may be anywhere, or a number is so large that it isn't counted on.
pub(crate) fn is_lost(stand: Stand) -> bool
    ensures same { result ≡ lost stand }
    ensures small { result ≡ false → IsSmall stand }
{
    matches!(stand, Stand::Free) || is_large(stand)
}

/// The first whole number from `low` on that is this one modulo 8.
fn nth(low: u64, number: u8) -> u64
    requires { low < 2 ^ 63 }
    ensures { result ≡ nth_of low number }
{
    low + (number as u64 + 8 - low % 8) % 8
}

fn may_acknowledge(t: u64, k: Numbers, nr: u8) -> bool
    ensures { result ≡ definition.may_acknowledge t k nr }
{
    nr as u64 == t % 8 && (k.told <= t && t <= k.taken)
}

fn may_number(n: u64, k: Numbers, ns: u8, differs: bool) -> bool
    requires small { IsSmall (Up k) }
    requires number { n < 2 ^ 63 }
    ensures { result ≡ definition.may_number n k ns differs }
{
    ns as u64 == n % 8
        && (n <= k.sent && (k.sent <= n + 7 && (n < k.acked + 7 && (n == k.sent || !differs))))
}

fn up_counts(k: Numbers, frame: Frame) -> Option<Stand>
    requires { IsSmall (Up k) }
    ensures { result ≡ definition.counts (places.number_of (Up k) frame) (places.least_of (Up k) frame) (Up k) frame }
{
    match frame {
        Frame::Info { ns, nr, differs } => {
            let n = nth(k.sent.saturating_sub(7), ns);
            let t = nth(k.told, nr);
            if may_number(n, k, ns, differs) && may_acknowledge(t, k, nr) {
                Some(Stand::Up(Numbers {
                    sent: if n == k.sent { k.sent + 1 } else { k.sent },
                    told: t,
                    ..k
                }))
            } else {
                None
            }
        }
        Frame::Ready(nr) => {
            let t = nth(k.told, nr);
            if may_acknowledge(t, k, nr) {
                Some(Stand::Up(Numbers { told: t, ..k }))
            } else {
                None
            }
        }
        Frame::Unread => {
            if k.sent < k.acked + 7 {
                Some(Stand::Up(Numbers {
                    sent: k.sent + 1,
                    ..k
                }))
            } else {
                None
            }
        }
        _ => None,
    }
}

/// What has a number, or may have.
fn counts(stand: Stand, frame: Frame) -> Option<Stand>
    requires { IsSmall stand }
    ensures { result ≡ definition.counts (places.number_of stand frame) (places.least_of stand frame) stand frame }
{
    match stand {
        Stand::Out | Stand::Asking => None,
        Stand::Up(k) => up_counts(k, frame),
        Stand::Free => Some(Stand::Free),
    }
}

pub(crate) fn is_ua(frame: Frame) -> bool
    ensures { result ≡ definition.is_ua frame }
{
    matches!(frame, Frame::Ua)
}

/// Whether UA is on the way, from there on.
fn has_ua(at: usize, way: &[Frame]) -> bool
    ensures { result ≡ definition.has_ua (drop at way.now) }
{
    if at >= way.len() {
        return false;
    }
    is_ua(way[at]) || has_ua(at + 1, way)
}

pub(crate) fn is_asking(stand: Stand) -> bool
    ensures { result ≡ definition.is_asking stand }
{
    matches!(stand, Stand::Asking | Stand::Free)
}

fn declines(stand: Stand) -> Stand
    ensures { result ≡ definition.declines stand }
{
    match stand {
        Stand::Out | Stand::Up(_) => Stand::Out,
        Stand::Asking => Stand::Asking,
        Stand::Free => Stand::Free,
    }
}

/// Where it is behind a frame that it sends, with the way from there on in front of it; None where it may not.
fn sends(stand: Stand, at: usize, way: &[Frame], frame: Frame) -> Option<Stand>
    requires { IsSmall stand }
    ensures { result ≡ places.sends stand (drop at way.now) frame }
{
    match frame {
        Frame::Info { .. } | Frame::Ready(_) | Frame::Unread => counts(stand, frame),
        Frame::Sabm => {
            if is_asking(stand) || !has_ua(at, way) {
                Some(Stand::Asking)
            } else {
                None
            }
        }
        Frame::Disc | Frame::Frmr => Some(Stand::Out),
        Frame::Dm => Some(declines(stand)),
        Frame::Ua | Frame::Before => None,
    }
}

#[inline(always)]
fn heard(k: Numbers, frame: Frame) -> Numbers
    requires { IsSmall (Up k) }
    ensures { result ≡ definition.heard true true k frame }
{
    match frame {
        Frame::Info { ns, nr, .. } => Numbers {
            acked: nth(k.acked, nr),
            taken: if ns as u64 == k.taken % 8 {
                k.taken + 1
            } else {
                k.taken
            },
            ..k
        },
        Frame::Ready(nr) => Numbers {
            acked: nth(k.acked, nr),
            ..k
        },
        Frame::Unread => Numbers {
            acked: k.acked + 7,
            taken: k.taken + 1,
            ..k
        },
        _ => k,
    }
}

/// The best that it may make of what comes.
pub(crate) fn onward(stand: Stand, frame: Frame) -> Stand
    requires { IsSmall stand }
    ensures { result ≡ places.onward stand frame }
{
    match stand {
        Stand::Up(k) => Stand::Up(heard(k, frame)),
        _ => stand,
    }
}

fn may_answer(frame: Frame) -> bool
    ensures { result ≡ definition.may_answer frame }
{
    matches!(frame, Frame::Ua | Frame::Unread)
}

/// On the way to a frame with a number.
pub(crate) fn upward(stand: Stand, frame: Frame) -> Stand
    requires { IsSmall stand }
    ensures { result ≡ places.upward stand frame }
{
    match stand {
        Stand::Asking => {
            if may_answer(frame) {
                FRESH
            } else {
                Stand::Asking
            }
        }
        _ => onward(stand, frame),
    }
}

/// Whatever it makes of what comes: UA may be passed over.
pub(crate) fn pressed(stand: Stand, frame: Frame) -> Stand
    requires { IsSmall stand }
    ensures { result ≡ steps.pressed stand frame }
{
    match stand {
        Stand::Asking => {
            if may_answer(frame) {
                Stand::Free
            } else {
                Stand::Asking
            }
        }
        _ => onward(stand, frame),
    }
}

/// Whether it loses nothing by making the best of it at once.
pub(crate) fn is_plain(stand: Stand, frame: Frame) -> bool
    ensures { result ≡ places.is_plain stand frame }
{
    match frame {
        Frame::Info { .. } | Frame::Ready(_) | Frame::Dm | Frame::Frmr => true,
        Frame::Ua => matches!(stand, Stand::Out | Stand::Up(_)),
        Frame::Sabm | Frame::Disc | Frame::Unread | Frame::Before => false,
    }
}

fn numbers_below(k: Numbers, j: Numbers) -> bool
    ensures { result ≡ steps.numbers_below k j }
{
    j.sent == k.sent && (k.acked <= j.acked && (k.taken <= j.taken && j.told <= k.told))
}

/// Whether the second surely may do all that the first may.
pub(crate) fn is_below(one: Stand, two: Stand) -> bool
    ensures { result ≡ steps.is_below one two }
{
    match (one, two) {
        (Stand::Out, _) => true,
        (Stand::Asking, Stand::Asking | Stand::Free) => true,
        (Stand::Up(k), Stand::Up(j)) => numbers_below(k, j),
        (Stand::Up(_), Stand::Free) => true,
        (Stand::Free, Stand::Free) => true,
        _ => false,
    }
}

// ---- behind a frame that no place allows

/// Behind an I frame that leaves numbers out; None where that doesn't explain it.
fn leapt(stand: Stand, frame: Frame) -> Option<Stand>
    requires { IsSmall stand }
    ensures { result ≡ steps.leapt stand frame }
{
    match (stand, frame) {
        (Stand::Up(k), Frame::Info { ns, nr, .. }) => {
            let raised = Stand::Up(Numbers {
                sent: nth(k.sent, ns),
                ..k
            });
            if is_large(raised) {
                return None;
            }
            counts(
                raised,
                Frame::Info {
                    ns,
                    nr,
                    differs: false,
                },
            )
        }
        _ => None,
    }
}

/// Whether an N(R) is none that it may send.
fn strays(k: Numbers, nr: u8) -> bool
    requires { IsSmall (Up k) }
    ensures { result ≡ steps.strays k nr }
{
    k.taken < nth(k.told, nr)
}

/// Behind an N(R) that it may not send nothing is known of those that it took; else nothing of what is acknowledged to
/// it.
fn astray(k: Numbers, nr: u8) -> Numbers
    requires { IsSmall (Up k) }
    ensures { result ≡ steps.astray_by k nr }
{
    if strays(k, nr) {
        Numbers { taken: FAR, ..k }
    } else {
        Numbers { acked: FAR, ..k }
    }
}

/// Numbers go on from one that it may not send; None where it is known no longer where it stands.
fn onto(stand: Stand, frame: Frame) -> Option<Stand>
    requires { IsSmall stand }
    ensures { result ≡ steps.onto stand frame }
{
    match (stand, frame) {
        (Stand::Up(k), Frame::Info { ns, nr, .. }) => {
            let n = nth(k.sent.saturating_sub(7), ns);
            Some(Stand::Up(Numbers {
                sent: if n < k.sent { k.sent } else { n + 1 },
                ..astray(k, nr)
            }))
        }
        (Stand::Up(k), Frame::Ready(nr)) => Some(Stand::Up(astray(k, nr))),
        _ => None,
    }
}

/// Whether what it may acknowledge is known.
pub(crate) fn is_sure(stand: Stand) -> bool
    ensures { result ≡ steps.is_sure stand }
{
    match stand {
        Stand::Up(k) => k.taken < FAR,
        Stand::Free => false,
        Stand::Out | Stand::Asking => true,
    }
}

/// The numbers of a session, where all are so small that those behind a frame needn't be looked at.
pub(crate) fn near_numbers(stand: Stand) -> Option<Numbers>
    ensures same { result ≡ steps.near_numbers stand }
    ensures small { IfSome result (λ k. IsSmall (Up k)) }
{
    match stand {
        Stand::Up(k) => {
            if k.sent < NEAR && k.acked < NEAR && k.taken < NEAR && k.told < NEAR {
                Some(k)
            } else {
                None
            }
        }
        _ => None,
    }
}

/// Its numbers behind the next I frame, RR, RNR or REJ that it sends; None where it may not, or it is another one.
#[inline(always)]
pub(crate) fn up_sends(k: Numbers, frame: Frame) -> Option<Numbers>
    requires { IsSmall (Up k) }
    ensures { result ≡ steps.up_sends k frame }
{
    match frame {
        Frame::Info { ns, nr, .. } => {
            let t = nth(k.told, nr);
            if ns as u64 == k.sent % 8 && k.sent < k.acked + 7 && may_acknowledge(t, k, nr) {
                Some(Numbers {
                    sent: k.sent + 1,
                    told: t,
                    ..k
                })
            } else {
                None
            }
        }
        Frame::Ready(nr) => {
            let t = nth(k.told, nr);
            if may_acknowledge(t, k, nr) {
                Some(Numbers { told: t, ..k })
            } else {
                None
            }
        }
        _ => None,
    }
}

/// Its numbers behind an I frame, RR, RNR or REJ that comes; None where it is another one.
#[inline(always)]
pub(crate) fn up_hears(k: Numbers, frame: Frame) -> Option<Numbers>
    requires { IsSmall (Up k) }
    ensures { result ≡ steps.up_hears k frame }
{
    match frame {
        Frame::Info { .. } | Frame::Ready(_) => Some(heard(k, frame)),
        _ => None,
    }
}

/// How a frame is taken: as the rules allow it, as one that leaves numbers out, or as one from which numbers go on.
#[derive(Clone, Copy)]
pub(crate) enum Mode {
    Right,
    Skipping,
    Wrong,
}

/// Where it is behind a frame that it sends so, with the way from there on in front of it; None where it can't.
pub(crate) fn moves(
    mode: Mode,
    stand: Stand,
    at: usize,
    way: &[Frame],
    frame: Frame,
) -> Option<Stand>
    requires { IsSmall stand }
    ensures { result ≡ steps.moves mode stand (drop at way.now) frame }
{
    match mode {
        Mode::Right => sends(stand, at, way, frame),
        Mode::Skipping => leapt(stand, frame),
        Mode::Wrong => onto(stand, frame),
    }
}

/// Past what comes, where octets that spell no frame were none.
pub(crate) fn passed(stand: Stand, frame: Frame) -> Stand
    requires { IsSmall stand }
    ensures { result ≡ steps.passed stand frame }
{
    match frame {
        Frame::Unread => stand,
        _ => upward(stand, frame),
    }
}
