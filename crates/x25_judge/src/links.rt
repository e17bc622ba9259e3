//! Both ends of a link: the places in which each may be, the octets of its last numbers, and its manners.
ghost use Rattle.std.specs.Prelude.{◌≡◌, ℕ, Bool, true, false, IfOk};
ghost use Rattle.x25_frame.specs.Frame.{plain};
ghost use Rattle.x25_judge.specs.Held.{keeps, is_same as same_octets};
ghost use Rattle.x25_judge.specs.Links as definition;
ghost use Rattle.x25_judge.specs.Midst as midst;
ghost use Rattle.x25_possible_links.specs.code.Steps.{numbers};
ghost use Rattle.x25_possible_links.specs.declared.{set.LinkSet.{LinkSet}, stand.Stand.TheVariants.{Up}};

use crate::held::Held;
use crate::manners::{Manners, Minded, Place, place_of, says};
use crate::midst::{Watch, are_known, note_of, numbers as numbers_by};
use crate::note::{Note, first_note};
use crate::rule::{Rule, first};
use std::alloc::{AllocError, Global};
use x25_frame::Frame;
use x25_packet_judge::apart;
use x25_possible_links::{Facts, Frame as Shown, LinkSet, Numbers, Spot, Stand, Told};

/// One end.
#[derive(Drop)]
pub(crate) struct End {
    pub(crate) set: LinkSet,
    pub(crate) held: Held,
    pub(crate) manners: Manners,
    pub(crate) watch: Watch,
}

/// The rule that a frame breaks, what is noted of it, whether it is an I frame that was sent before, whether it is
/// judged, and whether it is UA behind which I frames may come in front of a SABM or DISC that waits.
#[derive(Clone, Copy)]
pub(crate) struct Seen {
    pub(crate) rule: Option<Rule>,
    pub(crate) note: Option<Note>,
    pub(crate) is_again: bool,
    pub(crate) is_judged: bool,
    pub(crate) is_open: bool,
}

/// A frame: what is known of its end before it, and what is told of it.
#[derive(Clone, Copy)]
pub(crate) struct Sent {
    facts: Facts,
    told: Told,
    /// It is an I frame, and its number has the same octets.
    is_same: bool,
    /// Octets that spell no frame have come to its end by it.
    takes_unread: bool,
}

/// The manners of both ends, and what is said of a frame.
#[derive(Clone, Copy)]
pub(crate) struct Minding {
    own: Manners,
    other: Manners,
    seen: Seen,
}

/// Whether the next frame of an end is judged, where the other one sent so many commands with P=1 that aren't answered.
#[tactic(auto, unfolding(crate::specs::Links::judges))]
fn judges(facts: &Facts, polls: u8, frame: &Frame) -> bool
    ensures { result ≡ definition.judges polls (plain frame.now) facts.now }
{
    match frame {
        Frame::I { .. } => facts.is_sure && facts.is_counted,
        Frame::Rr { .. } | Frame::Rnr { .. } | Frame::Rej { .. } => facts.is_sure,
        Frame::Sabm { .. } | Frame::Disc { .. } => true,
        Frame::Ua { .. } => facts.is_answering,
        Frame::Dm { f } | Frame::Frmr { f, .. } => !*f || (polls != 0 || facts.is_shown),
    }
}

impl Seen {
    /// Nothing is said of a frame that goes for the first time, and is judged.
    pub(crate) fn quiet() -> Seen
        ensures { result ≡ definition.quiet }
    {
        Seen {
            rule: None,
            note: None,
            is_again: false,
            is_judged: true,
            is_open: false,
        }
    }

    fn adds(&mut self, minded: Minded)
        ensures { self.new ≡ definition.with_minded minded self.old }
    {
        self.rule = first(self.rule, minded.rule);
        self.note = first_note(self.note, minded.note);
        self.is_again = self.is_again || minded.is_again;
    }
}

/// What the rules of a link look at of a frame.
#[tactic(auto, unfolding(crate::specs::Links::shown))]
fn shown(frame: &Frame, differs: bool) -> Shown
    ensures { result ≡ definition.shown (plain frame.now) differs }
{
    match frame {
        Frame::I { ns, nr, .. } => Shown::Info {
            ns: ns.get(),
            nr: nr.get(),
            differs,
        },
        Frame::Rr { nr, .. } | Frame::Rnr { nr, .. } | Frame::Rej { nr, .. } => Shown::Ready(
            nr.get(),
        ),
        Frame::Sabm { .. } => Shown::Sabm,
        Frame::Disc { .. } => Shown::Disc,
        Frame::Ua { .. } => Shown::Ua,
        Frame::Dm { .. } => Shown::Dm,
        Frame::Frmr { .. } => Shown::Frmr,
    }
}

/// Whether it is UA of an end that may stand in these places, and I frames may come in front of a SABM or DISC that
/// waits for it.
#[tactic(auto, unfolding(crate::specs::Links::opens))]
fn opens(set: &LinkSet, frame: &Frame) -> bool
    ensures { result ≡ definition.opens set.now (plain frame.now) }
{
    match frame {
        Frame::Ua { .. } => set.is_open(),
        _ => false,
    }
}

// ---- which rule

/// An N(R) that it may not send: whichever is nearer.
fn invalid(k: Numbers, nr: u8) -> Rule
    ensures { result ≡ definition.invalid k nr }
{
    let least = (k.told % 8) as u8;
    let most = (k.taken % 8) as u8;
    let back = apart(least, nr);
    if u64::from(back) <= k.told && back < apart(nr, most) {
        Rule::Falls { least }
    } else {
        Rule::Unsent { most }
    }
}

fn broken_up(k: Numbers, frame: Shown) -> Rule
    ensures { result ≡ definition.broken_up k frame }
{
    match frame {
        Shown::Info { nr, differs, .. } => if k.taken.saturating_sub(k.told)
            < u64::from(apart(nr, (k.told % 8) as u8))
        {
            invalid(k, nr)
        } else if differs {
            Rule::Differs
        } else {
            Rule::OverWindow { window: 7 }
        },
        Shown::Ready(nr) => invalid(k, nr),
        _ => Rule::NotUp,
    }
}

/// The rule that a frame breaks which no place allows, as the one sees it that has come farthest.
fn broken(stand: Stand, frame: Shown) -> Rule
    ensures { result ≡ definition.broken stand frame }
{
    match (stand, frame) {
        (_, Shown::Ua) => Rule::UaUnasked,
        (Stand::Up(k), _) => broken_up(k, frame),
        _ => Rule::NotUp,
    }
}

/// But that numbers are left out in front of an I frame is of manners.
fn rule_of(told: Told, frame: Shown) -> Option<Rule>
    ensures { result ≡ definition.rule_of told frame }
{
    match (told, frame) {
        (Told::Nothing, _) | (Told::Skips(_), Shown::Info { .. }) => None,
        (Told::Skips(stand) | Told::Broken(stand), _) => Some(broken(stand, frame)),
    }
}

/// What is noted where there is no room any more.
fn blind_note(was: bool, is: bool) -> Option<Note>
    ensures { result ≡ definition.blind_note was is }
{
    if is && !was {
        Some(Note::NumbersUnjudged)
    } else {
        None
    }
}

fn place_in(stand: Stand) -> Place
    ensures { result ≡ definition.place_in stand }
{
    place_of(match stand {
        Stand::Up(k) => k,
        _ => Numbers {
            sent: 0,
            acked: 0,
            taken: 0,
            told: 0,
        },
    })
}

fn place(set: &LinkSet) -> Place
    ensures { result ≡ definition.place_in (numbers set.now) }
{
    place_in(set.numbers())
}

fn forget_in(held: &mut Held, stand: Stand)
    ensures { held.new ≡ definition.forgets_in stand held.old }
{
    match stand {
        Stand::Up(k) => held.forget((k.sent % 8) as u8),
        _ => held.forget_all(),
    }
}

/// Octets of the numbers that these places may have sent are known no longer.
fn forget_each(held: &mut Held, spots: &[Spot])
    ensures { held.new ≡ definition.forgets_each spots.now held.old }
{
    for spot in spots {
        forget_in(held, spot.stand);
    }
}

impl End {
    /// Nothing is known. Err: no memory.
    pub(crate) fn new(alloc: Global) -> Result<End, AllocError>
        ensures { IfOk result (λ end. end ≡ definition.no_end) }
    {
        let held = Held::new(alloc)?;
        Ok(End {
            set: LinkSet::new(),
            held,
            manners: Manners::new(),
            watch: Watch::Unseen,
        })
    }

    /// It is in a session with such numbers, and nothing is on the way to it.
    fn stands(&mut self, k: Numbers)
        ensures { self.new ≡ definition.standing k self.old }
    {
        self.set = LinkSet::standing(k);
        self.manners = self.manners.found();
        self.watch = Watch::Over;
    }

    /// It sends a frame.
    fn sends(&mut self, is_same: bool, shown: Shown, frame: &Frame) -> Sent
        requires { is_same ≡ same_octets self.old.held (plain frame.now) }
        ensures own { self.new ≡ definition.end_sent (plain frame.now) shown self.old }
        ensures sent { result ≡ definition.sent_by (plain frame.now) shown self.old }
    {
        let facts = self.set.facts(shown);
        let is_up = matches!(facts.stand, Stand::Up(_));
        let unread = if is_up { self.set.unread() } else { 0 };
        let told = self.set.sends(shown);
        if matches!(told, Told::Skips(_)) {
            self.held.forget_all();
        }
        self.held.keep(frame);
        self.watch = self.watch.sends(shown);
        Sent {
            facts,
            told,
            is_same,
            takes_unread: is_up && self.set.unread() < unread,
        }
    }
}

/// What is noted of an N(R) that only octets explain that spell no frame, where the other end's V(S) is `next`.
fn heard_note(stand: Stand, nr: u8, next: u8) -> Option<Note>
    ensures { result ≡ definition.heard_in stand nr next }
{
    match stand {
        Stand::Up(k) => {
            let told = (k.told % 8) as u8;
            if apart(next, told) < apart(nr, told) {
                Some(Note::HeardBehindDamage)
            } else {
                None
            }
        }
        _ => None,
    }
}

fn is_above(stand: Stand, nr: u8) -> bool
    ensures { result ≡ definition.is_above stand nr }
{
    match stand {
        Stand::Up(k) => nr as u64 != k.told % 8,
        _ => true,
    }
}

/// An I frame with numbers of an end in a session; whether its number is told to have other octets.
fn minded(
    window: u8,
    k: Numbers,
    sent: &Sent,
    ns: u8,
    p: bool,
    differs: bool,
    manners: Manners,
) -> Minded
    ensures { result ≡ definition.minded_as sent.now.told window k sent.now ns p differs manners }
{
    match sent.told {
        Told::Broken(_) => says(None, None, sent.is_same || differs, manners),
        Told::Skips(_) => manners.sends(window, place_of(k), ns, p, true),
        Told::Nothing => if sent.facts.is_counted {
            manners.sends(window, place_of(k), ns, p, false)
        } else if ns as u64 == k.sent % 8 {
            says(None, None, false, manners.adrift())
        } else {
            says(
                None,
                Some(Note::SentBehindDamage),
                sent.is_same,
                manners.adrift(),
            )
        },
    }
}

impl Minding {
    fn by_own(&mut self, minded: Minded)
        ensures { self.new ≡ definition.by_own minded self.old }
    {
        self.own = minded.manners;
        self.seen.adds(minded);
    }

    /// A command.
    fn asks(&mut self, p: bool)
        ensures { self.new ≡ definition.asks p self.old }
    {
        if p {
            self.by_own(self.own.asks());
        }
    }

    /// A response, where it is shown or not what it may answer.
    fn answers(&mut self, f: bool, is_shown: bool)
        ensures { self.new ≡ definition.answers f is_shown self.old }
    {
        if f {
            let minded = self.other.answered(is_shown);
            self.other = minded.manners;
            self.seen.adds(minded);
        }
    }

    fn bits(&mut self, command: bool, pf: bool, is_shown: bool)
        ensures { self.new ≡ definition.bits command pf is_shown self.old }
    {
        if command {
            self.asks(pf);
        } else {
            self.answers(pf, is_shown);
        }
    }

    /// Numbers of the end begin anew.
    fn begins(&mut self)
        ensures { self.new ≡ definition.begins self.old }
    {
        self.own = self.own.begun();
    }

    /// The N(S) of an I frame. An end that isn't known to be in a session may leave numbers out in front of it.
    fn counts(&mut self, window: u8, sent: &Sent, ns: u8, p: bool)
        ensures { self.new ≡ definition.counts_in sent.now.facts.stand sent.now.told window sent.now ns p self.old }
    {
        let differs = matches!(self.seen.rule, Some(Rule::Differs));
        match (sent.facts.stand, sent.told) {
            (Stand::Up(k), _) => self.by_own(minded(window, k, sent, ns, p, differs, self.own)),
            (stand, Told::Skips(_)) => {
                self.by_own(self.own.sends(window, place_in(stand), ns, p, true));
            }
            _ => {}
        }
    }

    /// An N(R), to an end that may be in these places.
    fn hears(&mut self, sent: &Sent, to: &LinkSet, nr: u8)
        ensures { self.new ≡ definition.hears sent.now to.now nr self.old }
    {
        if sent.takes_unread {
            let note = heard_note(sent.facts.stand, nr, place(to).next);
            self.seen.note = first_note(self.seen.note, note);
        }
        self.own = self.own.hears(is_above(sent.facts.stand, nr));
        self.other = self.other.heard();
    }

    /// What may set V(S) of the other end back to an N(R).
    fn sends_back(&mut self, to: &LinkSet, nr: u8)
        ensures { self.new ≡ definition.sends_back to.now nr self.old }
    {
        self.other = self.other.sent_back(apart(place(to).next, nr));
    }

    /// RR or RNR.
    fn ready(&mut self, sent: &Sent, to: &LinkSet, command: bool, nr: u8, pf: bool)
        ensures { self.new ≡ definition.ready_minded sent.now to.now command nr pf self.old }
    {
        self.bits(command, pf, sent.facts.is_known);
        self.hears(sent, to, nr);
        if pf && !command {
            self.sends_back(to, nr);
        }
    }

    /// REJ.
    fn reject(&mut self, sent: &Sent, to: &LinkSet, command: bool, nr: u8, pf: bool)
        ensures { self.new ≡ definition.reject_minded sent.now to.now command nr pf self.old }
    {
        self.bits(command, pf, sent.facts.is_known);
        self.hears(sent, to, nr);
        self.by_own(self.own.rejects(sent.facts.is_sure));
        self.sends_back(to, nr);
    }

    /// UA.
    fn accepts(&mut self, f: bool, is_shown: bool)
        ensures { self.new ≡ definition.accepts f is_shown self.old }
    {
        if self.seen.rule.is_none() {
            self.begins();
            self.answers(f, is_shown);
        }
    }

    /// A frame, to an end that may be in these places.
    #[tactic(auto, unfolding(crate::specs::Links::minds))]
    fn minds(&mut self, window: u8, sent: &Sent, to: &LinkSet, frame: &Frame)
        ensures { self.new ≡ definition.minds window sent.now to.now (plain frame.now) self.old }
    {
        match frame {
            Frame::I { ns, nr, p, .. } => {
                self.asks(*p);
                self.counts(window, sent, ns.get(), *p);
                self.hears(sent, to, nr.get());
            }
            Frame::Rr { command, nr, pf } | Frame::Rnr { command, nr, pf } => {
                self.ready(sent, to, *command, nr.get(), *pf);
            }
            Frame::Rej { command, nr, pf } => self.reject(sent, to, *command, nr.get(), *pf),
            Frame::Sabm { p } => {
                self.begins();
                self.asks(*p);
            }
            Frame::Disc { p } => self.asks(*p),
            Frame::Ua { f } => self.accepts(*f, sent.facts.is_shown),
            Frame::Dm { f } | Frame::Frmr { f, .. } => self.answers(*f, sent.facts.is_shown),
        }
    }
}

/// Whether it isn't known where one of them stands.
fn is_blind(own: &End, other: &End) -> bool
    ensures { result ≡ definition.is_blind own.now other.now }
{
    !own.set.is_known() || !other.set.is_known()
}

/// Manners behind a frame of a session, to an end with such numbers, where it is judged and nothing is said of it.
/// False: something may be, and nothing has changed.
#[tactic(auto, unfolding(crate::specs::Links::minds, crate::specs::Links::judges, crate::specs::Links::goes_quietly))]
#[inline(always)]
fn minds_quietly(
    window: u8,
    k: Numbers,
    to: Numbers,
    frame: &Frame,
    own: &mut Manners,
    other: &mut Manners,
) -> bool
    ensures same { result ≡ definition.goes_quietly window k (plain frame.now) own.old other.old }
    ensures judged { result ≡ true → (polls : ℕ) (is_same : Bool)
        → definition.judges polls (plain frame.now) (definition.steady is_same k).facts ≡ true }
    ensures minded { result ≡ true → (is_same : Bool) (there : LinkSet) → numbers there ≡ Up to
        → definition.minds window (definition.steady is_same k) there (plain frame.now)
        (definition.quietly own.old other.old) ≡ definition.quietly own.new other.new }
    ensures own { result ≡ false → own.new ≡ own.old }
    ensures other { result ≡ false → other.new ≡ other.old }
{
    match frame {
        Frame::I { ns, nr, p, .. } => {
            if *p || !own.goes_straight(window, place_of(k), ns.get()) {
                return false;
            }
            *own = own.grown(1).hears(is_above(Stand::Up(k), nr.get()));
            *other = other.heard();
            true
        }
        Frame::Rr { command, nr, pf } | Frame::Rnr { command, nr, pf } => {
            let is_above = is_above(Stand::Up(k), nr.get());
            if !*pf {
                *own = own.hears(is_above);
                *other = other.heard();
                true
            } else if *command && !own.is_polling {
                let asked = own.asks().manners;
                *own = asked.hears(is_above);
                *other = other.heard();
                true
            } else if !*command && other.polls != 0 {
                let answered = other.answered(true).manners.heard();
                *own = own.hears(is_above);
                *other = answered.sent_back(apart(place_of(to).next, nr.get()));
                true
            } else {
                false
            }
        }
        _ => false,
    }
}

/// A frame goes from an end to the other one, both in a session with nothing on the way; it is judged, goes for the
/// first time, and nothing is said of it. False: it may be another one, and nothing has changed.
#[inline(always)]
pub(crate) fn passes(own: &mut End, other: &mut End, window: u8, frame: &Frame) -> bool
    ensures same { result ≡ definition.passes window (plain frame.now) own.old other.old }
    ensures both { result ≡ true → definition.sees window (plain frame.now) own.old other.old
        ≡ record { own = own.new; other = other.new; seen = definition.quiet } }
    ensures own { result ≡ false → own.new ≡ own.old }
    ensures other { result ≡ false → other.new ≡ other.old }
{
    if !own.watch.is_over() {
        return false;
    }
    let shown = shown(frame, false);
    let Some((k, next)) = own.set.steps(shown) else {
        return false;
    };
    let Some(taken) = other.set.takes(shown) else {
        return false;
    };
    if !minds_quietly(
        window,
        k,
        taken,
        frame,
        &mut own.manners,
        &mut other.manners,
    ) {
        return false;
    }
    own.set.stands(next);
    own.held.keep(frame);
    other.set.stands(taken);
    true
}

/// An end stands there, where that is known.
fn stand_at(known: bool, k: Numbers, end: &mut End)
    ensures { end.new ≡ definition.taken_up known k end.old }
{
    if known {
        end.stands(k);
    }
}

/// Both ends stand where what they sent shows them, as soon as it does; what is noted of that is answered, where an end
/// was watched so before its frame.
fn take_up(was: Watch, own: &mut End, other: &mut End) -> Option<Note>
    ensures own { own.new ≡ definition.taken_up (midst.are_known own.old.watch other.old.watch)
        (midst.numbers own.old.watch other.old.watch) own.old }
    ensures other { other.new ≡ definition.taken_up (midst.are_known own.old.watch other.old.watch)
        (midst.numbers other.old.watch own.old.watch) other.old }
    ensures note { result ≡ midst.note_of (midst.are_known own.old.watch other.old.watch) was own.old.watch }
{
    let (here, there) = (own.watch, other.watch);
    let known = are_known(here, there);
    stand_at(known, numbers_by(here, there), own);
    stand_at(known, numbers_by(there, here), other);
    note_of(known, was, here)
}

/// An end sends a frame; at most `window` I frames may be unacknowledged.
#[inline(never)]
pub(crate) fn sees(own: &mut End, other: &mut End, window: u8, frame: &Frame) -> Seen
    ensures own { own.new ≡ (definition.sees window (plain frame.now) own.old other.old).own }
    ensures other { other.new ≡ (definition.sees window (plain frame.now) own.old other.old).other }
    ensures seen { result ≡ (definition.sees window (plain frame.now) own.old other.old).seen }
{
    let (is_same, differs) = own.held.compare(frame);
    let shown = shown(frame, differs);
    let was_blind = is_blind(own, other);
    let was = own.watch;
    let sent = own.sends(is_same, shown, frame);
    other.set.shows(shown);
    let seen = Seen {
        rule: rule_of(sent.told, shown),
        note: blind_note(was_blind, is_blind(own, other)),
        is_again: false,
        is_judged: judges(&sent.facts, other.manners.polls, frame),
        is_open: opens(&own.set, frame),
    };
    let mut both = Minding {
        own: own.manners,
        other: other.manners,
        seen,
    };
    both.minds(window, &sent, &other.set, frame);
    own.manners = both.own;
    other.manners = both.other;
    let note = take_up(was, own, other);
    Seen {
        note: first_note(both.seen.note, note),
        ..both.seen
    }
}

/// An end sends octets that spell no frame: they may have been any. What is noted of them is answered.
pub(crate) fn misses(own: &mut End, other: &mut End) -> Option<Note>
    ensures own { own.new ≡ (definition.misses own.old other.old).own }
    ensures other { other.new ≡ (definition.misses own.old other.old).other }
    ensures note { result ≡ (definition.misses own.old other.old).note }
{
    let was_blind = is_blind(own, other);
    forget_each(&mut own.held, own.set.spots.as_slice());
    own.manners = own.manners.asks_on(own.manners.is_polling).adrift();
    other.manners = other.manners.unheard(place(&other.set).pending);
    let _ = own.set.sends(Shown::Unread);
    own.watch = own.watch.sends(Shown::Unread);
    other.set.shows(Shown::Unread);
    blind_note(was_blind, is_blind(own, other))
}
