//! A call that goes through: its crossing, where its legs are, and what is asked as it is made.
ghost use Rattle.std.specs.Prelude.{◌≡◌, true, false, if◌then◌else◌, IfSome, IfNone};
ghost use Rattle.x25_crossing.specs.Asking.{is_over};
ghost use Rattle.x25_crossing.specs.Told.{may_lack, plain_told, refused, told_at};
ghost use Rattle.x25_crossing.specs.declared.side.Side.TheVariants.{Far};
ghost use Rattle.x25_switch.specs.Calls.{called_on, dropped, end_of, is_cleared_next, is_leg, is_on, leg_of};
ghost use Rattle.x25_switch.specs.Calls.{lingered_call, lost_call, lost_leg, stands, with_crossing};
ghost use Rattle.x25_switch.specs.code.Asked.{IsWantedOf, LeadsTo, NotMade, is_too_much, refused_for};
ghost use Rattle.x25_switch.specs.code.Plain.{plain};

use crate::leg::{Kind, ask};
use crate::request::Request;
use std::alloc::AllocError;
use x25_crossing::{Ask, Crossing, Side, Stage, Told};
use x25_station::{Role, Station, StationError, Step};

/// Where a leg is.
#[derive(Clone, Copy)]
pub(crate) struct End {
    pub(crate) line: u8,
    pub(crate) channel: u16,
}

#[derive(Drop)]
pub(crate) struct Call {
    pub(crate) crossing: Crossing,
    pub(crate) near: End,
    pub(crate) far: End,
    pub(crate) request: Request,
    /// One of its legs has been to be cleared for so long that what waits for it is dropped next.
    pub(crate) lingers: bool,
}

/// What a call wants of a station: the place of that among its eight, at which leg, and of which kind.
#[derive(Clone, Copy)]
pub(crate) struct Want {
    pub(crate) place: usize,
    pub(crate) side: Side,
    pub(crate) kind: Kind,
}

/// How many things a call wants of stations at most at a time: one of each kind at each leg.
const PLACES: usize = 8;

// The leg and the kind of these.
fn at(place: usize) -> (Side, Kind) {
    match place {
        0 => (Side::Near, Kind::Control),
        1 => (Side::Far, Kind::Control),
        2 => (Side::Near, Kind::Interrupt),
        3 => (Side::Far, Kind::Interrupt),
        4 => (Side::Near, Kind::Message),
        5 => (Side::Far, Kind::Message),
        6 => (Side::Near, Kind::Flow),
        _ => (Side::Far, Kind::Flow),
    }
}

// Whether a leg has a channel.
fn stands(stage: Stage) -> bool
    ensures { result ≡ stands stage }
{
    !matches!(stage, Stage::Calls | Stage::Gone)
}

impl Call {
    ghost use Rattle.x25_crossing.specs.Told.{lingered};

    /// Where a leg is.
    pub(crate) fn end(&self, side: Side) -> End
        ensures { result ≡ end_of side (plain self.now) }
    {
        match side {
            Side::Near => self.near,
            Side::Far => self.far,
        }
    }

    /// Whether a leg stands, on a line.
    pub(crate) fn is_on(&self, side: Side, line: u8) -> bool
        ensures { result ≡ is_on line side (plain self.now) }
    {
        stands(self.crossing.stage(side)) && self.end(side).line == line
    }

    // Whether a leg is the one on this channel of this line.
    fn is_leg(&self, side: Side, line: u8, channel: u16) -> bool
        ensures { result ≡ is_leg line channel side (plain self.now) }
    {
        let end = self.end(side);
        stands(self.crossing.stage(side)) && (end.line == line && end.channel == channel)
    }

    /// The leg on a channel of a line, where it is one of this call.
    pub(crate) fn leg_of(&self, line: u8, channel: u16) -> Option<Side>
        ensures { result ≡ leg_of line channel (plain self.now) }
    {
        if self.is_leg(Side::Near, line, channel) {
            return Some(Side::Near);
        }
        if self.is_leg(Side::Far, line, channel) {
            return Some(Side::Far);
        }
        None
    }

    // Whether it wants something of this kind at a leg.
    fn wants(&self, side: Side, kind: Kind, role: Role) -> bool {
        match kind {
            Kind::Control => !matches!(self.crossing.asks(side, role), None | Some(Ask::Call)),
            Kind::Interrupt => self.crossing.interrupt(side).is_some(),
            Kind::Message => self.crossing.message(side).is_some(),
            Kind::Flow => self.crossing.flow(side).is_some(),
        }
    }

    /// The first thing, from a place on, that it wants at a line, whose station is this end.
    pub(crate) fn wanting(&self, line: u8, from: usize, role: Role) -> Option<Want>
        ensures { IfSome result (λ want. is_on line want.side (plain self.now) ≡ true) }
    {
        for place in from..PLACES {
            let (side, kind) = at(place);
            if self.is_on(side, line) && self.wants(side, kind, role) {
                return Some(Want { place, side, kind });
            }
        }
        None
    }

    /// Whether it is to be made on a line.
    pub(crate) fn is_made_on(&self, line: u8) -> bool {
        self.crossing.stage(Side::Far) == Stage::Calls && self.request.line() == Some(line)
    }

    /// Whether neither leg stands, nor is to be made.
    pub(crate) fn is_over(&self) -> bool
        ensures { result ≡ is_over (plain self.now).crossing }
    {
        self.crossing.is_over()
    }

    // What is told at a leg on a line.
    fn lose_leg(&mut self, side: Side, line: u8, told: Told<'_>)
        requires { may_lack (plain_told told) ≡ false }
        ensures { plain self.new ≡ lost_leg (plain_told told.entry) line side (plain self.old) }
    {
        if self.is_on(side, line) {
            match self.crossing.told(side, told) {
                Ok(()) => {}
                Err(AllocError) => {}
            }
        }
    }

    /// What is told at each leg on a line, as it goes down or all its calls are restarted.
    pub(crate) fn lose(&mut self, line: u8, told: Told<'_>)
        requires { may_lack (plain_told told) ≡ false }
        ensures { plain self.new ≡ lost_call (plain_told told.entry) line (plain self.old) }
    {
        self.lose_leg(Side::Near, line, told);
        self.lose_leg(Side::Far, line, told);
    }

    /// The station of the far leg has called, on this channel of a line.
    pub(crate) fn called(&mut self, line: u8, channel: u16)
        ensures { plain self.new ≡ called_on line channel (plain self.old) }
    {
        self.far = End { line, channel };
        self.crossing.asked(Side::Far);
    }

    /// A station doesn't call, by the number of its refusal: the next line is tried, and where none is left the call is
    /// cleared.
    pub(crate) fn not_called(&mut self, number: u8)
        ensures { NotMade number (plain self.old) (plain self.new) }
    {
        self.request.pass();
        if self.request.line().is_none() {
            let (cause, diagnostic) = refused_for(number);
            self.refuse(Side::Far, cause, diagnostic);
        }
    }

    // A station refuses for good what was asked at a leg.
    fn refuse(&mut self, side: Side, cause: u8, diagnostic: u8)
        ensures { plain self.new
            ≡ with_crossing (told_at side (refused cause diagnostic) (plain self.old).crossing) (plain self.old) }
    {
        match self
            .crossing
            .told(side, Told::Refused { cause, diagnostic })
        {
            Ok(()) => {}
            Err(AllocError) => {}
        }
    }

    /// Asks for what it wants of a station, which is this end. None where it wants nothing there.
    pub(crate) fn ask(
        &mut self,
        want: Want,
        role: Role,
        station: &mut Station,
        step: &mut Step,
    ) -> Option<Result<(), StationError>>
        ensures wanted { IfSome result (λ answer.
            IsWantedOf role want.side want.kind (plain self.old) station.old station.new step.new answer) }
        ensures leads { IfSome result (λ answer. LeadsTo want.kind want.side answer (plain self.old) (plain self.new)) }
        ensures stays { IfNone result (station.new ≡ station.old) }
        ensures same { IfNone result (plain self.new ≡ plain self.old) }
    {
        let Want { side, kind, .. } = want;
        let channel = self.end(side).channel;
        let answer = ask(&mut self.crossing, side, kind, role, channel, station, step)?;
        if let Err(error) = answer {
            self.give_up(side, kind, error.number());
        }
        Some(answer)
    }

    // A message that a line can't take ends the call.
    fn give_up(&mut self, side: Side, kind: Kind, number: u8)
        ensures { plain self.new ≡ (if is_too_much kind number
            then with_crossing (told_at side (refused 17 39) (plain self.old).crossing) (plain self.old)
            else plain self.old) }
    {
        if is_too_much(kind, number) {
            self.refuse(side, 17, 39);
        }
    }

    // What waits for a leg that is to be cleared is dropped, where it was so at the last time.
    fn drop_waiting(&mut self)
        ensures { plain self.new ≡ dropped (plain self.old) }
    {
        if self.lingers {
            self.lingered(Side::Near);
            self.lingered(Side::Far);
        }
    }

    fn lingered(&mut self, side: Side)
        ensures { plain self.new ≡ with_crossing (told_at side lingered (plain self.old).crossing) (plain self.old) }
    {
        match self.crossing.told(side, Told::Lingered) {
            Ok(()) => {}
            Err(AllocError) => {}
        }
    }

    /// What waits for a leg that is to be cleared is dropped, at the second time that this is said.
    pub(crate) fn linger(&mut self)
        ensures { plain self.new ≡ lingered_call (plain self.old) }
    {
        self.drop_waiting();
        self.lingers = is_cleared_next(self.crossing.stage(Side::Near))
            || is_cleared_next(self.crossing.stage(Side::Far));
    }
}

fn is_cleared_next(stage: Stage) -> bool
    ensures { result ≡ is_cleared_next stage }
{
    matches!(stage, Stage::Clears { .. })
}

// The cause and the diagnostic of the clear of a call that no line takes, by the number of the last refusal.
fn refused_for(number: u8) -> (u8, u8)
    ensures { result ≡ refused_for number }
{
    if number == 10 || number == 70 {
        return (5, 0);
    }
    if number == 34 {
        return (13, 0);
    }
    if number == 41 { (1, 71) } else { (9, 0) }
}

// Whether a station refuses a message for good: it is too long, or D is asked for and may not be.
fn is_too_much(kind: Kind, number: u8) -> bool
    ensures { result ≡ is_too_much kind number }
{
    match kind {
        Kind::Message => number == 32 || number == 34,
        _ => false,
    }
}
