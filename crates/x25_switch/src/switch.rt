ghost use Rattle.std.specs.Prelude.{◌≡◌, ◌<◌, ◌≤◌, false, IfNone, IfSome, vec_len, vec_capacity};
ghost use Rattle.x25_switch.specs.Switch.{is_clearing};
ghost use Rattle.x25_switch.specs.Calls.{AreApart};
ghost use Rattle.x25_switch.specs.code.Asked.{IsAsked, IsCleared};
ghost use Rattle.x25_switch.specs.code.Plain.{plain, plains};

use crate::call::{Call, End};
use crate::calls;
use crate::leg::command_to;
use crate::refusal::{Refusal, refused_at, refused_on};
use crate::request::Request;
use crate::round::Round;
use crate::telling::told_of;
use std::alloc::{AllocError, Global};
use x25_crossing::{Crossing, Told, clear_goes_on};
use x25_layer::Params;
use x25_routes::Routes;
use x25_station::{
    Awaits, Cmd, Entry, Lent, Role, Station, StationError, Step, Told as StationTold,
};

/// The routes and the calls of a switch. The stations of its lines are their owner's: after each step of one the switch
/// is to `heed` it, and then, in a round, to `ask` that station, and each other one, until it has nothing to ask.
#[derive(Drop)]
pub struct Switch {
    routes: Routes,
    calls: Vec<Call>,
    refusals: Vec<Refusal>,
    most: usize,
    octets: usize,
    alloc: Global,
    ghost places: { vec_capacity calls ≡ most },
    ghost few: { vec_len calls ≤ most },
    ghost refusal_places: { vec_capacity refusals ≡ most },
    ghost few_refusals: { vec_len refusals ≤ most },
    ghost apart: { AreApart (plains calls.items) },
}

fn is_clearing(awaits: Awaits) -> bool
    ensures { result ≡ is_clearing awaits }
{
    matches!(awaits, Awaits::ClearConfirmation)
}

impl Switch {
    ghost use Rattle.std.specs.Prelude.{◌⊎◌, ◌++◌, ◌∷◌, IfOk, Some, [], map};
    ghost use Rattle.x25_crossing.specs.Told.{may_lack, plain_told as plain_told_call};
    ghost use Rattle.x25_layer.specs.code.FitsLayer.{awaited_at};
    ghost use Rattle.x25_station.specs.Config.{Settings, layer_settings};
    ghost use Rattle.x25_station.specs.Station.{Station as State};
    ghost use Rattle.x25_station.specs.code.FitsStation.{FitsStation};
    ghost use Rattle.x25_station.specs.code.PlainEntry.{plain_entry, plain_told};
    ghost use Rattle.x25_switch.specs.Calls.{legs_in, lingered_call, lost_call, vacated};
    ghost use Rattle.x25_switch.specs.Switch.{Hears, Heeds, HeedsEntry, HeedsNotice, new_call};

    /// No route, between lines of the numbers from 0 up to but not including `lines`, and no call: at most so many at
    /// a time, each with room for so many octets of messages each way. Err: no memory.
    pub fn new(
        alloc: Global,
        lines: usize,
        most: usize,
        octets: usize,
    ) -> Result<Switch, AllocError>
        ensures none { IfOk result (λ switch. switch.calls.items ≡ []) }
        ensures most { IfOk result (λ switch. switch.most ≡ most) }
        ensures octets { IfOk result (λ switch. switch.octets ≡ octets) }
    {
        Ok(Switch {
            routes: Routes::new(alloc, lines),
            calls: Vec::with_capacity(alloc, most)?,
            refusals: Vec::with_capacity(alloc, most)?,
            most,
            octets,
            alloc,
        })
    }

    /// The routes, to be made and removed. What they are is looked at as a call comes.
    pub fn routes(&mut self) -> &mut Routes
        ensures { result.now ≡ self.old.routes }
    {
        &mut self.routes
    }

    /// How many calls there are.
    pub fn calls(&self) -> usize
        ensures value { result ≡ vec_len self.now.calls }
        ensures few { result ≤ self.now.most }
    {
        self.calls.len()
    }

    // A call that came isn't to be cleared any more.
    fn forget(&mut self, line: u8, channel: u16)
        ensures calls { plains self.new.calls.items ≡ plains self.old.calls.items }
        ensures most { self.new.most ≡ self.old.most }
        ensures octets { self.new.octets ≡ self.old.octets }
    {
        if let Some(index) = refused_at(self.refusals.as_slice(), line, channel) {
            self.refusals.remove(index);
        }
    }

    // A call that came is to be cleared. Where so many are already, it is left to the timer of its other end.
    fn refuse(&mut self, refusal: Refusal)
        ensures calls { plains self.new.calls.items ≡ plains self.old.calls.items }
        ensures most { self.new.most ≡ self.old.most }
        ensures octets { self.new.octets ≡ self.old.octets }
    {
        if self.refusals.len() < self.most {
            self.refusals.push_reserved(refusal);
        }
    }

    // A call that came, by the route of its address. Err: the cause and the diagnostic with which it is to be cleared.
    fn call_of(&self, near: End, lent: &Lent, params: Params) -> Result<Call, (u8, u8)>
        ensures { IfOk result (λ call. plain call ≡ new_call self.now.octets near.line near.channel) }
    {
        let Some(found) = self.routes.find(lent.called()) else {
            return Err((13, 67));
        };
        let Ok(crossing) = Crossing::new(self.alloc, self.octets) else {
            return Err((5, 0));
        };
        let Ok(request) = Request::new(self.alloc, &found, lent, params) else {
            return Err((5, 0));
        };
        Ok(Call {
            crossing,
            near,
            far: End {
                line: 0,
                channel: 0,
            },
            request,
            lingers: false,
        })
    }

    // A call came, on a channel of a line on which no leg stands.
    fn take(&mut self, near: End, lent: &Lent, params: Params)
        requires { legs_in near.line near.channel (plains self.old.calls.items) ≡ 0 }
        ensures taken { (plains self.new.calls.items ≡ plains self.old.calls.items) ⊎ (plains self.new.calls.items
            ≡ plains self.old.calls.items ++ new_call self.old.octets near.line near.channel ∷ []) }
        ensures most { self.new.most ≡ self.old.most }
        ensures octets { self.new.octets ≡ self.old.octets }
    {
        let End { line, channel } = near;
        if self.calls.len() == self.most {
            self.refuse(Refusal {
                line,
                channel,
                cause: 5,
                diagnostic: 0,
            });
            return;
        }
        match self.call_of(near, lent, params) {
            Ok(call) => self.calls.push_reserved(call),
            Err((cause, diagnostic)) => self.refuse(Refusal {
                line,
                channel,
                cause,
                diagnostic,
            }),
        }
    }

    // What a station tells on a channel.
    fn hear(&mut self, end: End, told: &StationTold, clears: bool, lent: &Lent)
        ensures heeds { HeedsNotice self.old.octets end.line end.channel clears (plain_told lent.now told.now)
            (plains self.old.calls.items) (plains self.new.calls.items) }
        ensures most { self.new.most ≡ self.old.most }
        ensures octets { self.new.octets ≡ self.old.octets }
    {
        self.forget(end.line, end.channel);
        if let StationTold::Incoming { params } = *told {
            self.vacate(end);
            self.take(end, lent, params);
            return;
        }
        if let Some(told) = told_of(told, lent, clears) {
            self.tell(end, told);
        }
    }

    // What is told at a leg.
    fn tell(&mut self, end: End, told: Told<'_>)
        ensures hears { Hears end.line end.channel (Some (plain_told_call told.entry))
            (plains self.old.calls.items) (plains self.new.calls.items) }
        ensures most { self.new.most ≡ self.old.most }
        ensures octets { self.new.octets ≡ self.old.octets }
    {
        match calls::tell(&mut self.calls, end.line, end.channel, told) {
            Ok(()) => {}
            Err(AllocError) => {}
        }
    }

    // The leg that stands on a channel is lost.
    fn vacate(&mut self, end: End)
        ensures vacated { plains self.new.calls.items ≡ vacated end.line end.channel (plains self.old.calls.items) }
        ensures none { legs_in end.line end.channel (plains self.new.calls.items) ≡ 0 }
        ensures refusals { self.new.refusals ≡ self.old.refusals }
        ensures most { self.new.most ≡ self.old.most }
        ensures octets { self.new.octets ≡ self.old.octets }
    {
        calls::vacate(&mut self.calls, end.line, end.channel);
    }

    // What is told at each leg on a line.
    fn lose(&mut self, line: u8, told: Told<'_>)
        requires { may_lack (plain_told_call told) ≡ false }
        ensures lost { plains self.new.calls.items
            ≡ map (lost_call (plain_told_call told.entry) line) (plains self.old.calls.items) }
        ensures most { self.new.most ≡ self.old.most }
        ensures octets { self.new.octets ≡ self.old.octets }
    {
        calls::lose(&mut self.calls, line, told);
    }

    // What one entry says.
    fn heed_entry(&mut self, line: u8, entry: &Entry, station: &Station, lent: &Lent)
        ensures heeds { (c : Settings) (s : State) → FitsStation c station.now s
            → HeedsEntry self.old.octets line (awaited_at (layer_settings c) s.layer) (plain_entry lent.now entry.now)
            (plains self.old.calls.items) (plains self.new.calls.items) }
        ensures most { self.new.most ≡ self.old.most }
        ensures octets { self.new.octets ≡ self.old.octets }
    {
        match entry {
            Entry::Told { channel, told, .. } => {
                let end = End {
                    line,
                    channel: *channel,
                };
                let clears = is_clearing(station.channel(*channel).awaits);
                self.hear(end, told, clears, lent);
            }
            Entry::WasRestarted { cause, diagnostic } => {
                let told = Told::Restarted {
                    cause: *cause,
                    diagnostic: *diagnostic,
                };
                self.lose(line, told);
            }
            Entry::LinkUp | Entry::LinkDown(_) | Entry::RestartAsked { .. } | Entry::RestartDone =>
                {
                    self.lose(line, Told::Lost);
                }
            _ => {}
        }
    }

    /// Heeds a step of the station of a line, which has led to this one: calls that come are taken, by the longest
    /// prefix of their address, and calls are told what is told at their legs. At most as many calls are held as were
    /// given as the most; one more is cleared with cause 5, network congestion, and so is one for which there is no
    /// memory. A call without a route is cleared with cause 13, not obtainable, and diagnostic 67.
    pub fn heed(&mut self, line: u8, station: &Station, step: &Step)
        ensures heeds { (c : Settings) (s : State) → FitsStation c station.now s
            → Heeds self.old.octets line (awaited_at (layer_settings c) s.layer) step.now.entries.items
            (plains self.old.calls.items) (plains self.new.calls.items) }
        ensures most { self.new.most ≡ self.old.most }
        ensures octets { self.new.octets ≡ self.old.octets }
    {
        let lent = step.entries.lent();
        for entry in step.entries.as_slice() {
            self.heed_entry(line, entry, station, lent);
        }
    }

    /// Says that some time has passed: what waits for a leg that is to be cleared is dropped at the second time that
    /// this is said.
    pub fn linger(&mut self)
        ensures lingered { plains self.new.calls.items ≡ map lingered_call (plains self.old.calls.items) }
        ensures most { self.new.most ≡ self.old.most }
        ensures octets { self.new.octets ≡ self.old.octets }
    {
        calls::linger(&mut self.calls);
    }

    /// Asks the station of the round's line, which is this end, for the next thing that is wanted there. None where
    /// nothing is left; the station is as before then. A step that it answers is to be heeded like any other.
    pub fn ask(
        &mut self,
        round: &mut Round,
        role: Role,
        station: &mut Station,
        step: &mut Step,
    ) -> Option<Result<(), StationError>>
        ensures asked { IfSome result (λ answer.
            IsAsked round.old.line role (plains self.old.calls.items) (plains self.new.calls.items)
            station.old station.new step.new answer) }
        ensures stays { IfNone result (station.new ≡ station.old) }
        ensures same { IfNone result (plains self.new.calls.items ≡ plains self.old.calls.items) }
        ensures line { round.new.line ≡ round.old.line }
        ensures most { self.new.most ≡ self.old.most }
        ensures octets { self.new.octets ≡ self.old.octets }
    {
        if let Some(index) = refused_on(self.refusals.as_slice(), round.line) {
            if !round.has_refused {
                return Some(self.clear(index, round, role, station, step));
            }
        }
        if let Some(index) = calls::made_on(self.calls.as_slice(), round.line) {
            return Some(calls::make(&mut self.calls, index, round.line, station, step));
        }
        let (index, want) = calls::wanting(self.calls.as_slice(), *round, role)?;
        let answer = calls::ask(
            &mut self.calls,
            index,
            want,
            round.line,
            role,
            station,
            step,
        )?;
        round.went(index, want.place, answer.is_err());
        Some(answer)
    }

    // Clears a call that came and isn't taken. What is refused but for want of room isn't asked again.
    fn clear(
        &mut self,
        index: usize,
        round: &mut Round,
        role: Role,
        station: &mut Station,
        step: &mut Step,
    ) -> Result<(), StationError>
        requires { index < vec_len self.old.refusals }
        ensures cleared { IsCleared round.old.line (plains self.old.calls.items) (plains self.new.calls.items)
            station.old station.new step.new result }
        ensures line { round.new.line ≡ round.old.line }
        ensures most { self.new.most ≡ self.old.most }
        ensures octets { self.new.octets ≡ self.old.octets }
    {
        let refusal = self.refusals[index];
        self.vacate(End {
            line: round.line,
            channel: refusal.channel,
        });
        let command = Cmd::Clear {
            channel: refusal.channel,
            cause: clear_goes_on(role, refusal.cause),
            diagnostic: refusal.diagnostic,
            given: None,
        };
        let answer = command_to(station, command, step);
        if is_full(&answer) {
            round.has_refused = true;
        } else {
            self.refusals.remove(index);
        }
        answer
    }
}

// Whether a station refuses since 256 packets wait.
fn is_full(answer: &Result<(), StationError>) -> bool {
    match answer {
        Ok(()) => false,
        Err(error) => error.number() == 10,
    }
}
