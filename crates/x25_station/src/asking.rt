//! What the user asks of the packet layer: the layer's call, and its entry.
ghost use Rattle.std.specs.Prelude.{◌≡◌, [], ◌∷◌, Option, false, true};
ghost use Rattle.x25_circuit.specs.Calling.{Calls, Accepts};
ghost use Rattle.x25_circuit.specs.Request.{plain_request};
ghost use Rattle.x25_circuit.specs.Params.{in_brief};
ghost use Rattle.x25_layer.specs.Layer.{Layer as LayerState, LayerSettings, is_channel};
ghost use Rattle.x25_layer.specs.Calls.{Asks, Dials, Restarts, PullsAll, asks_memory};
ghost use Rattle.x25_layer.specs.code.FitsLayer.{FitsLayer};
ghost use Rattle.x25_layer.specs.laws.Transcript.{Asked as WasAsked, name_of};
ghost use Rattle.x25_layer.specs.laws.TwoLayers.{shown};
ghost use Rattle.x25_station.specs.Command.{answer_in_brief, command_of, may_lack, proposal_said, requesting};
ghost use Rattle.x25_station.specs.Entry.{of_channel};
ghost use Rattle.x25_station.specs.code.Clock.{TellsTimer};
ghost use Rattle.x25_station.specs.code.FitsStation.{FitsStation, Does, IsEmpty, RefusesOnly};
ghost use Rattle.x25_station.specs.code.Entries.{IsBrief};
ghost use Rattle.x25_station.specs.code.PlainEntry.{plain_asked};
ghost use Rattle.x25_station.specs.Config.{Settings};
ghost use Rattle.x25_station.specs.Station.{Station as State};
ghost use Rattle.x25_given.specs.Given.{PlainGiven, given_with};
ghost use Rattle.x25_station.specs.Step.{asks, commands, requests};

use crate::command::Cmd;
use crate::driving::{ask, call, pull, restart, state};
use crate::entering::NO_NAME;
use crate::entries::Entries;
use crate::entry::{Asked, Entry};
use crate::error::StationError;
use crate::giving::{NOT_TAKEN, may_ask, may_dial};
use crate::law::steps_keep_bounds;
use crate::lent::Lent;
use crate::linking::LinkCall;
use crate::station::Station;
use crate::step::Step;
use x25_circuit::{Proposal, Request};
use x25_given::Given;
use x25_layer::{Layer, Params};
use x25_link::holds_few;
use x25_packet::Marks;

// What is asked of a channel, for an entry: an acceptance shows the packet sizes and windows in force.
#[inline(always)]
fn asked_of(lent: &mut Lent, layer: &Layer, channel: u16, request: &Request<'_>) -> Asked
    ensures { (c : LayerSettings) (l : LayerState) → FitsLayer c layer.now l
        → is_channel c.channels channel ≡ true → IsBrief (plain_request request.now)
        → plain_asked lent.new result ≡ shown (l.circuits channel) (plain_request request.now) }
{
    match *request {
        Request::Call {
            called,
            calling,
            user,
            proposal,
        } => {
            lent.called.set(called.as_bytes());
            lent.calling.set(calling.as_bytes());
            lent.user.set(user);
            Asked::Call {
                params: proposal.params(),
            }
        }
        Request::Accept { .. } => Asked::Accept {
            params: layer.params(channel).unwrap_or(Params::default()),
        },
        Request::Clear { cause, diagnostic } => Asked::Clear { cause, diagnostic },
        Request::Send { marks, user } => {
            lent.set_message(user);
            Asked::Send { marks }
        }
        Request::Interrupt { user } => {
            lent.user.set(user);
            Asked::Interrupt
        }
        Request::Reset { cause, diagnostic } => Asked::Reset { cause, diagnostic },
        Request::Ready => Asked::Ready,
        Request::NotReady => Asked::NotReady,
    }
}

/// Enters what was asked of a channel, as the only entry, under the name of the stretch that stands then.
#[inline(always)]
pub(crate) fn enter_asked(layer: &Layer, entries: &mut Entries, channel: u16, request: &Request<'_>)
    requires { entries.old.items ≡ [] }
    ensures { (c : LayerSettings) (l : LayerState) → FitsLayer c layer.now l
        → is_channel c.channels channel ≡ true → IsBrief (plain_request request.now)
        → entries.new.items ≡ of_channel (record {
          channel = channel;
          name = name_of l channel;
          said = WasAsked (shown (l.circuits channel) (plain_request request.now));
        }) ∷ [] }
{
    let asked = asked_of(&mut entries.lent, layer, channel, request);
    let name = layer.name(channel).unwrap_or(NO_NAME);
    entries.list.push_reserved(Entry::Asked {
        channel,
        name,
        asked,
    });
}

impl Station {
    /// Does what the user asks.
    ///
    /// `Connect` is refused with 12 where the link is being set up, 13 where it is closed and 15 where it is up, and
    /// `Disconnect` with 13 where it is closed. `Probe` and `Relink` are refused with 9 where the link isn't up, but
    /// with 13 where it is closed, and `Relink` with 12 where it is being set up. The others are refused with 9 where
    /// the link isn't up, then with 40 while a restart is under way; one with a channel then with 42 where it isn't
    /// configured and a call with 41 where no channel is free; then, but for a message, with 10 where 256 packets wait;
    /// and then as the circuit refuses it, with 30 to 34, and `Restart` with 34 where the user of this end may not give
    /// its cause. A message of which confirmation is asked is refused as without, and then with 34 where `Cfg::wide`
    /// isn't set. What is asked with something given is refused as without, and then with 34 where `Cfg::wide` isn't
    /// set, where that isn't allowed (`Given::is_allowed`), where user data is given beside a call, and where D is
    /// beside a clearing. Else 70 alone, and that of a call, an acceptance and a message alone: they want memory for a
    /// message of their channel. The station is as before then.
    #[inline(always)]
    pub fn command(&mut self, command: Cmd<'_>, out: &mut Step) -> Result<(), StationError>
        ensures does { Does self.old self.new out.new result (λ c s. commands c s (command_of command.entry)) }
        ensures timer { TellsTimer self.old out.new.timer result false
            (λ c s. commands c s (command_of command.entry)) }
        ensures only { may_lack (command_of command.entry) ≡ false → (c : Settings) (s : State)
            → FitsStation c self.old s → RefusesOnly result (commands c s (command_of command.entry)) }
    {
        out.clear();
        let ran = self.link.timer_runs();
        let answer = self.carry_out(&command, out);
        out.timer = self.timer_behind(ran, false, false, out);
        answer
    }

    // Does what the user asks, into a step that is empty.
    #[inline(never)]
    fn carry_out(&mut self, command: &Cmd<'_>, out: &mut Step) -> Result<(), StationError>
        requires { IsEmpty out.old }
        ensures does { Does self.old self.new out.new result (λ c s. commands c s (command_of command.now)) }
        ensures only { may_lack (command_of command.now) ≡ false → (c : Settings) (s : State)
            → FitsStation c self.old s → RefusesOnly result (commands c s (command_of command.now)) }
    {
        match *command {
            Cmd::Accept {
                channel,
                params,
                given,
            } => self.accept(channel, params, given, out),
            Cmd::Clear {
                channel,
                cause,
                diagnostic,
                given,
            } => self.ask(channel, Request::Clear { cause, diagnostic }, given, out),
            Cmd::Send {
                channel,
                q,
                d,
                user,
            } => {
                let marks = Marks { q, d };
                self.ask(channel, Request::Send { marks, user }, None, out)
            }
            Cmd::Interrupt { channel, user } => {
                self.ask(channel, Request::Interrupt { user }, None, out)
            }
            Cmd::Reset {
                channel,
                cause,
                diagnostic,
            } => self.ask(channel, Request::Reset { cause, diagnostic }, None, out),
            Cmd::Ready { channel } => self.ask(channel, Request::Ready, None, out),
            Cmd::NotReady { channel } => self.ask(channel, Request::NotReady, None, out),
            Cmd::Call {
                called,
                calling,
                user,
                params,
                given,
            } => {
                let params = params.unwrap_or(Params::default());
                self.call(called, calling, user, params, given, out)
            }
            Cmd::Restart { cause, diagnostic } => self.restart(cause, diagnostic, out),
            Cmd::Pull => self.pull_asked(out),
            Cmd::Connect => self.call_link(LinkCall::Connect, out),
            Cmd::Disconnect => self.call_link(LinkCall::Disconnect, out),
            Cmd::Probe => self.call_link(LinkCall::Probe, out),
            Cmd::Relink => self.call_link(LinkCall::Relink, out),
        }
    }

    // The data packets that wait in the circuits of all channels are handed down to the link, in rounds, while fewer
    // than 8 packets wait there (profile).
    fn pull_asked(&mut self, out: &mut Step) -> Result<(), StationError>
        requires { IsEmpty out.old }
        ensures does { Does self.old self.new out.new result (λ c s. requests c s PullsAll) }
        ensures only { (c : Settings) (s : State) → FitsStation c self.old s
            → RefusesOnly result (requests c s PullsAll) }
    {
        steps_keep_bounds();
        holds_few();
        match pull(&mut self.layer, &mut self.link, &mut self.turn) {
            Ok(()) => {
                self.link.swap_frames(&mut out.frames);
                Ok(())
            }
            Err(error) => Err(StationError::of_layer(error)),
        }
    }

    // An acceptance, with packet sizes and windows of its own, or with those proposed.
    fn accept(
        &mut self,
        channel: u16,
        params: Option<Params>,
        given: Option<&Given<'_>>,
        out: &mut Step,
    ) -> Result<(), StationError>
        requires { IsEmpty out.old }
        ensures does { Does self.old self.new out.new result
            (λ c s. commands c s (requesting (given_with given.entry)
            (Asks channel (Accepts (answer_in_brief params))))) }
    {
        match self.answer(channel, params) {
            Some(answer) => self.ask(
                channel,
                Request::Accept {
                    answer: Some(&answer),
                },
                given,
                out,
            ),
            None => self.ask(channel, Request::Accept { answer: None }, given, out),
        }
    }

    // What an acceptance says, where it says anything.
    fn answer(&self, channel: u16, params: Option<Params>) -> Option<Proposal>
        ensures { (c : Settings) (s : State) (given : Option PlainGiven) → FitsStation c self.now s
            → commands c s (requesting given (Asks channel (Accepts (answer_in_brief params))))
            ≡ asks c s given (Asks channel (Accepts result)) }
    {
        if let Some(params) = params {
            return Some(Proposal::new(params, self.manner.say_sizes));
        }
        if !self.manner.say_sizes {
            return None;
        }
        let Some(proposed) = self.layer.params(channel) else {
            return None;
        };
        Some(Proposal::new(proposed, true))
    }

    // A call, with these packet sizes and windows.
    fn call(
        &mut self,
        called: &str,
        calling: &str,
        user: &[u8],
        params: Params,
        given: Option<&Given<'_>>,
        out: &mut Step,
    ) -> Result<(), StationError>
        requires { IsEmpty out.old }
        ensures does { Does self.old self.new out.new result (λ c s. commands c s
            (requesting (given_with given.entry) (Dials called.now calling.now user.now (in_brief params)))) }
    {
        let proposal = self.proposal(params);
        self.dial(called, calling, user, &proposal, given, out)
    }

    // What a call says.
    fn proposal(&self, params: Params) -> Proposal
        ensures { (c : Settings) (s : State) → FitsStation c self.now s
            → proposal_said c.say_sizes (in_brief params) ≡ result }
    {
        Proposal::new(params, self.manner.say_sizes)
    }

    // A call, on a channel that is free.
    fn dial(
        &mut self,
        called: &str,
        calling: &str,
        user: &[u8],
        proposal: &Proposal,
        given: Option<&Given<'_>>,
        out: &mut Step,
    ) -> Result<(), StationError>
        requires { IsEmpty out.old }
        ensures does { Does self.old self.new out.new result
            (λ c s. asks c s (given_with given.entry) (Dials called.now calling.now user.now proposal.now)) }
    {
        steps_keep_bounds();
        holds_few();
        if !may_dial(self.manner.wide, given) {
            if let Some(error) = self
                .layer
                .call_refusal(state(&self.link), called, calling, user, proposal)
            {
                return Err(StationError::of_layer(error));
            }
            return Err(NOT_TAKEN);
        }
        match call(
            &mut self.layer,
            &mut self.link,
            &mut self.turn,
            &mut self.writing,
            called,
            calling,
            user,
            proposal,
            given,
        ) {
            Ok(channel) => {
                let request = Request::Call {
                    called,
                    calling,
                    user,
                    proposal,
                };
                enter_asked(&self.layer, &mut out.entries, channel, &request);
                self.link.swap_frames(&mut out.frames);
                Ok(())
            }
            Err(error) => Err(StationError::of_layer(error)),
        }
    }

    // What is asked of the circuit of a channel.
    #[inline(always)]
    fn ask(
        &mut self,
        channel: u16,
        request: Request<'_>,
        given: Option<&Given<'_>>,
        out: &mut Step,
    ) -> Result<(), StationError>
        requires { IsEmpty out.old }
        ensures does { Does self.old self.new out.new result
            (λ c s. asks c s (given_with given.entry) (Asks channel (plain_request request.entry))) }
        ensures only { asks_memory (Asks channel (plain_request request.entry)) ≡ false → (c : Settings) (s : State)
            → FitsStation c self.old s
            → RefusesOnly result (asks c s (given_with given.entry) (Asks channel (plain_request request.entry))) }
    {
        steps_keep_bounds();
        holds_few();
        if !may_ask(self.manner.wide, &request, given) {
            // A copy is lent, so that the request itself stays out of memory where this stands in its callers' place.
            let asked = request;
            if let Some(error) = self.layer.refusal(state(&self.link), channel, &asked) {
                return Err(StationError::of_layer(error));
            }
            return Err(NOT_TAKEN);
        }
        match ask(
            &mut self.layer,
            &mut self.link,
            &mut self.turn,
            &mut self.writing,
            channel,
            request,
            given,
        ) {
            Ok(()) => {
                enter_asked(&self.layer, &mut out.entries, channel, &request);
                self.link.swap_frames(&mut out.frames);
                Ok(())
            }
            Err(error) => Err(StationError::of_layer(error)),
        }
    }

    // A restart of the packet layer.
    fn restart(&mut self, cause: u8, diagnostic: u8, out: &mut Step) -> Result<(), StationError>
        requires { IsEmpty out.old }
        ensures does { Does self.old self.new out.new result (λ c s. requests c s (Restarts cause diagnostic)) }
        ensures only { (c : Settings) (s : State) → FitsStation c self.old s
            → RefusesOnly result (requests c s (Restarts cause diagnostic)) }
    {
        steps_keep_bounds();
        holds_few();
        match restart(
            &mut self.layer,
            &mut self.link,
            &mut self.turn,
            cause,
            diagnostic,
        ) {
            Ok(()) => {
                out.entries.push(Entry::RestartAsked { cause, diagnostic });
                self.link.swap_frames(&mut out.frames);
                Ok(())
            }
            Err(error) => Err(StationError::of_layer(error)),
        }
    }
}
