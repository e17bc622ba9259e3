//! Two stations over a line, as laws about their definition. Each is the contract of a function that does nothing.
ghost use Rattle.x25_given.specs.Given.{given_with};
ghost use Rattle.x25_layer.specs.Calls.{LayerRequest};
ghost use Rattle.x25_station.specs.Command.{requesting};
ghost use Rattle.x25_station.specs.laws.ReadLaw.{AreOctets, RequestsOctets};
ghost use Rattle.x25_world.specs.World.{event_of};
ghost use Rattle.x25_world.specs.rows.WorldRows.{GivenArrives, ConfirmedArrives};
ghost use Rattle.x25_world.specs.rows.WorldRows.{ConnectGoesAgain, SecondMeetsFirst, SecondMeet};
ghost use Rattle.x25_world.specs.laws.SessionClaims.{Throughout, ThroughoutAlong, MeetInStep, AreLawfulWhereMet};
ghost use Rattle.x25_world.specs.laws.SessionClaims.{AreNamedInSessions, AllArrive, UnmetAreToldNothing};
ghost use Rattle.x25_world.specs.laws.SessionClaims.{OpenStretchesMeet, SessionsKeepOrder};
ghost use Rattle.x25_world.specs.laws.WaitClaims.{PullsLeaveNone, UnpulledWaitForUsers, ClosedKeepNone};
ghost use Rattle.x25_world.specs.laws.WaitClaims.{MessagesWaitForUsers};
ghost use Rattle.x25_world.specs.laws.LawsBelow.{SessionLaws};
ghost use Rattle.x25_world.specs.laws.OctetLaw.{FewOctets};
ghost use Rattle.x25_world.specs.laws.Claims.{ActsInOctets, CommandsOctets, Always, UntilSecondUp, IsSetUp};
ghost use Rattle.x25_world.specs.laws.Claims.{IsLawful, IsNamed};
ghost use Rattle.x25_world.specs.laws.Claims.{ArrivesAll, HasNoProcedureError, UpOnceUnlessConnected};
ghost use Rattle.x25_world.specs.laws.SessionWindow.{StaysInWindow, SessionsStayInWindow};
ghost use Rattle.x25_world.specs.laws.TapOctets.{IsTapOfOctets};
ghost use Rattle.x25_world.specs.laws.BesideClaims.{BesideIsGiven};
ghost use Rattle.x25_world.specs.laws.ConfirmedClaims.{ConfirmedAreHandedUp};
ghost use Rattle.x25_world.specs.code.FitsWorld.{EachRunHolds};

use crate::Event;
use x25_frame::reads_what_is_spelled;
use x25_layer::{acknowledged_are_handed_up, apart_layers_keep_order, each_end_is_by_itself};
use x25_line::{each_session_event_hands_one, links_keep_order, sessions_keep_order};
use x25_link::{notes_what_changes, sets_up_by_rows};
use x25_packet::{reading_is_the_grammar, taking_keeps_octets};
use x25_station::{
    Cmd, Given, puts_are_readable, stations_hold_few, steps_are_joined, steps_keep_bounds,
    what_is_given_is_told,
};

/// What the laws of the links, the layers and the stations say, which the laws of a world rest on.
pub(crate) fn laws_below()
    ensures { SessionLaws }
{
    sessions_keep_order();
    each_session_event_hands_one();
    apart_layers_keep_order();
    acknowledged_are_handed_up();
    each_end_is_by_itself();
    steps_are_joined();
    steps_keep_bounds();
    puts_are_readable();
    what_is_given_is_told();
    notes_what_changes();
    sets_up_by_rows();
    reads_what_is_spelled();
    reading_is_the_grammar();
    taking_keeps_octets();
}

/// Two stations joined by a line of octets that keeps order and may lose or visibly damage any frame, from both links
/// down and nothing on the line, from the DTE's SABM on the line, or from a link just set up: what holds after each
/// list of commands, deliveries, losses, damage and firings of timer T1, wherever an event is refused, up to the moment
/// at which an end tells of LinkUp a second time. `window` is said from a link just set up alone. By `up_once` no end
/// goes up again from there where no `connect` and no `relink` of the list is accepted, so that a list without them has
/// no other premise than those below.
///
/// - `set_up`: SABM is there to be delivered, and then UA.
/// - `lawful`: on each channel and under each name of a stretch, the messages, interrupts and calls that an end hands
///   up are a beginning of those that the other handed down: each comes once, in order, whole, and none of another
///   call.
/// - `named`: the name of the stretch on a channel, where the link is up, is the restarts, clears and resets that the
///   transcript tells of.
/// - `arrives`: what is handed up is all of the messages and interrupts of a stretch, where the end that gives is idle
///   and both ends have that stretch open.
/// - `quiet`: no FRMR, no CLEAR, RESET or RESTART with a cause of an error was ever put on the line, and no fault was
///   reported to a user.
/// - `window`: from a link just set up there are two links and one window machine behind them, which go on from event
///   to event as the end of the event asks, and are behind each world of the run: an I frame and an N(R) on the line
///   keep the unbounded numbers that they were given as they were put, and these are in the window.
/// - `up_once`: from a link just set up, where no `connect` and no `relink` is accepted, each end tells of LinkUp once,
///   in set-up.
///
/// Premises: k is 1 to 7, N2 1 to 255, channels 1 to 4,095, and the users hand down octets.
pub fn two_stations_keep_order()
    ensures set_up { IsSetUp }
    ensures lawful { UntilSecondUp IsLawful }
    ensures named { UntilSecondUp IsNamed }
    ensures arrives { UntilSecondUp ArrivesAll }
    ensures quiet { UntilSecondUp HasNoProcedureError }
    ensures window { Always StaysInWindow }
    ensures up_once { UpOnceUnlessConnected }
{
    laws_below();
    links_keep_order();
}

/// Two stations joined by such a line, over set-up and re-set-up at any moment: what holds after each list of commands,
/// `connect` and `relink` among them, deliveries, losses, damage and firings of timer T1, wherever an event is refused,
/// from both links down and nothing on the line, from the DTE's SABM on the line, and from a link just set up.
///
/// A session of an end lasts from a `linkup` to the next `linkup` or `linkdown` there. It meets the session that the
/// other end began last before its own first `restarted`. Without one it meets none.
///
/// - `step`: sessions that meet were begun. Of two sessions of an end that each meet one, the later meets the later
///   one, and where a session meets one that meets any, that one meets it.
/// - `lawful`: on each channel and under each name of a stretch, the messages, interrupts and calls that an end hands
///   up in a session are a beginning of those that the other handed down in the session that it meets.
/// - `named`: the name of the stretch on a channel, where the link is up, is the restarts, clears and resets that the
///   transcript of the session that stands tells of.
/// - `arrives`: what is handed up is all of the messages and interrupts of a stretch, from the one session that stands
///   to the other, where the end that gives is idle and both ends have that stretch open.
/// - `unmet`: in a session that meets none the layer tells its user nothing: no message, no interrupt and no call.
/// - `stand`: where a stretch is open at both ends, on whichever channels, the two sessions that stand meet each other.
/// - `quiet`: no FRMR, no CLEAR, RESET or RESTART with a cause of an error was ever put on the line, and no fault was
///   reported to a user.
/// - `octets`: all that was ever put on the line is octets, at most 4,103 at a time.
/// - `window`: two links are behind the world where the run begins, with the window machine behind the sessions that
///   stand. Whichever two are behind a world of the run go on from there at each event as its end asks, with their
///   machine, and are behind the world after it: an end whose link is up has its session, and the one that it meets or
///   is to meet, in the machine, with the unbounded numbers behind those on the line to it, and behind those on both
///   lines where both links are up. A frame keeps the numbers that it was given as it was put.
/// - `beside`: what a user is told that came beside the packet of a call, an acceptance or a clearing, in a session
///   that meets one, is what the other end's user gave there: in order, each at most once, on its channel, the user
///   data as given and the facilities behind the station's own packet sizes and windows. In a session that meets none
///   nothing is told of it.
/// - `confirmed`: on each channel and under each name of a stretch, of the messages that the other end handed up in the
///   session that this one meets, at least so many asked for confirmation as were told as confirmed here. In a session
///   that meets none, none is told as confirmed.
///
/// Premises: k is 1 to 7, N2 1 to 255, channels 1 to 4,095, and the users hand down octets.
pub fn stations_meet_in_sessions()
    ensures step { Throughout MeetInStep }
    ensures lawful { Throughout AreLawfulWhereMet }
    ensures named { Throughout AreNamedInSessions }
    ensures arrives { Throughout AllArrive }
    ensures unmet { Throughout UnmetAreToldNothing }
    ensures stand { Throughout OpenStretchesMeet }
    ensures quiet { Throughout HasNoProcedureError }
    ensures octets { Throughout IsTapOfOctets }
    ensures window { ThroughoutAlong SessionsStayInWindow }
    ensures beside { ThroughoutAlong BesideIsGiven }
    ensures confirmed { Throughout ConfirmedAreHandedUp }
{
    laws_below();
}

/// All of this together, and of a run that leads to a world of the code.
pub(crate) fn runs_hold()
    ensures sessions { Throughout SessionsKeepOrder }
    ensures runs { EachRunHolds }
{
    two_stations_keep_order();
    stations_meet_in_sessions();
}

/// Two stations joined by such a line, over set-up and re-set-up at any moment, after each list of events as above:
/// where both links are idle and a pull at an end is accepted and leaves the layer there as it was, each stretch that
/// is open there is open at the other end too, and either no message of it waits and all of its messages and interrupts
/// arrived, or the user at the other end isn't ready. A circuit that isn't open keeps none at any time.
///
/// Premises: k is 1 to 7, N2 1 to 255, channels 1 to 4,095, and the users hand down octets.
pub fn messages_wait_for_users()
    ensures closed { Throughout ClosedKeepNone }
    ensures waits { Throughout MessagesWaitForUsers }
    ensures left { PullsLeaveNone }
    ensures unpulled { Throughout UnpulledWaitForUsers }
{
    laws_below();
    x25_layer::messages_wait_for_users();
}

/// What a world holds at most: 781,844 octets, for each channel 1,179,630 and two of the longest messages, twice as
/// many as a station does, the memory of a step and for 34 frames, and those of the frames on its line, each of which
/// counts as the longest.
pub fn worlds_hold_few()
    ensures { FewOctets }
{
    stations_hold_few();
}

/// Worked rows of what no code computes: what is given with a call and its acceptance, of which the other user is told;
/// a message whose confirmation is asked, and told; `connect`, where UA is lost, so that the second session of the DCE
/// meets the first of the DTE, and again after the DTE left, so that the second of both meet.
pub fn two_stations_move()
    ensures given { GivenArrives }
    ensures confirmed { ConfirmedArrives }
    ensures connect_again { ConnectGoesAgain }
    ensures sessions { SecondMeetsFirst }
    ensures second { SecondMeet }
{}

/// What an event hands down is octets, as the laws above want it.
pub fn hands_down_octets(event: Event)
    ensures { ActsInOctets (event_of event.entry).act }
{
    match event {
        Event::Command(_, Cmd::Call { user, given, .. }) => {
            are_octets(user);
            given_is_octets(given);
        }
        Event::Command(_, Cmd::Accept { given, .. } | Cmd::Clear { given, .. }) => {
            given_is_octets(given)
        }
        Event::Command(_, Cmd::Send { user, .. }) => are_octets(user),
        Event::Command(_, Cmd::Interrupt { user, .. }) => are_octets(user),
        _ => {}
    }
}

fn given_is_octets(given: Option<&Given<'_>>)
    ensures { (request : LayerRequest) → RequestsOctets request
        → CommandsOctets (requesting (given_with given.entry) request) }
{
    if let Some(given) = given {
        are_octets(given.facilities);
        are_octets(given.user);
    }
}

fn are_octets(octets: &[u8])
    ensures { AreOctets octets.now }
{}
