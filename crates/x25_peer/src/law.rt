ghost use Rattle.x25_peer.specs.laws.BesideSessionClaims.{WithAnyPeer, MeetInStep, MetAreInOrder, IdleHasArrived};
ghost use Rattle.x25_peer.specs.laws.BesideSessionClaims.{UnmetAreToldNothing, EachMeetsLatest, UpIsLatest};
ghost use Rattle.x25_peer.specs.laws.BesideSessionClaims.{FindsNoError};
ghost use Rattle.x25_peer.specs.rows.BesideSessionRows.{DamagedUaIsMissing, LeavingPeerAsks, LostSabmGoesAgain};

use x25_frame::reads_what_is_spelled;
use x25_layer::any_peer_keeps_transcripts;
use x25_line::any_peer_keeps_sessions;
use x25_link::{follows_the_window, notes_what_changes, sets_up_by_rows};
use x25_station::{
    puts_beside_peers_are_readable, steps_are_joined, steps_keep_bounds, what_is_given_is_told,
};

/// A station, by the definition that it meets call by call, and any peer that keeps the rules of docs/PEER.md, link
/// and packet layer, in either role, over a line of octets that keeps order and may lose or visibly damage any frame,
/// over set-up and re-set-up by either end at any moment, from nothing, where timer T1 of the station, as it awaits UA,
/// doesn't run out while its SABM, a UA to it or a SABM that crossed it is on the line. A session of the station begins
/// as it notes LinkUp, and one of the peer as its rules say, and with each its packet layer begins anew; two sessions
/// meet where one hears a frame with an N(R) that was sent in the other. What the user calls and gives beside a packet,
/// what the peer does, what the line loses and when timer T1 runs out is any list. After all that happens:
///
/// - sessions meet one to one, and in order at both ends;
/// - of two that meet, on each channel, where both ends count the restarts, clears and resets in them alike, what was
///   reported under the name of that stretch is a beginning of what the peer's packets carry in it, and what the peer
///   took in it is a beginning of what the user handed down, of messages and of interrupts; and of calls where they
///   count restarts and clears alike;
/// - all of the messages, where all is acknowledged to the peer, and where the circuit is open, nothing waits in it,
///   and all that it sent is acknowledged;
/// - where the station's link is idle, and the peer is in a session or met the station's, and its packet layer took all
///   that its link took in it, both ends count a stretch that is open at both alike, and all that the user handed down
///   in it was taken, of messages where none waits;
/// - in a session that meets none nothing is reported to the user, and the peer's packet layer takes nothing;
/// - the session of an end that is in one meets no other than the latest of the other end, and of the station what is
///   known of it is the station as it is;
/// - the station reports no error of procedure, in no session.
///
/// Premises: k is 1 to 7, at most 4,095 channels, and what the user hands down and gives is octets.
pub fn any_peer_keeps_stations_over_sessions()
    ensures step { WithAnyPeer MeetInStep }
    ensures order { WithAnyPeer MetAreInOrder }
    ensures idle { WithAnyPeer IdleHasArrived }
    ensures unmet { WithAnyPeer UnmetAreToldNothing }
    ensures agree { WithAnyPeer EachMeetsLatest }
    ensures latest { WithAnyPeer UpIsLatest }
    ensures quiet { WithAnyPeer FindsNoError }
{
    any_peer_keeps_sessions();
    any_peer_keeps_transcripts();
    puts_beside_peers_are_readable();
    steps_are_joined();
    steps_keep_bounds();
    what_is_given_is_told();
    reads_what_is_spelled();
    follows_the_window();
    sets_up_by_rows();
    notes_what_changes();
}

/// Worked rows of that: SABM is lost, and goes again at a firing of T1; UA is damaged, so that the peer's second
/// session meets the station's first one; a peer leaves its session, and asks for the next one.
pub fn stations_move_beside_peers()
    ensures lost { LostSabmGoesAgain }
    ensures damaged { DamagedUaIsMissing }
    ensures leaves { LeavingPeerAsks }
{}
