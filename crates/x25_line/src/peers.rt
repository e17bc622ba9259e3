//! One link station and any peer, and any two ends, set up and set up again at any moment: laws, each the contract of a
//! function that does nothing.
ghost use Rattle.x25_line.specs.laws.SessionClaims.{Throughout, MeetInStep, MetAreInOrder, UnmetHandNothingUp};
ghost use Rattle.x25_line.specs.laws.EndClaims.{OfAnyTwoEnds, KeepSessions};
ghost use Rattle.x25_line.specs.laws.PeerSessionClaims.{WithAnyPeer, OfBothEnds, EachMeetsLatest, IdleHasArrived};
ghost use Rattle.x25_line.specs.laws.PeerSessionClaims.{WithAnyLapbPeer, SendsNoFrmr, AsksInLatest};
ghost use Rattle.x25_line.specs.laws.SessionPeers.{AreBothPeers};
ghost use Rattle.x25_line.specs.rows.PeerSessionRows.{CrossingPeerMoves};

use crate::law::laws_below;
use x25_frame::reads_what_is_spelled;

/// Any two ends that keep the rules of docs/PEER.md, over a line that keeps order and may lose or visibly damage what
/// is on it, from nothing or from a link just set up: what holds over set-up and re-set-up by either end at any
/// moment, where each sends SABM only where no SABM and no DISC of its own and no UA to it is on the line, and none of
/// the other end's SABMs there is older than its present session.
///
/// Sessions meet one to one, and in order at both ends. Of two that meet, what an end took in its own is a beginning of
/// what the other was handed down in the other, and all of it where all is acknowledged; what is acknowledged was
/// taken. In a session that meets none an end takes nothing. The session of an end that is in one meets no other than
/// the latest of the other end, and each N(R) that comes to it is valid.
pub fn two_ends_keep_sessions()
    ensures { OfAnyTwoEnds KeepSessions }
{}

/// A link station, by the definition that a link meets call by call, and any peer that keeps the rules of
/// docs/PEER.md, from nothing or from a link just set up: what holds after all that happens at either end and on the
/// line, over set-up and re-set-up by either end at any moment, where timer T1 of the station, as it awaits UA,
/// doesn't run out while its SABM, a UA to it or a SABM that crossed it is on the line. A session of the station
/// begins as it notes LinkUp, and one of the peer as its rules say; two sessions meet where one hears a frame with an
/// N(R) that was sent in the other.
///
/// Sessions meet one to one, and in order at both ends. What the station handed up in a session is a beginning of
/// what the peer was handed down in the one that it meets, and what the peer took there is a beginning of what the
/// station was handed down. In a session that meets none the station hands nothing up, and the peer takes nothing.
/// The session of an end that is in one meets no other than the latest of the other end. Where the station is idle,
/// and the peer is in a session or met the station's, all that the station was handed down in this session was taken
/// in the peer's latest. To a peer that sends no frame that LAPB modulo 8 doesn't have, and none that is too long,
/// the station never sends FRMR (`no_frmr`). No SABM of the station on the line is older than its present session
/// (`asks`).
pub fn any_peer_keeps_sessions()
    ensures step { WithAnyPeer (OfBothEnds MeetInStep) }
    ensures order { WithAnyPeer (OfBothEnds MetAreInOrder) }
    ensures unmet { WithAnyPeer (OfBothEnds UnmetHandNothingUp) }
    ensures agree { WithAnyPeer EachMeetsLatest }
    ensures idle { WithAnyPeer IdleHasArrived }
    ensures no_frmr { WithAnyLapbPeer SendsNoFrmr }
    ensures asks { WithAnyPeer AsksInLatest }
{
    laws_below();
}

/// Our own station keeps the rules of a peer over set-up and re-set-up. Of two link stations, as `sessions_keep_order`
/// of `x25_line` has them, after each list of events each is a peer of the other, which began the sessions that the
/// station began, and in each was handed down what that was, and took what that handed up. It sent nothing that is
/// answered by FRMR. By UA with F=0, which a peer may take, it begins no session.
pub fn stations_are_peers_over_sessions()
    ensures { Throughout AreBothPeers }
{
    laws_below();
}

/// A worked row: SABM of a station and SABM of a peer cross, and the peer begins its session as it answers, where our
/// own station would wait on. Each end is then in its first session, and a packet is handed up.
pub fn peers_move_over_sessions()
    ensures crosses { CrossingPeerMoves }
{
    reads_what_is_spelled();
}
