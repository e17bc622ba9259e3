//! Two link stations over a line, and one station and any peer, as laws about their definition. Each is the contract
//! of a function that does nothing.
ghost use Rattle.x25_frame.specs.laws.ReadingLaw.{ReadsSpelled};
ghost use Rattle.x25_link.specs.laws.NoteLaw.{TakeHandsUp};
ghost use Rattle.x25_link.specs.laws.BusyLaw.{BusyLaws};
ghost use Rattle.x25_line.specs.laws.LawsBelow.{HealingLaws};
ghost use Rattle.x25_line.specs.laws.StationClaims.{Always, BothInOrder, BothHaveTheirLists, BothNoteTheirEnds};
ghost use Rattle.x25_line.specs.laws.StationClaims.{NoFrmrSent, AllSentAreWhole, OneLinkUnlessConnected};
ghost use Rattle.x25_line.specs.laws.StationClaims.{EachEventHandsOne};
ghost use Rattle.x25_line.specs.laws.PeerClaims.{WithAnyPeer, WithAnyLapbPeer, OnAnySilentTape};
ghost use Rattle.x25_line.specs.laws.PeerClaims.{KeepsOrder, FindsNoFault};
ghost use Rattle.x25_line.specs.laws.StationPeers.{AreBothPeers};
ghost use Rattle.x25_line.specs.laws.WholeNumbers.{MachineGoesAlong, OnceStaysOnce};
ghost use Rattle.x25_line.specs.laws.SessionClaims.{Throughout, MeetInStep, MetAreInOrder, UnmetHandNothingUp};
ghost use Rattle.x25_line.specs.laws.SessionClaims.{OnlyBegunHaveLists, EachUpStands, EachHearsLatest, EachMeetsLatest};
ghost use Rattle.x25_line.specs.laws.SessionClaims.{IdleHasArrived, NoSessionSendsFrmr, AllSessionsSendWhole};
ghost use Rattle.x25_line.specs.laws.SessionClaims.{SessionsAreStations, SetUpIsTheStart};
ghost use Rattle.x25_line.specs.laws.SessionNumbers.{StandingGoesAlong};
ghost use Rattle.x25_line.specs.laws.SessionEvents.{EachEventHandsInSession, EachEventMeetsLatest};
ghost use Rattle.x25_line.specs.laws.SessionEvents.{NoneBeginUnasked};
ghost use Rattle.x25_line.specs.rows.PeerRows.{OddPeerMoves, SilentTapeMoves, TapeTells};
ghost use Rattle.x25_line.specs.rows.SessionRows.{SetsUpFromNothing, SetsUpAgain};
ghost use Rattle.x25_line.specs.rows.StationRows.{PacketGoes, PacketsCross, LostComesAgain, DamagedComesAgain};
ghost use Rattle.x25_line.specs.rows.StationRows.{DisconnectEnds, AbandonEnds, ConnectSetsUp, ConnectIsDeclined};

use x25_frame::reads_what_is_spelled;
use x25_link::{
    asks_and_answers, comes_to_rest, follows_the_window, notes_what_changes, sets_up_by_rows,
    tells_whether_busy,
};

/// What the laws of frames and of one link say, which the laws of two links rest on.
pub(crate) fn laws_below()
    ensures reads { ReadsSpelled }
    ensures healing { HealingLaws }
    ensures hands_up { TakeHandsUp }
    ensures busy { BusyLaws }
{
    follows_the_window();
    sets_up_by_rows();
    notes_what_changes();
    comes_to_rest();
    asks_and_answers();
    tells_whether_busy();
    reads_what_is_spelled();
}

/// Two link stations, by the definition that a link meets call by call, joined by a line of octets that keeps order and
/// may lose or visibly damage any frame, from a link just set up: what holds after each list of events at either end,
/// Connect among them, as long as the link isn't set up anew, by which an end notes LinkUp.
///
/// What one end handed up is a beginning of what the other was handed down, and the same where the giver is idle. What
/// an end counts as acknowledged was handed up. The window machine that goes on from event to event is behind each
/// moment, in which a frame on the line keeps the whole numbers that it was given as it was put, and its window holds
/// all along. No FRMR is ever sent. Each frame ever sent may be spelled, and the packet of an I frame is one that was
/// handed down. An end that left Up noted why, and then each time that it asked for set-up in vain. Where no Connect is
/// accepted (`once`), the link is never set up anew, and an end notes one LinkDown at most.
pub fn links_keep_order()
    ensures order { Always BothInOrder }
    ensures lists { Always BothHaveTheirLists }
    ensures notes { Always BothNoteTheirEnds }
    ensures window { MachineGoesAlong }
    ensures no_frmr { Always NoFrmrSent }
    ensures whole { Always AllSentAreWhole }
    ensures once { OneLinkUnlessConnected }
    ensures before { OnceStaysOnce }
{
    laws_below();
}

/// A link station, by the definition that a link meets call by call, and any peer that keeps the rules of `Peer`
/// (docs/PEER.md), from a link just set up: what holds after all that happens at either end and on the line, as long
/// as the station doesn't note LinkUp.
///
/// What the station handed up is a beginning of what the peer was handed down, and what the peer took is a beginning
/// of what the station was handed down. What an end counts as acknowledged was taken, so all was where the station is
/// idle. Of a peer that sends no frame that LAPB modulo 8 doesn't have, and none that is too long, the station never
/// finds a fault, which it would answer by FRMR (`blameless`).
pub fn any_peer_keeps_order()
    ensures order { WithAnyPeer KeepsOrder }
    ensures blameless { WithAnyLapbPeer FindsNoFault }
{
    laws_below();
}

/// The same order where nothing is asked of the peer, but the frames of both ends pass in front of the station on a
/// tape, and the rules of `Tape`, which need nothing but the tape, tell nothing of it: then what the station handed up
/// is a beginning of what the tape shows, by number. No tape shows what the peer took: it counts as having taken all
/// that it might.
pub fn silent_tape_keeps_order()
    ensures { OnAnySilentTape KeepsOrder }
{
    laws_below();
}

/// Our own station keeps the rules of a peer. Of two link stations, as `links_keep_order` has them, after each list of
/// events each is a peer of the other, which was handed down what that station was, took what it handed up, and sent
/// nothing that is answered by FRMR. So they keep order as a station does with any peer.
pub fn stations_are_peers()
    ensures { Always AreBothPeers }
{
    laws_below();
}

/// Worked rows: a peer says nothing where our own station would answer, and then polls by an I frame that acknowledges
/// none, which is handed up. A tape with that I frame and what answers it, of which nothing is told. What is told of a
/// peer that sends another packet under a number that went already, an eighth packet that isn't acknowledged, or an
/// N(R) that acknowledges what was never sent or falls.
pub fn peers_move()
    ensures odd { OddPeerMoves }
    ensures silent { SilentTapeMoves }
    ensures told { TapeTells }
{
    reads_what_is_spelled();
}

/// Two link stations and the line between them, from nothing or from a link just set up: what holds after each list of
/// events at either end, over set-up and re-set-up at any moment, where timer T1 of an end that awaits UA doesn't run
/// out while its SABM or a UA to it is on the line. A session of an end begins as it notes LinkUp, and two sessions
/// meet where one hears a frame with an N(R) that was sent in the other.
///
/// Sessions meet one to one, and in order at both ends. What is handed up in a session is a beginning of what was
/// handed down in the one that it meets, and a session that meets none hands nothing up. The session of an end that is
/// Up, and the one that it meets or is to meet, are those of a link set up once, of which all holds that
/// `links_keep_order` says. No FRMR is ever sent. Each frame ever sent may be spelled, and the packet of an I frame was
/// handed down in a session of one of the ends.
///
/// Behind the two sessions that stand is one window machine, which goes on from event to event, and begins anew where
/// two sessions do: a frame is given its whole numbers as it is put on the line, and keeps them as long as it is there.
///
/// An end that is Up hears the latest session of the other end alone, and meets no other. So one event brings one
/// meeting at most, that of the latest sessions of both ends, and only then a packet may be handed up. Where an end is
/// idle, and the other is Up too or met its session, all that was handed down in this session was handed up in the
/// latest session of the other. Where no end awaits UA and no SABM is on a line, none begins a session until a Connect
/// is accepted (`unasked`).
pub fn sessions_keep_order()
    ensures step { Throughout MeetInStep }
    ensures order { Throughout MetAreInOrder }
    ensures unmet { Throughout UnmetHandNothingUp }
    ensures begun { Throughout OnlyBegunHaveLists }
    ensures stands { Throughout EachUpStands }
    ensures machine { StandingGoesAlong }
    ensures latest { Throughout EachHearsLatest }
    ensures agree { Throughout EachMeetsLatest }
    ensures meets { Throughout EachEventMeetsLatest }
    ensures idle { Throughout IdleHasArrived }
    ensures unasked { Throughout NoneBeginUnasked }
    ensures no_frmr { Throughout NoSessionSendsFrmr }
    ensures whole { Throughout AllSessionsSendWhole }
{
    laws_below();
}

/// With the sessions forgotten, they are the two stations of `links_keep_order`: the same events do the same, and what
/// is handed down and up there is what was in all sessions.
pub fn sessions_are_links()
    ensures alike { SessionsAreStations }
    ensures start { SetUpIsTheStart }
{}

/// Worked rows: a SABM is lost and goes again, and a packet is handed up in the first session of each end; set up
/// again, a packet that was on the line is still one of the first sessions, and the next is one of the second.
pub fn sessions_move()
    ensures first { SetsUpFromNothing }
    ensures second { SetsUpAgain }
{
    reads_what_is_spelled();
}

/// One event hands up one packet at most, and hands down the packet that is put, in the latest session of the end where
/// it happens. The next session begins only as octets come, and with nothing handed down or up.
pub fn each_session_event_hands_one()
    ensures { EachEventHandsInSession }
{
    notes_what_changes();
}

/// One event hands up one packet at most, and hands down the packet that is put, at the end where it happens. LinkUp is
/// noted only as octets come, and what was noted stays.
pub fn each_event_hands_one()
    ensures { EachEventHandsOne }
{}

/// Worked rows: a packet is handed up and acknowledged, also where one comes the other way at once, and where its frame
/// is lost or damaged and goes again. An end leaves at `disconnect` and at `abandon`. At `connect` the link is set up
/// anew, or the other end declines.
pub fn links_move()
    ensures goes { PacketGoes }
    ensures cross { PacketsCross }
    ensures lost { LostComesAgain }
    ensures damaged { DamagedComesAgain }
    ensures disconnect { DisconnectEnds }
    ensures abandon { AbandonEnds }
    ensures connect { ConnectSetsUp }
    ensures declined { ConnectIsDeclined }
{
    reads_what_is_spelled();
}
