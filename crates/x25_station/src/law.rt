//! A station is its link and its packet layer joined, and what it holds: laws, each the contract of a function that
//! does nothing.
ghost use Rattle.x25_station.specs.laws.ClosingLaw.{DisconnectIsAwaited, HearingCloses, FiringCloses, FiringIsAccepted};
ghost use Rattle.x25_station.specs.laws.JoinLaw.{RequestIsJoined, ReceiveIsJoined, QuietIsJoined, DownIsJoined};
ghost use Rattle.x25_station.specs.laws.JoinLaw.{UpIsJoined};
ghost use Rattle.x25_station.specs.laws.KeepLaw.{ConnectKeeps, TimerKeeps, RequestKeeps, CommandKeeps, GivenKeeps};
ghost use Rattle.x25_station.specs.laws.KeepLaw.{ReceiveKeeps};
ghost use Rattle.x25_station.specs.laws.GivenLaw.{GivenIsHeard, GivenIsJoined, GivenIsRead};
ghost use Rattle.x25_station.specs.laws.GivenLaw.{GivenIsTold, GivenIsWritten};
ghost use Rattle.x25_station.specs.laws.ReadLaw.{PutsAreReadable, PutsBesidePeersAreReadable};
ghost use Rattle.x25_station.specs.laws.HoldLaw.{FewWait, FewStand, FewMessages, FewJoined, FewHeld};
ghost use Rattle.x25_station.specs.laws.OctetLaw.{FewOctets, FewOctetsInAll};
ghost use Rattle.x25_station.specs.laws.TimerLaw.{BeginsWhereDue, BeginsBehindPull, DeadlineIsTrue, FiringIsTaken};
ghost use Rattle.x25_station.specs.laws.PullLaw.{StepsPull};
ghost use Rattle.x25_station.specs.laws.TimerLaw.{OffIsRefused, PullIsHeeded};
ghost use Rattle.x25_station.specs.laws.SettledLaw.{NewIsSettled, PullsGoOn, SettledAsks, StaysSettled};
ghost use Rattle.x25_station.specs.laws.UnheardLaw.{UnheardAsksOn};
ghost use Rattle.x25_station.specs.laws.WayOutLaw.{ClearLeadsOn, FiringLeadsOn, NothingLeadsBack, RelinkLeadsOn};
ghost use Rattle.x25_station.specs.laws.WayOutLaw.{ResetLeadsOn, RestartLeadsOn, RotationLeadsOn};
ghost use Rattle.x25_station.specs.laws.EndLaw.{EndIsTold};
ghost use Rattle.x25_station.specs.laws.ConfirmLaw.{ConfirmedIsAcknowledged, ToldIsConfirmed};

use x25_circuit::values_are_agreed;
use x25_given::what_is_written_is_read;
use x25_layer::{calls_are_runs, messages_wait_for_users};
use x25_link::{comes_to_rest, follows_the_window, holds_few, notes_what_changes, sets_up_by_rows};
use x25_packet::{reading_is_the_grammar, taking_keeps_octets};

/// Each step of a station is a step of its link, and then packets that are handed down to the link, each accepted. They
/// are the packets that the same moves of the packet layer put over a link that keeps order, and the entries are those
/// of the link's notes and of the layer's transcript.
pub fn steps_are_joined()
    ensures request { RequestIsJoined }
    ensures given { GivenIsJoined }
    ensures receive { ReceiveIsJoined }
    ensures quiet { QuietIsJoined }
    ensures down { DownIsJoined }
    ensures up { UpIsJoined }
{
    calls_are_runs();
    notes_what_changes();
}

/// What two layers of at most 4,095 channels put, whatever happens to them: the octets of each packet are octets, fit
/// in an I frame, and read as that packet, in the one form or in all, where what their users hand down is octets.
pub fn puts_are_readable()
    ensures { PutsAreReadable }
{
    reading_is_the_grammar();
    taking_keeps_octets();
    values_are_agreed();
}

/// The same of what a layer puts beside any peer that keeps the rules of docs/PEER.md.
pub fn puts_beside_peers_are_readable()
    ensures { PutsBesidePeersAreReadable }
{
    reading_is_the_grammar();
    taking_keeps_octets();
    values_are_agreed();
}

/// What is given beside a packet the user of the other end is told, where that station reads packets in all their
/// forms: the facility field, in which the station's own facilities come first, and user data, but that of a CALL,
/// which is told with the call. Octets that are as without tell nothing. That station reads the packet as it does
/// without what is given, and its user is told the same of it, and then what was given.
pub fn what_is_given_is_told()
    ensures written { GivenIsWritten }
    ensures read { GivenIsRead }
    ensures told { GivenIsTold }
    ensures heard { GivenIsHeard }
{
    reading_is_the_grammar();
    taking_keeps_octets();
    what_is_written_is_read();
}

/// What a packet confirms on a channel is what its P(R) acknowledges: so many of the messages whose last packets it
/// passes asked for confirmation, in the stretch that is open before the packet and behind it. Where a stretch ends
/// nothing is confirmed. An entry names that stretch, and tells of one message at least.
pub fn confirmed_is_acknowledged()
    ensures acknowledged { ConfirmedIsAcknowledged }
    ensures told { ToldIsConfirmed }
{}

/// What each step of a station keeps, whatever comes: at most 256 packets wait in the link, and the packet layer is as
/// LinkDown leaves it where the link isn't up.
pub fn steps_keep_bounds()
    ensures connect { ConnectKeeps }
    ensures timer { TimerKeeps }
    ensures request { RequestKeeps }
    ensures command { CommandKeeps }
    ensures given { GivenKeeps }
    ensures receive { ReceiveKeeps }
{
    notes_what_changes();
}

/// What a station holds at most: 256 packets that wait in its link, 7 that were sent and aren't acknowledged, and for
/// each channel 8 messages that wait, and one more whose last packet was pulled, until the next is begun, and one of
/// which some packets came. A message, also one in part, has at most as many octets as the settings say. In all, with
/// the places of packets and frames, it is at most 236,796 octets, and for each channel 589,815 and those of the
/// longest message.
pub fn stations_hold_few()
    ensures wait { FewWait }
    ensures stand { FewStand }
    ensures messages { FewMessages }
    ensures joined { FewJoined }
    ensures held { FewHeld }
    ensures octets { FewOctets }
    ensures octets_in_all { FewOctetsInAll }
{
    holds_few();
}

/// T1 and one who has a clock, over any events from a new station on. He drops his deadline at a step behind which T1
/// is off, sets it at one that begins T1 anew, and leaves it at any other and at a refusal: then it stands exactly
/// while T1 runs, so that a firing when it passes is never refused with 11. So it does for one who sets it once, by
/// what became of T1 at a step and a pull behind it. T1 begins anew, where it runs behind the step, or behind the pull
/// too, at each that was its firing, told LinkUp or LinkDown, or behind which more frames are acknowledged.
pub fn deadlines_are_true()
    ensures deadline { DeadlineIsTrue }
    ensures taken { FiringIsTaken }
    ensures off { OffIsRefused }
    ensures pulled { PullIsHeeded }
    ensures due { BeginsWhereDue }
    ensures due_pulled { BeginsBehindPull }
{}

/// Where the other end doesn't answer, five steps lead on, whatever it does. A channel whose interrupt isn't confirmed,
/// or of which a data packet isn't acknowledged while the other end is ready to receive, may be reset, a call or a
/// reset that isn't answered may be cleared, and where clearing isn't confirmed all may be restarted, while fewer than
/// 256 packets wait in the link. A link that is up may be set up anew by `Relink`, whatever is awaited and whatever
/// waits: LinkDown is told, and UA is awaited, with all tries left. Where UA is awaited, N2 firings of T1 and one more
/// at most lead to Down, and LinkDown is told. And no step leads back, whatever comes and whatever is asked: until
/// LinkUp or LinkDown is told, what a channel awaits is what it did, or fewer of these steps are left. Where it isn't
/// what it did, the step tells that: the answer, on that channel or of a restart, LinkUp or LinkDown; or that the
/// channel is reset or cleared or all are restarted, and then an answer to that is awaited.
pub fn ways_out_lead_on()
    ensures reset { ResetLeadsOn }
    ensures rotation { RotationLeadsOn }
    ensures clear { ClearLeadsOn }
    ensures restart { RestartLeadsOn }
    ensures relink { RelinkLeadsOn }
    ensures firing { FiringLeadsOn }
    ensures back { NothingLeadsBack }
    ensures told { EndIsTold }
{
    sets_up_by_rows();
    notes_what_changes();
}

/// While nothing is heard of the other end, as no octets come or UA is awaited, T1 runs on, whatever is asked: each
/// firing of it and each poll takes one of N2 tries, no more is acknowledged, and it runs after each. So at most N2
/// firings and one more lead to LinkDown, which ends that, as LinkUp does.
pub fn silence_is_asked()
    ensures { UnheardAsksOn }
{
    sets_up_by_rows();
}

/// Where DISC is sent again (`Cfg::wide`), its answer is awaited after each accepted disconnect, whatever the link was,
/// with all N2 tries left. Whatever comes leaves that so, and so does each firing of T1, which is accepted and takes a
/// try; or it ends. The end is told once, alone, and says whether UA or DM came or no try was left.
pub fn disconnects_are_told()
    ensures begins { DisconnectIsAwaited }
    ensures hears { HearingCloses }
    ensures fires { FiringCloses }
    ensures accepted { FiringIsAccepted }
{
    sets_up_by_rows();
}

/// A station whose link is up asks, or its link is at rest: from a new station on, whatever comes and whatever is
/// asked, nothing is left that its link may send, and the window is sound. So where the link is up T1 runs, or it is at
/// rest. What is pulled behind a step tells nothing and acknowledges nothing, leaves all that is awaited, and brings no
/// link to rest.
pub fn stations_ask_or_rest()
    ensures new { NewIsSettled }
    ensures stays { StaysSettled }
    ensures asks { SettledAsks }
    ensures pulled { PullsGoOn }
{
    comes_to_rest();
    follows_the_window();
    notes_what_changes();
    sets_up_by_rows();
}

/// What a step lets go goes with it: a pull behind a step gives something only where the packet layer is as it was
/// before that step, as where the link alone acts.
pub fn steps_leave_none()
    ensures { StepsPull }
{
    messages_wait_for_users();
}
