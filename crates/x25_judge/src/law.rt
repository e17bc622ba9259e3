//! What a verdict means: no end that keeps the rules is told of by a rule of order, and where nothing is told order is
//! kept, as long as there is room for its places. Each law is the contract of a function that does nothing.
ghost use Rattle.x25_frame.specs.laws.ReadingLaw.{ReadsSpelled, ReadsWhatIsSpelled};
ghost use Rattle.x25_judge.specs.laws.VerdictClaims.{GuiltyAreTold, JudgedFinalsAreTold, JudgedSendingsAreTold};
ghost use Rattle.x25_judge.specs.laws.VerdictClaims.{ToldAreGuilty, NoSessionIsAccused, NoStationIsAccused};
ghost use Rattle.x25_judge.specs.laws.VerdictClaims.{SilenceMeansOrder, SilenceMeansRules, SetUpsBegin};
ghost use Rattle.x25_judge.specs.laws.VerdictClaims.{SilenceMeansNumbers};
ghost use Rattle.x25_judge.specs.laws.DoubtClaims.{GapsLeaveDoubt, LossesAreTold, LossesLeaveDoubt, OctetsAreCertain};
ghost use Rattle.x25_judge.specs.laws.DoubtClaims.{PacketsStayInDoubt};
ghost use Rattle.x25_judge.specs.laws.Midst.{LinksAreTakenUp, NumbersAreFound};
ghost use Rattle.x25_line.specs.laws.{LawsBelow.{Laws}, PeerClaims.{KeepsOrder, OnAnySilentTape}};
ghost use Rattle.x25_line.specs.laws.StationClaims.{EachEventHandsOne};

use x25_frame::{reading_is_the_grammar, reads_what_is_spelled};
use x25_line::{each_event_hands_one, silent_tape_keeps_order};
use x25_link::{follows_the_window, notes_what_changes, sets_up_by_rows};

/// SABM of an end and UA of the other, anywhere in a trace, begin the session that the laws below are about, as long as
/// nothing is told of either, no UA waits for the end that asks and no number for the other one, and no octets that
/// spell no frame for either.
pub fn set_ups_begin()
    ensures { SetUpsBegin }
{}

/// An end that keeps the rules of docs/PEER.md, over any number of link set-ups, and whose numbers go one by one when
/// they go for the first time, is told of by no rule of order of the link layer: an N(R) that acknowledges what was
/// never sent or falls, other octets in an I frame that goes again, more than seven I frames unacknowledged. That holds
/// of the whole trace from its first line on, and from any set-up on, whatever frames the other end sends, whether it
/// keeps any rule or not, SABM, UA, DISC and DM at any moment too, whatever of them comes, is heard or taken, and
/// whichever lines are damaged. Nothing comes behind which 64 more lines of the other end were shown. Beyond those
/// rules it leaves its session as it sends DM or FRMR and as it answers DISC. Of octets of it that pass the check and
/// are no frame it says nothing, and no law here does.
pub fn sessions_stay_untold()
    ensures { NoSessionIsAccused }
{}

/// A station of ours is such an end: whatever frames the other end sends, and whatever the line does, no rule of order
/// is told of a frame of it, in a trace taken in front of it, from a set-up on to the next frame without a number. Of
/// any 64 lines of the other end nothing is between the trace and the station behind one of them.
pub fn stations_stay_untold()
    ensures { NoStationIsAccused }
{
    laws_below();
    sessions_stay_untold();
}

/// From a set-up on to the next frame without a number, of a trace taken in front of a station: as long as there is
/// room, no line is damaged and neither a rule nor manners are told of either end, what the station handed up is a
/// beginning of what the I frames of the other end carry, each number once. That end may be any, and anything may be
/// lost or damaged between the trace and the station.
pub fn silence_means_order()
    ensures { SilenceMeansOrder }
{
    laws_below();
}

/// In each session, from a set-up on to the next frame without a number: where neither a rule nor manners are told of
/// either end, and no line is damaged, the lines of each end are those of an end that keeps the rules of docs/PEER.md,
/// and hears and takes what comes as the trace shows it.
pub fn silence_means_rules_kept()
    ensures { SilenceMeansRules }
{
    laws_below();
}

/// The same of the numbers alone, where nothing is told of an end, whatever is told of the other one and whichever of
/// its lines are damaged: the end's I frames carry one packet for each number, from 0 on, each for the first time in
/// its turn, and the same one each time that its number goes again, which it does not eight behind.
pub fn silence_means_one_packet()
    ensures { SilenceMeansNumbers }
{
    laws_below();
}

/// What breaks a rule is told. Where an end kept the rules up to a frame, and no run of an end that keeps them
/// explains the trace with it, a rule is told of it, or that numbers are left out, as long as there is room; and the
/// first rule of order that is told of an end is told of such a frame. Of what counts as judged a rule or manners are
/// told: of an I frame whose N(S) is none that V(S) may have, and of a response with F=1 that answers no P=1.
pub fn guilty_are_told()
    ensures guilty { GuiltyAreTold }
    ensures told { ToldAreGuilty }
    ensures sendings { JudgedSendingsAreTold }
    ensures finals { JudgedFinalsAreTold }
{}

/// A link that the trace finds set up, at its beginning or behind a gap, is taken up where each end acknowledged eight
/// I frames in a row. Both are in a session then, with nothing on the way. From there on no rule of order is told of an
/// end that stands so and keeps the rules, and what no such end explains is told (`guilty_are_told`). Of two ends that
/// keep the rules for numbers, each has V(S) and the last N(R) with which it is taken up. No more than that is
/// acknowledged to it, or taken by it, whatever is lost.
pub fn links_are_taken_up()
    ensures begins { LinksAreTakenUp }
    ensures found { NumbersAreFound }
{}

/// What is told where frames or packets may be missing is in doubt: after a gap, until both ends are settled and the
/// one to which frames may be missing has acknowledged eight I frames; of packets, where not all was seen since a
/// set-up; and of an end of which the line may have lost lines. Octets that spell no frame never are.
pub fn missing_frames_leave_doubt()
    ensures gaps { GapsLeaveDoubt }
    ensures packets { PacketsStayInDoubt }
    ensures octets { OctetsAreCertain }
    ensures losses { LossesLeaveDoubt }
    ensures worked { LossesAreTold }
{}

fn laws_below()
    ensures reads { ReadsWhatIsSpelled }
    ensures spelled { ReadsSpelled }
    ensures order { OnAnySilentTape KeepsOrder }
    ensures station { Laws }
    ensures hands { EachEventHandsOne }
{
    reading_is_the_grammar();
    reads_what_is_spelled();
    silent_tape_keeps_order();
    follows_the_window();
    sets_up_by_rows();
    notes_what_changes();
    each_event_hands_one();
}
