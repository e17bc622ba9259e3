ghost use Rattle.std.specs.Prelude.{Bool};
ghost use Rattle.x25_layer.specs.declared.ranges.Ranges.{Ranges};
ghost use Rattle.x25_layer.specs.laws.Law.{Always, IsQuietWorld, IsLawfulWorld, ArrivesAll, KeepsOrder};
ghost use Rattle.x25_layer.specs.laws.NameLaw.{NamesAreCounted, NoClearComesInP1};
ghost use Rattle.x25_layer.specs.laws.Acknowledged.{AcknowledgedAreHandedUp};
ghost use Rattle.x25_layer.specs.laws.Apart.{AlwaysApart};
ghost use Rattle.x25_layer.specs.laws.ApartLaw.{IsOverLinks, RestartsFirst, BeginsAlone, OwnMovesDecide, StaysDown};
ghost use Rattle.x25_layer.specs.laws.ApartLaw.{EventsRunOn};
ghost use Rattle.x25_layer.specs.laws.FairLaw.{EachHasItsTurn};
ghost use Rattle.x25_layer.specs.laws.RoundLaw.{CallsRun, HearsRun, RoundsSettle, RoundsGoOn, RoundsEnd, ComesUpAlone};
ghost use Rattle.x25_layer.specs.laws.PeerClaims.{WithAnyPeer, FindsNoError, IsAllInOrder, AllHaveArrived};
ghost use Rattle.x25_layer.specs.laws.PeerClaims.{LayersAreEnds};
ghost use Rattle.x25_layer.specs.laws.WaitLaw.{RoundsLeaveNone, StillPullsNone, ClosedKeepNone, NoneOpenInRestart};
ghost use Rattle.x25_layer.specs.laws.WaitLaw.{WaitForUsersAlone};

/// Two layers over links that keep order, whatever their users ask and whenever a link goes down: after every event,
///
/// - what each link was given is what the other handed up, and then what is in flight;
/// - no end sent the other or reported to its user an error of procedure;
/// - on each channel and under each name of a stretch, what an end handed up is a beginning of what the other handed
///   down, of messages, of interrupts and of calls;
/// - and all of the messages and interrupts of a stretch that is open at both ends, where all that the giver handed
///   down is acknowledged and none of its messages waits.
pub fn two_layers_keep_order()
    ensures order { (long_data : Bool) (channels : Ranges) → Always KeepsOrder long_data channels }
    ensures quiet { (long_data : Bool) (channels : Ranges) → Always (IsQuietWorld channels) long_data channels }
    ensures lawful { (long_data : Bool) (channels : Ranges) → Always IsLawfulWorld long_data channels }
    ensures arrives { (long_data : Bool) (channels : Ranges) → Always ArrivesAll long_data channels }
{
    x25_circuit::values_are_agreed();
}

/// The same two layers: where an end's link is up, the name of the stretch on each channel is the restarts, clears and
/// resets that were reported to its user. No CLEAR comes in p1, which would count and report nothing.
pub fn names_are_told()
    ensures names { (long_data : Bool) (channels : Ranges) → Always NamesAreCounted long_data channels }
    ensures clear { (long_data : Bool) (channels : Ranges) → Always NoClearComesInP1 long_data channels }
{
    x25_circuit::values_are_agreed();
}

/// Two layers, each end by itself, where each packet that an end's link hands up is the next of those that the other
/// end gave: every list of such events leads where it leads two layers over links, of which all of the above holds. And
/// nothing is reported to an end's user before the first packet, which is reported as a restart by the other end.
pub fn apart_layers_keep_order()
    ensures runs { (long_data : Bool) (channels : Ranges) → IsOverLinks long_data channels }
    ensures order { (long_data : Bool) (channels : Ranges) → AlwaysApart KeepsOrder long_data channels }
    ensures quiet { (long_data : Bool) (channels : Ranges) → AlwaysApart (IsQuietWorld channels) long_data channels }
    ensures lawful { (long_data : Bool) (channels : Ranges) → AlwaysApart IsLawfulWorld long_data channels }
    ensures arrives { (long_data : Bool) (channels : Ranges) → AlwaysApart ArrivesAll long_data channels }
    ensures names { (long_data : Bool) (channels : Ranges) → AlwaysApart NamesAreCounted long_data channels }
    ensures clear { (long_data : Bool) (channels : Ranges) → AlwaysApart NoClearComesInP1 long_data channels }
    ensures restarted { (long_data : Bool) (channels : Ranges) → AlwaysApart RestartsFirst long_data channels }
{
    two_layers_keep_order();
    names_are_told();
}

/// One end by itself, whatever happens to it and whatever its link hands up: of two ends' events its own alone decide
/// what it is; until a packet comes it gave its RESTART alone, no call of its user was accepted, and nothing was
/// reported; after its link went down nothing changes. And events behind others run on from where those led, in order
/// where both are.
pub fn each_end_is_by_itself()
    ensures own { OwnMovesDecide }
    ensures alone { BeginsAlone }
    ensures down { StaysDown }
    ensures behind { EventsRunOn }
{}

/// A call of a layer over a link is a run: the step of the call, and then pulls of data packets, until a round of pulls
/// gives nothing; each round leads on to there. When the link comes up, RESTART is put alone.
pub fn calls_are_runs()
    ensures calls { CallsRun }
    ensures hears { HearsRun }
    ensures settle { RoundsSettle }
    ensures on { RoundsGoOn }
    ensures end { RoundsEnd }
    ensures up { ComesUpAlone }
{}

/// One layer over a link that keeps order, by the definition that `Layer` meets call by call, and any peer that keeps
/// the rules of docs/PEER.md, in either role, from the link's set-up on, as long as it is up. After all that happens:
///
/// - the layer sent the peer no error of procedure, and reported none to its user;
/// - on each channel, where both ends count the restarts, clears and resets alike, what was reported under the name of
///   that stretch is a beginning of what the peer's packets carry in it, and what the peer took in it is a beginning of
///   what the user handed down, of messages and of interrupts; and of calls where they count restarts and clears alike;
/// - all of the messages, where all is acknowledged to the peer, and where the circuit is open, nothing waits in it,
///   and all that it sent is acknowledged;
/// - where no packet is on the way to the peer, both ends count a stretch that is open at both alike, and all that the
///   user handed down in it was taken, of messages where none waits.
pub fn any_peer_keeps_transcripts()
    ensures quiet { WithAnyPeer FindsNoError }
    ensures order { WithAnyPeer IsAllInOrder }
    ensures arrived { WithAnyPeer AllHaveArrived }
{
    x25_circuit::values_are_agreed();
}

/// A layer over a link that keeps order is an end that keeps the rules of docs/PEER.md, beside any other, in either
/// role: each call of its user, each pull and each packet that it takes is what such an end may do.
pub fn layers_are_ends()
    ensures { LayersAreEnds }
{
    x25_circuit::values_are_agreed();
}

/// Two layers over links that keep order, whatever their users ask and whenever a link goes down, and of two ends in
/// order: of a stretch that is open at an end, the messages whose last data packets are acknowledged are the first of
/// those that the other end handed up under its name.
pub fn acknowledged_are_handed_up()
    ensures over { (long_data : Bool) (channels : Ranges) → Always AcknowledgedAreHandedUp long_data channels }
    ensures apart { (long_data : Bool) (channels : Ranges) → AlwaysApart AcknowledgedAreHandedUp long_data channels }
{
    x25_circuit::values_are_agreed();
    apart_layers_keep_order();
}

/// What a pull leaves. Behind the rounds, where fewer than 8 packets wait in the link, no channel has a packet that may
/// be sent; and none has one where a pull of all leaves the layer as it was. A circuit that isn't open keeps no
/// message, whatever happened, and none is open while a restart is under way. And of two layers over links that keep
/// order, whatever their users ask, where both links are up with nothing in flight and a pull of an end gives no
/// packet: on each channel no message waits there, as its circuit isn't open, or as all that was handed down in the
/// stretch was handed up at the other end; or that stretch is open at both ends and the user of the other one isn't
/// ready.
pub fn messages_wait_for_users()
    ensures left { RoundsLeaveNone }
    ensures still { StillPullsNone }
    ensures closed { (long_data : Bool) (channels : Ranges) → AlwaysApart ClosedKeepNone long_data channels }
    ensures restarting { (long_data : Bool) (channels : Ranges) → AlwaysApart NoneOpenInRestart long_data channels }
    ensures waits { (long_data : Bool) (channels : Ranges)
        → Always (WaitForUsersAlone long_data channels) long_data channels }
    ensures apart { (long_data : Bool) (channels : Ranges)
        → AlwaysApart (WaitForUsersAlone long_data channels) long_data channels }
{
    x25_circuit::values_are_agreed();
    apart_layers_keep_order();
}

/// No channel that may send a data packet waits for ever, whatever the others have to send. In the rounds of a step it
/// sends one; or its circuit is as it was, 8 packets wait, and each packet that the others sent brought its turn nearer
/// by one channel at least. So at most n - 1 packets of n - 1 others go before its next one.
pub fn each_channel_has_its_turn()
    ensures turn { EachHasItsTurn }
{}
