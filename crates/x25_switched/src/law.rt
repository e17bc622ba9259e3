ghost use Rattle.x25_switched.specs.laws.Booked.{AllOfCallCameThrough, CallComesThrough, CallInterruptsComeThrough};
ghost use Rattle.x25_switched.specs.laws.SwitchClaims.{ComesThrough, AllCameThrough, InterruptsComeThrough};
ghost use Rattle.x25_switched.specs.rows.SwitchRows.{MessageGoesThrough};

use x25_crossing::next_goes_out;
use x25_peer::any_peer_keeps_stations_over_sessions;

/// A switch between two lines, each with a station of the switch, a peer that keeps the rules of docs/PEER.md, and a
/// line of octets that keeps order and may lose or visibly damage any frame, over set-up and re-set-up by any end at
/// any moment. Whatever else the switch asks of its stations, under the name of a stretch of the far line it hands down
/// nothing but the next of what was reported to it in a stretch of the near line. Then what the far peer took in that
/// stretch is a beginning of what the near peer's packets carry in the other, where both ends of each line count alike:
/// of messages, whole, in order, whatever the packet sizes of the lines are; and of interrupts. It is all of the
/// messages where all is acknowledged to the near peer, none waits in the switch, and the far circuit is open with
/// nothing that waits or isn't acknowledged.
pub fn messages_come_through_the_switch()
    ensures through { ComesThrough }
    ensures all { AllCameThrough }
    ensures interrupts { InterruptsComeThrough }
{
    any_peer_keeps_stations_over_sessions();
}

/// So does what comes by a call of x25_crossing, whatever it is told, and whatever its stations accept: where at each
/// moment the books of its legs have what the transcripts of the stations have under the names of the two stretches.
pub fn calls_come_through()
    ensures through { CallComesThrough }
    ensures all { AllOfCallCameThrough }
    ensures interrupts { CallInterruptsComeThrough }
{
    messages_come_through_the_switch();
    next_goes_out();
}

/// A worked row of the first law: a message of 20 octets, in one packet, and an interrupt come by the near line. The
/// message waits; the far line is set up again; and it comes through in packets of 16 octets, as does the interrupt.
pub fn messages_go_through_switches()
    ensures through { MessageGoesThrough }
{}
