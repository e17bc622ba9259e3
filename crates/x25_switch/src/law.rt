ghost use Rattle.x25_switch.specs.laws.RunLaw.{AskingRuns, HeedingRuns, LingeringRuns};

/// Where each call of a switch is one that events of its crossing lead to, each is so still, whatever the switch heeds,
/// asks of a station, and is told of the time. So what x25_crossing says of all events holds of each call of a switch.
pub fn calls_run_by_events()
    ensures heeding { HeedingRuns }
    ensures asking { AskingRuns }
    ensures lingering { LingeringRuns }
{}
