ghost use Rattle.x25_crossing.specs.laws.CauseLaw.{ClearsAreGiven, ResetsAreGiven};
ghost use Rattle.x25_crossing.specs.laws.EndLaw.{BothEnd, GoneIsStill, LingeringEnds};
ghost use Rattle.x25_crossing.specs.laws.HandingLaw.{NextGoesOut, NextInterruptGoesOut};

/// Whatever happens to a call, the message or interrupt that goes out next by a leg is the next of those that were told
/// at the other one: of its present stretch, after those that went out in this one's. So nothing of one stretch goes on
/// in another, nothing is left out, and nothing goes twice.
pub fn next_goes_out()
    ensures messages { NextGoesOut }
    ensures interrupts { NextInterruptGoesOut }
{}

/// Where one leg is gone or is to be cleared, so is the other. What is told at a leg that is gone does nothing, and one
/// that is to be cleared is, at the latest when what waits for it has lingered.
pub fn calls_end_at_both_legs()
    ensures both { BothEnd }
    ensures still { GoneIsStill }
    ensures lingering { LingeringEnds }
{}

/// Whatever cause is told at one leg, the user of the other one's station may give that by which it goes on.
pub fn causes_may_be_given()
    ensures clears { ClearsAreGiven }
    ensures resets { ResetsAreGiven }
{}
