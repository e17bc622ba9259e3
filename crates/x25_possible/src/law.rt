//! The judge of any rules and the judge of a channel, as laws: each is the contract of a function that does nothing.
ghost use Rattle.std.specs.Prelude.{List};
ghost use Rattle.x25_bits.specs.declared.role.Role.{Role};
ghost use Rattle.x25_possible.specs.laws.Possible.{Choices, TellsExactly, patient, rules_of};
ghost use Rattle.x25_possible.specs.Channel.{channel_choices, channel_rules};
ghost use Rattle.x25_possible.specs.laws.Beyond.{NumbersGoOn, RequestsGoAgain};
ghost use Rattle.x25_possible.specs.rows.Rows.{RowsAreKnown, RowsAreTold, RowsAreUntold, RowsGoOn};
ghost use Rattle.x25_possible.specs.laws.Sets.{GuiltyAreTold, InnocentsStayUntold, SendsExactly, ShowsExactly};
ghost use Rattle.x25_possible.specs.laws.Sets.{FoundStayUntold, PoliteStayUntold, StaysKnown};
ghost use Rattle.x25_possible.specs.declared.phase.Phase.{Phase};

/// Whatever an end may be, send and make of what comes, each a finite choice: behind a tape nothing is possible exactly
/// where no run of such an end explains it.
pub fn tells_exactly<S, I>()
    ensures { (c : Choices S I) (begun : List S) → TellsExactly (rules_of c begun) (patient c) begun }
{}

/// Of a channel, by the choices that the judge goes by.
pub fn channel_tells_exactly()
    ensures { (role : Role) (begun : List Phase)
        → TellsExactly (channel_rules role begun) (channel_choices role) begun }
{}

/// Worked rows: nothing in the definition is empty.
pub fn rows_are_told()
    ensures told { RowsAreTold }
    ensures untold { RowsAreUntold }
    ensures known { RowsAreKnown }
    ensures goes_on { RowsGoOn }
{}

/// What a set tells of an end, packet by packet.
pub fn sets_tell_exactly()
    ensures sends { SendsExactly }
    ensures shows { ShowsExactly }
{}

/// It stays known where there is room, and tells whatever room there is.
pub fn sets_stay_known()
    ensures { StaysKnown }
{}

/// No rule is told of an end that keeps the rules, from a restart on.
pub fn innocents_stay_untold()
    ensures { InnocentsStayUntold }
{}

/// Nor is one of an end that was in a state that a set lists, with nothing on the way.
pub fn found_stay_untold()
    ensures { FoundStayUntold }
{}

/// From a restart on, the first packet that breaks a rule is told, where the set is known then.
pub fn guilty_are_told()
    ensures { GuiltyAreTold }
{}

/// Nor are manners told of one that keeps these too.
pub fn polite_stay_untold()
    ensures { PoliteStayUntold }
{}

/// After a packet that breaks a rule of numbers the one with the next P(S) breaks none.
pub fn numbers_go_on()
    ensures { NumbersGoOn }
{}

/// A request goes again where it leaves the end in the state in which it was, wherever that may be.
pub fn requests_go_again()
    ensures { RequestsGoAgain }
{}
