ghost use Rattle.x25_routes.specs.laws.PrefixLaw.{LongestHolds, NoneIsPassedOver};

/// An address begins with the prefix of the route that is found for it, and with no longer one of another route; where
/// none is found, it begins with the prefix of no route.
pub fn longest_prefix_holds()
    ensures longest { LongestHolds }
    ensures none { NoneIsPassedOver }
{}
