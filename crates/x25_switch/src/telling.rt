//! What a call is told of what a station tells.
ghost use Rattle.std.specs.Prelude.{◌≡◌, option_map};
ghost use Rattle.x25_crossing.specs.Told.{plain_told as plain_told_call};
ghost use Rattle.x25_station.specs.code.PlainEntry.{plain_told};
ghost use Rattle.x25_switch.specs.Leg.{told_of};

use x25_crossing::Told;
use x25_station::{Lent, Told as StationTold};

/// What a call is told where the station of a leg tells this, with what its step lends: of an error of procedure by
/// whether the station clears the call for it.
pub fn told_of<'a>(told: &StationTold, lent: &'a Lent, clears: bool) -> Option<Told<'a>>
    ensures { option_map plain_told_call result ≡ told_of clears (plain_told lent.now told.now) }
{
    match *told {
        StationTold::Incoming { .. } | StationTold::InterruptDone => None,
        StationTold::Connected { .. } => Some(Told::Connected),
        StationTold::Collided => Some(Told::Collided),
        StationTold::Cleared { cause, diagnostic } => Some(Told::Cleared { cause, diagnostic }),
        StationTold::ClearDone => Some(Told::ClearDone),
        StationTold::WasReset { cause, diagnostic } => Some(Told::WasReset { cause, diagnostic }),
        StationTold::ResetDone => Some(Told::ResetDone),
        StationTold::Delivered { marks } => Some(Told::Delivered {
            marks,
            user: lent.message(),
        }),
        StationTold::Interrupted => Some(Told::Interrupted { user: lent.user() }),
        StationTold::Fault { diagnostic } => {
            if clears {
                Some(Told::ClearFault { diagnostic })
            } else {
                Some(Told::ResetFault { diagnostic })
            }
        }
    }
}
