ghost use Rattle.std.specs.Prelude.{◌≡◌};

use x25_bits::{Direction, Role};
use x25_station::Cmd;

/// What happens next (profile): at one end, or on the line. Places on the line are counted from 0, at the front.
#[derive(Clone, Copy, Debug)]
pub enum Event<'a> {
    /// The user of an end asks for something. Refused as the station refuses it.
    Command(Role, Cmd<'a>),
    /// The front frame arrives at the end that the direction leads to. Refused with 50.
    Deliver(Direction),
    /// The frame at this place is lost. Refused with 51.
    Lose(Direction, usize),
    /// Other octets come in the place of the frame at this place, which the frame check sequence shows. Refused with
    /// 51, then 52.
    Damage(Direction, usize, &'a [u8]),
    /// Timer T1 of an end runs out. Refused with 54, then as the station refuses it.
    T1(Role),
}

/// The SABM of the DTE arrives.
pub const SABM_ARRIVES: Event = Event::Deliver(Direction::ToDce);

/// The UA that answers it arrives.
pub const UA_ARRIVES: Event = Event::Deliver(Direction::ToDte);

impl<'a> Event<'a> {
    ghost use Rattle.x25_world.specs.World.{event_of};

    /// The end at which it happens, or that its direction leads to.
    pub fn at(self) -> Role
        ensures { result ≡ (event_of self.entry).at }
    {
        match self {
            Event::Command(at, _) | Event::T1(at) => at,
            Event::Deliver(direction)
            | Event::Lose(direction, _)
            | Event::Damage(direction, _, _) => direction.end(),
        }
    }
}
