ghost use Rattle.std.specs.Prelude.{◌≡◌, option_map};
ghost use Rattle.x25_clock.specs.Due.Asking.{AsksFor, DoesDue};
ghost use Rattle.x25_clock.specs.Due.{channel_for, command_for, is_full, is_packet, timer_number};
ghost use Rattle.x25_station.specs.Command.{command_of};

use x25_layer::LayerError;
use x25_station::{Awaits, Cmd, Role, Station, StationError, Step};

/// What is to be asked of a station, as a time has passed.
#[derive(Clone, Copy, Debug, PartialEq, Eq)]
pub enum Due {
    /// `Station::t1`: T1 passed.
    T1,
    /// `Cmd::Probe`: the line was idle for T3.
    Probe,
    /// `Cmd::Reset`: an interrupt wasn't confirmed, T26.
    Reset { channel: u16 },
    /// `Cmd::Reset` with diagnostic 146: a data packet wasn't acknowledged, T25.
    ResetUnacknowledged { channel: u16 },
    /// `Cmd::Clear`: no answer came to a call, T21, or to a reset, T22.
    Clear { channel: u16 },
    /// `Cmd::Restart`: clearing a channel wasn't confirmed, T23.
    Restart { channel: u16 },
    /// `Cmd::Relink`: a restart wasn't confirmed, T20.
    Relink,
}

// The diagnostic of a reset for T25.
const TIMER_EXPIRED: u8 = 146;

// Whether it is refused since 256 packets wait.
fn is_full(error: StationError) -> bool
    ensures { result ≡ is_full error }
{
    matches!(error, StationError::Layer(LayerError::QueueFull))
}

impl Due {
    /// The command that it asks for; none where T1 is to fire.
    pub fn command(self) -> Option<Cmd<'static>>
        ensures { option_map command_of result ≡ command_for self }
    {
        match self {
            Due::T1 => None,
            Due::Probe => Some(Cmd::Probe),
            Due::Reset { channel } => Some(Cmd::Reset {
                channel,
                cause: 0,
                diagnostic: 0,
            }),
            Due::ResetUnacknowledged { channel } => Some(Cmd::Reset {
                channel,
                cause: 0,
                diagnostic: TIMER_EXPIRED,
            }),
            Due::Clear { channel } => Some(Cmd::Clear {
                channel,
                cause: 0,
                diagnostic: 0,
                given: None,
            }),
            Due::Restart { .. } => Some(Cmd::Restart {
                cause: 0,
                diagnostic: 0,
            }),
            Due::Relink => Some(Cmd::Relink),
        }
    }

    // Whether it is asked by a packet.
    fn is_packet(self) -> bool
        ensures { result ≡ is_packet self }
    {
        match self {
            Due::T1 | Due::Probe | Due::Relink => false,
            Due::Reset { .. }
            | Due::ResetUnacknowledged { .. }
            | Due::Clear { .. }
            | Due::Restart { .. } => true,
        }
    }

    // Asks this and nothing else.
    fn ask_alone(self, station: &mut Station, step: &mut Step) -> Result<(), StationError>
        ensures { DoesDue station.old station.new step.new result self }
    {
        match self.command() {
            Some(command) => station.command(command, step),
            None => station.t1(step),
        }
    }

    /// Asks a station for it. Where 256 packets wait in the link, a reset, a clear and a restart would be refused (10):
    /// then the link is set up anew at once, by `Cmd::Relink`, which needs no packet.
    ///
    /// Refused as T1 is, or the command that is asked, but never with 10 or 70. The station is as before then.
    pub fn ask(self, station: &mut Station, step: &mut Step) -> Result<(), StationError>
        ensures { AsksFor station.old station.new step.new result self }
    {
        match self.ask_alone(station, step) {
            Ok(()) => Ok(()),
            Err(error) => {
                if self.is_packet() && is_full(error) {
                    return Due::Relink.ask_alone(station, step);
                }
                Err(error)
            }
        }
    }

    /// The channel that it is of, 0 where it is of none.
    pub fn channel(self) -> u16
        ensures { result ≡ channel_for self }
    {
        match self {
            Due::T1 | Due::Probe | Due::Relink => 0,
            Due::Reset { channel }
            | Due::ResetUnacknowledged { channel }
            | Due::Clear { channel }
            | Due::Restart { channel } => channel,
        }
    }

    /// The number in the name of the timer that has passed at an end that awaits this on its channel: of T1, T3, T25
    /// and T26, T20 to T23 of a DTE, T10 to T13 of a DCE.
    pub fn timer(self, end: Role, awaits: Awaits) -> u8
        ensures { result ≡ timer_number end awaits self }
    {
        match (end, self, awaits) {
            (_, Due::T1, _) => 1,
            (_, Due::Probe, _) => 3,
            (_, Due::Reset { .. }, _) => 26,
            (_, Due::ResetUnacknowledged { .. }, _) => 25,
            (Role::Dte, Due::Relink, _) => 20,
            (Role::Dce, Due::Relink, _) => 10,
            (Role::Dte, Due::Clear { .. }, Awaits::ResetConfirmation) => 22,
            (Role::Dce, Due::Clear { .. }, Awaits::ResetConfirmation) => 12,
            (Role::Dte, Due::Clear { .. }, _) => 21,
            (Role::Dce, Due::Clear { .. }, _) => 11,
            (Role::Dte, Due::Restart { .. }, _) => 23,
            (Role::Dce, Due::Restart { .. }, _) => 13,
        }
    }
}
