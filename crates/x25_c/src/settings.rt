//! The settings of a station, as a C program hands them over.
ghost use Rattle.std.specs.Prelude.{◌≡◌};
ghost use Rattle.x25_c.specs.Settings.{cfg_in, message_in};

use x25_station::{Cfg, Ranges};

/// The settings of a station, each as `Cfg` has it.
#[repr(C)]
#[derive(Clone, Copy)]
pub struct Settings {
    pub k: u8,
    pub n2: u8,
    pub channels: u16,
    pub long_data: bool,
    pub say_sizes: bool,
    pub wide: bool,
    /// For settings of later versions, as is `more`.
    pub later: u8,
    pub incoming: u16,
    pub outgoing: u16,
    /// The most octets of a message, or 0 for 65,535.
    pub message: u16,
    pub more: u16,
}

impl Settings {
    // 65,535 where none is given.
    fn longest_message(self) -> u16
        ensures { result ≡ message_in self }
    {
        match self.message {
            0 => 65_535,
            message => message,
        }
    }

    /// None where one is set that this version doesn't know.
    pub(crate) fn cfg(self) -> Option<Cfg>
        ensures { result ≡ cfg_in self }
    {
        if self.later != 0 || self.more != 0 {
            return None;
        }
        Some(Cfg {
            k: self.k,
            n2: self.n2,
            channels: Ranges {
                count: self.channels,
                incoming: self.incoming,
                outgoing: self.outgoing,
                message: self.longest_message(),
            },
            long_data: self.long_data,
            say_sizes: self.say_sizes,
            wide: self.wide,
        })
    }
}
