//! The ranges of logical channels, by who calls on them. ITU-T X.25 (10/96), Annex A.
ghost use Rattle.std.specs.Prelude.{◌≡◌};
ghost use Rattle.x25_layer.specs.Ranges.{two_way, are_ranges, may_call};

use x25_bits::Role;

/// The logical channels of a layer, 1 to `count`, which is 1 to 4,095, who calls on them, as the DTE sees it (ITU-T
/// X.25 (10/96), Annex A), and the longest message on them. It is the same at both ends.
#[derive(Clone, Copy, Debug, PartialEq, Eq)]
pub struct Ranges {
    pub count: u16,
    /// The channels 1 to this number are one-way incoming: this end makes no call there, where it is the DTE.
    pub incoming: u16,
    /// So many of the highest are one-way outgoing: this end makes no call there, where it is the DCE.
    pub outgoing: u16,
    /// The most octets of a message, sent or taken, 1 to 65,535 (profile). A call has memory for so many.
    pub message: u16,
}

impl Ranges {
    /// So many channels, all of them two-way, of messages of 65,535 octets at most.
    pub fn two_way(count: u16) -> Ranges
        ensures { result ≡ two_way count }
    {
        Ranges {
            count,
            incoming: 0,
            outgoing: 0,
            message: 65_535,
        }
    }

    /// Whether there are 1 to 4,095 channels, of which no more are one-way than there are, and a message may have an
    /// octet.
    pub fn are_valid(self) -> bool
        ensures { result ≡ are_ranges self }
    {
        let one_way = usize::from(self.incoming) + usize::from(self.outgoing);
        1 <= self.count
            && self.count <= 4095
            && one_way <= usize::from(self.count)
            && 1 <= self.message
    }

    /// Whether this end calls on a channel.
    pub(crate) fn may_call(self, role: Role, channel: u16) -> bool
        ensures { result ≡ may_call role self channel }
    {
        match role {
            Role::Dte => self.incoming < channel,
            Role::Dce => {
                usize::from(channel) + usize::from(self.outgoing) <= usize::from(self.count)
            }
        }
    }
}
