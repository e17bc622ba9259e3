use x25_layer::Ranges;

/// The settings of a station, beside which end it is.
#[derive(Clone, Copy, Debug, PartialEq, Eq)]
pub struct Cfg {
    /// The window of the link: at most so many I frames aren't acknowledged, 1 to 7.
    pub k: u8,
    /// A command of the link that isn't answered is sent so many times more, 1 to 255.
    pub n2: u8,
    /// The channels that are configured, who calls on them, and the longest message. They are the same at both ends.
    pub channels: Ranges,
    /// Whether a call may have up to 128 octets of user data, in place of up to 16. It is the same at both ends.
    pub long_data: bool,
    /// Whether a CALL and a CALL ACCEPTED say packet sizes and windows also where the other end takes them without it.
    /// Ends may differ in it.
    pub say_sizes: bool,
    /// Whether packets are read in all the forms that X.25 has, in place of the one that a station writes. Ends may
    /// differ in it.
    pub wide: bool,
}

/// How a station writes and reads packets, as `Cfg` says it.
#[derive(Clone, Copy, Debug, PartialEq, Eq)]
pub(crate) struct Manner {
    pub(crate) say_sizes: bool,
    pub(crate) wide: bool,
}
