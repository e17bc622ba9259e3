//! What the rules of a channel look at of a packet.

/// Packet sizes of a call, in octets: of what the calling end sends, and of what the called one does; 0 isn't known.
#[derive(Clone, Copy, PartialEq, Eq)]
pub struct Sizes {
    pub calling: u16,
    pub called: u16,
}

/// Windows of a call; 0 isn't known.
#[derive(Clone, Copy, PartialEq, Eq)]
pub struct Windows {
    pub calling: u8,
    pub called: u8,
}

/// What the network has where nothing is said (sections 6.9 and 6.10): packet sizes in octets, and windows.
#[derive(Clone, Copy, PartialEq, Eq)]
pub struct Defaults {
    pub size: u16,
    pub window: u8,
}

/// What a call proposes, and toward what an answer may change it.
#[derive(Clone, Copy, PartialEq, Eq)]
pub struct Terms {
    pub defaults: Defaults,
    pub calling_size: u16,
    pub called_size: u16,
    pub calling_window: u8,
    pub called_window: u8,
}

/// What CALL ACCEPTED says of them; the rest is as proposed.
#[derive(Clone, Copy, PartialEq, Eq)]
pub struct Said {
    pub sizes: Option<Sizes>,
    pub windows: Option<Windows>,
}

/// A packet of a channel, or of all.
#[derive(Clone, Copy, Default, PartialEq, Eq)]
pub enum Packet {
    Call(Terms),
    Accept(Said),
    #[default]
    Clear,
    ClearConf,
    Reset,
    ResetConf,
    Restart,
    RestartConf,
    Data {
        q: bool,
        m: bool,
        ps: u8,
        pr: u8,
        size: u16,
    },
    Rr(u8),
    Rnr(u8),
    Interrupt,
    InterruptConf,
    /// On another channel.
    Elsewhere,
}
