/// The phase of a link station. ITU-T X.25 (10/96), section 2.4.4.
#[derive(Clone, Copy, Debug, PartialEq, Eq)]
pub enum Phase {
    /// Disconnected: a SABM of the other end, or a call of `connect`, sets the link up.
    Down,
    /// A SABM was sent, and its UA is awaited.
    Waiting,
    /// Packets are transferred.
    Up,
    /// Disconnected by this end, for good (profile).
    Closed,
}

impl Phase {
    ghost use Rattle.std.specs.Prelude.{◌≡◌};
    ghost use Rattle.x25_link.specs.Station.{is_up, awaits_ua, is_closed};

    /// Whether packets are transferred.
    pub fn is_up(self) -> bool
        ensures { result ≡ is_up self }
    {
        matches!(self, Phase::Up)
    }

    /// Whether UA is awaited.
    pub fn awaits_ua(self) -> bool
        ensures { result ≡ awaits_ua self }
    {
        matches!(self, Phase::Waiting)
    }

    /// Whether this end disconnected the link.
    pub fn is_closed(self) -> bool
        ensures { result ≡ is_closed self }
    {
        matches!(self, Phase::Closed)
    }
}

/// What became of the DISC of a link that sends it again until it is answered (profile).
#[derive(Clone, Copy, Debug, PartialEq, Eq)]
pub enum Closing {
    /// None went, or it isn't sent again.
    Unasked,
    /// Its answer is awaited.
    Asked,
    /// No answer is awaited any more.
    Ended(Ending),
}

impl Closing {
    ghost use Rattle.std.specs.Prelude.{◌≡◌};
    ghost use Rattle.x25_link.specs.Station.{is_asked};

    /// Whether the answer to a DISC is awaited.
    pub fn is_asked(self) -> bool
        ensures { result ≡ is_asked self }
    {
        matches!(self, Closing::Asked)
    }
}

/// How it ended that this end disconnected the link (profile).
#[derive(Clone, Copy, Debug, PartialEq, Eq)]
pub enum Ending {
    /// The other end answered DISC by UA.
    ByUa,
    /// The other end answered DISC by DM.
    ByDm,
    /// DISC was sent N2 + 1 times without an answer.
    GivenUp,
}

/// Why a link went down.
#[derive(Clone, Copy, Debug, PartialEq, Eq)]
pub enum Reason {
    /// A command was sent N2 + 1 times without an answer.
    Retries,
    /// The other end sent DISC.
    Disc,
    /// The other end sent DM.
    Dm,
    /// This end sent FRMR.
    FrmrSent,
    /// The other end sent FRMR.
    FrmrGot,
    /// The other end set the link up anew by SABM.
    Reset,
    /// This end sent DISC, or sets the link up anew.
    Local,
    /// A count of the packet layer is at its greatest value.
    Counts,
}

/// What a step notes: that the link went down, and after that, that it went up.
#[derive(Clone, Copy, Debug, PartialEq, Eq)]
pub struct Notes {
    pub down: Option<Reason>,
    pub up: bool,
}
