ghost use Rattle.std.specs.Prelude.{◌≡◌, ◌&&◌};

use x25_bits::Seq;

/// N1, the most octets of information of an I frame: those of the longest data packet, a header of three octets and
/// 4,096 octets of user data (profile). ITU-T X.25 (10/96), section 2.4.8.5, which counts bits.
pub const N1: usize = 4099;

/// A frame of LAPB, ITU-T X.25 (10/96), section 2.3.4. Its information is borrowed.
///
/// `ns` is N(S), `nr` is N(R). Of a command the poll bit is `p`, of a response the final bit is `f`; `pf` is the one of
/// these that `command` names.
#[derive(Clone, Copy, Debug, PartialEq, Eq)]
pub enum Frame<'a> {
    I {
        ns: Seq,
        nr: Seq,
        p: bool,
        info: &'a [u8],
    },
    Rr {
        command: bool,
        nr: Seq,
        pf: bool,
    },
    Rnr {
        command: bool,
        nr: Seq,
        pf: bool,
    },
    Rej {
        command: bool,
        nr: Seq,
        pf: bool,
    },
    Sabm {
        p: bool,
    },
    Disc {
        p: bool,
    },
    Ua {
        f: bool,
    },
    Dm {
        f: bool,
    },
    Frmr {
        f: bool,
        why: [u8; 3],
    },
}

impl Frame<'_> {
    ghost use Rattle.x25_frame.specs.Frame.{plain};
    ghost use Rattle.x25_frame.specs.Spelling.{is_command, poll_or_final};

    /// Whether it is a command, and not a response.
    pub fn is_command(&self) -> bool
        ensures { result ≡ is_command (plain self.now) }
    {
        match self {
            Frame::I { .. } | Frame::Sabm { .. } | Frame::Disc { .. } => true,
            Frame::Rr { command, .. } | Frame::Rnr { command, .. } | Frame::Rej { command, .. } =>
                *command,
            Frame::Ua { .. } | Frame::Dm { .. } | Frame::Frmr { .. } => false,
        }
    }

    /// The poll bit of a command, the final bit of a response.
    pub fn poll_or_final(&self) -> bool
        ensures { result ≡ poll_or_final (plain self.now) }
    {
        match self {
            Frame::I { p, .. } | Frame::Sabm { p } | Frame::Disc { p } => *p,
            Frame::Rr { pf, .. } | Frame::Rnr { pf, .. } | Frame::Rej { pf, .. } => *pf,
            Frame::Ua { f } | Frame::Dm { f } | Frame::Frmr { f, .. } => *f,
        }
    }

    /// Whether it is a command with P=1, which asks for a response with F=1.
    pub fn is_poll(&self) -> bool
        ensures { result ≡ (is_command (plain self.now) && poll_or_final (plain self.now)) }
    {
        self.is_command() && self.poll_or_final()
    }
}
