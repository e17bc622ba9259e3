use x25_bits::Seq;

/// Which forms of packets are read: of each packet the one that a station writes (profile), or all that X.25 has.
#[derive(Clone, Copy, Debug, PartialEq, Eq)]
pub enum Forms {
    Written,
    Any,
}

/// What a packet is, but for its channel and the bits of its first octet. ITU-T X.25 (10/96), section 5.
///
/// `Block::of` reads the addresses, facilities and user data of a `body`, which is what stands behind the type, and in
/// an extended CLEAR behind the diagnostic. Where it is empty there are none.
#[derive(Clone, Copy, Debug)]
pub enum Kind<'a> {
    Call {
        body: &'a [u8],
    },
    Accept {
        body: &'a [u8],
    },
    Clear {
        cause: u8,
        diagnostic: Option<u8>,
    },
    ExtendedClear {
        cause: u8,
        diagnostic: u8,
        body: &'a [u8],
    },
    ClearConf {
        body: &'a [u8],
    },
    Data {
        m: bool,
        ps: Seq,
        pr: Seq,
        user: &'a [u8],
    },
    Rr {
        pr: Seq,
    },
    Rnr {
        pr: Seq,
    },
    Rej {
        pr: Seq,
    },
    Interrupt {
        user: &'a [u8],
    },
    InterruptConf,
    Reset {
        cause: u8,
        diagnostic: Option<u8>,
    },
    ResetConf,
    Restart {
        cause: u8,
        diagnostic: Option<u8>,
    },
    RestartConf,
    Diagnostic {
        code: u8,
        explanation: &'a [u8],
    },
    Registration {
        octets: &'a [u8],
    },
    RegistrationConf {
        octets: &'a [u8],
    },
}

/// A packet as a peer may send it. Its octets are borrowed.
///
/// `channel` is the logical channel, group and number together: 0 for RESTART, DIAGNOSTIC and REGISTRATION, else 1 to
/// 4,095. `bit_8` of the first octet is the qualifier (Q) in DATA, and in CALL, ACCEPT, CLEAR and CLEAR CONFIRMATION
/// the A bit: whether addresses have their types and plans. `d` is the delivery confirmation bit.
#[derive(Clone, Copy, Debug)]
pub struct Form<'a> {
    pub channel: u16,
    pub bit_8: bool,
    pub d: bool,
    pub kind: Kind<'a>,
}
