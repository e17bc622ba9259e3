use x25_circuit::Notice;

/// What is reported to the users of octets that were handed up. Addresses and user data are borrowed from the octets; a
/// message is handed over whole.
#[derive(Debug, Drop)]
pub enum Report<'a> {
    /// Nothing: they were dropped, or there is nothing to tell of them.
    Nothing,
    /// The user of a channel, by a notice, or at least that this end's own call was dropped.
    Channel {
        channel: u16,
        /// Before the notice: this end's own call was dropped for the one of the notice.
        collided: bool,
        notice: Option<Notice<'a>>,
    },
    /// The other end restarted all channels.
    Restarted {
        cause: u8,
        diagnostic: u8,
    },
    /// This end's restart is confirmed.
    RestartDone,
    /// A RESTART CONFIRMATION of no restart, which this end reports to the other by this diagnostic.
    Fault {
        diagnostic: u8,
    },
}
