use x25_layer::{Params, Stretch};
use x25_link::{Ending, Reason};
use x25_packet::Marks;

/// An entry of the transcript of a station (profile): what its user asked, what the link noted, or what the packet
/// layer reported. Addresses, user data, messages and facilities its step lends (`Entries::lent`).
#[derive(Clone, Copy, Debug)]
pub enum Entry {
    /// What the user of a channel asked, under the name of the stretch that stood then.
    Asked {
        channel: u16,
        name: Stretch,
        asked: Asked,
    },
    /// What was reported to the user of a channel, under the name of the stretch that stood then.
    Told {
        channel: u16,
        name: Stretch,
        told: Told,
    },
    /// The user asked for a restart.
    RestartAsked {
        cause: u8,
        diagnostic: u8,
    },
    /// The user asked that the link be set up.
    ConnectAsked,
    /// The user asked that the link be disconnected.
    DisconnectAsked,
    /// The user asked that the link be set up anew.
    RelinkAsked,
    /// The link came up.
    LinkUp,
    /// The link went down.
    LinkDown(Reason),
    /// It ended that this end disconnected the link, where DISC is sent again until it is answered (`Cfg::wide`).
    Disconnected(Ending),
    /// The other end restarted the packet layer.
    WasRestarted {
        cause: u8,
        diagnostic: u8,
    },
    /// This end's restart is confirmed.
    RestartDone,
    /// A packet on channel 0 was an error of procedure, which this end reports to the other by this diagnostic.
    Fault {
        diagnostic: u8,
    },
    /// What the packet of the entry in front of this one brought beside it: the facility field as it came, at most 109
    /// octets, and the user data, at most 128, of which a call has none here.
    Beside {
        channel: u16,
    },
    /// So many messages more of this stretch are confirmed, of those whose confirmation was asked, in their order.
    Confirmed {
        channel: u16,
        name: Stretch,
        count: usize,
    },
    /// A DIAGNOSTIC came.
    Diagnosed {
        diagnostic: u8,
    },
}

/// What the user of a channel asked.
#[derive(Clone, Copy, Debug)]
pub enum Asked {
    /// A call, with addresses of 0 to 15 figures and at most 16 octets of user data, or 128 where `Cfg::long_data` is
    /// set, and the packet sizes and windows that it proposes.
    Call { params: Params },
    /// That the incoming call be accepted, with the packet sizes and windows that are then in force.
    Accept { params: Params },
    /// That the call be cleared.
    Clear { cause: u8, diagnostic: u8 },
    /// That a message be sent: its qualifier, whether confirmation of its delivery is asked, and at most 65,535 octets.
    Send { marks: Marks },
    /// That an interrupt of 1 to 32 octets be sent.
    Interrupt,
    /// That the call be reset.
    Reset { cause: u8, diagnostic: u8 },
    /// That the other end send data packets.
    Ready,
    /// That the other end send no data packets for now.
    NotReady,
}

/// What was reported to the user of a channel.
#[derive(Clone, Copy, Debug)]
pub enum Told {
    /// The other end calls, and proposes packet sizes and windows. Addresses are lists of 0 to 15 digits, each 0 to 9.
    Incoming { params: Params },
    /// The other end accepted the call, with the packet sizes and windows in force.
    Connected { params: Params },
    /// This end's own call was dropped for the incoming one.
    Collided,
    /// The other end cleared the call.
    Cleared { cause: u8, diagnostic: u8 },
    /// This end's clearing is confirmed.
    ClearDone,
    /// The other end reset the call.
    WasReset { cause: u8, diagnostic: u8 },
    /// This end's reset is confirmed.
    ResetDone,
    /// A message came: its qualifier, whether confirmation of its delivery is asked, and at most 65,535 octets.
    Delivered { marks: Marks },
    /// An interrupt came.
    Interrupted,
    /// This end's interrupt is confirmed.
    InterruptDone,
    /// A packet was an error of procedure, which this end reports to the other by this diagnostic.
    Fault { diagnostic: u8 },
}
