use x25_given::Given;
use x25_layer::Params;

/// What the user of a station asks for. Channels are 1 to the number configured; addresses are texts of digits, and
/// user data octets. `given` goes beside a packet where `Cfg::wide` is set: facilities, behind those that the station
/// writes itself, user data of an acceptance or a clearing, and the D bit of a call or an acceptance. User data of a
/// call stands in the call itself.
#[derive(Clone, Copy, Debug)]
pub enum Cmd<'a> {
    /// Calls the other end on a free channel, with addresses of 0 to 15 digits and at most 16 octets of user data, or
    /// 128 where `Cfg::long_data` is set, and proposes packet sizes and windows, without `params` the defaults.
    Call {
        called: &'a str,
        calling: &'a str,
        user: &'a [u8],
        params: Option<Params>,
        given: Option<&'a Given<'a>>,
    },
    /// Accepts an incoming call with these packet sizes and windows, each from the one proposed to the default, or
    /// without `params` with those that it proposes.
    Accept {
        channel: u16,
        params: Option<Params>,
        given: Option<&'a Given<'a>>,
    },
    /// Clears a call, with a cause that its end may give and any diagnostic.
    Clear {
        channel: u16,
        cause: u8,
        diagnostic: u8,
        given: Option<&'a Given<'a>>,
    },
    /// Sends a message of at most `Ranges::message` octets, with the qualifier `q`. With `d`, where `Cfg::wide` is set,
    /// confirmation of its delivery is asked by its last packet.
    Send {
        channel: u16,
        q: bool,
        d: bool,
        user: &'a [u8],
    },
    /// Sends an interrupt of 1 to 32 octets.
    Interrupt {
        channel: u16,
        user: &'a [u8],
    },
    /// Resets a call, as above.
    Reset {
        channel: u16,
        cause: u8,
        diagnostic: u8,
    },
    /// Tells the other end that this one takes data packets.
    Ready {
        channel: u16,
    },
    /// Tells the other end that this one takes no data packets for now.
    NotReady {
        channel: u16,
    },
    /// Restarts the packet layer, as above: all calls are cleared.
    Restart {
        cause: u8,
        diagnostic: u8,
    },
    /// Hands the data packets that wait in the circuits down to the link, as far as that has room: `Station::pull`. It
    /// has no entry.
    Pull,
    /// Begins to set the link up.
    Connect,
    /// Disconnects the link, for good.
    Disconnect,
    /// Polls the other end over a link that is up, whether timer T1 runs or not: it has to answer while T1 runs, N2
    /// polls in all. It has no entry.
    Probe,
    /// Sets a link that is up up anew: the link goes down, as the entry behind its own tells, and SABM goes.
    Relink,
}
