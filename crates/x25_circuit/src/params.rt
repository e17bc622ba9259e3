//! Packet sizes and windows: what is proposed, answered and in force. ITU-T X.25 (10/96), sections 6.12 and 7.2.2.1.
ghost use Rattle.std.specs.Prelude.{◌≡◌, true, false, IfSome, IfNone, if◌then◌else◌};
ghost use Rattle.x25_circuit.specs.Params.{default_params, may_propose, may_answer, is_toward, said_in};
ghost use Rattle.x25_circuit.specs.Params.{sizes_of, windows_of, calling_terms, called_terms};
ghost use Rattle.x25_packet.specs.Facilities.{is_within};

use crate::terms::Terms;
use x25_packet::{Directions, Facilities};

/// What a call proposes and its acceptance answers: for each end the code of the packet size (2 to this power, in
/// octets), and the window (in packets), of the data packets that it sends. ITU-T X.25 (10/96), sections 6.12 and
/// 7.2.2.1.
#[derive(Clone, Copy, Debug, PartialEq, Eq)]
pub struct Params {
    pub size_called: u8,
    pub size_calling: u8,
    pub win_called: u8,
    pub win_calling: u8,
}

impl Params {
    pub(crate) fn sizes(self) -> Directions
        ensures { result ≡ sizes_of self }
    {
        Directions {
            called: self.size_called,
            calling: self.size_calling,
        }
    }

    pub(crate) fn windows(self) -> Directions
        ensures { result ≡ windows_of self }
    {
        Directions {
            called: self.win_called,
            calling: self.win_calling,
        }
    }

    /// Whether a call may propose these: sizes of 4 to 12 (16 to 4,096 octets), and windows of 1 to 7 packets.
    pub fn may_be_proposed(self) -> bool
        ensures { result ≡ may_propose self }
    {
        is_within(4, 12, self.size_called)
            && is_within(4, 12, self.size_calling)
            && is_within(1, 7, self.win_called)
            && is_within(1, 7, self.win_calling)
    }

    /// Whether an acceptance may answer these to what was proposed: each value from the proposed one to the default.
    pub fn may_answer(self, proposed: Params) -> bool
        ensures { result ≡ may_answer proposed self }
    {
        is_toward(7, proposed.size_called, self.size_called)
            && is_toward(7, proposed.size_calling, self.size_calling)
            && is_toward(2, proposed.win_called, self.win_called)
            && is_toward(2, proposed.win_calling, self.win_calling)
    }
}

impl Default for Params {
    /// Where nothing is said: packets of 128 octets, and window 2.
    fn default() -> Params
        ensures { result ≡ default_params }
    {
        FlowControl::usual().params
    }
}

fn is_within(least: u8, most: u8, value: u8) -> bool
    ensures { result ≡ is_within least most value }
{
    least <= value && value <= most
}

// Whether a value stands from the proposed one to the default, both included.
fn is_toward(usual: u8, proposed: u8, answered: u8) -> bool
    ensures { result ≡ is_toward usual proposed answered }
{
    is_within(usual, proposed, answered) || is_within(proposed, usual, answered)
}

/// Packet sizes and windows that a call may propose.
#[derive(Clone, Copy)]
pub struct FlowControl {
    pub params: Params,
    ghost allowed: { may_propose params ≡ true },
}

impl FlowControl {
    /// Those of no call.
    pub fn usual() -> FlowControl
        ensures { result.params ≡ default_params }
    {
        FlowControl {
            params: Params {
                size_called: 7,
                size_calling: 7,
                win_called: 2,
                win_calling: 2,
            },
        }
    }

    /// Those that a call proposes, where it may.
    pub fn of(params: Params) -> Option<FlowControl>
        ensures some { IfSome result (λ flow. flow.params ≡ params) }
        ensures allowed { IfSome result (λ flow. may_propose params ≡ true) }
        ensures none { IfNone result (may_propose params ≡ false) }
    {
        if !params.may_be_proposed() {
            return None;
        }
        Some(FlowControl { params })
    }

    /// Those that an acceptance answers to these, where it may.
    pub fn answered(self, answer: Params) -> Option<FlowControl>
        ensures some { IfSome result (λ flow. flow.params ≡ answer) }
        ensures allowed { IfSome result (λ flow. may_answer self.params answer ≡ true) }
        ensures none { IfNone result (may_answer self.params answer ≡ false) }
    {
        if !answer.may_answer(self.params) {
            return None;
        }
        Some(FlowControl { params: answer })
    }

    /// What a facility field says where these are known.
    pub fn said(self, field: &[u8]) -> FlowControl
        ensures { result.params ≡ said_in self.params field.now }
    {
        let Ok(facilities) = Facilities::of(field) else {
            return self;
        };
        let mut params = self.params;
        if let Some(sizes) = facilities.packet_size {
            params.size_called = sizes.called;
            params.size_calling = sizes.calling;
        }
        if let Some(windows) = facilities.window_size {
            params.win_called = windows.called;
            params.win_calling = windows.calling;
        }
        FlowControl { params }
    }

    /// Of the data packets that the calling end sends, or those of the called one.
    pub fn terms(self, calling: bool) -> Terms
        ensures window { result.window ≡ (if calling
            then calling_terms self.params else called_terms self.params).window }
        ensures size { result.size ≡ (if calling then calling_terms self.params else called_terms self.params).size }
    {
        let params = self.params;
        if calling {
            return Terms {
                window: params.win_calling,
                size: 1 << params.size_calling,
            };
        }
        Terms {
            window: params.win_called,
            size: 1 << params.size_called,
        }
    }
}
