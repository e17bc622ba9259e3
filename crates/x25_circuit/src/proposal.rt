//! What a facility field says of packet sizes and windows. ITU-T X.25 (10/96), sections 6.12 and 7.2.2.1.
ghost use Rattle.std.specs.Prelude.{◌≡◌};
ghost use Rattle.x25_circuit.specs.Params.{field_for, said_of};

use crate::params::Params;
use std::marker::Model;
use x25_packet::{Directions, Facilities, FacilityField};

/// Packet sizes and windows that a CALL proposes or an ACCEPT answers.
#[derive(Debug, Drop)]
pub struct Proposal {
    params: Params,
    /// Whether it says those too that the other end takes without it.
    says_all: bool,
}

impl Model for Proposal {
    ghost use Rattle.x25_circuit.specs.Params.{Proposal as Said};

    ghost Value = { Said };

    ghost view = { λ p. record { params = p.params; says_all = p.says_all } };
}

impl Proposal {
    /// These values, whatever they are: the circuit judges them. What the other end takes without it isn't said, or
    /// with `says_all` it is. It takes no memory.
    pub fn new(params: Params, says_all: bool) -> Proposal
        ensures params { result.params ≡ params }
        ensures says_all { result.says_all ≡ says_all }
    {
        Proposal { params, says_all }
    }

    /// The values that it says.
    pub fn params(&self) -> Params
        ensures { result ≡ self.now.params }
    {
        self.params
    }

    /// Whether those are said too that the other end takes without it.
    pub(crate) fn says_all(&self) -> bool
        ensures { result ≡ self.now.says_all }
    {
        self.says_all
    }

    /// The facility field that says them to an end that knows these.
    pub(crate) fn field_for(&self, known: Params) -> FacilityField
        ensures { result ≡ field_for known self.now }
    {
        FacilityField::of(Facilities {
            packet_size: said(self.says_all, known.sizes(), self.params.sizes()),
            window_size: said(self.says_all, known.windows(), self.params.windows()),
        })
    }
}

// What is said of two values, one for each direction, to an end that knows these.
fn said(says_all: bool, known: Directions, values: Directions) -> Option<Directions>
    ensures { result ≡ said_of says_all known values }
{
    if says_all || values != known {
        Some(values)
    } else {
        None
    }
}
