use crate::owed::Owed;
use x25_packet::{Digits, FacilityField};

/// The packet that a request of the user sends, but for its channel. What it says is borrowed from the request.
#[derive(Debug, Drop)]
pub enum Requested<'a> {
    Call {
        called: Digits<'a>,
        calling: Digits<'a>,
        facilities: FacilityField,
        user: &'a [u8],
    },
    Accept {
        facilities: FacilityField,
    },
    Interrupt {
        user: &'a [u8],
    },
    /// One that is also owed for a packet that comes.
    Owed(Owed),
}
