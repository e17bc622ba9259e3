ghost use Rattle.std.specs.Prelude.{◌≡◌, take};

use crate::text::Text;
use std::alloc::{AllocError, Global};
use x25_circuit::{LONGEST_MESSAGE, Octets};

/// What a step lends with its entries: the addresses and the user data of a call, or the user data of an interrupt, a
/// message, and what came beside. Of these no two entries of a step say the same. What none of its entries says is of
/// an earlier step.
#[derive(Drop)]
pub struct Lent {
    pub(crate) called: Text,
    pub(crate) calling: Text,
    pub(crate) user: Text,
    pub(crate) message: Octets,
    pub(crate) facilities: Text,
    pub(crate) beside: Text,
}

impl Lent {
    /// Memory for all of it. Err: no memory.
    pub(crate) fn new(alloc: Global) -> Result<Lent, AllocError> {
        Ok(Lent {
            called: Text::new(alloc)?,
            calling: Text::new(alloc)?,
            user: Text::new(alloc)?,
            message: Octets::new(alloc)?,
            facilities: Text::new(alloc)?,
            beside: Text::new(alloc)?,
        })
    }

    /// Puts the first 65,535 of these octets in the place of the message.
    pub(crate) fn set_message(&mut self, octets: &[u8])
        ensures { self.new.message ≡ take 65535 octets.now }
    {
        let count = LONGEST_MESSAGE.min(octets.len());
        self.message.set(&octets[..count], &[]);
    }

    /// The address that is called: its figures where the user asked for the call, and its digits where that came.
    pub fn called(&self) -> &[u8]
        ensures { result.now ≡ self.now.called }
    {
        self.called.as_slice()
    }

    /// The address that calls, as above.
    pub fn calling(&self) -> &[u8]
        ensures { result.now ≡ self.now.calling }
    {
        self.calling.as_slice()
    }

    /// The user data of a call or an interrupt.
    pub fn user(&self) -> &[u8]
        ensures { result.now ≡ self.now.user }
    {
        self.user.as_slice()
    }

    /// The octets of a message.
    pub fn message(&self) -> &[u8]
        ensures { result.now ≡ self.now.message }
    {
        self.message.as_slice()
    }

    /// The facility field that came beside.
    pub fn facilities(&self) -> &[u8]
        ensures { result.now ≡ self.now.facilities }
    {
        self.facilities.as_slice()
    }

    /// The user data that came beside.
    pub fn beside(&self) -> &[u8]
        ensures { result.now ≡ self.now.beside }
    {
        self.beside.as_slice()
    }
}
