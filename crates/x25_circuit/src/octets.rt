ghost use Rattle.std.specs.Prelude.{◌≡◌, ◌+◌, ◌++◌, ◌≤◌, [], length, IfOk};

use std::alloc::{AllocError, Global};
use std::marker::Model;
use x25_bits::append_octets;

/// The most octets of a message (profile).
pub const LONGEST_MESSAGE: usize = 65_535;

/// The octets of a message that is told, in memory for 65,535, whatever its circuit takes. Contracts see the list of
/// them.
#[derive(Debug, Drop)]
pub struct Octets {
    octets: Vec<u8>,
}

impl Model for Octets {
    ghost use Rattle.std.specs.Prelude.{◌≡◌, ℕ, ◌≤◌, List, vec_len, vec_capacity};

    ghost Value = { List ℕ };

    ghost view = { λ o. o.octets.items };

    ghost invariant = { λ o. (vec_len o.octets ≤ 65535) × (vec_capacity o.octets ≡ 65535) };
}

impl Octets {
    /// No octets. Err: no memory.
    pub fn new(alloc: Global) -> Result<Octets, AllocError>
        ensures { IfOk result (λ octets. octets ≡ []) }
    {
        let octets = Vec::with_capacity(alloc, LONGEST_MESSAGE)?;
        Ok(Octets { octets })
    }

    /// Lends the octets.
    pub fn as_slice(&self) -> &[u8]
        ensures items { result.now ≡ self.now }
        ensures short { length result.now ≤ 65535 }
    {
        self.octets.as_slice()
    }

    /// These octets, and more behind them, in place of those that there are. It takes no memory.
    pub fn set(&mut self, octets: &[u8], more: &[u8])
        requires { length octets.now + length more.now ≤ 65535 }
        ensures { self.new ≡ octets.now ++ more.now }
    {
        self.octets.clear();
        append_octets(&mut self.octets, octets);
        append_octets(&mut self.octets, more);
    }
}
