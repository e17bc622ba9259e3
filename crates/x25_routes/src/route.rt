ghost use Rattle.std.specs.Prelude.{◌≡◌, IfOk, vec_len, vec_capacity};
ghost use Rattle.std.specs.Str.{bytes_eq};

use std::alloc::{AllocError, Global};
use std::marker::Model;
use x25_bits::append_octets;

/// A route, in memory for its digits and lines and no more. Contracts see what it says.
#[derive(Drop)]
pub struct Route {
    prefix: Vec<u8>,
    becomes: Vec<u8>,
    lines: Vec<u8>,
}

impl Model for Route {
    ghost use Rattle.std.specs.Prelude.{◌≡◌, vec_len, vec_capacity};
    ghost use Rattle.x25_routes.specs.Route.{PlainRoute};

    ghost Value = { PlainRoute };

    ghost view = { λ r. record { prefix = r.prefix.items; becomes = r.becomes.items; lines = r.lines.items } };

    ghost invariant = { λ r. (vec_capacity r.prefix ≡ vec_len r.prefix) × (vec_capacity r.becomes ≡ vec_len r.becomes)
        × (vec_capacity r.lines ≡ vec_len r.lines) };
}

// A copy in memory for these octets and no more.
fn copied(alloc: Global, octets: &[u8]) -> Result<Vec<u8>, AllocError>
    ensures items { IfOk result (λ v. v.items ≡ octets.now) }
    ensures memory { IfOk result (λ v. vec_capacity v ≡ vec_len v) }
{
    let mut copy = Vec::with_capacity(alloc, octets.len())?;
    append_octets(&mut copy, octets);
    Ok(copy)
}

impl Route {
    /// A route for the addresses that begin with a prefix: what the prefix becomes, and the lines that are tried in
    /// turn. Err: no memory.
    pub fn new(
        alloc: Global,
        prefix: &[u8],
        becomes: &[u8],
        lines: &[u8],
    ) -> Result<Route, AllocError>
        ensures { IfOk result (λ r. r ≡ record { prefix = prefix.now; becomes = becomes.now; lines = lines.now }) }
    {
        Ok(Route {
            prefix: copied(alloc, prefix)?,
            becomes: copied(alloc, becomes)?,
            lines: copied(alloc, lines)?,
        })
    }

    /// The digits of the addresses that it is for.
    pub fn prefix(&self) -> &[u8]
        ensures { result.now ≡ self.now.prefix }
    {
        self.prefix.as_slice()
    }

    /// The digits that these become.
    pub fn becomes(&self) -> &[u8]
        ensures { result.now ≡ self.now.becomes }
    {
        self.becomes.as_slice()
    }

    /// The numbers of the lines that are tried in turn.
    pub fn lines(&self) -> &[u8]
        ensures { result.now ≡ self.now.lines }
    {
        self.lines.as_slice()
    }

    /// Whether it is of just this prefix.
    pub fn is_of(&self, prefix: &[u8]) -> bool
        ensures { result ≡ bytes_eq self.now.prefix prefix.now }
    {
        self.prefix.as_slice() == prefix
    }
}
