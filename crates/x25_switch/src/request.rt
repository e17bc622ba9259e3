//! What a call asks for as it is made on a line of its route.
ghost use Rattle.std.specs.Prelude.{◌≡◌, ◌++◌, vec_len, vec_capacity, IfOk};
ghost use Rattle.x25_station.specs.Command.{command_of};
ghost use Rattle.x25_switch.specs.Request.{IsCall};

use std::alloc::{AllocError, Global};
use std::str;
use x25_bits::append_octets;
use x25_layer::Params;
use x25_routes::Found;
use x25_station::{Cmd, Lent};

/// What was asked for as the call came, and the lines of its route. Addresses are figures.
#[derive(Drop)]
pub(crate) struct Request {
    called: Vec<u8>,
    calling: Vec<u8>,
    user: Vec<u8>,
    params: Params,
    lines: Vec<u8>,
    /// How many of the lines didn't take it.
    tried: usize,
}

// These octets and those, in memory for them and no more.
fn joined(alloc: Global, octets: &[u8], more: &[u8]) -> Result<Vec<u8>, AllocError>
    ensures items { IfOk result (λ v. v.items ≡ octets.now ++ more.now) }
    ensures memory { IfOk result (λ v. vec_capacity v ≡ vec_len v) }
{
    let mut all = Vec::with_capacity(alloc, octets.len() + more.len())?;
    append_octets(&mut all, octets);
    append_octets(&mut all, more);
    Ok(all)
}

// Digits become figures.
fn spell(digits: &mut Vec<u8>) {
    for digit in digits.iter_mut() {
        *digit |= b'0';
    }
}

fn figures(alloc: Global, digits: &[u8], more: &[u8]) -> Result<Vec<u8>, AllocError> {
    let mut figures = joined(alloc, digits, more)?;
    spell(&mut figures);
    Ok(figures)
}

fn text(figures: &[u8]) -> &str {
    match str::from_utf8(figures) {
        Ok(text) => text,
        Err(_) => "?",
    }
}

impl Request {
    /// What came, which is to go to the address that was found for it. Err: no memory.
    pub(crate) fn new(
        alloc: Global,
        found: &Found<'_>,
        lent: &Lent,
        params: Params,
    ) -> Result<Request, AllocError> {
        Ok(Request {
            called: figures(alloc, found.becomes, found.rest)?,
            calling: figures(alloc, lent.calling(), &[])?,
            user: joined(alloc, lent.user(), &[])?,
            params,
            lines: joined(alloc, found.lines, &[])?,
            tried: 0,
        })
    }

    /// The line that is tried, where one is left.
    pub(crate) fn line(&self) -> Option<u8> {
        self.lines.get(self.tried).copied()
    }

    /// The line doesn't take it.
    pub(crate) fn pass(&mut self) {
        if self.tried < self.lines.len() {
            self.tried += 1;
        }
    }

    /// What is asked of its station.
    pub(crate) fn command(&self) -> Cmd<'_>
        ensures { IsCall (command_of result) }
    {
        Cmd::Call {
            called: text(self.called.as_slice()),
            calling: text(self.calling.as_slice()),
            user: self.user.as_slice(),
            params: Some(self.params),
            given: None,
        }
    }
}
