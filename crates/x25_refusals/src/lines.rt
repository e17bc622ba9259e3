//! Lines that are shown, in memory for all of them that is set aside at first.
use std::alloc::{AllocError, Global};
use x25_station::{Entries, Role};
use x25_text::Text;
use x25_transcript::push_entry;

/// Lines that are shown.
#[derive(Drop)]
pub(crate) struct Lines {
    text: Text,
}

/// How the line of a frame begins.
fn mark(from: Role) -> &'static [u8] {
    match from {
        Role::Dte => b"> ",
        Role::Dce => b"< ",
    }
}

impl Lines {
    /// No lines. Memory that is refused is asked for again: one refusal doesn't end the player itself.
    pub(crate) fn new(alloc: Global) -> Result<Lines, AllocError> {
        let text = match Text::new(alloc) {
            Ok(text) => text,
            Err(_) => Text::new(alloc)?,
        };
        Ok(Lines { text })
    }

    pub(crate) fn as_slice(&self) -> &[u8] {
        self.text.as_slice()
    }

    /// Appends characters.
    pub(crate) fn push(&mut self, characters: &[u8]) -> Result<(), AllocError> {
        self.text.try_push(characters)
    }

    /// Appends the lines of entries, as a transcript has them.
    pub(crate) fn push_entries(&mut self, end: Role, entries: &Entries) -> Result<(), AllocError> {
        for entry in entries.as_slice() {
            push_entry(end, entry, entries.lent(), &mut self.text)?;
        }
        Ok(())
    }

    /// Appends the line of a frame, as a trace has it.
    pub(crate) fn push_frame(&mut self, from: Role, octets: &[u8]) -> Result<(), AllocError> {
        self.push(mark(from))?;
        self.text.try_push_hexadecimal(octets)?;
        self.push(b"\n")
    }

    /// Appends the line of a call that was refused memory.
    pub(crate) fn push_refused(&mut self, call: &str) -> Result<(), AllocError> {
        self.push(call.as_bytes())?;
        self.push(b" refused\n")
    }
}
