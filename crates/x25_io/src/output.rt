//! Text on its way to a writer.
ghost use Rattle.std.specs.Prelude.{◌≡◌, ◌≤◌, ◌+◌, [], true, ℕ, List, Option, IfOk, OnOk, OnErr, MatchResult, length};
ghost use Rattle.x25_text.specs.declared.text.TheConstants.{ROOM};
ghost use Rattle.x25_io.specs.code.Written.{AppendsPrefix, Tells, TellsMore};

use crate::device::{Failed, Sink, write_all};
use std::alloc::{AllocError, Global};
use std::marker::Model;
use x25_text::{ROOM, Text};

/// Text that waits to be written, in a buffer. No call but `new` is refused for want of memory.
#[derive(Drop)]
pub struct Output {
    text: Text,
}

impl Model for Output {
    ghost Value = { List ℕ };

    ghost view = { λ output. output.text };
}

impl Output {
    ghost use Rattle.std.specs.Borrow.{sem};
    ghost use Rattle.x25_io.specs.code.OutputLends.{LendsText};

    /// Nothing waits. Err: no memory.
    pub fn new(alloc: Global) -> Result<Output, AllocError>
        ensures { IfOk result (λ output. output ≡ []) }
    {
        let text = Text::new(alloc)?;
        Ok(Output { text })
    }

    /// Writes what waits. Err: a call of the writer failed, and the writer is marked.
    pub fn flush<W: Sink>(&mut self, writer: &mut W) -> Result<(), Failed>
        ensures kept { OnOk result (W.is_marked writer.new ≡ W.is_marked writer.old) }
        ensures tells { (old : Option (List ℕ)) (told : List ℕ) → Tells old (W.contents writer.old) self.old told
            → MatchResult result (λ _. Tells old (W.contents writer.new) self.new told)
            (λ _. AppendsPrefix old (W.contents writer.new) told) }
        ensures empty { OnOk result (self.new ≡ []) }
        ensures marked { OnErr result (W.is_marked writer.new ≡ true) }
    {
        write_all(writer, self.text.as_slice())?;
        self.text.clear();
        Ok(())
    }

    /// Writes what waits, where else so many characters have no room behind it. Err: a call of the writer failed, and
    /// the writer is marked.
    pub fn make_room<W: Sink>(&mut self, count: usize, writer: &mut W) -> Result<(), Failed>
        requires few { count ≤ ROOM }
        ensures kept { OnOk result (W.is_marked writer.new ≡ W.is_marked writer.old) }
        ensures tells { (old : Option (List ℕ)) (told : List ℕ) → Tells old (W.contents writer.old) self.old told
            → MatchResult result (λ _. Tells old (W.contents writer.new) self.new told)
            (λ _. AppendsPrefix old (W.contents writer.new) told) }
        ensures room { OnOk result (length self.new + count ≤ ROOM) }
        ensures marked { OnErr result (W.is_marked writer.new ≡ true) }
    {
        if self.text.len() <= ROOM - count {
            return Ok(());
        }
        self.flush(writer)
    }

    /// Writes what waits, and the line behind it.
    fn write_line<W: Sink>(&mut self, line: &[u8], writer: &mut W) -> Result<(), Failed>
        ensures kept { OnOk result (W.is_marked writer.new ≡ W.is_marked writer.old) }
        ensures tells { TellsMore result (W.contents writer.old) (W.contents writer.new) self.old self.new line.now }
        ensures marked { OnErr result (W.is_marked writer.new ≡ true) }
    {
        self.flush(writer)?;
        write_all(writer, line)
    }

    /// Tells a line: it waits behind what was told before. One that is longer than the buffer is written. Err: a call
    /// of the writer failed, and the writer is marked.
    pub fn tell<W: Sink>(&mut self, line: &[u8], writer: &mut W) -> Result<(), Failed>
        ensures kept { OnOk result (W.is_marked writer.new ≡ W.is_marked writer.old) }
        ensures tells { TellsMore result (W.contents writer.old) (W.contents writer.new) self.old self.new line.now }
        ensures marked { OnErr result (W.is_marked writer.new ≡ true) }
    {
        if line.len() > ROOM {
            return self.write_line(line, writer);
        }
        self.make_room(line.len(), writer)?;
        self.text.push(line);
        Ok(())
    }

    /// What waits, to be appended to.
    pub fn text(&mut self) -> &mut Text
        ensures* lends { sem 𝓛 (LendsText self.entry result) }
        ensures value { result.now ≡ self.old }
    {
        &mut self.text
    }
}
