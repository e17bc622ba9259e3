//! A text that is read, taken and answered a piece at a time.
ghost use Rattle.std.specs.Prelude.{◌≡◌, ◌≢◌, ◌<◌, ◌≤◌, ◌-◌, ◌^◌, ◌++◌, [], ℕ, true, List, Option, Some, IfOk, OnOk};
ghost use Rattle.std.specs.Prelude.{OnErr, IfSome, IsErrOf, MatchResult, length, vec_len, vec_capacity};
ghost use Rattle.std.specs.Io.KnownBytes.{Appends};
ghost use Rattle.x25_io.specs.code.Runs.{Answers, MarksDevices};
ghost use Rattle.x25_io.specs.code.Written.{AppendsPrefix};

use crate::device::{Sink, Source};
use crate::fault::Fault;
use std::alloc::{AllocError, Global};

/// The most octets that are read at once.
pub const PIECE: usize = 65_536;

/// Memory for the octets that are read at once, 65,536 and no more.
#[derive(Drop)]
pub struct Piece {
    octets: Vec<u8>,
    ghost places: { vec_len octets ≡ 65536 },
    ghost room: { vec_capacity octets ≡ 65536 },
}

// 65,536 octets, in memory for them and no more. What std fills by itself may take more.
fn blank_octets(alloc: Global) -> Result<Vec<u8>, AllocError>
    ensures places { IfOk result (λ octets. vec_len octets ≡ 65536) }
    ensures room { IfOk result (λ octets. vec_capacity octets ≡ 65536) }
{
    let mut octets = Vec::with_capacity(alloc, PIECE)?;
    for _place in 0..PIECE {
        octets.push_reserved(0u8);
    }
    Ok(octets)
}

impl Piece {
    /// Room for the octets that one read gives. Err: no memory.
    pub fn new(alloc: Global) -> Result<Piece, AllocError>
        ensures { IfOk result (λ piece. length piece.octets.items ≡ 65536) }
    {
        let octets = blank_octets(alloc)?;
        Ok(Piece { octets })
    }
}

/// What takes a text in pieces, and writes the answer to it.
pub trait TextTaker: Drop {
    // What the answer depends on beside the text.
    ghost Setting: { Type 0 };
    // What is written for a text.
    ghost text_of: { Setting → List ℕ → List ℕ };
    // The status at its end.
    ghost status_of: { Setting → List ℕ → ℕ };
    // `leads setting taker old now rest text`: the writer held `old` at first and holds `now`, and `rest` of the text
    // is to come.
    ghost leads: { Setting → Self → Option (List ℕ) → Option (List ℕ) → List ℕ → List ℕ → Type 0 };
    // `ended setting old now rest text`: all is written but what the line that has begun and `rest` give.
    ghost ended: { Setting → Option (List ℕ) → Option (List ℕ) → List ℕ → List ℕ → Type 0 };
    // What waits to be written.
    ghost waiting: { Self → List ℕ };
    // Whether memory may be wanted.
    ghost may_want: { Type 0 };

    /// Takes a piece of the text, and writes the answers to the lines that have ended.
    fn take_piece<W: Sink>(&mut self, piece: &[u8], writer: &mut W) -> Result<(), Fault>
        ensures written { OnOk result (waiting self.new ≡ []) }
        ensures kept { OnOk result (W.is_marked writer.new ≡ W.is_marked writer.old) }
        ensures on { (setting : Setting) (old : Option (List ℕ)) (rest text : List ℕ)
            → leads setting self.old old (W.contents writer.old) (piece.now ++ rest) text
            → MatchResult result (λ _. leads setting self.new old (W.contents writer.new) rest text)
            (λ _. AppendsPrefix old (W.contents writer.new) (text_of setting text)) }
        ensures write { IsErrOf result Fault.Write → W.is_marked writer.new ≡ true }
        ensures memory { IsErrOf result Fault.NoMemory → may_want × (W.is_marked writer.new ≡ W.is_marked writer.old) }
        ensures read { IsErrOf result Fault.Read → ⊥ };

    /// Writes what waits at the end of the text, and answers the status.
    fn end<W: Sink>(self, writer: &mut W) -> Result<u8, Fault>
        ensures zero_or_one { IfOk result (λ status. status ≤ 1) }
        ensures kept { OnOk result (W.is_marked writer.new ≡ W.is_marked writer.old) }
        ensures all { (setting : Setting) (old : Option (List ℕ)) (text : List ℕ)
            → leads setting self old (W.contents writer.old) [] text
            → MatchResult result (λ status. Appends old (W.contents writer.new) (text_of setting text)
            × (status ≡ status_of setting text))
            (λ _. AppendsPrefix old (W.contents writer.new) (text_of setting text)) }
        ensures write { IsErrOf result Fault.Write → W.is_marked writer.new ≡ true }
        ensures memory { IsErrOf result Fault.NoMemory → may_want × (W.is_marked writer.new ≡ W.is_marked writer.old) }
        ensures read { IsErrOf result Fault.Read → ⊥ };

    /// Writes what waits after a failed read, and answers the fault: `Write` where that fails too.
    fn give_up<W: Sink>(self, writer: &mut W) -> Fault
        ensures part { (setting : Setting) (old : Option (List ℕ)) (rest text : List ℕ)
            → leads setting self old (W.contents writer.old) rest text
            → AppendsPrefix old (W.contents writer.new) (text_of setting text) }
        ensures lines { (setting : Setting) (old : Option (List ℕ)) (rest text : List ℕ)
            → leads setting self old (W.contents writer.old) rest text
            → result ≡ Fault.Read → ended setting old (W.contents writer.new) rest text }
        ensures memory { result ≢ Fault.NoMemory }
        ensures marked { result ≡ Fault.Write → W.is_marked writer.new ≡ true };
}

/// Reads octets until the reader's end, into one piece of memory, has each piece of them taken, and answers the status.
///
/// A failed read is answered by `Read`, a failed write by `Write`, and `NoMemory` comes only from a taker that may want
/// memory. A reader is called at most 2^64 - 1 times; then its text counts as ended. Profile.
pub fn take_text<T: TextTaker, R: Source, W: Sink>(
    mut taker: T,
    mut piece: Piece,
    reader: &mut R,
    writer: &mut W,
) -> Result<u8, Fault>
    ensures zero_or_one { IfOk result (λ status. status ≤ 1) }
    ensures answers { (setting : T.Setting) (old : Option (List ℕ))
        → ((text : List ℕ) → T.leads setting taker old (W.contents writer.old) text text)
        → Answers (record { text = T.text_of setting; status = T.status_of setting; Ended = T.ended setting })
        (R.remaining reader.old) (R.remaining reader.new) old (W.contents writer.new) result }
    ensures marks { MarksDevices R.Source W.Sink reader.old reader.new writer.old writer.new result }
    ensures memory { IsErrOf result Fault.NoMemory → T.may_want }
{
    let octets = piece.octets.as_mut_slice();
    for _ in 0..u64::MAX {
        let Ok(count) = reader.read(octets) else {
            return Err(taker.give_up(writer));
        };
        if count == 0 {
            return taker.end(writer);
        }
        taker.take_piece(&octets[..count], writer)?;
    }
    taker.end(writer)
}
