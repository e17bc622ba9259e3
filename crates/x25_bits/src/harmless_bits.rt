//! Bits in the place of those between the flags of a frame, and what comes of them (profile).
ghost use Rattle.std.specs.Prelude.{◌≡◌, ◌↔◌, ◌<◌, ◌≤◌, ◌++◌, Bool, List, IsTrue, IfOk, OnOk, length, not};
ghost use Rattle.std.specs.List.{list_all};
ghost use Rattle.x25_bits.specs.HarmlessBits.{between_flags, IsHarmless, is_sealed_content, first_content};
ghost use Rattle.x25_bits.specs.code.Fits.{Fits};
ghost use Rattle.x25_bits.specs.code.Plain.{plain, plains};
ghost use Rattle.x25_bits.specs.code.Reading.{part};
ghost use Rattle.x25_bits.specs.laws.Cuts.{found_more};
ghost use Rattle.x25_bits.specs.Found.{found_of};

use crate::bits::Bits;
use crate::deframer::Deframer;
use crate::found::Found;
use crate::frame_check::check;
use crate::no_memory::NoMemory;
use crate::stuffing::put_flag;
use std::alloc::Global;

/// Whether no frame comes of the bits between two flags: none of their spans is a content, of 4 to 4,103 octets, that
/// passes `check`. Error 70 where there is no memory to find their spans.
pub fn harmless(bits: &Bits) -> Result<bool, NoMemory>
    ensures { IfOk result (λ answer. IsTrue answer ↔ IsHarmless bits.now) }
{
    let found = found_between_flags(bits)?;
    Ok(none_passes(found.as_slice()))
}

/// The octets of the first content among the spans of the bits between two flags, and no octets where none of them is a
/// content. Error 70 where there is no memory to find their spans.
pub fn first_content(bits: &Bits) -> Result<Vec<u8>, NoMemory>
    ensures { IfOk result (λ octets. octets.items ≡ first_content (found_of (between_flags bits.now))) }
{
    let found = found_between_flags(bits)?;
    Ok(content_in(bits.alloc(), found))
}

/// The octets of the first content of these.
#[tactic(auto, unfolding(crate::specs::HarmlessBits::first_content))]
fn content_in(alloc: Global, all: Vec<Found>) -> Vec<u8>
    ensures { result.items ≡ first_content (plains all.items) }
{
    for found in all {
        if let Found::Content(octets) = found {
            return octets;
        }
    }
    Vec::new(alloc)
}

/// What is found in the bits between two flags, in order.
fn found_between_flags(bits: &Bits) -> Result<Vec<Found>, NoMemory>
    ensures { IfOk result (λ found. plains found.items ≡ found_of (between_flags bits.now)) }
{
    let mut ends = Bits::new(bits.alloc());
    put_flag(&mut ends)?;
    let mut deframer = Deframer::new(bits.alloc())?;
    let mut found = Vec::new(bits.alloc());
    find(&mut deframer, &ends, &mut found)?;
    find(&mut deframer, bits, &mut found)?;
    find(&mut deframer, &ends, &mut found)?;
    Ok(found)
}

/// Appends what is found in more bits.
fn find(deframer: &mut Deframer, bits: &Bits, found: &mut Vec<Found>) -> Result<(), NoMemory>
    ensures fits { OnOk result ((before : List Bool) → Fits deframer.old before
        → Fits deframer.new (before ++ bits.now)) }
    ensures found { OnOk result ((before : List Bool) → Fits deframer.old before
        → plains found.new.items ≡ plains found.old.items ++ found_more before bits.now) }
{
    let mut at = 0;
    while at < bits.len() {
        at = find_next(deframer, bits, at, found)?;
    }
    Ok(())
}

/// Appends what is found next from a place on, and answers the place behind it.
fn find_next(
    deframer: &mut Deframer,
    bits: &Bits,
    at: usize,
    found: &mut Vec<Found>,
) -> Result<usize, NoMemory>
    requires { at < length bits.now }
    ensures moves { IfOk result (λ place. at < place) }
    ensures high { IfOk result (λ place. place ≤ length bits.now) }
    ensures fits { (before : List Bool) → Fits deframer.old before
        → IfOk result (λ place. Fits deframer.new (before ++ part at place bits.now)) }
    ensures found { (before : List Bool) → Fits deframer.old before
        → IfOk result (λ place. plains found.new.items ≡ plains found.old.items
        ++ found_more before (part at place bits.now)) }
{
    let (place, span) = deframer.feed_next(bits, at);
    if let Some(span) = span {
        found.push(span.copied(bits.alloc())?)?;
    }
    Ok(place)
}

/// Whether none of these is a content that passes `check`.
fn none_passes(found: &[Found]) -> bool
    ensures { result ≡ list_all (λ one. not (is_sealed_content (plain one))) found.now }
{
    found.iter().all(|one| !passes(one))
}

/// Whether this is a content that passes `check`.
fn passes(found: &Found) -> bool
    ensures { result ≡ is_sealed_content (plain found.now) }
{
    match found {
        Found::Content(octets) => check(octets.as_slice()),
        Found::Abort | Found::Short | Found::Long | Found::Ragged => false,
    }
}
