//! Frames put as octets of a synchronous line, each octet lowest bit first. Profile.
ghost use Rattle.std.specs.Prelude.{ℕ, ◌≡◌, ◌≤◌, ◌+◌, ◌-◌, ◌*◌, ◌/◌, ◌^◌, ◌++◌, ◌∷◌, [], min, Bool, true, List, length};
ghost use Rattle.std.specs.Prelude.{IfOk, OnOk, OnErr, max, vec_len, vec_capacity};
ghost use Rattle.x25_bits.specs.code.Prefix.{IsPrefix};
ghost use Rattle.x25_bits.specs.FrameCheck.{bits_of};
ghost use Rattle.x25_bits.specs.Found.{Content, found_of, octets_of};
ghost use Rattle.x25_bits.specs.Deframer.{flag};
ghost use Rattle.x25_bits.specs.Stuffing.{framed, filled};

use crate::bits::Bits;
use crate::no_memory::NoMemory;
use crate::octets::append_octets;
use crate::stuffing::put;
use std::alloc::Global;

/// Eight 1 bits.
const ONES: u8 = 0xFF;

/// Appends 1 bits up to a whole octet.
fn fill(bits: &mut Bits) -> Result<(), NoMemory>
    ensures ok { OnOk result (bits.new ≡ filled bits.old) }
{
    let missing = ((8 - bits.len() % 8) % 8) as u8;
    bits.append(ONES, missing)?;
    Ok(())
}

/// As many octets as the frame of so many mostly takes: a quarter more, two flags and what is written behind the last
/// bit.
fn most_octets(count: usize) -> usize
    ensures { result ≡ min (count + count / 4 + 4) (2 ^ 64 - 1) }
{
    count.saturating_add(count / 4).saturating_add(4)
}

/// A flag, the octets' stuffed bits, a flag, and 1 bits up to a whole octet.
fn whole_frame(octets: &[u8], alloc: Global) -> Result<Bits, NoMemory>
    ensures ok { IfOk result (λ bits. bits ≡ filled (framed octets.now)) }
{
    let mut bits = Bits::with_room(alloc, most_octets(octets.len()))?;
    put(octets, &mut bits)?;
    fill(&mut bits)?;
    Ok(bits)
}

/// Makes room for so many octets more. It doubles, so that a line that grows isn't copied at each call.
fn make_room(line: &mut Vec<u8>, more: usize) -> Result<(), NoMemory>
    ensures items { line.new.items ≡ line.old.items }
    ensures room { OnOk result (vec_len line.new + more ≤ vec_capacity line.new) }
    ensures most { vec_capacity line.new ≤ max (vec_capacity line.old) (2 * (vec_len line.old + more)) }
    ensures err { OnErr result (vec_capacity line.new ≡ vec_capacity line.old) }
{
    let Some(end) = line.len().checked_add(more) else {
        return Err(NoMemory);
    };
    if end <= line.capacity() {
        return Ok(());
    }
    line.reserve_exact(more.max(line.len()))?;
    Ok(())
}

/// Appends octets of a synchronous line, whose bits, lowest first, are those that `put` appends, and then as few 1 bits
/// as fill the last octet. Of 4 to 4,103 octets the content between the flags is found, behind any octets before it. It
/// takes memory for no more than twice the octets that are there then. Error 70 where there is none.
pub fn put_octets(octets: &[u8], line: &mut Vec<u8>) -> Result<(), NoMemory>
    ensures ok { OnOk result (bits_of line.new.items ≡ bits_of line.old.items ++ filled (framed octets.now)) }
    ensures begins { IsPrefix line.old.items line.new.items }
    ensures found { OnOk result (4 ≤ length octets.now → length octets.now ≤ 4103
        → found_of (bits_of line.new.items) ≡ found_of (bits_of line.old.items ++ flag) ++ Content octets.now ∷ []) }
    ensures room { vec_capacity line.new ≤ max (vec_capacity line.old) (2 * vec_len line.new) }
    ensures err { OnErr result (line.new.items ≡ line.old.items) }
{
    let alloc = *line.allocator();
    let bits = whole_frame(octets, alloc)?;
    let whole = bits.whole_octets();
    make_room(line, whole.len())?;
    append_octets(line, whole);
    Ok(())
}
