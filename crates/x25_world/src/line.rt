ghost use Rattle.std.specs.Prelude.{◌≡◌, ◌+◌, ◌*◌, ◌<◌, ◌≤◌, ◌++◌, max, [], length, map, remove, OnOk, OnErr, ◌∷◌};
ghost use Rattle.std.specs.Prelude.{option_copied, option_map, nat_le, vec_len, vec_capacity, IfOk};
ghost use Rattle.std.specs.Prelude.{slice_get, take, drop, IfSome};
ghost use Rattle.x25_line.specs.laws.Loss.{replaced};
ghost use Rattle.x25_world.specs.code.ShownLine.{ShownLine, line_to, with_line_to, with_room_of};
ghost use Rattle.x25_world.specs.code.ShownLine.{put_by, TakesFew};
ghost use Rattle.std.specs.VecDeque.{deque_len, deque_capacity};

use std::alloc::{AllocError, Global};
use std::collections::VecDeque;
use std::marker::Model;
use x25_bits::{Role, with_octets};
use x25_link::Frames;
use x25_station::MOST_FRAMES;

/// The most octets of a frame: those of a packet, address, control and frame check sequence.
const LONGEST_FRAME: usize = 4103;

/// The most blanks.
const MOST_BLANKS: usize = 30;

/// Of how many frames that left the line the memory is kept beside the blanks.
const MOST_LEFT: usize = 4;

/// A frame on the line, in memory for its octets, or for those of the longest frame.
#[derive(Drop)]
pub(crate) struct Laid {
    pub(crate) octets: Vec<u8>,
    ghost memory: { vec_capacity octets ≤ max (vec_len octets) 4103 },
}

// Memory for the longest frame. What stands there is of no use.
#[derive(Drop)]
struct Blank {
    octets: Vec<u8>,
    ghost room: { vec_capacity octets ≡ 4103 },
}

// Memory of a frame that left the line, of its own length.
#[derive(Drop)]
struct Left {
    octets: Vec<u8>,
    ghost empty: { octets.items ≡ [] },
    ghost room: { vec_capacity octets ≤ 4103 },
}

/// The line between two ends in both directions.
///
/// Its frames come in the memory that an end sent them in, for which a blank is given, while there are more of these
/// than a step may need: or else in copies, in memory of frames that left, or of their own length.
#[derive(Drop)]
pub struct Line {
    to_dce: VecDeque<Laid>,
    to_dte: VecDeque<Laid>,
    blanks: Vec<Blank>,
    left: Vec<Left>,
    room: usize,
    alloc: Global,
}

impl Model for Line {
    ghost use Rattle.std.specs.Prelude.{◌+◌, ◌≤◌, map, vec_len, vec_capacity};
    ghost use Rattle.std.specs.VecDeque.{deque_len, deque_capacity};
    ghost use Rattle.x25_world.specs.code.ShownLine.{ShownLine};

    ghost Value = { ShownLine };

    ghost view = { λ l. record {
      to_dce = map (λ frame. frame.octets.items) l.to_dce.items;
      to_dte = map (λ frame. frame.octets.items) l.to_dte.items;
      room = l.room;
      places_to_dce = deque_capacity l.to_dce;
      places_to_dte = deque_capacity l.to_dte;
    } };

    ghost invariant = { λ l. (deque_len l.to_dce + l.room ≤ deque_capacity l.to_dce) ×
        (deque_len l.to_dte + l.room ≤ deque_capacity l.to_dte) × (l.room ≤ vec_len l.blanks) ×
        (vec_capacity l.blanks ≤ 30) × (vec_capacity l.left ≤ 4) };
}

impl Line {
    /// An empty line.
    pub fn new(alloc: Global) -> Line
        ensures { result ≡ record { to_dce = []; to_dte = []; room = 0; places_to_dce = 0; places_to_dte = 0 } }
    {
        Line {
            to_dce: VecDeque::from_vec(Vec::new(alloc)),
            to_dte: VecDeque::from_vec(Vec::new(alloc)),
            blanks: Vec::new(alloc),
            left: Vec::new(alloc),
            room: 0,
            alloc,
        }
    }

    /// How many frames are on the line to this end.
    pub fn len(&self, to: Role) -> usize
        ensures { result ≡ length (line_to self.now to) }
    {
        match to {
            Role::Dce => self.to_dce.len(),
            Role::Dte => self.to_dte.len(),
        }
    }

    /// Makes room for the frames of a step in each direction. Err: no memory. It changes nothing but the room and the
    /// places.
    pub fn reserve(&mut self) -> Result<(), AllocError>
        ensures room { OnOk result (9 ≤ self.new.room) }
        ensures same { self.new ≡ with_room_of self.new self.old }
        ensures few { TakesFew 9 self.old self.new }
    {
        if has_room(&self.to_dce) && has_room(&self.to_dte) && self.blanks.len() >= MOST_FRAMES {
            self.room = MOST_FRAMES;
            return Ok(());
        }
        self.make_room()
    }

    // Makes room as `reserve` does, where there is too little.
    #[cold]
    fn make_room(&mut self) -> Result<(), AllocError>
        ensures room { OnOk result (9 ≤ self.new.room) }
        ensures same { self.new ≡ with_room_of self.new self.old }
        ensures few { TakesFew 9 self.old self.new }
    {
        grow(&mut self.to_dce)?;
        grow(&mut self.to_dte)?;
        self.left.reserve_exact(MOST_LEFT - self.left.len())?;
        make_blanks(&mut self.blanks, self.alloc)?;
        self.room = MOST_FRAMES;
        Ok(())
    }

    /// The frame at this place comes on the line, in room that there is. What stands there then is of no use.
    #[inline(always)]
    pub fn put(&mut self, from: Role, frames: &mut Frames, place: usize)
        requires room { 0 < self.old.room }
        requires place { place < length frames.old }
        ensures line { self.new ≡ put_by self.old from (take 1 (drop place frames.old)) }
        ensures rest { drop (place + 1) frames.new ≡ drop (place + 1) frames.old }
        ensures count { length frames.new ≡ length frames.old }
    {
        self.room -= 1;
        let own = own(&mut self.blanks, &mut self.left, self.alloc, frames, place);
        match from {
            Role::Dte => lay(&mut self.to_dce, own),
            Role::Dce => lay(&mut self.to_dte, own),
        }
    }

    /// The frame at this place on the line to this end, 0 at the front.
    pub fn get(&self, to: Role, place: usize) -> Option<&[u8]>
        ensures { option_copied result ≡ slice_get (line_to self.now to) place }
    {
        match self.queue(to).get(place) {
            Some(frame) => Some(frame.octets.as_slice()),
            None => None,
        }
    }

    fn queue(&self, to: Role) -> &VecDeque<Laid>
        ensures { map (λ frame. frame.octets.items) result.now.items ≡ line_to self.now to }
    {
        match to {
            Role::Dce => &self.to_dce,
            Role::Dte => &self.to_dte,
        }
    }

    /// The frame at this place on the line to this end, 0 at the front, where there is one, comes off it.
    pub(crate) fn take(&mut self, to: Role, place: usize) -> Option<Laid>
        ensures frame { option_map (λ frame. frame.octets.items) result ≡ slice_get (line_to self.old to) place }
        ensures line { self.new ≡ with_line_to self.old to (remove (line_to self.old to) place) }
    {
        match to {
            Role::Dce => take_off(&mut self.to_dce, place),
            Role::Dte => take_off(&mut self.to_dte, place),
        }
    }

    /// The memory of a frame that left the line serves again.
    pub(crate) fn keep(&mut self, frame: Laid)
        ensures { self.new ≡ self.old }
    {
        let Laid { octets } = frame;
        if octets.capacity() == LONGEST_FRAME && self.blanks.len() < self.blanks.capacity() {
            self.blanks.push_reserved(Blank { octets });
        } else {
            keep_short(&mut self.left, octets);
        }
    }

    /// The frame at this place on the line to this end, 0 at the front, is lost.
    pub fn remove(&mut self, to: Role, place: usize)
        ensures { self.new ≡ with_line_to self.old to (remove (line_to self.old to) place) }
    {
        if let Some(frame) = self.take(to, place) {
            self.keep(frame);
        }
    }

    /// A copy of these octets comes in the place of the frame at this place on the line to this end, 0 at the front.
    pub fn replace(&mut self, to: Role, place: usize, octets: &[u8]) -> Result<(), AllocError>
        requires { place < length (line_to self.old to) }
        ensures ok { OnOk result (self.new
            ≡ with_line_to self.old to (replaced (line_to self.old to) place (λ _. octets.now))) }
        ensures err { OnErr result (self.new ≡ self.old) }
    {
        let own = with_octets(Vec::with_capacity(self.alloc, octets.len())?, octets);
        match to {
            Role::Dce => self.to_dce[place] = Laid { octets: own },
            Role::Dte => self.to_dte[place] = Laid { octets: own },
        }
        Ok(())
    }
}

// Makes blanks where there are fewer than a step may need. Err: no memory.
fn make_blanks(blanks: &mut Vec<Blank>, alloc: Global) -> Result<(), AllocError>
    requires places { vec_capacity blanks.old ≤ 30 }
    ensures enough { OnOk result (9 ≤ vec_len blanks.new) }
    ensures no_fewer { vec_len blanks.old ≤ vec_len blanks.new }
    ensures few { vec_capacity blanks.new ≤ 30 }
{
    if blanks.len() >= MOST_FRAMES {
        return Ok(());
    }
    blanks.reserve_exact(MOST_BLANKS - blanks.len())?;
    while blanks.len() < MOST_BLANKS {
        let octets = Vec::with_capacity(alloc, LONGEST_FRAME)?;
        blanks.push_reserved(Blank { octets });
    }
    Ok(())
}

// The octets of the frame at this place: in its memory, for which a blank is given, where there are more blanks than a
// step may need or there is no memory for a copy, else a copy.
#[inline(always)]
fn own(
    blanks: &mut Vec<Blank>,
    left: &mut Vec<Left>,
    alloc: Global,
    frames: &mut Frames,
    place: usize,
) -> Vec<u8>
    requires some { 0 < vec_len blanks.old }
    requires place { place < length frames.old }
    ensures one { vec_len blanks.old ≤ vec_len blanks.new + 1 }
    ensures places { vec_capacity blanks.new ≡ vec_capacity blanks.old }
    ensures places_left { vec_capacity left.new ≡ vec_capacity left.old }
    ensures frame { take 1 (drop place frames.old) ≡ result.items ∷ [] }
    ensures few { vec_capacity result ≤ 4103 }
    ensures rest { drop (place + 1) frames.new ≡ drop (place + 1) frames.old }
    ensures count { length frames.new ≡ length frames.old }
{
    if blanks.len() <= MOST_FRAMES
        && let Some(own) = copy(left, alloc, &frames.as_slice()[place])
    {
        return own;
    }
    frames.exchange(place, blanks.pop().unwrap().octets)
}

// A copy of a frame, in the memory of the one that left last, where that is enough, or of its own. None: no memory.
fn copy(left: &mut Vec<Left>, alloc: Global, frame: &[u8]) -> Option<Vec<u8>>
    requires short { length frame.now ≤ 4103 }
    ensures places { vec_capacity left.new ≡ vec_capacity left.old }
    ensures octets { IfSome result (λ own. own.items ≡ frame.now) }
    ensures few { IfSome result (λ own. vec_capacity own ≤ 4103) }
{
    if let Some(Left { octets }) = left.pop()
        && octets.capacity() >= frame.len()
    {
        return Some(with_octets(octets, frame));
    }
    match Vec::with_capacity(alloc, frame.len()) {
        Ok(octets) => Some(with_octets(octets, frame)),
        Err(AllocError) => None,
    }
}

// Memory that isn't for the longest frame serves again, where there is a place for it.
fn keep_short(left: &mut Vec<Left>, octets: Vec<u8>)
    ensures { vec_capacity left.new ≡ vec_capacity left.old }
{
    let mut octets = octets;
    if octets.capacity() <= LONGEST_FRAME && left.len() < left.capacity() {
        octets.clear();
        left.push_reserved(Left { octets });
    }
}

// A frame goes behind the others, in the memory that it is in.
fn lay(queue: &mut VecDeque<Laid>, octets: Vec<u8>)
    requires place { deque_len queue.old < deque_capacity queue.old }
    requires memory { vec_capacity octets ≤ max (vec_len octets) 4103 }
    ensures items { map (λ frame. frame.octets.items) queue.new.items
        ≡ map (λ frame. frame.octets.items) queue.old.items ++ octets.items ∷ [] }
    ensures len { deque_len queue.new ≡ deque_len queue.old + 1 }
    ensures capacity { deque_capacity queue.new ≡ deque_capacity queue.old }
{
    queue.push_back_reserved(Laid { octets });
}

// Whether there are places for the frames of a step.
fn has_room(queue: &VecDeque<Laid>) -> bool
    ensures { result ≡ nat_le (deque_len queue.now + 9) (deque_capacity queue.now) }
{
    queue.capacity() - queue.len() >= MOST_FRAMES
}

// Makes places for as many frames again as there are, and for those of a step. Err: no memory.
fn grow(queue: &mut VecDeque<Laid>) -> Result<(), AllocError>
    ensures items { queue.new.items ≡ queue.old.items }
    ensures len { deque_len queue.new ≡ deque_len queue.old }
    ensures room { OnOk result (deque_len queue.new + 9 ≤ deque_capacity queue.new) }
    ensures more { deque_capacity queue.old ≤ deque_capacity queue.new }
    ensures few { deque_capacity queue.new ≤ max (deque_capacity queue.old) (2 * deque_len queue.old + 9) }
{
    queue.reserve_exact(queue.len().max(MOST_FRAMES))
}

// The frame at this place is taken out, with no move of others where it is the first.
fn take_off(queue: &mut VecDeque<Laid>, place: usize) -> Option<Laid>
    ensures frame { result ≡ slice_get queue.old.items place }
    ensures items { queue.new.items ≡ remove queue.old.items place }
    ensures len { deque_len queue.new ≤ deque_len queue.old }
    ensures capacity { deque_capacity queue.new ≡ deque_capacity queue.old }
{
    if place == 0 {
        return queue.pop_front();
    }
    queue.remove(place)
}
