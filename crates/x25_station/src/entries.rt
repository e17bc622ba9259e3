ghost use Rattle.std.specs.Prelude.{◌≡◌, ◌<◌, ◌≤◌, ◌++◌, [], ◌∷◌, length, map, nat_le, vec_capacity, IfOk};
ghost use Rattle.x25_station.specs.code.Entries.{IsWhole};
ghost use Rattle.x25_station.specs.code.PlainEntry.{plain_entry};

use crate::entry::Entry;
use crate::lent::Lent;
use crate::step::MOST_ENTRIES;
use std::alloc::{AllocError, Global};
use std::marker::Model;

/// The entries of a step, in order, at most three, and what they say, in memory that is made with them. Contracts see
/// them with that, as `items`.
#[derive(Drop)]
pub struct Entries {
    pub(crate) list: Vec<Entry>,
    pub(crate) lent: Lent,
    ghost few: { length (map (plain_entry lent) list.items) ≤ 3 },
    ghost places: { vec_capacity list ≡ 3 },
}

impl Model for Entries {
    ghost use Rattle.std.specs.Prelude.{map};
    ghost use Rattle.x25_station.specs.code.Entries.{ShownEntries};
    ghost use Rattle.x25_station.specs.code.PlainEntry.{plain_entry};

    ghost Value = { ShownEntries };

    ghost view = { λ e. record { lent = e.lent; items = map (plain_entry e.lent) e.list.items; few = e.few } };

    ghost invariant = { λ _. Unit {0} };
}

impl Entries {
    /// No entry, and memory for all that three may say. Err: no memory.
    pub fn new(alloc: Global) -> Result<Entries, AllocError>
        ensures { IfOk result (λ entries. entries.items ≡ []) }
    {
        Ok(Entries {
            list: Vec::with_capacity(alloc, MOST_ENTRIES)?,
            lent: Lent::new(alloc)?,
        })
    }

    /// How many entries there are.
    pub fn len(&self) -> usize
        ensures value { result ≡ length self.now.items }
        ensures few { result ≤ 3 }
    {
        self.list.len()
    }

    /// Whether there is none.
    pub fn is_empty(&self) -> bool
        ensures { result ≡ nat_le (length self.now.items) 0 }
    {
        self.list.is_empty()
    }

    /// Lends the entries.
    pub fn as_slice(&self) -> &[Entry]
        ensures { map (plain_entry self.now.lent) result.now ≡ self.now.items }
    {
        self.list.as_slice()
    }

    /// Lends what they say.
    pub fn lent(&self) -> &Lent
        ensures { result.now ≡ self.now.lent }
    {
        &self.lent
    }

    /// Puts an entry behind the others that says all itself.
    pub(crate) fn push(&mut self, entry: Entry)
        requires place { length self.old.items < 3 }
        requires whole { IsWhole entry }
        ensures { self.new.items ≡ self.old.items ++ plain_entry self.old.lent entry ∷ [] }
    {
        self.list.push_reserved(entry);
    }
}
