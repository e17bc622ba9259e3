ghost use Rattle.std.specs.Prelude.{◌≡◌, ◌≤◌, ◌++◌, [], length, slice_get, OnErr, OnOk};
ghost use Rattle.std.specs.Option.{option_map};
ghost use Rattle.x25_c.specs.code.EarlierEntries.{entries_in, plain_pair};

use std::alloc::{AllocError, Global};
use std::marker::Model;
use std::mem::replace;
use x25_station::{Entries, Entry, Lent};

/// The most entries that are kept, so that those of one step more are counted too: 2^64 - 4.
const MOST: usize = 18_446_744_073_709_551_612;

/// The entries of steps, in the memory of each. Contracts see them one behind another.
#[derive(Drop)]
pub struct EarlierEntries {
    steps: Vec<Entries>,
    count: usize,
}

impl Model for EarlierEntries {
    ghost use Rattle.std.specs.Prelude.{◌≡◌, ◌≤◌, List, length};
    ghost use Rattle.x25_station.specs.Entry.{StationEntry};
    ghost use Rattle.x25_c.specs.code.EarlierEntries.{entries_in};

    ghost Value = { List StationEntry };

    ghost view = { λ e. entries_in e.steps.items };

    ghost invariant = { λ e. (e.count ≡ length (entries_in e.steps.items)) × (e.count ≤ 18446744073709551612) };
}

impl EarlierEntries {
    /// None.
    pub(crate) fn new(alloc: Global) -> EarlierEntries
        ensures { result ≡ [] }
    {
        EarlierEntries {
            steps: Vec::new(alloc),
            count: 0,
        }
    }

    /// Takes all of them out.
    pub(crate) fn clear(&mut self)
        ensures { self.new ≡ [] }
    {
        self.steps.clear();
        self.count = 0;
    }

    pub(crate) fn len(&self) -> usize
        ensures value { result ≡ length self.now }
        ensures most { result ≤ 18446744073709551612 }
    {
        self.count
    }

    /// Lends the entry at this place, counted from 0, and what its step lends.
    pub(crate) fn get(&self, i: usize) -> Option<(&Entry, &Lent)>
        ensures { option_map plain_pair result ≡ slice_get self.now i }
    {
        entry_in(self.steps.as_slice(), i)
    }

    /// Takes the entries of a step behind the others. New memory takes the place of theirs, where there are some. Err:
    /// no memory, and none is taken.
    pub(crate) fn take(&mut self, entries: &mut Entries) -> Result<(), AllocError>
        ensures all { OnOk result (self.new ≡ self.old ++ entries.old.items) }
        ensures none { OnOk result (entries.new.items ≡ []) }
        ensures err { OnErr result (self.new ≡ self.old) }
        ensures stay { OnErr result (entries.new.items ≡ entries.old.items) }
    {
        if entries.is_empty() {
            return Ok(());
        }
        let count = self.count.saturating_add(entries.len());
        if count > MOST {
            return Err(AllocError);
        }
        self.steps.reserve(1)?;
        let fresh = Entries::new(*self.steps.allocator())?;
        self.steps.push_reserved(replace(entries, fresh));
        self.count = count;
        Ok(())
    }
}

/// The entry of a step at this place, counted from 0, and what the step lends.
pub(crate) fn entry_at(entries: &Entries, i: usize) -> Option<(&Entry, &Lent)>
    ensures { option_map plain_pair result ≡ slice_get entries.now.items i }
{
    match entries.as_slice().get(i) {
        Some(entry) => Some((entry, entries.lent())),
        None => None,
    }
}

fn entry_in(steps: &[Entries], i: usize) -> Option<(&Entry, &Lent)>
    ensures { option_map plain_pair result ≡ slice_get (entries_in steps.now) i }
{
    let mut left = i;
    for entries in steps {
        if left < entries.len() {
            return entry_at(entries, left);
        }
        left -= entries.len();
    }
    None
}
