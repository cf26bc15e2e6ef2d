ghost use Rattle.std.specs.Prelude.{◌≡◌, ◌<◌, [], false, true, length, find, option_map, Some, IfOk, OnOk, IsTrue};
ghost use Rattle.std.specs.Option.{is_some};
ghost use Rattle.probe_lang.specs.Presents.{unboxed, is_entry_at, holds_place, with_entry, without_entry, are_by_place};
ghost use Rattle.match_rows.specs.Rows.{count_before};
ghost use Rattle.fru_rows.specs.Idle.{is_idle, busy, idle};

use crate::Entries;
use bmc_base::{OutOfMemory, Place};
use match_rows::{Rows, count_before};
use probe_lang::Entry;
use std::alloc::Global;
use std::marker::Model;

/// The entries of the FRUs that are present, in two lists by place: those with hits or channels, and the others, with
/// which nothing changes that is found, reachable or a board. So what compares boards goes through the first list
/// alone, however many others there are.
#[derive(Drop)]
pub struct FruRows {
    busy: Rows,
    idle: Rows,
}

impl Model for FruRows {
    ghost use Rattle.match_rows.specs.Rows.{RowsView};
    ghost use Rattle.fru_rows.specs.Parts.{rows_of, AreSorted};

    ghost Value = { RowsView };

    ghost view = { λ r. rows_of r.busy r.idle };

    ghost invariant = { λ r. AreSorted r.busy.entries r.idle.entries };
}

/// Where a place is, or would be, among the entries: so many with hits or channels come before it, and so many of the others.
#[derive(Clone, Copy, Debug, PartialEq, Eq)]
pub struct Hint {
    /// How many with hits or channels come before it.
    pub busy: usize,
    /// How many others do.
    pub idle: usize,
}

/// Whether a FRU has neither hits nor channels.
pub fn is_idle(entry: &Entry) -> bool
    ensures { result ≡ is_idle entry.now }
{
    entry.hits.as_slice().is_empty() && entry.channels.as_slice().is_empty()
}

impl FruRows {
    /// Returns rows without entries, and with room for a few.
    pub fn new(alloc: Global) -> Result<FruRows, OutOfMemory>
        ensures { IfOk result (λ rows. rows.entries ≡ []) }
    {
        Ok(FruRows {
            busy: Rows::new(alloc)?,
            idle: Rows::new(alloc)?,
        })
    }

    /// Makes room for one entry more. The entries stay, also for want of memory.
    pub fn reserve(&mut self, alloc: Global) -> Result<(), OutOfMemory>
        ensures entries { self.new.entries ≡ self.old.entries }
        ensures room { OnOk result (0 < self.new.spare) }
    {
        self.busy.reserve(alloc)?;
        self.idle.reserve(alloc)
    }

    /// Counts the entries.
    pub fn len(&self) -> usize
        ensures { result ≡ length self.now.entries }
    {
        self.busy.entries().len() + self.idle.entries().len()
    }

    /// Borrows the entries with hits or channels, by place.
    pub fn busy(&self) -> &[Box<Entry>]
        ensures value { unboxed result.now ≡ busy self.now.entries }
        ensures order { IsTrue (are_by_place (unboxed result.now)) }
        ensures all { IsTrue (are_by_place self.now.entries) }
    {
        self.busy.entries()
    }

    /// Returns an iterator over all entries, by place.
    pub fn entries(&self) -> Entries<'_>
        ensures value { result ≡ self.now.entries }
        ensures order { IsTrue (are_by_place self.now.entries) }
    {
        Entries::of(self.busy.entries(), self.idle.entries())
    }

    /// Searches a place. What then asks for the entry there, or puts one there, need not search it again.
    pub fn hint(&self, place: Place) -> Hint
        ensures busy { result.busy ≡ count_before place (busy self.now.entries) }
        ensures idle { result.idle ≡ count_before place (idle self.now.entries) }
    {
        Hint {
            busy: count_before(self.busy.entries(), place, 0),
            idle: count_before(self.idle.entries(), place, 0),
        }
    }

    /// Borrows the entry at a place, if there is one. It looks first where the hint says.
    pub fn entry(&self, place: Place, hint: Hint) -> Option<&Entry>
        ensures value { option_map (λ entry. entry.now) result ≡ find (is_entry_at place) self.now.entries }
        ensures held { is_some result ≡ holds_place self.now.entries place }
        ensures order { IsTrue (are_by_place self.now.entries) }
    {
        let busy = self.busy.entry_near(place, hint.busy);
        if busy.is_some() {
            return busy;
        }
        self.idle.entry_near(place, hint.idle)
    }

    /// Puts an entry among the others, where there is room and its place is free. It looks first where the hint says. It takes no
    /// memory.
    pub fn plug(&mut self, entry: Box<Entry>, hint: Hint)
        requires room { 0 < self.old.spare }
        requires free { holds_place self.old.entries entry.value.place ≡ false }
        ensures { self.new.entries ≡ with_entry entry.value self.old.entries }
    {
        if is_idle(&entry) {
            self.idle.plug_near(entry, hint.idle);
        } else {
            self.busy.plug_near(entry, hint.busy);
        }
    }

    /// Takes out the entry at a place that is held, and returns it. It looks first where the hint says. It takes no memory.
    pub fn unplug(&mut self, place: Place, hint: Hint) -> Box<Entry>
        requires held { holds_place self.old.entries place ≡ true }
        ensures entries { self.new.entries ≡ without_entry place self.old.entries }
        ensures entry { find (is_entry_at place) self.old.entries ≡ Some result.value }
    {
        if self.busy.entry_near(place, hint.busy).is_some() {
            self.busy.unplug_near(place, hint.busy)
        } else {
            self.idle.unplug_near(place, hint.idle)
        }
    }
}
