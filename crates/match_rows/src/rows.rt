ghost use Rattle.std.specs.Prelude.{◌≡◌, ◌<◌, ◌≤◌, [], false, true, length, find, option_map, Some, IfOk, OnOk, IsTrue};
ghost use Rattle.std.specs.Option.{is_some};
ghost use Rattle.std.specs.Ordering.{is_lt};
ghost use Rattle.bmc_base.specs.Places.{place_cmp};
ghost use Rattle.probe_lang.specs.Presents.{unboxed, is_entry_at, holds_place, with_entry, without_entry, are_by_place};
ghost use Rattle.match_rows.specs.Rows.{count_before};

use bmc_base::{OutOfMemory, Place};
use probe_lang::Entry;
use std::alloc::Global;
use std::marker::Model;

/// The entries of the FRUs that are present, by place, and room for more of them. Each is in a box of its own, so
/// that little moves where one comes or goes.
#[derive(Drop)]
pub struct Rows {
    entries: Vec<Box<Entry>>,
}

impl Model for Rows {
    ghost use Rattle.std.specs.Prelude.{◌-◌, IsTrue, vec_len, vec_capacity};
    ghost use Rattle.probe_lang.specs.Presents.{unboxed, are_by_place};
    ghost use Rattle.match_rows.specs.Rows.{RowsView};

    ghost Value = { RowsView };

    ghost view = { λ r. record { entries = unboxed r.entries.items; spare = vec_capacity r.entries - vec_len r.entries } };

    ghost invariant = { λ r. IsTrue (are_by_place (unboxed r.entries.items)) };
}

// How many entries new rows have room for.
const ROOM: usize = 8;

impl Rows {
    /// Returns rows without entries, and with room for a few.
    pub fn new(alloc: Global) -> Result<Rows, OutOfMemory>
        ensures { IfOk result (λ rows. rows.entries ≡ []) }
    {
        let entries = Vec::with_capacity(alloc, ROOM)?;
        Ok(Rows { entries })
    }

    /// Makes room for one entry more. The entries stay, also for want of memory.
    pub fn reserve(&mut self, alloc: Global) -> Result<(), OutOfMemory>
        ensures entries { self.new.entries ≡ self.old.entries }
        ensures room { OnOk result (0 < self.new.spare) }
    {
        let _ = alloc;
        self.entries.reserve(1)?;
        Ok(())
    }

    /// Borrows the entries, by place.
    pub fn entries(&self) -> &[Box<Entry>]
        ensures value { unboxed result.now ≡ self.now.entries }
        ensures order { IsTrue (are_by_place self.now.entries) }
    {
        &self.entries
    }

    /// Borrows the entry at a place, if there is one.
    pub fn entry(&self, place: Place) -> Option<&Entry>
        ensures value { option_map (λ entry. entry.now) result ≡ find (is_entry_at place) self.now.entries }
        ensures held { is_some result ≡ holds_place self.now.entries place }
        ensures order { IsTrue (are_by_place self.now.entries) }
    {
        self.entry_near(place, 0)
    }

    /// As [`Rows::entry`], which looks first whether so many entries come before the place as the hint says.
    pub fn entry_near(&self, place: Place, hint: usize) -> Option<&Entry>
        ensures value { option_map (λ entry. entry.now) result ≡ find (is_entry_at place) self.now.entries }
        ensures held { is_some result ≡ holds_place self.now.entries place }
        ensures order { IsTrue (are_by_place self.now.entries) }
    {
        let entries = self.entries();
        let stored = entries.get(count_before(entries, place, hint))?;
        let entry: &Entry = stored;
        if entry.place == place {
            Some(entry)
        } else {
            None
        }
    }

    /// Puts an entry among the others, where there is room and its place is free. It takes no memory.
    pub fn plug(&mut self, entry: Box<Entry>)
        requires room { 0 < self.old.spare }
        requires free { holds_place self.old.entries entry.value.place ≡ false }
        ensures { self.new.entries ≡ with_entry entry.value self.old.entries }
    {
        self.plug_near(entry, 0);
    }

    /// As [`Rows::plug`], which looks first whether so many entries come before the place as the hint says.
    pub fn plug_near(&mut self, entry: Box<Entry>, hint: usize)
        requires room { 0 < self.old.spare }
        requires free { holds_place self.old.entries entry.value.place ≡ false }
        ensures { self.new.entries ≡ with_entry entry.value self.old.entries }
    {
        let position = count_before(self.entries(), entry.place, hint);
        match self.entries.insert(position, entry) {
            Ok(()) => {}
            Err(_) => unreachable!(),
        }
    }

    /// Takes out the entry at a place that is held, and returns it. It takes no memory.
    pub fn unplug(&mut self, place: Place) -> Box<Entry>
        requires held { holds_place self.old.entries place ≡ true }
        ensures entries { self.new.entries ≡ without_entry place self.old.entries }
        ensures entry { find (is_entry_at place) self.old.entries ≡ Some result.value }
    {
        self.unplug_near(place, 0)
    }

    /// As [`Rows::unplug`], which looks first whether so many entries come before the place as the hint says.
    pub fn unplug_near(&mut self, place: Place, hint: usize) -> Box<Entry>
        requires held { holds_place self.old.entries place ≡ true }
        ensures entries { self.new.entries ≡ without_entry place self.old.entries }
        ensures entry { find (is_entry_at place) self.old.entries ≡ Some result.value }
    {
        let position = count_before(self.entries(), place, hint);
        self.entries.remove(position)
    }
}

// Whether an entry comes before a place.
fn is_before(entry: &Entry, place: Place) -> bool
    ensures { result ≡ is_lt (place_cmp entry.now.place place) }
{
    entry.place < place
}

// Whether the last of some entries, which are by place, comes before a place, and so all of them do.
fn ends_before(entries: &[Box<Entry>], place: Place) -> bool
    requires { IsTrue (are_by_place (unboxed entries.now)) }
    ensures { result ≡ true → count_before place (unboxed entries.now) ≡ length entries.now }
{
    match entries.last() {
        Some(last) => is_before(last, place),
        None => true,
    }
}

// Whether the first of some entries comes before a place.
fn starts_before(entries: &[Box<Entry>], place: Place) -> bool
    ensures { result ≡ false → count_before place (unboxed entries.now) ≡ 0 }
{
    match entries.first() {
        Some(first) => is_before(first, place),
        None => false,
    }
}

// Whether it is seen at once that so many entries come before a place.
fn come_before(entries: &[Box<Entry>], place: Place, count: usize) -> bool
    requires { IsTrue (are_by_place (unboxed entries.now)) }
    ensures value { result ≡ true → count ≡ count_before place (unboxed entries.now) }
    ensures range { result ≡ true → count ≤ length entries.now }
{
    if count > entries.len() {
        return false;
    }
    let (front, back) = entries.split_at(count);
    if starts_before(back, place) {
        return false;
    }
    ends_before(front, place)
}

/// Counts the entries that come before a place, among entries that are by place. It searches only where they are not as many as
/// the hint says.
pub fn count_before(entries: &[Box<Entry>], place: Place, hint: usize) -> usize
    requires { IsTrue (are_by_place (unboxed entries.now)) }
    ensures value { result ≡ count_before place (unboxed entries.now) }
    ensures range { result ≤ length entries.now }
{
    if come_before(entries, place, hint) {
        return hint;
    }
    entries.partition_point(|entry| entry.place < place)
}
