ghost use Rattle.std.specs.Prelude.{◌≡◌, ◌++◌, ◌≤◌, ℕ, Bool, true, false, not, ◌&&◌, IsTrue, IfOk, OnOk, length, map, slice_get, find, option_map};
ghost use Rattle.std.proofs.Math.Bool.{beq};
ghost use Rattle.found_set.specs.Marks.{AreMarked, is_marked};
ghost use Rattle.probe_lang.specs.Presents.{unboxed, is_entry_at, are_by_place, holds_place, with_entry, without_entry};
ghost use Rattle.probe_lang.specs.Sights.{entry_sight, has_config};
ghost use Rattle.inventory.specs.Boards.{hit_places};
ghost use Rattle.inventory.specs.Items.{entry_fields};
ghost use Rattle.inventory.specs.Moments.{entries_of, hits_in, AreOtherwise, AreSeenAlike, MarksSeenOtherwise};

use crate::hits::{
    are_seen_alike, first_hit, is_hit, mark_seen_otherwise, push_hits, push_hits_among,
    push_otherwise,
};
use bmc_base::{OutOfMemory, Place};
use found_set::{Facts, Marks};
use fru_record::FruRecord;
use match_rows::count_before;
use probe_lang::Entry;
use std::alloc::Global;
use std::marker::Model;
use std::slice;

/// One moment: what is found and reachable then, and the FRUs that are present, by place, in three parts.
#[derive(Drop)]
pub struct Moment<'a> {
    facts: Facts,
    before: &'a [Box<Entry>],
    plus: &'a [Box<Entry>],
    behind: &'a [Box<Entry>],
}

impl<'a> Model for Moment<'a> {
    ghost use Rattle.std.specs.Prelude.{◌++◌, IsTrue};
    ghost use Rattle.probe_lang.specs.Presents.{unboxed, are_by_place};
    ghost use Rattle.inventory.specs.Differences.{Moment};

    ghost Value = { Moment };

    ghost view = { λ m. record { facts = m.facts; entries = unboxed m.before.now ++ unboxed m.plus.now ++ unboxed m.behind.now } };

    ghost invariant = { λ m. IsTrue (are_by_place (unboxed m.before.now ++ unboxed m.plus.now ++ unboxed m.behind.now)) };
}

// Borrows the entry at a place, if there is one, among entries that are by place. It looks first behind as many as the hint says.
fn entry_at(entries: &[Box<Entry>], place: Place, hint: usize) -> Option<&Entry>
    requires { IsTrue (are_by_place (unboxed entries.now)) }
    ensures { option_map (λ entry. entry.now) result ≡ find (is_entry_at place) (unboxed entries.now) }
{
    let stored = entries.get(count_before(entries, place, hint))?;
    let entry: &Entry = stored;
    if entry.place == place {
        Some(entry)
    } else {
        None
    }
}

impl<'a> Moment<'a> {
    /// Returns the moment of these entries, each of which comes before those behind it.
    pub fn of(facts: Facts, entries: &'a [Box<Entry>]) -> Moment<'a>
        requires { IsTrue (are_by_place (unboxed entries.now)) }
        ensures facts { result.facts ≡ facts }
        ensures entries { result.entries ≡ unboxed entries.now }
    {
        Moment {
            facts,
            before: &[],
            plus: &[],
            behind: entries,
        }
    }

    /// Returns the moment of these entries, each of which comes before those behind it, with one more at its
    /// place, which is free. It looks first behind as many entries as the hint says.
    pub fn with(
        facts: Facts,
        entries: &'a [Box<Entry>],
        plus: &'a Box<Entry>,
        hint: usize,
    ) -> Moment<'a>
        requires order { IsTrue (are_by_place (unboxed entries.now)) }
        requires free { holds_place (unboxed entries.now) plus.now.value.place ≡ false }
        ensures facts { result.facts ≡ facts }
        ensures entries { result.entries ≡ with_entry plus.now.value (unboxed entries.now) }
    {
        let at = count_before(entries, plus.place, hint);
        let (before, behind) = entries.split_at(at);
        Moment {
            facts,
            before,
            plus: slice::from_ref(plus),
            behind,
        }
    }

    /// Returns the moment of these entries, each of which comes before those behind it, without the one at this place. It looks
    /// first behind as many entries as the hint says.
    pub fn without(facts: Facts, entries: &'a [Box<Entry>], place: Place, hint: usize) -> Moment<'a>
        requires { IsTrue (are_by_place (unboxed entries.now)) }
        ensures facts { result.facts ≡ facts }
        ensures entries { result.entries ≡ without_entry place (unboxed entries.now) }
    {
        let at = count_before(entries, place, hint);
        if at < entries.len() && entries[at].place == place {
            return Moment {
                facts,
                before: &entries[..at],
                plus: &[],
                behind: &entries[at + 1..],
            };
        }
        Moment::of(facts, entries)
    }

    // Whether the configuration with this number is found.
    pub(crate) fn found(&self, number: u32) -> bool
        ensures value { result ≡ is_marked self.now.facts.found number }
        ensures order { IsTrue (are_by_place self.now.entries) }
    {
        self.facts.found(number)
    }

    // Returns a mark for each configuration, by its number, that is found at one of both moments alone.
    pub(crate) fn found_apart(&self, after: &Moment<'_>) -> Marks
        ensures { AreMarked result (λ config. not (beq (is_marked self.now.facts.found config) (is_marked after.now.facts.found config))) }
    {
        self.facts.found_apart(&after.facts)
    }

    // Marks each configuration of which a FRU has a hit that is on a bus which is reachable at one of both moments alone.
    pub(crate) fn mark_seen_otherwise(&self, marks: &mut Marks, after: &Moment<'_>)
        ensures { MarksSeenOtherwise marks.old marks.new self.now.facts after.now.facts self.now.entries }
    {
        mark_seen_otherwise(marks, self.before, &self.facts, &after.facts);
        mark_seen_otherwise(marks, self.plus, &self.facts, &after.facts);
        mark_seen_otherwise(marks, self.behind, &self.facts, &after.facts);
    }

    // Appends the places of the FRUs on reachable buses that a pattern of this configuration matches.
    pub(crate) fn push_hits(
        &self,
        places: &mut Vec<Option<Place>>,
        number: u32,
    ) -> Result<(), OutOfMemory>
        ensures { (reach : ℕ → Bool) → AreMarked self.now.facts.reach reach
            → OnOk result (places.new.items ≡ places.old.items ++ hits_in reach self.now.entries number) }
    {
        push_hits(places, self.before, &self.facts, number)?;
        push_hits(places, self.plus, &self.facts, number)?;
        push_hits(places, self.behind, &self.facts, number)?;
        Ok(())
    }

    // Appends the places of those of these FRUs that are on reachable buses and that a pattern of this configuration matches.
    pub(crate) fn push_hits_among(
        &self,
        places: &mut Vec<Option<Place>>,
        entries: &[&Entry],
        number: u32,
    ) -> Result<(), OutOfMemory>
        ensures hits { (reach : ℕ → Bool) → AreMarked self.now.facts.reach reach
            → OnOk result (places.new.items ≡ places.old.items ++ hits_in reach (entries_of entries.now) number) }
        ensures order { IsTrue (are_by_place self.now.entries) }
    {
        push_hits_among(places, entries, &self.facts, number)
    }

    // Lists the FRUs that stand at this place or are on a bus that is reachable at one of both moments alone.
    pub(crate) fn list_otherwise(
        &self,
        alloc: Global,
        changed: Place,
        other: &Moment<'_>,
    ) -> Result<Vec<&'a Entry>, OutOfMemory>
        ensures { IfOk result (λ list. AreOtherwise list.items self.now other.now changed) }
    {
        let (here, there) = (&self.facts, &other.facts);
        let mut list = Vec::new(alloc);
        push_otherwise(&mut list, self.before, changed, here, there)?;
        push_otherwise(&mut list, self.plus, changed, here, there)?;
        push_otherwise(&mut list, self.behind, changed, here, there)?;
        Ok(list)
    }

    // Whether this FRU is on a bus that is reachable and a pattern of this configuration matches it.
    pub(crate) fn sees_hit(&self, entry: &Entry, number: u32) -> bool
        ensures value { (reach : ℕ → Bool) → AreMarked self.now.facts.reach reach
            → result ≡ (reach entry.now.place.bus && has_config entry.now.hits number) }
        ensures order { IsTrue (are_by_place self.now.entries) }
    {
        is_hit(entry, &self.facts, number)
    }

    // Returns the first of the places that [`Moment::push_hits`] appends, if there is one.
    pub(crate) fn first_hit(&self, number: u32) -> Option<Place>
        ensures { (reach : ℕ → Bool) → AreMarked self.now.facts.reach reach
            → result ≡ slice_get (hit_places reach (map entry_sight self.now.entries) number) 0 }
    {
        let before = first_hit(self.before, &self.facts, number);
        if before.is_some() {
            return before;
        }
        let plus = first_hit(self.plus, &self.facts, number);
        if plus.is_some() {
            return plus;
        }
        first_hit(self.behind, &self.facts, number)
    }

    // Borrows the record of the FRU at a place, if there is one. Mostly that is the one that comes, which stands behind all that come
    // before it.
    pub(crate) fn fru(&self, place: Place) -> Option<&FruRecord>
        ensures { option_map (λ fru. fru.now) result ≡ entry_fields self.now.entries place }
    {
        let before = entry_at(self.before, place, self.before.len());
        if let Some(entry) = before {
            return Some(&entry.fru);
        }
        let plus = entry_at(self.plus, place, 0);
        if let Some(entry) = plus {
            return Some(&entry.fru);
        }
        let entry = entry_at(self.behind, place, 0)?;
        Some(&entry.fru)
    }

    // Counts the FRUs.
    pub(crate) fn len(&self) -> usize
        ensures { result ≡ length self.now.entries }
    {
        self.before.len() + self.plus.len() + self.behind.len()
    }

    // Whether each FRU is on a bus that is reachable at both moments or at neither.
    pub(crate) fn is_seen_alike(&self, after: &Moment<'_>) -> bool
        ensures { (reach reach_after : ℕ → Bool) → AreMarked self.now.facts.reach reach → AreMarked after.now.facts.reach reach_after → result ≡ true
            → AreSeenAlike reach reach_after self.now.entries }
    {
        let before = are_seen_alike(self.before, &self.facts, &after.facts);
        if !before {
            return false;
        }
        let plus = are_seen_alike(self.plus, &self.facts, &after.facts);
        if !plus {
            return false;
        }
        are_seen_alike(self.behind, &self.facts, &after.facts)
    }
}
