ghost use Rattle.std.specs.Prelude.{◌≡◌, ◌∷◌, ◌++◌, [], ℕ, Bool, true, ◌&&◌, map, slice_get, OnOk};
ghost use Rattle.found_set.specs.Marks.{AreMarked};
ghost use Rattle.probe_lang.specs.Sights.{entry_sight, has_config};
ghost use Rattle.inventory.specs.Boards.{hit_places};
ghost use Rattle.probe_lang.specs.Presents.{unboxed};
ghost use Rattle.inventory.specs.Moments.{entries_of, hits_in, is_otherwise, otherwise_of, AreSeenAlike, MarksSeenOtherwise};

use bmc_base::{OutOfMemory, Place};
use found_set::{Facts, Marks, mark_touched};
use probe_lang::Entry;

/// Whether a FRU is on a reachable bus and a pattern of this configuration matches it.
pub fn is_hit(entry: &Entry, facts: &Facts, number: u32) -> bool
    ensures { (reach : ℕ → Bool) → AreMarked facts.now.reach reach → result ≡ (reach entry.now.place.bus && has_config entry.now.hits number) }
{
    facts.reach(entry.place.bus()) && entry.hits.has_config(number)
}

// Appends the place of a FRU, if it is on a reachable bus and a pattern of this configuration matches it.
#[inline(always)]
#[tactic(auto, using(crate::proofs::MomentsLemmas::hit_one))]
fn push_hit(
    places: &mut Vec<Option<Place>>,
    entry: &Entry,
    facts: &Facts,
    number: u32,
) -> Result<(), OutOfMemory>
    ensures { (reach : ℕ → Bool) → AreMarked facts.now.reach reach
        → OnOk result (places.new.items ≡ places.old.items ++ hits_in reach (entry.now ∷ []) number) }
{
    if is_hit(entry, facts, number) {
        places.push(Some(entry.place))?;
    }
    Ok(())
}

/// Appends the places of the FRUs on reachable buses that a pattern of this configuration matches.
pub fn push_hits(
    places: &mut Vec<Option<Place>>,
    entries: &[Box<Entry>],
    facts: &Facts,
    number: u32,
) -> Result<(), OutOfMemory>
    ensures { (reach : ℕ → Bool) → AreMarked facts.now.reach reach
        → OnOk result (places.new.items ≡ places.old.items ++ hits_in reach (unboxed entries.now) number) }
{
    for entry in entries {
        push_hit(places, entry, facts, number)?;
    }
    Ok(())
}

/// Appends the places of those of these FRUs that are on reachable buses and that a pattern of this configuration matches.
pub fn push_hits_among(
    places: &mut Vec<Option<Place>>,
    entries: &[&Entry],
    facts: &Facts,
    number: u32,
) -> Result<(), OutOfMemory>
    ensures { (reach : ℕ → Bool) → AreMarked facts.now.reach reach
        → OnOk result (places.new.items ≡ places.old.items ++ hits_in reach (entries_of entries.now) number) }
{
    for entry in entries {
        push_hit(places, entry, facts, number)?;
    }
    Ok(())
}

// Whether a FRU stands at this place, or is on a bus that is reachable in one of both cases alone.
fn is_otherwise(entry: &Entry, changed: Place, facts: &Facts, facts_after: &Facts) -> bool
    ensures { (reach reach_after : ℕ → Bool) → AreMarked facts.now.reach reach → AreMarked facts_after.now.reach reach_after
        → result ≡ is_otherwise reach reach_after changed entry.now.place }
{
    let bus = entry.place.bus();
    entry.place == changed || facts.reach(bus) != facts_after.reach(bus)
}

// Appends a FRU, if it stands at this place or is on a bus that is reachable in one of both cases alone.
fn push_if_otherwise<'e>(
    list: &mut Vec<&'e Entry>,
    entry: &'e Entry,
    changed: Place,
    facts: &Facts,
    facts_after: &Facts,
) -> Result<(), OutOfMemory>
    ensures { (reach reach_after : ℕ → Bool) → AreMarked facts.now.reach reach → AreMarked facts_after.now.reach reach_after
        → OnOk result (entries_of list.new.items ≡ entries_of list.old.items ++ otherwise_of reach reach_after changed (entry.now ∷ [])) }
{
    if is_otherwise(entry, changed, facts, facts_after) {
        list.push(entry)?;
    }
    Ok(())
}

/// Appends the FRUs that stand at this place or are on a bus that is reachable in one of both cases alone.
pub fn push_otherwise<'e>(
    list: &mut Vec<&'e Entry>,
    entries: &'e [Box<Entry>],
    changed: Place,
    facts: &Facts,
    facts_after: &Facts,
) -> Result<(), OutOfMemory>
    ensures { (reach reach_after : ℕ → Bool) → AreMarked facts.now.reach reach → AreMarked facts_after.now.reach reach_after
        → OnOk result (entries_of list.new.items ≡ entries_of list.old.items ++ otherwise_of reach reach_after changed (unboxed entries.now)) }
{
    for entry in entries {
        push_if_otherwise(list, entry, changed, facts, facts_after)?;
    }
    Ok(())
}

/// Returns the place of the first FRU that [`is_hit`] passes, if there is one.
pub fn first_hit(entries: &[Box<Entry>], facts: &Facts, number: u32) -> Option<Place>
    ensures { (reach : ℕ → Bool) → AreMarked facts.now.reach reach
        → result ≡ slice_get (hit_places reach (map entry_sight (unboxed entries.now)) number) 0 }
{
    for entry in entries {
        if is_hit(entry, facts, number) {
            return Some(entry.place);
        }
    }
    None
}

// Tells the proof that FRUs are seen alike where the same buses are reachable, each of which is below 256. It does nothing: a
// loop without effects is left out.
fn tell_alike(entries: &[Box<Entry>], facts: &Facts, facts_after: &Facts)
    requires { facts.now.reach ≡ facts_after.now.reach }
    ensures { (reach reach_after : ℕ → Bool) → AreMarked facts.now.reach reach → AreMarked facts_after.now.reach reach_after
        → AreSeenAlike reach reach_after (unboxed entries.now) }
{
    for entry in entries {
        let _bus = entry.place.bus();
    }
}

// Marks each configuration of which a FRU has a hit, if its bus is reachable in one of both cases alone.
fn mark_if_seen_otherwise(marks: &mut Marks, entry: &Entry, facts: &Facts, facts_after: &Facts)
    ensures { MarksSeenOtherwise marks.old marks.new facts.now facts_after.now (entry.now ∷ []) }
{
    let bus = entry.place.bus();
    if facts.reach(bus) != facts_after.reach(bus) {
        mark_touched(marks, entry.hits.as_slice());
    }
}

/// Marks each configuration of which a FRU has a hit that is on a bus which is reachable in one of both cases alone.
pub fn mark_seen_otherwise(
    marks: &mut Marks,
    entries: &[Box<Entry>],
    facts: &Facts,
    facts_after: &Facts,
)
    ensures { MarksSeenOtherwise marks.old marks.new facts.now facts_after.now (unboxed entries.now) }
{
    for entry in entries {
        mark_if_seen_otherwise(marks, entry, facts, facts_after);
    }
}

/// Whether each FRU is on a bus that is reachable in both cases or in neither. It looks at no FRU where the same buses are
/// reachable.
pub fn are_seen_alike(entries: &[Box<Entry>], facts: &Facts, facts_after: &Facts) -> bool
    ensures { (reach reach_after : ℕ → Bool) → AreMarked facts.now.reach reach → AreMarked facts_after.now.reach reach_after → result ≡ true
        → AreSeenAlike reach reach_after (unboxed entries.now) }
{
    if facts.reach_alike(facts_after) {
        tell_alike(entries, facts, facts_after);
        return true;
    }
    for entry in entries {
        let bus = entry.place.bus();
        if facts.reach(bus) != facts_after.reach(bus) {
            return false;
        }
    }
    true
}
