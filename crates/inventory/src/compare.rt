ghost use Rattle.std.specs.Prelude.{◌≡◌, ◌+◌, ◌<◌, ◌≤◌, ◌++◌, ℕ, Bool, true, false, [], length, option_to_list, option_map, IfOk, IsTrue, OnOk};
ghost use Rattle.found_set.specs.Marks.{AreMarked};
ghost use Rattle.probe_lang.specs.Presents.{are_by_place};
ghost use Rattle.inventory.specs.Differences.{IsMarkedBy, boards_at, keys_left};
ghost use Rattle.inventory.specs.Moments.{entries_of, hits_in, plus_keys};
ghost use Rattle.inventory.specs.Moments.{AreApart, AreBothFound, AreSameBut, HasBoth, IsApart, IsApartBy, IsLone, PushesLeft};

use crate::apart::{Apart, Otherwise, apart_by};
use crate::boards::{list_boards, push_both, push_left};
use crate::lone::{lone_swap, push_key};
use crate::{BoardKeys, Difference, Moment};
use bmc_base::{Ledger, OutOfMemory, Place};
use cfg_json::{Config, Shelf};
use found_set::{Marks, mark_touched};
use probe_lang::Entry;
use std::alloc::Global;

// The keys of the boards that go and that come so far, and the boards of one configuration at both moments, in
// memory that serves for each in turn.
#[derive(Drop)]
struct Comparison {
    difference: Difference,
    before: Vec<Option<Place>>,
    after: Vec<Option<Place>>,
}

impl Comparison {
    // Returns a comparison of nothing yet.
    fn new(alloc: Global) -> Comparison
        ensures gone { result.difference.gone_boards ≡ [] }
        ensures come { result.difference.new_boards ≡ [] }
    {
        Comparison {
            difference: Difference {
                gone_boards: BoardKeys::new(alloc),
                new_boards: BoardKeys::new(alloc),
            },
            before: Vec::new(alloc),
            after: Vec::new(alloc),
        }
    }

    // Returns what was found.
    fn into_difference(self) -> Difference
        ensures gone { result.gone_boards ≡ self.difference.gone_boards }
        ensures new { result.new_boards ≡ self.difference.new_boards }
    {
        self.difference
    }
}

// Marks the configurations whose boards may differ where this FRU comes or goes, and each other one is seen as before or not.
// What is not marked is found at both moments or at neither, and no FRU that comes, goes, or is seen otherwise has a hit of it.
fn configs_apart(
    changed: &Entry,
    apart: &Apart<'_>,
    before: &Moment<'_>,
    after: &Moment<'_>,
) -> Marks
    requires one { IsApartBy changed.now before.now.entries after.now.entries }
    requires apart { IsApart apart.now before.now after.now }
    ensures { AreSameBut result before.now after.now }
{
    let mut marks = before.found_apart(after);
    mark_touched(&mut marks, changed.hits.as_slice());
    match apart {
        Apart::Lone(_) => {}
        Apart::Unknown | Apart::Several(_) => before.mark_seen_otherwise(&mut marks, after),
    }
    marks
}

// Appends the keys of the boards of a configuration that go and of those that come, by the lists of all its boards.
fn push_lists(
    alloc: Global,
    comparison: &mut Comparison,
    before: &Moment<'_>,
    after: &Moment<'_>,
    number: u32,
    match_one: bool,
) -> Result<(), OutOfMemory>
    requires number { number < 256 }
    ensures gone { OnOk result (PushesLeft number match_one before.now after.now
        comparison.old.difference.gone_boards comparison.new.difference.gone_boards) }
    ensures come { OnOk result (PushesLeft number match_one after.now before.now
        comparison.old.difference.new_boards comparison.new.difference.new_boards) }
{
    list_boards(&mut comparison.before, before, number, match_one)?;
    list_boards(&mut comparison.after, after, number, match_one)?;
    push_both(
        alloc,
        &mut comparison.difference.gone_boards,
        &mut comparison.difference.new_boards,
        number,
        &comparison.before,
        &comparison.after,
    )?;
    Ok(())
}

// Appends the key of the board of a configuration that goes and of the one that comes, where this FRU alone comes or goes, each
// other is seen as before, and the configuration is found at both moments.
fn push_swap(
    alloc: Global,
    comparison: &mut Comparison,
    entry: &Entry,
    before: &Moment<'_>,
    after: &Moment<'_>,
    number: u32,
    match_one: bool,
) -> Result<(), OutOfMemory>
    requires number { number < 256 }
    requires lone { IsLone entry.now before.now after.now }
    requires found { AreBothFound number before.now after.now }
    ensures gone { OnOk result (PushesLeft number match_one before.now after.now
        comparison.old.difference.gone_boards comparison.new.difference.gone_boards) }
    ensures come { OnOk result (PushesLeft number match_one after.now before.now
        comparison.old.difference.new_boards comparison.new.difference.new_boards) }
{
    let swap = lone_swap(entry, before, after, number, match_one);
    push_key(alloc, &mut comparison.difference.gone_boards, swap.gone)?;
    push_key(alloc, &mut comparison.difference.new_boards, swap.new)?;
    Ok(())
}

// Lists the boards of a configuration that is found at a moment, at the places of those of these FRUs that it has a hit of.
fn list_among(
    places: &mut Vec<Option<Place>>,
    moment: &Moment<'_>,
    entries: &[&Entry],
    number: u32,
) -> Result<(), OutOfMemory>
    ensures hits { (reach : ℕ → Bool) → AreMarked moment.now.facts.reach reach
        → OnOk result (places.new.items ≡ hits_in reach (entries_of entries.now) number) }
    ensures order { IsTrue (are_by_place moment.now.entries) }
{
    places.clear();
    moment.push_hits_among(places, entries, number)
}

// Whether a configuration is found at both moments and has a hit at both.
fn has_both(before: &Moment<'_>, after: &Moment<'_>, number: u32) -> bool
    ensures { result ≡ true → HasBoth number before.now after.now }
{
    before.found(number)
        && after.found(number)
        && before.first_hit(number).is_some()
        && after.first_hit(number).is_some()
}

// Appends the keys of the boards of a configuration that go and of those that come, where it has a board at each of its hits at
// both moments. Those of the FRUs that are seen at both moments stay.
fn push_among(
    alloc: Global,
    comparison: &mut Comparison,
    seen: &Otherwise<'_>,
    before: &Moment<'_>,
    after: &Moment<'_>,
    number: u32,
) -> Result<(), OutOfMemory>
    requires number { number < 256 }
    requires apart { AreApart seen.now before.now after.now }
    requires both { HasBoth number before.now after.now }
    ensures gone { OnOk result (PushesLeft number false before.now after.now
        comparison.old.difference.gone_boards comparison.new.difference.gone_boards) }
    ensures come { OnOk result (PushesLeft number false after.now before.now
        comparison.old.difference.new_boards comparison.new.difference.new_boards) }
{
    list_among(&mut comparison.before, before, &seen.before, number)?;
    list_among(&mut comparison.after, after, &seen.after, number)?;
    push_both(
        alloc,
        &mut comparison.difference.gone_boards,
        &mut comparison.difference.new_boards,
        number,
        &comparison.before,
        &comparison.after,
    )?;
    Ok(())
}

// Appends the keys of the boards of a configuration that go and of those that come.
fn push_config(
    alloc: Global,
    comparison: &mut Comparison,
    apart: &Apart<'_>,
    before: &Moment<'_>,
    after: &Moment<'_>,
    number: u32,
    match_one: bool,
) -> Result<(), OutOfMemory>
    requires number { number < 256 }
    requires apart { IsApart apart.now before.now after.now }
    ensures gone { OnOk result (PushesLeft number match_one before.now after.now
        comparison.old.difference.gone_boards comparison.new.difference.gone_boards) }
    ensures come { OnOk result (PushesLeft number match_one after.now before.now
        comparison.old.difference.new_boards comparison.new.difference.new_boards) }
{
    match apart {
        Apart::Lone(entry) if before.found(number) && after.found(number) => {
            push_swap(alloc, comparison, entry, before, after, number, match_one)
        }
        Apart::Several(seen) if !match_one && has_both(before, after, number) => {
            push_among(alloc, comparison, seen, before, after, number)
        }
        _ => push_lists(alloc, comparison, before, after, number, match_one),
    }
}

// Appends the keys of the boards of each configuration that is marked that go, and of those that come. Each other one has the
// same boards at both moments.
fn push_shelf<L: Ledger>(
    alloc: Global,
    comparison: &mut Comparison,
    shelf: &Shelf<L>,
    apart: &Apart<'_>,
    marks: &Marks,
    before: &Moment<'_>,
    after: &Moment<'_>,
) -> Result<(), OutOfMemory>
    requires few { length shelf.now ≤ 256 }
    requires marks { AreSameBut marks.now before.now after.now }
    requires apart { IsApart apart.now before.now after.now }
    ensures gone { (found reach found_after reach_after : ℕ → Bool) → IsMarkedBy before.now.facts found reach
        → IsMarkedBy after.now.facts found_after reach_after
        → OnOk result (comparison.new.difference.gone_boards ≡ comparison.old.difference.gone_boards ++ keys_left (length shelf.now)
        (boards_at shelf.now found reach before.now) (boards_at shelf.now found_after reach_after after.now)) }
    ensures come { (found reach found_after reach_after : ℕ → Bool) → IsMarkedBy before.now.facts found reach
        → IsMarkedBy after.now.facts found_after reach_after
        → OnOk result (comparison.new.difference.new_boards ≡ comparison.old.difference.new_boards ++ keys_left (length shelf.now)
        (boards_at shelf.now found_after reach_after after.now) (boards_at shelf.now found reach before.now)) }
{
    for number in 0..shelf.len() {
        if !marks.has(number) {
            continue;
        }
        let Some(config) = shelf.at(number) else {
            unreachable!()
        };
        let match_one = config.probe().match_one();
        push_config(
            alloc,
            comparison,
            apart,
            before,
            after,
            number as u32,
            match_one,
        )?;
    }
    Ok(())
}

// Appends the keys of the boards of one more configuration, if there is one. It had none before.
fn push_plus<L: Ledger>(
    alloc: Global,
    comparison: &mut Comparison,
    number: u32,
    plus: Option<&Config<L>>,
    after: &Moment<'_>,
) -> Result<(), OutOfMemory>
    requires { number + length (option_to_list (option_map (λ config. config.now) plus)) ≤ 256 }
    ensures gone { comparison.new.difference.gone_boards ≡ comparison.old.difference.gone_boards }
    ensures come { (found reach : ℕ → Bool) → IsMarkedBy after.now.facts found reach
        → OnOk result (comparison.new.difference.new_boards ≡ comparison.old.difference.new_boards
        ++ plus_keys found reach after.now number (option_map (λ config. config.now) plus.entry)) }
{
    if let Some(config) = plus {
        let match_one = config.probe().match_one();
        list_boards(&mut comparison.after, after, number, match_one)?;
        push_left(
            alloc,
            &mut comparison.difference.new_boards,
            number,
            &comparison.after,
            &[],
        )?;
    }
    Ok(())
}

/// Finds the boards that go and those that come from one moment to the next. The shelf has the configurations
/// before; one more may be accepted now, with their count for its number.
pub fn difference<L: Ledger>(
    alloc: Global,
    shelf: &Shelf<L>,
    plus: Option<&Config<L>>,
    before: &Moment<'_>,
    after: &Moment<'_>,
) -> Result<Difference, OutOfMemory>
    requires { length (shelf.now ++ option_to_list (option_map (λ config. config.now) plus)) ≤ 256 }
    ensures { let all = shelf.now ++ option_to_list (option_map (λ config. config.now) plus.entry) in
        (found reach found_after reach_after : ℕ → Bool) → IsMarkedBy before.now.facts found reach
        → IsMarkedBy after.now.facts found_after reach_after → IfOk result (λ d.
        (d.gone_boards ≡ keys_left (length shelf.now) (boards_at shelf.now found reach before.now) (boards_at all found_after reach_after after.now))
        × (d.new_boards ≡ keys_left (length all) (boards_at all found_after reach_after after.now) (boards_at shelf.now found reach before.now))) }
{
    let mut comparison = Comparison::new(alloc);
    let marks = Marks::all();
    push_shelf(
        alloc,
        &mut comparison,
        shelf,
        &Apart::Unknown,
        &marks,
        before,
        after,
    )?;
    push_plus(alloc, &mut comparison, shelf.len() as u32, plus, after)?;
    Ok(comparison.into_difference())
}

/// Finds the boards that go and those that come where one FRU alone comes or goes, and with it perhaps what is
/// found and reachable. It is faster than [`difference`]: a configuration that is found as before is looked at only if the
/// FRU has a hit of it, or another FRU that is seen otherwise has. Where each other FRU is seen as before, no list of its boards
/// is made; else the boards that stay are mostly not listed.
pub fn difference_by<L: Ledger>(
    alloc: Global,
    shelf: &Shelf<L>,
    changed: &Entry,
    before: &Moment<'_>,
    after: &Moment<'_>,
) -> Result<Difference, OutOfMemory>
    requires { IsApartBy changed.now before.now.entries after.now.entries }
    ensures { (found reach found_after reach_after : ℕ → Bool) → IsMarkedBy before.now.facts found reach
        → IsMarkedBy after.now.facts found_after reach_after → IfOk result (λ d.
        (d.gone_boards ≡ keys_left (length shelf.now) (boards_at shelf.now found reach before.now) (boards_at shelf.now found_after reach_after after.now))
        × (d.new_boards ≡ keys_left (length shelf.now) (boards_at shelf.now found_after reach_after after.now) (boards_at shelf.now found reach before.now))) }
{
    let mut comparison = Comparison::new(alloc);
    // a shelf has at most 256 configurations
    let _count = shelf.len();
    let apart = apart_by(alloc, changed, before, after)?;
    let marks = configs_apart(changed, &apart, before, after);
    push_shelf(alloc, &mut comparison, shelf, &apart, &marks, before, after)?;
    Ok(comparison.into_difference())
}
