ghost use Rattle.std.specs.Prelude.{◌≡◌, ◌++◌, ◌∷◌, ℕ, Bool, List, option_to_list, slice_get, OnOk};
ghost use Rattle.std.specs.Ordering.{is_lt};
ghost use Rattle.bmc_base.specs.Places.{Place, place_cmp};
ghost use Rattle.found_set.specs.Marks.{AreMarked};
ghost use Rattle.inventory.specs.Boards.{places_or_none};
ghost use Rattle.inventory.specs.Differences.{key_of};
ghost use Rattle.inventory.specs.Moments.{found_boards, left, AreAllSeenAlike, IsAmong, IsBeside, IsLone};

use crate::{BoardKey, BoardKeys, Moment};
use bmc_base::{OutOfMemory, Place};
use probe_lang::Entry;
use std::alloc::Global;

/// Of one configuration, the board that goes and the one that comes, where one FRU alone comes or goes.
#[derive(Clone, Copy, Debug, PartialEq, Eq)]
pub struct Swap {
    /// The board that goes, if one does.
    pub gone: Option<BoardKey>,
    /// The board that comes, if one does.
    pub new: Option<BoardKey>,
}

// Returns the key of a board.
fn key_of(config: u32, place: Option<Place>) -> BoardKey
    ensures { result ≡ key_of config place }
{
    BoardKey { config, place }
}

// Whether a place comes before another.
fn is_before(place: Place, other: Place) -> bool
    ensures { result ≡ is_lt (place_cmp place other) }
{
    place < other
}

/// Returns the change where a FRU with a hit comes at a place, and the first other hit is at this place, if
/// there is one.
pub(crate) fn swap_beside(number: u32, place: Place, first: Option<Place>, match_one: bool) -> Swap
    ensures gone { (front back : List Place) → IsBeside place front back → first ≡ slice_get (front ++ back) 0
        → option_to_list result.gone ≡ left number (places_or_none match_one (front ++ back)) (places_or_none match_one (front ++ place ∷ back)) }
    ensures new { (front back : List Place) → IsBeside place front back → first ≡ slice_get (front ++ back) 0
        → option_to_list result.new ≡ left number (places_or_none match_one (front ++ place ∷ back)) (places_or_none match_one (front ++ back)) }
{
    let new = Some(key_of(number, Some(place)));
    let Some(other) = first else {
        return Swap {
            gone: Some(key_of(number, None)),
            new,
        };
    };
    if !match_one {
        return Swap { gone: None, new };
    }
    if is_before(place, other) {
        return Swap {
            gone: Some(key_of(number, Some(other))),
            new,
        };
    }
    Swap {
        gone: None,
        new: None,
    }
}

// Returns the change from the moment with fewer FRUs to the other, which has this one more.
fn swap_among(
    entry: &Entry,
    fewer: &Moment<'_>,
    more: &Moment<'_>,
    number: u32,
    match_one: bool,
) -> Swap
    requires among { IsAmong entry.now fewer.now.entries more.now.entries }
    requires alike { AreAllSeenAlike fewer.now more.now }
    ensures gone { (reach reach_more : ℕ → Bool) → AreMarked fewer.now.facts.reach reach → AreMarked more.now.facts.reach reach_more → option_to_list
        result.gone ≡ left number (found_boards match_one reach fewer.now number) (found_boards match_one reach_more more.now number) }
    ensures new { (reach reach_more : ℕ → Bool) → AreMarked fewer.now.facts.reach reach → AreMarked more.now.facts.reach reach_more → option_to_list
        result.new ≡ left number (found_boards match_one reach_more more.now number) (found_boards match_one reach fewer.now number) }
{
    if !more.sees_hit(entry, number) {
        return Swap {
            gone: None,
            new: None,
        };
    }
    swap_beside(number, entry.place, fewer.first_hit(number), match_one)
}

/// Returns the change of the boards of a configuration that is found at both moments, where this FRU alone comes
/// or goes, and each other is seen as before.
pub fn lone_swap(
    entry: &Entry,
    before: &Moment<'_>,
    after: &Moment<'_>,
    number: u32,
    match_one: bool,
) -> Swap
    requires { IsLone entry.now before.now after.now }
    ensures gone { (reach reach_after : ℕ → Bool) → AreMarked before.now.facts.reach reach → AreMarked after.now.facts.reach reach_after → option_to_list
        result.gone ≡ left number (found_boards match_one reach before.now number) (found_boards match_one reach_after after.now number) }
    ensures new { (reach reach_after : ℕ → Bool) → AreMarked before.now.facts.reach reach → AreMarked after.now.facts.reach reach_after → option_to_list
        result.new ≡ left number (found_boards match_one reach_after after.now number) (found_boards match_one reach before.now number) }
{
    if before.len() < after.len() {
        return swap_among(entry, before, after, number, match_one);
    }
    let back = swap_among(entry, after, before, number, match_one);
    Swap {
        gone: back.new,
        new: back.gone,
    }
}

/// Appends a key, if there is one.
pub fn push_key(
    alloc: Global,
    keys: &mut BoardKeys,
    key: Option<BoardKey>,
) -> Result<(), OutOfMemory>
    ensures { OnOk result (keys.new ≡ keys.old ++ option_to_list key) }
{
    match key {
        Some(BoardKey { config, place }) => keys.push(alloc, BoardKey { config, place }),
        None => Ok(()),
    }
}
