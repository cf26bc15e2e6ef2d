ghost use Rattle.std.specs.Prelude.{◌≡◌, ◌<◌, ◌∷◌, ◌++◌, ℕ, Bool, true, false, [], if◌then◌else◌, OnOk};
ghost use Rattle.std.specs.Option.{option_cmp};
ghost use Rattle.std.specs.Ordering.{is_lt};
ghost use Rattle.bmc_base.specs.Places.{place_cmp};
ghost use Rattle.found_set.specs.Marks.{AreMarked};
ghost use Rattle.inventory.specs.Differences.{IsMarkedBy, key_of};
ghost use Rattle.inventory.specs.Moments.{boards_now, found_boards, left, skip_before, is_first, AreAscending};

use crate::{BoardKey, BoardKeys, Moment};
use bmc_base::{OutOfMemory, Place};
use std::alloc::Global;

// Lists the board of a configuration that is found at a moment, where one counts: at the first hit, or without a place.
fn list_first(
    places: &mut Vec<Option<Place>>,
    moment: &Moment<'_>,
    number: u32,
) -> Result<(), OutOfMemory>
    requires { places.old.items ≡ [] }
    ensures { (reach : ℕ → Bool) → AreMarked moment.now.facts.reach reach → OnOk result (places.new.items ≡ found_boards true reach moment.now number) }
{
    places.push(moment.first_hit(number))?;
    Ok(())
}

// Lists the boards of a configuration that is found at a moment, where each counts: at the hits, or one without a place.
fn list_each(
    places: &mut Vec<Option<Place>>,
    moment: &Moment<'_>,
    number: u32,
) -> Result<(), OutOfMemory>
    requires { places.old.items ≡ [] }
    ensures { (reach : ℕ → Bool) → AreMarked moment.now.facts.reach reach → OnOk result (places.new.items ≡ found_boards false reach moment.now number) }
{
    moment.push_hits(places, number)?;
    if places.is_empty() {
        places.push(None)?;
    }
    Ok(())
}

/// Lists the boards that a configuration has at a moment, in place of what was listed.
pub fn list_boards(
    places: &mut Vec<Option<Place>>,
    moment: &Moment<'_>,
    number: u32,
    match_one: bool,
) -> Result<(), OutOfMemory>
    requires { number < 256 }
    ensures ascend { OnOk result (AreAscending places.new.items) }
    ensures boards { (found reach : ℕ → Bool) → IsMarkedBy moment.now.facts found reach
        → OnOk result (places.new.items ≡ boards_now match_one found reach moment.now number) }
{
    places.clear();
    if !moment.found(number) {
        return Ok(());
    }
    if match_one {
        list_first(places, moment, number)
    } else {
        list_each(places, moment, number)
    }
}

// Whether a board comes before another. One without a place comes first.
fn is_before(board: &Option<Place>, other: &Option<Place>) -> bool
    ensures { result ≡ is_lt (option_cmp place_cmp board.now other.now) }
{
    match (*board, *other) {
        (Some(place), Some(other)) => place < other,
        (None, Some(_)) => true,
        _ => false,
    }
}

// Returns these boards without those at the front that come before this one.
fn skip_before<'p>(boards: &'p [Option<Place>], board: &Option<Place>) -> &'p [Option<Place>]
    ensures { result.now ≡ skip_before board.now boards.now }
{
    for i in 0..boards.len() {
        if !is_before(&boards[i], board) {
            return &boards[i..];
        }
    }
    &[]
}

// Whether this board is the first of these.
fn is_first(boards: &[Option<Place>], board: Option<Place>) -> bool
    ensures { result ≡ is_first board boards.now }
{
    !boards.is_empty() && board == boards[0]
}

// Appends the key of a board of a configuration, if it is not there.
fn push_if_left(
    alloc: Global,
    keys: &mut BoardKeys,
    number: u32,
    place: Option<Place>,
    is_there: bool,
) -> Result<(), OutOfMemory>
    ensures { OnOk result (keys.new ≡ keys.old ++ (if is_there then [] else key_of number place ∷ [])) }
{
    if !is_there {
        let key = BoardKey {
            config: number,
            place,
        };
        keys.push(alloc, key)?;
    }
    Ok(())
}

/// Appends the keys of the boards of a configuration that are here and not there. Both lists ascend, so each is
/// gone through once.
pub fn push_left(
    alloc: Global,
    keys: &mut BoardKeys,
    number: u32,
    here: &[Option<Place>],
    there: &[Option<Place>],
) -> Result<(), OutOfMemory>
    requires here { AreAscending here.now }
    requires there { AreAscending there.now }
    ensures { OnOk result (keys.new ≡ keys.old ++ left number here.now there.now) }
{
    let mut rest = there;
    for place in here {
        rest = skip_before(rest, place);
        push_if_left(alloc, keys, number, *place, is_first(rest, *place))?;
    }
    Ok(())
}

/// Appends the keys of the boards of a configuration that are here and not there, and of those that are there and
/// not here.
pub fn push_both(
    alloc: Global,
    gone: &mut BoardKeys,
    new: &mut BoardKeys,
    number: u32,
    before: &[Option<Place>],
    after: &[Option<Place>],
) -> Result<(), OutOfMemory>
    requires before { AreAscending before.now }
    requires after { AreAscending after.now }
    ensures gone { OnOk result (gone.new ≡ gone.old ++ left number before.now after.now) }
    ensures new { OnOk result (new.new ≡ new.old ++ left number after.now before.now) }
{
    if before == after {
        return Ok(());
    }
    push_left(alloc, gone, number, before, after)?;
    push_left(alloc, new, number, after, before)
}
