ghost use Rattle.std.specs.Prelude.{◌≡◌, ◌+◌, ◌≤◌, ◌++◌, ℕ, Bool, if◌then◌else◌, map, unwrap_or, length, option_to_list, option_map, IfOk, OnOk};
ghost use Rattle.inventory.specs.Boards.{has_board};
ghost use Rattle.inventory.specs.Indexes.{index_of, kept_of, with_boards};
ghost use Rattle.inventory.specs.Differences.{IsMarkedBy, boards_at, key_of};
ghost use Rattle.inventory.specs.Lists.{board_of, board_list, keys_of};
ghost use Rattle.inventory.specs.Moments.{AreAscending};

use crate::boards::list_boards;
use crate::configs::{config_at, config_count};
use crate::{Board, BoardKey, IndexKeep, Moment};
use bmc_base::{Ledger, OutOfMemory, Place};
use cfg_json::{Config, Shelf};
use std::alloc::Global;

// Returns the index behind this one, if a `u32` counts so far.
fn index_behind(index: u32) -> Result<u32, OutOfMemory>
    ensures { IfOk result (λ next. next ≡ index + 1) }
{
    index.checked_add(1).ok_or(OutOfMemory)
}

// Returns the index of a board that is kept. Any other gets the one behind the last that was given.
pub(crate) fn give_index(
    keep: &IndexKeep,
    key: &BoardKey,
    last: &mut u32,
) -> Result<u32, OutOfMemory>
    ensures index { IfOk result (λ index. index ≡ unwrap_or (index_of (kept_of keep.now.kept key.now.config) key.now.place) (last.old + 1)) }
    ensures last { OnOk result (last.new ≡ (if has_board (kept_of keep.now.kept key.now.config) key.now.place then last.old else last.old + 1)) }
{
    if let Some(index) = keep.index_of(key) {
        return Ok(index);
    }
    let next = index_behind(*last)?;
    *last = next;
    Ok(next)
}

// Appends the boards of a configuration, each with its index where those that are not kept yet are kept behind the
// others.
fn append_boards(
    boards: &mut Vec<Board>,
    keep: &IndexKeep,
    number: u32,
    places: &[Option<Place>],
) -> Result<(), OutOfMemory>
    requires { AreAscending places.now }
    ensures { OnOk result (boards.new.items ≡ boards.old.items
        ++ map (board_of (λ _. with_boards (kept_of keep.now.kept number) places.now)) (map (key_of number) places.now)) }
{
    let mut last = keep.count(number);
    for place in places {
        let key = BoardKey {
            config: number,
            place: *place,
        };
        let index = give_index(keep, &key, &mut last)?;
        boards.push(Board { key, index })?;
    }
    Ok(())
}

/// Lists the boards of all configurations at a moment, by configuration and place, each with the index that it has
/// where the boards that are not kept yet are kept behind the others. The shelf has the configurations; one more may be
/// accepted now, with their count for its number. Where a configuration would have more boards than a `u32` counts, it
/// answers as for want of memory.
pub fn list_all<L: Ledger>(
    alloc: Global,
    shelf: &Shelf<L>,
    plus: Option<&Config<L>>,
    keep: &IndexKeep,
    moment: &Moment<'_>,
) -> Result<Vec<Board>, OutOfMemory>
    requires { length (shelf.now ++ option_to_list (option_map (λ config. config.now) plus)) ≤ 256 }
    ensures { let all = shelf.now ++ option_to_list (option_map (λ config. config.now) plus.entry) in
        (found reach : ℕ → Bool) → IsMarkedBy moment.now.facts found reach → IfOk result (λ boards. boards.items
        ≡ board_list (λ number. with_boards (kept_of keep.now.kept number) (boards_at all found reach moment.now number))
        (keys_of (length all) (boards_at all found reach moment.now))) }
{
    let mut boards = Vec::new(alloc);
    let mut places = Vec::new(alloc);
    for number in 0..config_count(shelf, plus) {
        let Some(config) = config_at(shelf, plus, number) else {
            unreachable!()
        };
        let match_one = config.probe().match_one();
        list_boards(&mut places, moment, number as u32, match_one)?;
        append_boards(&mut boards, keep, number as u32, &places)?;
    }
    Ok(boards)
}
