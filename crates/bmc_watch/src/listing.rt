ghost use Rattle.std.specs.Prelude.{◌≡◌, ◌∷◌, [], ◌≤◌, ℕ, Bool, length, IfOk};
ghost use Rattle.inventory.specs.Boards.{has_board};
ghost use Rattle.inventory.specs.Differences.{IsMarkedBy};
ghost use Rattle.inventory.specs.Inventories.{kept_then, moment_keys};
ghost use Rattle.inventory.specs.Items.{entry_fields, items};
ghost use Rattle.inventory.specs.Lists.{board_list};

use bmc_base::{Ledger, OutOfMemory};
use cfg_json::{Config, Item, Shelf};
use inventory::{Board, IndexKeep, Moment, list_all, list_items};
use std::alloc::Global;
use std::slice;

// Lists the boards of a moment, by configuration and place.
pub(crate) fn list_boards<'s, L: Ledger>(
    alloc: Global,
    shelf: &'s Shelf<L>,
    keep: &IndexKeep,
    moment: &Moment<'_>,
) -> Result<Vec<Board>, OutOfMemory>
    ensures { (found reach : ℕ → Bool) → IsMarkedBy moment.now.facts found reach → IfOk result (λ boards. boards.items
        ≡ board_list (kept_then keep.now.kept shelf.now found reach moment.now) (moment_keys shelf.now found reach moment.now)) }
{
    // a shelf has few configurations, which is said with their count
    let _count = shelf.len();
    let none: Option<&'s Config<L>> = None;
    list_all(alloc, shelf, none, keep, moment)
}

// Lists what a board exposes at a moment, in the order of its configuration.
pub(crate) fn list_board<'s, L: Ledger>(
    alloc: Global,
    shelf: &'s Shelf<L>,
    board: &Board,
    moment: &Moment<'_>,
) -> Result<Vec<Item>, OutOfMemory>
    ensures { IfOk result (λ list. list.items ≡ items shelf.now (entry_fields moment.now.entries) (board.now ∷ [])) }
{
    let none: Option<&'s Config<L>> = None;
    list_items(alloc, shelf, none, slice::from_ref(board), moment)
}
