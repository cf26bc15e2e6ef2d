ghost use Rattle.std.specs.Prelude.{◌≡◌, ◌++◌, option_to_list, option_map, IfOk, OnOk};
ghost use Rattle.inventory.specs.Follows.{kept_with, last_of, AreKeysAscending};
ghost use Rattle.inventory.specs.Items.{entry_fields};
ghost use Rattle.inventory.specs.Lists.{board_list};
ghost use Rattle.inventory.specs.Naming.{all_named, is_naming, named_items, naming, naming_items};
ghost use Rattle.inventory.specs.Orders.{AreByKey};
ghost use Rattle.inventory.specs.Shown.{items_of, AreShown, ShowsMore};

use crate::items::{append_named, exposes_at, record_at};
use crate::limits::counts_at;
use crate::listing::give_index;
use crate::shown::Shown;
use crate::{Board, BoardKey, IndexKeep, Moment};
use bmc_base::{Ledger, OutOfMemory};
use cfg_json::{Config, Shelf};
use std::alloc::Global;

// Whether a board is naming: it has exposes that are of a family, or controllers.
fn is_naming<L: Ledger>(shelf: &Shelf<L>, plus: Option<&Config<L>>, key: &BoardKey) -> bool
    ensures { result ≡ is_naming (shelf.now ++ option_to_list (option_map (λ config. config.now) plus.entry)) key.now }
{
    let counts = counts_at(shelf, plus, key);
    counts.sensors > 0 || counts.zones > 0 || counts.fans > 0 || counts.pids > 0 || counts.steps > 0
}

// Returns the last index that was given to a board of a configuration, where this is the last of the one with this number.
fn last_of(keep: &IndexKeep, number: Option<u32>, last: u32, config: u32) -> u32
    ensures { result ≡ last_of keep.now.kept number last config }
{
    match number {
        Some(number) if number == config => last,
        _ => keep.count(config),
    }
}

// Lists the naming boards among those that come, each with the index that it has where they are kept behind the others.
fn list_coming<L: Ledger>(
    alloc: Global,
    shelf: &Shelf<L>,
    plus: Option<&Config<L>>,
    keep: &IndexKeep,
    keys: &[BoardKey],
) -> Result<Vec<Board>, OutOfMemory>
    requires { AreKeysAscending keys.now }
    ensures { let all = shelf.now ++ option_to_list (option_map (λ config. config.now) plus.entry) in
        IfOk result (λ boards. boards.items ≡ naming all (board_list (kept_with keep.now.kept keys.now) keys.now)) }
{
    let mut boards = Vec::new(alloc);
    let mut number = None;
    let mut last = 0;
    for key in keys {
        // All boards of a configuration are naming or none is, so the others need no index.
        if !is_naming(shelf, plus, key) {
            continue;
        }
        last = last_of(keep, number, last, key.config);
        number = Some(key.config);
        let index = give_index(keep, key, &mut last)?;
        boards.push(Board { key: *key, index })?;
    }
    Ok(boards)
}

// Appends a board with the items that it has at a moment and that may be live, if it has some.
fn show_board<L: Ledger>(
    alloc: Global,
    list: &mut Vec<Shown>,
    shelf: &Shelf<L>,
    plus: Option<&Config<L>>,
    board: &Board,
    moment: &Moment<'_>,
) -> Result<(), OutOfMemory>
    ensures { let all = shelf.now ++ option_to_list (option_map (λ config. config.now) plus.entry) in
        OnOk result (ShowsMore list.old.items board.now.key (named_items all (entry_fields moment.now.entries) board.now) list.new.items) }
{
    let mut items = Vec::new(alloc);
    let exposes = exposes_at(shelf, plus, board.key.config);
    append_named(alloc, &mut items, board, exposes, record_at(moment, board))?;
    if !items.is_empty() {
        list.push(Shown::new(board.key, items))?;
    }
    Ok(())
}

// Lists boards with the items that they have at a moment and that may be live, those that have some.
fn show_boards<L: Ledger>(
    alloc: Global,
    shelf: &Shelf<L>,
    plus: Option<&Config<L>>,
    boards: &[Board],
    moment: &Moment<'_>,
) -> Result<Vec<Shown>, OutOfMemory>
    requires { AreByKey boards.now }
    ensures items { let all = shelf.now ++ option_to_list (option_map (λ config. config.now) plus.entry) in
        IfOk result (λ list. items_of list.items ≡ all_named all (entry_fields moment.now.entries) boards.now) }
    ensures shown { IfOk result (λ list. AreShown list.items) }
{
    let mut list = Vec::new(alloc);
    for board in boards {
        show_board(alloc, &mut list, shelf, plus, board, moment)?;
    }
    Ok(list)
}

/// Lists the boards that come with those of their items that may be live, those that have some.
pub(crate) fn show_coming<L: Ledger>(
    alloc: Global,
    shelf: &Shelf<L>,
    plus: Option<&Config<L>>,
    keep: &IndexKeep,
    keys: &[BoardKey],
    moment: &Moment<'_>,
) -> Result<Vec<Shown>, OutOfMemory>
    requires { AreKeysAscending keys.now }
    ensures items { let all = shelf.now ++ option_to_list (option_map (λ config. config.now) plus.entry) in
        IfOk result (λ list. items_of list.items ≡ naming_items all (kept_with keep.now.kept keys.now) (entry_fields moment.now.entries) keys.now) }
    ensures shown { IfOk result (λ list. AreShown list.items) }
{
    let boards = list_coming(alloc, shelf, plus, keep, keys)?;
    show_boards(alloc, shelf, plus, &boards, moment)
}
