ghost use Rattle.std.specs.Prelude.{◌≡◌, ◌<◌, ◌++◌, length, All, IfOk, OnOk, string_bytes};
ghost use Rattle.cfg_json.specs.declared.item.Item.{Item as ItemView};
ghost use Rattle.inventory.specs.declared.board.Board.{Board as BoardView};
ghost use Rattle.bmc_machine.specs.Shows.{bus_in, address_in};
ghost use Rattle.bmc_watch.specs.Watches.{view_list};
ghost use Rattle.bmc_core.specs.Lists.{item_line, item_rows, board_rows};

use bmc_base::{Ledger, OutOfMemory};
use bmc_report::{ItemRow, push_board_row, push_item_row};
use bmc_watch::Watch;
use cfg_json::{Expose, Item, ItemPart};
use inventory::Board;
use std::alloc::Global;

// Returns the bus of a sensor.
fn bus_of(part: &ItemPart) -> Option<u8>
    ensures { result ≡ bus_in part.now }
{
    match part {
        ItemPart::Sensor(sensor) => sensor.bus,
        _ => None,
    }
}

// Returns the address of a sensor.
fn address_of(part: &ItemPart) -> Option<u8>
    ensures { result ≡ address_in part.now }
{
    match part {
        ItemPart::Sensor(sensor) => sensor.address,
        _ => None,
    }
}

// Appends the row of an item of a board whose configuration has these exposes.
fn push_item(
    exposes: &[Expose],
    item: &Item,
    live: bool,
    text: &mut String,
) -> Result<(), OutOfMemory>
    requires { item.now.id.expose < length exposes.now }
    ensures { OnOk result (string_bytes text.new ≡ string_bytes text.old ++ item_line exposes.now live item.now) }
{
    push_item_row(
        text,
        &ItemRow {
            kind: &exposes[item.id.expose as usize].kind,
            name: &item.name,
            bus: bus_of(&item.part),
            address: address_of(&item.part),
            live,
        },
    )
}

// Appends the rows of items of a board whose configuration has these exposes.
fn push_items<L: Ledger>(
    watch: &Watch<L>,
    exposes: &[Expose],
    items: &[Item],
    text: &mut String,
) -> Result<(), OutOfMemory>
    requires { All (λ (item : ItemView). item.id.expose < length exposes.now) items.now }
    ensures { OnOk result (string_bytes text.new ≡ string_bytes text.old ++ item_rows watch.now exposes.now items.now) }
{
    for item in items {
        push_item(exposes, item, watch.is_live(item), text)?;
    }
    Ok(())
}

/// Appends the row of a board, and behind it those of its items.
pub(crate) fn push_board<L: Ledger>(
    alloc: Global,
    watch: &Watch<L>,
    board: &Board,
    text: &mut String,
) -> Result<(), OutOfMemory>
    requires { board.now.key.config < length watch.now.configs }
    ensures { OnOk result (string_bytes text.new ≡ string_bytes text.old ++ board_rows watch.now board.now) }
{
    let Some(config) = watch.configs().at(board.key.config as usize) else {
        unreachable!()
    };
    push_board_row(text, &config.name(), board.index, board.key.place)?;
    let items = watch.board_items(alloc, board)?;
    push_items(watch, config.exposes(), &items, text)
}

/// Lists the boards, by configuration and place.
pub(crate) fn list_boards<L: Ledger>(
    alloc: Global,
    watch: &Watch<L>,
) -> Result<Vec<Board>, OutOfMemory>
    ensures all { IfOk result (λ boards. boards.items ≡ view_list watch.now) }
    ensures within { IfOk result (λ boards. All (λ (board : BoardView). board.key.config < length watch.now.configs) boards.items) }
{
    watch.boards(alloc)
}
