ghost use Rattle.std.specs.Prelude.{◌≡◌, ◌+◌, ◌≤◌, ◌++◌, ℕ, List, true, false, length, map, filter_map, option_to_list};
ghost use Rattle.std.specs.Prelude.{⊤, Some, IfOk, OnOk, IfSome, IsSomeAnd, vec_capacity, vec_len};
ghost use Rattle.cfg_json.specs.Configs.{fixed_of};
ghost use Rattle.inventory.specs.Indexes.{kept_of};
ghost use Rattle.inventory.specs.Limits.{totals_after, GivesTotals};
ghost use Rattle.bmc_machine.specs.Changes.{board_change, item_change};
ghost use Rattle.bmc_watch.specs.Changes.{HasRoomFor, AreWithin, Tells};
ghost use Rattle.bmc_watch.specs.ItemSteps.{Continues, TellsItems};
ghost use Rattle.cfg_json.specs.declared.item.Item.{Item as ItemView};
ghost use Rattle.inventory.specs.Items.{IsValidItem};
ghost use Rattle.std.specs.List.{All};
ghost use Rattle.live_sensors.specs.Items.{has_sensor, settled};
ghost use Rattle.live_sensors.specs.Sensors.{sensor_in, slot_of};
ghost use Rattle.bmc_watch.specs.Settling.{AreKept};

use bmc_base::{Bytes, Ledger, OutOfMemory};
use bmc_report::{Change, LiveKind};
use cfg_json::{Body, Config, Item, ItemPart, Shelf};
use inventory::{
    BoardKey, BoardKeys, Difference, IndexKeep, InventoryFault, ItemDifference, Moment, Stock,
    Totals,
};
use live_sensors::LiveSensors;
use std::alloc::Global;

// Copies the buses to which the fixed channels of a configuration lead.
pub(crate) fn fixed_channels<L: Ledger>(
    alloc: Global,
    config: &Config<L>,
) -> Result<Bytes, OutOfMemory>
    ensures { IfOk result (λ fixed. fixed ≡ fixed_of config.now) }
{
    let mut fixed = Vec::new(alloc);
    for expose in config.exposes() {
        if let Body::Mux(part) = &expose.body {
            fixed.extend_from_slice(part.fixed.as_slice())?;
        }
    }
    Ok(Bytes::from(fixed))
}

// Stages what becomes of the items where no configuration comes, and returns the live items that go and those that come.
pub(crate) fn stage_items<'s, L: Ledger>(
    alloc: Global,
    shelf: &'s Shelf<L>,
    keep: &IndexKeep,
    difference: &Difference,
    after: &Moment<'_>,
    stock: &mut Stock,
) -> Result<ItemDifference, OutOfMemory>
    requires { (next : List ItemView) × Continues shelf.now keep.now.kept difference.now after.now stock.old.items next }
    ensures items { stock.new.items ≡ stock.old.items }
    ensures staged { (next : List ItemView) → Continues shelf.now keep.now.kept difference.now after.now stock.old.items next
        → OnOk result (stock.new.staged ≡ Some next) }
    ensures ready { OnOk result (IsSomeAnd stock.new.staged (λ _. ⊤)) }
    ensures tells { IfOk result (λ items. IsSomeAnd stock.new.staged (TellsItems stock.old.items items)) }
    ensures valid { IfOk result (λ items. All IsValidItem items.new) }
{
    // a shelf has few configurations, which is said with their count
    let _count = shelf.len();
    let none: Option<&'s Config<L>> = None;
    stock.prepare(alloc, shelf, none, keep, difference, after)
}

// Counts the boards where some go and others come and no configuration does, or names the first limit that they pass.
pub(crate) fn count_boards<'s, L: Ledger>(
    totals: Totals,
    shelf: &'s Shelf<L>,
    difference: &Difference,
) -> Result<Totals, InventoryFault>
    ensures { GivesTotals result (totals_after shelf.now totals difference.now.gone_boards difference.now.new_boards) }
{
    let none: Option<&'s Config<L>> = None;
    totals.after(shelf, none, difference)
}

// Stages the boards that are new, makes room for the changes and for the sensors that are new, and returns the boards that
// go. Nothing is taken over yet.
pub(crate) fn stage_changes(
    alloc: Global,
    difference: Difference,
    items: &ItemDifference,
    keep: &mut IndexKeep,
    sensors: &mut LiveSensors,
    changes: &mut Vec<Change>,
) -> Result<BoardKeys, OutOfMemory>
    ensures gone { IfOk result (λ gone. gone ≡ difference.gone_boards) }
    ensures staged { OnOk result (keep.new.staged ≡ Some difference.new_boards) }
    ensures kept { (number : ℕ) → kept_of keep.new.kept number ≡ kept_of keep.old.kept number }
    ensures room { OnOk result (length difference.gone_boards + length difference.new_boards + length items.now.gone + length items.now.new
        ≤ vec_capacity changes.new) }
    ensures more { vec_capacity changes.old ≤ vec_capacity changes.new }
    ensures changes { changes.new.items ≡ changes.old.items }
    ensures sensors { AreKept sensors.old sensors.new }
    ensures sensor_room { OnOk result (length items.now.new ≤ sensors.new.room) }
{
    let Difference {
        gone_boards,
        new_boards,
    } = difference;
    let boards = gone_boards.as_slice().len() + new_boards.as_slice().len();
    changes.reserve(boards + items.gone.as_slice().len() + items.new.as_slice().len())?;
    sensors.reserve(alloc, items.new.as_slice().len())?;
    keep.stage(alloc, new_boards)?;
    Ok(gone_boards)
}

// Appends a change for each of these boards, which are gone or new. There is room for them.
fn append_changes<L: Ledger>(
    shelf: &Shelf<L>,
    keep: &IndexKeep,
    gone: bool,
    keys: &[BoardKey],
    changes: &mut Vec<Change>,
)
    requires within { AreWithin keys.now (length shelf.now) }
    requires room { vec_len changes.old + length keys.now ≤ vec_capacity changes.old }
    ensures items { changes.new.items ≡ changes.old.items ++ map (board_change gone shelf.now (kept_of keep.now.kept)) keys.now }
    ensures capacity { vec_capacity changes.new ≡ vec_capacity changes.old }
{
    for key in keys {
        let Some(config) = shelf.at(key.config as usize) else {
            unreachable!()
        };
        changes.push_reserved(Change::Board {
            gone,
            name: config.name(),
            index: keep.index(key),
            place: key.place,
        });
    }
}

// Keeps the boards that are staged, and lists the changes: the boards that are gone, and then those that are
// new.
pub(crate) fn tell_changes<L: Ledger>(
    shelf: &Shelf<L>,
    keep: &mut IndexKeep,
    gone: &BoardKeys,
    changes: &mut Vec<Change>,
)
    requires staged { IsSomeAnd keep.old.staged (λ new. AreWithin new (length shelf.now)) }
    requires gone { AreWithin gone.now (length shelf.now) }
    requires room { HasRoomFor gone.now keep.old.staged (vec_capacity changes.old) }
    ensures told { IfSome keep.old.staged (λ new. Tells shelf.now gone.now new keep.old.kept keep.new.kept changes.new.items) }
    ensures len { IfSome keep.old.staged (λ new. vec_len changes.new ≡ length gone.now + length new) }
    ensures capacity { vec_capacity changes.new ≡ vec_capacity changes.old }
{
    changes.clear();
    append_changes(shelf, keep, true, gone.as_slice(), changes);
    let new = keep.commit();
    append_changes(shelf, keep, false, new.as_slice(), changes);
}

// The change of a live item that is gone or new.
fn item_change(gone: bool, item: &Item) -> Option<Change>
    ensures { result ≡ item_change gone item.now }
{
    let kind = match &item.part {
        ItemPart::Sensor(_) => LiveKind::Sensor,
        ItemPart::Fan => LiveKind::Fan,
        ItemPart::Zone(_) => LiveKind::Zone,
        ItemPart::Control(_) => LiveKind::Controller,
        ItemPart::Mux(_) | ItemPart::Passive => return None,
    };
    Some(Change::Item {
        gone,
        kind,
        name: item.name.copied(),
    })
}

// Appends a change, if there is one. There is room for it.
fn append_change(change: Option<Change>, changes: &mut Vec<Change>)
    requires { vec_len changes.old + 1 ≤ vec_capacity changes.old }
    ensures items { changes.new.items ≡ changes.old.items ++ option_to_list change }
    ensures len { vec_len changes.new ≤ vec_len changes.old + 1 }
    ensures capacity { vec_capacity changes.new ≡ vec_capacity changes.old }
{
    if let Some(change) = change {
        changes.push_reserved(change);
    }
}

// Appends a change for each of these live items, which are gone or new. There is room for them.
fn append_items(gone: bool, items: &[Item], changes: &mut Vec<Change>)
    requires room { vec_len changes.old + length items.now ≤ vec_capacity changes.old }
    ensures items { changes.new.items ≡ changes.old.items ++ filter_map (item_change gone) items.now }
    ensures len { vec_len changes.new ≤ vec_len changes.old + length items.now }
    ensures capacity { vec_capacity changes.new ≡ vec_capacity changes.old }
{
    for item in items {
        append_change(item_change(gone, item), changes);
    }
}

// Lists the changes of live items behind those of boards: the ones that are gone, and then those that are new.
pub(crate) fn tell_items(items: &ItemDifference, changes: &mut Vec<Change>)
    requires { vec_len changes.old + length items.now.gone + length items.now.new ≤ vec_capacity changes.old }
    ensures items { changes.new.items ≡ changes.old.items ++ filter_map (item_change true) items.now.gone
        ++ filter_map (item_change false) items.now.new }
    ensures capacity { vec_capacity changes.new ≡ vec_capacity changes.old }
{
    append_items(true, items.gone.as_slice(), changes);
    append_items(false, items.new.as_slice(), changes);
}

// Drops the sensors of live items that are gone, and starts those of live items that are new. There is room for them. The other
// sensors keep their slots.
pub(crate) fn settle_sensors(items: &ItemDifference, sensors: &mut LiveSensors)
    requires room { length items.now.new ≤ sensors.old.room }
    requires valid { All IsValidItem items.now.new }
    ensures settled { (name : List ℕ) → sensor_in sensors.new name ≡ settled items.now.gone items.now.new name (sensor_in sensors.old name) }
    ensures slots { (name : List ℕ) → has_sensor name items.now.gone ≡ false → has_sensor name items.now.new ≡ false
        → slot_of sensors.new name ≡ slot_of sensors.old name }
{
    sensors.settle(items.gone.as_slice(), items.new.as_slice());
}
