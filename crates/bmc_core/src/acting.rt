ghost use Rattle.std.specs.Prelude.{◌≡◌, false, true, ◌+◌, ◌≤◌, ◌++◌, ◌∷◌, [], None, length, take};
ghost use Rattle.std.specs.List.{All, list_any};
ghost use Rattle.cfg_json.specs.declared.item.Item.{Item};
ghost use Rattle.cfg_json.specs.Configs.{IsValidConfig};
ghost use Rattle.fan_zone.specs.IsSets.{IsSet};
ghost use Rattle.fan_zone.specs.Live.{items_of};
ghost use Rattle.fan_zone.specs.Settings.{CanSet};
ghost use Rattle.inventory.specs.Items.{bears_name, is_live, live, AreNamedLive};
ghost use Rattle.inventory.specs.Shown.{items_of as all_items};
ghost use Rattle.bmc_machine.specs.Changes.{concerns_zones};
ghost use Rattle.bmc_watch.specs.Watches.{view_items};
ghost use Rattle.bmc_core.specs.Acting.{AreRenewed, MayStay, acting, acting_of, most_acting};

use crate::asking::some_have_asking;
use bmc_base::Ledger;
use bmc_report::{Change, LiveKind};
use bmc_watch::Watch;
use cfg_json::{Item, ItemPart};
use ctl_face::Controller;
use fan_zone::{Zones, acts};
use inventory::Shown;
use live_sensors::LiveSensors;

// The most live items that act in zones: 32 zones, 128 fans, and 192 controllers.
const MOST_ACTING: usize = 352;

// Whether an item bears a name in a family, which sensors, zones and fans do.
fn bears_name(item: &Item) -> bool
    ensures { result ≡ bears_name item.now.part }
{
    match &item.part {
        ItemPart::Sensor(_) | ItemPart::Zone(_) | ItemPart::Fan => true,
        ItemPart::Control(_) | ItemPart::Mux(_) | ItemPart::Passive => false,
    }
}

// Whether an item is live. Where names are the items' own, one that bears a name is, and no name is looked up.
fn is_live<L: Ledger>(watch: &Watch<L>, item: &Item, own: bool) -> bool
    requires { own ≡ true → bears_name item.now.part ≡ true → is_live (view_items watch.now) item.now ≡ true }
    ensures { result ≡ is_live (view_items watch.now) item.now }
{
    (own && bears_name(item)) || watch.is_live(item)
}

// Puts an item behind as many as are there, if it is live and acts in zones, and returns how many there are then.
fn gather_item<'w, L: Ledger>(
    watch: &Watch<L>,
    item: &'w Item,
    own: bool,
    into: &mut [&'w Item],
    count: usize,
) -> usize
    requires own { own ≡ true → bears_name item.now.part ≡ true → is_live (view_items watch.now) item.now ≡ true }
    requires room { count + length (acting_of watch.now (item.now ∷ [])) ≤ length into.old }
    ensures items { items_of (take result into.new) ≡ items_of (take count into.old) ++ acting_of watch.now (item.now ∷ []) }
    ensures count { result ≡ count + length (acting_of watch.now (item.now ∷ [])) }
{
    if acts(item) && is_live(watch, item, own) {
        into[count] = item;
        count + 1
    } else {
        count
    }
}

// Puts the live ones of these items that act in zones behind as many as are there, and returns how many there are then.
fn gather_items<'w, L: Ledger>(
    watch: &Watch<L>,
    items: &'w [Item],
    own: bool,
    into: &mut [&'w Item],
    count: usize,
) -> usize
    requires own { own ≡ true → AreNamedLive (view_items watch.now) items.now }
    requires room { count + length (acting_of watch.now items.now) ≤ length into.old }
    ensures items { items_of (take result into.new) ≡ items_of (take count into.old) ++ acting_of watch.now items.now }
    ensures count { result ≡ count + length (acting_of watch.now items.now) }
{
    let mut count = count;
    for item in items {
        count = gather_item(watch, item, own, into, count);
    }
    count
}

// Lists the live ones of the items of these boards that act in zones, and returns how many there are. Where names are the
// items' own, only the zones of controllers are looked up.
fn gather<'w, L: Ledger>(
    watch: &Watch<L>,
    boards: &'w [Shown],
    own: bool,
    into: &mut [&'w Item],
) -> usize
    requires own { own ≡ true → AreNamedLive (view_items watch.now) (all_items boards.now) }
    requires room { length (acting_of watch.now (all_items boards.now)) ≤ length into.old }
    ensures items { items_of (take result into.new) ≡ acting_of watch.now (all_items boards.now) }
    ensures count { result ≡ length (acting_of watch.now (all_items boards.now)) }
{
    let mut count = 0;
    for board in boards {
        count = gather_items(watch, &board.items, own, into, count);
    }
    count
}

// Any item of these boards, if they have one.
fn any_item(boards: &[Shown]) -> Option<&Item>
    ensures { result ≡ None → all_items boards.now ≡ [] }
{
    for board in boards {
        if let Some(item) = board.items.first() {
            return Some(item);
        }
    }
    None
}

// Sets the zones to the live items that act in zones.
fn set_zones<L: Ledger, C: Controller>(
    zones: &mut Zones<C>,
    watch: &Watch<L>,
    sensors: &LiveSensors,
)
    requires few { length (acting (live (view_items watch.now))) ≤ most_acting }
    requires fit { All IsValidConfig watch.now.configs → CanSet zones.old (acting (live (view_items watch.now))) }
    ensures { IsSet zones.old (acting (live (view_items watch.now))) sensors.now zones.new }
{
    // what configurations expose is valid, which is said with their count
    let _count = watch.configs().len();
    let boards = watch.shown();
    match any_item(boards) {
        None => zones.set(&[], sensors),
        Some(any) => {
            let mut items = [any; MOST_ACTING];
            let own = watch.have_own_names();
            let count = gather(watch, boards, own, &mut items);
            zones.set(&items[..count], sensors);
        }
    }
}

// Whether a change tells that a zone, a fan or a controller is gone or new.
fn is_acting(change: &Change) -> bool
    ensures { result ≡ concerns_zones [] change.now }
{
    match change {
        Change::Item { kind, .. } => match kind {
            LiveKind::Sensor => false,
            LiveKind::Zone | LiveKind::Fan | LiveKind::Controller => true,
        },
        _ => false,
    }
}

// Whether one of some changes tells that.
fn some_act(changes: &[Change]) -> bool
    ensures { result ≡ list_any (concerns_zones []) changes.now }
{
    changes.iter().any(|change| is_acting(change))
}

// Whether zones may have to do with what is gone or new by these changes. It goes through the items once.
fn some_concern_zones(boards: &[Shown], changes: &[Change]) -> bool
    ensures { result ≡ false → list_any (concerns_zones (all_items boards.now)) changes.now ≡ false }
{
    some_act(changes) || some_have_asking(boards, changes)
}

// Whether zones may not stay as they are. Where there is no zone there is no controller, and items are not looked at.
fn must_set<L: Ledger, C: Controller>(zones: &Zones<C>, watch: &Watch<L>) -> bool
    ensures { result ≡ false → MayStay zones.now watch.now }
{
    if zones.zone_rows().is_empty() {
        some_act(watch.changes())
    } else {
        some_concern_zones(watch.shown(), watch.changes())
    }
}

/// Sets the zones to the live items that act in zones: the zones, the fans and the controllers, by board and expose. Where by the
/// last changes zones have nothing to do with the live items that are gone and with those that are new, it leaves them, and returns
/// true. Takes no memory: the items are listed on the stack.
pub(crate) fn renew_zones<L: Ledger, C: Controller>(
    zones: &mut Zones<C>,
    watch: &Watch<L>,
    sensors: &LiveSensors,
) -> bool
    requires few { length (acting (live (view_items watch.now))) ≤ most_acting }
    requires fit { All IsValidConfig watch.now.configs → CanSet zones.old (acting (live (view_items watch.now))) }
    ensures renewed { AreRenewed zones.old watch.now sensors.now zones.new }
    ensures left { result ≡ true → MayStay zones.old watch.now × (zones.new ≡ zones.old) }
{
    if must_set(zones, watch) {
        set_zones(zones, watch, sensors);
        return false;
    }
    true
}
