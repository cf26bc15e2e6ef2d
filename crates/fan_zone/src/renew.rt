ghost use Rattle.std.specs.Prelude.{◌≡◌, ◌+◌, ◌≤◌, ◌<◌, ◌++◌, bytes_eq, [], ◌∷◌, None, Some, length, map, option_copied};
ghost use Rattle.std.specs.Option.{MatchOption};
ghost use Rattle.std.specs.Vec.{vec_capacity};
ghost use Rattle.std.specs.List.{All, list_any};
ghost use Rattle.fan_zone.specs.Live.{controls, fan_id, fans, items_of, zones};
ghost use Rattle.fan_zone.specs.Sound.{HaveOwnIds, fan_plan_id, zone_plan_id};
ghost use Rattle.fan_zone.specs.SetRows.{commands_fans, outputs_to, first_from};
ghost use Rattle.fan_zone.specs.Settings.{HasZone};
ghost use Rattle.inventory.specs.Items.{is_control};
ghost use Rattle.fan_zone.specs.SetRows.{fan_plan_of, fan_row_of, find_fan, find_zone, kept_zone, plan_of, zone_row_of};

use crate::kept::{Middle, keep_ends, replace};
use crate::passes::thermal_setpoint;
use crate::resolve::{role_of, same_id, same_name};
use crate::rows::{FanPlan, FanRow, ZonePlan, ZoneRow};
use crate::seats::{put, trade};
use bmc_base::Name;
use cfg_json::{ControlItem, Item, ItemId, ItemPart};

// The row of the zone with this id. Zones mostly come in the order in which they came before, so it is looked for where the
// cursor stands, and only then from the first one on. The cursor then stands behind it.
fn find_zone<'r>(
    plans: &[ZonePlan],
    rows: &'r [ZoneRow],
    cursor: &mut usize,
    id: &ItemId,
) -> Option<&'r ZoneRow>
    requires same { length plans.now ≡ length rows.now }
    requires ids { HaveOwnIds zone_plan_id plans.now }
    ensures { option_copied result ≡ find_zone id.now plans.now rows.now }
{
    let at = *cursor;
    if at < plans.len() && same_id(&plans[at].id, id) {
        *cursor = at + 1;
        return Some(&rows[at]);
    }
    for number in 0..plans.len() {
        if same_id(&plans[number].id, id) {
            *cursor = number + 1;
            return Some(&rows[number]);
        }
    }
    None
}

// The row of the fan with this id, which is looked for as a zone is.
fn find_fan<'r>(
    plans: &[FanPlan],
    rows: &'r [FanRow],
    cursor: &mut usize,
    id: &ItemId,
) -> Option<&'r FanRow>
    requires same { length plans.now ≡ length rows.now }
    requires ids { HaveOwnIds fan_plan_id plans.now }
    ensures { option_copied result ≡ find_fan id.now plans.now rows.now }
{
    let at = *cursor;
    if at < plans.len() && same_id(&plans[at].id, id) {
        *cursor = at + 1;
        return Some(&rows[at]);
    }
    for number in 0..plans.len() {
        if same_id(&plans[number].id, id) {
            *cursor = number + 1;
            return Some(&rows[number]);
        }
    }
    None
}

// What a zone shows before its next tick.
fn zone_row_of(
    plans: &[ZonePlan],
    rows: &[ZoneRow],
    cursor: &mut usize,
    id: &ItemId,
    name: &Name,
) -> ZoneRow
    requires same { length plans.now ≡ length rows.now }
    requires ids { HaveOwnIds zone_plan_id plans.now }
    ensures { result ≡ kept_zone name.now (find_zone id.now plans.now rows.now) }
{
    let name = name.copied();
    match find_zone(plans, rows, cursor, id) {
        None => ZoneRow {
            name,
            failsafe: false,
            setpoint: None,
        },
        Some(row) => ZoneRow {
            name,
            failsafe: row.failsafe,
            setpoint: row.setpoint,
        },
    }
}

// What a fan shows before its next tick.
fn fan_row_of(
    plans: &[FanPlan],
    rows: &[FanRow],
    cursor: &mut usize,
    id: &ItemId,
    name: &Name,
) -> FanRow
    requires same { length plans.now ≡ length rows.now }
    requires ids { HaveOwnIds fan_plan_id plans.now }
    ensures { result ≡ fan_row_of plans.now rows.now (record { id = id.now; name = name.now }) }
{
    let name = name.copied();
    match find_fan(plans, rows, cursor, id) {
        None => FanRow { name, duty: None },
        Some(row) => FanRow {
            name,
            duty: row.duty,
        },
    }
}

// Whether a controller commands fans.
fn commands_fans(control: &ControlItem) -> bool
    ensures { result ≡ commands_fans control.now }
{
    thermal_setpoint(role_of(&control.setting)).is_none()
}

// Whether it is a fan controller that outputs to this name.
fn outputs_to(control: &ControlItem, name: &Name) -> bool
    ensures { result ≡ outputs_to name.now control.now }
{
    commands_fans(control) && has_name(control.outputs.as_slice(), name)
}

// Whether a name is among the names.
fn has_name(names: &[Name], name: &Name) -> bool
    ensures { result ≡ list_any (bytes_eq name.now) names.now }
{
    names.iter().any(|one| same_name(name, one))
}

// Whether an item is a controller.
fn is_control(item: &Item) -> bool
    ensures { result ≡ is_control item.now.part }
{
    match &item.part {
        ItemPart::Control(_) => true,
        _ => false,
    }
}

// The items from the first controller on.
fn from_first<'l, 'i>(live: &'l [&'i Item]) -> &'l [&'i Item]
    ensures { controls (items_of result.now) ≡ controls (items_of live.now) }
{
    for at in 0..live.len() {
        if is_control(live[at]) {
            return &live[at..];
        }
    }
    &[]
}

// The items up to the last controller.
fn to_last<'l, 'i>(live: &'l [&'i Item]) -> &'l [&'i Item]
    ensures { controls (items_of result.now) ≡ controls (items_of live.now) }
{
    for behind in 0..live.len() {
        let end = live.len() - behind;
        if is_control(live[end - 1]) {
            return &live[..end];
        }
    }
    &[]
}

// The items from the first controller to the last one.
fn around_controllers<'l, 'i>(live: &'l [&'i Item]) -> &'l [&'i Item]
    ensures { controls (items_of result.now) ≡ controls (items_of live.now) }
{
    to_last(from_first(live))
}

/// The items from the first controller to the last one, where these are the rows of the zones. Each controller is in a zone, so
/// where there is no zone there is none to look for.
#[tactic(auto, using(crate::proofs::ControlsLemmas::without_zones))]
pub(crate) fn controllers_of<'l, 'i>(rows: &[ZoneRow], live: &'l [&'i Item]) -> &'l [&'i Item]
    requires rows { length rows.now ≡ length (zones (items_of live.now)) }
    requires placed { All (HasZone (items_of live.now)) (controls (items_of live.now)) }
    ensures { controls (items_of result.now) ≡ controls (items_of live.now) }
{
    if rows.is_empty() {
        return &[];
    }
    around_controllers(live)
}

/// The number of the controller that holds a fan.
#[inline(always)]
pub(crate) fn holder(live: &[&Item], name: &Name) -> Option<usize>
    ensures { result ≡ first_from 0 name.now (controls (items_of live.now)) }
{
    if live.is_empty() {
        None
    } else {
        first_holder(live, name)
    }
}

// The number of the first controller that outputs to this name. It is not inlined: mostly there is no controller to ask.
#[inline(never)]
fn first_holder(live: &[&Item], name: &Name) -> Option<usize>
    ensures { result ≡ first_from 0 name.now (controls (items_of live.now)) }
{
    let mut number = 0;
    for item in live {
        if let ItemPart::Control(control) = &item.part {
            if outputs_to(control.get(), name) {
                return Some(number);
            }
            number += 1;
        }
    }
    None
}

// Adds the zone that an item is.
fn add_zone(
    next_plans: &mut Vec<ZonePlan>,
    next_rows: &mut Vec<ZoneRow>,
    plans: &[ZonePlan],
    rows: &[ZoneRow],
    cursor: &mut usize,
    item: &Item,
)
    requires plans { length next_plans.old.items + length (zones (item.now ∷ [])) ≤ vec_capacity next_plans.old }
    requires rows { length next_rows.old.items + length (zones (item.now ∷ [])) ≤ vec_capacity next_rows.old }
    requires same { length plans.now ≡ length rows.now }
    requires ids { HaveOwnIds zone_plan_id plans.now }
    ensures plans { next_plans.new.items ≡ next_plans.old.items ++ map plan_of (zones (item.now ∷ [])) }
    ensures rows { next_rows.new.items ≡ next_rows.old.items ++ map (zone_row_of plans.now rows.now) (zones (item.now ∷ [])) }
    ensures room_plans { vec_capacity next_plans.old ≤ vec_capacity next_plans.new }
    ensures room_rows { vec_capacity next_rows.old ≤ vec_capacity next_rows.new }
{
    if let ItemPart::Zone(setting) = &item.part {
        put(
            next_plans,
            ZonePlan {
                id: item.id,
                setting: *setting,
            },
        );
        put(
            next_rows,
            zone_row_of(plans, rows, cursor, &item.id, &item.name),
        );
    }
}

// Adds the fan that an item is.
fn add_fan(
    next_plans: &mut Vec<FanPlan>,
    next_rows: &mut Vec<FanRow>,
    plans: &[FanPlan],
    rows: &[FanRow],
    cursor: &mut usize,
    controllers: &[&Item],
    item: &Item,
)
    requires plans { length next_plans.old.items + length (fans (item.now ∷ [])) ≤ vec_capacity next_plans.old }
    requires rows { length next_rows.old.items + length (fans (item.now ∷ [])) ≤ vec_capacity next_rows.old }
    requires same { length plans.now ≡ length rows.now }
    requires ids { HaveOwnIds fan_plan_id plans.now }
    ensures plans { next_plans.new.items ≡ next_plans.old.items ++ map (fan_plan_of (controls (items_of controllers.now))) (fans (item.now ∷ [])) }
    ensures rows { next_rows.new.items ≡ next_rows.old.items ++ map (fan_row_of plans.now rows.now) (fans (item.now ∷ [])) }
    ensures room_plans { vec_capacity next_plans.old ≤ vec_capacity next_plans.new }
    ensures room_rows { vec_capacity next_rows.old ≤ vec_capacity next_rows.new }
{
    if let ItemPart::Fan = &item.part {
        put(
            next_plans,
            FanPlan {
                id: item.id,
                holder: holder(controllers, &item.name),
            },
        );
        put(
            next_rows,
            fan_row_of(plans, rows, cursor, &item.id, &item.name),
        );
    }
}

/// The zones of the live items, each with what it showed.
pub(crate) fn add_zones(
    next_plans: &mut Vec<ZonePlan>,
    next_rows: &mut Vec<ZoneRow>,
    plans: &[ZonePlan],
    rows: &[ZoneRow],
    live: &[&Item],
)
    requires plans { length next_plans.old.items + length (zones (items_of live.now)) ≤ vec_capacity next_plans.old }
    requires rows { length next_rows.old.items + length (zones (items_of live.now)) ≤ vec_capacity next_rows.old }
    requires same { length plans.now ≡ length rows.now }
    requires ids { HaveOwnIds zone_plan_id plans.now }
    ensures plans { next_plans.new.items ≡ next_plans.old.items ++ map plan_of (zones (items_of live.now)) }
    ensures rows { next_rows.new.items ≡ next_rows.old.items ++ map (zone_row_of plans.now rows.now) (zones (items_of live.now)) }
    ensures room_plans { vec_capacity next_plans.old ≤ vec_capacity next_plans.new }
    ensures room_rows { vec_capacity next_rows.old ≤ vec_capacity next_rows.new }
{
    let mut cursor = 0;
    for item in live {
        add_zone(next_plans, next_rows, plans, rows, &mut cursor, item);
    }
}

// The fans of some live items, each with what it showed and the controller that holds it.
fn add_fans(
    next_plans: &mut Vec<FanPlan>,
    next_rows: &mut Vec<FanRow>,
    plans: &[FanPlan],
    rows: &[FanRow],
    controllers: &[&Item],
    live: &[&Item],
)
    requires plans { length next_plans.old.items + length (fans (items_of live.now)) ≤ vec_capacity next_plans.old }
    requires rows { length next_rows.old.items + length (fans (items_of live.now)) ≤ vec_capacity next_rows.old }
    requires same { length plans.now ≡ length rows.now }
    requires ids { HaveOwnIds fan_plan_id plans.now }
    ensures plans { next_plans.new.items ≡ next_plans.old.items ++ map (fan_plan_of (controls (items_of controllers.now))) (fans (items_of live.now)) }
    ensures rows { next_rows.new.items ≡ next_rows.old.items ++ map (fan_row_of plans.now rows.now) (fans (items_of live.now)) }
    ensures room_plans { vec_capacity next_plans.old ≤ vec_capacity next_plans.new }
    ensures room_rows { vec_capacity next_rows.old ≤ vec_capacity next_rows.new }
{
    let mut cursor = 0;
    for item in live {
        add_fan(
            next_plans,
            next_rows,
            plans,
            rows,
            &mut cursor,
            controllers,
            item,
        );
    }
}

/// Makes the zones anew, each with what it showed.
pub(crate) fn renew_zones(
    plans: &mut Vec<ZonePlan>,
    rows: &mut Vec<ZoneRow>,
    next_plans: &mut Vec<ZonePlan>,
    next_rows: &mut Vec<ZoneRow>,
    live: &[&Item],
)
    requires plans_empty { next_plans.old.items ≡ [] }
    requires rows_empty { next_rows.old.items ≡ [] }
    requires plans_room { length (zones (items_of live.now)) ≤ vec_capacity next_plans.old }
    requires rows_room { length (zones (items_of live.now)) ≤ vec_capacity next_rows.old }
    requires same { length plans.old.items ≡ length rows.old.items }
    requires ids { HaveOwnIds zone_plan_id plans.old.items }
    ensures plans { plans.new.items ≡ map plan_of (zones (items_of live.now)) }
    ensures rows { rows.new.items ≡ map (zone_row_of plans.old.items rows.old.items) (zones (items_of live.now)) }
    ensures plans_empty { next_plans.new.items ≡ [] }
    ensures rows_empty { next_rows.new.items ≡ [] }
    ensures plans_room { vec_capacity next_plans.old ≤ vec_capacity plans.new }
    ensures rows_room { vec_capacity next_rows.old ≤ vec_capacity rows.new }
    ensures spare_plans { vec_capacity plans.old ≤ vec_capacity next_plans.new }
    ensures spare_rows { vec_capacity rows.old ≤ vec_capacity next_rows.new }
{
    add_zones(next_plans, next_rows, plans, rows, live);
    trade(plans, next_plans);
    trade(rows, next_rows);
}

/// Makes the fans anew, each with what it showed. Those at the front and at the back that stay are kept in place: where one
/// board comes or goes, only its fans lie between.
pub(crate) fn renew_fans(
    plans: &mut Vec<FanPlan>,
    rows: &mut Vec<FanRow>,
    next_plans: &mut Vec<FanPlan>,
    next_rows: &mut Vec<FanRow>,
    controllers: &[&Item],
    live: &[&Item],
)
    requires plans_empty { next_plans.old.items ≡ [] }
    requires rows_empty { next_rows.old.items ≡ [] }
    requires plans_room { length (fans (items_of live.now)) ≤ vec_capacity plans.old }
    requires rows_room { length (fans (items_of live.now)) ≤ vec_capacity rows.old }
    requires next_plans_room { length (fans (items_of live.now)) ≤ vec_capacity next_plans.old }
    requires next_rows_room { length (fans (items_of live.now)) ≤ vec_capacity next_rows.old }
    requires same { length plans.old.items ≡ length rows.old.items }
    requires ids { HaveOwnIds fan_plan_id plans.old.items }
    requires live_ids { HaveOwnIds fan_id (fans (items_of live.now)) }
    ensures plans { plans.new.items ≡ map (fan_plan_of (controls (items_of controllers.now))) (fans (items_of live.now)) }
    ensures rows { rows.new.items ≡ map (fan_row_of plans.old.items rows.old.items) (fans (items_of live.now)) }
    ensures plans_empty { next_plans.new.items ≡ [] }
    ensures rows_empty { next_rows.new.items ≡ [] }
    ensures plans_room { vec_capacity plans.old ≤ vec_capacity plans.new }
    ensures rows_room { vec_capacity rows.old ≤ vec_capacity rows.new }
    ensures spare_plans { vec_capacity next_plans.old ≤ vec_capacity next_plans.new }
    ensures spare_rows { vec_capacity next_rows.old ≤ vec_capacity next_rows.new }
{
    let Middle { start, end } = keep_ends(plans, rows, controllers, live);
    add_fans(
        next_plans,
        next_rows,
        &plans[start.fans..end.fans],
        &rows[start.fans..end.fans],
        controllers,
        &live[start.items..end.items],
    );
    replace(plans, start.fans, end.fans, next_plans);
    replace(rows, start.fans, end.fans, next_rows);
}
