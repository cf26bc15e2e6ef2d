ghost use Rattle.std.specs.Prelude.{◌≡◌, ◌+◌, ◌-◌, ◌≤◌, ◌++◌, [], Some, if◌then◌else◌, length, take, drop, slice_range};
ghost use Rattle.std.specs.Vec.{vec_capacity};
ghost use Rattle.fan_zone.specs.Live.{controls, fan_id, fans, items_of, id_eq};
ghost use Rattle.fan_zone.specs.Sound.{HaveOwnIds, fan_plan_id};
ghost use Rattle.fan_zone.specs.SetRows.{fan_plan_of, is_fan, kept_fan};
ghost use Rattle.fan_zone.specs.Kept.{KeepsFront, KeepsBack, KeepsEnds};

use crate::renew::holder;
use crate::resolve::same_id;
use crate::rows::{FanPlan, FanRow};
use cfg_json::{Item, ItemPart};

/// How many items there are, and how many fans among them.
#[derive(Clone, Copy)]
pub(crate) struct Count {
    pub items: usize,
    pub fans: usize,
}

/// What is not kept: the items and the fans from one count up to another.
#[derive(Clone, Copy)]
pub(crate) struct Middle {
    pub start: Count,
    pub end: Count,
}

// Whether an item is a fan.
fn is_fan(item: &Item) -> bool
    ensures { result ≡ is_fan item.now.part }
{
    match &item.part {
        ItemPart::Fan => true,
        _ => false,
    }
}

// Keeps a fan, where this is its plan, and returns whether it is: the fan gets its holder and its name anew, and its duty stays.
// To copy a name is faster than to compare it.
#[inline(always)]
fn keep_fan(plan: &mut FanPlan, row: &mut FanRow, controllers: &[&Item], item: &Item) -> bool
    ensures stays { result ≡ id_eq plan.old.id item.now.id }
    ensures plan { plan.new
        ≡ (if result then fan_plan_of (controls (items_of controllers.now)) (record { id = item.now.id; name = item.now.name }) else plan.old) }
    ensures row { row.new ≡ (if result then kept_fan item.now.name (Some row.old) else row.old) }
{
    if !same_id(&plan.id, &item.id) {
        return false;
    }
    plan.holder = holder(controllers, &item.name);
    row.name = item.name.copied();
    true
}

// Keeps the fans at the front that stay, up to the first one that does not. Returns how much is in front of it.
fn keep_front(
    plans: &mut [FanPlan],
    rows: &mut [FanRow],
    controllers: &[&Item],
    live: &[&Item],
) -> Count
    requires same { length plans.old ≡ length rows.old }
    requires ids { HaveOwnIds fan_plan_id plans.old }
    ensures items { result.items ≤ length live.now }
    ensures kept { KeepsFront (controls (items_of controllers.now)) (fans (items_of (take result.items live.now))) result.fans
        plans.old rows.old plans.new rows.new }
{
    let mut fans = 0;
    for items in 0..live.len() {
        let item = live[items];
        if is_fan(item) {
            if fans == plans.len()
                || !keep_fan(&mut plans[fans], &mut rows[fans], controllers, item)
            {
                return Count { items, fans };
            }
            fans += 1;
        }
    }
    Count {
        items: live.len(),
        fans,
    }
}

// Keeps the fans at the back that stay, down to the last one that does not. Returns how much is left, with that one.
fn keep_back(
    plans: &mut [FanPlan],
    rows: &mut [FanRow],
    controllers: &[&Item],
    live: &[&Item],
) -> Count
    requires same { length plans.old ≡ length rows.old }
    requires ids { HaveOwnIds fan_plan_id plans.old }
    ensures items { result.items ≤ length live.now }
    ensures kept { KeepsBack (controls (items_of controllers.now)) (fans (items_of (drop result.items live.now))) result.fans
        plans.old rows.old plans.new rows.new }
{
    let mut fans = plans.len();
    for behind in 0..live.len() {
        let items = live.len() - behind;
        let item = live[items - 1];
        if is_fan(item) {
            if fans == 0
                || !keep_fan(&mut plans[fans - 1], &mut rows[fans - 1], controllers, item)
            {
                return Count { items, fans };
            }
            fans -= 1;
        }
    }
    Count { items: 0, fans }
}

/// Keeps the fans that stay at the front and at the back, and returns what lies between. Each of them gets its holder and its
/// name anew, and keeps its duty.
pub(crate) fn keep_ends(
    plans: &mut [FanPlan],
    rows: &mut [FanRow],
    controllers: &[&Item],
    live: &[&Item],
) -> Middle
    requires same { length plans.old ≡ length rows.old }
    requires ids { HaveOwnIds fan_plan_id plans.old }
    requires live_ids { HaveOwnIds fan_id (fans (items_of live.now)) }
    ensures order { result.start.items ≤ result.end.items }
    ensures items { result.end.items ≤ length live.now }
    ensures kept { KeepsEnds (controls (items_of controllers.now)) (fans (items_of (take result.start.items live.now)))
        (fans (items_of (slice_range live.now result.start.items result.end.items))) (fans (items_of (drop result.end.items live.now)))
        result.start.fans result.end.fans plans.old rows.old plans.new rows.new }
{
    let start = keep_front(plans, rows, controllers, live);
    let left = keep_back(
        &mut plans[start.fans..],
        &mut rows[start.fans..],
        controllers,
        &live[start.items..],
    );
    Middle {
        start,
        end: Count {
            items: start.items + left.items,
            fans: start.fans + left.fans,
        },
    }
}

// Cuts out the elements from `start` to `end`: they are rotated to the end first.
fn cut_out<T: Drop>(list: &mut Vec<T>, start: usize, end: usize)
    requires start { start ≤ end }
    requires end { end ≤ length list.old.items }
    ensures items { list.new.items ≡ take start list.old.items ++ drop end list.old.items }
    ensures room { vec_capacity list.new ≡ vec_capacity list.old }
{
    list[start..].rotate_left(end - start);
    let left = list.len() - (end - start);
    list.truncate(left);
}

// Puts the elements of a spare in at `start`, and empties the spare: they are appended, and then rotated into their place.
fn put_in<T: Drop>(list: &mut Vec<T>, start: usize, spare: &mut Vec<T>)
    requires start { start ≤ length list.old.items }
    requires room { length list.old.items + length spare.old.items ≤ vec_capacity list.old }
    ensures items { list.new.items ≡ take start list.old.items ++ (spare.old.items ++ drop start list.old.items) }
    ensures empty { spare.new.items ≡ [] }
    ensures room { vec_capacity list.old ≤ vec_capacity list.new }
    ensures spare_room { vec_capacity spare.new ≡ vec_capacity spare.old }
{
    let added = spare.len();
    match list.append(spare) {
        Ok(()) => {}
        Err(_) => unreachable!(),
    }
    list[start..].rotate_right(added);
}

/// Puts the elements of a spare in place of those from `start` to `end`, and empties the spare. What goes is rotated behind the
/// list and cut off, and then what comes is appended and rotated into its place. A rotation clears 4,096 bytes of stack, and is
/// faster than to reverse the elements twice all the same. One by nothing does nothing.
pub(crate) fn replace<T: Drop>(list: &mut Vec<T>, start: usize, end: usize, spare: &mut Vec<T>)
    requires start { start ≤ end }
    requires end { end ≤ length list.old.items }
    requires room { length list.old.items + length spare.old.items ≤ vec_capacity list.old + (end - start) }
    ensures items { list.new.items ≡ take start list.old.items ++ (spare.old.items ++ drop end list.old.items) }
    ensures empty { spare.new.items ≡ [] }
    ensures room { vec_capacity list.old ≤ vec_capacity list.new }
    ensures spare_room { vec_capacity spare.new ≡ vec_capacity spare.old }
{
    cut_out(list, start, end);
    put_in(list, start, spare);
}
