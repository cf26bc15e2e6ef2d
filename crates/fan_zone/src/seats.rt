ghost use Rattle.fan_zone.specs.Live.{LiveControl, controls, items_of};
ghost use Rattle.fan_zone.specs.Settings.{before};
ghost use Rattle.std.specs.Prelude.{◌≡◌, ◌+◌, ◌≤◌, ◌<◌, ◌++◌, [], ◌∷◌, None, Some, IsSome, length, map, slice_set, count_by};
ghost use Rattle.std.specs.List.{All, fold};
ghost use Rattle.std.specs.Vec.{vec_capacity, vec_len};
ghost use Rattle.ctl_face.specs.Ranges.{IsValid};
ghost use Rattle.ctl_face.specs.Seen.{loaded};
ghost use Rattle.ctl_face.specs.Kinds.{kind_of};
ghost use Rattle.fan_zone.specs.Boxes.{box_at};
ghost use Rattle.fan_zone.specs.Sets.{seating, free, held_of, kept_numbers, kept_seat, seat_all, seat_next};
ghost use Rattle.fan_zone.specs.Sound.{AreSeated, AreSpare, HaveOwnIds, held_id, number_of};
ghost use Rattle.fan_zone.specs.Seats.{is_new, IsReady, IsRoomy};

use crate::bank::Bank;
use crate::held::{Held, Seat};
use crate::resolve::{held_of, kept_seat};
use crate::rows::ZoneRow;
use cfg_json::{ControlItem, Item, ItemId, ItemPart};
use ctl_face::{Controller, Setting};
use live_sensors::LiveSensors;
use std::mem::swap;

/// One more element, where there is room.
pub(crate) fn put<T: Drop>(list: &mut Vec<T>, element: T)
    requires { length list.old.items < vec_capacity list.old }
    ensures items { list.new.items ≡ list.old.items ++ element ∷ [] }
    ensures room { vec_capacity list.old ≤ vec_capacity list.new }
{
    list.push_reserved(element);
}

// Notes the box of an item, if it is a controller that keeps one.
fn keep_item(taken: &mut Vec<usize>, old: &[Held], cursor: &mut usize, item: &Item)
    requires room { length taken.old.items + length (controls (item.now ∷ [])) ≤ vec_capacity taken.old }
    requires ids { HaveOwnIds held_id old.now }
    ensures items { taken.new.items ≡ taken.old.items ++ kept_numbers old.now (controls (item.now ∷ [])) }
    ensures room { vec_capacity taken.old ≤ vec_capacity taken.new }
{
    if let ItemPart::Control(_) = &item.part {
        if let Some(seat) = kept_seat(old, cursor, &item.id) {
            put(taken, seat.number);
        }
    }
}

/// Notes the boxes that are kept.
pub(crate) fn keep_all(taken: &mut Vec<usize>, old: &[Held], live: &[&Item])
    requires room { length taken.old.items + length (controls (items_of live.now)) ≤ vec_capacity taken.old }
    requires ids { HaveOwnIds held_id old.now }
    ensures items { taken.new.items ≡ taken.old.items ++ kept_numbers old.now (controls (items_of live.now)) }
    ensures room { vec_capacity taken.old ≤ vec_capacity taken.new }
{
    let mut cursor = 0;
    for item in live {
        keep_item(taken, old, &mut cursor, item);
    }
}

// Loads a free box of the kind.
fn seat_new<C: Controller>(bank: &mut Bank<C>, taken: &mut Vec<usize>, setting: &Setting) -> Seat
    requires room { length taken.old.items < vec_capacity taken.old }
    requires valid { IsValid setting.now }
    requires free { IsSome (free (kind_of setting.now) taken.old.items 0 bank.old) }
    ensures number { free (kind_of setting.now) taken.old.items 0 bank.old ≡ Some result.number }
    ensures age { result.age ≡ 0 }
    ensures taken { taken.new.items ≡ taken.old.items ++ result.number ∷ [] }
    ensures room { vec_capacity taken.old ≤ vec_capacity taken.new }
    ensures bank { bank.new ≡ slice_set bank.old result.number (loaded (box_at bank.old result.number) setting.now) }
{
    match bank.free(setting.kind(), taken) {
        None => unreachable!(),
        Some(number) => {
            bank.load(number, setting);
            put(taken, number);
            Seat { number, age: 0 }
        }
    }
}

// One controller takes its seat.
fn seat_control<C: Controller>(
    bank: &mut Bank<C>,
    taken: &mut Vec<usize>,
    next: &mut Vec<Held>,
    old: &[Held],
    cursor: &mut usize,
    rows: &[ZoneRow],
    sensors: &LiveSensors,
    id: &ItemId,
    control: &ControlItem,
)
    requires next { length next.old.items < vec_capacity next.old }
    requires taken { kept_seat old.now id.now ≡ None → length taken.old.items < vec_capacity taken.old }
    requires ready { IsReady old.now (seating next.old.items taken.old.items bank.old) (record { id = id.now; item = control.now }) }
    requires ids { HaveOwnIds held_id old.now }
    ensures seating { seating next.new.items taken.new.items bank.new
        ≡ seat_next rows.now sensors.now old.now (seating next.old.items taken.old.items bank.old) (record { id = id.now; item = control.now }) }
    ensures room_next { vec_capacity next.old ≤ vec_capacity next.new }
    ensures room_taken { vec_capacity taken.old ≤ vec_capacity taken.new }
{
    let seat = match kept_seat(old, cursor, id) {
        Some(seat) => seat,
        None => seat_new(bank, taken, &control.setting),
    };
    put(next, held_of(rows, sensors, id, control, seat));
}

// An item takes its seat, if it is a controller.
fn seat_item<C: Controller>(
    bank: &mut Bank<C>,
    taken: &mut Vec<usize>,
    next: &mut Vec<Held>,
    old: &[Held],
    cursor: &mut usize,
    rows: &[ZoneRow],
    sensors: &LiveSensors,
    item: &Item,
)
    requires next { length next.old.items + length (controls (item.now ∷ [])) ≤ vec_capacity next.old }
    requires taken { length taken.old.items + count_by (is_new old.now) (controls (item.now ∷ [])) ≤ vec_capacity taken.old }
    requires ready { All (IsReady old.now (seating next.old.items taken.old.items bank.old)) (controls (item.now ∷ [])) }
    requires ids { HaveOwnIds held_id old.now }
    ensures seating { seating next.new.items taken.new.items bank.new
        ≡ seat_all rows.now sensors.now old.now (seating next.old.items taken.old.items bank.old) (controls (item.now ∷ [])) }
    ensures room_next { vec_capacity next.old ≤ vec_capacity next.new }
    ensures room_taken { vec_capacity taken.old ≤ vec_capacity taken.new }
{
    if let ItemPart::Control(control) = &item.part {
        seat_control(
            bank,
            taken,
            next,
            old,
            cursor,
            rows,
            sensors,
            &item.id,
            control.get(),
        );
    }
}

/// Each controller takes its seat: the one that it had, or the first free box of its kind, loaded.
pub(crate) fn seat_live<C: Controller>(
    bank: &mut Bank<C>,
    taken: &mut Vec<usize>,
    next: &mut Vec<Held>,
    old: &[Held],
    rows: &[ZoneRow],
    sensors: &LiveSensors,
    live: &[&Item],
)
    requires next { length next.old.items + length (controls (items_of live.now)) ≤ vec_capacity next.old }
    requires taken { length taken.old.items + count_by (is_new old.now) (controls (items_of live.now)) ≤ vec_capacity taken.old }
    requires roomy { IsRoomy old.now (seating next.old.items taken.old.items bank.old) (controls (items_of live.now)) }
    requires ids { HaveOwnIds held_id old.now }
    ensures seating { seating next.new.items taken.new.items bank.new
        ≡ seat_all rows.now sensors.now old.now (seating next.old.items taken.old.items bank.old) (controls (items_of live.now)) }
    ensures room_next { vec_capacity next.old ≤ vec_capacity next.new }
    ensures room_taken { vec_capacity taken.old ≤ vec_capacity taken.new }
{
    let mut cursor = 0;
    for item in live {
        seat_item(bank, taken, next, old, &mut cursor, rows, sensors, item);
    }
}

/// The spare takes the place of the list, and is emptied.
pub(crate) fn trade<T: Drop>(list: &mut Vec<T>, spare: &mut Vec<T>)
    ensures items { list.new.items ≡ spare.old.items }
    ensures empty { spare.new.items ≡ [] }
    ensures room { vec_capacity list.new ≡ vec_capacity spare.old }
    ensures spare_room { vec_capacity spare.new ≡ vec_capacity list.old }
{
    swap(list, spare);
    spare.clear();
}

/// Makes the controllers anew: those that stay keep their boxes, the boxes of those that are gone are unloaded, and
/// each new one takes the first free box of its kind.
pub(crate) fn renew_seats<C: Controller>(
    bank: &mut Bank<C>,
    held: &mut Vec<Held>,
    taken: &mut Vec<usize>,
    next: &mut Vec<Held>,
    rows: &[ZoneRow],
    sensors: &LiveSensors,
    live: &[&Item],
)
    requires taken_empty { taken.old.items ≡ [] }
    requires next_empty { next.old.items ≡ [] }
    requires taken_room { length (controls (items_of live.now)) ≤ vec_capacity taken.old }
    requires next_room { length (controls (items_of live.now)) ≤ vec_capacity next.old }
    requires roomy { IsRoomy held.old.items (before held.old.items bank.old (items_of live.now)) (controls (items_of live.now)) }
    requires ids { HaveOwnIds held_id held.old.items }
    requires seats { AreSeated bank.old held.old.items }
    requires spare { AreSpare bank.old (map number_of held.old.items) }
    ensures bank { bank.new
        ≡ (seat_all rows.now sensors.now held.old.items (before held.old.items bank.old (items_of live.now)) (controls (items_of live.now))).bank }
    ensures held { held.new.items
        ≡ (seat_all rows.now sensors.now held.old.items (before held.old.items bank.old (items_of live.now)) (controls (items_of live.now))).held }
    ensures taken_empty { taken.new.items ≡ [] }
    ensures next_empty { next.new.items ≡ [] }
    ensures taken_room { vec_capacity taken.old ≤ vec_capacity taken.new }
    ensures next_room { vec_capacity held.old ≤ vec_capacity next.new }
    ensures held_room { vec_capacity next.old ≤ vec_capacity held.new }
{
    keep_all(taken, held, live);
    bank.clear_gone(held, taken);
    seat_live(bank, taken, next, held, rows, sensors, live);
    trade(held, next);
    taken.clear();
}
