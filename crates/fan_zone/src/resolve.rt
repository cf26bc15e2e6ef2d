ghost use Rattle.std.specs.Prelude.{◌≡◌, bytes_eq, ◌+◌, ◌≤◌, ◌<◌, ◌++◌, [], ◌∷◌, None, Some, length, map, unwrap_or};
ghost use Rattle.std.specs.Vec.{vec_capacity, vec_len};
ghost use Rattle.fan_zone.specs.Live.{id_eq};
ghost use Rattle.fan_zone.specs.Sets.{find_held, held_of, kept_seat, role_of, seat_of, zone_of};
ghost use Rattle.fan_zone.specs.Sound.{HaveOwnIds, held_id};
ghost use Rattle.live_sensors.specs.Sensors.{slot_of};

use crate::held::{Held, Inputs, Role, Seat};
use crate::rows::ZoneRow;
use bmc_base::{Milli, Name};
use cfg_json::{ControlItem, ItemId, Names};
use ctl_face::{PidClass, Setting};
use live_sensors::LiveSensors;

/// Whether two names are the same.
pub(crate) fn same_name(name: &Name, other: &Name) -> bool
    ensures { result ≡ bytes_eq name.now other.now }
{
    name == other
}

/// Whether two ids are the same.
pub(crate) fn same_id(id: &ItemId, other: &ItemId) -> bool
    ensures { result ≡ id_eq id.now other.now }
{
    id == other
}

// The number of the zone with this name.
fn zone_of(rows: &[ZoneRow], name: &Name) -> Option<usize>
    ensures { result ≡ zone_of rows.now name.now }
{
    for number in 0..rows.len() {
        if same_name(&rows[number].name, name) {
            return Some(number);
        }
    }
    None
}

/// What a controller with this setting does.
pub(crate) fn role_of(setting: &Setting) -> Role
    ensures { result ≡ role_of setting.now }
{
    match setting {
        Setting::Pid(set) => match set.class {
            PidClass::Fan => Role::Fan,
            PidClass::Temp => Role::Temp(set.setpoint),
            PidClass::Margin => Role::Margin(set.setpoint),
        },
        _ => Role::Temp(Milli(0)),
    }
}

// The slots of these names.
fn inputs_of(sensors: &LiveSensors, names: &Names) -> Inputs
    requires { length names.now ≤ 16 }
    ensures { result ≡ map (slot_of sensors.now) names.now }
{
    let names = names.as_slice();
    let mut inputs = Inputs::new();
    for name in names {
        inputs.push(sensors.slot(name.as_str()));
    }
    inputs
}

/// The record of a controller in a seat.
pub(crate) fn held_of(
    rows: &[ZoneRow],
    sensors: &LiveSensors,
    id: &ItemId,
    item: &ControlItem,
    seat: Seat,
) -> Held
    requires { length item.now.inputs ≤ 16 }
    ensures { result ≡ held_of rows.now sensors.now (record { id = id.now; item = item.now }) seat }
{
    Held {
        id: *id,
        role: role_of(&item.setting),
        zone: zone_of(rows, &item.zone).unwrap_or(0),
        inputs: inputs_of(sensors, &item.inputs),
        number: seat.number,
        age: seat.age,
    }
}

// The seat of a controller that is held.
fn seat_of(held: &Held) -> Seat
    ensures { result ≡ seat_of held.now }
{
    Seat {
        number: held.number,
        age: held.age,
    }
}

/// The seat that a controller had. It is looked for where the cursor stands, and only then from the first one on. The cursor
/// then stands behind it.
pub(crate) fn kept_seat(old: &[Held], cursor: &mut usize, id: &ItemId) -> Option<Seat>
    requires { HaveOwnIds held_id old.now }
    ensures { result ≡ kept_seat old.now id.now }
{
    let at = *cursor;
    if at < old.len() {
        let held = &old[at];
        if same_id(&held.id, id) {
            *cursor = at + 1;
            return Some(seat_of(held));
        }
    }
    for number in 0..old.len() {
        if same_id(&old[number].id, id) {
            *cursor = number + 1;
            return Some(seat_of(&old[number]));
        }
    }
    None
}
