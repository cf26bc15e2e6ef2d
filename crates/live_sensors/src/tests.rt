ghost use Rattle.std.specs.Prelude.{◌≡◌, IfOk};
ghost use Rattle.inventory.specs.Items.{IsValidPart};

use crate::LiveSensors;
use bmc_base::{Milli, Name};
use cfg_json::{Item, ItemId, ItemPart, SensorItem, Shared};
use sensor_core::{Limit, SensorSetting};
use std::alloc::Global;
use std::test::Fail;

// A limit that is not in use.
const UNUSED: Limit = Limit {
    above: false,
    severity: 0,
    value: Milli(0),
    hysteresis: Milli(0),
};

// Three halves of a raw number, and 0.100.
fn setting() -> SensorSetting {
    SensorSetting {
        num: 3,
        den: 2,
        offset: Milli(100),
        timeout: 0,
        limits: [UNUSED; 8],
        count: 0,
    }
}

// A sensor.
fn sensor(alloc: Global) -> Result<ItemPart, Fail>
    ensures { IfOk result IsValidPart }
{
    let setting = setting();
    if !setting.is_valid() {
        return Err(Fail::from("the setting is not valid"));
    }
    Ok(ItemPart::Sensor(SensorItem {
        bus: None,
        address: None,
        setting: Shared::new(alloc, setting)?,
    }))
}

// An item of this name.
fn item(name: &str, part: ItemPart) -> Result<Item, Fail>
    ensures { IfOk result (λ item. item.part ≡ part) }
{
    let id = ItemId {
        config: 0,
        place: None,
        expose: 0,
    };
    let name = Name::new(name)?;
    Ok(Item { id, name, part })
}

// What happens to the items of a name, or to its sensor.
#[derive(Clone, Copy)]
enum Act {
    Come,
    Go,
    FanGoes,
    Read(i64),
    Lose,
}

// Tells the sensors of an act. Where the name has no sensor, a reading and a loss change nothing.
fn tell(sensors: &mut LiveSensors, alloc: Global, name: &str, act: Act) -> Result<(), Fail> {
    match act {
        Act::Come => {
            sensors.reserve(alloc, 1)?;
            sensors.settle(&[], &[item(name, sensor(alloc)?)?]);
        }
        Act::Go => sensors.settle(&[item(name, sensor(alloc)?)?], &[]),
        Act::FanGoes => sensors.settle(&[item(name, ItemPart::Fan)?], &[]),
        Act::Read(raw) => {
            if let Some(slot) = sensors.find_slot(name) {
                sensors.good(slot, raw, 7)?;
            }
        }
        Act::Lose => {
            if let Some(slot) = sensors.find_slot(name) {
                sensors.lost(slot);
            }
        }
    }
    Ok(())
}

// The value of the sensor of a name, and whether it failed.
fn shown(sensors: &LiveSensors, name: &str) -> Result<Option<(Option<i64>, bool)>, Fail> {
    let Some(slot) = sensors.slot(name) else {
        return Ok(None);
    };
    let sensor = sensors.at(slot);
    let value = sensor.value().map(|value| value.0);
    Ok(Some((value, sensor.is_failed())))
}

#[test]
fn sensors_come_and_go(rt: HostRuntime) -> Result<(), Fail> {
    let new = Some((None, false));
    let first_read = Some((Some(107), false));
    let low = Some((Some(92), false));
    let failed = Some((Some(92), true));
    let well_again = Some((Some(101), false));
    let rows = [
        ("T", Act::Lose, None, None),
        ("T", Act::Come, new, None),
        ("U", Act::Come, new, new),
        ("T", Act::Read(5), first_read, new),
        ("U", Act::Read(-5), first_read, low),
        ("U", Act::Lose, first_read, low),
        ("U", Act::Lose, first_read, low),
        ("U", Act::Lose, first_read, low),
        ("U", Act::Lose, first_read, low),
        ("U", Act::Lose, first_read, failed),
        ("U", Act::FanGoes, first_read, failed),
        ("T", Act::Lose, first_read, failed),
        ("U", Act::Read(1), first_read, well_again),
        ("T", Act::Go, None, well_again),
        ("T", Act::Read(5), None, well_again),
        ("T", Act::Come, new, well_again),
        ("U", Act::Come, new, new),
        ("U", Act::Go, new, None),
    ];
    let mut sensors = LiveSensors::new(rt.alloc())?;
    for (number, (name, act, first, second)) in rows.iter().enumerate() {
        tell(&mut sensors, rt.alloc(), name, *act)?;
        assert_eq!(rt; shown(&sensors, "T")?, *first, "in row {number}");
        assert_eq!(rt; shown(&sensors, "U")?, *second, "in row {number}");
    }
    Ok(())
}
