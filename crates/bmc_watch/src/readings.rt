ghost use Rattle.std.specs.Prelude.{◌≡◌, ◌+◌, ◌≤◌, ◌++◌, ◌<◌, ℕ, true, Ok, length, vec_capacity, vec_len};
ghost use Rattle.bmc_base.specs.Names.{name_of};
ghost use Rattle.std.specs.List.{flat_map, enumerate_from};
ghost use Rattle.sensor_core.specs.Sensors.{Sensor as SensorView};
ghost use Rattle.sensor_core.specs.Settings.{limits_of};
ghost use Rattle.bmc_machine.specs.Changes.{failure_change, alarm_change, sensor_changes};
ghost use Rattle.bmc_watch.specs.Readings.{Shows, most_changes};

use bmc_base::Name;
use bmc_report::Change;
use sensor_core::{Limit, Sensor};

// How severe a limit is whose alarms are critical.
const CRITICAL: u8 = 1;

/// What a sensor shows at one moment that changes are told by: whether it failed, and which of its alarms are on.
#[derive(Clone, Copy, Debug)]
pub struct Glimpse {
    failed: bool,
    alarms: [bool; 8],
}

impl Glimpse {
    /// Returns what a sensor shows.
    #[inline(always)]
    pub fn of(sensor: &Sensor) -> Glimpse
        ensures { Shows result sensor.now }
    {
        Glimpse {
            failed: sensor.is_failed(),
            alarms: sensor.all_alarms(),
        }
    }

    /// Whether a sensor shows the same.
    #[inline(always)]
    pub(crate) fn is_of(&self, sensor: &Sensor) -> bool
        ensures { result ≡ true → Shows self.now sensor.now }
    {
        self.failed == sensor.is_failed() && self.alarms == sensor.all_alarms()
    }
}

// Returns the name that is this text.
fn named(text: &str) -> Name
    requires { name_of text.now ≡ Ok text.now }
    ensures { result ≡ text.now }
{
    match Name::new(text) {
        Ok(name) => name,
        Err(_) => unreachable!(),
    }
}

// Appends that a sensor failed, or works again. There is room for it.
fn append_failure(name: &str, was: bool, is: bool, changes: &mut Vec<Change>)
    requires named { name_of name.now ≡ Ok name.now }
    requires room { vec_len changes.old + 1 ≤ vec_capacity changes.old }
    ensures items { changes.new.items ≡ changes.old.items ++ failure_change name.now was is }
    ensures len { vec_len changes.new ≤ vec_len changes.old + 1 }
    ensures capacity { vec_capacity changes.new ≡ vec_capacity changes.old }
{
    if was != is {
        changes.push_reserved(Change::Failure {
            failed: is,
            name: named(name),
        });
    }
}

// Appends that the alarm of a limit went on or off. There is room for it.
fn append_alarm(
    name: &str,
    before: &Glimpse,
    after: &Sensor,
    position: u8,
    limit: &Limit,
    changes: &mut Vec<Change>,
)
    requires named { name_of name.now ≡ Ok name.now }
    requires within { position < 8 }
    requires room { vec_len changes.old + 1 ≤ vec_capacity changes.old }
    ensures items { (sensor : SensorView) → Shows before.now sensor
        → changes.new.items ≡ changes.old.items ++ alarm_change name.now sensor after.now (position, limit.now) }
    ensures len { vec_len changes.new ≤ vec_len changes.old + 1 }
    ensures capacity { vec_capacity changes.new ≡ vec_capacity changes.old }
{
    let on = after.alarm(position);
    if before.alarms[usize::from(position)] != on {
        changes.push_reserved(Change::Alarm {
            on,
            name: named(name),
            position,
            high: limit.above,
            critical: limit.severity == CRITICAL,
        });
    }
}

// Appends what the alarms of a sensor show otherwise than before, by position. There is room for it.
fn append_alarms(name: &str, before: &Glimpse, after: &Sensor, changes: &mut Vec<Change>)
    requires named { name_of name.now ≡ Ok name.now }
    requires room { vec_len changes.old + 8 ≤ vec_capacity changes.old }
    ensures items { (sensor : SensorView) → Shows before.now sensor
        → changes.new.items ≡ changes.old.items ++ flat_map (alarm_change name.now sensor after.now) (enumerate_from 0 (limits_of after.now.setting)) }
    ensures capacity { vec_capacity changes.new ≡ vec_capacity changes.old }
{
    for (position, limit) in after.setting().limits_in_use().iter().enumerate() {
        append_alarm(name, before, after, position as u8, limit, changes);
    }
}

/// Appends what a sensor shows otherwise than before: whether it failed, and then its alarms by position. There is room for
/// it. It is not inlined: most readings tell nothing, and need no room for it.
#[cold]
#[inline(never)]
pub(crate) fn append_reading(
    name: &str,
    before: &Glimpse,
    after: &Sensor,
    changes: &mut Vec<Change>,
)
    requires named { name_of name.now ≡ Ok name.now }
    requires room { vec_len changes.old + most_changes ≤ vec_capacity changes.old }
    ensures items { (sensor : SensorView) → Shows before.now sensor
        → changes.new.items ≡ changes.old.items ++ sensor_changes name.now sensor after.now }
    ensures capacity { vec_capacity changes.new ≡ vec_capacity changes.old }
{
    append_failure(name, before.failed, after.is_failed(), changes);
    append_alarms(name, before, after, changes);
}
