ghost use Rattle.std.specs.Prelude.{◌≡◌, ◌++◌, OnOk, string_bytes};
ghost use Rattle.std.specs.List.{flat_map};
ghost use Rattle.inventory.specs.Indexes.{kept_of, index_in};
ghost use Rattle.inventory.specs.Items.{live};
ghost use Rattle.bmc_report.specs.BoardRows.{index_row};
ghost use Rattle.bmc_machine.specs.Logs.{is_error, entry_row as log_entry_row};
ghost use Rattle.bmc_machine.specs.Shows.{zone_text, fan_text};
ghost use Rattle.bmc_watch.specs.Watches.{view_items};
ghost use Rattle.bmc_core.specs.Lists.{item_sensor_row, row_if_live, sensor_rows, kept_rows, log_rows};

use bmc_base::{Ledger, Name, OutOfMemory};
use bmc_report::{
    SensorRow, push_fan_row, push_index_row, push_log_row, push_sensor_row, push_zone_row,
};
use bmc_watch::Watch;
use cfg_json::{Item, ItemPart, Shelf};
use event_log::{Class, LogEntry};
use fan_zone::{FanRow, ZoneRow};
use inventory::{BoardKey, IndexKeep};
use live_sensors::LiveSensors;

// Appends the row of an item, if it is a sensor.
fn push_sensor(
    item: &Item,
    sensors: &LiveSensors,
    tick: u64,
    text: &mut String,
) -> Result<(), OutOfMemory>
    ensures { OnOk result (string_bytes text.new ≡ string_bytes text.old ++ item_sensor_row sensors.now tick item.now) }
{
    let ItemPart::Sensor(_) = &item.part else {
        return Ok(());
    };
    let Some(slot) = sensors.slot(item.name.as_str()) else {
        return Ok(());
    };
    let sensor = sensors.at(slot);
    push_sensor_row(
        text,
        &SensorRow {
            name: &item.name,
            value: sensor.value(),
            failed: sensor.is_failed(),
            age: sensor.age(tick),
            alarms: sensor.alarms(),
        },
    )
}

// Appends the row of an item, if it is a live sensor.
fn push_if_live<L: Ledger>(
    watch: &Watch<L>,
    item: &Item,
    sensors: &LiveSensors,
    tick: u64,
    text: &mut String,
) -> Result<(), OutOfMemory>
    ensures { OnOk result (string_bytes text.new ≡ string_bytes text.old ++ row_if_live watch.now sensors.now tick item.now) }
{
    if !watch.is_live(item) {
        return Ok(());
    }
    push_sensor(item, sensors, tick, text)
}

// Appends the rows of the live sensors among items.
fn push_live<L: Ledger>(
    watch: &Watch<L>,
    items: &[Item],
    sensors: &LiveSensors,
    tick: u64,
    text: &mut String,
) -> Result<(), OutOfMemory>
    ensures { OnOk result (string_bytes text.new ≡ string_bytes text.old ++ flat_map (row_if_live watch.now sensors.now tick) items.now) }
{
    for item in items {
        push_if_live(watch, item, sensors, tick, text)?;
    }
    Ok(())
}

/// Appends the rows of the live sensors.
pub(crate) fn push_sensors<L: Ledger>(
    watch: &Watch<L>,
    sensors: &LiveSensors,
    tick: u64,
    text: &mut String,
) -> Result<(), OutOfMemory>
    ensures { OnOk result (string_bytes text.new ≡ string_bytes text.old ++ sensor_rows sensors.now tick (live (view_items watch.now))) }
{
    let boards = watch.shown();
    for board in boards {
        push_live(watch, &board.items, sensors, tick, text)?;
    }
    Ok(())
}

// Appends the rows of all boards that the configuration with this number and name ever had.
fn push_kept(
    name: &Name,
    keep: &IndexKeep,
    number: u32,
    text: &mut String,
) -> Result<(), OutOfMemory>
    ensures { let kept = kept_of keep.now.kept number in OnOk result (string_bytes text.new ≡ string_bytes text.old
        ++ flat_map (λ place. index_row name.now (index_in kept place) place) kept) }
{
    for position in 0..usize::MAX {
        let Some(place) = keep.at(number, position) else {
            return Ok(());
        };
        let key = BoardKey {
            config: number,
            place,
        };
        let index = keep.index(&key);
        push_index_row(text, name, index, key.place)?;
    }
    // no list is so long
    Err(OutOfMemory)
}

/// Appends the rows of all boards that each configuration ever had.
pub(crate) fn push_indexes<L: Ledger>(
    configs: &Shelf<L>,
    keep: &IndexKeep,
    text: &mut String,
) -> Result<(), OutOfMemory>
    ensures { OnOk result (string_bytes text.new ≡ string_bytes text.old ++ kept_rows configs.now keep.now.kept) }
{
    for number in 0..configs.len() {
        let Some(config) = configs.at(number) else {
            unreachable!()
        };
        push_kept(&config.name(), keep, number as u32, text)?;
    }
    Ok(())
}

// Appends the rows of zones.
fn push_zone_rows(rows: &[ZoneRow], text: &mut String) -> Result<(), OutOfMemory>
    ensures { OnOk result (string_bytes text.new ≡ string_bytes text.old ++ flat_map zone_text rows.now) }
{
    for row in rows {
        push_zone_row(text, &row.name, row.failsafe, row.setpoint)?;
    }
    Ok(())
}

// Appends the rows of fans.
fn push_fan_rows(rows: &[FanRow], text: &mut String) -> Result<(), OutOfMemory>
    ensures { OnOk result (string_bytes text.new ≡ string_bytes text.old ++ flat_map fan_text rows.now) }
{
    for row in rows {
        push_fan_row(text, &row.name, row.duty)?;
    }
    Ok(())
}

/// Appends the rows of zones, and then of fans.
#[tactic(auto, using(std::proofs::Common::append_assoc))]
pub(crate) fn push_zones(
    zones: &[ZoneRow],
    fans: &[FanRow],
    text: &mut String,
) -> Result<(), OutOfMemory>
    ensures { OnOk result (string_bytes text.new ≡ string_bytes text.old ++ (flat_map zone_text zones.now ++ flat_map fan_text fans.now)) }
{
    push_zone_rows(zones, text)?;
    push_fan_rows(fans, text)
}

// Whether a class is that of errors.
fn is_error(class: Class) -> bool
    ensures { result ≡ is_error class }
{
    matches!(class, Class::Error)
}

// Appends the row of an entry of the log.
fn push_entry(entry: &LogEntry, text: &mut String) -> Result<(), OutOfMemory>
    ensures { OnOk result (string_bytes text.new ≡ string_bytes text.old ++ log_entry_row entry.now) }
{
    push_log_row(
        text,
        entry.id,
        is_error(entry.class),
        entry.tick,
        &entry.change,
    )
}

/// Appends the rows of entries of the log.
pub(crate) fn push_log(entries: &[LogEntry], text: &mut String) -> Result<(), OutOfMemory>
    ensures { OnOk result (string_bytes text.new ≡ string_bytes text.old ++ log_rows entries.now) }
{
    for entry in entries {
        push_entry(entry, text)?;
    }
    Ok(())
}
