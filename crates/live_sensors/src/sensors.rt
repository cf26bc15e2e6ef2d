ghost use Rattle.std.specs.Prelude.{◌≡◌, ◌<◌, ◌≤◌, ◌+◌, ◌↔◌, ℕ, false, bytes_eq, if◌then◌else◌, List, [], length, All};
ghost use Rattle.std.specs.Prelude.{None, Some, Ok, is_none, option_map, IfSome, OnSome, IsOk, IfOk, OnOk, OnErr};
ghost use Rattle.bmc_base.specs.Names.{name_of};
ghost use Rattle.sensor_core.specs.Settings.{IsValidSetting, IsRaw};
ghost use Rattle.sensor_core.specs.Sensors.{Good, Lost, ShowSame, sensor_of};
ghost use Rattle.sensor_core.specs.Updates.{good_after, lost_after, Takes};
ghost use Rattle.cfg_json.specs.declared.item.Item.{Item};
ghost use Rattle.live_sensors.specs.Sensors.{slot_of, sensor_in, ContainsSlot, AtSlot, Changes};
ghost use Rattle.inventory.specs.Items.{IsValidPart, IsValidItem};
ghost use Rattle.live_sensors.specs.Items.{setting_in, is_sensor, has_sensor, dropped_one, started_one, dropped, started, settled};

use crate::by_text::ByText;
use crate::followers::Followers;
use bmc_base::{Name, OutOfMemory};
use cfg_json::{Item, ItemPart};
use indexmap::IndexMap;
use sensor_core::{ReadingRange, Sensor, SensorSetting, SensorTable};
use std::alloc::Global;
use std::marker::Model;

/// The live sensors, each under its name, and room for more of them. A sensor keeps its slot until it
/// is dropped.
#[derive(Drop)]
pub struct LiveSensors {
    slots: IndexMap<Name, usize>,
    table: SensorTable,
    followers: Followers,
}

impl Model for LiveSensors {
    ghost use Rattle.std.specs.Prelude.{min};
    ghost use Rattle.indexmap.specs.IndexMap.{spare};
    ghost use Rattle.live_sensors.specs.Sensors.{LiveSensors, IsTied};

    ghost Value = { LiveSensors };

    ghost view = { λ s. record { names = s.slots.entries; slots = s.table.slots; room = min s.table.spare (spare s.slots) } };

    ghost invariant = { λ s. IsTied s.slots.entries s.table.slots };
}

// Returns the setting of a sensor item.
fn setting_in(part: &ItemPart) -> Option<SensorSetting>
    ensures { result ≡ setting_in part.now }
{
    match part {
        ItemPart::Sensor(sensor) => Some(*sensor.setting.get()),
        _ => None,
    }
}

impl LiveSensors {
    /// Returns no sensors.
    pub fn new(alloc: Global) -> Result<LiveSensors, OutOfMemory>
        ensures names { IfOk result (λ sensors. sensors.names ≡ []) }
        ensures none { IfOk result (λ sensors. (name : List ℕ) → sensor_in sensors name ≡ None) }
    {
        Ok(LiveSensors {
            slots: IndexMap::new(alloc),
            table: SensorTable::new(alloc)?,
            followers: Followers::new(alloc)?,
        })
    }

    /// Makes room for `n` more sensors. Where there is room for them it takes no memory. The sensors
    /// keep their slots, and no room is given back, also for want of memory.
    pub fn reserve(&mut self, alloc: Global, n: usize) -> Result<(), OutOfMemory>
        ensures names { self.new.names ≡ self.old.names }
        ensures slots { self.new.slots ≡ self.old.slots }
        ensures room { OnOk result (n ≤ self.new.room) }
        ensures more { self.old.room ≤ self.new.room }
        ensures had_room { 0 < n → n ≤ self.old.room → IsOk result }
    {
        self.slots.reserve(n)?;
        self.table.reserve(alloc, n)
    }

    /// Drops the sensors of the items that are gone, and then starts a blank one for each new sensor
    /// item. The other sensors keep their slots. It takes no memory, since there is room.
    pub fn settle(&mut self, gone: &[Item], new: &[Item])
        requires room { length new.now ≤ self.old.room }
        requires valid { All IsValidItem new.now }
        ensures slots { (name : List ℕ) → has_sensor name gone.now ≡ false → has_sensor name new.now ≡ false
            → slot_of self.new name ≡ slot_of self.old name }
        ensures sensors { (name : List ℕ) → sensor_in self.new name ≡ settled gone.now new.now name (sensor_in self.old name) }
    {
        self.drop_all(gone);
        self.start_all(new);
    }

    /// Borrows the sensors by slot.
    pub fn table(&self) -> &SensorTable
        ensures { result.now.slots ≡ self.now.slots }
    {
        &self.table
    }

    /// Returns the slot of a name, if the name has a sensor. Any text may be asked for: one that is no name has none.
    pub fn slot(&self, name: &str) -> Option<usize>
        ensures slot { result ≡ slot_of self.now name.now }
        ensures sensor { is_none result ≡ is_none (sensor_in self.now name.now) }
        ensures contains { IfSome result (ContainsSlot self.now.names) }
        ensures named { OnSome result (name_of name.now ≡ Ok name.now) }
    {
        let (_, slot) = self.look_up(name)?;
        Some(slot)
    }

    /// Returns the slot of a name, as [`LiveSensors::slot`] does, and notes that the name was asked for. The name that came behind
    /// the last one before is compared first, and only another one is looked up.
    #[inline(always)]
    pub fn find_slot(&mut self, name: &str) -> Option<usize>
        ensures same { self.new ≡ self.old }
        ensures slot { result ≡ slot_of self.new name.now }
        ensures sensor { is_none result ≡ is_none (sensor_in self.new name.now) }
        ensures contains { IfSome result (ContainsSlot self.new.names) }
        ensures named { OnSome result (name_of name.now ≡ Ok name.now) }
    {
        let (position, slot) = self.find(name)?;
        self.followers.note(position);
        Some(slot)
    }

    // Returns the position and the slot of a name, if it has one. The name that is expected is compared before any is looked up.
    #[inline(always)]
    fn find(&self, name: &str) -> Option<(usize, usize)>
        ensures slot { option_map (λ found. found.1) result ≡ slot_of self.now name.now }
        ensures sensor { is_none result ≡ is_none (sensor_in self.now name.now) }
        ensures contains { IfSome result (λ found. ContainsSlot self.now.names found.1) }
        ensures named { OnSome result (name_of name.now ≡ Ok name.now) }
    {
        let expected = self.followers.expected();
        if let Some((key, slot)) = self.slots.get_index(expected) {
            if key.as_str() == name {
                return Some((expected, *slot));
            }
        }
        self.look_up(name)
    }

    // Looks a name up, and returns its position and its slot, if it has one. It is not inlined: mostly it is the name that is
    // expected.
    #[inline(never)]
    fn look_up(&self, name: &str) -> Option<(usize, usize)>
        ensures slot { option_map (λ found. found.1) result ≡ slot_of self.now name.now }
        ensures sensor { is_none result ≡ is_none (sensor_in self.now name.now) }
        ensures contains { IfSome result (λ found. ContainsSlot self.now.names found.1) }
        ensures named { OnSome result (name_of name.now ≡ Ok name.now) }
    {
        let (position, key, slot) = self.slots.get_full(ByText { text: name })?;
        // each key is a name, which is said with its text
        let _name = key.as_str();
        Some((position, *slot))
    }

    /// Borrows the sensor in a slot that a name has.
    pub fn at(&self, slot: usize) -> &Sensor
        requires { ContainsSlot self.now.names slot }
        ensures { (name : List ℕ) → slot_of self.now name ≡ Some slot → sensor_in self.now name ≡ Some result.now }
    {
        match self.table.get(slot) {
            Some(sensor) => sensor,
            None => unreachable!(),
        }
    }

    /// Takes a good reading of the sensor in a slot that a name has, as [`Sensor::good`] does.
    pub fn good(&mut self, slot: usize, raw: i64, tick: u64) -> Result<bool, ReadingRange>
        requires { ContainsSlot self.old.names slot }
        ensures range { IsOk result ↔ IsRaw raw }
        ensures changes { OnOk result (Changes self.old self.new slot (λ sensor. good_after sensor raw tick)) }
        ensures takes { OnOk result (AtSlot self.old slot (λ sensor. Takes sensor (good_after sensor raw tick) (Good raw tick))) }
        ensures shown { IfOk result (λ otherwise. AtSlot self.old slot (λ sensor. otherwise ≡ false ↔ ShowSame sensor (good_after sensor raw tick))) }
        ensures same { OnErr result (self.new ≡ self.old) }
    {
        self.table.good_at(slot, raw, tick)
    }

    /// Takes a loss of the sensor in a slot that a name has, as [`Sensor::lost`] does.
    pub fn lost(&mut self, slot: usize)
        requires { ContainsSlot self.old.names slot }
        ensures changes { Changes self.old self.new slot lost_after }
        ensures takes { AtSlot self.old slot (λ sensor. Takes sensor (lost_after sensor) Lost) }
    {
        self.table.lost_at(slot);
    }

    // Drops the sensor of a name, if it has one.
    fn forget(&mut self, name: &Name)
        ensures sensors { (other : List ℕ) → sensor_in self.new other ≡ (if bytes_eq name.now other then None else sensor_in self.old other) }
        ensures slots { (other : List ℕ) → bytes_eq name.now other ≡ false → slot_of self.new other ≡ slot_of self.old other }
        ensures room { self.old.room ≤ self.new.room }
    {
        if let Some(slot) = self.slots.swap_remove(name) {
            self.table.take(slot);
        }
    }

    // Starts a blank sensor under a name that has none.
    fn put(&mut self, name: Name, setting: SensorSetting)
        requires valid { IsValidSetting setting }
        requires room { 0 < self.old.room }
        requires free { sensor_in self.old name ≡ None }
        ensures sensors { (other : List ℕ)
            → sensor_in self.new other ≡ (if bytes_eq name other then Some (sensor_of setting []) else sensor_in self.old other) }
        ensures slots { (other : List ℕ) → bytes_eq name other ≡ false → slot_of self.new other ≡ slot_of self.old other }
        ensures room { self.old.room ≤ self.new.room + 1 }
    {
        let slot = self.table.put(Sensor::new(setting));
        match self.slots.insert(name, slot) {
            Ok(_) => {}
            Err(_) => unreachable!(),
        }
    }

    // Drops the sensor of an item that is gone.
    fn drop_one(&mut self, item: &Item)
        ensures sensors { (name : List ℕ) → sensor_in self.new name ≡ dropped_one item.now name (sensor_in self.old name) }
        ensures slots { (name : List ℕ) → is_sensor name item.now ≡ false → slot_of self.new name ≡ slot_of self.old name }
        ensures room { self.old.room ≤ self.new.room }
    {
        if setting_in(&item.part).is_some() {
            self.forget(&item.name);
        }
    }

    // Starts a blank sensor for a new sensor item, in the place of one that its name may have.
    fn start_one(&mut self, item: &Item)
        requires valid { IsValidPart item.now.part }
        requires room { 0 < self.old.room }
        ensures sensors { (name : List ℕ) → sensor_in self.new name ≡ started_one item.now name (sensor_in self.old name) }
        ensures slots { (name : List ℕ) → is_sensor name item.now ≡ false → slot_of self.new name ≡ slot_of self.old name }
        ensures room { self.old.room ≤ self.new.room + 1 }
    {
        if let Some(setting) = setting_in(&item.part) {
            self.forget(&item.name);
            self.put(item.name.copied(), setting);
        }
    }

    // Drops the sensors of the items that are gone.
    fn drop_all(&mut self, gone: &[Item])
        ensures sensors { (name : List ℕ) → sensor_in self.new name ≡ dropped gone.now name (sensor_in self.old name) }
        ensures slots { (name : List ℕ) → has_sensor name gone.now ≡ false → slot_of self.new name ≡ slot_of self.old name }
        ensures room { self.old.room ≤ self.new.room }
    {
        for item in gone {
            self.drop_one(item);
        }
    }

    // Starts a blank sensor for each new sensor item.
    fn start_all(&mut self, new: &[Item])
        requires room { length new.now ≤ self.old.room }
        requires valid { All IsValidItem new.now }
        ensures sensors { (name : List ℕ) → sensor_in self.new name ≡ started new.now name (sensor_in self.old name) }
        ensures slots { (name : List ℕ) → has_sensor name new.now ≡ false → slot_of self.new name ≡ slot_of self.old name }
    {
        for item in new {
            self.start_one(item);
        }
    }
}
