ghost use Rattle.std.specs.Prelude.{◌≡◌, false, ◌<◌, ◌≤◌, ◌+◌, ◌↔◌, [], Some, None, IsOk, IfOk, OnOk, OnErr, option_map, option_copied, IfSome};
ghost use Rattle.std.specs.Option.{option_copied_mut};
ghost use Rattle.std.specs.Borrow.{sem};
ghost use Rattle.sensor_core.specs.Settings.{IsRaw};
ghost use Rattle.sensor_core.specs.Sensors.{Good, Lost, ShowSame};
ghost use Rattle.sensor_core.specs.Updates.{good_after, lost_after, Takes};
ghost use Rattle.sensor_core.specs.Tables.{sensor_at, IsLive, Puts};
ghost use Rattle.sensor_core.specs.Lends.{LendsSensor};

use crate::{ReadingRange, Sensor};
use bmc_base::OutOfMemory;
use slab::Slab;
use std::alloc::Global;
use std::marker::Model;

// For how many sensors a new table has room.
const ROOM: usize = 8;

/// Sensors by slot, and room for more of them. A sensor keeps its slot until it is taken out.
#[derive(Drop)]
pub struct SensorTable {
    slab: Slab<Sensor>,
}

impl Model for SensorTable {
    ghost use Rattle.std.specs.Prelude.{◌-◌};
    ghost use Rattle.slab.specs.Slab.{slab_len};
    ghost use Rattle.sensor_core.specs.Tables.{Table};

    ghost Value = { Table };

    ghost view = { λ t. record { slots = t.slab.slots; spare = t.slab.capacity - slab_len t.slab } };
}

impl SensorTable {
    /// Returns a table without sensors, and with room for a few.
    pub fn new(alloc: Global) -> Result<SensorTable, OutOfMemory>
        ensures empty { IfOk result (λ table. table.slots ≡ []) }
        ensures room { IfOk result (λ table. 0 < table.spare) }
    {
        Ok(SensorTable {
            slab: Slab::with_capacity(alloc, ROOM)?,
        })
    }

    /// Makes room for `n` more sensors. Where there is room for them it takes no memory. The
    /// sensors stay, and no room is given back, also for want of memory.
    pub fn reserve(&mut self, alloc: Global, n: usize) -> Result<(), OutOfMemory>
        ensures slots { self.new.slots ≡ self.old.slots }
        ensures room { OnOk result (n ≤ self.new.spare) }
        ensures more { self.old.spare ≤ self.new.spare }
        ensures had_room { 0 < n → n ≤ self.old.spare → IsOk result }
    {
        let _ = alloc;
        self.slab.reserve(n)?;
        Ok(())
    }

    /// Puts a sensor into a free slot, and returns the slot. It takes no memory, since there is
    /// room.
    pub fn put(&mut self, sensor: Sensor) -> usize
        requires { 0 < self.old.spare }
        ensures free { sensor_at self.old result ≡ None }
        ensures puts { Puts self.old self.new result (Some sensor) }
        ensures spare { self.new.spare + 1 ≡ self.old.spare }
    {
        self.slab.insert_reserved(sensor)
    }

    /// Takes the sensor out of a slot that has one. The slot is free then, and there is room for
    /// one more.
    pub fn take(&mut self, slot: usize) -> Sensor
        requires { IsLive self.old slot }
        ensures sensor { sensor_at self.old slot ≡ Some result }
        ensures puts { Puts self.old self.new slot None }
        ensures spare { self.new.spare ≡ self.old.spare + 1 }
    {
        self.slab.remove(slot)
    }

    /// Borrows the sensor in a slot, if there is one.
    pub fn get(&self, slot: usize) -> Option<&Sensor>
        ensures { option_copied result ≡ sensor_at self.now slot }
    {
        self.slab.get(slot)
    }

    /// Borrows the sensor in a slot for writing, if there is one.
    pub fn get_mut(&mut self, slot: usize) -> Option<&mut Sensor>
        ensures* lends { sem 𝓛 (LendsSensor self.entry slot result) }
        ensures value { option_copied_mut result ≡ sensor_at self.old slot }
    {
        self.slab.get_mut(slot)
    }

    /// Takes a good reading of the sensor in a slot that has one, as [`Sensor::good`] does.
    pub fn good_at(&mut self, slot: usize, raw: i64, tick: u64) -> Result<bool, ReadingRange>
        requires { IsLive self.old slot }
        ensures range { IsOk result ↔ IsRaw raw }
        ensures takes { IfSome (sensor_at self.old slot) (λ sensor. OnOk result (Takes sensor (good_after sensor raw tick) (Good raw tick))) }
        ensures puts { OnOk result (Puts self.old self.new slot (option_map (λ sensor. good_after sensor raw tick) (sensor_at self.old slot))) }
        ensures shown { IfSome (sensor_at self.old slot) (λ sensor.
            IfOk result (λ otherwise. otherwise ≡ false ↔ ShowSame sensor (good_after sensor raw tick))) }
        ensures same { OnErr result (self.new ≡ self.old) }
        ensures spare { self.new.spare ≡ self.old.spare }
    {
        match self.slab.get_mut(slot) {
            Some(sensor) => sensor.good(raw, tick),
            None => unreachable!(),
        }
    }

    /// Takes a loss of the sensor in a slot that has one, as [`Sensor::lost`] does.
    pub fn lost_at(&mut self, slot: usize)
        requires { IsLive self.old slot }
        ensures takes { IfSome (sensor_at self.old slot) (λ sensor. Takes sensor (lost_after sensor) Lost) }
        ensures puts { Puts self.old self.new slot (option_map lost_after (sensor_at self.old slot)) }
        ensures spare { self.new.spare ≡ self.old.spare }
    {
        if let Some(sensor) = self.slab.get_mut(slot) {
            sensor.lost();
        }
    }
}
