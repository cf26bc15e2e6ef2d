ghost use Rattle.std.specs.Prelude.{◌≡◌, IfOk};

use crate::{Names, Shared, ZoneSetting};
use bmc_base::{Bytes, Name, OutOfMemory, Place};
use ctl_face::Setting;
use sensor_core::SensorSetting;

/// Which item it is: an expose of a board.
#[derive(Clone, Copy, Debug, PartialEq, Eq)]
pub struct ItemId {
    /// The number of the configuration, from 0.
    pub config: u32,
    /// The place of the board, if it has one.
    pub place: Option<Place>,
    /// The position of the expose in its configuration, from 0.
    pub expose: u32,
}

/// An expose of a board, rendered for the place, the record and the index of the board.
#[derive(Drop)]
pub struct Item {
    /// Which item it is.
    pub id: ItemId,
    /// Its name.
    pub name: Name,
    /// What its type asks for, rendered.
    pub part: ItemPart,
}

/// What an item has by the type of its expose. It is small: what is large stands in memory that copies of the item share.
#[derive(Drop)]
pub enum ItemPart {
    /// A sensor.
    Sensor(SensorItem),
    /// A fan.
    Fan,
    /// A zone of fans.
    Zone(ZoneSetting),
    /// A controller.
    Control(Shared<ControlItem>),
    /// A multiplexer.
    Mux(Shared<MuxItem>),
    /// An item of any other type.
    Passive,
}

/// A sensor at a board.
#[derive(Drop)]
pub struct SensorItem {
    /// The bus at which it is, if one is given that has a rendering at the board.
    pub bus: Option<u8>,
    /// The address at which it is, 0 to 127, if one is given that has a rendering at the board.
    pub address: Option<u8>,
    /// How its values come of raw numbers, when they are too old, and its limits, which it shares with its expose.
    pub setting: Shared<SensorSetting>,
}

/// A controller at a board.
#[derive(Drop)]
pub struct ControlItem {
    /// What it computes.
    pub setting: Setting,
    /// The name of the zone that it is in.
    pub zone: Name,
    /// The names of the sensors that it reads, 1 to 16.
    pub inputs: Names,
    /// The names of the fans that it drives, 1 to 16 for class fan and none for others.
    pub outputs: Names,
}

/// A multiplexer at a board.
#[derive(Drop)]
pub struct MuxItem {
    /// The buses to which its fixed channels lead.
    pub fixed: Bytes,
    /// The buses to which its other channels lead from the board; a channel that gives no bus there is left out.
    pub moving: Bytes,
}

impl Item {
    /// Returns an equal item, which shares what is large. It takes no memory.
    pub fn copied(&self) -> Result<Item, OutOfMemory>
        ensures { IfOk result (λ item. item ≡ self.now) }
    {
        Ok(Item {
            id: self.id,
            name: self.name.copied(),
            part: self.part.copied()?,
        })
    }
}

impl ItemPart {
    // Returns an equal part.
    fn copied(&self) -> Result<ItemPart, OutOfMemory>
        ensures { IfOk result (λ part. part ≡ self.now) }
    {
        match self {
            ItemPart::Sensor(sensor) => Ok(ItemPart::Sensor(sensor.copied()?)),
            ItemPart::Fan => Ok(ItemPart::Fan),
            ItemPart::Zone(setting) => Ok(ItemPart::Zone(*setting)),
            ItemPart::Control(control) => Ok(ItemPart::Control(control.shared()?)),
            ItemPart::Mux(mux) => Ok(ItemPart::Mux(mux.shared()?)),
            ItemPart::Passive => Ok(ItemPart::Passive),
        }
    }
}

impl SensorItem {
    // Returns an equal sensor.
    fn copied(&self) -> Result<SensorItem, OutOfMemory>
        ensures { IfOk result (λ sensor. sensor ≡ self.now) }
    {
        Ok(SensorItem {
            bus: self.bus,
            address: self.address,
            setting: self.setting.shared()?,
        })
    }
}
