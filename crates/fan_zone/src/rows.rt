use bmc_base::{Milli, Name};
use cfg_json::{ItemId, ZoneSetting};

/// What is kept of a zone between ticks.
#[derive(Clone, Copy, Debug, PartialEq, Eq)]
pub struct ZonePlan {
    /// Which item it is.
    pub id: ItemId,
    /// Its setting.
    pub setting: ZoneSetting,
}

/// What is shown of a zone.
#[derive(Drop)]
pub struct ZoneRow {
    /// Its name.
    pub name: Name,
    /// Whether it is in failsafe: an input of one of its controllers was bad at the last tick.
    pub failsafe: bool,
    /// The setpoint of the last tick, within 1,000,000 units of 0. A zone that had no tick has none.
    pub setpoint: Option<Milli>,
}

/// What is kept of a fan between ticks.
#[derive(Clone, Copy, Debug, PartialEq, Eq)]
pub struct FanPlan {
    /// Which item it is.
    pub id: ItemId,
    /// The first fan controller that names it as an output, by its position among the live controllers.
    pub holder: Option<usize>,
}

/// What is shown of a fan.
#[derive(Drop)]
pub struct FanRow {
    /// Its name.
    pub name: Name,
    /// The duty of the last tick, in percent. A fan that had no tick has none.
    pub duty: Option<Milli>,
}
