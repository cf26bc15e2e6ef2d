//! Tells what a sensor shows of its readings and losses, among them its alarms, and holds sensors
//! by slot.
#![tactic(auto)]

mod law;
mod limit;
mod reading_range;
mod sensor;
mod setting;
mod table;
#[cfg(test)]
mod tests;

pub use law::{alarms_are_raised, sensor_examples, values_are_floors};
pub use limit::Limit;
pub use reading_range::ReadingRange;
pub use sensor::Sensor;
pub use setting::SensorSetting;
pub use table::SensorTable;
