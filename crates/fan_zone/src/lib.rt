//! Steps the controllers of zones over a bank of boxes that the caller made, and tells the duty of each fan.
#![tactic(auto)]

mod acting;
mod bank;
mod held;
mod kept;
mod law;
mod passes;
mod reading;
mod renew;
mod resolve;
mod rows;
mod seats;
mod showing;
#[cfg(test)]
mod tests;
mod zones;

pub use acting::acts;
pub use held::{Held, Inputs, Role, Seat};
pub use law::{settings_stay, values_fit};
pub use rows::{FanPlan, FanRow, ZonePlan, ZoneRow};
pub use zones::Zones;
