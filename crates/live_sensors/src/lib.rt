//! Holds the live sensors, each under its name.
#![tactic(auto)]

mod by_text;
mod followers;
mod sensors;
#[cfg(test)]
mod tests;

pub use sensors::LiveSensors;
