//! Reads the command of a line.
#![tactic(auto)]

mod command;
mod examples;
mod name_text;
mod reading;
#[cfg(test)]
mod tests;

pub use command::{Command, ScriptFault, is_blank};
pub use examples::{commands_of_lines, commands_of_sensor_lines, commands_of_tick_lines};
pub use name_text::NameText;
