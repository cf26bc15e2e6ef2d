//! The kinds of fan controllers, each a box that is loaded with a setting: PID and stepwise.
#![tactic(auto)]

mod blank;
mod pid;
mod pid_parts;
mod small;
mod stepwise;
#[cfg(test)]
mod tests;
mod wide;

pub use pid::PidBox;
pub use stepwise::StepBox;
