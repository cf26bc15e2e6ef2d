//! The whole command: its words, its configuration files, its script, and the samples.
#![tactic(auto)]

mod files;
mod replaying;
mod sample;
mod status;

pub use replaying::replay;
pub use status::Status;
