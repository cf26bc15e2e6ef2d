//! Keeps the latest entries of a log, errors apart from infos, and gives each its id.
#![tactic(auto)]

mod entry;
mod law;
mod log;
mod rest;
#[cfg(test)]
mod tests;

pub use entry::{Class, Entries, LogEntry};
pub use law::{entries_are_by_id, entries_are_listed_as_added, latest_are_kept, log_examples};
pub use log::Log;
