//! Makes sample scripts: two configurations, lines that a seed chooses, and a list of the zones.
#![tactic(auto)]

mod document;
mod law;
mod line;
mod numbered;
mod sample;
mod step;
#[cfg(test)]
mod tests;

pub use law::{lines_are_counted, occupied_where_plugged, sample_examples};
pub use sample::script;
