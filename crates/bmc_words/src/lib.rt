//! Reads the words of the command line.
#![tactic(auto)]

mod command;
mod examples;
mod law;
mod settings;
#[cfg(test)]
mod tests;

pub use examples::{settings_of_words, usage_line, words_refused};
pub use law::{numbers_are_read, words_are_names, words_behind_hyphens_are_names};
pub use settings::{Settings, USAGE, WordsFault};
