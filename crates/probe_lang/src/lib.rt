//! Reads probes, by which configurations are found, tells their values, and tells which records match
//! their patterns.
#![tactic(auto)]

mod braces;
#[cfg(test)]
mod grammar_tests;
mod key;
mod part;
mod pattern;
#[cfg(test)]
mod pattern_tests;
mod pattern_text;
mod probe;
mod reading;
mod rows;
mod spelling;
mod term;
mod test;
mod truths;
mod word;

pub use pattern::{Pattern, PatternFault};
pub use pattern_text::{Member, PatternText, PatternTexts, Want};
pub use probe::{Probe, ProbeFault};
pub use rows::{Channel, Channels, Entry, Hit, Hits, Present};
pub use truths::{Truths, holds};
pub use word::{Word, Words};
