//! Lists the FRUs that are present, those with hits or channels apart from the others.
#![tactic(auto)]

mod entries;
mod rows;
#[cfg(test)]
mod tests;

pub use entries::Entries;
pub use rows::{FruRows, Hint, is_idle};
