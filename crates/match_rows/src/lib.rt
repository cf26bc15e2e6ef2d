//! Lists the FRUs that are present, by place, each with the patterns that match it.
#![tactic(auto)]

mod law;
mod matching;
mod rows;
#[cfg(test)]
mod tests;

pub use law::entry_shows_record;
pub use matching::make;
pub use rows::{Rows, count_before};
