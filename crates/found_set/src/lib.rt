//! Keeps what is found and which buses are reachable, under configurations that come and FRUs that come and
//! go. Each event is evaluated before it is taken over.
#![tactic(auto)]

mod cover;
mod earlier;
mod evaluate;
mod facts;
mod find;
mod law;
mod marks;
mod names;
mod next_facts;
mod parts;
mod reach;
mod row;
mod rule;
mod set;
#[cfg(test)]
mod skip_tests;
mod staged;
#[cfg(test)]
mod tests;

pub use facts::{Facts, MOST_RULES};
pub use law::{idle_row, kept_is_scan, later_is_not_found, roots_are_reached};
pub use marks::{Marks, mark_touched};
pub use next_facts::{BoxedName, EventKey, NextFacts};
pub use set::FoundSet;
