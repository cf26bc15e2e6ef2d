//! Holds what all other crates stand on: places, names, owned bytes and texts, thousandths, want of
//! memory, and counts of calls and of work.
#![tactic(auto)]

mod bytes;
mod calls;
mod ledger;
mod milli;
mod name;
mod out_of_memory;
mod place;
mod silent;
mod steps;
#[cfg(test)]
mod tests;
mod text;
mod work;

pub use bytes::Bytes;
pub use calls::Calls;
pub use ledger::Ledger;
pub use milli::{Milli, milli_examples};
pub use name::{LONGEST_NAME, Name, NameFault, name_examples};
pub use out_of_memory::OutOfMemory;
pub use place::{Place, place_examples, places_in_order};
pub use silent::Silent;
pub use steps::Steps;
pub use text::Text;
pub use work::Work;
