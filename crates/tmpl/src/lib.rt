//! Reads templates of names and numbers, and renders them for a place, a record and an index.
#![tactic(auto)]

mod digits;
mod lead;
mod number;
mod operation;
mod render;
mod spot;
mod stretch;
mod template;
#[cfg(test)]
mod tests;
mod word;
mod worked;

pub use number::fixed_number;
pub use spot::Spot;
pub use template::{Rendered, Template, TmplFault};
pub use worked::{worked_kinds, worked_names, worked_numbers, worked_templates, worked_words};
