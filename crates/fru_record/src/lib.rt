//! Reads whole FRU records, or names their first broken rule, and builds records of parts.
#![tactic(auto)]

mod builder;
mod check;
mod date;
mod decode;
mod law;
mod layout;
mod parts;
#[cfg(test)]
mod tests;
mod text_rule;
mod worked;

pub use builder::{BuildFault, build};
pub use check::check_record;
pub use decode::FruRecord;
pub use law::{built_is_read, faults_name_rules, field_faults_by_positions, one_record};
pub use parts::{BoardPart, ChassisPart, FieldTexts, Parts, ProductPart};
pub use worked::{worked_build_faults, worked_dates, worked_faults, worked_parts, worked_records};
