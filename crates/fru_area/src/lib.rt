//! Reads the header and the areas of a FRU record (IPMI FRU Information Storage Definition 1.0):
//! where they lie, their checksums, and their fields as text.
#![tactic(auto)]

mod area;
mod fault;
mod field;
mod header;
mod law;
mod name;
#[cfg(test)]
mod tests;
mod text;
mod worked;

pub use area::{END_MARK, append_area, area_bytes, check_fields, read_area};
pub use fault::{Area, FruFault};
pub use field::{Field, FieldList, FieldText};
pub use header::{Header, LONGEST_RECORD, UNIT, area_sum, read_header};
pub use law::{one_name, one_reading, reading_by_positions};
pub use name::FieldName;
pub use text::{LONGEST_FIELD, field_text, is_english_language};
pub use worked::{
    worked_area, worked_bcd_plus, worked_binary, worked_languages, worked_latin, worked_names,
    worked_six_bit, worked_unicode,
};
