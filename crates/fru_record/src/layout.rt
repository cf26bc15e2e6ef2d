ghost use Rattle.std.specs.Prelude.{◌≡◌, ◌≤◌, ◌+◌, ◌*◌, ◌^◌, ◌-◌, ◌||◌, ◌++◌, ℕ, List, length, min, nat_lt};
ghost use Rattle.std.specs.List.{flat_map};
ghost use Rattle.fru_area.specs.Headers.{unit};
ghost use Rattle.fru_record.specs.Building.{most_units, field_of_text, area_body, area_units, units_of, chassis_body, board_body, product_body};
ghost use Rattle.fru_record.specs.Layouts.{IsLayout, is_long_layout, offset_at};

use crate::parts::{BoardPart, ChassisPart, FieldTexts, Parts, ProductPart};
use crate::text_rule::char_count;
use bmc_base::Text;
use fru_area::{LONGEST_RECORD, UNIT};

// The most units that the length of an area, or an offset, counts.
const MOST_UNITS: usize = 255;

// How many units the areas of a record take: 0 where an area is absent, and one more than an area can
// have where it is too long.
#[derive(Clone, Copy)]
pub(crate) struct Layout {
    pub chassis: usize,
    pub board: usize,
    pub product: usize,
}

impl Layout {
    /// Measures a record of these parts.
    pub fn new(parts: &Parts) -> Layout
        ensures { IsLayout parts.now result }
    {
        Layout {
            chassis: chassis_units(&parts.chassis),
            board: board_units(&parts.board),
            product: product_units(&parts.product),
        }
    }

    /// Tells whether an area is too long.
    pub fn has_long_area(self) -> bool
        ensures { result ≡ (nat_lt most_units self.chassis || nat_lt most_units self.board || nat_lt most_units self.product) }
    {
        self.chassis > MOST_UNITS || self.board > MOST_UNITS || self.product > MOST_UNITS
    }

    /// Tells whether an area would begin where no offset names it, or the record is too long.
    pub fn is_too_long(self) -> bool
        requires chassis { self.chassis ≤ most_units }
        requires board { self.board ≤ most_units }
        requires product { self.product ≤ most_units }
        ensures { result ≡ is_long_layout self }
    {
        self.board_offset() > MOST_UNITS
            || self.product_offset() > MOST_UNITS
            || self.len() > LONGEST_RECORD
    }

    /// Returns how many bytes the record has.
    pub fn len(self) -> usize
        requires chassis { self.chassis ≤ most_units }
        requires board { self.board ≤ most_units }
        requires product { self.product ≤ most_units }
        ensures { result ≡ unit * (1 + self.chassis + self.board + self.product) }
    {
        UNIT * (1 + self.chassis + self.board + self.product)
    }

    /// Returns the offset of the chassis area, in units, or 0 where it is absent.
    pub fn chassis_offset(self) -> usize
        ensures { result ≡ offset_at 1 self.chassis }
    {
        offset(1, self.chassis)
    }

    /// Returns the offset of the board area, in the same way.
    pub fn board_offset(self) -> usize
        requires { self.chassis ≤ most_units }
        ensures { result ≡ offset_at (1 + self.chassis) self.board }
    {
        offset(1 + self.chassis, self.board)
    }

    /// Returns the offset of the product area, in the same way.
    pub fn product_offset(self) -> usize
        requires chassis { self.chassis ≤ most_units }
        requires board { self.board ≤ most_units }
        ensures { result ≡ offset_at (1 + self.chassis + self.board) self.product }
    {
        offset(1 + self.chassis + self.board, self.product)
    }
}

fn offset(before: usize, units: usize) -> usize
    ensures { result ≡ offset_at before units }
{
    if units == 0 { 0 } else { before }
}

fn chassis_units(part: &Option<ChassisPart>) -> usize
    ensures { result ≡ min (units_of (chassis_body part.now)) (most_units + 1) }
{
    match part {
        Some(part) => area_units(1, &part.named, &part.custom),
        None => 0,
    }
}

fn board_units(part: &Option<BoardPart>) -> usize
    ensures { result ≡ min (units_of (board_body part.now)) (most_units + 1) }
{
    match part {
        Some(part) => area_units(4, &part.named, &part.custom),
        None => 0,
    }
}

fn product_units(part: &Option<ProductPart>) -> usize
    ensures { result ≡ min (units_of (product_body part.now)) (most_units + 1) }
{
    match part {
        Some(part) => area_units(1, &part.named, &part.custom),
        None => 0,
    }
}

// Returns the units of an area with so many bytes at fixed places, at most one more than an area can have.
fn area_units(fixed: usize, named: &FieldTexts, custom: &FieldTexts) -> usize
    requires { fixed ≤ 4 }
    ensures { (front : List ℕ) → length front ≡ fixed → result ≡ min (area_units (area_body front (named.now ++ custom.now))) (most_units + 1) }
{
    let named = fields_len(named.as_slice());
    let custom = fields_len(custom.as_slice());
    // Version, length, end mark and checksum stand around them.
    let len = named.saturating_add(custom).saturating_add(fixed + 4);
    len.div_ceil(UNIT).min(MOST_UNITS + 1)
}

// Returns how many bytes the texts take as fields, or usize::MAX where that is too small.
fn fields_len(texts: &[Text]) -> usize
    ensures { result ≡ min (length (flat_map field_of_text texts.now)) (2 ^ 64 - 1) }
{
    let mut len: usize = 0;
    for text in texts {
        len = len.saturating_add(char_count(text.as_str()) + 1);
    }
    len
}
