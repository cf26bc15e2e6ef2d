ghost use Rattle.std.specs.Prelude.{◌≡◌, ◌≤◌, ◌<◌, ◌+◌, ◌-◌, ◌∷◌, ◌++◌, [], ℕ, length, slice_index, map, Ok, IfOk, OnOk};
ghost use Rattle.std.specs.List.{flat_map, All};
ghost use Rattle.std.specs.Str.{chars, IsUtf8};
ghost use Rattle.fru_area.specs.Walks.{longest_field};
ghost use Rattle.fru_record.specs.Parts.{HasNames, fields_of_parts, texts_of, chassis_texts, board_texts, product_texts};
ghost use Rattle.fru_record.specs.Records.{record_of};
ghost use Rattle.fru_record.specs.Building.{most_units, GivesBytes, build_fault, record_bytes, has_late_date, closing_byte};
ghost use Rattle.fru_record.specs.Building.{field_of_text, area_body, area_units, area_bytes, chassis_body, board_body, product_body, units_of, bytes_of};
ghost use Rattle.fru_record.specs.Layouts.{IsLayout, IsBuildable, HasOffsets, header_start};
ghost use Rattle.fru_record.specs.TextRules.{IsWritable, AreWritable, field_head, first_char};
ghost use Rattle.fru_record.specs.declared.builder.BuildFault.TheVariants.{OutOfMemory};

use crate::date::MINUTES_LIMIT;
use crate::layout::Layout;
use crate::parts::{BoardPart, ChassisPart, FieldTexts, Parts, ProductPart};
use crate::text_rule::{FIRST_SIX_BIT, TextRule, char_count, parts_break};
use bmc_base::{Bytes, Text};
use fru_area::{END_MARK, UNIT, area_sum};
use std::alloc::{AllocError, Global};
use thiserror::Error;

/// Why a record can't be built: the first of these, rule by rule.
#[derive(Clone, Copy, Debug, PartialEq, Eq, Error)]
pub enum BuildFault {
    /// The minutes of the board are 2^24 or more.
    #[error("the date does not fit 24 bits")]
    DateRange,
    /// A character of a text is above U+00FF.
    #[error("a text is not Latin 1")]
    TextNotLatin,
    /// A text has more than 63 characters.
    #[error("a text has more than 63 characters")]
    TextTooLong,
    /// A text is one character that 6-bit ASCII (20h to 5Fh) does not have.
    #[error("a text of one character is not 6-bit ASCII")]
    OneByte,
    /// An area would have more than 2,040 bytes.
    #[error("an area is too long")]
    AreaTooLong,
    /// The record would have more than 4,096 bytes, or an area would begin above byte 2,040.
    #[error("the record is too long")]
    RecordTooLong,
    /// There was no memory.
    #[error("out of memory")]
    OutOfMemory,
}

impl From<AllocError> for BuildFault {
    ghost from_gives = { λ _ e. e ≡ OutOfMemory };

    fn from(_: AllocError) -> Self {
        BuildFault::OutOfMemory
    }
}

/// Builds the bytes of a record of these parts: language 0 (English), texts in Latin 1, a text of one character
/// in 6-bit ASCII, an empty text as C0h, padding of zeros, and the areas in the order chassis, board,
/// product. A refusal is the first of `BuildFault`, rule by rule. `FruRecord::decode` reads the bytes as
/// exactly the fields of the parts.
pub fn build(alloc: Global, parts: &Parts) -> Result<Bytes, BuildFault>
    requires { HasNames parts.now }
    ensures bytes { GivesBytes result parts.now }
    ensures read { IfOk result (λ bytes. record_of bytes ≡ Ok (fields_of_parts parts.now)) }
{
    let layout = Layout::new(parts);
    match first_fault(parts, layout) {
        Some(fault) => Err(fault),
        None => {
            let bytes = record_bytes(alloc, parts, layout)?;
            Ok(Bytes::from(bytes))
        }
    }
}

// Says why no record can be built of the parts, if so.
fn first_fault(parts: &Parts, layout: Layout) -> Option<BuildFault>
    requires { IsLayout parts.now layout }
    ensures { result ≡ build_fault parts.now }
{
    if has_late_date(&parts.board) {
        return Some(BuildFault::DateRange);
    }
    if parts_break(TextRule::Latin, parts) {
        return Some(BuildFault::TextNotLatin);
    }
    if parts_break(TextRule::Length, parts) {
        return Some(BuildFault::TextTooLong);
    }
    if parts_break(TextRule::Single, parts) {
        return Some(BuildFault::OneByte);
    }
    if layout.has_long_area() {
        return Some(BuildFault::AreaTooLong);
    }
    if layout.is_too_long() {
        return Some(BuildFault::RecordTooLong);
    }
    None
}

// Whether the date of a board does not fit 24 bits.
fn has_late_date(board: &Option<BoardPart>) -> bool
    ensures { result ≡ has_late_date board.now }
{
    match board {
        Some(part) => part.minutes >= MINUTES_LIMIT,
        None => false,
    }
}

// Writes the bytes of a record, whose parts allow it.
fn record_bytes(alloc: Global, parts: &Parts, layout: Layout) -> Result<Vec<u8>, AllocError>
    requires { IsBuildable parts.now layout }
    ensures written { IfOk result (λ bytes. bytes.items ≡ record_bytes parts.now) }
    ensures utf8 { OnOk result (All IsUtf8 (texts_of parts.now)) }
{
    let mut bytes = Vec::with_capacity(alloc, layout.len())?;
    push_header(&mut bytes, layout)?;
    push_chassis(&mut bytes, layout.chassis, &parts.chassis)?;
    push_board(&mut bytes, layout.board, &parts.board)?;
    push_product(&mut bytes, layout.product, &parts.product)?;
    Ok(bytes)
}

fn push_header(bytes: &mut Vec<u8>, layout: Layout) -> Result<(), AllocError>
    requires { HasOffsets layout }
    ensures { OnOk result (bytes.new.items ≡ bytes.old.items ++ header_start layout ++ closing_byte (header_start layout) ∷ []) }
{
    let chassis = layout.chassis_offset() as u8;
    let board = layout.board_offset() as u8;
    let product = layout.product_offset() as u8;
    let header = [1, 0, chassis, board, product, 0, 0];
    let closing = closing_byte(&header);
    bytes.extend_from_slice(&header)?;
    bytes.push(closing)?;
    Ok(())
}

fn push_chassis(
    bytes: &mut Vec<u8>,
    units: usize,
    part: &Option<ChassisPart>,
) -> Result<(), AllocError>
    requires texts { AreWritable (chassis_texts part.now) }
    requires units { units ≡ units_of (chassis_body part.now) }
    requires short { units ≤ most_units }
    ensures written { OnOk result (bytes.new.items ≡ bytes.old.items ++ bytes_of (chassis_body part.now)) }
    ensures utf8 { OnOk result (All IsUtf8 (chassis_texts part.now)) }
{
    match part {
        Some(part) => {
            let fixed = [part.chassis_type];
            push_area(bytes, units, &fixed, &part.named, &part.custom)
        }
        None => Ok(()),
    }
}

fn push_board(bytes: &mut Vec<u8>, units: usize, part: &Option<BoardPart>) -> Result<(), AllocError>
    requires texts { AreWritable (board_texts part.now) }
    requires units { units ≡ units_of (board_body part.now) }
    requires short { units ≤ most_units }
    ensures written { OnOk result (bytes.new.items ≡ bytes.old.items ++ bytes_of (board_body part.now)) }
    ensures utf8 { OnOk result (All IsUtf8 (board_texts part.now)) }
{
    match part {
        Some(part) => {
            let low = (part.minutes % 256) as u8;
            let mid = (part.minutes / 256 % 256) as u8;
            let high = (part.minutes / 65536 % 256) as u8;
            let fixed = [0, low, mid, high];
            push_area(bytes, units, &fixed, &part.named, &part.custom)
        }
        None => Ok(()),
    }
}

fn push_product(
    bytes: &mut Vec<u8>,
    units: usize,
    part: &Option<ProductPart>,
) -> Result<(), AllocError>
    requires texts { AreWritable (product_texts part.now) }
    requires units { units ≡ units_of (product_body part.now) }
    requires short { units ≤ most_units }
    ensures written { OnOk result (bytes.new.items ≡ bytes.old.items ++ bytes_of (product_body part.now)) }
    ensures utf8 { OnOk result (All IsUtf8 (product_texts part.now)) }
{
    match part {
        Some(part) => push_area(bytes, units, &[0], &part.named, &part.custom),
        None => Ok(()),
    }
}

// Appends a whole area of so many units.
fn push_area(
    bytes: &mut Vec<u8>,
    units: usize,
    fixed: &[u8],
    named: &FieldTexts,
    custom: &FieldTexts,
) -> Result<(), AllocError>
    requires texts { AreWritable (named.now ++ custom.now) }
    requires units { units ≡ area_units (area_body fixed.now (named.now ++ custom.now)) }
    requires short { units ≤ most_units }
    ensures written { OnOk result (bytes.new.items ≡ bytes.old.items ++ area_bytes (area_body fixed.now (named.now ++ custom.now))) }
    ensures utf8 { OnOk result (All IsUtf8 (named.now ++ custom.now)) }
{
    let start = bytes.len();
    bytes.push(1)?;
    bytes.push(units as u8)?;
    push_body(bytes, fixed, named, custom)?;
    bytes.resize(start + UNIT * units - 1, 0)?;
    let closing = closing_byte(&bytes[start..]);
    bytes.push(closing)?;
    Ok(())
}

// Appends what an area holds behind its version and length.
fn push_body(
    bytes: &mut Vec<u8>,
    fixed: &[u8],
    named: &FieldTexts,
    custom: &FieldTexts,
) -> Result<(), AllocError>
    requires { AreWritable (named.now ++ custom.now) }
    ensures written { OnOk result (bytes.new.items ≡ bytes.old.items ++ area_body fixed.now (named.now ++ custom.now)) }
    ensures utf8 { OnOk result (All IsUtf8 (named.now ++ custom.now)) }
{
    bytes.extend_from_slice(fixed)?;
    push_texts(bytes, named.as_slice())?;
    push_texts(bytes, custom.as_slice())?;
    bytes.push(END_MARK)?;
    Ok(())
}

fn push_texts(bytes: &mut Vec<u8>, texts: &[Text]) -> Result<(), AllocError>
    requires { AreWritable texts.now }
    ensures written { OnOk result (bytes.new.items ≡ bytes.old.items ++ flat_map field_of_text texts.now) }
    ensures utf8 { OnOk result (All IsUtf8 texts.now) }
{
    for text in texts {
        push_text(bytes, text.as_str())?;
    }
    Ok(())
}

// Appends a text as a field: a single character in 6-bit ASCII, all else in Latin 1.
fn push_text(bytes: &mut Vec<u8>, text: &str) -> Result<(), AllocError>
    requires { IsWritable text.now }
    ensures written { OnOk result (bytes.new.items ≡ bytes.old.items ++ field_of_text text.now) }
    ensures utf8 { IsUtf8 text.now }
{
    let count = char_count(text);
    bytes.push(field_head(count))?;
    push_chars(bytes, text, first_char(count))
}

// Returns the type and length of a field with so many characters.
fn field_head(count: usize) -> u8
    requires { count ≤ longest_field }
    ensures { result ≡ field_head count }
{
    if count == 1 { 0x81 } else { 0xC0 + count as u8 }
}

// Returns the character that a field with so many characters writes as 0.
fn first_char(count: usize) -> u32
    ensures { result ≡ first_char count }
{
    if count == 1 { FIRST_SIX_BIT } else { 0 }
}

// Appends the characters of a text, counted from this one on.
fn push_chars(bytes: &mut Vec<u8>, text: &str, first: u32) -> Result<(), AllocError>
    requires { (k : ℕ) → k < length (chars text.now) → (first ≤ slice_index (chars text.now) k) × (slice_index (chars text.now) k ≤ first + 255) }
    ensures { OnOk result (bytes.new.items ≡ bytes.old.items ++ map (λ c. c - first) (chars text.now)) }
{
    for c in text.chars() {
        bytes.push((u32::from(c) - first) as u8)?;
    }
    Ok(())
}

// Returns the byte that brings the sum of the bytes to zero.
fn closing_byte(bytes: &[u8]) -> u8
    ensures { result ≡ closing_byte bytes.now }
{
    area_sum(bytes).wrapping_neg()
}
