ghost use Rattle.std.specs.Prelude.{◌≡◌, ◌≤◌, ◌+◌, ◌<◌, ◌^◌, ◌++◌, ℕ, length, decimal, Some, IfSome, IfNone, IsTrue, ◌↔◌};
ghost use Rattle.fru_area.specs.Names.{name_text, number_of, number_text, custom_prefix, last_custom, IsName, IsFixed, LacksNumber};
ghost use Rattle.fru_area.specs.Texts.{longest_text};
ghost use Rattle.fru_area.specs.declared.name.FieldName.{FieldName};

use crate::{Area, FieldText};
use std::fmt;

// The highest number of a custom field: an area has no more bytes.
const LAST_CUSTOM: u16 = 2040;

/// The name of a field of a record (FRU definition 1.0, sections 10 to 12).
#[derive(Clone, Copy, Debug, PartialEq, Eq)]
pub enum FieldName {
    /// The type of the chassis, a number (section 10).
    ChassisType,
    /// The part number of the chassis.
    ChassisPartNumber,
    /// The serial number of the chassis.
    ChassisSerialNumber,
    /// The date and time of manufacture of the board (section 11).
    BoardManufactureDate,
    /// The manufacturer of the board.
    BoardManufacturer,
    /// The product name of the board.
    BoardProductName,
    /// The serial number of the board.
    BoardSerialNumber,
    /// The part number of the board.
    BoardPartNumber,
    /// The FRU file id of the board.
    BoardFruVersionId,
    /// The manufacturer of the product (section 12).
    ProductManufacturer,
    /// The name of the product.
    ProductProductName,
    /// The part or model number of the product.
    ProductPartNumber,
    /// The version of the product.
    ProductVersion,
    /// The serial number of the product.
    ProductSerialNumber,
    /// The asset tag of the product.
    ProductAssetTag,
    /// The FRU file id of the product.
    ProductFruVersionId,
    /// A custom field of an area, numbered from 1 in the order of the area.
    Custom(Area, u16),
}

impl FieldName {
    /// Returns the name as text, as `BOARD_SERIAL_NUMBER` or `BOARD_INFO_AM1`. It takes no memory.
    pub fn text(&self) -> FieldText
        ensures { result ≡ name_text self.now }
    {
        let mut text = FieldText::empty();
        text.push_str(self.stem());
        if let FieldName::Custom(_, number) = self {
            text.push_str(itoa::Buffer::new().format(*number));
        }
        text
    }

    /// Returns the name that has this text, or none. Custom fields are numbered from 1 to 2,040, as no
    /// area has more bytes, without leading zeros. It takes no memory.
    pub fn read(text: &str) -> Option<FieldName>
        ensures found { IfSome result (λ n. IsName n × (name_text n ≡ text.now)) }
        ensures none { IfNone result ((n : FieldName) → IsName n → name_text n ≡ text.now → ⊥) }
    {
        read_fixed(text)
            .or(read_custom(Area::Chassis, text))
            .or(read_custom(Area::Board, text))
            .or(read_custom(Area::Product, text))
    }

    // Whether two names are one.
    pub(crate) fn is(self, other: FieldName) -> bool
        ensures { IsTrue result ↔ (self ≡ other) }
    {
        self == other
    }

    // Returns the number of a custom field, or zero.
    pub(crate) fn number(self) -> u16
        ensures exact { result ≡ number_of self }
        ensures range { result < 2 ^ 16 }
    {
        match self {
            FieldName::Custom(_, number) => number,
            _ => 0,
        }
    }

    // Returns the text of the name, but for the number of a custom field, which has at most 5 digits.
    #[tactic(auto, unfolding(crate::specs::Names::name_text))]
    fn stem(&self) -> &'static str
        ensures text { result.now ++ number_text self.now ≡ name_text self.now }
        ensures room { length result.now + 5 ≤ longest_text }
    {
        match self {
            FieldName::ChassisType => "CHASSIS_TYPE",
            FieldName::ChassisPartNumber => "CHASSIS_PART_NUMBER",
            FieldName::ChassisSerialNumber => "CHASSIS_SERIAL_NUMBER",
            FieldName::BoardManufactureDate => "BOARD_MANUFACTURE_DATE",
            FieldName::BoardManufacturer => "BOARD_MANUFACTURER",
            FieldName::BoardProductName => "BOARD_PRODUCT_NAME",
            FieldName::BoardSerialNumber => "BOARD_SERIAL_NUMBER",
            FieldName::BoardPartNumber => "BOARD_PART_NUMBER",
            FieldName::BoardFruVersionId => "BOARD_FRU_VERSION_ID",
            FieldName::ProductManufacturer => "PRODUCT_MANUFACTURER",
            FieldName::ProductProductName => "PRODUCT_PRODUCT_NAME",
            FieldName::ProductPartNumber => "PRODUCT_PART_NUMBER",
            FieldName::ProductVersion => "PRODUCT_VERSION",
            FieldName::ProductSerialNumber => "PRODUCT_SERIAL_NUMBER",
            FieldName::ProductAssetTag => "PRODUCT_ASSET_TAG",
            FieldName::ProductFruVersionId => "PRODUCT_FRU_VERSION_ID",
            FieldName::Custom(area, _) => custom_prefix(*area),
        }
    }
}

// Returns what the name of a custom field of an area begins with.
fn custom_prefix(area: Area) -> &'static str
    ensures text { result.now ≡ custom_prefix area }
    ensures room { length result.now + 5 ≤ longest_text }
{
    match area {
        Area::Chassis => "CHASSIS_INFO_AM",
        Area::Board => "BOARD_INFO_AM",
        Area::Product => "PRODUCT_INFO_AM",
    }
}

const FIXED: [FieldName; 16] = [
    FieldName::ChassisType,
    FieldName::ChassisPartNumber,
    FieldName::ChassisSerialNumber,
    FieldName::BoardManufactureDate,
    FieldName::BoardManufacturer,
    FieldName::BoardProductName,
    FieldName::BoardSerialNumber,
    FieldName::BoardPartNumber,
    FieldName::BoardFruVersionId,
    FieldName::ProductManufacturer,
    FieldName::ProductProductName,
    FieldName::ProductPartNumber,
    FieldName::ProductVersion,
    FieldName::ProductSerialNumber,
    FieldName::ProductAssetTag,
    FieldName::ProductFruVersionId,
];

// Returns the name of this text, of those without a number.
fn read_fixed(text: &str) -> Option<FieldName>
    ensures found { IfSome result (λ n. IsName n × (name_text n ≡ text.now)) }
    ensures none { IfNone result ((n : FieldName) → IsFixed n → name_text n ≡ text.now → ⊥) }
{
    for name in &FIXED {
        if name.stem() == text {
            return Some(*name);
        }
    }
    None
}

// Returns the name of this text, of those of an area's custom fields.
fn read_custom(area: Area, text: &str) -> Option<FieldName>
    ensures found { IfSome result (λ n. IsName n × (name_text n ≡ text.now)) }
    ensures none { IfNone result (LacksNumber (custom_prefix area) text.now) }
{
    let digits = text.strip_prefix(custom_prefix(area))?;
    let number = digits.parse::<u16>().ok()?;
    if !is_custom_number(number) {
        return None;
    }
    let name = FieldName::Custom(area, number);
    if name.text().as_str() == text {
        Some(name)
    } else {
        None
    }
}

// Whether a custom field can have this number.
fn is_custom_number(number: u16) -> bool
    ensures { IsTrue result ↔ ((1 ≤ number) × (number ≤ last_custom)) }
{
    (1..=LAST_CUSTOM).contains(&number)
}

impl fmt::Display for FieldName {
    ghost output = { λ n. Some (name_text n) };

    fn fmt<W: fmt::Write>(&self, f: &mut fmt::Formatter<W>) -> fmt::Result {
        f.write_str(self.text().as_str())
    }
}
