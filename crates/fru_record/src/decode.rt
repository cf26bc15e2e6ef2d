ghost use Rattle.std.specs.Prelude.{◌≡◌, ◌≤◌, ◌<◌, ◌++◌, length, option_map, option_copied, option_to_list, bytes_eq, find, OnOk};
ghost use Rattle.fru_area.specs.Readings.{Appends, Gives};
ghost use Rattle.fru_area.specs.Areas.{area_fields};
ghost use Rattle.fru_area.specs.Headers.{unit, longest_area};
ghost use Rattle.fru_area.specs.Names.{name_text};
ghost use Rattle.fru_record.specs.Dates.{minutes_limit, minutes_of};
ghost use Rattle.fru_record.specs.Records.{record_of, names_of, fields_start, is_english, fixed_fields, fields_of_area, fields_at};
ghost use Rattle.fru_record.specs.Lookups.{text_named, AreNamed};

use crate::date::date_field;
use bmc_base::OutOfMemory;
use fru_area::{
    Area, Field, FieldList, FieldName, FieldText, FruFault, UNIT, append_area, area_bytes,
    is_english_language, read_header,
};
use std::alloc::Global;
use std::marker::Model;

/// A FRU record (FRU definition 1.0): its fields, in the order chassis, board, product.
#[derive(Drop)]
pub struct FruRecord {
    fields: FieldList,
}

impl Model for FruRecord {
    ghost use Rattle.std.specs.Prelude.{List};
    ghost use Rattle.fru_area.specs.declared.field.Field.{Field};
    ghost use Rattle.fru_record.specs.Lookups.{AreNamed};

    ghost Value = { List Field };

    ghost view = { λ r. r.fields };

    ghost invariant = { λ r. AreNamed r.fields };
}

impl FruRecord {
    /// Reads the record that the bytes spell, or answers the first rule that they break: of the header, and
    /// then of the chassis, the board and the product area (FRU definition 1.0, sections 8 and 10 to 13).
    pub fn decode(alloc: Global, bytes: &[u8]) -> Result<FruRecord, FruFault>
        ensures { Gives result (record_of bytes.now) }
    {
        let header = read_header(bytes)?;
        let mut fields = FieldList::new(alloc)?;
        append_at(&mut fields, alloc, Area::Chassis, bytes, header.chassis)?;
        append_at(&mut fields, alloc, Area::Board, bytes, header.board)?;
        append_at(&mut fields, alloc, Area::Product, bytes, header.product)?;
        Ok(FruRecord { fields })
    }

    /// Borrows the fields, in the order of the record.
    pub fn fields(&self) -> &[Field]
        ensures { result.now ≡ self.now }
    {
        self.fields.as_slice()
    }

    /// Tells callers' proofs that each field has the name of one, so that a text that names no field finds
    /// none. It does nothing.
    pub fn fields_are_named(&self)
        ensures { AreNamed self.now }
    {
        let _fields = &self.fields;
    }

    /// Returns the text of the first field with this name, as it is printed, or none where no field has it.
    /// It reads the name once and then compares names and no texts.
    pub fn field(&self, name: &str) -> Option<&str>
        ensures { option_map (λ text. text.now) result ≡ text_named self.now name.now }
    {
        let fields = self.fields.as_slice();
        text_named(fields, FieldName::read(name)?)
    }

    /// Returns the text of the first field with this name, or none where no field has it.
    pub fn field_named(&self, name: FieldName) -> Option<&str>
        ensures { option_map (λ text. text.now) result ≡ text_named self.now (name_text name) }
    {
        text_named(self.fields.as_slice(), name)
    }
}

// Returns the text of the first field with this name.
fn text_named(fields: &[Field], name: FieldName) -> Option<&str>
    ensures { option_map (λ text. text.now) result ≡ text_named fields.now (name_text name) }
{
    let field = field_named(fields, name)?;
    Some(field.text.as_str())
}

// Finds the first field with this name.
fn field_named(fields: &[Field], name: FieldName) -> Option<&Field>
    ensures { option_copied result ≡ find (λ field. bytes_eq (name_text field.name) (name_text name)) fields.now }
{
    fields.iter().find(|field| field.is_named(name))
}

// Appends the fields of the area that begins at this offset, in units; at 0 it is absent.
fn append_at(
    list: &mut FieldList,
    alloc: Global,
    area: Area,
    bytes: &[u8],
    offset: u8,
) -> Result<(), FruFault>
    ensures { Appends result list.old list.new (fields_at area bytes.now offset) }
{
    if offset == 0 {
        return Ok(());
    }
    let found = area_bytes(area, bytes, UNIT * usize::from(offset))?;
    append_fields(list, alloc, area, found)
}

// Appends the fields of a whole area.
fn append_fields(
    list: &mut FieldList,
    alloc: Global,
    area: Area,
    bytes: &[u8],
) -> Result<(), FruFault>
    requires long { unit ≤ length bytes.now }
    requires short { length bytes.now ≤ longest_area }
    ensures { Appends result list.old list.new (fields_of_area area bytes.now) }
{
    append_fixed(list, alloc, area, bytes)?;
    append_named(list, alloc, area, bytes)
}

// Appends the fields that stand at a fixed place.
fn append_fixed(
    list: &mut FieldList,
    alloc: Global,
    area: Area,
    bytes: &[u8],
) -> Result<(), OutOfMemory>
    requires { unit ≤ length bytes.now }
    ensures { OnOk result (list.new ≡ list.old ++ fixed_fields area bytes.now) }
{
    match fixed_field(area, bytes) {
        Some(field) => list.push(alloc, field),
        None => Ok(()),
    }
}

// Returns the one field that stands at a fixed place: the chassis type, or the date of a board, if it has one.
fn fixed_field(area: Area, bytes: &[u8]) -> Option<Field>
    requires { unit ≤ length bytes.now }
    ensures { option_to_list result ≡ fixed_fields area bytes.now }
{
    match area {
        Area::Chassis => Some(Field {
            name: FieldName::ChassisType,
            text: FieldText::new(itoa::Buffer::new().format(bytes[2])).unwrap(),
        }),
        Area::Board => match minutes(bytes) {
            0 => None,
            minutes => Some(Field {
                name: FieldName::BoardManufactureDate,
                text: date_field(minutes),
            }),
        },
        Area::Product => None,
    }
}

// Reads the minutes of a board area, the low byte first.
fn minutes(area: &[u8]) -> u32
    requires { unit ≤ length area.now }
    ensures exact { result ≡ minutes_of area.now }
    ensures limit { result < minutes_limit }
{
    u32::from(area[3]) + 256 * u32::from(area[4]) + 65536 * u32::from(area[5])
}

const CHASSIS_NAMES: [FieldName; 2] = [
    FieldName::ChassisPartNumber,
    FieldName::ChassisSerialNumber,
];

const BOARD_NAMES: [FieldName; 5] = [
    FieldName::BoardManufacturer,
    FieldName::BoardProductName,
    FieldName::BoardSerialNumber,
    FieldName::BoardPartNumber,
    FieldName::BoardFruVersionId,
];

const PRODUCT_NAMES: [FieldName; 7] = [
    FieldName::ProductManufacturer,
    FieldName::ProductProductName,
    FieldName::ProductPartNumber,
    FieldName::ProductVersion,
    FieldName::ProductSerialNumber,
    FieldName::ProductAssetTag,
    FieldName::ProductFruVersionId,
];

// Appends the named fields of a whole area, and its custom fields.
fn append_named(
    list: &mut FieldList,
    alloc: Global,
    area: Area,
    bytes: &[u8],
) -> Result<(), FruFault>
    requires long { unit ≤ length bytes.now }
    requires short { length bytes.now ≤ longest_area }
    ensures { Appends result list.old list.new (area_fields area (is_english area bytes.now) (names_of area) bytes.now (fields_start area)) }
{
    match area {
        Area::Chassis => append_area(list, alloc, area, bytes, 3, true, CHASSIS_NAMES),
        Area::Board => {
            append_area(
                list,
                alloc,
                area,
                bytes,
                6,
                is_english_language(bytes[2]),
                BOARD_NAMES,
            )
        }
        Area::Product => {
            append_area(
                list,
                alloc,
                area,
                bytes,
                3,
                is_english_language(bytes[2]),
                PRODUCT_NAMES,
            )
        }
    }
}
