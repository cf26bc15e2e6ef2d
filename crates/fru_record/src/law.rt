ghost use Rattle.std.specs.Prelude.{◌≡◌, ◌≢◌, ◌↔◌, ℕ, List, None, Ok, Err, IsUtf8, All};
ghost use Rattle.fru_area.specs.Readings.{checked};
ghost use Rattle.fru_area.specs.Positions.{HasFieldOutside, LacksEnd};
ghost use Rattle.fru_area.specs.declared.fault.Area.{Area};
ghost use Rattle.fru_area.specs.declared.fault.FruFault.TheVariants.{FieldOutside, NoEnd, OutOfMemory};
ghost use Rattle.fru_area.specs.declared.field.Field.{Field};
ghost use Rattle.fru_record.specs.FieldFaults.{BreaksFields};
ghost use Rattle.fru_record.specs.Records.{record_of};
ghost use Rattle.fru_record.specs.Spellings.{SpellsRecord};
ghost use Rattle.fru_record.specs.Parts.{HasNames, fields_of_parts, texts_of};
ghost use Rattle.fru_record.specs.Building.{build_fault, record_bytes};
ghost use Rattle.fru_record.specs.declared.parts.Parts.{Parts};

/// The record that is read of bytes is the one that they spell: one record, or none.
pub fn one_record()
    ensures spelled { (bytes : List ℕ) (fields : List Field) → (record_of bytes ≡ Ok fields) ↔ SpellsRecord bytes fields }
    ensures one { (bytes : List ℕ) (fields others : List Field) → SpellsRecord bytes fields → SpellsRecord bytes others → fields ≡ others }
{}

/// What is built of parts is read as exactly their fields.
pub fn built_is_read()
    ensures { (parts : Parts) → HasNames parts → All IsUtf8 (texts_of parts) → build_fault parts ≡ None
        → record_of (record_bytes parts) ≡ Ok (fields_of_parts parts) }
{}

/// The fault of bytes is a rule that they break, and never want of memory: neither where a record is read
/// of them nor where they are checked.
pub fn faults_name_rules()
    ensures read { (bytes : List ℕ) → record_of bytes ≢ Err OutOfMemory }
    ensures checked { (bytes : List ℕ) → checked (record_of bytes) ≢ Err OutOfMemory }
{}

/// When a record's fault is one of an area's fields, by positions: where the areas before it are absent or
/// spell fields, and a field of this area takes in the checksum, or its fields lead to the checksum.
pub fn field_faults_by_positions()
    ensures outside { (area : Area) (bytes : List ℕ) → (record_of bytes ≡ Err (FieldOutside area)) ↔ BreaksFields HasFieldOutside area bytes }
    ensures no_end { (area : Area) (bytes : List ℕ) → (record_of bytes ≡ Err (NoEnd area)) ↔ BreaksFields LacksEnd area bytes }
{}
