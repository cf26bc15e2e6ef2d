ghost use Rattle.std.specs.Prelude.{◌≡◌, ◌<◌, ◌^◌, ℕ, List, length, Ok, Err, IsOk, ◌↔◌};
ghost use Rattle.fru_area.specs.Names.{name_text, number_of};
ghost use Rattle.fru_area.specs.Walks.{Raw, Spells, raw_fields, field_bytes};
ghost use Rattle.fru_area.specs.Positions.{HasEnd, HasFieldOutside, LacksEnd};
ghost use Rattle.fru_area.specs.declared.fault.Area.{Area};
ghost use Rattle.fru_area.specs.declared.fault.FruFault.TheVariants.{FieldOutside, NoEnd};
ghost use Rattle.fru_area.specs.declared.name.FieldName.{FieldName};

/// The fields that are read of an area are those that its bytes spell: one list, or none.
pub fn one_reading()
    ensures spelled { (area : Area) (bytes : List ℕ) (start : ℕ) (raws : List Raw) →
        (raw_fields area bytes start ≡ Ok raws) ↔ Spells (field_bytes bytes start) raws }
    ensures one { (bytes : List ℕ) (raws others : List Raw) → Spells bytes raws → Spells bytes others → raws ≡ others }
{}

/// The text of a name is that of no other name, so that fields are compared by name and not by text.
pub fn one_name()
    ensures { (name other : FieldName) → number_of name < 2 ^ 16 → name_text name ≡ name_text other → name ≡ other }
{}

/// What is read of an area's fields, by positions: `FieldOutside` comes exactly where a field takes in
/// the checksum, `NoEnd` exactly where fields lead to the checksum, and fields exactly where they lead
/// to the end mark.
pub fn reading_by_positions()
    ensures outside { (area : Area) (bytes : List ℕ) (start : ℕ) → start < length bytes →
        (raw_fields area bytes start ≡ Err (FieldOutside area)) ↔ HasFieldOutside bytes start }
    ensures no_end { (area : Area) (bytes : List ℕ) (start : ℕ) → start < length bytes →
        (raw_fields area bytes start ≡ Err (NoEnd area)) ↔ LacksEnd bytes start }
    ensures whole { (area : Area) (bytes : List ℕ) (start : ℕ) → start < length bytes →
        IsOk (raw_fields area bytes start) ↔ HasEnd bytes start }
{}
