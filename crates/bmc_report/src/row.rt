ghost use Rattle.std.specs.Prelude.{◌≡◌, ◌++◌, OnOk, string_bytes};
ghost use Rattle.std.specs.List.{flat_map};
ghost use Rattle.bmc_report.specs.Rows.{field_row, fru_row};

use crate::place::push_place;
use crate::quoted::push_quoted;
use bmc_base::{OutOfMemory, Place};
use fru_area::Field;

// Appends a field of a row.
#[tactic(auto, using(std::proofs::Common::append_assoc), unfolding(crate::specs::Rows::field_row))]
fn push_field(out: &mut String, field: &Field) -> Result<(), OutOfMemory>
    ensures { OnOk result (string_bytes out.new ≡ string_bytes out.old ++ field_row field.now) }
{
    out.push(' ')?;
    out.push_str(field.name.text().as_str())?;
    out.push('=')?;
    push_quoted(out, field.text.as_str())
}

// Appends the fields of a row.
fn push_fields(out: &mut String, fields: &[Field]) -> Result<(), OutOfMemory>
    ensures { OnOk result (string_bytes out.new ≡ string_bytes out.old ++ flat_map field_row fields.now) }
{
    for field in fields {
        push_field(out, field)?;
    }
    Ok(())
}

/// Appends the row of a FRU in the list of FRUs: its place, and its fields in the order given.
#[tactic(auto, using(std::proofs::Common::append_assoc), unfolding(crate::specs::Rows::fru_row))]
pub fn push_fru_row(out: &mut String, place: Place, fields: &[Field]) -> Result<(), OutOfMemory>
    ensures { OnOk result (string_bytes out.new ≡ string_bytes out.old ++ fru_row place fields.now) }
{
    out.push_str("fru ")?;
    push_place(out, place)?;
    push_fields(out, fields)?;
    out.push('\n')?;
    Ok(())
}
