ghost use Rattle.std.specs.Prelude.{◌≡◌, ◌++◌, OnOk, string_bytes};
ghost use Rattle.bmc_report.specs.ZoneRows.{zone_row, fan_row};

use crate::change_line::mode;
use crate::milli::push_value;
use crate::quoted::push_quoted;
use bmc_base::{Milli, Name, OutOfMemory};

/// Appends the row of a fan zone in the list of zones: its name, whether it is in failsafe, and its setpoint,
/// which it has from its first tick on.
#[tactic(auto, using(std::proofs::Common::append_assoc), unfolding(crate::specs::ZoneRows::zone_row))]
pub fn push_zone_row(
    out: &mut String,
    name: &Name,
    failsafe: bool,
    setpoint: Option<Milli>,
) -> Result<(), OutOfMemory>
    ensures { OnOk result (string_bytes out.new ≡ string_bytes out.old ++ zone_row name.now failsafe setpoint) }
{
    out.push_str("zone ")?;
    push_quoted(out, name.as_str())?;
    out.push(' ')?;
    out.push_str(mode(failsafe))?;
    out.push(' ')?;
    push_value(out, setpoint)?;
    out.push('\n')?;
    Ok(())
}

/// Appends the row of a fan in the list of zones: its name, and its duty in thousandths of a percent, which it
/// has from its first tick on.
#[tactic(auto, using(std::proofs::Common::append_assoc), unfolding(crate::specs::ZoneRows::fan_row))]
pub fn push_fan_row(out: &mut String, name: &Name, duty: Option<Milli>) -> Result<(), OutOfMemory>
    ensures { OnOk result (string_bytes out.new ≡ string_bytes out.old ++ fan_row name.now duty) }
{
    out.push_str("fan ")?;
    push_quoted(out, name.as_str())?;
    out.push(' ')?;
    push_value(out, duty)?;
    out.push('\n')?;
    Ok(())
}
