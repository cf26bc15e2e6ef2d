ghost use Rattle.std.specs.Prelude.{◌≡◌, ◌++◌, OnOk, string_bytes};
ghost use Rattle.bmc_report.specs.SensorRows.{state_text, age_text, alarm_text, alarms_text, sensor_row};

use crate::decimal::push_decimal;
use crate::milli::push_value;
use crate::quoted::push_quoted;
use bmc_base::{Milli, Name, OutOfMemory};

/// What the row of a sensor says.
#[derive(Drop)]
pub struct SensorRow<'a> {
    /// Its name.
    pub name: &'a Name,
    /// Its value, if it was ever read.
    pub value: Option<Milli>,
    /// Whether it failed.
    pub failed: bool,
    /// How many ticks of 100 milliseconds ago it was last read, if ever.
    pub age: Option<u64>,
    /// Which of its alarms are on, by position: as many as it has limits.
    pub alarms: &'a [bool],
}

// The state of a sensor.
fn state(failed: bool) -> &'static str
    ensures { result.now ≡ state_text failed }
{
    if failed { "failed" } else { "ok" }
}

// Appends the age of the last reading, or that there was none.
fn push_age(out: &mut String, age: Option<u64>) -> Result<(), OutOfMemory>
    ensures { OnOk result (string_bytes out.new ≡ string_bytes out.old ++ age_text age) }
{
    match age {
        Some(age) => push_decimal(out, age)?,
        None => out.push('-')?,
    }
    Ok(())
}

// Appends the position of an alarm that is on.
#[tactic(auto, using(std::proofs::Common::append_assoc))]
fn push_position(out: &mut String, position: usize, on: bool) -> Result<(), OutOfMemory>
    ensures { OnOk result (string_bytes out.new ≡ string_bytes out.old ++ alarm_text (position, on)) }
{
    if on {
        out.push(' ')?;
        push_decimal(out, position as u64)?;
    }
    Ok(())
}

// Appends the positions of the alarms that are on.
#[tactic(auto, using(std::proofs::Common::append_assoc), unfolding(crate::specs::SensorRows::alarms_text))]
fn push_positions(out: &mut String, alarms: &[bool]) -> Result<(), OutOfMemory>
    ensures { OnOk result (string_bytes out.new ≡ string_bytes out.old ++ alarms_text alarms.now) }
{
    for (position, on) in alarms.iter().enumerate() {
        push_position(out, position, *on)?;
    }
    Ok(())
}

/// Appends the row of a sensor in the list of sensors.
#[tactic(auto, using(std::proofs::Common::append_assoc), unfolding(crate::specs::SensorRows::sensor_row))]
pub fn push_sensor_row(out: &mut String, row: &SensorRow<'_>) -> Result<(), OutOfMemory>
    ensures { OnOk result (string_bytes out.new ≡ string_bytes out.old
        ++ sensor_row row.now.name.now row.now.value row.now.failed row.now.age row.now.alarms.now) }
{
    out.push_str("sensor ")?;
    push_quoted(out, row.name.as_str())?;
    out.push(' ')?;
    push_value(out, row.value)?;
    out.push(' ')?;
    out.push_str(state(row.failed))?;
    out.push(' ')?;
    push_age(out, row.age)?;
    push_positions(out, row.alarms)?;
    out.push('\n')?;
    Ok(())
}
