ghost use Rattle.std.specs.Prelude.{◌≡◌, ◌≤◌, length, map};
ghost use Rattle.serde_json.specs.View.{view};
ghost use Rattle.cfg_json.specs.Stepwises.{in_milli, rows_of, twenty_rows, stepwise_of};
ghost use Rattle.cfg_json.specs.Readings.{GivesColumn};
ghost use Rattle.cfg_json.specs.Values.{any_milli, each};

use crate::ConfigFault;
use crate::values::{MOST_UNITS, list, milli_or_none, milli_within, required};
use arrayvec::ArrayVec;
use bmc_base::Milli;
use ctl_face::{StepRow, StepSetting};
use serde_json::Value;

// How many rows a stepwise controller has at the most.
const MOST_ROWS: usize = 20;

// A row that is not in use.
const UNUSED_ROW: StepRow = StepRow {
    reading: Milli(0),
    output: Milli(0),
};

// Reads the setting of a stepwise controller.
#[tactic(auto, using(crate::proofs::StepwisesLemmas::same_size))]
pub(crate) fn read_step_setting(members: &Value) -> Result<StepSetting, ConfigFault>
    ensures { result ≡ stepwise_of (view members.now) }
{
    let readings = read_column(list(required(members, "Reading")?, 1, MOST_ROWS)?)?;
    let count = readings.len();
    let outputs = read_column(list(required(members, "Output")?, count, count)?)?;
    let positive = milli_or_none(members, "PositiveHysteresis", 0, MOST_UNITS)?;
    let negative = milli_or_none(members, "NegativeHysteresis", 0, MOST_UNITS)?;
    Ok(StepSetting {
        rows: rows_of(&readings, &outputs),
        count: count as u8,
        positive,
        negative,
    })
}

// Reads each element in thousandths.
fn read_column(items: &[Value]) -> Result<ArrayVec<i64, MOST_ROWS>, ConfigFault>
    requires { length items.now ≤ 20 }
    ensures { GivesColumn result (each any_milli (map view items.now)) }
{
    let mut column = ArrayVec::new();
    for item in items {
        column.push(milli_within(item, -MOST_UNITS, MOST_UNITS)?.0);
    }
    Ok(column)
}

// Puts readings and outputs in thousandths, of which there are as many, into rows.
fn rows_of(readings: &[i64], outputs: &[i64]) -> [StepRow; MOST_ROWS]
    requires few { length readings.now ≤ 20 }
    requires same { length outputs.now ≡ length readings.now }
    ensures { result ≡ twenty_rows (rows_of (map in_milli readings.now) (map in_milli outputs.now)) }
{
    let mut rows = [UNUSED_ROW; MOST_ROWS];
    for (i, reading) in readings.iter().enumerate() {
        rows[i] = StepRow {
            reading: Milli(*reading),
            output: Milli(outputs[i]),
        };
    }
    rows
}
