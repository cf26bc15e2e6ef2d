ghost use Rattle.std.specs.Prelude.{◌≡◌, ◌++◌, OnOk, string_bytes};
ghost use Rattle.bmc_report.specs.LogRows.{class_text, log_row};

use crate::Change;
use crate::change_line::push_change;
use crate::decimal::push_decimal;
use bmc_base::OutOfMemory;

// The class of an entry.
fn class(error: bool) -> &'static str
    ensures { result.now ≡ class_text error }
{
    if error { "error" } else { "info" }
}

/// Appends the row of a log entry: its id, whether it is an error or an info, how many ticks of 100
/// milliseconds there were when it was added, and what changed.
#[tactic(auto, using(std::proofs::Common::append_assoc))]
pub fn push_log_row(
    out: &mut String,
    id: u64,
    error: bool,
    tick: u64,
    change: &Change,
) -> Result<(), OutOfMemory>
    ensures { OnOk result (string_bytes out.new ≡ string_bytes out.old ++ log_row id error tick change.now) }
{
    out.push_str("log ")?;
    push_decimal(out, id)?;
    out.push(' ')?;
    out.push_str(class(error))?;
    out.push(' ')?;
    push_change(out, tick, change)
}
