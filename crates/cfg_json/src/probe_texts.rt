ghost use Rattle.std.specs.Prelude.{◌≡◌, ◌≤◌, length, map, IfOk};
ghost use Rattle.serde_json.specs.View.{view};
ghost use Rattle.probe_lang.specs.Values.{most_patterns};
ghost use Rattle.cfg_json.specs.Probes.{texts_in, probe_in};
ghost use Rattle.cfg_json.specs.Readings.{Gives, GivesTexts};

use crate::ConfigFault;
use crate::values::{check_length, text};
use arrayvec::ArrayVec;
use bmc_base::Ledger;
use probe_lang::{PatternTexts, Probe};
use serde_json::Value;
use std::alloc::Global;

// How many texts a probe has at the most.
const MOST_TEXTS: usize = 33;

// Reads the probe of a document, and its patterns by number.
pub(crate) fn read_probe<L: Ledger>(
    alloc: Global,
    value: &Value,
) -> Result<(Probe<L>, PatternTexts), ConfigFault>
    ensures read { Gives result (probe_in (view value.now)) }
    ensures few { IfOk result (λ parsed. length parsed.1 ≤ most_patterns) }
{
    match value {
        Value::String(text) => Ok(Probe::parse(alloc, &[text.as_str()])?),
        Value::Array(items) => {
            let texts = probe_texts(items)?;
            Ok(Probe::parse(alloc, &texts)?)
        }
        _ => Err(ConfigFault::WrongKind),
    }
}

// Borrows the texts of a list, of which there are 1 to 33.
fn probe_texts(items: &[Value]) -> Result<ArrayVec<&str, MOST_TEXTS>, ConfigFault>
    ensures { GivesTexts result (texts_in (map view items.now)) }
{
    check_length(items.len(), 1, MOST_TEXTS)?;
    let mut texts = ArrayVec::new();
    for item in items {
        texts.push(text(item)?);
    }
    Ok(texts)
}
