ghost use Rattle.std.specs.Prelude.{◌≡◌};
ghost use Rattle.serde_json.specs.View.{view};
ghost use Rattle.cfg_json.specs.Documents.{config_in, config_read};
ghost use Rattle.cfg_json.specs.Readings.{Gives};

use crate::document::read_document;
use crate::exposes::{have_moving, read_exposes};
use crate::fraction::has_fraction;
use crate::probe_texts::read_probe;
use crate::values::{required, short_text};
use crate::{ConfigFault, Exposes};
use bmc_base::{Ledger, Name};
use probe_lang::{PatternTexts, Probe};
use serde_json::Value;
use std::alloc::Global;
use std::marker::Model;

// A configuration before its patterns are compiled. Contracts see it as the configuration.
#[derive(Drop)]
pub(crate) struct Draft<L: Ledger> {
    pub(crate) name: Name,
    pub(crate) probe: Probe<L>,
    pub(crate) texts: PatternTexts,
    pub(crate) exposes: Exposes,
}

impl<L: Ledger> Model for Draft<L> {
    ghost use Rattle.std.specs.Prelude.{◌≤◌, length};
    ghost use Rattle.std.specs.List.{All};
    ghost use Rattle.probe_lang.specs.Values.{most_patterns};
    ghost use Rattle.cfg_json.specs.Configs.{Config, IsValidExpose};

    ghost Value = { Config };

    ghost view = { λ d. record { name = d.name; probe = d.probe; patterns = d.texts; exposes = d.exposes } };

    ghost invariant = { λ d. (length d.texts ≤ most_patterns) × All IsValidExpose d.exposes };
}

// Reads the configuration of a document in JSON.
#[tactic(auto, unfolding(crate::specs::Documents::config_of))]
pub(crate) fn read_draft<L: Ledger>(alloc: Global, bytes: &[u8]) -> Result<Draft<L>, ConfigFault>
    ensures { Gives result (config_read bytes.now) }
{
    let document = read_document(alloc, bytes)?;
    if has_fraction(&document) {
        return Err(ConfigFault::Fraction);
    }
    read_members(alloc, &document)
}

// Reads the configuration of a document without fractions.
#[tactic(auto, unfolding(crate::specs::Documents::config_in))]
fn read_members<L: Ledger>(alloc: Global, document: &Value) -> Result<Draft<L>, ConfigFault>
    ensures { Gives result (config_in (view document.now)) }
{
    if !document.is_object() {
        return Err(ConfigFault::WrongKind);
    }
    let name = short_text(required(document, "Name")?)?;
    let (probe, texts) = read_probe(alloc, required(document, "Probe")?)?;
    let exposes = read_exposes(alloc, document.get("Exposes"))?;
    if probe.match_one() && have_moving(exposes.as_slice()) {
        return Err(ConfigFault::MuxMatchOne);
    }
    Ok(Draft {
        name,
        probe,
        texts,
        exposes,
    })
}
