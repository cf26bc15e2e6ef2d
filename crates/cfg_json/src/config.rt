ghost use Rattle.std.specs.Prelude.{◌≡◌, ◌≤◌, length};
ghost use Rattle.std.specs.List.{All};
ghost use Rattle.probe_lang.specs.Values.{most_patterns};
ghost use Rattle.cfg_json.specs.Configs.{IsValidExpose, counts_of};
ghost use Rattle.cfg_json.specs.Documents.{config_read};
ghost use Rattle.cfg_json.specs.Readings.{GivesConfig, MakesPatterns};

use crate::draft::{Draft, read_draft};
use crate::{ConfigFault, Counts, Expose, Exposes};
use bmc_base::{Ledger, Name};
use pat_gate::PatternMaker;
use probe_lang::{Pattern, PatternText, Probe};
use std::alloc::Global;
use std::marker::Model;

/// A configuration: its name, the probe by which it is found, and what it exposes.
#[derive(Drop)]
pub struct Config<L: Ledger> {
    name: Name,
    probe: Probe<L>,
    patterns: Vec<Pattern<L>>,
    exposes: Exposes,
    counts: Counts,
}

impl<L: Ledger> Model for Config<L> {
    ghost use Rattle.std.specs.Prelude.{◌≡◌, ◌≤◌, length};
    ghost use Rattle.std.specs.List.{All};
    ghost use Rattle.probe_lang.specs.Values.{most_patterns};
    ghost use Rattle.cfg_json.specs.Configs.{Config, IsValidExpose, counts_of};

    ghost Value = { Config };

    ghost view = { λ c. record { name = c.name; probe = c.probe; patterns = c.patterns.items; exposes = c.exposes } };

    ghost invariant = { λ c. (length c.patterns.items ≤ most_patterns) × (c.counts ≡ counts_of c.exposes) × All IsValidExpose c.exposes };
}

impl<L: Ledger> Config<L> {
    /// Reads the configuration of a document in JSON, and compiles the patterns of its probe with a maker.
    /// The fault is the first rule that is broken, in this order: the bytes are JSON in UTF-8; its numbers
    /// are whole; it is an object with a `Name` of 1 to 64 bytes, a `Probe` of 1 to 33 texts that the grammar
    /// reads, and at most 256 `Exposes`; a probe that ends with `MATCH_ONE` goes with no channel that moves with
    /// the place; the maker compiles each pattern. Of a key that is given twice the last value counts.
    pub fn read<M: PatternMaker>(
        alloc: Global,
        bytes: &[u8],
        maker: &mut M,
    ) -> Result<Config<L>, ConfigFault>
        ensures { GivesConfig (M.seen maker.old) (M.seen maker.new) result (config_read bytes.now) }
    {
        let Draft {
            name,
            probe,
            texts,
            exposes,
        } = read_draft(alloc, bytes)?;
        let patterns = make_patterns(alloc, texts.as_slice(), maker)?;
        let counts = Counts::of(exposes.as_slice());
        Ok(Config {
            name,
            probe,
            patterns,
            exposes,
            counts,
        })
    }

    /// Returns the name.
    pub fn name(&self) -> Name
        ensures { result ≡ self.now.name }
    {
        self.name.copied()
    }

    /// Borrows the probe by which it is found.
    pub fn probe(&self) -> &Probe<L>
        ensures { result.now ≡ self.now.probe }
    {
        &self.probe
    }

    /// Borrows the patterns of the probe, by their numbers: at most 17.
    pub fn patterns(&self) -> &[Pattern<L>]
        ensures value { result.now ≡ self.now.patterns }
        ensures few { length self.now.patterns ≤ most_patterns }
    {
        &self.patterns
    }

    /// Borrows what it exposes, in the order of the document. The settings of its sensors are valid.
    pub fn exposes(&self) -> &[Expose]
        ensures value { result.now ≡ self.now.exposes }
        ensures valid { All IsValidExpose self.now.exposes }
    {
        self.exposes.as_slice()
    }

    /// Returns how many of its exposes are of each kind. They were counted when it was read.
    pub fn counts(&self) -> Counts
        ensures { result ≡ counts_of self.now.exposes }
    {
        self.counts
    }
}

// Compiles patterns, in their order.
fn make_patterns<L: Ledger, M: PatternMaker>(
    alloc: Global,
    texts: &[PatternText],
    maker: &mut M,
) -> Result<Vec<Pattern<L>>, ConfigFault>
    ensures { MakesPatterns (M.seen maker.old) (M.seen maker.new) texts.now result }
{
    let mut patterns = Vec::with_capacity(alloc, texts.len())?;
    for text in texts {
        patterns.push(Pattern::make(alloc, text, maker)?)?;
    }
    Ok(patterns)
}
