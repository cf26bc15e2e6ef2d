ghost use Rattle.std.specs.Prelude.{◌≡◌, ◌&&◌, IfOk};
ghost use Rattle.bmc_base.specs.Steps.{with_evals};
ghost use Rattle.std.specs.List.{list_any};
ghost use Rattle.probe_lang.specs.Values.{asks_found, value, AreFew};
ghost use Rattle.found_set.specs.Found.{rule_of};

use bmc_base::{Ledger, Name, OutOfMemory, Steps};
use probe_lang::{Probe, Truths, holds};
use std::alloc::Global;
use std::marker::Model;

// What the set keeps of a configuration: its name, what it is found by, and the buses to which its fixed
// channels lead.
#[derive(Drop)]
pub(crate) struct Rule<L: Ledger> {
    name: Name,
    probe: Probe<L>,
    fixed: Vec<u8>,
    asks: bool,
}

impl<L: Ledger> Model for Rule<L> {
    ghost use Rattle.std.specs.Prelude.{◌≡◌};
    ghost use Rattle.found_set.specs.Found.{Rule};
    ghost use Rattle.std.specs.List.{list_any};
    ghost use Rattle.probe_lang.specs.Values.{asks_found};

    ghost Value = { Rule };

    ghost view = { λ r. record { name = r.name; probe = r.probe; fixed = r.fixed.items } };

    ghost invariant = { λ r. r.asks ≡ list_any asks_found r.probe.words };
}

impl<L: Ledger> Rule<L> {
    // Copies what is kept of a configuration, under this name.
    pub(crate) fn of(
        alloc: Global,
        name: Name,
        probe: &Probe<L>,
        fixed: &[u8],
    ) -> Result<Rule<L>, OutOfMemory>
        ensures { IfOk result (λ rule. rule ≡ rule_of name probe.now fixed.now) }
    {
        let probe = probe.copy(alloc)?;
        let fixed = Vec::from_slice(alloc, fixed)?;
        let asks = probe.asks_found();
        Ok(Rule {
            name,
            probe,
            fixed,
            asks,
        })
    }

    // Copies the name.
    pub(crate) fn name(&self) -> Name
        ensures { result ≡ self.now.name }
    {
        self.name.copied()
    }

    // Borrows the buses of the fixed channels.
    pub(crate) fn fixed(&self) -> &[u8]
        ensures { result.now ≡ self.now.fixed }
    {
        self.fixed.as_slice()
    }

    // Whether an earlier mark of it may no longer hold: one before it has changed, and the probe asks for others.
    pub(crate) fn is_stale(&self, has_changed: bool) -> bool
        ensures { result ≡ (has_changed && list_any asks_found self.now.probe.words) }
    {
        has_changed && self.asks
    }

    // Tells the value of the probe.
    pub(crate) fn holds<T: Truths>(&self, truths: &T, steps: &mut Steps<L>) -> bool
        ensures value { result ≡ value self.now.probe.words (T.patterns truths.now) (T.founds truths.now) }
        ensures few { AreFew self.now.probe.words }
        ensures counted { steps.new ≡ with_evals steps.old 1 }
    {
        holds(&self.probe, truths, steps)
    }
}
