ghost use Rattle.std.specs.Prelude.{◌≡◌};
ghost use Rattle.bmc_base.specs.Steps.{no_work, with_matches, with_evals};

use crate::{Ledger, Work};
use std::marker::Model;

/// Two counts of work, matches of patterns and evaluations of probes, and the ledger that is told of each
/// unit. A count stands still at the largest `u64`.
#[derive(Drop)]
pub struct Steps<L: Ledger> {
    matches: u64,
    evals: u64,
    ledger: L,
}

impl<L: Ledger> Model for Steps<L> {
    ghost use Rattle.bmc_base.specs.Steps.{Counts};

    ghost Value = { Counts };

    ghost view = { λ s. record { matches = s.matches; evals = s.evals } };
}

impl<L: Ledger> Steps<L> {
    /// Returns counts that start at zero.
    pub fn new(ledger: L) -> Steps<L>
        ensures { result ≡ no_work }
    {
        Steps {
            matches: 0,
            evals: 0,
            ledger,
        }
    }

    /// Returns how many patterns were matched.
    pub fn matches(&self) -> u64
        ensures { result ≡ self.now.matches }
    {
        self.matches
    }

    /// Returns how many probes were evaluated.
    pub fn evals(&self) -> u64
        ensures { result ≡ self.now.evals }
    {
        self.evals
    }

    /// Counts one match, and tells the ledger.
    pub fn matched(&mut self)
        ensures { self.new ≡ with_matches self.old 1 }
    {
        self.matches = self.matches.saturating_add(1);
        self.ledger.tick(Work::Match);
    }

    /// Counts one evaluation, and tells the ledger.
    pub fn evaluated(&mut self)
        ensures { self.new ≡ with_evals self.old 1 }
    {
        self.evals = self.evals.saturating_add(1);
        self.ledger.tick(Work::Eval);
    }
}
