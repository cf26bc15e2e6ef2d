ghost use Rattle.std.specs.Prelude.{◌≡◌};
ghost use Rattle.bmc_base.specs.Calls.{no_calls, with_failure, with_success};

use std::marker::Model;

/// What an object of the outside keeps of its calls: how many failed, and whether the last one did. The
/// number stands still at the largest `u64`.
#[derive(Debug, Drop)]
pub struct Calls {
    faults: u64,
    last_failed: bool,
}

impl Model for Calls {
    ghost use Rattle.bmc_base.specs.Calls.{Calls};

    ghost Value = { Calls };

    ghost view = { λ c. record { faults = c.faults; last_failed = c.last_failed } };
}

impl Calls {
    /// Returns the calls of an object that was not called yet.
    pub fn new() -> Calls
        ensures { result ≡ no_calls }
    {
        Calls {
            faults: 0,
            last_failed: false,
        }
    }

    /// Returns how many calls failed.
    pub fn faults(&self) -> u64
        ensures { result ≡ self.now.faults }
    {
        self.faults
    }

    /// Counts a call that failed.
    pub fn add_failure(&mut self)
        ensures { self.new ≡ with_failure self.old }
    {
        self.faults = self.faults.saturating_add(1);
        self.last_failed = true;
    }

    /// Notes a call that did not fail.
    pub fn add_success(&mut self)
        ensures { self.new ≡ with_success self.old }
    {
        self.last_failed = false;
    }
}
