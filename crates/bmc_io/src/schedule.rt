ghost use Rattle.std.specs.Prelude.{◌≡◌, IfOk};
ghost use Rattle.bmc_io.specs.Schedule.{begun, fails_next, advanced};

use bmc_base::OutOfMemory;
use std::alloc::Global;
use std::marker::Model;

// Which calls of an object in memory are to fail, by their numbers from 0.
#[derive(Drop)]
pub(crate) struct Schedule {
    fails: Vec<u64>,
    next: u64,
}

impl Model for Schedule {
    ghost use Rattle.bmc_io.specs.Schedule.{Schedule};

    ghost Value = { Schedule };

    ghost view = { λ s. record { fails = s.fails.items; next = s.next } };
}

impl Schedule {
    // Copies the numbers, with room for one at the least.
    pub(crate) fn new(alloc: Global, fails: &[u64]) -> Result<Schedule, OutOfMemory>
        ensures { IfOk result (λ s. s ≡ begun fails.now) }
    {
        let mut copy = Vec::with_capacity(alloc, fails.len().max(1))?;
        copy.extend_from_slice(fails)?;
        Ok(Schedule {
            fails: copy,
            next: 0,
        })
    }

    // The number of the next call.
    pub(crate) fn next(&self) -> u64
        ensures { result ≡ self.now.next }
    {
        self.next
    }

    // Counts one more call, and says whether it is to fail.
    pub(crate) fn advance(&mut self) -> bool
        ensures answer { result ≡ fails_next self.old }
        ensures counted { self.new ≡ advanced self.old }
    {
        let call = self.next;
        self.next = call.saturating_add(1);
        self.fails.contains(&call)
    }
}
