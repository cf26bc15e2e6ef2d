ghost use Rattle.std.specs.Prelude.{◌≡◌, [], IfOk};
ghost use Rattle.bmc_base.specs.Calls.{no_calls, with_success};
ghost use Rattle.bmc_io.specs.Failures.{AddsName};

use crate::FileFault;
use bmc_base::{Calls, OutOfMemory, Text};
use std::alloc::Global;
use std::marker::Model;

// What files keep of their calls: how many failed, whether the last one did, and for which names.
#[derive(Drop)]
pub(crate) struct Failures {
    calls: Calls,
    names: Vec<Text>,
}

impl Model for Failures {
    ghost use Rattle.bmc_io.specs.Failures.{Failures};

    ghost Value = { Failures };

    ghost view = { λ f. record { calls = f.calls; names = f.names.items } };
}

impl Failures {
    // No call was made yet.
    pub(crate) fn new(alloc: Global) -> Failures
        ensures { result ≡ record { calls = no_calls; names = [] } }
    {
        Failures {
            calls: Calls::new(),
            names: Vec::new(alloc),
        }
    }

    // How many calls failed.
    pub(crate) fn faults(&self) -> u64
        ensures { result ≡ self.now.calls.faults }
    {
        self.calls.faults()
    }

    // The names of the calls that failed.
    pub(crate) fn names(&self) -> &[Text]
        ensures { result.now ≡ self.now.names }
    {
        &self.names
    }

    // Begins a call: it counts as a success until it fails.
    pub(crate) fn begin(&mut self)
        ensures { self.new ≡ record self.old { calls = with_success self.old.calls } }
    {
        self.calls.add_success();
    }

    // Copies the name and makes room for it, so that a call that fails takes no memory.
    pub(crate) fn room_for(&mut self, alloc: Global, name: &str) -> Result<Text, OutOfMemory>
        ensures copied { IfOk result (λ t. t ≡ name.now) }
        ensures same { self.new ≡ self.old }
    {
        self.names.reserve(1)?;
        Text::copy(alloc, name)
    }

    // The last call failed: its name joins the list.
    pub(crate) fn add(&mut self, name: Text) -> FileFault
        ensures { AddsName self.old self.new name result }
    {
        match self.names.push(name) {
            Ok(()) => {
                self.calls.add_failure();
                FileFault::Failed
            }
            Err(_) => FileFault::OutOfMemory,
        }
    }
}
