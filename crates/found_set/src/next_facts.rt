ghost use Rattle.std.specs.Prelude.{◌≡◌, IfOk};

use crate::facts::Facts;
use bmc_base::{Name, OutOfMemory, Place};
use std::alloc::Global;
use std::marker::Model;

/// A name in memory of its own, so that what holds it is moved fast. Contracts see it as the name.
#[derive(Drop)]
pub struct BoxedName {
    name: Box<Name>,
}

impl Model for BoxedName {
    ghost use Rattle.std.specs.Prelude.{ℕ, List};

    ghost Value = { List ℕ };

    ghost view = { λ b. b.name.value };
}

impl BoxedName {
    // Puts a copy of this name into memory of its own.
    pub(crate) fn of(alloc: Global, name: &Name) -> Result<BoxedName, OutOfMemory>
        ensures { IfOk result (λ boxed. boxed ≡ name.now) }
    {
        let name = Box::new(alloc, name.copied())?;
        Ok(BoxedName { name })
    }
}

/// By what an event is known to the caller.
#[derive(Drop)]
pub enum EventKey {
    /// The configuration of this name comes.
    Config(BoxedName),
    /// The FRU at this place comes.
    Plug(Place),
    /// The FRU at this place goes.
    Unplug(Place),
}

/// An event that is staged, and the facts after it.
#[derive(Drop)]
pub struct NextFacts {
    pub(crate) key: EventKey,
    pub(crate) facts: Facts,
}

impl NextFacts {
    /// Returns the facts after the event.
    pub fn facts(&self) -> Facts
        ensures { result ≡ self.now.facts }
    {
        self.facts.copied()
    }
}
