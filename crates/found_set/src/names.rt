ghost use Rattle.std.specs.Prelude.{◌≡◌, ◌<◌, ◌∷◌, ◌++◌, [], None, IfOk, OnOk, bytes_eq, position};

use bmc_base::{Name, OutOfMemory};
use indexmap::IndexSet;
use std::alloc::Global;
use std::marker::Model;

// The names of the configurations, in order, with room that is taken ahead. A name is found in one look-up.
#[derive(Drop)]
pub(crate) struct Names {
    set: IndexSet<Name>,
}

impl Model for Names {
    ghost use Rattle.indexmap.specs.IndexSet.{spare};
    ghost use Rattle.found_set.specs.Named.{NamesView};

    ghost Value = { NamesView };

    ghost view = { λ n. record { names = n.set.keys; spare = spare n.set } };
}

// For how many names there is room at first.
const ROOM: usize = 8;

impl Names {
    // Returns a list of no names.
    pub(crate) fn new(alloc: Global) -> Result<Names, OutOfMemory>
        ensures { IfOk result (λ names. names.names ≡ []) }
    {
        let set = IndexSet::with_capacity(alloc, ROOM)?;
        Ok(Names { set })
    }

    // Takes room for one more. The names stay.
    pub(crate) fn reserve(&mut self) -> Result<(), OutOfMemory>
        ensures names { self.new.names ≡ self.old.names }
        ensures room { OnOk result (0 < self.new.spare) }
    {
        self.set.reserve(1)?;
        Ok(())
    }

    // Appends a new name. Takes no memory.
    pub(crate) fn add(&mut self, name: Name)
        requires room { 0 < self.old.spare }
        requires new { position (bytes_eq name) self.old.names ≡ None }
        ensures { self.new.names ≡ self.old.names ++ name ∷ [] }
    {
        match self.set.insert(name) {
            Ok(_) => {}
            Err(_) => unreachable!(),
        }
    }

    // Returns the number of a name, or `None`.
    pub(crate) fn number(&self, name: &Name) -> Option<usize>
        ensures { result ≡ position (bytes_eq name.now) self.now.names }
    {
        self.set.get_index_of(name)
    }
}
