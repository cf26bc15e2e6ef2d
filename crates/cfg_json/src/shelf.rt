ghost use Rattle.std.specs.Prelude.{◌≡◌, ◌<◌, ◌≤◌, ◌∷◌, ◌++◌, [], None, length, slice_get, option_map, IfOk, OnOk, OnErr};
ghost use Rattle.std.specs.List.{All};
ghost use Rattle.cfg_json.specs.Configs.{IsValidConfig};
ghost use Rattle.cfg_json.specs.Shelves.{number_of, most_configs};

use crate::config::Config;
use bmc_base::{Ledger, Name, OutOfMemory};
use indexmap::IndexMap;
use std::alloc::Global;
use std::marker::Model;

/// How many configurations a run takes at the most.
pub const MOST_CONFIGS: usize = 256;

/// The configurations, in the order in which they were accepted, each under a name of its own. They are numbered
/// from 0.
#[derive(Drop)]
pub struct Shelf<L: Ledger> {
    configs: IndexMap<Name, Config<L>>,
}

impl<L: Ledger> Model for Shelf<L> {
    ghost use Rattle.std.specs.Prelude.{List, ◌≤◌, length, map};
    ghost use Rattle.std.specs.List.{All};
    ghost use Rattle.cfg_json.specs.Configs.{Config, IsValidConfig};
    ghost use Rattle.cfg_json.specs.Shelves.{configs_of, AreNamed, most_configs};

    ghost Value = { List Config };

    ghost view = { λ s. configs_of s.configs.entries };

    ghost invariant = { λ s. AreNamed s.configs.entries × (length s.configs.entries ≤ most_configs)
        × All IsValidConfig (configs_of s.configs.entries) };
}

// How many configurations a new shelf has room for.
const ROOM: usize = 8;

impl<L: Ledger> Shelf<L> {
    /// Returns a shelf without configurations, and with room for a few.
    pub fn new(alloc: Global) -> Result<Shelf<L>, OutOfMemory>
        ensures { IfOk result (λ shelf. shelf ≡ []) }
    {
        let configs = IndexMap::with_capacity(alloc, ROOM)?;
        Ok(Shelf { configs })
    }

    /// Puts a configuration behind the others, of which there are fewer than 256, and none has its name. For want
    /// of memory nothing changes.
    pub fn add(&mut self, alloc: Global, config: Config<L>) -> Result<(), OutOfMemory>
        requires new { number_of self.old config.name ≡ None }
        requires few { length self.old < most_configs }
        ensures ok { OnOk result (self.new ≡ self.old ++ config ∷ []) }
        ensures err { OnErr result (self.new ≡ self.old) }
    {
        // what it exposes is valid, which is said with it
        let _exposes = config.exposes();
        self.configs.insert(config.name(), config)?;
        Ok(())
    }

    /// Returns how many configurations there are. What they expose is valid.
    pub fn len(&self) -> usize
        ensures value { result ≡ length self.now }
        ensures limit { length self.now ≤ most_configs }
        ensures valid { All IsValidConfig self.now }
    {
        self.configs.len()
    }

    /// Borrows the configuration of this number, if there is one.
    pub fn at(&self, number: usize) -> Option<&Config<L>>
        ensures { option_map (λ config. config.now) result ≡ slice_get self.now number }
    {
        match self.configs.get_index(number) {
            Some((_, config)) => Some(config),
            None => None,
        }
    }

    /// Returns the number of the configuration of this name, if there is one.
    pub fn position(&self, name: &Name) -> Option<usize>
        ensures { result ≡ number_of self.now name.now }
    {
        self.configs.get_index_of(name)
    }
}
