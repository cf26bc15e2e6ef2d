ghost use Rattle.std.specs.Prelude.{◌≡◌, ◌∷◌, ◌++◌, [], OnOk, OnErr};

use bmc_base::{OutOfMemory, Place};
use std::alloc::Global;
use std::marker::Model;

/// Which board it is: the number of its configuration, and the place of its FRU, if it has one.
#[derive(Clone, Copy, Debug, PartialEq, Eq)]
pub struct BoardKey {
    /// The number of the configuration, from 0.
    pub config: u32,
    /// The place of the FRU.
    pub place: Option<Place>,
}

/// A board with its index.
#[derive(Clone, Copy, Debug, PartialEq, Eq)]
pub struct Board {
    /// Which board it is.
    pub key: BoardKey,
    /// Its index among all boards that its configuration ever had, from 1.
    pub index: u32,
}

/// Keys of boards, by configuration and place.
#[derive(Drop)]
pub struct BoardKeys {
    keys: Vec<BoardKey>,
}

impl Model for BoardKeys {
    ghost use Rattle.std.specs.Prelude.{List};
    ghost use Rattle.inventory.specs.declared.board.BoardKey.{BoardKey};

    ghost Value = { List BoardKey };

    ghost view = { λ k. k.keys.items };
}

impl BoardKeys {
    /// Returns a list of no keys, which takes no memory.
    pub fn new(alloc: Global) -> BoardKeys
        ensures { result ≡ [] }
    {
        BoardKeys {
            keys: Vec::new(alloc),
        }
    }

    /// Appends a key, or changes nothing for want of memory.
    pub fn push(&mut self, alloc: Global, item: BoardKey) -> Result<(), OutOfMemory>
        ensures ok { OnOk result (self.new ≡ self.old ++ item ∷ []) }
        ensures err { OnErr result (self.new ≡ self.old) }
    {
        let _ = alloc;
        // field by field, since the check gets no proof where `item` itself is pushed
        let BoardKey { config, place } = item;
        self.keys.push(BoardKey { config, place })?;
        Ok(())
    }

    /// Borrows the keys.
    pub fn as_slice(&self) -> &[BoardKey]
        ensures { result.now ≡ self.now }
    {
        &self.keys
    }
}
