ghost use Rattle.std.specs.Prelude.{◌≡◌, ◌∷◌, ◌++◌, [], OnOk, OnErr};

use bmc_base::OutOfMemory;
use cfg_json::Item;
use std::alloc::Global;
use std::marker::Model;

/// Items, each of its own.
#[derive(Drop)]
pub struct ItemList {
    items: Vec<Item>,
}

impl Model for ItemList {
    ghost use Rattle.std.specs.Prelude.{List};
    ghost use Rattle.cfg_json.specs.declared.item.Item.{Item};

    ghost Value = { List Item };

    ghost view = { λ l. l.items.items };
}

impl ItemList {
    /// Returns a list of no items, which takes no memory.
    pub fn new(alloc: Global) -> ItemList
        ensures { result ≡ [] }
    {
        ItemList {
            items: Vec::new(alloc),
        }
    }

    /// Appends an item, or changes nothing for want of memory.
    pub fn push(&mut self, alloc: Global, item: Item) -> Result<(), OutOfMemory>
        ensures ok { OnOk result (self.new ≡ self.old ++ item ∷ []) }
        ensures err { OnErr result (self.new ≡ self.old) }
    {
        let _ = alloc;
        // A push that can fail hands its item back, which costs copies of it.
        self.items.reserve(1)?;
        self.items.push_reserved(item);
        Ok(())
    }

    /// Borrows the items.
    pub fn as_slice(&self) -> &[Item]
        ensures { result.now ≡ self.now }
    {
        &self.items
    }
}
