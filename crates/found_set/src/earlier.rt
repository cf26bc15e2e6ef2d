ghost use Rattle.std.specs.Prelude.{◌≡◌, true, length};
ghost use Rattle.probe_lang.specs.Sights.{has_config};
ghost use Rattle.found_set.specs.Marks.{mark_count, AreMarked};
ghost use Rattle.found_set.specs.Earlier.{earlier_mark, changes};

use crate::marks::{Marks, touched_by};
use crate::row::Row;

// What an earlier pass found, and the configurations that may have changed since.
#[derive(Drop)]
pub(crate) struct Earlier {
    found: Marks,
    touched: Marks,
}

impl Earlier {
    // Returns what stands for no pass: each configuration may have changed.
    pub(crate) fn nothing() -> Earlier
        ensures { AreMarked result.touched (λ config. true) }
    {
        Earlier {
            found: Marks::none(),
            touched: Marks::all(),
        }
    }

    // Takes over what was found before a row came or went. The configurations of its hits may have changed.
    pub(crate) fn beside(found: &Marks, row: &Row) -> Earlier
        ensures found { result.found ≡ found.now }
        ensures touched { AreMarked result.touched (has_config row.now.hits) }
    {
        Earlier {
            found: found.copied(),
            touched: touched_by(row.hits.as_slice()),
        }
    }

    // Returns the mark of a configuration, if it is not touched and not stale, as is one that asks for others of
    // which one has changed.
    pub(crate) fn mark(&self, is_stale: bool, config: usize) -> Option<bool>
        ensures { result ≡ earlier_mark self.now.found self.now.touched is_stale config }
    {
        if is_stale || self.touched.has(config) {
            None
        } else {
            Some(self.found.has(config))
        }
    }

    // Whether a mark has changed: one before, or the one of this configuration.
    pub(crate) fn changes(&self, has_changed: bool, config: usize, is_found: bool) -> bool
        ensures value { result ≡ changes self.now.found has_changed config is_found }
        ensures count { length self.now.found ≡ mark_count }
    {
        let was_found = self.found.has(config);
        has_changed || was_found != is_found
    }
}
