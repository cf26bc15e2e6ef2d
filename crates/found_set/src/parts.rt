ghost use Rattle.std.specs.Prelude.{◌≡◌, ℕ, Bool, ◌++◌, ◌∷◌, ◌||◌};
ghost use Rattle.std.specs.List.{list_any};
ghost use Rattle.found_set.specs.Marks.{is_marked, is_true, AreTrue, AreMarked};
ghost use Rattle.found_set.specs.Buses.{has_on, is_on_bus, leads_on};

use crate::marks::{
    Marks, PATTERN_MARKS, any_has_on, any_is_on, has_on, is_on, mark_row, mark_rows,
};
use crate::reach::{open_row, open_rows};
use crate::row::Row;
use probe_lang::Hit;
use std::marker::Model;

// Rows in three parts: those before a place, one more or none, and those behind it.
#[derive(Drop)]
pub(crate) struct Parts<'a> {
    before: &'a [Row],
    plus: Option<&'a Row>,
    after: &'a [Row],
}

impl<'a> Model for Parts<'a> {
    ghost use Rattle.std.specs.Prelude.{List, ◌++◌, option_map, option_to_list};
    ghost use Rattle.found_set.specs.declared.row.Row.{Row};

    ghost Value = { List Row };

    ghost view = { λ p. p.before.now ++ option_to_list (option_map (λ row. row.now) p.plus) ++ p.after.now };
}

impl<'a> Parts<'a> {
    // Returns rows with none more.
    pub(crate) fn of(before: &'a [Row], after: &'a [Row]) -> Parts<'a>
        ensures { result ≡ before.now ++ after.now }
    {
        Parts {
            before,
            plus: None,
            after,
        }
    }

    // Returns rows with one more between them.
    pub(crate) fn with(before: &'a [Row], plus: &'a Row, after: &'a [Row]) -> Parts<'a>
        ensures { result ≡ before.now ++ plus.now ∷ after.now }
    {
        Parts {
            before,
            plus: Some(plus),
            after,
        }
    }

    // Marks the patterns of the hits of the rows on buses that are marked.
    pub(crate) fn mark(&self, marks: &mut [bool; PATTERN_MARKS], buses: &Marks)
        ensures { (test : ℕ → Bool) → AreMarked buses.now test
            → AreTrue marks.new (λ config pattern. is_true marks.old config pattern || list_any (has_on test config pattern) self.now) }
    {
        mark_rows(marks, self.before, buses);
        if let Some(row) = self.plus {
            mark_row(marks, row, buses);
        }
        mark_rows(marks, self.after, buses);
    }

    // Whether a row is on a bus that is marked.
    pub(crate) fn are_on(&self, buses: &Marks) -> bool
        ensures { (test : ℕ → Bool) → AreMarked buses.now test → result ≡ list_any (is_on_bus test) self.now }
    {
        let plus_is_on = match self.plus {
            Some(row) => is_on(row, buses),
            None => false,
        };
        plus_is_on || any_is_on(self.before, buses) || any_is_on(self.after, buses)
    }

    // Whether a row on a bus that is marked has this hit.
    pub(crate) fn have_on(&self, hit: Hit, buses: &Marks) -> bool
        ensures { (test : ℕ → Bool) → AreMarked buses.now test → result ≡ list_any (has_on test hit.config hit.pattern) self.now }
    {
        let plus_has = match self.plus {
            Some(row) => has_on(row, hit, buses),
            None => false,
        };
        plus_has || any_has_on(self.before, hit, buses) || any_has_on(self.after, hit, buses)
    }

    // Marks the buses to which the channels of the rows on root buses lead, where their configurations are
    // found.
    pub(crate) fn open(&self, reach: &mut Marks, found: &Marks)
        ensures { AreMarked reach.new (λ bus. is_marked reach.old bus || list_any (leads_on found.now bus) self.now) }
    {
        open_rows(reach, self.before, found);
        if let Some(row) = self.plus {
            open_row(reach, row, found);
        }
        open_rows(reach, self.after, found);
    }
}
