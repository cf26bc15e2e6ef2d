ghost use Rattle.std.specs.Prelude.{◌≡◌, ◌∷◌, [], MatchOption};
ghost use Rattle.probe_lang.specs.Presents.{unboxed};
ghost use Rattle.fru_rows.specs.Parts.{comes_first, AreApart, joined};

use probe_lang::Entry;
use std::marker::Model;

/// Entries of two lists by place, of which the next by place comes in turn.
#[derive(Drop)]
pub struct Entries<'a> {
    list: &'a [Box<Entry>],
    others: &'a [Box<Entry>],
}

impl<'a> Model for Entries<'a> {
    ghost use Rattle.std.specs.Prelude.{List};
    ghost use Rattle.probe_lang.specs.declared.rows.Entry.{Entry};
    ghost use Rattle.probe_lang.specs.Presents.{unboxed};
    ghost use Rattle.fru_rows.specs.Parts.{joined, AreApart};

    ghost Value = { List Entry };

    ghost view = { λ e. joined (unboxed e.list.now) (unboxed e.others.now) };

    ghost invariant = { λ e. AreApart (unboxed e.list.now) (unboxed e.others.now) };
}

// Whether an entry of the first list comes next.
fn comes_first(list: &[Box<Entry>], others: &[Box<Entry>]) -> bool
    ensures { result ≡ comes_first (unboxed list.now) (unboxed others.now) }
{
    match (list.first(), others.first()) {
        (Some(entry), Some(other)) => entry.place < other.place,
        (first, _) => first.is_some(),
    }
}

impl<'a> Entries<'a> {
    // Returns the entries of two lists.
    pub(crate) fn of(list: &'a [Box<Entry>], others: &'a [Box<Entry>]) -> Entries<'a>
        requires { AreApart (unboxed list.now) (unboxed others.now) }
        ensures { result ≡ joined (unboxed list.now) (unboxed others.now) }
    {
        Entries { list, others }
    }

    /// Returns the next entry, if there is one.
    pub fn next(&mut self) -> Option<&'a Entry>
        ensures { MatchOption result (self.old ≡ []) (λ entry. self.old ≡ entry.now ∷ self.new) }
    {
        if comes_first(self.list, self.others) {
            let (first, later) = self.list.split_first()?;
            self.list = later;
            return Some(first);
        }
        let (first, later) = self.others.split_first()?;
        self.others = later;
        Some(first)
    }
}
