ghost use Rattle.std.specs.Prelude.{◌≡◌, ℕ, Bool};
ghost use Rattle.found_set.specs.Marks.{AreMarked};
ghost use Rattle.found_set.specs.Covers.{are_had, is_covered, opens_none};

use crate::marks::{Marks, is_on};
use crate::parts::Parts;
use crate::reach::is_on_root;
use crate::row::Row;
use probe_lang::Hit;

// Whether a row opens no bus, whatever is found.
fn opens_none(row: &Row) -> bool
    ensures { result ≡ opens_none row.now }
{
    !is_on_root(row) || row.channels.as_slice().is_empty()
}

// Whether each hit is a hit of a row on a bus that is marked.
fn are_had(hits: &[Hit], rows: &Parts<'_>, buses: &Marks) -> bool
    ensures { (test : ℕ → Bool) → AreMarked buses.now test → result ≡ are_had test hits.now rows.now }
{
    for hit in hits {
        if !rows.have_on(*hit, buses) {
            return false;
        }
    }
    true
}

// Whether a row changes no fact beside the others, where these buses are reachable: it opens no bus, and if
// it is visible, each of its hits is a hit of another row that counts wherever this one does.
pub(crate) fn is_covered(row: &Row, others: &Parts<'_>, reach: &Marks) -> bool
    ensures { (test : ℕ → Bool) → AreMarked reach.now test → result ≡ is_covered test row.now others.now }
{
    if !opens_none(row) {
        return false;
    }
    if !is_on(row, reach) {
        return true;
    }
    let hits = row.hits.as_slice();
    if is_on_root(row) {
        are_had(hits, others, &Marks::roots())
    } else {
        are_had(hits, others, reach)
    }
}
