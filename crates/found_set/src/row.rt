ghost use Rattle.std.specs.Prelude.{◌≡◌, ◌≤◌, true, IfOk, Some, length, position};
ghost use Rattle.std.specs.List.{position_or_len};
ghost use Rattle.found_set.specs.Rows.{row_of, is_idle, is_row_at, is_row_after, holds_place};

use bmc_base::{OutOfMemory, Place};
use probe_lang::{Channels, Entry, Hits};
use std::alloc::Global;

/// What the set keeps of a FRU.
#[derive(Drop)]
pub struct Row {
    /// Where it is.
    pub place: Place,
    /// The patterns that match it.
    pub hits: Hits,
    /// The buses to which moving channels lead from it.
    pub channels: Channels,
}

impl Row {
    // Copies what is kept of this entry.
    pub(crate) fn of(alloc: Global, entry: &Entry) -> Result<Row, OutOfMemory>
        ensures { IfOk result (λ row. row ≡ row_of entry.now) }
    {
        let hits = entry.hits.copy(alloc)?;
        let channels = entry.channels.copy(alloc)?;
        Ok(Row {
            place: entry.place,
            hits,
            channels,
        })
    }

    // Whether it has neither hits nor channels. Such a row changes no fact.
    pub(crate) fn is_idle(&self) -> bool
        ensures { result ≡ is_idle self.now }
    {
        self.hits.as_slice().is_empty() && self.channels.as_slice().is_empty()
    }
}

// Returns where the first row at a later place is, or `None`.
fn first_after(rows: &[Row], place: Place) -> Option<usize>
    ensures { result ≡ position (is_row_after place) rows.now }
{
    rows.iter().position(|row| place < row.place)
}

// Returns where a row at this place belongs: before the first at a later place.
#[tactic(auto, using(crate::proofs::RowsLemmas::first_or_end, crate::proofs::RowsLemmas::first_within))]
pub(crate) fn position_for(rows: &[Row], place: Place) -> usize
    ensures value { result ≡ position_or_len (is_row_after place) rows.now }
    ensures within { result ≤ length rows.now }
{
    first_after(rows, place).unwrap_or(rows.len())
}

// Returns where the row at this place is, or `None`.
fn find_at(rows: &[Row], place: Place) -> Option<usize>
    ensures { result ≡ position (is_row_at place) rows.now }
{
    rows.iter().position(|row| row.place == place)
}

// Returns where the row at this place is. One is there.
#[tactic(auto, using(crate::proofs::RowsLemmas::is_there))]
pub(crate) fn position_at(rows: &[Row], place: Place) -> usize
    requires { holds_place rows.now place ≡ true }
    ensures { position (is_row_at place) rows.now ≡ Some result }
{
    find_at(rows, place).unwrap()
}
