ghost use Rattle.std.specs.Prelude.{IfOk};
ghost use Rattle.inventory.specs.Moments.{IsApart, IsApartBy};

use crate::Moment;
use bmc_base::OutOfMemory;
use probe_lang::Entry;
use std::alloc::Global;

/// The FRUs by which the hits of two moments may differ: the one that comes or goes, and those on a bus that is reachable at one
/// of both moments alone.
#[derive(Drop)]
pub struct Otherwise<'e> {
    /// Those that are present at the first moment, by place.
    pub before: Vec<&'e Entry>,
    /// Those that are present at the second moment, by place.
    pub after: Vec<&'e Entry>,
}

/// What is known of the FRUs of two moments.
#[derive(Drop)]
pub enum Apart<'e> {
    /// Nothing.
    Unknown,
    /// This one alone comes or goes, and each other is seen as before.
    Lone(&'e Entry),
    /// One alone comes or goes, and others are seen at one moment alone.
    Several(Otherwise<'e>),
}

/// Returns what is known where this FRU alone comes or goes.
pub fn apart_by<'e>(
    alloc: Global,
    changed: &'e Entry,
    before: &Moment<'e>,
    after: &Moment<'e>,
) -> Result<Apart<'e>, OutOfMemory>
    requires { IsApartBy changed.now before.now.entries after.now.entries }
    ensures { IfOk result (λ apart. IsApart apart before.now after.now) }
{
    if before.is_seen_alike(after) {
        return Ok(Apart::Lone(changed));
    }
    let place = changed.place;
    let seen = before.list_otherwise(alloc, place, after)?;
    let seen_after = after.list_otherwise(alloc, place, before)?;
    Ok(Apart::Several(Otherwise {
        before: seen,
        after: seen_after,
    }))
}
