ghost use Rattle.found_set.specs.Laws.{KeptIsScan, IdleRow, RootsAreReached, LaterIsNotFound};

/// Over what is kept of the FRUs, the facts are those of a scan of their records.
pub fn kept_is_scan()
    ensures { KeptIsScan }
{}

/// A row with neither hits nor channels changes no fact.
pub fn idle_row()
    ensures { IdleRow }
{}

/// Root buses are reachable, whatever is found.
pub fn roots_are_reached()
    ensures { RootsAreReached }
{}

/// `FOUND` of the own name is false, and of the name of a later configuration.
pub fn later_is_not_found()
    ensures { LaterIsNotFound }
{}
