ghost use Rattle.match_rows.specs.Laws.{EntryShowsRecord};

/// An entry shows what a new look at its record shows: which patterns match it, and which channels are open.
pub fn entry_shows_record()
    ensures { EntryShowsRecord }
{}
