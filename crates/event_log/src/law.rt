ghost use Rattle.std.specs.Prelude.{◌≡◌, [], ◌∷◌, ◌++◌, ◌^◌, ◌-◌};
ghost use Rattle.event_log.specs.Kept.{kept};
ghost use Rattle.event_log.specs.Listed.{by_id, listed};
ghost use Rattle.event_log.specs.Laws.{LatestAreKept, AreById, ListedAsAdded};
ghost use Rattle.event_log.specs.Stands.{nth_id};
ghost use Rattle.event_log.specs.Examples.{error, info, infos};

/// Of each class the last entries are kept, as many as its cap.
pub fn latest_are_kept()
    ensures { LatestAreKept }
{}

/// Entries by id ascend, and those of one id stay in their order.
pub fn entries_are_by_id()
    ensures { AreById }
{}

/// As long as no two ids are equal, entries are listed in the order in which they were added.
pub fn entries_are_listed_as_added()
    ensures { ListedAsAdded }
{}

/// Which entries are kept of some, and how they are listed.
pub fn log_examples()
    ensures last { nth_id (2 ^ 64 - 1) ≡ 2 ^ 64 - 1 }
    ensures still { nth_id (2 ^ 64) ≡ 2 ^ 64 - 1 }
    ensures none { listed 1 [] ≡ [] }
    ensures one { kept 1 (error 1 ∷ error 2 ∷ []) ≡ error 2 ∷ [] }
    ensures other { kept 1 (error 1 ∷ info 2 ∷ error 3 ∷ []) ≡ info 2 ∷ error 3 ∷ [] }
    ensures ten { kept 1 (infos 1 10 ++ error 11 ∷ []) ≡ infos 1 10 ++ error 11 ∷ [] }
    ensures eleven { kept 1 (infos 1 11) ≡ infos 2 10 }
    ensures order { by_id (error 2 ∷ error 4 ∷ info 3 ∷ []) ≡ error 2 ∷ info 3 ∷ error 4 ∷ [] }
    ensures equal { listed 2 (info 7 ∷ error 7 ∷ info 7 ∷ []) ≡ error 7 ∷ info 7 ∷ info 7 ∷ [] }
{}
