ghost use Rattle.inventory.specs.Laws.{KeepsNew, IndexStays, BoardsAscend, BoardListAscends, ItemsAscend, ItemsDiffer, LiveAscend, NamesDiffer};

/// Boards that differ are kept behind the others, those alone that are new.
pub fn new_boards_last()
    ensures { KeepsNew }
{}

/// A board that is kept has its index for good.
pub fn indexes_stay()
    ensures { IndexStays }
{}

/// Where FRUs are seen by place, the boards of each configuration ascend by place, so they differ.
pub fn boards_by_place()
    ensures { BoardsAscend }
{}

/// Where the boards of each configuration ascend by place, the list of all boards ascends by configuration and place.
pub fn boards_list_ascends()
    ensures { BoardListAscends }
{}

/// Where boards ascend by configuration and place, their items ascend by board and expose, so no two have one id. Live
/// items ascend where all do.
pub fn items_by_id()
    ensures ascend { ItemsAscend }
    ensures differ { ItemsDiffer }
    ensures live { LiveAscend }
{}

/// Where no two items have one id, no two live items of one family have one name.
pub fn names_are_held_once()
    ensures { NamesDiffer }
{}
