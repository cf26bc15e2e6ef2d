ghost use Rattle.std.specs.Prelude.{◌≡◌, ◌∷◌, List, None, bytes_eq};
ghost use Rattle.std.specs.List.{Contains, IsDistinct};
ghost use Rattle.cfg_json.specs.declared.item.Item.{Item};
ghost use Rattle.inventory.specs.Limits.{passed_limit};
ghost use Rattle.inventory.specs.Orders.{AreByKey, AreById, HaveOwnIds};
ghost use Rattle.inventory.specs.declared.family.Family.{Family};
ghost use Rattle.bmc_machine.specs.Boards.{board_keys};
ghost use Rattle.bmc_machine.specs.Histories.{Step, standing};
ghost use Rattle.bmc_machine.specs.Indexes.{boards_now, items_now, live_now};
ghost use Rattle.bmc_machine.specs.Names.{names_of};
ghost use Rattle.bmc_machine.specs.Refusals.{IsLegal};

/// After a legal history boards ascend by configuration and place, and items by board and expose. So no two items have
/// one id, and no two live items of one family have one name.
pub fn items_differ()
    ensures boards { (past : List Step) → IsLegal past → AreByKey (boards_now past) }
    ensures items { (past : List Step) → IsLegal past → AreById (items_now past) }
    ensures ids { (past : List Step) → IsLegal past → HaveOwnIds (items_now past) }
    ensures names { (past : List Step) (family : Family) → IsLegal past → IsDistinct bytes_eq (names_of family (live_now past)) }
{}

/// An item before a step of a legal history and an item after it are one item where they have one id.
pub fn items_stay()
    ensures { (step : Step) (past : List Step) (item other : Item) → IsLegal (step ∷ past) → Contains (items_now past) item
        → Contains (items_now (step ∷ past)) other → item.id ≡ other.id → item ≡ other }
{}

/// After a legal history the boards pass no limit.
pub fn limits_hold()
    ensures { (past : List Step) → IsLegal past → passed_limit (standing past).configs (board_keys (standing past)) ≡ None }
{}
