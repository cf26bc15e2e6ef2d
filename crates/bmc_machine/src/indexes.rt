ghost use Rattle.std.specs.Prelude.{◌≡◌, ◌+◌, ◌++◌, ◌∷◌, true, ℕ, List, Option, length};
ghost use Rattle.std.specs.Option.{option_eq};
ghost use Rattle.std.specs.List.{IsDistinct};
ghost use Rattle.bmc_base.specs.Places.{Place, place_eq};
ghost use Rattle.inventory.specs.Boards.{has_board};
ghost use Rattle.inventory.specs.Indexes.{except, index_in};
ghost use Rattle.bmc_machine.specs.Histories.{Step, standing};
ghost use Rattle.bmc_machine.specs.Boards.{boards};
ghost use Rattle.bmc_machine.specs.Indexes.{had_board, kept};
ghost use Rattle.bmc_machine.specs.Meetings.{met_before};
ghost use Rattle.bmc_machine.specs.Refusals.{IsLegal};

/// A board keeps its index for good, and no other board of its configuration is ever given it. The boards
/// that are kept are those that ever stood, and a step adds those that are not among them yet.
pub fn indexes_are_kept()
    ensures stays { (more past : List Step) (number : ℕ) (place : Option Place) → had_board past number place ≡ true
        → index_in (kept (more ++ past) number) place ≡ index_in (kept past number) place }
    ensures own { (past : List Step) (number : ℕ) (place other : Option Place) → had_board past number place ≡ true → had_board past number other ≡ true
        → index_in (kept past number) place ≡ index_in (kept past number) other → place ≡ other }
    ensures all { (past : List Step) (number : ℕ) (place : Option Place) → has_board (kept past number) place ≡ had_board past number place }
    ensures next { (step : Step) (past : List Step) (number : ℕ)
        → kept (step ∷ past) number ≡ kept past number ++ except (has_board (kept past number)) (boards (standing (step ∷ past)) number) }
{}

/// The index of a board is one more than the number of boards of its configuration that were first met before it.
/// No board is counted twice.
pub fn indexes_count()
    ensures counts { (past : List Step) (number : ℕ) (place : Option Place) → IsLegal past → had_board past number place ≡ true
        → index_in (kept past number) place ≡ 1 + length (met_before past number place) }
    ensures once { (past : List Step) (number : ℕ) → IsLegal past → IsDistinct (option_eq place_eq) (kept past number) }
{}
