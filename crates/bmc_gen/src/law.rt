ghost use Rattle.std.specs.Prelude.{◌≡◌, ◌∷◌, ◌++◌, [], codes};
ghost use Rattle.bmc_gen.specs.Documents.{riser, fan_box};
ghost use Rattle.bmc_gen.specs.declared.line.Line.TheVariants.{Plug, Unplug, LoseT, ReadT, Tick};
ghost use Rattle.bmc_gen.specs.Numbers.{number, choice};
ghost use Rattle.bmc_gen.specs.Scripts.{lines, script_of};
ghost use Rattle.bmc_gen.specs.Laws.{OccupiedWherePlugged, LinesAreCounted};

/// A FRU is at a place exactly where one of the lines plugs it in and no later one unplugs it.
pub fn occupied_where_plugged()
    ensures { OccupiedWherePlugged }
{}

/// A seed chooses as many lines as it is asked for.
pub fn lines_are_counted()
    ensures { LinesAreCounted }
{}

/// The first numbers, choices and lines of some seeds, and a whole script without chosen lines.
pub fn sample_examples()
    ensures seed { number 7 0 ≡ 7 }
    ensures first { number 7 1 ≡ 1282168116 }
    ensures fourth { number 7 4 ≡ 1486001571 }
    ensures last_seed { number 2147483647 1 ≡ 1043980748 }
    ensures upper_bits { choice 7 1 ≡ 19564 }
    ensures no_line { lines 7 0 ≡ [] }
    ensures of_seven { lines 7 4 ≡ Tick ∷ Tick ∷ ReadT 48000 ∷ ReadT 54000 ∷ [] }
    ensures plugged { lines 0 1 ≡ Plug 81 ∷ [] }
    ensures unplugged { lines 1053 5 ≡ Plug 81 ∷ LoseT ∷ ReadT 57000 ∷ Tick ∷ Unplug 81 ∷ [] }
    ensures bare { script_of 7 0
        ≡ codes "config 131\n" ++ riser ++ codes "\nconfig 491\n" ++ fan_box
        ++ codes "\nshow zones\n" }
{}
