ghost use Rattle.std.specs.Prelude.{◌≡◌, ◌++◌, ◌∷◌, [], codes, false, Some};
ghost use Rattle.cfg_json.specs.Verdicts.{Accepted, LargePattern};
ghost use Rattle.bmc_machine.specs.Meetings.{first_met, met_before};
ghost use Rattle.bmc_machine.specs.Answers.{answer_of, answer_files, out, out_after};
ghost use Rattle.bmc_text.specs.Items.{Block, BlockTooLong};
ghost use Rattle.bmc_machine.specs.Examples.{riser, riser_fields, chassis, chassis_fields, damaged, bare, plug, unplug, config, fru, refused};
ghost use Rattle.bmc_machine.specs.Examples.{always_found, never_found, asks_before, asks_behind, finds_any, finds_first, finds_chassis, finds_riser};
ghost use Rattle.bmc_machine.specs.Examples.{opens_20, opens_below, names_fans, has_sensor, has_alarm, has_sensors};
ghost use Rattle.bmc_machine.specs.Examples.{has_controller, has_zones, no_word, no_class, no_template, three_frus};
ghost use Rattle.bmc_machine.specs.Examples.{read, lose, show};
ghost use Rattle.bmc_machine.specs.Examples.{bus_1_79, bus_1_80, bus_1_81, bus_2_79, bus_20_80, place_1_79, place_1_80, place_1_81};

/// What the machine prints for scripts with FRUs, computed from the definitions: a FRU that is listed, two that
/// are listed by place, a damaged record, a comment and a carriage return, and what is refused first.
pub fn scripts_with_frus()
    ensures empty { out [] [] ≡ [] }
    ensures listed { out [] (plug bus_1_80 riser) ≡ fru bus_1_80 riser_fields }
    ensures by_place { out [] (plug bus_1_81 riser ++ plug bus_1_80 chassis) ≡ fru bus_1_80 chassis_fields ++ fru bus_1_81 riser_fields }
    ensures damaged { out [] (plug bus_1_80 damaged) ≡ refused (codes "1") (codes "AreaChecksum Product") }
    ensures twice { out [] (plug bus_1_80 riser ++ plug bus_1_80 damaged ++ unplug bus_1_80 ++ unplug bus_1_80)
        ≡ refused (codes "2") (codes "Occupied") ++ refused (codes "4") (codes "NotPresent") }
    ensures silent { out [] (codes "# a comment\n\n\r\nunplug 1 80\r") ≡ refused (codes "4") (codes "NotPresent") }
    ensures refused { (answer_of [] (codes "unplug 1 80")).refused ≡ 1 }
{}

/// What it prints for scripts with configurations: one that is always found and one whose block is cut short; one whose
/// operators are taken from left to right; two that ask for another, of which only the one behind it is found; and what
/// refuses a configuration, a pattern that is too large among it.
pub fn scripts_with_configs()
    ensures always { out [] (config (codes "27") always_found ++ codes "config 40\n{}\n")
        ≡ codes "0 new board \"A\" 1\n" ++ refused (codes "2") (codes "ConfigShort") }
    ensures never { out [] (config (codes "55") never_found) ≡ [] }
    ensures asked { out [] (config (codes "33") asks_before ++ config (codes "27") always_found ++ config (codes "33") asks_behind)
        ≡ codes "0 new board \"A\" 1\n0 new board \"B\" 1\n" }
    ensures refused { out [] (config (codes "27") always_found ++ config (codes "27") always_found ++ plug bus_20_80 chassis
        ++ config (codes "55") never_found ++ unplug bus_20_80)
        ≡ codes "0 new board \"A\" 1\n" ++ refused (codes "2") (codes "DuplicateName") ++ refused (codes "4") (codes "ConfigAfterPlug") }
    ensures broken { out [] (config (codes "26") no_word ++ config (codes "65") no_class ++ config (codes "68") no_template)
        ≡ refused (codes "1") (codes "ProbeSyntax") ++ refused (codes "2") (codes "MissingKey") ++ refused (codes "3") (codes "TemplateSyntax") }
    ensures large { out (Accepted ∷ LargePattern (codes "RSR") ∷ []) (config (codes "27") always_found ++ config (codes "83") finds_riser)
        ≡ codes "0 new board \"A\" 1\n" ++ refused (codes "2") (codes "PatternTooLarge") }
{}

/// What it prints for scripts with boards: one of a chassis by its type, but not on a bus that is not visible; one at the
/// first FRU alone; one on a bus that a multiplexer opens, and one on a bus to which its channel moves; and boards that go
/// and come back, each with the index that it had.
pub fn scripts_with_boards()
    ensures found { out [] (config (codes "74") finds_chassis ++ plug bus_1_80 chassis ++ plug bus_1_81 riser ++ plug bus_20_80 chassis
        ++ unplug bus_1_80)
        ≡ codes "0 new board \"C\" 1 at 1 80\n0 gone board \"C\" 1 at 1 80\n" ++ fru bus_1_81 riser_fields ++ fru bus_20_80 chassis_fields }
    ensures first { out [] (config (codes "70") finds_first ++ plug bus_1_81 riser ++ plug bus_1_80 chassis ++ unplug bus_1_80 ++ unplug bus_1_81)
        ≡ codes "0 new board \"F\" 1 at 1 81\n0 gone board \"F\" 1 at 1 81\n0 new board \"F\" 2 at 1 80\n"
        ++ codes "0 gone board \"F\" 2 at 1 80\n0 new board \"F\" 1 at 1 81\n0 gone board \"F\" 1 at 1 81\n" }
    ensures opened { out [] (config (codes "56") finds_any ++ config (codes "81") opens_20 ++ plug bus_20_80 riser)
        ≡ codes "0 new board \"M\" 1\n0 new board \"F\" 1 at 20 80\n" ++ fru bus_20_80 riser_fields }
    ensures moved { out [] (config (codes "123") opens_below ++ plug bus_20_80 riser ++ plug bus_1_80 chassis)
        ≡ codes "0 new board \"W\" 1 at 1 80\n0 new board \"W\" 2 at 20 80\n" ++ fru bus_1_80 chassis_fields ++ fru bus_20_80 riser_fields }
    ensures kept { out [] (config (codes "56") finds_any ++ plug bus_1_81 riser ++ plug bus_1_80 riser ++ unplug bus_1_81 ++ plug bus_1_79 riser
        ++ unplug bus_1_80 ++ unplug bus_1_79 ++ plug bus_1_81 riser ++ unplug bus_1_81)
        ≡ codes "0 new board \"F\" 1 at 1 81\n0 new board \"F\" 2 at 1 80\n0 gone board \"F\" 1 at 1 81\n0 new board \"F\" 3 at 1 79\n"
        ++ codes "0 gone board \"F\" 2 at 1 80\n0 gone board \"F\" 3 at 1 79\n0 new board \"F\" 1 at 1 81\n0 gone board \"F\" 1 at 1 81\n" }
{}

/// What it prints for a script with items: a fan at each FRU, of which two have one name, so that the second is live once
/// the first is gone.
pub fn scripts_with_items()
    ensures { out [] (config (codes "110") names_fans ++ plug bus_1_80 bare ++ plug bus_1_79 bare ++ plug bus_2_79 bare ++ unplug bus_1_79)
        ≡ codes "0 new board \"F\" 1 at 1 80\n0 new fan \"Fan 1\"\n0 new board \"F\" 2 at 1 79\n0 new fan \"Fan 0\"\n"
        ++ codes "0 new board \"F\" 3 at 2 79\n0 gone board \"F\" 2 at 1 79\n0 gone fan \"Fan 0\"\n0 new fan \"Fan 0\"\n"
        ++ fru bus_1_80 [] ++ fru bus_2_79 [] }
{}

/// What it prints for scripts with a sensor: an alarm that goes on, stays on within the hysteresis and goes off behind it; a
/// sensor that fails at its fifth loss in a row, and works again with a reading, with what refuses a line of a sensor; and one that
/// is blank again once its board is back, with the lists of indexes and of boards.
pub fn scripts_with_sensors()
    ensures alarm { out [] (config (codes "150") has_alarm ++ read (codes "T 2000") ++ read (codes "T 1000") ++ show (codes "sensors") ++ read (codes "T 999")
        ++ show (codes "sensors"))
        ≡ codes "0 new board \"A\" 1\n0 new sensor \"T\"\n0 alarm on \"T\" 0 high critical\nsensor \"T\" 1.000 ok 0 0\n"
        ++ codes "0 alarm off \"T\" 0 high critical\nsensor \"T\" 0.999 ok 0\n" }
    ensures failure { out [] (config (codes "68") has_sensor ++ lose (codes "T") ++ lose (codes "T") ++ lose (codes "T") ++ lose (codes "T")
        ++ show (codes "sensors") ++ lose (codes "T") ++ show (codes "sensors") ++ read (codes "T -5") ++ show (codes "sensors")
        ++ lose (codes "U") ++ read (codes "T 1000000001"))
        ≡ codes "0 new board \"A\" 1\n0 new sensor \"T\"\nsensor \"T\" none ok -\n0 failed sensor \"T\"\nsensor \"T\" none failed -\n"
        ++ codes "0 working sensor \"T\"\nsensor \"T\" -0.005 ok 0\n" ++ refused (codes "11") (codes "UnknownSensor")
        ++ refused (codes "12") (codes "ReadingRange") }
    ensures lists { out [] (config (codes "123") has_sensors ++ plug bus_1_80 bare ++ read (codes "T 7") ++ unplug bus_1_80 ++ show (codes "indexes")
        ++ plug bus_1_80 bare ++ show (codes "sensors") ++ show (codes "inventory"))
        ≡ codes "0 new board \"F\" 1 at 1 80\n0 new sensor \"T\"\n0 gone board \"F\" 1 at 1 80\n0 gone sensor \"T\"\nindex \"F\" 1 at 1 80\n"
        ++ codes "0 new board \"F\" 1 at 1 80\n0 new sensor \"T\"\nsensor \"T\" none ok -\n"
        ++ codes "board \"F\" 1 at 1 80\n  \"Sensor\" \"T\" bus 1 address 76 live\n" ++ fru bus_1_80 [] }
{}

/// What it prints of the log: the alarm of a sensor, a plug that is refused and a board that goes, each by its class, with ids from
/// 1; items, other refusals and duties are not logged. Where the run keeps one error, the log has the last one.
pub fn scripts_with_logs()
    ensures classes { out [] (config (codes "150") has_alarm ++ read (codes "T 2000") ++ read (codes "T 0") ++ plug bus_1_80 damaged ++ lose (codes "U")
        ++ show (codes "log"))
        ≡ codes "0 new board \"A\" 1\n0 new sensor \"T\"\n0 alarm on \"T\" 0 high critical\n0 alarm off \"T\" 0 high critical\n"
        ++ refused (codes "4") (codes "AreaChecksum Product") ++ refused (codes "5") (codes "UnknownSensor")
        ++ codes "log 1 info 0 new board \"A\" 1\nlog 2 error 0 alarm on \"T\" 0 high critical\n"
        ++ codes "log 3 info 0 alarm off \"T\" 0 high critical\nlog 4 error 0 refused plug 1 80 AreaChecksum Product\n" }
    ensures capped { out_after (answer_files (record { strict = false; log_cap = 1 }) [] []) [] (plug bus_1_80 damaged ++ plug bus_1_81 damaged
        ++ show (codes "log"))
        ≡ refused (codes "1") (codes "AreaChecksum Product") ++ refused (codes "2") (codes "AreaChecksum Product")
        ++ codes "log 2 error 0 refused plug 1 81 AreaChecksum Product\n" }
{}

/// What it prints for files before a script: files are numbered for themselves, and what they configure stands when the script begins.
pub fn files_before_scripts()
    ensures { out_after (answer_files (record { strict = false; log_cap = 200 }) [] (Block always_found ∷ Block always_found ∷ BlockTooLong ∷ []))
        [] (codes "unplug 1 80\n")
        ≡ codes "0 new board \"A\" 1\nfile 2 refused DuplicateName\nfile 3 refused ConfigTooLong\n" ++ refused (codes "1") (codes "NotPresent") }
{}

/// What it prints for a script with a controller: it is live once its zone is there, stays while the name of the zone moves to
/// another board, and goes with the last zone of this name.
pub fn scripts_with_controllers()
    ensures { out [] (config (codes "127") has_controller ++ config (codes "141") has_zones ++ plug bus_1_80 bare ++ plug bus_1_79 bare
        ++ unplug bus_1_80 ++ unplug bus_1_79)
        ≡ codes "0 new board \"C\" 1\n0 new board \"F\" 1 at 1 80\n0 new controller \"P\"\n0 new zone \"Z\"\n"
        ++ codes "0 new board \"F\" 2 at 1 79\n0 gone zone \"Z\"\n0 new zone \"Z\"\n0 gone board \"F\" 1 at 1 80\n"
        ++ codes "0 gone board \"F\" 2 at 1 79\n0 gone controller \"P\"\n0 gone zone \"Z\"\n" }
{}

/// When boards were first met, of FRUs at three places: the second behind the first, and the third after the second is
/// gone, so that two were met before it.
pub fn boards_were_met()
    ensures second { first_met (answer_of [] three_frus).past 0 (Some place_1_81) ≡ record { steps = 3; position = 1 } }
    ensures third { first_met (answer_of [] three_frus).past 0 (Some place_1_79) ≡ record { steps = 5; position = 0 } }
    ensures before { met_before (answer_of [] three_frus).past 0 (Some place_1_79) ≡ Some place_1_80 ∷ Some place_1_81 ∷ [] }
{}
