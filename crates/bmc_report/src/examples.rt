ghost use Rattle.std.specs.Prelude.{◌≡◌, ◌++◌, [], codes, false, Some};
ghost use Rattle.fru_area.specs.declared.fault.Area.TheVariants.{Board};
ghost use Rattle.bmc_report.specs.declared.refusal.Origin.TheVariants.{File, Line};
ghost use Rattle.bmc_report.specs.declared.refusal.Refusal.TheVariants.{DuplicateName, NotPresent, AreaChecksum};
ghost use Rattle.bmc_report.specs.Refusals.{refused_line};
ghost use Rattle.bmc_report.specs.Changes.{change_line};
ghost use Rattle.bmc_report.specs.Quoted.{quoted};
ghost use Rattle.bmc_report.specs.Rows.{fru_row};
ghost use Rattle.bmc_report.specs.SensorRows.{sensor_row};
ghost use Rattle.bmc_report.specs.Examples.{last_bus, new_chassis, gone_riser, alarm_on, below_zero, outer_alarms};
ghost use Rattle.bmc_report.specs.Examples.{odd_text, odd_quoted, odd_fields};

/// What is printed, computed from the definitions: a refused line without an area and one with it, a board
/// without a place and one with it, an alarm, a text with each kind of character, a FRU without fields and one
/// with, and a sensor with two alarms.
pub fn printed_texts()
    ensures refused { refused_line Line 3 NotPresent ≡ codes "line 3 refused NotPresent\n" }
    ensures file { refused_line File 1 DuplicateName ≡ codes "file 1 refused DuplicateName\n" }
    ensures area { refused_line Line 12 (AreaChecksum Board) ≡ codes "line 12 refused AreaChecksum Board\n" }
    ensures new { change_line 0 new_chassis ≡ codes "0 new board \"Chassis\" 1\n" }
    ensures gone { change_line 600 gone_riser ≡ codes "600 gone board \"Riser\" 2 at 1 80\n" }
    ensures alarm { change_line 7 alarm_on ≡ codes "7 alarm on \"T\" 0 high critical\n" }
    ensures quoted { quoted odd_text ≡ odd_quoted }
    ensures bare { fru_row last_bus [] ≡ codes "fru 255 0\n" }
    ensures fields { fru_row last_bus odd_fields ≡ codes "fru 255 0 BOARD_PART_NUMBER=" ++ odd_quoted ++ codes " BOARD_INFO_AM12=\"\"\n" }
    ensures sensor { sensor_row (codes "X") (Some below_zero) false (Some 7) outer_alarms ≡ codes "sensor \"X\" -0.050 ok 7 0 7\n" }
{}
