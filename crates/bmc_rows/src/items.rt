use crate::cases::play_cases;
use std::test::Fail;

const NAMES: &str = r#"
== the place gives the name, and a fan waits for a name that another one has
block {"Name":"F","Probe":"xyz.openbmc_project.FruDevice({})","Exposes":[{"Name":"Fan $address - 79","Type":"Fan"}]}
plug 1 80 01000000000000FF
plug 1 79 01000000000000FF
plug 2 79 01000000000000FF
unplug 1 79
-> Done
0 new board "F" 1 at 1 80
0 new fan "Fan 1"
0 new board "F" 2 at 1 79
0 new fan "Fan 0"
0 new board "F" 3 at 2 79
0 gone board "F" 2 at 1 79
0 gone fan "Fan 0"
0 new fan "Fan 0"
fru 1 80
fru 2 79
== the index gives it: a board that comes back has its index again, and so its fan has its name
block {"Name":"T","Probe":"xyz.openbmc_project.FruDevice({})","Exposes":[{"Name":"F$index","Type":"Fan"}]}
plug 1 81 01000000000000FF
plug 1 80 01000000000000FF
unplug 1 81
plug 1 82 01000000000000FF
plug 1 81 01000000000000FF
-> Done
0 new board "T" 1 at 1 81
0 new fan "F1"
0 new board "T" 2 at 1 80
0 new fan "F2"
0 gone board "T" 1 at 1 81
0 gone fan "F1"
0 new board "T" 3 at 1 82
0 new fan "F3"
0 new board "T" 1 at 1 81
0 new fan "F1"
fru 1 80
fru 1 81
fru 1 82
== a name has 64 bytes at the most, and there is no fan without a name
block {"Name":"L","Probe":"TRUE","Exposes":[
    {"Name":"aaaaaaaaaaaaaaaaaaaaaaaaaaaaaaaaaaaaaaaaaaaaaaaaaaaaaaaaaaaaaaaa$index","Type":"Fan"},
    {"Name":"aaaaaaaaaaaaaaaaaaaaaaaaaaaaaaaaaaaaaaaaaaaaaaaaaaaaaaaaaaaaaaa$index","Type":"Fan"},
    {"Name":"aaaaaaaaaaaaaaaaaaaaaaaaaaaaaaaaaaaaaaaaaaaaaaaaaaaaaaaaaaaaaaaaa","Type":"Fan"},
    {"Name":"éééééééééééééééééééééééééééééééé","Type":"Fan"},{"Name":"ééééééééééééééééééééééééééééééééa","Type":"Fan"},
    {"Name":"$index","Type":"Fan"}]}
-> Done
0 new board "L" 1
0 new fan "aaaaaaaaaaaaaaaaaaaaaaaaaaaaaaaaaaaaaaaaaaaaaaaaaaaaaaaaaaaaaaa1"
0 new fan "éééééééééééééééééééééééééééééééé"
0 new fan "1"
== operations: from left to right, the first five digits of a number, and values that are out of range on the way
block {"Name":"O","Probe":"xyz.openbmc_project.FruDevice({})","Exposes":[{"Name":"$address / 9 * 3 - 1 % 5","Type":"Fan"},
    {"Name":"$bus + 100000","Type":"Fan"},{"Name":"$bus - 3 + 9","Type":"Fan"},{"Name":"$bus * 65535 * 32768 + 65535","Type":"Fan"},
    {"Name":"$bus * 65535 * 32768 + 65535 + 1","Type":"Fan"},{"Name":"$BUS +1$ADDRESS  + 1","Type":"Fan"}]}
plug 2 80 01000000000000FF
-> Done
0 new board "O" 1 at 2 80
0 new fan "3"
0 new fan "100020"
0 new fan "4294967295"
0 new fan "2 +180  + 1"
fru 2 80
== fields: texts and numbers of the record, and those that give nothing
block {"Name":"R","Probe":"xyz.openbmc_project.FruDevice({})","Exposes":[
    {"Name":"$BOARD_PRODUCT_NAME/$BOARD_SERIAL_NUMBER","Type":"Pid.Zone","MinThermalOutput":0,"FailSafePercent":0},
    {"Name":"$BOARD_PART_NUMBER","Type":"Fan"},{"Name":"x$BOARD_PART_NUMBER","Type":"Fan"},{"Name":"$PRODUCT_VERSION","Type":"Fan"},
    {"Name":"$BOARD_PRODUCT_NAME + 0","Type":"Fan"},{"Name":"$CHASSIS_TYPE * 2","Type":"Fan"},
    {"Name":"$CHASSIS_TYPE","Type":"Fan"},{"Name":"$BOARD_SERIAL_NUMBER + 1","Type":"Fan"}]}
plug 1 80 $
plug 1 81 01000100000000FE010117C100000026
plug 1 82 01000001000000FE010300000000C0C0C9303030303030303432C1000000003C
-> Done
0 new board "R" 1 at 1 80
0 new zone "RSR1/S1"
0 new fan "x"
0 new board "R" 2 at 1 81
0 new fan "46"
0 new fan "23"
0 new board "R" 3 at 1 82
0 new zone "/000000042"
0 new fan "43"
fru 1 80$
fru 1 81 CHASSIS_TYPE="23"
fru 1 82 BOARD_MANUFACTURER="" BOARD_PRODUCT_NAME="" BOARD_SERIAL_NUMBER="000000042"
== a board without a place has an index, and neither a bus nor a field
block {"Name":"N","Probe":["TRUE","OR","xyz.openbmc_project.FruDevice({})"],"Exposes":[{"Name":"A$bus","Type":"Fan"},
    {"Name":"B$address","Type":"Fan"},{"Name":"C$index","Type":"Fan"},{"Name":"D$CHASSIS_TYPE","Type":"Fan"}]}
plug 1 81 01000100000000FE010117C100000026
unplug 1 81
-> Done
0 new board "N" 1
0 new fan "C1"
0 gone board "N" 1
0 new board "N" 2 at 1 81
0 gone fan "C1"
0 new fan "A1"
0 new fan "B81"
0 new fan "C2"
0 new fan "D23"
0 gone board "N" 2 at 1 81
0 new board "N" 1
0 gone fan "A1"
0 gone fan "B81"
0 gone fan "C2"
0 gone fan "D23"
0 new fan "C1"
== names are quoted
block {"Name":"Q","Probe":"TRUE","Exposes":[{"Name":"a\"\\\u0007é","Type":"Fan"}]}
-> Done
0 new board "Q" 1
0 new fan "a\"\\\x07é"
"#;

const HOLDERS: &str = r#"
== where a board comes at a lower place, its fan and its zone take the names over; where it goes, they are given back
block {"Name":"T","Probe":"xyz.openbmc_project.FruDevice({})","Exposes":[{"Name":"F","Type":"Fan"},
    {"Name":"Z","Type":"Pid.Zone","MinThermalOutput":0,"FailSafePercent":0}]}
plug 1 81 01000000000000FF
plug 1 80 01000000000000FF
plug 1 82 01000000000000FF
unplug 1 82
unplug 1 80
-> Done
0 new board "T" 1 at 1 81
0 new fan "F"
0 new zone "Z"
0 new board "T" 2 at 1 80
0 gone fan "F"
0 gone zone "Z"
0 new fan "F"
0 new zone "Z"
0 new board "T" 3 at 1 82
0 gone board "T" 3 at 1 82
0 gone board "T" 2 at 1 80
0 gone fan "F"
0 gone zone "Z"
0 new fan "F"
0 new zone "Z"
fru 1 81
== a zone and a fan may have one name, and of a family the first expose has it, however the name came about
block {"Name":"S","Probe":"TRUE","Exposes":[{"Name":"N 1","Type":"EEPROM"},{"Name":"N 1","Type":"Mux","Channels":[1]},
    {"Name":"N $index","Type":"Fan"},{"Name":"N 1","Type":"Pid.Zone","MinThermalOutput":0,"FailSafePercent":0},
    {"Name":"N 1","Type":"Fan"},{"Name":"n 1","Type":"Fan"},
    {"Name":"N $index","Type":"Pid.Zone","MinThermalOutput":1,"FailSafePercent":1}]}
-> Done
0 new board "S" 1
0 new fan "N 1"
0 new zone "N 1"
0 new fan "n 1"
== boards come first, then what is gone in the order before, and then what is new in the order after
block {"Name":"P","Probe":["TRUE","OR","xyz.openbmc_project.FruDevice({'ADDRESS': 1})"],"Exposes":[
    {"Name":"Z","Type":"Pid.Zone","MinThermalOutput":0,"FailSafePercent":0},{"Name":"F$index","Type":"Fan"}]}
block {"Name":"Q","Probe":"xyz.openbmc_project.FruDevice({})","Exposes":[{"Name":"G$bus","Type":"Fan"},
    {"Name":"Z","Type":"Pid.Zone","MinThermalOutput":0,"FailSafePercent":0}]}
plug 3 1 01000000000000FF
plug 0 9 01000000000000FF
unplug 3 1
-> Done
0 new board "P" 1
0 new zone "Z"
0 new fan "F1"
0 gone board "P" 1
0 new board "P" 2 at 3 1
0 new board "Q" 1 at 3 1
0 gone zone "Z"
0 gone fan "F1"
0 new zone "Z"
0 new fan "F2"
0 new fan "G3"
0 new board "Q" 2 at 0 9
0 new fan "G0"
0 gone board "P" 2 at 3 1
0 gone board "Q" 1 at 3 1
0 new board "P" 1
0 gone zone "Z"
0 gone fan "F2"
0 gone fan "G3"
0 new zone "Z"
0 new fan "F1"
fru 0 9
== a board of an earlier configuration takes a name over, whatever the places are
block {"Name":"E","Probe":"xyz.openbmc_project.FruDevice({'ADDRESS': 9})","Exposes":[{"Name":"F","Type":"Fan"}]}
block {"Name":"L","Probe":"xyz.openbmc_project.FruDevice({'BUS': 0})","Exposes":[{"Name":"F","Type":"Fan"},{"Name":"G","Type":"Fan"}]}
plug 0 0 01000000000000FF
plug 7 9 01000000000000FF
unplug 0 0
-> Done
0 new board "L" 1 at 0 0
0 new fan "F"
0 new fan "G"
0 new board "E" 1 at 7 9
0 gone fan "F"
0 new fan "F"
0 gone board "L" 1 at 0 0
0 gone fan "G"
fru 7 9
== MATCH_ONE: the one board moves, and its fans with it
block {"Name":"M","Probe":["xyz.openbmc_project.FruDevice({})","MATCH_ONE"],
    "Exposes":[{"Name":"F$address","Type":"Fan"},{"Name":"F","Type":"Fan"}]}
plug 1 81 01000000000000FF
plug 1 80 01000000000000FF
unplug 1 81
unplug 1 80
-> Done
0 new board "M" 1 at 1 81
0 new fan "F81"
0 new fan "F"
0 gone board "M" 1 at 1 81
0 new board "M" 2 at 1 80
0 gone fan "F81"
0 gone fan "F"
0 new fan "F80"
0 new fan "F"
0 gone board "M" 2 at 1 80
0 gone fan "F80"
0 gone fan "F"
== what a multiplexer opens has its fans with the multiplexer alone
block {"Name":"C","Probe":"xyz.openbmc_project.FruDevice({'ADDRESS': 80})","Exposes":[{"Name":"Card $bus","Type":"Fan"}]}
block {"Name":"W","Probe":"xyz.openbmc_project.FruDevice({'ADDRESS': 112})",
    "Exposes":[{"Name":"Slot","Type":"Mux","Channels":["$bus + 19",30]},{"Name":"Riser","Type":"Fan"}]}
plug 30 80 01000000000000FF
plug 20 80 01000000000000FF
plug 1 112 01000000000000FF
unplug 30 80
unplug 1 112
-> Done
0 new board "C" 1 at 20 80
0 new board "C" 2 at 30 80
0 new board "W" 1 at 1 112
0 new fan "Card 20"
0 new fan "Card 30"
0 new fan "Riser"
0 gone board "C" 2 at 30 80
0 gone fan "Card 30"
0 gone board "C" 1 at 20 80
0 gone board "W" 1 at 1 112
0 gone fan "Card 20"
0 gone fan "Riser"
fru 20 80
== of what is not found nothing is live
block {"Name":"X","Probe":"FALSE","Exposes":[{"Name":"F","Type":"Fan"}]}
block {"Name":"Y","Probe":"FOUND('X')","Exposes":[{"Name":"F","Type":"Fan"}]}
-> Done
"#;

#[test]
fn zones_and_fans(rt: HostRuntime) -> Result<(), Fail> {
    play_cases(&rt, rt.alloc(), NAMES, &[])?;
    play_cases(&rt, rt.alloc(), HOLDERS, &[])
}
