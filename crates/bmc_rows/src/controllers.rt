use crate::cases::{Shape, play_cases};
use std::test::Fail;

/// A machine with a temperature, a fan and its speed, a zone, and a controller of each kind.
pub const BOX: &str =
    r#"{"Name":"Box","Probe":"TRUE","Exposes":[{"Name":"T","Type":"Sensor","Timeout":20},
    {"Name":"Tach","Type":"Sensor","ScaleNum":1000},{"Name":"Fan 1","Type":"Fan"},
    {"Name":"Z","Type":"Pid.Zone","MinThermalOutput":1000,"FailSafePercent":80},
    {"Name":"TP","Type":"Stepwise","Zones":["Z"],"Inputs":["T"],"Reading":[20,40],"Output":[2000,4000]},
    {"Name":"FP","Type":"Pid","Class":"fan","Zones":["Z"],"Inputs":["Tach"],"Outputs":["Fan 1"],
    "FFGainCoefficient":"0.01","OutLimitMin":0,"OutLimitMax":100}]}"#;

// A board that is always there, with two controllers in a zone of another board.
const WAITING: &str = r#"{"Name":"W","Probe":"TRUE","Exposes":[
    {"Name":"S","Type":"Stepwise","Zones":["Z"],"Inputs":["T"],"Reading":[0],"Output":[0]},
    {"Name":"P","Type":"Pid","Class":"temp","Zones":["Z"],"Inputs":["T"],"SetPoint":0,"OutLimitMin":0,"OutLimitMax":0}]}"#;

// A zone at each FRU, and a zone that is always there.
const ZONES: &str = r#"{"Name":"Z","Probe":"xyz.openbmc_project.FruDevice({})","Exposes":[
    {"Name":"Z","Type":"Pid.Zone","MinThermalOutput":0,"FailSafePercent":100}]}"#;

const ONE_ZONE: &str = r#"{"Name":"Y","Probe":"TRUE","Exposes":[
    {"Name":"Z","Type":"Pid.Zone","MinThermalOutput":0,"FailSafePercent":100}]}"#;

// A zone at the first FRU alone, and a controller and its zone there.
const FIRST_ZONE: &str =
    r#"{"Name":"M","Probe":["xyz.openbmc_project.FruDevice({})","MATCH_ONE"],"Exposes":[
    {"Name":"Z","Type":"Pid.Zone","MinThermalOutput":0,"FailSafePercent":100}]}"#;

const FIRST_BOTH: &str =
    r#"{"Name":"B","Probe":["xyz.openbmc_project.FruDevice({})","MATCH_ONE"],"Exposes":[
    {"Name":"S","Type":"Stepwise","Zones":["Z"],"Inputs":["T"],"Reading":[0],"Output":[0]},
    {"Name":"Z","Type":"Pid.Zone","MinThermalOutput":0,"FailSafePercent":100}]}"#;

// A controller at each FRU, in a zone of another board.
const EACH: &str = r#"{"Name":"E","Probe":"xyz.openbmc_project.FruDevice({})","Exposes":[
    {"Name":"C $index","Type":"Pid","Class":"margin","Zones":["Z"],"Inputs":["T"],"SetPoint":0,"OutLimitMin":0,"OutLimitMax":0}]}"#;

const ZONES_COME_AND_GO: &str = r#"
== all that a machine has comes in the order of its exposes
block BOX
-> Done
0 new board "Box" 1
0 new sensor "T"
0 new sensor "Tach"
0 new fan "Fan 1"
0 new zone "Z"
0 new controller "TP"
0 new controller "FP"
== controllers wait for their zone, come with it, and go with it, before it and behind it in the order of items
block WAITING
block ZONES
show inventory
plug 1 80 $
show inventory
unplug 1 80
plug 1 80 $
-> Done
0 new board "W" 1
board "W" 1
  "Stepwise" "S"
  "Pid" "P"
0 new board "Z" 1 at 1 80
0 new controller "S"
0 new controller "P"
0 new zone "Z"
board "W" 1
  "Stepwise" "S" live
  "Pid" "P" live
board "Z" 1 at 1 80
  "Pid.Zone" "Z" live
0 gone board "Z" 1 at 1 80
0 gone controller "S"
0 gone controller "P"
0 gone zone "Z"
0 new board "Z" 1 at 1 80
0 new controller "S"
0 new controller "P"
0 new zone "Z"
fru 1 80$
== more
block ZONES
block WAITING
plug 1 80 $
unplug 1 80
-> Done
0 new board "W" 1
0 new board "Z" 1 at 1 80
0 new zone "Z"
0 new controller "S"
0 new controller "P"
0 gone board "Z" 1 at 1 80
0 gone zone "Z"
0 gone controller "S"
0 gone controller "P"
== one board after another takes the name of the zone over, and gives it back: the controllers stay
block WAITING
block ZONES
plug 1 81 $
plug 1 80 $
plug 1 82 $
unplug 1 80
unplug 1 81
-> Done
0 new board "W" 1
0 new board "Z" 1 at 1 81
0 new controller "S"
0 new controller "P"
0 new zone "Z"
0 new board "Z" 2 at 1 80
0 gone zone "Z"
0 new zone "Z"
0 new board "Z" 3 at 1 82
0 gone board "Z" 2 at 1 80
0 gone zone "Z"
0 new zone "Z"
0 gone board "Z" 1 at 1 81
0 gone zone "Z"
0 new zone "Z"
fru 1 82$
== the board of the zone itself moves in one event
block FIRST_ZONE
block WAITING
plug 1 81 $
plug 1 80 $
unplug 1 80
unplug 1 81
-> Done
0 new board "W" 1
0 new board "M" 1 at 1 81
0 new zone "Z"
0 new controller "S"
0 new controller "P"
0 gone board "M" 1 at 1 81
0 new board "M" 2 at 1 80
0 gone zone "Z"
0 new zone "Z"
0 gone board "M" 2 at 1 80
0 new board "M" 1 at 1 81
0 gone zone "Z"
0 new zone "Z"
0 gone board "M" 1 at 1 81
0 gone zone "Z"
0 gone controller "S"
0 gone controller "P"
== another zone of the name waits, or comes with a configuration
block WAITING
block ONE_ZONE
block ZONES
plug 1 80 $
show inventory
unplug 1 80
-> Done
0 new board "W" 1
0 new board "Y" 1
0 new controller "S"
0 new controller "P"
0 new zone "Z"
0 new board "Z" 1 at 1 80
board "W" 1
  "Stepwise" "S" live
  "Pid" "P" live
board "Y" 1
  "Pid.Zone" "Z" live
board "Z" 1 at 1 80
  "Pid.Zone" "Z"
0 gone board "Z" 1 at 1 80
== where the board of a controller moves, its controller is another one, also where the zone stays
block ONE_ZONE
block FIRST_BOTH
plug 1 81 $
plug 1 80 $
show inventory
-> Done
0 new board "Y" 1
0 new zone "Z"
0 new board "B" 1 at 1 81
0 new controller "S"
0 gone board "B" 1 at 1 81
0 new board "B" 2 at 1 80
0 gone controller "S"
0 new controller "S"
board "Y" 1
  "Pid.Zone" "Z" live
board "B" 2 at 1 80
  "Stepwise" "S" live
  "Pid.Zone" "Z"
fru 1 80$
fru 1 81$
== controllers come and go with their boards, while the zone is there
block EACH
block ONE_ZONE
plug 1 81 $
plug 1 80 $
unplug 1 81
plug 1 81 $
-> Done
0 new board "Y" 1
0 new zone "Z"
0 new board "E" 1 at 1 81
0 new controller "C 1"
0 new board "E" 2 at 1 80
0 new controller "C 2"
0 gone board "E" 1 at 1 81
0 gone controller "C 1"
0 new board "E" 1 at 1 81
0 new controller "C 1"
fru 1 80$
fru 1 81$
== with the last zone those of all boards go, and they come back with the next one
block EACH
block {"Name":"A","Probe":"xyz.openbmc_project.FruDevice({'ADDRESS': 9})","Exposes":[
    {"Name":"Z","Type":"Pid.Zone","MinThermalOutput":0,"FailSafePercent":100}]}
plug 1 81 $
plug 1 9 $
plug 1 80 $
unplug 1 9
plug 2 9 $
-> Done
0 new board "E" 1 at 1 81
0 new board "E" 2 at 1 9
0 new board "A" 1 at 1 9
0 new controller "C 2"
0 new controller "C 1"
0 new zone "Z"
0 new board "E" 3 at 1 80
0 new controller "C 3"
0 gone board "E" 2 at 1 9
0 gone board "A" 1 at 1 9
0 gone controller "C 2"
0 gone controller "C 3"
0 gone controller "C 1"
0 gone zone "Z"
0 new board "E" 4 at 2 9
0 new board "A" 2 at 2 9
0 new controller "C 3"
0 new controller "C 1"
0 new controller "C 4"
0 new zone "Z"
fru 1 80$
fru 1 81$
fru 2 9$
"#;

// A zone, a controller of it whose input has no rendering without a record, and one in the zone of the board before.
const NAMED: &str =
    r#"{"Name":"N","Probe":["TRUE","OR","xyz.openbmc_project.FruDevice({})"],"Exposes":[
    {"Name":"Z $index","Type":"Pid.Zone","MinThermalOutput":0,"FailSafePercent":100},
    {"Name":"Fan","Type":"Pid","Class":"fan","Zones":["Z $index"],"Inputs":["T","$BOARD_PRODUCT_NAME"],"Outputs":["F"],
    "OutLimitMin":0,"OutLimitMax":100},
    {"Name":"Curve $index","Type":"Stepwise","Zones":["Z $index - 1"],"Inputs":["T"],"Reading":[0],"Output":[0]}]}"#;

// Controllers of which a name has no rendering without a place: a zone, an output, and the last of several inputs.
const NAMELESS: &str = r#"{"Name":"N","Probe":"TRUE","Exposes":[
    {"Name":"Z","Type":"Pid.Zone","MinThermalOutput":0,"FailSafePercent":100},
    {"Name":"A","Type":"Stepwise","Zones":["$bus"],"Inputs":["T"],"Reading":[0],"Output":[0]},
    {"Name":"B","Type":"Pid","Class":"fan","Zones":["Z"],"Inputs":["T"],"Outputs":["F","$address"],"OutLimitMin":0,"OutLimitMax":100},
    {"Name":"C","Type":"Stepwise","Zones":["Z"],"Inputs":["T","T","U $CHASSIS_TYPE"],"Reading":[0],"Output":[0]},
    {"Name":"D","Type":"Stepwise","Zones":["Z"],"Inputs":["$index - 2"],"Reading":[0],"Output":[0]},
    {"Name":"$bus","Type":"Stepwise","Zones":["Z"],"Inputs":["T"],"Reading":[0],"Output":[0]},
    {"Name":"E","Type":"Pid","Class":"temp","Zones":["Z"],"Inputs":["$index"],"Outputs":["$bus"],"SetPoint":0,
    "OutLimitMin":0,"OutLimitMax":0}]}"#;

// Names of 64 bytes and of 65 in a controller.
const LONG: &str = r#"{"Name":"L","Probe":"TRUE","Exposes":[
    {"Name":"A","Type":"Stepwise","Zones":["Z"],"Reading":[0],"Output":[0],
    "Inputs":["aaaaaaaaaaaaaaaaaaaaaaaaaaaaaaaaaaaaaaaaaaaaaaaaaaaaaaaaaaaaaaa$index"]},
    {"Name":"B","Type":"Stepwise","Zones":["Z"],"Reading":[0],"Output":[0],
    "Inputs":["aaaaaaaaaaaaaaaaaaaaaaaaaaaaaaaaaaaaaaaaaaaaaaaaaaaaaaaaaaaaaaaa$index"]}]}"#;

// Two controllers with one name, and others with the names of a zone, a fan and a sensor; and a zone that is none.
const ALIKE: &str = r#"{"Name":"S","Probe":"TRUE","Exposes":[
    {"Name":"C","Type":"Stepwise","Zones":["Z"],"Inputs":["T"],"Reading":[0],"Output":[0],"Bus":5,"Address":"x"},
    {"Name":"C","Type":"Stepwise","Zones":["Z"],"Inputs":["T"],"Reading":[0],"Output":[0]},
    {"Name":"Z","Type":"Stepwise","Zones":["Z"],"Inputs":["C"],"Reading":[0],"Output":[0]},
    {"Name":"F","Type":"Stepwise","Zones":["F"],"Inputs":["T"],"Reading":[0],"Output":[0]},{"Name":"F","Type":"Fan"},
    {"Name":"Z","Type":"Pid.Zone","MinThermalOutput":0,"FailSafePercent":100},
    {"Name":"F","Type":"Stepwise","Zones":["z"],"Inputs":["T"],"Reading":[0],"Output":[0]},
    {"Name":"T","Type":"Pid","Class":"temp","Zones":["T"],"Inputs":["T"],"SetPoint":0,"OutLimitMin":0,"OutLimitMax":0},
    {"Name":"T","Type":"Sensor"},{"Name":"z","Type":"pid.zone"}]}"#;

const NAMES: &str = r#"
== names with an index and fields: without a record there is no such item
block NAMED
show inventory
plug 1 80 $
plug 1 81 01000000000000FF
show inventory
unplug 1 80
-> Done
0 new board "N" 1
0 new zone "Z 1"
board "N" 1
  "Pid.Zone" "Z 1" live
  "Stepwise" "Curve 1"
0 gone board "N" 1
0 new board "N" 2 at 1 80
0 gone zone "Z 1"
0 new zone "Z 2"
0 new controller "Fan"
0 new board "N" 3 at 1 81
0 new zone "Z 3"
0 new controller "Curve 3"
board "N" 2 at 1 80
  "Pid.Zone" "Z 2" live
  "Pid" "Fan" live
  "Stepwise" "Curve 2"
board "N" 3 at 1 81
  "Pid.Zone" "Z 3" live
  "Stepwise" "Curve 3" live
0 gone board "N" 2 at 1 80
0 gone zone "Z 2"
0 gone controller "Fan"
0 gone controller "Curve 3"
fru 1 81
== one name that is skipped is enough
block NAMELESS
show inventory
-> Done
0 new board "N" 1
0 new zone "Z"
0 new controller "E"
board "N" 1
  "Pid.Zone" "Z" live
  "Pid" "E" live
== more
block ONE_ZONE
block LONG
show inventory
-> Done
0 new board "Y" 1
0 new zone "Z"
0 new board "L" 1
0 new controller "A"
board "Y" 1
  "Pid.Zone" "Z" live
board "L" 1
  "Stepwise" "A" live
== controllers are no family, and a fan or a sensor is no zone
block ALIKE
show inventory
-> Done
0 new board "S" 1
0 new controller "C"
0 new controller "C"
0 new controller "Z"
0 new fan "F"
0 new zone "Z"
0 new sensor "T"
board "S" 1
  "Stepwise" "C" live
  "Stepwise" "C" live
  "Stepwise" "Z" live
  "Stepwise" "F"
  "Fan" "F" live
  "Pid.Zone" "Z" live
  "Stepwise" "F"
  "Pid" "T"
  "Sensor" "T" live
  "pid.zone" "z"
== a controller is no sensor, so it is not read
block BOX
read TP 5
lose FP
read T 41000
lose Tach
show sensors
show inventory
-> Refused
0 new board "Box" 1
0 new sensor "T"
0 new sensor "Tach"
0 new fan "Fan 1"
0 new zone "Z"
0 new controller "TP"
0 new controller "FP"
line 2 refused UnknownSensor
line 3 refused UnknownSensor
sensor "T" 41.000 ok 0
sensor "Tach" none ok -
board "Box" 1
  "Sensor" "T" live
  "Sensor" "Tach" live
  "Fan" "Fan 1" live
  "Pid.Zone" "Z" live
  "Stepwise" "TP" live
  "Pid" "FP" live
== names are quoted
block ONE_ZONE
block {"Name":"Q","Probe":"TRUE","Exposes":[
    {"Name":"a\"\\\u0007é","Type":"Stepwise","Zones":["Z"],"Inputs":["T"],"Reading":[0],"Output":[0]}]}
show inventory
-> Done
0 new board "Y" 1
0 new zone "Z"
0 new board "Q" 1
0 new controller "a\"\\\x07é"
board "Y" 1
  "Pid.Zone" "Z" live
board "Q" 1
  "Stepwise" "a\"\\\x07é" live
"#;

// Documents by their names.
const SHAPES: &[Shape] = &[
    ("BOX", BOX, ""),
    ("WAITING", WAITING, ""),
    ("ZONES", ZONES, ""),
    ("FIRST_ZONE", FIRST_ZONE, ""),
    ("ONE_ZONE", ONE_ZONE, ""),
    ("FIRST_BOTH", FIRST_BOTH, ""),
    ("EACH", EACH, ""),
    ("NAMED", NAMED, ""),
    ("NAMELESS", NAMELESS, ""),
    ("LONG", LONG, ""),
    ("ALIKE", ALIKE, ""),
];

#[test]
fn controllers(rt: HostRuntime) -> Result<(), Fail> {
    play_cases(&rt, rt.alloc(), ZONES_COME_AND_GO, SHAPES)?;
    play_cases(&rt, rt.alloc(), NAMES, SHAPES)
}
