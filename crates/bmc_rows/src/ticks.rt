use crate::cases::{Shape, play_cases};
use crate::controllers::BOX;
use crate::play::Part::{self, Config, Text, Times};
use crate::play::{Row, SOUND, play_once, play_rows, played, script_of};
use bmc_replay::Status::{Done, Refused};
use std::test::Fail;

/// A machine with a temperature, a fan and its speed, a zone that asks for little in failsafe, and a controller of each kind.
pub const BOX_15: &str =
    r#"{"Name":"Box","Probe":"TRUE","Exposes":[{"Name":"T","Type":"Sensor","Timeout":20},
    {"Name":"Tach","Type":"Sensor","ScaleNum":1000},{"Name":"Fan 1","Type":"Fan"},
    {"Name":"Z","Type":"Pid.Zone","MinThermalOutput":1000,"FailSafePercent":15},
    {"Name":"TP","Type":"Stepwise","Zones":["Z"],"Inputs":["T"],"Reading":[20,40],"Output":[2000,4000]},
    {"Name":"FP","Type":"Pid","Class":"fan","Zones":["Z"],"Inputs":["Tach"],"Outputs":["Fan 1"],
    "FFGainCoefficient":"0.01","OutLimitMin":0,"OutLimitMax":100}]}"#;

// A fan that no controller holds.
const FREE_FAN: &str = r#"{"Name":"Fans","Probe":"TRUE","Exposes":[{"Name":"F","Type":"Fan"}]}"#;

// Ticks, and what zones and fans come to.
const TICKS: &str = r#"
== five losses one after another are a failure, and a reading between them begins anew
block BOX
read T 30000
read Tach 2000
tick 1
times 4 lose T
read T 30000
times 5 lose T
tick 1
show zones
-> Done
0 new board "Box" 1
0 new sensor "T"
0 new sensor "Tach"
0 new fan "Fan 1"
0 new zone "Z"
0 new controller "TP"
0 new controller "FP"
1 duty fan "Fan 1" 20.000
1 failed sensor "T"
2 failsafe zone "Z"
2 duty fan "Fan 1" 80.000
zone "Z" failsafe 2000.000
fan "Fan 1" 80.000
== a reading that is older than the timeout is bad; the duty is the greater of the last one and the failsafe percent
block BOX_15
read T 30000
read Tach 2000
tick 20
show zones
show sensors
tick 1
show zones
show sensors
-> Done
0 new board "Box" 1
0 new sensor "T"
0 new sensor "Tach"
0 new fan "Fan 1"
0 new zone "Z"
0 new controller "TP"
0 new controller "FP"
1 duty fan "Fan 1" 20.000
zone "Z" normal 2000.000
fan "Fan 1" 20.000
sensor "T" 30.000 ok 20
sensor "Tach" 2000.000 ok 20
21 failsafe zone "Z"
zone "Z" failsafe 2000.000
fan "Fan 1" 20.000
sensor "T" 30.000 ok 21
sensor "Tach" 2000.000 ok 21
== the lines of other acts have the tick count too
block FREE_FAN
tick 36000
block {"Name":"A","Probe":"xyz.openbmc_project.FruDevice({})"}
plug 1 80 $
tick 1
unplug 1 80
-> Done
0 new board "Fans" 1
0 new fan "F"
1 duty fan "F" 100.000
36000 new board "A" 1 at 1 80
36001 gone board "A" 1 at 1 80
== a fan that no controller holds has its full duty
block FREE_FAN
show zones
tick 2
show zones
-> Done
0 new board "Fans" 1
0 new fan "F"
fan "F" none
1 duty fan "F" 100.000
fan "F" 100.000
== no ticks, too many, and lines that do not say how many
tick 0
tick 36001
tick 999999999
tick 000036000
tick
tick 1 1
tick -1
tick 1000000000
tick x
-> Refused
line 1 refused TickLimit
line 2 refused TickLimit
line 3 refused TickLimit
line 5 refused BadArguments
line 6 refused BadArguments
line 7 refused BadArguments
line 8 refused BadArguments
line 9 refused BadArguments
"#;

// More of them, which are made of parts.
const TICKS_BY_PARTS: &[Row] = &[
    // a line of each refusal
    (
        &[
            Times(9001, "a"),
            Text(
                "\nread X 1\njump\nplug 1 128 01000000000000FF\nplug 1 80 0G\nplug 1 80 01\ntick 0\n",
            ),
        ],
        Refused,
        r#"line 1 refused LineTooLong
line 2 refused UnknownSensor
line 3 refused UnknownCommand
line 4 refused PlaceRange
line 5 refused BadHex
line 6 refused FruShort
line 7 refused TickLimit
"#,
    ),
];

// A server: two zones with four fans each, two cards with a sensor each, and two power supplies.
const BASEBOARD: &str = r#"{"Name":"Baseboard","Probe":"TRUE","Exposes":[
    {"Name":"CPU Temp","Type":"Sensor","Timeout":100,"Thresholds":[{"Direction":"greater than","Severity":1,"Value":95,"Hysteresis":2}]},
    {"Name":"Inlet Temp","Type":"Sensor","Timeout":100},
    {"Name":"Tach 1","Type":"Sensor","ScaleNum":1000,"Timeout":100},
    {"Name":"Tach 2","Type":"Sensor","ScaleNum":1000,"Timeout":100},
    {"Name":"Tach 3","Type":"Sensor","ScaleNum":1000,"Timeout":100},
    {"Name":"Tach 4","Type":"Sensor","ScaleNum":1000,"Timeout":100},
    {"Name":"Tach 5","Type":"Sensor","ScaleNum":1000,"Timeout":100},
    {"Name":"Tach 6","Type":"Sensor","ScaleNum":1000,"Timeout":100},
    {"Name":"Tach 7","Type":"Sensor","ScaleNum":1000,"Timeout":100},
    {"Name":"Tach 8","Type":"Sensor","ScaleNum":1000,"Timeout":100},
    {"Name":"Fan 1","Type":"Fan"},{"Name":"Fan 2","Type":"Fan"},{"Name":"Fan 3","Type":"Fan"},{"Name":"Fan 4","Type":"Fan"},
    {"Name":"Fan 5","Type":"Fan"},{"Name":"Fan 6","Type":"Fan"},{"Name":"Fan 7","Type":"Fan"},{"Name":"Fan 8","Type":"Fan"},
    {"Name":"Zone 1","Type":"Pid.Zone","MinThermalOutput":1000,"FailSafePercent":75},
    {"Name":"Zone 2","Type":"Pid.Zone","MinThermalOutput":1000,"FailSafePercent":75},
    {"Name":"CPU Curve","Type":"Stepwise","Zones":["Zone 1"],"Inputs":["CPU Temp"],"Reading":[0,50,70],"Output":[2000,4000,8000],"NegativeHysteresis":2},
    {"Name":"Inlet Curve","Type":"Stepwise","Zones":["Zone 2"],"Inputs":["Inlet Temp"],"Reading":[0,30],"Output":[2500,5000]},
    {"Name":"Fans 1","Type":"Pid","Class":"fan","Zones":["Zone 1"],"Inputs":["Tach 1","Tach 2","Tach 3","Tach 4"],
        "Outputs":["Fan 1","Fan 2","Fan 3","Fan 4"],"FFGainCoefficient":"0.01","OutLimitMin":20,"OutLimitMax":100},
    {"Name":"Fans 2","Type":"Pid","Class":"fan","Zones":["Zone 2"],"Inputs":["Tach 5","Tach 6","Tach 7","Tach 8"],
        "Outputs":["Fan 5","Fan 6","Fan 7","Fan 8"],"FFGainCoefficient":"0.01","OutLimitMin":20,"OutLimitMax":100}]}"#;

const SLOT: &str =
    r#"{"Name":"Riser","Probe":"xyz.openbmc_project.FruDevice({'BOARD_PRODUCT_NAME': '^RSR1$'})",
    "Exposes":[{"Name":"Riser $index Temp","Type":"Sensor","Bus":"$bus","Address":"0x4C"}]}"#;

const SUPPLY: &str =
    r#"{"Name":"PSU","Probe":"xyz.openbmc_project.FruDevice({'BOARD_PRODUCT_NAME': '^RSR2$'})",
    "Exposes":[{"Name":"PSU $index Temp","Type":"Sensor"},{"Name":"PSU $index EEPROM","Type":"EEPROM"}]}"#;

// Minutes of the server, in which nothing happens once the fans have their duties.
const SERVER: &[Row] = &[(
    &[
        Config(BASEBOARD),
        Config(SLOT),
        Config(SUPPLY),
        Text(
            "plug 1 80 $\nplug 1 81 $
plug 2 88 01000001000000FE010300000000C341434DC452535232C25331C0C0C10000F4
plug 2 89 01000001000000FE010300000000C341434DC452535232C25331C0C0C10000F4\n",
        ),
        Times(
            60,
            "read CPU Temp 45000\nread Inlet Temp 25000
read Tach 1 2000\nread Tach 2 2000\nread Tach 3 2000\nread Tach 4 2000
read Tach 5 2000\nread Tach 6 2000\nread Tach 7 2000\nread Tach 8 2000
read Riser 1 Temp 38000\ntick 10\n",
        ),
        Text("show zones\n"),
    ],
    Done,
    r#"0 new board "Baseboard" 1
0 new sensor "CPU Temp"
0 new sensor "Inlet Temp"
0 new sensor "Tach 1"
0 new sensor "Tach 2"
0 new sensor "Tach 3"
0 new sensor "Tach 4"
0 new sensor "Tach 5"
0 new sensor "Tach 6"
0 new sensor "Tach 7"
0 new sensor "Tach 8"
0 new fan "Fan 1"
0 new fan "Fan 2"
0 new fan "Fan 3"
0 new fan "Fan 4"
0 new fan "Fan 5"
0 new fan "Fan 6"
0 new fan "Fan 7"
0 new fan "Fan 8"
0 new zone "Zone 1"
0 new zone "Zone 2"
0 new controller "CPU Curve"
0 new controller "Inlet Curve"
0 new controller "Fans 1"
0 new controller "Fans 2"
0 new board "Riser" 1 at 1 80
0 new sensor "Riser 1 Temp"
0 new board "Riser" 2 at 1 81
0 new sensor "Riser 2 Temp"
0 new board "PSU" 1 at 2 88
0 new sensor "PSU 1 Temp"
0 new board "PSU" 2 at 2 89
0 new sensor "PSU 2 Temp"
1 duty fan "Fan 1" 20.000
1 duty fan "Fan 2" 20.000
1 duty fan "Fan 3" 20.000
1 duty fan "Fan 4" 20.000
1 duty fan "Fan 5" 25.000
1 duty fan "Fan 6" 25.000
1 duty fan "Fan 7" 25.000
1 duty fan "Fan 8" 25.000
zone "Zone 1" normal 2000.000
zone "Zone 2" normal 2500.000
fan "Fan 1" 20.000
fan "Fan 2" 20.000
fan "Fan 3" 20.000
fan "Fan 4" 20.000
fan "Fan 5" 25.000
fan "Fan 6" 25.000
fan "Fan 7" 25.000
fan "Fan 8" 25.000
fru 1 80$
fru 1 81$
fru 2 88 BOARD_MANUFACTURER="ACM" BOARD_PRODUCT_NAME="RSR2" BOARD_SERIAL_NUMBER="S1" BOARD_PART_NUMBER="" BOARD_FRU_VERSION_ID=""
fru 2 89 BOARD_MANUFACTURER="ACM" BOARD_PRODUCT_NAME="RSR2" BOARD_SERIAL_NUMBER="S1" BOARD_PART_NUMBER="" BOARD_FRU_VERSION_ID=""
"#,
)];

// Documents by their names.
const SHAPES: &[Shape] = &[
    ("BOX", BOX, ""),
    ("BOX_15", BOX_15, ""),
    ("FREE_FAN", FREE_FAN, ""),
];

#[test]
fn ticks(rt: HostRuntime) -> Result<(), Fail> {
    play_cases(&rt, rt.alloc(), TICKS, SHAPES)?;
    play_rows(&rt, rt.alloc(), TICKS_BY_PARTS)
}

#[test]
fn a_server(rt: HostRuntime) -> Result<(), Fail> {
    play_rows(&rt, rt.alloc(), SERVER)
}

// A controller whose duty rises by a thousandth at each tick, and the first readings of the machine.
const RISING: &str = r#"{"Name":"Box","Probe":"TRUE","Exposes":[{"Name":"T","Type":"Sensor"},
    {"Name":"Tach","Type":"Sensor","ScaleNum":1000},{"Name":"Fan 1","Type":"Fan"},
    {"Name":"Z","Type":"Pid.Zone","MinThermalOutput":1000,"FailSafePercent":80},
    {"Name":"TP","Type":"Stepwise","Zones":["Z"],"Inputs":["T"],"Reading":[20],"Output":[2000]},
    {"Name":"FP","Type":"Pid","Class":"fan","Zones":["Z"],"Inputs":["Tach"],"Outputs":["Fan 1"],
    "ICoefficient":"0.00001","ILimitMin":0,"ILimitMax":100,"OutLimitMin":0,"OutLimitMax":100}]}"#;

const FIRST: &str = "read T 30000\nread Tach 1000\n";

const AT_ONCE: &[Part] = &[Config(RISING), Text(FIRST), Text("tick 9000\n")];

const ONE_BY_ONE: &[Part] = &[Config(RISING), Text(FIRST), Times(9000, "tick 1\n")];

// One line that prints far more than is gathered is as good as a line for each tick.
#[test]
fn many_ticks(rt: HostRuntime) -> Result<(), Fail> {
    let alloc = rt.alloc();
    let one_by_one = script_of(alloc, ONE_BY_ONE)?;
    let (status, text) = played(&rt, alloc, one_by_one.as_slice(), SOUND)?;
    assert_eq!(rt; status, Done);
    assert!(rt;
        text.as_slice()
            .ends_with(b"\n9000 duty fan \"Fan 1\" 9.000\n")
    );
    let at_once = script_of(alloc, AT_ONCE)?;
    play_once(&rt, alloc, at_once.as_slice(), SOUND, Done, text.as_slice())
}
