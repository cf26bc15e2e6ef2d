use crate::cases::play_cases;
use crate::play::Part::{Config, Text};
use crate::play::{Row, play_rows};
use bmc_replay::Status::Refused;
use std::test::Fail;

// Readings and losses, and what comes of them.
const READINGS: &str = r#"
== a reading at the value of a threshold sets its alarm, and one below the value less the hysteresis takes it off
block {"Name":"Box","Probe":"TRUE","Exposes":[{"Name":"T","Type":"Sensor",
    "Thresholds":[{"Direction":"greater than","Severity":1,"Value":100,"Hysteresis":5}]}]}
read T 99999
read T 100000
read T 95000
show sensors
read T 94999
show sensors
-> Done
0 new board "Box" 1
0 new sensor "T"
0 alarm on "T" 0 high critical
sensor "T" 95.000 ok 0 0
0 alarm off "T" 0 high critical
sensor "T" 94.999 ok 0
== without a hysteresis an alarm is off on the other side of its value, and a low one looks the other way; a fraction is a text
block {"Name":"Box","Probe":"TRUE","Exposes":[{"Name":"T","Type":"Sensor",
    "Thresholds":[{"Direction":"greater than","Severity":0,"Value":"2.5"},
    {"Direction":"less than","Severity":1,"Value":-1,"Hysteresis":"0.5"},
    {"Direction":"less than","Severity":0,"Value":"2.5"}]}]}
read T 2500
read T 2499
read T 2501
read T -999
read T -1000
show sensors
read T -500
show sensors
read T -499
-> Done
0 new board "Box" 1
0 new sensor "T"
0 alarm on "T" 0 high warning
0 alarm on "T" 2 low warning
0 alarm off "T" 0 high warning
0 alarm on "T" 0 high warning
0 alarm off "T" 2 low warning
0 alarm off "T" 0 high warning
0 alarm on "T" 2 low warning
0 alarm on "T" 1 low critical
sensor "T" -1.000 ok 0 1 2
sensor "T" -0.500 ok 0 1 2
0 alarm off "T" 1 low critical
== eight alarms are printed by position, those that stay on or off are not
block {"Name":"Box","Probe":"TRUE","Exposes":[{"Name":"T","Type":"Sensor",
    "Thresholds":[{"Direction":"greater than","Severity":0,"Value":1},
    {"Direction":"less than","Severity":1,"Value":1},
    {"Direction":"greater than","Severity":1,"Value":2,"Hysteresis":1},
    {"Direction":"less than","Severity":0,"Value":2},
    {"Direction":"greater than","Severity":0,"Value":3},
    {"Direction":"less than","Severity":1,"Value":-3,"Hysteresis":2},
    {"Direction":"greater than","Severity":1,"Value":-3},
    {"Direction":"less than","Severity":0,"Value":0,"Hysteresis":5}]}]}
read T 1500
read T 3000
show sensors
read T -3000
show sensors
-> Done
0 new board "Box" 1
0 new sensor "T"
0 alarm on "T" 0 high warning
0 alarm on "T" 3 low warning
0 alarm on "T" 6 high critical
0 alarm on "T" 2 high critical
0 alarm off "T" 3 low warning
0 alarm on "T" 4 high warning
sensor "T" 3.000 ok 0 0 2 4 6
0 alarm off "T" 0 high warning
0 alarm on "T" 1 low critical
0 alarm off "T" 2 high critical
0 alarm on "T" 3 low warning
0 alarm off "T" 4 high warning
0 alarm on "T" 5 low critical
0 alarm on "T" 7 low warning
sensor "T" -3.000 ok 0 1 3 5 6 7
== five losses in a row fail a sensor once, a good reading between them counts them anew, and one makes it work before its alarms are told
block {"Name":"Box","Probe":"TRUE","Exposes":[{"Name":"T","Type":"Sensor",
    "Thresholds":[{"Direction":"greater than","Severity":1,"Value":100,"Hysteresis":5}]}]}
times 4 lose T
read T 100000
times 4 lose T
show sensors
lose T
times 3 lose T
show sensors
read T 94999
lose T
show sensors
-> Done
0 new board "Box" 1
0 new sensor "T"
0 alarm on "T" 0 high critical
sensor "T" 100.000 ok 0 0
0 failed sensor "T"
sensor "T" 100.000 failed 0 0
0 working sensor "T"
0 alarm off "T" 0 high critical
sensor "T" 94.999 ok 0
== a sensor that was never read may fail
block {"Name":"Box","Probe":"TRUE","Exposes":[{"Name":"T","Type":"Sensor",
    "Thresholds":[{"Direction":"greater than","Severity":1,"Value":100,"Hysteresis":5}]}]}
times 6 lose T
show sensors
read T 0
show sensors
-> Done
0 new board "Box" 1
0 new sensor "T"
0 failed sensor "T"
sensor "T" none failed -
0 working sensor "T"
sensor "T" 0.000 ok 0
== a raw number is refused by itself, whatever its value would be, and an unknown sensor comes before it; what is refused changes nothing
block {"Name":"Box","Probe":"TRUE",
    "Exposes":[{"Name":"T","Type":"Sensor","ScaleNum":1000000,"Offset":1000000},
    {"Name":"U","Type":"Sensor","ScaleNum":0}]}
read T 1000000000
read T 1000000001
read U -1000000000
read U -1000000001
read V 1000000001
read T -999999999999999999
times 4 lose T
read T -1000000001
lose T
show sensors
-> Refused
0 new board "Box" 1
0 new sensor "T"
0 new sensor "U"
line 3 refused ReadingRange
line 5 refused ReadingRange
line 6 refused UnknownSensor
line 7 refused ReadingRange
line 12 refused ReadingRange
0 failed sensor "T"
sensor "T" 1000001000000.000 failed 0
sensor "U" 0.000 ok 0
== a value is rounded down in thousandths, also below 0, before the offset is added
block {"Name":"Box","Probe":"TRUE","Exposes":[{"Name":"A","Type":"Sensor","ScaleDen":2},
    {"Name":"B","Type":"Sensor","ScaleNum":-1,"ScaleDen":3,"Offset":"0.05"},
    {"Name":"C","Type":"Sensor","ScaleNum":-7,"ScaleDen":1000000,"Offset":"-0.001"}]}
read A 5
read B 1
read C 1
show sensors
read A -5
read B 0
read C -1
show sensors
-> Done
0 new board "Box" 1
0 new sensor "A"
0 new sensor "B"
0 new sensor "C"
sensor "A" 0.002 ok 0
sensor "B" 0.049 ok 0
sensor "C" -0.002 ok 0
sensor "A" -0.003 ok 0
sensor "B" 0.050 ok 0
sensor "C" -0.001 ok 0
== a name has all spaces up to the last one, and stands without quotes
block {"Name":"Box","Probe":"TRUE","Exposes":[{"Name":"T","Type":"Sensor"},{"Name":" T","Type":"Sensor"},
    {"Name":"T 1","Type":"Sensor"},{"Name":"T ","Type":"Sensor"},
    {"Name":"2\" \\","Type":"Sensor"}]}
read T 1 2
read T 3
read T  4
read  T 5
read 2" \ 6
lose T 1
lose T 2
read T 1
read  7
read "T" 8
show sensors
-> Refused
0 new board "Box" 1
0 new sensor "T"
0 new sensor " T"
0 new sensor "T 1"
0 new sensor "T "
0 new sensor "2\" \\"
line 8 refused UnknownSensor
line 10 refused BadArguments
line 11 refused UnknownSensor
sensor "T" 0.001 ok 0
sensor " T" 0.005 ok 0
sensor "T 1" 0.002 ok 0
sensor "T " 0.004 ok 0
sensor "2\" \\" 0.006 ok 0
"#;

#[test]
fn readings_and_alarms(rt: HostRuntime) -> Result<(), Fail> {
    play_cases(&rt, rt.alloc(), READINGS, &[])
}

// Sensors that stay, that go, and that come back.
const KEPT: &str = r#"
== the one board of MATCH_ONE moves, and its sensor has another name and no value there
block {"Name":"Card","Probe":["xyz.openbmc_project.FruDevice({'BOARD_PRODUCT_NAME': '^RSR'})","MATCH_ONE"],
    "Exposes":[{"Name":"Card $index Temp","Type":"Sensor"}]}
plug 1 80 $
plug 1 81 01000001000000FE010300000000C341434DC452535232C25331C0C0C10000F4
read Card 1 Temp 41000
unplug 1 80
show sensors
-> Done
0 new board "Card" 1 at 1 80
0 new sensor "Card 1 Temp"
0 gone board "Card" 1 at 1 80
0 new board "Card" 2 at 1 81
0 gone sensor "Card 1 Temp"
0 new sensor "Card 2 Temp"
sensor "Card 2 Temp" none ok -
fru 1 81 BOARD_MANUFACTURER="ACM" BOARD_PRODUCT_NAME="RSR2" BOARD_SERIAL_NUMBER="S1" BOARD_PART_NUMBER="" BOARD_FRU_VERSION_ID=""
== a name that the board at the lower place takes over has a sensor of its own, and the first one starts anew when it gets it back
block {"Name":"Riser","Probe":"xyz.openbmc_project.FruDevice({'BOARD_PRODUCT_NAME': '^RSR1$'})","Exposes":[{"Name":"X","Type":"Sensor"}]}
plug 1 81 $
read X 1000
plug 1 80 $
show sensors
times 5 lose X
unplug 1 80
show sensors
read X 2000
show sensors
-> Done
0 new board "Riser" 1 at 1 81
0 new sensor "X"
0 new board "Riser" 2 at 1 80
0 gone sensor "X"
0 new sensor "X"
sensor "X" none ok -
0 failed sensor "X"
0 gone board "Riser" 2 at 1 80
0 gone sensor "X"
0 new sensor "X"
sensor "X" none ok -
sensor "X" 2.000 ok 0
fru 1 81$
== a sensor that stays live keeps its value, its losses and its alarm while others come and go
block {"Name":"Box","Probe":"TRUE","Exposes":[{"Name":"T","Type":"Sensor",
    "Thresholds":[{"Direction":"greater than","Severity":1,"Value":100,"Hysteresis":5}]}]}
block {"Name":"Riser","Probe":"xyz.openbmc_project.FruDevice({'BOARD_PRODUCT_NAME': '^RSR1$'})","Exposes":[{"Name":"X $index","Type":"Sensor"}]}
read T 100000
times 3 lose T
plug 1 80 $
read X 1 5
plug 1 79 $
show sensors
lose T
unplug 1 80
lose T
unplug 1 79
plug 1 80 $
show sensors
read T 96000
-> Done
0 new board "Box" 1
0 new sensor "T"
0 alarm on "T" 0 high critical
0 new board "Riser" 1 at 1 80
0 new sensor "X 1"
0 new board "Riser" 2 at 1 79
0 new sensor "X 2"
sensor "T" 100.000 ok 0 0
sensor "X 2" none ok -
sensor "X 1" 0.005 ok 0
0 gone board "Riser" 1 at 1 80
0 gone sensor "X 1"
0 failed sensor "T"
0 gone board "Riser" 2 at 1 79
0 gone sensor "X 2"
0 new board "Riser" 1 at 1 80
0 new sensor "X 1"
sensor "T" 100.000 failed 0 0
sensor "X 1" none ok -
0 working sensor "T"
fru 1 80$
== one that left and came back has no value, no losses and no alarm
block {"Name":"Box","Probe":"xyz.openbmc_project.FruDevice({'BUS': 1})",
    "Exposes":[{"Name":"T","Type":"Sensor",
    "Thresholds":[{"Direction":"greater than","Severity":1,"Value":5,"Hysteresis":9}]}]}
plug 1 80 $
read T 5000
times 4 lose T
unplug 1 80
read T 5000
plug 1 80 $
lose T
show sensors
read T 0
read T 5000
-> Refused
0 new board "Box" 1 at 1 80
0 new sensor "T"
0 alarm on "T" 0 high critical
0 gone board "Box" 1 at 1 80
0 gone sensor "T"
line 9 refused UnknownSensor
0 new board "Box" 1 at 1 80
0 new sensor "T"
sensor "T" none ok -
0 alarm on "T" 0 high critical
fru 1 80$
== one that failed goes and comes without a word of that
block {"Name":"Riser","Probe":"xyz.openbmc_project.FruDevice({'BOARD_PRODUCT_NAME': '^RSR1$'})","Exposes":[{"Name":"X","Type":"Sensor"}]}
plug 1 80 $
plug 1 81 $
times 5 lose X
unplug 1 80
read X 1
unplug 1 81
plug 1 80 $
lose X
show sensors
-> Done
0 new board "Riser" 1 at 1 80
0 new sensor "X"
0 new board "Riser" 2 at 1 81
0 failed sensor "X"
0 gone board "Riser" 1 at 1 80
0 gone sensor "X"
0 new sensor "X"
0 gone board "Riser" 2 at 1 81
0 gone sensor "X"
0 new board "Riser" 1 at 1 80
0 new sensor "X"
sensor "X" none ok -
fru 1 80$
== a zone and a fan with the name of a sensor are not read, and a sensor that waits is not
block {"Name":"Z","Probe":"TRUE",
    "Exposes":[{"Name":"Z","Type":"Pid.Zone","MinThermalOutput":0,"FailSafePercent":0},
    {"Name":"F","Type":"Fan"},{"Name":"S","Type":"Fan"},{"Name":"S","Type":"Sensor"},
    {"Name":"S","Type":"Sensor","Offset":1},{"Name":"E","Type":"TMP75"}]}
read Z 1
lose F
read E 1
read S 1
lose s
show sensors
show inventory
-> Refused
0 new board "Z" 1
0 new zone "Z"
0 new fan "F"
0 new fan "S"
0 new sensor "S"
line 2 refused UnknownSensor
line 3 refused UnknownSensor
line 4 refused UnknownSensor
line 6 refused UnknownSensor
sensor "S" 0.001 ok 0
board "Z" 1
  "Pid.Zone" "Z" live
  "Fan" "F" live
  "Fan" "S" live
  "Sensor" "S" live
  "Sensor" "S"
  "TMP75" "E"
"#;

#[test]
fn what_a_sensor_keeps(rt: HostRuntime) -> Result<(), Fail> {
    play_cases(&rt, rt.alloc(), KEPT, &[])
}

// What is listed at any time.
const LISTS: &str = r#"
== all lists of nothing
show frus
show inventory
show sensors
show indexes
-> Done
== a name that is below 0 at one place gives no item there, and indexes are listed by number
block {"Name":"N","Probe":"xyz.openbmc_project.FruDevice({})","Exposes":[{"Name":"S $address - 80 * 2","Type":"Sensor"}]}
plug 1 82 01000000000000FF
plug 1 79 01000000000000FF
show inventory
show indexes
-> Done
0 new board "N" 1 at 1 82
0 new sensor "S 4"
0 new board "N" 2 at 1 79
board "N" 2 at 1 79
board "N" 1 at 1 82
  "Sensor" "S 4" live
index "N" 1 at 1 82
index "N" 2 at 1 79
fru 1 79
fru 1 82
== items of all types: their buses and addresses, which of them are live, and those that a record gives
block {"Name":"Riser","Probe":["TRUE","OR","xyz.openbmc_project.FruDevice({'BOARD_PRODUCT_NAME': '^RSR1$'})"],
    "Exposes":[{"Name":"Slots","Type":"Mux","Channels":[20]},
    {"Name":"$BOARD_SERIAL_NUMBER EEPROM","Type":"EEPROM","Bus":5},
    {"Name":"T","Type":"Sensor","Bus":"$bus","Address":"0x4C"},{"Name":"T","Type":"Fan","Bus":5},
    {"Name":"T","Type":"Sensor","Bus":"$index","Address":"$address + 47"},
    {"Name":"Z $bus","Type":"Pid.Zone","MinThermalOutput":0,"FailSafePercent":0}]}
show inventory
plug 1 81 $
plug 1 80 $
show inventory
-> Done
0 new board "Riser" 1
0 new sensor "T"
0 new fan "T"
board "Riser" 1
  "Mux" "Slots"
  "Sensor" "T" address 76 live
  "Fan" "T" live
  "Sensor" "T" bus 1
0 gone board "Riser" 1
0 new board "Riser" 2 at 1 81
0 gone sensor "T"
0 gone fan "T"
0 new sensor "T"
0 new fan "T"
0 new zone "Z 1"
0 new board "Riser" 3 at 1 80
0 gone sensor "T"
0 gone fan "T"
0 gone zone "Z 1"
0 new sensor "T"
0 new fan "T"
0 new zone "Z 1"
board "Riser" 3 at 1 80
  "Mux" "Slots"
  "EEPROM" "S1 EEPROM"
  "Sensor" "T" bus 1 address 76 live
  "Fan" "T" live
  "Sensor" "T" bus 3 address 127
  "Pid.Zone" "Z 1" live
board "Riser" 2 at 1 81
  "Mux" "Slots"
  "EEPROM" "S1 EEPROM"
  "Sensor" "T" bus 1 address 76
  "Fan" "T"
  "Sensor" "T" bus 2
  "Pid.Zone" "Z 1"
fru 1 80$
fru 1 81$
== boards and FRUs by place, indexes by number; a board that is gone has its index still, and a FRU that is not reachable is listed
block {"Name":"Maker","Probe":["TRUE","OR","xyz.openbmc_project.FruDevice({'BOARD_MANUFACTURER': 'ACM'})"]}
block {"Name":"Never","Probe":"FALSE"}
block {"Name":"Any","Probe":"xyz.openbmc_project.FruDevice({})"}
plug 2 80 01000000000000FF
plug 16 0 $
plug 1 80 $
show frus
show inventory
show indexes
unplug 2 80
unplug 1 80
show indexes
-> Done
0 new board "Maker" 1
0 new board "Any" 1 at 2 80
0 gone board "Maker" 1
0 new board "Maker" 2 at 1 80
0 new board "Any" 2 at 1 80
fru 1 80$
fru 2 80
fru 16 0$
board "Maker" 2 at 1 80
board "Any" 2 at 1 80
board "Any" 1 at 2 80
index "Maker" 1
index "Maker" 2 at 1 80
index "Any" 1 at 2 80
index "Any" 2 at 1 80
0 gone board "Any" 1 at 2 80
0 gone board "Maker" 2 at 1 80
0 gone board "Any" 2 at 1 80
0 new board "Maker" 1
index "Maker" 1
index "Maker" 2 at 1 80
index "Any" 1 at 2 80
index "Any" 2 at 1 80
fru 16 0$
== live sensors come in the order of their boards and exposes, and quoted
block {"Name":"First","Probe":"xyz.openbmc_project.FruDevice({'BUS': 9})",
    "Exposes":[{"Name":"B\u0007","Type":"Sensor"},{"Name":"A","Type":"Sensor"}]}
block {"Name":"Last","Probe":"TRUE","Exposes":[{"Name":"A","Type":"Sensor"},{"Name":"C\\é","Type":"Sensor"}]}
show sensors
plug 9 0 $
read A 1
read C\é 2
show sensors
unplug 9 0
show sensors
-> Done
0 new board "Last" 1
0 new sensor "A"
0 new sensor "C\\é"
sensor "A" none ok -
sensor "C\\é" none ok -
0 new board "First" 1 at 9 0
0 gone sensor "A"
0 new sensor "B\x07"
0 new sensor "A"
sensor "B\x07" none ok -
sensor "A" 0.001 ok 0
sensor "C\\é" 0.002 ok 0
0 gone board "First" 1 at 9 0
0 gone sensor "B\x07"
0 gone sensor "A"
0 new sensor "A"
sensor "A" none ok -
sensor "C\\é" 0.002 ok 0
"#;

// More of them, which are made of parts.
const LISTS_BY_PARTS: &[Row] = &[
    // topics that are not there yet, and lines that have not the form, among lists
    (
        &[
            Config(
                r#"{"Name":"Box","Probe":"TRUE","Exposes":[{"Name":"T","Type":"Sensor",
                    "Thresholds":[{"Direction":"greater than","Severity":1,"Value":100,"Hysteresis":5}]}]}"#,
            ),
            Text(
                "show zone\nshow logs\nshow sensors \nread T\nread T 5 \nread T +5\nread T 0000000000000000005\nread T -000000000000000005\nshow sensors\n",
            ),
        ],
        Refused,
        r#"0 new board "Box" 1
0 new sensor "T"
line 2 refused BadArguments
line 3 refused BadArguments
line 4 refused BadArguments
line 5 refused BadArguments
line 6 refused BadArguments
line 7 refused BadArguments
line 8 refused BadArguments
sensor "T" -0.005 ok 0
"#,
    ),
];

#[test]
fn lists(rt: HostRuntime) -> Result<(), Fail> {
    play_cases(&rt, rt.alloc(), LISTS, &[])?;
    play_rows(&rt, rt.alloc(), LISTS_BY_PARTS)
}
