use crate::cases::{Shape, play_cases, play_each};
use std::test::Fail;

// The members of sensors behind their types: those that are right, at the ends of their ranges.
const FOUND: &str = r#"
== each by itself
block S
block S ,"Bus":0,"Address":0
block S ,"Bus":255,"Address":127
block S ,"Bus":"000000255","Address":"127"
block S ,"Bus":"0x00fF","Address":"0X7F","Address":"0x7F"
block S ,"Bus":"$bus","Address":"$address - 1"
block S ,"Bus":"$index","Address":"$BOARD_SERIAL_NUMBER * 2 % 128"
block S ,"Bus":"$bus + 65535","Address":"$CHASSIS_TYPE"
block S ,"ScaleNum":-1000000,"ScaleDen":1000000
block S ,"ScaleNum":1000000,"ScaleDen":1
block S ,"ScaleNum":0
block S ,"Offset":1000000
block S ,"Offset":"-1000000.000"
block S ,"Offset":"-0.001"
block S ,"Offset":-40,"Timeout":1000000
block S ,"Timeout":0
block S ,"Thresholds":[]
block S ,"Thresholds":[{"Direction":"greater than","Severity":1,"Value":95}]
block S ,"Thresholds":[{"Direction":"less than","Severity":0,"Value":"5.5"}]
block S ,"Thresholds":[{"Direction":"greater than","Severity":1,"Value":95,"Hysteresis":0}]
block S ,"Thresholds":[{"Direction":"less than","Severity":0,"Value":"5.5","Hysteresis":1000000},
    {"Direction":"greater than","Severity":1,"Value":95,"Hysteresis":"0.001"}]
block S ,"Thresholds":[{"Direction":"less than","Severity":1,"Value":5},
    {"Direction":"less than","Severity":1,"Value":5},{"Direction":"less than","Severity":1,"Value":5},
    {"Direction":"less than","Severity":1,"Value":5},{"Direction":"less than","Severity":1,"Value":5},
    {"Direction":"less than","Severity":1,"Value":5},{"Direction":"less than","Severity":1,"Value":5},
    {"Direction":"less than","Severity":1,"Value":5}]
block S ,"Thresholds":[{"Name":"upper critical","Value":"1000000","Severity":0,"Direction":"greater than","Index":-1},
    {"Value":-1000000,"Severity":1,"Direction":"less than"}]
block S ,"Timeout":5,"Offset":0,"ScaleDen":2,"Bus":1,"Address":76,"ScaleNum":-5,"PollRate":null,"Zones":[5]
-> Done
0 new board "A" 1
0 new sensor "S"
"#;

// Those with a threshold that lacks a member.
const MISSING_KEYS: &str = r#"
== each by itself
block S ,"Thresholds":[{}]
block S ,"Thresholds":[{"Severity":1,"Value":95}]
block S ,"Thresholds":[{"Direction":"less than","Value":95}]
block S ,"Thresholds":[{"Direction":"less than","Severity":1}]
block S ,"Thresholds":[{"Direction":"less than","Severity":1,"Hysteresis":-1}]
block S ,"Thresholds":[{"Severity":2,"Value":null}]
block S ,"Thresholds":[{"Direction":"less than","Value":null}]
block S ,"Thresholds":[{"Direction":"greater than","Severity":1,"Value":95},{"Direction":"less than"}]
block S ,"Thresholds":[{},5]
-> Refused
line 1 refused MissingKey
"#;

// Those of which one has a wrong kind.
const WRONG_KINDS: &str = r#"
== each by itself
block S ,"Bus":null
block S ,"Bus":[1]
block S ,"Bus":true,"Address":128
block S ,"Address":null
block S ,"Address":{}
block S ,"Bus":"255","Address":false,"ScaleNum":"x"
block S ,"ScaleNum":null
block S ,"ScaleNum":"1"
block S ,"ScaleNum":true
block S ,"ScaleDen":null
block S ,"ScaleDen":"1"
block S ,"ScaleDen":[1]
block S ,"Offset":null
block S ,"Offset":true
block S ,"Offset":""
block S ,"Offset":"+5"
block S ,"Offset":"1.0005"
block S ,"Offset":"$bus"
block S ,"Offset":[]
block S ,"Timeout":null
block S ,"Timeout":"5"
block S ,"Timeout":"0","Thresholds":5
block S ,"Thresholds":null
block S ,"Thresholds":{}
block S ,"Thresholds":"x"
block S ,"Thresholds":8
block S ,"Thresholds":[5]
block S ,"Thresholds":[null]
block S ,"Thresholds":[[]]
block S ,"Thresholds":["greater than"]
block S ,"Thresholds":[{"Direction":"greater than","Severity":1,"Value":95},false]
block S ,"Thresholds":[{"Direction":null,"Severity":1,"Value":95}]
block S ,"Thresholds":[{"Direction":5}]
block S ,"Thresholds":[{"Direction":["less than"],"Severity":2}]
block S ,"Thresholds":[{"Direction":"less than","Severity":"1","Value":95}]
block S ,"Thresholds":[{"Direction":"less than","Severity":true}]
block S ,"Thresholds":[{"Direction":"less than","Severity":null,"Value":95}]
block S ,"Thresholds":[{"Direction":"less than","Severity":1,"Value":null}]
block S ,"Thresholds":[{"Direction":"less than","Severity":1,"Value":"hot"}]
block S ,"Thresholds":[{"Direction":"less than","Severity":1,"Value":".5"}]
block S ,"Thresholds":[{"Direction":"greater than","Severity":1,"Value":95,"Hysteresis":null}]
block S ,"Thresholds":[{"Direction":"greater than","Severity":1,"Value":95,"Hysteresis":""}]
block S ,"Thresholds":[{"Direction":"greater than","Severity":1,"Value":95,"Hysteresis":false}]
-> Refused
line 1 refused WrongKind
"#;

// Those with a number that is out of its range, or a direction that is unknown.
const OUT_OF_RANGE: &str = r#"
== each by itself
block S ,"Bus":256
block S ,"Bus":-1
block S ,"Bus":18446744073709551615
block S ,"Bus":"256"
block S ,"Bus":"0x100"
block S ,"Bus":"999999999"
block S ,"Bus":256,"Address":null
block S ,"Address":128
block S ,"Address":-1
block S ,"Address":"128"
block S ,"Address":"0xffff"
block S ,"ScaleNum":1000001
block S ,"ScaleNum":-1000001
block S ,"ScaleNum":-9223372036854775808,"ScaleDen":null
block S ,"ScaleDen":0
block S ,"ScaleDen":-1
block S ,"ScaleDen":1000001
block S ,"Offset":1000001
block S ,"Offset":"-1000000.001"
block S ,"Offset":"9999999999.999","Timeout":"x"
block S ,"Timeout":-1
block S ,"Timeout":1000001
block S ,"Timeout":18446744073709551615
block S ,"Thresholds":[5,5,5,5,5,5,5,5,5]
block S ,"Thresholds":[{"Direction":"less than","Severity":1,"Value":5},
    {"Direction":"less than","Severity":1,"Value":5},{"Direction":"less than","Severity":1,"Value":5},
    {"Direction":"less than","Severity":1,"Value":5},{"Direction":"less than","Severity":1,"Value":5},
    {"Direction":"less than","Severity":1,"Value":5},{"Direction":"less than","Severity":1,"Value":5},
    {"Direction":"less than","Severity":1,"Value":5},{"Direction":"less than","Severity":1,"Value":5}]
block S ,"Thresholds":[{"Direction":""}]
block S ,"Thresholds":[{"Direction":"Less than","Severity":1,"Value":95}]
block S ,"Thresholds":[{"Direction":"less than ","Severity":1,"Value":95}]
block S ,"Thresholds":[{"Direction":"greater","Severity":null}]
block S ,"Thresholds":[{"Direction":"less than","Severity":2,"Value":95}]
block S ,"Thresholds":[{"Direction":"less than","Severity":-1,"Value":"x"}]
block S ,"Thresholds":[{"Direction":"less than","Severity":1,"Value":1000001}]
block S ,"Thresholds":[{"Direction":"less than","Severity":1,"Value":"-1000000.001","Hysteresis":null}]
block S ,"Thresholds":[{"Direction":"greater than","Severity":1,"Value":95,"Hysteresis":-1}]
block S ,"Thresholds":[{"Direction":"greater than","Severity":1,"Value":95,"Hysteresis":"-0.001"}]
block S ,"Thresholds":[{"Direction":"greater than","Severity":1,"Value":95,"Hysteresis":1000001}]
block S ,"Thresholds":[{"Direction":"greater than","Severity":1,"Value":95,"Hysteresis":"1000000.001"}]
block S ,"Thresholds":[{"Direction":"greater than","Severity":1,"Value":95},
    {"Direction":"less than","Severity":0,"Value":"5.5"},
    {"Direction":"greater than","Severity":1,"Value":95,"Hysteresis":-1}]
-> Refused
line 1 refused OutOfRange
"#;

// Those with a bus or an address that is no number, and no template of one.
const TEMPLATE_SYNTAX: &str = r#"
== each by itself
block S ,"Bus":""
block S ,"Bus":"x"
block S ,"Bus":"-1"
block S ,"Bus":"1.0"
block S ,"Bus":" 1"
block S ,"Bus":"0000000001"
block S ,"Bus":"0x"
block S ,"Bus":"0X14"
block S ,"Bus":"0x00014"
block S ,"Bus":"$"
block S ,"Bus":"$5"
block S ,"Bus":"1$bus"
block S ,"Bus":"$bus "
block S ,"Bus":"$bus$bus"
block S ,"Bus":"$bus + 123456"
block S ,"Bus":"$slot"
block S ,"Bus":"$bus / 0"
block S ,"Bus":"$index % 000"
block S ,"Bus":"x","Address":null
block S ,"Address":"0x4G"
block S ,"Address":"$address+1"
block S ,"Address":"$BOARD_INFO_AM2041"
block S ,"Bus":256,"Bus":"255","Address":"$Bus","ScaleDen":0
block S ,"Bus":"$bus + 1 + 1 + 1 + 1 + 1 + 1 + 1 + 1 + 1 + 1 + 1 + 1 + 1 + 1 + 1 + 1 + 1 + 1 + 1 + 1 + 1 + 1 + 1 + 1 + 1 + 1 + 1 + 1 + 1 + 1 + 1 + 1"
-> Refused
line 1 refused TemplateSyntax
"#;

// What a document begins with that is always found, up to the members of its sensor.
const HEAD: &str = r#"{"Name":"A","Probe":"TRUE","Exposes":[{"Name":"S","Type":"Sensor""#;

// That document by its name.
const SHAPES: &[Shape] = &[("S", HEAD, "}]}")];

#[test]
fn members_of_sensors(rt: HostRuntime) -> Result<(), Fail> {
    for text in [
        FOUND,
        MISSING_KEYS,
        WRONG_KINDS,
        OUT_OF_RANGE,
        TEMPLATE_SYNTAX,
    ] {
        play_each(&rt, rt.alloc(), text, SHAPES)?;
    }
    Ok(())
}

const ITEMS: &str = r#"
== a name that two risers have moves to the one at the lower place, and back
block {"Name":"Riser","Probe":"xyz.openbmc_project.FruDevice({'BOARD_PRODUCT_NAME': '^RSR1$'})","Exposes":[{"Name":"X","Type":"Sensor"}]}
plug 1 81 $
plug 1 80 $
unplug 1 80
-> Done
0 new board "Riser" 1 at 1 81
0 new sensor "X"
0 new board "Riser" 2 at 1 80
0 gone sensor "X"
0 new sensor "X"
0 gone board "Riser" 2 at 1 80
0 gone sensor "X"
0 new sensor "X"
fru 1 81$
== the one board of MATCH_ONE moves, and its sensor has another name there
block {"Name":"Card","Probe":["xyz.openbmc_project.FruDevice({'BOARD_PRODUCT_NAME': '^RSR'})","MATCH_ONE"],
    "Exposes":[{"Name":"Card $index Temp","Type":"Sensor"}]}
plug 1 80 $
plug 1 81 $
unplug 1 80
-> Done
0 new board "Card" 1 at 1 80
0 new sensor "Card 1 Temp"
0 gone board "Card" 1 at 1 80
0 new board "Card" 2 at 1 81
0 gone sensor "Card 1 Temp"
0 new sensor "Card 2 Temp"
fru 1 81$
== a name that is below 0 at one place gives no sensor there
block {"Name":"N","Probe":"xyz.openbmc_project.FruDevice({})","Exposes":[{"Name":"S $address - 80 * 2","Type":"Sensor"}]}
plug 1 82 01000000000000FF
plug 1 79 01000000000000FF
-> Done
0 new board "N" 1 at 1 82
0 new sensor "S 4"
0 new board "N" 2 at 1 79
fru 1 79
fru 1 82
== a bus and an address that are no numbers there, or too large, leave the sensor
block {"Name":"N","Probe":["TRUE","OR","xyz.openbmc_project.FruDevice({'BUS': 9})"],"Exposes":[
    {"Name":"A","Type":"Sensor","Bus":"$bus","Address":"$address"},
    {"Name":"B","Type":"Sensor","Bus":"$BOARD_SERIAL_NUMBER","Address":"$PRODUCT_VERSION"},
    {"Name":"C$bus","Type":"Sensor","Bus":"$bus * 99","Address":"$address + 99"}]}
plug 9 80 $
-> Done
0 new board "N" 1
0 new sensor "A"
0 new sensor "B"
0 gone board "N" 1
0 new board "N" 2 at 9 80
0 gone sensor "A"
0 gone sensor "B"
0 new sensor "A"
0 new sensor "B"
0 new sensor "C9"
fru 9 80$
== three families, in the order of the exposes: a sensor, a zone and a fan may have one name, and each has it once
block {"Name":"S","Probe":"TRUE","Exposes":[{"Name":"N 1","Type":"EEPROM"},{"Name":"N $index","Type":"Fan"},
    {"Name":"N 1","Type":"Sensor","Timeout":5},{"Name":"N 1","Type":"sensor"},{"Name":"n 1","Type":"Sensor"},
    {"Name":"N 1","Type":"Pid.Zone","MinThermalOutput":0,"FailSafePercent":0},{"Name":"N $index","Type":"Sensor"},
    {"Name":"N 1","Type":"Fan"},{"Name":"$index","Type":"Sensor"}]}
-> Done
0 new board "S" 1
0 new fan "N 1"
0 new sensor "N 1"
0 new sensor "n 1"
0 new zone "N 1"
0 new sensor "1"
== a machine with sensors, a fan and a zone
block {"Name":"Box","Probe":"TRUE","Exposes":[{"Name":"T","Type":"Sensor","Timeout":20},
    {"Name":"Tach","Type":"Sensor","ScaleNum":1000},{"Name":"Fan 1","Type":"Fan"},
    {"Name":"Z","Type":"Pid.Zone","MinThermalOutput":1000,"FailSafePercent":80}]}
-> Done
0 new board "Box" 1
0 new sensor "T"
0 new sensor "Tach"
0 new fan "Fan 1"
0 new zone "Z"
== what is gone comes first in the order before, and what is new in the order after
block {"Name":"P","Probe":["TRUE","OR","xyz.openbmc_project.FruDevice({'ADDRESS': 1})"],"Exposes":[{"Name":"F$index","Type":"Fan"},
    {"Name":"X","Type":"Sensor"},{"Name":"X$index","Type":"Sensor"}]}
block {"Name":"Q","Probe":"xyz.openbmc_project.FruDevice({})","Exposes":[{"Name":"X","Type":"Sensor"},{"Name":"X$bus","Type":"Sensor"}]}
plug 2 1 01000000000000FF
plug 0 9 01000000000000FF
unplug 2 1
-> Done
0 new board "P" 1
0 new fan "F1"
0 new sensor "X"
0 new sensor "X1"
0 gone board "P" 1
0 new board "P" 2 at 2 1
0 new board "Q" 1 at 2 1
0 gone fan "F1"
0 gone sensor "X"
0 gone sensor "X1"
0 new fan "F2"
0 new sensor "X"
0 new sensor "X2"
0 new board "Q" 2 at 0 9
0 new sensor "X0"
0 gone board "P" 2 at 2 1
0 gone board "Q" 1 at 2 1
0 new board "P" 1
0 gone fan "F2"
0 gone sensor "X"
0 gone sensor "X2"
0 new fan "F1"
0 new sensor "X"
0 new sensor "X1"
fru 0 9
== sensors behind a multiplexer are there with it alone
block {"Name":"C","Probe":"xyz.openbmc_project.FruDevice({'ADDRESS': 80})","Exposes":[{"Name":"Card $bus Temp","Type":"Sensor","Bus":"$bus"}]}
block {"Name":"W","Probe":"xyz.openbmc_project.FruDevice({'ADDRESS': 112})",
    "Exposes":[{"Name":"Slot","Type":"Mux","Channels":["$bus + 19"]},{"Name":"Riser Temp","Type":"Sensor","Bus":"$bus","Address":76}]}
plug 20 80 01000000000000FF
plug 1 112 01000000000000FF
unplug 1 112
-> Done
0 new board "C" 1 at 20 80
0 new board "W" 1 at 1 112
0 new sensor "Card 20 Temp"
0 new sensor "Riser Temp"
0 gone board "C" 1 at 20 80
0 gone board "W" 1 at 1 112
0 gone sensor "Card 20 Temp"
0 gone sensor "Riser Temp"
fru 20 80
== names: quoted, of 64 bytes, and too long
block {"Name":"Q","Probe":"TRUE","Exposes":[{"Name":"a\"\\\u0007é","Type":"Sensor"},
    {"Name":"éééééééééééééééééééééééééééééééé","Type":"Sensor"},{"Name":"ééééééééééééééééééééééééééééééééa","Type":"Sensor"}]}
-> Done
0 new board "Q" 1
0 new sensor "a\"\\\x07é"
0 new sensor "éééééééééééééééééééééééééééééééé"
== a fraction is no number, and the same as a text is a decimal
block {"Name":"Frac","Probe":"TRUE","Exposes":[{"Name":"T","Type":"Sensor","Offset":0.05}]}
block {"Name":"Frac","Probe":"TRUE","Exposes":[{"Name":"T","Type":"Sensor","Offset":"0.05"}]}
-> Refused
line 1 refused Fraction
0 new board "Frac" 1
0 new sensor "T"
== of what is not found, and of what is refused, no sensor is there
block {"Name":"X","Probe":"FALSE","Exposes":[{"Name":"S","Type":"Sensor"}]}
block {"Name":"X","Probe":"TRUE","Exposes":[{"Name":"S","Type":"Sensor"}]}
block {"Name":"Y","Probe":"TRUE","Exposes":[{"Name":"S","Type":"Sensor"},{"Name":"T","Type":"Sensor","ScaleDen":0}]}
-> Refused
line 2 refused DuplicateName
line 3 refused OutOfRange
"#;

#[test]
fn sensors_as_items(rt: HostRuntime) -> Result<(), Fail> {
    play_cases(&rt, rt.alloc(), ITEMS, &[])
}
