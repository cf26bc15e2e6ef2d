use crate::cases::play_each;
use crate::play::Part::{self, Config, Repeats};
use crate::play::{ALWAYS_BOARD, Row, play_parts};
use bmc_replay::Status::{Done, Refused};
use std::test::Fail;

// Documents with the name A that are always found, with exposes of which nothing is printed.
const FOUND: &str = r#"
== each by itself
// types that are passive, also those that differ in case or in spaces, with members that are wrong elsewhere
block {"Name":"A","Probe":"TRUE","Exposes":[{"Name":"M","Type":"EEPROM","Channels":[256]}]}
block {"Name":"A","Probe":"TRUE","Exposes":[{"Name":"M","Type":"mux","Channels":5}]}
block {"Name":"A","Probe":"TRUE","Exposes":[{"Name":"M","Type":"Mux "}]}
block {"Name":"A","Probe":"TRUE","Exposes":[{"Name":"M","Type":"pid.zone"},{"Name":"M","Type":"Pid "},{"Name":"M","Type":"$x"}]}
block {"Name":"A","Probe":"TRUE","Exposes":[{"Name":"M","Type":"pid","Class":5},{"Name":"M","Type":"stepwise"},{"Name":"M","Type":"Pids"}]}
// names with substitutions: places and the index, fields, operations, and what is plain text
block {"Name":"A","Probe":"TRUE","Exposes":[{"Name":"M $bus.$address $index","Type":"x"},{"Name":"$BUS$ADDRESS","Type":"x"}]}
block {"Name":"A","Probe":"TRUE","Exposes":[{"Name":"$CHASSIS_TYPE $CHASSIS_PART_NUMBER $CHASSIS_INFO_AM1","Type":"x"},
    {"Name":"$BOARD_MANUFACTURE_DATE $BOARD_FRU_VERSION_ID $BOARD_INFO_AM2040","Type":"x"},
    {"Name":"$PRODUCT_VERSION $PRODUCT_ASSET_TAG $PRODUCT_INFO_AM999","Type":"x"}]}
block {"Name":"A","Probe":"TRUE","Exposes":[{"Name":"$bus / 2 % 16 * 99999 + 0 - 00001","Type":"x"},{"Name":"$bus * 0","Type":"x"}]}
block {"Name":"A","Probe":"TRUE","Exposes":[{"Name":"$","Type":"x"},{"Name":"$ 5$5 $é","Type":"x"},{"Name":"$bus /0 / x","Type":"x"}]}
-> Done
0 new board "A" 1
"#;

// More of them, which are made of parts.
const FOUND_BY_PARTS: &[Part] = &[
    Repeats(
        r#"{"Name":"A","Probe":"TRUE","Exposes":[{"Name":"M","Type":""#,
        "é",
        32,
        r#""}]}"#,
    ),
    // a fan whose name never gives a text: 65 bytes
    Repeats(
        r#"{"Name":"A","Probe":"TRUE","Exposes":[{"Type":"Fan","Name":""#,
        "a",
        65,
        r#""}]}"#,
    ),
];

// Those with fans of one name, of which other members are not read.
const FANS: &[Part] = &[
    Config(
        r#"{"Name":"A","Probe":"TRUE","Exposes":[{"Name":"F","Type":"Fan","Channels":[256]},{"Name":"F","Type":"Fan"}]}"#,
    ),
    Config(
        r#"{"Type":"Board","Exposes":[{"Type":"Fan","MinThermalOutput":null,"Name":"F"}],"Probe":["TRUE"],"Name":"A"}"#,
    ),
];

// Those with zones of one name: numbers and texts at the ends of their ranges.
const ZONES: &[Part] = &[
    Config(
        r#"{"Name":"A","Probe":"TRUE","Exposes":[{"Name":"Z","Type":"Pid.Zone","MinThermalOutput":-1000000,"FailSafePercent":0}]}"#,
    ),
    Config(
        r#"{"Name":"A","Probe":"TRUE","Exposes":[
            {"Name":"Z","Type":"Pid.Zone","FailSafePercent":"0000000100.000","MinThermalOutput":"1000000.0"}]}"#,
    ),
    Config(
        r#"{"Name":"A","Probe":"TRUE","Exposes":[
            {"Name":"Z","Type":"Pid.Zone","MinThermalOutput":"-0.001","FailSafePercent":"-0.000"},
            {"Name":"Z","Type":"Pid.Zone","MinThermalOutput":"-1000000","FailSafePercent":"99.9"}]}"#,
    ),
];

// Documents with an expose that lacks a member.
const MISSING_KEYS: &str = r#"
== each by itself
block {"Name":"A","Probe":"TRUE","Exposes":[{"Name":"Z","Type":"Pid.Zone"}]}
block {"Name":"A","Probe":"TRUE","Exposes":[{"Name":"Z","Type":"Pid.Zone","FailSafePercent":null}]}
block {"Name":"A","Probe":"TRUE","Exposes":[{"Name":"Z","Type":"Pid.Zone","MinThermalOutput":0}]}
block {"Name":"A","Probe":"TRUE","Exposes":[{"Name":"F","Type":"Fan"},{"Name":"F $index","Type":"Fan"},{"Name":"$"}]}
// a controller: alone, before what is no expose, before a pattern that is bad, and between two sensors, of which one is wrong
block {"Name":"A","Probe":"TRUE","Exposes":[{"Name":"P","Type":"Pid"}]}
block {"Name":"A","Probe":"TRUE","Exposes":[{"Name":"F","Type":"Fan"},{"Name":"S","Type":"Stepwise"},5]}
block {"Name":"A","Probe":"xyz.openbmc_project.FruDevice({'BUS': '('})","Exposes":[{"Name":"S","Type":"Stepwise"}]}
block {"Name":"A","Probe":"TRUE","Exposes":[{"Name":"S","Type":"Sensor"},{"Name":"P","Type":"Pid"},{"Name":"S","Type":"Sensor","Bus":256}]}
-> Refused
line 1 refused MissingKey
"#;

// Documents with a zone whose member is neither a number nor a text of a decimal.
const WRONG_KINDS: &str = r#"
== each by itself
block {"Name":"A","Probe":"TRUE","Exposes":[{"Name":"Z","Type":"Pid.Zone","MinThermalOutput":null}]}
block {"Name":"A","Probe":"TRUE","Exposes":[{"Name":"Z","Type":"Pid.Zone","MinThermalOutput":true,"FailSafePercent":101}]}
block {"Name":"A","Probe":"TRUE","Exposes":[{"Name":"Z","Type":"Pid.Zone","MinThermalOutput":0,"FailSafePercent":[5]}]}
block {"Name":"A","Probe":"TRUE","Exposes":[{"Name":"Z","Type":"Pid.Zone","MinThermalOutput":""}]}
block {"Name":"A","Probe":"TRUE","Exposes":[{"Name":"Z","Type":"Pid.Zone","MinThermalOutput":"+5"}]}
block {"Name":"A","Probe":"TRUE","Exposes":[{"Name":"Z","Type":"Pid.Zone","MinThermalOutput":" 5"}]}
block {"Name":"A","Probe":"TRUE","Exposes":[{"Name":"Z","Type":"Pid.Zone","MinThermalOutput":".5"}]}
block {"Name":"A","Probe":"TRUE","Exposes":[{"Name":"Z","Type":"Pid.Zone","MinThermalOutput":"5."}]}
block {"Name":"A","Probe":"TRUE","Exposes":[{"Name":"Z","Type":"Pid.Zone","MinThermalOutput":"0.0000"}]}
block {"Name":"A","Probe":"TRUE","Exposes":[{"Name":"Z","Type":"Pid.Zone","MinThermalOutput":"00000000005"}]}
block {"Name":"A","Probe":"TRUE","Exposes":[{"Name":"Z","Type":"Pid.Zone","MinThermalOutput":"1e2"}]}
block {"Name":"A","Probe":"TRUE","Exposes":[{"Name":"Z","Type":"Pid.Zone","MinThermalOutput":5,"FailSafePercent":"$bus"}]}
-> Refused
line 1 refused WrongKind
"#;

// Documents with a zone whose member is out of its range.
const OUT_OF_RANGE: &str = r#"
== each by itself
block {"Name":"A","Probe":"TRUE","Exposes":[{"Name":"Z","Type":"Pid.Zone","MinThermalOutput":1000001}]}
block {"Name":"A","Probe":"TRUE","Exposes":[{"Name":"Z","Type":"Pid.Zone","MinThermalOutput":"1000000.001","FailSafePercent":"x"}]}
block {"Name":"A","Probe":"TRUE","Exposes":[{"Name":"Z","Type":"Pid.Zone","MinThermalOutput":"-1000000.001"}]}
block {"Name":"A","Probe":"TRUE","Exposes":[{"Name":"Z","Type":"Pid.Zone","MinThermalOutput":-9223372036854775808}]}
block {"Name":"A","Probe":"TRUE","Exposes":[
    {"Name":"Z","Type":"Pid.Zone","MinThermalOutput":5,"FailSafePercent":18446744073709551615}]}
block {"Name":"A","Probe":"TRUE","Exposes":[{"Name":"Z","Type":"Pid.Zone","MinThermalOutput":5,"FailSafePercent":101}]}
block {"Name":"A","Probe":"TRUE","Exposes":[{"Name":"Z","Type":"Pid.Zone","MinThermalOutput":5,"FailSafePercent":"100.001"}]}
block {"Name":"A","Probe":"TRUE","Exposes":[{"Name":"Z","Type":"Pid.Zone","MinThermalOutput":5,"FailSafePercent":"-0.001"}]}
// a name of no bytes before a type that is missing
block {"Name":"A","Probe":"TRUE","Exposes":[{"Name":""}]}
-> Refused
line 1 refused OutOfRange
"#;

// More of them, which are made of parts.
const OUT_OF_RANGE_BY_PARTS: &[Part] = &[
    // a type of 66 bytes
    Repeats(
        r#"{"Name":"A","Probe":"TRUE","Exposes":[{"Name":"M","Type":""#,
        "é",
        33,
        r#""}]}"#,
    ),
];

// Documents with an expose whose name is no template.
const TEMPLATE_SYNTAX: &str = r#"
== each by itself
// words that are unknown
block {"Name":"A","Probe":"TRUE","Exposes":[{"Name":"F $slot","Type":"Fan"}]}
block {"Name":"A","Probe":"TRUE","Exposes":[{"Name":"$bus_1","Type":"Fan"}]}
block {"Name":"A","Probe":"TRUE","Exposes":[{"Name":"$bus1","Type":"Fan"}]}
block {"Name":"A","Probe":"TRUE","Exposes":[{"Name":"$Bus","Type":"Fan"}]}
block {"Name":"A","Probe":"TRUE","Exposes":[{"Name":"$INDEX","Type":"Fan"}]}
block {"Name":"A","Probe":"TRUE","Exposes":[{"Name":"$_","Type":"Fan"}]}
block {"Name":"A","Probe":"TRUE","Exposes":[{"Name":"$index $x","Type":"Fan"}]}
// fields that there are not
block {"Name":"A","Probe":"TRUE","Exposes":[{"Name":"$BOARD_TYPE","Type":"Fan"}]}
block {"Name":"A","Probe":"TRUE","Exposes":[{"Name":"$BOARD_INFO_AM","Type":"Fan"}]}
block {"Name":"A","Probe":"TRUE","Exposes":[{"Name":"$BOARD_INFO_AM0","Type":"Fan"}]}
block {"Name":"A","Probe":"TRUE","Exposes":[{"Name":"$BOARD_INFO_AM01","Type":"Fan"}]}
block {"Name":"A","Probe":"TRUE","Exposes":[{"Name":"$BOARD_INFO_AM2041","Type":"Fan"}]}
// divisions by 0
block {"Name":"A","Probe":"TRUE","Exposes":[{"Name":"$bus / 0","Type":"Fan"}]}
block {"Name":"A","Probe":"TRUE","Exposes":[{"Name":"$bus + 1 % 00000","Type":"Fan"}]}
block {"Name":"A","Probe":"TRUE","Exposes":[{"Name":"$bus / 000001","Type":"Fan"}]}
// before a type that is wrong or missing, and before further members that are
block {"Name":"A","Probe":"TRUE","Exposes":[{"Name":"$x","Type":5}]}
block {"Name":"A","Probe":"TRUE","Exposes":[{"Name":"$x"}]}
block {"Name":"A","Probe":"TRUE","Exposes":[{"Name":"$x","Type":"Pid"}]}
block {"Name":"A","Probe":"TRUE","Exposes":[{"Name":"$x","Type":"Sensor","Bus":256}]}
block {"Name":"A","Probe":"TRUE","Exposes":[{"Name":"F","Type":"Fan"},{"Name":"$x","Type":"Fan"},5]}
-> Refused
line 1 refused TemplateSyntax
"#;

// Documents that are answered alike: how a script of one of them ends, and what is printed.
const DOCUMENTS: &[Row] = &[
    (FOUND_BY_PARTS, Done, ALWAYS_BOARD),
    (FANS, Done, "0 new board \"A\" 1\n0 new fan \"F\"\n"),
    (ZONES, Done, "0 new board \"A\" 1\n0 new zone \"Z\"\n"),
    (
        OUT_OF_RANGE_BY_PARTS,
        Refused,
        "line 1 refused OutOfRange\n",
    ),
];

#[test]
fn exposes(rt: HostRuntime) -> Result<(), Fail> {
    for text in [
        FOUND,
        MISSING_KEYS,
        WRONG_KINDS,
        OUT_OF_RANGE,
        TEMPLATE_SYNTAX,
    ] {
        play_each(&rt, rt.alloc(), text, &[])?;
    }
    play_parts(&rt, rt.alloc(), DOCUMENTS)
}
