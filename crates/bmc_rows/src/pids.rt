use crate::cases::{Shape, play_each};
use crate::play::Part::{self, Repeats};
use crate::play::{ALWAYS_BOARD, play_parts};
use bmc_replay::Status::{Done, Refused};
use std::test::Fail;

// What a document begins with that has a controller of each class, in a zone that is not there; and its end. A member between
// them comes in place of one before that has the same key.
const FAN: &str =
    r#"{"Name":"A","Probe":"TRUE","Exposes":[{"Name":"P","Type":"Pid","Class":"fan","Zones":["Z"],
    "Inputs":["T"],"Outputs":["F"],"OutLimitMin":0,"OutLimitMax":100"#;

const TEMP: &str =
    r#"{"Name":"A","Probe":"TRUE","Exposes":[{"Name":"P","Type":"Pid","Class":"temp","Zones":["Z"],
    "Inputs":["T"],"SetPoint":40,"OutLimitMin":-5,"OutLimitMax":5"#;

const MARGIN: &str =
    r#"{"Name":"A","Probe":"TRUE","Exposes":[{"Name":"P","Type":"Pid","Class":"margin","Zones":["Z"],
    "Inputs":["T"],"SetPoint":"-7.5","OutLimitMin":0,"OutLimitMax":0"#;

const END: &str = "}]}";

// Controllers that are right. They wait for their zone, so nothing is printed of them.
const RIGHT: &str = r#"
== each by itself
// each class, and what is not read for it
block FAN
block TEMP
block MARGIN
block FAN ,"SetPoint":null
block TEMP ,"Outputs":5
block MARGIN ,"Outputs":["$x"]
// numbers at both ends of their ranges
block TEMP ,"PCoefficient":-1000000,"ICoefficient":"-1000000.000000","DCoefficient":"-0.000001","FFGainCoefficient":-1000000,
    "FFOffCoefficient":-1000000,"ILimitMin":-1000000,"ILimitMax":"-1000000.000","SetPoint":-1000000,"SlewNeg":-1000000,
    "SlewPos":0,"OutLimitMin":-1000000,"OutLimitMax":-1000000
block MARGIN ,"PCoefficient":1000000,"ICoefficient":"1000000.0","DCoefficient":"0.000001","FFGainCoefficient":"0001000000",
    "FFOffCoefficient":"1000000","ILimitMin":1000000,"ILimitMax":1000000,"SetPoint":1000000,"SlewNeg":"-0.0",
    "SlewPos":1000000,"OutLimitMin":1000000,"OutLimitMax":"1000000.000"
block FAN ,"OutLimitMin":"-0.000","OutLimitMax":"0"
block FAN ,"OutLimitMin":"100.000","OutLimitMax":100
// limits of the integral of which one is missing
block TEMP ,"ILimitMin":"-0.001"
block TEMP ,"ILimitMax":"0.001"
-> Done
0 new board "A" 1
"#;

// More of them, which are made of parts.
const RIGHT_BY_PARTS: &[Part] = &[
    // 16 names, a name of 128 bytes, and one with a substitution
    Repeats(
        r#"{"Name":"A","Probe":"TRUE","Exposes":[{"Name":"P","Type":"Pid","Class":"fan","OutLimitMin":0,"OutLimitMax":100,
            "Zones":["Z"],"Inputs":["T"],"Outputs":["F""#,
        r#","F $index""#,
        15,
        "]}]}",
    ),
    Repeats(
        r#"{"Name":"A","Probe":"TRUE","Exposes":[{"Name":"P","Type":"Pid","Class":"temp","SetPoint":0,"OutLimitMin":0,"OutLimitMax":0,
            "Inputs":["$BOARD_INFO_AM2040 / 3"],"Zones":[""#,
        "a",
        128,
        r#""]}]}"#,
    ),
];

// Controllers that lack a member: each in turn.
const MISSING_KEYS: &str = r#"
== each by itself
block {"Name":"A","Probe":"TRUE","Exposes":[{"Name":"P","Type":"Pid","Zones":5,"Inputs":[],"SetPoint":"x"}]}
block {"Name":"A","Probe":"TRUE","Exposes":[{"Name":"P","Type":"Pid","Class":"fan","Inputs":5,"Outputs":[]}]}
block {"Name":"A","Probe":"TRUE","Exposes":[{"Name":"P","Type":"Pid","Class":"temp","Zones":["Z"],"SetPoint":"x"}]}
block {"Name":"A","Probe":"TRUE","Exposes":[{"Name":"P","Type":"Pid","Class":"fan","Zones":["Z"],"Inputs":["T"],"SetPoint":0,
    "PCoefficient":null}]}
block {"Name":"A","Probe":"TRUE","Exposes":[{"Name":"P","Type":"Pid","Class":"temp","Zones":["Z"],"Inputs":["T"],"Outputs":["F"],
    "PCoefficient":null}]}
block {"Name":"A","Probe":"TRUE","Exposes":[{"Name":"P","Type":"Pid","Class":"margin","Zones":["Z"],"Inputs":["T"],
    "ILimitMin":5}]}
block {"Name":"A","Probe":"TRUE","Exposes":[{"Name":"P","Type":"Pid","Class":"fan","Zones":["Z"],"Inputs":["T"],"Outputs":["F"],
    "OutLimitMax":101,"SlewNeg":true,"ILimitMin":1}]}
block {"Name":"A","Probe":"TRUE","Exposes":[{"Name":"P","Type":"Pid","Class":"fan","Zones":["Z"],"Inputs":["T"],"Outputs":["F"],
    "OutLimitMin":-1,"SlewNeg":true}]}
-> Refused
line 1 refused MissingKey
"#;

// Controllers of which a member is of a wrong kind.
const WRONG_KINDS: &str = r#"
== each by itself
block {"Name":"A","Probe":"TRUE","Exposes":[{"Name":"P $bus","Type":"Pid","Class":5}]}
block TEMP ,"Class":["temp"],"Zones":[]
// lists and their elements
block TEMP ,"Zones":"Z","Inputs":[]
block TEMP ,"Zones":[null],"Inputs":[]
block TEMP ,"Inputs":{"0":"T"},"SetPoint":1000001
block TEMP ,"Inputs":["T",5,""]
block FAN ,"Outputs":"F","OutLimitMin":-1
block FAN ,"Outputs":["F",["F"],"$x"]
// texts that are no decimals, and what is neither a text nor a number
block TEMP ,"SetPoint":"0.0001","PCoefficient":1000001
block TEMP ,"SetPoint":"$bus"
block TEMP ,"PCoefficient":"0.0000001","ICoefficient":1000001
block TEMP ,"ICoefficient":null
block TEMP ,"DCoefficient":"1e3"
block TEMP ,"FFGainCoefficient":".5","FFOffCoefficient":1000001
block TEMP ,"FFOffCoefficient":"0.0001","ILimitMin":5
block TEMP ,"ILimitMin":[],"OutLimitMin":9
block TEMP ,"ILimitMax":"+1"
block FAN ,"OutLimitMin":"","OutLimitMax":101
block FAN ,"OutLimitMax":false,"SlewNeg":1
// before a least number that is above its greatest one
block FAN ,"ILimitMin":5,"SlewNeg":"-1.0000"
block FAN ,"OutLimitMin":-1,"SlewPos":{}
-> Refused
line 1 refused WrongKind
"#;

// Controllers of which a member is out of its range.
const OUT_OF_RANGE: &str = r#"
== each by itself
// classes that there are not
block FAN ,"Class":"Fan","Zones":5
block FAN ,"Class":"","Zones":5
block FAN ,"Class":"power"
// lists that are too short or too long, before their elements, and elements that are
block FAN ,"Zones":[],"Inputs":5
block FAN ,"Zones":[5,"Z"]
block FAN ,"Zones":[""],"Inputs":5
block FAN ,"Inputs":[],"Outputs":5
block FAN ,"Inputs":["T","","$x"]
block FAN ,"Outputs":[],"OutLimitMin":"x"
// numbers
block TEMP ,"SetPoint":"1000000.001","PCoefficient":null
block TEMP ,"PCoefficient":1000001,"ICoefficient":null
block TEMP ,"ICoefficient":"1000000.000001"
block TEMP ,"DCoefficient":"-1000000.000001"
block TEMP ,"FFGainCoefficient":-9223372036854775808
block TEMP ,"FFOffCoefficient":-1000001
block TEMP ,"ILimitMin":"-1000000.001","ILimitMax":null
block TEMP ,"ILimitMax":18446744073709551615
block TEMP ,"OutLimitMin":1000001,"OutLimitMax":null
block TEMP ,"OutLimitMax":"9999999999.999"
block TEMP ,"SlewNeg":"0.001","SlewPos":null
block TEMP ,"SlewNeg":-1000001
block TEMP ,"SlewPos":"-0.001"
block TEMP ,"SlewPos":1000001
// a least number that is above its greatest one, which is 0 where it is missing
block TEMP ,"ILimitMin":"0.001"
block TEMP ,"ILimitMax":"-0.001"
block TEMP ,"ILimitMin":2,"ILimitMax":"1.999"
block TEMP ,"OutLimitMin":"5.001"
// outputs for fans that are no percent
block FAN ,"OutLimitMin":"-0.001"
block FAN ,"OutLimitMax":"100.001"
block FAN ,"OutLimitMin":-1,"OutLimitMax":-1
-> Refused
line 1 refused OutOfRange
"#;

// More of them, which are made of parts.
const OUT_OF_RANGE_BY_PARTS: &[Part] = &[
    Repeats(
        r#"{"Name":"A","Probe":"TRUE","Exposes":[{"Name":"P","Type":"Pid","Class":"fan","Zones":["Z"],"Inputs":[5"#,
        ",5",
        16,
        "]}]}",
    ),
    Repeats(
        r#"{"Name":"A","Probe":"TRUE","Exposes":[{"Name":"P","Type":"Pid","Class":"fan","Zones":["Z"],"Inputs":["T"],"Outputs":[5"#,
        ",5",
        16,
        "]}]}",
    ),
    Repeats(
        r#"{"Name":"A","Probe":"TRUE","Exposes":[{"Name":"P","Type":"Pid","Class":"fan","Zones":["$"#,
        "x",
        128,
        r#""]}]}"#,
    ),
];

// Controllers with a name that is no template.
const TEMPLATE_SYNTAX: &str = r#"
== each by itself
block {"Name":"A","Probe":"TRUE","Exposes":[{"Name":"$x","Type":"Pid","Class":5}]}
block FAN ,"Zones":["Z $slot"],"Inputs":5
block FAN ,"Inputs":["T","T $bus / 0",5],"Outputs":[]
block FAN ,"Outputs":["F $BOARD_INFO_AM0"],"OutLimitMin":null
-> Refused
line 1 refused TemplateSyntax
"#;

// Documents by their names.
const SHAPES: &[Shape] = &[
    ("FAN", FAN, END),
    ("TEMP", TEMP, END),
    ("MARGIN", MARGIN, END),
];

#[test]
fn right_pids(rt: HostRuntime) -> Result<(), Fail> {
    play_each(&rt, rt.alloc(), RIGHT, SHAPES)?;
    play_parts(&rt, rt.alloc(), &[(RIGHT_BY_PARTS, Done, ALWAYS_BOARD)])
}

#[test]
fn wrong_pids(rt: HostRuntime) -> Result<(), Fail> {
    for text in [MISSING_KEYS, WRONG_KINDS, OUT_OF_RANGE, TEMPLATE_SYNTAX] {
        play_each(&rt, rt.alloc(), text, SHAPES)?;
    }
    let rows = [(
        OUT_OF_RANGE_BY_PARTS,
        Refused,
        "line 1 refused OutOfRange\n",
    )];
    play_parts(&rt, rt.alloc(), &rows)
}
