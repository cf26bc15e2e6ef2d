use crate::cases::{Shape, play_each};
use crate::play::Part::{self, Repeats};
use crate::play::{ALWAYS_BOARD, Row, play_parts};
use bmc_replay::Status::{Done, Refused};
use std::test::Fail;

// What a document begins with that has a controller in a zone that is not there; and its end. A member between them comes in
// place of one before that has the same key.
const CURVE: &str =
    r#"{"Name":"A","Probe":"TRUE","Exposes":[{"Name":"S","Type":"Stepwise","Zones":["Z"],"Inputs":["T"],
    "Reading":[20,40],"Output":[2000,4000]"#;

const END: &str = "}]}";

// Controllers that are right. They wait for their zone, so nothing is printed of them.
const RIGHT: &str = r#"
== each by itself
block CURVE
// what is not read
block CURVE ,"Class":5,"Outputs":[],"SetPoint":null,"OutLimitMin":"x"
// numbers at both ends of their ranges, and readings that do not ascend
block CURVE ,"Reading":[1000000,"-1000000.000"],"Output":["1000000",-1000000],"PositiveHysteresis":0,"NegativeHysteresis":1000000
block CURVE ,"Reading":["0.001"],"Output":["-0.001"],"PositiveHysteresis":"1000000.000","NegativeHysteresis":"-0.0"
// 20 rows of a curve, and 16 inputs
block CURVE ,"Reading":[5,5,5,5,5,5,5,5,5,5,5,5,5,5,5,5,5,5,5,5],"Output":[5,5,5,5,5,5,5,5,5,5,5,5,5,5,5,5,5,5,5,5]
-> Done
0 new board "A" 1
"#;

// More of them, which are made of parts.
const RIGHT_BY_PARTS: &[Part] = &[Repeats(
    r#"{"Name":"A","Probe":"TRUE","Exposes":[{"Name":"S","Type":"Stepwise","Reading":[0],"Output":[0],"Zones":["Z"],"Inputs":["T""#,
    r#","T $index""#,
    15,
    "]}]}",
)];

// Controllers that lack a member: each in turn.
const MISSING_KEYS: &str = r#"
== each by itself
block {"Name":"A","Probe":"TRUE","Exposes":[{"Name":"S","Type":"Stepwise","Inputs":[],"Reading":5}]}
block {"Name":"A","Probe":"TRUE","Exposes":[{"Name":"S","Type":"Stepwise","Zones":["Z"],"Reading":5}]}
block {"Name":"A","Probe":"TRUE","Exposes":[{"Name":"S","Type":"Stepwise","Zones":["Z"],"Inputs":["T"],"Output":[]}]}
block {"Name":"A","Probe":"TRUE","Exposes":[{"Name":"S","Type":"Stepwise","Zones":["Z"],"Inputs":["T"],"Reading":[0],
    "PositiveHysteresis":-1}]}
-> Refused
line 1 refused MissingKey
"#;

// Controllers of which a member is of a wrong kind.
const WRONG_KINDS: &str = r#"
== each by itself
block CURVE ,"Zones":"Z","Inputs":[]
block CURVE ,"Zones":[["Z"]],"Inputs":[]
block CURVE ,"Inputs":"T","Reading":[]
block CURVE ,"Inputs":["T",null,""]
block CURVE ,"Reading":20,"Output":[]
// an element of the readings before the outputs, which are too few
block CURVE ,"Reading":[20,"0.0001",1000001],"Output":[]
block CURVE ,"Output":{},"PositiveHysteresis":-1
block CURVE ,"Output":["x",1000001]
block CURVE ,"PositiveHysteresis":null,"NegativeHysteresis":-1
block CURVE ,"NegativeHysteresis":"2."
-> Refused
line 1 refused WrongKind
"#;

// Controllers of which a member is out of its range.
const OUT_OF_RANGE: &str = r#"
== each by itself
block CURVE ,"Zones":["Z","Z"],"Inputs":5
block CURVE ,"Inputs":[],"Reading":5
block CURVE ,"Inputs":["T","",5]
block CURVE ,"Reading":[],"Output":5
block CURVE ,"Reading":[20,1000001,null]
block CURVE ,"Reading":["-1000000.001"],"Output":[]
// an output too few, and one too many, before their elements
block CURVE ,"Output":[null]
block CURVE ,"Output":["x",0,0]
block CURVE ,"Output":[]
block CURVE ,"Output":[1000001,null]
block CURVE ,"Output":[0,"1000000.001"],"PositiveHysteresis":null
block CURVE ,"PositiveHysteresis":"-0.001","NegativeHysteresis":null
block CURVE ,"PositiveHysteresis":1000001
block CURVE ,"NegativeHysteresis":-1
-> Refused
line 1 refused OutOfRange
"#;

// More of them, which are made of parts.
const OUT_OF_RANGE_BY_PARTS: &[Part] = &[
    // 17 inputs and 21 rows, before their elements
    Repeats(
        r#"{"Name":"A","Probe":"TRUE","Exposes":[{"Name":"S","Type":"Stepwise","Zones":["Z"],"Inputs":[5"#,
        ",5",
        16,
        "]}]}",
    ),
    Repeats(
        r#"{"Name":"A","Probe":"TRUE","Exposes":[{"Name":"S","Type":"Stepwise","Zones":["Z"],"Inputs":["T"],"Reading":[null"#,
        ",null",
        20,
        "]}]}",
    ),
];

// Controllers with a name that is no template.
const TEMPLATE_SYNTAX: &[Part] = &[
    Repeats(CURVE, r#","Zones":["$zone"],"Inputs":5"#, 1, END),
    Repeats(
        CURVE,
        r#","Inputs":["T","$bus % 0",5],"Reading":[]"#,
        1,
        END,
    ),
];

// Documents that are answered alike.
const DOCUMENTS: &[Row] = &[
    (RIGHT_BY_PARTS, Done, ALWAYS_BOARD),
    (
        OUT_OF_RANGE_BY_PARTS,
        Refused,
        "line 1 refused OutOfRange\n",
    ),
    (TEMPLATE_SYNTAX, Refused, "line 1 refused TemplateSyntax\n"),
];

// Documents by their names.
const SHAPES: &[Shape] = &[("CURVE", CURVE, END)];

#[test]
fn stepwises(rt: HostRuntime) -> Result<(), Fail> {
    for text in [RIGHT, MISSING_KEYS, WRONG_KINDS, OUT_OF_RANGE] {
        play_each(&rt, rt.alloc(), text, SHAPES)?;
    }
    play_parts(&rt, rt.alloc(), DOCUMENTS)
}
