use crate::cases::{Shape, play_cases};
use crate::play::Part::{Config, Repeats};
use crate::play::{Row, play_rows};
use bmc_replay::Status::Refused;
use std::test::Fail;

// What documents begin with: one that is always found, one of each FRU, and one that is never found; and what stands behind the
// last expose.
const ALWAYS_HEAD: &str = r#"{"Name":"T","Probe":"TRUE","Exposes":["#;

const EACH_HEAD: &str = r#"{"Name":"E","Probe":"xyz.openbmc_project.FruDevice({})","Exposes":["#;

const NEVER_HEAD: &str = r#"{"Name":"N","Probe":"FALSE","Exposes":["#;

const LAST: &str = r#"{"Name":"x","Type":"x"}]}"#;

// Controllers with a comma: of each kind, and two whose names have no rendering without a place.
const PID: &str =
    r#"{"Name":"P","Type":"Pid","Class":"margin","Zones":["Z"],"Inputs":["T"],"SetPoint":0,"OutLimitMin":0,"OutLimitMax":0},"#;

const STEPWISE: &str =
    r#"{"Name":"S","Type":"Stepwise","Zones":["Z"],"Inputs":["T"],"Reading":[0],"Output":[0]},"#;

const NAMELESS_PID: &str =
    r#"{"Name":"P","Type":"Pid","Class":"fan","Zones":["Z"],"Inputs":["T"],"Outputs":["$bus"],
    "OutLimitMin":0,"OutLimitMax":0},"#;

const NAMELESS_STEPWISE: &str =
    r#"{"Name":"S","Type":"Stepwise","Zones":["$bus"],"Inputs":["T"],"Reading":[0],"Output":[0]},"#;

// A zone and four fans, and two PID controllers and a stepwise one: 32 of the first and 64 of the second are as many as may be.
const ALL: &str = r#"{"Name":"x","Type":"Pid.Zone","MinThermalOutput":0,"FailSafePercent":100},
    {"Name":"F","Type":"Fan"},{"Name":"F","Type":"Fan"},{"Name":"F","Type":"Fan"},{"Name":"F","Type":"Fan"},"#;

const CONTROLLERS: &str =
    r#"{"Name":"P","Type":"Pid","Class":"margin","Zones":["Z"],"Inputs":["T"],"SetPoint":0,"OutLimitMin":0,"OutLimitMax":0},
    {"Name":"P","Type":"Pid","Class":"temp","Zones":["Z"],"Inputs":["T"],"SetPoint":0,"OutLimitMin":0,"OutLimitMax":0},
    {"Name":"S","Type":"Stepwise","Zones":["Z"],"Inputs":["T"],"Reading":[0],"Output":[0]},"#;

// Documents with another name that are always found: with one controller, of either kind; with both and a fan; and with both.
const ONE_PID: &str = r#"{"Name":"P","Probe":"TRUE","Exposes":[
    {"Name":"P","Type":"Pid","Class":"margin","Zones":["Z"],"Inputs":["T"],"SetPoint":0,"OutLimitMin":0,"OutLimitMax":0}]}"#;

const ONE_STEPWISE: &str = r#"{"Name":"S","Probe":"TRUE","Exposes":[
    {"Name":"S","Type":"Stepwise","Zones":["Z"],"Inputs":["T"],"Reading":[0],"Output":[0]}]}"#;

const ONE_OF_EACH: &str = r#"{"Name":"O","Probe":"TRUE","Exposes":[
    {"Name":"S","Type":"Stepwise","Zones":["Z"],"Inputs":["T"],"Reading":[0],"Output":[0]},
    {"Name":"P","Type":"Pid","Class":"margin","Zones":["Z"],"Inputs":["T"],"SetPoint":0,"OutLimitMin":0,"OutLimitMax":0},
    {"Name":"F","Type":"Fan"}]}"#;

const BOTH: &str = r#"{"Name":"B","Probe":"TRUE","Exposes":[
    {"Name":"S","Type":"Stepwise","Zones":["Z"],"Inputs":["T"],"Reading":[0],"Output":[0]},
    {"Name":"P","Type":"Pid","Class":"margin","Zones":["Z"],"Inputs":["T"],"SetPoint":0,"OutLimitMin":0,"OutLimitMax":0}]}"#;

const CONFIGURATIONS: &str = r#"
== PID controllers: as many as may be, and one more in another configuration and in the same one
repeat 128 ALWAYS_HEAD PID
block ONE_PID
block ONE_STEPWISE
-> Refused
0 new board "T" 1
line 2 refused PidLimit
0 new board "S" 1
== more
repeat 129 ALWAYS_HEAD PID
repeat 127 ALWAYS_HEAD PID
block ONE_PID
-> Refused
line 1 refused PidLimit
0 new board "T" 1
0 new board "P" 1
== stepwise controllers
repeat 64 ALWAYS_HEAD STEPWISE
block ONE_STEPWISE
block ONE_PID
-> Refused
0 new board "T" 1
line 2 refused StepLimit
0 new board "P" 1
== more
repeat 65 ALWAYS_HEAD STEPWISE
repeat 63 ALWAYS_HEAD STEPWISE
block ONE_STEPWISE
-> Refused
line 1 refused StepLimit
0 new board "T" 1
0 new board "S" 1
== controllers that have no rendering count
repeat 128 ALWAYS_HEAD NAMELESS_PID
block ONE_PID
-> Refused
0 new board "T" 1
line 2 refused PidLimit
== more
repeat 64 ALWAYS_HEAD NAMELESS_STEPWISE
block ONE_STEPWISE
-> Refused
0 new board "T" 1
line 2 refused StepLimit
== a configuration without a board counts for nothing
repeat 200 NEVER_HEAD PID
block ONE_PID
block ONE_STEPWISE
-> Done
0 new board "P" 1
0 new board "S" 1
"#;

// More of them, which are made of parts.
const CONFIGURATIONS_BY_PARTS: &[Row] = &[
    // at all limits: fans come first, then PID controllers, and stepwise ones last
    (
        &[
            Repeats(ALWAYS_HEAD, ALL, 32, LAST),
            Repeats(
                r#"{"Name":"C","Probe":"TRUE","Exposes":["#,
                CONTROLLERS,
                64,
                LAST,
            ),
            Config(ONE_OF_EACH),
            Config(BOTH),
            Config(ONE_STEPWISE),
        ],
        Refused,
        r#"0 new board "T" 1
0 new zone "x"
0 new fan "F"
0 new board "C" 1
line 3 refused FanLimit
line 4 refused PidLimit
line 5 refused StepLimit
"#,
    ),
];

const PLUGS: &str = r#"
== a third board is refused with its controllers, and has no index then; there is room where another is gone
repeat 64 EACH_HEAD PID
plug 1 80 $
plug 1 81 $
plug 1 82 $
plug 1 81 $
plug 1 82 00
unplug 1 80
plug 1 82 $
-> Refused
0 new board "E" 1 at 1 80
0 new board "E" 2 at 1 81
line 4 refused PidLimit
line 5 refused Occupied
line 6 refused FruShort
0 gone board "E" 1 at 1 80
0 new board "E" 3 at 1 82
fru 1 81$
fru 1 82$
== more
repeat 32 EACH_HEAD STEPWISE
plug 1 80 $
plug 1 81 $
plug 1 82 $
unplug 1 80
plug 1 82 $
-> Refused
0 new board "E" 1 at 1 80
0 new board "E" 2 at 1 81
line 4 refused StepLimit
0 gone board "E" 1 at 1 80
0 new board "E" 3 at 1 82
fru 1 81$
fru 1 82$
== both at one time, with the controllers of a configuration besides
block BOTH
repeat 64 EACH_HEAD CONTROLLERS
plug 1 80 $
block ONE_STEPWISE
-> Refused
0 new board "B" 1
line 3 refused PidLimit
0 new board "S" 1
"#;

// Documents by their names.
const SHAPES: &[Shape] = &[
    ("ALWAYS_HEAD", ALWAYS_HEAD, LAST),
    ("PID", PID, ""),
    ("ONE_PID", ONE_PID, ""),
    ("ONE_STEPWISE", ONE_STEPWISE, ""),
    ("STEPWISE", STEPWISE, ""),
    ("NAMELESS_PID", NAMELESS_PID, ""),
    ("NAMELESS_STEPWISE", NAMELESS_STEPWISE, ""),
    ("NEVER_HEAD", NEVER_HEAD, LAST),
    ("EACH_HEAD", EACH_HEAD, LAST),
    ("BOTH", BOTH, ""),
    ("CONTROLLERS", CONTROLLERS, ""),
];

#[test]
fn controllers_are_few(rt: HostRuntime) -> Result<(), Fail> {
    play_cases(&rt, rt.alloc(), CONFIGURATIONS, SHAPES)?;
    play_rows(&rt, rt.alloc(), CONFIGURATIONS_BY_PARTS)?;
    play_cases(&rt, rt.alloc(), PLUGS, SHAPES)
}
