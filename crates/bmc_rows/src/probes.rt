use crate::cases::{Shape, play_cases};
use crate::play::Part::{self, Config, Numbered, Text};
use crate::play::{Row, play_refusing, play_rows, script_of};
use bmc_replay::Status::{self, Done};
use std::test::Fail;

// A document that finds each FRU, and one that finds the first of them.
const ANY: &str = r#"{"Name":"A","Probe":"xyz.openbmc_project.FruDevice({})"}"#;

const FIRST: &str = r#"{"Name":"F","Probe":["xyz.openbmc_project.FruDevice({})","MATCH_ONE"]}"#;

// Scripts of probes with one word or more, without fixed channels.
const PROBES: &str = r#"
== a board without a place stands where no FRU has one, and has its index again
block {"Name":"E","Probe":["TRUE","OR","xyz.openbmc_project.FruDevice({'BOARD_PRODUCT_NAME': '^RSR[12]$'})"]}
plug 1 80 $
unplug 1 80
plug 1 80 $
plug 1 79 $
unplug 1 80
unplug 1 79
-> Done
0 new board "E" 1
0 gone board "E" 1
0 new board "E" 2 at 1 80
0 gone board "E" 2 at 1 80
0 new board "E" 1
0 gone board "E" 1
0 new board "E" 2 at 1 80
0 new board "E" 3 at 1 79
0 gone board "E" 2 at 1 80
0 gone board "E" 3 at 1 79
0 new board "E" 1
== MATCH_ONE has the least place alone, also where a lower one comes later
block FIRST
plug 1 81 $
plug 1 80 $
plug 1 82 $
plug 0 99 $
unplug 0 99
unplug 1 80
unplug 1 81
unplug 1 82
-> Done
0 new board "F" 1 at 1 81
0 gone board "F" 1 at 1 81
0 new board "F" 2 at 1 80
0 gone board "F" 2 at 1 80
0 new board "F" 3 at 0 99
0 gone board "F" 3 at 0 99
0 new board "F" 2 at 1 80
0 gone board "F" 2 at 1 80
0 new board "F" 1 at 1 81
0 gone board "F" 1 at 1 81
0 new board "F" 4 at 1 82
0 gone board "F" 4 at 1 82
== each member has to match: the second decides, and a field that is not there never does
block {"Name":"P","Probe":"xyz.openbmc_project.FruDevice({'BOARD_PRODUCT_NAME': 'RSR', 'BOARD_SERIAL_NUMBER': '^S1$'})"}
block {"Name":"Q","Probe":"xyz.openbmc_project.FruDevice({'BOARD_PRODUCT_NAME': 'RSR', 'BOARD_SERIAL_NUMBER': '^S2$'})"}
block {"Name":"X","Probe":"xyz.openbmc_project.FruDevice({'BOARD_PRODUCT_NAME': 'RSR', 'CHASSIS_TYPE': ''})"}
block {"Name":"V","Probe":"xyz.openbmc_project.FruDevice({'BOARD_PART_NUMBER': ''})"}
plug 2 80 $
-> Done
0 new board "P" 1 at 2 80
0 new board "V" 1 at 2 80
fru 2 80$
== the bus and the address as numbers and as texts
block {"Name":"B","Probe":"xyz.openbmc_project.FruDevice({'BUS': 1})"}
block {"Name":"C","Probe":"xyz.openbmc_project.FruDevice({'BUS': '1'})"}
block {"Name":"D","Probe":"xyz.openbmc_project.FruDevice({'ADDRESS': 80, 'BUS': '^1$'})"}
block {"Name":"H","Probe":"xyz.openbmc_project.FruDevice({'ADDRESS': '8'})"}
block {"Name":"N","Probe":"xyz.openbmc_project.FruDevice({'BUS': -1})"}
block {"Name":"O","Probe":"xyz.openbmc_project.FruDevice({'bus': 1})"}
plug 1 80 $
plug 11 18 $
plug 10 90 $
plug 2 8 $
-> Done
0 new board "B" 1 at 1 80
0 new board "C" 1 at 1 80
0 new board "D" 1 at 1 80
0 new board "H" 1 at 1 80
0 new board "C" 2 at 11 18
0 new board "H" 2 at 11 18
0 new board "C" 3 at 10 90
0 new board "H" 3 at 2 8
fru 1 80$
fru 2 8$
fru 10 90$
fru 11 18$
== a number is the whole text of a field
block {"Name":"S","Probe":"xyz.openbmc_project.FruDevice({'CHASSIS_TYPE': 23})"}
block {"Name":"T","Probe":"xyz.openbmc_project.FruDevice({'CHASSIS_TYPE': '^2'})"}
block {"Name":"U","Probe":"xyz.openbmc_project.FruDevice({'CHASSIS_TYPE': 2})"}
plug 0 0 01000100000000FE010117C100000026
-> Done
0 new board "S" 1 at 0 0
0 new board "T" 1 at 0 0
fru 0 0 CHASSIS_TYPE="23"
== equal records at two places, of which each is matched by two patterns
block {"Name":"T","Probe":["xyz.openbmc_project.FruDevice({'BOARD_MANUFACTURER': 'ACM'})","OR",
    "xyz.openbmc_project.FruDevice({'BOARD_PRODUCT_NAME': 'RSR'})"]}
plug 3 1 $
plug 3 0 $
-> Done
0 new board "T" 1 at 3 1
0 new board "T" 2 at 3 0
fru 3 0$
fru 3 1$
== a board stands at each place that any pattern matches, once the probe is true
block {"Name":"Y","Probe":["xyz.openbmc_project.FruDevice({'BOARD_PRODUCT_NAME': 'RSR1'})","AND",
    "xyz.openbmc_project.FruDevice({'ADDRESS': 80})"]}
plug 1 81 $
plug 1 80 $
unplug 1 80
-> Done
0 new board "Y" 1 at 1 80
0 new board "Y" 2 at 1 81
0 gone board "Y" 1 at 1 80
0 gone board "Y" 2 at 1 81
fru 1 81$
== FOUND of a later, an earlier and the own name, of one that no configuration has, and in a chain
block {"Name":"B","Probe":"FOUND('A')"}
block ANY
block {"Name":"C","Probe":"FOUND('A')"}
block {"Name":"O","Probe":["FOUND('O')","OR","FOUND('Z')","OR","FOUND('a')"]}
block {"Name":"D","Probe":["FOUND('C')","AND","FOUND('A')"]}
block {"Name":"G","Probe":["FOUND('C')","AND","FOUND('B')"]}
plug 1 80 $
plug 1 81 $
unplug 1 80
unplug 1 81
-> Done
0 new board "A" 1 at 1 80
0 new board "C" 1
0 new board "D" 1
0 new board "A" 2 at 1 81
0 gone board "A" 1 at 1 80
0 gone board "A" 2 at 1 81
0 gone board "C" 1
0 gone board "D" 1
== FOUND of a configuration that comes later stays false once it is there
block {"Name":"B","Probe":"FOUND('A')"}
block {"Name":"Z","Probe":["FOUND('A')","OR","FALSE","MATCH_ONE"]}
block {"Name":"A","Probe":"TRUE"}
block {"Name":"C","Probe":["FALSE","OR"," FOUND('A') "]}
-> Done
0 new board "A" 1
0 new board "C" 1
== FALSE alone, before AND, and before OR
block {"Name":"N","Probe":"FALSE"}
block {"Name":"M","Probe":["FALSE","AND","xyz.openbmc_project.FruDevice({})"]}
block {"Name":"L","Probe":["FALSE","OR","xyz.openbmc_project.FruDevice({})"]}
plug 1 80 $
unplug 1 80
-> Done
0 new board "L" 1 at 1 80
0 gone board "L" 1 at 1 80
== from left to right: under precedence V and X would be found
block {"Name":"V","Probe":["TRUE","OR","TRUE","AND","FALSE"]}
block {"Name":"W","Probe":["FALSE","AND","TRUE","OR","TRUE"]}
block {"Name":"X","Probe":["TRUE","OR","FALSE","AND","FALSE","MATCH_ONE"]}
-> Done
0 new board "W" 1
== a configuration that is always found beside FRUs that it matches, and one place alone
block {"Name":"K","Probe":["TRUE","OR","xyz.openbmc_project.FruDevice({'ADDRESS': '^8'})","MATCH_ONE"]}
plug 1 79 $
plug 1 81 $
plug 1 80 $
unplug 1 80
unplug 1 81
unplug 1 79
-> Done
0 new board "K" 1
0 gone board "K" 1
0 new board "K" 2 at 1 81
0 gone board "K" 2 at 1 81
0 new board "K" 3 at 1 80
0 gone board "K" 3 at 1 80
0 new board "K" 2 at 1 81
0 gone board "K" 2 at 1 81
0 new board "K" 1
"#;

// More of them, which are made of parts.
const PROBES_BY_PARTS: &[Row] = &[
    // 256 configurations with a pattern each, of which some match: those whose numbers stand in S256
    (
        &[
            Numbered(256),
            Text("\nplug 1 80 01000001000000FE010200000000C0C0C453323536C10008\nplug 1 81 $\n"),
            Text("unplug 1 80\nunplug 1 81\n"),
        ],
        Done,
        r#"0 new board "2" 1 at 1 80
0 new board "5" 1 at 1 80
0 new board "6" 1 at 1 80
0 new board "25" 1 at 1 80
0 new board "56" 1 at 1 80
0 new board "256" 1 at 1 80
0 new board "1" 1 at 1 81
0 gone board "2" 1 at 1 80
0 gone board "5" 1 at 1 80
0 gone board "6" 1 at 1 80
0 gone board "25" 1 at 1 80
0 gone board "56" 1 at 1 80
0 gone board "256" 1 at 1 80
0 gone board "1" 1 at 1 81
"#,
    ),
];

// A document with a pattern that a maker refuses as too large.
const LARGE: &[Part] = &[
    Config(
        r#"{"Name":"One","Probe":"xyz.openbmc_project.FruDevice({'BOARD_PRODUCT_NAME': '^RSR1$'})"}"#,
    ),
    Config(ANY),
];

// Documents by their names.
const SHAPES: &[Shape] = &[("FIRST", FIRST, ""), ("ANY", ANY, "")];

#[test]
fn probes(rt: HostRuntime) -> Result<(), Fail> {
    play_cases(&rt, rt.alloc(), PROBES, SHAPES)?;
    play_rows(&rt, rt.alloc(), PROBES_BY_PARTS)?;
    let script = script_of(rt.alloc(), LARGE)?;
    play_refusing(
        &rt,
        rt.alloc(),
        script.as_slice(),
        "^RSR1$",
        Status::Refused,
        "line 1 refused PatternTooLarge\n",
    )
}
