use crate::cases::{Shape, play_cases, play_each};
use crate::play::Part::{self, Config, Repeats};
use crate::play::{ALWAYS_BOARD, Row, play_parts};
use bmc_replay::Status::{Done, Refused};
use std::test::Fail;

// A multiplexer at address 112 that opens buses 20 and 21, and one at address 113 that opens bus 30.
const MUX: &str = r#"{"Name":"M","Probe":"xyz.openbmc_project.FruDevice({'ADDRESS': 112})",
    "Exposes":[{"Name":"Slots","Type":"Mux","Channels":[20,21]}]}"#;

const OTHER_MUX: &str = r#"{"Name":"L","Probe":"xyz.openbmc_project.FruDevice({'ADDRESS': 113})",
    "Exposes":[{"Name":"Slots","Type":"Mux","Channels":[30]}]}"#;

// A board at address 80.
const BOARD: &str =
    r#"{"Name":"R","Probe":"xyz.openbmc_project.FruDevice({'ADDRESS': 80, 'BOARD_PRODUCT_NAME': '^RSR1$'})"}"#;

const SCRIPTS: &str = r#"
== what was plugged before comes with the multiplexer, in the same event, and goes with it
block MUX
block BOARD
plug 20 80 $
plug 1 112 $
plug 21 80 $
plug 22 80 $
unplug 1 112
plug 1 112 $
-> Done
0 new board "M" 1 at 1 112
0 new board "R" 1 at 20 80
0 new board "R" 2 at 21 80
0 gone board "M" 1 at 1 112
0 gone board "R" 1 at 20 80
0 gone board "R" 2 at 21 80
0 new board "M" 1 at 1 112
0 new board "R" 1 at 20 80
0 new board "R" 2 at 21 80
fru 1 112$
fru 20 80$
fru 21 80$
fru 22 80$
== a bus stays open as long as one multiplexer of the configuration is there
block BOARD
block MUX
plug 1 112 $
plug 15 112 $
plug 20 80 $
unplug 1 112
unplug 15 112
plug 16 112 $
-> Done
0 new board "M" 1 at 1 112
0 new board "M" 2 at 15 112
0 new board "R" 1 at 20 80
0 gone board "M" 1 at 1 112
0 gone board "R" 1 at 20 80
0 gone board "M" 2 at 15 112
fru 16 112$
fru 20 80$
== a multiplexer behind another one is found, and opens nothing; on a root bus it does
block MUX
block OTHER_MUX
block BOARD
plug 1 112 $
plug 20 113 $
plug 30 80 $
plug 2 113 $
unplug 2 113
unplug 1 112
-> Done
0 new board "M" 1 at 1 112
0 new board "L" 1 at 20 113
0 new board "L" 2 at 2 113
0 new board "R" 1 at 30 80
0 gone board "L" 2 at 2 113
0 gone board "R" 1 at 30 80
0 gone board "M" 1 at 1 112
0 gone board "L" 1 at 20 113
fru 20 113$
fru 30 80$
== a configuration that is found through FRUs on opened buses alone opens nothing; through one on a root bus it does
block MUX
block {"Name":"N","Probe":"xyz.openbmc_project.FruDevice({'ADDRESS': 114})"}
block {"Name":"Q","Probe":"FOUND('N')","Exposes":[{"Name":"x","Type":"Mux","Channels":[30]}]}
block BOARD
plug 30 80 $
plug 1 112 $
plug 20 114 $
plug 1 114 $
unplug 1 114
unplug 20 114
-> Done
0 new board "M" 1 at 1 112
0 new board "N" 1 at 20 114
0 new board "Q" 1
0 new board "N" 2 at 1 114
0 new board "R" 1 at 30 80
0 gone board "N" 2 at 1 114
0 gone board "R" 1 at 30 80
0 gone board "N" 1 at 20 114
0 gone board "Q" 1
fru 1 112$
fru 30 80$
== a configuration that is always found opens its buses, also the last one and a root bus, through each expose
block {"Name":"O","Probe":"TRUE","Exposes":[
    {"Name":"x","Type":"Mux","Channels":[16,3]},{"Channels":[255],"Name":"x","Type":"Mux","Address":"0x70"}]}
block BOARD
plug 255 80 $
plug 16 80 $
plug 17 80 $
plug 3 80 $
plug 254 80 $
-> Done
0 new board "O" 1
0 new board "R" 1 at 255 80
0 new board "R" 2 at 16 80
0 new board "R" 3 at 3 80
fru 3 80$
fru 16 80$
fru 17 80$
fru 254 80$
fru 255 80$
== one that is not found opens none, and MATCH_ONE looks at opened buses too
block {"Name":"O","Probe":"FALSE","Exposes":[{"Name":"x","Type":"Mux","Channels":[19]}]}
block MUX
block {"Name":"F","Probe":["xyz.openbmc_project.FruDevice({'ADDRESS': 80})","MATCH_ONE"]}
plug 19 80 $
plug 21 80 $
plug 20 80 $
plug 0 112 $
plug 15 80 $
unplug 15 80
unplug 0 112
-> Done
0 new board "M" 1 at 0 112
0 new board "F" 1 at 20 80
0 gone board "F" 1 at 20 80
0 new board "F" 2 at 15 80
0 gone board "F" 2 at 15 80
0 new board "F" 1 at 20 80
0 gone board "M" 1 at 0 112
0 gone board "F" 1 at 20 80
fru 19 80$
fru 20 80$
fru 21 80$
== one that is refused opens none: its name is taken, a controller of it is wrong, its pattern is bad, and it is late
block BOARD
block {"Name":"R","Probe":"TRUE","Exposes":[{"Name":"x","Type":"Mux","Channels":[20]}]}
block {"Name":"O","Probe":"TRUE","Exposes":[{"Name":"x","Type":"Mux","Channels":[20]},{"Name":"x","Type":"Stepwise"}]}
block {"Name":"O","Probe":["TRUE","OR","xyz.openbmc_project.FruDevice({'BUS': '('})"],
    "Exposes":[{"Name":"x","Type":"Mux","Channels":[20]}]}
plug 20 80 $
block {"Name":"O","Probe":"TRUE","Exposes":[{"Name":"x","Type":"Mux","Channels":[20]}]}
-> Refused
line 2 refused DuplicateName
line 3 refused MissingKey
line 4 refused PatternSyntax
line 6 refused ConfigAfterPlug
fru 20 80$
== a probe that is true on root buses is true for the FRUs behind the multiplexer as well
block {"Name":"S","Probe":["xyz.openbmc_project.FruDevice({'ADDRESS': 112})","OR","xyz.openbmc_project.FruDevice({'BUS': 20})"],
    "Exposes":[{"Name":"x","Type":"Mux","Channels":[20]}]}
plug 20 1 $
plug 1 112 $
plug 20 2 $
unplug 1 112
unplug 20 1
-> Done
0 new board "S" 1 at 1 112
0 new board "S" 2 at 20 1
0 new board "S" 3 at 20 2
0 gone board "S" 1 at 1 112
0 gone board "S" 2 at 20 1
0 gone board "S" 3 at 20 2
fru 20 2$
"#;

// Documents with the name A that are always found, with exposes.
const FOUND: &str = r#"
== each by itself
// exposes, and 256 of them
block {"Name":"A","Probe":"TRUE","Exposes":[]}
block {"Name":"A","Probe":"TRUE","Exposes":5,"Exposes":[]}
block {"Name":"A","Probe":"TRUE","Exposes":[{"Name":"x","Type":"Mux","Channels":[0,255,16,16],"Bus":"$bus"}]}
// texts of numbers and of either case, and substitutions, of which one has 128 bytes
block {"Name":"A","Probe":"TRUE","Exposes":[{"Name":"x","Type":"Mux","Channels":["0","255","000000016","0x0","0x00fF"]}]}
block {"Name":"A","Probe":"TRUE","Exposes":[
    {"Name":"x","Type":"Mux","Channels":["$bus","$ADDRESS - 60 * 2","$BOARD_INFO_AM2040 % 7"]}]}
// fixed channels as texts, with MATCH_ONE
block {"Name":"A","Probe":["TRUE","MATCH_ONE"],"Exposes":[{"Name":"x","Type":"Mux","Channels":["16",17,"0x12"]}]}
-> Done
0 new board "A" 1
"#;

// More of them, which are made of parts.
const FOUND_BY_PARTS: &[Part] = &[
    Repeats(
        r#"{"Name":"A","Probe":"TRUE","Exposes":[{"Name":"x","Type":"Mux","Channels":[1]}"#,
        r#",{"Name":"x","Type":"Mux","Channels":[1]}"#,
        255,
        "]}",
    ),
    Repeats(
        r#"{"Name":"A","Probe":"TRUE","Exposes":[{"Name":"x","Type":"Mux","Channels":["$bus"#,
        " + 1",
        31,
        r#""]}]}"#,
    ),
    // 16 channels, and a name of an expose of 128 bytes
    Repeats(
        r#"{"Name":"A","Probe":"TRUE","Exposes":[{"Name":"x","Type":"Mux","Channels":[16"#,
        ",17",
        15,
        "]}]}",
    ),
    Repeats(
        r#"{"Name":"A","Probe":"TRUE","Exposes":[{"Type":"Mux","Channels":[16],"Name":""#,
        "é",
        64,
        r#""}]}"#,
    ),
];

// Documents whose exposes, or what they have, are of the wrong kind.
const WRONG_KINDS: &str = r#"
== each by itself
// exposes, before a pattern that is bad
block {"Name":"A","Probe":"TRUE","Exposes":null}
block {"Name":"A","Probe":"TRUE","Exposes":{}}
block {"Name":"A","Probe":"TRUE","Exposes":"Mux"}
block {"Name":"A","Probe":"TRUE","Exposes":[5,{}]}
block {"Name":"A","Probe":"xyz.openbmc_project.FruDevice({'BUS': '('})","Exposes":5}
block {"Name":"A","Probe":"TRUE","Exposes":[{"Name":5,"Type":5}]}
block {"Name":"A","Probe":"TRUE","Exposes":[{"Name":"M","Type":5}]}
block {"Name":"A","Probe":"TRUE","Exposes":[{"Name":"M","Type":"Mux","Channels":17}]}
block {"Name":"A","Probe":"TRUE","Exposes":[{"Name":"M","Type":"Mux","Channels":"1"}]}
block {"Name":"A","Probe":"TRUE","Exposes":[{"Name":"M","Type":"Mux","Channels":[null,"x"]}]}
block {"Name":"A","Probe":"TRUE","Exposes":[{"Name":"M","Type":"Mux","Channels":[1,[1]]}]}
-> Refused
line 1 refused WrongKind
"#;

// Documents with an expose that lacks a member.
const MISSING_KEYS: &[Part] = &[
    Config(r#"{"Name":"A","Probe":"TRUE","Exposes":[{}]}"#),
    Config(r#"{"Name":"A","Probe":"TRUE","Exposes":[{"Name":"x"},5]}"#),
    Config(r#"{"Name":"A","Probe":"TRUE","Exposes":[{"Name":"x","Type":"Mux"}]}"#),
];

// Documents with too few or too many exposes, channels or bytes of a name, and with channels that are no bus.
const OUT_OF_RANGE: &str = r#"
== each by itself
block {"Name":"A","Probe":"TRUE","Exposes":[{"Name":"","Type":5}]}
block {"Name":"A","Probe":"TRUE","Exposes":[{"Name":"M","Type":""}]}
block {"Name":"A","Probe":"TRUE","Exposes":[{"Name":"M","Type":"Mux","Channels":[]}]}
block {"Name":"A","Probe":"TRUE","Exposes":[{"Name":"M","Type":"Mux","Channels":[256]}]}
block {"Name":"A","Probe":"TRUE","Exposes":[{"Name":"M","Type":"Mux","Channels":[-1]}]}
block {"Name":"A","Probe":"TRUE","Exposes":[{"Name":"M","Type":"Mux","Channels":[1,18446744073709551615,"x"]}]}
block {"Name":"A","Probe":"TRUE","Exposes":[{"Name":"M","Type":"Mux","Channels":["256","x"]}]}
block {"Name":"A","Probe":"TRUE","Exposes":[{"Name":"M","Type":"Mux","Channels":["999999999",null]}]}
block {"Name":"A","Probe":"TRUE","Exposes":[{"Name":"M","Type":"Mux","Channels":["$bus","0x100"]}]}
-> Refused
line 1 refused OutOfRange
"#;

// More of them, which are made of parts.
const OUT_OF_RANGE_BY_PARTS: &[Part] = &[
    // exposes: 257, and a name of 129 bytes
    Repeats(
        r#"{"Name":"A","Probe":"TRUE","Exposes":[0"#,
        ",0",
        256,
        "]}",
    ),
    Repeats(
        r#"{"Name":"A","Probe":"TRUE","Exposes":[{"Type":"Mux","Channels":[16],"Name":"$"#,
        "é",
        64,
        r#""}]}"#,
    ),
    // 17 channels
    Repeats(
        r#"{"Name":"A","Probe":"TRUE","Exposes":[{"Name":"x","Type":"Mux","Channels":[16"#,
        ",17",
        16,
        "]}]}",
    ),
];

// Documents with a channel that is a text and no number, and no substitution alone.
const TEMPLATE_SYNTAX: &str = r#"
== each by itself
block {"Name":"A","Probe":"TRUE","Exposes":[{"Name":"M","Type":"Mux","Channels":[""]}]}
block {"Name":"A","Probe":"TRUE","Exposes":[{"Name":"M","Type":"Mux","Channels":[" 1"]}]}
block {"Name":"A","Probe":"TRUE","Exposes":[{"Name":"M","Type":"Mux","Channels":["-1"]}]}
block {"Name":"A","Probe":"TRUE","Exposes":[{"Name":"M","Type":"Mux","Channels":["0000000001"]}]}
block {"Name":"A","Probe":"TRUE","Exposes":[{"Name":"M","Type":"Mux","Channels":["0x"]}]}
block {"Name":"A","Probe":"TRUE","Exposes":[{"Name":"M","Type":"Mux","Channels":["0X1"]}]}
block {"Name":"A","Probe":"TRUE","Exposes":[{"Name":"M","Type":"Mux","Channels":["0x00001"]}]}
block {"Name":"A","Probe":"TRUE","Exposes":[{"Name":"M","Type":"Mux","Channels":["0xg"]}]}
// text before a substitution, behind it, and another one; a `$` that begins none
block {"Name":"A","Probe":"TRUE","Exposes":[{"Name":"M","Type":"Mux","Channels":["1$bus"]}]}
block {"Name":"A","Probe":"TRUE","Exposes":[{"Name":"M","Type":"Mux","Channels":["$bus "]}]}
block {"Name":"A","Probe":"TRUE","Exposes":[{"Name":"M","Type":"Mux","Channels":["$bus +1"]}]}
block {"Name":"A","Probe":"TRUE","Exposes":[{"Name":"M","Type":"Mux","Channels":["$bus + 123456"]}]}
block {"Name":"A","Probe":"TRUE","Exposes":[{"Name":"M","Type":"Mux","Channels":["$bus$bus"]}]}
block {"Name":"A","Probe":"TRUE","Exposes":[{"Name":"M","Type":"Mux","Channels":["$"]}]}
// words that are unknown, a division by 0, and the index
block {"Name":"A","Probe":"TRUE","Exposes":[{"Name":"M","Type":"Mux","Channels":["$buses"]}]}
block {"Name":"A","Probe":"TRUE","Exposes":[{"Name":"M","Type":"Mux","Channels":["$bus / 0"]}]}
block {"Name":"A","Probe":"TRUE","Exposes":[{"Name":"M","Type":"Mux","Channels":["$index"]}]}
block {"Name":"A","Probe":"TRUE","Exposes":[{"Name":"M","Type":"Mux","Channels":["$index + 1"]}]}
// before a channel that is wrong, and before MATCH_ONE and a pattern that is bad
block {"Name":"A","Probe":"TRUE","Exposes":[{"Name":"M","Type":"Mux","Channels":["16","x",256,null]}]}
block {"Name":"A","Probe":["xyz.openbmc_project.FruDevice({'BUS': '('})","MATCH_ONE"],
    "Exposes":[{"Name":"M","Type":"Mux","Channels":["$bus","$index"]}]}
-> Refused
line 1 refused TemplateSyntax
"#;

// More of them, which are made of parts.
const TEMPLATE_SYNTAX_BY_PARTS: &[Part] = &[
    // 132 bytes
    Repeats(
        r#"{"Name":"A","Probe":"TRUE","Exposes":[{"Name":"M","Type":"Mux","Channels":["$bus"#,
        " + 1",
        32,
        r#""]}]}"#,
    ),
];

// Documents that end with MATCH_ONE and have a channel with a substitution, in any of their exposes.
const MUX_MATCH_ONE: &[Part] = &[
    Config(
        r#"{"Name":"A","Probe":["TRUE","MATCH_ONE"],"Exposes":[{"Name":"M","Type":"Mux","Channels":["$bus"]}]}"#,
    ),
    Config(
        r#"{"Name":"A","Probe":["FALSE","MATCH_ONE"],"Exposes":[{"Name":"M","Type":"Mux","Channels":[1]},
            {"Name":"x","Type":"Fan"},{"Name":"N","Type":"Mux","Channels":[2,"$address - 60"]}]}"#,
    ),
    // before a pattern that is bad
    Config(
        r#"{"Name":"A","Probe":["xyz.openbmc_project.FruDevice({'BUS': '('})","MATCH_ONE"],
            "Exposes":[{"Name":"M","Type":"Mux","Channels":["$bus"]}]}"#,
    ),
];

// Documents that are answered alike: how a script of one of them ends, and what is printed.
const DOCUMENTS: &[Row] = &[
    (FOUND_BY_PARTS, Done, ALWAYS_BOARD),
    (MISSING_KEYS, Refused, "line 1 refused MissingKey\n"),
    (
        OUT_OF_RANGE_BY_PARTS,
        Refused,
        "line 1 refused OutOfRange\n",
    ),
    (
        TEMPLATE_SYNTAX_BY_PARTS,
        Refused,
        "line 1 refused TemplateSyntax\n",
    ),
    (MUX_MATCH_ONE, Refused, "line 1 refused MuxMatchOne\n"),
];

// Documents by their names.
const SHAPES: &[Shape] = &[
    ("MUX", MUX, ""),
    ("BOARD", BOARD, ""),
    ("OTHER_MUX", OTHER_MUX, ""),
];

#[test]
fn muxes(rt: HostRuntime) -> Result<(), Fail> {
    play_cases(&rt, rt.alloc(), SCRIPTS, SHAPES)?;
    for text in [FOUND, WRONG_KINDS, OUT_OF_RANGE, TEMPLATE_SYNTAX] {
        play_each(&rt, rt.alloc(), text, SHAPES)?;
    }
    play_parts(&rt, rt.alloc(), DOCUMENTS)
}
