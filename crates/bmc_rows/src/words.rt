use crate::cases::play_each;
use crate::play::Part::{self, Repeats};
use crate::play::{Row, play_parts};
use bmc_replay::Status::{Done, Refused};
use std::test::Fail;

// Documents that are never found: FALSE, and names of 1 to 64 bytes that no configuration before has.
const NEVER_FOUND: &str = r#"
== each by itself
block {"Name":"R","Probe":"FALSE"}
block {"Name":"R","Probe":["TRUE","AND","FALSE"]}
block {"Name":"R","Probe":"FOUND('R')"}
block {"Name":"R","Probe":"FOUND('B')"}
block {"Name":"R","Probe":"FOUND(' ')"}
block {"Name":"R","Probe":"FOUND('(A)')"}
block {"Name":"R","Probe":"FOUND('\"\\\\')"}
-> Done
"#;

// More of them, which are made of parts.
const NEVER_FOUND_BY_PARTS: &[Part] = &[Repeats(
    r#"{"Name":"R","Probe":"FOUND('"#,
    "a",
    64,
    r#"')"}"#,
)];

// Documents with a probe that is no probe.
const PROBE_SYNTAX: &str = r#"
== each by itself
// words: of other spellings, and with other characters around them than spaces
block {"Name":"R","Probe":""}
block {"Name":"R","Probe":" "}
block {"Name":"R","Probe":"true"}
block {"Name":"R","Probe":"TRU"}
block {"Name":"R","Probe":"TRUE\n"}
block {"Name":"R","Probe":"TRUE\t"}
block {"Name":"R","Probe":"TRUETRUE"}
block {"Name":"R","Probe":"TRUE OR TRUE"}
block {"Name":"R","Probe":"'TRUE'"}
block {"Name":"R","Probe":"match_one"}
// operators and MATCH_ONE in wrong places
block {"Name":"R","Probe":"AND"}
block {"Name":"R","Probe":"OR"}
block {"Name":"R","Probe":"MATCH_ONE"}
block {"Name":"R","Probe":["TRUE","TRUE"]}
block {"Name":"R","Probe":["TRUE","OR"]}
block {"Name":"R","Probe":["OR","TRUE"]}
block {"Name":"R","Probe":["TRUE","AND","AND"]}
block {"Name":"R","Probe":["TRUE","AND","OR","TRUE"]}
block {"Name":"R","Probe":["MATCH_ONE","TRUE"]}
block {"Name":"R","Probe":["TRUE","MATCH_ONE","OR","TRUE"]}
block {"Name":"R","Probe":["TRUE","MATCH_ONE","MATCH_ONE"]}
block {"Name":"R","Probe":["TRUE","OR","MATCH_ONE"]}
block {"Name":"R","Probe":["TRUE","OR","TRUE","OR"]}
// a wrong word in each place of a list
block {"Name":"R","Probe":["x","OR","TRUE"]}
block {"Name":"R","Probe":["TRUE","x","TRUE"]}
block {"Name":"R","Probe":["TRUE","OR","x"]}
block {"Name":"R","Probe":["TRUE","OR","TRUE","x"]}
block {"Name":"R","Probe":["TRUE","or","TRUE"]}
block {"Name":"R","Probe":["TRUE",""]}
block {"Name":"R","Probe":["TRUE","OR","false"]}
block {"Name":"R","Probe":["TRUE","OR","TRUE","AND","x","MATCH_ONE"]}
// FOUND of a name without bytes, with a quote, and in other spellings
block {"Name":"R","Probe":"FOUND"}
block {"Name":"R","Probe":"FOUND()"}
block {"Name":"R","Probe":"FOUND('')"}
block {"Name":"R","Probe":"FOUND('"}
block {"Name":"R","Probe":"FOUND(')"}
block {"Name":"R","Probe":"FOUND(A)"}
block {"Name":"R","Probe":"FOUND(\"A\")"}
block {"Name":"R","Probe":"FOUND ('A')"}
block {"Name":"R","Probe":"FOUND( 'A')"}
block {"Name":"R","Probe":"FOUND('A' )"}
block {"Name":"R","Probe":"FOUND('A'B')"}
block {"Name":"R","Probe":"FOUND('A') x"}
block {"Name":"R","Probe":"found('A')"}
// patterns in other spellings
block {"Name":"R","Probe":"xyz.openbmc_project.FruDevice"}
block {"Name":"R","Probe":"xyz.openbmc_project.FruDevice({'BUS': 1}"}
block {"Name":"R","Probe":"xyz.openbmc_project.FruDevice({'BUS': 1)}"}
block {"Name":"R","Probe":"xyz.openbmc_project.FruDevice('BUS': 1)"}
block {"Name":"R","Probe":"xyz.openbmc_project.FruDevice ({'BUS': 1})"}
block {"Name":"R","Probe":"xyz.openbmc_project.FruDevice( {'BUS': 1})"}
block {"Name":"R","Probe":"xyz.openbmc_project.FruDevice({'BUS': 1})x"}
block {"Name":"R","Probe":"FruDevice({'BUS': 1})"}
block {"Name":"R","Probe":"xyz-openbmc_project.FruDevice({'BUS': 1})"}
block {"Name":"R","Probe":"xyz.openbmc_project.frudevice({'BUS': 1})"}
// members that are no JSON: a missing colon, comma or quote, a quote or a control character in a text
block {"Name":"R","Probe":"xyz.openbmc_project.FruDevice({'BUS'})"}
block {"Name":"R","Probe":"xyz.openbmc_project.FruDevice({'BUS': })"}
block {"Name":"R","Probe":"xyz.openbmc_project.FruDevice({'BUS' 1})"}
block {"Name":"R","Probe":"xyz.openbmc_project.FruDevice({BUS: 1})"}
block {"Name":"R","Probe":"xyz.openbmc_project.FruDevice({1: 1})"}
block {"Name":"R","Probe":"xyz.openbmc_project.FruDevice({'BUS': 1,})"}
block {"Name":"R","Probe":"xyz.openbmc_project.FruDevice({'BUS': 1 'ADDRESS': 1})"}
block {"Name":"R","Probe":"xyz.openbmc_project.FruDevice({'BUS: 1})"}
block {"Name":"R","Probe":"xyz.openbmc_project.FruDevice({'BUS': 'a'b'})"}
block {"Name":"R","Probe":"xyz.openbmc_project.FruDevice({'BUS': 'a\"b'})"}
block {"Name":"R","Probe":"xyz.openbmc_project.FruDevice({'BUS': 'a\nb'})"}
block {"Name":"R","Probe":"xyz.openbmc_project.FruDevice({'BUS': 'a\\'b'})"}
block {"Name":"R","Probe":"xyz.openbmc_project.FruDevice({'BUS': 01})"}
block {"Name":"R","Probe":"xyz.openbmc_project.FruDevice({'BUS': +1})"}
block {"Name":"R","Probe":"xyz.openbmc_project.FruDevice({'BUS': 0x10})"}
block {"Name":"R","Probe":"xyz.openbmc_project.FruDevice({'BUS': 1e400})"}
block {"Name":"R","Probe":"xyz.openbmc_project.FruDevice({'BUS': NaN})"}
block {"Name":"R","Probe":"xyz.openbmc_project.FruDevice({'BUS': 1}, {'ADDRESS': 1})"}
// wants that are neither a text nor a whole number
block {"Name":"R","Probe":"xyz.openbmc_project.FruDevice({'BUS': 1.5})"}
block {"Name":"R","Probe":"xyz.openbmc_project.FruDevice({'BUS': 1.0})"}
block {"Name":"R","Probe":"xyz.openbmc_project.FruDevice({'BUS': 1e2})"}
block {"Name":"R","Probe":"xyz.openbmc_project.FruDevice({'BUS': -0})"}
block {"Name":"R","Probe":"xyz.openbmc_project.FruDevice({'BUS': 18446744073709551616})"}
block {"Name":"R","Probe":"xyz.openbmc_project.FruDevice({'BUS': -9223372036854775809})"}
block {"Name":"R","Probe":"xyz.openbmc_project.FruDevice({'BUS': null})"}
block {"Name":"R","Probe":"xyz.openbmc_project.FruDevice({'BUS': true})"}
block {"Name":"R","Probe":"xyz.openbmc_project.FruDevice({'BUS': ['1']})"}
block {"Name":"R","Probe":"xyz.openbmc_project.FruDevice({'BUS': {}})"}
// 17 members
block {"Name":"R","Probe":"xyz.openbmc_project.FruDevice({'A': 1, 'B': 1, 'C': 1, 'D': 1, 'E': 1, 'F': 1, 'G': 1, 'H': 1, 'I': 1, 'J': 1, 'K': 1, 'L': 1, 'M': 1, 'N': 1, 'O': 1, 'P': 1, 'Q': 1})"}
// a probe comes before exposes
block {"Name":"R","Probe":["TRUE","TRUE"],"Exposes":5}
-> Refused
line 1 refused ProbeSyntax
"#;

// More of them, which are made of parts.
const PROBE_SYNTAX_BY_PARTS: &[Part] = &[
    Repeats(r#"{"Name":"R","Probe":"FOUND('"#, "a", 65, r#"')"}"#),
    Repeats(
        r#"{"Name":"R","Probe":"xyz.openbmc_project.FruDevice({'BUS': '"#,
        "a",
        257,
        r#"'})"}"#,
    ),
    Repeats(
        r#"{"Name":"R","Probe":"xyz.openbmc_project.FruDevice({'BUS': '"#,
        "é",
        129,
        r#"'})"}"#,
    ),
];

// Documents that are answered alike: how a script of one of them ends, and what is printed.
const DOCUMENTS: &[Row] = &[
    (NEVER_FOUND_BY_PARTS, Done, ""),
    (
        PROBE_SYNTAX_BY_PARTS,
        Refused,
        "line 1 refused ProbeSyntax\n",
    ),
];

#[test]
fn words(rt: HostRuntime) -> Result<(), Fail> {
    for text in [NEVER_FOUND, PROBE_SYNTAX] {
        play_each(&rt, rt.alloc(), text, &[])?;
    }
    play_parts(&rt, rt.alloc(), DOCUMENTS)
}
