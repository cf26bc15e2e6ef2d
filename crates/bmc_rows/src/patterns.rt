use crate::cases::play_each;
use crate::play::Part::{self, Config, Repeats};
use crate::play::{Row, play_parts};
use bmc_replay::Status::{Done, Refused};
use std::test::Fail;

// Documents whose patterns no record matches, since there is none.
const PATTERNS: &str = r#"
== each by itself
block {"Name":"R","Probe":"xyz.openbmc_project.FruDevice({'BOARD_MANUFACTURER': 'ACM'})"}
block {"Name":"R","Probe":"xyz.openbmc_project.FruDevice({'BOARD_PRODUCT_NAME': '0'})"}
block {"Name":"R","Probe":"xyz.openbmc_project.FruDevice({'BOARD_SERIAL_NUMBER': 'azAZ09'})"}
block {"Name":"R","Probe":"xyz.openbmc_project.FruDevice({'BOARD_PART_NUMBER': 'P1'})"}
block {"Name":"R","Probe":"xyz.openbmc_project.FruDevice({'BOARD_FRU_VERSION_ID': 'A1A1A1A1A1A1A1A1A1A1A1A1A1A1A1A1A1A1A1A1A1A1A1A1A1A1A1A1A1A1A1A1'})"}
// other fields, no member, other characters and an empty text
block {"Name":"R","Probe":"xyz.openbmc_project.FruDevice({})"}
block {"Name":"R","Probe":"xyz.openbmc_project.FruDevice({'PRODUCT_PRODUCT_NAME': 'RSR1'})"}
block {"Name":"R","Probe":"xyz.openbmc_project.FruDevice({'CHASSIS_PART_NUMBER': 'P1'})"}
block {"Name":"R","Probe":"xyz.openbmc_project.FruDevice({'BOARD_MANUFACTURE_DATE': '1'})"}
block {"Name":"R","Probe":"xyz.openbmc_project.FruDevice({'BOARD_INFO_AM1': 'A'})"}
block {"Name":"R","Probe":"xyz.openbmc_project.FruDevice({'board_product_name': 'A'})"}
block {"Name":"R","Probe":"xyz.openbmc_project.FruDevice({'': 'A'})"}
block {"Name":"R","Probe":"xyz.openbmc_project.FruDevice({'BOARD_PRODUCT_NAME': ''})"}
block {"Name":"R","Probe":"xyz.openbmc_project.FruDevice({'BOARD_PRODUCT_NAME': 'RSR-1'})"}
block {"Name":"R","Probe":"xyz.openbmc_project.FruDevice({'BOARD_PRODUCT_NAME': 'RSR 1'})"}
block {"Name":"R","Probe":"xyz.openbmc_project.FruDevice({'BOARD_PRODUCT_NAME': 'é'})"}
block {"Name":"R","Probe":"xyz.openbmc_project.FruDevice({'BOARD_PRODUCT_NAME': '\u0663'})"}
block {"Name":"R","Probe":"xyz.openbmc_project.FruDevice({'BOARD_PRODUCT_NAME': '}'})"}
// spaces, which may stand where JSON has them, and double quotes
block {"Name":"R","Probe":"xyz.openbmc_project.FruDevice({'BOARD_PRODUCT_NAME':'RSR1'})"}
block {"Name":"R","Probe":"xyz.openbmc_project.FruDevice({'BOARD_PRODUCT_NAME' : 'RSR1'})"}
block {"Name":"R","Probe":"xyz.openbmc_project.FruDevice({ 'BOARD_PRODUCT_NAME': 'RSR1'})"}
block {"Name":"R","Probe":"xyz.openbmc_project.FruDevice({'BUS':\n1 })"}
block {"Name":"R","Probe":"xyz.openbmc_project.FruDevice({\"BUS\": \"1\"})"}
block {"Name":"R","Probe":"xyz.openbmc_project.FruDevice({'BUS\": '1'})"}
block {"Name":"R","Probe":" xyz.openbmc_project.FruDevice({'BOARD_PRODUCT_NAME': 'RSR1'}) "}
block {"Name":"R","Probe":["xyz.openbmc_project.FruDevice({'BUS': 1})","AND","xyz.openbmc_project.FruDevice({'BUS': 2})","MATCH_ONE"]}
// whole numbers, two members, 16 members, and 17 of which two have the same key
block {"Name":"R","Probe":"xyz.openbmc_project.FruDevice({'BUS': 0})"}
block {"Name":"R","Probe":"xyz.openbmc_project.FruDevice({'BUS': -1})"}
block {"Name":"R","Probe":"xyz.openbmc_project.FruDevice({'BUS': 18446744073709551615})"}
block {"Name":"R","Probe":"xyz.openbmc_project.FruDevice({'BUS': -9223372036854775808})"}
block {"Name":"R","Probe":"xyz.openbmc_project.FruDevice({'BUS': 1.5, 'BUS': 1})"}
block {"Name":"R","Probe":"xyz.openbmc_project.FruDevice({'BOARD_PRODUCT_NAME': 'RSR1', 'BOARD_PART_NUMBER': 'P1'})"}
block {"Name":"R","Probe":"xyz.openbmc_project.FruDevice({'A': 1, 'B': 1, 'C': 1, 'D': 1, 'E': 1, 'F': 1, 'G': 1, 'H': 1, 'I': 1, 'J': 1, 'K': 1, 'L': 1, 'M': 1, 'N': 1, 'O': 1, 'P': 1})"}
block {"Name":"R","Probe":"xyz.openbmc_project.FruDevice({'A': 1, 'B': 1, 'C': 1, 'D': 1, 'E': 1, 'F': 1, 'G': 1, 'H': 1, 'I': 1, 'J': 1, 'K': 1, 'L': 1, 'M': 1, 'N': 1, 'O': 1, 'P': 1, 'A': 'x'})"}
// regular expressions
block {"Name":"R","Probe":"xyz.openbmc_project.FruDevice({'BUS': '.*'})"}
block {"Name":"R","Probe":"xyz.openbmc_project.FruDevice({'BUS': '^RSR[12]$'})"}
block {"Name":"R","Probe":"xyz.openbmc_project.FruDevice({'BUS': '(?i)k'})"}
block {"Name":"R","Probe":"xyz.openbmc_project.FruDevice({'BUS': 'a|b|'})"}
block {"Name":"R","Probe":"xyz.openbmc_project.FruDevice({'BUS': '(?:RSR1|RSR2){2,3}'})"}
block {"Name":"R","Probe":"xyz.openbmc_project.FruDevice({'BUS': '\\d+\\.\\d{2}'})"}
block {"Name":"R","Probe":"xyz.openbmc_project.FruDevice({'BUS': '\\p{Greek}'})"}
block {"Name":"R","Probe":"xyz.openbmc_project.FruDevice({'BUS': '[[:alpha:]]'})"}
block {"Name":"R","Probe":"xyz.openbmc_project.FruDevice({'BUS': '(?P<n>a)'})"}
block {"Name":"R","Probe":"xyz.openbmc_project.FruDevice({'BUS': 'a\\\\b'})"}
-> Done
"#;

// More of them, which are made of parts.
const PATTERNS_BY_PARTS: &[Part] = &[
    // a text of 256 bytes, and of 256 in two for each character
    Repeats(
        r#"{"Name":"R","Probe":"xyz.openbmc_project.FruDevice({'BUS': '"#,
        "a",
        256,
        r#"'})"}"#,
    ),
    Repeats(
        r#"{"Name":"R","Probe":"xyz.openbmc_project.FruDevice({'BUS': '"#,
        "é",
        128,
        r#"'})"}"#,
    ),
];

// Documents with a pattern that `regex` does not read.
const PATTERN_SYNTAX: &str = r#"
== each by itself
block {"Name":"R","Probe":"xyz.openbmc_project.FruDevice({'BUS': '('})"}
block {"Name":"R","Probe":"xyz.openbmc_project.FruDevice({'BUS': ')'})"}
block {"Name":"R","Probe":"xyz.openbmc_project.FruDevice({'BUS': 'RSR)'})"}
block {"Name":"R","Probe":"xyz.openbmc_project.FruDevice({'BUS': '['})"}
block {"Name":"R","Probe":"xyz.openbmc_project.FruDevice({'BUS': '[b-a]'})"}
block {"Name":"R","Probe":"xyz.openbmc_project.FruDevice({'BUS': '*'})"}
block {"Name":"R","Probe":"xyz.openbmc_project.FruDevice({'BUS': 'a|*'})"}
block {"Name":"R","Probe":"xyz.openbmc_project.FruDevice({'BUS': 'a{'})"}
block {"Name":"R","Probe":"xyz.openbmc_project.FruDevice({'BUS': 'a{2,1}'})"}
block {"Name":"R","Probe":"xyz.openbmc_project.FruDevice({'BUS': 'a{,3}'})"}
block {"Name":"R","Probe":"xyz.openbmc_project.FruDevice({'BUS': '{,3}'})"}
block {"Name":"R","Probe":"xyz.openbmc_project.FruDevice({'BUS': 'a\\'})"}
block {"Name":"R","Probe":"xyz.openbmc_project.FruDevice({'BUS': '\\1'})"}
block {"Name":"R","Probe":"xyz.openbmc_project.FruDevice({'BUS': '(a)\\1'})"}
block {"Name":"R","Probe":"xyz.openbmc_project.FruDevice({'BUS': '\\pX'})"}
block {"Name":"R","Probe":"xyz.openbmc_project.FruDevice({'BUS': '(?=a)'})"}
block {"Name":"R","Probe":"xyz.openbmc_project.FruDevice({'BUS': '(?!a)'})"}
block {"Name":"R","Probe":"xyz.openbmc_project.FruDevice({'BUS': '(?<=a)'})"}
block {"Name":"R","Probe":"xyz.openbmc_project.FruDevice({'BUS': '(?<!a)'})"}
block {"Name":"R","Probe":"xyz.openbmc_project.FruDevice({'BUS': '(?z)'})"}
block {"Name":"R","Probe":"xyz.openbmc_project.FruDevice({'BUS': '(?P<n>a)(?P<n>b)'})"}
block {"Name":"R","Probe":"xyz.openbmc_project.FruDevice({'BUS': '})'})"}
// the second member, and the second pattern
block {"Name":"R","Probe":"xyz.openbmc_project.FruDevice({'BOARD_PRODUCT_NAME': 'RSR1', 'BUS': '('})"}
block {"Name":"R","Probe":["TRUE","OR","xyz.openbmc_project.FruDevice({'BUS': '1'})","AND","xyz.openbmc_project.FruDevice({'BUS': '('})"]}
-> Refused
line 1 refused PatternSyntax
"#;

// More of them, which are made of parts.
const PATTERN_SYNTAX_BY_PARTS: &[Part] = &[
    // 251 repetitions, each of another
    Repeats(
        r#"{"Name":"R","Probe":"xyz.openbmc_project.FruDevice({'BUS': 'a"#,
        "*",
        251,
        r#"'})"}"#,
    ),
];

// Documents that are answered alike: how a script of one of them ends, and what is printed.
const DOCUMENTS: &[Row] = &[
    (PATTERNS_BY_PARTS, Done, ""),
    (
        PATTERN_SYNTAX_BY_PARTS,
        Refused,
        "line 1 refused PatternSyntax\n",
    ),
    (
        &[Config(
            r#"{"Name":"R","Probe":"xyz.openbmc_project.FruDevice({'BUS': '(?:RSR[12]){4294967295}'})"}"#,
        )],
        Refused,
        "line 1 refused PatternTooLarge\n",
    ),
];

#[test]
fn patterns(rt: HostRuntime) -> Result<(), Fail> {
    for text in [PATTERNS, PATTERN_SYNTAX] {
        play_each(&rt, rt.alloc(), text, &[])?;
    }
    play_parts(&rt, rt.alloc(), DOCUMENTS)
}
