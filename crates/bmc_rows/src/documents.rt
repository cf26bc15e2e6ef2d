use crate::cases::play_each;
use crate::play::Part::{self, Block, Config, Nested, Repeats};
use crate::play::{ALWAYS_BOARD, Row, play_parts};
use bmc_replay::Status::{Done, Refused};
use std::test::Fail;

// Documents with the name A that are always found.
const FOUND: &str = r#"
== each by itself
block {"Name":"A","Probe":"TRUE"}
block {"Name":"A","Probe":"TRUE","x":[18446744073709551615,-9223372036854775808,0,null,true,{"y":"\n\/"}]}
block {"Name":"A","Probe":"TRUE","exposes":[],"name":5,"":{}}
block {"Name":"A","Probe":"TRUE","x":{"y":[1e9]},"x":{}}
// spaces around a word, and lists of words
block {"Name":"A","Probe":"TRUE "}
block {"Name":"A","Probe":" TRUE"}
block {"Name":"A","Probe":["  TRUE  "]}
block {"Name":"A","Probe":["TRUE"]}
block {"Name":"A","Probe":["TRUE"," MATCH_ONE "]}
block {"Name":"A","Probe":[" FALSE","OR ","TRUE"]}
block {"Name":"A","Probe":["TRUE","AND","TRUE","MATCH_ONE"]}
block {"Name":"A","Probe":["FOUND('A')","OR","TRUE"]}
-> Done
0 new board "A" 1
"#;

// More of them, which are made of parts.
const FOUND_BY_PARTS: &[Part] = &[
    // 33 words
    Repeats(
        r#"{"Name":"A","Probe":["TRUE""#,
        r#","OR","TRUE""#,
        16,
        "]}",
    ),
];

// Blocks that are no JSON text.
const NO_JSON: &str = r#"
== each by itself
block {
block {"Name":"A","Probe":"TRUE"
block {"Name":"A","Probe":"TRUE"}x
block {"Name":"A","Probe":"TRUE"}{"Name":"A","Probe":"TRUE"}
block {"Name":"A","Probe":"TRUE",}
block {'Name':'A'}
block ﻿{"Name":"A","Probe":"TRUE"}
block {"Name":"A","Probe":"TRUE","x":01}
block {"Name":"A","Probe":"TRUE","x":1.}
block {"Name":"A","Probe":"TRUE","x":.5}
block {"Name":"A","Probe":"TRUE","x":+1}
block {"Name":"A","Probe":"TRUE","x":NaN}
block {"Name":"A","Probe":"TRUE","x":-Infinity}
block {"Name":"A","Probe":"TRUE","x":1e400}
block {"Name":"A","Probe":"TRUE","x":-1e400}
block {"Name":"A","Probe":"TRUE","x":True}
block {"Name":"A","Probe":"TRUE","x":"\x41"}
block {"Name":"A","Probe":"TRUE","x":"\u004"}
block {"Name":"A","Probe":"TRUE","x":"\ud800"}
block {"Name":"A","Probe":"TRUE","x":"\udc00"}
block {"Name":"A","Probe":"TRUE","x":"\ud800\ud800\udc00"}
block {"Name":"A","Probe":"TRUE","\udc00":1}
// of a value that does not count, since its key comes again
block {"Name":"A","Probe":"TRUE","x":1e400,"x":1}
block {"Name":"A","Probe":"TRUE","x":"\ud800","x":1}
-> Refused
line 1 refused NotJson
"#;

// More of them, which are made of parts.
const NO_JSON_BY_PARTS: &[Part] = &[
    Config(""),
    Config(" \n"),
    Config("{\"Name\":\"A\",\"Probe\":\"TRUE\"}\x0c"),
    Config("{\"Name\":\"A\",\"Probe\":\"TRUE\",\"x\":\"\t\"}"),
    // a byte of no text, half a character, a surrogate, and a byte behind a document
    Block(b"\xFF"),
    Block(b"{\"Name\":\"\xC3\",\"Probe\":\"TRUE\"}"),
    Block(b"{\"Name\":\"\xED\xA0\x80\",\"Probe\":\"TRUE\"}"),
    Block(b"{\"Name\":\"A\",\"Probe\":\"TRUE\"}\x00"),
    // an object with 127 arrays or more in it
    Nested(127),
    Nested(128),
    Nested(100_000),
];

// Documents with a fraction, which comes before the kind of the document and its members.
const FRACTIONS: &str = r#"
== each by itself
block 0.5
block [[1.0]]
block {"x":[{"y":1e2}]}
block {"Name":0.5}
block {"Name":"A","Probe":"TRUE","x":-0}
block {"Name":"A","Probe":"TRUE","x":0.0}
block {"Name":"A","Probe":"TRUE","x":0e400}
block {"Name":"A","Probe":"TRUE","x":1e-400}
block {"Name":"A","Probe":"TRUE","x":18446744073709551616}
block {"Name":"A","Probe":"TRUE","x":-9223372036854775809}
block {"Name":"A","Probe":"TRUE","Exposes":[{"Index":0.1}]}
block {"Name":"A","Probe":"TRUE","x":1,"x":0.5}
block {"Name":"A","Probe":["x",0.5]}
block {"Name":"A","Probe":"x","Exposes":[{"Channels":[1.0]}]}
-> Refused
line 1 refused Fraction
"#;

// Documents of the wrong kind, and those with such a name or probe.
const WRONG_KINDS: &str = r#"
== each by itself
block null
block true
block 7
block "Name"
block []
block [{"Name":"A","Probe":"TRUE"}]
block {"Name":5}
block {"Name":null,"Probe":"TRUE"}
block {"Name":["A"],"Probe":"TRUE"}
block {"Name":"A","Probe":5,"Exposes":[]}
block {"Name":"A","Probe":null}
block {"Name":"A","Probe":false}
block {"Name":"A","Probe":{}}
block {"Name":"A","Name":5,"Probe":"TRUE"}
// words of a probe, before one that is wrong
block {"Name":"A","Probe":["TRUE",5]}
block {"Name":"A","Probe":[null,"x"]}
block {"Name":"A","Probe":["x",["TRUE"]]}
-> Refused
line 1 refused WrongKind
"#;

// Documents without a name, and those without a probe.
const MISSING_KEYS: &str = r#"
== each by itself
block {}
block {"Probe":"TRUE"}
block {"Probe":5}
block {"name":"A","Probe":"TRUE"}
block {"x":{"Name":"A","Probe":"TRUE"}}
block {"Name":"A"}
block {"Name":"A","Exposes":[]}
block {"Name":"A","probe":"TRUE"}
-> Refused
line 1 refused MissingKey
"#;

// Documents whose name has no bytes, or more than 64, and those with too few or too many words.
const OUT_OF_RANGE: &str = r#"
== each by itself
block {"Name":""}
block {"Name":"","Probe":5}
block {"Name":"aaaaaaaaaaaaaaaaaaaaaaaaaaaaaaaaaaaaaaaaaaaaaaaaaaaaaaaaaaaaaaaaa","Probe":"TRUE"}
block {"Name":"ééééééééééééééééééééééééééééééééa","Probe":"TRUE"}
// words: none, 34 with MATCH_ONE, 35, and 34 that are no texts
block {"Name":"A","Probe":[]}
-> Refused
line 1 refused OutOfRange
"#;

// More of them, which are made of parts.
const OUT_OF_RANGE_BY_PARTS: &[Part] = &[
    Repeats(
        r#"{"Name":"A","Probe":["TRUE""#,
        r#","OR","TRUE""#,
        16,
        r#","MATCH_ONE"]}"#,
    ),
    Repeats(
        r#"{"Name":"A","Probe":["TRUE""#,
        r#","OR","TRUE""#,
        17,
        "]}",
    ),
    Repeats(r#"{"Name":"A","Probe":[0"#, ",0", 33, "]}"),
];

// Documents that are answered alike: how a script of one of them ends, and what is printed.
const DOCUMENTS: &[Row] = &[
    (FOUND_BY_PARTS, Done, ALWAYS_BOARD),
    (
        &[Config(" {\t\"Probe\" : \"TRUE\" ,\n\"Name\" : \"A B\" }\r\n")],
        Done,
        "0 new board \"A B\" 1\n",
    ),
    (
        &[Config(
            r#"{"Name":"aaaaaaaaaaaaaaaaaaaaaaaaaaaaaaaaaaaaaaaaaaaaaaaaaaaaaaaaaaaaaaaa","Probe":"TRUE"}"#,
        )],
        Done,
        "0 new board \"aaaaaaaaaaaaaaaaaaaaaaaaaaaaaaaaaaaaaaaaaaaaaaaaaaaaaaaaaaaaaaaa\" 1\n",
    ),
    (
        &[Config(r#"{"Name":"éééééééééééééééééééééééééééééééé","Probe":"TRUE"}"#)],
        Done,
        "0 new board \"éééééééééééééééééééééééééééééééé\" 1\n",
    ),
    (
        &[Config(r#"{"Name":"\u0000\ud83d\ude00","Probe":"TRUE"}"#)],
        Done,
        "0 new board \"\\x00😀\" 1\n",
    ),
    (
        &[Config(r#"{"Name":"R","Probe":"\u0054RUE"}"#)],
        Done,
        "0 new board \"R\" 1\n",
    ),
    (
        &[Config(r#"{"x":0.5,"x":1,"Name":0.5,"Name":"","Name":"B","Probe":5,"Probe":"TRUE"}"#)],
        Done,
        "0 new board \"B\" 1\n",
    ),
    (&[Nested(1), Nested(126)], Done, ALWAYS_BOARD),
    (NO_JSON_BY_PARTS, Refused, "line 1 refused NotJson\n"),
    (
        OUT_OF_RANGE_BY_PARTS,
        Refused,
        "line 1 refused OutOfRange\n",
    ),
];

#[test]
fn documents(rt: HostRuntime) -> Result<(), Fail> {
    for text in [
        FOUND,
        NO_JSON,
        FRACTIONS,
        WRONG_KINDS,
        MISSING_KEYS,
        OUT_OF_RANGE,
    ] {
        play_each(&rt, rt.alloc(), text, &[])?;
    }
    play_parts(&rt, rt.alloc(), DOCUMENTS)
}
