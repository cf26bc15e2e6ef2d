use crate::reading::{assert_fault, fault_of, repeated};
use cfg_json::answers_are_verdicts;
use pat_gate::RegexMaker;
use std::test::Fail;

// Documents that are no configuration, whatever their probe says.
const FAULTS: &[(&str, &str)] = &[
    // no JSON
    ("", "NotJson"),
    ("{", "NotJson"),
    (r#"{"Name":"A","Probe":"TRUE"} x"#, "NotJson"),
    (r#"{"Name":"A","Probe":"TRUE",}"#, "NotJson"),
    (r#"{'Name':'A'}"#, "NotJson"),
    (r#"{"Name":"A","Probe":"TRUE","x":1e400}"#, "NotJson"),
    (r#"{"Name":"A","Probe":"TRUE","x":01}"#, "NotJson"),
    ("\u{FEFF}{\"Name\":\"A\",\"Probe\":\"TRUE\"}", "NotJson"),
    // numbers that are not whole, which come before all other rules but JSON
    ("0.5", "Fraction"),
    ("[0.5]", "Fraction"),
    (r#"{"x":-0}"#, "Fraction"),
    (r#"{"x":1e2}"#, "Fraction"),
    (r#"{"x":1.0}"#, "Fraction"),
    (r#"{"Name":0.5,"Probe":"TRUE"}"#, "Fraction"),
    (
        r#"{"Name":"A","Probe":"TRUE","x":[[{"y":[0.5]}]]}"#,
        "Fraction",
    ),
    (r#"{"x":18446744073709551616}"#, "Fraction"),
    (r#"{"x":-9223372036854775809}"#, "Fraction"),
    (r#"{"x":1,"x":0.5,"Name":"A","Probe":"TRUE"}"#, "Fraction"),
    (r#"{"x":0.5,} "#, "NotJson"),
    // what is no object
    ("null", "WrongKind"),
    ("true", "WrongKind"),
    ("7", "WrongKind"),
    (r#""Name""#, "WrongKind"),
    ("[]", "WrongKind"),
    (r#"[{"Name":"A","Probe":"TRUE"}]"#, "WrongKind"),
    // names
    ("{}", "MissingKey"),
    (r#"{"Probe":"TRUE"}"#, "MissingKey"),
    (r#"{"name":"A","Probe":"TRUE"}"#, "MissingKey"),
    (r#"{"Name":null}"#, "WrongKind"),
    (r#"{"Name":7,"Probe":"TRUE"}"#, "WrongKind"),
    (r#"{"Name":["A"],"Probe":"TRUE"}"#, "WrongKind"),
    (r#"{"Name":"","Probe":"TRUE"}"#, "OutOfRange"),
    (r#"{"Name":"A","Name":"","Probe":"TRUE"}"#, "OutOfRange"),
    // a name comes before a probe, and a probe before exposes
    (r#"{"Probe":5}"#, "MissingKey"),
    (r#"{"Name":5}"#, "WrongKind"),
    (r#"{"Name":"","Probe":5}"#, "OutOfRange"),
    (r#"{"Name":"","Probe":"AND"}"#, "OutOfRange"),
    (r#"{"Name":"A","Exposes":5}"#, "MissingKey"),
    (r#"{"Name":"A","Probe":5,"Exposes":[{}]}"#, "WrongKind"),
    (r#"{"Name":"A","Probe":[],"Exposes":5}"#, "OutOfRange"),
    // probes that are no texts
    (r#"{"Name":"A"}"#, "MissingKey"),
    (r#"{"Name":"A","Probe":null}"#, "WrongKind"),
    (r#"{"Name":"A","Probe":5}"#, "WrongKind"),
    (r#"{"Name":"A","Probe":true}"#, "WrongKind"),
    (r#"{"Name":"A","Probe":{}}"#, "WrongKind"),
    (r#"{"Name":"A","Probe":[]}"#, "OutOfRange"),
    (r#"{"Name":"A","Probe":["TRUE",5]}"#, "WrongKind"),
    (r#"{"Name":"A","Probe":["?",null]}"#, "WrongKind"),
    (r#"{"Name":"A","Probe":[["TRUE"]]}"#, "WrongKind"),
    // probes that the grammar does not read
    (r#"{"Name":"A","Probe":""}"#, "ProbeSyntax(0)"),
    (r#"{"Name":"A","Probe":"true"}"#, "ProbeSyntax(0)"),
    (r#"{"Name":"A","Probe":"AND"}"#, "ProbeSyntax(0)"),
    (r#"{"Name":"A","Probe":["TRUE","AND"]}"#, "ProbeSyntax(2)"),
    (r#"{"Name":"A","Probe":["TRUE","TRUE"]}"#, "ProbeSyntax(1)"),
    (
        r#"{"Name":"A","Probe":["TRUE","MATCH_ONE","TRUE"]}"#,
        "ProbeSyntax(1)",
    ),
    (
        r#"{"Name":"A","Probe":["TRUE","XOR","?"]}"#,
        "ProbeSyntax(1)",
    ),
    (
        r#"{"Name":"A","Probe":"TRUE","Probe":"AND"}"#,
        "ProbeSyntax(0)",
    ),
    // the grammar comes before exposes, and exposes come before patterns
    (
        r#"{"Name":"A","Probe":"AND","Exposes":5}"#,
        "ProbeSyntax(0)",
    ),
    (
        r#"{"Name":"A","Probe":"xyz.openbmc_project.FruDevice({'BUS': '('})","Exposes":5}"#,
        "WrongKind",
    ),
    // exposes as a whole
    (r#"{"Name":"A","Probe":"TRUE","Exposes":null}"#, "WrongKind"),
    (r#"{"Name":"A","Probe":"TRUE","Exposes":{}}"#, "WrongKind"),
    (
        r#"{"Name":"A","Probe":"TRUE","Exposes":"Mux"}"#,
        "WrongKind",
    ),
    (r#"{"Name":"A","Probe":"TRUE","Exposes":[5]}"#, "WrongKind"),
    (
        r#"{"Name":"A","Probe":"TRUE","Exposes":[null]}"#,
        "WrongKind",
    ),
    (
        r#"{"Name":"A","Probe":"TRUE","Exposes":[{}]}"#,
        "MissingKey",
    ),
    (
        r#"{"Name":"A","Probe":"TRUE","Exposes":[{"Name":"M","Type":"Mux","Channels":[1]},5]}"#,
        "WrongKind",
    ),
    (
        r#"{"Name":"A","Probe":"TRUE","Exposes":[{},5]}"#,
        "MissingKey",
    ),
];

// Documents whose probe ends with MATCH_ONE, or does not, with a channel that moves with the place, or without.
const MATCH_ONE: &[(&str, &str)] = &[
    (
        r#"{"Name":"A","Probe":["TRUE","MATCH_ONE"],"Exposes":[{"Name":"M","Type":"Mux","Channels":["$bus"]}]}"#,
        "MuxMatchOne",
    ),
    (
        r#"{"Name":"A","Probe":["TRUE","MATCH_ONE"],"Exposes":[{"Name":"M","Type":"Mux","Channels":["20",21]},{"Name":"$bus","Type":"Fan"}]}"#,
        "Ok",
    ),
    (
        r#"{"Name":"A","Probe":["TRUE"],"Exposes":[{"Name":"M","Type":"Mux","Channels":["$bus"]}]}"#,
        "Ok",
    ),
    // exposes come before it, and patterns behind it
    (
        r#"{"Name":"A","Probe":["TRUE","MATCH_ONE"],"Exposes":[{"Name":"M","Type":"Mux","Channels":["$bus"]},5]}"#,
        "WrongKind",
    ),
    (
        r#"{"Name":"A","Probe":["xyz.openbmc_project.FruDevice({'B': '('})","MATCH_ONE"],"Exposes":[{"Name":"M","Type":"Mux","Channels":["$bus"]}]}"#,
        "MuxMatchOne",
    ),
];

#[test]
fn first_rules(rt: HostRuntime) -> Result<(), Fail> {
    answers_are_verdicts();
    for &(document, fault) in FAULTS {
        assert_fault(&rt, rt.alloc(), document, fault)?;
    }
    for &(document, fault) in MATCH_ONE {
        assert_fault(&rt, rt.alloc(), document, fault)?;
    }
    Ok(())
}

#[test]
fn texts_in_utf8(rt: HostRuntime) -> Result<(), Fail> {
    let bytes: &[&[u8]] = &[
        b"\xFF",
        b"{\"Name\":\"\xC3\",\"Probe\":\"TRUE\"}",
        b"{\"Name\":\"A\",\"Probe\":\"TRUE\"}\x00",
    ];
    for &document in bytes {
        let given = fault_of(rt.alloc(), document, &mut RegexMaker::new(rt.alloc()))?;
        assert_eq!(rt; given.as_str(), "NotJson", "{document:?}");
    }
    Ok(())
}

// Documents in three parts: the second may stand so often, and the fault when it stands once more.
const LIMITS: &[(&str, &str, &str, usize, &str)] = &[
    (
        r#"{"Name":""#,
        "a",
        r#"","Probe":"TRUE"}"#,
        64,
        "OutOfRange",
    ),
    (
        r#"{"Name":"A","Probe":["TRUE""#,
        r#","OR","TRUE""#,
        "]}",
        16,
        "OutOfRange",
    ),
    (
        r#"{"Name":"A","Probe":"TRUE","Exposes":[{"Type":"Mux","Channels":[1],"Name":""#,
        "a",
        r#""}]}"#,
        128,
        "OutOfRange",
    ),
    (
        r#"{"Name":"A","Probe":"TRUE","Exposes":[{"Name":"M","Type":"Mux","Channels":[0"#,
        ",255",
        "]}]}",
        15,
        "OutOfRange",
    ),
    (
        r#"{"Name":"A","Probe":"TRUE","Exposes":[{"Name":"S","Type":"Sensor","Thresholds":[
            {"Direction":"less than","Severity":1,"Value":-5}"#,
        r#",{"Direction":"less than","Severity":1,"Value":-5}"#,
        "]}]}",
        7,
        "OutOfRange",
    ),
    (
        r#"{"Name":"A","Probe":"TRUE","Exposes":[{"Name":"M","Type":"Mux","Channels":[1]}"#,
        r#",{"Name":"M","Type":"Mux","Channels":[1]}"#,
        "]}",
        255,
        "OutOfRange",
    ),
    // the names of controllers
    (
        r#"{"Name":"A","Probe":"TRUE","Exposes":[{"Name":"P","Type":"Stepwise","Zones":["Z""#,
        r#","Z""#,
        r#"],"Inputs":["S"],"Reading":[0],"Output":[0]}]}"#,
        0,
        "OutOfRange",
    ),
    (
        r#"{"Name":"A","Probe":"TRUE","Exposes":[{"Name":"P","Type":"Stepwise","Zones":["Z"],"Inputs":["S""#,
        r#","S""#,
        r#"],"Reading":[0],"Output":[0]}]}"#,
        15,
        "OutOfRange",
    ),
    (
        r#"{"Name":"A","Probe":"TRUE","Exposes":[{"Name":"P","Type":"Pid","Class":"fan","Zones":["Z"],"Inputs":["S"],"OutLimitMin":0,"OutLimitMax":0,"Outputs":["F""#,
        r#","F""#,
        r#"]}]}"#,
        15,
        "OutOfRange",
    ),
    (
        r#"{"Name":"A","Probe":"TRUE","Exposes":[{"Name":"P","Type":"Stepwise","Inputs":["S"],"Reading":[0],"Output":[0],"Zones":[""#,
        r#"a"#,
        r#""]}]}"#,
        128,
        "OutOfRange",
    ),
    (
        r#"{"Name":"A","Probe":"TRUE","Exposes":[{"Name":"P","Type":"Stepwise","Zones":["Z"],"Reading":[0],"Output":[0],"Inputs":["S",""#,
        r#"a"#,
        r#""]}]}"#,
        128,
        "OutOfRange",
    ),
    (
        r#"{"Name":"A","Probe":"TRUE","Exposes":[{"Name":"P","Type":"Pid","Class":"fan","Zones":["Z"],"Inputs":["S"],"OutLimitMin":0,"OutLimitMax":0,"Outputs":[""#,
        r#"a"#,
        r#""]}]}"#,
        128,
        "OutOfRange",
    ),
];

#[test]
fn limits(rt: HostRuntime) -> Result<(), Fail> {
    let alloc = rt.alloc();
    for &(head, part, tail, most, fault) in LIMITS {
        let parts = repeated(alloc, part, most)?;
        let document = format!(in alloc; "{head}{parts}{tail}")?;
        assert_fault(&rt, alloc, document.as_str(), "Ok")?;
        let document = format!(in alloc; "{head}{part}{parts}{tail}")?;
        assert_fault(&rt, alloc, document.as_str(), fault)?;
    }
    Ok(())
}

#[test]
fn nesting(rt: HostRuntime) -> Result<(), Fail> {
    let alloc = rt.alloc();
    for (times, fault) in [(126, "Ok"), (127, "NotJson"), (10_000, "NotJson")] {
        let opened = repeated(alloc, "[", times)?;
        let closed = repeated(alloc, "]", times)?;
        let document = format!(in alloc; r#"{{"Name":"A","Probe":"TRUE","x":{opened}{closed}}}"#)?;
        assert_fault(&rt, alloc, document.as_str(), fault)?;
    }
    Ok(())
}
