use crate::reading::{fault_of, read};
use bmc_base::{Name, Silent, Text};
use cfg_json::{MOST_CONFIGS, Shelf};
use pat_gate::{ListMaker, PatternMaker};
use std::alloc::Global;
use std::process::Abort;
use std::test::Fail;

// Documents with the name, the number of patterns, and whether the probe ends with `MATCH_ONE`.
const PROBES: &[(&str, &str, usize, bool)] = &[
    (r#"{"Name":"A","Probe":"TRUE"}"#, "A", 0, false),
    (
        " { \"Probe\" : \"FALSE\" ,\n\"Name\" : \"A B\" }\r\n",
        "A B",
        0,
        false,
    ),
    (
        r#"{"Name":"\u00e9\n","Probe":"FOUND('B')"}"#,
        "é\n",
        0,
        false,
    ),
    (
        r#"{"Name":"A","Probe":"TRUE","x":[18446744073709551615,-9223372036854775808,0,null]}"#,
        "A",
        0,
        false,
    ),
    (
        r#"{"x":0.5,"x":1,"Name":"A","Probe":"TRUE"}"#,
        "A",
        0,
        false,
    ),
    (
        r#"{"Name":0.5,"Name":"","Name":"B","Probe":5,"Probe":"TRUE","Exposes":5,"Exposes":[]}"#,
        "B",
        0,
        false,
    ),
    (
        r#"{"Name":"A","Probe":"TRUE","exposes":5,"Type":5}"#,
        "A",
        0,
        false,
    ),
    (r#"{"Name":"A","Probe":["TRUE","MATCH_ONE"]}"#, "A", 0, true),
    (
        r#"{"Name":"A","Probe":"xyz.openbmc_project.FruDevice({'BOARD_PRODUCT_NAME': '^RSR[12]$', 'BUS': 5})"}"#,
        "A",
        1,
        false,
    ),
    (
        r#"{"Name":"A","Probe":["xyz.openbmc_project.FruDevice({'BUS': 1})","OR","xyz.openbmc_project.FruDevice({'BUS': '2'})","MATCH_ONE"]}"#,
        "A",
        2,
        true,
    ),
];

#[test]
fn configurations(rt: HostRuntime) -> Result<(), Fail> {
    for &(document, name, patterns, match_one) in PROBES {
        let config = read(rt.alloc(), document.as_bytes())?;
        assert_eq!(rt; config.name().as_str(), name, "{document}");
        assert_eq!(rt; config.patterns().len(), patterns, "{document}");
        assert_eq!(rt; config.probe().match_one(), match_one, "{document}");
        assert!(rt; config.exposes().is_empty(), "{document}");
    }
    Ok(())
}

// The members of two patterns, the fault of a document that has both, and the text that is too large.
const PATTERNS: &[(&str, &str, &str, &str)] = &[
    ("'B': 'RSR'", "'B': 1", "Ok", ""),
    (
        "'B': '('",
        "'B': 'RSR'",
        r#"PatternSyntax(Text { text: "(" })"#,
        "",
    ),
    (
        "'B': 'RSR'",
        "'B': '['",
        r#"PatternSyntax(Text { text: "[" })"#,
        "",
    ),
    (
        "'B': 'HUGE'",
        "'B': 'RSR'",
        r#"PatternTooLarge(Text { text: "HUGE" })"#,
        "HUGE",
    ),
    (
        "'B': 'RSR'",
        "'B': 'WIDE'",
        r#"PatternTooLarge(Text { text: "WIDE" })"#,
        "WIDE",
    ),
    // the first text counts: by the order of the probe, and by the keys of one pattern
    (
        "'B': '('",
        "'B': 'HUGE'",
        r#"PatternSyntax(Text { text: "(" })"#,
        "",
    ),
    (
        "'B': 'HUGE'",
        "'B': '('",
        r#"PatternTooLarge(Text { text: "HUGE" })"#,
        "HUGE",
    ),
    (
        "'B': '(', 'A': 'HUGE'",
        "'B': 1",
        r#"PatternTooLarge(Text { text: "HUGE" })"#,
        "HUGE",
    ),
    (
        "'B': 'HUGE', 'A': '('",
        "'B': 1",
        r#"PatternSyntax(Text { text: "(" })"#,
        "",
    ),
];

// A document with two patterns of these members.
fn with_patterns(alloc: Global, first: &str, second: &str) -> Result<String, Fail> {
    let head = "xyz.openbmc_project.FruDevice";
    Ok(format!(in alloc;
        r#"{{"Name":"A","Probe":["{head}({{{first}}})","OR","{head}({{{second}}})"]}}"#
    )?)
}

// Whether this text alone was refused, or none where it is empty.
fn is_refused(refused: &[Text], wanted: &str) -> bool {
    match refused {
        [] => wanted.is_empty(),
        [text] => text.as_str() == wanted,
        _ => false,
    }
}

#[test]
fn patterns(rt: HostRuntime) -> Result<(), Fail> {
    let alloc = rt.alloc();
    for &(first, second, fault, refused) in PATTERNS {
        let mut maker = ListMaker::new(alloc, &["HUGE", "WIDE"])?;
        let document = with_patterns(alloc, first, second)?;
        let given = fault_of(alloc, document.as_bytes(), &mut maker)?;
        assert_eq!(rt; given.as_str(), fault, "{document}");
        assert!(rt; is_refused(maker.refused(), refused), "{document}");
    }
    Ok(())
}

// The configuration of this number, put on the shelf.
fn add(
    rt: &impl Abort,
    alloc: Global,
    shelf: &mut Shelf<Silent>,
    number: usize,
) -> Result<(), Fail> {
    let document = format!(in alloc; r#"{{"Name":"Board {number}","Probe":"TRUE"}}"#)?;
    let config = read(alloc, document.as_bytes())?;
    assert!(rt; shelf.position(&config.name()).is_none());
    assert_eq!(rt; shelf.len(), number);
    assert!(rt; shelf.len() < MOST_CONFIGS);
    shelf.add(alloc, config)?;
    Ok(())
}

#[test]
fn shelves(rt: HostRuntime) -> Result<(), Fail> {
    let mut shelf = Shelf::new(rt.alloc())?;
    assert_eq!(rt; shelf.len(), 0);
    assert!(rt; shelf.at(0).is_none());
    for number in 0..MOST_CONFIGS {
        add(&rt, rt.alloc(), &mut shelf, number)?;
    }
    assert_eq!(rt; shelf.len(), MOST_CONFIGS);
    for number in 0..MOST_CONFIGS {
        let text = format!(in rt.alloc(); "Board {number}")?;
        let name = Name::new(text.as_str())?;
        assert_eq!(rt; shelf.position(&name), Some(number));
        match shelf.at(number) {
            Some(config) => assert_eq!(rt; config.name().as_str(), text.as_str()),
            None => assert!(rt; false, "{number}"),
        }
    }
    assert!(rt; shelf.at(MOST_CONFIGS).is_none());
    assert_eq!(rt; shelf.position(&Name::new("Board")?), None);
    Ok(())
}
