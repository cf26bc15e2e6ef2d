use crate::{PatternTexts, Probe, ProbeFault, Want, Word};
use bmc_base::Silent;
use std::alloc::Global;
use std::process::Abort;
use std::test::Fail;

// The words, each with a space behind it: a pattern by its number, and a configuration by its name.
fn written_words(alloc: Global, probe: &Probe<Silent>) -> Result<String, Fail> {
    let mut out = String::new(alloc);
    for word in probe.words().as_slice() {
        match word {
            Word::Always => out.push_str("TRUE ")?,
            Word::Never => out.push_str("FALSE ")?,
            Word::And => out.push_str("AND ")?,
            Word::Or => out.push_str("OR ")?,
            Word::Found(name) => {
                out.push_str(format!(in alloc; "'{}' ", name.as_str())?.as_str())?
            }
            Word::Fru(number) => out.push_str(format!(in alloc; "{number} ")?.as_str())?,
        }
    }
    if probe.match_one() {
        out.push_str("ONE ")?;
    }
    Ok(out)
}

// The patterns by number, each with its members in brackets.
fn written_patterns(alloc: Global, patterns: &PatternTexts) -> Result<String, Fail> {
    let mut out = String::new(alloc);
    for pattern in patterns.as_slice() {
        out.push('[')?;
        for member in pattern.as_slice() {
            out.push_str(member.key.as_str())?;
            match &member.want {
                Want::Pattern(text) => {
                    out.push_str(format!(in alloc; "~{};", text.as_str())?.as_str())?
                }
                Want::Number(number) => { out.push_str(format!(in alloc; "={number};")?.as_str())? }
            }
        }
        out.push(']')?;
    }
    Ok(out)
}

fn assert_read(
    rt: &impl Abort,
    alloc: Global,
    texts: &[&str],
    words: &str,
    patterns: &str,
) -> Result<(), Fail> {
    assert!(rt; texts.len() <= 33);
    match Probe::<Silent>::parse(alloc, texts) {
        Ok((probe, read)) => {
            assert_eq!(rt; written_words(alloc, &probe)?.as_str(), words, "{texts:?}");
            assert_eq!(rt;
                written_patterns(alloc, &read)?.as_str(),
                patterns,
                "{texts:?}"
            );
        }
        Err(fault) => assert!(rt; false, "{texts:?}: {fault}"),
    }
    Ok(())
}

fn assert_refused(rt: &impl Abort, alloc: Global, texts: &[&str], at: u32) {
    assert!(rt; texts.len() <= 33);
    let given = Probe::<Silent>::parse(alloc, texts).err();
    assert_eq!(rt; given, Some(ProbeFault::ProbeSyntax(at)), "{texts:?}");
}

#[test]
fn probes(rt: HostRuntime) -> Result<(), Fail> {
    let rows: &[(&[&str], &str, &str)] = &[
        (&["TRUE"], "TRUE ", ""),
        (&["  FALSE "], "FALSE ", ""),
        (&["FOUND('A B')"], "'A B' ", ""),
        (&[" FOUND(' é ')  "], "' é ' ", ""),
        (&["FOUND('A')", "AND", "FOUND('B')"], "'A' AND 'B' ", ""),
        (
            &["FALSE", " OR ", "TRUE", "MATCH_ONE"],
            "FALSE OR TRUE ONE ",
            "",
        ),
        (&["TRUE", " MATCH_ONE  "], "TRUE ONE ", ""),
        (&["xyz.openbmc_project.FruDevice({})"], "0 ", "[]"),
        (
            &[" xyz.openbmc_project.FruDevice({'BUS': 5}) ", "MATCH_ONE"],
            "0 ONE ",
            "[BUS=5;]",
        ),
        (
            &[
                "xyz.openbmc_project.FruDevice({ 'B' : 'x.*' , 'A':'y'})",
                "OR",
                "TRUE",
                "AND",
                "xyz.openbmc_project.FruDevice({'BUS':1})",
            ],
            "0 OR TRUE AND 1 ",
            "[A~y;B~x.*;][BUS=1;]",
        ),
        (
            &[
                "TRUE",
                "AND",
                "xyz.openbmc_project.FruDevice({'A': ''})",
                "OR",
                "FALSE",
            ],
            "TRUE AND 0 OR FALSE ",
            "[A~;]",
        ),
        (
            &[
                "xyz.openbmc_project.FruDevice({})",
                "AND",
                "xyz.openbmc_project.FruDevice({})",
                "AND",
                "xyz.openbmc_project.FruDevice({})",
            ],
            "0 AND 1 AND 2 ",
            "[][][]",
        ),
    ];
    for &(texts, words, patterns) in rows {
        assert_read(&rt, rt.alloc(), texts, words, patterns)?;
    }
    Ok(())
}

#[test]
fn words_in_wrong_places(rt: HostRuntime) {
    let rows: &[(&[&str], u32)] = &[
        (&[], 0),
        (&["AND"], 0),
        (&["MATCH_ONE"], 0),
        (&["OR", "TRUE"], 0),
        (&["MATCH_ONE", "TRUE"], 0),
        (&["TRUE", "TRUE"], 1),
        (&["TRUE", "xyz.openbmc_project.FruDevice({})"], 1),
        (&["xyz.openbmc_project.FruDevice({})", "FOUND('A')"], 1),
        (&["TRUE", "MATCH_ONE", "AND", "TRUE"], 1),
        (&["TRUE", "MATCH_ONE", "MATCH_ONE"], 1),
        (&["TRUE", "AND"], 2),
        (&["TRUE", "AND", "OR"], 2),
        (&["TRUE", "AND", "MATCH_ONE"], 2),
        (&["TRUE", "OR", "FALSE", "OR"], 4),
        (&["TRUE", "TRUE", "true"], 1),
        (&["TRUE", "AND", "TRUE", "FALSE", "AND"], 3),
    ];
    for &(texts, at) in rows {
        assert_refused(&rt, rt.alloc(), texts, at);
    }
}

#[test]
fn texts_that_are_no_word(rt: HostRuntime) {
    let words = &[
        "",
        " ",
        "true",
        "TRUE AND",
        "TRUE\t",
        "\nTRUE",
        "\u{A0}TRUE",
        "NOT",
        "MATCH ONE",
        "FOUND('')",
        "FOUND('a'b')",
        "FOUND(''')",
        "FOUND(')",
        "FOUND('A'",
        "FOUND( 'A')",
        "FOUND(\"A\")",
        "FOUND ('A')",
        "Found('A')",
        "xyz.openbmc_project.FruDevice()",
        "xyz.openbmc_project.FruDevice({)",
        "xyz.openbmc_project.FruDevice( {})",
        "xyz.openbmc_project.FruDevice({} )",
        "xyz.openbmc_project.FruDevice ({})",
        "xyz.openbmc_project.FruDevice({}) x",
        "xyz.openbmc_project.FruDevice([])",
        "xyz.openbmc_project.Inventory({})",
        "FruDevice({})",
    ];
    for &word in words {
        assert_refused(&rt, rt.alloc(), &[word], 0);
        assert_refused(&rt, rt.alloc(), &["TRUE", word, "TRUE"], 1);
        assert_refused(&rt, rt.alloc(), &["TRUE", "AND", word, "MATCH_ONE"], 2);
    }
}

// The word of a pattern with this between its braces.
fn pattern(alloc: Global, inner: &str) -> Result<String, Fail> {
    Ok(format!(in alloc; "xyz.openbmc_project.FruDevice({{{inner}}})")?)
}

#[test]
fn members(rt: HostRuntime) -> Result<(), Fail> {
    let rows = &[
        (r"'A': '\d+'", r"[A~\d+;]"),
        (r"'A': '\\'", r"[A~\\;]"),
        (r"'A': '\n'", r"[A~\n;]"),
        (r"'É': 'é'", "[É~é;]"),
        ("'A': 'a b '", "[A~a b ;]"),
        ("'': ''", "[~;]"),
        ("'A': 5", "[A=5;]"),
        ("'A': -5", "[A=-5;]"),
        ("'A': 0", "[A=0;]"),
        ("'A': 18446744073709551615", "[A=18446744073709551615;]"),
        ("'A': -9223372036854775808", "[A=-9223372036854775808;]"),
        ("'A': 1, 'A': 2", "[A=2;]"),
        ("'A': null, 'A': 'x'", "[A~x;]"),
        ("'b': 1, 'B': 2, 'a': 3", "[B=2;a=3;b=1;]"),
        ("\"A\": \"x\"", "[A~x;]"),
        ("'A': '})({'", "[A~})({;]"),
    ];
    for &(inner, members) in rows {
        let word = pattern(rt.alloc(), inner)?;
        assert_read(&rt, rt.alloc(), &[word.as_str()], "0 ", members)?;
    }
    Ok(())
}

#[test]
fn wrong_members(rt: HostRuntime) -> Result<(), Fail> {
    let rows = &[
        "'A'",
        "'A': ",
        "'A': 1,",
        "'A': 1 'B': 2",
        "A: 1",
        "'A': 1.0",
        "'A': 1e2",
        "'A': -0",
        "'A': 01",
        "'A': 99999999999999999999",
        "'A': -9223372036854775809",
        "'A': true",
        "'A': null",
        "'A': ['x']",
        "'A': {}",
        "'A': 'x', 'A': null",
        "'A': 'it's'",
        "'A': 1}, {'B': 2",
        "'A': 1} {",
    ];
    for &inner in rows {
        let word = pattern(rt.alloc(), inner)?;
        assert_refused(&rt, rt.alloc(), &[word.as_str()], 0);
    }
    Ok(())
}

// A text again and again.
fn repeated(alloc: Global, text: &str, times: usize) -> Result<String, Fail> {
    let mut out = String::new(alloc);
    for _ in 0..times {
        out.push_str(text)?;
    }
    Ok(out)
}

// FOUND with a name of so many bytes.
fn found(alloc: Global, bytes: usize) -> Result<String, Fail> {
    let name = repeated(alloc, "n", bytes)?;
    Ok(format!(in alloc; "FOUND('{name}')")?)
}

// A pattern whose member wants a text of twice so many bytes.
fn wanting(alloc: Global, characters: usize) -> Result<String, Fail> {
    let text = repeated(alloc, "é", characters)?;
    pattern(alloc, format!(in alloc; "'A': '{text}'")?.as_str())
}

// A pattern of so many keys and one more; all but that one stand twice.
fn keyed(alloc: Global, keys: usize) -> Result<String, Fail> {
    let mut members = String::new(alloc);
    for key in 0..keys {
        members.push_str(format!(in alloc; "'{key}': null, '{key}': {key}, ")?.as_str())?;
    }
    pattern(alloc, format!(in alloc; "{members}'Z': ''")?.as_str())
}

#[test]
fn limits(rt: HostRuntime) -> Result<(), Fail> {
    let alloc = rt.alloc();
    let rows = [
        (found(alloc, 64)?, true),
        (found(alloc, 65)?, false),
        (wanting(alloc, 128)?, true),
        (wanting(alloc, 129)?, false),
        (keyed(alloc, 15)?, true),
        (keyed(alloc, 16)?, false),
    ];
    for (word, reads) in rows {
        let given = Probe::<Silent>::parse(alloc, &[word.as_str()]).err();
        assert_eq!(rt; given.is_none(), reads, "{word}");
    }
    Ok(())
}

#[test]
fn longest_probe(rt: HostRuntime) -> Result<(), Fail> {
    let word = "xyz.openbmc_project.FruDevice({})";
    let texts = [
        word, "AND", word, "AND", word, "AND", word, "AND", word, "AND", word, "AND", word, "AND",
        word, "AND", word, "AND", word, "AND", word, "AND", word, "AND", word, "AND", word, "AND",
        word, "AND", word, "AND", word,
    ];
    let words =
        "0 AND 1 AND 2 AND 3 AND 4 AND 5 AND 6 AND 7 AND 8 AND 9 AND 10 AND 11 AND 12 AND 13 AND 14 AND 15 AND 16 ";
    let patterns = repeated(rt.alloc(), "[]", 17)?;
    assert_read(&rt, rt.alloc(), &texts, words, patterns.as_str())?;
    assert_refused(&rt, rt.alloc(), &texts[..32], 32);
    assert_refused(&rt, rt.alloc(), &texts[1..], 0);
    Ok(())
}
