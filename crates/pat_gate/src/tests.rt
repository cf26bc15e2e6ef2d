use crate::{Compiled, ListMaker, MakeFault, PatternMaker, RegexMaker};
use bmc_base::Text;
use std::alloc::Global;
use std::process::Abort;
use std::test::Fail;

// Plain patterns, texts, and whether Python's `re.search` finds the one in the other.
const PLAIN: &[(&str, &str, bool)] = &[
    ("RSR", "XRSR1", true),
    ("RSR", "RSR", true),
    ("RSR", "RS", false),
    ("RSR", "rsr", false),
    ("RSR", "", false),
    ("RSR", "RRSR", true),
    ("RSR", "RS-RSR", true),
    ("Riser 1", "Yosemite Riser 1 Board", true),
    ("S2600-BP", "Intel S2600-BP", true),
    ("A]}~#&", "xA]}~#&y", true),
    ("a", "äa", true),
    ("b", "äö", false),
    ("x_9", "X_9x_9", true),
    // behind `^`
    ("^RSR", "RSR1", true),
    ("^RSR", "XRSR1", false),
    ("^RSR", "RSR", true),
    ("^RSR", "RS", false),
    ("^RSR", "", false),
    ("^a", "aäa", true),
    ("^a", "äa", false),
    // before `$`
    ("RSR$", "XRSR", true),
    ("RSR$", "RSR1", false),
    ("RSR$", "RSR", true),
    ("RSR$", "SR", false),
    ("RSR$", "RSR RSR", true),
    ("1$", "ä1", true),
    // between both
    ("^RSR1$", "RSR1", true),
    ("^RSR1$", "RSR12", false),
    ("^RSR1$", "XRSR1", false),
    ("^RSR1$", "", false),
    ("^RSR1$", "RSR1RSR1", false),
];

// The same of patterns with operators.
const OTHERS: &[(&str, &str, bool)] = &[
    // no characters of their own
    ("", "", true),
    ("", "any", true),
    ("^", "any", true),
    ("$", "any", true),
    ("^$", "", true),
    ("^$", "any", false),
    ("$^", "", true),
    ("$^", "any", false),
    // `^` and `$` elsewhere, twice and escaped
    ("a^b", "a^b", false),
    ("a$b", "a$b", false),
    ("^^a", "ab", true),
    ("^^a", "ba", false),
    ("a$$", "ba", true),
    ("a$$", "ab", false),
    ("\\^a", "^a", true),
    ("a\\$", "a$", true),
    ("a\\$", "a", false),
    // any character
    ("R.R", "RSR", true),
    ("R.R", "RR", false),
    ("R\\.R", "RSR", false),
    ("R\\.R", "R.R", true),
    ("a.b", "aäb", true),
    ("a.b", "a\nb", false),
    // repetitions
    ("ab*c", "ac", true),
    ("ab+c", "ac", false),
    ("ab?c", "abbc", false),
    ("^ab{2,3}$", "abbb", true),
    ("^ab{2,3}$", "ab", false),
    ("^ab{2}$", "abbb", false),
    ("^(ab){2,}$", "ababab", true),
    ("a+?b", "aab", true),
    // alternatives
    ("RSR1|RSR2", "XRSR2", true),
    ("^RSR1|RSR2$", "RSR1X", true),
    ("^(RSR1|RSR2)$", "RSR1X", false),
    ("^(?:RSR1|RSR2)$", "RSR2", true),
    // classes
    ("[A-C]1", "B1", true),
    ("[A-C]1", "D1", false),
    ("[^A-C]1", "B1", false),
    ("[^A-C]1", "D1", true),
    ("[0-9]{3}", "R12", false),
    ("[0-9]{3}", "R123", true),
    ("[-x]", "a-b", true),
    ("^\\d+$", "2026", true),
    ("^\\d+$", "20x6", false),
    ("\\bRSR\\b", "a RSR b", true),
    ("\\bRSR\\b", "aRSR", false),
    ("^\\s*$", " \t ", true),
    // flags and groups
    ("(?i)rsr", "XRSR1", true),
    ("(?i)^rsr$", "RsR", true),
    ("(?i)rsr", "RS", false),
    ("^(?P<a>x)(?P<b>y)?$", "x", true),
    // texts that are not ASCII
    ("x*", "äö", true),
    ("^x*$", "äö", false),
    ("x*$", "äö", true),
    ("^(?:ä|)$", "ä", true),
    ("\\B", "ä", false),
    ("\\B", "äö", true),
    ("\\bä", "a ä", true),
    ("\\bb", "äb", false),
    ("ä\\b", "ä-", true),
    ("^\\w+$", "äö1", true),
    ("^\\W+$", "äö1", false),
    ("(?i)^äÖ$", "Äö", true),
    ("^[ä-ü]{2}$", "äö", true),
    ("^..$", "äö", true),
];

// The same of patterns with operators and `^`.
const AT_START: &[(&str, &str, bool)] = &[
    // with operators behind
    ("^R.R", "RSR1", true),
    ("^R.R", "XRSR", false),
    ("^R.R", "RS", false),
    ("^R.R", "", false),
    ("^a*b", "aabc", true),
    ("^a*b", "caab", false),
    ("^(?:a|b)c", "bca", true),
    ("^(?:a|b)c", "abc", false),
    ("^[äö]b", "äb", true),
    ("^[äö]b", "aäb", false),
    ("^.b", "äb", true),
    ("^.b", "aäb", false),
    ("^.b", "äöü", false),
    ("^\\b", "ä", true),
    ("^\\b", " ä", false),
    ("\\Aab", "abc", true),
    ("\\Aab", "xab", false),
    ("\\Aab", "äab", false),
    // alone, twice, and behind what may be empty
    ("^", "", true),
    ("^", "ä", true),
    ("^^", "äö", true),
    ("a?^b", "b", true),
    ("a?^b", "ab", false),
    ("(?:^)+a", "ab", true),
    ("(?:^)+a", "ba", false),
    ("^a|^ä", "äb", true),
    ("^a|^ä", "bä", false),
    // not in each match
    ("^a|b", "xb", true),
    ("^a|b", "ab", true),
    ("^a|b", "äb", true),
    ("^a|b", "xa", false),
    ("(?:^a)?b", "äb", true),
    ("(?:^a)?b", "xa", false),
    ("(?:^)*a", "ba", true),
    // at the start of a line
    ("(?m)^a", "b\na", true),
    ("(?m)^a", "ä\na", true),
    ("(?m)^a", "ba", false),
    ("(?m)^ä$", "a\nä\n", true),
];

// The same where Python differs, by the documentation of the regex crate.
const DOCUMENTED: &[(&str, &str, bool)] = &[
    ("RSR$", "RSR\n", false),
    ("^RSR$", "RSR\n", false),
    ("R.R$", "RSR\n", false),
    ("\\ARSR\\z", "RSR", true),
    ("\\ARSR\\z", "RSR\n", false),
    ("^\\p{Greek}+$", "αβγ", true),
    ("^\\p{Greek}+$", "abc", false),
    ("^[[:alpha:]]+$", "RSR", true),
    ("[a-y&&[^xyz]]", "xyz", false),
    ("(?x) R S R # a riser", "RSR1", true),
    ("(?i)k", "\u{212A}", true),
    ("(?s)a.b", "a\nb", true),
    ("\\p{Lu}$", "aÄ", true),
    ("\\p{Lu}$", "Aä", false),
    // an empty match inside a character is none
    ("(?-u:\\B)", "aäb", false),
    ("(?-u:\\B)", "aä b", true),
    ("(?-u:\\B|ä)", "aäb", true),
    ("^(?-u:\\B)", "ä", true),
    ("^(?-u:\\B)", "aä", false),
];

// Texts of which the regex crate says that they are no patterns.
const BAD: &[&str] = &[
    "(",
    ")",
    "RSR)",
    "[",
    "[b-a]",
    "*",
    "a|*",
    "a{",
    "a{2,1}",
    "{,3}",
    "\\",
    "\\1",
    "\\pX",
    "(?=a)",
    "(?!a)",
    "(?<=a)",
    "(?z)",
    "(?P<n>a)(?P<n>b)",
];

// A repetition that no compiled pattern has room for.
const HUGE: &str = "(?:RSR[12]){4294967295}";

fn found<M: PatternMaker>(
    alloc: Global,
    maker: &mut M,
    pattern: &str,
    text: &str,
) -> Result<bool, MakeFault> {
    let compiled = maker.compile(alloc, pattern)?;
    Ok(compiled.found_in(alloc, text)?)
}

fn are_texts(texts: &[Text], wanted: &[&str]) -> bool {
    texts.len() == wanted.len()
        && texts
            .iter()
            .zip(wanted)
            .all(|(text, wanted)| text.as_str() == *wanted)
}

fn assert_found(rt: &impl Abort, alloc: Global, rows: &[(&str, &str, bool)]) {
    let mut maker = RegexMaker::new(alloc);
    for (pattern, text, wanted) in rows {
        let found = found(alloc, &mut maker, pattern, text);
        assert_eq!(rt; found, Ok(*wanted), "{pattern} in {text}");
    }
    assert!(rt; maker.refused().is_empty());
}

#[test]
fn finds_plain_patterns(rt: HostRuntime) {
    assert_found(&rt, rt.alloc(), PLAIN);
}

#[test]
fn finds_other_patterns(rt: HostRuntime) {
    assert_found(&rt, rt.alloc(), OTHERS);
}

#[test]
fn finds_patterns_at_the_start(rt: HostRuntime) {
    assert_found(&rt, rt.alloc(), AT_START);
}

#[test]
fn finds_what_the_documentation_says(rt: HostRuntime) {
    assert_found(&rt, rt.alloc(), DOCUMENTED);
}

#[test]
fn refuses_what_is_no_pattern(rt: HostRuntime) {
    let mut maker = RegexMaker::new(rt.alloc());
    for &text in BAD {
        assert_eq!(rt;
            found(rt.alloc(), &mut maker, text, ""),
            Err(MakeFault::PatternSyntax),
            "{text}"
        );
    }
    assert!(rt; maker.refused().is_empty());
}

// So many groups, each in another.
fn nested(alloc: Global, groups: usize) -> Result<String, Fail> {
    let mut text = String::new(alloc);
    for _ in 0..groups {
        text.push('(')?;
    }
    for _ in 0..groups {
        text.push(')')?;
    }
    Ok(text)
}

#[test]
fn groups_nest_up_to_a_limit(rt: HostRuntime) -> Result<(), Fail> {
    let alloc = rt.alloc();
    let mut maker = RegexMaker::new(alloc);
    let deepest = nested(alloc, 250)?;
    assert_eq!(rt; found(alloc, &mut maker, deepest.as_str(), ""), Ok(true));
    let deeper = nested(alloc, 251)?;
    assert_eq!(rt;
        found(alloc, &mut maker, deeper.as_str(), ""),
        Err(MakeFault::PatternSyntax)
    );
    Ok(())
}

#[test]
fn a_maker_counts_what_is_too_large_alone(rt: HostRuntime) {
    let alloc = rt.alloc();
    let mut maker = RegexMaker::new(alloc);
    let rows: &[(&str, Result<bool, MakeFault>, &[&str])] = &[
        ("(RSR1)", Ok(true), &[]),
        (HUGE, Err(MakeFault::PatternTooLarge), &[HUGE]),
        ("(", Err(MakeFault::PatternSyntax), &[HUGE]),
        ("^RSR1$", Ok(true), &[HUGE]),
        (HUGE, Err(MakeFault::PatternTooLarge), &[HUGE, HUGE]),
    ];
    for &(pattern, wanted, refused) in rows {
        assert_eq!(rt;
            found(alloc, &mut maker, pattern, "RSR1"),
            wanted,
            "{pattern}"
        );
        assert!(rt; are_texts(maker.refused(), refused), "after {pattern}");
    }
}

#[test]
fn a_list_is_refused(rt: HostRuntime) -> Result<(), Fail> {
    let alloc = rt.alloc();
    let mut maker = ListMaker::new(alloc, &["^RSR1$", "("])?;
    let rows: &[(&str, Result<bool, MakeFault>, &[&str])] = &[
        ("RSR1", Ok(true), &[]),
        ("^RSR1$", Err(MakeFault::PatternTooLarge), &["^RSR1$"]),
        ("(", Err(MakeFault::PatternTooLarge), &["^RSR1$", "("]),
        ("[", Err(MakeFault::PatternSyntax), &["^RSR1$", "("]),
        ("RSR[12]", Ok(true), &["^RSR1$", "("]),
        (
            HUGE,
            Err(MakeFault::PatternTooLarge),
            &["^RSR1$", "(", HUGE],
        ),
    ];
    for &(pattern, wanted, refused) in rows {
        assert_eq!(rt;
            found(alloc, &mut maker, pattern, "RSR1"),
            wanted,
            "{pattern}"
        );
        assert!(rt; are_texts(maker.refused(), refused), "after {pattern}");
    }
    Ok(())
}

// Whether a pattern is found in each of the texts.
fn found_in_all(alloc: Global, pattern: &Compiled, texts: &[&str]) -> Result<bool, Fail> {
    for text in texts {
        if !pattern.found_in(alloc, text)? {
            return Ok(false);
        }
    }
    Ok(true)
}

#[test]
fn a_pattern_is_matched_again(rt: HostRuntime) -> Result<(), Fail> {
    let alloc = rt.alloc();
    let mut maker = RegexMaker::new(alloc);
    let pattern = maker.compile(alloc, "^RSR[12]")?;
    assert!(rt; found_in_all(alloc, &pattern, &["RSR1", "RSR2", "RSR1 "])?);
    assert!(rt; !found_in_all(alloc, &pattern, &["RSR1", "RSR3", "RSR1"])?);
    Ok(())
}

// A text of so many letters, each `a` or `b`, with no plan in them.
fn letters(alloc: Global, count: usize) -> Result<String, Fail> {
    let mut text = String::new(alloc);
    let mut seed = 1u32;
    for _ in 0..count {
        seed = seed.wrapping_mul(1_103_515_245).wrapping_add(12_345);
        text.push(if seed & 0x1_0000 == 0 { 'a' } else { 'b' })?;
    }
    Ok(text)
}

#[test]
fn a_pattern_is_matched_many_times(rt: HostRuntime) -> Result<(), Fail> {
    let alloc = rt.alloc();
    let mut maker = RegexMaker::new(alloc);
    let pattern = maker.compile(alloc, "a[ab]{3}$")?;
    let text = letters(alloc, 2000)?;
    for end in 4..text.len() {
        let wanted = text.as_bytes().get(end - 4) == Some(&b'a');
        let found = pattern.found_in(alloc, text.get(..end).unwrap_or(""))?;
        assert_eq!(rt; found, wanted, "up to {end}");
    }
    Ok(())
}

// The DFA of this pattern has 2^17 states, so it gives up in so long a text.
#[test]
fn a_search_goes_on_without_its_dfa(rt: HostRuntime) -> Result<(), Fail> {
    let alloc = rt.alloc();
    let mut maker = RegexMaker::new(alloc);
    let pattern = maker.compile(alloc, "a[ab]{16}$")?;
    let text = letters(alloc, 100_000)?;
    for end in [90_000, 90_001, 90_002, 90_003, 100_000usize] {
        let wanted = text.as_bytes().get(end - 17) == Some(&b'a');
        let found = pattern.found_in(alloc, text.get(..end).unwrap_or(""))?;
        assert_eq!(rt; found, wanted, "up to {end}");
    }
    Ok(())
}
