use crate::Settings;
use std::alloc::Global;
use std::fmt::Write;
use std::process::Abort;
use std::test::Fail;

// Each row has the words, with a space between two of them and '' for the empty one, and what is
// read of them: the flag, the cap, the seed or `-`, and each name in brackets. The expected values
// are what the documents of the Rust crate clap 4 say of such a command, whose options have the
// parser `value_parser!(u64).range(..)`.

const FLAGS: &[(&str, &str)] = &[
    ("", "false 200 -"),
    ("--strict", "true 200 -"),
    ("--strict --strict", "usage"),
    ("--strict a.json --strict", "usage"),
    ("--strict=true", "usage"),
    ("--strict=false", "usage"),
    ("--strict=", "usage"),
    ("--strict true", "true 200 - [true]"),
    ("strict", "false 200 - [strict]"),
    ("-strict", "usage"),
    ("---strict", "usage"),
    ("--STRICT", "usage"),
    ("--stri", "usage"),
    ("--strictly", "usage"),
    ("--no-strict", "usage"),
    ("-s", "usage"),
    ("--fast", "usage"),
    ("--fast=1", "usage"),
    ("--=1", "usage"),
    ("--help", "usage"),
    ("-h", "usage"),
    ("--help=all", "usage"),
    ("--strict --help", "usage"),
    ("a.json -h", "usage"),
    ("--hel", "usage"),
    ("help", "false 200 - [help]"),
    ("--version", "usage"),
    ("-V", "usage"),
    ("--strict a.json", "true 200 - [a.json]"),
    ("a.json --strict", "true 200 - [a.json]"),
    ("a.json --strict b.json", "true 200 - [a.json] [b.json]"),
    ("-- --strict", "false 200 - [--strict]"),
    ("--strict -- --strict", "true 200 - [--strict]"),
];

const CAPS: &[(&str, &str)] = &[
    ("--log-cap 5", "false 5 -"),
    ("--log-cap=5", "false 5 -"),
    ("--log-cap 1", "false 1 -"),
    ("--log-cap 1000", "false 1000 -"),
    ("--log-cap=1000", "false 1000 -"),
    ("--log-cap 0", "usage"),
    ("--log-cap=0", "usage"),
    ("--log-cap 1001", "usage"),
    ("--log-cap=1001", "usage"),
    ("--log-cap 200", "false 200 -"),
    ("--log-cap +5", "false 5 -"),
    ("--log-cap=+1000", "false 1000 -"),
    ("--log-cap 007", "false 7 -"),
    ("--log-cap +0001000", "false 1000 -"),
    ("--log-cap 000", "usage"),
    ("--log-cap 5 --log-cap 5", "usage"),
    ("--log-cap=5 a.json --log-cap=6", "usage"),
    ("--log-cap 5 6", "false 5 - [6]"),
    ("--log-cap=5 6", "false 5 - [6]"),
    ("6 --log-cap 5", "false 5 - [6]"),
    ("a.json --log-cap 5 b.json", "false 5 - [a.json] [b.json]"),
    ("--log-cap 5 --strict", "true 5 -"),
    ("--strict --log-cap=5", "true 5 -"),
    ("-- --log-cap 5", "false 200 - [--log-cap] [5]"),
    ("--log-cap 5 --", "false 5 -"),
    ("--log-cap 5 -- --log-cap", "false 5 - [--log-cap]"),
    ("--log_cap 5", "usage"),
    ("--log-ca 5", "usage"),
    ("--log-cap5", "usage"),
    ("-l 5", "usage"),
];

const NO_CAPS: &[(&str, &str)] = &[
    ("--log-cap", "usage"),
    ("a.json --log-cap", "usage"),
    ("--log-cap=", "usage"),
    ("--log-cap ''", "usage"),
    ("--log-cap --strict", "usage"),
    ("--log-cap --", "usage"),
    ("--log-cap -- 5", "usage"),
    ("--log-cap -", "usage"),
    ("--log-cap +", "usage"),
    ("--log-cap ++5", "usage"),
    ("--log-cap -5", "usage"),
    ("--log-cap=-5", "usage"),
    ("--log-cap -0", "usage"),
    ("--log-cap=-0", "usage"),
    ("--log-cap 5.0", "usage"),
    ("--log-cap 1e2", "usage"),
    ("--log-cap 0x10", "usage"),
    ("--log-cap 1,000", "usage"),
    ("--log-cap 1_000", "usage"),
    ("--log-cap five", "usage"),
    ("--log-cap 5a", "usage"),
    ("--log-cap=5=5", "usage"),
    ("--log-cap ٥", "usage"),
    ("--log-cap 5\t", "usage"),
    ("--log-cap 4294967301", "usage"),
    ("--log-cap 18446744073709551615", "usage"),
    ("--log-cap 18446744073709551621", "usage"),
];

const SAMPLES: &[(&str, &str)] = &[
    ("--sample 7", "false 200 7"),
    ("--sample=7", "false 200 7"),
    ("--sample 0", "false 200 0"),
    ("--sample=00", "false 200 0"),
    ("--sample +0", "false 200 0"),
    ("--sample +7", "false 200 7"),
    ("--sample 2147483647", "false 200 2147483647"),
    ("--sample 2147483648", "usage"),
    ("--sample=4294967296", "usage"),
    ("--sample 4294967303", "usage"),
    ("--sample 18446744073709551623", "usage"),
    ("--sample", "usage"),
    ("--sample=", "usage"),
    ("--sample ''", "usage"),
    ("--sample -1", "usage"),
    ("--sample=-1", "usage"),
    ("--sample -0", "usage"),
    ("--sample=-0", "usage"),
    ("--sample 7.json", "usage"),
    ("--sample --strict", "usage"),
    ("--sample -- 7", "usage"),
    ("--sample 7 --sample 7", "usage"),
    ("--samples 7", "usage"),
    ("--sample 7 --strict", "true 200 7"),
    ("--log-cap=5 --sample=7 --strict", "true 5 7"),
    ("--sample 7 --", "false 200 7"),
    ("--sample 7 a.json", "usage"),
    ("a.json --sample=7", "usage"),
    ("--sample 7 8", "usage"),
    ("--sample 7 ''", "usage"),
    ("--sample 7 -", "usage"),
    ("--sample 7 -- a.json", "usage"),
    ("-- --sample 7", "false 200 - [--sample] [7]"),
];

const CONFIGS: &[(&str, &str)] = &[
    ("a.json", "false 200 - [a.json]"),
    ("b.json a.json", "false 200 - [b.json] [a.json]"),
    ("a.json a.json", "false 200 - [a.json] [a.json]"),
    ("''", "false 200 - []"),
    ("'' a.json ''", "false 200 - [] [a.json] []"),
    ("a=b", "false 200 - [a=b]"),
    ("=", "false 200 - [=]"),
    ("5 0", "false 200 - [5] [0]"),
    ("a--strict", "false 200 - [a--strict]"),
    ("/etc/a\tb", "false 200 - [/etc/a\tb]"),
    ("é.json", "false 200 - [é.json]"),
    ("bmcreplay", "false 200 - [bmcreplay]"),
    ("-", "false 200 - [-]"),
    ("- -", "false 200 - [-] [-]"),
    ("--", "false 200 -"),
    ("-- --", "false 200 - [--]"),
    ("-- -", "false 200 - [-]"),
    ("a.json --", "false 200 - [a.json]"),
    ("a.json -- b.json", "false 200 - [a.json] [b.json]"),
    ("-- -h --help -5", "false 200 - [-h] [--help] [-5]"),
    ("-5", "usage"),
    ("-0", "usage"),
    ("-a.json", "usage"),
    ("-é", "usage"),
    ("--\u{FFFD}", "usage"),
    ("a.json -x b.json", "usage"),
];

// The words of a row.
fn split(alloc: Global, row: &str) -> Result<Vec<String>, Fail> {
    let mut words = Vec::new(alloc);
    for word in row.split(' ') {
        if !word.is_empty() {
            let word = if word == "''" { "" } else { word };
            words.push(String::from_str(alloc, word)?)?;
        }
    }
    Ok(words)
}

// What is read of the words.
fn described(alloc: Global, words: &[String]) -> Result<String, Fail> {
    let mut text = String::new(alloc);
    match &Settings::read(alloc, words) {
        Ok(settings) => {
            write!(text, "{} {}", settings.strict, settings.log_cap)?;
            match settings.sample {
                Some(seed) => write!(text, " {seed}")?,
                None => text.push_str(" -")?,
            }
            for name in &settings.configs {
                write!(text, " [{name}]")?;
            }
        }
        Err(fault) => write!(text, "{fault}")?,
    }
    Ok(text)
}

fn check_rows(rt: &impl Abort, alloc: Global, rows: &[(&str, &str)]) -> Result<(), Fail> {
    for (row, wanted) in rows {
        let words = split(alloc, row)?;
        let text = described(alloc, &words)?;
        assert_eq!(rt; text.as_str(), *wanted, "of {row}");
    }
    Ok(())
}

#[test]
fn flags(rt: HostRuntime) -> Result<(), Fail> {
    check_rows(&rt, rt.alloc(), FLAGS)
}

#[test]
fn caps(rt: HostRuntime) -> Result<(), Fail> {
    check_rows(&rt, rt.alloc(), CAPS)?;
    check_rows(&rt, rt.alloc(), NO_CAPS)
}

#[test]
fn samples(rt: HostRuntime) -> Result<(), Fail> {
    check_rows(&rt, rt.alloc(), SAMPLES)
}

#[test]
fn configs(rt: HostRuntime) -> Result<(), Fail> {
    check_rows(&rt, rt.alloc(), CONFIGS)
}
