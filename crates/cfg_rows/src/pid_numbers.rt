use crate::controls::{FAN, TEMP};
use crate::reading::assert_with;
use std::test::Fail;

// The coefficients.
const COEFFICIENTS: &[&str] = &[
    "PCoefficient",
    "ICoefficient",
    "DCoefficient",
    "FFGainCoefficient",
];

// Coefficients, in millionths: whole numbers, and texts of decimals with up to six places.
const MICRO: &[(&str, &str)] = &[
    ("0", "Ok"),
    ("-1000000", "Ok"),
    ("-1000001", "OutOfRange"),
    ("1000000", "Ok"),
    ("1000001", "OutOfRange"),
    ("-9223372036854775808", "OutOfRange"),
    ("18446744073709551615", "OutOfRange"),
    (r#""0.01""#, "Ok"),
    (r#""-0.000001""#, "Ok"),
    (r#""0.0000001""#, "WrongKind"),
    (r#""1000000.000000""#, "Ok"),
    (r#""1000000.000001""#, "OutOfRange"),
    (r#""-1000000.000000""#, "Ok"),
    (r#""-1000000.000001""#, "OutOfRange"),
    (r#""""#, "WrongKind"),
    (r#""1e3""#, "WrongKind"),
    (r#""+5""#, "WrongKind"),
    ("null", "WrongKind"),
    ("true", "WrongKind"),
    ("[0]", "WrongKind"),
    ("{}", "WrongKind"),
];

#[test]
fn first_rules_of_coefficients(rt: HostRuntime) -> Result<(), Fail> {
    let alloc = rt.alloc();
    for &key in COEFFICIENTS {
        for &(value, fault) in MICRO {
            let more = format!(in alloc; r#""{key}":{value}"#)?;
            assert_with(&rt, alloc, FAN, more.as_str(), fault)?;
            assert_with(&rt, alloc, TEMP, more.as_str(), fault)?;
        }
    }
    Ok(())
}

// The members in thousandths.
const THOUSANDTHS: &[&str] = &[
    "SetPoint",
    "FFOffCoefficient",
    "ILimitMin",
    "ILimitMax",
    "OutLimitMin",
    "OutLimitMax",
];

// Other numbers, in thousandths: whole numbers, and texts of decimals with up to three places.
const MILLI: &[(&str, &str)] = &[
    ("0", "Ok"),
    ("-1000000", "Ok"),
    ("-1000001", "OutOfRange"),
    ("1000000", "Ok"),
    ("1000001", "OutOfRange"),
    ("18446744073709551615", "OutOfRange"),
    (r#""0.05""#, "Ok"),
    (r#""-0.001""#, "Ok"),
    (r#""0.0001""#, "WrongKind"),
    (r#""1000000.000""#, "Ok"),
    (r#""1000000.001""#, "OutOfRange"),
    (r#""-1000000.000""#, "Ok"),
    (r#""-1000000.001""#, "OutOfRange"),
    (r#""""#, "WrongKind"),
    (r#""x""#, "WrongKind"),
    ("null", "WrongKind"),
    ("false", "WrongKind"),
    ("[0]", "WrongKind"),
    ("{}", "WrongKind"),
];

#[test]
fn first_rules_of_thousandths(rt: HostRuntime) -> Result<(), Fail> {
    let alloc = rt.alloc();
    for &key in THOUSANDTHS {
        for &(value, fault) in MILLI {
            let more = format!(in alloc; r#""{key}":{value}"#)?;
            assert_with(&rt, alloc, TEMP, more.as_str(), fault)?;
        }
    }
    Ok(())
}
