use crate::controls::{STEPWISE, control_in};
use crate::reading::{assert_members, assert_with, read, repeated};
use bmc_base::Milli;
use ctl_face::{Setting, StepRow, StepSetting};
use std::process::Abort;
use std::test::Fail;

// The members of stepwise controllers, and the first rule that they break.
const STEPWISES: &[(&str, &str)] = &[
    // members that are missing
    (
        r#""Name":"P","Type":"Stepwise","Inputs":["S"],"Reading":[20],"Output":[40]"#,
        "MissingKey",
    ),
    (
        r#""Name":"P","Type":"Stepwise","Zones":["Z"],"Reading":[20],"Output":[40]"#,
        "MissingKey",
    ),
    (
        r#""Name":"P","Type":"Stepwise","Zones":["Z"],"Inputs":["S"],"Output":[40]"#,
        "MissingKey",
    ),
    (
        r#""Name":"P","Type":"Stepwise","Zones":["Z"],"Inputs":["S"],"Reading":[20]"#,
        "MissingKey",
    ),
    (
        r#""Name":"P","Type":"Stepwise","Zones":["Z"],"Inputs":["S"],"Reading":[20],"Output":[40]"#,
        "Ok",
    ),
    // a member that is missing comes before a later one that is wrong
    (r#""Name":"P","Type":"Stepwise","Inputs":5"#, "MissingKey"),
    (
        r#""Name":"P","Type":"Stepwise","Zones":["Z"],"Reading":5"#,
        "MissingKey",
    ),
    (
        r#""Name":"P","Type":"Stepwise","Zones":["Z"],"Inputs":["S"],"Output":5"#,
        "MissingKey",
    ),
    (
        r#""Name":"P","Type":"Stepwise","Zones":["Z"],"Inputs":["S"],"Reading":[20,null]"#,
        "WrongKind",
    ),
    (
        r#""Name":"P","Type":"Stepwise","Zones":["Z"],"Inputs":["S"],"Reading":[20],"PositiveHysteresis":null"#,
        "MissingKey",
    ),
];

#[test]
fn first_rules_of_stepwises(rt: HostRuntime) -> Result<(), Fail> {
    for &(members, fault) in STEPWISES {
        assert_members(&rt, rt.alloc(), members, fault)?;
    }
    Ok(())
}

// What a stepwise controller with two readings has besides, and the first rule that it breaks.
const MORE: &[(&str, &str)] = &[
    // readings, and outputs, which are as many
    (r#""Reading":null"#, "WrongKind"),
    (r#""Reading":5"#, "WrongKind"),
    (r#""Reading":"20""#, "WrongKind"),
    (r#""Reading":{}"#, "WrongKind"),
    (r#""Reading":[]"#, "OutOfRange"),
    (r#""Reading":[20]"#, "OutOfRange"),
    (r#""Reading":[20,30,40]"#, "OutOfRange"),
    (r#""Reading":[30,20]"#, "Ok"),
    (r#""Reading":[20,20]"#, "Ok"),
    (r#""Output":null"#, "WrongKind"),
    (r#""Output":5"#, "WrongKind"),
    (r#""Output":"40""#, "WrongKind"),
    (r#""Output":{}"#, "WrongKind"),
    (r#""Output":[]"#, "OutOfRange"),
    (r#""Output":[40]"#, "OutOfRange"),
    (r#""Output":[40,50,60]"#, "OutOfRange"),
    (r#""Output":[-1,101]"#, "Ok"),
    // how far the reading may move
    (r#""PositiveHysteresis":0"#, "Ok"),
    (r#""PositiveHysteresis":1000000"#, "Ok"),
    (r#""PositiveHysteresis":1000001"#, "OutOfRange"),
    (r#""PositiveHysteresis":-1"#, "OutOfRange"),
    (r#""PositiveHysteresis":"-0.001""#, "OutOfRange"),
    (r#""PositiveHysteresis":"0.05""#, "Ok"),
    (r#""PositiveHysteresis":"0.0005""#, "WrongKind"),
    (r#""PositiveHysteresis":null"#, "WrongKind"),
    (r#""NegativeHysteresis":0"#, "Ok"),
    (r#""NegativeHysteresis":"1000000.000""#, "Ok"),
    (r#""NegativeHysteresis":"1000000.001""#, "OutOfRange"),
    (r#""NegativeHysteresis":-1"#, "OutOfRange"),
    (r#""NegativeHysteresis":"-0.001""#, "OutOfRange"),
    (r#""NegativeHysteresis":{}"#, "WrongKind"),
    // members of others are not read
    (r#""Outputs":5"#, "Ok"),
    (r#""Outputs":["$foo"]"#, "Ok"),
    (
        r#""Class":5,"SetPoint":null,"PCoefficient":"x","OutLimitMin":null,"SlewNeg":1"#,
        "Ok",
    ),
    // the first rule counts, in the order of the members
    (r#""Inputs":[],"Zones":null"#, "WrongKind"),
    (r#""Reading":null,"Inputs":[]"#, "OutOfRange"),
    (r#""Output":null,"Reading":[]"#, "OutOfRange"),
    (r#""Reading":[20,null],"Output":[]"#, "WrongKind"),
    (r#""Reading":[1000001,null]"#, "OutOfRange"),
    // outputs are counted before one of them is read
    (r#""Output":[null]"#, "OutOfRange"),
    (r#""Output":[null,null,null]"#, "OutOfRange"),
    (r#""Output":[null,1000001]"#, "WrongKind"),
    (r#""PositiveHysteresis":null,"Output":[40]"#, "OutOfRange"),
    (
        r#""NegativeHysteresis":null,"PositiveHysteresis":-1"#,
        "OutOfRange",
    ),
];

#[test]
fn first_rules_of_more(rt: HostRuntime) -> Result<(), Fail> {
    for &(more, fault) in MORE {
        assert_with(&rt, rt.alloc(), STEPWISE, more, fault)?;
    }
    Ok(())
}

// Readings and outputs, in thousandths.
const ELEMENTS: &[(&str, &str)] = &[
    ("0", "Ok"),
    ("-1000000", "Ok"),
    ("-1000001", "OutOfRange"),
    ("1000000", "Ok"),
    ("1000001", "OutOfRange"),
    ("18446744073709551615", "OutOfRange"),
    (r#""0.05""#, "Ok"),
    (r#""0.0001""#, "WrongKind"),
    (r#""1000000.001""#, "OutOfRange"),
    (r#""-1000000.001""#, "OutOfRange"),
    (r#""""#, "WrongKind"),
    ("null", "WrongKind"),
    ("true", "WrongKind"),
    ("[0]", "WrongKind"),
];

#[test]
fn first_rules_of_elements(rt: HostRuntime) -> Result<(), Fail> {
    let alloc = rt.alloc();
    for key in ["Reading", "Output"] {
        for &(value, fault) in ELEMENTS {
            let more = format!(in alloc; r#""{key}":[{value},0]"#)?;
            assert_with(&rt, alloc, STEPWISE, more.as_str(), fault)?;
            let more = format!(in alloc; r#""{key}":[0,{value}]"#)?;
            assert_with(&rt, alloc, STEPWISE, more.as_str(), fault)?;
        }
    }
    Ok(())
}

// How many readings and how many outputs there are behind the first one.
const LENGTHS: &[(usize, usize, &str)] = &[
    (0, 0, "Ok"),
    (18, 18, "Ok"),
    (19, 19, "Ok"),
    (20, 20, "OutOfRange"),
    (19, 20, "OutOfRange"),
    (19, 18, "OutOfRange"),
    (20, 19, "OutOfRange"),
    (1, 0, "OutOfRange"),
];

#[test]
fn lengths(rt: HostRuntime) -> Result<(), Fail> {
    let alloc = rt.alloc();
    for &(readings, outputs, fault) in LENGTHS {
        let readings = repeated(alloc, ",20", readings)?;
        let outputs = repeated(alloc, r#","40.5""#, outputs)?;
        let more = format!(in alloc; r#""Reading":[10{readings}],"Output":[30{outputs}]"#)?;
        assert_with(&rt, alloc, STEPWISE, more.as_str(), fault)?;
    }
    Ok(())
}

const UNUSED: StepRow = StepRow {
    reading: Milli(0),
    output: Milli(0),
};

const FIRST: StepRow = StepRow {
    reading: Milli(-20_000),
    output: Milli(40_500),
};

const SECOND: StepRow = StepRow {
    reading: Milli(30_050),
    output: Milli(-7_000),
};

#[test]
fn step_settings(rt: HostRuntime) -> Result<(), Fail> {
    let document = br#"{"Name":"A","Probe":"TRUE","Exposes":[
        {"Name":"P","Type":"Stepwise","Zones":["Z"],"Inputs":["S"],"Reading":[-20,"30.05"],"Output":["40.5",-7],
            "PositiveHysteresis":"2.5","NegativeHysteresis":3},
        {"Name":"Q","Type":"Stepwise","Zones":["Z"],"Inputs":["S"],"Reading":["-20.0"],"Output":["40.5"]}]}"#;
    let config = read(rt.alloc(), document)?;
    let mut rows = [UNUSED; 20];
    rows[0] = FIRST;
    let few = StepSetting {
        rows,
        count: 1,
        positive: Milli(0),
        negative: Milli(0),
    };
    rows[1] = SECOND;
    let all = StepSetting {
        rows,
        count: 2,
        positive: Milli(2_500),
        negative: Milli(3_000),
    };
    match config.exposes() {
        [first, second] => {
            assert_eq!(rt; control_in(&rt, first).setting, Setting::Stepwise(all));
            assert_eq!(rt; control_in(&rt, second).setting, Setting::Stepwise(few));
        }
        _ => assert!(rt; false, "two exposes"),
    }
    Ok(())
}
