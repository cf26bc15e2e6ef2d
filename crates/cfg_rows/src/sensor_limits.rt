use crate::sensors::assert_sensor;
use std::test::Fail;

// The members of a limit of a sensor.
const SENSOR_LIMITS: &[(&str, &str)] = &[
    (r#""Direction":"greater than","Severity":0,"Value":0"#, "Ok"),
    (
        r#""Direction":"greater than","Severity":0,"Value":0,"Units":5"#,
        "Ok",
    ),
    // on which side of it the alarm is on
    (r#""Severity":0,"Value":0"#, "MissingKey"),
    (r#""Direction":null,"Severity":0,"Value":0"#, "WrongKind"),
    (r#""Direction":"less than","Severity":0,"Value":0"#, "Ok"),
    (
        r#""Direction":"Less than","Severity":0,"Value":0"#,
        "OutOfRange",
    ),
    (r#""Direction":"","Severity":0,"Value":0"#, "OutOfRange"),
    // how severe the alarm is
    (r#""Direction":"greater than","Value":0"#, "MissingKey"),
    (r#""Direction":"greater than","Severity":1,"Value":0"#, "Ok"),
    (
        r#""Direction":"greater than","Severity":2,"Value":0"#,
        "OutOfRange",
    ),
    (
        r#""Direction":"greater than","Severity":-1,"Value":0"#,
        "OutOfRange",
    ),
    (
        r#""Direction":"greater than","Severity":"0","Value":0"#,
        "WrongKind",
    ),
    (
        r#""Direction":"greater than","Severity":null,"Value":0"#,
        "WrongKind",
    ),
    // its value
    (r#""Direction":"greater than","Severity":0"#, "MissingKey"),
    (
        r#""Direction":"greater than","Severity":0,"Value":"-1000000""#,
        "Ok",
    ),
    (
        r#""Direction":"greater than","Severity":0,"Value":-1000001"#,
        "OutOfRange",
    ),
    (
        r#""Direction":"greater than","Severity":0,"Value":1000000"#,
        "Ok",
    ),
    (
        r#""Direction":"greater than","Severity":0,"Value":"1000000.001""#,
        "OutOfRange",
    ),
    (
        r#""Direction":"greater than","Severity":0,"Value":"0.0005""#,
        "WrongKind",
    ),
    (
        r#""Direction":"greater than","Severity":0,"Value":null"#,
        "WrongKind",
    ),
    // its hysteresis
    (
        r#""Direction":"greater than","Severity":0,"Value":0,"Hysteresis":0"#,
        "Ok",
    ),
    (
        r#""Direction":"greater than","Severity":0,"Value":0,"Hysteresis":1000000"#,
        "Ok",
    ),
    (
        r#""Direction":"greater than","Severity":0,"Value":0,"Hysteresis":1000001"#,
        "OutOfRange",
    ),
    (
        r#""Direction":"greater than","Severity":0,"Value":0,"Hysteresis":"-0.001""#,
        "OutOfRange",
    ),
    (
        r#""Direction":"greater than","Severity":0,"Value":0,"Hysteresis":"x""#,
        "WrongKind",
    ),
    (
        r#""Direction":"greater than","Severity":0,"Value":0,"Hysteresis":null"#,
        "WrongKind",
    ),
    // the first rule counts, in the order of the members
    (r#""Severity":2,"Direction":5"#, "WrongKind"),
    (r#""Severity":2,"Value":null"#, "MissingKey"),
    (
        r#""Direction":"greater than","Value":null,"Severity":2"#,
        "OutOfRange",
    ),
    (
        r#""Direction":"greater than","Severity":0,"Hysteresis":-1"#,
        "MissingKey",
    ),
    (
        r#""Direction":"greater than","Severity":0,"Hysteresis":-1,"Value":null"#,
        "WrongKind",
    ),
];

#[test]
fn first_rules_of_sensor_limits(rt: HostRuntime) -> Result<(), Fail> {
    let alloc = rt.alloc();
    for &(limit, fault) in SENSOR_LIMITS {
        let members = format!(in alloc; r#""Thresholds":[{{{limit}}}]"#)?;
        assert_sensor(&rt, alloc, members.as_str(), fault)?;
    }
    Ok(())
}
