use crate::reading::{assert_members, read};
use bmc_base::Milli;
use cfg_json::{Body, Counts, Expose};
use std::process::Abort;
use std::test::Fail;

// The members of an expose, and the first rule that they break: names and types.
const EXPOSES: &[(&str, &str)] = &[
    (r#""Type":"Mux","Channels":[1]"#, "MissingKey"),
    (r#""Name":5,"Type":"Mux","Channels":[1]"#, "WrongKind"),
    (r#""Name":null,"Type":"Mux","Channels":[1]"#, "WrongKind"),
    (r#""Name":"","Type":"Mux","Channels":[1]"#, "OutOfRange"),
    (r#""Name":"M","Channels":[1]"#, "MissingKey"),
    (r#""Name":"M","Type":5,"Channels":[1]"#, "WrongKind"),
    (r#""Name":"M","Type":"","Channels":[1]"#, "OutOfRange"),
    // names that are templates, and names that are none
    (r#""Name":"M $bus","Type":"Mux","Channels":[1]"#, "Ok"),
    (r#""Name":"$","Type":"Mux","Channels":[1]"#, "Ok"),
    (r#""Name":"$5 $ +","Type":"Fan""#, "Ok"),
    (r#""Name":"$BOARD_INFO_AM2040 $index","Type":"Fan""#, "Ok"),
    (r#""Name":"$foo","Type":"Fan""#, "TemplateSyntax"),
    (r#""Name":"$bus / 0","Type":"Fan""#, "TemplateSyntax"),
    (
        r#""Name":"$BOARD_INFO_AM2041","Type":"Fan""#,
        "TemplateSyntax",
    ),
    // types
    (r#""Name":"F","Type":"Fan""#, "Ok"),
    (r#""Name":"F","Type":"Fan","Channels":5"#, "Ok"),
    (r#""Name":"M","Type":"EEPROM","Channels":5"#, "Ok"),
    (r#""Name":"M","Type":"mux","Channels":5"#, "Ok"),
    (r#""Name":"M","Type":"Mux ","Channels":5"#, "Ok"),
    (
        r#""Name":"M","Type":"Pid.Zone ","MinThermalOutput":null"#,
        "Ok",
    ),
    (r#""Name":"M","Type":"pid","Class":5"#, "Ok"),
    (r#""Name":"M","Type":"Pid ","Class":5"#, "Ok"),
    (r#""Name":"M","Type":"PID","Class":5"#, "Ok"),
    (r#""Name":"M","Type":"stepwise","Zones":5"#, "Ok"),
    (r#""Name":"M","Type":"Stepwise ","Zones":5"#, "Ok"),
    (r#""Name":"M","Type":"$foo""#, "Ok"),
    (r#""Name":"M","Type":"Sensor""#, "Ok"),
    (r#""Name":"M","Type":"Pid","Class":5"#, "WrongKind"),
    (r#""Name":"M","Type":"Stepwise""#, "MissingKey"),
    // the first rule counts
    (r#""Name":"$foo","Type":5"#, "TemplateSyntax"),
    (r#""Name":5,"Type":5,"Channels":5"#, "WrongKind"),
    (r#""Name":"","Type":5"#, "OutOfRange"),
    (r#""Name":"M","Type":"Pid","Channels":5"#, "MissingKey"),
    (
        r#""Name":"M","Type":"Mux","Channels":[1,"$foo",256]"#,
        "TemplateSyntax",
    ),
    (
        r#""Name":"M","Type":"Mux","Channels":[256,"$foo",null]"#,
        "OutOfRange",
    ),
];

#[test]
fn first_rules_of_exposes(rt: HostRuntime) -> Result<(), Fail> {
    for &(members, fault) in EXPOSES {
        assert_members(&rt, rt.alloc(), members, fault)?;
    }
    Ok(())
}

// The members of a zone.
const ZONES: &[(&str, &str)] = &[
    (r#""Name":"Z","Type":"Pid.Zone""#, "MissingKey"),
    (
        r#""Name":"Z","Type":"Pid.Zone","MinThermalOutput":0"#,
        "MissingKey",
    ),
    (
        r#""Name":"Z","Type":"Pid.Zone","FailSafePercent":0"#,
        "MissingKey",
    ),
    (
        r#""Name":"Z","Type":"Pid.Zone","MinThermalOutput":null,"FailSafePercent":0"#,
        "WrongKind",
    ),
    (
        r#""Name":"Z","Type":"Pid.Zone","MinThermalOutput":0,"FailSafePercent":[0]"#,
        "WrongKind",
    ),
    (
        r#""Name":"Z","Type":"Pid.Zone","MinThermalOutput":"1e3","FailSafePercent":0"#,
        "WrongKind",
    ),
    (
        r#""Name":"Z","Type":"Pid.Zone","MinThermalOutput":"+5","FailSafePercent":0"#,
        "WrongKind",
    ),
    (
        r#""Name":"Z","Type":"Pid.Zone","MinThermalOutput":"0.0001","FailSafePercent":0"#,
        "WrongKind",
    ),
    (
        r#""Name":"Z","Type":"Pid.Zone","MinThermalOutput":1000001,"FailSafePercent":0"#,
        "OutOfRange",
    ),
    (
        r#""Name":"Z","Type":"Pid.Zone","MinThermalOutput":-1000001,"FailSafePercent":0"#,
        "OutOfRange",
    ),
    (
        r#""Name":"Z","Type":"Pid.Zone","MinThermalOutput":"1000000.001","FailSafePercent":0"#,
        "OutOfRange",
    ),
    (
        r#""Name":"Z","Type":"Pid.Zone","MinThermalOutput":18446744073709551615,"FailSafePercent":0"#,
        "OutOfRange",
    ),
    (
        r#""Name":"Z","Type":"Pid.Zone","MinThermalOutput":0,"FailSafePercent":101"#,
        "OutOfRange",
    ),
    (
        r#""Name":"Z","Type":"Pid.Zone","MinThermalOutput":0,"FailSafePercent":"100.001""#,
        "OutOfRange",
    ),
    (
        r#""Name":"Z","Type":"Pid.Zone","MinThermalOutput":0,"FailSafePercent":"-0.001""#,
        "OutOfRange",
    ),
];

#[test]
fn first_rules_of_zones(rt: HostRuntime) -> Result<(), Fail> {
    for &(members, fault) in ZONES {
        assert_members(&rt, rt.alloc(), members, fault)?;
    }
    Ok(())
}

// The channels of a multiplexer.
const CHANNELS: &[(&str, &str)] = &[
    (r#""Name":"M","Type":"Mux""#, "MissingKey"),
    (r#""Name":"M","Type":"Mux","Channels":null"#, "WrongKind"),
    (r#""Name":"M","Type":"Mux","Channels":1"#, "WrongKind"),
    (r#""Name":"M","Type":"Mux","Channels":"1""#, "WrongKind"),
    (r#""Name":"M","Type":"Mux","Channels":[]"#, "OutOfRange"),
    (
        r#""Name":"M","Type":"Mux","Channels":[0,1,2,3,4,5,6,7,8,9,10,11,12,13,14,15,16]"#,
        "OutOfRange",
    ),
    (r#""Name":"M","Type":"Mux","Channels":[256]"#, "OutOfRange"),
    (r#""Name":"M","Type":"Mux","Channels":[-1]"#, "OutOfRange"),
    (r#""Name":"M","Type":"Mux","Channels":[null]"#, "WrongKind"),
    (r#""Name":"M","Type":"Mux","Channels":[[1]]"#, "WrongKind"),
    (
        r#""Name":"M","Type":"Mux","Channels":["256"]"#,
        "OutOfRange",
    ),
    (
        r#""Name":"M","Type":"Mux","Channels":["0x1FF"]"#,
        "OutOfRange",
    ),
    (
        r#""Name":"M","Type":"Mux","Channels":[""]"#,
        "TemplateSyntax",
    ),
    (
        r#""Name":"M","Type":"Mux","Channels":["-1"]"#,
        "TemplateSyntax",
    ),
    (
        r#""Name":"M","Type":"Mux","Channels":["0X4C"]"#,
        "TemplateSyntax",
    ),
    (
        r#""Name":"M","Type":"Mux","Channels":["1234567890"]"#,
        "TemplateSyntax",
    ),
    (
        r#""Name":"M","Type":"Mux","Channels":["1$bus"]"#,
        "TemplateSyntax",
    ),
    (
        r#""Name":"M","Type":"Mux","Channels":["$bus "]"#,
        "TemplateSyntax",
    ),
    (
        r#""Name":"M","Type":"Mux","Channels":["$bus + 123456"]"#,
        "TemplateSyntax",
    ),
    (
        r#""Name":"M","Type":"Mux","Channels":["$index"]"#,
        "TemplateSyntax",
    ),
    (
        r#""Name":"M","Type":"Mux","Channels":["$bus / 0"]"#,
        "TemplateSyntax",
    ),
];

#[test]
fn first_rules_of_channels(rt: HostRuntime) -> Result<(), Fail> {
    for &(members, fault) in CHANNELS {
        assert_members(&rt, rt.alloc(), members, fault)?;
    }
    Ok(())
}

fn assert_mux(rt: &impl Abort, expose: &Expose, fixed: &[u8], moving: usize) {
    assert_eq!(rt; expose.kind.as_str(), "Mux");
    match &expose.body {
        Body::Mux(part) => {
            assert_eq!(rt; part.fixed.as_slice(), fixed);
            assert_eq!(rt; part.moving.as_slice().len(), moving);
        }
        _ => assert!(rt; false, "a multiplexer"),
    }
}

#[test]
fn multiplexers(rt: HostRuntime) -> Result<(), Fail> {
    let document = br#"{"Name":"A","Probe":"TRUE","Exposes":[
        {"Name":"Upper","Type":"Mux","Channels":[0,255],"Address":"0x70"},
        {"Channels":[16,"$bus + 15","016","0x3",3,"$CHASSIS_TYPE"],"Type":"Mux","Name":"Lower"}]}"#;
    let config = read(rt.alloc(), document)?;
    match config.exposes() {
        [upper, lower] => {
            assert_mux(&rt, upper, &[0, 255], 0);
            assert_mux(&rt, lower, &[16, 16, 3, 3], 2);
        }
        _ => assert!(rt; false, "two exposes"),
    }
    Ok(())
}

#[test]
fn zones_and_fans(rt: HostRuntime) -> Result<(), Fail> {
    let document = br#"{"Name":"A","Probe":"TRUE","Exposes":[
        {"Name":"F","Type":"Fan"},
        {"Name":"Z","Type":"Pid.Zone","MinThermalOutput":"-12.5","FailSafePercent":100},
        {"Name":"E","Type":"EEPROM"},
        {"Name":"G","Type":"Fan"}]}"#;
    let config = read(rt.alloc(), document)?;
    let counts = Counts {
        sensors: 0,
        zones: 1,
        fans: 2,
        pids: 0,
        steps: 0,
    };
    assert_eq!(rt; config.counts(), counts);
    match config.exposes() {
        [first, zone, passive, second] => {
            assert!(rt; matches!(first.body, Body::Fan));
            assert!(rt; matches!(second.body, Body::Fan));
            assert!(rt; matches!(passive.body, Body::Passive));
            assert_eq!(rt; passive.kind.as_str(), "EEPROM");
            match &zone.body {
                Body::Zone(setting) => {
                    assert_eq!(rt; setting.min_thermal, Milli(-12_500));
                    assert_eq!(rt; setting.failsafe, Milli(100_000));
                }
                _ => assert!(rt; false, "a zone"),
            }
        }
        _ => assert!(rt; false, "four exposes"),
    }
    Ok(())
}
