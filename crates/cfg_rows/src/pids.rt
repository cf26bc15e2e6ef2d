use crate::controls::{FAN, TEMP, control_in};
use crate::reading::{assert_members, assert_with, read};
use bmc_base::Milli;
use ctl_face::{PidClass, PidSetting, Setting};
use std::process::Abort;
use std::test::Fail;

// The members of PID controllers, and the first rule that they break.
const PIDS: &[(&str, &str)] = &[
    // members that are missing
    (
        r#""Name":"P","Type":"Pid","Zones":["Z"],"Inputs":["S"],"Outputs":["F"],"OutLimitMin":0,"OutLimitMax":100"#,
        "MissingKey",
    ),
    (
        r#""Name":"P","Type":"Pid","Class":"fan","Inputs":["S"],"Outputs":["F"],"OutLimitMin":0,"OutLimitMax":100"#,
        "MissingKey",
    ),
    (
        r#""Name":"P","Type":"Pid","Class":"fan","Zones":["Z"],"Outputs":["F"],"OutLimitMin":0,"OutLimitMax":100"#,
        "MissingKey",
    ),
    (
        r#""Name":"P","Type":"Pid","Class":"fan","Zones":["Z"],"Inputs":["S"],"OutLimitMin":0,"OutLimitMax":100"#,
        "MissingKey",
    ),
    (
        r#""Name":"P","Type":"Pid","Class":"fan","Zones":["Z"],"Inputs":["S"],"Outputs":["F"],"OutLimitMax":100"#,
        "MissingKey",
    ),
    (
        r#""Name":"P","Type":"Pid","Class":"fan","Zones":["Z"],"Inputs":["S"],"Outputs":["F"],"OutLimitMin":0"#,
        "MissingKey",
    ),
    (
        r#""Name":"P","Type":"Pid","Class":"fan","Zones":["Z"],"Inputs":["S"],"Outputs":["F"],"OutLimitMin":0,"OutLimitMax":100"#,
        "Ok",
    ),
    (
        r#""Name":"P","Type":"Pid","Class":"temp","Zones":["Z"],"Inputs":["S"],"OutLimitMin":0,"OutLimitMax":100"#,
        "MissingKey",
    ),
    (
        r#""Name":"P","Type":"Pid","Class":"margin","Zones":["Z"],"Inputs":["S"],"OutLimitMin":0,"OutLimitMax":100"#,
        "MissingKey",
    ),
    (
        r#""Name":"P","Type":"Pid","Class":"temp","Zones":["Z"],"Inputs":["S"],"SetPoint":0,"OutLimitMin":0,"OutLimitMax":100"#,
        "Ok",
    ),
    (
        r#""Name":"P","Type":"Pid","Class":"margin","Zones":["Z"],"Inputs":["S"],"SetPoint":0,"OutLimitMin":0,"OutLimitMax":100"#,
        "Ok",
    ),
    // a member that is missing comes before a later one that is wrong
    (
        r#""Name":"P","Type":"Pid","Class":"fan","Zones":["Z"],"Inputs":5"#,
        "WrongKind",
    ),
    (
        r#""Name":"P","Type":"Pid","Class":"fan","Zones":["Z"],"Outputs":5"#,
        "MissingKey",
    ),
    (
        r#""Name":"P","Type":"Pid","Class":"fan","Zones":["Z"],"Inputs":["S"],"PCoefficient":null"#,
        "MissingKey",
    ),
    (
        r#""Name":"P","Type":"Pid","Class":"temp","Zones":["Z"],"Inputs":["S"],"PCoefficient":null"#,
        "MissingKey",
    ),
    (
        r#""Name":"P","Type":"Pid","Class":"temp","Zones":["Z"],"Inputs":["S"],"SetPoint":0,"ILimitMax":null"#,
        "WrongKind",
    ),
    (
        r#""Name":"P","Type":"Pid","Class":"temp","Zones":["Z"],"Inputs":["S"],"SetPoint":0,"SlewNeg":null"#,
        "MissingKey",
    ),
    (
        r#""Name":"P","Type":"Pid","Class":"temp","Zones":["Z"],"Inputs":["S"],"SetPoint":0,"ILimitMin":1,"OutLimitMin":0"#,
        "MissingKey",
    ),
];

#[test]
fn first_rules_of_pids(rt: HostRuntime) -> Result<(), Fail> {
    for &(members, fault) in PIDS {
        assert_members(&rt, rt.alloc(), members, fault)?;
    }
    Ok(())
}

// What a PID controller of class fan has besides, and the first rule that it breaks.
const FANS: &[(&str, &str)] = &[
    // classes
    (r#""Class":5"#, "WrongKind"),
    (r#""Class":null"#, "WrongKind"),
    (r#""Class":["fan"]"#, "WrongKind"),
    (r#""Class":"""#, "OutOfRange"),
    (r#""Class":"Fan""#, "OutOfRange"),
    (r#""Class":"fan ""#, "OutOfRange"),
    (r#""Class":"power""#, "OutOfRange"),
    (r#""Class":"temp""#, "MissingKey"),
    (r#""Class":"margin","SetPoint":0"#, "Ok"),
    // outputs are percent
    (r#""OutLimitMin":-1"#, "OutOfRange"),
    (r#""OutLimitMin":"-0.001""#, "OutOfRange"),
    (r#""OutLimitMax":101"#, "OutOfRange"),
    (r#""OutLimitMax":"100.001""#, "OutOfRange"),
    (r#""OutLimitMin":"100.000","OutLimitMax":"100.000""#, "Ok"),
    (r#""OutLimitMax":0"#, "Ok"),
    (r#""OutLimitMin":101,"OutLimitMax":102"#, "OutOfRange"),
    (r#""OutLimitMin":-2,"OutLimitMax":-1"#, "OutOfRange"),
    // no least number is above its greatest one, where a missing one is 0
    (r#""OutLimitMin":50,"OutLimitMax":50"#, "Ok"),
    (r#""OutLimitMin":50,"OutLimitMax":49"#, "OutOfRange"),
    (r#""OutLimitMin":50,"OutLimitMax":"49.999""#, "OutOfRange"),
    (r#""ILimitMin":1"#, "OutOfRange"),
    (r#""ILimitMax":-1"#, "OutOfRange"),
    (r#""ILimitMin":"0.001","ILimitMax":0"#, "OutOfRange"),
    (r#""ILimitMin":-1"#, "Ok"),
    (r#""ILimitMax":1"#, "Ok"),
    (r#""ILimitMin":7,"ILimitMax":7"#, "Ok"),
    (r#""ILimitMin":-7,"ILimitMax":"-7.001""#, "OutOfRange"),
    // members of others are not read
    (r#""SetPoint":null"#, "Ok"),
    (r#""SetPoint":1000001"#, "Ok"),
    (r#""Reading":5,"Output":null"#, "Ok"),
    (r#""PositiveHysteresis":-1,"NegativeHysteresis":null"#, "Ok"),
    (
        r#""Channels":5,"Bus":null,"MinThermalOutput":null,"pcoefficient":null"#,
        "Ok",
    ),
];

#[test]
fn first_rules_of_fans(rt: HostRuntime) -> Result<(), Fail> {
    for &(more, fault) in FANS {
        assert_with(&rt, rt.alloc(), FAN, more, fault)?;
    }
    Ok(())
}

// What a PID controller of class temp has besides, and the first rule that it breaks.
const TEMPS: &[(&str, &str)] = &[
    // outputs need not be percent
    (r#""OutLimitMin":-1,"OutLimitMax":101"#, "Ok"),
    (
        r#""Class":"margin","OutLimitMin":-1,"OutLimitMax":101"#,
        "Ok",
    ),
    (r#""OutLimitMin":1,"OutLimitMax":0"#, "OutOfRange"),
    (
        r#""Class":"margin","ILimitMin":1,"ILimitMax":0"#,
        "OutOfRange",
    ),
    // outputs are not read
    (r#""Outputs":null"#, "Ok"),
    (r#""Outputs":[]"#, "Ok"),
    (r#""Outputs":["$foo"]"#, "Ok"),
    (r#""Class":"margin","Outputs":5"#, "Ok"),
    (r#""Class":"fan""#, "MissingKey"),
    // how far an output may fall and rise in a second
    (r#""SlewNeg":0"#, "Ok"),
    (r#""SlewNeg":-1000000"#, "Ok"),
    (r#""SlewNeg":-1000001"#, "OutOfRange"),
    (r#""SlewNeg":1"#, "OutOfRange"),
    (r#""SlewNeg":"0.001""#, "OutOfRange"),
    (r#""SlewNeg":"-0.05""#, "Ok"),
    (r#""SlewNeg":null"#, "WrongKind"),
    (r#""SlewPos":0"#, "Ok"),
    (r#""SlewPos":1000000"#, "Ok"),
    (r#""SlewPos":1000001"#, "OutOfRange"),
    (r#""SlewPos":-1"#, "OutOfRange"),
    (r#""SlewPos":"-0.001""#, "OutOfRange"),
    (r#""SlewPos":"0.05""#, "Ok"),
    (r#""SlewPos":[]"#, "WrongKind"),
    // the first rule counts, in the order of the members, and the order of limits comes last
    (r#""Zones":5,"Class":"x""#, "OutOfRange"),
    (r#""Inputs":[],"Zones":null"#, "WrongKind"),
    (r#""SetPoint":null,"Inputs":[]"#, "OutOfRange"),
    (
        r#""Class":"fan","Outputs":[],"Inputs":["$foo"]"#,
        "TemplateSyntax",
    ),
    (
        r#""Class":"fan","PCoefficient":null,"Outputs":[]"#,
        "OutOfRange",
    ),
    (r#""PCoefficient":null,"SetPoint":1000001"#, "OutOfRange"),
    (
        r#""ICoefficient":null,"PCoefficient":1000001"#,
        "OutOfRange",
    ),
    (
        r#""DCoefficient":null,"ICoefficient":1000001"#,
        "OutOfRange",
    ),
    (
        r#""FFGainCoefficient":null,"DCoefficient":1000001"#,
        "OutOfRange",
    ),
    (
        r#""FFOffCoefficient":null,"FFGainCoefficient":1000001"#,
        "OutOfRange",
    ),
    (
        r#""ILimitMin":null,"FFOffCoefficient":1000001"#,
        "OutOfRange",
    ),
    (r#""ILimitMax":null,"ILimitMin":1000001"#, "OutOfRange"),
    (r#""OutLimitMin":null,"ILimitMax":1000001"#, "OutOfRange"),
    (r#""OutLimitMax":null,"OutLimitMin":1000001"#, "OutOfRange"),
    (r#""SlewNeg":null,"OutLimitMax":1000001"#, "OutOfRange"),
    (r#""SlewPos":null,"SlewNeg":1"#, "OutOfRange"),
    (r#""ILimitMin":1,"ILimitMax":0,"SlewPos":null"#, "WrongKind"),
    (
        r#""OutLimitMin":1,"OutLimitMax":0,"SlewNeg":null"#,
        "WrongKind",
    ),
];

#[test]
fn first_rules_of_temps(rt: HostRuntime) -> Result<(), Fail> {
    for &(more, fault) in TEMPS {
        assert_with(&rt, rt.alloc(), TEMP, more, fault)?;
    }
    Ok(())
}

// A setting of class fan of which the numbers are told by one another.
const ALL_MEMBERS: PidSetting = PidSetting {
    class: PidClass::Fan,
    setpoint: Milli(0),
    p: 10_000,
    i: 1,
    d: -2_000_000,
    ff_gain: 1_500_000,
    ff_off: Milli(-500),
    i_min: Milli(-7_000),
    i_max: Milli(50),
    out_min: Milli(30_000),
    out_max: Milli(99_999),
    slew_neg: Milli(-2_500),
    slew_pos: Milli(3_000),
};

// A setting of class margin with nothing that may be missing.
const FEW_MEMBERS: PidSetting = PidSetting {
    class: PidClass::Margin,
    setpoint: Milli(-12_500),
    p: 0,
    i: 0,
    d: 0,
    ff_gain: 0,
    ff_off: Milli(0),
    i_min: Milli(0),
    i_max: Milli(0),
    out_min: Milli(-3_000),
    out_max: Milli(101_000),
    slew_neg: Milli(0),
    slew_pos: Milli(0),
};

#[test]
fn pid_settings(rt: HostRuntime) -> Result<(), Fail> {
    let document = br#"{"Name":"A","Probe":"TRUE","Exposes":[
        {"Name":"P","Type":"Pid","Class":"fan","Zones":["Z"],"Inputs":["S"],"Outputs":["F"],"SetPoint":40,
            "PCoefficient":"0.01","ICoefficient":"0.000001","DCoefficient":-2,"FFGainCoefficient":"1.5",
            "FFOffCoefficient":"-0.5","ILimitMin":-7,"ILimitMax":"0.05","OutLimitMin":30,"OutLimitMax":"99.999",
            "SlewNeg":"-2.5","SlewPos":3},
        {"Name":"Q","Type":"Pid","Class":"margin","Zones":["Z"],"Inputs":["S"],"SetPoint":"-12.5",
            "OutLimitMin":-3,"OutLimitMax":101}]}"#;
    let config = read(rt.alloc(), document)?;
    match config.exposes() {
        [first, second] => {
            assert_eq!(rt; control_in(&rt, first).setting, Setting::Pid(ALL_MEMBERS));
            assert_eq!(rt; control_in(&rt, second).setting, Setting::Pid(FEW_MEMBERS));
        }
        _ => assert!(rt; false, "two exposes"),
    }
    Ok(())
}
