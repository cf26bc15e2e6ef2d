use crate::reading::{assert_with, read};
use cfg_json::{Body, ControlPart, Counts, Expose, controls_are_valid};
use std::process::Abort;
use std::test::Fail;
use tmpl::{Rendered, Spot, Template};

// A PID controller of class fan with all members that it needs.
pub(crate) const FAN: &str =
    r#""Name":"P","Type":"Pid","Class":"fan","Zones":["Z"],"Inputs":["S"],"Outputs":["F"],"OutLimitMin":0,"OutLimitMax":100"#;

// A PID controller of class temp, within the widest limits.
pub(crate) const TEMP: &str =
    r#""Name":"P","Type":"Pid","Class":"temp","Zones":["Z"],"Inputs":["S"],"SetPoint":40,"ILimitMin":-1000000,"ILimitMax":1000000,"OutLimitMin":-1000000,"OutLimitMax":1000000"#;

// A stepwise controller with all members that it needs.
pub(crate) const STEPWISE: &str =
    r#""Name":"P","Type":"Stepwise","Zones":["Z"],"Inputs":["S"],"Reading":[20,30],"Output":[40,50]"#;

// Lists of one zone, and the first rule that they break.
const ZONE_NAMES: &[(&str, &str)] = &[
    (r#"["Z"]"#, "Ok"),
    (r#"["Zone $index"]"#, "Ok"),
    (r#"["$"]"#, "Ok"),
    ("null", "WrongKind"),
    ("5", "WrongKind"),
    (r#""Z""#, "WrongKind"),
    ("{}", "WrongKind"),
    ("[]", "OutOfRange"),
    (r#"["Z","Y"]"#, "OutOfRange"),
    (r#"["Z","Z"]"#, "OutOfRange"),
    ("[5,5]", "OutOfRange"),
    ("[5]", "WrongKind"),
    ("[null]", "WrongKind"),
    (r#"[["Z"]]"#, "WrongKind"),
    (r#"[""]"#, "OutOfRange"),
    (r#"["$foo"]"#, "TemplateSyntax"),
    (r#"["$index + "]"#, "Ok"),
];

#[test]
fn first_rules_of_zone_names(rt: HostRuntime) -> Result<(), Fail> {
    let alloc = rt.alloc();
    for &(names, fault) in ZONE_NAMES {
        let zones = format!(in alloc; r#""Zones":{names}"#)?;
        for members in [FAN, TEMP, STEPWISE] {
            assert_with(&rt, alloc, members, zones.as_str(), fault)?;
        }
    }
    Ok(())
}

// Lists of names, and the first rule that they break.
const NAMES: &[(&str, &str)] = &[
    (r#"["S"]"#, "Ok"),
    (r#"["S","T","S"]"#, "Ok"),
    ("null", "WrongKind"),
    ("5", "WrongKind"),
    (r#""S""#, "WrongKind"),
    ("{}", "WrongKind"),
    ("[]", "OutOfRange"),
    ("[5]", "WrongKind"),
    ("[null]", "WrongKind"),
    (r#"[["S"]]"#, "WrongKind"),
    (r#"[""]"#, "OutOfRange"),
    (r#"["S",""]"#, "OutOfRange"),
    // templates
    (r#"["$bus","S $index + 1"]"#, "Ok"),
    (r#"["$"]"#, "Ok"),
    (r#"["$BOARD_INFO_AM2040"]"#, "Ok"),
    (r#"["$foo"]"#, "TemplateSyntax"),
    (r#"["$bus / 0"]"#, "TemplateSyntax"),
    // the first name that is refused decides
    (r#"["S","$foo",5]"#, "TemplateSyntax"),
    (r#"["S",5,"$foo"]"#, "WrongKind"),
    (r#"["","$foo"]"#, "OutOfRange"),
];

#[test]
fn first_rules_of_inputs(rt: HostRuntime) -> Result<(), Fail> {
    let alloc = rt.alloc();
    for &(names, fault) in NAMES {
        let inputs = format!(in alloc; r#""Inputs":{names}"#)?;
        for members in [FAN, TEMP, STEPWISE] {
            assert_with(&rt, alloc, members, inputs.as_str(), fault)?;
        }
    }
    Ok(())
}

#[test]
fn first_rules_of_outputs(rt: HostRuntime) -> Result<(), Fail> {
    let alloc = rt.alloc();
    for &(names, fault) in NAMES {
        let outputs = format!(in alloc; r#""Outputs":{names}"#)?;
        assert_with(&rt, alloc, FAN, outputs.as_str(), fault)?;
        // the outputs of others are not read
        assert_with(&rt, alloc, TEMP, outputs.as_str(), "Ok")?;
        assert_with(&rt, alloc, STEPWISE, outputs.as_str(), "Ok")?;
    }
    Ok(())
}

// The controller that an expose is.
pub(crate) fn control_in<'a>(rt: &impl Abort, expose: &'a Expose) -> &'a ControlPart {
    match &expose.body {
        Body::Control(part) => part.get(),
        _ => panic!(rt; "a controller"),
    }
}

// Asserts that a template is rendered as this name without a place and a record, at index 7.
fn assert_name(rt: &impl Abort, template: &Template, wanted: &str) {
    let spot = Spot {
        place: None,
        fru: None,
        index: 7,
    };
    match template.render(&spot) {
        Rendered::Given(name) => assert_eq!(rt; name.as_str(), wanted),
        Rendered::Skip => assert!(rt; false, "{wanted}"),
    }
}

// Asserts that templates are rendered as these names.
fn assert_names(rt: &impl Abort, templates: &[Template], wanted: &[&str]) {
    assert_eq!(rt; templates.len(), wanted.len());
    for (template, name) in templates.iter().zip(wanted) {
        assert_name(rt, template, name);
    }
}

#[test]
fn names_of_controllers(rt: HostRuntime) -> Result<(), Fail> {
    controls_are_valid();
    let document = br#"{"Name":"A","Probe":"TRUE","Exposes":[
        {"Name":"P","Type":"Pid","Class":"fan","Zones":["Zone $index"],"Inputs":["S","T $index + 1"],
            "Outputs":["F 1","F 2","F 3"],"OutLimitMin":0,"OutLimitMax":100},
        {"Name":"Q","Type":"Pid","Class":"margin","Zones":["Z"],"Inputs":["S"],"Outputs":["F"],"SetPoint":5,
            "OutLimitMin":0,"OutLimitMax":100},
        {"Name":"R","Type":"Stepwise","Zones":["$index"],"Inputs":["S"],"Outputs":["F"],"Reading":[1],"Output":[2]}]}"#;
    let config = read(rt.alloc(), document)?;
    let counts = Counts {
        sensors: 0,
        zones: 0,
        fans: 0,
        pids: 2,
        steps: 1,
    };
    assert_eq!(rt; config.counts(), counts);
    match config.exposes() {
        [first, second, third] => {
            let first = control_in(&rt, first);
            assert_name(&rt, &first.zone, "Zone 7");
            assert_names(&rt, first.inputs.as_slice(), &["S", "T 8"]);
            assert_names(&rt, first.outputs.as_slice(), &["F 1", "F 2", "F 3"]);
            let second = control_in(&rt, second);
            assert_names(&rt, second.outputs.as_slice(), &[]);
            let third = control_in(&rt, third);
            assert_name(&rt, &third.zone, "7");
            assert_names(&rt, third.outputs.as_slice(), &[]);
        }
        _ => assert!(rt; false, "three exposes"),
    }
    Ok(())
}
