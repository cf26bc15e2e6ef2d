use crate::reading::{assert_members, read};
use bmc_base::Milli;
use cfg_json::{Body, Boxed, Counts, Expose, SensorPart, settings_are_valid};
use sensor_core::{Limit, SensorSetting};
use std::alloc::Global;
use std::process::Abort;
use std::test::Fail;
use tmpl::{Spot, Template};

// The bus of a sensor: a number, a text of a number, or one substitution.
const SENSOR_BUSES: &[(&str, &str)] = &[
    (r#""Bus":0"#, "Ok"),
    (r#""Bus":255"#, "Ok"),
    (r#""Bus":256"#, "OutOfRange"),
    (r#""Bus":-1"#, "OutOfRange"),
    (r#""Bus":18446744073709551615"#, "OutOfRange"),
    (r#""Bus":null"#, "WrongKind"),
    (r#""Bus":true"#, "WrongKind"),
    (r#""Bus":[1]"#, "WrongKind"),
    (r#""Bus":{}"#, "WrongKind"),
    (r#""Bus":"0""#, "Ok"),
    (r#""Bus":"000000255""#, "Ok"),
    (r#""Bus":"256""#, "OutOfRange"),
    (r#""Bus":"999999999""#, "OutOfRange"),
    (r#""Bus":"0000000255""#, "TemplateSyntax"),
    (r#""Bus":"""#, "TemplateSyntax"),
    (r#""Bus":"-1""#, "TemplateSyntax"),
    (r#""Bus":"1.5""#, "TemplateSyntax"),
    (r#""Bus":"0x00fF""#, "Ok"),
    (r#""Bus":"0x100""#, "OutOfRange"),
    (r#""Bus":"0xFFFF""#, "OutOfRange"),
    (r#""Bus":"0x""#, "TemplateSyntax"),
    (r#""Bus":"0x00001""#, "TemplateSyntax"),
    (r#""Bus":"0X1F""#, "TemplateSyntax"),
    (r#""Bus":"0xG""#, "TemplateSyntax"),
    (r#""Bus":"$bus""#, "Ok"),
    (r#""Bus":"$index""#, "Ok"),
    (r#""Bus":"$index * 2 + 1""#, "Ok"),
    (r#""Bus":"$CHASSIS_TYPE % 8""#, "Ok"),
    (r#""Bus":"1$bus""#, "TemplateSyntax"),
    (r#""Bus":"$bus ""#, "TemplateSyntax"),
    (r#""Bus":"$bus$index""#, "TemplateSyntax"),
    (r#""Bus":"$foo""#, "TemplateSyntax"),
    (r#""Bus":"$bus / 0""#, "TemplateSyntax"),
    (r#""Bus":"$""#, "TemplateSyntax"),
];

// The factor, the divisor, the offset and the timeout of a sensor.
const SENSOR_NUMBERS: &[(&str, &str)] = &[
    (r#""ScaleNum":-1000000"#, "Ok"),
    (r#""ScaleNum":-1000001"#, "OutOfRange"),
    (r#""ScaleNum":0"#, "Ok"),
    (r#""ScaleNum":1000000"#, "Ok"),
    (r#""ScaleNum":1000001"#, "OutOfRange"),
    (r#""ScaleNum":9223372036854775808"#, "OutOfRange"),
    (r#""ScaleNum":"1""#, "WrongKind"),
    (r#""ScaleNum":null"#, "WrongKind"),
    (r#""ScaleDen":0"#, "OutOfRange"),
    (r#""ScaleDen":1"#, "Ok"),
    (r#""ScaleDen":1000000"#, "Ok"),
    (r#""ScaleDen":1000001"#, "OutOfRange"),
    (r#""ScaleDen":-1"#, "OutOfRange"),
    (r#""ScaleDen":"1""#, "WrongKind"),
    (r#""ScaleDen":null"#, "WrongKind"),
    (r#""Offset":-1000000"#, "Ok"),
    (r#""Offset":-1000001"#, "OutOfRange"),
    (r#""Offset":"1000000.000""#, "Ok"),
    (r#""Offset":"1000000.001""#, "OutOfRange"),
    (r#""Offset":"0.0001""#, "WrongKind"),
    (r#""Offset":null"#, "WrongKind"),
    (r#""Timeout":0"#, "Ok"),
    (r#""Timeout":1000000"#, "Ok"),
    (r#""Timeout":1000001"#, "OutOfRange"),
    (r#""Timeout":-1"#, "OutOfRange"),
    (r#""Timeout":"5""#, "WrongKind"),
    (r#""Timeout":null"#, "WrongKind"),
];

// The other members of a sensor.
const SENSORS: &[(&str, &str)] = &[
    // an address
    (r#""Address":0"#, "Ok"),
    (r#""Address":127"#, "Ok"),
    (r#""Address":128"#, "OutOfRange"),
    (r#""Address":-1"#, "OutOfRange"),
    (r#""Address":null"#, "WrongKind"),
    (r#""Address":"127""#, "Ok"),
    (r#""Address":"128""#, "OutOfRange"),
    (r#""Address":"0x7F""#, "Ok"),
    (r#""Address":"0x80""#, "OutOfRange"),
    (r#""Address":"$address + 1""#, "Ok"),
    (r#""Address":"$address +1""#, "TemplateSyntax"),
    // limits as a whole
    (r#""Thresholds":[]"#, "Ok"),
    (r#""Thresholds":null"#, "WrongKind"),
    (r#""Thresholds":{}"#, "WrongKind"),
    (r#""Thresholds":"0""#, "WrongKind"),
    (r#""Thresholds":[5]"#, "WrongKind"),
    (r#""Thresholds":[[]]"#, "WrongKind"),
    (r#""Thresholds":[{}]"#, "MissingKey"),
    (r#""Thresholds":[{},5]"#, "MissingKey"),
    (r#""Thresholds":[5,5,5,5,5,5,5,5,5]"#, "OutOfRange"),
    // all else is left
    (r#""bus":null,"Units":5,"Channels":5"#, "Ok"),
    // the first rule counts, in the order of the members
    (r#""Address":128,"Bus":null"#, "WrongKind"),
    (r#""Address":null,"Bus":256"#, "OutOfRange"),
    (r#""ScaleNum":null,"Address":"$foo""#, "TemplateSyntax"),
    (r#""ScaleDen":0,"ScaleNum":null"#, "WrongKind"),
    (r#""Offset":null,"ScaleDen":0"#, "OutOfRange"),
    (r#""Timeout":-1,"Offset":null"#, "WrongKind"),
    (r#""Thresholds":5,"Timeout":-1"#, "OutOfRange"),
];

// Asserts the fault of a document with a sensor of these members.
pub(crate) fn assert_sensor(
    rt: &impl Abort,
    alloc: Global,
    members: &str,
    fault: &str,
) -> Result<(), Fail> {
    let members = format!(in alloc; r#""Name":"S","Type":"Sensor",{members}"#)?;
    assert_members(rt, alloc, members.as_str(), fault)
}

#[test]
fn first_rules_of_sensor_buses(rt: HostRuntime) -> Result<(), Fail> {
    for &(members, fault) in SENSOR_BUSES {
        assert_sensor(&rt, rt.alloc(), members, fault)?;
    }
    Ok(())
}

#[test]
fn first_rules_of_sensor_numbers(rt: HostRuntime) -> Result<(), Fail> {
    for &(members, fault) in SENSOR_NUMBERS {
        assert_sensor(&rt, rt.alloc(), members, fault)?;
    }
    Ok(())
}

#[test]
fn first_rules_of_sensors(rt: HostRuntime) -> Result<(), Fail> {
    for &(members, fault) in SENSORS {
        assert_sensor(&rt, rt.alloc(), members, fault)?;
    }
    Ok(())
}

// The sensor that an expose is.
fn sensor_in<'a>(rt: &impl Abort, expose: &'a Expose) -> &'a SensorPart {
    match &expose.body {
        Body::Sensor(part) => part,
        _ => panic!(rt; "a sensor"),
    }
}

// The number as which a template is rendered without a place and a record, at index 7.
fn number_at(template: &Option<Boxed<Template>>) -> Option<u32> {
    let spot = Spot {
        place: None,
        fru: None,
        index: 7,
    };
    template.as_ref()?.get().render_number(&spot, 255)
}

// A setting with these limits in use, of which the numbers are told by one another.
fn setting_with(limits: [Limit; 8], count: u8) -> SensorSetting {
    SensorSetting {
        num: -3,
        den: 1_000,
        offset: Milli(-12_500),
        timeout: 50,
        limits,
        count,
    }
}

const UNUSED: Limit = Limit {
    above: false,
    severity: 0,
    value: Milli(0),
    hysteresis: Milli(0),
};

// Two sensors: the first has all members.
const TWO_SENSORS: &[u8] = br#"{"Name":"A","Probe":"TRUE","Exposes":[
        {"Name":"S","Type":"Sensor","Bus":"0x4C","Address":"$index * 2","ScaleNum":-3,"ScaleDen":1000,
            "Offset":"-12.5","Timeout":50,"Thresholds":[
            {"Direction":"greater than","Severity":1,"Value":"99.9","Hysteresis":"0.5"},
            {"Direction":"less than","Severity":0,"Value":-5}]},
        {"Name":"T","Type":"Sensor","Bus":"$bus","Address":127}]}"#;

// The second sensor has no numbers and no limits of its own.
fn assert_plain(rt: &impl Abort, sensor: &SensorPart) {
    assert!(rt; sensor.bus.is_some());
    assert_eq!(rt; number_at(&sensor.bus), None);
    assert_eq!(rt; number_at(&sensor.address), Some(127));
    let plain = SensorSetting {
        num: 1,
        den: 1,
        offset: Milli(0),
        timeout: 0,
        limits: [UNUSED; 8],
        count: 0,
    };
    assert_eq!(rt; *sensor.setting.get(), plain);
}

#[test]
fn sensors(rt: HostRuntime) -> Result<(), Fail> {
    settings_are_valid();
    let config = read(rt.alloc(), TWO_SENSORS)?;
    let counts = Counts {
        sensors: 2,
        zones: 0,
        fans: 0,
        pids: 0,
        steps: 0,
    };
    assert_eq!(rt; config.counts(), counts);
    let high = Limit {
        above: true,
        severity: 1,
        value: Milli(99_900),
        hysteresis: Milli(500),
    };
    let low = Limit {
        value: Milli(-5_000),
        ..UNUSED
    };
    match config.exposes() {
        [first, second] => {
            let first = sensor_in(&rt, first);
            assert_eq!(rt; number_at(&first.bus), Some(76));
            assert_eq!(rt; number_at(&first.address), Some(14));
            let limits = [high, low, UNUSED, UNUSED, UNUSED, UNUSED, UNUSED, UNUSED];
            assert_eq!(rt; *first.setting.get(), setting_with(limits, 2));
            assert_plain(&rt, sensor_in(&rt, second));
        }
        _ => assert!(rt; false, "two exposes"),
    }
    Ok(())
}
