ghost use Rattle.std.specs.Prelude.{◌≡◌, option_map};
ghost use Rattle.serde_json.specs.View.{view, number_view};
ghost use Rattle.cfg_json.specs.Values.{optional};
ghost use Rattle.cfg_json.specs.Sensors.{fixed_template, whole_template, single_template, number_template};
ghost use Rattle.cfg_json.specs.Sensors.{side_of, limit_of, slots_of, setting_of, sensor_of};
ghost use Rattle.cfg_json.specs.Readings.{Gives};

use crate::values::{list, milli_or_none, milli_within, required, text, whole_or, whole_within};
use crate::{Boxed, ConfigFault, SensorPart, Shared};
use bmc_base::Milli;
use sensor_core::{Limit, SensorSetting};
use serde_json::{Number, Value};
use std::alloc::Global;
use tmpl::{Template, fixed_number};

// The greatest bus, and the greatest address.
const LAST_BUS: u8 = 255;

const LAST_ADDRESS: u8 = 127;

// How large a factor, a divisor, a timeout in ticks, and a number of units are at the most.
const MILLION: i32 = 1_000_000;

// How many limits a sensor has at the most.
const MOST_LIMITS: usize = 8;

// A limit that is not in use.
const UNUSED_LIMIT: Limit = Limit {
    above: false,
    severity: 0,
    value: Milli(0),
    hysteresis: Milli(0),
};

// Reads a sensor.
pub(crate) fn read_sensor(alloc: Global, members: &Value) -> Result<SensorPart, ConfigFault>
    ensures { Gives result (sensor_of (view members.now)) }
{
    let bus = read_optional(alloc, members.get("Bus"), LAST_BUS)?;
    let address = read_optional(alloc, members.get("Address"), LAST_ADDRESS)?;
    let setting = read_setting(members)?;
    Ok(SensorPart {
        bus,
        address,
        setting: Shared::new(alloc, setting)?,
    })
}

// Reads a number from 0 to so many, if it is given.
fn read_optional(
    alloc: Global,
    value: Option<&Value>,
    most: u8,
) -> Result<Option<Boxed<Template>>, ConfigFault>
    ensures { Gives result (optional (number_template most) (option_map (λ number. view number.now) value.entry)) }
{
    match value {
        Some(value) => {
            let number = read_number(alloc, value, most)?;
            Ok(Some(Boxed::new(alloc, number)?))
        }
        None => Ok(None),
    }
}

// Reads a number from 0 to so many, which may be rendered.
fn read_number(alloc: Global, value: &Value, most: u8) -> Result<Template, ConfigFault>
    ensures { Gives result (number_template most (view value.now)) }
{
    match value {
        Value::Number(number) => whole_template(alloc, number, most),
        Value::String(text) => match fixed_number(text.as_str()) {
            Some(number) => fixed_template(alloc, u64::from(number), most),
            None => single_template(alloc, text.as_str()),
        },
        _ => Err(ConfigFault::WrongKind),
    }
}

// The template of a fixed number, which is at most so many.
fn fixed_template(alloc: Global, number: u64, most: u8) -> Result<Template, ConfigFault>
    ensures { Gives result (fixed_template most number) }
{
    if number <= u64::from(most) {
        let mut digits = itoa::Buffer::new();
        Ok(Template::parse(alloc, digits.format(number))?)
    } else {
        Err(ConfigFault::OutOfRange)
    }
}

// The template of a whole number, which is at most so many.
fn whole_template(alloc: Global, number: &Number, most: u8) -> Result<Template, ConfigFault>
    ensures { Gives result (whole_template most (number_view number.now)) }
{
    if number.is_f64() {
        return Err(ConfigFault::WrongKind);
    }
    match number.as_u64() {
        Some(number) => fixed_template(alloc, number, most),
        None => Err(ConfigFault::OutOfRange),
    }
}

// The template of a number that is one substitution.
fn single_template(alloc: Global, text: &str) -> Result<Template, ConfigFault>
    ensures { Gives result (single_template text.now) }
{
    let template = Template::parse(alloc, text)?;
    if template.is_single() {
        Ok(template)
    } else {
        Err(ConfigFault::TemplateSyntax)
    }
}

// Reads the setting of a sensor.
fn read_setting(members: &Value) -> Result<SensorSetting, ConfigFault>
    ensures { result ≡ setting_of (view members.now) }
{
    let num = whole_or(members, "ScaleNum", -MILLION, MILLION, 1)?;
    let den = whole_or(members, "ScaleDen", 1, MILLION, 1)?;
    let offset = milli_or_none(members, "Offset", -MILLION, MILLION)?;
    let timeout = whole_or(members, "Timeout", 0, MILLION, 0)?;
    let (limits, count) = read_limits(members.get("Thresholds"))?;
    Ok(SensorSetting {
        num,
        den,
        offset,
        timeout: timeout.unsigned_abs() as u32,
        limits,
        count,
    })
}

// Reads the limits of a sensor, if they are given: in eight slots, of which so many are in use.
fn read_limits(value: Option<&Value>) -> Result<([Limit; MOST_LIMITS], u8), ConfigFault>
    ensures { result ≡ slots_of (option_map (λ limits. view limits.now) value.entry) }
{
    let mut limits = [UNUSED_LIMIT; MOST_LIMITS];
    let Some(value) = value else {
        return Ok((limits, 0));
    };
    let items = list(value, 0, MOST_LIMITS)?;
    for (i, item) in items.iter().enumerate() {
        limits[i] = read_limit(item)?;
    }
    Ok((limits, items.len() as u8))
}

// Reads a limit of a sensor.
fn read_limit(value: &Value) -> Result<Limit, ConfigFault>
    ensures { result ≡ limit_of (view value.now) }
{
    if !value.is_object() {
        return Err(ConfigFault::WrongKind);
    }
    let above = read_side(text(required(value, "Direction")?)?)?;
    let severity = whole_within(required(value, "Severity")?, 0, 1)?;
    let at = milli_within(required(value, "Value")?, -MILLION, MILLION)?;
    let hysteresis = milli_or_none(value, "Hysteresis", 0, MILLION)?;
    Ok(Limit {
        above,
        severity: severity.unsigned_abs() as u8,
        value: at,
        hysteresis,
    })
}

// Reads on which side of a limit the alarm is on: whether above it.
fn read_side(text: &str) -> Result<bool, ConfigFault>
    ensures { result ≡ side_of text.now }
{
    match text {
        "greater than" => Ok(true),
        "less than" => Ok(false),
        _ => Err(ConfigFault::OutOfRange),
    }
}
