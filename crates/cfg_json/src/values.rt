ghost use Rattle.std.specs.Prelude.{◌≡◌, ◌&&◌, nat_le, if◌then◌else◌, pos, Ok, Err};
ghost use Rattle.serde_json.specs.View.{view, number_view};
ghost use Rattle.serde_json.specs.Find.{get};
ghost use Rattle.cfg_json.specs.Values.{required, text_only, list_within, short_text, is_between, whole_units, decimal_units_within, milli_within};
ghost use Rattle.cfg_json.specs.Values.{whole_number, whole_within, whole_micro, decimal_micro, any_micro, no_units, member_or};
ghost use Rattle.cfg_json.specs.declared.config_fault.ConfigFault.TheVariants.{OutOfRange};
ghost use Rattle.cfg_json.specs.Readings.{GivesMember, GivesText, GivesList};

use crate::ConfigFault;
use bmc_base::{Milli, Name};
use bmc_text::decimal;
use serde_json::{Number, Value};

// Borrows a member that has to be there.
pub(crate) fn required<'a>(members: &'a Value, key: &str) -> Result<&'a Value, ConfigFault>
    ensures { GivesMember result (required (get key.now (view members.now))) }
{
    members.get(key).ok_or(ConfigFault::MissingKey)
}

// Refuses a length that is out of its range.
pub(crate) fn check_length(length: usize, least: usize, most: usize) -> Result<(), ConfigFault>
    ensures { result ≡ (if nat_le least length && nat_le length most then Ok tt else Err OutOfRange) }
{
    if least <= length && length <= most {
        Ok(())
    } else {
        Err(ConfigFault::OutOfRange)
    }
}

// Borrows a text.
pub(crate) fn text(value: &Value) -> Result<&str, ConfigFault>
    ensures { GivesText result (text_only (view value.now)) }
{
    value.as_str().ok_or(ConfigFault::WrongKind)
}

// Borrows the elements of a list, of which there are so many.
pub(crate) fn list(value: &Value, least: usize, most: usize) -> Result<&[Value], ConfigFault>
    ensures { GivesList result (list_within least most (view value.now)) }
{
    match value {
        Value::Array(items) => {
            let items = items.as_slice();
            check_length(items.len(), least, most)?;
            Ok(items)
        }
        _ => Err(ConfigFault::WrongKind),
    }
}

// Reads a text of 1 to 64 bytes.
pub(crate) fn short_text(value: &Value) -> Result<Name, ConfigFault>
    ensures { result ≡ short_text (view value.now) }
{
    Name::new(text(value)?).map_err(|_| ConfigFault::OutOfRange)
}

// How many units a number in the widest range has at the most, to either side of 0.
pub(crate) const MOST_UNITS: i32 = 1_000_000;

// How many thousandths a unit has.
const THOUSAND: i64 = 1_000;

// Whether a number is from the least to the most.
fn is_between(value: i64, least: i64, most: i64) -> bool
    ensures { result ≡ is_between least most value }
{
    least <= value && value <= most
}

// Reads a number that is whole, from so many to so many.
fn whole_number(number: &Number, least: i32, most: i32) -> Result<i64, ConfigFault>
    ensures { result ≡ whole_number least most (number_view number.now) }
{
    if number.is_f64() {
        return Err(ConfigFault::WrongKind);
    }
    match number.as_i64() {
        Some(value) => {
            if is_between(value, i64::from(least), i64::from(most)) {
                Ok(value)
            } else {
                Err(ConfigFault::OutOfRange)
            }
        }
        None => Err(ConfigFault::OutOfRange),
    }
}

// Reads a whole number of units, from so many to so many, in thousandths.
fn whole_units(number: &Number, least: i32, most: i32) -> Result<Milli, ConfigFault>
    ensures { result ≡ whole_units least most (number_view number.now) }
{
    let units = whole_number(number, least, most)?;
    Ok(Milli(units * THOUSAND))
}

// Reads a decimal with up to three places, from so many units to so many, in thousandths.
fn decimal_units(text: &str, least: i32, most: i32) -> Result<Milli, ConfigFault>
    ensures { result ≡ decimal_units_within least most text.now }
{
    let (least, most) = (i64::from(least) * THOUSAND, i64::from(most) * THOUSAND);
    match decimal(text, 3) {
        Some(thousandths) => {
            if is_between(thousandths, least, most) {
                Ok(Milli(thousandths))
            } else {
                Err(ConfigFault::OutOfRange)
            }
        }
        None => Err(ConfigFault::WrongKind),
    }
}

// Reads thousandths from so many units to so many.
pub(crate) fn milli_within(value: &Value, least: i32, most: i32) -> Result<Milli, ConfigFault>
    ensures { result ≡ milli_within least most (view value.now) }
{
    match value {
        Value::Number(number) => whole_units(number, least, most),
        Value::String(text) => decimal_units(text.as_str(), least, most),
        _ => Err(ConfigFault::WrongKind),
    }
}

// How many millionths a unit has.
const MILLION: i64 = 1_000_000;

// How many millionths there are at the most, to either side of 0.
const MOST_MICRO: i64 = 1_000_000_000_000;

// Reads a whole number of units, in millionths.
fn whole_micro(number: &Number) -> Result<i64, ConfigFault>
    ensures { result ≡ whole_micro (number_view number.now) }
{
    let units = whole_number(number, -MOST_UNITS, MOST_UNITS)?;
    Ok(units * MILLION)
}

// Reads a decimal with up to six places, in millionths.
fn decimal_micro(text: &str) -> Result<i64, ConfigFault>
    ensures { result ≡ decimal_micro text.now }
{
    match decimal(text, 6) {
        Some(millionths) => {
            if is_between(millionths, -MOST_MICRO, MOST_MICRO) {
                Ok(millionths)
            } else {
                Err(ConfigFault::OutOfRange)
            }
        }
        None => Err(ConfigFault::WrongKind),
    }
}

// Reads millionths, up to a million units to either side of 0.
fn any_micro(value: &Value) -> Result<i64, ConfigFault>
    ensures { result ≡ any_micro (view value.now) }
{
    match value {
        Value::Number(number) => whole_micro(number),
        Value::String(text) => decimal_micro(text.as_str()),
        _ => Err(ConfigFault::WrongKind),
    }
}

// Reads millionths in a member that may be missing, in whose place 0 stands.
pub(crate) fn micro_or_none(members: &Value, key: &str) -> Result<i64, ConfigFault>
    ensures { result ≡ member_or (pos 0) any_micro (get key.now (view members.now)) }
{
    match members.get(key) {
        Some(value) => any_micro(value),
        None => Ok(0),
    }
}

// Reads a whole number from so many to so many.
pub(crate) fn whole_within(value: &Value, least: i32, most: i32) -> Result<i64, ConfigFault>
    ensures { result ≡ whole_within least most (view value.now) }
{
    match value {
        Value::Number(number) => whole_number(number, least, most),
        _ => Err(ConfigFault::WrongKind),
    }
}

// Reads a whole number from so many to so many in a member that may be missing, in whose place another number stands.
pub(crate) fn whole_or(
    members: &Value,
    key: &str,
    least: i32,
    most: i32,
    missing: i32,
) -> Result<i64, ConfigFault>
    ensures { result ≡ member_or missing (whole_within least most) (get key.now (view members.now)) }
{
    match members.get(key) {
        Some(value) => whole_within(value, least, most),
        None => Ok(i64::from(missing)),
    }
}

// Reads thousandths from so many units to so many in a member that may be missing, in whose place 0 stands.
pub(crate) fn milli_or_none(
    members: &Value,
    key: &str,
    least: i32,
    most: i32,
) -> Result<Milli, ConfigFault>
    ensures { result ≡ member_or no_units (milli_within least most) (get key.now (view members.now)) }
{
    match members.get(key) {
        Some(value) => milli_within(value, least, most),
        None => Ok(Milli(0)),
    }
}
