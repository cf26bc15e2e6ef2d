ghost use Rattle.std.specs.Prelude.{◌≡◌, true, false, option_copied};
ghost use Rattle.fan_zone.specs.Inputs.{good_input, good_inputs, has_bad_input, input_of, is_bad_input, sensor_of};
ghost use Rattle.fan_zone.specs.Best.{better, better_with};
ghost use Rattle.fan_zone.specs.Steady.{earlier, has_bad_input_now};
ghost use Rattle.sensor_core.specs.Fresh.{IsGoodFor};

use crate::held::{Held, Role};
use bmc_base::Milli;
use sensor_core::{Sensor, SensorTable};

// The sensor of an input.
fn sensor_of(sensors: &SensorTable, input: Option<usize>) -> Option<&Sensor>
    ensures { option_copied result ≡ sensor_of sensors.now.slots input }
{
    match input {
        None => None,
        Some(slot) => sensors.get(slot),
    }
}

// Whether an input is bad.
fn is_bad_input(sensors: &SensorTable, now: u64, input: Option<usize>) -> bool
    ensures { result ≡ is_bad_input sensors.now.slots now input }
{
    match sensor_of(sensors, input) {
        None => true,
        Some(sensor) => sensor.is_bad(now),
    }
}

// The value of an input that is not bad. Where it is known to be good, that is not asked again.
fn good_input(sensors: &SensorTable, now: u64, input: Option<usize>, good: bool) -> Option<Milli>
    requires { good ≡ true → is_bad_input sensors.now.slots now input ≡ false }
    ensures { result ≡ good_input sensors.now.slots now input }
{
    match sensor_of(sensors, input) {
        None => None,
        Some(sensor) => {
            if good || !sensor.is_bad(now) {
                sensor.value()
            } else {
                None
            }
        }
    }
}

/// Whether one of the inputs is bad.
pub(crate) fn has_bad_input(sensors: &SensorTable, now: u64, inputs: &[Option<usize>]) -> bool
    ensures { result ≡ has_bad_input sensors.now.slots now inputs.now }
{
    inputs
        .iter()
        .any(|input| is_bad_input(sensors, now, *input))
}

// The greater one.
#[tactic(auto, using(std::proofs::lemmas::Int::ints))]
fn greater(best: Option<i64>, value: i64) -> Option<i64>
    ensures { result ≡ better (Role.Temp (record { 0 = value })) best value }
{
    match best {
        None => Some(value),
        Some(best) => Some(if value < best { best } else { value }),
    }
}

// The lesser one.
#[tactic(auto, using(std::proofs::lemmas::Int::ints))]
fn lesser(best: Option<i64>, value: i64) -> Option<i64>
    ensures { result ≡ better (Role.Margin (record { 0 = value })) best value }
{
    match best {
        None => Some(value),
        Some(best) => Some(if value < best { value } else { best }),
    }
}

// With one more value.
fn better(role: Role, best: Option<i64>, value: i64) -> Option<i64>
    ensures { result ≡ better role best value }
{
    match role {
        Role::Fan => { if value > 0 { lesser(best, value) } else { best } }
        Role::Temp(_) => greater(best, value),
        Role::Margin(_) => lesser(best, value),
    }
}

// With one more value, if there is one.
fn better_with(role: Role, best: Option<i64>, value: Option<Milli>) -> Option<i64>
    ensures { result ≡ better_with role best value }
{
    match value {
        None => best,
        Some(value) => better(role, best, value.0),
    }
}

/// The input of a step, in thousandths. `good` may be true only where none of the inputs is bad.
#[inline(always)]
pub(crate) fn input(
    sensors: &SensorTable,
    now: u64,
    role: Role,
    inputs: &[Option<usize>],
    good: bool,
) -> Option<i64>
    requires { good ≡ true → has_bad_input sensors.now.slots now inputs.now ≡ false }
    ensures { result ≡ input_of role (good_inputs sensors.now.slots now inputs.now) }
{
    let mut best = None;
    for input in inputs {
        best = better_with(role, best, good_input(sensors, now, *input, good));
    }
    best
}

// The earlier one of two ticks, if there are both.
fn earlier(until: Option<u64>, other: Option<u64>) -> Option<u64>
    ensures { result ≡ earlier until other }
{
    match (until, other) {
        (Some(one), Some(other)) => Some(one.min(other)),
        _ => None,
    }
}

// The last tick up to which an input is not bad, as long as its sensor stays as it is. There is none where it is bad now.
fn input_good_until(sensors: &SensorTable, now: u64, input: Option<usize>) -> Option<u64>
    ensures { IsGoodFor (λ tick. is_bad_input sensors.now.slots tick input) now result }
{
    match sensor_of(sensors, input) {
        None => None,
        Some(sensor) => sensor.good_until(now),
    }
}

// The last tick up to which none of some inputs is bad.
fn inputs_good_until(sensors: &SensorTable, now: u64, inputs: &[Option<usize>]) -> Option<u64>
    ensures { IsGoodFor (λ tick. has_bad_input sensors.now.slots tick inputs.now) now result }
{
    let mut until = Some(u64::MAX);
    for input in inputs {
        until = earlier(until, input_good_until(sensors, now, *input));
    }
    until
}

/// The last tick up to which no input of some controllers is bad, as long as the sensors stay as they are. There is none where one
/// is bad now.
pub(crate) fn good_until(sensors: &SensorTable, now: u64, held: &[Held]) -> Option<u64>
    ensures { IsGoodFor (λ tick. has_bad_input_now sensors.now.slots tick held.now) now result }
{
    let mut until = Some(u64::MAX);
    for one in held {
        until = earlier(
            until,
            inputs_good_until(sensors, now, one.inputs.as_slice()),
        );
    }
    until
}
