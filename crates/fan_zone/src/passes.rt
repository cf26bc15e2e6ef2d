ghost use Rattle.std.specs.Prelude.{◌≡◌, ◌<◌, true, false, IsSome, None, Some, length, slice_get};
ghost use Rattle.std.specs.List.{All};
ghost use Rattle.std.specs.Option.{ForSome};
ghost use Rattle.ctl_face.specs.Ranges.{IsMilli, IsValidSample};
ghost use Rattle.fan_zone.specs.Boxes.{box_at};
ghost use Rattle.fan_zone.specs.Passes.{fan_sample, pass, sample_of, shown_setpoint, step_box, thermal_sample, thermal_setpoint};
ghost use Rattle.fan_zone.specs.Sound.{AreInZones, AreSeated, AreSmall, AreSmallRows, HasSmallSetpoint, IsSeated};
ghost use Rattle.fan_zone.specs.Inputs.{has_bad_input};
ghost use Rattle.fan_zone.specs.Steady.{has_bad_input_now, is_due};

use crate::bank::Bank;
use crate::held::{Held, Role};
use crate::reading::input;
use crate::rows::ZoneRow;
use bmc_base::Milli;
use ctl_face::{Controller, Sample};
use sensor_core::SensorTable;

// How far from 0 the input of a sample is at the most, in thousandths.
const MOST_INPUT: i64 = 2_000_000_000_000_000;

/// The setpoint of a thermal controller.
pub(crate) fn thermal_setpoint(role: Role) -> Option<Milli>
    ensures { result ≡ thermal_setpoint role }
{
    match role {
        Role::Fan => None,
        Role::Temp(setpoint) => Some(setpoint),
        Role::Margin(setpoint) => Some(setpoint),
    }
}

// The sample of an input and a setpoint.
#[tactic(auto, using(std::proofs::lemmas::Int::ints))]
fn sample_of(input: i64, setpoint: Milli) -> Sample
    requires { IsMilli setpoint.0 }
    ensures value { result ≡ sample_of input setpoint }
    ensures valid { IsValidSample result }
{
    let input = if input < -MOST_INPUT {
        -MOST_INPUT
    } else if input > MOST_INPUT {
        MOST_INPUT
    } else {
        input
    };
    Sample {
        input: Milli(input),
        setpoint,
    }
}

// What a thermal controller steps on at this tick, if it takes part.
fn thermal_sample(sensors: &SensorTable, now: u64, held: &Held, good: bool) -> Option<Sample>
    requires small { HasSmallSetpoint held.now }
    requires good { good ≡ true → has_bad_input sensors.now.slots now held.now.inputs ≡ false }
    ensures value { result ≡ thermal_sample sensors.now.slots now held.now }
    ensures valid { ForSome result IsValidSample }
{
    let setpoint = thermal_setpoint(held.role)?;
    if held.age != 0 {
        return None;
    }
    let input = input(sensors, now, held.role, held.inputs.as_slice(), good)?;
    Some(sample_of(input, setpoint))
}

// The setpoint that a zone shows.
fn shown_setpoint(rows: &[ZoneRow], zone: usize) -> Milli
    requires { AreSmallRows rows.now }
    ensures value { result ≡ shown_setpoint rows.now zone }
    ensures small { IsMilli result.0 }
{
    match rows.get(zone) {
        None => Milli(0),
        Some(row) => row.setpoint.unwrap_or(Milli(0)),
    }
}

// What a fan controller steps on at this tick.
fn fan_sample(
    sensors: &SensorTable,
    now: u64,
    rows: &[ZoneRow],
    held: &Held,
    good: bool,
) -> Option<Sample>
    requires rows { AreSmallRows rows.now }
    requires good { good ≡ true → has_bad_input sensors.now.slots now held.now.inputs ≡ false }
    ensures value { result ≡ fan_sample sensors.now.slots now rows.now held.now }
    ensures valid { ForSome result IsValidSample }
{
    if thermal_setpoint(held.role).is_some() {
        return None;
    }
    let input = input(sensors, now, held.role, held.inputs.as_slice(), good);
    let setpoint = shown_setpoint(rows, held.zone);
    Some(sample_of(input.unwrap_or(0), setpoint))
}

// Steps a box, if there is a sample.
#[tactic(auto, using(crate::proofs::PassSteps::small_set))]
fn step_box<C: Controller>(bank: &mut Bank<C>, number: usize, sample: Option<Sample>)
    requires within { number < length bank.old }
    requires loaded { IsSome (box_at bank.old number).setting }
    requires small { AreSmall bank.old }
    requires valid { ForSome sample IsValidSample }
    ensures state { bank.new ≡ step_box bank.old number sample }
    ensures small { AreSmall bank.new }
{
    if let Some(sample) = sample {
        bank.step(number, sample);
    }
}

// Steps the thermal controllers that take part.
fn step_all_thermals<C: Controller>(
    bank: &mut Bank<C>,
    held: &[Held],
    sensors: &SensorTable,
    now: u64,
    good: bool,
)
    requires seats { AreSeated bank.old held.now }
    requires small { AreSmall bank.old }
    requires setpoints { All HasSmallSetpoint held.now }
    requires good { good ≡ true → has_bad_input_now sensors.now.slots now held.now ≡ false }
    ensures state { bank.new ≡ pass (thermal_sample sensors.now.slots now) held.now bank.old }
    ensures seats { AreSeated bank.new held.now }
    ensures small { AreSmall bank.new }
{
    for one in held {
        let sample = thermal_sample(sensors, now, one, good);
        step_box(bank, one.number, sample);
    }
}

/// Steps the thermal controllers that take part. Where no controller is due there are none. `good` may be true only where no input
/// is bad.
#[tactic(auto, using(crate::proofs::SteadyLemmas::none_due))]
pub(crate) fn step_thermals<C: Controller>(
    bank: &mut Bank<C>,
    held: &[Held],
    sensors: &SensorTable,
    now: u64,
    due: bool,
    good: bool,
)
    requires seats { AreSeated bank.old held.now }
    requires small { AreSmall bank.old }
    requires setpoints { All HasSmallSetpoint held.now }
    requires due { due ≡ false → is_due held.now ≡ false }
    requires good { good ≡ true → has_bad_input_now sensors.now.slots now held.now ≡ false }
    ensures state { bank.new ≡ pass (thermal_sample sensors.now.slots now) held.now bank.old }
    ensures seats { AreSeated bank.new held.now }
    ensures small { AreSmall bank.new }
{
    if due {
        step_all_thermals(bank, held, sensors, now, good);
    }
}

/// Steps the fan controllers. `good` may be true only where no input is bad.
pub(crate) fn step_fans<C: Controller>(
    bank: &mut Bank<C>,
    held: &[Held],
    rows: &[ZoneRow],
    sensors: &SensorTable,
    now: u64,
    good: bool,
)
    requires seats { AreSeated bank.old held.now }
    requires small { AreSmall bank.old }
    requires rows { AreSmallRows rows.now }
    requires good { good ≡ true → has_bad_input_now sensors.now.slots now held.now ≡ false }
    ensures state { bank.new ≡ pass (fan_sample sensors.now.slots now rows.now) held.now bank.old }
    ensures seats { AreSeated bank.new held.now }
    ensures small { AreSmall bank.new }
{
    for one in held {
        let sample = fan_sample(sensors, now, rows, one, good);
        step_box(bank, one.number, sample);
    }
}
