ghost use Rattle.std.specs.Prelude.{◌≡◌, ◌*◌, ◌^◌, pos, ◌+ℤ◌, ◌-ℤ◌, ◌*ℤ◌, ◌≤ℤ◌, if◌then◌else◌};
ghost use Rattle.std.specs.Option.{ForSome, IfSome};
ghost use Rattle.ctl_face.specs.Floors.{clamped, floor_div, millionths_of};
ghost use Rattle.ctl_face.specs.Pid.{derivative, feed_forward, has_slew, integral_part, pace, pid_step, proportional};
ghost use Rattle.ctl_face.specs.Ranges.{IsMicro, IsMilli, IsValidPid, IsValidSample, IsWithin};

use crate::pid_parts::{error_of, has_slew, slewed};
use crate::wide::Micro;
use bmc_base::Milli;
use ctl_face::{CtlState, PidClass, PidSetting, Sample};

// The sum of two numbers, where it fits.
#[tactic(auto, using(std::proofs::lemmas::Int::ints))]
fn sum(a: Milli, b: Milli) -> Option<Milli>
    ensures { IfSome result (λ sum. sum.0 ≡ a.0 +ℤ b.0) }
{
    Some(Milli(a.0.checked_add(b.0)?))
}

// The first number less the second, where it fits.
#[tactic(auto, using(std::proofs::lemmas::Int::ints))]
fn difference(a: Milli, b: Milli) -> Option<Milli>
    ensures { IfSome result (λ difference. difference.0 ≡ a.0 -ℤ b.0) }
{
    Some(Milli(a.0.checked_sub(b.0)?))
}

// The coefficient times a number, divided by a million and rounded down, where the product fits.
#[tactic(auto, using(std::proofs::lemmas::Int::ints))]
fn share(coefficient: Micro, number: Milli) -> Option<Milli>
    ensures value { IfSome result (λ share. share.0 ≡ millionths_of coefficient.0 number.0) }
    ensures small { IfSome result (λ share. IsWithin (10 ^ 13) share.0) }
{
    Some(Milli(coefficient.0.checked_mul(number.0)?.div_euclid(1_000_000)))
}

// The coefficient times a number, divided by a million and by the steps of a second and rounded down, where the product fits.
#[tactic(auto, using(std::proofs::lemmas::Int::ints))]
fn step_share(coefficient: Micro, number: Milli, class: PidClass) -> Option<Milli>
    ensures { IfSome result (λ share. share.0 ≡ floor_div (coefficient.0 *ℤ number.0) (pace class * 1000000)) }
{
    let product = coefficient.0.checked_mul(number.0)?;
    match class {
        PidClass::Fan => Some(Milli(product.div_euclid(10_000_000))),
        PidClass::Temp | PidClass::Margin => Some(Milli(product.div_euclid(1_000_000))),
    }
}

// The number of the range that is nearest.
#[tactic(auto, using(std::proofs::lemmas::Int::ints))]
fn nearest(number: Milli, low: Milli, high: Milli) -> Milli
    requires low { IsMilli low.0 }
    requires high { IsMilli high.0 }
    requires ordered { low.0 ≤ℤ high.0 }
    ensures value { result.0 ≡ clamped low.0 high.0 number.0 }
    ensures small { IsMilli result.0 }
{
    Milli(number.0.clamp(low.0, high.0))
}

// The part of the error.
fn proportional(setting: &PidSetting, error: Milli) -> Option<Milli>
    ensures value { IfSome result (λ part. part.0 ≡ proportional setting.now error.0) }
    ensures small { IfSome result (λ part. IsWithin (10 ^ 13) part.0) }
{
    share(Micro(setting.p), error)
}

// The part of all errors.
fn integral_part(setting: &PidSetting, before: Milli, error: Milli) -> Option<Milli>
    requires { IsValidPid setting.now }
    ensures value { IfSome result (λ part. part.0 ≡ integral_part setting.now before.0 error.0) }
    ensures small { IfSome result (λ part. IsMilli part.0) }
{
    let more = step_share(Micro(setting.i), error, setting.class)?;
    Some(nearest(sum(before, more)?, setting.i_min, setting.i_max))
}

// The coefficient of the error's change, for a step.
#[tactic(auto, using(std::proofs::lemmas::Int::ints))]
fn step_coefficient(coefficient: Micro, class: PidClass) -> Micro
    requires { IsMicro coefficient.0 }
    ensures { result.0 ≡ coefficient.0 *ℤ pos (pace class) }
{
    match class {
        PidClass::Fan => Micro(coefficient.0 * 10),
        PidClass::Temp | PidClass::Margin => coefficient,
    }
}

// The part of the error's change.
fn derivative(setting: &PidSetting, before: Option<i64>, error: Milli) -> Option<Milli>
    requires { IsValidPid setting.now }
    ensures value { IfSome result (λ part. part.0 ≡ derivative setting.now before error.0) }
    ensures small { IfSome result (λ part. IsWithin (10 ^ 13) part.0) }
{
    // Most settings have no such part.
    if setting.d == 0 {
        return Some(Milli(0));
    }
    match before {
        None => Some(Milli(0)),
        Some(before) => {
            let change = difference(error, Milli(before))?;
            share(step_coefficient(Micro(setting.d), setting.class), change)
        }
    }
}

// The part of the setpoint.
#[inline(always)]
fn feed_forward(setting: &PidSetting, setpoint: Milli) -> Option<Milli>
    ensures value { IfSome result (λ part. part.0 ≡ feed_forward setting.now setpoint.0) }
    ensures small { IfSome result (λ part. IsWithin (10 ^ 13) part.0) }
{
    share(Micro(setting.ff_gain), sum(setpoint, setting.ff_off)?)
}

// The sum of the four parts of an output.
#[tactic(auto, using(std::proofs::lemmas::Int::ints))]
fn total(p: Milli, i: Milli, d: Milli, f: Milli) -> Milli
    requires p { IsWithin (10 ^ 13) p.0 }
    requires i { IsMilli i.0 }
    requires d { IsWithin (10 ^ 13) d.0 }
    requires f { IsWithin (10 ^ 13) f.0 }
    ensures { result.0 ≡ p.0 +ℤ i.0 +ℤ d.0 +ℤ f.0 }
{
    Milli(p.0 + i.0 + d.0 + f.0)
}

// What the output leaves beside the part of the error.
#[tactic(auto, using(std::proofs::lemmas::Int::ints))]
fn rest(output: Milli, p: Milli) -> Milli
    requires output { IsMilli output.0 }
    requires p { IsWithin (10 ^ 13) p.0 }
    ensures { result.0 ≡ output.0 -ℤ p.0 }
{
    Milli(output.0 - p.0)
}

// The integral behind a step: its part, or with a slew what the output leaves beside the part of the error.
fn integral_behind(setting: &PidSetting, output: Milli, p: Milli, i: Milli) -> Milli
    requires valid { IsValidPid setting.now }
    requires output { IsMilli output.0 }
    requires p { IsWithin (10 ^ 13) p.0 }
    ensures { result.0 ≡ (if has_slew setting.now
        then clamped setting.now.i_min.0 setting.now.i_max.0 (output.0 -ℤ p.0) else i.0) }
{
    if has_slew(setting) {
        nearest(rest(output, p), setting.i_min, setting.i_max)
    } else {
        i
    }
}

// The state after one step in 64 bits, which nearly all numbers fit, or None where one does not.
#[inline(always)]
pub(crate) fn small_step(setting: &PidSetting, old: CtlState, sample: Sample) -> Option<CtlState>
    requires setting { IsValidPid setting.now }
    requires output { ForSome old.output IsMilli }
    requires sample { IsValidSample sample }
    ensures state { IfSome result (λ state. state ≡ pid_step setting.now old sample) }
    ensures small { IfSome result (λ state. ForSome state.output IsMilli) }
{
    let error = error_of(sample);
    let p = proportional(setting, error)?;
    let i = integral_part(setting, Milli(old.integral), error)?;
    let d = derivative(setting, old.error, error)?;
    let f = feed_forward(setting, sample.setpoint)?;
    let sum = nearest(total(p, i, d, f), setting.out_min, setting.out_max);
    let output = slewed(setting, old.output, sum);
    Some(CtlState {
        integral: integral_behind(setting, output, p, i).0,
        error: Some(error.0),
        base: old.base,
        output: Some(output.0),
    })
}
