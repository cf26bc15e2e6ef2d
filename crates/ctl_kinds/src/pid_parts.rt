ghost use Rattle.std.specs.Prelude.{◌≡◌, ◌≤◌, ◌^◌, pos, neg_ℤ, ◌+ℤ◌, ◌-ℤ◌, ◌≤ℤ◌};
ghost use Rattle.std.specs.Prelude.{if◌then◌else◌, IsSome};
ghost use Rattle.std.specs.Int.{int_max, int_min};
ghost use Rattle.std.specs.Option.{ForSome};
ghost use Rattle.ctl_face.specs.Floors.{clamped, floor_div};
ghost use Rattle.ctl_face.specs.Pid.{derivative, error_of, feed_forward, has_slew, integral_part};
ghost use Rattle.ctl_face.specs.Pid.{pace, pid_step, proportional};
ghost use Rattle.ctl_face.specs.Pid.{slewed, with_fall, with_rise};
ghost use Rattle.ctl_face.specs.Ranges.{IsMilli, IsValidPid, IsValidSample, IsWithin};
ghost use Rattle.ctl_kinds.specs.Steady.{IsSteady};

use crate::small::small_step;
use crate::wide::{Micro, Wide};
use bmc_base::Milli;
use ctl_face::{CtlState, PidClass, PidSetting, Sample};

// How many steps there are in a second.
fn pace(class: PidClass) -> u8
    ensures value { result ≡ pace class }
    ensures some { 1 ≤ result }
    ensures few { result ≤ 10 }
{
    match class {
        PidClass::Fan => 10,
        PidClass::Temp | PidClass::Margin => 1,
    }
}

// How far the input is below the setpoint.
pub(crate) fn error_of(sample: Sample) -> Milli
    requires { IsValidSample sample }
    ensures { result.0 ≡ error_of sample }
{
    Milli(sample.setpoint.0 - sample.input.0)
}

// The part of the error.
fn proportional(setting: &PidSetting, error: Milli) -> Wide
    requires { IsValidPid setting.now }
    ensures value { result.0 ≡ proportional setting.now error.0 }
    ensures small { IsWithin (2 ^ 110) result.0 }
{
    Micro(setting.p).share(Wide::of(error), 1)
}

// The part of all errors.
fn integral_part(setting: &PidSetting, before: Milli, error: Milli) -> Milli
    requires { IsValidPid setting.now }
    ensures value { result.0 ≡ integral_part setting.now before.0 error.0 }
    ensures small { IsMilli result.0 }
{
    let more = Micro(setting.i).share(Wide::of(error), pace(setting.class));
    more.added_to(before).clamped(setting.i_min, setting.i_max)
}

// The part of the error's change.
fn derivative(setting: &PidSetting, before: Option<i64>, error: Milli) -> Wide
    requires { IsValidPid setting.now }
    ensures value { result.0 ≡ derivative setting.now before error.0 }
    ensures small { IsWithin (2 ^ 110) result.0 }
{
    match before {
        None => Wide(0),
        Some(before) => {
            let change = Wide::difference(error, Milli(before));
            Micro(setting.d).share(change.times(pace(setting.class)), 1)
        }
    }
}

// The part of the setpoint.
fn feed_forward(setting: &PidSetting, setpoint: Milli) -> Wide
    requires { IsValidPid setting.now }
    ensures value { result.0 ≡ feed_forward setting.now setpoint.0 }
    ensures small { IsWithin (2 ^ 110) result.0 }
{
    Micro(setting.ff_gain).share(Wide::sum(setpoint, setting.ff_off), 1)
}

// The part of a slew of a second that is for one step. A divisor that is a constant costs no division.
#[tactic(auto, using(std::proofs::lemmas::Int::ints))]
fn step_slew(slew: Milli, class: PidClass) -> Milli
    ensures { result.0 ≡ floor_div slew.0 (pace class) }
{
    match class {
        PidClass::Fan => Milli(slew.0.div_euclid(10)),
        PidClass::Temp | PidClass::Margin => slew,
    }
}

// The output before, moved by a slew of a second in one step.
#[tactic(auto, using(std::proofs::lemmas::Int::ints))]
fn moved(before: Milli, slew: Milli, class: PidClass) -> Milli
    requires before { IsMilli before.0 }
    requires slew { IsMilli slew.0 }
    ensures value { result.0 ≡ before.0 +ℤ floor_div slew.0 (pace class) }
    ensures falls { slew.0 ≤ℤ pos 0 → result.0 ≤ℤ before.0 }
    ensures rises { pos 0 ≤ℤ slew.0 → before.0 ≤ℤ result.0 }
{
    Milli(before.0 + step_slew(slew, class).0)
}

// The greater number.
#[tactic(auto, using(std::proofs::lemmas::Int::ints))]
fn greater(a: Milli, b: Milli) -> Milli
    ensures value { result.0 ≡ int_max a.0 b.0 }
    ensures small { IsMilli a.0 → b.0 ≤ℤ pos (10 ^ 9) → IsMilli result.0 }
{
    Milli(a.0.max(b.0))
}

// The lesser number.
#[tactic(auto, using(std::proofs::lemmas::Int::ints))]
fn lesser(a: Milli, b: Milli) -> Milli
    ensures value { result.0 ≡ int_min a.0 b.0 }
    ensures small { IsMilli a.0 → neg_ℤ (pos (10 ^ 9)) ≤ℤ b.0 → IsMilli result.0 }
{
    Milli(a.0.min(b.0))
}

// No lower than a fall of one step allows.
fn with_fall(setting: &PidSetting, before: Milli, output: Milli) -> Milli
    requires valid { IsValidPid setting.now }
    requires before { IsMilli before.0 }
    requires output { IsMilli output.0 }
    ensures value { result.0 ≡ with_fall setting.now before.0 output.0 }
    ensures small { IsMilli result.0 }
{
    if setting.slew_neg.0 == 0 {
        return output;
    }
    greater(output, moved(before, setting.slew_neg, setting.class))
}

// No higher than a rise of one step allows.
fn with_rise(setting: &PidSetting, before: Milli, output: Milli) -> Milli
    requires valid { IsValidPid setting.now }
    requires before { IsMilli before.0 }
    requires output { IsMilli output.0 }
    ensures value { result.0 ≡ with_rise setting.now before.0 output.0 }
    ensures small { IsMilli result.0 }
{
    if setting.slew_pos.0 == 0 {
        return output;
    }
    lesser(output, moved(before, setting.slew_pos, setting.class))
}

// Falls and then rises are slewed, where an output was given before.
#[inline(always)]
pub(crate) fn slewed(setting: &PidSetting, before: Option<i64>, output: Milli) -> Milli
    requires valid { IsValidPid setting.now }
    requires before { ForSome before IsMilli }
    requires output { IsMilli output.0 }
    ensures value { result.0 ≡ slewed setting.now before output.0 }
    ensures small { IsMilli result.0 }
{
    match before {
        None => output,
        Some(before) => {
            let before = Milli(before);
            with_rise(setting, before, with_fall(setting, before, output))
        }
    }
}

// Whether falls or rises are slewed.
pub(crate) fn has_slew(setting: &PidSetting) -> bool
    ensures { result ≡ has_slew setting.now }
{
    setting.slew_neg.0 != 0 || setting.slew_pos.0 != 0
}

// The integral behind a step: its part, or with a slew what the output leaves beside the part of
// the error.
fn integral_behind(setting: &PidSetting, output: Milli, p: Wide, i: Milli) -> Milli
    requires valid { IsValidPid setting.now }
    requires p { IsWithin (2 ^ 110) p.0 }
    ensures { result.0 ≡ (if has_slew setting.now
        then clamped setting.now.i_min.0 setting.now.i_max.0 (output.0 -ℤ p.0) else i.0) }
{
    if has_slew(setting) {
        p.taken_from(output).clamped(setting.i_min, setting.i_max)
    } else {
        i
    }
}

// The state after one step, in 128 bits.
#[inline(never)]
fn wide_step(setting: &PidSetting, old: CtlState, sample: Sample) -> CtlState
    requires setting { IsValidPid setting.now }
    requires output { ForSome old.output IsMilli }
    requires sample { IsValidSample sample }
    ensures state { result ≡ pid_step setting.now old sample }
    ensures given { IsSome result.output }
    ensures small { ForSome result.output IsMilli }
{
    let error = error_of(sample);
    let p = proportional(setting, error);
    let i = integral_part(setting, Milli(old.integral), error);
    let d = derivative(setting, old.error, error);
    let f = feed_forward(setting, sample.setpoint);
    let sum = Wide::total(p, i, d, f).clamped(setting.out_min, setting.out_max);
    let output = slewed(setting, old.output, sum);
    CtlState {
        integral: integral_behind(setting, output, p, i).0,
        error: Some(error.0),
        base: old.base,
        output: Some(output.0),
    }
}

// Makes one step. The state is written in place, which saves a copy of it a step.
#[inline(always)]
fn take_step(setting: &PidSetting, state: &mut CtlState, sample: Sample)
    requires setting { IsValidPid setting.now }
    requires output { ForSome state.old.output IsMilli }
    requires sample { IsValidSample sample }
    ensures state { state.new ≡ pid_step setting.now state.old sample }
    ensures given { IsSome state.new.output }
    ensures small { ForSome state.new.output IsMilli }
{
    match small_step(setting, *state, sample) {
        Some(next) => *state = next,
        None => *state = wide_step(setting, *state, sample),
    }
}

// Makes one step, unless the sample is known to leave the state as it is, and keeps the sample if it does so now. While the sample
// of a controller stays, its state soon does too: then a step costs no more than to see that.
#[inline(always)]
pub(crate) fn step_unless_steady(
    setting: &PidSetting,
    state: &mut CtlState,
    steady: &mut Option<Sample>,
    sample: Sample,
)
    requires setting { IsValidPid setting.now }
    requires output { ForSome state.old.output IsMilli }
    requires sample { IsValidSample sample }
    requires steady { ForSome steady.old (IsSteady setting.now state.old) }
    ensures state { state.new ≡ pid_step setting.now state.old sample }
    ensures given { IsSome state.new.output }
    ensures small { ForSome state.new.output IsMilli }
    ensures steady { ForSome steady.new (IsSteady setting.now state.new) }
{
    if *steady == Some(sample) {
        return;
    }
    let before = *state;
    take_step(setting, state, sample);
    *steady = if *state == before { Some(sample) } else { None };
}
