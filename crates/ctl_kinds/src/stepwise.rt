ghost use Rattle.std.specs.Prelude.{◌≡◌, ◌≤◌, ◌+ℤ◌, ◌-ℤ◌, int_lt, length, All, Some, IsSome};
ghost use Rattle.std.specs.Prelude.{is_some};
ghost use Rattle.std.specs.Option.{ForSome};
ghost use Rattle.ctl_face.specs.Ranges.{IsMilli, IsValidRow, IsValidStep};
ghost use Rattle.ctl_face.specs.Seen.{unloaded};
ghost use Rattle.ctl_face.specs.Stepwise.{is_reached, leaves_base, reached_count, row_at};
ghost use Rattle.ctl_face.specs.Stepwise.{stepwise_step};

use crate::blank::BLANK;
use bmc_base::Milli;
use ctl_face::{Controller, CtlState, Kind, Sample, Setting, StepRow, StepSetting};
use std::marker::Model;

/// A box for the setting of a stepwise controller.
#[derive(Debug, Drop)]
pub struct StepBox {
    setting: Option<StepSetting>,
    state: CtlState,
}

impl Model for StepBox {
    ghost use Rattle.ctl_face.specs.Seen.{Seen};
    ghost use Rattle.ctl_kinds.specs.Stepwise.{stepwise_seen, IsSoundStepwise};

    ghost Value = { Seen };

    ghost view = { stepwise_seen };

    ghost invariant = { IsSoundStepwise };
}

impl StepBox {
    /// Returns a box that is not loaded. Takes no memory.
    pub fn new() -> StepBox
        ensures { result ≡ unloaded Kind.Stepwise }
    {
        StepBox {
            setting: None,
            state: BLANK,
        }
    }
}

impl Controller for StepBox {
    ghost seen = { λ b. b };

    fn kind(&self) -> Kind {
        let _state = self.state;
        Kind::Stepwise
    }

    fn load(&mut self, setting: &Setting) {
        match setting {
            Setting::Stepwise(setting) => self.setting = Some(*setting),
            Setting::Pid(_) => unreachable!(),
        }
        self.state = BLANK;
    }

    fn step(&mut self, sample: Sample) -> Milli {
        match &self.setting {
            Some(setting) => {
                self.state = stepwise_step(setting, self.state, sample);
                Milli(self.state.output.unwrap())
            }
            None => unreachable!(),
        }
    }

    fn clear(&mut self) {
        self.setting = None;
        self.state = BLANK;
    }

    fn state(&self) -> CtlState {
        self.state
    }
}

// Whether the input is above the base by more than the band.
#[tactic(auto, using(std::proofs::lemmas::Int::ints))]
fn is_above(base: i64, band: Milli, input: Milli) -> bool
    ensures { result ≡ int_lt (base +ℤ band.0) input.0 }
{
    base as i128 + (band.0 as i128) < input.0 as i128
}

// Whether the input is below the base by more than the band.
#[tactic(auto, using(std::proofs::lemmas::Int::ints))]
fn is_below(base: i64, band: Milli, input: Milli) -> bool
    ensures { result ≡ int_lt input.0 (base -ℤ band.0) }
{
    (input.0 as i128) < base as i128 - band.0 as i128
}

// Whether the input is outside the band round the base, or there is no base.
fn leaves_base(setting: &StepSetting, base: Option<i64>, input: Milli) -> bool
    ensures { result ≡ leaves_base setting.now base input.0 }
{
    match base {
        None => true,
        Some(base) => {
            is_above(base, setting.positive, input) || is_below(base, setting.negative, input)
        }
    }
}

// Whether the input is not below the reading of the row.
fn is_reached(input: Milli, row: &StepRow) -> bool
    ensures { result ≡ is_reached input.0 row.now }
{
    row.reading.0 <= input.0
}

// How many rows are reached, from the first one on.
fn reached_count(rows: &[StepRow], input: Milli) -> usize
    ensures value { result ≡ reached_count rows.now input.0 }
    ensures within { result ≤ length rows.now }
{
    rows.iter().take_while(|row| is_reached(input, row)).count()
}

// The last row of those that are reached, or the first row.
fn row_at(rows: &[StepRow], input: Milli) -> StepRow
    requires some { 1 ≤ length rows.now }
    requires valid { All IsValidRow rows.now }
    ensures value { row_at rows.now input.0 ≡ Some result }
    ensures valid { IsValidRow result }
{
    rows[reached_count(rows, input).saturating_sub(1)]
}

// The state after one step.
fn stepwise_step(setting: &StepSetting, old: CtlState, sample: Sample) -> CtlState
    requires setting { IsValidStep setting.now }
    requires both { is_some old.base ≡ is_some old.output }
    requires small { ForSome old.output IsMilli }
    ensures state { result ≡ stepwise_step setting.now old sample }
    ensures both { is_some result.base ≡ is_some result.output }
    ensures given { IsSome result.output }
    ensures small { ForSome result.output IsMilli }
{
    if !leaves_base(setting, old.base, sample.input) {
        return old;
    }
    let row = row_at(&setting.rows[..setting.count as usize], sample.input);
    CtlState {
        base: Some(sample.input.0),
        output: Some(row.output.0),
        ..old
    }
}
