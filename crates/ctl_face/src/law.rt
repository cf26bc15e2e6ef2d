ghost use Rattle.std.specs.Prelude.{ℕ, ◌<◌, ℤ, pos, ◌+ℤ◌, ◌*ℤ◌, ◌≤ℤ◌, ◌<ℤ◌};
ghost use Rattle.std.specs.Option.{ForSome};
ghost use Rattle.ctl_face.specs.Floors.{floor_div};
ghost use Rattle.ctl_face.specs.Pid.{pid_output};
ghost use Rattle.ctl_face.specs.Ranges.{IsOutput, IsValidPid};
ghost use Rattle.ctl_face.specs.declared.sample.Sample.{Sample};
ghost use Rattle.ctl_face.specs.declared.setting.PidSetting.{PidSetting};
ghost use Rattle.ctl_face.specs.declared.state.CtlState.{CtlState};

/// Division rounds down: the quotient is not above, and the next number is.
pub fn floors()
    ensures not_above { (z : ℤ) (n : ℕ) → 0 < n → (floor_div z n *ℤ pos n) ≤ℤ z }
    ensures next_above { (z : ℤ) (n : ℕ) → 0 < n → z <ℤ ((floor_div z n +ℤ pos 1) *ℤ pos n) }
{}

/// Outputs stay within the limits of the setting: a step behind an output within them, or behind
/// none, gives one within them. So the outputs for a fan are never below 0 or above 100 percent.
pub fn outputs_within_limits()
    ensures { (setting : PidSetting) (old : CtlState) (sample : Sample) →
        IsValidPid setting → ForSome old.output (IsOutput setting) →
        IsOutput setting (pid_output setting old sample) }
{}
