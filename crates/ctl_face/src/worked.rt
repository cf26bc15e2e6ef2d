ghost use Rattle.std.specs.Prelude.{◌≡◌, [], ◌∷◌, pos, neg_ℤ};
ghost use Rattle.ctl_face.specs.Floors.{floor_div};
ghost use Rattle.ctl_face.specs.Worked.{bases, errors, given, integrals, outputs, states};
ghost use Rattle.ctl_face.specs.Worked.{falling_samples, fan_samples, rising_samples};
ghost use Rattle.ctl_face.specs.Worked.{fan, temperature, three_rows, two_rows};
ghost use Rattle.ctl_face.specs.Worked.{temperature_samples};
ghost use Rattle.ctl_face.specs.declared.setting.Setting.TheVariants.{Pid, Stepwise};

/// A temperature with a slew, computed from the definitions. In the third step the part of the
/// error is less than a thousandth below 0, and is rounded down.
pub fn worked_temperature()
    ensures floor { floor_div (neg_ℤ (pos 300000)) 1000000 ≡ neg_ℤ (pos 1) }
    ensures outputs { outputs (states (Pid temperature) temperature_samples)
        ≡ given (pos 5000 ∷ pos 10000 ∷ pos 0 ∷ []) }
    ensures integrals { integrals (states (Pid temperature) temperature_samples)
        ≡ pos 2000 ∷ neg_ℤ (pos 5000) ∷ pos 1 ∷ [] }
{}

/// A fan with all parts, computed from the definitions: it falls by no more than 1.501 in one step.
pub fn worked_fan()
    ensures outputs { outputs (states (Pid fan) fan_samples)
        ≡ given (pos 31525 ∷ pos 55672 ∷ pos 54171 ∷ pos 52670 ∷ []) }
    ensures integrals { integrals (states (Pid fan) fan_samples)
        ≡ pos 25353 ∷ pos 30000 ∷ pos 30000 ∷ pos 30000 ∷ [] }
    ensures errors { errors (states (Pid fan) fan_samples)
        ≡ given (pos 500000 ∷ pos 99999 ∷ neg_ℤ (pos 600007) ∷ neg_ℤ (pos 100000) ∷ []) }
{}

/// Rows with a hysteresis, and rows out of order, computed from the definitions. A row behind one
/// that is not reached does not count.
pub fn worked_stepwise()
    ensures outputs { outputs (states (Stepwise two_rows) falling_samples)
        ≡ given (pos 4000000 ∷ pos 4000000 ∷ pos 4000000 ∷ pos 4000000
        ∷ pos 2000000 ∷ pos 2000000 ∷ []) }
    ensures bases { bases (states (Stepwise two_rows) falling_samples)
        ≡ given (pos 45000 ∷ pos 45000 ∷ pos 42999 ∷ pos 42999 ∷ pos 39999 ∷ pos 10000 ∷ []) }
    ensures unordered { outputs (states (Stepwise three_rows) rising_samples)
        ≡ given (pos 3000 ∷ pos 3000 ∷ pos 3000 ∷ pos 3000 ∷ pos 1000 ∷ pos 1000 ∷ pos 3000 ∷ []) }
{}
