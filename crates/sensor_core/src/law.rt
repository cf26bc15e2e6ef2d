ghost use Rattle.std.specs.Prelude.{◌≡◌, pos, negsuc, true, false, [], ◌∷◌, Some, None};
ghost use Rattle.sensor_core.specs.Limits.{is_on};
ghost use Rattle.sensor_core.specs.Settings.{value_of};
ghost use Rattle.sensor_core.specs.Sensors.{Good, Lost, has_failed, age_at, is_bad};
ghost use Rattle.sensor_core.specs.Laws.{ValuesAreFloors, AlarmsAreRaised};
ghost use Rattle.sensor_core.specs.Examples.{hot, cold, halved, millis, losses_then, after};

/// The quotient of a raw number is the largest whole number that is not above the exact one, also
/// below zero.
pub fn values_are_floors()
    ensures { ValuesAreFloors }
{}

/// An alarm is on exactly where one of the values is beyond the limit and no later one is back from
/// it.
pub fn alarms_are_raised()
    ensures { AlarmsAreRaised }
{}

/// What a sensor shows of some outcomes.
pub fn sensor_examples()
    ensures on { is_on hot (millis (pos 100000 ∷ [])) ≡ true }
    ensures below { is_on hot (millis (pos 99999 ∷ [])) ≡ false }
    ensures kept { is_on hot (millis (pos 95000 ∷ pos 100000 ∷ [])) ≡ true }
    ensures off { is_on hot (millis (pos 94999 ∷ pos 95000 ∷ pos 100000 ∷ [])) ≡ false }
    ensures between { is_on hot (millis (pos 99999 ∷ pos 94999 ∷ pos 100000 ∷ [])) ≡ false }
    ensures cold_kept { is_on cold (millis (pos 0 ∷ negsuc 0 ∷ [])) ≡ true }
    ensures cold_off { is_on cold (millis (pos 1 ∷ pos 0 ∷ [])) ≡ false }
    ensures rounded { value_of halved (pos 1) ≡ record { 0 = pos 50 } }
    ensures rounded_down { value_of halved (negsuc 0) ≡ record { 0 = pos 49 } }
    ensures nothing { (after []).value ≡ None }
    ensures four { has_failed (after (losses_then 4 [])) ≡ false }
    ensures five { has_failed (after (losses_then 5 (Good (pos 1) 3 ∷ []))) ≡ true }
    ensures six { has_failed (after (losses_then 6 [])) ≡ true }
    ensures again { has_failed (after (losses_then 4 (Good (pos 1) 3 ∷ losses_then 4 []))) ≡ false }
    ensures value { (after (Lost ∷ Good (pos 2) 4 ∷ Good (pos 1) 3 ∷ [])).value ≡ Some (record { 0 = pos 51 }) }
    ensures alarms { (after (Good (negsuc 99) 4 ∷ Good (pos 200000) 3 ∷ [])).alarms ≡ false ∷ true ∷ [] }
    ensures age { age_at (after (Lost ∷ Good (pos 1) 3 ∷ [])) 23 ≡ Some 20 }
    ensures in_time { is_bad (after (Good (pos 1) 3 ∷ [])) 23 ≡ false }
    ensures too_late { is_bad (after (Good (pos 1) 3 ∷ [])) 24 ≡ true }
    ensures bad_at_first { is_bad (after []) 0 ≡ true }
{}
