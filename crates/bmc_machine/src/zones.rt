ghost use Rattle.std.specs.Prelude.{◌≡◌, ◌∷◌, ℕ, List};
ghost use Rattle.live_sensors.specs.Sensors.{LiveSensors, sensor_in};
ghost use Rattle.fan_zone.specs.Ticks.{ZonesView, ticked};
ghost use Rattle.bmc_machine.specs.Changes.{changes, changes_of_zones};
ghost use Rattle.bmc_machine.specs.Histories.{Step, Tick, is_strict};
ghost use Rattle.bmc_machine.specs.Lives.{sensor_now};
ghost use Rattle.bmc_machine.specs.Refusals.{IsLegal};
ghost use Rattle.bmc_machine.specs.Turns.{next_tick};
ghost use Rattle.bmc_machine.specs.Zones.{ZonesStand};

/// Zones that stand for a history stand after a tick for the history with the tick, where each name has the sensor that the
/// history gives it. A tick changes what zones and fans show, and nothing else.
pub fn zones_tick()
    ensures stand { (past : List Step) (sensors : LiveSensors) (view : ZonesView) → IsLegal past
        → ((name : List ℕ) → sensor_in sensors name ≡ sensor_now past name) → ZonesStand view sensors past
        → ZonesStand (ticked sensors.slots (next_tick past) (is_strict past) view) sensors (Tick ∷ past) }
    ensures changes { (past : List Step) → changes past Tick ≡ changes_of_zones past Tick }
{}
