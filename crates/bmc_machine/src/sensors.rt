ghost use Rattle.std.specs.Prelude.{◌≡◌, ◌∷◌, [], ℕ, ℤ, true, false, bytes_eq, if◌then◌else◌, List, Some, None, IfSome, option_map};
ghost use Rattle.cfg_json.specs.declared.item.Item.{Item};
ghost use Rattle.inventory.specs.declared.family.Family.TheVariants as families;
ghost use Rattle.inventory.specs.Items.{holder, items_less};
ghost use Rattle.sensor_core.specs.Settings.{IsValidSetting};
ghost use Rattle.sensor_core.specs.Updates.{good_after, lost_after};
ghost use Rattle.bmc_machine.specs.Histories.{Step, Read, Lose, standing, is_idle_step, is_tick, tick_of};
ghost use Rattle.bmc_machine.specs.Indexes.{kept, boards_now, items_now, live_now};
ghost use Rattle.live_sensors.specs.Items.{blank_in, settled};
ghost use Rattle.bmc_machine.specs.Lives.{has_id, IsNoOutcome, sensor_now};
ghost use Rattle.bmc_machine.specs.Refusals.{IsLegal};
ghost use Rattle.bmc_machine.specs.Changes.{Inventory, inventory, changes_between, changes_of_sensor, changes_of_sensors, changes};

/// A reading, a loss, a tick and a plug that is refused leave the configurations and the FRUs that are present, the boards with
/// their indexes, the items and what of them is live. From a moment to itself nothing changes.
pub fn idle_steps()
    ensures standing { (step : Step) (past : List Step) → is_idle_step step ≡ true → standing (step ∷ past) ≡ standing past }
    ensures kept { (step : Step) (past : List Step) → is_idle_step step ≡ true → kept (step ∷ past) ≡ kept past }
    ensures boards { (step : Step) (past : List Step) → is_idle_step step ≡ true → boards_now (step ∷ past) ≡ boards_now past }
    ensures items { (step : Step) (past : List Step) → is_idle_step step ≡ true → items_now (step ∷ past) ≡ items_now past }
    ensures live { (step : Step) (past : List Step) → is_idle_step step ≡ true → live_now (step ∷ past) ≡ live_now past }
    ensures inventory { (step : Step) (past : List Step) → is_idle_step step ≡ true → inventory (step ∷ past) ≡ inventory past }
    ensures nothing { (now : Inventory) → changes_between now now ≡ [] }
{}

/// A step that is no reading and no loss changes what no sensor shows, but which sensors there are. If it is no tick either,
/// no zone and no fan shows anything else than before.
pub fn sensors_wait()
    ensures sensors { (past : List Step) (step : Step) → IsNoOutcome step → changes_of_sensors past step ≡ [] }
    ensures changes { (past : List Step) (step : Step) → IsNoOutcome step → is_tick step ≡ false
        → changes past step ≡ changes_between (inventory past) (inventory (step ∷ past)) }
{}

/// Over a step of a legal history that is no reading and no loss, an item that stays live keeps its sensor. One that was not
/// live before starts with a blank one, also where it was live at some time before that. A name that no live item has has no
/// sensor.
pub fn sensors_stay()
    ensures stays { (past : List Step) (step : Step) (name : List ℕ) (item : Item) → IsLegal (step ∷ past) → IsNoOutcome step
        → holder (live_now (step ∷ past)) families.Sensor name ≡ Some item → has_id (live_now past) item.id ≡ true
        → sensor_now (step ∷ past) name ≡ sensor_now past name }
    ensures blank { (past : List Step) (step : Step) (name : List ℕ) (item : Item)
        → holder (live_now (step ∷ past)) families.Sensor name ≡ Some item → has_id (live_now past) item.id ≡ false
        → sensor_now (step ∷ past) name ≡ blank_in item.part }
    ensures none { (past : List Step) (name : List ℕ) → holder (live_now past) families.Sensor name ≡ None → sensor_now past name ≡ None }
{}

/// So the sensors after such a step are those before it, without those of the live items that are gone, and with blank ones
/// for the live items that are new.
pub fn sensors_settle()
    ensures { (past : List Step) (step : Step) (name : List ℕ) → IsLegal (step ∷ past) → IsNoOutcome step
        → sensor_now (step ∷ past) name ≡ settled (items_less (live_now past) (live_now (step ∷ past)))
        (items_less (live_now (step ∷ past)) (live_now past)) name (sensor_now past name) }
{}

/// A reading of the sensor of a name makes of it what a reading makes of a sensor, and a loss what a loss does. No other
/// sensor shows anything else than before, and nothing changes but what the sensor of the name shows.
pub fn sensors_are_told()
    ensures read { (past : List Step) (name other : List ℕ) (raw : ℤ) → IfSome (sensor_now past name) (λ sensor. IsValidSetting sensor.setting)
        → sensor_now (Read name raw ∷ past) other
        ≡ (if bytes_eq other name then option_map (λ sensor. good_after sensor raw (tick_of past)) (sensor_now past other) else sensor_now past other) }
    ensures lost { (past : List Step) (name other : List ℕ) → sensor_now (Lose name ∷ past) other
        ≡ (if bytes_eq other name then option_map lost_after (sensor_now past other) else sensor_now past other) }
    ensures changes_read { (past : List Step) (name : List ℕ) (raw : ℤ) → IfSome (sensor_now past name) (λ sensor. IsValidSetting sensor.setting)
        → IsLegal past → changes past (Read name raw) ≡ changes_of_sensor name (sensor_now past name) (sensor_now (Read name raw ∷ past) name) }
    ensures changes_lost { (past : List Step) (name : List ℕ) → IsLegal past
        → changes past (Lose name) ≡ changes_of_sensor name (sensor_now past name) (sensor_now (Lose name ∷ past) name) }
{}
