ghost use Rattle.std.specs.Prelude.{◌≡◌, ◌<◌, ◌≤◌, ◌^◌, true, false, [], IfOk, length, map};
ghost use Rattle.std.specs.List.{All};
ghost use Rattle.ctl_face.specs.Seen.{unloaded};
ghost use Rattle.fan_zone.specs.IsSets.{IsSet};
ghost use Rattle.fan_zone.specs.IsTicks.{StepsOwnBoxes};
ghost use Rattle.fan_zone.specs.Settings.{CanSet, set_to};
ghost use Rattle.fan_zone.specs.Live.{items_of};
ghost use Rattle.fan_zone.specs.Failsafe.{IsFailsafe};
ghost use Rattle.fan_zone.specs.Sound.{most_fans, most_zones};
ghost use Rattle.fan_zone.specs.Steady.{has_bad_input_now};
ghost use Rattle.fan_zone.specs.Ticks.{no_zones, ticked};
ghost use Rattle.sensor_core.specs.Fresh.{IsGoodFor};

use crate::bank::Bank;
use crate::held::Held;
use crate::passes::{step_fans, step_thermals};
use crate::reading::good_until;
use crate::renew::{controllers_of, renew_fans, renew_zones};
use crate::rows::{FanPlan, FanRow, ZonePlan, ZoneRow};
use crate::seats::renew_seats;
use crate::showing::{grow_ages, is_some_due, show_fans, show_zones};
use bmc_base::OutOfMemory;
use cfg_json::Item;
use ctl_face::Controller;
use live_sensors::LiveSensors;
use sensor_core::SensorTable;
use std::alloc::Global;
use std::marker::Model;

// For how many zones there is room.
const MOST_ZONES: usize = 32;

// For how many fans there is room.
const MOST_FANS: usize = 128;

/// The zones of the live items with their controllers and their fans, over a bank of boxes, which are controllers that the
/// caller made. It never chooses by what a box computes: a controller gets a box of the kind of its setting.
#[derive(Drop)]
pub struct Zones<C: Controller> {
    bank: Bank<C>,
    held: Vec<Held>,
    zone_plans: Vec<ZonePlan>,
    zone_rows: Vec<ZoneRow>,
    fan_plans: Vec<FanPlan>,
    fan_rows: Vec<FanRow>,
    taken: Vec<usize>,
    next: Vec<Held>,
    next_zone_plans: Vec<ZonePlan>,
    next_zone_rows: Vec<ZoneRow>,
    next_fan_plans: Vec<FanPlan>,
    next_fan_rows: Vec<FanRow>,
    // Whether a controller may be at the first of ten ticks of its run. Where none is, no thermal controller steps.
    due: bool,
    // Whether it is known that no zone shows failsafe, and each the setpoint that its controllers give now.
    steady: bool,
}

impl<C: Controller> Model for Zones<C> {
    ghost use Rattle.fan_zone.specs.Ticks.{ZonesView, view_of};
    ghost use Rattle.std.specs.Prelude.{◌≡◌, true, false, length};
    ghost use Rattle.std.specs.Vec.{vec_capacity};
    ghost use Rattle.fan_zone.specs.Settings.{HasRoom};
    ghost use Rattle.fan_zone.specs.Sound.{IsSound, most_zones, most_fans};
    ghost use Rattle.fan_zone.specs.Steady.{is_due, IsSteady};

    ghost Value = { ZonesView };

    ghost view = { λ z. view_of z.bank z.held.items z.zone_plans.items z.zone_rows.items z.fan_plans.items z.fan_rows.items };

    ghost invariant = { λ z. IsSound (view_of z.bank z.held.items z.zone_plans.items z.zone_rows.items z.fan_plans.items z.fan_rows.items)
        × HasRoom z.next.items (length z.bank) (vec_capacity z.held) (vec_capacity z.next)
        × HasRoom z.taken.items (length z.bank) (vec_capacity z.taken) (vec_capacity z.taken)
        × HasRoom z.next_zone_plans.items most_zones (vec_capacity z.zone_plans) (vec_capacity z.next_zone_plans)
        × HasRoom z.next_zone_rows.items most_zones (vec_capacity z.zone_rows) (vec_capacity z.next_zone_rows)
        × HasRoom z.next_fan_plans.items most_fans (vec_capacity z.fan_plans) (vec_capacity z.next_fan_plans)
        × HasRoom z.next_fan_rows.items most_fans (vec_capacity z.fan_rows) (vec_capacity z.next_fan_rows)
        × (z.due ≡ false → is_due z.held.items ≡ false)
        × (z.steady ≡ true → IsSteady (view_of z.bank z.held.items z.zone_plans.items z.zone_rows.items z.fan_plans.items z.fan_rows.items)) };
}

impl<C: Controller> Zones<C> {
    /// Returns no zones, over a bank of boxes that are not loaded. All memory that is ever needed is taken here: for as many
    /// controllers as there are boxes, for 32 zones and for 128 fans.
    #[tactic(auto, using(crate::proofs::Clearing::all_spare, crate::proofs::FindRows::none_alike))]
    pub fn new(alloc: Global, bank: Vec<C>) -> Result<Zones<C>, OutOfMemory>
        requires { All (λ seen. seen ≡ unloaded seen.kind) (map C.seen bank.items) }
        ensures { IfOk result (λ zones. zones ≡ no_zones (map C.seen bank.items)) }
    {
        let bank = Bank::new(alloc, bank)?;
        let boxes = bank.len();
        Ok(Zones {
            bank,
            held: Vec::with_capacity(alloc, boxes)?,
            zone_plans: Vec::with_capacity(alloc, MOST_ZONES)?,
            zone_rows: Vec::with_capacity(alloc, MOST_ZONES)?,
            fan_plans: Vec::with_capacity(alloc, MOST_FANS)?,
            fan_rows: Vec::with_capacity(alloc, MOST_FANS)?,
            taken: Vec::with_capacity(alloc, boxes)?,
            next: Vec::with_capacity(alloc, boxes)?,
            next_zone_plans: Vec::with_capacity(alloc, MOST_ZONES)?,
            next_zone_rows: Vec::with_capacity(alloc, MOST_ZONES)?,
            next_fan_plans: Vec::with_capacity(alloc, MOST_FANS)?,
            next_fan_rows: Vec::with_capacity(alloc, MOST_FANS)?,
            due: true,
            steady: false,
        })
    }

    /// Makes the zones, the controllers and the fans those of these live items, where each sensor of `sensors` holds its name.
    /// A controller that was there keeps its box with its state, and its age. Each other box is unloaded, and then each new
    /// controller gets a box of its kind: of those that no controller has, the one with the least number, loaded and blank.
    /// A zone or a fan that was there shows what it showed, until the next tick. Takes no memory.
    pub fn set(&mut self, live: &[&Item], sensors: &LiveSensors)
        requires { CanSet self.old (items_of live.now) }
        ensures means { IsSet self.old (items_of live.now) sensors.now self.new }
        ensures exact { self.new ≡ set_to (items_of live.now) sensors.now self.old }
    {
        renew_zones(
            &mut self.zone_plans,
            &mut self.zone_rows,
            &mut self.next_zone_plans,
            &mut self.next_zone_rows,
            live,
        );
        let controllers = controllers_of(&self.zone_rows, live);
        renew_fans(
            &mut self.fan_plans,
            &mut self.fan_rows,
            &mut self.next_fan_plans,
            &mut self.next_fan_rows,
            controllers,
            live,
        );
        renew_seats(
            &mut self.bank,
            &mut self.held,
            &mut self.taken,
            &mut self.next,
            &self.zone_rows,
            sensors,
            controllers,
        );
        self.due = true;
        self.steady = false;
    }

    /// Returns the last tick up to which no input of a controller is bad, as long as the sensors stay as they are, or none where an
    /// input is bad at tick `now`. It is `u64::MAX` where none ever will be.
    pub fn good_until(&self, sensors: &SensorTable, now: u64) -> Option<u64>
        ensures { IsGoodFor (λ tick. has_bad_input_now sensors.now.slots tick self.now.held) now result }
    {
        good_until(sensors, now, &self.held)
    }

    /// Makes one tick, at tick `now`. First each thermal controller whose turn it is steps, at the 1st, 11th, 21st and so on
    /// tick of its run, where one of its inputs is good; then each zone shows its setpoint, and whether it is in failsafe; then
    /// each fan controller steps by the setpoint of its zone; and then each fan shows its duty. In failsafe a fan gets the
    /// zone's FailSafePercent at the least, and in strict mode exactly that. Takes no memory.
    ///
    /// `good` may be true only where no input is bad at this tick. Then no step asks whether an input is bad, and at a tick at which no
    /// controller is due zones are left as they are.
    pub fn tick(&mut self, sensors: &SensorTable, now: u64, strict: bool, good: bool)
        requires good { good ≡ true → has_bad_input_now sensors.now.slots now self.old.held ≡ false }
        ensures ticked { self.new ≡ ticked sensors.now.slots now strict self.old }
        ensures failsafe { IsFailsafe sensors.now.slots now strict self.new }
        ensures steps { StepsOwnBoxes sensors.now.slots now self.old self.new }
    {
        let stay = good & self.steady & !self.due;
        step_thermals(&mut self.bank, &self.held, sensors, now, self.due, good);
        show_zones(
            &mut self.zone_rows,
            &self.zone_plans,
            &self.held,
            &self.bank,
            sensors,
            now,
            stay,
        );
        step_fans(
            &mut self.bank,
            &self.held,
            &self.zone_rows,
            sensors,
            now,
            good,
        );
        show_fans(
            &mut self.fan_rows,
            &self.fan_plans,
            &self.held,
            &self.bank,
            &self.zone_plans,
            &self.zone_rows,
            strict,
        );
        grow_ages(&mut self.held);
        self.due = is_some_due(&self.held);
        self.steady = good;
    }

    /// Borrows what is shown of the zones, in item order. There are at most 32.
    pub fn zone_rows(&self) -> &[ZoneRow]
        ensures rows { result.now ≡ self.now.zone_rows }
        ensures few { length result.now ≤ most_zones }
    {
        &self.zone_rows
    }

    /// Borrows what is shown of the fans, in item order. There are at most 128.
    pub fn fan_rows(&self) -> &[FanRow]
        ensures rows { result.now ≡ self.now.fan_rows }
        ensures few { length result.now ≤ most_fans }
    {
        &self.fan_rows
    }
}
