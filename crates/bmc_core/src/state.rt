ghost use Rattle.std.specs.Prelude.{◌≡◌, Ok, IfOk, map};
ghost use Rattle.bmc_machine.specs.Histories.{Options, begun, Configure, Plug, Unplug, Read, Lose, Tick};
ghost use Rattle.bmc_core.specs.Acts.{step_of, StateApplies, IsCounted};
ghost use Rattle.bmc_core.specs.Cores.{IsStated};
ghost use Rattle.bmc_core.specs.Failsafe.{IsFailsafe};
ghost use Rattle.bmc_core.specs.States.{StateStands, ticked_state};

use crate::acting::renew_zones;
use crate::input_health::{InputHealth, health_after};
use crate::senses::Senses;
use crate::{Act, CoreFault};
use bmc_base::{Ledger, OutOfMemory, Place, Steps};
use bmc_watch::Panel;
use cfg_json::Config;
use ctl_face::Controller;
use fan_zone::Zones;
use std::alloc::Global;
use std::marker::Model;

/// The state of a core: what is known of the bus and of the sensors, the zones over a bank of boxes, and what the last act
/// changed. Beside that it keeps a panel, on which each tick notes what zones and fans showed before it, and what is known of the
/// inputs of controllers.
#[derive(Drop)]
pub(crate) struct State<L: Ledger, C: Controller> {
    senses: Senses<L>,
    zones: Zones<C>,
    strict: bool,
    panel: Panel,
    health: InputHealth,
}

impl<L: Ledger, C: Controller> Model for State<L, C> {
    ghost use Rattle.bmc_core.specs.States.{StateView, IsState};
    ghost use Rattle.bmc_core.specs.Health.{IsTrueOf};

    ghost Value = { StateView };

    ghost view = { λ s. record { senses = s.senses; zones = s.zones; strict = s.strict } };

    ghost invariant = { λ s. IsState (record { senses = s.senses; zones = s.zones; strict = s.strict })
        × IsTrueOf s.senses.sensors.slots s.zones.held s.health };
}

impl<L: Ledger, C: Controller> State<L, C> {
    /// Returns the state to which nothing has happened, over a bank with at least 128 boxes for PID controllers and 64 for
    /// stepwise ones, none of which is loaded. In strict mode a zone in failsafe commands exactly its FailSafePercent. It takes
    /// the room for all that zones ever hold, and for the changes of an act that takes no memory, once.
    pub(crate) fn new(alloc: Global, bank: Vec<C>, strict: bool) -> Result<State<L, C>, OutOfMemory>
        requires { IsStated (map C.seen bank.items) }
        ensures { IfOk result (λ state. (options : Options) → options.strict ≡ strict → StateStands state (begun options)) }
    {
        let senses = Senses::new(alloc)?;
        let zones = Zones::new(alloc, bank)?;
        Ok(State {
            senses,
            zones,
            strict,
            panel: Panel::new(),
            health: InputHealth::Unknown,
        })
    }

    /// Borrows what is known of the bus and of the sensors, with the tick count and the last changes.
    pub(crate) fn senses(&self) -> &Senses<L>
        ensures { result.now ≡ self.now.senses }
    {
        &self.senses
    }

    /// Borrows the zones.
    pub(crate) fn zones(&self) -> &Zones<C>
        ensures { result.now ≡ self.now.zones }
    {
        &self.zones
    }

    // Takes a configuration.
    #[inline(never)]
    fn configure(
        &mut self,
        alloc: Global,
        config: Config<L>,
        steps: &mut Steps<L>,
    ) -> Result<(), CoreFault>
        ensures applies { StateApplies self.old (Configure config) result self.new }
        ensures counted { IsCounted result self.old.senses (Configure config) steps.old steps.new }
    {
        match self.senses.configure(alloc, config, steps) {
            Ok(()) => {
                let left = renew_zones(&mut self.zones, self.senses.watch(), self.senses.sensors());
                self.health = self.health.after_event(left);
                Ok(())
            }
            Err(fault) => Err(fault),
        }
    }

    // Takes a FRU that appeared.
    #[inline(never)]
    fn plug(
        &mut self,
        alloc: Global,
        place: Place,
        bytes: &[u8],
        steps: &mut Steps<L>,
    ) -> Result<(), CoreFault>
        ensures applies { StateApplies self.old (Plug place bytes.now) result self.new }
        ensures counted { IsCounted result self.old.senses (Plug place bytes.now) steps.old steps.new }
    {
        match self.senses.plug(alloc, place, bytes, steps) {
            Ok(()) => {
                let left = renew_zones(&mut self.zones, self.senses.watch(), self.senses.sensors());
                self.health = self.health.after_event(left);
                Ok(())
            }
            Err(fault) => Err(fault),
        }
    }

    // Takes away the FRU at a place.
    #[inline(never)]
    fn unplug(&mut self, alloc: Global, place: Place, steps: &mut Steps<L>) -> Result<(), CoreFault>
        ensures applies { StateApplies self.old (Unplug place) result self.new }
        ensures counted { IsCounted result self.old.senses (Unplug place) steps.old steps.new }
    {
        match self.senses.unplug(alloc, place, steps) {
            Ok(()) => {
                let left = renew_zones(&mut self.zones, self.senses.watch(), self.senses.sensors());
                self.health = self.health.after_event(left);
                Ok(())
            }
            Err(fault) => Err(fault),
        }
    }

    // Takes a good reading of a sensor.
    #[inline(always)]
    fn read(&mut self, name: &str, raw: i64) -> Result<(), CoreFault>
        ensures { StateApplies self.old (Read name.now raw) result self.new }
    {
        self.senses.read(name, raw, &mut self.health)
    }

    // Takes the loss of a reading of a sensor.
    fn lose(&mut self, name: &str) -> Result<(), CoreFault>
        ensures { StateApplies self.old (Lose name.now) result self.new }
    {
        self.senses.lose(name, &mut self.health)
    }

    /// Lets a tick pass: it is counted, controllers step, and zones and fans show what comes of it. It is never refused, and
    /// takes no memory.
    pub(crate) fn tick(&mut self)
        ensures exact { self.new ≡ ticked_state self.old }
        ensures applies { StateApplies self.old Tick (Ok tt) self.new }
        // Whatever happened before: each live fan that a controller of a zone with a failed, missing or stale input holds is
        // commanded at least the FailSafePercent of the zone, and in strict mode exactly that.
        ensures failsafe { IsFailsafe self.new }
    {
        self.panel
            .note(self.zones.zone_rows(), self.zones.fan_rows());
        self.senses.count_tick();
        let now = self.senses.ticks();
        let good = self.health.is_good_at(now);
        let sensors = self.senses.sensors().table();
        self.zones.tick(sensors, now, self.strict, good);
        self.health = health_after(self.health, good, &self.zones, sensors, now);
        self.senses
            .tell_tick(&self.panel, self.zones.zone_rows(), self.zones.fan_rows());
    }

    /// Does an act, or returns why it is not done. Readings, losses and ticks take no memory; all else takes its memory first,
    /// and then changes.
    #[inline(always)]
    pub(crate) fn apply(
        &mut self,
        alloc: Global,
        act: Act<'_, L>,
        steps: &mut Steps<L>,
    ) -> Result<(), CoreFault>
        ensures applies { StateApplies self.old (step_of act.entry) result self.new }
        ensures counted { IsCounted result self.old.senses (step_of act.entry) steps.old steps.new }
        ensures failsafe { step_of act.entry ≡ Tick → (result ≡ Ok tt) × IsFailsafe self.new }
    {
        match act {
            Act::Config(config) => self.configure(alloc, config, steps),
            Act::Plug(place, bytes) => self.plug(alloc, place, bytes, steps),
            Act::Unplug(place) => self.unplug(alloc, place, steps),
            Act::Good(name, raw) => self.read(name, raw),
            Act::Lost(name) => self.lose(name),
            Act::Tick => {
                self.tick();
                Ok(())
            }
        }
    }
}
