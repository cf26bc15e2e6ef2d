ghost use Rattle.std.specs.Prelude.{◌≡◌, ◌≤◌, List, [], Err, IfOk, length};
ghost use Rattle.bmc_base.specs.Counts.{raised};
ghost use Rattle.bmc_machine.specs.Histories.{Configure, Plug, Unplug, Read, Lose};
ghost use Rattle.bmc_core.specs.declared.fault.CoreFault.{CoreFault as Fault};
ghost use Rattle.bmc_core.specs.Acts.{answer_of, Notes, IsCounted};
ghost use Rattle.bmc_core.specs.Health.{IsTrueOf};
ghost use Rattle.bmc_core.specs.Senses.{KeepsSlots, SensesStand, quiet_senses};
ghost use Rattle.bmc_watch.specs.Panels.{panel_changes};
ghost use Rattle.fan_zone.specs.Sound.{most_zones, most_fans};
ghost use Rattle.fan_zone.specs.declared.held.Held.{Held};

use crate::CoreFault;
use crate::input_health::InputHealth;
use bmc_base::{Ledger, OutOfMemory, Place, Steps};
use bmc_report::{Change, Refusal};
use bmc_watch::{Glimpse, Panel, Watch};
use cfg_json::Config;
use fan_zone::{FanRow, ZoneRow};
use live_sensors::LiveSensors;
use sensor_core::ReadingRange;
use std::alloc::Global;
use std::marker::Model;

/// What is known of the bus, the live sensors, and the tick count; and what the last act changed.
#[derive(Drop)]
pub(crate) struct Senses<L: Ledger> {
    watch: Watch<L>,
    sensors: LiveSensors,
    ticks: u64,
}

impl<L: Ledger> Model for Senses<L> {
    ghost use Rattle.bmc_core.specs.Senses.{SensesView};

    ghost Value = { SensesView };

    ghost view = { λ s. record { watch = s.watch; sensors = s.sensors; ticks = s.ticks } };
}

// What came of a step that was tried.
fn answer(tried: Result<Option<Refusal>, OutOfMemory>) -> Result<(), CoreFault>
    ensures { result ≡ answer_of tried }
{
    match tried {
        Ok(None) => Ok(()),
        Ok(Some(refusal)) => Err(CoreFault::Refused(refusal)),
        Err(OutOfMemory) => Err(CoreFault::OutOfMemory),
    }
}

impl<L: Ledger> Senses<L> {
    /// Returns those to which nothing has happened. They take the room for the changes of an act that takes no memory, once.
    pub(crate) fn new(alloc: Global) -> Result<Senses<L>, OutOfMemory>
        ensures { IfOk result (λ senses. SensesStand senses []) }
    {
        let watch = Watch::new(alloc)?;
        let sensors = LiveSensors::new(alloc)?;
        Ok(Senses {
            watch,
            sensors,
            ticks: 0,
        })
    }

    /// Borrows what is known of the bus.
    pub(crate) fn watch(&self) -> &Watch<L>
        ensures { result.now ≡ self.now.watch }
    {
        &self.watch
    }

    /// Borrows the live sensors.
    pub(crate) fn sensors(&self) -> &LiveSensors
        ensures { result.now ≡ self.now.sensors }
    {
        &self.sensors
    }

    /// Returns the number of ticks that have passed.
    pub(crate) fn ticks(&self) -> u64
        ensures { result ≡ self.now.ticks }
    {
        self.ticks
    }

    /// Counts a tick.
    pub(crate) fn count_tick(&mut self)
        ensures { self.new ≡ record self.old { ticks = raised self.old.ticks 1 } }
    {
        self.ticks = self.ticks.saturating_add(1);
    }

    /// Lists what zones and fans show otherwise than before a tick, in place of the last changes.
    pub(crate) fn tell_tick(&mut self, before: &Panel, zones: &[ZoneRow], fans: &[FanRow])
        requires zones { length zones.now ≤ most_zones }
        requires fans { length fans.now ≤ most_fans }
        ensures { self.new ≡ record self.old { watch = record self.old.watch { changes = panel_changes before.now zones.now fans.now } } }
    {
        self.watch.tell_tick(before, zones, fans);
    }

    // Refuses an act, and forgets the last changes.
    fn refuse(&mut self, refusal: Refusal) -> Result<(), CoreFault>
        ensures result { result ≡ Err (Fault.Refused refusal) }
        ensures left { self.new ≡ quiet_senses self.old }
    {
        self.watch.forget_changes();
        Err(CoreFault::Refused(refusal))
    }

    /// Takes a configuration.
    pub(crate) fn configure(
        &mut self,
        alloc: Global,
        config: Config<L>,
        steps: &mut Steps<L>,
    ) -> Result<(), CoreFault>
        ensures notes { Notes self.old (Configure config) result self.new }
        ensures slots { KeepsSlots result self.old self.new }
        ensures counted { IsCounted result self.old (Configure config) steps.old steps.new }
    {
        answer(
            self.watch
                .configure(alloc, config, &mut self.sensors, steps),
        )
    }

    /// Takes a FRU that appeared.
    pub(crate) fn plug(
        &mut self,
        alloc: Global,
        place: Place,
        bytes: &[u8],
        steps: &mut Steps<L>,
    ) -> Result<(), CoreFault>
        ensures notes { Notes self.old (Plug place bytes.now) result self.new }
        ensures slots { KeepsSlots result self.old self.new }
        ensures counted { IsCounted result self.old (Plug place bytes.now) steps.old steps.new }
    {
        answer(
            self.watch
                .plug(alloc, place, bytes, &mut self.sensors, steps),
        )
    }

    /// Takes away the FRU at a place.
    pub(crate) fn unplug(
        &mut self,
        alloc: Global,
        place: Place,
        steps: &mut Steps<L>,
    ) -> Result<(), CoreFault>
        ensures notes { Notes self.old (Unplug place) result self.new }
        ensures slots { KeepsSlots result self.old self.new }
        ensures counted { IsCounted result self.old (Unplug place) steps.old steps.new }
    {
        answer(self.watch.unplug(alloc, place, &mut self.sensors, steps))
    }

    /// Takes a good reading of a sensor, and notes in `health` what is known of inputs then.
    #[inline(always)]
    pub(crate) fn read(
        &mut self,
        name: &str,
        raw: i64,
        health: &mut InputHealth,
    ) -> Result<(), CoreFault>
        ensures notes { Notes self.old (Read name.now raw) result self.new }
        ensures names { self.new.sensors.names ≡ self.old.sensors.names }
        ensures health { (held : List Held) → IsTrueOf self.old.sensors.slots held health.old → IsTrueOf self.new.sensors.slots held health.new }
    {
        let Some(slot) = self.sensors.find_slot(name) else {
            return self.refuse(Refusal::UnknownSensor);
        };
        let tick = self.ticks;
        let sensor = self.sensors.at(slot);
        let before = Glimpse::of(sensor);
        let known = health.after_reading(sensor, tick);
        match self.sensors.good(slot, raw, tick) {
            Ok(otherwise) => {
                *health = known;
                if otherwise {
                    let after = self.sensors.at(slot);
                    self.watch.tell_reading(name, &before, after);
                } else {
                    self.watch.forget_changes();
                }
                Ok(())
            }
            Err(ReadingRange) => self.refuse(Refusal::ReadingRange),
        }
    }

    /// Takes the loss of a reading of a sensor, and notes in `health` what is known of inputs then.
    pub(crate) fn lose(&mut self, name: &str, health: &mut InputHealth) -> Result<(), CoreFault>
        ensures notes { Notes self.old (Lose name.now) result self.new }
        ensures names { self.new.sensors.names ≡ self.old.sensors.names }
        ensures health { (held : List Held) → IsTrueOf self.old.sensors.slots held health.old → IsTrueOf self.new.sensors.slots held health.new }
    {
        let Some(slot) = self.sensors.find_slot(name) else {
            return self.refuse(Refusal::UnknownSensor);
        };
        let sensor = self.sensors.at(slot);
        let before = Glimpse::of(sensor);
        let had_failed = sensor.is_failed();
        self.sensors.lost(slot);
        let sensor = self.sensors.at(slot);
        *health = health.after_loss(had_failed, sensor);
        self.watch.tell_reading(name, &before, sensor);
        Ok(())
    }
}
