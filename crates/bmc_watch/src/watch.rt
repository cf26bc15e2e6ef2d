ghost use Rattle.std.specs.Prelude.{◌≡◌, ◌<◌, ◌≤◌, ◌++◌, ◌∷◌, [], false, true, filter, find, length, IfOk, OnOk, OnErr, IsSomeAnd, None, Some, Ok};
ghost use Rattle.std.specs.Result.{is_err};
ghost use Rattle.bmc_base.specs.Names.{name_of};
ghost use Rattle.bmc_base.specs.Steps.{IsWithin};
ghost use Rattle.bmc_machine.specs.Histories as histories;
ghost use Rattle.bmc_watch.specs.Watches.{no_view, view_items, view_list, view_shown, IsSame};
ghost use Rattle.cfg_json.specs.Shelves.{most_configs, number_of};
ghost use Rattle.fru_rows.specs.Idle.{busy};
ghost use Rattle.inventory.specs.Items.{entry_fields, board_items, is_live, live, AreNamedLive};
ghost use Rattle.inventory.specs.Shown.{items_of};
ghost use Rattle.probe_lang.specs.Presents.{holds_place, is_entry_at};
ghost use Rattle.match_rows.specs.Matching.{entry_of, pattern_count};
ghost use Rattle.bmc_watch.specs.Counting.{most_evals, Tests, TestsPlug};
ghost use Rattle.fru_rows.specs.Idle.{is_idle};
ghost use Rattle.bmc_watch.specs.Steps.{AddsUnless, RemovesFru, Tries};
ghost use Rattle.bmc_watch.specs.Settling.{AreKept, Settles, SettlesUnless};
ghost use Rattle.bmc_watch.specs.Readings.{Shows};
ghost use Rattle.bmc_watch.specs.Panels.{panel_changes};
ghost use Rattle.fan_zone.specs.Sound.{most_zones, most_fans};
ghost use Rattle.bmc_machine.specs.Changes.{sensor_changes};
ghost use Rattle.sensor_core.specs.Sensors.{Sensor as SensorView};

use crate::changes::{
    count_boards, fixed_channels, settle_sensors, stage_changes, stage_items, tell_changes,
    tell_items,
};
use crate::listing::{list_board, list_boards};
use crate::panel::{Panel, append_panel};
use crate::readings::{Glimpse, append_reading};
use crate::refusing::{limit_refused, record_refused};
use bmc_base::{Ledger, OutOfMemory, Place, Steps};
use bmc_report::{Change, Refusal};
use cfg_json::{Config, Item, MOST_CONFIGS, Shelf};
use fan_zone::{FanRow, ZoneRow};
use found_set::FoundSet;
use fru_record::FruRecord;
use fru_rows::{Entries, FruRows, Hint, is_idle};
use inventory::{Board, IndexKeep, Moment, Shown, Stock, Totals, difference, difference_by};
use live_sensors::LiveSensors;
use match_rows::make;
use probe_lang::Entry;
use sensor_core::Sensor;
use std::alloc::Global;
use std::marker::Model;

// The most FRUs that are present at one time.
const MOST_FRUS: usize = 256;

// The most changes of a step that comes without an event of the bus: of a reading at most 9, and of a tick at most 160.
const MOST_CHANGES: usize = 256;

/// What is known of the bus: the configurations, the FRUs that are present with what matches them, what is found and
/// reachable, the boards that each configuration ever had, and whether any FRU was ever plugged; and the changes of the last
/// step.
#[derive(Drop)]
pub struct Watch<L: Ledger> {
    shelf: Shelf<L>,
    rows: FruRows,
    set: FoundSet<L>,
    keep: IndexKeep,
    totals: Totals,
    stock: Stock,
    plugged: bool,
    changes: Vec<Change>,
}

impl<L: Ledger> Model for Watch<L> {
    ghost use Rattle.bmc_watch.specs.Watches.{WatchView};
    ghost use Rattle.bmc_watch.specs.Insides.{view_of, IsSound};

    ghost Value = { WatchView };

    ghost view = { view_of };

    ghost invariant = { IsSound };
}

impl<L: Ledger> Watch<L> {
    /// Returns the state in which nothing has happened.
    pub fn new(alloc: Global) -> Result<Watch<L>, OutOfMemory>
        ensures { IfOk result (λ state. state ≡ no_view) }
    {
        let shelf = Shelf::new(alloc)?;
        let rows = FruRows::new(alloc)?;
        let set = FoundSet::new(alloc)?;
        let keep = IndexKeep::new(alloc)?;
        let stock = Stock::new(alloc)?;
        let changes = Vec::with_capacity(alloc, MOST_CHANGES)?;
        Ok(Watch {
            shelf,
            rows,
            set,
            keep,
            totals: Totals::none(),
            stock,
            plugged: false,
            changes,
        })
    }

    /// Returns an iterator over the entries of the FRUs that are present, by place.
    pub fn entries(&self) -> Entries<'_>
        ensures { result ≡ self.now.entries }
    {
        self.rows.entries()
    }

    /// Borrows the changes of the last step, if it was accepted.
    pub fn changes(&self) -> &[Change]
        ensures { result.now ≡ self.now.changes }
    {
        &self.changes
    }

    /// Borrows the configurations.
    pub fn configs(&self) -> &Shelf<L>
        ensures { result.now ≡ self.now.configs }
    {
        &self.shelf
    }

    /// Borrows the boards that each configuration ever had, which have their indexes for good.
    pub fn keep(&self) -> &IndexKeep
        ensures { result.now.kept ≡ self.now.kept }
    {
        &self.keep
    }

    /// Borrows the boards that have items with names in a family, with their items. All live items are among them.
    pub fn shown(&self) -> &[Shown]
        ensures items { items_of result.now ≡ view_shown self.now }
        ensures live { filter (is_live (view_items self.now)) (items_of result.now) ≡ live (view_items self.now) }
    {
        self.stock.boards()
    }

    /// Whether it is known that no two items share a name in a family, so that each sensor, zone and fan on the boards that are
    /// shown is live. No name is looked up.
    pub fn have_own_names(&self) -> bool
        ensures { result ≡ true → AreNamedLive (view_items self.now) (view_shown self.now) }
    {
        self.stock.have_own_names()
    }

    /// Whether an item is live. Its name is looked up once.
    pub fn is_live(&self, item: &Item) -> bool
        ensures { result ≡ is_live (view_items self.now) item.now }
    {
        self.stock.is_live(item)
    }

    /// Lists the boards, by configuration and place.
    pub fn boards(&self, alloc: Global) -> Result<Vec<Board>, OutOfMemory>
        ensures { IfOk result (λ boards. boards.items ≡ view_list self.now) }
    {
        let moment = Moment::of(self.set.facts(), self.rows.busy());
        list_boards(alloc, &self.shelf, &self.keep, &moment)
    }

    /// Lists what a board exposes, in the order of its configuration.
    pub fn board_items(&self, alloc: Global, board: &Board) -> Result<Vec<Item>, OutOfMemory>
        ensures { IfOk result (λ items. items.items ≡ board_items self.now.configs (entry_fields (busy self.now.entries)) board.now) }
    {
        let moment = Moment::of(self.set.facts(), self.rows.busy());
        list_board(alloc, &self.shelf, board, &moment)
    }

    /// Lists what a sensor of this name shows otherwise than before, in place of the last changes. It takes no memory.
    pub fn tell_reading(&mut self, name: &str, before: &Glimpse, after: &Sensor)
        requires { name_of name.now ≡ Ok name.now }
        ensures { (sensor : SensorView) → Shows before.now sensor → self.new ≡ record self.old { changes = sensor_changes name.now sensor after.now } }
    {
        self.changes.clear();
        if !before.is_of(after) {
            append_reading(name, before, after, &mut self.changes);
        }
    }

    /// Lists what zones and fans show otherwise than before a tick, in place of the last changes: the zones with another mode, and
    /// then the fans with another duty. It takes no memory.
    pub fn tell_tick(&mut self, before: &Panel, zones: &[ZoneRow], fans: &[FanRow])
        requires zones { length zones.now ≤ most_zones }
        requires fans { length fans.now ≤ most_fans }
        ensures { self.new ≡ record self.old { changes = panel_changes before.now zones.now fans.now } }
    {
        self.changes.clear();
        append_panel(before, zones, fans, &mut self.changes);
    }

    /// Forgets the last changes, as a step is refused. It takes no memory.
    pub fn forget_changes(&mut self)
        ensures { self.new ≡ record self.old { changes = [] } }
    {
        self.changes.clear();
    }

    // Forgets the last changes, as a step is refused.
    fn refuse(&mut self, refusal: Refusal) -> Option<Refusal>
        ensures reason { result ≡ Some refusal }
        ensures left { self.new ≡ record self.old { changes = [] } }
    {
        self.changes.clear();
        Some(refusal)
    }

    /// Takes a configuration, or returns why it is refused. For want of memory nothing changes.
    pub fn configure(
        &mut self,
        alloc: Global,
        config: Config<L>,
        sensors: &mut LiveSensors,
        steps: &mut Steps<L>,
    ) -> Result<Option<Refusal>, OutOfMemory>
        ensures tried { IfOk result (λ refusal. Tries self.old (histories.Configure config) refusal self.new
            × SettlesUnless refusal self.old self.new sensors.old sensors.new) }
        ensures same { OnErr result (IsSame self.old self.new × AreKept sensors.old sensors.new) }
        ensures counted { IsWithin steps.old steps.new (most_evals (self.old.configs ++ config ∷ [])) }
    {
        if self.plugged {
            return Ok(self.refuse(Refusal::ConfigAfterPlug));
        }
        if self.shelf.position(&config.name()).is_some() {
            return Ok(self.refuse(Refusal::DuplicateName));
        }
        if self.shelf.len() >= MOST_CONFIGS {
            return Ok(self.refuse(Refusal::ConfigLimit));
        }
        self.add_config(alloc, config, sensors, steps)
    }

    // Adds a configuration, or returns the refusal by the limit that its boards would pass.
    fn add_config(
        &mut self,
        alloc: Global,
        config: Config<L>,
        sensors: &mut LiveSensors,
        steps: &mut Steps<L>,
    ) -> Result<Option<Refusal>, OutOfMemory>
        requires never { self.old.plugged ≡ false }
        requires new { number_of self.old.configs config.name ≡ None }
        requires few { length self.old.configs < most_configs }
        ensures tried { IfOk result (λ refusal. Tries self.old (histories.Configure config) refusal self.new
            × SettlesUnless refusal self.old self.new sensors.old sensors.new) }
        ensures same { OnErr result (IsSame self.old self.new × AreKept sensors.old sensors.new) }
        ensures counted { IsWithin steps.old steps.new (most_evals (self.old.configs ++ config ∷ [])) }
    {
        let fixed = fixed_channels(alloc, &config)?;
        let next = self.set.prepare_config(
            alloc,
            config.name(),
            config.probe(),
            fixed.as_slice(),
            steps,
        )?;
        let before = Moment::of(self.set.facts(), self.rows.busy());
        let after = Moment::of(next.facts(), self.rows.busy());
        let difference = difference(alloc, &self.shelf, Some(&config), &before, &after)?;
        let counted = self.totals.after(&self.shelf, Some(&config), &difference);
        let totals = match counted {
            Ok(totals) => totals,
            Err(fault) => return Ok(self.refuse(limit_refused(fault))),
        };
        let items = self.stock.prepare(
            alloc,
            &self.shelf,
            Some(&config),
            &self.keep,
            &difference,
            &after,
        )?;
        let gone = stage_changes(
            alloc,
            difference,
            &items,
            &mut self.keep,
            sensors,
            &mut self.changes,
        )?;
        self.shelf.add(alloc, config)?;
        self.set.commit(next);
        self.totals = totals;
        tell_changes(&self.shelf, &mut self.keep, &gone, &mut self.changes);
        tell_items(&items, &mut self.changes);
        settle_sensors(&items, sensors);
        self.stock.commit();
        Ok(None)
    }

    /// Takes a FRU that appeared, or returns why it is refused. Each pattern is matched once. For want of
    /// memory nothing changes.
    pub fn plug(
        &mut self,
        alloc: Global,
        place: Place,
        bytes: &[u8],
        sensors: &mut LiveSensors,
        steps: &mut Steps<L>,
    ) -> Result<Option<Refusal>, OutOfMemory>
        ensures tried { IfOk result (λ refusal. Tries self.old (histories.Plug place bytes.now) refusal self.new
            × SettlesUnless refusal self.old self.new sensors.old sensors.new) }
        ensures same { OnErr result (IsSame self.old self.new × AreKept sensors.old sensors.new) }
        ensures counted { TestsPlug (is_err result) self.old place bytes.now steps.old steps.new }
    {
        let hint = self.rows.hint(place);
        if self.rows.entry(place, hint).is_some() {
            return Ok(self.refuse(Refusal::Occupied));
        }
        match FruRecord::decode(alloc, bytes) {
            Ok(fru) => {
                if self.rows.len() >= MOST_FRUS {
                    return Ok(self.refuse(Refusal::FruLimit));
                }
                self.add_fru(alloc, place, hint, fru, sensors, steps)
            }
            Err(rule) => {
                let refusal = record_refused(rule)?;
                Ok(self.refuse(refusal))
            }
        }
    }

    // Adds a FRU at a place that is free, or returns the refusal by the limit that its boards would pass.
    fn add_fru(
        &mut self,
        alloc: Global,
        place: Place,
        hint: Hint,
        fru: FruRecord,
        sensors: &mut LiveSensors,
        steps: &mut Steps<L>,
    ) -> Result<Option<Refusal>, OutOfMemory>
        requires { holds_place self.old.entries place ≡ false }
        ensures ok { IfOk result (λ refusal. AddsUnless refusal place fru self.old self.new
            × SettlesUnless refusal self.old self.new sensors.old sensors.new) }
        ensures same { OnErr result (IsSame self.old self.new × AreKept sensors.old sensors.new) }
        ensures counted { Tests (is_err result) (pattern_count self.old.configs) (most_evals self.old.configs) steps.old steps.new }
    {
        let made = make(alloc, place, fru, &self.shelf, steps)?;
        let boxed = Box::new(alloc, made)?;
        if !is_idle(&boxed) {
            return self.add_busy(alloc, boxed, hint, sensors, steps);
        }
        self.rows.reserve(alloc)?;
        self.rows.plug(boxed, hint);
        self.plugged = true;
        self.changes.clear();
        Ok(None)
    }

    // Adds the entry of a FRU with hits or channels at a place that is free, or returns the refusal by the limit that
    // its boards would pass.
    fn add_busy(
        &mut self,
        alloc: Global,
        boxed: Box<Entry>,
        hint: Hint,
        sensors: &mut LiveSensors,
        steps: &mut Steps<L>,
    ) -> Result<Option<Refusal>, OutOfMemory>
        requires free { holds_place self.old.entries boxed.value.place ≡ false }
        requires known { boxed.value ≡ entry_of self.old.configs boxed.value.place boxed.value.fru }
        requires busy { is_idle boxed.value ≡ false }
        ensures ok { IfOk result (λ refusal. AddsUnless refusal boxed.value.place boxed.value.fru self.old self.new
            × SettlesUnless refusal self.old self.new sensors.old sensors.new) }
        ensures same { OnErr result (IsSame self.old self.new × AreKept sensors.old sensors.new) }
        ensures counted { IsWithin steps.old steps.new (most_evals self.old.configs) }
    {
        self.rows.reserve(alloc)?;
        let entry: &Entry = &boxed;
        let next = self.set.prepare_plug(alloc, entry, steps)?;
        let before = Moment::of(self.set.facts(), self.rows.busy());
        let after = Moment::with(next.facts(), self.rows.busy(), &boxed, hint.busy);
        let difference = difference_by(alloc, &self.shelf, entry, &before, &after)?;
        let counted = count_boards(self.totals, &self.shelf, &difference);
        let totals = match counted {
            Ok(totals) => totals,
            Err(fault) => return Ok(self.refuse(limit_refused(fault))),
        };
        let items = stage_items(
            alloc,
            &self.shelf,
            &self.keep,
            &difference,
            &after,
            &mut self.stock,
        )?;
        let gone = stage_changes(
            alloc,
            difference,
            &items,
            &mut self.keep,
            sensors,
            &mut self.changes,
        )?;
        self.set.commit(next);
        self.rows.plug(boxed, hint);
        self.plugged = true;
        self.totals = totals;
        tell_changes(&self.shelf, &mut self.keep, &gone, &mut self.changes);
        tell_items(&items, &mut self.changes);
        settle_sensors(&items, sensors);
        self.stock.commit();
        Ok(None)
    }

    /// Takes away the FRU at a place, or returns why that is refused. No pattern is matched. For want of memory
    /// nothing changes.
    pub fn unplug(
        &mut self,
        alloc: Global,
        place: Place,
        sensors: &mut LiveSensors,
        steps: &mut Steps<L>,
    ) -> Result<Option<Refusal>, OutOfMemory>
        ensures tried { IfOk result (λ refusal. Tries self.old (histories.Unplug place) refusal self.new
            × SettlesUnless refusal self.old self.new sensors.old sensors.new) }
        ensures same { OnErr result (IsSame self.old self.new × AreKept sensors.old sensors.new) }
        ensures counted { IsWithin steps.old steps.new (most_evals self.old.configs) }
    {
        let hint = self.rows.hint(place);
        let Some(entry) = self.rows.entry(place, hint) else {
            return Ok(self.refuse(Refusal::NotPresent));
        };
        if is_idle(entry) {
            self.rows.unplug(place, hint);
            self.changes.clear();
        } else {
            self.remove_busy(alloc, place, hint, sensors, steps)?;
        }
        Ok(None)
    }

    // Takes away the FRU at a place, which has hits or channels.
    fn remove_busy(
        &mut self,
        alloc: Global,
        place: Place,
        hint: Hint,
        sensors: &mut LiveSensors,
        steps: &mut Steps<L>,
    ) -> Result<(), OutOfMemory>
        requires { IsSomeAnd (find (is_entry_at place) self.old.entries) (λ entry. is_idle entry ≡ false) }
        ensures ok { OnOk result (RemovesFru place self.old self.new × Settles self.old self.new sensors.old sensors.new) }
        ensures same { OnErr result (IsSame self.old self.new × AreKept sensors.old sensors.new) }
        ensures counted { IsWithin steps.old steps.new (most_evals self.old.configs) }
    {
        let Some(entry) = self.rows.entry(place, hint) else {
            unreachable!()
        };
        let next = self.set.prepare_unplug(alloc, place, steps)?;
        let before = Moment::of(self.set.facts(), self.rows.busy());
        let after = Moment::without(next.facts(), self.rows.busy(), place, hint.busy);
        let difference = difference_by(alloc, &self.shelf, entry, &before, &after)?;
        let counted = count_boards(self.totals, &self.shelf, &difference);
        // Where a FRU is taken away no more boards pass a limit.
        let totals = match counted {
            Ok(totals) => totals,
            Err(_) => unreachable!(),
        };
        let items = stage_items(
            alloc,
            &self.shelf,
            &self.keep,
            &difference,
            &after,
            &mut self.stock,
        )?;
        let gone = stage_changes(
            alloc,
            difference,
            &items,
            &mut self.keep,
            sensors,
            &mut self.changes,
        )?;
        self.set.commit(next);
        self.rows.unplug(place, hint);
        self.totals = totals;
        tell_changes(&self.shelf, &mut self.keep, &gone, &mut self.changes);
        tell_items(&items, &mut self.changes);
        settle_sensors(&items, sensors);
        self.stock.commit();
        Ok(())
    }
}
