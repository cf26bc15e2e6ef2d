ghost use Rattle.std.specs.Prelude.{◌≡◌, ◌≤◌, ◌<◌, ◌++◌, List, Ok, IfOk, OnOk, All, length, map, string_bytes};
ghost use Rattle.event_log.specs.Kept.{most_errors};
ghost use Rattle.bmc_machine.specs.Histories.{Step, Tick, begun, tick_of};
ghost use Rattle.bmc_core.specs.Acts.{step_of, Applies, IsCounted};
ghost use Rattle.bmc_core.specs.Cores.{Stands, IsStated, ticked_core};
ghost use Rattle.bmc_core.specs.Failsafe.{IsFailsafe};
ghost use Rattle.bmc_core.specs.Lists.{board_rows, core_list};
ghost use Rattle.bmc_report.specs.declared.topic.Topic.TheVariants.{Sensors, Zones as ZonesTopic, Log as LogTopic, Indexes};
ghost use Rattle.bmc_watch.specs.Watches.{view_list};
ghost use Rattle.inventory.specs.declared.board.Board.{Board as BoardView};

use crate::board_list::{list_boards, push_board};
use crate::lists::{push_indexes, push_log, push_sensors, push_zones};
use crate::logging::{note_answer, note_changes, plug_place};
use crate::state::State;
use crate::{Act, CoreFault};
use bmc_base::{Ledger, OutOfMemory, Steps};
use bmc_report::Change;
use ctl_face::Controller;
use event_log::Log;
use fru_rows::Entries;
use inventory::Board;
use std::alloc::Global;
use std::marker::Model;

/// The core: what is known of the bus and of the sensors, the zones over a bank of boxes, what the last act changed, and a log
/// of what went wrong or changed.
#[derive(Drop)]
pub struct Core<L: Ledger, C: Controller> {
    state: State<L, C>,
    log: Log,
}

impl<L: Ledger, C: Controller> Model for Core<L, C> {
    ghost use Rattle.bmc_core.specs.Cores.{CoreView};

    ghost Value = { CoreView };

    ghost view = { λ c. record { state = c.state; log = c.log } };
}

impl<L: Ledger, C: Controller> Core<L, C> {
    /// Returns the core to which nothing has happened, over a bank with at least 128 boxes for PID controllers and 64 for
    /// stepwise ones, none of which is loaded. In strict mode a zone in failsafe commands exactly its FailSafePercent. Its log
    /// keeps the last `log_cap` errors, 1 to 1,000, and the last 10 infos. The core takes the room for its log, for all that
    /// zones ever hold, and for the changes of an act that takes no memory, once.
    pub fn new(
        alloc: Global,
        bank: Vec<C>,
        strict: bool,
        log_cap: u32,
    ) -> Result<Core<L, C>, OutOfMemory>
        requires bank { IsStated (map C.seen bank.items) }
        requires low { 1 ≤ log_cap }
        requires high { log_cap ≤ most_errors }
        ensures { IfOk result (λ core. Stands core (begun (record { strict = strict; log_cap = log_cap }))) }
    {
        let state = State::new(alloc, bank, strict)?;
        let log = Log::new(alloc, log_cap)?;
        Ok(Core { state, log })
    }

    /// Borrows the changes of the last act, if it was done: boards that are gone and boards that are new, live items that are
    /// gone and live items that are new, what sensors show otherwise than before, and then zones with another mode and fans
    /// with another duty.
    pub fn changes(&self) -> &[Change]
        ensures { result.now ≡ self.now.state.senses.watch.changes }
    {
        self.state.senses().watch().changes()
    }

    /// Returns the number of ticks of 100 milliseconds that have passed. It stands still at the greatest number.
    pub fn tick_count(&self) -> u64
        ensures value { result ≡ self.now.state.senses.ticks }
        ensures stands { (past : List Step) → Stands self.now past → result ≡ tick_of past }
    {
        self.state.senses().ticks()
    }

    /// Returns an iterator over the FRUs that are present, by place.
    pub fn entries(&self) -> Entries<'_>
        ensures { result ≡ self.now.state.senses.watch.entries }
    {
        self.state.senses().watch().entries()
    }

    /// Lists the boards, by configuration and place.
    pub fn boards(&self, alloc: Global) -> Result<Vec<Board>, OutOfMemory>
        ensures all { IfOk result (λ boards. boards.items ≡ view_list self.now.state.senses.watch) }
        ensures within { IfOk result (λ boards. All (λ (board : BoardView). board.key.config < length self.now.state.senses.watch.configs) boards.items) }
    {
        list_boards(alloc, self.state.senses().watch())
    }

    /// Appends the row of a board, and behind it those of its items.
    pub fn push_board(
        &self,
        alloc: Global,
        board: &Board,
        text: &mut String,
    ) -> Result<(), OutOfMemory>
        requires { board.now.key.config < length self.now.state.senses.watch.configs }
        ensures { OnOk result (string_bytes text.new ≡ string_bytes text.old ++ board_rows self.now.state.senses.watch board.now) }
    {
        push_board(alloc, self.state.senses().watch(), board, text)
    }

    /// Appends the rows of the live sensors.
    pub fn push_sensors(&self, text: &mut String) -> Result<(), OutOfMemory>
        ensures { OnOk result (string_bytes text.new ≡ string_bytes text.old ++ core_list Sensors self.now) }
    {
        let senses = self.state.senses();
        push_sensors(senses.watch(), senses.sensors(), senses.ticks(), text)
    }

    /// Appends the rows of the live zones, and then of the live fans.
    pub fn push_zones(&self, text: &mut String) -> Result<(), OutOfMemory>
        ensures { OnOk result (string_bytes text.new ≡ string_bytes text.old ++ core_list ZonesTopic self.now) }
    {
        let zones = self.state.zones();
        push_zones(zones.zone_rows(), zones.fan_rows(), text)
    }

    /// Appends the rows of all boards that each configuration ever had.
    pub fn push_indexes(&self, text: &mut String) -> Result<(), OutOfMemory>
        ensures { OnOk result (string_bytes text.new ≡ string_bytes text.old ++ core_list Indexes self.now) }
    {
        let watch = self.state.senses().watch();
        push_indexes(watch.configs(), watch.keep(), text)
    }

    /// Appends the rows of the entries that the log keeps, by id. It takes memory for them, and for the text.
    pub fn push_log(&self, alloc: Global, text: &mut String) -> Result<(), OutOfMemory>
        ensures { OnOk result (string_bytes text.new ≡ string_bytes text.old ++ core_list LogTopic self.now) }
    {
        let entries = self.log.entries(alloc)?;
        push_log(entries.as_slice(), text)
    }

    /// Lets a tick pass: it is counted, controllers step, zones and fans show what comes of it, and the log notes which zones
    /// went into failsafe or are normal again. It is never refused, and takes no memory.
    pub fn tick(&mut self)
        ensures exact { self.new ≡ ticked_core self.old }
        ensures applies { Applies self.old Tick (Ok tt) self.new }
        // Whatever happened before: each live fan that a controller of a zone with a failed, missing or stale input holds is
        // commanded at least the FailSafePercent of the zone, and in strict mode exactly that.
        ensures failsafe { IsFailsafe self.new.state }
    {
        self.state.tick();
        let senses = self.state.senses();
        note_changes(&mut self.log, senses.ticks(), senses.watch().changes());
    }

    /// Does an act, or returns why it is not done. Readings, losses and ticks take no memory; all else takes its memory first,
    /// and then changes. What a done act changed joins the log, and that a plug was refused; no other refusal does.
    #[inline(always)]
    pub fn apply(
        &mut self,
        alloc: Global,
        act: Act<'_, L>,
        steps: &mut Steps<L>,
    ) -> Result<(), CoreFault>
        ensures applies { Applies self.old (step_of act.entry) result self.new }
        ensures counted { IsCounted result self.old.state.senses (step_of act.entry) steps.old steps.new }
        ensures failsafe { step_of act.entry ≡ Tick → (result ≡ Ok tt) × IsFailsafe self.new.state }
    {
        let plugged = plug_place(&act);
        let answer = self.state.apply(alloc, act, steps);
        let senses = self.state.senses();
        note_answer(
            &mut self.log,
            senses.ticks(),
            senses.watch().changes(),
            plugged,
            answer,
        );
        answer
    }
}
