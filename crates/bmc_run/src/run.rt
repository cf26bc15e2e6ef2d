ghost use Rattle.std.specs.Prelude.{◌≡◌, ◌<◌, ◌≤◌, ◌^◌, Ok, Some, None, IfOk, OnOk, OnErr, MatchResult, map};
ghost use Rattle.bmc_text.specs.Items as items;
ghost use Rattle.bmc_text.specs.NextItems.{item_next};
ghost use Rattle.bmc_machine.specs.Answers.{answer, answer_command, answer_step, silent};
ghost use Rattle.bmc_machine.specs.Histories.{begun};
ghost use Rattle.bmc_report.specs.declared.refusal.Origin.TheVariants.{File, Line};
ghost use Rattle.event_log.specs.Kept.{most_errors};
ghost use Rattle.bmc_io.specs.Told.{Told};
ghost use Rattle.bmc_core.specs.Acts.{step_of, Applies};
ghost use Rattle.bmc_core.specs.Cores.{IsStated};
ghost use Rattle.cfg_json.specs.Verdicts.{Accepted};
ghost use Rattle.bmc_run.specs.Runs.{Answers, AnswersItem, LeavesItem, AnswersNext, CountsItem, IsReady, IsAfter, TakesItem, TakesNext};
ghost use Rattle.bmc_run.specs.Runs.{LeavesNext, effect_of, file_item, leaves};

use crate::output::{GATHERED, SPARE, push_changes};
use crate::refusing::{command_refused, config_refused};
use bmc_base::{Ledger, OutOfMemory, Steps};
use bmc_core::{Act, Core, CoreFault};
use bmc_io::Whole;
use bmc_report::{Origin, Refusal, Topic, push_refused_line};
use bmc_script::{Command, is_blank};
use bmc_text::{Items, NextItem};
use cfg_json::Config;
use ctl_face::Controller;
use pat_gate::PatternMaker;
use std::alloc::Global;

// What came of an item.
#[derive(Clone, Copy)]
pub(crate) enum Effect {
    // Nothing is printed of it.
    Nothing,
    // An act was done, and the core has its changes.
    Changed,
    // A list is asked for.
    Shown(Topic),
    // So many ticks are to pass.
    Ticks(u32),
    // It is refused.
    Refused(Refusal),
}

/// What is still to be done of the last item: it may print more than is gathered at once.
#[derive(Clone, Copy)]
pub enum Pending {
    /// Nothing.
    Nothing,
    /// A list is to be gathered.
    List(Topic),
    /// So many ticks are to pass.
    Ticks(u32),
}

/// A run so far: of its files, and then of its script.
#[derive(Drop)]
pub struct Run<L: Ledger, C: Controller> {
    /// The core, which does what the script asks for.
    pub core: Core<L, C>,
    /// The text that is gathered and not yet written.
    pub text: String,
    /// What is still to be done of the last item: what it prints comes behind the text.
    pub pending: Pending,
    /// The number of the next file or item, from 1.
    pub number: u64,
    /// How many files and items were refused, as far as the count goes.
    pub refused: u64,
}

// What came of an act.
fn effect_of(done: Result<(), CoreFault>) -> Result<Effect, OutOfMemory>
    ensures effect { IfOk result (λ effect. effect_of done ≡ Some effect) }
    ensures plain { IfOk result (λ effect. leaves effect ≡ Pending.Nothing) }
    ensures memory { OnErr result (effect_of done ≡ None) }
{
    match done {
        Ok(()) => Ok(Effect::Changed),
        Err(CoreFault::Refused(refusal)) => Ok(Effect::Refused(refusal)),
        Err(CoreFault::OutOfMemory) => Err(OutOfMemory),
    }
}

// Does an act, and says what came of it.
#[inline(always)]
#[tactic(auto, using(crate::proofs::RunsLemmas::act_answers))]
fn apply<L: Ledger, C: Controller>(
    alloc: Global,
    core: &mut Core<L, C>,
    act: Act<'_, L>,
    steps: &mut Steps<L>,
) -> Result<Effect, OutOfMemory>
    ensures { IfOk result (λ effect. Answers (λ line past. answer_step line past (step_of act.entry)) effect core.old core.new) }
{
    let done = core.apply(alloc, act, steps);
    effect_of(done)
}

// Does an act, by a call.
#[inline(never)]
fn call_core<L: Ledger, C: Controller>(
    alloc: Global,
    core: &mut Core<L, C>,
    act: Act<'_, L>,
    steps: &mut Steps<L>,
) -> Result<(), CoreFault>
    ensures { Applies core.old (step_of act.entry) result core.new }
{
    core.apply(alloc, act, steps)
}

// As `apply`, but by a call. What reads a line is to be inlined, and the compiler inlines nothing that grows very large: so only
// what scripts ask for most is inlined with it.
#[inline(always)]
#[tactic(auto, using(crate::proofs::RunsLemmas::act_answers))]
fn apply_by_call<L: Ledger, C: Controller>(
    alloc: Global,
    core: &mut Core<L, C>,
    act: Act<'_, L>,
    steps: &mut Steps<L>,
) -> Result<Effect, OutOfMemory>
    ensures { IfOk result (λ effect. Answers (λ line past. answer_step line past (step_of act.entry)) effect core.old core.new) }
{
    let done = call_core(alloc, core, act, steps);
    effect_of(done)
}

// Does what a command asks for. It is inlined, as what reads a command is: a command is then never put together in memory.
#[inline(always)]
#[tactic(auto, using(crate::proofs::RunsLemmas::silent_answers, crate::proofs::RunsLemmas::refused_answers))]
fn run_command<L: Ledger, C: Controller>(
    alloc: Global,
    core: &mut Core<L, C>,
    command: &Command<'_>,
    steps: &mut Steps<L>,
) -> Result<Effect, OutOfMemory>
    ensures { IfOk result (λ effect. Answers (λ line past. answer_command line past (Ok command.now)) effect core.old core.new) }
{
    match command {
        Command::Nothing => Ok(Effect::Nothing),
        // an item with a block is never a line
        Command::Config(_) => Ok(Effect::Refused(Refusal::ConfigShort)),
        Command::Plug(place, bytes) => {
            apply_by_call(alloc, core, Act::Plug(*place, bytes.as_slice()), steps)
        }
        Command::Unplug(place) => apply(alloc, core, Act::Unplug(*place), steps),
        Command::Good(name, raw) => apply(alloc, core, Act::Good(name.as_str(), *raw), steps),
        Command::Lost(name) => apply_by_call(alloc, core, Act::Lost(name.as_str()), steps),
        Command::Ticks(count) => Ok(Effect::Ticks(*count)),
        Command::Show(topic) => Ok(Effect::Shown(*topic)),
    }
}

// Takes a line that may have a command, and asks for no block.
#[inline(always)]
fn take_command<L: Ledger, C: Controller>(
    alloc: Global,
    core: &mut Core<L, C>,
    line: &[u8],
    steps: &mut Steps<L>,
) -> Result<Effect, OutOfMemory>
    ensures { IfOk result (λ effect. Answers (λ label past. answer label past Accepted (items.Line line.now)) effect core.old core.new) }
{
    let read = Command::read(alloc, line);
    match &read {
        Ok(command) => run_command(alloc, core, command, steps),
        Err(fault) => {
            let refusal = command_refused(*fault)?;
            Ok(Effect::Refused(refusal))
        }
    }
}

// Takes a line that asks for no block.
#[inline(always)]
fn take_line<L: Ledger, C: Controller>(
    alloc: Global,
    core: &mut Core<L, C>,
    line: &[u8],
    steps: &mut Steps<L>,
) -> Result<Effect, OutOfMemory>
    ensures { IfOk result (λ effect. Answers (λ label past. answer label past Accepted (items.Line line.now)) effect core.old core.new) }
{
    // Told apart here, since a comment then costs no call.
    if is_blank(line) {
        return Ok(Effect::Nothing);
    }
    take_command(alloc, core, line, steps)
}

// Takes the block of a configuration.
#[inline(never)]
fn take_block<M: PatternMaker, L: Ledger, C: Controller>(
    alloc: Global,
    core: &mut Core<L, C>,
    block: &[u8],
    maker: &mut M,
    steps: &mut Steps<L>,
) -> Result<Effect, OutOfMemory>
    ensures ok { IfOk result (λ effect. AnswersItem (items.Block block.now) effect core.old core.new (M.seen maker.old) (M.seen maker.new)) }
    ensures plain { IfOk result (λ effect. leaves effect ≡ Pending.Nothing) }
    ensures err { OnErr result (LeavesItem (items.Block block.now) (M.seen maker.old) (M.seen maker.new)) }
{
    match Config::read(alloc, block, maker) {
        Ok(config) => effect_of(core.apply(alloc, Act::Config(config), steps)),
        Err(rule) => {
            let refusal = config_refused(rule)?;
            Ok(Effect::Refused(refusal))
        }
    }
}

impl<L: Ledger, C: Controller> Run<L, C> {
    /// Returns a run that has taken nothing, over a bank with at least 128 boxes for PID controllers and 64 for stepwise ones,
    /// none of which is loaded. Its log keeps `log_cap` errors, 1 to 1,000. It takes the room for the text that is gathered once.
    pub fn new(
        alloc: Global,
        bank: Vec<C>,
        strict: bool,
        log_cap: u32,
    ) -> Result<Run<L, C>, OutOfMemory>
        requires bank { IsStated (map C.seen bank.items) }
        requires low { 1 ≤ log_cap }
        requires high { log_cap ≤ most_errors }
        ensures ready { IfOk result IsReady }
        ensures new { IfOk result (λ run. (told : Told) → IsAfter (silent (begun (record { strict = strict; log_cap = log_cap }))) told told run) }
    {
        let core = Core::new(alloc, bank, strict, log_cap)?;
        Ok(Run {
            core,
            text: String::with_capacity(alloc, GATHERED + SPARE)?,
            pending: Pending::Nothing,
            number: 1,
            refused: 0,
        })
    }

    // Gathers what is printed of an item, or notes what is still to be done of it, and counts it.
    #[inline(always)]
    fn count_item(&mut self, origin: Origin, effect: Effect) -> Result<(), OutOfMemory>
        requires few { self.old.number < 2 ^ 63 }
        requires none { self.old.pending ≡ Pending.Nothing }
        ensures { OnOk result (CountsItem origin effect self.old self.new) }
    {
        match effect {
            Effect::Nothing => {}
            Effect::Changed => {
                push_changes(&mut self.text, self.core.tick_count(), self.core.changes())?;
            }
            Effect::Shown(topic) => self.pending = Pending::List(topic),
            Effect::Ticks(count) => self.pending = Pending::Ticks(count),
            Effect::Refused(refusal) => {
                push_refused_line(&mut self.text, origin, self.number, refusal)?;
                self.refused = self.refused.saturating_add(1);
            }
        }
        self.number += 1;
        Ok(())
    }

    // Does what an item asks for; at the end there is none.
    #[inline(always)]
    fn answer<M: PatternMaker>(
        &mut self,
        alloc: Global,
        next: NextItem,
        items: &Items,
        maker: &mut M,
        steps: &mut Steps<L>,
    ) -> Result<Option<Effect>, OutOfMemory>
        ensures { MatchResult result (λ effect. AnswersNext (item_next next items.now) effect self.old self.new (M.seen maker.old) (M.seen maker.new))
            (λ _. LeavesNext (item_next next items.now) (M.seen maker.old) (M.seen maker.new)) }
    {
        let effect = match next {
            NextItem::Line => take_line(alloc, &mut self.core, items.line(), steps)?,
            NextItem::LineTooLong => Effect::Refused(Refusal::LineTooLong),
            NextItem::Block => take_block(alloc, &mut self.core, items.block(), maker, steps)?,
            NextItem::BlockTooLong => Effect::Refused(Refusal::ConfigTooLong),
            NextItem::BlockShort => Effect::Refused(Refusal::ConfigShort),
            NextItem::End => return Ok(None),
        };
        Ok(Some(effect))
    }

    /// Takes what came of the script: gathers what is printed of it, or notes what is still to be done of it, and counts it.
    /// At the end nothing changes.
    #[inline(always)]
    pub fn take<M: PatternMaker>(
        &mut self,
        alloc: Global,
        next: NextItem,
        items: &Items,
        maker: &mut M,
        steps: &mut Steps<L>,
    ) -> Result<(), OutOfMemory>
        requires few { self.old.number < 2 ^ 63 }
        requires none { self.old.pending ≡ Pending.Nothing }
        ensures ok { OnOk result (TakesNext (item_next next items.now) self.old self.new (M.seen maker.old) (M.seen maker.new)) }
        ensures err { OnErr result (LeavesNext (item_next next items.now) (M.seen maker.old) (M.seen maker.new)) }
    {
        match self.answer(alloc, next, items, maker, steps)? {
            Some(effect) => self.count_item(Origin::Line, effect),
            None => Ok(()),
        }
    }

    // Does what a file asks for.
    fn answer_file<M: PatternMaker>(
        &mut self,
        alloc: Global,
        file: &Whole,
        maker: &mut M,
        steps: &mut Steps<L>,
    ) -> Result<Effect, OutOfMemory>
        ensures answers { IfOk result (λ effect. AnswersItem (file_item file.now) effect self.old.core self.new.core (M.seen maker.old) (M.seen maker.new)) }
        ensures kept { OnOk result (self.new ≡ record self.old { core = self.new.core }) }
        ensures plain { IfOk result (λ effect. leaves effect ≡ Pending.Nothing) }
        ensures err { OnErr result (LeavesItem (file_item file.now) (M.seen maker.old) (M.seen maker.new)) }
    {
        match file {
            Whole::Given(bytes) => {
                take_block(alloc, &mut self.core, bytes.as_slice(), maker, steps)
            }
            Whole::Longer => Ok(Effect::Refused(Refusal::ConfigTooLong)),
        }
    }

    /// Takes a configuration file as a block: gathers what is printed of it, and counts it.
    pub fn take_file<M: PatternMaker>(
        &mut self,
        alloc: Global,
        file: &Whole,
        maker: &mut M,
        steps: &mut Steps<L>,
    ) -> Result<(), OutOfMemory>
        requires few { self.old.number < 2 ^ 63 }
        requires none { self.old.pending ≡ Pending.Nothing }
        ensures ok { OnOk result (TakesItem File (file_item file.now) self.old self.new (M.seen maker.old) (M.seen maker.new)) }
        ensures none { OnOk result (self.new.pending ≡ Pending.Nothing) }
        ensures err { OnErr result (LeavesItem (file_item file.now) (M.seen maker.old) (M.seen maker.new)) }
    {
        let effect = self.answer_file(alloc, file, maker, steps)?;
        self.count_item(Origin::File, effect)
    }

    /// Begins the script: its items are numbered for themselves.
    pub fn begin_script(&mut self)
        ensures { self.new ≡ record self.old { number = 1 } }
    {
        self.number = 1;
    }
}
