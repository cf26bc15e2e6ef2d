ghost use Rattle.std.specs.Prelude.{◌≡◌, ◌<◌, ◌++◌, [], length, OnOk, OnErr, MatchResult, string_bytes};
ghost use Rattle.std.specs.List.{flat_map};
ghost use Rattle.bmc_base.specs.Calls.{HasCause};
ghost use Rattle.bmc_io.specs.Told.{added};
ghost use Rattle.bmc_io.specs.Sinks.{AppendsFront};
ghost use Rattle.bmc_run.specs.Statuses.{WriteCause};
ghost use Rattle.bmc_run.specs.Gathering.{Gathers, most_gathered};
ghost use Rattle.bmc_run.specs.Ticks.{after_ticks, tick_text};
ghost use Rattle.bmc_report.specs.Changes.{change_line};
ghost use Rattle.bmc_core.specs.Lists.{core_list, entry_rows, inventory_rows};

use crate::stop::Stop;
use bmc_base::{Ledger, OutOfMemory};
use bmc_core::Core;
use bmc_io::{IoFault, Sink, put_all};
use bmc_report::{Change, Topic, push_change, push_fru_row};
use ctl_face::Controller;
use fru_rows::Entries;
use std::alloc::Global;

/// How many bytes of text are gathered before they are written.
pub const GATHERED: usize = 64 * 1024;

/// How many bytes more fit before the text grows: the line of a refusal, or of a change.
pub const SPARE: usize = 4096;

/// Writes all that is gathered, or a front of it where a write fails.
pub fn flush<K: Sink>(text: &mut String, output: &mut K) -> Result<(), IoFault>
    ensures all { OnOk result ((K.seen output.new).taken ≡ added (K.seen output.old).taken (string_bytes text.old)) }
    ensures none { OnOk result (string_bytes text.new ≡ []) }
    ensures front { AppendsFront (K.seen output.old).taken (K.seen output.new).taken (string_bytes text.old) }
    ensures cause { HasCause (K.seen output.old).calls (K.seen output.new).calls result }
{
    put_all(output, text.as_str().as_bytes())?;
    text.clear();
    Ok(())
}

/// Writes all that is gathered where it has grown large, or a front of it.
pub fn flush_large<K: Sink>(text: &mut String, output: &mut K) -> Result<(), IoFault>
    ensures all { OnOk result (Gathers (K.seen output.old).taken (K.seen output.new).taken (string_bytes text.old) (string_bytes text.new) []) }
    ensures small { OnOk result (length (string_bytes text.new) < most_gathered) }
    ensures front { OnErr result (AppendsFront (K.seen output.old).taken (K.seen output.new).taken (string_bytes text.old)) }
    ensures cause { HasCause (K.seen output.old).calls (K.seen output.new).calls result }
{
    if text.len() < GATHERED {
        return Ok(());
    }
    flush(text, output)
}

/// Gathers the lines of changes, each with the tick count.
pub fn push_changes(text: &mut String, tick: u64, changes: &[Change]) -> Result<(), OutOfMemory>
    ensures { OnOk result (string_bytes text.new ≡ string_bytes text.old ++ flat_map (change_line tick) changes.now) }
{
    for change in changes {
        push_change(text, tick, change)?;
    }
    Ok(())
}

/// Lets so many ticks pass, gathers the changes of each, and writes what grows large on the way.
pub fn push_ticks<K: Sink, L: Ledger, C: Controller>(
    core: &mut Core<L, C>,
    count: u32,
    text: &mut String,
    output: &mut K,
) -> Result<(), Stop>
    ensures all { OnOk result (Gathers (K.seen output.old).taken (K.seen output.new).taken (string_bytes text.old) (string_bytes text.new)
        (tick_text count core.old)) }
    ensures core { OnOk result (core.new ≡ after_ticks count core.old) }
    ensures front { OnErr result (AppendsFront (K.seen output.old).taken (K.seen output.new).taken (string_bytes text.old ++ tick_text count core.old)) }
    ensures cause { MatchResult result (λ _. (K.seen output.new).calls.faults ≡ (K.seen output.old).calls.faults)
        (λ stop. WriteCause stop (K.seen output.old).calls (K.seen output.new).calls) }
{
    for _ in 0..count {
        core.tick();
        push_changes(text, core.tick_count(), core.changes())?;
        flush_large(text, output)?;
    }
    Ok(())
}

/// Gathers the row of each FRU, and writes what grows large on the way.
pub fn push_list<K: Sink>(
    mut entries: Entries<'_>,
    text: &mut String,
    output: &mut K,
) -> Result<(), Stop>
    ensures all { OnOk result (Gathers (K.seen output.old).taken (K.seen output.new).taken (string_bytes text.old) (string_bytes text.new)
        (entry_rows entries.entry)) }
    ensures front { OnErr result (AppendsFront (K.seen output.old).taken (K.seen output.new).taken (string_bytes text.old ++ entry_rows entries.entry)) }
    ensures cause { MatchResult result (λ _. (K.seen output.new).calls.faults ≡ (K.seen output.old).calls.faults)
        (λ stop. WriteCause stop (K.seen output.old).calls (K.seen output.new).calls) }
{
    while let Some(entry) = entries.next() {
        push_fru_row(text, entry.place, entry.fru.fields())?;
        flush_large(text, output)?;
    }
    Ok(())
}

// Gathers the rows of each board, and writes what grows large on the way.
fn push_inventory<K: Sink, L: Ledger, C: Controller>(
    alloc: Global,
    core: &Core<L, C>,
    text: &mut String,
    output: &mut K,
) -> Result<(), Stop>
    ensures all { OnOk result (Gathers (K.seen output.old).taken (K.seen output.new).taken (string_bytes text.old) (string_bytes text.new)
        (inventory_rows core.now.state.senses.watch)) }
    ensures front { OnErr result (AppendsFront (K.seen output.old).taken (K.seen output.new).taken
        (string_bytes text.old ++ inventory_rows core.now.state.senses.watch)) }
    ensures cause { MatchResult result (λ _. (K.seen output.new).calls.faults ≡ (K.seen output.old).calls.faults)
        (λ stop. WriteCause stop (K.seen output.old).calls (K.seen output.new).calls) }
{
    let boards = core.boards(alloc)?;
    for board in &boards {
        core.push_board(alloc, board, text)?;
        flush_large(text, output)?;
    }
    Ok(())
}

/// Gathers a list. The rows of FRUs and of boards are written on the way as they grow large; the other lists are gathered whole.
pub fn push_topic<K: Sink, L: Ledger, C: Controller>(
    alloc: Global,
    core: &Core<L, C>,
    topic: Topic,
    text: &mut String,
    output: &mut K,
) -> Result<(), Stop>
    ensures all { OnOk result (Gathers (K.seen output.old).taken (K.seen output.new).taken (string_bytes text.old) (string_bytes text.new)
        (core_list topic core.now)) }
    ensures front { OnErr result (AppendsFront (K.seen output.old).taken (K.seen output.new).taken (string_bytes text.old ++ core_list topic core.now)) }
    ensures cause { MatchResult result (λ _. (K.seen output.new).calls.faults ≡ (K.seen output.old).calls.faults)
        (λ stop. WriteCause stop (K.seen output.old).calls (K.seen output.new).calls) }
{
    match topic {
        Topic::Frus => push_list(core.entries(), text, output),
        Topic::Inventory => push_inventory(alloc, core, text, output),
        Topic::Sensors => Ok(core.push_sensors(text)?),
        Topic::Zones => Ok(core.push_zones(text)?),
        Topic::Log => Ok(core.push_log(alloc, text)?),
        Topic::Indexes => Ok(core.push_indexes(text)?),
    }
}
