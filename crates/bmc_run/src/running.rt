ghost use Rattle.std.specs.Prelude.{◌≡◌, ◌<◌, ◌≤◌, ◌+◌, ◌^◌, ◌++◌, [], true, false, Ok, Err, OnOk, OnErr, IfOk, IfErr, MatchResult, length, string_bytes};
ghost use Rattle.std.specs.Io.KnownBytes.{IsAtEnd};
ghost use Rattle.bmc_io.specs.Told.{added};
ghost use Rattle.bmc_io.specs.Sinks.{Output, AppendsFront};
ghost use Rattle.bmc_text.specs.Feeds.{IsWithin, longest_script};
ghost use Rattle.bmc_text.specs.NextItems.{TakesNextItem};
ghost use Rattle.bmc_run.specs.Gathering.{Gathers, most_gathered};
ghost use Rattle.bmc_machine.specs.Answers.{Answer};
ghost use Rattle.bmc_run.specs.Runs.{asked, gathered, settled, IsReady, IsAfter};
ghost use Rattle.bmc_run.specs.declared.run.Pending.TheVariants.{Nothing};
ghost use Rattle.bmc_core.specs.Lists.{entry_rows};
ghost use Rattle.bmc_run.specs.Outside.{outside};
ghost use Rattle.bmc_run.specs.Stops.{StopsAt};
ghost use Rattle.bmc_run.specs.Statuses.{Replays, HasReason, WriteCause};
ghost use Rattle.bmc_run.specs.Progress.{ComesOn, StopsAlong, CountsNext, unread};

use crate::output::{flush, flush_large, push_list, push_ticks, push_topic};
use crate::run::{Pending, Run};
use crate::stop::Stop;
use bmc_base::{Ledger, Steps};
use bmc_io::{Sink, Source};
use bmc_text::{Items, NextItem};
use ctl_face::Controller;
use pat_gate::PatternMaker;
use std::alloc::Global;

// What comes next of the script. What is gathered is written before the source is asked again.
#[tactic(auto, using(crate::proofs::Along::stops_unread))]
fn advance<S: Source, K: Sink, L: Ledger, C: Controller>(
    alloc: Global,
    items: &mut Items,
    run: &mut Run<L, C>,
    input: &mut S,
    output: &mut K,
) -> Result<NextItem, Stop>
    requires { items.old.ended ≡ false }
    ensures next { IfOk result (λ next. TakesNextItem next items.old items.new (S.seen input.old) (S.seen input.new)) }
    ensures gathered { OnOk result (Gathers (K.seen output.old).taken (K.seen output.new).taken (string_bytes run.old.text) (string_bytes run.new.text) []) }
    ensures kept { run.new ≡ record run.old { text = run.new.text } }
    ensures at_end { OnOk result (items.new.ended ≡ true → IsAtEnd (S.seen input.new).left) }
    ensures stops { IfErr result (λ stop. StopsAt stop items.old items.new (outside (S.seen input.old) (K.seen output.old))
        (outside (S.seen input.new) (K.seen output.new)) (string_bytes run.old.text)) }
    ensures limit { IsWithin items.new.read items.new.ended }
    ensures reason { MatchResult result (λ _. HasReason (Ok 0) (outside (S.seen input.old) (K.seen output.old))
        (outside (S.seen input.new) (K.seen output.new))) (λ stop. HasReason (Err stop) (outside (S.seen input.old) (K.seen output.old))
        (outside (S.seen input.new) (K.seen output.new))) }
{
    if let Some(next) = items.next_buffered(alloc)? {
        return Ok(next);
    }
    flush(&mut run.text, output)?;
    let next = items.next(alloc, input)?;
    Ok(next)
}

// Does what is still to be done of the last item, and writes what grows large on the way.
fn do_pending<K: Sink, L: Ledger, C: Controller>(
    alloc: Global,
    run: &mut Run<L, C>,
    output: &mut K,
) -> Result<(), Stop>
    ensures all { OnOk result (Gathers (K.seen output.old).taken (K.seen output.new).taken (string_bytes run.old.text) (string_bytes run.new.text)
        (asked run.old.pending run.old.core)) }
    ensures left { OnOk result (run.new ≡ record run.old { core = settled run.old.pending run.old.core; text = run.new.text; pending = Nothing }) }
    ensures front { OnErr result (AppendsFront (K.seen output.old).taken (K.seen output.new).taken (gathered run.old)) }
    ensures cause { MatchResult result (λ _. (K.seen output.new).calls.faults ≡ (K.seen output.old).calls.faults)
        (λ stop. WriteCause stop (K.seen output.old).calls (K.seen output.new).calls) }
{
    match run.pending {
        Pending::Nothing => {}
        Pending::List(topic) => push_topic(alloc, &run.core, topic, &mut run.text, output)?,
        Pending::Ticks(count) => push_ticks(&mut run.core, count, &mut run.text, output)?,
    }
    run.pending = Pending::Nothing;
    Ok(())
}

// Does what is still to be done of the last item, and writes what has grown large, on the way too.
fn write_large<K: Sink, L: Ledger, C: Controller>(
    alloc: Global,
    run: &mut Run<L, C>,
    output: &mut K,
) -> Result<(), Stop>
    ensures all { OnOk result (Gathers (K.seen output.old).taken (K.seen output.new).taken (gathered run.old) (string_bytes run.new.text) []) }
    ensures left { OnOk result (run.new ≡ record run.old { core = settled run.old.pending run.old.core; text = run.new.text; pending = Nothing }) }
    ensures small { OnOk result (length (string_bytes run.new.text) < most_gathered) }
    ensures front { OnErr result (AppendsFront (K.seen output.old).taken (K.seen output.new).taken (gathered run.old)) }
    ensures cause { MatchResult result (λ _. (K.seen output.new).calls.faults ≡ (K.seen output.old).calls.faults)
        (λ stop. WriteCause stop (K.seen output.old).calls (K.seen output.new).calls) }
{
    do_pending(alloc, run, output)?;
    flush_large(&mut run.text, output)?;
    Ok(())
}

// Writes what is gathered, and then the final list.
fn finish<K: Sink, L: Ledger, C: Controller>(
    run: &mut Run<L, C>,
    output: &mut K,
) -> Result<(), Stop>
    ensures all { OnOk result ((K.seen output.new).taken ≡ added (K.seen output.old).taken
        (string_bytes run.old.text ++ entry_rows run.old.core.state.senses.watch.entries)) }
    ensures front { OnErr result (AppendsFront (K.seen output.old).taken (K.seen output.new).taken
        (string_bytes run.old.text ++ entry_rows run.old.core.state.senses.watch.entries)) }
    ensures cause { MatchResult result (λ _. (K.seen output.new).calls.faults ≡ (K.seen output.old).calls.faults)
        (λ stop. WriteCause stop (K.seen output.old).calls (K.seen output.new).calls) }
{
    push_list(run.core.entries(), &mut run.text, output)?;
    flush(&mut run.text, output)?;
    Ok(())
}

// Takes the next item of a script, or its end. Wherever the machine stood in the script, it has come on, or the run stops there.
fn take_next<S: Source, K: Sink, M: PatternMaker, L: Ledger, C: Controller>(
    alloc: Global,
    items: &mut Items,
    run: &mut Run<L, C>,
    input: &mut S,
    output: &mut K,
    maker: &mut M,
    steps: &mut Steps<L>,
) -> Result<(), Stop>
    requires going { items.old.ended ≡ false }
    requires none { run.old.pending ≡ Nothing }
    requires few { run.old.number < 2 ^ 63 }
    ensures comes { OnOk result (ComesOn (outside (S.seen input.old) (K.seen output.old)) (outside (S.seen input.new) (K.seen output.new))
        (M.seen maker.old) (M.seen maker.new) items.old items.new run.old run.new) }
    ensures stops { IfErr result (λ stop. StopsAlong stop (outside (S.seen input.old) (K.seen output.old))
        (outside (S.seen input.new) (K.seen output.new)) (M.seen maker.old) (M.seen maker.new) items.old run.old) }
    ensures none { OnOk result (run.new.pending ≡ Nothing) }
    ensures counts { OnOk result (items.new.ended ≡ false → CountsNext items.old items.new run.old run.new) }
    ensures at_end { OnOk result (items.new.ended ≡ true → IsAtEnd (S.seen input.new).left) }
    ensures limit { IsWithin items.new.read items.new.ended }
    ensures reason { MatchResult result (λ _. HasReason (Ok 0) (outside (S.seen input.old) (K.seen output.old))
        (outside (S.seen input.new) (K.seen output.new))) (λ stop. HasReason (Err stop) (outside (S.seen input.old) (K.seen output.old))
        (outside (S.seen input.new) (K.seen output.new))) }
{
    let next = advance(alloc, items, run, input, output)?;
    run.take(alloc, next, items, maker, steps)?;
    write_large(alloc, run, output)?;
    Ok(())
}

// Takes what is left of a script.
fn take_all<S: Source, K: Sink, M: PatternMaker, L: Ledger, C: Controller>(
    alloc: Global,
    items: &mut Items,
    run: &mut Run<L, C>,
    input: &mut S,
    output: &mut K,
    maker: &mut M,
    steps: &mut Steps<L>,
) -> Result<(), Stop>
    requires going { items.old.ended ≡ false }
    requires none { run.old.pending ≡ Nothing }
    requires few { run.old.number + length items.old.waiting ≤ items.old.read + 1 }
    requires limit { items.old.read ≤ longest_script }
    ensures comes { OnOk result (ComesOn (outside (S.seen input.old) (K.seen output.old)) (outside (S.seen input.new) (K.seen output.new))
        (M.seen maker.old) (M.seen maker.new) items.old items.new run.old run.new) }
    ensures stops { IfErr result (λ stop. StopsAlong stop (outside (S.seen input.old) (K.seen output.old))
        (outside (S.seen input.new) (K.seen output.new)) (M.seen maker.old) (M.seen maker.new) items.old run.old) }
    ensures none { OnOk result (run.new.pending ≡ Nothing) }
    ensures ended { OnOk result (items.new.ended ≡ true) }
    ensures at_end { OnOk result (IsAtEnd (S.seen input.new).left) }
    ensures limit { IsWithin items.new.read items.new.ended }
    ensures reason { MatchResult result (λ _. HasReason (Ok 0) (outside (S.seen input.old) (K.seen output.old))
        (outside (S.seen input.new) (K.seen output.new))) (λ stop. HasReason (Err stop) (outside (S.seen input.old) (K.seen output.old))
        (outside (S.seen input.new) (K.seen output.new))) }
{
    'items: loop {
        take_next(alloc, items, run, input, output, maker, steps)?;
        if items.is_ended() {
            break;
        }
    }
    Ok(())
}

// Takes a whole script, and writes the final list. Returns how many files and items were refused.
fn take_script<S: Source, K: Sink, M: PatternMaker, L: Ledger, C: Controller>(
    alloc: Global,
    items: &mut Items,
    run: &mut Run<L, C>,
    input: &mut S,
    output: &mut K,
    maker: &mut M,
    steps: &mut Steps<L>,
) -> Result<u64, Stop>
    requires items { items.old ≡ unread }
    requires ready { IsReady run.old }
    ensures run { (first : Answer) (before : Output) → IsAfter first before.taken (K.seen output.old).taken run.old
        → Replays first result (outside (S.seen input.old) before) (outside (S.seen input.new) (K.seen output.new)) (M.seen maker.old) (M.seen maker.new) }
    ensures reason { HasReason result (outside (S.seen input.old) (K.seen output.old)) (outside (S.seen input.new) (K.seen output.new)) }
{
    take_all(alloc, items, run, input, output, maker, steps)?;
    let refused = run.refused;
    finish(run, output)?;
    Ok(refused)
}

/// Runs a script behind what was done before: takes the items of `input` in turn, writes to `output` what the machine prints
/// of each, and at the end the list of the FRUs that are present. `maker` compiles the patterns of probes, and `steps` counts
/// how many patterns are matched and how many probes are evaluated. Returns how many files and items the run refused in all, as
/// far as the count goes, or why it stops: the first call of the outside that fails ends the run.
pub fn run_script<S: Source, K: Sink, M: PatternMaker, L: Ledger, C: Controller>(
    alloc: Global,
    run: &mut Run<L, C>,
    input: &mut S,
    output: &mut K,
    maker: &mut M,
    steps: &mut Steps<L>,
) -> Result<u64, Stop>
    requires { IsReady run.old }
    // Wherever the run has come to, and whatever of that it has written, what is written is what the machine prints in all, behind
    // that for the bytes that the source has left, or a front of it; how much of the source was taken; and what is written where it
    // failed or was too long. The patterns of each configuration are accepted as the maker says.
    ensures run { (first : Answer) (before : Output) → IsAfter first before.taken (K.seen output.old).taken run.old
        → Replays first result (outside (S.seen input.old) before) (outside (S.seen input.new) (K.seen output.new)) (M.seen maker.old) (M.seen maker.new) }
    ensures reason { HasReason result (outside (S.seen input.old) (K.seen output.old)) (outside (S.seen input.new) (K.seen output.new)) }
{
    let mut items = Items::new(alloc)?;
    take_script(alloc, &mut items, run, input, output, maker, steps)
}
