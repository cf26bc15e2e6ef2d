ghost use Rattle.std.specs.Prelude.{◌≡◌, ◌<◌, ◌^◌, ◌++◌, OnOk, string_bytes};
ghost use Rattle.bmc_machine.specs.Histories.{Options};
ghost use Rattle.bmc_run.specs.Runs.{IsReady};
ghost use Rattle.bmc_replay.specs.Commands.{summary, counted_of, IsNew, CountsSample, RunsSample};

use bmc_base::{Ledger, OutOfMemory, Steps};
use bmc_gen::script;
use bmc_io::{CountSink, MemSource, Sink};
use bmc_run::{Run, Stop, flush, run_script};
use ctl_face::Controller;
use pat_gate::PatternMaker;
use std::alloc::Global;
use std::fmt::Write;

// How many lines of a sample its seed chooses.
const CHOICES: u32 = 20_000;

// How many lines a sample has.
const LINES: u32 = 20_003;

// What is counted of a sample.
#[derive(Clone, Copy)]
pub(crate) struct Counted {
    // How many of its items are refused.
    pub refused: u64,
    // How many bytes are printed for it.
    pub bytes: u64,
}

// Appends what is said of a sample.
fn push_summary(out: &mut String, seed: u32, counted: Counted) -> Result<(), OutOfMemory>
    ensures { OnOk result (string_bytes out.new ≡ string_bytes out.old ++ summary seed counted.refused counted.bytes) }
{
    let Counted { refused, bytes } = counted;
    write!(
        out,
        "sample {seed} lines {LINES} refused {refused} bytes {bytes}\n"
    )?;
    Ok(())
}

// What was counted by a run that ended so. A source in memory never fails, and a sample is short, so the run stops for want of memory alone.
fn counted_of(ended: Result<u64, Stop>, bytes: Option<u64>) -> Result<Counted, OutOfMemory>
    ensures { result ≡ counted_of ended bytes }
{
    match (ended, bytes) {
        (Ok(refused), Some(bytes)) => Ok(Counted { refused, bytes }),
        _ => Err(OutOfMemory),
    }
}

// Runs the sample script of a seed, and counts what is printed for it.
fn count_sample<M: PatternMaker, L: Ledger, C: Controller>(
    alloc: Global,
    run: &mut Run<L, C>,
    seed: u32,
    maker: &mut M,
    steps: &mut Steps<L>,
) -> Result<Counted, OutOfMemory>
    requires ready { IsReady run.old }
    requires seed { seed < 2 ^ 31 }
    ensures { (options : Options) → IsNew options run.old → CountsSample options seed result (M.seen maker.old) (M.seen maker.new) }
{
    let script = script(alloc, seed, CHOICES)?;
    let mut input = MemSource::new(alloc, script.as_slice(), &[], &[])?;
    let mut output = CountSink::new();
    let ended = run_script(alloc, run, &mut input, &mut output, maker, steps);
    counted_of(ended, output.count())
}

/// Runs the sample script of a seed in place of the input, and writes what is said of it. Returns how many of its items are refused.
pub(crate) fn run_sample<K: Sink, M: PatternMaker, L: Ledger, C: Controller>(
    alloc: Global,
    run: &mut Run<L, C>,
    seed: u32,
    output: &mut K,
    maker: &mut M,
    steps: &mut Steps<L>,
) -> Result<u64, Stop>
    requires ready { IsReady run.old }
    requires seed { seed < 2 ^ 31 }
    ensures { (options : Options) → IsNew options run.old
        → RunsSample options seed result (K.seen output.old) (K.seen output.new) (M.seen maker.old) (M.seen maker.new) }
{
    let counted = count_sample(alloc, run, seed, maker, steps)?;
    let mut text = String::new(alloc);
    push_summary(&mut text, seed, counted)?;
    flush(&mut text, output)?;
    Ok(counted.refused)
}
