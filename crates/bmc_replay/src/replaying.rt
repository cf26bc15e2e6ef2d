ghost use Rattle.std.specs.Prelude.{◌≡◌, ◌<◌, ◌≤◌, ◌^◌, IfSome, map, string_bytes};
ghost use Rattle.bmc_core.specs.Cores.{IsStated};
ghost use Rattle.bmc_machine.specs.Histories.{Options};
ghost use Rattle.bmc_run.specs.Outside.{outside};
ghost use Rattle.bmc_run.specs.Runs.{IsReady};
ghost use Rattle.bmc_words.specs.Settings.{view_of};
ghost use Rattle.bmc_replay.specs.Commands.{IsNew, RunsFiles, RunsSettings, EndsRefused, EndsUnsettled, ReplaysWords};
ghost use Rattle.bmc_replay.specs.Statuses.{status_of};

use crate::files::take_files;
use crate::sample::run_sample;
use crate::status::Status;
use bmc_base::{Ledger, Steps};
use bmc_io::{Files, Sink, Source, put_all};
use bmc_run::{Run, Stop, run_script};
use bmc_words::{Settings, USAGE, WordsFault};
use ctl_face::Controller;
use pat_gate::PatternMaker;
use std::alloc::Global;

// Takes the configuration files with these names, and then the script. Returns how many of them and of its items are refused.
fn run_files<Fs: Files, S: Source, K: Sink, M: PatternMaker, L: Ledger, C: Controller>(
    alloc: Global,
    run: &mut Run<L, C>,
    names: &[&str],
    files: &mut Fs,
    input: &mut S,
    output: &mut K,
    maker: &mut M,
    steps: &mut Steps<L>,
) -> Result<u64, Stop>
    requires ready { IsReady run.old }
    ensures { (options : Options) → IsNew options run.old → RunsFiles options (map (λ name. name.now) names.now) result
        (Fs.seen files.old) (Fs.seen files.new) (outside (S.seen input.old) (K.seen output.old)) (outside (S.seen input.new) (K.seen output.new))
        (M.seen maker.old) (M.seen maker.new) }
{
    take_files(alloc, run, names, files, output, maker, steps)?;
    run.begin_script();
    run_script(alloc, run, input, output, maker, steps)
}

// Runs what the settings ask for. Returns how much is refused.
fn run_settings<Fs: Files, S: Source, K: Sink, M: PatternMaker, L: Ledger, C: Controller>(
    alloc: Global,
    settings: &Settings<'_>,
    files: &mut Fs,
    input: &mut S,
    output: &mut K,
    maker: &mut M,
    bank: Vec<C>,
    steps: &mut Steps<L>,
) -> Result<u64, Stop>
    requires bank { IsStated (map C.seen bank.items) }
    requires log_cap { (1 ≤ settings.now.log_cap) × (settings.now.log_cap ≤ 1000) }
    requires sample { IfSome settings.now.sample (λ seed. seed < 2 ^ 31) }
    ensures { RunsSettings (view_of settings.now) result (Fs.seen files.old) (Fs.seen files.new) (outside (S.seen input.old) (K.seen output.old))
        (outside (S.seen input.new) (K.seen output.new)) (M.seen maker.old) (M.seen maker.new) }
{
    let mut run = Run::new(alloc, bank, settings.strict, settings.log_cap)?;
    match settings.sample {
        Some(seed) => run_sample(alloc, &mut run, seed, output, maker, steps),
        None => {
            let names = settings.configs.as_slice();
            run_files(alloc, &mut run, names, files, input, output, maker, steps)
        }
    }
}

// The status of a run that ended.
fn status_of(ended: Result<u64, Stop>) -> Status
    ensures { result ≡ status_of ended }
{
    match ended {
        Ok(0) => Status::Done,
        Ok(_) => Status::Refused,
        Err(Stop::OutOfMemory) => Status::OutOfMemory,
        Err(Stop::ReadFault) => Status::ReadFault,
        Err(Stop::WriteFault) => Status::WriteFault,
        Err(Stop::TooLong) => Status::TooLong,
    }
}

// Writes the usage line.
fn write_usage<K: Sink>(output: &mut K) -> Status
    ensures { EndsRefused result (K.seen output.old) (K.seen output.new) }
{
    match put_all(output, USAGE.as_bytes()) {
        Ok(()) => Status::Usage,
        Err(_) => Status::WriteFault,
    }
}

// Ends where words give no settings, for this reason.
fn end_unsettled<K: Sink>(fault: WordsFault, output: &mut K) -> Status
    ensures { EndsUnsettled fault result (K.seen output.old) (K.seen output.new) }
{
    match fault {
        WordsFault::Usage => write_usage(output),
        WordsFault::OutOfMemory => Status::OutOfMemory,
    }
}

/// Does what the words of the command line ask for, which stand behind the program's name: takes the configuration files that they
/// name, and then the items of `input` in turn, writes to `output` what the machine prints of each, and at the end the list of the
/// FRUs that are present; or runs a sample and writes what is said of it; or writes the usage line. `maker` compiles the patterns
/// of probes, and `steps` counts how many patterns are matched and how many probes are evaluated. `bank` has at least 128 boxes for
/// PID controllers and 64 for stepwise ones, none of which is loaded.
pub fn replay<Fs: Files, S: Source, K: Sink, M: PatternMaker, L: Ledger, C: Controller>(
    alloc: Global,
    words: &Vec<String>,
    files: &mut Fs,
    input: &mut S,
    output: &mut K,
    maker: &mut M,
    bank: Vec<C>,
    steps: &mut Steps<L>,
) -> Status
    requires { IsStated (map C.seen bank.items) }
    // By the words: what is written is the usage line, or what the machine prints for the files and for the bytes that the source has
    // left, or what is said of a sample, or a front of it; how much of the source was taken; and what is written where a file or the
    // source failed, or the source was too long. The patterns of each configuration are accepted as the maker says. The first call of
    // the outside that fails ends the run, and each fault is answered where one failed.
    ensures { ReplaysWords (map string_bytes words.now.items) result (Fs.seen files.old) (Fs.seen files.new)
        (outside (S.seen input.old) (K.seen output.old)) (outside (S.seen input.new) (K.seen output.new)) (M.seen maker.old) (M.seen maker.new) }
{
    match Settings::read(alloc, words) {
        Ok(settings) => {
            let ended = run_settings(alloc, &settings, files, input, output, maker, bank, steps);
            status_of(ended)
        }
        Err(fault) => end_unsettled(fault, output),
    }
}
