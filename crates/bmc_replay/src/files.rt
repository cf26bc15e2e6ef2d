ghost use Rattle.std.specs.Prelude.{◌≡◌, ◌<◌, ◌^◌, ◌++◌, ◌∷◌, [], ◌+◌, List, ℕ, OnOk, IfErr, map};
ghost use Rattle.std.specs.List.{Contains};
ghost use Rattle.bmc_io.specs.Told.{Told};
ghost use Rattle.pat_gate.specs.Makers.{Maker};
ghost use Rattle.bmc_machine.specs.Histories.{Options};
ghost use Rattle.bmc_run.specs.Runs.{IsReady};
ghost use Rattle.bmc_run.specs.declared.run.Pending.TheVariants.{Nothing};
ghost use Rattle.bmc_replay.specs.Files.{HasTaken, StopsAtFile, ReadsFiles, FileCause};

use bmc_base::{Ledger, Steps};
use bmc_io::{Files, Sink};
use bmc_run::{Run, Stop, flush};
use ctl_face::Controller;
use pat_gate::PatternMaker;
use std::alloc::Global;

// The most bytes that a configuration file may have: those that a block may have.
const LONGEST_FILE: usize = 262_144;

// Writes what is gathered, and then takes the configuration file with this name. Wherever the run has come to with earlier files, it has
// come on, or it stops there, whatever files are to follow.
fn take_file<Fs: Files, K: Sink, M: PatternMaker, L: Ledger, C: Controller>(
    alloc: Global,
    run: &mut Run<L, C>,
    name: &str,
    files: &mut Fs,
    output: &mut K,
    maker: &mut M,
    steps: &mut Steps<L>,
) -> Result<(), Stop>
    requires none { run.old.pending ≡ Nothing }
    requires few { run.old.number < 2 ^ 63 }
    ensures taken { OnOk result ((options : Options) (names : List (List ℕ)) (told : Told) (first : Maker)
        → HasTaken options (Fs.seen files.old).holds names told (K.seen output.old).taken first (M.seen maker.old) run.old
        → HasTaken options (Fs.seen files.old).holds (names ++ name.now ∷ []) told (K.seen output.new).taken first (M.seen maker.new) run.new) }
    ensures stops { IfErr result (λ stop. (options : Options) (names later : List (List ℕ)) (told : Told) (first : Maker)
        → HasTaken options (Fs.seen files.old).holds names told (K.seen output.old).taken first (M.seen maker.old) run.old
        → StopsAtFile options (Fs.seen files.old).holds (names ++ name.now ∷ later) told (K.seen output.new).taken first (M.seen maker.new)) }
    ensures none { OnOk result (run.new.pending ≡ Nothing) }
    ensures number { OnOk result (run.new.number ≡ run.old.number + 1) }
    ensures sound { OnOk result (ReadsFiles (Fs.seen files.old) (Fs.seen files.new) × ((K.seen output.new).calls.faults ≡ (K.seen output.old).calls.faults)) }
    ensures cause { IfErr result (λ stop. (names : List (List ℕ)) → Contains names name.now
        → FileCause stop names (Fs.seen files.old) (Fs.seen files.new) (K.seen output.old).calls (K.seen output.new).calls) }
{
    flush(&mut run.text, output)?;
    let file = files.read_whole(alloc, name, LONGEST_FILE)?;
    run.take_file(alloc, &file, maker, steps)?;
    Ok(())
}

/// Takes the configuration files with these names, in order. What is printed of each is written before the next one is read. The first
/// file that fails ends the run.
pub(crate) fn take_files<Fs: Files, K: Sink, M: PatternMaker, L: Ledger, C: Controller>(
    alloc: Global,
    run: &mut Run<L, C>,
    names: &[&str],
    files: &mut Fs,
    output: &mut K,
    maker: &mut M,
    steps: &mut Steps<L>,
) -> Result<(), Stop>
    requires ready { IsReady run.old }
    ensures taken { OnOk result ((options : Options) (told : Told) (first : Maker)
        → HasTaken options (Fs.seen files.old).holds [] told (K.seen output.old).taken first (M.seen maker.old) run.old
        → HasTaken options (Fs.seen files.old).holds (map (λ name. name.now) names.now) told (K.seen output.new).taken first (M.seen maker.new) run.new) }
    ensures stops { IfErr result (λ stop. (options : Options) (told : Told) (first : Maker)
        → HasTaken options (Fs.seen files.old).holds [] told (K.seen output.old).taken first (M.seen maker.old) run.old
        → StopsAtFile options (Fs.seen files.old).holds (map (λ name. name.now) names.now) told (K.seen output.new).taken first (M.seen maker.new)) }
    ensures none { OnOk result (run.new.pending ≡ Nothing) }
    ensures sound { OnOk result (ReadsFiles (Fs.seen files.old) (Fs.seen files.new) × ((K.seen output.new).calls.faults ≡ (K.seen output.old).calls.faults)) }
    ensures cause { IfErr result (λ stop. FileCause stop (map (λ name. name.now) names.now) (Fs.seen files.old) (Fs.seen files.new)
        (K.seen output.old).calls (K.seen output.new).calls) }
{
    for name in names {
        take_file(alloc, run, name, files, output, maker, steps)?;
    }
    Ok(())
}
