ghost use Rattle.std.specs.Prelude.{◌≡◌, map, string_bytes};
ghost use Rattle.std.specs.Process.{exit_status};
ghost use Rattle.bmc_core.specs.Cores.{IsStated};
ghost use Rattle.bmc_run.specs.Outside.{outside};
ghost use Rattle.bmcreplay.specs.Ends.{Ends, number_of};

use crate::statuses::{exit_code, reason_of};
use bmc_base::{Ledger, Steps};
use bmc_io::{Files, Sink, Source};
use bmc_replay::{Status, replay};
use ctl_face::Controller;
use pat_gate::PatternMaker;
use std::alloc::Global;
use std::io::Write;
use std::process::ExitCode;

/// Ends with the number of a status, and writes to `errors` a line that says why it ended early, if it did.
pub fn end<E: Write>(status: Status, errors: &mut E) -> ExitCode
    ensures { exit_status result ≡ number_of status }
{
    if let Some(reason) = reason_of(status) {
        let _written = errors.write_all(reason.as_bytes());
    }
    exit_code(status)
}

/// Does what the words behind the program's name ask for, over a bank of boxes that are not loaded. It writes to `errors` a line
/// that says why it ended early, if it did. What becomes of that line is part of no clause.
pub fn run<Fs: Files, S: Source, K: Sink, M: PatternMaker, L: Ledger, C: Controller, E: Write>(
    alloc: Global,
    words: &Vec<String>,
    files: &mut Fs,
    input: &mut S,
    output: &mut K,
    maker: &mut M,
    bank: Vec<C>,
    steps: &mut Steps<L>,
    errors: &mut E,
) -> ExitCode
    requires { IsStated (map C.seen bank.items) }
    // The process ends with the number of the status of this replay.
    ensures { Ends (map string_bytes words.now.items) (exit_status result) (Fs.seen files.old) (Fs.seen files.new)
        (outside (S.seen input.old) (K.seen output.old)) (outside (S.seen input.new) (K.seen output.new)) (M.seen maker.old) (M.seen maker.new) }
{
    let status = replay(alloc, words, files, input, output, maker, bank, steps);
    end(status, errors)
}
