//! Replays configuration files and a script from standard input to standard output, as the words of the command line ask for it, and
//! ends with the number of its status.
#![tactic(auto)]

ghost use Rattle.std.specs.Prelude.{◌≡◌};
ghost use Rattle.ctl_face.specs.Seen.{unloaded};

mod program;
mod statuses;

use bmc_base::{OutOfMemory, Silent, Steps};
use bmc_io::{StdFiles, StdSink, StdSource};
use bmc_replay::Status;
use ctl_face::{Controller, Kind};
use ctl_kinds::{PidBox, StepBox};
use pat_gate::RegexMaker;
use std::env;
use std::io::{self, ErrorKind};
use std::process::ExitCode;

// As many controllers of a kind are live at the most.
const MOST_PIDS: u32 = 128;

const MOST_STEPS: u32 = 64;

// Says that a box is not loaded, which the bank is made of.
fn is_unloaded(one: &Box<dyn Controller>, kind: Kind)
    requires { seen one.now ≡ unloaded kind }
    ensures { seen one.now ≡ unloaded kind }
{}

// Stands for words that are not all UTF-8. It is no word of the command.
const NOT_UTF8: &str = "--\u{FFFD}";

// The words of the command line behind the program's name.
fn words(rt: &HostRuntime) -> Result<Vec<String>, OutOfMemory> {
    let alloc = rt.alloc();
    let mut words = Vec::new(alloc);
    match env::args(rt) {
        Ok(args) => {
            for word in args.skip(1) {
                words.push(word)?;
            }
        }
        Err(error) => match error.kind() {
            ErrorKind::OutOfMemory => return Err(OutOfMemory),
            _ => words.push(String::from_str(alloc, NOT_UTF8)?)?,
        },
    }
    Ok(words)
}

// Makes a bank of boxes, and does what the words ask for over it.
fn play(rt: &HostRuntime) -> Result<ExitCode, OutOfMemory> {
    let alloc = rt.alloc();
    let mut bank: Vec<Box<dyn Controller>> = Vec::new(alloc);
    for _ in 0..MOST_PIDS {
        let one: Box<dyn Controller> = Box::new(alloc, PidBox::new())?;
        is_unloaded(&one, Kind::Pid);
        bank.push(one)?;
    }
    for _ in 0..MOST_STEPS {
        let one: Box<dyn Controller> = Box::new(alloc, StepBox::new())?;
        is_unloaded(&one, Kind::Stepwise);
        bank.push(one)?;
    }
    let words = words(rt)?;
    let mut files = StdFiles::new(rt, alloc);
    let mut input = StdSource::new(rt.reader());
    let mut output = StdSink::new(io::writer(rt));
    let mut maker = RegexMaker::new(alloc);
    let mut steps = Steps::new(Silent);
    let code = program::run(
        alloc,
        &words,
        &mut files,
        &mut input,
        &mut output,
        &mut maker,
        bank,
        &mut steps,
        &mut rt.stderr(),
    );
    Ok(code)
}

fn main(rt: HostRuntime) -> ExitCode {
    match play(&rt) {
        Ok(code) => code,
        Err(OutOfMemory) => program::end(Status::OutOfMemory, &mut rt.stderr()),
    }
}
