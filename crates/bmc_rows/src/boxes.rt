use crate::bank::{bank, counted_bank};
use crate::play::Part::{Config, Text, Times};
use crate::play::{Part, played_over, script_of};
use crate::ticks::BOX_15;
use bmc_base::{Silent, Steps};
use bmc_core::{Act, Core};
use bmc_replay::Status::Done;
use bmc_report::push_change;
use cfg_json::Config as Document;
use ctl_face::Controller;
use pat_gate::RegexMaker;
use std::alloc::Global;
use std::cell::Cell;
use std::rc::Rc;
use std::test::Fail;

// Losses of a reading.
const LOSSES: &[Part] = &[
    Config(BOX_15),
    Text("read T 30000\nread Tach 2000\ntick 1\n"),
    Times(4, "lose T\n"),
    Text("read T 30000\n"),
    Times(5, "lose T\n"),
    Text("tick 1\n"),
];

// A fan controller steps at each tick, and a stepwise one each second.
#[test]
fn boxes_step(rt: HostRuntime) -> Result<(), Fail> {
    let alloc = rt.alloc();
    let pid_steps = Rc::new(alloc, Cell::new(0))?;
    let stepwise_steps = Rc::new(alloc, Cell::new(0))?;
    let boxes = counted_bank(alloc, &pid_steps, &stepwise_steps)?;
    let script = script_of(alloc, LOSSES)?;
    let status = played_over(alloc, script.as_slice(), boxes)?;
    assert_eq!(rt; status, Done);
    assert_eq!(rt; pid_steps.get(), 2);
    assert_eq!(rt; stepwise_steps.get(), 1);
    Ok(())
}

// Takes the machine, and a reading of each of its sensors.
fn take_machine<C: Controller>(alloc: Global, core: &mut Core<Silent, C>) -> Result<(), Fail> {
    let document = Document::read(alloc, BOX_15.as_bytes(), &mut RegexMaker::new(alloc))?;
    let mut steps = Steps::new(Silent);
    core.apply(alloc, Act::Config(document), &mut steps)?;
    core.apply(alloc, Act::Good("T", 30_000), &mut steps)?;
    core.apply(alloc, Act::Good("Tach", 2_000), &mut steps)?;
    Ok(())
}

// What a tick tells.
fn tick_told<C: Controller>(core: &mut Core<Silent, C>, text: &mut String) -> Result<(), Fail> {
    core.tick();
    for change in core.changes() {
        push_change(text, core.tick_count(), change)?;
    }
    Ok(())
}

// What 21 ticks tell, where a reading gets too old at the last one.
fn ticks_told<C: Controller>(alloc: Global, core: &mut Core<Silent, C>) -> Result<String, Fail> {
    let mut text = String::new(alloc);
    for _ in 0..21 {
        tick_told(core, &mut text)?;
    }
    Ok(text)
}

fn told(alloc: Global, strict: bool) -> Result<String, Fail> {
    let mut core = Core::new(alloc, bank(alloc)?, strict, 200)?;
    take_machine(alloc, &mut core)?;
    ticks_told(alloc, &mut core)
}

// In strict mode a zone in failsafe commands exactly its percent.
#[test]
fn strict_mode(rt: HostRuntime) -> Result<(), Fail> {
    let mild = "1 duty fan \"Fan 1\" 20.000\n21 failsafe zone \"Z\"\n";
    assert_eq!(rt; told(rt.alloc(), false)?.as_str(), mild);
    let strict =
        "1 duty fan \"Fan 1\" 20.000\n21 failsafe zone \"Z\"\n21 duty fan \"Fan 1\" 15.000\n";
    assert_eq!(rt; told(rt.alloc(), true)?.as_str(), strict);
    Ok(())
}
