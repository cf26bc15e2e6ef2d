ghost use Rattle.std.specs.Prelude.{◌≡◌, IfOk, map};
ghost use Rattle.bmc_core.specs.Cores.{IsStated};

use bmc_base::{Milli, OutOfMemory};
use ctl_face::{Controller, CtlState, Kind, Sample, Setting};
use ctl_kinds::{PidBox, StepBox};
use std::alloc::Global;
use std::cell::Cell;
use std::rc::Rc;

/// A real box of either kind.
#[derive(Drop)]
pub enum AnyBox {
    Pid(PidBox),
    Step(StepBox),
}

impl Controller for AnyBox {
    ghost use Rattle.bmc_rows.specs.declared.bank.AnyBox.TheVariants.{Pid, Step};

    ghost seen = { elim [ Pid inner ↦ inner | Step inner ↦ inner ] };

    fn kind(&self) -> Kind {
        match self {
            AnyBox::Pid(inner) => inner.kind(),
            AnyBox::Step(inner) => inner.kind(),
        }
    }

    fn load(&mut self, setting: &Setting) {
        match self {
            AnyBox::Pid(inner) => inner.load(setting),
            AnyBox::Step(inner) => inner.load(setting),
        }
    }

    fn step(&mut self, sample: Sample) -> Milli {
        match self {
            AnyBox::Pid(inner) => inner.step(sample),
            AnyBox::Step(inner) => inner.step(sample),
        }
    }

    fn clear(&mut self) {
        match self {
            AnyBox::Pid(inner) => inner.clear(),
            AnyBox::Step(inner) => inner.clear(),
        }
    }

    fn state(&self) -> CtlState {
        match self {
            AnyBox::Pid(inner) => inner.state(),
            AnyBox::Step(inner) => inner.state(),
        }
    }
}

/// A box that counts its steps in a cell of its maker, and hands each call on.
#[derive(Drop)]
pub struct CountedBox {
    inner: AnyBox,
    steps: Rc<Cell<u32>>,
}

impl CountedBox {
    /// Returns a box that counts the steps of another one.
    pub fn new(inner: AnyBox, steps: &Rc<Cell<u32>>) -> Result<CountedBox, OutOfMemory>
        ensures { IfOk result (λ counted. ⟦<CountedBox as Controller>⟧.seen counted ≡ ⟦<AnyBox as Controller>⟧.seen inner) }
    {
        let steps = Rc::clone(steps)?;
        Ok(CountedBox { inner, steps })
    }
}

impl Controller for CountedBox {
    ghost seen = { λ counted. ⟦<AnyBox as Controller>⟧.seen counted.inner };

    fn kind(&self) -> Kind {
        self.inner.kind()
    }

    fn load(&mut self, setting: &Setting) {
        self.inner.load(setting);
    }

    fn step(&mut self, sample: Sample) -> Milli {
        self.steps.set(self.steps.get().saturating_add(1));
        self.inner.step(sample)
    }

    fn clear(&mut self) {
        self.inner.clear();
    }

    fn state(&self) -> CtlState {
        self.inner.state()
    }
}

/// Returns 128 boxes for PID controllers, and 64 for stepwise ones.
pub fn bank(alloc: Global) -> Result<Vec<AnyBox>, OutOfMemory>
    ensures { IfOk result (λ bank. IsStated (map ⟦<AnyBox as Controller>⟧.seen bank.items)) }
{
    let mut bank = Vec::new(alloc);
    for _ in 0..128u32 {
        bank.push(AnyBox::Pid(PidBox::new()))?;
    }
    for _ in 0..64u32 {
        bank.push(AnyBox::Step(StepBox::new()))?;
    }
    Ok(bank)
}

/// Returns as many boxes, with one cell for the steps of all PID controllers and one for those of all stepwise ones.
pub fn counted_bank(
    alloc: Global,
    pid_steps: &Rc<Cell<u32>>,
    stepwise_steps: &Rc<Cell<u32>>,
) -> Result<Vec<CountedBox>, OutOfMemory>
    ensures { IfOk result (λ bank. IsStated (map ⟦<CountedBox as Controller>⟧.seen bank.items)) }
{
    let mut bank = Vec::new(alloc);
    for _ in 0..128u32 {
        let one = CountedBox::new(AnyBox::Pid(PidBox::new()), pid_steps)?;
        bank.push(one)?;
    }
    for _ in 0..64u32 {
        let one = CountedBox::new(AnyBox::Step(StepBox::new()), stepwise_steps)?;
        bank.push(one)?;
    }
    Ok(bank)
}
