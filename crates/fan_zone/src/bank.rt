ghost use Rattle.std.specs.Prelude.{◌≡◌, ◌<◌, length, map, slice_set, IfOk, IsSome};
ghost use Rattle.ctl_face.specs.Ranges.{IsMilli, IsValid, IsValidSample};
ghost use Rattle.ctl_face.specs.Seen.{Seen, loaded, stepped, unloaded};
ghost use Rattle.ctl_face.specs.Kinds.{kind_of};
ghost use Rattle.fan_zone.specs.Boxes.{box_at};
ghost use Rattle.fan_zone.specs.Sets.{cleared, cleared_box, free, is_taken};
ghost use Rattle.fan_zone.specs.Sound.{AreSeated, AreSpare, HasSmallOutput, number_of};

use crate::held::Held;
use bmc_base::OutOfMemory;
use ctl_face::{Controller, Kind, Sample, Setting};
use std::alloc::Global;
use std::marker::Model;

/// The boxes, each under its number from 0 on. Their last outputs stand beside them, so that a box is not called to read one.
#[derive(Drop)]
pub(crate) struct Bank<C: Controller> {
    boxes: Vec<C>,
    outputs: Vec<Option<i64>>,
}

impl<C: Controller> Model for Bank<C> {
    ghost use Rattle.std.specs.Prelude.{◌≡◌, List, map};
    ghost use Rattle.ctl_face.specs.Seen.{Seen};
    ghost use Rattle.fan_zone.specs.Boxes.{outputs_of};

    ghost Value = { List Seen };

    ghost view = { λ b. map C.seen b.boxes.items };

    ghost invariant = { λ b. b.outputs.items ≡ outputs_of (map C.seen b.boxes.items) };
}

impl<C: Controller> Bank<C> {
    pub(crate) fn new(alloc: Global, boxes: Vec<C>) -> Result<Bank<C>, OutOfMemory>
        ensures { IfOk result (λ bank. bank ≡ map C.seen boxes.items) }
    {
        let mut outputs = Vec::with_capacity(alloc, boxes.len())?;
        for controller in &boxes {
            outputs.push(controller.state().output)?;
        }
        Ok(Bank { boxes, outputs })
    }

    pub(crate) fn len(&self) -> usize
        ensures { result ≡ length self.now }
    {
        self.boxes.len()
    }

    /// Steps one box.
    pub(crate) fn step(&mut self, number: usize, sample: Sample)
        requires within { number < length self.old }
        requires loaded { IsSome (box_at self.old number).setting }
        requires valid { IsValidSample sample }
        ensures state { self.new ≡ slice_set self.old number (stepped (box_at self.old number) sample) }
        ensures small { HasSmallOutput (stepped (box_at self.old number) sample) }
    {
        let controller = &mut self.boxes[number];
        let output = controller.step(sample);
        self.outputs[number] = Some(output.0);
    }

    /// The last output of a box, in thousandths.
    pub(crate) fn output(&self, number: usize) -> Option<i64>
        requires { number < length self.now }
        ensures { result ≡ (box_at self.now number).state.output }
    {
        self.outputs[number]
    }

    // The kind of a box.
    fn kind(&self, number: usize) -> Kind
        requires { number < length self.now }
        ensures { result ≡ (box_at self.now number).kind }
    {
        let controller = &self.boxes[number];
        controller.kind()
    }

    /// Loads one box.
    pub(crate) fn load(&mut self, number: usize, setting: &Setting)
        requires within { number < length self.old }
        requires kind { kind_of setting.now ≡ (box_at self.old number).kind }
        requires valid { IsValid setting.now }
        ensures { self.new ≡ slice_set self.old number (loaded (box_at self.old number) setting.now) }
    {
        let controller = &mut self.boxes[number];
        controller.load(setting);
        self.outputs[number] = None;
    }

    // Unloads one box.
    fn clear(&mut self, number: usize)
        requires { number < length self.old }
        ensures { self.new ≡ slice_set self.old number (unloaded (box_at self.old number).kind) }
    {
        let controller = &mut self.boxes[number];
        controller.clear();
        self.outputs[number] = None;
    }

    // Unloads one box, unless it is taken.
    fn clear_unless_taken(&mut self, number: usize, taken: &[usize])
        requires { number < length self.old }
        ensures { self.new ≡ slice_set self.old number (cleared_box taken.now number (box_at self.old number)) }
    {
        if !is_taken(taken, number) {
            self.clear(number);
        }
    }

    /// Unloads the boxes of the controllers that were held, where they are not taken. The others are not loaded.
    pub(crate) fn clear_gone(&mut self, held: &[Held], taken: &[usize])
        requires seats { AreSeated self.old held.now }
        requires spare { AreSpare self.old (map number_of held.now) }
        ensures { self.new ≡ cleared taken.now self.old }
    {
        for one in held {
            self.clear_unless_taken(one.number, taken);
        }
    }

    /// The first box of a kind that is not taken.
    pub(crate) fn free(&self, kind: Kind, taken: &[usize]) -> Option<usize>
        ensures { result ≡ free kind taken.now 0 self.now }
    {
        for number in 0..self.len() {
            if self.kind(number).is(kind) && !is_taken(taken, number) {
                return Some(number);
            }
        }
        None
    }
}

/// Whether a box is taken.
pub(crate) fn is_taken(taken: &[usize], number: usize) -> bool
    ensures { result ≡ is_taken taken.now number }
{
    taken.iter().any(|one| *one == number)
}
