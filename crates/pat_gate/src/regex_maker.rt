ghost use Rattle.std.specs.Prelude.{◌≡◌, Err, IfOk};
ghost use Rattle.pat_gate.specs.Grammar.{IsPattern};
ghost use Rattle.pat_gate.specs.Makers.{new_maker, Makes, IsRefusal};

use crate::{Compiled, MakeFault, PatternMaker};
use bmc_base::{OutOfMemory, Text};
use std::alloc::Global;
use std::marker::Model;

/// Makes patterns with the `regex` crate, and lists the texts that were too large for it.
#[derive(Drop)]
pub struct RegexMaker {
    refused: Vec<Text>,
}

impl Model for RegexMaker {
    ghost use Rattle.std.specs.Prelude.{length};
    ghost use Rattle.bmc_base.specs.Counts.{raised};
    ghost use Rattle.pat_gate.specs.Makers.{Maker};

    ghost Value = { Maker };

    ghost view = { λ m. record { faults = raised 0 (length m.refused.items); refused = m.refused.items } };
}

impl RegexMaker {
    /// Returns a maker that was not called yet. Takes no memory.
    pub fn new(alloc: Global) -> RegexMaker
        ensures { result ≡ new_maker }
    {
        RegexMaker {
            refused: Vec::new(alloc),
        }
    }

    /// Borrows the texts that were refused as too large, of which each is a fault.
    pub fn refused(&self) -> &[Text]
        ensures { result.now ≡ self.now.refused }
    {
        &self.refused
    }

    // Copies the text and makes room for it, so that a refusal takes no memory.
    pub(crate) fn room_for(&mut self, alloc: Global, text: &str) -> Result<Text, OutOfMemory>
        ensures copied { IfOk result (λ t. t ≡ text.now) }
        ensures same { self.new ≡ self.old }
    {
        self.refused.reserve(1)?;
        Text::copy(alloc, text)
    }

    // The text joins the refused ones.
    pub(crate) fn refuse(&mut self, text: Text) -> MakeFault
        ensures made { Makes self.old self.new text (Err result) }
        ensures refusal { IsRefusal result }
    {
        match self.refused.push(text) {
            Ok(()) => MakeFault::PatternTooLarge,
            Err(_) => MakeFault::OutOfMemory,
        }
    }
}

impl PatternMaker for RegexMaker {
    ghost seen = { λ m. m };

    fn compile(&mut self, alloc: Global, text: &str) -> Result<Compiled, MakeFault>
        ensures made { Makes self.old self.new text.now result }
        ensures too_large { result ≡ Err MakeFault.PatternTooLarge → IsPattern text.now }
    {
        if let Some(plain) = Compiled::plain(alloc, text)? {
            return Ok(plain);
        }
        let copied = self.room_for(alloc, text)?;
        match Compiled::build(alloc, text) {
            Err(MakeFault::PatternTooLarge) => Err(self.refuse(copied)),
            answer => answer,
        }
    }
}
