ghost use Rattle.std.specs.Prelude.{◌≡◌, true, false, Err, IfOk, IsErrAnd, map};
ghost use Rattle.pat_gate.specs.Grammar.{IsPattern};
ghost use Rattle.pat_gate.specs.Makers.{new_maker, is_listed, Makes, IsRefusal};

use crate::{Compiled, MakeFault, PatternMaker, RegexMaker};
use bmc_base::{OutOfMemory, Text};
use std::alloc::Global;
use std::marker::Model;

/// A maker for tests: it refuses listed texts as too large, and makes the other patterns as
/// [`RegexMaker`] does.
#[derive(Drop)]
pub struct ListMaker {
    too_large: Vec<Text>,
    maker: RegexMaker,
}

impl Model for ListMaker {
    ghost use Rattle.pat_gate.specs.Makers.{Listing};

    ghost Value = { Listing };

    ghost view = { λ m. record { too_large = m.too_large.items; maker = m.maker } };
}

impl ListMaker {
    /// Returns a maker that was not called yet and refuses these texts.
    pub fn new(alloc: Global, too_large: &[&str]) -> Result<ListMaker, OutOfMemory>
        ensures { IfOk result (λ m. m ≡ record { too_large = map (λ text. text.now) too_large.now; maker = new_maker }) }
    {
        let mut texts = Vec::with_capacity(alloc, too_large.len().max(1))?;
        for text in too_large {
            texts.push(Text::copy(alloc, text)?)?;
        }
        Ok(ListMaker {
            too_large: texts,
            maker: RegexMaker::new(alloc),
        })
    }

    /// Borrows the texts that were refused as too large, of which each is a fault.
    pub fn refused(&self) -> &[Text]
        ensures { result.now ≡ self.now.maker.refused }
    {
        self.maker.refused()
    }
}

// Whether the text is one of the listed ones.
fn is_listed(listed: &[Text], text: &str) -> bool
    ensures { result ≡ is_listed listed.now text.now }
{
    listed.iter().any(|other| other.as_str() == text)
}

impl PatternMaker for ListMaker {
    ghost seen = { λ m. m.maker };

    fn compile(&mut self, alloc: Global, text: &str) -> Result<Compiled, MakeFault>
        ensures made { Makes self.old.maker self.new.maker text.now result }
        ensures listed { is_listed self.old.too_large text.now ≡ true → IsErrAnd result IsRefusal }
        ensures too_large { is_listed self.old.too_large text.now ≡ false → result ≡ Err MakeFault.PatternTooLarge → IsPattern text.now }
        ensures same { self.new.too_large ≡ self.old.too_large }
    {
        if is_listed(&self.too_large, text) {
            let copied = self.maker.room_for(alloc, text)?;
            return Err(self.maker.refuse(copied));
        }
        self.maker.compile(alloc, text)
    }
}
