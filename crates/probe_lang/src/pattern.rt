ghost use Rattle.std.specs.Prelude.{◌≡◌, ◌∷◌, ◌++◌, [], IfOk, OnOk};
ghost use Rattle.bmc_base.specs.Steps.{with_matches};
ghost use Rattle.probe_lang.specs.Matches.{matches, MakesPattern};

use crate::PatternText;
use crate::part::Part;
use bmc_base::{Ledger, OutOfMemory, Place, Steps, Text};
use fru_record::FruRecord;
use pat_gate::PatternMaker;
use std::alloc::Global;
use std::marker::{Model, PhantomData};
use thiserror::Error;

/// Why a pattern is not made.
#[derive(Debug, Drop, Error)]
pub enum PatternFault {
    /// The grammar of `regex` reads no pattern in this text of a member, or it nests too deep.
    #[error("a member's text is no pattern")]
    PatternSyntax(Text),
    /// This text of a member takes more room than a compiled pattern may.
    #[error("a member's pattern is too large")]
    PatternTooLarge(Text),
    /// There was no memory.
    #[error("out of memory")]
    OutOfMemory,
}

impl From<OutOfMemory> for PatternFault {
    ghost use Rattle.std.specs.Prelude.{◌≡◌};
    ghost use Rattle.probe_lang.specs.declared.pattern.PatternFault.TheVariants.{OutOfMemory};

    ghost from_gives = { λ _ fault. fault ≡ OutOfMemory };

    fn from(_: OutOfMemory) -> Self {
        PatternFault::OutOfMemory
    }
}

/// A pattern whose members are compiled. Contracts see it as the members that it was made of.
#[derive(Drop)]
pub struct Pattern<L: Ledger> {
    parts: Vec<Part>,
    mark: PhantomData<L>,
}

impl<L: Ledger> Model for Pattern<L> {
    ghost use Rattle.std.specs.Prelude.{List};
    ghost use Rattle.probe_lang.specs.declared.pattern_text.Member.{Member};

    ghost Value = { List Member };

    ghost view = { λ p. p.parts.items };
}

impl<L: Ledger> Pattern<L> {
    /// Compiles the texts of a pattern's members, in their order, and stops at the first that the maker
    /// refuses.
    pub fn make<M: PatternMaker>(
        alloc: Global,
        text: &PatternText,
        maker: &mut M,
    ) -> Result<Pattern<L>, PatternFault>
        ensures { MakesPattern (M.seen maker.old) (M.seen maker.new) text.now result }
    {
        let members = text.as_slice();
        let mut pattern = Pattern::with_capacity(alloc, members.len())?;
        for member in members {
            pattern.push(Part::make(alloc, member, maker)?)?;
        }
        Ok(pattern)
    }

    /// Whether the pattern matches the record at a place. It counts one match, whatever the answer.
    pub fn matches(
        &self,
        alloc: Global,
        place: Place,
        fru: &FruRecord,
        steps: &mut Steps<L>,
    ) -> Result<bool, OutOfMemory>
        ensures value { IfOk result (λ b. b ≡ matches self.now place fru.now) }
        ensures counted { steps.new ≡ with_matches steps.old 1 }
    {
        steps.matched();
        for part in &self.parts {
            if !part.matches(alloc, place, fru)? {
                return Ok(false);
            }
        }
        Ok(true)
    }

    // Returns a pattern without members, with room for so many.
    fn with_capacity(alloc: Global, capacity: usize) -> Result<Pattern<L>, OutOfMemory>
        ensures { IfOk result (λ pattern. pattern ≡ []) }
    {
        let parts = Vec::with_capacity(alloc, capacity)?;
        Ok(Pattern {
            parts,
            mark: PhantomData,
        })
    }

    // Appends a member.
    fn push(&mut self, part: Part) -> Result<(), OutOfMemory>
        ensures { OnOk result (self.new ≡ self.old ++ part ∷ []) }
    {
        self.parts.push(part)?;
        Ok(())
    }
}
