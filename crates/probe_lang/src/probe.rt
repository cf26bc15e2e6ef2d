ghost use Rattle.std.specs.Prelude.{◌≡◌, ◌≤◌, length, map, IfOk};
ghost use Rattle.std.specs.List.{list_any};
ghost use Rattle.probe_lang.specs.Values.{asks_found, AreFew, most_patterns};
ghost use Rattle.probe_lang.specs.Grammar.{most_texts, probe_of, parsed, GivesProbe};

use crate::reading::{Reading, Step};
use crate::term::read_term;
use crate::{PatternTexts, Words};
use bmc_base::{Ledger, OutOfMemory};
use std::alloc::Global;
use std::marker::{Model, PhantomData};
use thiserror::Error;

/// Why texts are no probe.
#[derive(Clone, Copy, Debug, PartialEq, Eq, Error)]
pub enum ProbeFault {
    /// The text at this position, from 0, is no word or stands in a wrong place; or this is the number of
    /// texts, and one operand more was wanted.
    #[error("the text at {0} is no word of a probe, or stands in a wrong place")]
    ProbeSyntax(u32),
    /// There was no memory.
    #[error("out of memory")]
    OutOfMemory,
}

impl From<OutOfMemory> for ProbeFault {
    ghost use Rattle.std.specs.Prelude.{◌≡◌};
    ghost use Rattle.probe_lang.specs.declared.probe.ProbeFault.TheVariants.{OutOfMemory};

    ghost from_gives = { λ _ fault. fault ≡ OutOfMemory };

    fn from(_: OutOfMemory) -> Self {
        ProbeFault::OutOfMemory
    }
}

/// A probe: its words, and whether it ends with `MATCH_ONE`. The numbers of its patterns are below 17.
#[derive(Drop)]
pub struct Probe<L: Ledger> {
    words: Words,
    match_one: bool,
    mark: PhantomData<L>,
}

impl<L: Ledger> Model for Probe<L> {
    ghost use Rattle.probe_lang.specs.Values.{Probe, AreFew};

    ghost Value = { Probe };

    ghost view = { λ p. record { words = p.words; match_one = p.match_one } };

    ghost invariant = { λ p. AreFew p.words };
}

impl<L: Ledger> Probe<L> {
    /// Reads the probe of at most 33 texts, and its patterns by number. Each text is one word; spaces around it
    /// are dropped. `TRUE`, `FALSE`, `FOUND('NAME')` and `xyz.openbmc_project.FruDevice({..})` are operands, `AND`
    /// or `OR` stands between two of them, and `MATCH_ONE` may stand behind the last. The fault is the first
    /// text that is wrong.
    pub fn parse(alloc: Global, texts: &[&str]) -> Result<(Probe<L>, PatternTexts), ProbeFault>
        requires { length texts.now ≤ most_texts }
        ensures read { GivesProbe result (probe_of (map (λ text. text.now) texts.now)) }
        ensures few { IfOk result (λ parsed. length parsed.1 ≤ most_patterns) }
    {
        let mut reading = Reading::with_capacity(alloc, texts.len())?;
        let mut wants_operand = true;
        for at in 0..texts.len() {
            let term = read_term(alloc, texts[at])?;
            match reading.read(alloc, wants_operand, at + 1 == texts.len(), term)? {
                Step::Read => wants_operand = !wants_operand,
                Step::Ends => return Ok(Probe::parsed(reading, true)),
                Step::Wrong => return Err(ProbeFault::ProbeSyntax(at as u32)),
            }
        }
        if wants_operand {
            return Err(ProbeFault::ProbeSyntax(texts.len() as u32));
        }
        Ok(Probe::parsed(reading, false))
    }

    // The probe and its patterns, of what was read to the end.
    fn parsed(reading: Reading, match_one: bool) -> (Probe<L>, PatternTexts)
        requires { AreFew reading.words }
        ensures { result ≡ parsed reading match_one }
    {
        let Reading { words, patterns } = reading;
        let probe = Probe {
            words,
            match_one,
            mark: PhantomData,
        };
        (probe, patterns)
    }

    /// Whether it ends with `MATCH_ONE`.
    pub fn match_one(&self) -> bool
        ensures { result ≡ self.now.match_one }
    {
        self.match_one
    }

    /// Whether a word of it asks whether a configuration is found.
    pub fn asks_found(&self) -> bool
        ensures { result ≡ list_any asks_found self.now.words }
    {
        self.words.as_slice().iter().any(|word| word.asks_found())
    }

    // Borrows the words.
    pub(crate) fn words(&self) -> &Words
        ensures words { result.now ≡ self.now.words }
        ensures few { AreFew self.now.words }
    {
        &self.words
    }

    /// Copies the probe.
    pub fn copy(&self, alloc: Global) -> Result<Probe<L>, OutOfMemory>
        ensures { IfOk result (λ p. p ≡ self.now) }
    {
        let words = self.words.copy(alloc)?;
        Ok(Probe {
            words,
            match_one: self.match_one,
            mark: PhantomData,
        })
    }
}
