ghost use Rattle.std.specs.Prelude.{◌≡◌, ℕ, ◌+◌, ◌≤◌, ◌<◌, Bool, length, if◌then◌else◌, IfOk, OnOk, Result};
ghost use Rattle.probe_lang.specs.Values.{most_patterns};
ghost use Rattle.probe_lang.specs.Grammar.{Reading, Parsed, nothing_read, with_word, with_pattern, read_on};
ghost use Rattle.probe_lang.specs.Steps.{after};

use crate::term::Term;
use crate::{PatternText, PatternTexts, Word, Words};
use bmc_base::OutOfMemory;
use std::alloc::Global;
use std::marker::Model;

// What a term does to what is read.
pub(crate) enum Step {
    // It is appended, and the next one is read.
    Read,
    // It is the last.
    Ends,
    // It stands in a wrong place, or is no word.
    Wrong,
}

// What is read of the texts of a probe: its words, and its patterns by number.
#[derive(Drop)]
pub(crate) struct Reading {
    pub(crate) words: Words,
    pub(crate) patterns: PatternTexts,
}

impl Model for Reading {
    ghost use Rattle.probe_lang.specs.Grammar.{Reading};

    ghost Value = { Reading };

    ghost view = { λ r. record { words = r.words; patterns = r.patterns } };
}

impl Reading {
    // Returns what is read of no texts, with room for so many words.
    pub(crate) fn with_capacity(alloc: Global, capacity: usize) -> Result<Reading, OutOfMemory>
        ensures { IfOk result (λ reading. reading ≡ nothing_read) }
    {
        let words = Words::with_capacity(alloc, capacity)?;
        let patterns = PatternTexts::new(alloc)?;
        Ok(Reading { words, patterns })
    }

    // Appends a term, where an operand is wanted or else an operator, and tells what it does.
    pub(crate) fn read(
        &mut self,
        alloc: Global,
        wants_operand: bool,
        is_last: bool,
        term: Option<Term>,
    ) -> Result<Step, OutOfMemory>
        requires { length self.old.patterns < most_patterns }
        ensures told { IfOk result (λ step. (at : ℕ) (later : Bool → Reading → Result Parsed ℕ)
            → read_on wants_operand at self.old is_last term later ≡ after step wants_operand at self.new later) }
        ensures few { OnOk result (length self.new.patterns ≤ length self.old.patterns + (if wants_operand then 1 else 0)) }
    {
        match (wants_operand, term) {
            (true, Some(Term::Operand(word))) => self.words.push(alloc, word)?,
            (true, Some(Term::Pattern(members))) => self.push_pattern(alloc, members)?,
            (false, Some(Term::Operator(word))) => self.words.push(alloc, word)?,
            (false, Some(Term::MatchOne)) if is_last => return Ok(Step::Ends),
            _ => return Ok(Step::Wrong),
        }
        Ok(Step::Read)
    }

    // Appends a pattern, under the next number.
    fn push_pattern(&mut self, alloc: Global, members: PatternText) -> Result<(), OutOfMemory>
        requires { length self.old.patterns < most_patterns }
        ensures { OnOk result (self.new ≡ with_pattern self.old members) }
    {
        let number = self.patterns.as_slice().len();
        self.words.push(alloc, Word::Fru(number as u32))?;
        self.patterns.push(alloc, members)
    }
}
