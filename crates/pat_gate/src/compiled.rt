ghost use Rattle.std.specs.Prelude.{◌≡◌, IfOk, IfSome};
ghost use Rattle.pat_gate.specs.Grammar.{has_match, IsPattern};
ghost use Rattle.pat_gate.specs.Makers.{Builds};

use crate::MakeFault;
use crate::form::Form;
use crate::plain::Plain;
use crate::shared_engine::SharedEngine;
use bmc_base::OutOfMemory;
use std::alloc::Global;
use std::marker::Model;

/// A compiled pattern, which contracts see as its text.
#[derive(Drop)]
pub struct Compiled {
    form: Form,
}

impl Model for Compiled {
    ghost use Rattle.std.specs.Prelude.{ℕ, List};
    ghost use Rattle.pat_gate.specs.Forms.{form_text, IsForm};

    ghost Value = { List ℕ };

    ghost view = { λ c. form_text c.form };

    ghost invariant = { λ c. IsForm c.form };
}

impl Compiled {
    /// Whether the pattern has a match in a text, by the definition of `regex`. A pattern that is
    /// plain, or plain behind `^`, before `$` or between both, takes no memory. Another one keeps
    /// what its searches build, so that later ones are quick.
    pub fn found_in(&self, alloc: Global, text: &str) -> Result<bool, OutOfMemory>
        ensures { IfOk result (λ found. found ≡ has_match self.now text.now) }
    {
        match &self.form {
            Form::Plain(plain) => Ok(plain.found_in(text)),
            Form::Regex(engine) => engine.found_in(alloc, text),
        }
    }

    // Returns the pattern of this text where it is plain, which takes no regex.
    #[tactic(auto, using(crate::proofs::PlainReading::plain_is_pattern))]
    pub(crate) fn plain(alloc: Global, text: &str) -> Result<Option<Compiled>, OutOfMemory>
        ensures { IfOk result (λ plain. IfSome plain (λ compiled. (compiled ≡ text.now) × IsPattern text.now)) }
    {
        match Plain::read(alloc, text)? {
            Some(plain) => Ok(Some(Compiled {
                form: Form::Plain(plain),
            })),
            None => Ok(None),
        }
    }

    // Builds the pattern of this text with the parts of `regex`.
    pub(crate) fn build(alloc: Global, text: &str) -> Result<Compiled, MakeFault>
        ensures { Builds text.now result }
    {
        Ok(Compiled {
            form: Form::Regex(SharedEngine::build(alloc, text)?),
        })
    }
}
