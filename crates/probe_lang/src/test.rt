ghost use Rattle.std.specs.Prelude.{◌≡◌, IfOk, Some};
ghost use Rattle.probe_lang.specs.Matches.{is_wanted, want_text};
ghost use Rattle.probe_lang.specs.Parts.{want_of, MakesOne};

use crate::{PatternFault, Want};
use bmc_base::{OutOfMemory, Text};
use pat_gate::{Compiled, MakeFault, PatternMaker};
use std::alloc::Global;

// What a member wants of a text, ready to be tried.
#[derive(Drop)]
pub(crate) enum Test {
    // The pattern has a match in it.
    Pattern(Compiled),
    // It is the decimal of the number.
    Number(i128),
}

impl Test {
    // Makes the test of what is wanted.
    pub(crate) fn make<M: PatternMaker>(
        alloc: Global,
        want: &Want,
        maker: &mut M,
    ) -> Result<Test, PatternFault>
        ensures { MakesOne want_of (M.seen maker.old) (M.seen maker.new) (want_text want.now) want.now result }
    {
        match want {
            Want::Pattern(text) => {
                let pattern = compile(alloc, text.as_str(), maker)?;
                Ok(Test::Pattern(pattern))
            }
            Want::Number(n) => Ok(Test::Number(*n)),
        }
    }

    // Whether a text is as wanted. A number is spelled on the stack.
    pub(crate) fn passes(&self, alloc: Global, text: &str) -> Result<bool, OutOfMemory>
        ensures { IfOk result (λ b. b ≡ is_wanted (want_of self.now) (Some text.now)) }
    {
        match self {
            Test::Pattern(pattern) => pattern.found_in(alloc, text),
            Test::Number(n) => Ok(itoa::Buffer::new().format(*n) == text),
        }
    }
}

// Compiles a text. It is copied first, so that a refusal takes no memory.
fn compile<M: PatternMaker>(
    alloc: Global,
    text: &str,
    maker: &mut M,
) -> Result<Compiled, PatternFault>
    ensures { MakesOne (λ pattern. pattern) (M.seen maker.old) (M.seen maker.new) (Some text.now) text.now result }
{
    let copied = Text::copy(alloc, text)?;
    match maker.compile(alloc, text) {
        Ok(pattern) => Ok(pattern),
        Err(MakeFault::PatternSyntax) => Err(PatternFault::PatternSyntax(copied)),
        Err(MakeFault::PatternTooLarge) => Err(PatternFault::PatternTooLarge(copied)),
        Err(MakeFault::OutOfMemory) => Err(PatternFault::OutOfMemory),
    }
}
