use bmc_base::OutOfMemory;
use thiserror::Error;

/// Why a pattern is not made.
#[derive(Clone, Copy, Debug, PartialEq, Eq, Error)]
pub enum MakeFault {
    /// The grammar reads no pattern in the text, or it nests too deep.
    #[error("the text is no pattern")]
    PatternSyntax,
    /// The pattern takes more room than a compiled pattern may.
    #[error("the pattern is too large")]
    PatternTooLarge,
    /// There was no memory.
    #[error("out of memory")]
    OutOfMemory,
}

impl From<OutOfMemory> for MakeFault {
    ghost use Rattle.std.specs.Prelude.{◌≡◌};
    ghost use Rattle.pat_gate.specs.declared.make_fault.MakeFault.TheVariants.{OutOfMemory};

    ghost from_gives = { λ _ fault. fault ≡ OutOfMemory };

    fn from(_: OutOfMemory) -> Self {
        MakeFault::OutOfMemory
    }
}

impl From<regex_compile::Error> for MakeFault {
    ghost use Rattle.std.specs.Prelude.{◌≡◌};
    ghost use Rattle.pat_gate.specs.Makers.{of_compiler};

    ghost from_gives = { λ error fault. fault ≡ of_compiler error };

    // No pattern that the grammar reads is malformed for the compiler.
    fn from(error: regex_compile::Error) -> Self {
        match error {
            regex_compile::Error::TooBig | regex_compile::Error::Malformed => {
                MakeFault::PatternTooLarge
            }
            regex_compile::Error::OutOfMemory => MakeFault::OutOfMemory,
        }
    }
}
