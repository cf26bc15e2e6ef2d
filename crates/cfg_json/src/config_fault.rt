use bmc_base::{OutOfMemory, Text};
use probe_lang::{PatternFault, ProbeFault};
use std::alloc::{AllocError, AllocFailed};
use thiserror::Error;
use tmpl::TmplFault;

/// Why a document is no configuration: the first rule that it breaks, or want of memory.
#[derive(Debug, Drop, Error)]
pub enum ConfigFault {
    /// The bytes are no JSON text in UTF-8, or nest deeper than 127.
    #[error("not JSON")]
    NotJson,
    /// A number is neither an i64 nor a u64.
    #[error("a number is no whole number of 64 bits")]
    Fraction,
    /// A member that has to be there is missing.
    #[error("a member is missing")]
    MissingKey,
    /// A value is of another kind.
    #[error("a value is of the wrong kind")]
    WrongKind,
    /// A length or a number is out of its range.
    #[error("a value is out of range")]
    OutOfRange,
    /// The text of the probe at this position, from 0, is no word or stands in a wrong place; or this is the
    /// number of its texts, and one operand more was wanted.
    #[error("the text at {0} of the probe is no word, or stands in a wrong place")]
    ProbeSyntax(u32),
    /// The name of an expose, or a name that a controller asks for, is no template; or a channel is neither a bus nor one substitution, or asks for the
    /// index; or the bus or the address of a sensor is neither a number nor one substitution.
    #[error("a text is no template")]
    TemplateSyntax,
    /// The probe ends with `MATCH_ONE`, and a channel moves with the place.
    #[error("a probe with MATCH_ONE goes with no channel that moves")]
    MuxMatchOne,
    /// This text of a pattern is no regular expression, or nests too deep.
    #[error("a pattern is no regular expression")]
    PatternSyntax(Text),
    /// This text of a pattern is too large to be compiled.
    #[error("a pattern is too large")]
    PatternTooLarge(Text),
    /// There was no memory. It says nothing of the document.
    #[error("out of memory")]
    OutOfMemory,
}

impl From<OutOfMemory> for ConfigFault {
    ghost use Rattle.std.specs.Prelude.{◌≡◌};
    ghost use Rattle.cfg_json.specs.declared.config_fault.ConfigFault.TheVariants.{OutOfMemory};

    ghost from_gives = { λ _ fault. fault ≡ OutOfMemory };

    fn from(_: OutOfMemory) -> Self {
        ConfigFault::OutOfMemory
    }
}

impl From<AllocError> for ConfigFault {
    ghost use Rattle.std.specs.Prelude.{◌≡◌};
    ghost use Rattle.cfg_json.specs.declared.config_fault.ConfigFault.TheVariants.{OutOfMemory};

    ghost from_gives = { λ _ fault. fault ≡ OutOfMemory };

    fn from(_: AllocError) -> Self {
        ConfigFault::OutOfMemory
    }
}

impl<T: Drop> From<AllocFailed<T>> for ConfigFault {
    ghost use Rattle.std.specs.Prelude.{◌≡◌};
    ghost use Rattle.cfg_json.specs.declared.config_fault.ConfigFault.TheVariants.{OutOfMemory};

    ghost from_gives = { λ _ fault. fault ≡ OutOfMemory };

    fn from(_: AllocFailed<T>) -> Self {
        ConfigFault::OutOfMemory
    }
}

impl From<ProbeFault> for ConfigFault {
    ghost use Rattle.std.specs.Prelude.{◌≡◌};
    ghost use Rattle.cfg_json.specs.Probes.{probe_rule};

    ghost from_gives = { λ fault rule. rule ≡ probe_rule fault };

    fn from(fault: ProbeFault) -> Self {
        match fault {
            ProbeFault::ProbeSyntax(at) => ConfigFault::ProbeSyntax(at),
            ProbeFault::OutOfMemory => ConfigFault::OutOfMemory,
        }
    }
}

impl From<TmplFault> for ConfigFault {
    ghost use Rattle.std.specs.Prelude.{◌≡◌};
    ghost use Rattle.cfg_json.specs.Readings.{template_rule};

    ghost from_gives = { λ fault rule. rule ≡ template_rule fault };

    fn from(fault: TmplFault) -> Self {
        match fault {
            TmplFault::TemplateSyntax => ConfigFault::TemplateSyntax,
            TmplFault::OutOfMemory => ConfigFault::OutOfMemory,
        }
    }
}

impl From<PatternFault> for ConfigFault {
    ghost use Rattle.std.specs.Prelude.{◌≡◌};
    ghost use Rattle.cfg_json.specs.Readings.{pattern_rule};

    ghost from_gives = { λ fault rule. rule ≡ pattern_rule fault };

    fn from(fault: PatternFault) -> Self {
        match fault {
            PatternFault::PatternSyntax(text) => ConfigFault::PatternSyntax(text),
            PatternFault::PatternTooLarge(text) => ConfigFault::PatternTooLarge(text),
            PatternFault::OutOfMemory => ConfigFault::OutOfMemory,
        }
    }
}
