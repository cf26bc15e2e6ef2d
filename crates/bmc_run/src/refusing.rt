ghost use Rattle.std.specs.Prelude.{◌≡◌, Some, None, IfOk, OnErr};
ghost use Rattle.bmc_machine.specs.Refusals.{command_refusal, config_refusal};

use bmc_base::OutOfMemory;
use bmc_report::Refusal;
use bmc_script::ScriptFault;
use cfg_json::ConfigFault;

/// The refusal by a rule that a line breaks to have a command; want of memory is no rule.
pub fn command_refused(fault: ScriptFault) -> Result<Refusal, OutOfMemory>
    ensures refusal { IfOk result (λ refusal. command_refusal fault ≡ Some refusal) }
    ensures memory { OnErr result (command_refusal fault ≡ None) }
{
    let refusal = match fault {
        ScriptFault::UnknownCommand => Refusal::UnknownCommand,
        ScriptFault::BadArguments => Refusal::BadArguments,
        ScriptFault::PlaceRange => Refusal::PlaceRange,
        ScriptFault::TickLimit => Refusal::TickLimit,
        ScriptFault::BadHex => Refusal::BadHex,
        ScriptFault::OutOfMemory => return Err(OutOfMemory),
    };
    Ok(refusal)
}

/// The refusal by a rule that a document breaks; want of memory is no rule.
pub fn config_refused(rule: ConfigFault) -> Result<Refusal, OutOfMemory>
    ensures refusal { IfOk result (λ refusal. config_refusal rule ≡ Some refusal) }
    ensures memory { OnErr result (config_refusal rule ≡ None) }
{
    let refusal = match rule {
        ConfigFault::NotJson => Refusal::NotJson,
        ConfigFault::Fraction => Refusal::Fraction,
        ConfigFault::MissingKey => Refusal::MissingKey,
        ConfigFault::WrongKind => Refusal::WrongKind,
        ConfigFault::OutOfRange => Refusal::OutOfRange,
        ConfigFault::ProbeSyntax(_) => Refusal::ProbeSyntax,
        ConfigFault::TemplateSyntax => Refusal::TemplateSyntax,
        ConfigFault::MuxMatchOne => Refusal::MuxMatchOne,
        ConfigFault::PatternSyntax(_) => Refusal::PatternSyntax,
        ConfigFault::PatternTooLarge(_) => Refusal::PatternTooLarge,
        ConfigFault::OutOfMemory => return Err(OutOfMemory),
    };
    Ok(refusal)
}
