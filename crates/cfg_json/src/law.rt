ghost use Rattle.cfg_json.specs.Laws.{AnswersAreVerdicts, PidsAreValid, SettingsAreValid, StepwisesAreValid};

/// Each answer of [`Config::read`](crate::Config::read) but want of memory is a verdict on the patterns of
/// what the document says, and the maker lists the text that it calls too large.
#[tactic(auto, using(crate::proofs::VerdictsLemmas::gives_ties))]
pub fn answers_are_verdicts()
    ensures { AnswersAreVerdicts }
{}

/// Each setting of a sensor that is read is a valid one: all its numbers are in their ranges.
pub fn settings_are_valid()
    ensures { SettingsAreValid }
{}

/// Each controller that is read is a valid one: all numbers of its setting are in their ranges, and it has at most 16
/// inputs and 16 outputs.
pub fn controls_are_valid()
    ensures pid { PidsAreValid }
    ensures stepwise { StepwisesAreValid }
{}
