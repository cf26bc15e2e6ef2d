ghost use Rattle.std.specs.Prelude.{◌≡◌, true, false, [], ◌∷◌, codes};
ghost use Rattle.bmc_words.specs.Examples.{asked_by, refused};
ghost use Rattle.bmc_words.specs.Examples.{with_strict, with_log_cap, with_sample, with_configs, with_options};
ghost use Rattle.bmc_words.specs.Settings.{usage};

use crate::USAGE;

/// What words ask for, computed from the definitions: each argument alone, numbers at both ends of their ranges and
/// with signs and zeros, names among options, and words behind `--`.
#[tactic(auto, unfolding(clap::proofs::OnLiterals::clap_on_literals))]
pub fn settings_of_words()
    ensures nothing { asked_by [] ≡ with_strict false }
    ensures strict { asked_by (codes "--strict" ∷ []) ≡ with_strict true }
    ensures least_cap { asked_by (codes "--log-cap" ∷ codes "1" ∷ []) ≡ with_log_cap 1 }
    ensures greatest_cap { asked_by (codes "--log-cap" ∷ codes "1000" ∷ []) ≡ with_log_cap 1000 }
    ensures cap_behind_sign { asked_by (codes "--log-cap=5" ∷ []) ≡ with_log_cap 5 }
    ensures cap_with_plus { asked_by (codes "--log-cap" ∷ codes "+5" ∷ []) ≡ with_log_cap 5 }
    ensures cap_with_zeros { asked_by (codes "--log-cap=007" ∷ []) ≡ with_log_cap 7 }
    ensures least_sample { asked_by (codes "--sample" ∷ codes "0" ∷ []) ≡ with_sample 0 }
    ensures greatest_sample { asked_by (codes "--sample=2147483647" ∷ []) ≡ with_sample 2147483647 }
    ensures options { asked_by (codes "--log-cap=5" ∷ codes "--sample=7" ∷ codes "--strict" ∷ []) ≡ with_options }
    ensures names { asked_by (codes "b" ∷ codes "a" ∷ []) ≡ with_configs (codes "b" ∷ codes "a" ∷ []) }
    ensures same_name { asked_by (codes "a" ∷ codes "a" ∷ []) ≡ with_configs (codes "a" ∷ codes "a" ∷ []) }
    ensures empty_name { asked_by ([] ∷ []) ≡ with_configs ([] ∷ []) }
    ensures hyphen { asked_by (codes "-" ∷ []) ≡ with_configs (codes "-" ∷ []) }
    ensures hyphens { asked_by (codes "--" ∷ []) ≡ with_strict false }
    ensures behind_hyphens { asked_by (codes "--" ∷ codes "--strict" ∷ []) ≡ with_configs (codes "--strict" ∷ []) }
{}

/// Words that are refused, computed likewise: words that are no argument, a flag with a value, options that stand twice
/// or without a value, numbers out of form or range, calls for help, and a sample beside a configuration.
#[tactic(auto, unfolding(clap::proofs::OnLiterals::clap_on_literals))]
pub fn words_refused()
    ensures unknown { asked_by (codes "--fast" ∷ []) ≡ refused }
    ensures prefix { asked_by (codes "--stri" ∷ []) ≡ refused }
    ensures letter { asked_by (codes "-s" ∷ []) ≡ refused }
    ensures strict_twice { asked_by (codes "--strict" ∷ codes "--strict" ∷ []) ≡ refused }
    ensures strict_with_value { asked_by (codes "--strict=true" ∷ []) ≡ refused }
    ensures cap_twice { asked_by (codes "--log-cap=5" ∷ codes "--log-cap=5" ∷ []) ≡ refused }
    ensures cap_alone { asked_by (codes "--log-cap" ∷ []) ≡ refused }
    ensures cap_empty { asked_by (codes "--log-cap=" ∷ []) ≡ refused }
    ensures cap_zero { asked_by (codes "--log-cap" ∷ codes "0" ∷ []) ≡ refused }
    ensures cap_too_great { asked_by (codes "--log-cap" ∷ codes "1001" ∷ []) ≡ refused }
    ensures cap_with_minus { asked_by (codes "--log-cap" ∷ codes "-5" ∷ []) ≡ refused }
    ensures cap_behind_hyphens { asked_by (codes "--log-cap" ∷ codes "--" ∷ codes "5" ∷ []) ≡ refused }
    ensures sample_too_great { asked_by (codes "--sample" ∷ codes "2147483648" ∷ []) ≡ refused }
    ensures sample_minus_zero { asked_by (codes "--sample=-0" ∷ []) ≡ refused }
    ensures help { asked_by (codes "--help" ∷ []) ≡ refused }
    ensures help_letter { asked_by (codes "-h" ∷ []) ≡ refused }
    ensures sample_and_name { asked_by (codes "--sample" ∷ codes "7" ∷ codes "a" ∷ []) ≡ refused }
    ensures name_and_sample { asked_by (codes "a" ∷ codes "--sample=7" ∷ []) ≡ refused }
{}

/// The usage line is that of the definitions.
pub fn usage_line()
    ensures { USAGE.now ≡ usage }
{}
