ghost use Rattle.std.specs.Prelude.{codes};
ghost use Rattle.bmc_words.specs.Examples.{with_log_cap, with_sample};
ghost use Rattle.bmc_words.specs.Laws.{ReadsNumbers, WordsAreNames, WordsBehindHyphensAreNames};

/// An option with any text behind its equals sign asks for the number of the text, where it is a whole number in the
/// option's range, and else is refused.
pub fn numbers_are_read()
    ensures log_cap { ReadsNumbers (codes "--log-cap=") 1 1000 with_log_cap }
    ensures sample { ReadsNumbers (codes "--sample=") 0 2147483647 with_sample }
{}

/// Words of which none begins with a hyphen are names of configurations, whatever they are.
pub fn words_are_names()
    ensures { WordsAreNames }
{}

/// Behind `--` any words are names of configurations.
pub fn words_behind_hyphens_are_names()
    ensures { WordsBehindHyphensAreNames }
{}
