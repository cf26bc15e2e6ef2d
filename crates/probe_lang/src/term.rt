ghost use Rattle.std.specs.Prelude.{◌≡◌, codes, IfOk, option_map};
ghost use Rattle.std.specs.Option.{option_or};
ghost use Rattle.probe_lang.specs.Words.{term_of, term_of_word, found_name, between};
ghost use Rattle.probe_lang.specs.Braces.{pattern_in};
ghost use Rattle.probe_lang.specs.declared.word.Word.TheVariants.{Found};
ghost use Rattle.probe_lang.specs.declared.term.Term.TheVariants.{Operand, Pattern};

use crate::braces::read_pattern;
use crate::spelling::{between, found_name, without_spaces};
use crate::{PatternText, Word};
use bmc_base::OutOfMemory;
use std::alloc::Global;

// What one text of a probe is.
#[derive(Drop)]
pub(crate) enum Term {
    // A constant, or a configuration that is found.
    Operand(Word),
    // A pattern, which is an operand.
    Pattern(PatternText),
    // AND or OR.
    Operator(Word),
    // MATCH_ONE.
    MatchOne,
}

// What a text is; `None` where it is no word.
#[tactic(auto, unfolding(crate::specs::Words::term_of_word))]
pub(crate) fn read_term(alloc: Global, text: &str) -> Result<Option<Term>, OutOfMemory>
    ensures { IfOk result (λ term. term ≡ term_of text.now) }
{
    match without_spaces(text) {
        "TRUE" => Ok(Some(Term::Operand(Word::Always))),
        "FALSE" => Ok(Some(Term::Operand(Word::Never))),
        "AND" => Ok(Some(Term::Operator(Word::And))),
        "OR" => Ok(Some(Term::Operator(Word::Or))),
        "MATCH_ONE" => Ok(Some(Term::MatchOne)),
        word => read_bracketed(alloc, word),
    }
}

// What a word with brackets is: it asks for a configuration, or is a pattern.
#[tactic(auto, unfolding(crate::specs::Braces::pattern_in))]
fn read_bracketed(alloc: Global, word: &str) -> Result<Option<Term>, OutOfMemory>
    ensures { IfOk result (λ term. term ≡ option_or (option_map (λ name. Operand (Found name)) (found_name word.now))
        (option_map Pattern (pattern_in (between (codes "xyz.openbmc_project.FruDevice({") (codes "})") word.now)))) }
{
    if let Some(name) = found_name(word) {
        return Ok(Some(Term::Operand(Word::Found(name))));
    }
    match between(word, "xyz.openbmc_project.FruDevice({", "})") {
        Some(inner) => Ok(read_pattern(alloc, inner)?.map(Term::Pattern)),
        None => Ok(None),
    }
}
