ghost use Rattle.std.specs.Prelude.{◌≡◌, option_map};
ghost use Rattle.probe_lang.specs.Words.{without_spaces, between, found_name};

use bmc_base::Name;

// The text without the spaces at its start and at its end.
pub(crate) fn without_spaces(text: &str) -> &str
    ensures { result.now ≡ without_spaces text.now }
{
    text.trim_matches(' ')
}

// What stands between a head and a tail, where the text has both.
#[tactic(auto, using(crate::proofs::WordsLemmas::no_head))]
pub(crate) fn between<'a>(text: &'a str, head: &str, tail: &str) -> Option<&'a str>
    ensures { option_map (λ middle. middle.now) result ≡ between head.now tail.now text.now }
{
    text.strip_prefix(head)?.strip_suffix(tail)
}

// The name that a word `FOUND('NAME')` asks for: 1 to 64 bytes without a quote.
#[tactic(auto, unfolding(crate::specs::Words::found_name))]
pub(crate) fn found_name(word: &str) -> Option<Name>
    ensures { result ≡ found_name word.now }
{
    let name = between(word, "FOUND('", "')")?;
    if name.contains('\'') {
        return None;
    }
    Name::new(name).ok()
}
