ghost use Rattle.std.specs.Prelude.{◌≡◌, ◌≤◌, ◌<◌, ◌+◌, [], false, length};
ghost use Rattle.std.specs.Prelude.{drop, slice_index, MatchOption, IfSome, position};
ghost use Rattle.std.specs.List.{list_all, list_any, position_or_len};
ghost use Rattle.tmpl.specs.Words.{starts_word};
ghost use Rattle.tmpl.specs.Templates.{pieces_of, is_fixed, is_single, uses_index, is_dollar};
ghost use Rattle.tmpl.specs.Templates.{first_word, begins_substitution};
ghost use Rattle.tmpl.specs.Templates.{is_right, is_plain, is_index, asks_index};
ghost use Rattle.tmpl.specs.Stretches.{BeginsWith, stretch_pieces};

use crate::operation::{any_divides_by_zero, operations_len};
use crate::word::{Word, is_word_byte, starts_word};

// A part of a template.
#[derive(Clone, Copy)]
pub(crate) enum Stretch<'a> {
    // Text up to the next substitution, or to the end, or to a `$` that begins none.
    Plain(&'a str),
    // A substitution: its word, where it is known, and the text behind that, which begins with the
    // operations.
    Substitution(Option<Word>, &'a [u8]),
}

impl Stretch<'_> {
    // Whether its word is known and it divides nothing by 0.
    fn is_right(&self) -> bool
        ensures { result ≡ list_all is_right (stretch_pieces self.now) }
    {
        match self {
            Stretch::Plain(_) => true,
            Stretch::Substitution(word, behind) => match word {
                Some(_) => !any_divides_by_zero(behind),
                None => false,
            },
        }
    }

    // Whether it is plain text.
    fn is_plain(&self) -> bool
        ensures { result ≡ list_all is_plain (stretch_pieces self.now) }
    {
        match self {
            Stretch::Plain(_) => true,
            Stretch::Substitution(_, _) => false,
        }
    }

    // Whether it asks for the index.
    fn asks_index(&self) -> bool
        ensures { result ≡ list_any asks_index (stretch_pieces self.now) }
    {
        match self {
            Stretch::Plain(_) => false,
            Stretch::Substitution(word, _) => is_index(*word),
        }
    }
}

// Whether a word is `index`.
fn is_index(word: Option<Word>) -> bool
    ensures { result ≡ is_index word }
{
    matches!(word, Some(Word::Index))
}

// The first stretch of a text, and the text behind it; none where the text is empty.
pub(crate) fn next_stretch(text: &str) -> Option<(Stretch<'_>, &str)>
    ensures { MatchOption result (text.now ≡ [])
        (λ found. BeginsWith text.now found.0 found.1.now) }
{
    match next_substitution(text) {
        Some(found) => Some(found),
        None => next_plain(text),
    }
}

// The substitution at the front of a text, and the text behind it.
fn next_substitution(text: &str) -> Option<(Stretch<'_>, &str)>
    ensures { MatchOption result (begins_substitution text.now ≡ false)
        (λ found. BeginsWith text.now found.0 found.1.now) }
{
    let marked = text.strip_prefix('$')?;
    if !begins_word(marked.as_bytes()) {
        return None;
    }
    let (word, behind) = marked.split_at(word_len(marked.as_bytes()));
    let (_, rest) = behind.split_at(operations_len(behind.as_bytes()));
    Some((
        Stretch::Substitution(Word::read(word), behind.as_bytes()),
        rest,
    ))
}

// Whether a text begins with a word.
fn begins_word(text: &[u8]) -> bool
    ensures { result ≡ starts_word (slice_index text.now 0) }
{
    match text.first() {
        Some(first) => starts_word(*first),
        None => false,
    }
}

// How many bytes of words the front of a text has.
fn word_len(text: &[u8]) -> usize
    ensures { result ≡ length (first_word text.now) }
{
    text.iter().take_while(|byte| is_word_byte(**byte)).count()
}

// The plain text at the front of a text that begins with no substitution, and the text behind it.
fn next_plain(text: &str) -> Option<(Stretch<'_>, &str)>
    requires { begins_substitution text.now ≡ false }
    ensures { MatchOption result (text.now ≡ [])
        (λ found. BeginsWith text.now found.0 found.1.now) }
{
    if text.is_empty() {
        return None;
    }
    let (plain, rest) = text.split_at(plain_len(text.as_bytes()));
    Some((Stretch::Plain(plain), rest))
}

// How far plain text goes: over the first byte, and up to the next `$`.
fn plain_len(text: &[u8]) -> usize
    requires { 0 < length text.now }
    ensures exact { result ≡ 1 + position_or_len is_dollar (drop 1 text.now) }
    ensures within { result ≤ length text.now }
{
    match dollar_at(&text[1..]) {
        Some(at) => 1 + at,
        None => text.len(),
    }
}

// Where the first `$` stands.
fn dollar_at(text: &[u8]) -> Option<usize>
    ensures exact { result ≡ position is_dollar text.now }
    ensures within { IfSome result (λ at. at < length text.now) }
{
    text.iter().position(|byte| *byte == b'$')
}

// Whether each piece of a text is right; a fixed one has no other.
#[tactic(auto, unfolding(crate::specs::Templates::is_fixed))]
pub(crate) fn all_right(text: &str, fixed: bool) -> bool
    requires { fixed ≡ is_fixed text.now }
    ensures { result ≡ list_all is_right (pieces_of text.now) }
{
    fixed || are_right(text)
}

// Whether each piece of a text is right.
fn are_right(text: &str) -> bool
    ensures { result ≡ list_all is_right (pieces_of text.now) }
{
    let mut rest = text;
    while let Some((stretch, later)) = next_stretch(rest) {
        if !stretch.is_right() {
            return false;
        }
        rest = later;
    }
    true
}

// Whether a text has no substitution.
#[tactic(auto, unfolding(crate::specs::Templates::is_fixed))]
pub(crate) fn is_fixed(text: &str) -> bool
    ensures { result ≡ is_fixed text.now }
{
    let mut rest = text;
    while let Some((stretch, later)) = next_stretch(rest) {
        if !stretch.is_plain() {
            return false;
        }
        rest = later;
    }
    true
}

// Whether a text is one substitution and nothing else.
pub(crate) fn is_single(text: &str) -> bool
    ensures { result ≡ is_single text.now }
{
    match next_stretch(text) {
        Some((Stretch::Substitution(_, _), rest)) => rest.is_empty(),
        Some((Stretch::Plain(_), _)) => false,
        None => false,
    }
}

// Whether a text asks for the index.
#[tactic(auto, unfolding(crate::specs::Templates::uses_index))]
pub(crate) fn uses_index(text: &str) -> bool
    ensures { result ≡ uses_index text.now }
{
    let mut rest = text;
    while let Some((stretch, later)) = next_stretch(rest) {
        if stretch.asks_index() {
            return true;
        }
        rest = later;
    }
    false
}
