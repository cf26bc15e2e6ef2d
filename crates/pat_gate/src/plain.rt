ghost use Rattle.std.specs.Prelude.{◌≡◌, ◌++◌, [], codes, if◌then◌else◌, IfOk, IfSome};
ghost use Rattle.std.specs.List.{list_all};
ghost use Rattle.pat_gate.specs.Grammar.{has_match};
ghost use Rattle.pat_gate.specs.Plain.{is_operator, is_plain, written};

use bmc_base::{OutOfMemory, Text};
use std::alloc::Global;
use std::marker::Model;

// A text without operators, maybe behind `^`, before `$` or between both. It is matched as a text: a
// matcher takes a hundred times as long to make as to use.
#[derive(Drop)]
pub(crate) struct Plain {
    text: Text,
    at_start: bool,
    at_end: bool,
}

impl Model for Plain {
    ghost use Rattle.pat_gate.specs.Plain.{Plain, IsPlain};

    ghost Value = { Plain };

    ghost view = { λ p. record { text = p.text; at_start = p.at_start; at_end = p.at_end } };

    ghost invariant = { λ p. IsPlain (record { text = p.text; at_start = p.at_start; at_end = p.at_end }) };
}

impl Plain {
    // Returns the plain pattern that is written so, or `None` where its text is empty or has a character
    // that is not plain.
    pub(crate) fn read(alloc: Global, pattern: &str) -> Result<Option<Plain>, OutOfMemory>
        ensures { IfOk result (λ read. IfSome read (λ plain. written plain ≡ pattern.now)) }
    {
        let (at_start, rest) = split_start(pattern);
        let (at_end, text) = split_end(rest);
        if text.is_empty() || !is_plain(text) {
            return Ok(None);
        }
        let text = Text::copy(alloc, text)?;
        Ok(Some(Plain {
            text,
            at_start,
            at_end,
        }))
    }

    // Whether the pattern has a match in a text.
    pub(crate) fn found_in(&self, hay: &str) -> bool
        ensures { result ≡ has_match (written self.now) hay.now }
    {
        let text = self.text.as_str();
        match (self.at_start, self.at_end) {
            (false, false) => hay.contains(text),
            (true, false) => hay.starts_with(text),
            (false, true) => hay.ends_with(text),
            (true, true) => hay == text,
        }
    }
}

// Whether the pattern begins with `^`, and what follows.
fn split_start(pattern: &str) -> (bool, &str)
    ensures { pattern.now ≡ (if result.0 then codes "^" else []) ++ result.1.now }
{
    match pattern.strip_prefix('^') {
        Some(rest) => (true, rest),
        None => (false, pattern),
    }
}

// Whether the pattern ends with `$`, and what is before it.
fn split_end(pattern: &str) -> (bool, &str)
    ensures { pattern.now ≡ result.1.now ++ (if result.0 then codes "$" else []) }
{
    match pattern.strip_suffix('$') {
        Some(rest) => (true, rest),
        None => (false, pattern),
    }
}

// Whether all its characters are plain.
fn is_plain(text: &str) -> bool
    ensures { result ≡ list_all is_plain text.now }
{
    text.bytes()
        .all(|byte| byte.is_ascii() && !is_operator(byte))
}

// Whether the character has a meaning of its own in a pattern.
fn is_operator(byte: u8) -> bool
    ensures { result ≡ is_operator byte }
{
    matches!(
        byte,
        b'\\' | b'.' | b'+' | b'*' | b'?' | b'(' | b')' | b'|' | b'[' | b'{' | b'^' | b'$'
    )
}
