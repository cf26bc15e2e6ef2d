ghost use Rattle.std.specs.Prelude.{◌≡◌, ◌++◌, Some, IfOk, OnOk, string_bytes};
ghost use Rattle.std.specs.List.{flat_map};
ghost use Rattle.std.specs.Char.{encode_utf8};
ghost use Rattle.serde_json.specs.View.{view, members_view};
ghost use Rattle.probe_lang.specs.Braces.{json_byte, json_text, pattern_in, pattern_of, members_of, want_of};

use crate::{Member, PatternText, Want};
use bmc_base::{OutOfMemory, Text};
use serde_json::{Map, Value};
use std::alloc::Global;

const MOST_MEMBERS: usize = 16;

const LONGEST_WANT: usize = 256;

// The members of a pattern with this between its braces; `None` where it is no pattern.
#[tactic(auto, unfolding(crate::specs::Braces::pattern_in))]
pub(crate) fn read_pattern(alloc: Global, inner: &str) -> Result<Option<PatternText>, OutOfMemory>
    ensures { IfOk result (λ members. members ≡ pattern_in (Some inner.now)) }
{
    let json = json_text(alloc, inner)?;
    match Value::from_str(alloc, json.as_str()) {
        Ok(value) => read_object(alloc, &value),
        Err(error) => if error.is_memory() {
            Err(OutOfMemory)
        } else {
            Ok(None)
        },
    }
}

// The text of an object with this between its braces, where quotes become double quotes, and backslashes
// are doubled.
fn json_text(alloc: Global, inner: &str) -> Result<String, OutOfMemory>
    ensures { IfOk result (λ json. string_bytes json ≡ json_text inner.now) }
{
    // Each byte takes two at the most.
    let room = inner.len().saturating_mul(2).saturating_add(2);
    let mut json = String::with_capacity(alloc, room)?;
    json.push('{')?;
    for char in inner.chars() {
        push_character(&mut json, char)?;
    }
    json.push('}')?;
    Ok(json)
}

// Appends a character of a pattern as it stands in JSON.
#[tactic(auto, using(crate::proofs::BracesLemmas::json_quote, crate::proofs::BracesLemmas::json_backslash, crate::proofs::BracesLemmas::json_other))]
fn push_character(json: &mut String, char: char) -> Result<(), OutOfMemory>
    ensures { OnOk result (string_bytes json.new ≡ string_bytes json.old ++ flat_map json_byte (encode_utf8 char)) }
{
    match char {
        '\'' => json.push('"')?,
        '\\' => json.push_str("\\\\")?,
        _ => json.push(char)?,
    }
    Ok(())
}

// The members of an object; `None` where it is none, or one of them is wrong.
fn read_object(alloc: Global, value: &Value) -> Result<Option<PatternText>, OutOfMemory>
    ensures { IfOk result (λ members. members ≡ pattern_of (view value.now)) }
{
    match value {
        Value::Object(members) => if members.len() <= MOST_MEMBERS {
            read_members(alloc, members)
        } else {
            Ok(None)
        },
        _ => Ok(None),
    }
}

// The members, in the order of their keys; `None` where one of them is wrong.
fn read_members(
    alloc: Global,
    members: &Map<String, Value>,
) -> Result<Option<PatternText>, OutOfMemory>
    ensures { IfOk result (λ read. read ≡ members_of (members_view members.now.entries)) }
{
    let mut text = PatternText::with_capacity(alloc, members.len())?;
    'members: for (key, value) in members.iter() {
        match read_want(alloc, value)? {
            Some(want) => {
                let key = Text::copy(alloc, key.as_str())?;
                text.push(alloc, Member { key, want })?;
            }
            None => return Ok(None),
        }
    }
    Ok(Some(text))
}

// What a member wants; `None` where it is neither a text of at most 256 bytes nor a whole number.
fn read_want(alloc: Global, value: &Value) -> Result<Option<Want>, OutOfMemory>
    ensures { IfOk result (λ want. want ≡ want_of (view value.now)) }
{
    match value {
        Value::String(text) => if text.len() <= LONGEST_WANT {
            Ok(Some(Want::Pattern(Text::copy(alloc, text.as_str())?)))
        } else {
            Ok(None)
        },
        Value::Number(number) => Ok(number.as_i128().map(Want::Number)),
        _ => Ok(None),
    }
}
