ghost use Rattle.std.specs.Prelude.{◌≡◌, [], Some, None, MatchOption, drop};
ghost use Rattle.std.specs.Prelude.{option_and_then, option_map, decimal};
ghost use Rattle.std.specs.Result.{result_ok};
ghost use Rattle.bmc_base.specs.Names.{name_of};
ghost use Rattle.tmpl.specs.Operations.{operations_of, digits, up_to};
ghost use Rattle.tmpl.specs.Rendering.{fields_of, pieces_text, value_at, substituted};
ghost use Rattle.tmpl.specs.Rendering.{rendered, rendered_behind, given, number_digits};
ghost use Rattle.tmpl.specs.Stretches.{Joins, stretch_pieces};
ghost use Rattle.tmpl.specs.Leads.{IsMarked, IsLead, AreLeads, behind_lead};

use crate::digits::read_digits;
use crate::lead::{Lead, Leads, Marks};
use crate::operation::{compute_all, has_operation};
use crate::stretch::{Stretch, next_stretch};
use crate::word::Word;
use crate::{Rendered, Spot};
use arrayvec::ArrayString;
use bmc_base::Name;

// The most bytes of a name.
const LONGEST_NAME: usize = 64;

// The most digits of a number.
const NUMBER_DIGITS: usize = 10;

// Appends a text. None where there is no room.
fn push_text(out: &mut ArrayString<LONGEST_NAME>, text: &str) -> Option<()>
    ensures { Joins out.old.bytes out.new.bytes (Some text.now) result }
{
    out.try_push_str(text).ok()
}

// Appends the value of a word behind its operations.
fn push_value(
    out: &mut ArrayString<LONGEST_NAME>,
    word: Word,
    behind: &[u8],
    spot: &Spot<'_>,
) -> Option<()>
    ensures { Joins out.old.bytes out.new.bytes
        (option_map decimal (value_at spot.now.place (fields_of spot.now.fru) spot.now.index
        word (operations_of behind.now))) result }
{
    let value = compute_all(word.number(spot)?, behind)?;
    push_text(out, itoa::Buffer::new().format(value))
}

// Appends what a substitution stands for. None where that is nothing, or there is no room.
fn push_substitution(
    out: &mut ArrayString<LONGEST_NAME>,
    word: Word,
    behind: &[u8],
    spot: &Spot<'_>,
) -> Option<()>
    ensures { Joins out.old.bytes out.new.bytes
        (substituted spot.now.place (fields_of spot.now.fru) spot.now.index word
        (operations_of behind.now)) result }
{
    match word {
        Word::Field(name) if !has_operation(behind) => {
            push_text(out, spot.fru?.field_named(name)?)
        }
        _ => push_value(out, word, behind, spot),
    }
}

// Appends what a stretch stands for. None where that is nothing, or there is no room.
fn push_stretch(
    out: &mut ArrayString<LONGEST_NAME>,
    stretch: &Stretch<'_>,
    spot: &Spot<'_>,
) -> Option<()>
    ensures { Joins out.old.bytes out.new.bytes
        (pieces_text spot.now.place (fields_of spot.now.fru) spot.now.index
        (stretch_pieces stretch.now)) result }
{
    match stretch {
        Stretch::Plain(text) => push_text(out, text),
        Stretch::Substitution(word, behind) => push_substitution(out, (*word)?, behind, spot),
    }
}

// Appends what the plain text and the substitution at the front of a text stand for.
#[inline(always)]
fn push_marked(
    out: &mut ArrayString<LONGEST_NAME>,
    marks: &Marks,
    text: &str,
    spot: &Spot<'_>,
) -> Option<()>
    requires { IsMarked text.now marks.now }
    ensures { let P = spot.now.place in let F = fields_of spot.now.fru in let I = spot.now.index in
        MatchOption result (rendered_behind P F I out.old.bytes text.now ≡ None)
        (λ done. rendered_behind P F I out.old.bytes text.now ≡
        rendered_behind P F I out.new.bytes (drop marks.now.rest text.now)) }
{
    let (plain, _) = text.split_at(usize::from(marks.plain));
    push_text(out, plain)?;
    let (_, behind) = text.as_bytes().split_at(usize::from(marks.behind));
    push_substitution(out, marks.word, behind, spot)
}

// Appends what the known front of a text stands for, and returns the text behind it. None where
// the whole is no name.
#[inline(always)]
fn push_lead<'a>(
    out: &mut ArrayString<LONGEST_NAME>,
    lead: &Lead,
    text: &'a str,
    spot: &Spot<'_>,
) -> Option<&'a str>
    requires { IsLead text.now lead.now }
    ensures { let P = spot.now.place in let F = fields_of spot.now.fru in let I = spot.now.index in
        MatchOption result (rendered_behind P F I out.old.bytes text.now ≡ None)
        (λ rest. (rest.now ≡ behind_lead lead.now text.now) × (rendered_behind P F I out.old.bytes text.now ≡
        rendered_behind P F I out.new.bytes rest.now)) }
{
    match lead {
        Lead::Unread => {}
        Lead::Whole => push_text(out, text)?,
        Lead::Marked(marks) => push_marked(out, marks, text, spot)?,
    }
    Some(lead.behind(text))
}

// Appends what a text stands for. None where a part of it stands for nothing, or there is no room.
fn push_rest(out: &mut ArrayString<LONGEST_NAME>, text: &str, spot: &Spot<'_>) -> Option<()>
    ensures { let text = rendered_behind spot.now.place (fields_of spot.now.fru) spot.now.index
        out.old.bytes text.now in
        MatchOption result (text ≡ None) (λ done. text ≡ result_ok (name_of out.new.bytes)) }
{
    let mut rest = text;
    while let Some((stretch, later)) = next_stretch(rest) {
        push_stretch(out, &stretch, spot)?;
        rest = later;
    }
    Some(())
}

// Appends what a text, whose front is known, stands for. None where a part of it stands for
// nothing, or it is too long for a name.
pub(crate) fn push_text_of(
    out: &mut ArrayString<LONGEST_NAME>,
    text: &str,
    leads: &Leads,
    spot: &Spot<'_>,
) -> Option<()>
    requires empty { out.old.bytes ≡ [] }
    requires leads { AreLeads text.now leads.now }
    ensures { let text = rendered spot.now.place (fields_of spot.now.fru) spot.now.index text.now in
        MatchOption result (text ≡ None) (λ done. text ≡ result_ok (name_of out.new.bytes)) }
{
    let behind = push_lead(out, &leads.first, text, spot)?;
    let rest = push_lead(out, &leads.second, behind, spot)?;
    if rest.is_empty() {
        return Some(());
    }
    push_rest(out, rest, spot)
}

// What is rendered, where it comes to this text.
pub(crate) fn named(text: &str) -> Rendered
    ensures { result ≡ given (result_ok (name_of text.now)) }
{
    match Name::new(text) {
        Ok(name) => Rendered::Given(name),
        Err(_) => Rendered::Skip,
    }
}

// What is rendered, where it comes to this text, which is held already.
pub(crate) fn given(text: ArrayString<LONGEST_NAME>) -> Rendered
    ensures { result ≡ given (result_ok (name_of text.bytes)) }
{
    match Name::of(text) {
        Some(name) => Rendered::Given(name),
        None => Rendered::Skip,
    }
}

// The number of 1 to 10 digits, at most the maximum.
pub(crate) fn number_in(text: &str, max: u32) -> Option<u32>
    ensures { result ≡ option_and_then (up_to max) (digits number_digits text.now) }
{
    let number = read_digits(text.as_bytes(), NUMBER_DIGITS)?;
    if number <= u64::from(max) {
        Some(number as u32)
    } else {
        None
    }
}
