ghost use Rattle.std.specs.Prelude.{◌≡◌, ◌<◌, ◌^◌, ◌++◌, ◌||◌, nat_lt, length};
ghost use Rattle.std.specs.List.{list_any};
ghost use Rattle.std.specs.Str.{chars};
ghost use Rattle.fru_record.specs.Parts.{chassis_texts, board_texts, product_texts, texts_of};
ghost use Rattle.fru_record.specs.Building.{first_six_bit, last_six_bit, is_not_latin, is_too_long, is_bad_single};
ghost use Rattle.fru_record.specs.TextRules.{breaks};

use crate::parts::{BoardPart, ChassisPart, FieldTexts, Parts, ProductPart};
use fru_area::LONGEST_FIELD;

// The first and the last character of 6-bit ASCII.
pub(crate) const FIRST_SIX_BIT: u32 = 0x20;

const LAST_SIX_BIT: u32 = 0x5F;

// The last character of Latin 1.
const LAST_LATIN: u32 = 0xFF;

// What each text of a record that is built keeps.
#[derive(Clone, Copy)]
pub(crate) enum TextRule {
    // Its characters are Latin 1.
    Latin,
    // It has at most 63 characters.
    Length,
    // If it is a single character, 6-bit ASCII has it.
    Single,
}

// Tells whether a text of the parts breaks a rule.
pub(crate) fn parts_break(rule: TextRule, parts: &Parts) -> bool
    ensures { result ≡ list_any (breaks rule) (texts_of parts.now) }
{
    let chassis = chassis_breaks(rule, &parts.chassis);
    let board = board_breaks(rule, &parts.board);
    let product = product_breaks(rule, &parts.product);
    chassis || board || product
}

fn chassis_breaks(rule: TextRule, part: &Option<ChassisPart>) -> bool
    ensures { result ≡ list_any (breaks rule) (chassis_texts part.now) }
{
    match part {
        Some(part) => area_breaks(rule, &part.named, &part.custom),
        None => false,
    }
}

fn board_breaks(rule: TextRule, part: &Option<BoardPart>) -> bool
    ensures { result ≡ list_any (breaks rule) (board_texts part.now) }
{
    match part {
        Some(part) => area_breaks(rule, &part.named, &part.custom),
        None => false,
    }
}

fn product_breaks(rule: TextRule, part: &Option<ProductPart>) -> bool
    ensures { result ≡ list_any (breaks rule) (product_texts part.now) }
{
    match part {
        Some(part) => area_breaks(rule, &part.named, &part.custom),
        None => false,
    }
}

fn area_breaks(rule: TextRule, named: &FieldTexts, custom: &FieldTexts) -> bool
    ensures { result ≡ list_any (breaks rule) (named.now ++ custom.now) }
{
    let in_named = texts_break(rule, named);
    let in_custom = texts_break(rule, custom);
    in_named || in_custom
}

fn texts_break(rule: TextRule, texts: &FieldTexts) -> bool
    ensures { result ≡ list_any (breaks rule) texts.now }
{
    texts
        .as_slice()
        .iter()
        .any(|text| text_breaks(rule, text.as_str()))
}

fn text_breaks(rule: TextRule, text: &str) -> bool
    ensures { result ≡ breaks rule text.now }
{
    match rule {
        TextRule::Latin => is_not_latin(text),
        TextRule::Length => is_too_long(text),
        TextRule::Single => is_bad_single(text),
    }
}

fn is_not_latin(text: &str) -> bool
    ensures { result ≡ is_not_latin text.now }
{
    text.chars().any(|c| u32::from(c) > LAST_LATIN)
}

fn is_too_long(text: &str) -> bool
    ensures { result ≡ is_too_long text.now }
{
    char_count(text) > LONGEST_FIELD
}

#[tactic(auto, using(crate::proofs::TextRulesLemmas::bad_single))]
fn is_bad_single(text: &str) -> bool
    ensures { result ≡ is_bad_single (chars text.now) }
{
    let single = char_count(text) == 1;
    let bad = has_no_six_bit(text);
    single && bad
}

// Tells whether a character is none of 6-bit ASCII.
fn has_no_six_bit(text: &str) -> bool
    ensures { result ≡ list_any (λ c. nat_lt c first_six_bit || nat_lt last_six_bit c) (chars text.now) }
{
    text.chars().any(|c| u32::from(c) < FIRST_SIX_BIT || u32::from(c) > LAST_SIX_BIT)
}

// Counts the characters of a text.
pub(crate) fn char_count(text: &str) -> usize
    ensures exact { result ≡ length (chars text.now) }
    ensures limit { result < 2 ^ 63 }
{
    text.chars().count()
}
