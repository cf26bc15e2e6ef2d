ghost use Rattle.std.specs.Prelude.{◌≡◌, ◌≤◌, ◌<◌, ◌+◌, ◌*◌, ◌++◌, OnOk, chars, length, string_bytes};
ghost use Rattle.std.specs.List.{flat_map, list_all};
ghost use Rattle.bmc_report.specs.Quoted.{is_plain, escaped, quoted, hex_digit};

use crate::line::Line;
use arrayvec::ArrayString;
use bmc_base::{Name, OutOfMemory};

// A lower-case hexadecimal digit.
fn hex_digit_of(value: u32) -> char
    requires { value < 16 }
    ensures value { result ≡ hex_digit value }
    ensures ascii { result < 128 }
{
    if value < 10 {
        char::from(b'0' + value as u8)
    } else {
        char::from(b'a' + (value - 10) as u8)
    }
}

// Returns what is printed of a character between quotes.
#[tactic(auto, using(crate::proofs::QuotedLemmas::char_size))]
fn escape(char: char) -> ArrayString<4>
    ensures { result.bytes ≡ escaped char }
{
    let mut text = ArrayString::new();
    let code = u32::from(char);
    if code == 34 || code == 92 {
        text.push_str("\\");
        text.push(char);
    } else if code < 32 || code == 127 {
        text.push_str("\\x");
        text.push(hex_digit_of(code / 16));
        text.push(hex_digit_of(code % 16));
    } else {
        text.push(char);
    }
    text
}

// Whether a byte stands for itself between quotes; one beyond ASCII is part of a character.
fn is_plain(byte: u8) -> bool
    ensures { result ≡ is_plain byte }
{
    32 <= byte && byte < 127 && byte != 34 && byte != 92
}

// Whether all its bytes stand for themselves between quotes.
fn is_plain_text(text: &str) -> bool
    ensures { result ≡ list_all is_plain text.now }
{
    text.bytes().all(|byte| is_plain(byte))
}

// Appends the characters of a quoted text: a text that needs no escape is copied at once, as names mostly are.
#[tactic(auto, using(crate::proofs::QuotedLemmas::plain_escaped))]
fn push_characters(out: &mut String, text: &str) -> Result<(), OutOfMemory>
    ensures { OnOk result (string_bytes out.new ≡ string_bytes out.old ++ flat_map escaped (chars text.now)) }
{
    if is_plain_text(text) {
        out.push_str(text)?;
        return Ok(());
    }
    for char in text.chars() {
        out.push_str(escape(char).as_str())?;
    }
    Ok(())
}

// Appends a text between quotes.
#[tactic(auto, using(std::proofs::Common::append_assoc), unfolding(crate::specs::Quoted::quoted))]
pub(crate) fn push_quoted(out: &mut String, text: &str) -> Result<(), OutOfMemory>
    ensures { OnOk result (string_bytes out.new ≡ string_bytes out.old ++ quoted text.now) }
{
    out.push('"')?;
    push_characters(out, text)?;
    out.push('"')?;
    Ok(())
}

// Puts the characters of a quoted text behind a line, as `push_characters` appends them.
#[tactic(auto, using(crate::proofs::QuotedLemmas::plain_escaped))]
fn add_characters(line: &mut Line, text: &str)
    requires { length line.old.bytes + 4 * length text.now ≤ 320 }
    ensures text { line.new.bytes ≡ line.old.bytes ++ flat_map escaped (chars text.now) }
    ensures size { length line.new.bytes ≤ length line.old.bytes + 4 * length text.now }
{
    if is_plain_text(text) {
        line.push_str(text);
        return;
    }
    for char in text.chars() {
        line.push_str(escape(char).as_str());
    }
}

// Puts a name between quotes behind a line. Each of its bytes may take four.
#[tactic(auto, using(std::proofs::Common::append_assoc), unfolding(crate::specs::Quoted::quoted))]
pub(crate) fn add_quoted(line: &mut Line, name: &Name)
    requires { length line.old.bytes + 258 ≤ 320 }
    ensures text { line.new.bytes ≡ line.old.bytes ++ quoted name.now }
    ensures size { length line.new.bytes ≤ length line.old.bytes + 258 }
{
    line.push_str("\"");
    add_characters(line, name.as_str());
    line.push_str("\"");
}
