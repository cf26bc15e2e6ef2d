ghost use Rattle.std.specs.Prelude.{◌≡◌, ◌+◌, ◌^◌, ◌<◌, ◌≤◌, ◌&&◌, [], ◌++◌, length, true, IfSome, MatchOption};
ghost use Rattle.std.specs.Char.Utf16.{is_high_surrogate, is_low_surrogate, surrogate_pair_char};
ghost use Rattle.hex.specs.Hex.{encode_lower};
ghost use Rattle.fru_area.specs.Texts.{text_of, longest_text, bcd_char, bcd_text, little_endian, six_bit_chars, six_bit_text, latin_text};
ghost use Rattle.fru_area.specs.Texts.{unicode_units, unicode_text, is_english_language};
ghost use Rattle.fru_area.specs.Walks.{last_kind, longest_field};
ghost use Rattle.fru_area.specs.Units.{IsFirstChar, IsFirstUnit, unit_char_of};

use crate::FieldText;

/// The most bytes of a field: its length has six bits, of which the value 63 is the last.
pub const LONGEST_FIELD: usize = 63;

// Stands for an odd byte at the end of 2-byte Unicode.
const REPLACEMENT: u16 = 0xFFFD;

/// Returns the text of a field of this type: 0 binary, 1 BCD plus, 2 6-bit ASCII, and 3 by language, which
/// is Latin 1 where the area counts as English and else 2-byte Unicode (FRU definition 1.0, section 13).
/// It takes no memory.
pub fn field_text(kind: u8, english: bool, bytes: &[u8]) -> FieldText
    requires kind { kind ≤ last_kind }
    requires short { length bytes.now ≤ longest_field }
    ensures { result ≡ text_of english (record { kind = kind; bytes = bytes.now }) }
{
    let mut text = FieldText::empty();
    write_text(&mut text, kind, english, bytes);
    text
}

// Writes the text of a field of this type into an empty text.
#[tactic(auto, unfolding(crate::specs::Texts::text_of))]
pub(crate) fn write_text(text: &mut FieldText, kind: u8, english: bool, bytes: &[u8])
    requires empty { text.old ≡ [] }
    requires kind { kind ≤ last_kind }
    requires short { length bytes.now ≤ longest_field }
    ensures { text.new ≡ text_of english (record { kind = kind; bytes = bytes.now }) }
{
    match kind {
        0 => write_binary(text, bytes),
        1 => write_bcd(text, bytes),
        2 => write_six_bit(text, bytes),
        _ if english => write_latin(text, bytes),
        _ => write_unicode(text, bytes),
    }
}

/// Whether text in a language counts as English: 0, where none is given, and 25 (FRU definition 1.0,
/// sections 11 to 13).
pub fn is_english_language(language: u8) -> bool
    ensures { result ≡ is_english_language language }
{
    language == 0 || language == 25
}

// Writes binary as lower-case hexadecimal.
fn write_binary(text: &mut FieldText, bytes: &[u8])
    requires empty { text.old ≡ [] }
    requires short { length bytes.now ≤ longest_field }
    ensures { text.new ≡ encode_lower bytes.now }
{
    let mut buffer = [0; 2 * LONGEST_FIELD];
    let digits = &mut buffer[..2 * bytes.len()];
    hex::encode_to_slice(bytes, digits).unwrap();
    let digits = str::from_utf8(digits).unwrap();
    text.push_str(digits);
}

// Writes BCD plus, two characters a byte.
fn write_bcd(text: &mut FieldText, bytes: &[u8])
    requires empty { text.old ≡ [] }
    requires short { length bytes.now ≤ longest_field }
    ensures { text.new ≡ bcd_text bytes.now }
{
    for byte in bytes {
        text.push_ascii(bcd_char(*byte / 16));
        text.push_ascii(bcd_char(*byte % 16));
    }
}

// The characters of BCD plus, by nibble.
const BCD_PLUS: [u8; 16] = *b"0123456789 -.:,_";

// Returns the character of a nibble of BCD plus.
fn bcd_char(nibble: u8) -> u8
    requires { nibble < 16 }
    ensures exact { result ≡ bcd_char nibble }
    ensures ascii { result < 0x80 }
{
    BCD_PLUS[nibble as usize]
}

// Writes 6-bit ASCII: three bytes hold four characters.
fn write_six_bit(text: &mut FieldText, bytes: &[u8])
    requires empty { text.old ≡ [] }
    requires short { length bytes.now ≤ longest_field }
    ensures { text.new ≡ six_bit_text bytes.now }
{
    let mut rest = bytes;
    while !rest.is_empty() {
        let (group, later) = rest.split_at(rest.len().min(3));
        push_six_bit(text, group_bits(group), 8 * group.len() / 6);
        rest = later;
    }
}

// Returns at most three bytes as one number, the low byte first.
fn group_bits(group: &[u8]) -> u32
    requires { length group.now ≤ 3 }
    ensures exact { result ≡ little_endian group.now }
    ensures limit { result < 2 ^ 24 }
{
    match group {
        [] => 0,
        [low] => u32::from(*low),
        [low, high] => u32::from(*low) + 256 * u32::from(*high),
        [low, mid, high, ..] => {
            u32::from(*low) + 256 * u32::from(*mid) + 65536 * u32::from(*high)
        }
    }
}

// Appends so many characters of six bits, from the low bits up.
fn push_six_bit(text: &mut FieldText, mut bits: u32, count: usize)
    requires { length text.old + count ≤ longest_text }
    ensures { text.new ≡ text.old ++ six_bit_chars count bits }
{
    for _ in 0..count {
        text.push_ascii(b' ' + (bits % 64) as u8);
        bits /= 64;
    }
}

// Writes Latin 1, a character a byte.
fn write_latin(text: &mut FieldText, bytes: &[u8])
    requires empty { text.old ≡ [] }
    requires short { length bytes.now ≤ longest_field }
    ensures { text.new ≡ latin_text bytes.now }
{
    match ascii(bytes) {
        Some(ascii) => text.push_str(ascii),
        None => write_wide(text, bytes),
    }
}

// Borrows Latin 1 that is ASCII, which is text as it stands.
#[tactic(auto, using(crate::proofs::TextsLemmas::latin_ascii))]
fn ascii(bytes: &[u8]) -> Option<&str>
    ensures text { IfSome result (λ text. text.now ≡ latin_text bytes.now) }
    ensures size { IfSome result (λ text. length text.now ≡ length bytes.now) }
{
    if !bytes.is_ascii() {
        return None;
    }
    // ASCII is UTF-8, so it is not gone through once more.
    Some(unsafe { str::from_utf8_unchecked(bytes) })
}

// Writes Latin 1, of which each character takes one byte or two.
fn write_wide(text: &mut FieldText, bytes: &[u8])
    requires empty { text.old ≡ [] }
    requires short { length bytes.now ≤ longest_field }
    ensures { text.new ≡ latin_text bytes.now }
{
    for byte in bytes {
        text.push(char::from(*byte));
    }
}

// Writes 2-byte Unicode, the low byte first.
fn write_unicode(text: &mut FieldText, bytes: &[u8])
    requires empty { text.old ≡ [] }
    requires short { length bytes.now ≤ longest_field }
    ensures { text.new ≡ unicode_text bytes.now }
{
    let mut rest = bytes;
    while let Some((c, later)) = first_char(rest) {
        text.push(c);
        rest = later;
    }
}

// Returns the first character of 2-byte Unicode, and the bytes behind it.
fn first_char(bytes: &[u8]) -> Option<(char, &[u8])>
    ensures { MatchOption result (bytes.now ≡ []) (λ found. IsFirstChar bytes.now found.0 found.1.now) }
{
    let (unit, later) = first_unit(bytes)?;
    match first_unit(later) {
        Some((low, last)) if is_pair(unit, low) => Some((pair_char(unit, low), last)),
        _ => Some((unit_char(unit), later)),
    }
}

// Returns the first unit of 2-byte Unicode, and the bytes behind it.
fn first_unit(bytes: &[u8]) -> Option<(u16, &[u8])>
    ensures { MatchOption result (bytes.now ≡ []) (λ found. IsFirstUnit bytes.now found.0 found.1.now) }
{
    match bytes {
        [] => None,
        [_] => Some((REPLACEMENT, &bytes[1..])),
        [low, high, later @ ..] => { Some((u16::from(*low) + 256 * u16::from(*high), later)) },
    }
}

// Whether two units are a surrogate pair.
fn is_pair(high: u16, low: u16) -> bool
    ensures { result ≡ (is_high_surrogate high && is_low_surrogate low) }
{
    (0xD800..0xDC00).contains(&high) && (0xDC00..0xE000).contains(&low)
}

// Returns the character of a surrogate pair.
fn pair_char(high: u16, low: u16) -> char
    requires { (is_high_surrogate high && is_low_surrogate low) ≡ true }
    ensures { result ≡ surrogate_pair_char high low }
{
    let above = (u32::from(high) - 0xD800) * 0x400 + (u32::from(low) - 0xDC00);
    char::from_u32(0x1_0000 + above).unwrap()
}

// Returns the character of a unit that is in no pair, U+FFFD for a surrogate.
fn unit_char(unit: u16) -> char
    ensures { result ≡ unit_char_of unit }
{
    char::from_u32(u32::from(unit)).unwrap_or(char::REPLACEMENT_CHARACTER)
}
