ghost use Rattle.std.specs.Prelude.{◌≡◌};
ghost use Rattle.tmpl.specs.Words.{word_of, is_word_byte, starts_word, field_of};
ghost use Rattle.tmpl.specs.Rendering.{fields_of, number_at};

use crate::Spot;
use crate::digits::read_digits;
use fru_area::FieldName;

// The most digits of a field with which something is computed.
const FIELD_DIGITS: usize = 9;

// What a substitution asks for.
#[derive(Clone, Copy)]
pub(crate) enum Word {
    // The bus of the place.
    Bus,
    // The address on it.
    Address,
    // The index.
    Index,
    // A field of the record.
    Field(FieldName),
}

impl Word {
    // Reads a word; none where it is unknown.
    #[tactic(auto, unfolding(crate::specs::Words::word_of))]
    pub(crate) fn read(text: &str) -> Option<Word>
        ensures { result ≡ word_of text.now }
    {
        match text {
            "bus" | "BUS" => Some(Word::Bus),
            "address" | "ADDRESS" => Some(Word::Address),
            "index" => Some(Word::Index),
            _ => Some(Word::Field(read_field(text)?)),
        }
    }

    // The number that it stands for; a field has to be one of 1 to 9 digits.
    pub(crate) fn number(self, spot: &Spot<'_>) -> Option<u32>
        ensures { result ≡ number_at spot.now.place (fields_of spot.now.fru) spot.now.index self }
    {
        match self {
            Word::Bus => Some(u32::from(spot.place?.bus())),
            Word::Address => Some(u32::from(spot.place?.address())),
            Word::Index => Some(spot.index),
            Word::Field(name) => {
                let text = spot.fru?.field_named(name)?;
                let number = read_digits(text.as_bytes(), FIELD_DIGITS)?;
                Some(number as u32)
            }
        }
    }
}

// Reads the name of a field.
fn read_field(text: &str) -> Option<FieldName>
    ensures { result ≡ field_of text.now }
{
    fru_area::one_name();
    FieldName::read(text)
}

// Whether a word may begin with this byte.
pub(crate) fn starts_word(byte: u8) -> bool
    ensures { result ≡ starts_word byte }
{
    byte.is_ascii_alphabetic() || byte == b'_'
}

// Whether a word may go on with this byte.
pub(crate) fn is_word_byte(byte: u8) -> bool
    ensures { result ≡ is_word_byte byte }
{
    starts_word(byte) || byte.is_ascii_digit()
}
