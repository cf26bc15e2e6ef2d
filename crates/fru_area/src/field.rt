ghost use Rattle.std.specs.Prelude.{◌≡◌, ◌≤◌, ◌<◌, ◌+◌, ◌∷◌, ◌++◌, [], length, encode_utf8, IfSome, IfNone, IfOk, OnOk, OnErr, IsTrue, ◌↔◌, bytes_eq};
ghost use Rattle.fru_area.specs.Names.{name_text};
ghost use Rattle.fru_area.specs.Texts.{longest_text, text_of};
ghost use Rattle.fru_area.specs.Walks.{last_kind, longest_field};

use crate::FieldName;
use crate::text::write_text;
use arrayvec::ArrayString;
use bmc_base::OutOfMemory;
use std::alloc::Global;
use std::marker::Model;

// The most bytes of the text of a field.
const LONGEST_TEXT: usize = 128;

// For how many fields a list has room at first. They take less than a kibibyte, and a block of that size costs the C library
// less to hand out again than a larger one.
const ROOM: usize = 7;

/// The text of a field in UTF-8: at most 128 bytes, which lie in the value itself.
#[derive(Drop)]
pub struct FieldText {
    text: ArrayString<LONGEST_TEXT>,
}

impl Model for FieldText {
    ghost use Rattle.std.specs.Prelude.{ℕ, List, ◌≤◌, length};
    ghost use Rattle.fru_area.specs.Texts.{longest_text};

    ghost Value = { List ℕ };

    ghost view = { λ t. t.text.bytes };

    ghost invariant = { λ t. length t.text.bytes ≤ longest_text };
}

impl FieldText {
    /// Returns the text, or none above 128 bytes. It takes no memory.
    pub fn new(text: &str) -> Option<FieldText>
        ensures found { IfSome result (λ t. t ≡ text.now) }
        ensures none { IfNone result (longest_text < length text.now) }
    {
        if text.len() > LONGEST_TEXT {
            return None;
        }
        Some(FieldText::of(text))
    }

    // Returns a text that is short enough.
    pub(crate) fn of(text: &str) -> FieldText
        requires { length text.now ≤ longest_text }
        ensures { result ≡ text.now }
    {
        let mut held = FieldText::empty();
        held.push_str(text);
        held
    }

    // Returns an empty text.
    pub(crate) fn empty() -> FieldText
        ensures { result ≡ [] }
    {
        FieldText {
            text: ArrayString::new(),
        }
    }

    /// Returns the same text once more. It takes no memory.
    pub fn copied(&self) -> FieldText
        ensures { result ≡ self.now }
    {
        FieldText::of(self.as_str())
    }

    // Appends a text.
    pub(crate) fn push_str(&mut self, text: &str)
        requires { length self.old + length text.now ≤ longest_text }
        ensures { self.new ≡ self.old ++ text.now }
    {
        self.text.push_str(text);
    }

    // Appends a character.
    pub(crate) fn push(&mut self, c: char)
        requires { length self.old + length (encode_utf8 c) ≤ longest_text }
        ensures { self.new ≡ self.old ++ encode_utf8 c }
    {
        self.text.push(c);
    }

    // Appends a character of ASCII.
    pub(crate) fn push_ascii(&mut self, byte: u8)
        requires room { length self.old < longest_text }
        requires ascii { byte < 0x80 }
        ensures { self.new ≡ self.old ++ byte ∷ [] }
    {
        self.push(char::from(byte));
    }

    /// Borrows the text.
    pub fn as_str(&self) -> &str
        ensures text { result.now ≡ self.now }
        ensures limit { length self.now ≤ longest_text }
    {
        self.text.as_str()
    }
}

/// A field of a record.
#[derive(Drop)]
pub struct Field {
    /// Its name.
    pub name: FieldName,
    /// Its text, by its type and the language of its area.
    pub text: FieldText,
}

impl Field {
    /// Whether the field has this name. It compares no text, as no two names have the same.
    pub fn is_named(&self, name: FieldName) -> bool
        ensures same { IsTrue result ↔ (self.now.name ≡ name) }
        ensures text { result ≡ bytes_eq (name_text self.now.name) (name_text name) }
    {
        // The call tells the proof that the name's number fits 16 bits.
        let _number = name.number();
        self.name.is(name)
    }
}

/// Fields, in the order of the record.
#[derive(Drop)]
pub struct FieldList {
    fields: Vec<Field>,
}

impl Model for FieldList {
    ghost use Rattle.std.specs.Prelude.{List};
    ghost use Rattle.fru_area.specs.declared.field.Field.{Field};

    ghost Value = { List Field };

    ghost view = { λ l. l.fields.items };
}

impl FieldList {
    /// Returns a list of no fields, with room for a few. Fails only for want of memory.
    pub fn new(alloc: Global) -> Result<FieldList, OutOfMemory>
        ensures { IfOk result (λ fields. fields ≡ []) }
    {
        let fields = Vec::with_capacity(alloc, ROOM)?;
        Ok(FieldList { fields })
    }

    /// Appends a field, or changes nothing for want of memory.
    pub fn push(&mut self, alloc: Global, item: Field) -> Result<(), OutOfMemory>
        ensures ok { OnOk result (self.new ≡ self.old ++ item ∷ []) }
        ensures err { OnErr result (self.new ≡ self.old) }
    {
        let _ = alloc;
        // A push that can fail hands its item back, which costs copies of it.
        self.fields.reserve(1)?;
        self.fields.push_reserved(item);
        Ok(())
    }

    // Appends a field with this name and the text of a field of this type, or changes nothing for want of memory. The text
    // is written in its place, since to move a field costs more than to write its text.
    pub(crate) fn push_written(
        &mut self,
        name: FieldName,
        kind: u8,
        english: bool,
        bytes: &[u8],
    ) -> Result<(), OutOfMemory>
        requires kind { kind ≤ last_kind }
        requires short { length bytes.now ≤ longest_field }
        ensures ok { OnOk result (self.new
            ≡ self.old ++ record { name = name; text = text_of english (record { kind = kind; bytes = bytes.now }) } ∷ []) }
        ensures err { OnErr result (self.new ≡ self.old) }
    {
        self.fields.reserve(1)?;
        let at = self.fields.len();
        let text = FieldText::empty();
        self.fields.push_reserved(Field { name, text });
        write_text(&mut self.fields[at].text, kind, english, bytes);
        Ok(())
    }

    /// Appends the fields of another list, or changes nothing for want of memory.
    pub fn append(&mut self, alloc: Global, mut other: FieldList) -> Result<(), OutOfMemory>
        ensures ok { OnOk result (self.new ≡ self.old ++ other) }
        ensures err { OnErr result (self.new ≡ self.old) }
    {
        let _ = alloc;
        self.fields.append(&mut other.fields)?;
        Ok(())
    }

    /// Borrows the fields.
    pub fn as_slice(&self) -> &[Field]
        ensures { result.now ≡ self.now }
    {
        &self.fields
    }
}
