ghost use Rattle.std.specs.Prelude.{◌≡◌, IfOk};
ghost use Rattle.probe_lang.specs.Parts.{key_text, IsKey};

use bmc_base::{OutOfMemory, Text};
use fru_area::FieldName;
use std::alloc::Global;

// What the key of a member names.
#[derive(Drop)]
pub(crate) enum Key {
    // The bus of the place.
    Bus,
    // The address on it.
    Address,
    // A field of the record.
    Field(FieldName),
    // Nothing.
    Unknown(Text),
}

impl Key {
    // Reads a key. Only one that names nothing is copied.
    pub(crate) fn read(alloc: Global, text: &str) -> Result<Key, OutOfMemory>
        ensures { IfOk result (λ key. (key_text key ≡ text.now) × IsKey key) }
    {
        if text == "BUS" {
            return Ok(Key::Bus);
        }
        if text == "ADDRESS" {
            return Ok(Key::Address);
        }
        match FieldName::read(text) {
            Some(name) => Ok(Key::Field(name)),
            None => Ok(Key::Unknown(Text::copy(alloc, text)?)),
        }
    }
}
