ghost use Rattle.std.specs.Prelude.{◌≡◌, ◌∷◌, ◌++◌, [], IfOk, OnOk, OnErr};

use bmc_base::{OutOfMemory, Text};
use std::alloc::Global;
use std::marker::Model;

/// Texts, in the order of their fields.
#[derive(Drop)]
pub struct FieldTexts {
    texts: Vec<Text>,
}

impl Model for FieldTexts {
    ghost use Rattle.std.specs.Prelude.{List, ℕ};

    ghost Value = { List (List ℕ) };

    ghost view = { λ t. t.texts.items };
}

impl FieldTexts {
    /// Makes an empty list with room for a few texts.
    pub fn new(alloc: Global) -> Result<FieldTexts, OutOfMemory>
        ensures { IfOk result (λ texts. texts ≡ []) }
    {
        let texts = Vec::with_capacity(alloc, 8)?;
        Ok(FieldTexts { texts })
    }

    /// Appends a text, or changes nothing.
    pub fn push(&mut self, alloc: Global, item: Text) -> Result<(), OutOfMemory>
        ensures ok { OnOk result (self.new ≡ self.old ++ item ∷ []) }
        ensures err { OnErr result (self.new ≡ self.old) }
    {
        let _ = alloc;
        self.texts.push(item)?;
        Ok(())
    }

    /// Borrows the texts.
    pub fn as_slice(&self) -> &[Text]
        ensures { result.now ≡ self.now }
    {
        &self.texts
    }
}

/// The parts that a record is built of. An area whose part is absent is absent.
#[derive(Drop)]
pub struct Parts {
    pub chassis: Option<ChassisPart>,
    pub board: Option<BoardPart>,
    pub product: Option<ProductPart>,
}

/// The chassis information area (FRU definition 1.0, section 10).
#[derive(Drop)]
pub struct ChassisPart {
    /// The chassis type, as SMBIOS numbers them.
    pub chassis_type: u8,
    /// Two texts: part number and serial number.
    pub named: FieldTexts,
    /// The custom fields, in their order.
    pub custom: FieldTexts,
}

/// The board information area (FRU definition 1.0, section 11).
#[derive(Drop)]
pub struct BoardPart {
    /// The date and time of manufacture in minutes since 1996-01-01 00:00, below 2^24; 0 where it is
    /// unspecified.
    pub minutes: u32,
    /// Five texts: manufacturer, product name, serial number, part number and FRU file id.
    pub named: FieldTexts,
    /// The custom fields, in their order.
    pub custom: FieldTexts,
}

/// The product information area (FRU definition 1.0, section 12).
#[derive(Drop)]
pub struct ProductPart {
    /// Seven texts: manufacturer, product name, part number, version, serial number, asset tag and FRU file
    /// id.
    pub named: FieldTexts,
    /// The custom fields, in their order.
    pub custom: FieldTexts,
}
