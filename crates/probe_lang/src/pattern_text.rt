ghost use Rattle.std.specs.Prelude.{◌≡◌, ◌∷◌, ◌++◌, [], IfOk, OnOk, OnErr};

use bmc_base::{OutOfMemory, Text};
use std::alloc::Global;
use std::marker::Model;

/// What a member of a pattern wants of the text that its key names.
#[derive(Drop)]
pub enum Want {
    /// The regular expression has a match in it.
    Pattern(Text),
    /// It is the decimal of the number.
    Number(i128),
}

/// A member of a pattern, before it is compiled.
#[derive(Drop)]
pub struct Member {
    /// The name of a field, `BUS` or `ADDRESS`; a key that names nothing never matches.
    pub key: Text,
    /// What is wanted of its text.
    pub want: Want,
}

/// The members of a pattern, in the order of their keys.
#[derive(Drop)]
pub struct PatternText {
    members: Vec<Member>,
}

impl Model for PatternText {
    ghost use Rattle.std.specs.Prelude.{List};
    ghost use Rattle.probe_lang.specs.declared.pattern_text.Member.{Member};

    ghost Value = { List Member };

    ghost view = { λ t. t.members.items };
}

impl PatternText {
    /// Returns a pattern without members, with room for one.
    pub fn new(alloc: Global) -> Result<PatternText, OutOfMemory>
        ensures { IfOk result (λ text. text ≡ []) }
    {
        let members = Vec::with_capacity(alloc, 1)?;
        Ok(PatternText { members })
    }

    // Returns a pattern without members, with room for so many.
    pub(crate) fn with_capacity(alloc: Global, capacity: usize) -> Result<PatternText, OutOfMemory>
        ensures { IfOk result (λ text. text ≡ []) }
    {
        let members = Vec::with_capacity(alloc, capacity)?;
        Ok(PatternText { members })
    }

    /// Appends a member, or changes nothing for want of memory.
    pub fn push(&mut self, alloc: Global, item: Member) -> Result<(), OutOfMemory>
        ensures ok { OnOk result (self.new ≡ self.old ++ item ∷ []) }
        ensures err { OnErr result (self.new ≡ self.old) }
    {
        let _ = alloc;
        self.members.push(item)?;
        Ok(())
    }

    /// Borrows the members.
    pub fn as_slice(&self) -> &[Member]
        ensures { result.now ≡ self.now }
    {
        &self.members
    }
}

/// The patterns of a probe, by their numbers.
#[derive(Drop)]
pub struct PatternTexts {
    texts: Vec<PatternText>,
}

impl Model for PatternTexts {
    ghost use Rattle.std.specs.Prelude.{List};
    ghost use Rattle.probe_lang.specs.declared.pattern_text.Member.{Member};

    ghost Value = { List (List Member) };

    ghost view = { λ t. t.texts.items };
}

impl PatternTexts {
    /// Returns a list of no patterns, with room for one.
    pub fn new(alloc: Global) -> Result<PatternTexts, OutOfMemory>
        ensures { IfOk result (λ texts. texts ≡ []) }
    {
        let texts = Vec::with_capacity(alloc, 1)?;
        Ok(PatternTexts { texts })
    }

    /// Appends a pattern, or changes nothing for want of memory.
    pub fn push(&mut self, alloc: Global, item: PatternText) -> Result<(), OutOfMemory>
        ensures ok { OnOk result (self.new ≡ self.old ++ item ∷ []) }
        ensures err { OnErr result (self.new ≡ self.old) }
    {
        let _ = alloc;
        self.texts.push(item)?;
        Ok(())
    }

    /// Borrows the patterns.
    pub fn as_slice(&self) -> &[PatternText]
        ensures { result.now ≡ self.now }
    {
        &self.texts
    }
}
