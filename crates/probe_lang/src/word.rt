ghost use Rattle.std.specs.Prelude.{◌≡◌, ◌∷◌, ◌++◌, [], IfOk, OnOk, OnErr};
ghost use Rattle.probe_lang.specs.Values.{asks_found};

use bmc_base::{Name, OutOfMemory};
use std::alloc::Global;
use std::marker::Model;

/// A word of a probe.
#[derive(Drop)]
pub enum Word {
    /// `TRUE`.
    Always,
    /// `FALSE`.
    Never,
    /// `FOUND('NAME')`: the configuration of this name is found.
    Found(Name),
    /// `AND`.
    And,
    /// `OR`.
    Or,
    /// The pattern of this number. The patterns of a probe are numbered from 0, in the order of the words.
    Fru(u32),
}

impl Word {
    /// Returns an equal word. Takes no memory.
    pub fn copied(&self) -> Word
        ensures { result ≡ self.now }
    {
        match self {
            Word::Always => Word::Always,
            Word::Never => Word::Never,
            Word::Found(name) => Word::Found(name.copied()),
            Word::And => Word::And,
            Word::Or => Word::Or,
            Word::Fru(n) => Word::Fru(*n),
        }
    }

    // Whether it asks whether a configuration is found.
    pub(crate) fn asks_found(&self) -> bool
        ensures { result ≡ asks_found self.now }
    {
        match self {
            Word::Found(_) => true,
            Word::Always | Word::Never | Word::Fru(_) | Word::And | Word::Or => false,
        }
    }
}

/// Words, in order.
#[derive(Drop)]
pub struct Words {
    words: Vec<Word>,
}

impl Model for Words {
    ghost use Rattle.std.specs.Prelude.{List};
    ghost use Rattle.probe_lang.specs.declared.word.Word.{Word};

    ghost Value = { List Word };

    ghost view = { λ w. w.words.items };
}

impl Words {
    /// Returns a list of no words, with room for one.
    pub fn new(alloc: Global) -> Result<Words, OutOfMemory>
        ensures { IfOk result (λ words. words ≡ []) }
    {
        let words = Vec::with_capacity(alloc, 1)?;
        Ok(Words { words })
    }

    // Returns a list of no words, with room for so many.
    pub(crate) fn with_capacity(alloc: Global, capacity: usize) -> Result<Words, OutOfMemory>
        ensures { IfOk result (λ words. words ≡ []) }
    {
        let words = Vec::with_capacity(alloc, capacity)?;
        Ok(Words { words })
    }

    /// Appends a word, or changes nothing for want of memory.
    pub fn push(&mut self, alloc: Global, item: Word) -> Result<(), OutOfMemory>
        ensures ok { OnOk result (self.new ≡ self.old ++ item ∷ []) }
        ensures err { OnErr result (self.new ≡ self.old) }
    {
        let _ = alloc;
        self.words.push(item)?;
        Ok(())
    }

    /// Borrows the words.
    pub fn as_slice(&self) -> &[Word]
        ensures { result.now ≡ self.now }
    {
        &self.words
    }

    // Copies the words.
    pub(crate) fn copy(&self, alloc: Global) -> Result<Words, OutOfMemory>
        ensures { IfOk result (λ words. words ≡ self.now) }
    {
        let mut words = Vec::with_capacity(alloc, self.words.len())?;
        for word in &self.words {
            words.push(word.copied())?;
        }
        Ok(Words { words })
    }
}
