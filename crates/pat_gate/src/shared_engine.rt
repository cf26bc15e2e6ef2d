ghost use Rattle.std.specs.Prelude.{◌≡◌, IfOk};
ghost use Rattle.pat_gate.specs.Grammar.{has_match};
ghost use Rattle.pat_gate.specs.Makers.{Builds};

use crate::MakeFault;
use crate::engine::Engine;
use bmc_base::{OutOfMemory, Text};
use std::alloc::Global;
use std::cell::RefCell;
use std::marker::Model;

// A pattern whose engine is kept from one match to the next. A match writes to the engine, so the
// engine lies in a cell. It is large, and most patterns need none, so it lies in a box.
pub(crate) struct SharedEngine {
    text: Text,
    engine: Box<RefCell<Engine>>,
}

impl Model for SharedEngine {
    ghost use Rattle.std.specs.Prelude.{ℕ, List};

    ghost Value = { List ℕ };

    ghost view = { λ s. s.text };
}

impl SharedEngine {
    // Compiles the pattern that the grammar reads in the text.
    pub(crate) fn build(alloc: Global, text: &str) -> Result<SharedEngine, MakeFault>
        ensures { Builds text.now result }
    {
        let engine = boxed(alloc, Engine::build(alloc, text)?)?;
        let text = Text::copy(alloc, text)?;
        Ok(SharedEngine { text, engine })
    }

    // Whether the pattern has a match in a text. It is not inlined, so that a plain pattern needs no
    // room for a search.
    #[inline(never)]
    pub(crate) fn found_in(&self, alloc: Global, hay: &str) -> Result<bool, OutOfMemory>
        ensures { IfOk result (λ found. found ≡ has_match self.now hay.now) }
    {
        let text = self.text.as_str();
        if let Ok(mut engine) = self.engine.try_borrow_mut() {
            // No clause says what a cell holds, so the texts are compared. They are always equal.
            if engine.text() == text {
                return engine.found_in(alloc, hay);
            }
        }
        found_anew(alloc, text, hay)
    }
}

// Puts an engine into a cell of its own.
fn boxed(alloc: Global, engine: Engine) -> Result<Box<RefCell<Engine>>, OutOfMemory> {
    Ok(Box::new(alloc, RefCell::new(engine))?)
}

// Written out, so that a caller's proof sees one call and not the drop of each field.
impl Drop for SharedEngine {
    fn drop(self) {
        let SharedEngine {
            text: _text,
            engine: _engine,
        } = self;
    }
}

// Whether the pattern of a text has a match in another, by an engine for this match alone.
fn found_anew(alloc: Global, text: &str, hay: &str) -> Result<bool, OutOfMemory>
    ensures { IfOk result (λ found. found ≡ has_match text.now hay.now) }
{
    match Engine::build(alloc, text) {
        Ok(mut engine) => engine.found_in(alloc, hay),
        // The pattern was built before, so it is memory that is wanting.
        Err(_) => Err(OutOfMemory),
    }
}
