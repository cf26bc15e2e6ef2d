ghost use Rattle.pat_gate.specs.Makers.{Maker, Makes};

use crate::{Compiled, MakeFault};
use std::alloc::Global;

/// Who makes patterns of texts.
pub trait PatternMaker {
    /// What is seen of the maker: how many calls failed, and the texts that were refused as too large.
    ghost seen: { Self → Maker };

    /// Returns the pattern that the grammar of `regex` reads in the text. `PatternSyntax` comes only where
    /// the grammar reads none, or its nesting is too deep. A text that is answered `PatternTooLarge` joins
    /// the list of these texts, and the call counts as a fault; every other answer leaves both as they were.
    fn compile(&mut self, alloc: Global, text: &str) -> Result<Compiled, MakeFault>
        ensures { Makes (seen self.old) (seen self.new) text.now result };
}
