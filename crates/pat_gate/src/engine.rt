ghost use Rattle.std.specs.Prelude.{◌≡◌, Err, IfOk, IfErr, map, option_map, string_bytes};
ghost use Rattle.regex_compile.specs.Implements.{Implements};
ghost use Rattle.regex_hir.specs.Meaning.{meaning};
ghost use Rattle.regex.specs.Patterns.{default_config, Reads};
ghost use Rattle.pat_gate.specs.Grammar.{has_match};
ghost use Rattle.pat_gate.specs.Makers.{Builds};

use crate::MakeFault;
use crate::searcher::Searcher;
use bmc_base::{OutOfMemory, Text};
use regex_compile::Error;
use regex_dfa::Dfa;
use regex_syntax::{Config, ErrorKind, Parsed};
use std::alloc::Global;
use std::marker::Model;

// How many bytes a compiled pattern may take: the limit of `regex` where none is set.
const SIZE_LIMIT: usize = 10 << 20;

// What searches for the pattern of one text.
#[derive(Drop)]
pub(crate) struct Engine {
    text: Text,
    searcher: Searcher,
}

impl Model for Engine {
    ghost use Rattle.std.specs.Prelude.{ℕ, List};
    ghost use Rattle.pat_gate.specs.Searches.{Serves};

    ghost Value = { List ℕ };

    ghost view = { λ e. e.text };

    ghost invariant = { λ e. Serves e.searcher.dfa.nfa e.text };
}

impl Engine {
    // Compiles the pattern that the grammar reads in the text.
    #[tactic(auto, using(crate::proofs::Regexes::reads_pattern))]
    pub(crate) fn build(alloc: Global, text: &str) -> Result<Engine, MakeFault>
        ensures { Builds text.now result }
    {
        let parsed = parse(alloc, text)?;
        let dfa = compile(alloc, &parsed)?;
        let at_start = regex_extract::is_anchored_start(&parsed.hir);
        let searcher = Searcher::new(alloc, dfa, at_start)?;
        let text = Text::copy(alloc, text)?;
        Ok(Engine { text, searcher })
    }

    // Borrows the text of the pattern.
    pub(crate) fn text(&self) -> &str
        ensures { result.now ≡ self.now }
    {
        self.text.as_str()
    }

    // Whether the pattern has a match in a text.
    pub(crate) fn found_in(&mut self, alloc: Global, hay: &str) -> Result<bool, OutOfMemory>
        ensures found { IfOk result (λ found. found ≡ has_match self.old hay.now) }
        ensures same { self.new ≡ self.old }
    {
        self.searcher.found_in(alloc, hay)
    }
}

// Reads the pattern in a text.
#[tactic(auto, using(crate::proofs::Regexes::refuses_bad))]
fn parse(alloc: Global, text: &str) -> Result<Parsed, MakeFault>
    ensures read { IfOk result (λ p. Reads default_config text.now p.hir (map (option_map string_bytes) p.names.items)) }
    ensures refused { IfErr result (λ fault. Builds text.now (Err fault)) }
{
    match regex_syntax::parse(alloc, text, &Config::default()) {
        Ok(parsed) => Ok(parsed),
        Err(error) if error.kind == ErrorKind::OutOfMemory => Err(MakeFault::OutOfMemory),
        Err(_) => Err(MakeFault::PatternSyntax),
    }
}

// Compiles the pattern, with as many groups as it has names.
fn compile(alloc: Global, parsed: &Parsed) -> Result<Dfa, Error>
    ensures { IfOk result (λ dfa. Implements dfa.nfa (meaning parsed.now.hir)) }
{
    let groups = u32::try_from(parsed.names.len()).map_err(|_| Error::TooBig)?;
    let nfa = regex_compile::compile(alloc, &parsed.hir, groups, SIZE_LIMIT)?;
    Ok(Dfa::new(alloc, nfa)?)
}
