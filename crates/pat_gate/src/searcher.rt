ghost use Rattle.std.specs.Prelude.{◌≡◌, ◌≤◌, true, false, length, is_some, IsTrue, IfOk};
ghost use Rattle.regex_dfa.specs.Search.{IsForwardFor, stops_when_idle};
ghost use Rattle.regex_vm.specs.Found.{first_match};
ghost use Rattle.pat_gate.specs.Searches.{last_start, text_match_at, first_in_text, StartsAtStart};

use bmc_base::OutOfMemory;
use regex_dfa::{Dfa, End, Forward};
use regex_vm::PikeVm;
use std::alloc::Global;

// About how many bytes may be kept of what searches have built. Few patterns come near.
const BUILT_LIMIT: usize = 1 << 20;

// For `anchored`: a match has to start where the search does.
const ANCHORED: bool = true;

// For `anchored`: a match may also start later.
const UNANCHORED: bool = false;

// A DFA, with what earlier searches have built of it.
#[derive(Drop)]
pub(crate) struct Searcher {
    dfa: Dfa,
    // Each match starts where its text does.
    at_start: bool,
    built: Forward,
    ghost runs: { IsForwardFor built dfa },
    ghost runs_on: { stops_when_idle built ≡ false },
    ghost starts: { at_start ≡ true → StartsAtStart dfa.nfa },
}

impl Searcher {
    // `at_start` says that each match starts where its text does.
    pub(crate) fn new(alloc: Global, dfa: Dfa, at_start: bool) -> Result<Searcher, OutOfMemory>
        requires { IsTrue at_start → StartsAtStart dfa.nfa }
        ensures { IfOk result (λ searcher. searcher.dfa ≡ dfa) }
    {
        let built = Forward::with_budget(alloc, &dfa, false, BUILT_LIMIT)?;
        Ok(Searcher {
            dfa,
            at_start,
            built,
        })
    }

    // Whether there is a match in a text, where none starts inside a character.
    pub(crate) fn found_in(&mut self, alloc: Global, hay: &str) -> Result<bool, OutOfMemory>
        ensures found { IfOk result (λ found. found ≡ is_some (first_in_text self.old.dfa.nfa hay.now)) }
        ensures same { self.new.dfa ≡ self.old.dfa }
    {
        if self.at_start {
            return self.is_match_at(alloc, hay, 0);
        }
        if !self.is_match(alloc, hay.as_bytes(), 0, UNANCHORED)? {
            return Ok(false);
        }
        // The match may be an empty one inside a character.
        if hay.is_ascii() {
            return Ok(true);
        }
        self.is_match_at_some_place(alloc, hay)
    }

    // The same, by a search at each place of the text.
    fn is_match_at_some_place(&mut self, alloc: Global, hay: &str) -> Result<bool, OutOfMemory>
        ensures found { IfOk result (λ found. found ≡ is_some (first_in_text self.old.dfa.nfa hay.now)) }
        ensures same { self.new.dfa ≡ self.old.dfa }
    {
        for at in 0..=hay.len() {
            if self.is_match_at(alloc, hay, at)? {
                return Ok(true);
            }
        }
        Ok(false)
    }

    // Whether a match starts at this place of the text.
    fn is_match_at(&mut self, alloc: Global, hay: &str, at: usize) -> Result<bool, OutOfMemory>
        requires { at ≤ length hay.now }
        ensures found { IfOk result (λ found. found ≡ is_some (text_match_at self.old.dfa.nfa hay.now at)) }
        ensures same { self.new.dfa ≡ self.old.dfa }
    {
        if !hay.is_char_boundary(at) {
            return Ok(false);
        }
        self.is_match(alloc, hay.as_bytes(), at, ANCHORED)
    }

    // Whether there is a match in the bytes, at a place or from there on.
    fn is_match(
        &mut self,
        alloc: Global,
        hay: &[u8],
        start: usize,
        anchored: bool,
    ) -> Result<bool, OutOfMemory>
        requires { start ≤ length hay.now }
        ensures found { IfOk result (λ found. found ≡ is_some (first_match self.old.dfa.nfa hay.now (length hay.now) start
            (last_start hay.now start anchored))) }
        ensures same { self.new.dfa ≡ self.old.dfa }
    {
        match self
            .built
            .find_end(&self.dfa, hay, start, hay.len(), anchored, true)
        {
            End::At(_) => Ok(true),
            End::NoMatch | End::Idle(_) => Ok(false),
            End::GaveUp => self.is_match_without_dfa(alloc, hay, start, anchored),
        }
    }

    // The same by the NFA itself, which takes memory for this search alone.
    fn is_match_without_dfa(
        &self,
        alloc: Global,
        hay: &[u8],
        start: usize,
        anchored: bool,
    ) -> Result<bool, OutOfMemory>
        requires { start ≤ length hay.now }
        ensures { IfOk result (λ found. found ≡ is_some (first_match self.now.dfa.nfa hay.now (length hay.now) start
            (last_start hay.now start anchored))) }
    {
        let last = if anchored { start } else { hay.len() };
        let nfa = &self.dfa.nfa;
        Ok(PikeVm::new(alloc, nfa)?.is_match(nfa, hay, start, last, hay.len()))
    }
}
