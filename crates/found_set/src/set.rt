ghost use Rattle.std.specs.Prelude.{◌≡◌, ◌<◌, ◌+◌, ◌*◌, [], Some, None, true, false, length, position, IfOk, OnOk, OnErr};
ghost use Rattle.std.specs.List.{position_or_len};
ghost use Rattle.bmc_base.specs.Steps.{IsWithin};
ghost use Rattle.found_set.specs.Marks.{most_rules};
ghost use Rattle.found_set.specs.Found.{facts, rule_of, number_of};
ghost use Rattle.found_set.specs.Rows.{row_of, sights_of, is_row_at, is_row_after, holds_place, IsKnown};
ghost use Rattle.found_set.specs.Events.{facts_after, most_evals, ConfigEvent, PlugEvent, UnplugEvent};
ghost use Rattle.found_set.specs.Sets.{Prepares, IsStaged, committed, empty_set, after, as_staged};

use crate::earlier::Earlier;
use crate::evaluate::{evaluate, no_facts, reevaluate};
use crate::facts::Facts;
use crate::names::Names;
use crate::next_facts::{BoxedName, EventKey, NextFacts};
use crate::parts::Parts;
use crate::row::{Row, position_at, position_for};
use crate::rule::Rule;
use crate::staged::{Event, Staged};
use bmc_base::{Ledger, Name, OutOfMemory, Place, Steps};
use probe_lang::{Entry, Probe};
use std::alloc::Global;
use std::marker::Model;

/// Configurations, and what is kept of the FRUs that are present, with what is found and reachable. At most
/// one event is staged: a prepare stages one in place of the last and returns the facts after it, and
/// [`commit`](FoundSet::commit) takes it over. But for what is staged, a prepare leaves the set as it was.
#[derive(Drop)]
pub struct FoundSet<L: Ledger> {
    names: Names,
    rules: Vec<Rule<L>>,
    rows: Vec<Row>,
    facts: Facts,
    staged: Option<Staged<L>>,
}

impl<L: Ledger> Model for FoundSet<L> {
    ghost use Rattle.found_set.specs.Sets.{SetView};

    ghost Value = { SetView };

    ghost use Rattle.found_set.specs.Insides.{set_view, IsSound};

    ghost view = { set_view };

    ghost invariant = { IsSound };
}

// For how many configurations and FRUs there is room at first.
const ROOM: usize = 8;

impl<L: Ledger> FoundSet<L> {
    /// Returns a set of no configurations and no FRUs. Nothing is found, and the root buses are reachable.
    pub fn new(alloc: Global) -> Result<FoundSet<L>, OutOfMemory>
        ensures { IfOk result (λ set. set ≡ empty_set) }
    {
        let names = Names::new(alloc)?;
        let rules = Vec::with_capacity(alloc, ROOM)?;
        let rows = Vec::with_capacity(alloc, ROOM)?;
        Ok(FoundSet {
            names,
            rules,
            rows,
            facts: no_facts(),
            staged: None,
        })
    }

    /// Returns what is found and reachable. What is staged does not count yet.
    pub fn facts(&self) -> Facts
        ensures value { result ≡ self.now.facts }
        ensures current { result ≡ facts self.now.rules (sights_of self.now.rows) }
    {
        self.facts.copied()
    }

    /// Returns the number of the configuration of this name, or `None`.
    pub fn number(&self, name: &Name) -> Option<usize>
        ensures { result ≡ number_of self.now.rules name.now }
    {
        self.names.number(name)
    }

    /// Stages a configuration that comes behind the others, and returns the facts after it. Its name is new,
    /// the set holds fewer than 256 configurations, and no FRU is present. For want of memory nothing is
    /// staged. At most twice as many probes are evaluated as there are configurations, this one included.
    pub fn prepare_config(
        &mut self,
        alloc: Global,
        name: Name,
        probe: &Probe<L>,
        fixed: &[u8],
        steps: &mut Steps<L>,
    ) -> Result<NextFacts, OutOfMemory>
        requires few { length self.old.rules < most_rules }
        requires new { number_of self.old.rules name ≡ None }
        requires empty { self.old.rows ≡ [] }
        ensures { Prepares self.old self.new (ConfigEvent (rule_of name probe.now fixed.now)) result steps.old steps.new }
    {
        self.unstage();
        let key = EventKey::Config(BoxedName::of(alloc, &name)?);
        let rule = Rule::of(alloc, name, probe, fixed)?;
        let facts = self.stage_config(alloc, rule, steps)?;
        Ok(NextFacts { key, facts })
    }

    /// Stages a FRU that comes, and returns the facts after it. None is present at its place, and its hits
    /// and channels are those of configurations of the set. For want of memory nothing is staged. At most twice
    /// as many probes are evaluated as there are configurations, and none where the FRU has neither hits
    /// nor channels.
    pub fn prepare_plug(
        &mut self,
        alloc: Global,
        entry: &Entry,
        steps: &mut Steps<L>,
    ) -> Result<NextFacts, OutOfMemory>
        requires new { holds_place self.old.rows entry.now.place ≡ false }
        requires known { IsKnown self.old.rules (row_of entry.now) }
        ensures { Prepares self.old self.new (PlugEvent (row_of entry.now)) result steps.old steps.new }
    {
        self.unstage();
        let row = Row::of(alloc, entry)?;
        let at = position_for(&self.rows, row.place);
        let facts = self.facts_with(at, &row, steps);
        self.stage_plug(at, row, &facts)?;
        let key = EventKey::Plug(entry.place);
        Ok(NextFacts { key, facts })
    }

    /// Stages that the FRU at this place goes, and returns the facts after it. One is present there. For want
    /// of memory nothing is staged. At most twice as many probes are evaluated as there are configurations,
    /// and none where the FRU has neither hits nor channels.
    pub fn prepare_unplug(
        &mut self,
        _alloc: Global,
        place: Place,
        steps: &mut Steps<L>,
    ) -> Result<NextFacts, OutOfMemory>
        requires { holds_place self.old.rows place ≡ true }
        ensures { Prepares self.old self.new (UnplugEvent place) result steps.old steps.new }
    {
        self.unstage();
        let at = position_at(&self.rows, place);
        let facts = self.facts_without(at, place, steps);
        self.stage_unplug(at, place, &facts);
        let key = EventKey::Unplug(place);
        Ok(NextFacts { key, facts })
    }

    /// Takes over the event that is staged, which is the one of `next`. Takes no memory.
    pub fn commit(&mut self, next: NextFacts)
        requires { IsStaged self.old.staged next }
        ensures { self.new ≡ committed self.old }
    {
        match self.staged.take() {
            Some(staged) => {
                self.facts = staged.take_over(&mut self.names, &mut self.rules, &mut self.rows);
            }
            None => unreachable!(),
        }
    }

    // Whether a FRU is present at a place.
    #[cfg(test)]
    pub(crate) fn holds(&self, place: Place) -> bool
        ensures { result ≡ holds_place self.now.rows place }
    {
        self.rows.iter().any(|row| row.place == place)
    }

    // Discards what is staged.
    fn unstage(&mut self)
        ensures { self.new ≡ as_staged self.old None }
    {
        self.staged = None;
    }

    // Returns the facts with one row more, which belongs here.
    #[tactic(auto, using(crate::proofs::RowsLemmas::within))]
    fn facts_with(&self, at: usize, row: &Row, steps: &mut Steps<L>) -> Facts
        requires here { at ≡ position_or_len (is_row_after row.now.place) self.now.rows }
        ensures facts { result ≡ facts_after (PlugEvent row.now) self.now.rules self.now.rows }
        ensures counted { IsWithin steps.old steps.new (most_evals (PlugEvent row.now) self.now.rules self.now.rows) }
    {
        let others = Parts::of(&self.rows[..at], &self.rows[at..]);
        let rows = Parts::with(&self.rows[..at], row, &self.rows[at..]);
        reevaluate(
            &self.rules,
            &self.names,
            &self.facts,
            row,
            &others,
            &rows,
            steps,
        )
    }

    // Returns the facts without the row at a place, which is here.
    fn facts_without(&self, at: usize, place: Place, steps: &mut Steps<L>) -> Facts
        requires here { position (is_row_at place) self.now.rows ≡ Some at }
        ensures facts { result ≡ facts_after (UnplugEvent place) self.now.rules self.now.rows }
        ensures counted { IsWithin steps.old steps.new (most_evals (UnplugEvent place) self.now.rules self.now.rows) }
    {
        let row = &self.rows[at];
        let others = Parts::of(&self.rows[..at], &self.rows[at + 1..]);
        reevaluate(
            &self.rules,
            &self.names,
            &self.facts,
            row,
            &others,
            &others,
            steps,
        )
    }

    // Stages a rule, with room for it, and returns the facts with it. For want of memory nothing changes.
    fn stage_config(
        &mut self,
        alloc: Global,
        rule: Rule<L>,
        steps: &mut Steps<L>,
    ) -> Result<Facts, OutOfMemory>
        requires few { length self.old.rules < most_rules }
        requires new { number_of self.old.rules rule.name ≡ None }
        requires bare { self.old.staged ≡ None }
        ensures ok { IfOk result (λ facts. facts ≡ facts_after (ConfigEvent rule) self.old.rules self.old.rows) }
        ensures staged { OnOk result (self.new ≡ as_staged self.old (Some (after (ConfigEvent rule) self.old))) }
        ensures err { OnErr result (self.new ≡ self.old) }
        ensures counted { IsWithin steps.old steps.new (2 * (length self.old.rules + 1)) }
    {
        self.names.reserve()?;
        self.rules.reserve(1)?;
        self.rules.push_reserved(rule);
        let rows = Parts::of(&self.rows, &[]);
        let facts = evaluate(&self.rules, &self.names, &rows, &Earlier::nothing(), steps);
        let rule = self.rules.take_last();
        let boxed = Box::new(alloc, rule)?;
        self.staged = Some(Staged::of(Event::Config(boxed), &facts));
        Ok(facts)
    }

    // Stages a row that belongs here, with room for it, and the facts with it.
    fn stage_plug(&mut self, at: usize, row: Row, facts: &Facts) -> Result<(), OutOfMemory>
        requires bare { self.old.staged ≡ None }
        requires here { at ≡ position_or_len (is_row_after row.place) self.old.rows }
        requires new { holds_place self.old.rows row.place ≡ false }
        requires facts { facts.now ≡ facts_after (PlugEvent row) self.old.rules self.old.rows }
        ensures ok { OnOk result (self.new ≡ as_staged self.old (Some (after (PlugEvent row) self.old))) }
        ensures err { OnErr result (self.new ≡ self.old) }
    {
        self.rows.reserve(1)?;
        self.staged = Some(Staged::of(Event::Plug { at, row }, facts));
        Ok(())
    }

    // Stages that the row at a place, which is here, goes, and the facts without it.
    fn stage_unplug(&mut self, at: usize, place: Place, facts: &Facts)
        requires bare { self.old.staged ≡ None }
        requires here { position (is_row_at place) self.old.rows ≡ Some at }
        requires facts { facts.now ≡ facts_after (UnplugEvent place) self.old.rules self.old.rows }
        ensures { self.new ≡ as_staged self.old (Some (after (UnplugEvent place) self.old)) }
    {
        self.staged = Some(Staged::of(Event::Unplug { at, place }, facts));
    }
}
