ghost use Rattle.std.specs.Prelude.{◌≡◌, ◌≤◌, ℕ, Bool, [], None, length, unwrap_or};
ghost use Rattle.bmc_base.specs.Steps.{IsWithin};
ghost use Rattle.probe_lang.specs.Values.{AreFew};
ghost use Rattle.found_set.specs.Marks.{is_marked, mark_count, AreMarked, AreTrue, most_rules};
ghost use Rattle.found_set.specs.Found.{found_from, names_of};
ghost use Rattle.found_set.specs.Named.{AreNames};
ghost use Rattle.found_set.specs.Earlier.{marked_value, StillHold};

use crate::earlier::Earlier;
use crate::marks::{MOST_PATTERNS, Marks, PATTERN_MARKS};
use crate::names::Names;
use crate::rule::Rule;
use bmc_base::{Ledger, Name, Steps};
use probe_lang::Truths;

// What is true of the patterns of one configuration, and of the configurations before it.
#[derive(Drop)]
struct Known<'a> {
    names: &'a Names,
    marks: &'a [bool; PATTERN_MARKS],
    config: u8,
    found: &'a Marks,
}

impl<'a> Truths for Known<'a> {
    ghost use Rattle.std.specs.Prelude.{◌&&◌, nat_lt, bytes_eq, position};
    ghost use Rattle.probe_lang.specs.Values.{most_patterns};
    ghost use Rattle.found_set.specs.Marks.{is_true};
    ghost use Rattle.found_set.specs.Named.{mark_of};

    ghost patterns = { λ known number. nat_lt number most_patterns && is_true known.marks.now known.config number };

    ghost founds = { λ known name. mark_of (position (bytes_eq name) known.names.now.names) known.found.now };

    fn pattern(&self, n: u32) -> bool {
        let pattern = n as usize;
        pattern < MOST_PATTERNS && self.marks[MOST_PATTERNS * self.config as usize + pattern]
    }

    fn found(&self, name: &Name) -> bool {
        match self.names.number(name) {
            Some(number) => self.found.has(number),
            None => false,
        }
    }
}

// Tells whether a configuration is found: by its earlier mark if there is one, else by its probe.
fn find<L: Ledger>(
    rule: &Rule<L>,
    known: &Known<'_>,
    earlier: Option<bool>,
    steps: &mut Steps<L>,
) -> bool
    ensures value { result ≡ unwrap_or earlier (marked_value rule.now.probe.words
        known.now.marks.now known.now.config known.now.names.now.names known.now.found.now) }
    ensures few { earlier ≡ None → AreFew rule.now.probe.words }
    ensures counted { IsWithin steps.old steps.new 1 }
{
    match earlier {
        Some(is_found) => is_found,
        None => rule.holds(known, steps),
    }
}

// Marks the configurations that are found, each over those before it, where the patterns are true that are
// marked. An earlier mark that may stay is taken over.
pub(crate) fn found_by<L: Ledger>(
    rules: &[Rule<L>],
    names: &Names,
    marks: &[bool; PATTERN_MARKS],
    earlier: &Earlier,
    steps: &mut Steps<L>,
) -> Marks
    requires few { length rules.now ≤ most_rules }
    requires named { AreNames names.now.names (names_of rules.now) }
    ensures found { (test : ℕ → ℕ → Bool) → AreTrue marks.now test → StillHold earlier.now.found earlier.now.touched rules.now test
        → AreMarked result (is_marked (found_from rules.now rules.now test [])) }
    ensures count { length result ≡ mark_count }
    ensures counted { IsWithin steps.old steps.new (length rules.now) }
{
    let mut found = Marks::none();
    let mut has_changed = false;
    for (i, rule) in rules.iter().enumerate() {
        let known = Known {
            names,
            marks,
            config: i as u8,
            found: &found,
        };
        let mark = earlier.mark(rule.is_stale(has_changed), i);
        let is_found = find(rule, &known, mark, steps);
        has_changed = earlier.changes(has_changed, i, is_found);
        found.mark_if(i, is_found);
    }
    found
}
