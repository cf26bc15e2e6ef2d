ghost use Rattle.std.specs.Prelude.{◌≡◌, ◌≤◌, ◌*◌, [], length, if◌then◌else◌};
ghost use Rattle.bmc_base.specs.Steps.{IsWithin};
ghost use Rattle.found_set.specs.Marks.{most_rules};
ghost use Rattle.found_set.specs.Found.{facts, matched_by, names_of, roots};
ghost use Rattle.found_set.specs.Named.{AreNames};
ghost use Rattle.found_set.specs.Rows.{sights_of, is_idle};
ghost use Rattle.found_set.specs.Covers.{AreWithOrWithout};
ghost use Rattle.found_set.specs.Earlier.{HoldBeside, StillHold, WereBefore};

use crate::cover::is_covered;
use crate::earlier::Earlier;
use crate::facts::Facts;
use crate::find::found_by;
use crate::marks::{Marks, PATTERN_MARKS};
use crate::names::Names;
use crate::parts::Parts;
use crate::reach::{is_on_root, reach_of};
use crate::row::Row;
use crate::rule::Rule;
use bmc_base::{Ledger, Steps};

// Returns what was found, if that was over the root buses alone, and a row came or went there.
fn earlier_beside(old: &Facts, row: &Row, others: &Parts<'_>) -> Earlier
    ensures { HoldBeside result.found result.touched row.now others.now old.now }
{
    if !is_on_root(row) || others.are_on(&old.reach.beyond_roots()) {
        return Earlier::nothing();
    }
    Earlier::beside(&old.found, row)
}

// Tells what is found and reachable over these rows, from what was before a row came or went beside the
// others. Where that row is covered, nothing changes.
pub(crate) fn reevaluate<L: Ledger>(
    rules: &[Rule<L>],
    names: &Names,
    old: &Facts,
    row: &Row,
    others: &Parts<'_>,
    rows: &Parts<'_>,
    steps: &mut Steps<L>,
) -> Facts
    requires few { length rules.now ≤ most_rules }
    requires named { AreNames names.now.names (names_of rules.now) }
    requires before { WereBefore rules.now row.now others.now old.now }
    requires beside { AreWithOrWithout row.now others.now rows.now }
    ensures facts { result ≡ facts rules.now (sights_of rows.now) }
    ensures counted { IsWithin steps.old steps.new (if is_idle row.now then 0 else 2 * length rules.now) }
{
    if is_covered(row, others, &old.reach) {
        return old.copied();
    }
    let earlier = earlier_beside(old, row, others);
    evaluate(rules, names, rows, &earlier, steps)
}

// Tells what is found and reachable over these rows: first over the root buses, where earlier marks may
// stay, and then, if a row is visible on another bus, over all that are visible. The hits of a row are
// marked once.
pub(crate) fn evaluate<L: Ledger>(
    rules: &[Rule<L>],
    names: &Names,
    rows: &Parts<'_>,
    earlier: &Earlier,
    steps: &mut Steps<L>,
) -> Facts
    requires few { length rules.now ≤ most_rules }
    requires named { AreNames names.now.names (names_of rules.now) }
    requires earlier { StillHold earlier.now.found earlier.now.touched rules.now (matched_by (roots (sights_of rows.now))) }
    ensures facts { result ≡ facts rules.now (sights_of rows.now) }
    ensures counted { IsWithin steps.old steps.new (2 * length rules.now) }
{
    let mut marks = [false; PATTERN_MARKS];
    let roots = Marks::roots();
    rows.mark(&mut marks, &roots);
    let first = found_by(rules, names, &marks, earlier, steps);
    let reach = reach_of(rules, rows, &first);
    let beyond = reach.beyond_roots();
    if !rows.are_on(&beyond) {
        return Facts {
            found: first,
            reach,
        };
    }
    rows.mark(&mut marks, &beyond);
    let found = found_by(rules, names, &marks, &Earlier::nothing(), steps);
    Facts { found, reach }
}

// Returns the facts of no configurations and no rows: the root buses are reachable.
pub(crate) fn no_facts() -> Facts
    ensures { result ≡ facts [] [] }
{
    Facts {
        found: Marks::none(),
        reach: Marks::roots(),
    }
}
