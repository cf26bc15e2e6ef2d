ghost use Rattle.std.specs.Prelude.{◌≡◌, ℕ, Bool, ◌||◌, ◌&&◌, ◌≤◌, nat_eq, length};
ghost use Rattle.std.specs.List.{list_any};
ghost use Rattle.found_set.specs.Marks.{is_marked, mark_count, AreMarked, most_rules};
ghost use Rattle.found_set.specs.Found.{is_root, found, roots, is_reached};
ghost use Rattle.found_set.specs.Rows.{sights_of};
ghost use Rattle.found_set.specs.Buses.{leads, leads_on, fixed_opens, is_beyond};

use crate::marks::Marks;
use crate::parts::Parts;
use crate::row::Row;
use crate::rule::Rule;
use bmc_base::Ledger;
use probe_lang::Channel;

// How many root buses there are: those with the lowest numbers.
const ROOT_BUSES: usize = 16;

// Marks the bus of a channel, if its configuration is found.
fn open_channel(reach: &mut Marks, channel: Channel, found: &Marks)
    ensures { AreMarked reach.new (λ bus. is_marked reach.old bus || leads found.now bus channel) }
{
    if found.has(channel.config as usize) {
        reach.mark(channel.bus as usize);
    }
}

// Marks the buses of the channels whose configurations are found.
fn open_channels(reach: &mut Marks, channels: &[Channel], found: &Marks)
    ensures { AreMarked reach.new (λ bus. is_marked reach.old bus || list_any (leads found.now bus) channels.now) }
{
    for channel in channels {
        open_channel(reach, *channel, found);
    }
}

// Whether a row is on a root bus.
pub(crate) fn is_on_root(row: &Row) -> bool
    ensures { result ≡ is_root row.now.place.bus }
{
    (row.place.bus() as usize) < ROOT_BUSES
}

// Marks the buses to which the channels of a row lead, if it is on a root bus.
pub(crate) fn open_row(reach: &mut Marks, row: &Row, found: &Marks)
    ensures { AreMarked reach.new (λ bus. is_marked reach.old bus || leads_on found.now bus row.now) }
{
    if is_on_root(row) {
        open_channels(reach, row.channels.as_slice(), found);
    }
}

// Marks the buses to which the channels of the rows on root buses lead.
pub(crate) fn open_rows(reach: &mut Marks, rows: &[Row], found: &Marks)
    ensures { AreMarked reach.new (λ bus. is_marked reach.old bus || list_any (leads_on found.now bus) rows.now) }
{
    for row in rows {
        open_row(reach, row, found);
    }
}

// Marks these buses.
fn open_fixed(reach: &mut Marks, fixed: &[u8])
    ensures { AreMarked reach.new (λ bus. is_marked reach.old bus || list_any (nat_eq bus) fixed.now) }
{
    for bus in fixed {
        reach.mark(*bus as usize);
    }
}

// Marks the buses of the fixed channels of a configuration, if it is found.
fn open_rule<L: Ledger>(reach: &mut Marks, rule: &Rule<L>, is_found: bool)
    ensures { AreMarked reach.new (λ bus. is_marked reach.old bus || (is_found && list_any (nat_eq bus) rule.now.fixed)) }
{
    if is_found {
        open_fixed(reach, rule.fixed());
    }
}

// Marks the buses of the fixed channels of the configurations that are found.
fn open_rules<L: Ledger>(reach: &mut Marks, rules: &[Rule<L>], found: &Marks)
    requires { length rules.now ≤ most_rules }
    ensures { AreMarked reach.new (λ bus. is_marked reach.old bus || fixed_opens rules.now found.now bus) }
{
    for (i, rule) in rules.iter().enumerate() {
        open_rule(reach, rule, found.has(i));
    }
}

// Marks the reachable buses, where these configurations are found over the rows on root buses.
pub(crate) fn reach_of<L: Ledger>(rules: &[Rule<L>], rows: &Parts<'_>, first: &Marks) -> Marks
    requires few { length rules.now ≤ most_rules }
    requires count { length first.now ≡ mark_count }
    ensures { AreMarked first.now (is_marked (found rules.now (roots (sights_of rows.now))))
        → AreMarked result (is_reached rules.now (sights_of rows.now)) }
{
    let mut reach = Marks::roots();
    open_rules(&mut reach, rules, first);
    rows.open(&mut reach, first);
    reach
}
