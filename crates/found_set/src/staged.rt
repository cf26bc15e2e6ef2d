ghost use Rattle.std.specs.Prelude.{◌≡◌, ◌<◌, vec_len, vec_capacity};
ghost use Rattle.std.specs.List.{position_or_len};
ghost use Rattle.found_set.specs.Rows.{with_row, is_row_after};
ghost use Rattle.found_set.specs.Staging.{event_of, HasRoom};
ghost use Rattle.found_set.specs.Events.{names_after, rules_after, rows_after};

use crate::facts::Facts;
use crate::names::Names;
use crate::row::Row;
use crate::rule::Rule;
use bmc_base::{Ledger, Place};

// What comes or goes. It is moved as it is staged and taken over, so a rule, which is large, is in a box.
#[derive(Drop)]
pub(crate) enum Event<L: Ledger> {
    // A configuration comes.
    Config(Box<Rule<L>>),
    // A FRU comes. Its row belongs here.
    Plug { at: usize, row: Row },
    // The FRU at a place goes. Its row is here.
    Unplug { at: usize, place: Place },
}

// An event that is staged, and the facts after it.
#[derive(Drop)]
pub(crate) struct Staged<L: Ledger> {
    event: Event<L>,
    facts: Facts,
}

impl<L: Ledger> Staged<L> {
    // Returns an event with a copy of the facts after it.
    pub(crate) fn of(event: Event<L>, facts: &Facts) -> Staged<L>
        ensures { result ≡ record { event = event; facts = facts.now } }
    {
        Staged {
            event,
            facts: facts.copied(),
        }
    }

    // Takes the event over into names, rules and rows, and returns the facts after it. Takes no memory.
    pub(crate) fn take_over(
        self,
        names: &mut Names,
        rules: &mut Vec<Rule<L>>,
        rows: &mut Vec<Row>,
    ) -> Facts
        requires { HasRoom self.event names.old rules.old rows.old }
        ensures facts { result ≡ self.facts }
        ensures names { names.new.names ≡ names_after (event_of self.event) names.old.names }
        ensures rules { rules.new.items ≡ rules_after (event_of self.event) rules.old.items }
        ensures rows { rows.new.items ≡ rows_after (event_of self.event) rows.old.items }
    {
        let Staged { event, facts } = self;
        match event {
            Event::Config(rule) => {
                names.add(rule.name());
                rules.push_reserved(Box::into_inner(rule));
            }
            Event::Plug { at, row } => insert_row(rows, at, row),
            Event::Unplug { at, .. } => {
                let _row = rows.remove(at);
            }
        }
        facts
    }
}

// Inserts a row where it belongs. Takes no memory.
fn insert_row(rows: &mut Vec<Row>, at: usize, row: Row)
    requires room { vec_len rows.old < vec_capacity rows.old }
    requires here { at ≡ position_or_len (is_row_after row.place) rows.old.items }
    ensures { rows.new.items ≡ with_row row rows.old.items }
{
    match rows.insert(at, row) {
        Ok(()) => {}
        Err(_) => unreachable!(),
    }
}
