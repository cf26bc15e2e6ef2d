ghost use Rattle.std.specs.Prelude.{◌≡◌, ◌<◌, ◌+◌, ◌∷◌, [], false, length, OnOk};
ghost use Rattle.found_set.specs.Marks.{most_rules};
ghost use Rattle.found_set.specs.Rows.{holds_place, with_row};

use crate::{Facts, FoundSet};
use bmc_base::{Name, Place, Silent, Steps};
use fru_record::FruRecord;
use probe_lang::{Channels, Entry, Hit, Hits, Probe};
use std::alloc::Global;
use std::process::Abort;
use std::test::Fail;

// A record without areas.
pub(crate) const EMPTY: &[u8; 8] = b"\x01\x00\x00\x00\x00\x00\x00\xFF";

// Takes over a configuration of this name and probe, with a fixed channel or none, if the name is new.
pub(crate) fn configure(
    set: &mut FoundSet<Silent>,
    alloc: Global,
    config: (&str, &str, &[u8]),
    steps: &mut Steps<Silent>,
) -> Result<(), Fail>
    requires few { length set.old.rules < most_rules }
    requires empty { set.old.rows ≡ [] }
    ensures more { OnOk result (length set.new.rules ≡ length set.old.rules + 1) }
    ensures empty { OnOk result (set.new.rows ≡ []) }
{
    let (name, probe, fixed) = config;
    let (probe, _) = Probe::parse(alloc, &[probe])?;
    let name = Name::new(name)?;
    if set.number(&name).is_some() {
        return Err(Fail::from("the name is not new"));
    }
    let next = set.prepare_config(alloc, name, &probe, fixed, steps)?;
    set.commit(next);
    Ok(())
}

// A configuration that finds a FRU on bus 1 and opens bus 20, and one that finds a FRU on bus 20.
const RISER: (&str, &str, &[u8]) = ("B", "xyz.openbmc_project.FruDevice({'BUS': 1})", &[20]);

const BEHIND: (&str, &str, &[u8]) = ("D", "xyz.openbmc_project.FruDevice({'BUS': 20})", &[]);

// Whether these configurations are found, and bus 20 is open.
fn assert_facts(rt: &impl Abort, facts: &Facts, found: &[(u32, bool)], open: bool) {
    for (config, wanted) in found {
        assert_eq!(rt; facts.found(*config), *wanted, "configuration {config}");
    }
    assert_reach(rt, facts, open);
}

// The root buses are reachable, and bus 20 where it is open.
fn assert_reach(rt: &impl Abort, facts: &Facts, open: bool) {
    for (bus, wanted) in [(0, true), (15, true), (16, false), (20, open), (255, false)] {
        assert_eq!(rt; facts.reach(bus), wanted, "bus {bus}");
    }
}

#[test]
fn configurations_come(rt: HostRuntime) -> Result<(), Fail> {
    let alloc = rt.alloc();
    let mut steps = Steps::new(Silent);
    let mut set = FoundSet::new(alloc)?;
    assert_facts(
        &rt,
        &set.facts(),
        &[(0, false), (255, false), (256, false)],
        false,
    );
    configure(&mut set, alloc, ("A", "TRUE", &[]), &mut steps)?;
    configure(&mut set, alloc, RISER, &mut steps)?;
    configure(&mut set, alloc, ("C", "FOUND('A')", &[]), &mut steps)?;
    configure(&mut set, alloc, ("D", "FOUND('B')", &[]), &mut steps)?;
    assert_facts(
        &rt,
        &set.facts(),
        &[(0, true), (1, false), (2, true), (3, false), (4, false)],
        false,
    );
    assert_eq!(rt; steps.evals(), 10);
    assert_eq!(rt; set.number(&Name::new("C")?), Some(2));
    assert_eq!(rt; set.number(&Name::new("E")?), None);
    Ok(())
}

// Takes over an entry at a free place, which the first pattern of this configuration matches.
fn plug(
    set: &mut FoundSet<Silent>,
    alloc: Global,
    place: Place,
    config: u32,
    steps: &mut Steps<Silent>,
) -> Result<Facts, Fail>
    requires free { holds_place set.old.rows place ≡ false }
    requires known { config < length set.old.rules }
    ensures rules { OnOk result (set.new.rules ≡ set.old.rules) }
    ensures rows { OnOk result (set.new.rows
        ≡ with_row (record { place = place; hits = record { config = config; pattern = 0 } ∷ []; channels = [] }) set.old.rows) }
{
    let mut hits = Hits::new(alloc);
    hits.push(alloc, Hit { config, pattern: 0 })?;
    let entry = Entry {
        place,
        fru: FruRecord::decode(alloc, EMPTY)?,
        hits,
        channels: Channels::new(alloc),
    };
    let next = set.prepare_plug(alloc, &entry, steps)?;
    let after = next.facts();
    set.commit(next);
    Ok(after)
}

#[test]
fn entries_open_buses(rt: HostRuntime) -> Result<(), Fail> {
    let alloc = rt.alloc();
    let mut steps = Steps::new(Silent);
    let mut set = FoundSet::new(alloc)?;
    configure(&mut set, alloc, RISER, &mut steps)?;
    configure(&mut set, alloc, BEHIND, &mut steps)?;
    let behind = Place::new(20, 80).unwrap();
    let facts = plug(&mut set, alloc, behind, 1, &mut steps)?;
    assert_facts(&rt, &facts, &[(0, false), (1, false)], false);
    let riser = Place::new(1, 80).unwrap();
    let facts = plug(&mut set, alloc, riser, 0, &mut steps)?;
    assert_facts(&rt, &facts, &[(0, true), (1, true)], true);
    // three for the configurations, none for the first entry, and three for the second
    assert_eq!(rt; steps.evals(), 6);
    let next = set.prepare_unplug(alloc, riser, &mut steps)?;
    assert_facts(&rt, &set.facts(), &[(0, true), (1, true)], true);
    set.commit(next);
    assert_facts(&rt, &set.facts(), &[(0, false), (1, false)], false);
    Ok(())
}

#[test]
fn idle_entries_cost_nothing(rt: HostRuntime) -> Result<(), Fail> {
    let alloc = rt.alloc();
    let mut steps = Steps::new(Silent);
    let mut set = FoundSet::new(alloc)?;
    configure(&mut set, alloc, RISER, &mut steps)?;
    let entry = Entry {
        place: Place::new(1, 80).unwrap(),
        fru: FruRecord::decode(alloc, EMPTY)?,
        hits: Hits::new(alloc),
        channels: Channels::new(alloc),
    };
    let next = set.prepare_plug(alloc, &entry, &mut steps)?;
    set.commit(next);
    assert_facts(&rt, &set.facts(), &[(0, false)], false);
    assert_eq!(rt; steps.evals(), 1);
    Ok(())
}
