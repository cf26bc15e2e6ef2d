ghost use Rattle.std.specs.Prelude.{◌≡◌, ◌<◌, [], length, IfOk, OnOk};
ghost use Rattle.std.specs.List.{All};
ghost use Rattle.probe_lang.specs.declared.rows.Channel.{Channel};

use crate::tests::{EMPTY, configure};
use crate::{Facts, FoundSet};
use bmc_base::{Place, Silent, Steps};
use fru_record::FruRecord;
use probe_lang::{Channel, Channels, Entry, Hit, Hits};
use std::alloc::Global;
use std::process::Abort;
use std::test::Fail;

// Six configurations: a riser that opens bus 20, one whose FRUs may open bus 30, one with a pattern alone,
// and three that ask for others, of which one opens bus 40.
fn configured(alloc: Global, steps: &mut Steps<Silent>) -> Result<FoundSet<Silent>, Fail>
    ensures rules { IfOk result (λ set. length set.rules ≡ 6) }
    ensures rows { IfOk result (λ set. set.rows ≡ []) }
{
    let mut set = FoundSet::new(alloc)?;
    configure(
        &mut set,
        alloc,
        ("A", "xyz.openbmc_project.FruDevice({'BUS': 1})", &[20]),
        steps,
    )?;
    configure(
        &mut set,
        alloc,
        ("B", "xyz.openbmc_project.FruDevice({'BUS': 2})", &[]),
        steps,
    )?;
    configure(&mut set, alloc, ("C", "FOUND('A')", &[]), steps)?;
    configure(
        &mut set,
        alloc,
        ("D", "xyz.openbmc_project.FruDevice({'BUS': 3})", &[]),
        steps,
    )?;
    configure(&mut set, alloc, ("E", "FOUND('C')", &[40]), steps)?;
    configure(&mut set, alloc, ("F", "FOUND('D')", &[]), steps)?;
    Ok(set)
}

// What is seen of a FRU, as one number: two hits, and whether a channel of the second configuration leads
// from it to bus 30.
#[derive(Clone, Copy)]
struct Shows(u32);

impl Shows {
    fn first(self) -> Hit
        ensures { result.config < 6 }
    {
        Hit {
            config: self.0 % 6,
            pattern: 0,
        }
    }

    fn second(self) -> Hit
        ensures { result.config < 6 }
    {
        Hit {
            config: self.0 / 6 % 6,
            pattern: 0,
        }
    }

    fn channels(self, alloc: Global) -> Result<Channels, Fail>
        ensures { IfOk result (λ channels. All (λ (channel : Channel). channel.config < 6) channels) }
    {
        let mut channels = Channels::new(alloc);
        if self.0 / 36 % 4 == 3 {
            channels.push(alloc, Channel { config: 1, bus: 30 })?;
        }
        Ok(channels)
    }
}

// Takes over an entry at a place, which has to be free.
fn put(
    set: &mut FoundSet<Silent>,
    alloc: Global,
    place: Place,
    shown: Shows,
    steps: &mut Steps<Silent>,
) -> Result<(), Fail>
    requires { length set.old.rules ≡ 6 }
    ensures { OnOk result (length set.new.rules ≡ 6) }
{
    if set.holds(place) {
        return Err(Fail::from("the place is not free"));
    }
    let mut hits = Hits::new(alloc);
    hits.push(alloc, shown.first())?;
    hits.push(alloc, shown.second())?;
    let entry = Entry {
        place,
        fru: FruRecord::decode(alloc, EMPTY)?,
        hits,
        channels: shown.channels(alloc)?,
    };
    let next = set.prepare_plug(alloc, &entry, steps)?;
    set.commit(next);
    Ok(())
}

// Takes out the entry at a place, which has to be there.
fn take(
    set: &mut FoundSet<Silent>,
    alloc: Global,
    place: Place,
    steps: &mut Steps<Silent>,
) -> Result<(), Fail>
    requires { length set.old.rules ≡ 6 }
    ensures { OnOk result (length set.new.rules ≡ 6) }
{
    if !set.holds(place) {
        return Err(Fail::from("the place is free"));
    }
    let next = set.prepare_unplug(alloc, place, steps)?;
    set.commit(next);
    Ok(())
}

// The entry at a place that shows one configuration.
fn one_hit(config: u32) -> Shows {
    Shows(config % 6 * 7)
}

fn place(bus: u32, address: u32) -> Result<Place, Fail> {
    match Place::new(bus, address) {
        Some(place) => Ok(place),
        None => Err(Fail::from("no place")),
    }
}

// Ten places: two on each of two root buses, on bus 20 and 30, which may be reachable, and on bus 40.
const BUSES: [u32; 5] = [1, 2, 20, 30, 40];

fn place_at(at: usize) -> Result<Place, Fail>
    requires { at < 10 }
{
    let address = if at < 5 { 80 } else { 81 };
    place(BUSES[at % 5], address)
}

// Whether facts agree on the six configurations and on each bus.
fn assert_same(rt: &impl Abort, facts: &Facts, wanted: &Facts) {
    for config in 0u32..6 {
        assert_eq!(rt;
            facts.found(config),
            wanted.found(config),
            "configuration {config}"
        );
    }
    for bus in [0u8, 15, 16, 20, 30, 40, 255] {
        assert_eq!(rt; facts.reach(bus), wanted.reach(bus), "bus {bus}");
    }
}

// A new set with these entries, of which 0 is none.
fn anew(
    alloc: Global,
    present: &[u32; 10],
    steps: &mut Steps<Silent>,
) -> Result<FoundSet<Silent>, Fail> {
    let mut set = configured(alloc, steps)?;
    for at in 0..10 {
        if present[at] != 0 {
            put(&mut set, alloc, place_at(at)?, Shows(present[at]), steps)?;
        }
    }
    Ok(set)
}

// Whether facts are those of a new set with these FRUs.
fn assert_as_anew(
    rt: &impl Abort,
    alloc: Global,
    facts: &Facts,
    present: &[u32; 10],
) -> Result<(), Fail> {
    let mut steps = Steps::new(Silent);
    let wanted = anew(alloc, present, &mut steps)?;
    assert_same(rt, facts, &wanted.facts());
    Ok(())
}

// Takes away the FRU at a place, or puts one there if there is none, and returns what it shows then, 0 for none.
fn swap(
    set: &mut FoundSet<Silent>,
    alloc: Global,
    place: Place,
    code: u32,
    steps: &mut Steps<Silent>,
) -> Result<u32, Fail>
    requires { length set.old.rules ≡ 6 }
    ensures { OnOk result (length set.new.rules ≡ 6) }
{
    if set.holds(place) {
        take(set, alloc, place, steps)?;
        Ok(0)
    } else {
        put(set, alloc, place, Shows(code), steps)?;
        Ok(code)
    }
}

// The next of numbers that look random.
fn next(random: u32) -> u32 {
    random.wrapping_mul(1664525).wrapping_add(1013904223)
}

#[test]
fn many_events_give_the_facts_of_a_new_set(rt: HostRuntime) -> Result<(), Fail> {
    let alloc = rt.alloc();
    let mut steps = Steps::new(Silent);
    let mut set = configured(alloc, &mut steps)?;
    let mut present = [0u32; 10];
    let mut random = 1;
    for _event in 0..400 {
        random = next(random);
        let at = (random / 65536 % 10) as usize;
        random = next(random);
        let code = 1 + random / 65536 % 1000;
        present[at] = swap(&mut set, alloc, place_at(at)?, code, &mut steps)?;
        assert_as_anew(&rt, alloc, &set.facts(), &present)?;
    }
    Ok(())
}

// An entry that comes to a place with a hit of one configuration, or goes, and how many probes were
// evaluated up to then.
type Event = (bool, (u32, u32), u32, u64);

fn assert_evals(
    rt: &impl Abort,
    set: &mut FoundSet<Silent>,
    alloc: Global,
    events: &[Event],
    steps: &mut Steps<Silent>,
) -> Result<(), Fail>
    requires { length set.old.rules ≡ 6 }
{
    for (comes, (bus, address), config, evals) in events {
        let place = place(*bus, *address)?;
        if *comes {
            put(set, alloc, place, one_hit(*config), steps)?;
        } else {
            take(set, alloc, place, steps)?;
        }
        assert_eq!(rt; steps.evals(), *evals, "bus {bus}, address {address}");
    }
    Ok(())
}

#[test]
fn covered_entries_cost_nothing(rt: HostRuntime) -> Result<(), Fail> {
    let alloc = rt.alloc();
    let mut steps = Steps::new(Silent);
    let mut set = configured(alloc, &mut steps)?;
    let events = [
        // the fourth configuration, and the two behind it, which ask for others
        (true, (1, 80), 3, 24),
        // another on a root bus has each hit, so that nothing changes
        (true, (2, 80), 3, 24),
        (false, (1, 80), 3, 24),
        // one that no bus leads to changes nothing, and covers nothing
        (true, (20, 80), 3, 24),
        (false, (2, 80), 3, 27),
    ];
    assert_evals(&rt, &mut set, alloc, &events, &mut steps)
}

#[test]
fn visible_entries_cover_on_their_buses(rt: HostRuntime) -> Result<(), Fail> {
    let alloc = rt.alloc();
    let mut steps = Steps::new(Silent);
    let mut set = configured(alloc, &mut steps)?;
    let events = [
        // the first configuration, which opens bus 20, and the three behind it that ask for others
        (true, (1, 80), 0, 25),
        // six in each pass, since the entry is seen beyond the root buses
        (true, (20, 80), 3, 37),
        (true, (20, 81), 3, 37),
        // an entry on a root bus counts in the first pass, where one on bus 20 does not
        (true, (2, 80), 3, 49),
        // and it covers both on bus 20
        (false, (20, 80), 3, 49),
        (false, (20, 81), 3, 49),
    ];
    assert_evals(&rt, &mut set, alloc, &events, &mut steps)
}
