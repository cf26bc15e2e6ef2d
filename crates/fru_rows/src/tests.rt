use crate::{FruRows, is_idle};
use bmc_base::Place;
use fru_record::FruRecord;
use probe_lang::{Channel, Channels, Entry, Hit, Hits};
use std::alloc::Global;
use std::process::Abort;
use std::test::Fail;

// A record without areas.
const EMPTY: &[u8; 8] = b"\x01\x00\x00\x00\x00\x00\x00\xFF";

// What is known of a FRU.
#[derive(Clone, Copy, PartialEq)]
enum Known {
    Nothing,
    Hit,
    Channel,
}

// An entry on a bus.
fn entry_on(alloc: Global, bus: u32, known: Known) -> Result<Box<Entry>, Fail> {
    let Some(place) = Place::new(bus, 80) else {
        return Err(Fail::from("the bus is out of range"));
    };
    let mut hits = Hits::new(alloc);
    let mut channels = Channels::new(alloc);
    match known {
        Known::Nothing => {}
        Known::Hit => hits.push(
            alloc,
            Hit {
                config: 2,
                pattern: 0,
            },
        )?,
        Known::Channel => channels.push(alloc, Channel { config: 2, bus: 30 })?,
    }
    let fru = FruRecord::decode(alloc, EMPTY)?;
    let entry = Entry {
        place,
        fru,
        hits,
        channels,
    };
    Ok(Box::new(alloc, entry)?)
}

// Puts an entry on a bus, where it is free.
fn plug(rows: &mut FruRows, alloc: Global, bus: u32, known: Known) -> Result<(), Fail> {
    let entry = entry_on(alloc, bus, known)?;
    rows.reserve(alloc)?;
    let hint = rows.hint(entry.place);
    if rows.entry(entry.place, hint).is_none() {
        rows.plug(entry, hint);
    }
    Ok(())
}

// Takes out the entry on a bus, and returns its bus, if there is one.
fn unplug(rows: &mut FruRows, bus: u32) -> Option<u8> {
    let place = Place::new(bus, 80)?;
    let hint = rows.hint(place);
    if rows.entry(place, hint).is_some() {
        Some(rows.unplug(place, hint).place.bus())
    } else {
        None
    }
}

// All entries are on these buses, and those with hits or channels on those.
fn assert_buses(rt: &impl Abort, rows: &FruRows, all: &[u8], busy: &[u8]) {
    let mut entries = rows.entries();
    for bus in all {
        let found = match entries.next() {
            Some(entry) => Some(entry.place.bus()),
            None => None,
        };
        assert_eq!(rt; found, Some(*bus));
    }
    assert!(rt; entries.next().is_none());
    assert_eq!(rt; rows.busy().len(), busy.len());
    for (entry, bus) in rows.busy().iter().zip(busy) {
        assert_eq!(rt; entry.place.bus(), *bus);
        assert!(rt; !is_idle(entry));
    }
}

#[test]
fn entries_come_by_place_from_both_lists(rt: HostRuntime) -> Result<(), Fail> {
    let mut rows = FruRows::new(rt.alloc())?;
    assert_buses(&rt, &rows, &[], &[]);
    let plugs = &[
        (9, Known::Hit),
        (4, Known::Nothing),
        (255, Known::Channel),
        (0, Known::Nothing),
        (4, Known::Hit),
        (7, Known::Channel),
        (8, Known::Nothing),
        (1, Known::Hit),
    ];
    for &(bus, known) in plugs {
        plug(&mut rows, rt.alloc(), bus, known)?;
    }
    assert_buses(&rt, &rows, &[0, 1, 4, 7, 8, 9, 255], &[1, 7, 9, 255]);
    Ok(())
}

#[test]
fn entries_go_from_either_list(rt: HostRuntime) -> Result<(), Fail> {
    let mut rows = FruRows::new(rt.alloc())?;
    for bus in 0..6_u32 {
        let known = if bus % 2 == 0 {
            Known::Nothing
        } else {
            Known::Hit
        };
        plug(&mut rows, rt.alloc(), bus, known)?;
    }
    for (bus, gone) in [
        (3, Some(3)),
        (3, None),
        (4, Some(4)),
        (9, None),
        (0, Some(0)),
    ] {
        assert_eq!(rt; unplug(&mut rows, bus), gone);
    }
    assert_buses(&rt, &rows, &[1, 2, 5], &[1, 5]);
    Ok(())
}
