use crate::{Rows, count_before, entry_shows_record, make};
use bmc_base::{Place, Silent, Steps};
use cfg_json::{Config, Shelf};
use fru_record::FruRecord;
use pat_gate::RegexMaker;
use probe_lang::Entry;
use std::alloc::Global;
use std::process::Abort;
use std::test::Fail;

// A board area at byte 8: ACM, RSR1, S1 and two empty fields.
const BOARD: &[u8; 32] =
    b"\x01\x00\x00\x01\x00\x00\x00\xFE\x01\x03\x00\x00\x00\x00\xC3ACM\xC4RSR1\xC2S1\xC0\xC0\xC1\x00\x00\xF5";

// A record without areas.
const EMPTY: &[u8; 8] = b"\x01\x00\x00\x00\x00\x00\x00\xFF";

// The entry of a record, by a shelf without configurations.
fn entry_of(alloc: Global, place: Place, bytes: &[u8]) -> Result<Box<Entry>, Fail> {
    let fru = FruRecord::decode(alloc, bytes)?;
    let shelf: Shelf<Silent> = Shelf::new(alloc)?;
    let entry = make(alloc, place, fru, &shelf, &mut Steps::new(Silent))?;
    Ok(Box::new(alloc, entry)?)
}

// Puts a record at a place, where it is free.
fn plug(rows: &mut Rows, alloc: Global, place: Place, bytes: &[u8]) -> Result<(), Fail> {
    let entry = entry_of(alloc, place, bytes)?;
    rows.reserve(alloc)?;
    if rows.entry(entry.place).is_none() {
        rows.plug(entry);
    }
    Ok(())
}

// Takes out the entry at a place, if there is one.
fn unplug(rows: &mut Rows, place: Place) -> Option<Box<Entry>> {
    if rows.entry(place).is_some() {
        Some(rows.unplug(place))
    } else {
        None
    }
}

fn assert_places(rt: &impl Abort, rows: &Rows, wanted: &[(u8, u8)]) {
    assert_eq!(rt; rows.entries().len(), wanted.len());
    for (entry, (bus, address)) in rows.entries().iter().zip(wanted) {
        assert_eq!(rt;
            (entry.place.bus(), entry.place.address()),
            (*bus, *address)
        );
    }
}

#[test]
fn entries_come_by_place(rt: HostRuntime) -> Result<(), Fail> {
    entry_shows_record();
    let mut rows = Rows::new(rt.alloc())?;
    assert_places(&rt, &rows, &[]);
    for (bus, address) in [(2, 80), (0, 127), (1, 81), (255, 0), (1, 80), (1, 81)] {
        let place = Place::new(bus, address).expect(&rt, "it is in range");
        plug(&mut rows, rt.alloc(), place, EMPTY)?;
    }
    assert_places(&rt, &rows, &[(0, 127), (1, 80), (1, 81), (2, 80), (255, 0)]);
    Ok(())
}

#[test]
fn no_hint_changes_a_count(rt: HostRuntime) -> Result<(), Fail> {
    let mut rows = Rows::new(rt.alloc())?;
    for bus in 1..4_u32 {
        let place = Place::new(bus, 80).expect(&rt, "it is in range");
        plug(&mut rows, rt.alloc(), place, EMPTY)?;
    }
    for (bus, address, count) in [(1, 79, 0), (1, 80, 0), (1, 81, 1), (3, 80, 2), (9, 0, 3)] {
        let place = Place::new(bus, address).expect(&rt, "it is in range");
        for hint in 0..6_usize {
            assert_eq!(rt; count_before(rows.entries(), place, hint), count);
        }
    }
    Ok(())
}

#[test]
fn entries_go(rt: HostRuntime) -> Result<(), Fail> {
    let mut rows = Rows::new(rt.alloc())?;
    let riser = Place::new(1, 80).expect(&rt, "it is in range");
    let other = Place::new(1, 79).expect(&rt, "it is in range");
    plug(&mut rows, rt.alloc(), riser, BOARD)?;
    plug(&mut rows, rt.alloc(), other, EMPTY)?;
    let entry = rows.entry(riser).expect(&rt, "it is plugged");
    assert_eq!(rt; entry.fru.field("BOARD_PRODUCT_NAME"), Some("RSR1"));
    assert_eq!(rt;
        (entry.hits.as_slice().len(), entry.channels.as_slice().len()),
        (0, 0)
    );
    let gone = unplug(&mut rows, riser).expect(&rt, "it is plugged");
    assert_eq!(rt; gone.fru.field("BOARD_SERIAL_NUMBER"), Some("S1"));
    assert!(rt; rows.entry(riser).is_none());
    assert!(rt; unplug(&mut rows, riser).is_none());
    assert_places(&rt, &rows, &[(1, 79)]);
    Ok(())
}

// A configuration that finds FRUs on the buses 1 and 2, with channels that move with the place.
const MOVING: &[u8] = br#"{"Name":"W",
    "Probe":["xyz.openbmc_project.FruDevice({'BUS': 1})","OR","xyz.openbmc_project.FruDevice({'BUS': '2'})"],
    "Exposes":[{"Name":"X","Type":"Mux","Channels":["$address - 60",9,"$address * 4","$BOARD_PRODUCT_NAME"]},
        {"Name":"F","Type":"Fan"},{"Name":"Y","Type":"Mux","Channels":["$bus + 20"]}]}"#;

// Places, and the buses to which its channels lead from there: what is no bus is left out.
const BUSES: &[((u32, u32), &[u8])] = &[
    ((1, 80), &[20, 21]),
    ((2, 63), &[3, 252, 22]),
    ((1, 59), &[236, 21]),
    ((3, 80), &[]),
];

#[test]
fn channels_move(rt: HostRuntime) -> Result<(), Fail> {
    let alloc = rt.alloc();
    let mut shelf: Shelf<Silent> = Shelf::new(alloc)?;
    let config = Config::read(alloc, MOVING, &mut RegexMaker::new(alloc))?;
    if shelf.position(&config.name()).is_none() && shelf.len() == 0 {
        shelf.add(alloc, config)?;
    }
    for &((bus, address), buses) in BUSES {
        let place = Place::new(bus, address).expect(&rt, "it is in range");
        let fru = FruRecord::decode(alloc, BOARD)?;
        let entry = make(alloc, place, fru, &shelf, &mut Steps::new(Silent))?;
        let channels = entry.channels.as_slice();
        assert_eq!(rt; channels.len(), buses.len(), "{bus} {address}");
        for (channel, wanted) in channels.iter().zip(buses) {
            assert_eq!(rt; (channel.config, channel.bus), (0, *wanted));
        }
    }
    Ok(())
}
