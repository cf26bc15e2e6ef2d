use crate::stock::{compare, note_change};
use crate::tag::{Role, Tag};
use crate::tags::{Notes, Tags, first_of, keep_noted};
use crate::tests::IDLE;
use crate::{BoardKey, Shown};
use bmc_base::{Milli, Name, Place};
use cfg_json::{ControlItem, Item, ItemId, ItemPart, Names, SensorItem, Shared, ZoneSetting};
use indexmap::IndexMap;
use sensor_core::{Limit, SensorSetting};
use std::alloc::Global;
use std::process::Abort;
use std::test::Fail;

// An item: its configuration, its bus, the position of its expose, its name, and as what it is noted, if it is.
type Row<'r> = (u32, u32, u32, &'r str, Option<Role>);

const SENSOR: Option<Role> = Some(Role::Sensor);

const ZONE: Option<Role> = Some(Role::Zone);

const FAN: Option<Role> = Some(Role::Fan);

// A controller, which is in zone 1.
const MEMBER: Option<Role> = Some(Role::Member);

const UNUSED: Limit = Limit {
    above: false,
    severity: 0,
    value: Milli(0),
    hysteresis: Milli(0),
};

// The setting of a sensor whose values are its raw numbers.
const PLAIN: SensorSetting = SensorSetting {
    num: 1,
    den: 1,
    offset: Milli(0),
    timeout: 0,
    limits: [UNUSED; 8],
    count: 0,
};

fn id(row: Row<'_>) -> ItemId {
    let (config, bus, expose, _, _) = row;
    ItemId {
        config,
        place: Place::new(bus, 80),
        expose,
    }
}

// A controller in zone 1.
fn control(alloc: Global) -> Result<ControlItem, Fail> {
    Ok(ControlItem {
        setting: IDLE,
        zone: Name::new("Zone 1")?,
        inputs: Names::new(alloc),
        outputs: Names::new(alloc),
    })
}

fn item(alloc: Global, row: Row<'_>) -> Result<Item, Fail> {
    let (_, _, _, name, role) = row;
    let part = match role {
        Some(Role::Sensor) => ItemPart::Sensor(SensorItem {
            bus: None,
            address: None,
            setting: Shared::new(alloc, PLAIN)?,
        }),
        Some(Role::Zone) => ItemPart::Zone(ZoneSetting {
            min_thermal: Milli(0),
            failsafe: Milli(100_000),
        }),
        Some(Role::Fan) => ItemPart::Fan,
        Some(Role::Member) => ItemPart::Control(Shared::new(alloc, control(alloc)?)?),
        None => ItemPart::Passive,
    };
    Ok(Item {
        id: id(row),
        name: Name::new(name)?,
        part,
    })
}

// The boards of these rows, which stand in the order of the ids.
fn boards(alloc: Global, rows: &[Row<'_>]) -> Result<Vec<Shown>, Fail> {
    let mut boards: Vec<Shown> = Vec::new(alloc);
    for row in rows {
        let ItemId { config, place, .. } = id(*row);
        let key = BoardKey { config, place };
        let mut items = Vec::new(alloc);
        match boards.pop() {
            Some(
                Shown {
                    key: last,
                    items: more,
                    ..
                },
            ) if last == key => items = more,
            Some(last) => boards.push(last)?,
            None => {}
        }
        items.push(item(alloc, *row)?)?;
        boards.push(Shown::new(key, items))?;
    }
    Ok(boards)
}

// The keys of boards.
fn keys(alloc: Global, boards: &[Shown]) -> Result<Vec<BoardKey>, Fail> {
    let mut keys = Vec::new(alloc);
    for board in boards {
        keys.push(board.key)?;
    }
    Ok(keys)
}

// The ids of the items of boards, by what they are noted under.
fn tags(alloc: Global, boards: &[Shown]) -> Result<Tags, Fail> {
    let mut notes = Notes::none(alloc);
    note_change(alloc, &mut notes, &IndexMap::new(alloc), &[], &[], boards)?;
    Ok(notes.over)
}

// Names that occur twice: in one family, in several, and at an item of no family. Two controllers are in zone 1.
const ROWS: [Row<'static>; 9] = [
    (0, 1, 0, "Fan 1", FAN),
    (0, 1, 1, "Zone 1", ZONE),
    (0, 2, 0, "Fan 1", FAN),
    (1, 1, 0, "Zone 1", FAN),
    (1, 1, 1, "Fan 1", None),
    (1, 2, 0, "Fan 2", FAN),
    (1, 2, 1, "Fan 2", SENSOR),
    (2, 1, 0, "Fan 1", MEMBER),
    (2, 2, 0, "Fan 1", MEMBER),
];

// These are noted first, by what they are noted under: the rows at these positions.
fn assert_first(
    rt: &impl Abort,
    tags: &Tags,
    first: &[(Role, &str, Option<usize>)],
) -> Result<(), Fail> {
    for (role, name, position) in first {
        let tag = Tag {
            role: *role,
            name: Name::new(name)?,
        };
        let row = match position {
            Some(position) => ROWS.get(*position),
            None => None,
        };
        assert_eq!(rt; first_of(tags, &tag), row.map(|row| id(*row)));
    }
    Ok(())
}

// Takes these boards out.
fn forget(alloc: Global, tags: &mut Tags, boards: &[Shown], gone: &[BoardKey]) -> Result<(), Fail> {
    let mut notes = Notes::none(alloc);
    note_change(alloc, &mut notes, tags, boards, gone, &[])?;
    tags.reserve(notes.over.len())?;
    keep_noted(tags, &mut notes.over);
    Ok(())
}

#[test]
fn the_first_bearer_holds_its_name(rt: HostRuntime) -> Result<(), Fail> {
    let alloc = rt.alloc();
    let all = boards(alloc, &ROWS)?;
    let mut tags = tags(alloc, &all)?;
    let first = [
        (Role::Fan, "Fan 1", Some(0)),
        (Role::Zone, "Fan 1", None),
        (Role::Zone, "Zone 1", Some(1)),
        (Role::Fan, "Zone 1", Some(3)),
        (Role::Fan, "Fan 2", Some(5)),
        (Role::Fan, "Fan 3", None),
        (Role::Sensor, "Fan 2", Some(6)),
        (Role::Sensor, "Fan 1", None),
        // a controller is noted by its zone, and not by its name
        (Role::Member, "Zone 1", Some(7)),
        (Role::Member, "Fan 1", None),
    ];
    assert_first(&rt, &tags, &first)?;
    // the board of the first holder goes, and the next item has the name
    let gone = keys(alloc, &boards(alloc, &ROWS[..2])?)?;
    forget(alloc, &mut tags, &all, &gone)?;
    let first = [
        (Role::Fan, "Fan 1", Some(2)),
        (Role::Zone, "Zone 1", None),
        (Role::Fan, "Zone 1", Some(3)),
        (Role::Member, "Zone 1", Some(7)),
    ];
    assert_first(&rt, &tags, &first)
}

// The items are those of these rows.
fn assert_rows(rt: &impl Abort, items: &[Item], rows: &[Row<'_>]) -> Result<(), Fail> {
    assert_eq!(rt; items.len(), rows.len());
    for (item, row) in items.iter().zip(rows) {
        assert_eq!(rt; item.id, id(*row));
        assert_eq!(rt; item.name.as_str(), row.3);
    }
    Ok(())
}

// The boards of all rows before go and those of all rows after come: of what is live these rows go, and those come.
fn assert_change(
    rt: &impl Abort,
    alloc: Global,
    before: &[Row<'_>],
    after: &[Row<'_>],
    gone: &[Row<'_>],
    new: &[Row<'_>],
) -> Result<(), Fail> {
    let here = boards(alloc, before)?;
    let there = boards(alloc, after)?;
    let tags = tags(alloc, &here)?;
    let mut notes = Notes::none(alloc);
    note_change(
        alloc,
        &mut notes,
        &tags,
        &here,
        &keys(alloc, &here)?,
        &there,
    )?;
    let told = compare(alloc, &tags, &notes, &here, &there)?;
    assert_rows(rt, told.gone.as_slice(), gone)?;
    assert_rows(rt, told.new.as_slice(), new)
}

// The rows at these positions.
fn rows_at(alloc: Global, positions: &[usize]) -> Result<Vec<Row<'static>>, Fail> {
    let mut rows = Vec::new(alloc);
    for position in positions {
        if let Some(row) = ROWS.get(*position) {
            rows.push(*row)?;
        }
    }
    Ok(rows)
}

#[test]
fn live_items_go_and_come(rt: HostRuntime) -> Result<(), Fail> {
    // what is before and after, and of what is live what goes and what comes
    let rows = &[
        (&ROWS[..], &ROWS[..], &[][..], &[][..]),
        (&[], &ROWS[2..7], &[], &[ROWS[2], ROWS[3], ROWS[5], ROWS[6]]),
        // a name goes with its holder, and comes with the next item
        (&ROWS, &ROWS[1..], &[ROWS[0]], &[ROWS[2]]),
        // an item that holds no name goes
        (&ROWS[..3], &ROWS[..2], &[], &[]),
        (&ROWS[..4], &ROWS[2..5], &[ROWS[0], ROWS[1]], &[ROWS[2]]),
    ];
    for &(before, after, gone, new) in rows {
        assert_change(&rt, rt.alloc(), before, after, gone, new)?;
        assert_change(&rt, rt.alloc(), after, before, new, gone)?;
    }
    Ok(())
}

#[test]
fn controllers_are_live_where_their_zone_is_held(rt: HostRuntime) -> Result<(), Fail> {
    // what is before and after, and of what is live what goes and what comes
    let rows = &[
        // their zone comes
        (&ROWS[7..], &ROWS[1..], &[][..], &[1, 2, 3, 5, 6, 7, 8][..]),
        // no zone has this name
        (&ROWS[..0], &ROWS[3..], &[], &[3, 5, 6]),
        // their zone goes, and they with it
        (&ROWS[1..], &ROWS[2..], &[1, 7, 8], &[]),
        // one goes, and its zone stays
        (&ROWS[1..], &ROWS[1..8], &[8], &[]),
    ];
    for &(before, after, gone, new) in rows {
        let gone = rows_at(rt.alloc(), gone)?;
        let new = rows_at(rt.alloc(), new)?;
        assert_change(&rt, rt.alloc(), before, after, &gone, &new)?;
        assert_change(&rt, rt.alloc(), after, before, &new, &gone)?;
    }
    Ok(())
}
