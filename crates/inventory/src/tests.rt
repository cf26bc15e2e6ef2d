use crate::items::append_items;
use crate::lone::{push_key, swap_beside};
use crate::{Board, BoardKey, BoardKeys, IndexKeep, Moment, list_items};
use bmc_base::{Milli, Name, Place, Silent, Steps};
use cfg_json::{
    Body, Boxed, Config, ControlItem, ControlPart, Expose, Item, ItemPart, Names, Shelf, Templates,
};
use ctl_face::{PidClass, PidSetting, Setting};
use found_set::{Facts, FoundSet};
use fru_record::FruRecord;
use match_rows::{Rows, make};
use pat_gate::RegexMaker;
use probe_lang::Probe;
use std::alloc::Global;
use std::process::Abort;
use std::test::Fail;
use tmpl::Template;

// No bus, so that a key has no place.
const NOWHERE: u32 = 256;

// The key of a board of a configuration on a bus.
fn key(config: u32, bus: u32) -> BoardKey {
    BoardKey {
        config,
        place: Place::new(bus, 80),
    }
}

#[test]
fn boards_keep_their_indexes(rt: HostRuntime) -> Result<(), Fail> {
    let first = [key(0, 1), key(3, NOWHERE), key(0, 20), key(0, 1)];
    let second = [key(0, NOWHERE), key(0, 20), key(3, 1)];
    let mut keep = IndexKeep::new(rt.alloc())?;
    keep.extend(rt.alloc(), &first)?;
    keep.extend(rt.alloc(), &second)?;
    let rows = &[
        (0, 1, Some(1)),
        (0, 20, Some(2)),
        (0, NOWHERE, Some(3)),
        (3, NOWHERE, Some(1)),
        (3, 1, Some(2)),
        // not there
        (3, 20, None),
        (1, 1, None),
        (4, NOWHERE, None),
    ];
    for &(config, bus, index) in rows {
        assert_eq!(rt; keep.index_of(&key(config, bus)), index);
    }
    Ok(())
}

// The boards of a configuration with hits on these buses, some of bus 0 to 6, by the bits of a number.
fn list(boards: &mut Vec<Option<Place>>, buses: u32, match_one: bool) -> Result<(), Fail> {
    boards.clear();
    for bus in 0..7_u32 {
        if buses >> bus & 1 == 1 {
            boards.push(Place::new(bus, 80))?;
        }
    }
    if boards.is_empty() {
        boards.push(None)?;
    } else if match_one {
        boards.truncate(1);
    }
    Ok(())
}

// Appends the keys of the boards that are here and not there.
fn push_absent(
    alloc: Global,
    keys: &mut BoardKeys,
    here: &[Option<Place>],
    there: &[Option<Place>],
) -> Result<(), Fail> {
    for board in here {
        if !there.contains(board) {
            push_key(alloc, keys, Some(key_at(*board)))?;
        }
    }
    Ok(())
}

// The key of a board of configuration 3.
fn key_at(place: Option<Place>) -> BoardKey {
    BoardKey { config: 3, place }
}

// The bus on which a FRU comes.
const BUS: u32 = 3;

// The FRU comes beside others on these buses: the swap is what the lists of all boards differ by.
fn assert_swap(rt: &impl Abort, alloc: Global, others: u32, match_one: bool) -> Result<(), Fail> {
    let Some(place) = Place::new(BUS, 80) else {
        return Err(Fail::from("no bus"));
    };
    let mut before = Vec::new(alloc);
    let mut after = Vec::new(alloc);
    list(&mut before, others, match_one)?;
    list(&mut after, others | 1 << BUS, match_one)?;
    let mut gone = BoardKeys::new(alloc);
    let mut come = BoardKeys::new(alloc);
    push_absent(alloc, &mut gone, &before, &after)?;
    push_absent(alloc, &mut come, &after, &before)?;
    let first = before.first().copied().unwrap_or(None);
    let swap = swap_beside(3, place, first, match_one);
    assert_eq!(rt; gone.as_slice().first().copied(), swap.gone);
    assert_eq!(rt; come.as_slice().first().copied(), swap.new);
    assert!(rt; gone.as_slice().len() <= 1 && come.as_slice().len() <= 1);
    Ok(())
}

#[test]
fn a_fru_comes_beside_any_others(rt: HostRuntime) -> Result<(), Fail> {
    for others in 0..128_u32 {
        if others >> BUS & 1 == 0 {
            assert_swap(&rt, rt.alloc(), others, false)?;
            assert_swap(&rt, rt.alloc(), others, true)?;
        }
    }
    Ok(())
}

#[test]
fn a_fru_comes_alone(rt: HostRuntime) -> Result<(), Fail> {
    let rows = &[
        (None, false, Some(NOWHERE), Some(5)),
        (None, true, Some(NOWHERE), Some(5)),
        (Some(7), false, None, Some(5)),
        (Some(7), true, Some(7), Some(5)),
        (Some(3), false, None, Some(5)),
        (Some(3), true, None, None),
    ];
    let Some(place) = Place::new(5, 80) else {
        return Err(Fail::from("no bus"));
    };
    for &(first, match_one, gone, new) in rows {
        let first = Place::new(first.unwrap_or(NOWHERE), 80);
        let swap = swap_beside(2, place, first, match_one);
        assert_eq!(rt; swap.gone, key_if(gone));
        assert_eq!(rt; swap.new, key_if(new));
    }
    Ok(())
}

// The key of a board of configuration 2 on a bus, if one is given.
fn key_if(bus: Option<u32>) -> Option<BoardKey> {
    match bus {
        Some(bus) => Some(key(2, bus)),
        None => None,
    }
}

// A board area at byte 8: ACM, RSR1, S1 and two empty fields.
const BOARD: &[u8; 32] =
    b"\x01\x00\x00\x01\x00\x00\x00\xFE\x01\x03\x00\x00\x00\x00\xC3ACM\xC4RSR1\xC2S1\xC0\xC0\xC1\x00\x00\xF5";

// Reads a configuration.
fn config_of(alloc: Global, document: &str) -> Result<Config<Silent>, Fail> {
    let mut maker = RegexMaker::new(alloc);
    Ok(Config::read(alloc, document.as_bytes(), &mut maker)?)
}

// The rows of the record at address 80 of bus 1.
fn one_row(alloc: Global) -> Result<Rows, Fail> {
    let Some(place) = Place::new(1, 80) else {
        return Err(Fail::from("no place"));
    };
    let fru = FruRecord::decode(alloc, BOARD)?;
    let shelf = Shelf::<Silent>::new(alloc)?;
    let entry = make(alloc, place, fru, &shelf, &mut Steps::new(Silent))?;
    let entry = Box::new(alloc, entry)?;
    let mut rows = Rows::new(alloc)?;
    rows.reserve(alloc)?;
    if rows.entry(entry.place).is_none() {
        rows.plug(entry);
    }
    Ok(rows)
}

// What is found where the first configuration is.
fn first_found(alloc: Global) -> Result<Facts, Fail> {
    let (probe, _) = Probe::parse(alloc, &["TRUE"])?;
    let mut set = FoundSet::new(alloc)?;
    let name = Name::new("A")?;
    if set.number(&name).is_some() {
        return Err(Fail::from("the name is not new"));
    }
    let next = set.prepare_config(alloc, name, &probe, &[], &mut Steps::new(Silent))?;
    set.commit(next);
    Ok(set.facts())
}

// A fan, a zone whose name asks for a record, a multiplexer whose name asks for a place, an expose of another type, and
// a sensor whose bus and address ask for the place and the index.
const EXPOSES: &str = r#"{"Name":"A","Probe":"TRUE","Exposes":[
    {"Name":"Fan $index","Type":"Fan"},
    {"Name":"$BOARD_PRODUCT_NAME zone","Type":"Pid.Zone","MinThermalOutput":30,"FailSafePercent":70},
    {"Name":"Mux $bus","Type":"Mux","Channels":[20,"$bus + 20","$bus * 200","$bus - 2"]},
    {"Name":"Plain","Type":"Other"},
    {"Name":"Sensor","Type":"Sensor","Bus":"$bus + 1","Address":"$index * 30","ScaleNum":-2}]}"#;

// An item: its configuration, the bus of its place, if it has one, its expose, its name, and what it has by its type.
const ITEMS: [&str; 12] = [
    "0 Some(1) 0 Fan 3 fan",
    "0 Some(1) 1 RSR1 zone zone 30.000 70.000",
    // one channel leads below bus 0
    "0 Some(1) 2 Mux 1 mux [20] [21, 200]",
    "0 Some(1) 3 Plain passive",
    "0 Some(1) 4 Sensor sensor Some(2) Some(90) -2",
    // here is no record, and one channel leads beyond bus 255
    "0 Some(2) 0 Fan 4 fan",
    "0 Some(2) 2 Mux 2 mux [20] [22, 0]",
    "0 Some(2) 3 Plain passive",
    "0 Some(2) 4 Sensor sensor Some(3) Some(120) -2",
    // here is no place, so the sensor has no bus, and its address is beyond 127
    "0 None 0 Fan 7 fan",
    "0 None 3 Plain passive",
    "0 None 4 Sensor sensor None None -2",
];

// Appends names, with a space before each.
fn push_names(text: &mut String, names: &Names) -> Result<(), Fail> {
    for name in names.as_slice() {
        text.push_str(" ")?;
        text.push_str(name.as_str())?;
    }
    Ok(())
}

fn control_text(alloc: Global, control: &ControlItem) -> Result<String, Fail> {
    let mut text = format!(in alloc; "control {} |", control.zone.as_str())?;
    push_names(&mut text, &control.inputs)?;
    text.push_str(" |")?;
    push_names(&mut text, &control.outputs)?;
    Ok(text)
}

// What an item has by its type.
fn part_text(alloc: Global, part: &ItemPart) -> Result<String, Fail> {
    Ok(match part {
        ItemPart::Sensor(sensor) => {
            format!(in alloc;
                "sensor {:?} {:?} {}",
                sensor.bus,
                sensor.address,
                sensor.setting.get().num
            )?
        }
        ItemPart::Fan => String::from_str(alloc, "fan")?,
        ItemPart::Zone(setting) => {
            format!(in alloc; "zone {} {}", setting.min_thermal, setting.failsafe)?
        }
        ItemPart::Control(control) => control_text(alloc, control.get())?,
        ItemPart::Mux(mux) => {
            let mux = mux.get();
            format!(in alloc;
                "mux {:?} {:?}",
                mux.fixed.as_slice(),
                mux.moving.as_slice()
            )?
        }
        ItemPart::Passive => String::from_str(alloc, "passive")?,
    })
}

fn item_text(alloc: Global, item: &Item) -> Result<String, Fail> {
    let bus = match item.id.place {
        Some(place) => Some(place.bus()),
        None => None,
    };
    let part = part_text(alloc, &item.part)?;
    Ok(format!(in alloc;
        "{} {bus:?} {} {} {part}",
        item.id.config,
        item.id.expose,
        item.name.as_str()
    )?)
}

// A board of a configuration on a bus, with this index.
fn board(config: u32, bus: u32, index: u32) -> Board {
    Board {
        key: key(config, bus),
        index,
    }
}

fn assert_items(rt: &impl Abort, alloc: Global, items: &[Item]) -> Result<(), Fail> {
    assert_eq!(rt; items.len(), ITEMS.len());
    for (item, wanted) in items.iter().zip(ITEMS) {
        assert_eq!(rt; item_text(alloc, item)?.as_str(), wanted);
    }
    Ok(())
}

// The boards whose items are listed: at a record, at a place without one, of no configuration, and without a place.
fn listed_boards() -> [Board; 4] {
    [
        board(0, 1, 3),
        board(0, 2, 4),
        board(9, 1, 1),
        board(0, NOWHERE, 7),
    ]
}

// Lists the items of these boards, where the configuration is accepted now.
fn items_of(alloc: Global, rows: &Rows, facts: Facts) -> Result<Vec<Item>, Fail> {
    let shelf = Shelf::new(alloc)?;
    let plus = config_of(alloc, EXPOSES)?;
    let moment = Moment::of(facts, rows.entries());
    let items = list_items(alloc, &shelf, Some(&plus), &listed_boards(), &moment)?;
    Ok(items)
}

#[test]
fn boards_have_items(rt: HostRuntime) -> Result<(), Fail> {
    let alloc = rt.alloc();
    let rows = one_row(alloc)?;
    let items = items_of(alloc, &rows, first_found(alloc)?)?;
    assert_items(&rt, alloc, &items)
}

// The setting of a controller that does nothing.
pub(crate) const IDLE: Setting = Setting::Pid(PidSetting {
    class: PidClass::Fan,
    setpoint: Milli(0),
    p: 0,
    i: 0,
    d: 0,
    ff_gain: 0,
    ff_off: Milli(0),
    i_min: Milli(0),
    i_max: Milli(0),
    out_min: Milli(0),
    out_max: Milli(0),
    slew_neg: Milli(0),
    slew_pos: Milli(0),
});

// The templates of a controller: of its name, of its zone, of its inputs and of its outputs.
type Texts<'t> = (&'t str, &'t str, &'t [&'t str], &'t [&'t str]);

// Controllers, and as what each is rendered on bus 5, at index 3 and without a record; nothing where it is no item.
const CONTROLS: &[(Texts<'static>, &str)] = &[
    (
        (
            "Pid $index",
            "Zone $bus",
            &["In $bus", "In"],
            &["Fan $index"],
        ),
        "0 Some(5) 0 Pid 3 control Zone 5 | In 5 In | Fan 3",
    ),
    (
        ("Pid", "Zone", &["In"], &[]),
        "0 Some(5) 0 Pid control Zone | In |",
    ),
    // its own name has no rendering, that of its zone, that of an input, and that of an output
    (("$BOARD_PRODUCT_NAME", "Zone", &["In"], &["Fan"]), ""),
    (("Pid", "$BOARD_PRODUCT_NAME", &["In"], &["Fan"]), ""),
    (
        ("Pid", "Zone", &["In", "$BOARD_PRODUCT_NAME"], &["Fan"]),
        "",
    ),
    (
        ("Pid", "Zone", &["In"], &["$BOARD_PRODUCT_NAME", "Fan"]),
        "",
    ),
];

fn templates(alloc: Global, texts: &[&str]) -> Result<Templates, Fail> {
    let mut templates = Templates::new(alloc);
    for text in texts {
        templates.push(alloc, Template::parse(alloc, text)?)?;
    }
    Ok(templates)
}

fn control(alloc: Global, texts: Texts<'_>) -> Result<Expose, Fail> {
    let (name, zone, inputs, outputs) = texts;
    let control = ControlPart {
        setting: IDLE,
        zone: Template::parse(alloc, zone)?,
        inputs: templates(alloc, inputs)?,
        outputs: templates(alloc, outputs)?,
    };
    Ok(Expose {
        name: Template::parse(alloc, name)?,
        kind: Name::new("Pid")?,
        body: Body::Control(Boxed::new(alloc, control)?),
    })
}

#[test]
fn a_controller_has_all_its_names(rt: HostRuntime) -> Result<(), Fail> {
    let alloc = rt.alloc();
    for &(texts, wanted) in CONTROLS {
        let exposes = [control(alloc, texts)?];
        let mut items = Vec::new(alloc);
        append_items(alloc, &mut items, &board(0, 5, 3), &exposes, None)?;
        let text = match items.first() {
            Some(item) => item_text(alloc, item)?,
            None => String::new(alloc),
        };
        assert_eq!(rt; text.as_str(), wanted);
    }
    Ok(())
}
