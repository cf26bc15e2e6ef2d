ghost use Rattle.std.specs.Prelude.{◌≡◌, ◌<◌, ◌^◌, [], ◌∷◌, ◌++◌, take, drop, List, IfOk};
ghost use Rattle.inventory.specs.Items.{IsValidPart};
ghost use Rattle.cfg_json.specs.declared.item.Item.{Item};
ghost use Rattle.fan_zone.specs.Live.{items_of};
ghost use Rattle.fan_zone.specs.Ticks.{no_zones};
ghost use Rattle.fan_zone.specs.Machine.{Stays, boxes, control_of, fan_pid, item_of, machine, margin_pid, pid_of, row_of, stairs, temp_pid, zone_of};

use crate::Zones;
use bmc_base::{Milli, Name};
use cfg_json::{ControlItem, Item, ItemId, ItemPart, Names, SensorItem, Shared, ZoneSetting};
use ctl_face::{
    Controller, CtlState, Kind, PidClass, PidSetting, Sample, Setting, StepRow, StepSetting,
};
use ctl_kinds::{PidBox, StepBox};
use live_sensors::LiveSensors;
use sensor_core::{Limit, SensorSetting, SensorTable};
use std::alloc::Global;
use std::process::Abort;
use std::test::Fail;

// A box of either kind.
#[derive(Drop)]
enum AnyBox {
    Pid(PidBox),
    Step(StepBox),
}

impl Controller for AnyBox {
    ghost use Rattle.fan_zone.specs.declared.tests.AnyBox.TheVariants.{Pid, Step};

    ghost seen = { elim [ Pid inner ↦ inner | Step inner ↦ inner ] };

    fn kind(&self) -> Kind {
        match self {
            AnyBox::Pid(inner) => inner.kind(),
            AnyBox::Step(inner) => inner.kind(),
        }
    }

    fn load(&mut self, setting: &Setting) {
        match self {
            AnyBox::Pid(inner) => inner.load(setting),
            AnyBox::Step(inner) => inner.load(setting),
        }
    }

    fn step(&mut self, sample: Sample) -> Milli {
        match self {
            AnyBox::Pid(inner) => inner.step(sample),
            AnyBox::Step(inner) => inner.step(sample),
        }
    }

    fn clear(&mut self) {
        match self {
            AnyBox::Pid(inner) => inner.clear(),
            AnyBox::Step(inner) => inner.clear(),
        }
    }

    fn state(&self) -> CtlState {
        match self {
            AnyBox::Pid(inner) => inner.state(),
            AnyBox::Step(inner) => inner.state(),
        }
    }
}

// No zones, over as many boxes as the machine has controllers.
fn no_zones(alloc: Global) -> Result<Zones<AnyBox>, Fail>
    ensures { IfOk result (λ zones. zones ≡ no_zones boxes) }
{
    let bank = vec![in alloc;
        AnyBox::Pid(PidBox::new()),
        AnyBox::Step(StepBox::new()),
        AnyBox::Pid(PidBox::new()),
        AnyBox::Pid(PidBox::new()),
        AnyBox::Pid(PidBox::new()),
    ]?;
    Ok(Zones::new(alloc, bank)?)
}

fn name(text: &str) -> Result<Name, Fail>
    ensures { IfOk result (λ name. name ≡ text.now) }
{
    Ok(Name::new(text)?)
}

fn one(alloc: Global, text: &str) -> Result<Names, Fail>
    ensures { IfOk result (λ names. names ≡ text.now ∷ []) }
{
    let mut names = Names::new(alloc);
    names.push(alloc, name(text)?)?;
    Ok(names)
}

fn two(alloc: Global, text: &str, other: &str) -> Result<Names, Fail>
    ensures { IfOk result (λ names. names ≡ text.now ∷ other.now ∷ []) }
{
    let mut names = one(alloc, text)?;
    names.push(alloc, name(other)?)?;
    Ok(names)
}

fn item(number: u32, text: &str, part: ItemPart) -> Result<Item, Fail>
    ensures { IfOk result (λ item. item ≡ item_of number text.now part) }
{
    Ok(Item {
        id: ItemId {
            config: 0,
            place: None,
            expose: number,
        },
        name: name(text)?,
        part,
    })
}

fn zone(min_thermal: i64, failsafe: i64) -> ItemPart
    ensures { result ≡ zone_of min_thermal failsafe }
{
    ItemPart::Zone(ZoneSetting {
        min_thermal: Milli(min_thermal),
        failsafe: Milli(failsafe),
    })
}

fn control(
    alloc: Global,
    setting: Setting,
    zone: &str,
    inputs: Names,
    outputs: Names,
) -> Result<ItemPart, Fail>
    ensures { IfOk result (λ part. part ≡ control_of setting zone.now inputs outputs) }
{
    let zone = name(zone)?;
    let item = ControlItem {
        setting,
        zone,
        inputs,
        outputs,
    };
    Ok(ItemPart::Control(Shared::new(alloc, item)?))
}

fn pid(class: PidClass, setpoint: i64, p: i64, ff_gain: i64) -> Setting
    ensures { result ≡ pid_of class setpoint p ff_gain }
{
    Setting::Pid(PidSetting {
        class,
        setpoint: Milli(setpoint),
        p,
        i: 0,
        d: 0,
        ff_gain,
        ff_off: Milli(0),
        i_min: Milli(0),
        i_max: Milli(0),
        out_min: Milli(0),
        out_max: Milli(100_000),
        slew_neg: Milli(0),
        slew_pos: Milli(0),
    })
}

fn stair(reading: i64, output: i64) -> StepRow
    ensures { result ≡ row_of reading output }
{
    StepRow {
        reading: Milli(reading),
        output: Milli(output),
    }
}

fn stairs() -> Setting
    ensures { result ≡ stairs }
{
    let mut rows = [stair(0, 0); 20];
    rows[0] = stair(20_000, 10_000);
    rows[1] = stair(40_000, 50_000);
    Setting::Stepwise(StepSetting {
        rows,
        count: 2,
        positive: Milli(0),
        negative: Milli(0),
    })
}

// The zones and the fans.
fn parts(alloc: Global, first: u32) -> Result<Vec<Item>, Fail>
    requires { first < 2 ^ 31 }
    ensures { IfOk result (λ items. items.items ≡ take 5 (machine first)) }
{
    let items = vec![in alloc;
        item(first, "cpu", zone(3_000, 15_000))?,
        item(first + 1, "disk", zone(2_000, 75_000))?,
        item(first + 2, "fan 1", ItemPart::Fan)?,
        item(first + 3, "fan 2", ItemPart::Fan)?,
        item(first + 4, "fan 3", ItemPart::Fan)?,
    ]?;
    Ok(items)
}

// The controllers of the zone of the processor.
fn cpu_controls(alloc: Global, first: u32) -> Result<Vec<Item>, Fail>
    requires { first < 2 ^ 31 }
    ensures { IfOk result (λ items. items.items ≡ take 2 (drop 5 (machine first))) }
{
    let fan = pid(PidClass::Fan, 0, 500_000, 1_000_000);
    let temp = pid(PidClass::Temp, 30_000, -1_000_000, 0);
    let tach = one(alloc, "tach 1")?;
    let temps = two(alloc, "inlet", "die")?;
    let fan = control(alloc, fan, "cpu", tach, one(alloc, "fan 1")?)?;
    let temp = control(alloc, temp, "cpu", temps, Names::new(alloc))?;
    let items = vec![in alloc; item(first + 5, "a", fan)?, item(first + 6, "b", temp)?]?;
    Ok(items)
}

// The controllers of the zone of the disks.
fn disk_controls(alloc: Global, first: u32) -> Result<Vec<Item>, Fail>
    requires { first < 2 ^ 31 }
    ensures { IfOk result (λ items. items.items ≡ drop 7 (machine first)) }
{
    let margin = pid(PidClass::Margin, 10_000, 1_000_000, 0);
    let fan = pid(PidClass::Fan, 0, 500_000, 1_000_000);
    let inlet = one(alloc, "inlet")?;
    let stairs = control(alloc, stairs(), "disk", inlet, Names::new(alloc))?;
    let margins = one(alloc, "margin")?;
    let margin = control(alloc, margin, "disk", margins, Names::new(alloc))?;
    let tachs = two(alloc, "tach 2", "tach 1")?;
    let fan = control(alloc, fan, "disk", tachs, two(alloc, "fan 2", "fan 1")?)?;
    let items = vec![in alloc;
        item(first + 7, "c", stairs)?,
        item(first + 8, "d", margin)?,
        item(first + 9, "e", fan)?,
    ]?;
    Ok(items)
}

fn machine(alloc: Global, first: u32) -> Result<Vec<Item>, Fail>
    requires { first < 2 ^ 31 }
    ensures { IfOk result (λ items. items.items ≡ machine first) }
{
    let mut items = parts(alloc, first)?;
    let mut cpu = cpu_controls(alloc, first)?;
    items.append(&mut cpu)?;
    let mut disk = disk_controls(alloc, first)?;
    items.append(&mut disk)?;
    Ok(items)
}

// References to some items.
fn references<'i>(alloc: Global, items: &'i [Item]) -> Result<Vec<&'i Item>, Fail>
    ensures { IfOk result (λ live. items_of live.items ≡ items.now) }
{
    let mut live = Vec::new(alloc);
    for item in items {
        live.push(item)?;
    }
    Ok(live)
}

// Zones of the machine.
fn first_zones(alloc: Global, sensors: &LiveSensors) -> Result<Zones<AnyBox>, Fail>
    ensures { IfOk result (λ zones. Stays (machine 0) zones) }
{
    let mut zones = no_zones(alloc)?;
    let items = machine(alloc, 0)?;
    let live = references(alloc, &items)?;
    zones.set(&live, sensors);
    Ok(zones)
}

// The same items again: each controller keeps its box, and its age.
fn same_zones<C: Controller>(
    alloc: Global,
    zones: &mut Zones<C>,
    sensors: &LiveSensors,
) -> Result<(), Fail>
    requires { Stays (machine 0) zones.old }
    ensures { Stays (machine 0) zones.new }
{
    let items = machine(alloc, 0)?;
    let live = references(alloc, &items)?;
    zones.set(&live, sensors);
    Ok(())
}

// Zones of another machine, which has the same parts, each with a number that no part of the first one has. So each box is
// unloaded, and then loaded again.
fn next_zones<C: Controller>(
    alloc: Global,
    zones: &mut Zones<C>,
    sensors: &LiveSensors,
) -> Result<(), Fail>
    requires { Stays (machine 0) zones.old }
{
    let items = machine(alloc, 100)?;
    let live = references(alloc, &items)?;
    zones.set(&live, sensors);
    Ok(())
}

// A limit that is not in use.
const UNUSED: Limit = Limit {
    above: false,
    severity: 0,
    value: Milli(0),
    hysteresis: Milli(0),
};

// The setting of a sensor whose values are its raw numbers in thousandths.
fn setting(timeout: u32) -> SensorSetting {
    SensorSetting {
        num: 1,
        den: 1,
        offset: Milli(0),
        timeout,
        limits: [UNUSED; 8],
        count: 0,
    }
}

// Such a sensor.
fn sensor(alloc: Global, timeout: u32) -> Result<ItemPart, Fail>
    ensures { IfOk result IsValidPart }
{
    let setting = setting(timeout);
    if !setting.is_valid() {
        return Err(Fail::from("the setting is not valid"));
    }
    Ok(ItemPart::Sensor(SensorItem {
        bus: None,
        address: None,
        setting: Shared::new(alloc, setting)?,
    }))
}

// The names of the sensors, and after how many ticks a reading is stale.
const SENSORS: [(&str, u32); 5] = [
    ("inlet", 0),
    ("die", 0),
    ("tach 1", 0),
    ("tach 2", 0),
    ("margin", 12),
];

// A sensor item of a name.
fn sensor_item(alloc: Global, text: &str, timeout: u32) -> Result<Item, Fail>
    ensures { IfOk result (λ item. IsValidPart item.part) }
{
    item(0, text, sensor(alloc, timeout)?)
}

fn come(sensors: &mut LiveSensors, alloc: Global, text: &str, timeout: u32) -> Result<(), Fail> {
    sensors.reserve(alloc, 1)?;
    sensors.settle(&[], &[sensor_item(alloc, text, timeout)?]);
    Ok(())
}

fn go(sensors: &mut LiveSensors, alloc: Global, text: &str) -> Result<(), Fail> {
    sensors.settle(&[sensor_item(alloc, text, 0)?], &[]);
    Ok(())
}

fn sensors(alloc: Global) -> Result<LiveSensors, Fail> {
    let mut sensors = LiveSensors::new(alloc)?;
    for (text, timeout) in SENSORS {
        come(&mut sensors, alloc, text, timeout)?;
    }
    Ok(sensors)
}

// What sensors tell before some ticks, each by its place above: a reading in thousandths, or five losses. And what the zones
// and the first two fans show after each of these ticks: whether a zone is in failsafe and its setpoint, and duties.
struct Row {
    told: &'static [(usize, Option<i64>)],
    ticks: u64,
    strict: bool,
    zones: [(bool, i64); 2],
    duties: [i64; 2],
}

fn tell_once(
    sensors: &mut LiveSensors,
    name: &str,
    reading: Option<i64>,
    now: u64,
) -> Result<(), Fail> {
    let Some(slot) = sensors.slot(name) else {
        return Err(Fail::from("there is no such sensor"));
    };
    match reading {
        Some(raw) => {
            sensors.good(slot, raw, now)?;
        }
        None => sensors.lost(slot),
    }
    Ok(())
}

fn tell(sensors: &mut LiveSensors, told: &[(usize, Option<i64>)], now: u64) -> Result<(), Fail> {
    for (place, reading) in told {
        let Some((text, _)) = SENSORS.get(*place) else {
            return Err(Fail::from("there is no such sensor"));
        };
        for _ in 0..5 {
            tell_once(sensors, text, *reading, now)?;
        }
    }
    Ok(())
}

// Whether a zone is in failsafe, and its setpoint.
fn zone_shown<C: Controller>(zones: &Zones<C>, n: usize) -> Option<(bool, Option<i64>)> {
    let row = zones.zone_rows().get(n)?;
    Some((row.failsafe, row.setpoint.map(|setpoint| setpoint.0)))
}

// The duty of a fan.
fn duty_shown<C: Controller>(zones: &Zones<C>, n: usize) -> Option<Option<i64>> {
    let row = zones.fan_rows().get(n)?;
    Some(row.duty.map(|duty| duty.0))
}

fn assert_shown<C: Controller>(rt: &impl Abort, zones: &Zones<C>, row: &Row, now: u64) {
    for (n, (failsafe, setpoint)) in row.zones.iter().enumerate() {
        assert_eq!(rt;
            zone_shown(zones, n),
            Some((*failsafe, Some(*setpoint))),
            "zone {n} at {now}"
        );
    }
    for (n, duty) in row.duties.iter().enumerate() {
        assert_eq!(rt; duty_shown(zones, n), Some(Some(*duty)), "fan {n} at {now}");
    }
    assert_eq!(rt; duty_shown(zones, 2), Some(Some(100_000)));
}

// The ticks of a row, from this one on.
#[tactic(auto, using(crate::proofs::SteadyLemmas::none_bad))]
fn tick<C: Controller>(
    rt: &impl Abort,
    zones: &mut Zones<C>,
    table: &SensorTable,
    row: &Row,
    first: u64,
)
    ensures { (live : List Item) → Stays live zones.old → Stays live zones.new }
{
    for n in 0..row.ticks {
        let now = first.saturating_add(n);
        let good = zones.good_until(table, now).is_some();
        zones.tick(table, now, row.strict, good);
        assert_shown(rt, zones, row, now);
    }
}

// The ticks of some rows, from this one on. Returns the next one.
fn play<C: Controller>(
    rt: &impl Abort,
    zones: &mut Zones<C>,
    sensors: &mut LiveSensors,
    first: u64,
    rows: &[Row],
) -> Result<u64, Fail>
    ensures { (live : List Item) → Stays live zones.old → Stays live zones.new }
{
    let mut now = first;
    for row in rows {
        tell(sensors, row.told, now)?;
        tick(rt, zones, sensors.table(), row, now);
        now = now.saturating_add(row.ticks);
    }
    Ok(now)
}

const ROWS: &[Row] = &[
    Row {
        told: &[
            (0, Some(25_000)),
            (1, Some(50_000)),
            (2, Some(20_000)),
            (3, Some(0)),
            (4, Some(4_000)),
        ],
        ticks: 1,
        strict: false,
        zones: [(false, 20_000), (false, 10_000)],
        duties: [20_000, 5_000],
    },
    // a thermal controller waits for its turn
    Row {
        told: &[(1, Some(60_000))],
        ticks: 1,
        strict: false,
        zones: [(false, 20_000), (false, 10_000)],
        duties: [20_000, 5_000],
    },
    Row {
        told: &[(2, Some(10_000))],
        ticks: 2,
        strict: false,
        zones: [(false, 20_000), (false, 10_000)],
        duties: [25_000, 10_000],
    },
    // the least of two that are positive
    Row {
        told: &[(3, Some(8_000))],
        ticks: 6,
        strict: false,
        zones: [(false, 20_000), (false, 10_000)],
        duties: [25_000, 11_000],
    },
    // the 11th tick
    Row {
        told: &[],
        ticks: 3,
        strict: false,
        zones: [(false, 30_000), (false, 10_000)],
        duties: [40_000, 11_000],
    },
    // the margin is stale
    Row {
        told: &[],
        ticks: 2,
        strict: false,
        zones: [(false, 30_000), (true, 10_000)],
        duties: [40_000, 75_000],
    },
    Row {
        told: &[],
        ticks: 1,
        strict: true,
        zones: [(false, 30_000), (true, 10_000)],
        duties: [40_000, 75_000],
    },
    Row {
        told: &[(4, Some(2_000))],
        ticks: 1,
        strict: true,
        zones: [(false, 30_000), (false, 10_000)],
        duties: [40_000, 11_000],
    },
    // the die has failed
    Row {
        told: &[(1, None)],
        ticks: 1,
        strict: true,
        zones: [(true, 30_000), (false, 10_000)],
        duties: [15_000, 11_000],
    },
    Row {
        told: &[],
        ticks: 2,
        strict: false,
        zones: [(true, 30_000), (false, 10_000)],
        duties: [40_000, 11_000],
    },
    // the 21st tick, by the inlet alone
    Row {
        told: &[],
        ticks: 1,
        strict: false,
        zones: [(true, 3_000), (false, 10_000)],
        duties: [15_000, 11_000],
    },
    Row {
        told: &[(1, Some(40_000))],
        ticks: 1,
        strict: false,
        zones: [(false, 3_000), (false, 10_000)],
        duties: [0, 11_000],
    },
];

// The first tick of the other machine, where no sensor holds the name of the margin.
const NEXT: [Row; 1] = [Row {
    told: &[],
    ticks: 1,
    strict: false,
    zones: [(false, 10_000), (true, 10_000)],
    duties: [10_000, 75_000],
}];

// Plays the rows, with the same items again between them. Returns the next tick.
fn play_rows<C: Controller>(
    rt: &impl Abort,
    alloc: Global,
    zones: &mut Zones<C>,
    sensors: &mut LiveSensors,
) -> Result<u64, Fail>
    requires { Stays (machine 0) zones.old }
    ensures { Stays (machine 0) zones.new }
{
    let now = play(rt, zones, sensors, 1, &ROWS[..8])?;
    same_zones(alloc, zones, sensors)?;
    play(rt, zones, sensors, now, &ROWS[8..])
}

// Plays the row of the other machine.
fn play_next<C: Controller>(
    rt: &impl Abort,
    alloc: Global,
    zones: &mut Zones<C>,
    sensors: &mut LiveSensors,
    now: u64,
) -> Result<(), Fail>
    requires { Stays (machine 0) zones.old }
{
    go(sensors, alloc, "margin")?;
    next_zones(alloc, zones, sensors)?;
    assert_eq!(rt; zone_shown(zones, 1), Some((false, None)));
    assert_eq!(rt; duty_shown(zones, 2), Some(None));
    play(rt, zones, sensors, now, &NEXT)?;
    Ok(())
}

#[test]
fn two_zones(rt: HostRuntime) -> Result<(), Fail> {
    let mut sensors = sensors(rt.alloc())?;
    let mut zones = first_zones(rt.alloc(), &sensors)?;
    assert_eq!(rt; zone_shown(&zones, 0), Some((false, None)));
    let now = play_rows(&rt, rt.alloc(), &mut zones, &mut sensors)?;
    play_next(&rt, rt.alloc(), &mut zones, &mut sensors, now)
}
