use crate::{Limit, ReadingRange, Sensor, SensorSetting, SensorTable};
use bmc_base::Milli;
use std::process::Abort;
use std::test::Fail;

const fn limit(above: bool, value: i64, hysteresis: i64) -> Limit {
    Limit {
        above,
        severity: 1,
        value: Milli(value),
        hysteresis: Milli(hysteresis),
    }
}

// Half of a raw number less a quarter, eight limits in both directions, and a timeout of 20 ticks.
fn eight_limits() -> SensorSetting {
    SensorSetting {
        num: 1,
        den: 2,
        offset: Milli(-250),
        timeout: 20,
        limits: [
            limit(true, 100_000, 5000),
            limit(true, 80_000, 0),
            limit(true, 80_000, 30_000),
            limit(false, -20_000, 10_000),
            limit(false, 0, 0),
            limit(false, 60_000, 25_000),
            limit(true, -20_000, 1),
            limit(false, -1_000_000, 1_000_000),
        ],
        count: 8,
    }
}

// A raw number or a loss, its tick, and what the sensor shows at that tick, with a bit for each
// alarm that is on.
#[derive(Clone, Copy)]
struct Row {
    raw: Option<i64>,
    tick: u64,
    value: Option<i64>,
    is_failed: bool,
    age: Option<u64>,
    is_bad: bool,
    alarms: u8,
}

macro_rules! rows {
    ($($raw:expr, $at:expr => $value:expr, $failed:expr, $age:expr, $bad:expr, $bits:expr;)*) => {
        [$(Row {
            raw: $raw,
            tick: $at,
            value: $value,
            is_failed: $failed,
            age: $age,
            is_bad: $bad,
            alarms: $bits,
        }),*]
    };
}

// What is shown comes from a search through all rows so far, in Python.
const ROWS: &[Row] = &rows! {
    None, 0 => None, false, None, true, 0b0000_0000;
    None, 0 => None, false, None, true, 0b0000_0000;
    None, 0 => None, false, None, true, 0b0000_0000;
    None, 0 => None, false, None, true, 0b0000_0000;
    None, 0 => None, true, None, true, 0b0000_0000;
    None, 0 => None, true, None, true, 0b0000_0000;
    Some(0), 0 => Some(-250), false, Some(0), false, 0b0111_0000;
    Some(-1), 0 => Some(-251), false, Some(0), false, 0b0111_0000;
    Some(1), 0 => Some(-250), false, Some(0), false, 0b0111_0000;
    Some(2), 0 => Some(-249), false, Some(0), false, 0b0111_0000;
    Some(-2), 0 => Some(-251), false, Some(0), false, 0b0111_0000;
    Some(-3), 0 => Some(-252), false, Some(0), false, 0b0111_0000;
    Some(200_500), 1 => Some(100_000), false, Some(0), false, 0b0100_0111;
    Some(200_498), 2 => Some(99_999), false, Some(0), false, 0b0100_0111;
    Some(190_500), 3 => Some(95_000), false, Some(0), false, 0b0100_0111;
    Some(190_498), 4 => Some(94_999), false, Some(0), false, 0b0100_0110;
    Some(200_498), 5 => Some(99_999), false, Some(0), false, 0b0100_0110;
    Some(200_500), 6 => Some(100_000), false, Some(0), false, 0b0100_0111;
    Some(160_500), 7 => Some(80_000), false, Some(0), false, 0b0100_0110;
    Some(160_498), 8 => Some(79_999), false, Some(0), false, 0b0100_0100;
    Some(160_496), 9 => Some(79_998), false, Some(0), false, 0b0100_0100;
    Some(100_500), 10 => Some(50_000), false, Some(0), false, 0b0110_0100;
    Some(100_498), 11 => Some(49_999), false, Some(0), false, 0b0110_0000;
    Some(160_498), 12 => Some(79_999), false, Some(0), false, 0b0110_0000;
    None, 12 => Some(79_999), false, Some(0), false, 0b0110_0000;
    None, 12 => Some(79_999), false, Some(0), false, 0b0110_0000;
    None, 12 => Some(79_999), false, Some(0), false, 0b0110_0000;
    None, 12 => Some(79_999), false, Some(0), false, 0b0110_0000;
    Some(160_500), 13 => Some(80_000), false, Some(0), false, 0b0110_0110;
    None, 13 => Some(80_000), false, Some(0), false, 0b0110_0110;
    None, 13 => Some(80_000), false, Some(0), false, 0b0110_0110;
    None, 13 => Some(80_000), false, Some(0), false, 0b0110_0110;
    None, 13 => Some(80_000), false, Some(0), false, 0b0110_0110;
    None, 13 => Some(80_000), true, Some(0), true, 0b0110_0110;
    None, 16 => Some(80_000), true, Some(3), true, 0b0110_0110;
    Some(100_502), 18 => Some(50_001), false, Some(0), false, 0b0110_0100;
    Some(120_502), 19 => Some(60_001), false, Some(0), false, 0b0110_0100;
    Some(120_500), 20 => Some(60_000), false, Some(0), false, 0b0110_0100;
    Some(170_500), 21 => Some(85_000), false, Some(0), false, 0b0110_0110;
    Some(170_502), 22 => Some(85_001), false, Some(0), false, 0b0100_0110;
    Some(120_498), 23 => Some(59_999), false, Some(0), false, 0b0110_0100;
    Some(170_504), 24 => Some(85_002), false, Some(0), false, 0b0100_0110;
    Some(500), 25 => Some(0), false, Some(0), false, 0b0111_0000;
    Some(502), 26 => Some(1), false, Some(0), false, 0b0110_0000;
    Some(498), 27 => Some(-1), false, Some(0), false, 0b0111_0000;
    Some(502), 28 => Some(1), false, Some(0), false, 0b0110_0000;
    Some(-39_500), 29 => Some(-20_000), false, Some(0), false, 0b0111_1000;
    Some(-39_502), 30 => Some(-20_001), false, Some(0), false, 0b0111_1000;
    Some(-39_498), 31 => Some(-19_999), false, Some(0), false, 0b0111_1000;
    Some(-19_500), 32 => Some(-10_000), false, Some(0), false, 0b0111_1000;
    Some(-19_498), 33 => Some(-9_999), false, Some(0), false, 0b0111_0000;
    Some(-39_496), 34 => Some(-19_998), false, Some(0), false, 0b0111_0000;
    Some(-39_502), 35 => Some(-20_001), false, Some(0), false, 0b0111_1000;
    Some(-39_504), 36 => Some(-20_002), false, Some(0), false, 0b0011_1000;
    None, 55 => Some(-20_002), false, Some(19), false, 0b0011_1000;
    None, 56 => Some(-20_002), false, Some(20), false, 0b0011_1000;
    None, 57 => Some(-20_002), false, Some(21), true, 0b0011_1000;
    Some(-41_500), 57 => Some(-21_000), false, Some(0), false, 0b0011_1000;
    Some(-1_999_502), 58 => Some(-1_000_001), false, Some(0), false, 0b1011_1000;
    Some(-1_999_500), 59 => Some(-1_000_000), false, Some(0), false, 0b1011_1000;
    Some(496), 60 => Some(-2), false, Some(0), false, 0b1111_0000;
    Some(500), 61 => Some(0), false, Some(0), false, 0b1111_0000;
    Some(502), 62 => Some(1), false, Some(0), false, 0b0110_0000;
    Some(1_000_000_000), 62 => Some(499_999_750), false, Some(0), false, 0b0100_0111;
    Some(-1_000_000_000), 62 => Some(-500_000_250), false, Some(0), false, 0b1011_1000;
    Some(200_502), 63 => Some(100_001), false, Some(0), false, 0b0100_0111;
    Some(190_496), 64 => Some(94_998), false, Some(0), false, 0b0100_0110;
    Some(60_500), 65 => Some(30_000), false, Some(0), false, 0b0110_0000;
    Some(-59_500), 66 => Some(-30_000), false, Some(0), false, 0b0011_1000;
    None, 66 => Some(-30_000), false, Some(0), false, 0b0011_1000;
    None, 66 => Some(-30_000), false, Some(0), false, 0b0011_1000;
    None, 66 => Some(-30_000), false, Some(0), false, 0b0011_1000;
    None, 66 => Some(-30_000), false, Some(0), false, 0b0011_1000;
    None, 96 => Some(-30_000), true, Some(30), true, 0b0011_1000;
    Some(180_500), 101 => Some(90_000), false, Some(0), false, 0b0100_0110;
};

fn assert_alarms(rt: &impl Abort, sensor: &Sensor, bits: u8, row: usize) {
    let all = sensor.all_alarms();
    for n in 0..8 {
        let on = bits >> n & 1 == 1;
        assert_eq!(rt; sensor.alarm(n), on, "alarm {n} in row {row}");
        assert_eq!(rt; all[usize::from(n)], on, "alarm {n} of all in row {row}");
    }
    assert!(rt; !sensor.alarm(8) && !sensor.alarm(255));
}

#[test]
fn outcomes_in_turn(rt: HostRuntime) {
    let setting = eight_limits();
    assert!(rt; setting.is_valid());
    let mut sensor = Sensor::new(setting);
    assert_eq!(rt; sensor.alarms().len(), 8);
    for (number, row) in ROWS.iter().enumerate() {
        let before = (sensor.is_failed(), sensor.all_alarms());
        match row.raw {
            Some(raw) => {
                let otherwise = sensor.good(raw, row.tick);
                let after = (sensor.is_failed(), sensor.all_alarms());
                assert_eq!(rt; otherwise, Ok(after != before), "in row {number}");
            }
            None => sensor.lost(),
        }
        let value = sensor.value().map(|value| value.0);
        assert_eq!(rt; value, row.value, "in row {number}");
        assert_eq!(rt; sensor.is_failed(), row.is_failed, "in row {number}");
        assert_eq!(rt; sensor.age(row.tick), row.age, "in row {number}");
        assert_eq!(rt; sensor.is_bad(row.tick), row.is_bad, "in row {number}");
        assert_alarms(&rt, &sensor, row.alarms, number);
    }
}

// A setting with these numbers, of which no limit is in use.
fn scale(num: i64, den: i64, offset: i64) -> SensorSetting {
    SensorSetting {
        num,
        den,
        offset: Milli(offset),
        timeout: 0,
        limits: [limit(true, 0, 0); 8],
        count: 0,
    }
}

#[test]
fn good_until_the_timeout_passes(rt: HostRuntime) {
    let setting = eight_limits();
    assert!(rt; setting.is_valid());
    let mut sensor = Sensor::new(setting);
    assert_eq!(rt; sensor.good_until(0), None);
    assert!(rt; sensor.good(1, 10).is_ok());
    assert_eq!(rt; sensor.good_until(10), Some(30));
    assert_eq!(rt; sensor.good_until(30), Some(30));
    assert_eq!(rt; sensor.good_until(31), None);
    assert!(rt; sensor.good(1, u64::MAX - 20).is_ok());
    assert_eq!(rt; sensor.good_until(u64::MAX), Some(u64::MAX));
    for _ in 0..5 {
        sensor.lost();
    }
    assert_eq!(rt; sensor.good_until(u64::MAX - 20), None);
    let setting = scale(1, 1, 0);
    assert!(rt; setting.is_valid());
    let mut timeless = Sensor::new(setting);
    assert_eq!(rt; timeless.good(1, 10), Ok(false));
    assert_eq!(rt; timeless.good_until(0), Some(u64::MAX));
}

#[test]
fn raw_numbers_have_values(rt: HostRuntime) {
    let rows = &[
        (1, 1, 0, 41_000, Ok(41_000)),
        (1000, 1, 0, 2000, Ok(2_000_000)),
        (1, 1, 50, 0, Ok(50)),
        (7, 3, 0, -1, Ok(-3)),
        (-7, 3, 0, 1, Ok(-3)),
        (-7, 3, 0, -1, Ok(2)),
        (7, 3, -5, 2, Ok(-1)),
        (1, 1_000_000, 0, -1, Ok(-1)),
        (1, 1_000_000, 0, -1_000_000, Ok(-1)),
        (1, 1_000_000, 0, -1_000_001, Ok(-2)),
        (0, 9, -1, -1_000_000_000, Ok(-1)),
        (
            1_000_000,
            1,
            1_000_000_000,
            1_000_000_000,
            Ok(1_000_001_000_000_000),
        ),
        (
            1_000_000,
            1,
            -1_000_000_000,
            -1_000_000_000,
            Ok(-1_000_001_000_000_000),
        ),
        (-1_000_000, 1_000_000, 0, 999_999_999, Ok(-999_999_999)),
        (1, 1, 0, 1_000_000_001, Err(ReadingRange)),
        (1, 1, 0, -1_000_000_001, Err(ReadingRange)),
        (1, 1, 0, i64::MAX, Err(ReadingRange)),
        (1, 1, 0, i64::MIN, Err(ReadingRange)),
    ];
    for &(num, den, offset, raw, wanted) in rows {
        let setting = scale(num, den, offset);
        assert!(rt; setting.is_valid());
        let mut sensor = Sensor::new(setting);
        sensor.lost();
        assert_eq!(rt; sensor.good(raw, 7), wanted.map(|_| false), "at {raw}");
        assert_eq!(rt;
            sensor.value().map(|value| value.0),
            wanted.ok(),
            "at {raw}"
        );
        assert_eq!(rt; sensor.setting().num, num);
    }
}

// A number of a setting or of its first limit, and what it is set to.
#[derive(Clone, Copy, Debug)]
enum Number {
    Num(i64),
    Den(i64),
    Offset(i64),
    Timeout(u32),
    Count(u8),
    Severity(u8),
    Value(i64),
    Hysteresis(i64),
}

fn with_number(number: Number) -> SensorSetting {
    let mut setting = eight_limits();
    match number {
        Number::Num(num) => setting.num = num,
        Number::Den(den) => setting.den = den,
        Number::Offset(offset) => setting.offset = Milli(offset),
        Number::Timeout(timeout) => setting.timeout = timeout,
        Number::Count(count) => setting.count = count,
        Number::Severity(severity) => setting.limits[7].severity = severity,
        Number::Value(value) => setting.limits[7].value = Milli(value),
        Number::Hysteresis(hysteresis) => setting.limits[7].hysteresis = Milli(hysteresis),
    }
    setting
}

#[test]
fn settings_are_valid(rt: HostRuntime) {
    use Number::*;
    let good = &[
        Num(1_000_000),
        Num(-1_000_000),
        Den(1),
        Den(1_000_000),
        Offset(1_000_000_000),
        Offset(-1_000_000_000),
        Timeout(1_000_000),
        Count(0),
        Severity(0),
        Value(1_000_000_000),
        Value(-1_000_000_000),
        Hysteresis(1_000_000_000),
    ];
    for &number in good {
        assert!(rt; with_number(number).is_valid(), "at {number:?}");
    }
    let bad = &[
        Num(1_000_001),
        Num(-1_000_001),
        Den(0),
        Den(-1),
        Den(1_000_001),
        Offset(1_000_000_001),
        Offset(i64::MIN),
        Timeout(1_000_001),
        Count(9),
        Severity(2),
        Value(1_000_000_001),
        Value(i64::MIN),
        Hysteresis(-1),
        Hysteresis(1_000_000_001),
    ];
    for &number in bad {
        assert!(rt; !with_number(number).is_valid(), "at {number:?}");
    }
    // A limit that is not in use may be any.
    let mut setting = with_number(Severity(2));
    setting.count = 7;
    assert!(rt; setting.is_valid());
    let mut sensor = Sensor::new(setting);
    assert_eq!(rt; sensor.good(-1_000_000_000, 0), Ok(true));
    assert_alarms(&rt, &sensor, 0b0011_1000, 0);
}

// What the sensor in a slot shows: its value, and whether it failed.
fn shown(table: &SensorTable, slot: usize) -> Option<(Option<i64>, bool)> {
    let sensor = table.get(slot)?;
    Some((sensor.value().map(|value| value.0), sensor.is_failed()))
}

#[test]
fn sensors_by_slot(rt: HostRuntime) -> Result<(), Fail> {
    let setting = scale(1, 1, 0);
    assert!(rt; setting.is_valid());
    let mut table = SensorTable::new(rt.alloc())?;
    let first = table.put(Sensor::new(setting));
    table.reserve(rt.alloc(), 20)?;
    let second = table.put(Sensor::new(setting));
    assert!(rt; table.get(first).is_some() && table.get(second).is_some());
    assert_eq!(rt; table.good_at(first, 5, 1), Ok(false));
    for _ in 0..5 {
        assert!(rt; table.get(second).is_some());
        table.lost_at(second);
    }
    assert_eq!(rt; shown(&table, first), Some((Some(5), false)));
    assert_eq!(rt; shown(&table, second), Some((None, true)));
    assert!(rt; table.get(second).is_some());
    assert_eq!(rt; table.good_at(second, 1_000_000_001, 1), Err(ReadingRange));
    assert_eq!(rt; shown(&table, second), Some((None, true)));
    assert!(rt; table.get(first).is_some());
    let taken = table.take(first);
    assert_eq!(rt; taken.value().map(|value| value.0), Some(5));
    assert_eq!(rt; shown(&table, first), None);
    assert_eq!(rt; shown(&table, second), Some((None, true)));
    let third = table.put(Sensor::new(setting));
    assert_eq!(rt; shown(&table, third), Some((None, false)));
    assert_eq!(rt; shown(&table, 1000), None);
    Ok(())
}
