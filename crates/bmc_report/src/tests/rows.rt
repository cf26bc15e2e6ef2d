use crate::{
    Change, ItemRow, Refusal, SensorRow, push_board_row, push_fan_row, push_fru_row,
    push_index_row, push_item_row, push_log_row, push_sensor_row, push_zone_row,
};
use bmc_base::{Milli, Name, Place};
use fru_area::{Area, Field, FieldName, FieldText};
use std::test::Fail;

#[test]
fn frus(rt: HostRuntime) -> Result<(), Fail> {
    let mut out = String::new(rt.alloc());
    let place = Place::new(255, 0).ok_or("no place")?;
    push_fru_row(&mut out, place, &[])?;
    let text = FieldText::new("a\"b\\c \u{0}\u{1f}\u{7f}\u{80}\u{20ac}").ok_or("too long")?;
    let fields = [
        Field {
            name: FieldName::BoardPartNumber,
            text,
        },
        Field {
            name: FieldName::Custom(Area::Board, 12),
            text: FieldText::new("").ok_or("too long")?,
        },
    ];
    push_fru_row(&mut out, place, &fields)?;
    assert_eq!(rt;
        out.as_str(),
        "fru 255 0\nfru 255 0 BOARD_PART_NUMBER=\"a\\\"b\\\\c \\x00\\x1f\\x7f\u{80}\u{20ac}\" BOARD_INFO_AM12=\"\"\n"
    );
    Ok(())
}

#[test]
fn boards(rt: HostRuntime) -> Result<(), Fail> {
    let rows = &[
        ("N", 2, Place::new(1, 79), "board \"N\" 2 at 1 79\n"),
        ("Any", 1, None, "board \"Any\" 1\n"),
        (
            "a\"\\\u{e9}",
            u32::MAX,
            Place::new(255, 127),
            "board \"a\\\"\\\\\u{e9}\" 4294967295 at 255 127\n",
        ),
    ];
    for &(name, index, place, text) in rows {
        let name = Name::new(name)?;
        let mut out = String::new(rt.alloc());
        push_board_row(&mut out, &name, index, place)?;
        assert_eq!(rt; out.as_str(), text);
    }
    Ok(())
}

#[test]
fn indexes(rt: HostRuntime) -> Result<(), Fail> {
    let rows = &[
        ("N", 1, Place::new(1, 82), "index \"N\" 1 at 1 82\n"),
        ("Box", 1, None, "index \"Box\" 1\n"),
        (
            "\u{0}",
            u32::MAX,
            Place::new(0, 0),
            "index \"\\x00\" 4294967295 at 0 0\n",
        ),
    ];
    for &(name, index, place, text) in rows {
        let name = Name::new(name)?;
        let mut out = String::new(rt.alloc());
        push_index_row(&mut out, &name, index, place)?;
        assert_eq!(rt; out.as_str(), text);
    }
    Ok(())
}

// Kind, name, bus, address, whether it is live, and the row.
const ITEMS: &[(&str, &str, Option<u8>, Option<u8>, bool, &str)] = &[
    (
        "Sensor",
        "S 4",
        None,
        None,
        true,
        "  \"Sensor\" \"S 4\" live\n",
    ),
    (
        "Sensor",
        "Riser 1 Temp",
        Some(1),
        Some(76),
        true,
        "  \"Sensor\" \"Riser 1 Temp\" bus 1 address 76 live\n",
    ),
    (
        "Sensor",
        "X",
        Some(255),
        Some(127),
        false,
        "  \"Sensor\" \"X\" bus 255 address 127\n",
    ),
    (
        "Sensor",
        "X",
        Some(0),
        None,
        false,
        "  \"Sensor\" \"X\" bus 0\n",
    ),
    (
        "Sensor",
        "X",
        None,
        Some(0),
        true,
        "  \"Sensor\" \"X\" address 0 live\n",
    ),
    (
        "Pid.Zone",
        "Z",
        None,
        None,
        true,
        "  \"Pid.Zone\" \"Z\" live\n",
    ),
    (
        "EEPROM",
        "PSU 1 EEPROM",
        None,
        None,
        false,
        "  \"EEPROM\" \"PSU 1 EEPROM\"\n",
    ),
    ("a\"", "\\b", None, None, false, "  \"a\\\"\" \"\\\\b\"\n"),
];

#[test]
fn items(rt: HostRuntime) -> Result<(), Fail> {
    for &(kind, name, bus, address, live, text) in ITEMS {
        let (kind, name) = (Name::new(kind)?, Name::new(name)?);
        let row = ItemRow {
            kind: &kind,
            name: &name,
            bus,
            address,
            live,
        };
        let mut out = String::new(rt.alloc());
        push_item_row(&mut out, &row)?;
        assert_eq!(rt; out.as_str(), text);
    }
    Ok(())
}

// Name, value, whether it failed, age, alarms, and the row.
const SENSORS: &[(&str, Option<Milli>, bool, Option<u64>, &[bool], &str)] = &[
    (
        "Card 2 Temp",
        None,
        false,
        None,
        &[],
        "sensor \"Card 2 Temp\" none ok -\n",
    ),
    (
        "X",
        Some(Milli(41_000)),
        false,
        Some(0),
        &[false, false],
        "sensor \"X\" 41.000 ok 0\n",
    ),
    (
        "T",
        None,
        true,
        None,
        &[false],
        "sensor \"T\" none failed -\n",
    ),
    (
        "T",
        Some(Milli(100)),
        false,
        Some(1),
        &[true],
        "sensor \"T\" 0.100 ok 1 0\n",
    ),
    (
        "T",
        Some(Milli(-1)),
        true,
        Some(36_000),
        &[true, false, false, false, false, false, false, true],
        "sensor \"T\" -0.001 failed 36000 0 7\n",
    ),
    (
        "a\"b",
        Some(Milli(i64::MIN)),
        false,
        Some(u64::MAX),
        &[true; 8],
        "sensor \"a\\\"b\" -9223372036854775.808 ok 18446744073709551615 0 1 2 3 4 5 6 7\n",
    ),
    (
        "T",
        Some(Milli(95_050)),
        false,
        Some(20),
        &[false, true, false, false, true, false, true],
        "sensor \"T\" 95.050 ok 20 1 4 6\n",
    ),
    (
        "T",
        Some(Milli(95_050)),
        false,
        Some(20),
        &[
            false, false, false, false, false, false, false, false, false, false, true,
        ],
        "sensor \"T\" 95.050 ok 20 10\n",
    ),
];

#[test]
fn sensors(rt: HostRuntime) -> Result<(), Fail> {
    for &(name, value, failed, age, alarms, text) in SENSORS {
        let name = Name::new(name)?;
        let row = SensorRow {
            name: &name,
            value,
            failed,
            age,
            alarms,
        };
        let mut out = String::new(rt.alloc());
        push_sensor_row(&mut out, &row)?;
        assert_eq!(rt; out.as_str(), text);
    }
    Ok(())
}

#[test]
fn zones(rt: HostRuntime) -> Result<(), Fail> {
    let rows = &[
        (
            "Z",
            true,
            Some(Milli(2_000_000)),
            "zone \"Z\" failsafe 2000.000\n",
        ),
        (
            "Z",
            false,
            Some(Milli(-1_500)),
            "zone \"Z\" normal -1.500\n",
        ),
        ("Z", true, None, "zone \"Z\" failsafe none\n"),
        ("\\", false, None, "zone \"\\\\\" normal none\n"),
    ];
    for &(name, failsafe, setpoint, text) in rows {
        let name = Name::new(name)?;
        let mut out = String::new(rt.alloc());
        push_zone_row(&mut out, &name, failsafe, setpoint)?;
        assert_eq!(rt; out.as_str(), text);
    }
    Ok(())
}

#[test]
fn fans(rt: HostRuntime) -> Result<(), Fail> {
    let rows = &[
        ("Fan 1", Some(Milli(80_000)), "fan \"Fan 1\" 80.000\n"),
        ("F", Some(Milli(100_000)), "fan \"F\" 100.000\n"),
        ("F", Some(Milli(9)), "fan \"F\" 0.009\n"),
        ("\u{e9}", None, "fan \"\u{e9}\" none\n"),
    ];
    for &(name, duty, text) in rows {
        let name = Name::new(name)?;
        let mut out = String::new(rt.alloc());
        push_fan_row(&mut out, &name, duty)?;
        assert_eq!(rt; out.as_str(), text);
    }
    Ok(())
}

#[test]
fn log_entries(rt: HostRuntime) -> Result<(), Fail> {
    let alarm = Change::Alarm {
        on: true,
        name: Name::new("T")?,
        position: 0,
        high: true,
        critical: true,
    };
    let plug = Change::PlugRefused {
        place: Place::new(1, 80).ok_or("no place")?,
        refusal: Refusal::AreaChecksum(Area::Board),
    };
    let rows = &[
        (
            4,
            true,
            0,
            &alarm,
            "log 4 error 0 alarm on \"T\" 0 high critical\n",
        ),
        (
            1,
            false,
            36_000,
            &alarm,
            "log 1 info 36000 alarm on \"T\" 0 high critical\n",
        ),
        (
            u64::MAX,
            true,
            u64::MAX,
            &plug,
            "log 18446744073709551615 error 18446744073709551615 refused plug 1 80 AreaChecksum Board\n",
        ),
    ];
    for &(id, error, tick, change, text) in rows {
        let mut out = String::new(rt.alloc());
        push_log_row(&mut out, id, error, tick, change)?;
        assert_eq!(rt; out.as_str(), text);
    }
    Ok(())
}
