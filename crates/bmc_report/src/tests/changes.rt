use crate::{Change, LiveKind, Refusal, change_text, push_change};
use bmc_base::{Milli, Name, Place};
use fru_area::Area;
use std::alloc::Global;
use std::fmt::Write;
use std::process::Abort;
use std::test::Fail;

// A change is printed as this text at each tick, and so is its copy.
fn assert_printed(rt: &impl Abort, alloc: Global, change: &Change, text: &str) -> Result<(), Fail> {
    for tick in ["0", "18446744073709551615"] {
        let mut line = String::new(alloc);
        write!(line, "{tick} {text}\n")?;
        let tick = tick.parse::<u64>()?;
        let mut out = String::from_str(alloc, "before ")?;
        push_change(&mut out, tick, change)?;
        assert_eq!(rt; out.strip_prefix("before "), Some(line.as_str()));
        assert_eq!(rt;
            change_text(alloc, tick, &change.copied())?.as_str(),
            line.as_str()
        );
    }
    Ok(())
}

#[test]
fn boards(rt: HostRuntime) -> Result<(), Fail> {
    let rows = &[
        (
            true,
            "R",
            1,
            Place::new(1, 80),
            "gone board \"R\" 1 at 1 80",
        ),
        (false, "R", 2, Place::new(0, 0), "new board \"R\" 2 at 0 0"),
        (false, "Any", 1, None, "new board \"Any\" 1"),
        (true, "Any", 1, None, "gone board \"Any\" 1"),
        (
            false,
            "~ a b !",
            u32::MAX,
            Place::new(255, 127),
            "new board \"~ a b !\" 4294967295 at 255 127",
        ),
        (
            true,
            "a\"b\\c \n\u{7f}\u{e9}\u{20ac}",
            7,
            None,
            "gone board \"a\\\"b\\\\c \\x0a\\x7f\u{e9}\u{20ac}\" 7",
        ),
        (false, "\u{e9}", 1, None, "new board \"\u{e9}\" 1"),
    ];
    for &(gone, name, index, place, text) in rows {
        let name = Name::new(name)?;
        assert_printed(
            &rt,
            rt.alloc(),
            &Change::Board {
                gone,
                name,
                index,
                place,
            },
            text,
        )?;
    }
    Ok(())
}

#[test]
fn live_items(rt: HostRuntime) -> Result<(), Fail> {
    let rows = &[
        (true, LiveKind::Sensor, "T", "gone sensor \"T\""),
        (
            false,
            LiveKind::Sensor,
            "Card 1 Temp",
            "new sensor \"Card 1 Temp\"",
        ),
        (true, LiveKind::Zone, "Z", "gone zone \"Z\""),
        (false, LiveKind::Zone, "a\"b", "new zone \"a\\\"b\""),
        (true, LiveKind::Fan, "Fan 1", "gone fan \"Fan 1\""),
        (false, LiveKind::Fan, "\u{e9}", "new fan \"\u{e9}\""),
        (true, LiveKind::Controller, "FP", "gone controller \"FP\""),
        (false, LiveKind::Controller, "TP", "new controller \"TP\""),
    ];
    for &(gone, kind, name, text) in rows {
        let name = Name::new(name)?;
        assert_printed(&rt, rt.alloc(), &Change::Item { gone, kind, name }, text)?;
    }
    Ok(())
}

#[test]
fn stale_readings(rt: HostRuntime) -> Result<(), Fail> {
    let rows = &[
        ("X", "stale read \"X\""),
        ("Riser 1 Temp", "stale read \"Riser 1 Temp\""),
        ("a\\b", "stale read \"a\\\\b\""),
    ];
    for &(name, text) in rows {
        let name = Name::new(name)?;
        assert_printed(&rt, rt.alloc(), &Change::Stale { name }, text)?;
    }
    Ok(())
}

#[test]
fn failures(rt: HostRuntime) -> Result<(), Fail> {
    let rows = &[
        (true, "T", "failed sensor \"T\""),
        (false, "T", "working sensor \"T\""),
        (true, "\u{1f}", "failed sensor \"\\x1f\""),
    ];
    for &(failed, name, text) in rows {
        let name = Name::new(name)?;
        assert_printed(&rt, rt.alloc(), &Change::Failure { failed, name }, text)?;
    }
    Ok(())
}

#[test]
fn alarms(rt: HostRuntime) -> Result<(), Fail> {
    let rows = &[
        (true, "T", 0, true, true, "alarm on \"T\" 0 high critical"),
        (false, "T", 0, true, true, "alarm off \"T\" 0 high critical"),
        (true, "T", 1, true, false, "alarm on \"T\" 1 high warning"),
        (false, "T", 2, true, false, "alarm off \"T\" 2 high warning"),
        (true, "T", 3, false, true, "alarm on \"T\" 3 low critical"),
        (false, "T", 4, false, true, "alarm off \"T\" 4 low critical"),
        (
            true,
            "CPU Temp",
            7,
            false,
            false,
            "alarm on \"CPU Temp\" 7 low warning",
        ),
        (
            false,
            "a\"b",
            6,
            false,
            false,
            "alarm off \"a\\\"b\" 6 low warning",
        ),
    ];
    for &(on, name, position, high, critical, text) in rows {
        let name = Name::new(name)?;
        assert_printed(
            &rt,
            rt.alloc(),
            &Change::Alarm {
                on,
                name,
                position,
                high,
                critical,
            },
            text,
        )?;
    }
    Ok(())
}

#[test]
fn zones(rt: HostRuntime) -> Result<(), Fail> {
    let rows = &[
        (true, "Z", "failsafe zone \"Z\""),
        (false, "Z", "normal zone \"Z\""),
        (false, "Zone \"1\"", "normal zone \"Zone \\\"1\\\"\""),
    ];
    for &(failsafe, name, text) in rows {
        let name = Name::new(name)?;
        assert_printed(&rt, rt.alloc(), &Change::Zone { failsafe, name }, text)?;
    }
    Ok(())
}

#[test]
fn duties(rt: HostRuntime) -> Result<(), Fail> {
    let rows = &[
        ("Fan 1", 20_000, "duty fan \"Fan 1\" 20.000"),
        ("Fan 1", 80_001, "duty fan \"Fan 1\" 80.001"),
        ("F", 100_000, "duty fan \"F\" 100.000"),
        ("F", 0, "duty fan \"F\" 0.000"),
        ("F", -20, "duty fan \"F\" -0.020"),
        ("F", i64::MAX, "duty fan \"F\" 9223372036854775.807"),
    ];
    for &(name, duty, text) in rows {
        let (name, duty) = (Name::new(name)?, Milli(duty));
        assert_printed(&rt, rt.alloc(), &Change::Duty { name, duty }, text)?;
    }
    Ok(())
}

#[test]
fn refused_plugs(rt: HostRuntime) -> Result<(), Fail> {
    let rows = &[
        (1, 80, Refusal::Occupied, "refused plug 1 80 Occupied"),
        (0, 127, Refusal::FruShort, "refused plug 0 127 FruShort"),
        (
            255,
            0,
            Refusal::AreaChecksum(Area::Board),
            "refused plug 255 0 AreaChecksum Board",
        ),
        (
            16,
            81,
            Refusal::NoEnd(Area::Product),
            "refused plug 16 81 NoEnd Product",
        ),
        (2, 3, Refusal::BoardLimit, "refused plug 2 3 BoardLimit"),
    ];
    for &(bus, address, refusal, text) in rows {
        let place = Place::new(bus, address).ok_or("no place")?;
        assert_printed(
            &rt,
            rt.alloc(),
            &Change::PlugRefused { place, refusal },
            text,
        )?;
    }
    Ok(())
}
