use crate::cases::{Shape, play_cases};
use crate::play::Part::{self, Config, Many, Repeats, Text};
use crate::play::{ALWAYS, Row, play, play_rows, script_of};
use bmc_base::OutOfMemory;
use bmc_replay::Status::{Done, Refused};
use std::alloc::Global;
use std::test::Fail;

// What a document begins with that is always found, and others that find each FRU; a sensor, a zone and a fan with a
// comma, and what stands behind the last expose.
const ALWAYS_HEAD: &str = r#"{"Name":"T","Probe":"TRUE","Exposes":["#;

const EACH_HEAD: &str = r#"{"Name":"E","Probe":"xyz.openbmc_project.FruDevice({})","Exposes":["#;

const EACH_AS_D_HEAD: &str =
    r#"{"Name":"D","Probe":"xyz.openbmc_project.FruDevice({})","Exposes":["#;

const SENSOR: &str = r#"{"Name":"S","Type":"Sensor"},"#;

const ZONE: &str = r#"{"Name":"Z","Type":"Pid.Zone","MinThermalOutput":0,"FailSafePercent":100},"#;

const FAN: &str = r#"{"Name":"F$index","Type":"Fan"},"#;

const NAMELESS: &str = r#"{"Name":"$PRODUCT_VERSION","Type":"Fan"},"#;

const ZONE_AND_FANS: &str =
    r#"{"Name":"Z","Type":"Pid.Zone","MinThermalOutput":0,"FailSafePercent":100},
    {"Name":"F","Type":"Fan"},{"Name":"F","Type":"Fan"},{"Name":"F","Type":"Fan"},{"Name":"F","Type":"Fan"},"#;

const LAST: &str = r#"{"Name":"x","Type":"x"}]}"#;

// Documents with another name that are always found: with a fan, and with a zone.
const ONE_FAN: &str = r#"{"Name":"G","Probe":"TRUE","Exposes":[{"Name":"G","Type":"Fan"}]}"#;

const ONE_ZONE: &str = r#"{"Name":"Y","Probe":"TRUE","Exposes":[
    {"Name":"Y","Type":"Pid.Zone","MinThermalOutput":0,"FailSafePercent":100}]}"#;

const CONFIGURATIONS: &str = r#"
== zones: as many as may be, and one more in the same configuration and in another one
repeat 32 ALWAYS_HEAD ZONE
block ONE_ZONE
-> Refused
0 new board "T" 1
0 new zone "Z"
line 2 refused ZoneLimit
== more
repeat 33 ALWAYS_HEAD ZONE
repeat 31 ALWAYS_HEAD ZONE
block ONE_ZONE
-> Refused
line 1 refused ZoneLimit
0 new board "T" 1
0 new zone "Z"
0 new board "Y" 1
0 new zone "Y"
== fans
repeat 128 ALWAYS_HEAD FAN
block ONE_FAN
-> Refused
0 new board "T" 1
0 new fan "F1"
line 2 refused FanLimit
== more
repeat 129 ALWAYS_HEAD FAN
repeat 127 ALWAYS_HEAD FAN
block ONE_FAN
-> Refused
line 1 refused FanLimit
0 new board "T" 1
0 new fan "F1"
0 new board "G" 1
0 new fan "G"
== exposes without a name count
repeat 128 ALWAYS_HEAD NAMELESS
block ONE_FAN
block ONE_ZONE
-> Refused
0 new board "T" 1
line 2 refused FanLimit
0 new board "Y" 1
0 new zone "Y"
== both at their limits, and zones before fans
repeat 33 ALWAYS_HEAD ZONE_AND_FANS
repeat 32 ALWAYS_HEAD ZONE_AND_FANS
block ONE_FAN
block ONE_ZONE
-> Refused
line 1 refused ZoneLimit
0 new board "T" 1
0 new zone "Z"
0 new fan "F"
line 3 refused FanLimit
line 4 refused ZoneLimit
== a name that was given, a number of configurations and a plug before come first
block {"Name":"T","Probe":"TRUE"}
repeat 33 ALWAYS_HEAD ZONE
plug 1 80 $
repeat 33 EACH_HEAD ZONE
-> Refused
0 new board "T" 1
line 2 refused DuplicateName
line 4 refused ConfigAfterPlug
fru 1 80$
"#;

// More of them, which are made of parts.
const CONFIGURATIONS_BY_PARTS: &[Row] = &[
    // a configuration without a board counts for nothing
    (
        &[
            Repeats(
                r#"{"Name":"N","Probe":"FALSE","Exposes":["#,
                ZONE_AND_FANS,
                40,
                LAST,
            ),
            Config(ONE_ZONE),
        ],
        Done,
        "0 new board \"Y\" 1\n0 new zone \"Y\"\n",
    ),
    (
        &[Many(256), Repeats(ALWAYS_HEAD, ZONE, 33, LAST)],
        Refused,
        "line 257 refused ConfigLimit\n",
    ),
];

const PLUGS: &str = r#"
== a third board is refused with its zones, and has no index then; there is room for it where another is gone
repeat 16 EACH_HEAD ZONE
plug 1 80 $
plug 1 81 $
plug 1 82 $
plug 1 79 $
unplug 1 80
plug 1 79 $
plug 1 82 $
unplug 1 79
plug 1 82 $
-> Refused
0 new board "E" 1 at 1 80
0 new zone "Z"
0 new board "E" 2 at 1 81
line 4 refused ZoneLimit
line 5 refused ZoneLimit
0 gone board "E" 1 at 1 80
0 gone zone "Z"
0 new zone "Z"
0 new board "E" 3 at 1 79
0 gone zone "Z"
0 new zone "Z"
line 8 refused ZoneLimit
0 gone board "E" 3 at 1 79
0 gone zone "Z"
0 new zone "Z"
0 new board "E" 4 at 1 82
fru 1 81$
fru 1 82$
== so is one with fans; a place that is taken and a broken record come first
repeat 64 EACH_HEAD FAN
plug 1 80 $
plug 1 81 $
plug 1 82 $
plug 1 81 $
plug 1 82 00
-> Refused
0 new board "E" 1 at 1 80
0 new fan "F1"
0 new board "E" 2 at 1 81
0 new fan "F2"
line 4 refused FanLimit
line 5 refused Occupied
line 6 refused FruShort
fru 1 80$
fru 1 81$
== zones before fans; a plug that is refused is none, so a configuration may come behind it
repeat 33 EACH_HEAD ZONE_AND_FANS
plug 1 80 $
block ALWAYS
-> Refused
line 2 refused ZoneLimit
0 new board "A" 1
"#;

// More of them, which are made of parts.
const PLUGS_BY_PARTS: &[Row] = &[
    // a FRU without a board passes no limit, and MATCH_ONE has one board
    (
        &[
            Repeats(
                r#"{"Name":"M","Probe":["xyz.openbmc_project.FruDevice({})","MATCH_ONE"],"Exposes":["#,
                FAN,
                100,
                LAST,
            ),
            Text("plug 16 80 $\nplug 1 81 $\nplug 1 80 $\nplug 1 79 $\n"),
        ],
        Done,
        r#"0 new board "M" 1 at 1 81
0 new fan "F1"
0 gone board "M" 1 at 1 81
0 new board "M" 2 at 1 80
0 gone fan "F1"
0 new fan "F2"
0 gone board "M" 2 at 1 80
0 new board "M" 3 at 1 79
0 gone fan "F2"
0 new fan "F3"
fru 1 79$
fru 1 80$
fru 1 81$
fru 16 80$
"#,
    ),
    // a multiplexer is refused where the boards behind it pass a limit, and opens nothing then
    (
        &[
            Repeats(
                r#"{"Name":"C","Probe":"xyz.openbmc_project.FruDevice({'ADDRESS': 80})","Exposes":["#,
                ZONE,
                16,
                LAST,
            ),
            Config(
                r#"{"Name":"W","Probe":"xyz.openbmc_project.FruDevice({'ADDRESS': 112})",
                    "Exposes":[{"Name":"Slot","Type":"Mux","Channels":["$bus + 19",30]}]}"#,
            ),
            Text(
                "plug 1 80 $\nplug 20 80 $\nplug 30 80 $\nplug 1 112 $\nplug 11 112 $\nunplug 1 80\n",
            ),
            Text("plug 1 112 $\n"),
        ],
        Refused,
        r#"0 new board "C" 1 at 1 80
0 new zone "Z"
line 6 refused ZoneLimit
0 new board "C" 2 at 30 80
0 new board "W" 1 at 11 112
0 gone board "C" 1 at 1 80
0 gone zone "Z"
0 new zone "Z"
0 new board "C" 3 at 20 80
0 new board "W" 2 at 1 112
0 gone zone "Z"
0 new zone "Z"
fru 1 112$
fru 11 112$
fru 20 80$
fru 30 80$
"#,
    ),
];

// Documents by their names.
const SHAPES: &[Shape] = &[
    ("ALWAYS_HEAD", ALWAYS_HEAD, LAST),
    ("ZONE", ZONE, ""),
    ("ONE_ZONE", ONE_ZONE, ""),
    ("FAN", FAN, ""),
    ("ONE_FAN", ONE_FAN, ""),
    ("NAMELESS", NAMELESS, ""),
    ("ZONE_AND_FANS", ZONE_AND_FANS, ""),
    ("EACH_HEAD", EACH_HEAD, LAST),
    ("ALWAYS", ALWAYS, ""),
];

#[test]
fn zones_and_fans_are_few(rt: HostRuntime) -> Result<(), Fail> {
    play_cases(&rt, rt.alloc(), CONFIGURATIONS, SHAPES)?;
    play_rows(&rt, rt.alloc(), CONFIGURATIONS_BY_PARTS)?;
    play_cases(&rt, rt.alloc(), PLUGS, SHAPES)?;
    play_rows(&rt, rt.alloc(), PLUGS_BY_PARTS)
}

// Appends a configuration that is always found, with so many sensors.
fn push_sensors(
    script: &mut Vec<u8>,
    alloc: Global,
    name: u32,
    count: usize,
) -> Result<(), OutOfMemory> {
    let mut document = format!(in alloc; "{{\"Name\":\"{name}\",\"Probe\":\"TRUE\",\"Exposes\":[")?;
    for _ in 0..count {
        document.push_str(SENSOR)?;
    }
    document.push_str(LAST)?;
    let size = document.len();
    let line = format!(in alloc; "config {size}\n")?;
    script.extend_from_slice(line.as_bytes())?;
    script.extend_from_slice(document.as_bytes())?;
    Ok(())
}

// Configurations with 4,080 sensors, 255 more, 16 more, and one more; then zones, and sensors with too many zones.
#[test]
fn configurations_have_few_sensors(rt: HostRuntime) -> Result<(), Fail> {
    let mut script = Vec::new(rt.alloc());
    let mut text = String::from_str(rt.alloc(), "0 new board \"0\" 1\n0 new sensor \"S\"\n")?;
    for name in 0..17u32 {
        push_sensors(&mut script, rt.alloc(), name, 255)?;
    }
    for name in 1..16u32 {
        write!(text, "0 new board \"{name}\" 1\n")?;
    }
    push_sensors(&mut script, rt.alloc(), 18, 16)?;
    push_sensors(&mut script, rt.alloc(), 19, 1)?;
    let behind = [
        Config(ONE_ZONE),
        Repeats(
            r#"{"Name":"T","Probe":"TRUE","Exposes":[{"Name":"T","Type":"Sensor"},"#,
            ZONE,
            33,
            LAST,
        ),
        Repeats(ALWAYS_HEAD, ZONE, 33, LAST),
    ];
    let behind = script_of(rt.alloc(), &behind)?;
    script.extend_from_slice(behind.as_slice())?;
    text.push_str(
        "line 17 refused SensorLimit\n0 new board \"18\" 1\nline 19 refused SensorLimit\n",
    )?;
    text.push_str("0 new board \"Y\" 1\n0 new zone \"Y\"\n")?;
    text.push_str("line 21 refused SensorLimit\nline 22 refused ZoneLimit\n")?;
    play(&rt, rt.alloc(), script.as_slice(), Refused, text.as_str())
}

// A script of these parts, and of 17 FRUs at the addresses 0 to 16 of bus 1.
fn script_with_frus(alloc: Global, parts: &[Part]) -> Result<Vec<u8>, OutOfMemory> {
    let mut script = script_of(alloc, parts)?;
    for address in 0..17u32 {
        let line = format!(in alloc; "plug 1 {address} 01000000000000FF\n")?;
        script.extend_from_slice(line.as_bytes())?;
    }
    Ok(script)
}

// 16 sensors of a configuration and 255 of each of 16 FRUs are as many as may be. Where a FRU goes, the last one comes.
#[test]
fn frus_have_few_sensors(rt: HostRuntime) -> Result<(), Fail> {
    let parts = [
        Repeats(ALWAYS_HEAD, SENSOR, 16, LAST),
        Repeats(EACH_HEAD, SENSOR, 255, LAST),
    ];
    let mut script = script_with_frus(rt.alloc(), &parts)?;
    script.extend_from_slice(
        b"unplug 1 3\nplug 1 16 01000000000000FF\nplug 1 3 01000000000000FF\n",
    )?;
    let mut text = String::from_str(rt.alloc(), "0 new board \"T\" 1\n0 new sensor \"S\"\n")?;
    for address in 0..16u32 {
        write!(text, "0 new board \"E\" {} at 1 {address}\n", address + 1)?;
    }
    text.push_str("line 19 refused SensorLimit\n0 gone board \"E\" 4 at 1 3\n")?;
    text.push_str("0 new board \"E\" 17 at 1 16\nline 22 refused SensorLimit\n")?;
    for address in 0..17u32 {
        if address != 3 {
            write!(text, "fru 1 {address}\n")?;
        }
    }
    play(&rt, rt.alloc(), script.as_slice(), Refused, text.as_str())
}

// With the last FRU there would be too many sensors and too many zones.
#[test]
fn sensors_are_counted_before_zones(rt: HostRuntime) -> Result<(), Fail> {
    let parts = [
        Repeats(EACH_AS_D_HEAD, ZONE, 2, LAST),
        Repeats(EACH_HEAD, SENSOR, 255, LAST),
    ];
    let script = script_with_frus(rt.alloc(), &parts)?;
    let mut text = String::new(rt.alloc());
    for address in 0..16u32 {
        for name in ["D", "E"] {
            write!(
                text,
                "0 new board \"{name}\" {} at 1 {address}\n",
                address + 1
            )?;
        }
        if address == 0 {
            text.push_str("0 new zone \"Z\"\n0 new sensor \"S\"\n")?;
        }
    }
    text.push_str("line 19 refused SensorLimit\n")?;
    for address in 0..16u32 {
        write!(text, "fru 1 {address}\n")?;
    }
    play(&rt, rt.alloc(), script.as_slice(), Refused, text.as_str())
}

// How many FRUs come in the scripts of many boards, and how many configurations find each of them.
const FRUS: u32 = 205;

const FINDERS: u32 = 5;

// Configurations that find each FRU, and one that finds those at the addresses 1 to 4 of a bus. Then as many FRUs come
// as are one too many, from bus 0, address 0 on. Then the first of them goes, and the last one comes.
fn script_of_many(alloc: Global, bus: u32) -> Result<Vec<u8>, OutOfMemory> {
    let mut documents = Vec::new(alloc);
    for number in 0..FINDERS {
        documents.push(format!(in alloc;
            "{{\"Name\":\"{number}\",\"Probe\":\"xyz.openbmc_project.FruDevice({{}})\"}}"
        )?)?;
    }
    documents.push(format!(in alloc;
        "{{\"Name\":\"M\",\"Probe\":\"xyz.openbmc_project.FruDevice({{'BUS': {bus}, 'ADDRESS': '^[1-4]$'}})\"}}"
    )?)?;
    let mut script = String::new(alloc);
    for document in documents {
        let size = document.len();
        write!(script, "config {size}\n{document}")?;
    }
    for at in 0..FRUS {
        write!(script, "plug {} {} 01000000000000FF\n", at / 128, at % 128)?;
    }
    script.push_str("unplug 0 0\nplug 1 76 01000000000000FF\n")?;
    Ok(script.into_bytes())
}

// What is printed of it. The last FRU has indexes only from where its boards stand.
fn text_of_many(alloc: Global, with_bus: u32) -> Result<String, OutOfMemory> {
    let mut text = String::new(alloc);
    for at in 0..FRUS - 1 {
        let (bus, address) = (at / 128, at % 128);
        for number in 0..FINDERS {
            write!(
                text,
                "0 new board \"{number}\" {} at {bus} {address}\n",
                at + 1
            )?;
        }
        if bus == with_bus && (1..5).contains(&address) {
            write!(text, "0 new board \"M\" {address} at {bus} {address}\n")?;
        }
    }
    text.push_str("line 211 refused BoardLimit\n")?;
    for number in 0..FINDERS {
        write!(text, "0 gone board \"{number}\" 1 at 0 0\n")?;
    }
    for number in 0..FINDERS {
        write!(text, "0 new board \"{number}\" {FRUS} at 1 76\n")?;
    }
    for at in 1..FRUS {
        write!(text, "fru {} {}\n", at / 128, at % 128)?;
    }
    Ok(text)
}

// 1,020 boards stand, and 1,024 where bus 0 has four more. With the last FRU there would be another five.
#[test]
fn boards_are_few(rt: HostRuntime) -> Result<(), Fail> {
    for bus in [9, 0] {
        let script = script_of_many(rt.alloc(), bus)?;
        let text = text_of_many(rt.alloc(), bus)?;
        play(&rt, rt.alloc(), script.as_slice(), Refused, text.as_str())?;
    }
    Ok(())
}
