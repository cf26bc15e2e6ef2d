use crate::cases::play_cases;
use crate::play::{SOUND, played};
use bmc_replay::Status::Refused;
use std::str;
use std::test::Fail;

// A temperature with a limit, and a zone that goes by it.
const BOX: &str = r#"{"Name":"Box","Probe":"TRUE","Exposes":[
    {"Name":"T","Type":"Sensor","Thresholds":[{"Direction":"greater than","Severity":1,"Value":50}]},
    {"Name":"F","Type":"Fan"},
    {"Name":"Z","Type":"Pid.Zone","MinThermalOutput":1000,"FailSafePercent":80},
    {"Name":"TP","Type":"Stepwise","Zones":["Z"],"Inputs":["T"],"Reading":[20,40],"Output":[2000,4000]}]}"#;

// A temperature with six limits, all at one value.
const LIMITS: &str =
    r#"{"Name":"Box","Probe":"TRUE","Exposes":[{"Name":"T","Type":"Sensor","Thresholds":[
    {"Direction":"greater than","Severity":0,"Value":50},{"Direction":"greater than","Severity":0,"Value":50},
    {"Direction":"greater than","Severity":0,"Value":50},{"Direction":"greater than","Severity":0,"Value":50},
    {"Direction":"greater than","Severity":0,"Value":50},{"Direction":"greater than","Severity":0,"Value":50}]}]}"#;

const LOGGED: &str = r#"
== each kind of entry; items, duties and other refusals are none
show log
block BOX
block {"Name":"Riser","Probe":"xyz.openbmc_project.FruDevice({'BOARD_PRODUCT_NAME': 'RSR'})","Exposes":[{"Name":"U","Type":"Sensor"}]}
block {}
show log
plug 1 80 $
plug 1 80 00
plug 1 81 00
plug 1 81 01000001000000FE010100000000C13E
plug 1 81 0
plug 256 81 00
plug 1 81
block {"Name":"Late","Probe":"TRUE"}
unplug 1 81
jump
read T 50000
read T 49999
read X 1
read T 1000000001
tick 36001
times 6 lose T
tick 1
show log
read T 30000
tick 1
unplug 1 80
show log
-> Refused
0 new board "Box" 1
0 new sensor "T"
0 new fan "F"
0 new zone "Z"
0 new controller "TP"
line 4 refused MissingKey
log 1 info 0 new board "Box" 1
0 new board "Riser" 1 at 1 80
0 new sensor "U"
line 7 refused Occupied
line 8 refused FruShort
line 9 refused AreaChecksum Board
line 10 refused BadHex
line 11 refused PlaceRange
line 12 refused BadArguments
line 13 refused ConfigAfterPlug
line 14 refused NotPresent
line 15 refused UnknownCommand
0 alarm on "T" 0 high critical
0 alarm off "T" 0 high critical
line 18 refused UnknownSensor
line 19 refused ReadingRange
line 20 refused TickLimit
0 failed sensor "T"
1 failsafe zone "Z"
1 duty fan "F" 100.000
log 1 info 0 new board "Box" 1
log 2 info 0 new board "Riser" 1 at 1 80
log 3 error 0 refused plug 1 80 Occupied
log 4 error 0 refused plug 1 81 FruShort
log 5 error 0 refused plug 1 81 AreaChecksum Board
log 6 error 0 alarm on "T" 0 high critical
log 7 info 0 alarm off "T" 0 high critical
log 8 error 0 failed sensor "T"
log 9 error 1 failsafe zone "Z"
1 working sensor "T"
2 normal zone "Z"
2 gone board "Riser" 1 at 1 80
2 gone sensor "U"
log 1 info 0 new board "Box" 1
log 2 info 0 new board "Riser" 1 at 1 80
log 3 error 0 refused plug 1 80 Occupied
log 4 error 0 refused plug 1 81 FruShort
log 5 error 0 refused plug 1 81 AreaChecksum Board
log 6 error 0 alarm on "T" 0 high critical
log 7 info 0 alarm off "T" 0 high critical
log 8 error 0 failed sensor "T"
log 9 error 1 failsafe zone "Z"
log 10 info 1 working sensor "T"
log 11 info 2 normal zone "Z"
log 12 info 2 gone board "Riser" 1 at 1 80
== one error is kept and ten infos, and ids go on
words --log-cap 1
block LIMITS
read T 50000
read T 0
read T 50000
read T 0
show log
plug 1 80 00
show log
-> Refused
0 new board "Box" 1
0 new sensor "T"
0 alarm on "T" 0 high warning
0 alarm on "T" 1 high warning
0 alarm on "T" 2 high warning
0 alarm on "T" 3 high warning
0 alarm on "T" 4 high warning
0 alarm on "T" 5 high warning
0 alarm off "T" 0 high warning
0 alarm off "T" 1 high warning
0 alarm off "T" 2 high warning
0 alarm off "T" 3 high warning
0 alarm off "T" 4 high warning
0 alarm off "T" 5 high warning
0 alarm on "T" 0 high warning
0 alarm on "T" 1 high warning
0 alarm on "T" 2 high warning
0 alarm on "T" 3 high warning
0 alarm on "T" 4 high warning
0 alarm on "T" 5 high warning
0 alarm off "T" 0 high warning
0 alarm off "T" 1 high warning
0 alarm off "T" 2 high warning
0 alarm off "T" 3 high warning
0 alarm off "T" 4 high warning
0 alarm off "T" 5 high warning
log 10 info 0 alarm off "T" 2 high warning
log 11 info 0 alarm off "T" 3 high warning
log 12 info 0 alarm off "T" 4 high warning
log 13 info 0 alarm off "T" 5 high warning
log 19 error 0 alarm on "T" 5 high warning
log 20 info 0 alarm off "T" 0 high warning
log 21 info 0 alarm off "T" 1 high warning
log 22 info 0 alarm off "T" 2 high warning
log 23 info 0 alarm off "T" 3 high warning
log 24 info 0 alarm off "T" 4 high warning
log 25 info 0 alarm off "T" 5 high warning
line 7 refused FruShort
log 10 info 0 alarm off "T" 2 high warning
log 11 info 0 alarm off "T" 3 high warning
log 12 info 0 alarm off "T" 4 high warning
log 13 info 0 alarm off "T" 5 high warning
log 20 info 0 alarm off "T" 0 high warning
log 21 info 0 alarm off "T" 1 high warning
log 22 info 0 alarm off "T" 2 high warning
log 23 info 0 alarm off "T" 3 high warning
log 24 info 0 alarm off "T" 4 high warning
log 25 info 0 alarm off "T" 5 high warning
log 26 error 0 refused plug 1 80 FruShort
"#;

#[test]
fn logs(rt: HostRuntime) -> Result<(), Fail> {
    let shapes = &[("BOX", BOX, ""), ("LIMITS", LIMITS, "")];
    play_cases(&rt, rt.alloc(), LOGGED, shapes)
}

// Without a word for it the log keeps 200 errors.
#[test]
fn many_errors(rt: HostRuntime) -> Result<(), Fail> {
    let mut script = String::new(rt.alloc());
    for _ in 0..201 {
        script.push_str("plug 1 80 00\n")?;
    }
    script.push_str("show log\n")?;
    let (status, text) = played(&rt, rt.alloc(), script.as_bytes(), SOUND)?;
    assert_eq!(rt; status, Refused);
    let text = str::from_utf8(text.as_slice()).unwrap_or("");
    let mut rows = text.lines().skip(201);
    assert_eq!(rt;
        rows.next(),
        Some("log 2 error 0 refused plug 1 80 FruShort")
    );
    assert_eq!(rt; rows.count(), 199);
    assert!(rt; text.ends_with("\nlog 201 error 0 refused plug 1 80 FruShort\n"));
    Ok(())
}
