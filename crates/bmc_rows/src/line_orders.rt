use crate::play::{BOARD_FIELDS, BOARD_RECORD, filled, play, unescaped};
use bmc_base::OutOfMemory;
use bmc_replay::Status::Refused;
use std::fmt::Write;
use std::test::Fail;

// Lines, most of them with more than one fault, and before each its refusal where a FRU is at bus 1, address 80. `$` stands
// for the board record, and `unescaped` says what `\t` and `\s` stand for.
const LINES: &str = r#"
// no command, and words or a place that are wrong besides
UnknownCommand: Plug
UnknownCommand: Plug 1 81
UnknownCommand: PLUG 256 81 $
UnknownCommand: Plug 1 128 zz
UnknownCommand: plugs 1 80 $
UnknownCommand: plug: 256 x
UnknownCommand: \splug 256 81 zz
UnknownCommand: plug\t256 81 zz
UnknownCommand: UNPLUG 256
UnknownCommand: Unplug 9 9
UnknownCommand: unplu 1 128
UnknownCommand: \sunplug 9 9\s
UnknownCommand: unplug\t9 9
UnknownCommand: Config x
UnknownCommand: config: 5 5
UnknownCommand: \sconfig 0000000001
UnknownCommand: \sshow log
UnknownCommand: Read X +1
UnknownCommand: lose\tX
UnknownCommand: Tick 0
UnknownCommand: ticks 36001
UnknownCommand: {} {}
UnknownCommand: é 256
// words that have not the form, and a place that is out of its range
BadArguments: plug 256 81
BadArguments: plug 1 128
BadArguments: plug 256 128\s
BadArguments: plug 999999999 999999999
BadArguments: plug 256 81 $\s
BadArguments: plug 1 128 $ $
BadArguments: plug 256 x $
BadArguments: plug x 128 $
BadArguments: plug 256 0000000081 $
BadArguments: plug 0000000256 81 $
BadArguments: unplug 256
BadArguments: unplug 256\s
BadArguments: unplug 256 x
BadArguments: unplug x 128
BadArguments: unplug 1 128\s
BadArguments: unplug 256 81 $
BadArguments: unplug 0000000256 81
BadArguments: unplug  128
// and digits that are wrong
BadArguments: plug x 81 0G
BadArguments: plug 1 8x 0G
BadArguments: plug 1 81 0 0
BadArguments: plug 1 81 0G\s
BadArguments: plug 1 0000000081 zz
BadArguments: plug  81 zz
BadArguments: plug 1 81  zz
BadArguments: plug 1 zz
// and a place that is taken or free, a record that is too short, and a block that would be too long, short or late
BadArguments: plug 1 80
BadArguments: plug 1 80\s
BadArguments: plug 1 80 $\s
BadArguments: plug 1 81 00\s
BadArguments: unplug 9
BadArguments: unplug 9 9\s
BadArguments: unplug 9 9 9
BadArguments: config 999999999\s
BadArguments: config 262145 0
BadArguments: config 0000000001
BadArguments: config 2 2
BadArguments: config
// and a raw number that is out of its range, and a sensor that is not there
BadArguments: read  1000000001
BadArguments: read X 1000000001\s
BadArguments: read X 9999999999999999999
BadArguments: lose\s
BadArguments: show logs
// and a number of ticks that is out of its range
BadArguments: tick 0\s
BadArguments: tick 36001 36001
BadArguments: tick 0000000000
// a place that is out of its range, digits that are wrong, and a record that is too short
PlaceRange: plug 256 81 0
PlaceRange: plug 1 128 zz
PlaceRange: plug 256 128 0x00
PlaceRange: plug 000000256 80 é
PlaceRange: plug 256 80 00
PlaceRange: plug 1 128 $
PlaceRange: unplug 256 80
PlaceRange: unplug 1 128
// digits that are wrong, and a place that is taken or a record that would be too short
BadHex: plug 1 80 0
BadHex: plug 1 80 $0
BadHex: plug 1 80 zz
BadHex: plug 1 81 0
BadHex: plug 1 81 000
BadHex: plug 255 127 0000000000000G
BadHex: plug 001 080 ١
// a number of ticks that is out of its range
TickLimit: tick 0
TickLimit: tick 000036001
// a sensor that is not there, and a raw number that is out of its range
UnknownSensor: read X 1000000001
UnknownSensor: read X -999999999999999999
// lines in their form
Occupied: plug 1 80 00
FruShort: plug 1 81 00
NotPresent: unplug 9 9
"#;

// Appends a line to a script, and its refusal to what is printed.
fn push_line(
    script: &mut String,
    text: &mut String,
    number: usize,
    row: &str,
) -> Result<(), OutOfMemory> {
    let (refusal, line) = row.split_once(": ").unwrap_or((row, ""));
    write!(script, "{line}\n")?;
    write!(text, "line {number} refused {refusal}\n")?;
    Ok(())
}

// The first fault of a line is named, and a refused line changes nothing for those behind it.
#[test]
fn the_first_fault_is_named(rt: HostRuntime) -> Result<(), Fail> {
    let mut script = String::from_str(rt.alloc(), "plug 1 80 $\n")?;
    let mut text = String::new(rt.alloc());
    let rows = LINES
        .lines()
        .filter(|row| !row.is_empty() && !row.starts_with("// "));
    for (at, row) in rows.enumerate() {
        // line 1 is the plug
        push_line(&mut script, &mut text, at.saturating_add(2), row)?;
    }
    text.push_str("fru 1 80$\n")?;
    let script = filled(rt.alloc(), script.as_str(), BOARD_RECORD)?;
    let script = unescaped(rt.alloc(), script.as_str())?;
    let text = filled(rt.alloc(), text.as_str(), BOARD_FIELDS)?;
    play(&rt, rt.alloc(), script.as_bytes(), Refused, text.as_str())
}
