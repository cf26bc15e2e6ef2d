use crate::play::Part::{self, Bytes, Text};
use crate::play::{BOARD_FIELDS, BOARD_RECORD, Row, UNKNOWN, filled, play, play_parts, unescaped};
use bmc_replay::Status::{self, Done, Refused};
use std::alloc::Global;
use std::process::Abort;
use std::test::Fail;

// In the lists below each line is a script, in which `$` stands for the board record. What `\n` and the like stand for says
// `unescaped`.

// Lines that do nothing.
const IDLE: &str = r#"
\n
\r\n
\r
#
# comment\n
# comment\r\n
#\r\r\n
#plug 1 80 $\n
"#;

// More of them, which are made of parts.
const IDLE_BY_PARTS: &[Part] = &[Bytes(b"# \xFF\n#\x80\xBF")];

// Lines that plug the board record at bus 1, address 80.
const PLUGS: &str = r#"
plug 1 80 $\n
plug 1 80 $
plug 1 80 $\r\n
plug 1 80 $\r
plug 001 080 $\n
plug 000000001 000000080 $\n
plug 1 80 01000001000000fe010300000000c341434dc452535231c25331c0c0c10000f5\n
plug 1 80 01000001000000Fe010300000000c341434DC452535231c25331C0c0C10000F5\n
"#;

// Lines that take away what is not there.
const ABSENT: &str = r#"
unplug 1 80
unplug 1 80\n
unplug 1 80\r\n
unplug 1 080\n
unplug 000000001 000000080\n
unplug 0 0\n
unplug 255 127\n
"#;

// Lines whose first word is no command. Those that would ask for a block have a comment behind them, which is none.
const UNKNOWN_COMMANDS: &str = r#"
jump\n
jump
remove 1 80\n
UNPLUG 1 80\n
PLUG 1 80 $\n
Config 1\n#\n
plugs 1 80 $\n
unplu 1 80\n
config1\n#\n
{}\n
Read X 1\n
reads X 1\n
los X\n
Tick 1\n
ticks 1\n
SHOW frus\n
show\tfrus\n
// those of later versions
begin 0 X\n
end 0 lost\n
drop X\n
// no bytes before the first space, and other bytes between words or before them
\sunplug 1 80\n
\splug 1 80 $\n
\sconfig 1\n#\n
\s# comment\n
\s\n
\s  \n
\s\r\n
unplug\t1 80\n
plug\t1\t80\t$\n
config\t1\n#\n
\tunplug 1 80\n
unplug\r\r\n
\r\r\n
\r \n
\0\n
\0unplug 1 80\n
"#;

// More of them, which are made of parts.
const UNKNOWN_COMMANDS_BY_PARTS: &[Part] = &[
    Text("\u{feff}unplug 1 80\n"),
    Text("unplug\u{a0}1 80\n"),
    Bytes(b"\xFF\xFE"),
    Bytes(b"\xFFplug 1 80 00"),
    Bytes(b"unplug\xC3 1 80\n"),
];

// Lines of a command whose form is another one. Those that would ask for a block have a comment behind them.
const BAD_ARGUMENTS: &str = r#"
// words that are missing, empty or too many
plug\n
plug
plug \n
plug 1\n
plug 1 \n
plug 1 80\n
plug 1 80 \n
plug 1 80 \r\n
plug 1 $\n
plug $\n
plug  1 80 $\n
plug 1  80 $\n
plug 1 80  $\n
plug 1 80 $ \n
plug 1 80 $ $\n
plug   \n
plug    \n
unplug\n
unplug
unplug\r\n
unplug \n
unplug 1\n
unplug 1 \n
unplug  80\n
unplug  1 80\n
unplug 1  80\n
unplug 1 80 \n
unplug 1 80 00\n
config\n#\n
config \n#\n
config  1\n#\n
config 1 \n#\n
config 1 1\n#\n
read\n
read \n
read X\n
read  1\n
read X \n
read X 1 \n
lose\n
lose \r\n
show\n
show \n
// topics that there are not, and raw numbers and names that are none
show zone\n
show logs\n
show  frus\n
show frus \n
show frus sensors\n
show Sensors\n
read X +1\n
read X --1\n
read X 1.0\n
read X 1\t\n
read X -\n
read X 0000000000000000001\n
read X -1000000000000000000\n
read X lost\n
lose aaaaaaaaaaaaaaaaaaaaaaaaaaaaaaaaaaaaaaaaaaaaaaaaaaaaaaaaaaaaaaaaa\n
// words that are no numbers of 1 to 9 digits
unplug 0000000001 80\n
unplug 1 0000000080\n
unplug 4294967297 80\n
unplug +1 80\n
unplug -1 80\n
unplug 1: 80\n
unplug 1 /0\n
unplug 1 0x50\n
unplug 1 8O\n
unplug 1\t80\n
unplug 1 80\t\n
unplug 1 80\0\n
unplug ١ 80\n
unplug 1 80\r\r\n
plug a 80 $\n
plug 1 0000000080 $\n
plug 1\t80 $ 00\n
config x\n#\n
config 0000000001\n#\n
config +1\n#\n
config -1\n#\n
config 1.\n#\n
config 0x1\n#\n
config 1\r\r\n#\n
// with a place out of range, and with digits that are wrong besides
plug 256 80\n
plug 256 80 \n
plug 256 128 $ \n
plug 256 0000000128 0G\n
unplug 256 x\n
unplug 256\n
plug 1 80 0 0\n
plug 1 80 0G \n
"#;

// More of them, which are made of parts.
const BAD_ARGUMENTS_BY_PARTS: &[Part] = &[
    Bytes(b"lose X\xFF\n"),
    Bytes(b"read \xED\xA0\x80 1\n"),
    Bytes(b"config \xB1\n#"),
    Bytes(b"unplug 1 80\xC3\n"),
    Bytes(b"unplug \xFF 80\n"),
];

// Lines in the form of a command whose place is out of its range, also with digits that are wrong besides.
const PLACE_RANGE: &str = r#"
unplug 256 80\n
unplug 1 128\n
unplug 256 128
unplug 000000256 000000000\r\n
unplug 999999999 999999999\n
plug 256 80 $\n
plug 1 128 $\n
plug 256 128 $\r\n
plug 1 128 00\n
plug 256 80 zz\n
plug 256 80 0
plug 1 999999999 é\n
"#;

// More of them, which are made of parts.
const PLACE_RANGE_BY_PARTS: &[Part] = &[Bytes(b"plug 300 80 \xFF\n")];

// Plugs whose digits are not an even number of hexadecimal ones.
const BAD_HEX: &str = r#"
plug 1 80 0\n
plug 1 80 0
plug 1 80 010\n
plug 1 80 $0\n
plug 1 80 0G\n
plug 1 80 G0\n
plug 1 80 zz\n
plug 1 80 $0G\n
plug 1 80 0x$\n
plug 1 80 -1\n
plug 1 80 :0\n
plug 1 80 /0\n
plug 1 80 @0\n
plug 1 80 `0\n
plug 1 80 00\t\t\n
plug 1 80 $\r\r\n
plug 1 80 é\n
plug 1 80 ١\n
plug 000000255 000000127 \0\0\n
"#;

// More of them, which are made of parts.
const BAD_HEX_BY_PARTS: &[Part] = &[Bytes(b"plug 1 80 \x80\xBF"), Bytes(b"plug 0 0 \xFF\n")];

// Lines that read or lose a sensor that is not there.
const UNKNOWN_SENSORS: &str = r#"
read X 1\n
read X 1
read X -0\r\n
read X 000000000000000001\n
read X -999999999999999999\n
read X 1 2 3\n
read   1\n
read 1 1\n
lose X\n
lose X\r
lose  X \n
lose  \n
lose "X"\n
lose \0\t\n
lose aaaaaaaaaaaaaaaaaaaaaaaaaaaaaaaaaaaaaaaaaaaaaaaaaaaaaaaaaaaaaaaa\n
lose ééééééééééééééééééééééééééééééée\n
"#;

// Lines that end alike: how a script of one of them ends, and what is printed.
const LINES: &[(&str, Status, &str)] = &[
    (IDLE, Done, ""),
    (PLUGS, Done, "fru 1 80$\n"),
    (ABSENT, Refused, "line 1 refused NotPresent\n"),
    (UNKNOWN_COMMANDS, Refused, UNKNOWN),
    (BAD_ARGUMENTS, Refused, "line 1 refused BadArguments\n"),
    (PLACE_RANGE, Refused, "line 1 refused PlaceRange\n"),
    (BAD_HEX, Refused, "line 1 refused BadHex\n"),
    (UNKNOWN_SENSORS, Refused, "line 1 refused UnknownSensor\n"),
];

// The same of lines that are no text, or have characters that can't be seen.
const LINES_BY_PARTS: &[Row] = &[
    (IDLE_BY_PARTS, Done, ""),
    (UNKNOWN_COMMANDS_BY_PARTS, Refused, UNKNOWN),
    (
        BAD_ARGUMENTS_BY_PARTS,
        Refused,
        "line 1 refused BadArguments\n",
    ),
    (PLACE_RANGE_BY_PARTS, Refused, "line 1 refused PlaceRange\n"),
    (BAD_HEX_BY_PARTS, Refused, "line 1 refused BadHex\n"),
];

// Plays each line of a list as a script by itself, and asserts how it ends and what is printed.
fn play_lines(
    rt: &impl Abort,
    alloc: Global,
    lines: &str,
    status: Status,
    text: &str,
) -> Result<(), Fail> {
    let text = filled(alloc, text, BOARD_FIELDS)?;
    for line in lines.lines() {
        if line.is_empty() || line.starts_with("// ") {
            continue;
        }
        let script = unescaped(alloc, filled(alloc, line, BOARD_RECORD)?.as_str())?;
        play(rt, alloc, script.as_bytes(), status, text.as_str())?;
    }
    Ok(())
}

#[test]
fn single_lines(rt: HostRuntime) -> Result<(), Fail> {
    for &(lines, status, text) in LINES {
        play_lines(&rt, rt.alloc(), lines, status, text)?;
    }
    play_parts(&rt, rt.alloc(), LINES_BY_PARTS)
}
