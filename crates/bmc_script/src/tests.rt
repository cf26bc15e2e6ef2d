use crate::{Command, is_blank};
use bmc_base::Place;
use std::alloc::Global;
use std::fmt::Write;
use std::process::Abort;
use std::test::Fail;

// The place in words.
fn push_place(words: &mut String, place: &Place) -> Result<(), Fail> {
    write!(words, " {} {}", place.bus(), place.address())?;
    Ok(())
}

// The command of a line in words, or why there is none.
fn described(alloc: Global, line: &[u8]) -> Result<String, Fail> {
    let mut words = String::new(alloc);
    match &Command::read(alloc, line) {
        Ok(Command::Nothing) => words.push_str("nothing")?,
        Ok(Command::Config(size)) => write!(words, "config {size}")?,
        Ok(Command::Plug(place, bytes)) => {
            words.push_str("plug")?;
            push_place(&mut words, place)?;
            write!(words, " {:?}", bytes.as_slice())?;
        }
        Ok(Command::Unplug(place)) => {
            words.push_str("unplug")?;
            push_place(&mut words, place)?;
        }
        Ok(Command::Good(name, raw)) => write!(words, "read [{}] {raw}", name.as_str())?,
        Ok(Command::Lost(name)) => write!(words, "lose [{}]", name.as_str())?,
        Ok(Command::Ticks(count)) => write!(words, "tick {count}")?,
        Ok(Command::Show(topic)) => write!(words, "show {topic:?}")?,
        Err(fault) => write!(words, "{fault}")?,
    }
    Ok(words)
}

// Lines, each behind the words that it is described by.
const LINES: &str = "nothing:\x20
nothing: #
nothing: ##
nothing: # unplug 1 80
nothing: #plug 1 80 0
nothing: #config 5
nothing: #\x20
nothing: #\r
config 0: config 0
config 5: config 5
config 10: config 10
config 65536: config 065536
config 0: config 000000000
config 5: config 000000005
config 123456789: config 123456789
config 999999999: config 999999999
plug 1 80 [0]: plug 1 80 00
plug 0 0 [0]: plug 0 0 00
plug 255 127 [255]: plug 255 127 ff
plug 255 127 [10, 255, 192]: plug 000000255 000000127 0aFFc0
plug 0 9 [127]: plug 000000000 09 7F
plug 1 80 [171, 205]: plug 1 80 AbcD
plug 1 80 [170]: plug 1 80 aA
plug 1 80 [170]: plug 1 80 Aa
plug 1 80 [1, 35, 69, 103, 137]: plug 1 80 0123456789
plug 1 80 [171, 205, 239]: plug 1 80 abcdef
plug 1 80 [171, 205, 239]: plug 1 80 ABCDEF
plug 1 80 [0, 0]: plug 1 80 0000
unplug 0 9: unplug 0 9
unplug 0 0: unplug 0 0
unplug 255 127: unplug 255 127
unplug 1 80: unplug 000000001 000000080
unplug 255 127: unplug 000000255 000000127
unplug 1 2: unplug 01 2
unknown command: \x20
unknown command: \x20\x20
unknown command: \x20#
unknown command: \x20plug 1 80 00
unknown command: \x20unplug 1 80
unknown command: \x20config 5
unknown command: \x20\x20unplug 1 80
unknown command: \t
unknown command: \tplug 1 80 00
unknown command: plug\t1 80 00
unknown command: unplug\t1\t80
unknown command: config\t5
unknown command: unplug\t 1 80
unknown command: PLUG 1 80 00
unknown command: Plug 1 80 00
unknown command: pluG 1 80 00
unknown command: UNPLUG 1 80
unknown command: unPlug 1 80
unknown command: CONFIG 5
unknown command: Config 5
unknown command: p
unknown command: plu 1 80 00
unknown command: plugs 1 80 00
unknown command: plug1 80 00
unknown command: plugplug 1 80 00
unknown command: lug 1 80 00
unknown command: u
unknown command: unplu 1 80
unknown command: unplugs 1 80
unknown command: unplug1 80
unknown command: un plug 1 80
unknown command: nplug 1 80
unknown command: c
unknown command: conf 5
unknown command: confi 5
unknown command: configs 5
unknown command: configure 5
unknown command: config5
unknown command: con fig 5
unknown command: onfig 5
unknown command: remove 1 80
unknown command: planet 1 80 00
unknown command: unplag 1 80
unknown command: confug 5
unknown command: pluh 1 80 00
unknown command: qlug 1 80 00
unknown command: plug,1,80,00
unknown command: unplug;1;80
unknown command: config=5
unknown command: plug# 1 80 00
unknown command: plug#\x20
unknown command: \r
unknown command: plug\r
unknown command: unplug\r 1 80
unknown command: config\r 5
unknown command: \rplug 1 80 00
unknown command: \0
unknown command: plug\0
unknown command: plug\0 1 80 00
unknown command: \0unplug 1 80
unknown command: config\0 5
unknown command: \u{e9}
unknown command: unplug\u{a0}1 80
unknown command: \u{feff}config 5
unknown command: 5
unknown command: 1 80
unknown command: 1 80 00
bad arguments: plug
bad arguments: plug\x20
bad arguments: plug\x20\x20
bad arguments: plug\x20\x20\x20
bad arguments: plug\x20\x20\x20\x20
bad arguments: plug 1
bad arguments: plug 1\x20
bad arguments: plug 1 80
bad arguments: plug 1 80\x20
bad arguments: plug 1\x20\x20
bad arguments: plug  1 80 00
bad arguments: plug  80 00
bad arguments: plug 1  80 00
bad arguments: plug 1  00
bad arguments: plug 1 80  00
bad arguments: plug 1 80\x20\x20
bad arguments: plug 1 80 00\x20
bad arguments: plug 1 80 00\x20\x20
bad arguments: plug 1 80 00 00
bad arguments: plug 1 80 0 0
bad arguments: plug 1 80 zz zz
bad arguments: plug 1 80 00 #00
bad arguments: plug 1\t80 00
bad arguments: plug 1 80\t00
bad arguments: unplug
bad arguments: unplug\x20
bad arguments: unplug\x20\x20
bad arguments: unplug 1
bad arguments: unplug 1\x20
bad arguments: unplug 1\x20\x20
bad arguments: unplug  80
bad arguments: unplug  1 80
bad arguments: unplug 1  80
bad arguments: unplug 1 80\x20
bad arguments: unplug 1 80 00
bad arguments: unplug 1 80 #
bad arguments: unplug 1\t80
bad arguments: unplug 1,80
bad arguments: config
bad arguments: config\x20
bad arguments: config\x20\x20
bad arguments: config  5
bad arguments: config 5\x20
bad arguments: config 5 5
bad arguments: config 1 80 00
bad arguments: plug x 80 00
bad arguments: plug 1 x 00
bad arguments: plug -1 80 00
bad arguments: plug +1 80 00
bad arguments: plug 1 -80 00
bad arguments: plug 0x1 80 00
bad arguments: plug 1 8f 00
bad arguments: plug 1. 80 00
bad arguments: plug 1: 80 00
bad arguments: plug 1 /0 00
bad arguments: plug 1 80\r 00
bad arguments: plug 1\0 80 00
bad arguments: plug 1 \u{661} 00
bad arguments: plug 0000000001 80 00
bad arguments: plug 1 0000000080 00
bad arguments: plug 1234567890 80 00
bad arguments: unplug x 80
bad arguments: unplug 1 x
bad arguments: unplug 1 80\r
bad arguments: unplug 1 80\t
bad arguments: unplug 1 80\0
bad arguments: unplug 0000000001 80
bad arguments: unplug 1 0000000080
bad arguments: unplug #1 80
bad arguments: unplug 1 80h
bad arguments: config x
bad arguments: config -5
bad arguments: config +5
bad arguments: config 5.0
bad arguments: config 0x5
bad arguments: config 5\r
bad arguments: config 5\t
bad arguments: config 5\0
bad arguments: config #5
bad arguments: config 1_000
bad arguments: config 0000000005
bad arguments: config 1234567890
bad arguments: config 4294967296
bad arguments: config 18446744073709551621
bad arguments: plug 256 80
bad arguments: plug 256 80\x20
bad arguments: plug 256 80 00\x20
bad arguments: plug 256 80 00 00
bad arguments: plug 256 80 zz zz
bad arguments: plug 256 x 00
bad arguments: plug x 128 00
bad arguments: plug 1 x zz
bad arguments: plug x 80 0
bad arguments: plug 256 128\x20\x20
bad arguments: plug 9999999999 80 00
bad arguments: unplug 256
bad arguments: unplug 256\x20
bad arguments: unplug 256 x
bad arguments: unplug x 128
bad arguments: unplug 256 80\x20
bad arguments: unplug 1 9999999999
place out of range: plug 256 80 00
place out of range: plug 1 128 00
place out of range: plug 256 128 00
place out of range: plug 000000256 80 00
place out of range: plug 1 000000128 00
place out of range: plug 999999999 80 00
place out of range: plug 1 999999999 00
place out of range: plug 80 255 00
place out of range: plug 65536 80 00
place out of range: plug 257 80 00
place out of range: plug 1 336 00
place out of range: plug 256 80 zz
place out of range: plug 256 80 0
place out of range: plug 1 128 0g
place out of range: plug 256 80 00\r
place out of range: unplug 256 80
place out of range: unplug 1 128
place out of range: unplug 256 128
place out of range: unplug 000000256 0
place out of range: unplug 0 255
place out of range: unplug 999999999 999999999
bad hexadecimal digits: plug 1 80 0
bad hexadecimal digits: plug 1 80 000
bad hexadecimal digits: plug 1 80 f
bad hexadecimal digits: plug 255 127 0
bad hexadecimal digits: plug 1 80 zz
bad hexadecimal digits: plug 1 80 0g
bad hexadecimal digits: plug 1 80 g0
bad hexadecimal digits: plug 1 80 GG
bad hexadecimal digits: plug 1 80 @@
bad hexadecimal digits: plug 1 80 ``
bad hexadecimal digits: plug 1 80 //
bad hexadecimal digits: plug 1 80 ::
bad hexadecimal digits: plug 1 80 0x
bad hexadecimal digits: plug 1 80 0x00
bad hexadecimal digits: plug 1 80 -1
bad hexadecimal digits: plug 1 80 #
bad hexadecimal digits: plug 1 80 00\r
bad hexadecimal digits: plug 1 80 0\r
bad hexadecimal digits: plug 1 80 00\t00
bad hexadecimal digits: plug 1 80 \t0
bad hexadecimal digits: plug 1 80 \0
bad hexadecimal digits: plug 1 80 0\0
bad hexadecimal digits: plug 1 80 \u{e9}
bad hexadecimal digits: plug 1 80 00\u{a0}
bad hexadecimal digits: plug 000000001 000000080 0000z";

// Lines of sensors that were read, each behind the words that it is described by.
const READ_LINES: &str = "read [T] 5: read T 5
read [T] 0: read T 0
read [T] 0: read T -0
read [T] 7: read T 007
read [T] -7: read T -007
read [T] -41000: read T -41000
read [T] 999999999999999999: read T 999999999999999999
read [T] -999999999999999999: read T -999999999999999999
read [T] 1: read T 000000000000000001
read [T] 0: read T -000000000000000000
read [T ] 5: read T  5
read [T  ] 5: read T   5
read [ ] 5: read   5
read [ T] 5: read  T 5
read [Card 2 Temp] -3: read Card 2 Temp -3
read [a  b] 3: read a  b 3
read [1] 2: read 1 2
read [1 2] 3: read 1 2 3
read [T -] 5: read T - 5
read [-] -5: read - -5
read [T 5 ] 6: read T 5  6
read [#T] 5: read #T 5
read [read] 5: read read 5
read [lose T] 5: read lose T 5
read [\"T\"] 5: read \"T\" 5
read ['] 5: read ' 5
read [\\] 5: read \\ 5
read [\0] 5: read \0 5
read [T\0] 5: read T\0 5
read [\t] 5: read \t 5
read [T\t5] 6: read T\t5 6
read [T\r] 5: read T\r 5
read [\u{e9}] 5: read \u{e9} 5
read [T\u{a0}] 5: read T\u{a0} 5
read [\u{10ffff}] 5: read \u{10ffff} 5
read [ABCDEFGHIJKLMNOPQRSTUVWXYZabcdefghijklmnopqrstuvwxyz0123456789+/] 1: read ABCDEFGHIJKLMNOPQRSTUVWXYZabcdefghijklmnopqrstuvwxyz0123456789+/ 1
read [ABCDEFGHIJKLMNOPQRSTUVWXYZabcdefghijklmnopqrstuvwxyz0123456789\u{e9}] 1: read ABCDEFGHIJKLMNOPQRSTUVWXYZabcdefghijklmnopqrstuvwxyz0123456789\u{e9} 1
read [ABCDEFGHIJKLMNOPQRSTUVWXYZabcdefghijklmnopqrstuvwxyz0123456789+ ] 1: read ABCDEFGHIJKLMNOPQRSTUVWXYZabcdefghijklmnopqrstuvwxyz0123456789+  1
unknown command: reads T 5
unknown command: rea T 5
unknown command: readT 5
unknown command: READ T 5
unknown command: Read T 5
unknown command: red T 5
unknown command: read\tT 5
unknown command: read\r
unknown command: read\0 T 5
unknown command: \x20read T 5
unknown command: write T 5
bad arguments: read
bad arguments: read\x20
bad arguments: read\x20\x20
bad arguments: read\x20\x20\x20
bad arguments: read 5
bad arguments: read T
bad arguments: read T\x20
bad arguments: read  5
bad arguments: read T 5\x20
bad arguments: read T 5\x20\x20
bad arguments: read T 5\t
bad arguments: read T 5\r
bad arguments: read T 5\0
bad arguments: read T -
bad arguments: read T --5
bad arguments: read T +5
bad arguments: read T -+5
bad arguments: read T 5-
bad arguments: read T -5-
bad arguments: read T x
bad arguments: read T 5x
bad arguments: read T x5
bad arguments: read T 0x5
bad arguments: read T 5.0
bad arguments: read T .5
bad arguments: read T 1e3
bad arguments: read T 1_000
bad arguments: read T 1,000
bad arguments: read T \u{661}
bad arguments: read T \u{2212}5
bad arguments: read T #
bad arguments: read T 5 #
bad arguments: read T 1000000000000000000
bad arguments: read T -1000000000000000000
bad arguments: read T 0000000000000000001
bad arguments: read T 9223372036854775807
bad arguments: read T\t5
bad arguments: read T\u{a0}5
bad arguments: read T,5
bad arguments: read T=5
bad arguments: read ABCDEFGHIJKLMNOPQRSTUVWXYZabcdefghijklmnopqrstuvwxyz0123456789+/= 1
bad arguments: read ABCDEFGHIJKLMNOPQRSTUVWXYZabcdefghijklmnopqrstuvwxyz0123456789+\u{e9} 1
bad arguments: read ABCDEFGHIJKLMNOPQRSTUVWXYZabcdefghijklmnopqrstuvwxyz0123456789+/  1
bad arguments: read ABCDEFGHIJKLMNOPQRSTUVWXYZabcdefghijklmnopqrstuvwxyz0123456789+/= x";

// Lines of sensors whose readings were lost.
const LOSE_LINES: &str = "lose [T]: lose T
lose [ T]: lose  T
lose [T ]: lose T\x20
lose [ ]: lose\x20\x20
lose [  ]: lose\x20\x20\x20
lose [Card 2 Temp]: lose Card 2 Temp
lose [T 5]: lose T 5
lose [5]: lose 5
lose [#]: lose #
lose [\"T\"]: lose \"T\"
lose [\\]: lose \\
lose [\0]: lose \0
lose [\t]: lose \t
lose [\tT]: lose \tT
lose [T\r]: lose T\r
lose [\u{e9}]: lose \u{e9}
lose [ABCDEFGHIJKLMNOPQRSTUVWXYZabcdefghijklmnopqrstuvwxyz0123456789+/]: lose ABCDEFGHIJKLMNOPQRSTUVWXYZabcdefghijklmnopqrstuvwxyz0123456789+/
lose [ABCDEFGHIJKLMNOPQRSTUVWXYZabcdefghijklmnopqrstuvwxyz0123456789\u{e9}]: lose ABCDEFGHIJKLMNOPQRSTUVWXYZabcdefghijklmnopqrstuvwxyz0123456789\u{e9}
lose [ABCDEFGHIJKLMNOPQRSTUVWXYZabcdefghijklmnopqrstuvwxyz0123456789+ ]: lose ABCDEFGHIJKLMNOPQRSTUVWXYZabcdefghijklmnopqrstuvwxyz0123456789+\x20
unknown command: loses T
unknown command: los T
unknown command: loseT
unknown command: LOSE T
unknown command: Lose T
unknown command: lost T
unknown command: loose T
unknown command: lose\tT
unknown command: lose\r
unknown command: \x20lose T
bad arguments: lose
bad arguments: lose\x20
bad arguments: lose ABCDEFGHIJKLMNOPQRSTUVWXYZabcdefghijklmnopqrstuvwxyz0123456789+/=
bad arguments: lose ABCDEFGHIJKLMNOPQRSTUVWXYZabcdefghijklmnopqrstuvwxyz0123456789+/\x20
bad arguments: lose ABCDEFGHIJKLMNOPQRSTUVWXYZabcdefghijklmnopqrstuvwxyz0123456789+\u{e9}";

// Lines that let ticks pass.
const TICK_LINES: &str = "tick 1: tick 1
tick 2: tick 02
tick 10: tick 10
tick 255: tick 255
tick 256: tick 256
tick 35999: tick 35999
tick 36000: tick 36000
tick 36000: tick 000036000
tick 1: tick 000000001
unknown command: ticks 1
unknown command: tic 1
unknown command: tick1
unknown command: TICK 1
unknown command: Tick 1
unknown command: tock 1
unknown command: rick 1
unknown command: ticktick 1
unknown command: tick\t1
unknown command: tick\r
unknown command: tick\0 1
unknown command: \x20tick 1
unknown command: \ttick 1
unknown command: 1 tick
bad arguments: tick
bad arguments: tick\x20
bad arguments: tick\x20\x20
bad arguments: tick  1
bad arguments: tick 1\x20
bad arguments: tick 1 1
bad arguments: tick 0 0
bad arguments: tick 1 #
bad arguments: tick x
bad arguments: tick 1x
bad arguments: tick x1
bad arguments: tick -1
bad arguments: tick +1
bad arguments: tick -0
bad arguments: tick 1.0
bad arguments: tick 0x1
bad arguments: tick 1e3
bad arguments: tick 36,000
bad arguments: tick 1_000
bad arguments: tick 1\r
bad arguments: tick 1\t
bad arguments: tick 1\0
bad arguments: tick \u{661}
bad arguments: tick 0000000001
bad arguments: tick 0000000000
bad arguments: tick 4294967297
bad arguments: tick 9999999999
bad arguments: tick 36001\x20
bad arguments: tick 36001 1
number of ticks out of range: tick 0
number of ticks out of range: tick 00
number of ticks out of range: tick 000000000
number of ticks out of range: tick 36001
number of ticks out of range: tick 000036001
number of ticks out of range: tick 65536
number of ticks out of range: tick 65537
number of ticks out of range: tick 360000
number of ticks out of range: tick 999999999";

// Lines that ask for lists.
const SHOW_LINES: &str = "show Frus: show frus
show Inventory: show inventory
show Sensors: show sensors
show Zones: show zones
show Log: show log
show Indexes: show indexes
unknown command: shows frus
unknown command: sho frus
unknown command: showfrus
unknown command: SHOW frus
unknown command: Show frus
unknown command: shew frus
unknown command: show\tfrus
unknown command: show\r
unknown command: \x20show frus
unknown command: frus
unknown command: sensors
bad arguments: show
bad arguments: show\x20
bad arguments: show\x20\x20
bad arguments: show frus\x20
bad arguments: show  frus
bad arguments: show frus frus
bad arguments: show frus sensors
bad arguments: show fru
bad arguments: show fruss
bad arguments: show frus1
bad arguments: show Frus
bad arguments: show FRUS
bad arguments: show frus\r
bad arguments: show frus\t
bad arguments: show frus\0
bad arguments: show \"frus\"
bad arguments: show frus,
bad arguments: show #
bad arguments: show inventory\x20
bad arguments: show inventor
bad arguments: show inventorys
bad arguments: show Inventory
bad arguments: show inventory\r
bad arguments: show inventorz
bad arguments: show sensors\x20
bad arguments: show sensor
bad arguments: show sensorss
bad arguments: show Sensors
bad arguments: show sensorz
bad arguments: show \rsensors
bad arguments: show indexes\x20
bad arguments: show index
bad arguments: show indices
bad arguments: show indexess
bad arguments: show Indexes
bad arguments: show indexez
bad arguments: show zones\x20
bad arguments: show zone
bad arguments: show zoness
bad arguments: show Zones
bad arguments: show zones\r
bad arguments: show zonez
bad arguments: show zones 1
bad arguments: show fans
bad arguments: show logs
bad arguments: show Log
bad arguments: show log\x20
bad arguments: show configs
bad arguments: show all
bad arguments: show 1 80";

fn assert_rows(rt: &impl Abort, alloc: Global, rows: &str) -> Result<(), Fail> {
    for row in rows.split('\n') {
        let (words, line) = row.split_once(": ").unwrap_or((row, ""));
        let described = described(alloc, line.as_bytes())?;
        assert_eq!(rt; described.as_str(), words, "{line:?}");
        assert_eq!(rt; is_blank(line.as_bytes()), words == "nothing", "{line:?}");
    }
    Ok(())
}

#[test]
fn reads_lines(rt: HostRuntime) -> Result<(), Fail> {
    assert_rows(&rt, rt.alloc(), LINES)
}

#[test]
fn reads_lines_of_readings(rt: HostRuntime) -> Result<(), Fail> {
    assert_rows(&rt, rt.alloc(), READ_LINES)
}

#[test]
fn reads_lines_of_lost_readings(rt: HostRuntime) -> Result<(), Fail> {
    assert_rows(&rt, rt.alloc(), LOSE_LINES)
}

#[test]
fn reads_lines_of_ticks(rt: HostRuntime) -> Result<(), Fail> {
    assert_rows(&rt, rt.alloc(), TICK_LINES)
}

#[test]
fn reads_lines_that_ask_for_lists(rt: HostRuntime) -> Result<(), Fail> {
    assert_rows(&rt, rt.alloc(), SHOW_LINES)
}

#[test]
fn reads_lines_that_are_no_text(rt: HostRuntime) -> Result<(), Fail> {
    let rows: &[(&[u8], &str)] = &[
        (b"#\xff\x00", "nothing"),
        (b"\xff", "unknown command"),
        (b"\xff#", "unknown command"),
        (b"pl\xfcg 1 80 00", "unknown command"),
        (b"plug\xff 1 80 00", "unknown command"),
        (b"\x80unplug 1 80", "unknown command"),
        (b"\xf0lug 1 80 00", "unknown command"),
        (b"plug \xff 80 00", "bad arguments"),
        (b"unplug 1 8\xff", "bad arguments"),
        (b"config \xff", "bad arguments"),
        (b"plug 1 128 \xff", "place out of range"),
        (b"plug 1 80 00\r\n", "bad hexadecimal digits"),
        (b"plug 1 80 \xff", "bad hexadecimal digits"),
        (b"plug 1 80 \xff\xff", "bad hexadecimal digits"),
        (b"plug 1 80 0\xe9", "bad hexadecimal digits"),
    ];
    for &(line, words) in rows {
        let described = described(rt.alloc(), line)?;
        assert_eq!(rt; described.as_str(), words, "{line:?}");
    }
    Ok(())
}

#[test]
fn reads_names_of_any_bytes(rt: HostRuntime) -> Result<(), Fail> {
    let rows: &[(&[u8], &str)] = &[
        (b"read \xc3\xa9 5", "read [\u{e9}] 5"),
        (b"read \xf4\x8f\xbf\xbf 5", "read [\u{10ffff}] 5"),
        (b"read T\nU 5", "read [T\nU] 5"),
        (b"lose \xe2\x82\xac", "lose [\u{20ac}]"),
        (b"lose T\n", "lose [T\n]"),
        (b"re\xffd T 5", "unknown command"),
        (b"read\xff T 5", "unknown command"),
        (b"lose\x80 T", "unknown command"),
        (b"show\xff frus", "unknown command"),
        (b"read \xff 5", "bad arguments"),
        (b"read T\x80 5", "bad arguments"),
        (b"read \xc3 5", "bad arguments"),
        (b"read \xc0\x80 5", "bad arguments"),
        (b"read \xed\xa0\x80 5", "bad arguments"),
        (b"read \xf4\x90\x80\x80 5", "bad arguments"),
        (b"read T \xff", "bad arguments"),
        (b"read \xff x", "bad arguments"),
        (b"lose \xff", "bad arguments"),
        (b"lose T\xc3", "bad arguments"),
        (b"lose \xa9T", "bad arguments"),
        (b"lose \xe2\x82", "bad arguments"),
        (b"show \xff", "bad arguments"),
        (b"show frus\xff", "bad arguments"),
        (b"show \xffrus", "bad arguments"),
    ];
    for &(line, words) in rows {
        let described = described(rt.alloc(), line)?;
        assert_eq!(rt; described.as_str(), words, "{line:?}");
    }
    Ok(())
}
