use crate::cases::{play_cases, play_cases_over, play_each, play_each_over};
use crate::play::{Outside, SOUND};
use crate::ticks::BOX_15;
use std::test::Fail;

// A source that fails at once. A run over it that ends otherwise did not read.
const UNREAD: &[Outside] = &[Outside {
    read_fail: 0,
    ..SOUND
}];

// Words that are refused, and nothing is read. No file is there either.
const REFUSED: &str = r#"
== each line by itself
words --help
words -h
words --version
words --nothing
words -x
words --stric
words --strict --strict
words --strict=1
words --log-cap
words --log-cap 0
words --log-cap 1001
words --log-cap=
words --log-cap five
words --log-cap -0
words --log-cap 5 --log-cap 5
words --sample
words --sample 2147483648
words --sample -1
words --sample 1 --sample 1
words --sample 1 a.json
words a.json --sample=1
words a.json --help
-> Usage
usage: bmcreplay [--strict] [--log-cap N] [--sample N] [CONFIG]..
"#;

// Words that are taken, and name no file.
const TAKEN: &str = r#"
== each line by itself
words --strict
words --log-cap 1
words --log-cap=7
words --log-cap +1000
words --log-cap=007 --strict
words --
words --strict --
-> Done
"#;

#[test]
fn words_of_commands(rt: HostRuntime) -> Result<(), Fail> {
    play_each_over(&rt, rt.alloc(), REFUSED, &[], UNREAD)?;
    play_each(&rt, rt.alloc(), TAKEN, &[])
}

// In strict mode the fans of a zone in failsafe get exactly its percent.
const STRICT: &str = r#"
== the duty before is greater, and stays
block BOX_15
read T 30000
read Tach 2000
tick 21
show zones
-> Done
0 new board "Box" 1
0 new sensor "T"
0 new sensor "Tach"
0 new fan "Fan 1"
0 new zone "Z"
0 new controller "TP"
0 new controller "FP"
1 duty fan "Fan 1" 20.000
21 failsafe zone "Z"
zone "Z" failsafe 2000.000
fan "Fan 1" 20.000
== in strict mode it goes
words --strict
block BOX_15
read T 30000
read Tach 2000
tick 21
show zones
-> Done
0 new board "Box" 1
0 new sensor "T"
0 new sensor "Tach"
0 new fan "Fan 1"
0 new zone "Z"
0 new controller "TP"
0 new controller "FP"
1 duty fan "Fan 1" 20.000
21 failsafe zone "Z"
21 duty fan "Fan 1" 15.000
zone "Z" failsafe 2000.000
fan "Fan 1" 15.000
"#;

#[test]
fn strict_commands(rt: HostRuntime) -> Result<(), Fail> {
    play_cases(&rt, rt.alloc(), STRICT, &[("BOX_15", BOX_15, "")])
}

// Samples, for which nothing is read.
const SAMPLES: &str = r#"
== a sample
words --sample 7
jump
-> Done
sample 7 lines 20003 refused 0 bytes 69593
"#;

#[test]
fn samples(rt: HostRuntime) -> Result<(), Fail> {
    play_cases_over(&rt, rt.alloc(), SAMPLES, &[], UNREAD)
}
